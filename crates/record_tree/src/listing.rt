//! The claims of all records.
ghost use Rattle.std.specs.Prelude.{◌≡◌, [], map, IfOk};
ghost use Rattle.claim_map.specs.Claims.{claims_from};
ghost use Rattle.claim_map.specs.Trees.{AreAscending};
ghost use Rattle.record_tree.specs.Listed.{item_of as the_item};

use crate::routes::claim_at;
use crate::walk::route_among;
use claim_types::{ClaimItem, ClaimItems, Create, Creates, NoMemory, Record};
use std::alloc::Global;

/// What these records claim, in their order.
pub fn claims(alloc: Global, records: &[Record]) -> Result<Creates, NoMemory>
    requires { AreAscending 0 records.now }
    ensures { IfOk result (λ claims. claims ≡ claims_from [] records.now) }
{
    let mut claims = Creates::new(alloc);
    for item in records {
        let above = route_among(alloc, claims.as_slice(), item.parent)?;
        let name = item.name.as_slice();
        let claim = claim_at(alloc, above, item.id, item.kind, item.parent, name)?;
        claims.push(claim)?;
    }
    Ok(claims)
}

fn item_of(claim: Create) -> ClaimItem
    ensures { result ≡ the_item claim }
{
    ClaimItem {
        key: claim.key,
        subject: claim.subject,
        origin: claim.origin,
    }
}

/// The same as items of a list.
pub fn items(alloc: Global, records: &[Record]) -> Result<ClaimItems, NoMemory>
    requires { AreAscending 0 records.now }
    ensures { IfOk result (λ items. items ≡ map the_item (claims_from [] records.now)) }
{
    let claims = claims(alloc, records)?.into_vec();
    let items = claims
        .into_iter()
        .map(|claim| item_of(claim))
        .collect(alloc)?;
    Ok(ClaimItems::from_vec(items))
}
