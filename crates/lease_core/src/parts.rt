ghost use Rattle.std.specs.Prelude.{◌≡◌, IfOk};
ghost use Rattle.std.specs.FinMap as map;
ghost use Rattle.key_table.specs.Picked.{picked};
ghost use Rattle.lease_core.specs.Kept.{HasHeld};
ghost use Rattle.lease_core.specs.Lists.{held_entries, begun_entries, done_entries};

use crate::lease_map::LeaseMap;
use crate::rows::Rows;
use crate::{BegunItem, BegunItems, DoneItem, DoneItems, HeldItem, HeldItems};
use claim_types::{ClaimKey, Copied, Holding, How, Items, NoMemory, Operations};
use key_table::Keys;
use std::alloc::Global;
use std::collections::BTreeMap;

// The holders in order of key, from places that have all of theirs.
fn by_key(alloc: Global, keys: &Keys, rows: &Rows) -> Result<BTreeMap<ClaimKey, Holding>, NoMemory>
    requires { HasHeld rows.now keys.now.holder }
    ensures { IfOk result (λ m. m.entries ≡ map.entries keys.now.holder) }
{
    let mut holders = BTreeMap::new(alloc);
    for place in rows.places.iter() {
        let key = &place.key;
        if let Some(holding) = keys.state(key.bucket, key.value.as_slice()).holder {
            holders.insert(key.copy(alloc)?, holding)?;
        }
    }
    Ok(holders)
}

/// The holders in order of key, from places that have all of theirs.
pub fn holders(alloc: Global, keys: &Keys, rows: &Rows) -> Result<HeldItems, NoMemory>
    requires { HasHeld rows.now keys.now.holder }
    ensures { IfOk result (λ items. held_entries items ≡ map.entries keys.now.holder) }
{
    let mut items = Vec::new(alloc);
    for (key, holding) in by_key(alloc, keys, rows)? {
        items.push(HeldItem { key, holding })?;
    }
    Ok(Items::from_vec(items))
}

/// The leases that have ended, in order.
pub fn settled(alloc: Global, settled: &LeaseMap<Option<How>>) -> Result<DoneItems, NoMemory>
    ensures { IfOk result (λ items. done_entries items ≡ map.entries (picked (λ how. how) settled.now)) }
{
    let mut items = Vec::new(alloc);
    for (lease, how) in settled.entries.iter() {
        if let Some(how) = how {
            items.push(DoneItem {
                lease: *lease,
                how: *how,
            })?;
        }
    }
    Ok(Items::from_vec(items))
}

/// The leases that are open, in order.
pub fn open_leases(
    alloc: Global,
    open_leases: &LeaseMap<Operations>,
) -> Result<BegunItems, NoMemory>
    ensures { IfOk result (λ items. begun_entries items ≡ map.entries open_leases.now) }
{
    let mut items = Vec::new(alloc);
    for (lease, ops) in open_leases.entries.iter() {
        items.push(BegunItem {
            lease: *lease,
            ops: ops.copy(alloc)?,
        })?;
    }
    Ok(Items::from_vec(items))
}
