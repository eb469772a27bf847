//! The rules that speak against a change, each by itself.
ghost use Rattle.std.specs.Prelude.{◌≡◌, ◌==◌, not, nat_eq, IfOk, Some, None};
ghost use Rattle.std.specs.List.{find, list_any};
ghost use Rattle.std.specs.Str.{byte};
ghost use Rattle.claim_map.specs.Trees.{AreAscending};
ghost use Rattle.claim_map.specs.Rules.{where_true, place_rule, name_rule, same_rule, count_rule, identifier_rule, is_named as has_name, may_stand_below as the_may};
ghost use Rattle.claim_types.specs.declared.record.Kind.TheVariants.{Organization};
ghost use Rattle.claim_types.specs.declared.record.Record.{Record};
ghost use Rattle.record_tree.specs.Answer.{Refuses};
ghost use Rattle.record_tree.specs.Refusals.{any_refused as some_refused, first_taken, spent_at};
ghost use Rattle.claim_types.specs.declared.rule.Rule.TheVariants.{WrongKind, HasChildren};

use crate::kinds::is_named;
use crate::places::place_of;
use claim_types::{
    ClaimKey, Copied, Create, KeyFault, Kind, NoMemory, OPERATIONS, Operations, Record, Rule,
    lowered,
};
use key_table::KeyMap;
use std::alloc::Global;

fn may_stand_below(kind: Kind, above: Kind) -> bool
    ensures { result ≡ the_may kind above }
{
    match kind {
        Kind::Organization => false,
        Kind::Group => matches!(above, Kind::Organization | Kind::Group),
        Kind::Project => matches!(above, Kind::Group | Kind::User),
        Kind::User => matches!(above, Kind::Organization),
        Kind::Key | Kind::Address => matches!(above, Kind::User),
        Kind::Domain => matches!(above, Kind::Project),
    }
}

// Where a record of a kind that has a parent would stand.
fn below(kind: Kind, above: Kind) -> Result<(), Rule>
    ensures { Refuses result (where_true (not (the_may kind above)) WrongKind) }
{
    if may_stand_below(kind, above) {
        return Ok(());
    }
    Err(Rule::WrongKind)
}

fn below_nothing(parent: u64) -> Result<(), Rule>
    ensures none { Refuses result (place_rule Organization parent None) }
{
    if parent == 0 {
        return Ok(());
    }
    Err(Rule::NoSuchRecord)
}

fn on_top(parent: u64) -> Result<(), Rule>
    ensures { (found : Record) → Refuses result (place_rule Organization parent (Some found)) }
{
    if parent == 0 {
        return Ok(());
    }
    Err(Rule::WrongKind)
}

/// Whether a record of this kind may stand below what is there.
pub fn placed(records: &[Record], kind: Kind, parent: u64) -> Result<(), Rule>
    requires { AreAscending 0 records.now }
    ensures { Refuses result (place_rule kind parent (find (λ r. nat_eq r.id parent) records.now)) }
{
    match (place_of(records, parent), kind) {
        (None, Kind::Organization) => below_nothing(parent),
        (None, _) => Err(Rule::NoSuchRecord),
        (Some(_), Kind::Organization) => on_top(parent),
        (Some(at), _) => below(kind, records[at].kind),
    }
}

/// Whether a record of this kind has a name that may change.
pub fn renamable(kind: Kind) -> Result<(), Rule>
    ensures { Refuses result (where_true (not (has_name kind)) WrongKind) }
{
    if is_named(kind) {
        return Ok(());
    }
    Err(Rule::WrongKind)
}

fn any_refused(alloc: Global, creates: &[Create]) -> Result<bool, NoMemory>
    ensures { IfOk result (λ b. b ≡ some_refused creates.now) }
{
    for create in creates {
        match ClaimKey::read(alloc, create.key.bucket, create.key.value.as_slice()) {
            Ok(_) => {}
            Err(KeyFault::Memory) => return Err(NoMemory),
            Err(_) => return Ok(true),
        }
    }
    Ok(false)
}

fn has_slash(name: &[u8]) -> bool
    ensures { result ≡ list_any (λ b. b == byte "/") name.now }
{
    name.iter().any(|b| *b == b'/')
}

/// Whether the name and the keys are in order.
pub fn well_named(alloc: Global, kind: Kind, name: &[u8], ops: &Operations) -> Result<(), Rule>
    ensures { Refuses result (name_rule kind name.now ops.now) }
{
    if is_named(kind) {
        if has_slash(name) {
            return Err(Rule::BadName);
        }
    }
    if any_refused(alloc, ops.creates.as_slice())? {
        return Err(Rule::BadName);
    }
    Ok(())
}

/// Whether another name is more than the same with other capitals.
pub fn renamed(alloc: Global, old: &[u8], new: &[u8]) -> Result<(), Rule>
    ensures { Refuses result (same_rule old.now new.now) }
{
    if lowered(alloc, old)? == lowered(alloc, new)? {
        return Err(Rule::Same);
    }
    Ok(())
}

/// Whether no record claims a created key.
pub fn untaken(alloc: Global, index: &KeyMap<u64>, creates: &[Create]) -> Result<(), Rule>
    ensures { Refuses result (first_taken index.now creates.now) }
{
    for create in creates {
        if index
            .get(create.key.bucket, create.key.value.as_slice())
            .is_some()
        {
            let key = create.key.copy(alloc)?;
            return Err(Rule::TakenHere { key });
        }
    }
    Ok(())
}

/// Whether there are no more operations than a lease may carry.
pub fn few(ops: &Operations) -> Result<(), Rule>
    ensures { Refuses result (count_rule ops.now) }
{
    let n = (ops.creates.as_slice().len() + ops.destroys.as_slice().len()) as u64;
    if n > OPERATIONS {
        return Err(Rule::TooMany { n });
    }
    Ok(())
}

fn is_parent(records: &[Record], id: u64) -> bool
    ensures { result ≡ list_any (λ r. nat_eq r.parent id) records.now }
{
    records.iter().any(|record| record.parent == id)
}

/// Whether a record has none below it.
pub fn childless(records: &[Record], id: u64) -> Result<(), Rule>
    ensures { Refuses result (where_true (list_any (λ r. nat_eq r.parent id) records.now) HasChildren) }
{
    if is_parent(records, id) {
        return Err(Rule::HasChildren);
    }
    Ok(())
}

/// Whether the tree may change once more.
pub fn unspent(version: u64) -> Result<(), Rule>
    ensures { Refuses result (spent_at version) }
{
    if version == u64::MAX {
        return Err(Rule::VersionSpent);
    }
    Ok(())
}

/// Whether there is a next identifier.
pub fn with_id(next: Option<u64>) -> Result<(), Rule>
    ensures { Refuses result (identifier_rule next) }
{
    match next {
        Some(_) => Ok(()),
        None => Err(Rule::NoIds),
    }
}
