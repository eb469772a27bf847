ghost use Rattle.std.specs.Prelude.{◌≡◌, [], ◌∷◌, OnOk, OnErr, IfErr};
ghost use Rattle.std.specs.List.{Contains};
ghost use Rattle.std.specs.FinMap as map;
ghost use Rattle.claim_types.specs.declared.operations.Create.{Create};
ghost use Rattle.claim_types.specs.Operations.{keys_of};
ghost use Rattle.claim_map.specs.Step.{with_claims, without_keys};
ghost use Rattle.lease_core.specs.Kept.{created_keys, with_names, without_names, KeepsNames, KeepsRows, KeepsHeld, Adds, HasCreates, IsKnown};

use crate::lease_map::LeaseMap;
use crate::rows::{RowKey, Rows};
use claim_types::{ClaimKey, Copied, Create, Holding, LeaseId, NoMemory, Operations};
use key_table::Keys;
use std::alloc::Global;

// Adds the places of these creates for a cell.
fn add_rows(alloc: Global, rows: &mut Rows, cell: u16, creates: &[Create]) -> Result<(), NoMemory>
    ensures kept { Adds rows.old rows.new }
    ensures added { OnOk result (HasCreates rows.new cell creates.now) }
{
    for create in creates {
        let key = create.key.copy(alloc)?;
        rows.add(RowKey {
            cell,
            bucket: create.key.bucket,
            row: create.origin.row,
            key,
        })?;
    }
    Ok(())
}

// Names the keys of these creates for a lease.
fn name_creates(keys: &mut Keys, creates: &[Create], lease: LeaseId) -> Result<(), NoMemory>
    ensures holder { keys.new.holder ≡ keys.old.holder }
    ensures named { OnOk result (keys.new.named ≡ with_names lease (created_keys creates.now) keys.old.named) }
    ensures others { KeepsNames (created_keys creates.now) keys.old.named keys.new.named }
{
    for create in creates {
        keys.name(&create.key, lease)?;
    }
    Ok(())
}

// Names these keys for a lease.
fn name_keys(keys: &mut Keys, named: &[ClaimKey], lease: LeaseId) -> Result<(), NoMemory>
    ensures holder { keys.new.holder ≡ keys.old.holder }
    ensures named { OnOk result (keys.new.named ≡ with_names lease named.now keys.old.named) }
    ensures others { KeepsNames named.now keys.old.named keys.new.named }
{
    for key in named {
        keys.name(key, lease)?;
    }
    Ok(())
}

// No lease names these keys any more.
fn unname_keys(keys: &mut Keys, named: &[ClaimKey])
    ensures holder { keys.new.holder ≡ keys.old.holder }
    ensures named { keys.new.named ≡ without_names named.now keys.old.named }
{
    for key in named {
        keys.unname(key);
    }
}

// No lease names the key of a create any more, and its place is gone where nobody holds it.
fn unname_create(keys: &mut Keys, rows: &mut Rows, cell: u16, create: Create)
    ensures holder { keys.new.holder ≡ keys.old.holder }
    ensures named { keys.new.named ≡ map.remove keys.old.named create.key }
    ensures held { KeepsHeld keys.old.holder rows.old rows.new }
    ensures rows { KeepsRows (create.key ∷ []) rows.old rows.new }
{
    let Create { key, origin, .. } = create;
    keys.unname(&key);
    if keys
        .state(key.bucket, key.value.as_slice())
        .holder
        .is_none()
    {
        rows.remove(&RowKey {
            cell,
            bucket: key.bucket,
            row: origin.row,
            key,
        });
    }
}

// No lease names the keys of these creates any more, and the places of those that nobody holds are
// gone.
fn unname_creates(keys: &mut Keys, rows: &mut Rows, cell: u16, creates: Vec<Create>)
    ensures holder { keys.new.holder ≡ keys.old.holder }
    ensures named { keys.new.named ≡ without_names (created_keys creates.items) keys.old.named }
    ensures held { KeepsHeld keys.old.holder rows.old rows.new }
    ensures rows { KeepsRows (created_keys creates.items) rows.old rows.new }
{
    for create in creates {
        unname_create(keys, rows, cell, create);
    }
}

// Takes a key and its place away.
fn release(keys: &mut Keys, rows: &mut Rows, key: ClaimKey)
    ensures holder { keys.new.holder ≡ map.remove keys.old.holder key }
    ensures named { keys.new.named ≡ map.remove keys.old.named key }
    ensures rows { KeepsRows (key ∷ []) rows.old rows.new }
{
    let state = keys.state(key.bucket, key.value.as_slice());
    keys.release(&key);
    if let Some(holding) = state.holder {
        rows.remove(&RowKey {
            cell: holding.cell,
            bucket: key.bucket,
            row: holding.origin.row,
            key,
        });
    }
}

/// Takes these keys and their places away.
pub fn release_all(keys: &mut Keys, rows: &mut Rows, released: Vec<ClaimKey>)
    ensures holder { keys.new.holder ≡ without_keys released.items keys.old.holder }
    ensures named { keys.new.named ≡ without_names released.items keys.old.named }
    ensures rows { KeepsRows released.items rows.old rows.new }
{
    for key in released {
        release(keys, rows, key);
    }
}

/// Gives the keys of these creates to a cell, which takes no memory. No lease names them then.
pub fn claim_all(keys: &mut Keys, cell: u16, creates: &[Create])
    requires { (c : Create) → Contains creates.now c → IsKnown keys.old c.key }
    ensures holder { keys.new.holder ≡ with_claims cell creates.now keys.old.holder }
    ensures named { keys.new.named ≡ without_names (created_keys creates.now) keys.old.named }
{
    for create in creates {
        let holding = Holding {
            cell,
            subject: create.subject,
            origin: create.origin,
        };
        keys.claim(&create.key, holding);
    }
}

// Notes the claims of a lease: the places of its creates, and that it names its keys.
fn note(
    alloc: Global,
    keys: &mut Keys,
    rows: &mut Rows,
    id: LeaseId,
    ops: &Operations,
) -> Result<(), NoMemory>
    ensures holder { keys.new.holder ≡ keys.old.holder }
    ensures named { OnOk result (keys.new.named ≡ with_names id (keys_of ops.now) keys.old.named) }
    ensures others { KeepsNames (keys_of ops.now) keys.old.named keys.new.named }
    ensures rows { Adds rows.old rows.new }
    ensures added { OnOk result (HasCreates rows.new id.cell ops.now.creates) }
{
    add_rows(alloc, rows, id.cell, ops.creates.as_slice())?;
    name_creates(keys, ops.creates.as_slice(), id)?;
    name_keys(keys, ops.destroys.as_slice(), id)
}

/// Notes the claims of a lease that is to be opened, and opens it. Where it finds no memory it gives
/// the operations back, and some of their keys may be named.
pub fn enter(
    alloc: Global,
    keys: &mut Keys,
    rows: &mut Rows,
    open_leases: &mut LeaseMap<Operations>,
    id: LeaseId,
    ops: Operations,
) -> Result<(), Operations>
    ensures holder { keys.new.holder ≡ keys.old.holder }
    ensures named { OnOk result (keys.new.named ≡ with_names id (keys_of ops) keys.old.named) }
    ensures others { KeepsNames (keys_of ops) keys.old.named keys.new.named }
    ensures rows { Adds rows.old rows.new }
    ensures added { OnOk result (HasCreates rows.new id.cell ops.creates) }
    ensures ok { OnOk result (open_leases.new ≡ map.insert open_leases.old id ops) }
    ensures err { OnErr result (open_leases.new ≡ open_leases.old) }
    ensures back { IfErr result (λ o. o ≡ ops) }
{
    match note(alloc, keys, rows, id, &ops) {
        Ok(()) => open_leases.put(id, ops),
        Err(NoMemory) => Err(ops),
    }
}

/// Forgets the claims of a lease: none names its keys any more, and the places of those that nobody
/// holds are gone. It takes no memory.
pub fn forget(keys: &mut Keys, rows: &mut Rows, cell: u16, ops: Operations)
    ensures holder { keys.new.holder ≡ keys.old.holder }
    ensures named { keys.new.named ≡
        without_names (created_keys ops.creates) (without_names ops.destroys keys.old.named) }
    ensures held { KeepsHeld keys.old.holder rows.old rows.new }
    ensures rows { KeepsRows (created_keys ops.creates) rows.old rows.new }
{
    let Operations { creates, destroys } = ops;
    unname_keys(keys, destroys.as_slice());
    unname_creates(keys, rows, cell, creates.into_vec());
}
