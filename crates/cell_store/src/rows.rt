//! The outstanding rows of a cell.
ghost use Rattle.std.specs.Prelude.{◌≡◌, ◌<◌, ◌≤◌, IsTrue, is_some, None, Err, OnOk, OnErr, insert, vec_len, vec_capacity};
ghost use Rattle.std.specs.List.{Contains};
ghost use Rattle.std.specs.FinMap as map;
ghost use Rattle.cell_store.specs.Rows.{AreInOrder, IsRowPlace};

use claim_types::{LeaseId, NoMemory, Operations};
use std::alloc::Global;
use std::marker::Model;

/// Leases in order, and beside each its operations. Contracts see it as a finite map.
#[derive(Drop)]
pub struct Rows {
    leases: Vec<LeaseId>,
    operations: Vec<Operations>,
}

impl Model for Rows {
    ghost use Rattle.std.specs.FinMap.{FinMap, code, from_sorted};
    ghost use Rattle.claim_types.specs.Order.{lease_cmp};
    ghost use Rattle.claim_types.specs.contracts.lease.LeaseId as lease_type;
    ghost use Rattle.claim_types.specs.contracts.operations.Operations as operations_type;
    ghost use Rattle.claim_types.specs.declared.operations.Operations.{Operations};
    ghost use Rattle.cell_store.specs.Rows.{row_entries, AreRows};

    ghost Value = { FinMap lease_cmp Operations };

    ghost coded = { code lease_type.the_row.coded operations_type.the_row.coded };

    ghost view = { λ r. from_sorted (row_entries r.leases.items r.operations.items) };

    ghost invariant = { λ r. AreRows r.leases.items r.operations.items };
}

// Where a lease stands among leases in order, or the place where it would stand.
fn place_of(leases: &[LeaseId], lease: LeaseId) -> Result<usize, usize>
    requires { AreInOrder leases.now }
    ensures { IsRowPlace leases.now lease result }
{
    leases.binary_search(&lease)
}

// The place where a lease would stand among leases in order that lack it.
fn new_place(leases: &[LeaseId], lease: LeaseId) -> usize
    requires order { AreInOrder leases.now }
    requires lacks { Contains leases.now lease → ⊥ }
    ensures { IsRowPlace leases.now lease (Err result) }
{
    match place_of(leases, lease) {
        Ok(at) => at,
        Err(at) => at,
    }
}

// Puts an item into a list that has room for it.
fn put_at<T: Drop>(items: &mut Vec<T>, at: usize, item: T)
    requires within { at ≤ vec_len items.old }
    requires room { vec_len items.old < vec_capacity items.old }
    ensures { items.new.items ≡ insert items.old.items at item }
{
    let _ = items.insert(at, item);
}

impl Rows {
    /// It takes no memory.
    pub fn new(alloc: Global) -> Self
        ensures { result ≡ map.empty }
    {
        Rows {
            leases: Vec::new(alloc),
            operations: Vec::new(alloc),
        }
    }

    /// The leases, in order.
    pub fn leases(&self) -> &[LeaseId]
        ensures { result.now ≡ map.keys self.now }
    {
        self.leases.as_slice()
    }

    pub fn len(&self) -> usize
        ensures { result ≡ map.len self.now }
    {
        self.leases.as_slice().len()
    }

    pub fn has(&self, lease: LeaseId) -> bool
        ensures { result ≡ is_some (map.get self.now lease) }
    {
        place_of(self.leases.as_slice(), lease).is_ok()
    }

    /// Puts a row at a lease that has none.
    pub fn put(&mut self, lease: LeaseId, ops: Operations) -> Result<(), NoMemory>
        requires { map.get self.old lease ≡ None }
        ensures ok { OnOk result (self.new ≡ map.insert self.old lease ops) }
        ensures err { OnErr result (self.new ≡ self.old) }
    {
        let at = new_place(self.leases.as_slice(), lease);
        self.leases.reserve(1)?;
        self.operations.reserve(1)?;
        put_at(&mut self.leases, at, lease);
        put_at(&mut self.operations, at, ops);
        Ok(())
    }

    /// Takes the row of a lease away, which takes no memory.
    pub fn remove(&mut self, lease: LeaseId)
        requires { IsTrue (is_some (map.get self.old lease)) }
        ensures { self.new ≡ map.remove self.old lease }
    {
        match place_of(self.leases.as_slice(), lease) {
            Ok(at) => {
                let _ = self.leases.remove(at);
                let _ = self.operations.remove(at);
            }
            Err(_) => {}
        }
    }
}
