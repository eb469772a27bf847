ghost use Rattle.std.specs.Prelude.{◌≡◌, IsSome, IfErr, IfNone, OnOk, OnErr};
ghost use Rattle.std.specs.Option.{option_copied};
ghost use Rattle.std.specs.FinMap as map;

use claim_types::{LeaseId, NoMemory};
use std::alloc::Global;
use std::collections::BTreeMap;
use std::marker::Model;

/// Something for each of some leases, in order. Contracts see it as a finite map.
#[derive(Drop)]
pub struct LeaseMap<V: Drop> {
    pub(crate) entries: BTreeMap<LeaseId, V>,
}

impl<V: Drop> Model for LeaseMap<V> {
    ghost use Rattle.std.specs.FinMap.{FinMap, code, from_entries};
    ghost use Rattle.claim_types.specs.Order.{lease_cmp};
    ghost use Rattle.claim_types.specs.contracts.lease.LeaseId as lease_type;

    ghost Value = { FinMap lease_cmp V };

    ghost coded = { code lease_type.the_row.coded V.code };

    ghost view = { λ m. from_entries m.entries.entries };
}

impl<V: Drop> LeaseMap<V> {
    /// It takes no memory.
    pub fn new(alloc: Global) -> Self
        ensures { result ≡ map.empty }
    {
        LeaseMap {
            entries: BTreeMap::new(alloc),
        }
    }

    pub fn len(&self) -> usize
        ensures { result ≡ map.len self.now }
    {
        self.entries.len()
    }

    pub fn get(&self, lease: LeaseId) -> Option<&V>
        ensures { option_copied result ≡ map.get self.now lease }
    {
        self.entries.get(&lease)
    }

    /// Puts a value at a lease, or gives the value back where it finds no memory.
    pub fn put(&mut self, lease: LeaseId, value: V) -> Result<(), V>
        ensures ok { OnOk result (self.new ≡ map.insert self.old lease value) }
        ensures err { OnErr result (self.new ≡ self.old) }
        ensures value { IfErr result (λ v. v ≡ value) }
    {
        match self.entries.insert(lease, value) {
            Ok(_) => Ok(()),
            Err(failed) => Err(failed.value.1),
        }
    }

    /// Puts a value at a lease.
    pub fn make(&mut self, lease: LeaseId, value: V) -> Result<(), NoMemory>
        ensures ok { OnOk result (self.new ≡ map.insert self.old lease value) }
        ensures err { OnErr result (self.new ≡ self.old) }
    {
        self.entries.insert(lease, value)?;
        Ok(())
    }

    /// Puts another value at a lease that is there, which takes no memory.
    pub fn set(&mut self, lease: LeaseId, value: V)
        requires { IsSome (map.get self.old lease) }
        ensures { self.new ≡ map.insert self.old lease value }
    {
        let _ = self.entries.insert(lease, value);
    }

    pub fn remove(&mut self, lease: LeaseId) -> Option<V>
        ensures value { result ≡ map.get self.old lease }
        ensures after { self.new ≡ map.remove self.old lease }
        ensures none { IfNone result (self.new ≡ self.old) }
    {
        self.entries.remove(&lease)
    }
}
