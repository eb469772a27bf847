//! The attempts that wait for an answer, in order of lease.
ghost use Rattle.std.specs.Prelude.{◌≡◌, is_some, OnOk, OnErr};
ghost use Rattle.std.specs.Option.{option_copied};
ghost use Rattle.std.specs.List.{slice_get};
ghost use Rattle.std.specs.FinMap as map;
ghost use Rattle.claim_laws.specs.Nodes.{has_aged};
ghost use Rattle.reconciler.specs.Due.{due_in};

use claim_types::{Attempt, LeaseId, NoMemory};
use std::alloc::Global;
use std::collections::BTreeMap;
use std::marker::Model;

/// The attempts that wait for an answer, in order of lease. Contracts see them as a finite map.
#[derive(Drop)]
pub struct Attempts {
    entries: BTreeMap<LeaseId, Attempt>,
}

impl Model for Attempts {
    ghost use Rattle.std.specs.FinMap.{FinMap, code, from_entries};
    ghost use Rattle.claim_types.specs.Order.{lease_cmp};
    ghost use Rattle.claim_types.specs.declared.rule.Attempt.{Attempt};
    ghost use Rattle.claim_types.specs.contracts.lease.LeaseId as lease_type;
    ghost use Rattle.claim_types.specs.contracts.rule.Attempt as attempt_type;

    ghost Value = { FinMap lease_cmp Attempt };

    ghost coded = { code lease_type.the_row.coded attempt_type.the_row.coded };

    ghost view = { λ a. from_entries a.entries.entries };
}

// Whether the age of an attempt has reached the threshold. It is 0 where the clock went back.
fn has_aged(attempt: &Attempt, threshold: u64, now: u64) -> bool
    ensures { result ≡ has_aged threshold now (Some attempt.now) }
{
    threshold <= now.saturating_sub(attempt.since)
}

impl Attempts {
    /// None waits. It takes no memory.
    pub fn new(alloc: Global) -> Self
        ensures { result ≡ map.empty }
    {
        Attempts {
            entries: BTreeMap::new(alloc),
        }
    }

    /// How many wait.
    pub fn len(&self) -> usize
        ensures { result ≡ map.len self.now }
    {
        self.entries.len()
    }

    /// The attempt of a lease, if it waits.
    pub fn get(&self, lease: LeaseId) -> Option<&Attempt>
        ensures { option_copied result ≡ map.get self.now lease }
    {
        self.entries.get(&lease)
    }

    /// Whether the attempt of a lease waits.
    pub fn has(&self, lease: LeaseId) -> bool
        ensures { result ≡ is_some (map.get self.now lease) }
    {
        self.get(lease).is_some()
    }

    /// Puts an attempt at a lease.
    pub fn put(&mut self, lease: LeaseId, attempt: Attempt) -> Result<(), NoMemory>
        ensures ok { OnOk result (self.new ≡ map.insert self.old lease attempt) }
        ensures err { OnErr result (self.new ≡ self.old) }
    {
        self.entries.insert(lease, attempt)?;
        Ok(())
    }

    /// Takes the attempt of a lease away, if it waits. It takes no memory.
    pub fn remove(&mut self, lease: LeaseId)
        ensures { self.new ≡ map.remove self.old lease }
    {
        let _ = self.entries.remove(&lease);
    }

    /// The least lease whose attempt has waited for the threshold, if there is one.
    pub fn first_due(&self, threshold: u64, now: u64) -> Option<LeaseId>
        ensures { result ≡ slice_get (due_in threshold now self.now) 0 }
    {
        for (lease, attempt) in &self.entries {
            if has_aged(attempt, threshold, now) {
                return Some(*lease);
            }
        }
        None
    }
}
