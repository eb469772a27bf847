ghost use Rattle.std.specs.Prelude.{◌≡◌, ◌↔◌, IsTrue, IfSome, IfNone};
ghost use Rattle.claim_types.specs.Leases.{IsLease, lease_bytes, NamesLease, is_lease, lease_in, numbers_in};

use crate::{GREATEST_ATTEMPT, GREATEST_CELL, Origin, Subject};
use uuid::Uuid;

/// A lease, named by the cell that drew it. Leases are ordered by cell, epoch and attempt.
#[derive(Clone, Copy, Debug, PartialEq, Eq, PartialOrd, Ord)]
pub struct LeaseId {
    /// From 1 to 999.
    pub cell: u16,
    /// Which opening of the cell's store drew it, from 1.
    pub epoch: u32,
    /// Which attempt of that epoch it is, from 1 to 2^62 - 1.
    pub attempt: u64,
}

/// How a lease ended.
#[derive(Clone, Copy, Debug, PartialEq, Eq)]
pub enum How {
    Committed,
    RolledBack,
}

/// Who holds a claim key, and for which record.
#[derive(Clone, Copy, Debug, PartialEq, Eq)]
pub struct Holding {
    pub cell: u16,
    pub subject: Subject,
    pub origin: Origin,
}

// The variant of a lease's UUID, above the 62 bits of the attempt.
const VARIANT: u64 = 0x8000_0000_0000_0000;

impl LeaseId {
    fn is_within_bounds(self) -> bool
        ensures test { result ≡ is_lease self }
        ensures fact { IsTrue result ↔ IsLease self }
    {
        1 <= self.cell
            && self.cell <= GREATEST_CELL
            && 1 <= self.epoch
            && 1 <= self.attempt
            && self.attempt <= GREATEST_ATTEMPT
    }

    /// The UUID of version 8 that names the lease: 16 bits of cell, 32 of epoch, the version,
    /// twelve zero bits, the variant, 62 bits of attempt.
    pub fn to_uuid(self) -> Uuid
        requires { IsLease self }
        ensures { result ≡ lease_bytes self }
    {
        let [a, b] = self.cell.to_be_bytes();
        let [c, d, e, f] = self.epoch.to_be_bytes();
        let [s, t, u, v, w, x, y, z] = (VARIANT + self.attempt).to_be_bytes();
        Uuid::from_bytes([a, b, c, d, e, f, 0x80, 0, s, t, u, v, w, x, y, z])
    }

    // The numbers that stand in the places of a lease's numbers.
    fn numbers_in(id: Uuid) -> LeaseId
        ensures { result ≡ numbers_in id }
    {
        let [a, b, c, d, e, f, _, _, s, t, u, v, w, x, y, z] = id.into_bytes();
        let low = u64::from_be_bytes([s, t, u, v, w, x, y, z]);
        LeaseId {
            cell: u16::from_be_bytes([a, b]),
            epoch: u32::from_be_bytes([c, d, e, f]),
            attempt: low.saturating_sub(VARIANT),
        }
    }

    /// The lease that a UUID names, if it names one.
    pub fn from_uuid(id: Uuid) -> Option<LeaseId>
        ensures value { result ≡ lease_in id }
        ensures some { IfSome result (λ lease. IsLease lease × (lease_bytes lease ≡ id)) }
        ensures none { IfNone result (NamesLease id → ⊥) }
    {
        let lease = LeaseId::numbers_in(id);
        if !lease.is_within_bounds() {
            return None;
        }
        if lease.to_uuid() == id {
            return Some(lease);
        }
        None
    }
}
