ghost use Rattle.std.specs.Prelude.{◌≡◌, IfOk};

use claim_types::{ClaimKey, Copied, Holding, How, Items, LeaseId, NoMemory, Operations};
use std::alloc::Global;

/// A key that is held, and by whom.
#[derive(Debug, Drop)]
pub struct HeldItem {
    pub key: ClaimKey,
    pub holding: Holding,
}

/// A lease that has ended, and how.
#[derive(Clone, Copy, Debug, PartialEq, Eq)]
pub struct DoneItem {
    pub lease: LeaseId,
    pub how: How,
}

/// A lease that is open, and its operations.
#[derive(Debug, Drop)]
pub struct BegunItem {
    pub lease: LeaseId,
    pub ops: Operations,
}

/// Held keys, in order.
pub type HeldItems = Items<HeldItem>;

/// Leases that have ended, in order.
pub type DoneItems = Items<DoneItem>;

/// Leases that are open, in order.
pub type BegunItems = Items<BegunItem>;

/// All that a [`crate::Leases`] is made of, each part in ascending order of key or lease.
#[derive(Debug, Drop)]
pub struct LeaseParts {
    pub held: HeldItems,
    pub done: DoneItems,
    pub begun: BegunItems,
}

impl Copied for HeldItem {
    fn copy(&self, alloc: Global) -> Result<Self, NoMemory> {
        Ok(HeldItem {
            key: self.key.copy(alloc)?,
            holding: self.holding,
        })
    }
}

impl Copied for DoneItem {
    fn copy(&self, _alloc: Global) -> Result<Self, NoMemory> {
        Ok(*self)
    }
}

impl Copied for BegunItem {
    fn copy(&self, alloc: Global) -> Result<Self, NoMemory> {
        Ok(BegunItem {
            lease: self.lease,
            ops: self.ops.copy(alloc)?,
        })
    }
}
