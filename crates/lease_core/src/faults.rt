ghost use Rattle.std.specs.Prelude.{◌≡◌};
ghost use Rattle.lease_core.specs.declared.faults.BeginFault.TheVariants.{Memory as BeginMemory};
ghost use Rattle.lease_core.specs.declared.faults.RollbackFault.TheVariants.{Memory as RollbackMemory};

use claim_types::{NoMemory, Refusal};

/// Why a lease was not begun. The state is as it was.
#[derive(Clone, Copy, Debug, PartialEq, Eq)]
pub enum BeginFault {
    /// What the judge says.
    Refused(Refusal),
    /// Want of memory.
    Memory,
}

/// Why a lease was not committed. The state is as it was.
#[derive(Clone, Copy, Debug, PartialEq, Eq)]
pub enum CommitFault {
    /// The lease is neither open nor settled.
    Unknown,
    /// The lease is settled as rolled back.
    WasRolledBack,
}

/// Why a lease was not rolled back. The state is as it was.
#[derive(Clone, Copy, Debug, PartialEq, Eq)]
pub enum RollbackFault {
    /// The lease is settled as committed.
    WasCommitted,
    /// Want of memory, at a lease that is neither open nor settled.
    Memory,
}

impl From<NoMemory> for BeginFault {
    ghost from_gives = { λ _ e. e ≡ BeginMemory };

    fn from(_: NoMemory) -> Self {
        BeginFault::Memory
    }
}

impl From<NoMemory> for RollbackFault {
    ghost from_gives = { λ _ e. e ≡ RollbackMemory };

    fn from(_: NoMemory) -> Self {
        RollbackFault::Memory
    }
}
