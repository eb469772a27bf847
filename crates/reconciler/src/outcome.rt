//! What a reply brought about.
ghost use Rattle.std.specs.Prelude.{◌≡◌, [], None, IfOk};
ghost use Rattle.reconciler.specs.declared.outcome.AgentFault.TheVariants.{Failed, Memory};
ghost use Rattle.reconciler.specs.Faults.{fault_of_store};

use cell_store::StoreFault;
use claim_types::{Copied, Denial, Ended, Items, LeaseId, NoMemory, Request};
use disk_journal::DiskFailed;
use std::alloc::{AllocError, Global};

/// Requests, in order.
pub type Requests = Items<Request>;

/// What a reply brought about.
#[derive(Debug, Drop)]
pub struct Outcome {
    /// The lease whose change was recorded, with its row.
    pub recorded: Option<LeaseId>,
    /// The attempt that ended without being recorded.
    pub ended: Option<Ended>,
    /// The requests to send, in this order.
    pub to_send: Requests,
}

/// Why a reply was not taken in.
#[derive(Clone, Copy, Debug, PartialEq, Eq)]
pub enum AgentFault {
    /// A call of the disk failed. The store is to be opened again, and its attempts are gone.
    Failed,
    /// Want of memory. Nothing changed.
    Memory,
}

impl From<NoMemory> for AgentFault {
    ghost from_gives = { λ _ e. e ≡ Memory };

    fn from(_: NoMemory) -> Self {
        AgentFault::Memory
    }
}

impl From<AllocError> for AgentFault {
    ghost from_gives = { λ _ e. e ≡ Memory };

    fn from(_: AllocError) -> Self {
        AgentFault::Memory
    }
}

impl From<DiskFailed> for AgentFault {
    ghost from_gives = { λ _ e. e ≡ Failed };

    fn from(_: DiskFailed) -> Self {
        AgentFault::Failed
    }
}

impl From<StoreFault> for AgentFault {
    ghost from_gives = { λ s e. e ≡ fault_of_store s };

    fn from(fault: StoreFault) -> Self {
        match fault {
            StoreFault::Failed => AgentFault::Failed,
            StoreFault::Memory => AgentFault::Memory,
        }
    }
}

/// Nothing was recorded, nothing ended, and nothing is sent. It takes no memory.
pub fn nothing(alloc: Global) -> Outcome
    ensures recorded { result.recorded ≡ None }
    ensures ended { result.ended ≡ None }
    ensures to_send { result.to_send ≡ [] }
{
    Outcome {
        recorded: None,
        ended: None,
        to_send: Items::new(alloc),
    }
}

/// The same denial again.
pub fn copy_of_denial(alloc: Global, denial: &Denial) -> Result<Denial, NoMemory>
    ensures { IfOk result (λ copied. copied ≡ denial.now) }
{
    Ok(match denial {
        Denial::Settled { how } => Denial::Settled { how: *how },
        Denial::OtherOperations => Denial::OtherOperations,
        Denial::NoneOrTooMany { n } => Denial::NoneOrTooMany { n: *n },
        Denial::Twice { key } => Denial::Twice {
            key: key.copy(alloc)?,
        },
        Denial::ForeignId { id } => Denial::ForeignId { id: *id },
        Denial::TooManyOpen => Denial::TooManyOpen,
        Denial::Owned { key, cell } => Denial::Owned {
            key: key.copy(alloc)?,
            cell: *cell,
        },
        Denial::Leased { key, lease } => Denial::Leased {
            key: key.copy(alloc)?,
            lease: *lease,
        },
        Denial::NotOwned { key } => Denial::NotOwned {
            key: key.copy(alloc)?,
        },
    })
}
