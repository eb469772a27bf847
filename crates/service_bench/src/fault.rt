use cell_registry::RegistryFault;
use claim_service::{NodeError, ServiceOpenFault};
use claim_types::{KeyFault, NoMemory};
use disk_journal::MakeFault;
use std::alloc::AllocError;
use std::io;

/// Why a run ended early.
#[derive(Clone, Copy, Drop)]
pub enum Fault {
    /// The file is in use.
    InUse,
    Memory,
    /// A request was refused, or asks for what there is not.
    Refused,
    /// The disk, the clock or the output failed, or the file is no journal of a service.
    Outside,
}

impl From<NoMemory> for Fault {
    fn from(_: NoMemory) -> Self {
        Fault::Memory
    }
}

impl From<AllocError> for Fault {
    fn from(_: AllocError) -> Self {
        Fault::Memory
    }
}

impl From<KeyFault> for Fault {
    fn from(_: KeyFault) -> Self {
        Fault::Refused
    }
}

impl From<RegistryFault> for Fault {
    fn from(_: RegistryFault) -> Self {
        Fault::Refused
    }
}

impl From<NodeError> for Fault {
    fn from(error: NodeError) -> Self {
        match error {
            NodeError::Failed => Fault::Outside,
            NodeError::Memory => Fault::Memory,
        }
    }
}

impl From<ServiceOpenFault> for Fault {
    fn from(_: ServiceOpenFault) -> Self {
        Fault::Outside
    }
}

impl From<MakeFault> for Fault {
    fn from(fault: MakeFault) -> Self {
        match fault {
            MakeFault::FileInUse { .. } => Fault::InUse,
            MakeFault::Failed => Fault::Outside,
        }
    }
}

impl From<io::Error> for Fault {
    fn from(_: io::Error) -> Self {
        Fault::Outside
    }
}
