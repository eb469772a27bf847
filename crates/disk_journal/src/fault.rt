ghost use Rattle.std.specs.Prelude.{◌≡◌};
ghost use Rattle.disk_journal.specs.declared.fault.JournalFault.TheVariants.{Failed, Memory};
ghost use Rattle.disk_journal.specs.declared.fault.MakeFault.TheVariants.{Failed as MakeFailed};

use crate::DiskFailed;
use cells_base::NoMemory;
use std::alloc::{AllocError, AllocFailed};

/// Why no journal was made.
#[derive(Clone, Copy, Debug, PartialEq, Eq)]
pub enum MakeFault {
    /// The file has this size in bytes, which is not 0.
    FileInUse { size: u64 },
    /// A call of the disk failed.
    Failed,
}

impl From<DiskFailed> for MakeFault {
    ghost from_gives = { λ _ e. e ≡ MakeFailed };

    fn from(_: DiskFailed) -> Self {
        MakeFault::Failed
    }
}

/// Why no journal was opened.
#[derive(Clone, Copy, Debug, PartialEq, Eq)]
pub enum JournalFault {
    /// The bytes are no journal. The place that shows it is 0 where they are fewer than 17 or have another
    /// header, and else that of an open gate behind which no record with its next gate stands.
    NotAJournal { at: u64 },
    /// A call of the disk failed.
    Failed,
    /// There was no memory.
    Memory,
}

impl From<DiskFailed> for JournalFault {
    ghost from_gives = { λ _ e. e ≡ Failed };

    fn from(_: DiskFailed) -> Self {
        JournalFault::Failed
    }
}

impl From<NoMemory> for JournalFault {
    ghost from_gives = { λ _ e. e ≡ Memory };

    fn from(_: NoMemory) -> Self {
        JournalFault::Memory
    }
}

impl From<AllocError> for JournalFault {
    ghost from_gives = { λ _ e. e ≡ Memory };

    fn from(_: AllocError) -> Self {
        JournalFault::Memory
    }
}

impl<T: Drop> From<AllocFailed<T>> for JournalFault {
    ghost from_gives = { λ _ e. e ≡ Memory };

    fn from(_: AllocFailed<T>) -> Self {
        JournalFault::Memory
    }
}
