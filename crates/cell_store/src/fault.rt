//! Why a call on a store did nothing, or not all.
ghost use Rattle.std.specs.Prelude.{◌≡◌};
ghost use Rattle.cell_store.specs.declared.fault.CellOpenFault.TheVariants.{Failed as OpenFailed, Memory as OpenMemory};
ghost use Rattle.cell_store.specs.declared.fault.RecordFault.TheVariants.{Failed as RecordFailed, Memory as RecordMemory};
ghost use Rattle.cell_store.specs.declared.fault.StoreFault.TheVariants.{Failed as StoreFailed, Memory as StoreMemory};

use claim_types::NoMemory;
use disk_journal::{DiskFailed, JournalFault};

/// Why a cell's store was not opened, in the order in which the reasons are sought.
#[derive(Clone, Copy, Debug, PartialEq, Eq)]
pub enum CellOpenFault {
    /// The file is no journal, which shows in this place.
    NotAJournal { at: u64 },
    /// The entry with this index from 0 is outside the grammar, or is not legal in its turn.
    BadEntry { index: u64 },
    /// The cell has had its greatest epoch.
    EpochsSpent,
    /// A call of the disk failed.
    Failed,
    /// Want of memory.
    Memory,
}

/// Why a change was not recorded.
#[derive(Clone, Copy, Debug, PartialEq, Eq)]
pub enum RecordFault {
    /// On the present records, which have the version `now`, the change is refused or has other operations
    /// than on those of the version `then`.
    Changed { then: u64, now: u64 },
    /// A call of the disk failed. The store is to be opened again.
    Failed,
    /// Want of memory. Nothing changed.
    Memory,
}

/// Why a range was not kept.
#[derive(Clone, Copy, Debug, PartialEq, Eq)]
pub enum StoreFault {
    /// A call of the disk failed. The store is to be opened again.
    Failed,
    /// Want of memory. Nothing changed.
    Memory,
}

impl From<NoMemory> for CellOpenFault {
    ghost from_gives = { λ _ e. e ≡ OpenMemory };

    fn from(_: NoMemory) -> Self {
        CellOpenFault::Memory
    }
}

impl From<JournalFault> for CellOpenFault {
    ghost use Rattle.cell_store.specs.Opening.{fault_of};

    ghost from_gives = { λ e f. f ≡ fault_of e };

    fn from(fault: JournalFault) -> Self {
        match fault {
            JournalFault::NotAJournal { at } => CellOpenFault::NotAJournal { at },
            JournalFault::Failed => CellOpenFault::Failed,
            JournalFault::Memory => CellOpenFault::Memory,
        }
    }
}

impl From<DiskFailed> for CellOpenFault {
    ghost from_gives = { λ _ e. e ≡ OpenFailed };

    fn from(_: DiskFailed) -> Self {
        CellOpenFault::Failed
    }
}

impl From<NoMemory> for RecordFault {
    ghost from_gives = { λ _ e. e ≡ RecordMemory };

    fn from(_: NoMemory) -> Self {
        RecordFault::Memory
    }
}

impl From<DiskFailed> for RecordFault {
    ghost from_gives = { λ _ e. e ≡ RecordFailed };

    fn from(_: DiskFailed) -> Self {
        RecordFault::Failed
    }
}

impl From<NoMemory> for StoreFault {
    ghost from_gives = { λ _ e. e ≡ StoreMemory };

    fn from(_: NoMemory) -> Self {
        StoreFault::Memory
    }
}

impl From<DiskFailed> for StoreFault {
    ghost from_gives = { λ _ e. e ≡ StoreFailed };

    fn from(_: DiskFailed) -> Self {
        StoreFault::Failed
    }
}
