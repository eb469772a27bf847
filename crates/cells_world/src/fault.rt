use cells_base::NoMemory;
use std::alloc::AllocError;

/// Why a cluster came to an end.
#[derive(Clone, Copy, Debug, PartialEq, Eq)]
pub enum ClusterError {
    /// Calls of the disk on this file failed.
    DiskFailed { file: u16 },
    /// Want of memory.
    Memory,
    /// A file shows that it is not to be used.
    Damaged { file: u16, fault: Damage },
}

/// Why a file is not to be used.
#[derive(Clone, Copy, Debug, PartialEq, Eq)]
pub enum Damage {
    /// It is no journal, as its bytes show at this place.
    NotAJournal { at: u64 },
    /// The entry with this index from 0 is outside the grammar, or not legal in its turn.
    BadEntry { index: u64 },
    /// It names a cell that the configuration lacks.
    ConfigLacks { cell: u16 },
    /// Its cell has used all its epochs.
    EpochsSpent,
}

impl From<NoMemory> for ClusterError {
    ghost use Rattle.cells_world.specs.declared.fault.ClusterError.TheVariants.{Memory};
    ghost use Rattle.std.specs.Prelude.{◌≡◌};

    ghost from_gives = { λ _ e. e ≡ Memory };

    fn from(_: NoMemory) -> Self {
        ClusterError::Memory
    }
}

impl From<AllocError> for ClusterError {
    ghost use Rattle.cells_world.specs.declared.fault.ClusterError.TheVariants.{Memory};
    ghost use Rattle.std.specs.Prelude.{◌≡◌};

    ghost from_gives = { λ _ e. e ≡ Memory };

    fn from(_: AllocError) -> Self {
        ClusterError::Memory
    }
}
