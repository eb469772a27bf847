ghost use Rattle.std.specs.Prelude.{◌≡◌};
ghost use Rattle.cell_registry.specs.Faults.{key_text, fault_number};
ghost use Rattle.cell_registry.specs.declared.fault.RegistryFault.TheVariants.{Memory as RegistryMemory};
ghost use Rattle.cell_registry.specs.declared.fault.RangeFault.TheVariants.{Memory as RangeMemory};

use claim_types::NoMemory;
use std::alloc::AllocFailed;

/// What a configuration gives.
#[derive(Clone, Copy, Debug, PartialEq, Eq)]
pub enum Name {
    Cell,
    Id,
    Prefix,
    Width,
    Threshold,
}

impl Name {
    /// The key under which it stands.
    pub fn key(self) -> &'static str
        ensures { result.now ≡ key_text self }
    {
        match self {
            Name::Cell => "cell",
            Name::Id => "id",
            Name::Prefix => "prefix",
            Name::Width => "width",
            Name::Threshold => "threshold",
        }
    }
}

/// Why a text is no configuration, in the order in which the reasons are sought over the whole text.
#[derive(Clone, Copy, Debug, PartialEq, Eq)]
pub enum RegistryFault {
    /// The text is not in UTF-8, or TOML refuses it.
    Text,
    /// More than 16 cells.
    TooManyCells,
    /// This is absent or of another kind. Where there is no cell at all it is [`Name::Cell`].
    Missing { name: Name },
    /// This is outside its bounds, or a threshold of another kind.
    BadValue { name: Name },
    /// A second cell with this id.
    Duplicate { id: u16 },
    /// Of two cells the prefix of one is that of the other, or begins it. `a` stands before `b`.
    PrefixOverlap { a: u16, b: u16 },
    /// Want of memory.
    Memory,
}

impl RegistryFault {
    /// The number under which the reason is reported, from 1 to 6. Want of memory has none.
    pub fn number(&self) -> Option<u8>
        ensures { result ≡ fault_number self.now }
    {
        match self {
            RegistryFault::Text => Some(1),
            RegistryFault::TooManyCells => Some(2),
            RegistryFault::Missing { .. } => Some(3),
            RegistryFault::BadValue { .. } => Some(4),
            RegistryFault::Duplicate { .. } => Some(5),
            RegistryFault::PrefixOverlap { .. } => Some(6),
            RegistryFault::Memory => None,
        }
    }
}

impl From<NoMemory> for RegistryFault {
    ghost from_gives = { λ _ e. e ≡ RegistryMemory };

    fn from(_: NoMemory) -> Self {
        RegistryFault::Memory
    }
}

/// Why a cell is given no range.
#[derive(Clone, Copy, Debug, PartialEq, Eq)]
pub enum RangeFault {
    /// The configuration names no such cell.
    UnknownCell,
    /// The number is above the cell's next one, which is this.
    TooFar { next: u64 },
    /// The range would pass the greatest identifier. The last range given ends with this one, or it is 0.
    Exhausted { last: u64 },
    /// Want of memory.
    Memory,
}

impl<T: Drop> From<AllocFailed<T>> for RangeFault {
    ghost from_gives = { λ _ e. e ≡ RangeMemory };

    fn from(_: AllocFailed<T>) -> Self {
        RangeFault::Memory
    }
}
