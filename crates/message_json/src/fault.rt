ghost use Rattle.std.specs.Prelude.{◌≡◌};
ghost use Rattle.message_json.specs.declared.fault.BodyFault.TheVariants.{Memory};

use crate::Member;
use cells_base::NoMemory;
use std::alloc::{AllocError, AllocFailed};

/// Why a body is no message, in the order in which the reasons are sought.
#[derive(Clone, Copy, Debug, PartialEq, Eq)]
pub enum BodyFault {
    /// The text is refused by JSON, or is no object.
    NotJson,
    /// This member is absent.
    Missing { name: Member },
    /// This member is of another JSON kind.
    WrongKind { name: Member },
    /// This member is outside its bounds.
    BadValue { name: Member },
    /// Want of memory.
    Memory,
}

impl From<NoMemory> for BodyFault {
    ghost from_gives = { λ _ e. e ≡ Memory };

    fn from(_: NoMemory) -> Self {
        BodyFault::Memory
    }
}

impl From<AllocError> for BodyFault {
    ghost from_gives = { λ _ e. e ≡ Memory };

    fn from(_: AllocError) -> Self {
        BodyFault::Memory
    }
}

impl<T: Drop> From<AllocFailed<T>> for BodyFault {
    ghost from_gives = { λ _ e. e ≡ Memory };

    fn from(_: AllocFailed<T>) -> Self {
        BodyFault::Memory
    }
}
