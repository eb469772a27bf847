ghost use Rattle.std.specs.Prelude.{◌≡◌};
ghost use Rattle.entry_codec.specs.declared.unread.Unread.TheVariants.{Memory};

use claim_types::NoMemory;
use std::alloc::{AllocError, AllocFailed};

// Why nothing was read.
#[derive(Drop)]
pub enum Unread {
    OutsideGrammar,
    Memory,
}

impl From<NoMemory> for Unread {
    ghost from_gives = { λ _ e. e ≡ Memory };

    fn from(_: NoMemory) -> Self {
        Unread::Memory
    }
}

impl From<AllocError> for Unread {
    ghost from_gives = { λ _ e. e ≡ Memory };

    fn from(_: AllocError) -> Self {
        Unread::Memory
    }
}

impl<T: Drop> From<AllocFailed<T>> for Unread {
    ghost from_gives = { λ _ e. e ≡ Memory };

    fn from(_: AllocFailed<T>) -> Self {
        Unread::Memory
    }
}
