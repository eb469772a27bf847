ghost use Rattle.std.specs.Prelude.{◌≡◌, Bool, IsTrue, List, ℕ};
ghost use Rattle.cells_edge.specs.Wire.{IsFront, IsPut, IsStill, IsTaken, HasWireCause};
ghost use Rattle.cells_edge.specs.declared.wire.Packet.{Packet};
ghost use Rattle.cells_edge.specs.declared.wire.WireError.TheVariants.{Memory};

use cells_base::{NoMemory, Text};
use std::alloc::Global;

/// Where a packet goes, its number, and the number of the request that it answers.
#[derive(Clone, Copy, Debug, PartialEq, Eq)]
pub struct Leg {
    /// 0 for the service, the id of a cell, or 1000 for the router.
    pub to: u16,
    /// The packets of a run are numbered from 1.
    pub tag: u64,
    /// The tag of the request that a reply answers, and 0 for a request.
    pub answers: u64,
}

/// What is put on a wire and taken off it.
#[derive(Debug, Drop, PartialEq, Eq)]
pub struct Packet {
    pub leg: Leg,
    pub bytes: Text,
}

/// Why a call of a wire came to nothing.
#[derive(Clone, Copy, Debug, PartialEq, Eq)]
pub enum WireError {
    /// The wire failed, and counted it.
    Failed,
    /// There was no memory. The wire is as it was.
    Memory,
}

impl From<NoMemory> for WireError {
    ghost from_gives = { λ _ e. e ≡ Memory };

    fn from(_: NoMemory) -> Self {
        WireError::Memory
    }
}

/// Packets on their way. A wire may lose, repeat and reorder them, and counts each time that it does.
pub trait Wire {
    /// Whether the wire tells its packets. A clause on packets holds where it does.
    ghost tells: { Bool };

    /// The packets that were put.
    ghost sent: { Self → List Packet };

    /// The packets that are on their way.
    ghost queued: { Self → List Packet };

    /// The packets that were handed over.
    ghost handed: { Self → List Packet };

    /// The count of losses, repeats, reorderings and failures, which never falls.
    ghost faults: { Self → ℕ };

    /// Puts a packet behind those on their way. `Failed` comes only where the count rose. Whatever
    /// befalls the packet, it was put, unless memory was wanted.
    fn put(&mut self, alloc: Global, leg: Leg, packet: &[u8]) -> Result<(), WireError>
        ensures sent { IsTrue tells →
            IsPut result (record { leg = leg; bytes = packet.now }) (sent self.old) (sent self.new) }
        ensures handed { IsTrue tells → handed self.new ≡ handed self.old }
        ensures queued { IsTrue tells → IsStill (faults self.old) (faults self.new) →
            IsPut result (record { leg = leg; bytes = packet.now }) (queued self.old) (queued self.new) }
        ensures cause { HasWireCause (faults self.old) (faults self.new) result };

    /// Takes the first packet of those on their way, and answers `None` where there is none. `Failed`
    /// comes only where the count rose. A packet that is given was handed over.
    fn take(&mut self, alloc: Global) -> Result<Option<Packet>, WireError>
        ensures sent { IsTrue tells → sent self.new ≡ sent self.old }
        ensures handed { IsTrue tells → IsTaken result (handed self.old) (handed self.new) }
        ensures front { IsTrue tells → IsStill (faults self.old) (faults self.new) →
            IsFront result (queued self.old) (queued self.new) }
        ensures cause { HasWireCause (faults self.old) (faults self.new) result };
}
