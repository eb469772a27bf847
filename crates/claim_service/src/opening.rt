//! How a service's journal is opened: its bodies are read as entries, each in its turn.
ghost use Rattle.std.specs.Prelude.{◌≡◌, OnOk};
ghost use Rattle.claim_map.specs.Bounds.{IsWithinBounds};
ghost use Rattle.claim_laws.specs.Files.{map_of};
ghost use Rattle.claim_service.specs.State.{kept};
ghost use Rattle.claim_service.specs.Opening.{IsBodyTurn, IsReplayed, cell_named as named_by, lacked as lacked_by};
ghost use Rattle.claim_service.specs.declared.opening.ServiceOpenFault.TheVariants.{Memory};

use crate::ServiceState;
use cell_registry::Registry;
use cells_base::Text;
use claim_types::{NoMemory, ServiceEntry};
use disk_journal::JournalFault;
use entry_codec::read_service;
use std::alloc::Global;

/// Why the service was not opened, in the order in which the reasons are sought.
#[derive(Clone, Copy, Debug, PartialEq, Eq)]
pub enum ServiceOpenFault {
    /// The file is no journal, which shows in this place.
    NotAJournal { at: u64 },
    /// The entry with this index from 0 is outside the grammar, or is not legal in its turn.
    BadEntry { index: u64 },
    /// The first cell that the journal names and the configuration lacks.
    ConfigLacks { cell: u16 },
    /// A call of the disk failed.
    Failed,
    /// Want of memory.
    Memory,
}

impl From<NoMemory> for ServiceOpenFault {
    ghost from_gives = { λ _ e. e ≡ Memory };

    fn from(_: NoMemory) -> Self {
        ServiceOpenFault::Memory
    }
}

impl From<JournalFault> for ServiceOpenFault {
    ghost use Rattle.claim_service.specs.Opening.{fault_of};

    ghost from_gives = { λ e f. f ≡ fault_of e };

    fn from(fault: JournalFault) -> Self {
        match fault {
            JournalFault::NotAJournal { at } => ServiceOpenFault::NotAJournal { at },
            JournalFault::Failed => ServiceOpenFault::Failed,
            JournalFault::Memory => ServiceOpenFault::Memory,
        }
    }
}

// The cell that an entry names.
fn cell_named(entry: &ServiceEntry) -> u16
    ensures { result ≡ named_by entry.now }
{
    match entry {
        ServiceEntry::Begun { lease, .. } | ServiceEntry::Settled { lease, .. } => lease.cell,
        ServiceEntry::Given { range } => range.cell,
    }
}

// Does what a body is written down for, and gives the cell that it names, where it is an entry that is
// legal in its turn.
fn enter_body(alloc: Global, state: &mut ServiceState, body: &[u8]) -> Result<Option<u16>, NoMemory>
    requires bounds { IsWithinBounds (map_of (kept state.old)) }
    ensures turn { IsBodyTurn (kept state.old) body.now result (kept state.new) }
    ensures bounds { OnOk result (IsWithinBounds (map_of (kept state.new))) }
{
    match read_service(alloc, body)? {
        Some(entry) => {
            let cell = cell_named(&entry);
            if state.enter(entry)? {
                Ok(Some(cell))
            } else {
                Ok(None)
            }
        }
        None => Ok(None),
    }
}

// A cell, where the configuration lacks it.
fn lacked(registry: &Registry, cell: u16) -> Option<u16>
    ensures { result ≡ lacked_by registry.now cell }
{
    match registry.cell(cell) {
        Some(_) => None,
        None => Some(cell),
    }
}

// What a journal stands for, and the first cell that it names and the configuration lacks.
#[derive(Drop)]
pub(crate) struct Replayed {
    pub state: ServiceState,
    pub lacking: Option<u16>,
}

// What these bodies stand for, as entries in their turns.
pub(crate) fn replay(
    alloc: Global,
    registry: &Registry,
    bodies: &[Text],
) -> Result<Replayed, ServiceOpenFault>
    ensures { IsReplayed registry.now bodies.now result }
{
    let mut state = ServiceState::new(alloc);
    let mut lacking = None;
    let mut index = 0u64;
    for body in bodies {
        let Some(cell) = enter_body(alloc, &mut state, body.as_slice())? else {
            return Err(ServiceOpenFault::BadEntry { index });
        };
        lacking = lacking.or(lacked(registry, cell));
        index += 1;
    }
    Ok(Replayed { state, lacking })
}
