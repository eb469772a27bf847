//! How a cell's journal is opened: its bodies are read as entries, each in its turn.
ghost use Rattle.std.specs.Prelude.{OnOk};
ghost use Rattle.claim_types.specs.Bounds.{IsCell};
ghost use Rattle.cell_store.specs.Store.{kept, IsKept};
ghost use Rattle.cell_store.specs.Turns.{IsBodyTurn, IsReplayed};

use crate::CellOpenFault;
use crate::state::CellState;
use cells_base::Text;
use claim_types::NoMemory;
use entry_codec::read_cell;
use std::alloc::Global;

// Does what a body is written down for, where it is an entry that is legal in its turn.
fn enter_body(
    alloc: Global,
    state: &mut CellState,
    cell: u16,
    body: &[u8],
) -> Result<bool, NoMemory>
    requires cell { IsCell cell }
    requires keeps { IsKept cell (kept state.old) }
    ensures turn { IsBodyTurn cell (kept state.old) body.now result (kept state.new) }
{
    match read_cell(alloc, body)? {
        Some(entry) => state.enter(alloc, cell, entry),
        None => Ok(false),
    }
}

// What these bodies stand for, as entries in their turns.
pub fn replay(alloc: Global, cell: u16, bodies: &[Text]) -> Result<CellState, CellOpenFault>
    requires { IsCell cell }
    ensures { IsReplayed cell bodies.now result }
{
    let mut state = CellState::new(alloc);
    let mut index = 0u64;
    for body in bodies {
        if !enter_body(alloc, &mut state, cell, body.as_slice())? {
            return Err(CellOpenFault::BadEntry { index });
        }
        index += 1;
    }
    Ok(state)
}
