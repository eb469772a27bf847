ghost use Rattle.std.specs.Prelude.{◌≡◌, IsTrue, IfSome, Some, option_map, option_copied};
ghost use Rattle.std.specs.List.{slice_get};
ghost use Rattle.claim_map.specs.Registry.{cell_of, cell_by_prefix};
ghost use Rattle.cell_registry.specs.Bounds.{is_registry, is_cell};

use claim_types::{Cell, Items};
use std::marker::Model;

/// Cells, in the order of the configuration.
pub type Cells = Items<Cell>;

/// The configuration: its cells, and the age from which an attempt may be ended. Contracts see it as
/// the record of these two.
#[derive(Drop)]
pub struct Registry {
    cells: Cells,
    // In seconds.
    threshold: u64,
}

impl Model for Registry {
    ghost use Rattle.claim_map.specs.Registry.{Registry as Configuration};

    ghost Value = { Configuration };

    ghost use Rattle.std.specs.Prelude.{IsTrue};
    ghost use Rattle.cell_registry.specs.Bounds.{is_registry};

    ghost view = { λ r. record { cells = r.cells; threshold = r.threshold } };

    ghost invariant = { λ r. IsTrue (is_registry (record { cells = r.cells; threshold = r.threshold })) };
}

impl Registry {
    /// The configuration of these cells and this threshold in seconds, which have to be legal.
    pub fn from_cells(cells: Cells, threshold: u64) -> Self
        requires { IsTrue (is_registry (record { cells = cells; threshold = threshold })) }
        ensures value { result ≡ record { cells = cells; threshold = threshold } }
        ensures legal { IsTrue (is_registry result) }
    {
        Registry { cells, threshold }
    }

    /// The cells, in the order of the configuration. There is one at least.
    pub fn cells(&self) -> &[Cell]
        ensures value { result.now ≡ self.now.cells }
        ensures legal { IsTrue (is_registry self.now) }
    {
        self.cells.as_slice()
    }

    /// The age in seconds from which an attempt may be ended.
    pub fn threshold(&self) -> u64
        ensures { result ≡ self.now.threshold }
    {
        self.threshold
    }

    /// The cell with this id.
    pub fn cell(&self, id: u16) -> Option<&Cell>
        ensures value { option_copied result ≡ cell_of self.now id }
        ensures id { IfSome result (λ cell. cell.now.id ≡ id) }
        ensures legal { IfSome result (λ cell. IsTrue (is_cell cell.now)) }
    {
        self.cells().iter().find(|cell| cell.id == id)
    }

    /// The id of the cell that stands first in the configuration.
    pub fn first_cell(&self) -> u16
        ensures { option_map (λ cell. cell.id) (slice_get self.now.cells 0) ≡ Some result }
    {
        self.cells()[0].id
    }

    /// The cell whose prefix begins a text. There is at most one.
    pub fn by_prefix(&self, text: &[u8]) -> Option<u16>
        ensures { result ≡ cell_by_prefix self.now text.now }
    {
        self.cells()
            .iter()
            .find(|cell| text.starts_with(cell.prefix.as_slice()))
            .map(|cell| cell.id)
    }
}
