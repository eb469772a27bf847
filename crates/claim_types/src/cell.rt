use cells_base::Text;

/// A cell of the configuration.
#[derive(Debug, Drop)]
pub struct Cell {
    /// The cell's number, from 1 to 999.
    pub id: u16,
    /// What a session of this cell begins with.
    pub prefix: Text,
    /// How many identifiers a range of this cell has.
    pub width: u64,
}

/// Identifiers from `low` to `high` that were given to a cell.
#[derive(Clone, Copy, Debug, PartialEq, Eq)]
pub struct Range {
    pub cell: u16,
    /// The range's number among those of its cell, from 1.
    pub number: u64,
    pub low: u64,
    pub high: u64,
}
