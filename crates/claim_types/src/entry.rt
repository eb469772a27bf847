use crate::{Change, How, LeaseId, Operations, Range};

/// An entry of the service's journal.
#[derive(Debug, Drop)]
pub enum ServiceEntry {
    /// A lease was opened.
    Begun { lease: LeaseId, ops: Operations },
    /// A lease ended.
    Settled { lease: LeaseId, how: How },
    /// A range was given to a cell.
    Given { range: Range },
}

/// An entry of a cell's journal.
#[derive(Debug, Drop)]
pub enum CellEntry {
    /// The store was opened once more.
    Epoch {
        epoch: u32,
    },
    /// A change was made under a lease, whose row is outstanding from then on.
    Recorded {
        lease: LeaseId,
        change: Change,
        ops: Operations,
    },
    /// The row of a lease is outstanding no more.
    RowGone {
        lease: LeaseId,
    },
    /// The cell learned of a range that was given to it.
    Got {
        number: u64,
        low: u64,
        high: u64,
    },
}
