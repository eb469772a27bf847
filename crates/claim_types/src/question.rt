use crate::{ClaimKey, Text};

/// What may be asked of the service about where a request belongs.
#[derive(Debug, Drop)]
pub enum Question {
    /// The first cell of the configuration.
    First,
    /// The cell with this number.
    Cell { id: u16 },
    /// The cell whose prefix begins the text.
    Session { text: Text },
    /// The cell that holds the key.
    Claim { key: ClaimKey },
    /// The cell that holds the longest route that is a segment-wise prefix of the text.
    Path { text: Text },
}

/// The answer to a question.
#[derive(Clone, Copy, Debug, PartialEq, Eq)]
pub enum Class {
    Cell { id: u16 },
    NotFound,
    UnknownCell,
}
