use crate::{Change, Class, Denial, LeaseId, Operations, Question, Range};

/// What can happen to the claim map.
#[derive(Debug, Drop)]
pub enum Step {
    /// The service opened a lease.
    Leased { lease: LeaseId, ops: Operations },
    /// The service refused a lease.
    Denied { lease: LeaseId, denial: Denial },
    /// A cell made the change that a lease is for.
    Recorded { lease: LeaseId, change: Change },
    /// The service applied a lease.
    Committed { lease: LeaseId },
    /// The service gave a lease up.
    RolledBack { lease: LeaseId },
    /// The service gave a range.
    Ranged { range: Range },
    /// The service answered a question.
    Answered { question: Question, class: Class },
    /// A cell served a page.
    Served { question: Question, cell: u16 },
}

/// A step, and the packet that brought it about by its number among those handed over.
#[derive(Debug, Drop)]
pub struct Transition {
    pub take: u64,
    pub step: Step,
}
