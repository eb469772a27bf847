use crate::{Bucket, ClaimPage, Class, Denial, LeaseId, LeasePage, Operations, Question, Text};

/// A request to the service.
#[derive(Debug, Drop)]
pub enum Request {
    /// Asks for a lease on the keys of these operations.
    Begin {
        lease: LeaseId,
        ops: Operations,
    },
    /// Asks that an open lease be applied.
    Commit {
        lease: LeaseId,
    },
    /// Asks that a lease be given up, whether it was begun or not.
    Rollback {
        lease: LeaseId,
    },
    /// Asks for the open leases of a cell behind this one.
    List {
        cell: u16,
        after: Option<LeaseId>,
    },
    /// Asks for the range of a cell with this number, from 1.
    Range {
        cell: u16,
        number: u64,
    },
    /// Asks for the claims that a cell holds in a bucket, with a row from `first` to `last` and
    /// above `after`.
    Claims {
        cell: u16,
        bucket: Bucket,
        first: u64,
        last: u64,
        after: u64,
    },
    /// Asks where a request belongs.
    Classify {
        question: Question,
    },
    /// Asks a cell for the page of a path: for the record that the path names, where it names one.
    Page {
        cell: u16,
        path: Text,
        named: bool,
    },
}

/// What a begin is answered with.
#[derive(Debug, Drop)]
pub enum BegunResult {
    Good,
    Denied(Denial),
}

/// What a commit is answered with.
#[derive(Clone, Copy, Debug)]
pub enum CommittedResult {
    Good,
    /// The lease was never begun.
    Unknown,
    WasRolledBack,
}

/// What a rollback is answered with.
#[derive(Clone, Copy, Debug)]
pub enum RolledBackResult {
    Good,
    WasCommitted,
}

/// What a range request is answered with.
#[derive(Clone, Copy, Debug)]
pub enum RangedResult {
    /// The range has these ends.
    Good { low: u64, high: u64 },
    /// The configuration lacks the cell.
    UnknownCell,
    /// The number is above the next one.
    TooFar { next: u64 },
    /// The range would pass the greatest identifier; the last one given ends here, or is none at 0.
    Exhausted { last: u64 },
}

/// An answer of the service. It names what was asked.
#[derive(Debug, Drop)]
pub enum Reply {
    /// To a begin.
    Begun {
        lease: LeaseId,
        result: BegunResult,
    },
    /// To a commit.
    Committed {
        lease: LeaseId,
        result: CommittedResult,
    },
    /// To a rollback.
    RolledBack {
        lease: LeaseId,
        result: RolledBackResult,
    },
    /// To a list.
    Leases {
        cell: u16,
        page: LeasePage,
    },
    /// To a range request.
    Ranged {
        cell: u16,
        number: u64,
        result: RangedResult,
    },
    /// To a request for claims.
    Claims {
        cell: u16,
        bucket: Bucket,
        first: u64,
        last: u64,
        after: u64,
        page: ClaimPage,
    },
    /// To a question.
    Classified {
        question: Question,
        class: Class,
    },
    /// To a request for a page: the identifier of the record that a named path leads to, 0 for a path
    /// that names none, and nothing where no record was found.
    Page {
        cell: u16,
        path: Text,
        named: bool,
        found: Option<u64>,
    },
    /// To a request of a cell that the configuration lacks, and to a request for a page from the
    /// service, which has none.
    NoCell {
        cell: u16,
    },
}
