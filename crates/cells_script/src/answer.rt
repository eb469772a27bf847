use claim_types::{Denial, LeaseId, Rule};

/// What a line of a script comes to.
#[derive(Debug, Drop)]
pub enum Answer {
    /// The configuration has no such cell.
    NoCell,
    /// The rules of records refuse the change. The rule is never `Memory`.
    Refused {
        rule: Rule,
    },
    /// The disk met a fault while the lease was recorded, and the file was opened again.
    InDoubt {
        lease: LeaseId,
    },
    /// The change is recorded.
    Accepted {
        lease: LeaseId,
    },
    /// The records changed between the asking, at version `then`, and the reply, at version `now`.
    Changed {
        lease: LeaseId,
        then: u64,
        now: u64,
    },
    /// The service refused the lease.
    Denied {
        lease: LeaseId,
        denial: Denial,
    },
    /// A reply that the line needs was not taken. For a change its lease is named, for another line none.
    Waiting {
        lease: Option<LeaseId>,
    },
    /// The service gave the range with this number.
    Ranged {
        number: u64,
        low: u64,
        high: u64,
    },
    /// The number is past the next one that may be asked for.
    TooFar {
        next: u64,
    },
    /// No identifiers are left behind the last one given.
    Exhausted {
        last: u64,
    },
    /// The last page of the cell's open leases was taken.
    Reconciled,
    /// How the cell's claims and the service's differ.
    Verified {
        missing: u64,
        extra: u64,
        different: u64,
    },
    /// The cell has attempts or rows that wait, so that a comparison would tell nothing.
    Busy {
        pending: u64,
        outstanding: u64,
    },
    /// The cell's records changed between the asking and the page.
    Moved {
        then: u64,
        now: u64,
    },
    /// The question belongs to this cell.
    InCell {
        cell: u16,
    },
    /// The question belongs to no cell.
    NotFound,
    /// The question names a cell that the configuration lacks.
    UnknownCell,
    /// The key that is asked for is outside its grammar.
    BadKey,
    /// The cell served the page, of the record with this identifier, 0 for none.
    Served {
        cell: u16,
        id: u64,
    },
    /// The cell has no record for the page.
    NotHere {
        cell: u16,
    },
    /// No rule of the router applies.
    NoRule,
    /// The target is none that the router can read.
    BadTarget,
    /// The packet will be lost.
    Armed,
    /// The clock went on.
    Waited,
    /// The packet with this tag was sent again.
    Repeated {
        tag: u64,
    },
    /// No packet has the tag.
    NoPacket,
    /// The node was opened again.
    Restarted,
}
