use crate::{ClaimKey, How, LeaseId};

/// Why a begin is refused. The first six reasons are sought in this order. The last three are of the
/// first operation, in order, that is refused: a create is `Owned`, else `Leased`; a destroy is
/// `NotOwned`, else `Leased`. Places count the creates first and then the destroys, from 0.
#[derive(Clone, Copy, Debug, PartialEq, Eq)]
pub enum Refusal {
    /// The lease has ended.
    Settled { how: How },
    /// The lease is open with other operations.
    OtherOperations,
    /// The operations are none, or more than a lease may carry.
    NoneOrTooMany { n: u64 },
    /// The first operation whose key stood earlier.
    Twice { index: u64 },
    /// The first create whose row lies in no range given to the lease's cell.
    ForeignId { id: u64 },
    /// The cell has as many open leases as it may.
    TooManyOpen,
    /// A create of a key that this cell holds.
    Owned { index: u64, cell: u16 },
    /// An operation on a key that this open lease names.
    Leased { index: u64, lease: LeaseId },
    /// A destroy of a key that the lease's cell does not hold.
    NotOwned { index: u64 },
}

/// What a begin comes to.
#[derive(Clone, Copy, Debug, PartialEq, Eq)]
pub enum Verdict {
    /// The lease is opened.
    Fresh,
    /// The lease is open with these operations already.
    Again,
    Refused(Refusal),
}

/// A refusal as its reply states it: with the key in place of the operation's place.
#[derive(Debug, Drop)]
pub enum Denial {
    Settled { how: How },
    OtherOperations,
    NoneOrTooMany { n: u64 },
    Twice { key: ClaimKey },
    ForeignId { id: u64 },
    TooManyOpen,
    Owned { key: ClaimKey, cell: u16 },
    Leased { key: ClaimKey, lease: LeaseId },
    NotOwned { key: ClaimKey },
}
