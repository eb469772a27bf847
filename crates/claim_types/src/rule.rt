ghost use Rattle.std.specs.Prelude.{◌≡◌};
ghost use Rattle.claim_types.specs.declared.rule.Rule.TheVariants.{Memory};

use crate::{Change, ClaimKey, Denial, LeaseId, NoMemory, Operations};

/// Why a change of a cell's records is refused, in the order in which the reasons are sought.
#[derive(Debug, Drop)]
pub enum Rule {
    /// The named record or parent is not there.
    NoSuchRecord,
    /// The parent is of a kind that is not allowed, or the record is of a kind that keeps its name.
    WrongKind,
    /// A name has a slash, or a resulting key is outside its grammar.
    BadName,
    /// The record has this name.
    Same,
    /// The key, which is to be created, is claimed by a record of the tree.
    TakenHere { key: ClaimKey },
    /// The record is a parent.
    HasChildren,
    /// The change has so many operations.
    TooMany { n: u64 },
    /// Every known identifier is used.
    NoIds,
    /// The tree has changed as often as it may.
    VersionSpent,
    /// The cell has so many attempts and rows.
    TooManyRows { n: u64 },
    /// Want of memory.
    Memory,
}

impl From<NoMemory> for Rule {
    ghost from_gives = { λ _ e. e ≡ Memory };

    fn from(_: NoMemory) -> Self {
        Rule::Memory
    }
}

/// How an attempt ended without being recorded.
#[derive(Debug, Drop)]
pub enum Ended {
    /// The service refused its lease.
    Denied { lease: LeaseId, denial: Denial },
    /// The records have changed since the cell asked.
    Changed { lease: LeaseId, then: u64, now: u64 },
}

/// What a run tells besides its transitions.
#[derive(Clone, Copy, Debug)]
pub enum Note {
    /// An attempt passed the threshold.
    Ended { lease: LeaseId },
    /// An attempt ended since the records have changed.
    Changed { lease: LeaseId, then: u64, now: u64 },
}

/// A change that was asked for, with its operations on the tree of that version, and the moment of asking.
#[derive(Debug, Drop)]
pub struct Attempt {
    pub change: Change,
    pub ops: Operations,
    pub version: u64,
    pub since: u64,
}
