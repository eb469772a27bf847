use claim_types::{Bucket, Text};

/// A part of a bucket: its claims whose rows have the identifiers from `first` to `last`.
#[derive(Debug, Drop, PartialEq)]
pub struct Span {
    pub bucket: Bucket,
    /// An identifier, at most `last`.
    pub first: u64,
    /// An identifier.
    pub last: u64,
}

/// A line of a script, with its words as they stand in it: names and values keep their capitals.
#[derive(Debug, Drop, PartialEq)]
pub enum Line {
    /// `create C organization NAME`
    CreateOrganization {
        cell: u16,
        name: Text,
    },
    /// `create C user NAME ORG`: below the organization with that path.
    CreateUser {
        cell: u16,
        name: Text,
        organization: Text,
    },
    /// `create C group NAME ORG`: below the organization with that path.
    CreateTopGroup {
        cell: u16,
        name: Text,
        organization: Text,
    },
    /// `create C group ROUTE`: below the group whose route stands before the last `/`.
    CreateGroup {
        cell: u16,
        route: Text,
    },
    /// `create C project ROUTE`: below the group or user whose route stands before the last `/`.
    CreateProject {
        cell: u16,
        route: Text,
    },
    /// `create C key USER VALUE`: below the record with that route.
    CreateKey {
        cell: u16,
        user: Text,
        value: Text,
    },
    /// `create C address USER VALUE`: below the record with that route.
    CreateAddress {
        cell: u16,
        user: Text,
        value: Text,
    },
    /// `create C domain ROUTE VALUE`: below the record with that route.
    CreateDomain {
        cell: u16,
        route: Text,
        value: Text,
    },
    /// `rename C BUCKET VALUE NAME`: the record with that claim gets the name.
    Rename {
        cell: u16,
        bucket: Bucket,
        value: Text,
        name: Text,
    },
    /// `remove C BUCKET VALUE`: the record with that claim goes.
    Remove {
        cell: u16,
        bucket: Bucket,
        value: Text,
    },
    /// `range C` and `range C NUMBER`: asks for the next range of the cell, or for that one, from 1.
    Range {
        cell: u16,
        number: Option<u64>,
    },
    /// `reconcile C`: one reconciliation of the cell.
    Reconcile {
        cell: u16,
    },
    /// `verify C` and `verify C BUCKET FIRST LAST`: compares all buckets, or one span, with the service's.
    Verify {
        cell: u16,
        span: Option<Span>,
    },
    /// `classify first`
    ClassifyFirst,
    /// `classify cell C`
    ClassifyCell {
        cell: u16,
    },
    /// `classify session TEXT`
    ClassifySession {
        text: Text,
    },
    /// `classify claim BUCKET VALUE`
    ClassifyClaim {
        bucket: Bucket,
        value: Text,
    },
    /// `classify path TEXT`
    ClassifyPath {
        text: Text,
    },
    /// `route METHOD TARGET` and `route METHOD TARGET COOKIE`: asks the router. The cookie is the rest of the
    /// line, spaces included.
    Route {
        method: Text,
        target: Text,
        cookie: Option<Text>,
    },
    /// `lose K`: the K-th packet from now on is lost; `lose 0` takes back all that were to be lost.
    Lose {
        number: u64,
    },
    /// `repeat T`: sends the packet with that tag again.
    Repeat {
        tag: u64,
    },
    /// `wait N`: the clock goes on by so many seconds.
    Wait {
        seconds: u64,
    },
    /// `restart service`: the service is opened again from its file.
    RestartService,
    /// `restart C`: the cell is opened again from its file.
    Restart {
        cell: u16,
    },
}
