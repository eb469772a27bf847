ghost use Rattle.std.specs.Prelude.{◌≡◌};
ghost use Rattle.claim_types.specs.Order.{kind_number};
ghost use Rattle.claim_types.specs.Numbers.{numbered_kind};
ghost use Rattle.claim_types.specs.Names.{kind_name, named_subject_kind};

use cells_base::Text;

/// The kinds of records. A kind's number, from 1, is that of its table.
#[derive(Clone, Copy, Debug, PartialEq, Eq)]
pub enum Kind {
    Organization,
    Group,
    Project,
    User,
    Key,
    Address,
    Domain,
}

impl Kind {
    /// The kind's number, from 1.
    pub fn number(self) -> u8
        ensures { result ≡ kind_number self }
    {
        match self {
            Kind::Organization => 1,
            Kind::Group => 2,
            Kind::Project => 3,
            Kind::User => 4,
            Kind::Key => 5,
            Kind::Address => 6,
            Kind::Domain => 7,
        }
    }

    /// The kind with this number, if there is one.
    pub fn from_number(number: u8) -> Option<Kind>
        ensures { result ≡ numbered_kind number }
    {
        match number {
            1 => Some(Kind::Organization),
            2 => Some(Kind::Group),
            3 => Some(Kind::Project),
            4 => Some(Kind::User),
            5 => Some(Kind::Key),
            6 => Some(Kind::Address),
            7 => Some(Kind::Domain),
            _ => None,
        }
    }

    /// The kind's name.
    pub fn name(self) -> &'static str
        ensures { result.now ≡ kind_name self }
    {
        match self {
            Kind::Organization => "organization",
            Kind::Group => "group",
            Kind::Project => "project",
            Kind::User => "user",
            Kind::Key => "key",
            Kind::Address => "address",
            Kind::Domain => "domain",
        }
    }

    /// The kind with this name, if it is one that a claim may speak of.
    pub fn subject_from_name(name: &str) -> Option<Kind>
        ensures { result ≡ named_subject_kind name.now }
    {
        if name == "organization" {
            return Some(Kind::Organization);
        }
        if name == "group" {
            return Some(Kind::Group);
        }
        if name == "project" {
            return Some(Kind::Project);
        }
        if name == "user" {
            return Some(Kind::User);
        }
        None
    }
}

/// A record of a cell.
#[derive(Debug, Drop)]
pub struct Record {
    pub id: u64,
    pub kind: Kind,
    /// The identifier of the record above it, 0 for an organization.
    pub parent: u64,
    pub name: Text,
}

/// A change of a cell's records.
#[derive(Debug, Drop)]
pub enum Change {
    /// Adds a record below `parent`.
    Create { kind: Kind, parent: u64, name: Text },
    /// Renames a record.
    Rename { id: u64, name: Text },
    /// Removes a record.
    Remove { id: u64 },
}
