use crate::{ClaimKey, Copied, Items, Kind, NoMemory};
use std::alloc::Global;

/// The record that a claim speaks of: an organization, a group, a project or a user.
#[derive(Clone, Copy, Debug, PartialEq, Eq)]
pub struct Subject {
    pub kind: Kind,
    pub id: u64,
}

/// The record that a claim comes from, by its table and its row there.
#[derive(Clone, Copy, Debug, PartialEq, Eq)]
pub struct Origin {
    pub table: Kind,
    pub row: u64,
}

/// An operation that claims a key.
#[derive(Debug, Drop, PartialEq)]
pub struct Create {
    pub key: ClaimKey,
    pub subject: Subject,
    pub origin: Origin,
}

/// Creates, in order.
pub type Creates = Items<Create>;

/// Keys, in order.
pub type Keys = Items<ClaimKey>;

/// What a lease is about: keys to claim, and then keys to give up.
#[derive(Debug, Drop, PartialEq)]
pub struct Operations {
    pub creates: Creates,
    pub destroys: Keys,
}

impl Copied for Create {
    fn copy(&self, alloc: Global) -> Result<Self, NoMemory> {
        Ok(Create {
            key: self.key.copy(alloc)?,
            subject: self.subject,
            origin: self.origin,
        })
    }
}

impl Copied for Operations {
    fn copy(&self, alloc: Global) -> Result<Self, NoMemory> {
        Ok(Operations {
            creates: self.creates.copy(alloc)?,
            destroys: self.destroys.copy(alloc)?,
        })
    }
}
