ghost use Rattle.std.specs.Prelude.{◌≡◌, IfOk};
ghost use Rattle.claim_types.specs.declared.key.KeyFault.TheVariants.{Memory};
ghost use Rattle.claim_types.specs.Keys.{GivesKey, key_of};
ghost use Rattle.claim_types.specs.Order.{bucket_number};
ghost use Rattle.claim_types.specs.Numbers.{numbered_bucket};
ghost use Rattle.claim_types.specs.Names.{bucket_name, named_bucket};

use crate::grammar::{bad_byte, bad_part, is_reserved, lowered};
use crate::{Copied, KEY_BYTES, NoMemory, Text};
use std::alloc::Global;

/// The kinds of claims. A bucket's number, from 1, is its place here.
#[derive(Clone, Copy, Debug, PartialEq, Eq, PartialOrd, Ord)]
pub enum Bucket {
    OrganizationPath,
    Route,
    Address,
    SshKey,
    PagesDomain,
}

/// What a claim is about. Keys are ordered by their bucket's number and then by their value's
/// bytes.
#[derive(Debug, Drop, PartialEq, Eq, PartialOrd, Ord)]
pub struct ClaimKey {
    pub bucket: Bucket,
    pub value: Text,
}

/// Why a text is no key of a bucket, in the order in which the reasons are sought.
#[derive(Clone, Copy, Debug, PartialEq, Eq)]
pub enum KeyFault {
    /// There is no byte.
    Empty,
    /// There are more than 255 bytes.
    TooLong,
    /// The byte at this place, from 0, is the first outside the bucket's alphabet.
    BadByte { at: u64 },
    /// The part with this index, from 0, is the first that breaks its rule; else the first one too
    /// many, or the one that is missing.
    BadSegment { index: u64 },
    /// The first segment is a reserved word.
    Reserved,
    /// Want of memory.
    Memory,
}

impl Bucket {
    /// The bucket's number, from 1.
    pub fn number(self) -> u8
        ensures { result ≡ bucket_number self }
    {
        match self {
            Bucket::OrganizationPath => 1,
            Bucket::Route => 2,
            Bucket::Address => 3,
            Bucket::SshKey => 4,
            Bucket::PagesDomain => 5,
        }
    }

    /// The bucket with this number, if there is one.
    pub fn from_number(number: u8) -> Option<Bucket>
        ensures { result ≡ numbered_bucket number }
    {
        match number {
            1 => Some(Bucket::OrganizationPath),
            2 => Some(Bucket::Route),
            3 => Some(Bucket::Address),
            4 => Some(Bucket::SshKey),
            5 => Some(Bucket::PagesDomain),
            _ => None,
        }
    }

    /// The bucket's name.
    pub fn name(self) -> &'static str
        ensures { result.now ≡ bucket_name self }
    {
        match self {
            Bucket::OrganizationPath => "organization_path",
            Bucket::Route => "route",
            Bucket::Address => "address",
            Bucket::SshKey => "ssh_key",
            Bucket::PagesDomain => "pages_domain",
        }
    }

    /// The bucket with this name, if there is one.
    pub fn from_name(name: &str) -> Option<Bucket>
        ensures { result ≡ named_bucket name.now }
    {
        if name == "organization_path" {
            return Some(Bucket::OrganizationPath);
        }
        if name == "route" {
            return Some(Bucket::Route);
        }
        if name == "address" {
            return Some(Bucket::Address);
        }
        if name == "ssh_key" {
            return Some(Bucket::SshKey);
        }
        if name == "pages_domain" {
            return Some(Bucket::PagesDomain);
        }
        None
    }
}

impl From<NoMemory> for KeyFault {
    ghost from_gives = { λ _ e. e ≡ Memory };

    fn from(_: NoMemory) -> Self {
        KeyFault::Memory
    }
}

impl Copied for ClaimKey {
    fn copy(&self, alloc: Global) -> Result<Self, NoMemory> {
        Ok(ClaimKey {
            bucket: self.bucket,
            value: self.value.copy(alloc)?,
        })
    }
}

impl ClaimKey {
    ghost use Rattle.claim_types.specs.Writable.{IsWritableKey};

    /// The key that a bucket reads from a text, in small letters, or the first refusal in the order
    /// of [`KeyFault`]. The grammar is in `specs/Keys`.
    pub fn read(alloc: Global, bucket: Bucket, text: &[u8]) -> Result<ClaimKey, KeyFault>
        ensures key { GivesKey result (key_of bucket text.now) }
        ensures text { IfOk result IsWritableKey }
    {
        if text.is_empty() {
            return Err(KeyFault::Empty);
        }
        if text.len() as u64 > KEY_BYTES {
            return Err(KeyFault::TooLong);
        }
        let value = lowered(alloc, text)?;
        if let Some(at) = bad_byte(bucket, value.as_slice()) {
            return Err(KeyFault::BadByte { at: at as u64 });
        }
        if let Some(index) = bad_part(bucket, value.as_slice()) {
            return Err(KeyFault::BadSegment { index });
        }
        if is_reserved(bucket, value.as_slice()) {
            return Err(KeyFault::Reserved);
        }
        Ok(ClaimKey { bucket, value })
    }
}
