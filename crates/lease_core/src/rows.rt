ghost use Rattle.std.specs.Prelude.{◌≡◌, OnOk, OnErr};
ghost use Rattle.std.specs.FinSet as set;

use claim_types::{Bucket, ClaimKey, NoMemory};
use std::alloc::Global;
use std::collections::BTreeSet;
use std::marker::Model;

/// The place of a claim in the order in which claims are listed: by cell, bucket, row and key.
#[derive(Debug, Drop, PartialEq, Eq, PartialOrd, Ord)]
pub struct RowKey {
    pub cell: u16,
    pub bucket: Bucket,
    pub row: u64,
    pub key: ClaimKey,
}

/// Places of claims, in order. Contracts see it as a finite set.
#[derive(Drop)]
pub struct Rows {
    pub(crate) places: BTreeSet<RowKey>,
}

impl Model for Rows {
    ghost use Rattle.std.specs.FinSet.{FinSet, code, from_list};
    ghost use Rattle.lease_core.specs.contracts.rows.RowKey as row_type;
    ghost use Rattle.lease_core.specs.Rows.{row_cmp};

    ghost Value = { FinSet row_cmp };

    ghost coded = { code row_type.the_row.coded };

    ghost view = { λ r. from_list r.places.keys };
}

impl Rows {
    /// It takes no memory.
    pub fn new(alloc: Global) -> Self
        ensures { result ≡ set.empty }
    {
        Rows {
            places: BTreeSet::new(alloc),
        }
    }

    pub fn add(&mut self, place: RowKey) -> Result<(), NoMemory>
        ensures ok { OnOk result (self.new ≡ set.insert self.old place) }
        ensures err { OnErr result (self.new ≡ self.old) }
    {
        self.places.insert(place)?;
        Ok(())
    }

    pub fn remove(&mut self, place: &RowKey)
        ensures { self.new ≡ set.remove self.old place.now }
    {
        let _ = self.places.remove(place);
    }
}
