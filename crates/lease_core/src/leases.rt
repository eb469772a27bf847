ghost use Rattle.std.specs.Prelude.{◌≡◌, Option, Some, None, option_map, is_none, IfOk, OnOk, OnErr};
ghost use Rattle.std.specs.FinMap as map;
ghost use Rattle.claim_types.specs.Order.{operations_eq};
ghost use Rattle.claim_map.specs.State.{no_leases};
ghost use Rattle.claim_types.specs.declared.verdict.Verdict.TheVariants.{Fresh};
ghost use Rattle.claim_map.specs.Verdict.{verdict_of, lease_naming, open_count};
ghost use Rattle.claim_map.specs.Pages.{lease_page, claim_page};
ghost use Rattle.claim_map.specs.Step.{with_lease, after_commit, after_rollback};
ghost use Rattle.lease_core.specs.ByRow.{ArePlacesOf};
ghost use Rattle.lease_core.specs.Outcomes.{IsBegin, begin_outcome, commit_answer, IsRollback, rollback_outcome, hold_outcome, settle_outcome, ArePartsOf};

use crate::by_row::ByRow;
use crate::holders::{claim_all, enter, forget, release_all};
use crate::lease_map::LeaseMap;
use crate::open_numbers::{CellNumbers, lower, one_more};
use crate::pages::Listing;
use crate::rows::{RowKey, Rows};
use crate::{BeginFault, CommitFault, LeaseParts, RollbackFault, pages, parts};
use claim_types::{
    Bucket, CLAIMS_A_PAGE, ClaimKey, ClaimPage, Copied, Holding, How, LEASES_A_PAGE, LeaseId,
    LeasePage, NoMemory, Operations, Range, Verdict,
};
use key_table::{KeyState, Keys};
use std::alloc::Global;
use std::marker::Model;

/// Who holds each key, which leases are open with which operations, and how the others ended.
/// Contracts see it as these three maps.
#[derive(Drop)]
pub struct Leases {
    // For the keys that are copied.
    alloc: Global,
    // Who holds each key, and which open lease names it.
    keys: Keys,
    // The places of the keys that are held, and of those that open leases are to create.
    rows: Rows,
    open_leases: LeaseMap<Operations>,
    // How leases ended; an open one has a place here, so that it ends without memory.
    settled: LeaseMap<Option<How>>,
    // How many leases of each cell are open.
    open_numbers: CellNumbers,
}

impl Model for Leases {
    ghost use Rattle.claim_map.specs.State.{LeaseState, lease_state_code};

    ghost Value = { LeaseState };

    ghost coded = { lease_state_code };

    ghost use Rattle.lease_core.specs.Whole.{state_of, IsKept};

    ghost view = { state_of };

    ghost invariant = { IsKept };
}

impl Leases {
    /// Nobody holds a key, and no lease is open or has ended. It takes no memory.
    pub fn new(alloc: Global) -> Self
        ensures { result ≡ no_leases }
    {
        Leases {
            alloc,
            keys: Keys::new(alloc),
            rows: Rows::new(alloc),
            open_leases: LeaseMap::new(alloc),
            settled: LeaseMap::new(alloc),
            open_numbers: CellNumbers::new(alloc),
        }
    }

    /// Who holds a key.
    pub fn holder(&self, key: &ClaimKey) -> Option<Holding>
        ensures { result ≡ map.get self.now.holder key.now }
    {
        self.holder_of(key.bucket, key.value.as_slice())
    }

    /// Who holds the key of this bucket and value. No key is built for it.
    pub fn holder_of(&self, bucket: Bucket, value: &[u8]) -> Option<Holding>
        ensures { result ≡ map.get self.now.holder (record { bucket = bucket; value = value.now }) }
    {
        self.keys.state(bucket, value).holder
    }

    /// How many leases are open.
    pub fn open_number(&self) -> u64
        ensures { result ≡ map.len self.now.open_leases }
    {
        self.open_leases.len() as u64
    }

    // Who holds a key, and the first open lease that names it.
    pub(crate) fn state(&self, key: &ClaimKey) -> KeyState
        ensures holder { result.holder ≡ map.get self.now.holder key.now }
        ensures named { result.named ≡ lease_naming self.now.open_leases key.now }
    {
        self.keys.state(key.bucket, key.value.as_slice())
    }

    /// How a lease ended, if it did.
    pub fn how_ended(&self, id: LeaseId) -> Option<How>
        ensures { result ≡ map.get self.now.settled id }
    {
        match self.settled.get(id) {
            Some(how) => *how,
            None => None,
        }
    }

    /// Whether a lease that is open is so with these operations; nothing of one that is not open.
    pub fn is_same(&self, id: LeaseId, ops: &Operations) -> Option<bool>
        ensures { result ≡ option_map (λ mine. operations_eq mine ops.now) (map.get self.now.open_leases id) }
    {
        match self.open_leases.get(id) {
            Some(mine) => Some(*mine == *ops),
            None => None,
        }
    }

    // How many leases of a cell are open.
    pub(crate) fn open_of(&self, cell: u16) -> u64
        ensures { result ≡ open_count self.now.open_leases cell }
    {
        self.open_numbers.of(cell)
    }
}

impl Leases {
    /// Opens a lease that the judge says is fresh. It takes room as [`Leases::begin`] does.
    pub fn open(&mut self, given: &[Range], id: LeaseId, ops: Operations) -> Result<(), NoMemory>
        requires { verdict_of self.old given.now id ops ≡ Fresh }
        ensures ok { OnOk result (self.new ≡ with_lease self.old id ops) }
        ensures err { OnErr result (self.new ≡ self.old) }
    {
        let number = self.open_numbers.of(id.cell);
        let more = one_more(number)?;
        self.open_numbers.put(id.cell, number)?;
        self.settled.make(id, None)?;
        let opened = enter(
            self.alloc,
            &mut self.keys,
            &mut self.rows,
            &mut self.open_leases,
            id,
            ops,
        );
        if let Err(ops) = opened {
            forget(&mut self.keys, &mut self.rows, id.cell, ops);
            return Err(NoMemory);
        }
        self.open_numbers.set(id.cell, more);
        Ok(())
    }

    /// Opens a lease, where the judge says that it is fresh. It takes room to settle the lease and
    /// to hold its creates, so that neither takes memory later.
    pub fn begin(
        &mut self,
        given: &[Range],
        id: LeaseId,
        ops: Operations,
    ) -> Result<Verdict, BeginFault>
        ensures answer { IsBegin result (verdict_of self.old given.now id ops) }
        ensures after { self.new ≡ begin_outcome result self.old id ops }
    {
        match self.judge(given, id, &ops) {
            Verdict::Fresh => {
                self.open(given, id, ops)?;
                Ok(Verdict::Fresh)
            }
            Verdict::Again => Ok(Verdict::Again),
            Verdict::Refused(reason) => Err(BeginFault::Refused(reason)),
        }
    }

    /// Applies an open lease: its destroyed keys are held no more, its created ones by its cell, and
    /// it is settled as committed. Ok(true) says that it was done now, Ok(false) that it was before.
    /// It takes no memory.
    pub fn commit(&mut self, id: LeaseId) -> Result<bool, CommitFault>
        ensures answer { result ≡ commit_answer (map.get self.old.open_leases id) (map.get self.old.settled id) }
        ensures after { self.new ≡ after_commit self.old id }
    {
        let Some(ops) = self.open_leases.remove(id) else {
            return match self.how_ended(id) {
                None => Err(CommitFault::Unknown),
                Some(How::Committed) => Ok(false),
                Some(How::RolledBack) => Err(CommitFault::WasRolledBack),
            };
        };
        let Operations { creates, destroys } = ops;
        release_all(&mut self.keys, &mut self.rows, destroys.into_vec());
        claim_all(&mut self.keys, id.cell, creates.as_slice());
        lower(&mut self.open_numbers, id.cell);
        self.settled.set(id, Some(How::Committed));
        Ok(true)
    }

    // Closes a lease that has not ended, if it is open, and settles it as rolled back.
    fn give_up(&mut self, id: LeaseId) -> Result<(), NoMemory>
        ensures ok { OnOk result (self.new ≡ after_rollback self.old id) }
        ensures err { OnErr result ((map.get self.old.open_leases id ≡ None) × (self.new ≡ self.old)) }
    {
        match self.open_leases.remove(id) {
            Some(ops) => {
                forget(&mut self.keys, &mut self.rows, id.cell, ops);
                lower(&mut self.open_numbers, id.cell);
                self.settled.set(id, Some(How::RolledBack));
                Ok(())
            }
            None => self.settled.make(id, Some(How::RolledBack)),
        }
    }

    /// Settles a lease as rolled back, whether it was begun or not. Ok(true) says that it was done
    /// now, Ok(false) that it was before. Only a lease that was never begun may want memory, and
    /// then the room of the open ones stays.
    pub fn rollback(&mut self, id: LeaseId) -> Result<bool, RollbackFault>
        ensures answer { IsRollback result (map.get self.old.open_leases id) (map.get self.old.settled id) }
        ensures after { self.new ≡ rollback_outcome result self.old id }
    {
        match self.how_ended(id) {
            None => {
                self.give_up(id)?;
                Ok(true)
            }
            Some(How::RolledBack) => Ok(false),
            Some(How::Committed) => Err(RollbackFault::WasCommitted),
        }
    }
}

impl Leases {
    /// The first open leases of a cell behind `after`, in order, at most 100.
    pub fn list(
        &self,
        alloc: Global,
        cell: u16,
        after: Option<LeaseId>,
    ) -> Result<LeasePage, NoMemory>
        ensures { IfOk result (λ page. page ≡ lease_page self.now cell after) }
    {
        let found = pages::leases_above(
            alloc,
            &self.open_leases,
            cell,
            after,
            pages::LEASES_SOUGHT,
        )?;
        let (leases, more) = pages::page_of(found, LEASES_A_PAGE as usize);
        Ok(LeasePage { leases, more })
    }

    /// The first claims of a cell and a bucket whose row is from `first` to `last` and above
    /// `after`, in order of row and then of key, at most 64.
    pub fn claims_in(
        &self,
        alloc: Global,
        cell: u16,
        bucket: Bucket,
        first: u64,
        last: u64,
        after: u64,
    ) -> Result<ClaimPage, NoMemory>
        ensures { IfOk result (λ page. page ≡ claim_page self.now cell bucket first last after) }
    {
        let listing = Listing {
            cell,
            bucket,
            first,
            last,
            after,
        };
        let found = pages::first_claims(
            alloc,
            &self.keys,
            &self.rows,
            &listing,
            pages::CLAIMS_SOUGHT,
        )?;
        let (items, more) = pages::page_of(found, CLAIMS_A_PAGE as usize);
        Ok(ClaimPage { items, more })
    }

    /// The places of all claims, ascending by cell, bucket, row and key. It takes no memory.
    pub fn by_row(&self) -> ByRow<'_>
        ensures { ArePlacesOf self.now.holder result }
    {
        ByRow::new(&self.keys, &self.rows)
    }

    /// All holders, settled leases and open leases, each in ascending order of key or lease.
    pub fn parts(&self, alloc: Global) -> Result<LeaseParts, NoMemory>
        ensures { IfOk result (ArePartsOf self.now) }
    {
        Ok(LeaseParts {
            held: parts::holders(alloc, &self.keys, &self.rows)?,
            done: parts::settled(alloc, &self.settled)?,
            begun: parts::open_leases(alloc, &self.open_leases)?,
        })
    }

    /// Adds a holder to a state with no open lease, unless the key is held. Ok(true) says that it
    /// was added.
    pub fn hold(&mut self, key: ClaimKey, holding: Holding) -> Result<bool, NoMemory>
        requires { self.old.open_leases ≡ map.empty }
        ensures answer { IfOk result (λ added. added ≡ is_none (map.get self.old.holder key)) }
        ensures open_leases { self.new.open_leases ≡ self.old.open_leases }
        ensures after { self.new ≡ hold_outcome result self.old key holding }
    {
        if self.holder(&key).is_some() {
            return Ok(false);
        }
        let place = RowKey {
            cell: holding.cell,
            bucket: key.bucket,
            row: holding.origin.row,
            key: key.copy(self.alloc)?,
        };
        self.rows.add(place)?;
        self.keys.hold(key, holding)?;
        Ok(true)
    }

    /// Adds a settled lease to a state with no open lease, unless the lease is settled. Ok(true)
    /// says that it was added.
    pub fn settle(&mut self, id: LeaseId, how: How) -> Result<bool, NoMemory>
        requires { self.old.open_leases ≡ map.empty }
        ensures answer { IfOk result (λ added. added ≡ is_none (map.get self.old.settled id)) }
        ensures open_leases { self.new.open_leases ≡ self.old.open_leases }
        ensures after { self.new ≡ settle_outcome result self.old id how }
    {
        if self.how_ended(id).is_some() {
            return Ok(false);
        }
        self.settled.make(id, Some(how))?;
        Ok(true)
    }
}
