//! What a cell keeps on its file, in memory.
ghost use Rattle.std.specs.Prelude.{◌≡◌, IsTrue, is_some, None, Ok, IfOk, OnOk, OnErr};
ghost use Rattle.std.specs.FinMap as map;
ghost use Rattle.claim_types.specs.declared.entry.CellEntry.TheVariants.{Epoch, Recorded, RowGone, Got};
ghost use Rattle.claim_map.specs.Ranges.{last_end};
ghost use Rattle.claim_map.specs.Rules.{rule_of};
ghost use Rattle.claim_laws.specs.Nodes.{still_fits, is_next};
ghost use Rattle.claim_laws.specs.Files.{empty_store, may_keep_row};
ghost use Rattle.record_tree.specs.Known.{IsWithin};
ghost use Rattle.cell_store.specs.Store.{kept};
ghost use Rattle.cell_store.specs.Calls.{with_record, without_row, with_range};
ghost use Rattle.cell_store.specs.Turns.{IsTurn};

use crate::rows::Rows;
use claim_types::{
    ATTEMPTS_AND_ROWS, CellEntry, Change, Items, LeaseId, NoMemory, Operations, Range, Rule,
};
use record_tree::Tree;
use std::alloc::Global;

// The epoch of a cell, its records, its outstanding rows and the ranges that it knows.
#[derive(Drop)]
pub struct CellState {
    pub epoch: u32,
    pub tree: Tree,
    pub rows: Rows,
    pub known: Items<Range>,
}

// The end of the last range, 0 where there is none.
fn last_end(known: &[Range]) -> u64
    ensures { result ≡ last_end known.now }
{
    match known.last() {
        Some(range) => range.high,
        None => 0,
    }
}

// Whether a range may come next: it has the next number, and begins past the last one.
fn is_next(known: &[Range], range: &Range) -> bool
    ensures { result ≡ is_next known.now range.now }
{
    if range.number != known.len() as u64 + 1 {
        return false;
    }
    last_end(known) < range.low
}

impl CellState {
    /// Nothing is kept. It takes no memory.
    pub fn new(alloc: Global) -> Self
        ensures { kept result ≡ empty_store }
    {
        CellState {
            epoch: 0,
            tree: Tree::new(alloc),
            rows: Rows::new(alloc),
            known: Items::new(alloc),
        }
    }

    /// Whether a change may be made on the records, and has these operations there.
    pub fn fits(&self, alloc: Global, change: &Change, ops: &Operations) -> Result<bool, NoMemory>
        requires { IsWithin self.now.tree self.now.known }
        ensures { IfOk result (λ fits. fits ≡ still_fits self.now.tree self.now.known change.now ops.now) }
    {
        match self
            .tree
            .operations_of(alloc, change, self.known.as_slice())
        {
            Ok(present) => Ok(present == *ops),
            Err(Rule::Memory) => Err(NoMemory),
            Err(_) => Ok(false),
        }
    }

    /// Makes a change that may be made, and puts the row of its lease. Its one error is want of memory.
    pub fn make(
        &mut self,
        alloc: Global,
        lease: LeaseId,
        change: &Change,
        ops: Operations,
    ) -> Result<(), NoMemory>
        requires within { IsWithin self.old.tree self.old.known }
        requires allowed { rule_of self.old.tree change.now self.old.known ≡ None }
        requires rowless { map.get self.old.rows lease ≡ None }
        ensures ok { OnOk result (kept self.new ≡ with_record (kept self.old) lease change.now ops) }
        ensures err { OnErr result (kept self.new ≡ kept self.old) }
    {
        self.rows.put(lease, ops)?;
        match self.tree.apply(alloc, change, self.known.as_slice()) {
            Ok(()) => Ok(()),
            Err(NoMemory) => {
                self.rows.remove(lease);
                Err(NoMemory)
            }
        }
    }

    /// Takes the row of a lease away, which takes no memory.
    pub fn take_row(&mut self, lease: LeaseId)
        requires { IsTrue (is_some (map.get self.old.rows lease)) }
        ensures { kept self.new ≡ without_row (kept self.old) lease }
    {
        self.rows.remove(lease);
    }

    /// Puts a range behind the others. Its one error is want of memory.
    pub fn add_range(&mut self, range: Range) -> Result<(), NoMemory>
        ensures ok { OnOk result (kept self.new ≡ with_range (kept self.old) range) }
        ensures err { OnErr result (kept self.new ≡ kept self.old) }
    {
        self.known.push(range)
    }

    // Whether a lease may get a row: it is of this cell, drawn in the present epoch or an earlier one,
    // and without a row, and there is room for one more.
    fn may_keep_row(&self, cell: u16, lease: LeaseId) -> bool
        ensures { result ≡ may_keep_row cell (kept self.now) lease }
    {
        if lease.cell != cell {
            return false;
        }
        if self.epoch < lease.epoch {
            return false;
        }
        if self.rows.has(lease) {
            return false;
        }
        (self.rows.len() as u64) < ATTEMPTS_AND_ROWS
    }

    fn enter_epoch(&mut self, cell: u16, epoch: u32) -> bool
        ensures { IsTurn cell (kept self.old) (Epoch epoch) (Ok result) (kept self.new) }
    {
        if epoch <= self.epoch {
            return false;
        }
        self.epoch = epoch;
        true
    }

    fn enter_record(
        &mut self,
        alloc: Global,
        cell: u16,
        lease: LeaseId,
        change: &Change,
        ops: Operations,
    ) -> Result<bool, NoMemory>
        requires { IsWithin self.old.tree self.old.known }
        ensures { IsTurn cell (kept self.old) (Recorded lease change.now ops) result (kept self.new) }
    {
        if !self.may_keep_row(cell, lease) {
            return Ok(false);
        }
        if !self.fits(alloc, change, &ops)? {
            return Ok(false);
        }
        self.make(alloc, lease, change, ops)?;
        Ok(true)
    }

    fn enter_row_gone(&mut self, cell: u16, lease: LeaseId) -> bool
        ensures { IsTurn cell (kept self.old) (RowGone lease) (Ok result) (kept self.new) }
    {
        if !self.rows.has(lease) {
            return false;
        }
        self.take_row(lease);
        true
    }

    fn enter_range(&mut self, range: Range) -> Result<bool, NoMemory>
        ensures { IsTurn range.cell (kept self.old) (Got range.number range.low range.high) result (kept self.new) }
    {
        if !is_next(self.known.as_slice(), &range) {
            return Ok(false);
        }
        self.add_range(range)?;
        Ok(true)
    }

    /// Does what an entry is written down for, where that is legal in its turn; where it is not, or memory
    /// is wanted, nothing changes.
    pub fn enter(&mut self, alloc: Global, cell: u16, entry: CellEntry) -> Result<bool, NoMemory>
        requires { IsWithin self.old.tree self.old.known }
        ensures { IsTurn cell (kept self.old) entry result (kept self.new) }
    {
        match entry {
            CellEntry::Epoch { epoch } => Ok(self.enter_epoch(cell, epoch)),
            CellEntry::Recorded { lease, change, ops } => self.enter_record(
                alloc, cell, lease, &change, ops,
            ),
            CellEntry::RowGone { lease } => Ok(self.enter_row_gone(cell, lease)),
            CellEntry::Got { number, low, high } => self.enter_range(Range {
                cell,
                number,
                low,
                high,
            }),
        }
    }
}
