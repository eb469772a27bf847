//! The store over its journal.
ghost use Rattle.std.specs.Prelude.{◌≡◌, ◌+◌, ◌≤◌, IsTrue, is_some, IfSome, IfNone, IfOk, IfErr, OnOk, OnErr, IsErrOf};
ghost use Rattle.std.specs.FinMap as map;
ghost use Rattle.claim_types.specs.Bounds.{IsCell};
ghost use Rattle.claim_types.specs.declared.entry.CellEntry.TheVariants.{Recorded, RowGone, Got};
ghost use Rattle.disk_journal.specs.Effects.{FailedAt};
ghost use Rattle.disk_journal.specs.Entries.{TouchesOnly, Untouched};
ghost use Rattle.claim_types.specs.EntryBounds.{IsCellEntry};
ghost use Rattle.claim_types.specs.declared.limits.TheConstants.{GREATEST_EPOCH};
ghost use Rattle.disk_journal.specs.Journal.{IsBody};
ghost use Rattle.entry_codec.specs.Spelling.{cell_entry_bytes};
ghost use Rattle.cell_store.specs.Store.{stored, IsStore, IsSameCell, AreRowsEarlier, Rests};
ghost use Rattle.cell_store.specs.Calls.{Writes, WritesAtMost, LeavesInDoubt, MayGetRow, MayBeKept, with_record, without_row, with_range, TellsChanged, IfChanged};
ghost use Rattle.cell_store.specs.Opening.{GoesOn, IfRefused, IsOpenFault, IsOpened, OpensAtNext, OpensUnwritten};
ghost use Rattle.cell_store.specs.declared.fault.CellOpenFault.TheVariants.{Failed as OpenFailed};
ghost use Rattle.cell_store.specs.declared.fault.RecordFault.TheVariants.{Failed as RecordFailed, Memory as RecordMemory};
ghost use Rattle.cell_store.specs.declared.fault.StoreFault.TheVariants.{Failed as StoreFailed, Memory as StoreMemory};

use crate::opening::replay;
use crate::state::CellState;
use crate::{CellOpenFault, RecordFault, StoreFault};
use claim_types::{
    CellEntry, Change, Copied, GREATEST_EPOCH, LeaseId, NoMemory, Operations, Range, Text,
};
use disk_journal::{Disk, DiskFailed, Journal};
use entry_codec::{write_cell, write_row_gone};
use record_tree::Tree;
use std::alloc::Global;

/// The records of a cell, its outstanding rows, the ranges that it knows and its epoch, over its journal, which
/// is kept on the file with the cell's number. The form of its entries is stated in docs/FORMATS.md.
#[derive(Drop)]
pub struct CellStore {
    journal: Journal,
    cell: u16,
    state: CellState,
}

// The epoch after one, unless that is the greatest.
fn epoch_after(epoch: u32) -> Option<u32>
    ensures some { IfSome result (λ next. (next ≡ epoch + 1) × (next ≤ GREATEST_EPOCH)) }
    ensures none { IfNone result (epoch ≡ GREATEST_EPOCH) }
{
    if epoch == GREATEST_EPOCH {
        return None;
    }
    Some(epoch + 1)
}

/// The same change again.
pub fn copy_of_change(alloc: Global, change: &Change) -> Result<Change, NoMemory>
    ensures { IfOk result (λ copied. copied ≡ change.now) }
{
    Ok(match change {
        Change::Create { kind, parent, name } => Change::Create {
            kind: *kind,
            parent: *parent,
            name: name.copy(alloc)?,
        },
        Change::Rename { id, name } => Change::Rename {
            id: *id,
            name: name.copy(alloc)?,
        },
        Change::Remove { id } => Change::Remove { id: *id },
    })
}

// The body of the entry of a change and the row of its lease.
fn recorded_body(
    alloc: Global,
    lease: LeaseId,
    change: &Change,
    ops: &Operations,
) -> Result<Text, NoMemory>
    requires { IsCellEntry (Recorded lease change.now ops.now) }
    ensures body { IfOk result (λ body. body ≡ cell_entry_bytes (Recorded lease change.now ops.now)) }
    ensures length { IfOk result IsBody }
{
    let change = copy_of_change(alloc, change)?;
    let ops = ops.copy(alloc)?;
    write_cell(alloc, &CellEntry::Recorded { lease, change, ops })
}

impl CellStore {
    /// Opens the file of a cell, whose number is from 1 to 999: what its entries stand for, each in its turn,
    /// is what the store keeps, and its next epoch is on the disk before the answer.
    pub fn open<D: Disk>(alloc: Global, disk: &mut D, cell: u16) -> Result<CellStore, CellOpenFault>
        requires { IsCell cell }
        ensures opened { IsTrue D.tells → IfOk result (IsOpened cell (D.seen disk.old)) }
        ensures cell { IfOk result (λ s. s.cell ≡ cell) }
        ensures store { IfOk result IsStore }
        ensures earlier { IfOk result AreRowsEarlier }
        ensures live { IfOk result (λ s. IsTrue s.journal.live) }
        ensures at_rest { IfOk result (Rests D.Disk disk.new) }
        ensures refused { IsTrue D.tells → IfErr result (IsOpenFault cell (D.seen disk.old)) }
        ensures unwritten { IfRefused result (OpensUnwritten D.Disk cell disk.old disk.new) }
        ensures reads { IsTrue D.tells → GoesOn cell (D.seen disk.old) (D.seen disk.new) }
        ensures any_moment { OpensAtNext D.Disk cell disk.old disk.new }
        ensures others { TouchesOnly D.Disk cell disk.old disk.new }
        ensures failed { IsErrOf result CellOpenFault.Failed → FailedAt D.Disk cell disk.old disk.new }
    {
        let opened = Journal::open(alloc, disk, cell)?;
        let mut state = replay(alloc, cell, opened.bodies.as_slice())?;
        let Some(epoch) = epoch_after(state.epoch) else {
            return Err(CellOpenFault::EpochsSpent);
        };
        let epoch_body = write_cell(alloc, &CellEntry::Epoch { epoch })?;
        let mut journal = opened.journal;
        journal.append(disk, epoch_body.as_slice())?;
        state.epoch = epoch;
        Ok(CellStore {
            journal,
            cell,
            state,
        })
    }

    /// Makes a change and its outstanding row durable together, where the change may be made on the present
    /// records and has these operations there. The operations were computed on the records of the version
    /// `then`.
    ///
    /// Errors: [`RecordFault::Changed`] where the change is refused or has other operations, and then nothing
    /// was done; [`RecordFault::Failed`] where a call of the disk failed, after which the store is opened
    /// again; [`RecordFault::Memory`] where memory was wanted, and then nothing was done.
    pub fn record<D: Disk>(
        &mut self,
        alloc: Global,
        disk: &mut D,
        lease: LeaseId,
        change: &Change,
        ops: &Operations,
        then: u64,
    ) -> Result<(), RecordFault>
        requires store { IsStore self.old }
        requires lease { MayGetRow self.old lease }
        requires live { IsTrue self.old.journal.live }
        requires at_rest { Rests D.Disk disk.old self.old }
        ensures ok { OnOk result (stored self.new ≡ with_record (stored self.old) lease change.now ops.now) }
        ensures changed { TellsChanged result then self.old change.now ops.now }
        ensures undone { IfChanged result (Untouched disk.old disk.new self.old self.new) }
        ensures memory { IsErrOf result RecordFault.Memory → Untouched disk.old disk.new self.old self.new }
        ensures same { IsSameCell self.old self.new }
        ensures store { IsStore self.new }
        ensures live { OnOk result (IsTrue self.new.journal.live) }
        ensures written { OnOk result
            (Writes D.Disk disk.old disk.new self.old self.new (Recorded lease change.now ops.now)) }
        ensures any_moment { WritesAtMost D.Disk disk.old disk.new self.old (Recorded lease change.now ops.now) }
        ensures in_doubt { IsErrOf result RecordFault.Failed →
            LeavesInDoubt D.Disk disk.old disk.new self.old (Recorded lease change.now ops.now) }
        ensures failed { IsErrOf result RecordFault.Failed → FailedAt D.Disk self.old.cell disk.old disk.new }
        ensures others { TouchesOnly D.Disk self.old.cell disk.old disk.new }
    {
        if !self.state.fits(alloc, change, ops)? {
            let now = self.state.tree.version();
            return Err(RecordFault::Changed { then, now });
        }
        let change_body = recorded_body(alloc, lease, change, ops)?;
        self.state.make(alloc, lease, change, ops.copy(alloc)?)?;
        self.journal.append(disk, change_body.as_slice())?;
        Ok(())
    }

    /// Takes the row of a lease away, which takes no memory. Its one error is that a call of the disk failed,
    /// after which the store is opened again.
    pub fn row_gone<D: Disk>(&mut self, disk: &mut D, lease: LeaseId) -> Result<(), DiskFailed>
        requires store { IsStore self.old }
        requires row { IsTrue (is_some (map.get (stored self.old).rows lease)) }
        requires live { IsTrue self.old.journal.live }
        requires at_rest { Rests D.Disk disk.old self.old }
        ensures ok { OnOk result (stored self.new ≡ without_row (stored self.old) lease) }
        ensures same { IsSameCell self.old self.new }
        ensures store { IsStore self.new }
        ensures live { OnOk result (IsTrue self.new.journal.live) }
        ensures written { OnOk result (Writes D.Disk disk.old disk.new self.old self.new (RowGone lease)) }
        ensures any_moment { WritesAtMost D.Disk disk.old disk.new self.old (RowGone lease) }
        ensures in_doubt { OnErr result (LeavesInDoubt D.Disk disk.old disk.new self.old (RowGone lease)) }
        ensures failed { OnErr result (FailedAt D.Disk self.old.cell disk.old disk.new) }
        ensures others { TouchesOnly D.Disk self.old.cell disk.old disk.new }
    {
        let row_body = write_row_gone(lease);
        self.state.take_row(lease);
        self.journal.append(disk, &row_body)?;
        Ok(())
    }

    /// Keeps a range that was given to the cell.
    ///
    /// Errors: [`StoreFault::Failed`] where a call of the disk failed, after which the store is opened again;
    /// [`StoreFault::Memory`] where memory was wanted, and then nothing was done.
    pub fn range_got<D: Disk>(
        &mut self,
        alloc: Global,
        disk: &mut D,
        range: Range,
    ) -> Result<(), StoreFault>
        requires store { IsStore self.old }
        requires range { MayBeKept self.old range }
        requires live { IsTrue self.old.journal.live }
        requires at_rest { Rests D.Disk disk.old self.old }
        ensures ok { OnOk result (stored self.new ≡ with_range (stored self.old) range) }
        ensures memory { IsErrOf result StoreFault.Memory → Untouched disk.old disk.new self.old self.new }
        ensures same { IsSameCell self.old self.new }
        ensures store { IsStore self.new }
        ensures live { OnOk result (IsTrue self.new.journal.live) }
        ensures written { OnOk result
            (Writes D.Disk disk.old disk.new self.old self.new (Got range.number range.low range.high)) }
        ensures any_moment { WritesAtMost D.Disk disk.old disk.new self.old
            (Got range.number range.low range.high) }
        ensures in_doubt { IsErrOf result StoreFault.Failed →
            LeavesInDoubt D.Disk disk.old disk.new self.old (Got range.number range.low range.high) }
        ensures failed { IsErrOf result StoreFault.Failed → FailedAt D.Disk self.old.cell disk.old disk.new }
        ensures others { TouchesOnly D.Disk self.old.cell disk.old disk.new }
    {
        let Range {
            number,
            low,
            high,
            ..
        } = range;
        let range_body = write_cell(alloc, &CellEntry::Got { number, low, high })?;
        self.state.add_range(range)?;
        self.journal.append(disk, range_body.as_slice())?;
        Ok(())
    }

    /// Whether the row of a lease is outstanding.
    pub fn has_row(&self, lease: LeaseId) -> bool
        ensures { result ≡ is_some (map.get (stored self.now).rows lease) }
    {
        self.state.rows.has(lease)
    }

    /// The leases whose rows are outstanding, in order.
    pub fn rows(&self) -> &[LeaseId]
        ensures { result.now ≡ map.keys (stored self.now).rows }
    {
        self.state.rows.leases()
    }

    /// The records.
    pub fn tree(&self) -> &Tree
        ensures { result.now ≡ (stored self.now).tree }
    {
        &self.state.tree
    }

    /// The ranges that are known to be given to the cell, in order.
    pub fn known(&self) -> &[Range]
        ensures { result.now ≡ (stored self.now).known }
    {
        self.state.known.as_slice()
    }

    /// How often the store was opened: the epoch of the leases that are drawn now.
    pub fn epoch(&self) -> u32
        ensures { result ≡ (stored self.now).epoch }
    {
        self.state.epoch
    }

    /// The cell's number.
    pub fn cell(&self) -> u16
        ensures { result ≡ self.now.cell }
    {
        self.cell
    }
}
