ghost use Rattle.std.specs.Prelude.{◌≡◌, ◌≢◌, ◌+◌, ◌≤◌, ◌<◌, ◌++◌, [], ◌∷◌, List, ℕ, IsTrue, true, false, length, take, IfOk, OnOk, OnErr, IsErrOf, vec_len, vec_capacity};
ghost use Rattle.disk_journal.specs.Disk.{IsImage, Only, Steps, Cut};
ghost use Rattle.disk_journal.specs.Moments.{LeavesOnly, StaysEverywhere, StaysSteady};
ghost use Rattle.disk_journal.specs.Journal.{JournalState, HasBodies, IsBody, framed, fresh, end_with};
ghost use Rattle.disk_journal.specs.Effects.{IsSettled, IsReady, IsSynced, IsInUse, IsMaking, IsOpening, IsShortened, IsTrimmed, StaysElsewhere, CountsOwn, FailedAt, Adds, AddsAtMost, LeavesBodyInDoubt};
ghost use Rattle.disk_journal.specs.Answers.{Refuses, IfRefused, IsFree};
ghost use Rattle.disk_journal.specs.declared.fault.JournalFault.TheVariants.{Failed};
ghost use Rattle.disk_journal.specs.declared.fault.MakeFault.TheVariants.{FileInUse, Failed as MakeFailed};

use crate::limits::{BUFFER_BYTES, FILE_BYTES, FRAME_BYTES, FRESH_BYTES, GATE_BYTES};
use crate::records::read_records;
use crate::{Disk, DiskFailed, JournalFault, MakeFault};
use cells_base::{Items, Text};
use std::alloc::Global;
use std::marker::Model;

/// A journal without a body: the header and a closed gate.
const FRESH: [u8; FRESH_BYTES] = *b"cells-journal-01\0";

/// The bodies of a journal, in order.
pub type Bodies = Items<Text>;

/// A journal that may be used, and the bodies that it has.
#[derive(Drop)]
pub struct Opened {
    pub journal: Journal,
    pub bodies: Bodies,
}

/// A list of bodies on one file of a disk.
#[derive(Drop)]
pub struct Journal {
    file: u16,
    gate: u64,
    live: bool,
    buffer: Vec<u8>,
}

impl Model for Journal {
    ghost use Rattle.std.specs.Prelude.{◌≤◌, ◌<◌, vec_capacity};
    ghost use Rattle.disk_journal.specs.Journal.{JournalState};
    ghost use Rattle.disk_journal.specs.declared.limits.TheConstants.{BUFFER_BYTES, FILE_BYTES};

    ghost Value = { JournalState };

    ghost view = { λ j. record { file = j.file; gate = j.gate; live = j.live } };

    ghost invariant = { λ j. (BUFFER_BYTES ≤ vec_capacity j.buffer) × (j.gate < FILE_BYTES) };
}

// Fills the buffer with the length, the body and a closed gate.
fn fill(buffer: &mut Vec<u8>, body: &[u8])
    requires room { BUFFER_BYTES ≤ vec_capacity buffer.old }
    requires body { IsBody body.now }
    ensures bytes { buffer.new.items ≡ framed body.now ++ 0 ∷ [] }
    ensures room { BUFFER_BYTES ≤ vec_capacity buffer.new }
{
    buffer.clear();
    let length = body.len() as u32;
    let _ = buffer.extend_from_slice(&length.to_be_bytes());
    let _ = buffer.extend_from_slice(body);
    let _ = buffer.push(0);
}

/// Makes a journal without a body on a file of size 0. A file in use stays as it is, whatever is answered.
pub fn make<D: Disk>(disk: &mut D, file: u16) -> Result<(), MakeFault>
    ensures made { IsTrue D.tells → OnOk result (D.seen disk.new file ≡ fresh) }
    ensures synced { OnOk result (IsSynced D.Disk file disk.new) }
    ensures free { IsTrue D.tells → IsFree result (length (D.seen disk.old file)) }
    ensures in_use { IsInUse D.Disk file disk.old → StaysEverywhere D.Disk disk.old disk.new }
    ensures any_moment { LeavesOnly D.Disk disk.old disk.new (IsMaking D.Disk disk.old file) }
    ensures elsewhere { StaysElsewhere D.Disk file disk.old disk.new }
    ensures counts { CountsOwn D.Disk file disk.old disk.new }
    ensures failed { IsErrOf result MakeFault.Failed → FailedAt D.Disk file disk.old disk.new }
    ensures steady { (n : ℕ) → FRESH_BYTES ≤ n → D.steady disk.old file n → IsErrOf result MakeFault.Failed → ⊥ }
    ensures stays_steady { StaysSteady D.Disk disk.old disk.new }
{
    let size = disk.size(file)?;
    if size != 0 {
        return Err(MakeFault::FileInUse { size });
    }
    disk.write_at(file, 0, &FRESH)?;
    disk.sync(file)?;
    Ok(())
}

// All the bytes of the file, once it is synced.
fn read_synced<D: Disk>(alloc: Global, disk: &mut D, file: u16) -> Result<Vec<u8>, JournalFault>
    ensures bytes { IsTrue D.tells → IfOk result (λ bytes. bytes.items ≡ D.seen disk.old file) }
    ensures within { IfOk result (λ bytes. vec_len bytes ≤ FILE_BYTES) }
    ensures durable { IsTrue D.tells → OnOk result (Only (D.seen disk.old file) (D.may_leave disk.new file)) }
    ensures stays { StaysEverywhere D.Disk disk.old disk.new }
    ensures any_moment { LeavesOnly D.Disk disk.old disk.new (IsImage (D.may_leave disk.old)) }
    ensures counts { CountsOwn D.Disk file disk.old disk.new }
    ensures refuses { (at : ℕ) → IsErrOf result (JournalFault.NotAJournal at) → ⊥ }
    ensures failed { IsErrOf result JournalFault.Failed → FailedAt D.Disk file disk.old disk.new }
    ensures steady { (n : ℕ) → D.steady disk.old file n → IsErrOf result JournalFault.Failed → ⊥ }
    ensures stays_steady { StaysSteady D.Disk disk.old disk.new }
{
    disk.sync(file)?;
    let size = disk.size(file)? as usize;
    let mut bytes = vec![in alloc; 0; size]?;
    disk.read(file, 0, &mut bytes)?;
    Ok(bytes)
}

// Cuts the file to this size, and syncs it.
fn trim<D: Disk>(disk: &mut D, file: u16, size: u64) -> Result<(), DiskFailed>
    requires { IsTrue D.tells → size ≤ length (D.seen disk.old file) }
    ensures front { IsTrue D.tells → OnOk result (D.seen disk.new file ≡ take size (D.seen disk.old file)) }
    ensures durable { IsTrue D.tells → OnOk result (Only (D.seen disk.new file) (D.may_leave disk.new file)) }
    ensures crash { IsTrue D.tells → Steps file (Cut size) (D.may_leave disk.old) (D.may_leave disk.new) }
    ensures any_moment { LeavesOnly D.Disk disk.old disk.new (IsShortened D.Disk disk.old file size) }
    ensures elsewhere { StaysElsewhere D.Disk file disk.old disk.new }
    ensures counts { CountsOwn D.Disk file disk.old disk.new }
    ensures failed { OnErr result (FailedAt D.Disk file disk.old disk.new) }
    ensures steady { (n : ℕ) → D.steady disk.old file n → OnErr result ⊥ }
    ensures stays_steady { StaysSteady D.Disk disk.old disk.new }
{
    disk.cut(file, size)?;
    disk.sync(file)?;
    Ok(())
}

impl Journal {
    /// Opens the journal on a file: gives its bodies, and cuts what stands behind its first closed gate.
    pub fn open<D: Disk>(alloc: Global, disk: &mut D, file: u16) -> Result<Opened, JournalFault>
        ensures bodies { IsTrue D.tells → IfOk result (λ opened. HasBodies (D.seen disk.old) file opened.bodies) }
        ensures settled { IsTrue D.tells → IfOk result (λ made. IsSettled D.Disk disk.new made.journal made.bodies) }
        ensures synced { OnOk result (IsSynced D.Disk file disk.new) }
        ensures live { IfOk result (λ opened. opened.journal.live ≡ true) }
        ensures file { IfOk result (λ opened. opened.journal.file ≡ file) }
        ensures refused { IsTrue D.tells → Refuses result (D.seen disk.old file) }
        ensures stays { IfRefused result (StaysEverywhere D.Disk disk.old disk.new) }
        ensures keeps { IsTrue D.tells → IsTrimmed file (D.seen disk.old) (D.seen disk.new) }
        ensures any_moment { LeavesOnly D.Disk disk.old disk.new (IsOpening D.Disk disk.old file) }
        ensures elsewhere { StaysElsewhere D.Disk file disk.old disk.new }
        ensures counts { CountsOwn D.Disk file disk.old disk.new }
        ensures failed { IsErrOf result JournalFault.Failed → FailedAt D.Disk file disk.old disk.new }
        ensures steady { (n : ℕ) → D.steady disk.old file n → IsErrOf result JournalFault.Failed → ⊥ }
        ensures stays_steady { StaysSteady D.Disk disk.old disk.new }
    {
        let bytes = read_synced(alloc, disk, file)?;
        let records = read_records(alloc, &bytes)?;
        let buffer = Vec::with_capacity(alloc, BUFFER_BYTES)?;
        let gate = records.gate as u64;
        trim(disk, file, gate + GATE_BYTES as u64)?;
        let journal = Journal {
            file,
            gate,
            live: true,
            buffer,
        };
        Ok(Opened {
            journal,
            bodies: Items::from_vec(records.bodies),
        })
    }

    /// Whether the journal may be used: from the `Ok` of `open` until a call on it fails.
    pub fn is_live(&self) -> bool
        ensures { result ≡ self.now.live }
    {
        self.live
    }

    /// Adds a body. At `Ok` every crash leaves it from then on.
    pub fn append<D: Disk>(&mut self, disk: &mut D, body: &[u8]) -> Result<(), DiskFailed>
        requires live { IsTrue self.old.live }
        requires body { IsBody body.now }
        requires ready { IsReady D.Disk disk.old self.old }
        ensures file { self.new.file ≡ self.old.file }
        ensures live { OnOk result (self.new.live ≡ true) }
        ensures dead { OnErr result (self.new.live ≡ false) }
        ensures adds { OnOk result (Adds D.Disk disk.old disk.new self.old self.new body.now) }
        ensures synced { OnOk result (IsSynced D.Disk self.old.file disk.new) }
        ensures any_moment { AddsAtMost D.Disk disk.old disk.new self.old body.now }
        ensures in_doubt { OnErr result (LeavesBodyInDoubt D.Disk disk.old disk.new self.old body.now) }
        ensures elsewhere { StaysElsewhere D.Disk self.old.file disk.old disk.new }
        ensures counts { CountsOwn D.Disk self.old.file disk.old disk.new }
        ensures failed { OnErr result (FailedAt D.Disk self.old.file disk.old disk.new) }
        ensures steady { (n : ℕ) → end_with self.old body.now ≤ n → D.steady disk.old self.old.file n → OnErr result ⊥ }
        ensures stays_steady { StaysSteady D.Disk disk.old disk.new }
    {
        self.live = false;
        fill(&mut self.buffer, body);
        disk.write_at(self.file, self.gate + 1, &self.buffer)?;
        disk.sync(self.file)?; // The record stands before its gate opens.
        disk.write_at(self.file, self.gate, &[1])?;
        disk.sync(self.file)?; // The open gate stands before the answer.
        self.gate += (FRAME_BYTES + body.len()) as u64;
        self.live = true;
        Ok(())
    }
}
