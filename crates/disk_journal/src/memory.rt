ghost use Rattle.std.specs.Prelude.{◌≡◌, ◌≢◌, ◌+◌, ◌≤◌, [], ℕ, List, true, IsTrue, IfOk, OnOk, nat_le, map, length, take, drop};
ghost use Rattle.std.specs.Result.{is_ok};
ghost use Rattle.disk_journal.specs.Memory.{IsConsistent, IsSteady, IsCaused, IsSize, IsRead, IsWrite, IsCut, IsSync, Works, Changes, written_at, cut_to, state_of, reads, leaves, can_write, faulted, empty_disk, disk_crashed};
ghost use Rattle.disk_journal.specs.Disk.{HasCause, Progresses, IsImage, Only, Holds, Steps, Torn, Cut, SameEverywhere, SameElsewhere, NoMore};

use crate::failing::{FailingCall, answer, is_passed, next_fate};
use crate::limits::FILE_BYTES;
use crate::memory_file::MemoryFile;
use crate::memory_files::{
    crash_each, empty_files, fill, len_of, put, shorten, try_flush, try_put, try_shorten,
};
use crate::{Disk, DiskFailed};
use cells_base::NoMemory;
use std::alloc::Global;
use std::marker::Model;

/// Files in memory, which a crash tears as a real disk may.
///
/// The room is taken when the disk is made. A write that would pass it, or to a file that the disk does not
/// have, is a counted fault. A file that the disk does not have has size 0.
#[derive(Drop)]
pub struct MemoryDisk {
    files: Vec<MemoryFile>,
    failing: Vec<FailingCall>,
    calls: u64,
    faults: u64,
    last_fault: u16,
}

impl Model for MemoryDisk {
    ghost use Rattle.disk_journal.specs.Memory.{DiskState};

    ghost Value = { DiskState };

    ghost view = { λ d. record {
      files = d.files.items;
      failing = d.failing.items;
      calls = d.calls;
      faults = d.faults;
      last_fault = d.last_fault;
    } };
}

impl MemoryDisk {
    /// A disk with these files, all empty, each with this room in bytes, on which these calls fail.
    pub fn new(
        alloc: Global,
        numbers: &[u16],
        room: usize,
        failing: Vec<FailingCall>,
    ) -> Result<Self, NoMemory>
        ensures { IfOk result (λ disk. disk ≡ empty_disk room numbers.now failing.items) }
    {
        Ok(MemoryDisk {
            files: empty_files(alloc, numbers, room)?,
            failing,
            calls: 0,
            faults: 0,
            last_fault: 0,
        })
    }

    /// The disk after a crash, all of it synced. With pick 0 each byte written since its file's last sync is
    /// as it was before, and 0 where it stands past the least size since. With another pick it is the pick
    /// modulo 256. A cut that was not synced stands with every pick.
    pub fn crash(self, pick: u64) -> MemoryDisk
        ensures left { result ≡ disk_crashed pick self }
        ensures image { IsImage (leaves self) (reads result) }
        ensures durable { (f : ℕ) → Only (reads result f) (leaves result f) }
    {
        let mut disk = self;
        crash_each(&mut disk.files, pick);
        disk
    }

    /// Counts a call on this file that failed.
    pub(crate) fn fail(&mut self, file: u16) -> DiskFailed
        ensures fault { self.new ≡ faulted file self.old }
        ensures later { self.old.faults ≤ self.new.faults }
    {
        self.faults = self.faults.saturating_add(1);
        self.last_fault = file;
        DiskFailed
    }

    /// The work of a write, where there is room, without a call.
    pub(crate) fn begin_write(&mut self, file: u16, at: u64, bytes: &[u8])
        requires { at ≤ length (state_of self.old.files file).seen }
        ensures rest { self.new ≡ record self.old { files = self.new.files } }
        ensures work { let can = can_write self.old.files file (at + length bytes.now) in
            Works can file (written_at at bytes.now) self.old.files self.new.files }
        ensures consistent { let can = can_write self.old.files file (at + length bytes.now) in
            IsTrue can → IsConsistent (state_of self.old.files file) }
    {
        put(&mut self.files, file, at, bytes);
    }

    /// The work of a cut, without a call.
    pub(crate) fn begin_cut(&mut self, file: u16, size: u64)
        requires { size ≤ length (state_of self.old.files file).seen }
        ensures rest { self.new ≡ record self.old { files = self.new.files } }
        ensures work { Changes file (cut_to size) self.old.files self.new.files }
        ensures consistent { IsConsistent (state_of self.old.files file) }
    {
        shorten(&mut self.files, file, size);
    }
}

impl Disk for MemoryDisk {
    ghost use Rattle.std.specs.Prelude.{◌≡◌, ◌⊎◌, ℕ, true, length};
    ghost use Rattle.std.proofs.Common.{refl, inl};
    ghost use Rattle.disk_journal.specs.Memory.{reads, leaves, IsSteady};
    ghost use Rattle.disk_journal.specs.Disk.{IsImage};

    ghost tells = { true };

    ghost seen = { reads };

    ghost may_leave = { leaves };

    ghost moment = { λ d. 0 };

    ghost left_since = { λ d t. IsImage (leaves d) };

    ghost faults = { λ d. d.faults };

    ghost last_fault = { λ d. d.last_fault };

    ghost steady = { IsSteady };

    ghost counts_now = { λ d t img le now. now };

    ghost only_now = { λ d img left. left };

    ghost seen_may_stay = { λ d f. inl refl };

    fn size(&mut self, file: u16) -> Result<u64, DiskFailed>
        ensures size { IfOk result (λ size. size ≡ length (reads self.old file)) }
        ensures within { IfOk result (λ size. size ≤ FILE_BYTES) }
        ensures seen { SameEverywhere (reads self.old) (reads self.new) }
        ensures crash { NoMore (leaves self.old) (leaves self.new) }
        ensures cause { IsCaused file self.old self.new result }
        ensures progress { Progresses file 0 (IsSteady self.old) (IsSteady self.new) result }
        ensures call { IsSize file self.old self.new (is_ok result) }
    {
        let fate = next_fate(&mut self.calls, &self.failing);
        let size = len_of(&self.files, file);
        let passed = is_passed(fate, size <= FILE_BYTES);
        answer(&mut self.faults, &mut self.last_fault, file, passed)?;
        Ok(size)
    }

    fn read(&mut self, file: u16, at: u64, buf: &mut [u8]) -> Result<(), DiskFailed>
        requires { at + length buf.old ≤ length (reads self.old file) }
        ensures bytes { OnOk result (buf.new ≡ take (length buf.old) (drop at (reads self.old file))) }
        ensures seen { SameEverywhere (reads self.old) (reads self.new) }
        ensures crash { NoMore (leaves self.old) (leaves self.new) }
        ensures cause { IsCaused file self.old self.new result }
        ensures progress { Progresses file 0 (IsSteady self.old) (IsSteady self.new) result }
        ensures call { IsRead file self.old self.new (is_ok result) }
    {
        let fate = next_fate(&mut self.calls, &self.failing);
        fill(&self.files, file, at, buf);
        let passed = is_passed(fate, true);
        answer(&mut self.faults, &mut self.last_fault, file, passed)
    }

    fn write_at(&mut self, file: u16, at: u64, bytes: &[u8]) -> Result<(), DiskFailed>
        requires { at ≤ length (reads self.old file) }
        ensures written { OnOk result (Holds (reads self.old file) at bytes.now (reads self.new file)) }
        ensures within { OnOk result (at + length bytes.now ≤ FILE_BYTES) }
        ensures elsewhere { SameElsewhere file (reads self.old) (reads self.new) }
        ensures crash { Steps file (Torn at (length bytes.now)) (leaves self.old) (leaves self.new) }
        ensures cause { IsCaused file self.old self.new result }
        ensures progress { Progresses file (at + length bytes.now) (IsSteady self.old) (IsSteady self.new) result }
        ensures call { IsWrite file at bytes.now self.old self.new (is_ok result) }
    {
        let fate = next_fate(&mut self.calls, &self.failing);
        let passed = try_put(&mut self.files, fate, file, at, bytes);
        answer(&mut self.faults, &mut self.last_fault, file, passed)
    }

    fn cut(&mut self, file: u16, size: u64) -> Result<(), DiskFailed>
        requires { size ≤ length (reads self.old file) }
        ensures front { OnOk result ((reads self.new file) ≡ take size (reads self.old file)) }
        ensures elsewhere { SameElsewhere file (reads self.old) (reads self.new) }
        ensures crash { Steps file (Cut size) (leaves self.old) (leaves self.new) }
        ensures cause { IsCaused file self.old self.new result }
        ensures progress { Progresses file 0 (IsSteady self.old) (IsSteady self.new) result }
        ensures call { IsCut file size self.old self.new (is_ok result) }
    {
        let fate = next_fate(&mut self.calls, &self.failing);
        let passed = try_shorten(&mut self.files, fate, file, size);
        answer(&mut self.faults, &mut self.last_fault, file, passed)
    }

    fn sync(&mut self, file: u16) -> Result<(), DiskFailed>
        ensures durable { OnOk result (Only (reads self.old file) (leaves self.new file)) }
        ensures seen { SameEverywhere (reads self.old) (reads self.new) }
        ensures crash { NoMore (leaves self.old) (leaves self.new) }
        ensures cause { IsCaused file self.old self.new result }
        ensures progress { Progresses file 0 (IsSteady self.old) (IsSteady self.new) result }
        ensures call { IsSync file self.old self.new (is_ok result) }
    {
        let fate = next_fate(&mut self.calls, &self.failing);
        let passed = try_flush(&mut self.files, fate, file);
        answer(&mut self.faults, &mut self.last_fault, file, passed)
    }
}
