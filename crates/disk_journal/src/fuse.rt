ghost use Rattle.std.specs.Prelude.{◌≡◌, ◌≢◌, ◌+◌, ◌-◌, ◌≤◌, ◌<◌, ◌⊎◌, ◌↔◌, ◌&&◌, ℕ, List, IsTrue, true, false, IfOk, OnOk, nat_le, map, length, take, drop};
ghost use Rattle.std.specs.Result.{is_ok};
ghost use Rattle.disk_journal.specs.Memory.{IsConsistent, IsCaused, IsFuseSize, IsFuseRead, IsFuseWrite, IsFuseCut, IsFuseSync, Works, written_at, cut_to, state_of, reads, leaves, can_write, faulted, disk_crashed};
ghost use Rattle.disk_journal.specs.Disk.{SameEverywhere, SameElsewhere, NoMore, IsImage, Only, Holds, Steps, Torn, Cut};

use crate::limits::FILE_BYTES;
use crate::{Disk, DiskFailed, MemoryDisk};
use std::marker::Model;

/// A disk in memory at which everything stops: it passes some calls, and then fails every call.
///
/// The first call that it stops may be begun. Then what it writes counts as written and not synced, a cut as
/// made and not synced, and a sync as not done. The mark belongs to that call, whichever it is.
#[derive(Drop)]
pub struct FuseDisk {
    disk: MemoryDisk,
    left: u64,
    begun: bool,
}

impl Model for FuseDisk {
    ghost use Rattle.disk_journal.specs.Memory.{FuseState};

    ghost Value = { FuseState };

    ghost view = { λ d. record { disk = d.disk; left = d.left; begun = d.begun } };
}

// Whether the next call passes.
fn passes(left: &mut u64) -> bool
    ensures left { left.new ≡ left.old - 1 }
    ensures passes { IsTrue result ↔ (0 < left.old) }
{
    if *left == 0 {
        return false;
    }
    *left -= 1;
    true
}

// Whether the call that is stopped is begun.
fn begins(begun: &mut bool) -> bool
    ensures begun { result ≡ begun.old }
    ensures spent { begun.new ≡ false }
{
    let was = *begun;
    *begun = false;
    was
}

// What a call that is stopped does, and answers, where it would write.
fn stop_write(disk: &mut MemoryDisk, begun: bool, file: u16, at: u64, bytes: &[u8]) -> DiskFailed
    requires { at ≤ length (state_of disk.old.files file).seen }
    ensures rest { disk.new ≡ faulted file (record disk.old { files = disk.new.files }) }
    ensures later { disk.old.faults ≤ disk.new.faults }
    ensures work { let can = can_write disk.old.files file (at + length bytes.now) in
        Works (begun && can) file (written_at at bytes.now) disk.old.files disk.new.files }
    ensures consistent { let can = can_write disk.old.files file (at + length bytes.now) in
        IsTrue (begun && can) → IsConsistent (state_of disk.old.files file) }
{
    if !begun {
        return disk.fail(file);
    }
    disk.begin_write(file, at, bytes);
    disk.fail(file)
}

// The same where it would cut.
fn stop_cut(disk: &mut MemoryDisk, begun: bool, file: u16, size: u64) -> DiskFailed
    requires { size ≤ length (state_of disk.old.files file).seen }
    ensures rest { disk.new ≡ faulted file (record disk.old { files = disk.new.files }) }
    ensures later { disk.old.faults ≤ disk.new.faults }
    ensures work { Works (begun && true) file (cut_to size) disk.old.files disk.new.files }
    ensures consistent { IsTrue (begun && true) → IsConsistent (state_of disk.old.files file) }
{
    if !begun {
        return disk.fail(file);
    }
    disk.begin_cut(file, size);
    disk.fail(file)
}

impl FuseDisk {
    /// A disk that passes this many calls. `begun`: the first call after them is begun.
    pub fn new(disk: MemoryDisk, passes: u64, begun: bool) -> Self
        ensures { result ≡ record { disk = disk; left = passes; begun = begun } }
    {
        FuseDisk {
            disk,
            left: passes,
            begun,
        }
    }

    /// The disk after a crash, as [`MemoryDisk::crash`] leaves it, without the fuse.
    pub fn crash(self, pick: u64) -> MemoryDisk
        ensures left { result ≡ disk_crashed pick self.disk }
        ensures image { IsImage (leaves self.disk) (reads result) }
        ensures durable { (f : ℕ) → Only (reads result f) (leaves result f) }
    {
        let FuseDisk { disk, .. } = self;
        disk.crash(pick)
    }
}

impl Disk for FuseDisk {
    ghost use Rattle.std.specs.Prelude.{◌≡◌, ◌⊎◌, ℕ, true, length};
    ghost use Rattle.std.proofs.Common.{refl, inl};
    ghost use Rattle.disk_journal.specs.Memory.{reads, leaves};
    ghost use Rattle.disk_journal.specs.Disk.{IsImage};

    ghost tells = { true };

    ghost seen = { λ d. reads d.disk };

    ghost may_leave = { λ d. leaves d.disk };

    ghost moment = { λ d. 0 };

    ghost left_since = { λ d t. IsImage (leaves d.disk) };

    ghost faults = { λ d. d.disk.faults };

    ghost last_fault = { λ d. d.disk.last_fault };

    ghost steady = { λ d f n. ⊥ };

    ghost counts_now = { λ d t img le now. now };

    ghost only_now = { λ d img left. left };

    ghost seen_may_stay = { λ d f. inl refl };

    fn size(&mut self, file: u16) -> Result<u64, DiskFailed>
        ensures size { IfOk result (λ size. size ≡ length (reads self.old.disk file)) }
        ensures within { IfOk result (λ size. size ≤ FILE_BYTES) }
        ensures seen { SameEverywhere (reads self.old.disk) (reads self.new.disk) }
        ensures crash { NoMore (leaves self.old.disk) (leaves self.new.disk) }
        ensures cause { IsCaused file self.old.disk self.new.disk result }
        ensures call { IsFuseSize file self.old self.new (is_ok result) }
    {
        if passes(&mut self.left) {
            return self.disk.size(file);
        }
        self.begun = false;
        Err(self.disk.fail(file))
    }

    fn read(&mut self, file: u16, at: u64, buf: &mut [u8]) -> Result<(), DiskFailed>
        requires { at + length buf.old ≤ length (reads self.old.disk file) }
        ensures bytes { OnOk result (buf.new ≡ take (length buf.old) (drop at (reads self.old.disk file))) }
        ensures seen { SameEverywhere (reads self.old.disk) (reads self.new.disk) }
        ensures crash { NoMore (leaves self.old.disk) (leaves self.new.disk) }
        ensures cause { IsCaused file self.old.disk self.new.disk result }
        ensures call { IsFuseRead file self.old self.new (is_ok result) }
    {
        if passes(&mut self.left) {
            return self.disk.read(file, at, buf);
        }
        self.begun = false;
        Err(self.disk.fail(file))
    }

    fn write_at(&mut self, file: u16, at: u64, bytes: &[u8]) -> Result<(), DiskFailed>
        requires { at ≤ length (reads self.old.disk file) }
        ensures written { OnOk result (Holds (reads self.old.disk file) at bytes.now (reads self.new.disk file)) }
        ensures within { OnOk result (at + length bytes.now ≤ FILE_BYTES) }
        ensures elsewhere { SameElsewhere file (reads self.old.disk) (reads self.new.disk) }
        ensures crash { Steps file (Torn at (length bytes.now)) (leaves self.old.disk) (leaves self.new.disk) }
        ensures cause { IsCaused file self.old.disk self.new.disk result }
        ensures call { IsFuseWrite file at bytes.now self.old self.new (is_ok result) }
    {
        if passes(&mut self.left) {
            return self.disk.write_at(file, at, bytes);
        }
        let begun = begins(&mut self.begun);
        Err(stop_write(&mut self.disk, begun, file, at, bytes))
    }

    fn cut(&mut self, file: u16, size: u64) -> Result<(), DiskFailed>
        requires { size ≤ length (reads self.old.disk file) }
        ensures front { OnOk result ((reads self.new.disk file) ≡ take size (reads self.old.disk file)) }
        ensures elsewhere { SameElsewhere file (reads self.old.disk) (reads self.new.disk) }
        ensures crash { Steps file (Cut size) (leaves self.old.disk) (leaves self.new.disk) }
        ensures cause { IsCaused file self.old.disk self.new.disk result }
        ensures call { IsFuseCut file size self.old self.new (is_ok result) }
    {
        if passes(&mut self.left) {
            return self.disk.cut(file, size);
        }
        let begun = begins(&mut self.begun);
        Err(stop_cut(&mut self.disk, begun, file, size))
    }

    fn sync(&mut self, file: u16) -> Result<(), DiskFailed>
        ensures durable { OnOk result (Only (reads self.old.disk file) (leaves self.new.disk file)) }
        ensures seen { SameEverywhere (reads self.old.disk) (reads self.new.disk) }
        ensures crash { NoMore (leaves self.old.disk) (leaves self.new.disk) }
        ensures cause { IsCaused file self.old.disk self.new.disk result }
        ensures call { IsFuseSync file self.old self.new (is_ok result) }
    {
        if passes(&mut self.left) {
            return self.disk.sync(file);
        }
        self.begun = false;
        Err(self.disk.fail(file))
    }
}
