ghost use Rattle.std.specs.Prelude.{◌≡◌, ◌+◌, ◌≤◌, Bool, IsTrue, List, ℕ, length, take, drop, IfOk, OnOk};
ghost use Rattle.disk_journal.specs.Disk.{Image, Only, Steps, NoMore, SameElsewhere, SameEverywhere, Torn, Cut, Holds, IsImage, Elapses, HasCause, Progresses};

use crate::limits::FILE_BYTES;

/// A call of a disk failed. It may have done its work or not.
#[derive(Clone, Copy, Debug, PartialEq, Eq)]
pub struct DiskFailed;

/// Files with numbers, which a crash may tear.
///
/// Between two syncs of a file, a crash may leave any bytes in the ranges that were written and past the old
/// end, and what stood behind a cut may be there or not. Its other bytes stay. After a sync that passed, a
/// crash leaves what a read gives. A call on one file changes no other, and at one moment what is left of one
/// file does not depend on what is left of another.
///
/// Each call that fails is counted, with its file. The clauses on content hold where the disk `tells` it;
/// the causes of a failure and the limit on sizes hold of every disk.
pub trait Disk {
    /// Whether the content is told.
    ghost tells: { Bool };

    /// What a read of each file gives.
    ghost seen: { Self → Image };

    /// What a crash at this moment may leave of each file.
    ghost may_leave: { Self → ℕ → List ℕ → Type 0 };

    /// The moment, as a number that does not fall.
    ghost moment: { Self → ℕ };

    /// What a crash at some moment from that one on may have left of all files.
    ghost left_since: { Self → ℕ → Image → Type 0 };

    /// How often a call has failed.
    ghost faults: { Self → ℕ };

    /// The file of the last call that failed.
    ghost last_fault: { Self → ℕ };

    /// That from now on no call on a file fails which ends within so many bytes of it.
    ghost steady: { Self → ℕ → ℕ → Type 0 };

    /// The number of bytes of the file, 0 where there is none.
    fn size(&mut self, file: u16) -> Result<u64, DiskFailed>
        ensures size { IsTrue tells → IfOk result (λ size. size ≡ length (seen self.old file)) }
        ensures within { IfOk result (λ size. size ≤ FILE_BYTES) }
        ensures seen { IsTrue tells → SameEverywhere (seen self.old) (seen self.new) }
        ensures crash { IsTrue tells → NoMore (may_leave self.old) (may_leave self.new) }
        ensures time { IsTrue tells →
            Elapses (moment self.old) (moment self.new) (left_since self.old) (left_since self.new) (may_leave self.new) }
        ensures cause { HasCause file (faults self.old) (faults self.new)
            (last_fault self.old) (last_fault self.new) result }
        ensures progress { Progresses file 0 (steady self.old) (steady self.new) result };

    /// Fills the buffer with the bytes from `at` on.
    fn read(&mut self, file: u16, at: u64, buf: &mut [u8]) -> Result<(), DiskFailed>
        requires { IsTrue tells → at + length buf.old ≤ length (seen self.old file) }
        ensures bytes { IsTrue tells → OnOk result (buf.new ≡ take (length buf.old) (drop at (seen self.old file))) }
        ensures seen { IsTrue tells → SameEverywhere (seen self.old) (seen self.new) }
        ensures crash { IsTrue tells → NoMore (may_leave self.old) (may_leave self.new) }
        ensures time { IsTrue tells →
            Elapses (moment self.old) (moment self.new) (left_since self.old) (left_since self.new) (may_leave self.new) }
        ensures cause { HasCause file (faults self.old) (faults self.new)
            (last_fault self.old) (last_fault self.new) result }
        ensures progress { Progresses file 0 (steady self.old) (steady self.new) result };

    /// Writes over what is there from `at` on, and past the end.
    fn write_at(&mut self, file: u16, at: u64, bytes: &[u8]) -> Result<(), DiskFailed>
        requires { IsTrue tells → at ≤ length (seen self.old file) }
        ensures written { IsTrue tells → OnOk result (Holds (seen self.old file) at bytes.now (seen self.new file)) }
        ensures within { OnOk result (at + length bytes.now ≤ FILE_BYTES) }
        ensures elsewhere { IsTrue tells → SameElsewhere file (seen self.old) (seen self.new) }
        ensures crash { IsTrue tells →
            Steps file (Torn at (length bytes.now)) (may_leave self.old) (may_leave self.new) }
        ensures time { IsTrue tells →
            Elapses (moment self.old) (moment self.new) (left_since self.old) (left_since self.new) (may_leave self.new) }
        ensures cause { HasCause file (faults self.old) (faults self.new)
            (last_fault self.old) (last_fault self.new) result }
        ensures progress { Progresses file (at + length bytes.now) (steady self.old) (steady self.new) result };

    /// Cuts the file to its first `size` bytes.
    fn cut(&mut self, file: u16, size: u64) -> Result<(), DiskFailed>
        requires { IsTrue tells → size ≤ length (seen self.old file) }
        ensures front { IsTrue tells → OnOk result (seen self.new file ≡ take size (seen self.old file)) }
        ensures elsewhere { IsTrue tells → SameElsewhere file (seen self.old) (seen self.new) }
        ensures crash { IsTrue tells → Steps file (Cut size) (may_leave self.old) (may_leave self.new) }
        ensures time { IsTrue tells →
            Elapses (moment self.old) (moment self.new) (left_since self.old) (left_since self.new) (may_leave self.new) }
        ensures cause { HasCause file (faults self.old) (faults self.new)
            (last_fault self.old) (last_fault self.new) result }
        ensures progress { Progresses file 0 (steady self.old) (steady self.new) result };

    /// After it a crash leaves of this file what a read gives.
    fn sync(&mut self, file: u16) -> Result<(), DiskFailed>
        ensures durable { IsTrue tells → OnOk result (Only (seen self.old file) (may_leave self.new file)) }
        ensures seen { IsTrue tells → SameEverywhere (seen self.old) (seen self.new) }
        ensures crash { IsTrue tells → NoMore (may_leave self.old) (may_leave self.new) }
        ensures time { IsTrue tells →
            Elapses (moment self.old) (moment self.new) (left_since self.old) (left_since self.new) (may_leave self.new) }
        ensures cause { HasCause file (faults self.old) (faults self.new)
            (last_fault self.old) (last_fault self.new) result }
        ensures progress { Progresses file 0 (steady self.old) (steady self.new) result };

    /// This moment is one of those since an earlier one.
    ghost counts_now: { (d : Self) (t : ℕ) (img : Image) → t ≤ moment d → IsImage (may_leave d) img → left_since d t img };

    /// Since this moment there is no other.
    ghost only_now: { (d : Self) (img : Image) → left_since d (moment d) img → IsImage (may_leave d) img };

    /// What a read gives is one of the contents that a crash now may leave.
    ghost seen_may_stay: { (d : Self) (file : ℕ) → may_leave d file (seen d file) };
}
