ghost use Rattle.std.specs.Prelude.{◌≡◌, ℕ, Bool, IsTrue, List, [], length};
ghost use Rattle.disk_journal.specs.Disk.{Image};
ghost use Rattle.disk_journal.specs.Moments.{LeavesOnly};
ghost use Rattle.disk_journal.specs.Journal.{IsJournal, IsRefused, HasBodies, fresh};
ghost use Rattle.disk_journal.specs.Effects.{StaysElsewhere, IsAppending, IsBodyInDoubt, IsOpening};

use crate::Disk;
use crate::limits::FRESH_BYTES;

/// What the bytes of a journal mean: at most one list of bodies fits any bytes, and any files. Bytes that are
/// refused fit none, and one place alone shows why. A fresh journal has no body.
pub fn one_meaning()
    ensures bodies { (bytes : List ℕ) (a b : List (List ℕ)) → IsJournal bytes a → IsJournal bytes b → a ≡ b }
    ensures files { (img : Image) (file : ℕ) (a b : List (List ℕ)) →
        HasBodies img file a → HasBodies img file b → a ≡ b }
    ensures refused { (bytes : List ℕ) (at : ℕ) (bodies : List (List ℕ)) →
        IsRefused bytes at → IsJournal bytes bodies → ⊥ }
    ensures place { (bytes : List ℕ) (a b : ℕ) → IsRefused bytes a → IsRefused bytes b → a ≡ b }
    ensures fresh { IsJournal fresh [] × (length fresh ≡ FRESH_BYTES) }
{}

/// What crashes leave in two runs of calls, one after the other. What passes a test in each passes it in both
/// together. And where a body was in doubt after an append, and the journal was opened again, every crash since
/// the start of the append leaves the bodies from before it, or these with the one more.
pub fn one_run<D: Disk>()
    ensures joins { (old mid new : D) (test : Image → Bool) → LeavesOnly D.Disk old mid (λ img. IsTrue (test img)) →
        LeavesOnly D.Disk mid new (λ img. IsTrue (test img)) → LeavesOnly D.Disk old new (λ img. IsTrue (test img)) }
    ensures reopened { (old mid new : D) (file : ℕ) (bodies : List (List ℕ)) (body : List ℕ) →
        LeavesOnly D.Disk old mid (IsAppending D.Disk old file bodies body) →
        (IsTrue D.tells → IsBodyInDoubt D.Disk mid file bodies body) → StaysElsewhere D.Disk file old mid →
        LeavesOnly D.Disk mid new (IsOpening D.Disk mid file) →
        LeavesOnly D.Disk old new (IsAppending D.Disk old file bodies body) }
{}
