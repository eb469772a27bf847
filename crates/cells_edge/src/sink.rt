ghost use Rattle.std.specs.Prelude.{◌≡◌, ◌<◌, ◌≤◌, ◌++◌, Bool, IsTrue, List, ℕ, length, take, drop, IfOk, OnOk, OnErr, MatchResult};
ghost use Rattle.std.specs.Io.{WritesAtMost};
ghost use Rattle.cells_base.specs.Causes.{HasCause, Rose};
ghost use Rattle.cells_edge.specs.Edge.{IsPrefix};

/// A write that failed. The sink counted the fault.
#[derive(Clone, Copy, Debug, PartialEq, Eq)]
pub struct SinkFailed;

/// Where bytes go, in pieces of any size.
pub trait Sink {
    /// Whether the sink tells what it was given. A clause on bytes holds where it does.
    ghost tells: { Bool };

    /// The bytes that were written.
    ghost written: { Self → List ℕ };

    /// The count of faults, which never falls.
    ghost faults: { Self → ℕ };

    /// Writes the first bytes of the piece, and answers how many they are: at least one of a piece
    /// that is not empty. `SinkFailed` comes only where the count of faults rose, and some front of
    /// the piece, which may be empty, was then written.
    fn write(&mut self, bytes: &[u8]) -> Result<usize, SinkFailed>
        ensures bound { WritesAtMost result bytes.now }
        ensures some { IfOk result (λ n. 0 < length bytes.now → 0 < n) }
        ensures bytes { IsTrue tells → MatchResult result (λ n. written self.new ≡ written self.old ++ take n bytes.now)
            (λ _. (front : List ℕ) × IsPrefix front bytes.now × (written self.new ≡ written self.old ++ front)) }
        ensures cause { HasCause (faults self.old) (faults self.new) result };
}
