ghost use Rattle.std.specs.Prelude.{◌≡◌, ◌<◌, ◌++◌, [], Bool, IsTrue, List, ℕ, length, take, IfOk, MatchResult};
ghost use Rattle.std.specs.Io.{ReadsAtMost};
ghost use Rattle.cells_base.specs.Causes.{HasCause};

/// A read that failed. The source counted the fault.
#[derive(Clone, Copy, Debug, PartialEq, Eq)]
pub struct SourceFailed;

/// Bytes that come from outside, in pieces of any size.
pub trait Source {
    /// Whether the source tells what it has left. A clause on bytes holds where it does.
    ghost tells: { Bool };

    /// The bytes that are left.
    ghost left: { Self → List ℕ };

    /// The count of faults, which never falls.
    ghost faults: { Self → ℕ };

    /// Reads the next bytes into the front of `buf`, and answers how many they are. `Ok(0)` for a
    /// buffer that is not empty is the end of input. `SourceFailed` comes only where the count of
    /// faults rose, and what is left then stays.
    fn read(&mut self, buf: &mut [u8]) -> Result<usize, SourceFailed>
        ensures bound { ReadsAtMost result buf.new }
        ensures bytes { IsTrue tells → MatchResult result (λ n. left self.old ≡ take n buf.new ++ left self.new)
            (λ _. left self.new ≡ left self.old) }
        ensures end { IsTrue tells → IfOk result (λ n. n ≡ 0 → 0 < length buf.new → left self.new ≡ []) }
        ensures cause { HasCause (faults self.old) (faults self.new) result };
}
