ghost use Rattle.std.specs.Prelude.{◌≡◌, ◌≢◌, ◌+◌, ◌≤◌, [], IsTrue, ℕ, if◌then◌else◌, IfOk, IfErr, OnErr, IsErrOf};
ghost use Rattle.cells_base.specs.Causes.{Rose};
ghost use Rattle.cells_cli.specs.ScriptLines.{script_lines_of};
ghost use Rattle.cells_cli.specs.Ahead.{ahead, refused_ahead, GoesOn, EndsText, SameRefused, MayGive, IsLong};
ghost use Rattle.cells_cli.specs.Refused.{Refuses};

use crate::lines::{LINES, LineEnd, LineFault, LineReader};
use cells_edge::Source;

impl LineReader {
    /// Goes on to the next line of a script, or answers false at the end of the text. LF drops a CR in
    /// front of it, which does not count towards the limit. A CR that no LF follows is a byte as any other.
    pub fn next_script_line<S: Source>(&mut self, source: &mut S) -> Result<bool, LineFault>
        ensures next { IsTrue S.tells →
            IfOk result (GoesOn script_lines_of S.Source self.old source.old self.new source.new) }
        ensures end { IsTrue S.tells → IfOk result (EndsText script_lines_of S.Source self.old source.old source.new) }
        ensures counted { IfOk result (λ some. self.new.given ≡ (if some then self.old.given + 1 else self.old.given)) }
        ensures short { IfOk result (λ some. IsTrue some → MayGive self.old self.new.line) }
        ensures long { (line : ℕ) →
            IsErrOf result (LineFault.TooLong line) → IsLong LineEnd.ReturnAndFeed self.old self.new line }
        ensures many { IsErrOf result LineFault.TooMany → (self.old.given ≡ LINES) × (self.new.pending ≢ []) }
        ensures read { IsErrOf result LineFault.Read → Rose (S.faults source.old) (S.faults source.new) }
        ensures later { S.faults source.old ≤ S.faults source.new }
        ensures stays { IsTrue S.tells → OnErr result (ahead S.Source self.new source.new ≡
            ahead S.Source self.old source.old) }
        ensures given { OnErr result (self.new.given ≡ self.old.given) }
        ensures limit { self.new.limit ≡ self.old.limit }
        ensures passed { IsTrue S.tells →
            IfOk result (λ _. SameRefused script_lines_of S.Source self.old source.old self.new source.new) }
        ensures refused { IsTrue S.tells →
            IfErr result (λ fault. Refuses fault (refused_ahead script_lines_of S.Source self.old source.old)) }
    {
        self.advance(LineEnd::ReturnAndFeed, source)
    }
}
