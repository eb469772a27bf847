ghost use Rattle.std.specs.Prelude.{◌≡◌, ◌≢◌, ◌+◌, ◌-◌, ◌≤◌, ◌<◌, ◌++◌, [], ◌∷◌, IsTrue, List, ℕ, length, take, drop, true, false, if◌then◌else◌, IfOk, IfErr, IfSome, OnOk, OnErr, IsErrOf, position, Some, None, Err};
ghost use Rattle.cells_base.specs.Causes.{HasCause, Rose};
ghost use Rattle.cells_cli.specs.Lines.{is_end, lines_of};
ghost use Rattle.cells_cli.specs.LineEnds.{lines_by, line_text, most_bytes, without_return};
ghost use Rattle.cells_cli.specs.Ahead.{ahead, refused_ahead, GoesOn, EndsText, SameRefused, MayGive, IsTooLong, IsLong};
ghost use Rattle.cells_cli.specs.Spans.{IsWithin, bytes_at};
ghost use Rattle.cells_cli.specs.First.{IsFirst};
ghost use Rattle.cells_cli.specs.Refused.{Refuses};
ghost use Rattle.cells_cli.specs.declared.lines.LineFault.TheVariants.{Read};

use cells_base::{NoMemory, behind};
use cells_edge::{Source, SourceFailed, read_behind};
use std::alloc::Global;
use std::marker::Model;

/// The most lines of an input.
pub const LINES: u64 = 4096;

/// The most bytes that a reader may allow a line, without its end.
pub const LONGEST_LINE_BYTES: usize = 65536;

// The least room for one read, in bytes.
const PIECE_BYTES: usize = 4096;

const LINE_FEED: u8 = 10;

const CARRIAGE_RETURN: u8 = 13;

/// What ends a line, and is no part of it.
#[derive(Clone, Copy)]
pub(crate) enum LineEnd {
    /// LF.
    Feed,
    /// LF, and a CR in front of it where there is one.
    ReturnAndFeed,
}

// The most bytes in front of an LF that a line of at most `limit` bytes may have.
fn most_read(ends: LineEnd, limit: usize) -> usize
    requires { limit ≤ LONGEST_LINE_BYTES }
    ensures { result ≡ most_bytes ends limit }
{
    match ends {
        LineEnd::Feed => limit,
        LineEnd::ReturnAndFeed => limit + 1,
    }
}

/// Why there is no next line.
#[derive(Clone, Copy, Debug, PartialEq, Eq)]
pub enum LineFault {
    /// The next line has more bytes than the limit. Lines count from 1.
    TooLong { line: u64 },
    /// As many lines as an input may have were given, and more text is there.
    TooMany,
    /// The source failed.
    Read,
}

impl From<SourceFailed> for LineFault {
    ghost from_gives = { λ _ e. e ≡ Read };

    fn from(_: SourceFailed) -> Self {
        LineFault::Read
    }
}

// Where a run of bytes stands in a buffer.
#[derive(Clone, Copy)]
struct Span {
    from: usize,
    to: usize,
}

fn part(bytes: &[u8], span: Span) -> &[u8]
    requires { IsWithin span bytes.now }
    ensures { result.now ≡ bytes_at span bytes.now }
{
    &bytes[span.from..span.to]
}

fn first_end(bytes: &[u8]) -> Option<usize>
    ensures { result ≡ position is_end bytes.now }
{
    bytes.iter().position(|b| *b == LINE_FEED)
}

// The place of the first LF, which does not stand in the first `from` bytes.
fn end_from(bytes: &[u8], from: usize) -> Option<usize>
    requires within { from ≤ length bytes.now }
    requires none_before { position is_end (take from bytes.now) ≡ None }
    ensures { result ≡ position is_end bytes.now }
{
    match first_end(behind(bytes, from)) {
        Some(at) => Some(from + at),
        None => None,
    }
}

// Moves a run to the front of the buffer.
fn move_down(buffer: &mut [u8], span: Span) -> Span
    requires { IsWithin span buffer.old }
    ensures place { (result.from ≡ 0) × (result.to ≡ span.to - span.from) }
    ensures bytes { bytes_at result buffer.new ≡ bytes_at span buffer.old }
{
    if span.from > 0 {
        buffer.copy_within(span.from..span.to, 0);
    }
    Span {
        from: 0,
        to: span.to - span.from,
    }
}

// Reads once. Nothing comes only at the end.
fn read_more<S: Source>(
    buffer: &mut [u8],
    pending: &mut Span,
    source: &mut S,
) -> Result<bool, SourceFailed>
    requires within { IsWithin pending.old buffer.old }
    requires room { pending.old.to - pending.old.from < length buffer.old }
    ensures within { IsWithin pending.new buffer.new }
    ensures grows { IfOk result (λ some. IsTrue some →
        pending.old.to - pending.old.from < pending.new.to - pending.new.from) }
    ensures end { IfOk result (λ some. some ≡ false → bytes_at pending.new buffer.new ≡
        bytes_at pending.old buffer.old) }
    ensures kept { take (pending.old.to - pending.old.from) (bytes_at pending.new buffer.new) ≡
        bytes_at pending.old buffer.old }
    ensures ahead { IsTrue S.tells → bytes_at pending.new buffer.new ++ S.left source.new ≡
        bytes_at pending.old buffer.old ++ S.left source.old }
    ensures at_end { IsTrue S.tells → IfOk result (λ some. some ≡ false → S.left source.new ≡ []) }
    ensures cause { HasCause (S.faults source.old) (S.faults source.new) result }
{
    *pending = move_down(buffer, *pending);
    let end = read_behind(buffer, pending.to, source)?;
    let some = pending.to < end;
    pending.to = end;
    Ok(some)
}

// Reads until a line's end is there or more than `limit` bytes, or until the end of the text.
fn fill<S: Source>(
    buffer: &mut [u8],
    pending: &mut Span,
    limit: usize,
    source: &mut S,
) -> Result<Option<usize>, SourceFailed>
    requires within { IsWithin pending.old buffer.old }
    requires room { limit < length buffer.old }
    ensures within { IsWithin pending.new buffer.new }
    ensures found { IfOk result (λ at. at ≡ position is_end (bytes_at pending.new buffer.new)) }
    ensures ahead { IsTrue S.tells → bytes_at pending.new buffer.new ++ S.left source.new ≡
        bytes_at pending.old buffer.old ++ S.left source.old }
    ensures whole { IsTrue S.tells → IfOk result (λ at. at ≡ None →
        length (bytes_at pending.new buffer.new) ≤ limit → S.left source.new ≡ []) }
    ensures cause { HasCause (S.faults source.old) (S.faults source.new) result }
{
    let mut sought = 0;
    loop {
        if let Some(at) = end_from(part(buffer, *pending), sought) {
            return Ok(Some(at));
        }
        sought = pending.to - pending.from;
        if sought > limit {
            return Ok(None);
        }
        if !read_more(buffer, pending, source)? {
            return Ok(None);
        }
    }
}

// What stands first in the bytes that were read.
enum Found {
    // A line, and the bytes behind it.
    Line { line: Span, rest: Span },
    // A line of more bytes than the limit.
    Long,
    // The end of the text.
    End,
}

// How many bytes a line has without a CR at its end.
fn len_without_return(line: &[u8]) -> usize
    ensures within { result ≤ length line.now }
    ensures kept { take result line.now ≡ without_return line.now }
{
    let Some((last, rest)) = line.split_last() else {
        return 0;
    };
    if *last == CARRIAGE_RETURN {
        return rest.len();
    }
    line.len()
}

// The line of these bytes, in front of the LF that ends it.
fn text_of(bytes: &[u8], span: Span, ends: LineEnd) -> Span
    requires { IsWithin span bytes.now }
    ensures within { IsWithin result bytes.now }
    ensures text { bytes_at result bytes.now ≡ line_text ends (bytes_at span bytes.now) }
{
    match ends {
        LineEnd::Feed => span,
        LineEnd::ReturnAndFeed => Span {
            from: span.from,
            to: span.from + len_without_return(part(bytes, span)),
        },
    }
}

// A line whose LF is at `at`.
fn ended_line(bytes: &[u8], pending: Span, at: usize, limit: usize, ends: LineEnd) -> Found
    requires within { IsWithin pending bytes.now }
    requires found { position is_end (bytes_at pending bytes.now) ≡ Some at }
    ensures { IsFirst ends bytes.now pending limit result }
{
    let whole = Span {
        from: pending.from,
        to: pending.from + at,
    };
    let line = text_of(bytes, whole, ends);
    if line.to - line.from > limit {
        return Found::Long;
    }
    Found::Line {
        line,
        rest: Span {
            from: pending.from + at + 1,
            to: pending.to,
        },
    }
}

// What stands first where no LF is among the bytes that were read.
fn last_line(bytes: &[u8], pending: Span, limit: usize, ends: LineEnd) -> Found
    requires within { IsWithin pending bytes.now }
    requires found { position is_end (bytes_at pending bytes.now) ≡ None }
    ensures { IsFirst ends bytes.now pending limit result }
{
    let size = pending.to - pending.from;
    if size > limit {
        return Found::Long;
    }
    if size == 0 {
        return Found::End;
    }
    Found::Line {
        line: pending,
        rest: Span {
            from: pending.to,
            to: pending.to,
        },
    }
}

// Looks at the bytes that were read, whose first LF is at `end`. Where there is none, and the bytes
// are no more than a line and its end may have, the text ends with them.
fn first_line(bytes: &[u8], pending: Span, end: Option<usize>, limit: usize, ends: LineEnd) -> Found
    requires within { IsWithin pending bytes.now }
    requires found { end ≡ position is_end (bytes_at pending bytes.now) }
    ensures { IsFirst ends bytes.now pending limit result }
{
    match end {
        Some(at) => ended_line(bytes, pending, at, limit, ends),
        None => last_line(bytes, pending, limit, ends),
    }
}

/// The lines of a source, one after another: each ends with LF or with the input, and CR is a byte as
/// any other. A text that ends with LF has no line behind it. The reader keeps what it read and has
/// not given yet, so every line of one input is read by one reader.
#[derive(Drop)]
pub struct LineReader {
    buffer: Vec<u8>,
    line: Span,
    pending: Span,
    given: u64,
    limit: usize,
}

impl Model for LineReader {
    ghost use Rattle.std.specs.Prelude.{◌≡◌, ◌≤◌, ◌+◌};
    ghost use Rattle.cells_cli.specs.Lines.{Progress};

    ghost Value = { Progress };

    ghost use Rattle.cells_cli.specs.Spans.{IsWithin, bytes_at};
    ghost use Rattle.cells_cli.specs.declared.lines.TheConstants.{LINES, LONGEST_LINE_BYTES, PIECE_BYTES};
    ghost use Rattle.std.specs.Prelude.{vec_len};

    ghost view = { λ r. record { line = bytes_at r.line r.buffer.items; pending = bytes_at r.pending r.buffer.items; given = r.given; limit = r.limit } };

    ghost invariant = { λ r. (IsWithin r.line r.buffer.items) × (IsWithin r.pending r.buffer.items) × (r.given ≤ LINES) × (r.limit ≤ LONGEST_LINE_BYTES) × (vec_len r.buffer ≡ r.limit + PIECE_BYTES) };
}

impl LineReader {
    /// A reader of lines of at most `limit` bytes. It takes all the memory that it needs.
    pub fn new(alloc: Global, limit: usize) -> Result<Self, NoMemory>
        requires { limit ≤ LONGEST_LINE_BYTES }
        ensures { IfOk result (λ r. r ≡ record { line = []; pending = []; given = 0; limit = limit }) }
    {
        Ok(LineReader {
            buffer: vec![in alloc; 0; limit + PIECE_BYTES]?,
            line: Span { from: 0, to: 0 },
            pending: Span { from: 0, to: 0 },
            given: 0,
            limit,
        })
    }

    /// The line that was given last.
    pub fn line(&self) -> &[u8]
        ensures { result.now ≡ self.now.line }
    {
        part(self.buffer.as_slice(), self.line)
    }

    /// How many lines were given. The line that a fault refuses is the one behind them.
    pub fn given(&self) -> u64
        ensures { result ≡ self.now.given }
    {
        self.given
    }

    /// Goes on to the next line, or answers false at the end of the text.
    pub fn next<S: Source>(&mut self, source: &mut S) -> Result<bool, LineFault>
        ensures next { IsTrue S.tells → IfOk result (GoesOn lines_of S.Source self.old source.old self.new source.new) }
        ensures end { IsTrue S.tells → IfOk result (EndsText lines_of S.Source self.old source.old source.new) }
        ensures counted { IfOk result (λ some. self.new.given ≡ (if some then self.old.given + 1 else self.old.given)) }
        ensures short { IfOk result (λ some. IsTrue some → MayGive self.old self.new.line) }
        ensures long { (line : ℕ) → IsErrOf result (LineFault.TooLong line) → IsTooLong self.old self.new line }
        ensures many { IsErrOf result LineFault.TooMany → (self.old.given ≡ LINES) × (self.new.pending ≢ []) }
        ensures read { IsErrOf result LineFault.Read → Rose (S.faults source.old) (S.faults source.new) }
        ensures later { S.faults source.old ≤ S.faults source.new }
        ensures stays { IsTrue S.tells → OnErr result (ahead S.Source self.new source.new ≡
            ahead S.Source self.old source.old) }
        ensures given { OnErr result (self.new.given ≡ self.old.given) }
        ensures limit { self.new.limit ≡ self.old.limit }
        ensures passed { IsTrue S.tells →
            IfOk result (λ _. SameRefused lines_of S.Source self.old source.old self.new source.new) }
        ensures refused { IsTrue S.tells →
            IfErr result (λ fault. Refuses fault (refused_ahead lines_of S.Source self.old source.old)) }
    {
        self.advance(LineEnd::Feed, source)
    }

    // Goes on to the next line of those that end so.
    pub(crate) fn advance<S: Source>(
        &mut self,
        ends: LineEnd,
        source: &mut S,
    ) -> Result<bool, LineFault>
        ensures next { IsTrue S.tells →
            IfOk result (GoesOn (lines_by ends) S.Source self.old source.old self.new source.new) }
        ensures end { IsTrue S.tells → IfOk result (EndsText (lines_by ends) S.Source self.old source.old source.new) }
        ensures counted { IfOk result (λ some. self.new.given ≡ (if some then self.old.given + 1 else self.old.given)) }
        ensures short { IfOk result (λ some. IsTrue some → MayGive self.old self.new.line) }
        ensures long { (line : ℕ) → IsErrOf result (LineFault.TooLong line) → IsLong ends self.old self.new line }
        ensures many { IsErrOf result LineFault.TooMany → (self.old.given ≡ LINES) × (self.new.pending ≢ []) }
        ensures read { IsErrOf result LineFault.Read → Rose (S.faults source.old) (S.faults source.new) }
        ensures later { S.faults source.old ≤ S.faults source.new }
        ensures stays { IsTrue S.tells → OnErr result (ahead S.Source self.new source.new ≡
            ahead S.Source self.old source.old) }
        ensures given { OnErr result (self.new.given ≡ self.old.given) }
        ensures limit { self.new.limit ≡ self.old.limit }
        ensures passed { IsTrue S.tells →
            IfOk result (λ _. SameRefused (lines_by ends) S.Source self.old source.old self.new source.new) }
        ensures refused { IsTrue S.tells →
            IfErr result (λ fault. Refuses fault (refused_ahead (lines_by ends) S.Source self.old source.old)) }
    {
        let buffer = self.buffer.as_mut_slice();
        if self.given == LINES {
            fill(buffer, &mut self.pending, 0, source)?;
            if self.pending.from == self.pending.to {
                return Ok(false);
            }
            return Err(LineFault::TooMany);
        }
        let most = most_read(ends, self.limit);
        let end = fill(buffer, &mut self.pending, most, source)?;
        match first_line(buffer, self.pending, end, self.limit, ends) {
            Found::Line { line, rest } => {
                self.line = line;
                self.pending = rest;
                self.given += 1;
                Ok(true)
            }
            Found::Long => Err(LineFault::TooLong {
                line: self.given + 1,
            }),
            Found::End => Ok(false),
        }
    }
}
