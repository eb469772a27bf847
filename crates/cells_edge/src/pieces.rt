//! Whole runs of bytes, through ends that take and give them in pieces.
ghost use Rattle.std.specs.Prelude.{◌≡◌, ◌<◌, ◌≤◌, ◌++◌, [], IsTrue, length, take, IfOk, OnOk, OnErr};
ghost use Rattle.cells_base.specs.Causes.{HasCause};
ghost use Rattle.cells_edge.specs.Streams.{WritesAll, WritesFront};

use crate::{Sink, SinkFailed, Source, SourceFailed};
use cells_base::behind;

/// Writes all of the bytes. Where the sink fails, a front of them was written.
pub fn write_all<W: Sink>(sink: &mut W, bytes: &[u8]) -> Result<(), SinkFailed>
    ensures ok { OnOk result (WritesAll W.Sink sink.old sink.new bytes.now) }
    ensures err { OnErr result (WritesFront W.Sink sink.old sink.new bytes.now) }
    ensures cause { HasCause (W.faults sink.old) (W.faults sink.new) result }
{
    let mut rest = bytes;
    while !rest.is_empty() {
        let count = sink.write(rest)?;
        rest = behind(rest, count);
    }
    Ok(())
}

/// Reads once into the room behind the first `end` bytes of the buffer, and answers how many there are
/// then. As many as before come only at the end of the source.
pub fn read_behind<S: Source>(
    buffer: &mut [u8],
    end: usize,
    source: &mut S,
) -> Result<usize, SourceFailed>
    requires { end < length buffer.old }
    ensures kept { take end buffer.new ≡ take end buffer.old }
    ensures len { length buffer.new ≡ length buffer.old }
    ensures grows { IfOk result (λ to. (end ≤ to) × (to ≤ length buffer.new)) }
    ensures ahead { IsTrue S.tells → IfOk result (λ to.
        take to buffer.new ++ S.left source.new ≡ take end buffer.old ++ S.left source.old) }
    ensures at_end { IsTrue S.tells → IfOk result (λ to. to ≡ end → S.left source.new ≡ []) }
    ensures stays { IsTrue S.tells → OnErr result (S.left source.new ≡ S.left source.old) }
    ensures cause { HasCause (S.faults source.old) (S.faults source.new) result }
{
    let count = source.read(&mut buffer[end..])?;
    Ok(end + count)
}

/// Reads until the buffer is full or the source ends, and answers how many bytes were read.
pub fn read_front<S: Source>(buffer: &mut [u8], source: &mut S) -> Result<usize, SourceFailed>
    ensures bound { IfOk result (λ end. end ≤ length buffer.new) }
    ensures len { length buffer.new ≡ length buffer.old }
    ensures bytes { IsTrue S.tells → IfOk result (λ end. take end buffer.new ++ S.left source.new ≡ S.left source.old) }
    ensures end { IsTrue S.tells → IfOk result (λ end. end < length buffer.new → S.left source.new ≡ []) }
    ensures cause { HasCause (S.faults source.old) (S.faults source.new) result }
{
    let mut end = 0;
    while end < buffer.len() {
        let to = read_behind(buffer, end, source)?;
        if to == end {
            return Ok(end);
        }
        end = to;
    }
    Ok(end)
}
