ghost use Rattle.std.specs.Prelude.{◌≡◌, ◌≢◌, ◌-◌, ◌+◌, ◌<◌, ◌≤◌, ◌++◌, [], IsTrue, List, ℕ, length, take, drop, min, IfOk, OnOk, OnErr, IsErr, MatchResult, ◌⊎◌, ◌↔◌, if◌then◌else◌, is_err, true, Some, None, Ok, Err, vec_len, vec_capacity};
ghost use Rattle.std.specs.Io.{ReadsAtMost, WritesAtMost};
ghost use Rattle.cells_base.specs.Causes.{HasCause};
ghost use Rattle.cells_edge.specs.Edge.{IsPrefix};
ghost use Rattle.cells_edge.specs.Memory.{fails_now, one_less, given, read_failed, read_passed, taken, write_failed, write_filled, write_passed};

use crate::{Sink, SinkFailed, Source, SourceFailed};
use cells_base::{NoMemory, Text, behind, front};
use std::alloc::Global;
use std::marker::Model;

fn least(a: usize, b: usize) -> usize
    ensures { result ≡ min a b }
{
    if a < b { a } else { b }
}

// Whether the call that is set to fail has come.
fn is_due(passes: Option<u64>) -> bool
    ensures { result ≡ fails_now passes }
{
    match passes {
        Some(calls) => calls == 0,
        None => false,
    }
}

// What is set to fail, once a call has passed.
fn one_fewer(passes: Option<u64>) -> Option<u64>
    ensures { result ≡ one_less passes }
{
    match passes {
        Some(calls) => Some(calls.saturating_sub(1)),
        None => None,
    }
}

// Copies the first `count` bytes into the front of the buffer.
fn copy_front(buf: &mut [u8], bytes: &[u8], count: usize)
    requires buffer { count ≤ length buf.old }
    requires bytes { count ≤ length bytes.now }
    ensures { take count buf.new ≡ take count bytes.now }
{
    buf[..count].copy_from_slice(front(bytes, count));
}

/// A source over bytes in memory. It gives them in pieces as large as each buffer, and no read
/// fails, unless `in_pieces` or `failing_after` says so.
#[derive(Drop)]
pub struct BytesSource {
    bytes: Text,
    at: usize,
    most: usize,
    passes: Option<u64>,
    faults: u64,
}

impl Model for BytesSource {
    ghost use Rattle.std.specs.Prelude.{◌≤◌, ◌<◌, length, drop};
    ghost use Rattle.cells_edge.specs.Memory.{Reading};

    ghost Value = { Reading };

    ghost view = { λ s. record { left = drop s.at s.bytes; most = s.most; passes = s.passes; faults = s.faults } };

    ghost invariant = { λ s. (s.at ≤ length s.bytes) × (0 < s.most) };
}

impl BytesSource {
    /// A source of these bytes.
    pub fn new(bytes: Text) -> Self
        ensures left { result.left ≡ bytes }
        ensures most { result.most ≡ usize.MAX }
        ensures passes { result.passes ≡ None }
        ensures faults { result.faults ≡ 0 }
    {
        BytesSource {
            bytes,
            at: 0,
            most: usize::MAX,
            passes: None,
            faults: 0,
        }
    }

    /// The same source, which gives at most so many bytes in one read.
    pub fn in_pieces(self, most: usize) -> Self
        requires { 0 < most }
        ensures { result ≡ record self { most = most } }
    {
        let mut source = self;
        source.most = most;
        source
    }

    /// The same source, of which so many reads pass, then one fails, and the later ones pass.
    pub fn failing_after(self, reads: u64) -> Self
        ensures { result ≡ record self { passes = Some reads } }
    {
        let mut source = self;
        source.passes = Some(reads);
        source
    }
}

impl Source for BytesSource {
    ghost tells = { true };

    ghost left = { λ s. s.left };

    ghost faults = { λ s. s.faults };

    fn read(&mut self, buf: &mut [u8]) -> Result<usize, SourceFailed>
        ensures bound { ReadsAtMost result buf.new }
        ensures bytes { MatchResult result (λ n. self.old.left ≡ take n buf.new ++
            self.new.left) (λ _. self.new.left ≡ self.old.left) }
        ensures end { IfOk result (λ n. n ≡ 0 → 0 < length buf.new → self.new.left ≡ []) }
        ensures cause { HasCause self.old.faults self.new.faults result }
        ensures fails { is_err result ≡ fails_now self.old.passes }
        ensures passed { IfOk result (λ n. (n ≡ given self.old (length buf.old)) ×
            (self.new ≡ read_passed self.old n)) }
        ensures failed { OnErr result (self.new ≡ read_failed self.old) }
    {
        if is_due(self.passes) {
            self.passes = None;
            self.faults = self.faults.saturating_add(1);
            return Err(SourceFailed);
        }
        self.passes = one_fewer(self.passes);
        let rest = behind(self.bytes.as_slice(), self.at);
        let count = least(least(rest.len(), buf.len()), self.most);
        copy_front(buf, rest, count);
        self.at += count;
        Ok(count)
    }
}

/// A sink into memory, whose room is taken when it is made. It takes each piece whole, and a write
/// past the room takes what there is room for and is a fault. No other write fails, unless
/// `failing_after` says so.
#[derive(Drop)]
pub struct BytesSink {
    written: Vec<u8>,
    room: usize,
    most: usize,
    passes: Option<u64>,
    faults: u64,
}

impl Model for BytesSink {
    ghost use Rattle.std.specs.Prelude.{◌≤◌, ◌<◌, ◌+◌, vec_len, vec_capacity};
    ghost use Rattle.cells_edge.specs.Memory.{Writing};

    ghost Value = { Writing };

    ghost view = { λ s. record { written = s.written.items; room = s.room; most = s.most; passes = s.passes; faults = s.faults } };

    ghost invariant = { λ s. (vec_len s.written + s.room ≤ vec_capacity s.written) × (0 < s.most) };
}

impl BytesSink {
    /// An empty sink with room for so many bytes.
    pub fn new(alloc: Global, room: usize) -> Result<Self, NoMemory>
        ensures { IfOk result (λ s.
            s ≡ record { written = []; room = room; most = usize.MAX; passes = None; faults = 0 }) }
    {
        Ok(BytesSink {
            written: Vec::with_capacity(alloc, room)?,
            room,
            most: usize::MAX,
            passes: None,
            faults: 0,
        })
    }

    /// The same sink, which takes at most so many bytes in one write.
    pub fn in_pieces(self, most: usize) -> Self
        requires { 0 < most }
        ensures { result ≡ record self { most = most } }
    {
        let mut sink = self;
        sink.most = most;
        sink
    }

    /// The same sink, of which so many writes pass, then one fails and takes nothing, and the later
    /// ones pass. A write past the room counts as one that passes.
    pub fn failing_after(self, writes: u64) -> Self
        ensures { result ≡ record self { passes = Some writes } }
    {
        let mut sink = self;
        sink.passes = Some(writes);
        sink
    }

    /// The bytes that were written.
    pub fn written(&self) -> &[u8]
        ensures { result.now ≡ self.now.written }
    {
        self.written.as_slice()
    }
}

impl Sink for BytesSink {
    ghost tells = { true };

    ghost written = { λ s. s.written };

    ghost faults = { λ s. s.faults };

    fn write(&mut self, bytes: &[u8]) -> Result<usize, SinkFailed>
        ensures bound { WritesAtMost result bytes.now }
        ensures some { IfOk result (λ n. 0 < length bytes.now → 0 < n) }
        ensures bytes { MatchResult result (λ n. self.new.written ≡ self.old.written ++ take n bytes.now)
            (λ _. (front : List ℕ) × IsPrefix front bytes.now × (self.new.written ≡ self.old.written ++ front)) }
        ensures cause { HasCause self.old.faults self.new.faults result }
        ensures fails { IsErr result ↔ (IsTrue (fails_now self.old.passes) ⊎
            (self.old.room < taken self.old (length bytes.now))) }
        ensures passed { IfOk result (λ n. (n ≡ taken self.old (length bytes.now)) ×
            (self.new ≡ write_passed self.old bytes.now n)) }
        ensures failed { OnErr result (self.new ≡
            (if fails_now self.old.passes then write_failed self.old else write_filled self.old bytes.now)) }
    {
        if is_due(self.passes) {
            self.passes = None;
            self.faults = self.faults.saturating_add(1);
            return Err(SinkFailed);
        }
        self.passes = one_fewer(self.passes);
        let count = least(bytes.len(), self.most);
        let fits = least(count, self.room);
        let _ = self.written.extend_from_slice(front(bytes, fits));
        self.room -= fits;
        if fits < count {
            self.faults = self.faults.saturating_add(1);
            return Err(SinkFailed);
        }
        Ok(count)
    }
}
