ghost use Rattle.std.specs.Prelude.{◌≡◌, ◌+◌, ◌≤◌, ◌<◌, ◌-◌, ◌++◌, [], ◌∷◌, ℕ, List, true, false, Bool, IsTrue, IfOk, length, take, drop, replicate, nat_le, vec_len};
ghost use Rattle.disk_journal.specs.Memory.{FileState, empty_file, IsConsistent, overlaid, written_at, cut_to, flushed, IsLeft, left_by, with_seen, crashed, torn};

use cells_base::NoMemory;
use std::alloc::Global;
use std::marker::Model;

/// One file of a disk in memory. Its room is taken when it is made, and no call takes more.
#[derive(Drop)]
pub struct MemoryFile {
    number: u16,
    // Each has the room's length: what a read gives, what the last sync put on the disk, and which
    // places were written since.
    bytes: Vec<u8>,
    synced: Vec<u8>,
    written: Vec<bool>,
    size: usize,
    synced_size: usize,
    // The least and the greatest size since the last sync.
    low: usize,
    high: usize,
}

impl Model for MemoryFile {
    ghost use Rattle.std.specs.Prelude.{ℕ, take, length, vec_len};
    ghost use Rattle.disk_journal.specs.Memory.{FileState, IsConsistent};

    ghost Value = { FileState };

    ghost use Rattle.disk_journal.specs.Inside.{state, IsKept};

    ghost view = { state };

    ghost invariant = { IsKept };
}

fn put(target: &mut Vec<u8>, at: usize, bytes: &[u8])
    requires { at + length bytes.now ≤ vec_len target.old }
    ensures items { target.new.items ≡ overlaid at bytes.now target.old.items }
    ensures len { vec_len target.new ≡ vec_len target.old }
{
    target[at..at + bytes.len()].copy_from_slice(bytes);
}

fn mark(target: &mut Vec<bool>, at: usize, count: usize, value: bool)
    requires { at + count ≤ vec_len target.old }
    ensures items { target.new.items ≡ overlaid at (replicate count value) target.old.items }
    ensures len { vec_len target.new ≡ vec_len target.old }
{
    target[at..at + count].fill(value);
}

// The first `size` bytes become these, and zeros behind them.
fn restore(target: &mut Vec<u8>, size: usize, front: &[u8])
    requires front { length front.now ≤ size }
    requires size { size ≤ vec_len target.old }
    ensures items { take size target.new.items ≡ front.now ++ replicate (size - length front.now) 0 }
    ensures len { vec_len target.new ≡ vec_len target.old }
{
    put(target, 0, front);
    target[front.len()..size].fill(0);
}

// The byte takes the place of each of the bytes that was written.
fn tear_each(bytes: &mut [u8], written: &[bool], byte: u8)
    requires { length bytes.old ≤ length written.now }
    ensures { bytes.new ≡ torn byte written.now bytes.old }
{
    for i in 0..bytes.len() {
        if written[i] {
            bytes[i] = byte;
        }
    }
}

// The same to the first `size` bytes.
fn tear(target: &mut Vec<u8>, size: usize, written: &[bool], byte: u8)
    requires size { size ≤ vec_len target.old }
    requires written { size ≤ length written.now }
    ensures items { take size target.new.items ≡ torn byte written.now (take size target.old.items) }
    ensures len { vec_len target.new ≡ vec_len target.old }
{
    tear_each(&mut target[0..size], written, byte);
}

impl MemoryFile {
    /// An empty file with this room.
    pub fn new(alloc: Global, number: u16, room: usize) -> Result<Self, NoMemory>
        ensures { IfOk result (λ f. f ≡ empty_file room number) }
    {
        Ok(MemoryFile {
            number,
            bytes: vec![in alloc; 0; room]?,
            synced: vec![in alloc; 0; room]?,
            written: vec![in alloc; false; room]?,
            size: 0,
            synced_size: 0,
            low: 0,
            high: 0,
        })
    }

    pub fn number(&self) -> u16
        ensures { result ≡ self.now.number }
    {
        self.number
    }

    pub fn size(&self) -> usize
        ensures size { result ≡ length self.now.seen }
        ensures consistent { IsConsistent self.now }
    {
        self.size
    }

    /// Fills the buffer with the bytes from `at` on.
    pub fn read(&self, at: usize, buf: &mut [u8])
        requires { at + length buf.old ≤ length self.now.seen }
        ensures { buf.new ≡ take (length buf.old) (drop at self.now.seen) }
    {
        buf.copy_from_slice(&self.bytes[at..at + buf.len()]);
    }

    /// Writes, if the room is enough.
    pub fn write(&mut self, at: usize, bytes: &[u8]) -> bool
        requires { at ≤ length self.old.seen }
        ensures consistent { IsConsistent self.old }
        ensures done { IsTrue result → self.new ≡ written_at at bytes.now self.old }
        ensures full { result ≡ false → self.new ≡ self.old }
        ensures fits { result ≡ nat_le (at + length bytes.now) self.old.room }
    {
        if bytes.len() > self.bytes.len() - at {
            return false;
        }
        let end = at + bytes.len();
        put(&mut self.bytes, at, bytes);
        mark(&mut self.written, at, bytes.len(), true);
        self.size = self.size.max(end);
        self.high = self.high.max(end);
        true
    }

    pub fn cut(&mut self, size: usize)
        requires { size ≤ length self.old.seen }
        ensures consistent { IsConsistent self.old }
        ensures done { self.new ≡ cut_to size self.old }
    {
        self.size = size;
        self.low = self.low.min(size);
    }

    pub fn sync(&mut self)
        ensures { self.new ≡ flushed self.old }
    {
        let size = self.size;
        put(&mut self.synced, 0, &self.bytes[..size]);
        mark(&mut self.written, 0, size, false);
        self.synced_size = size;
        self.low = size;
        self.high = size;
    }

    // The present bytes become those that a crash with this pick leaves.
    fn leave(&mut self, pick: u64)
        ensures left { self.new ≡ with_seen (left_by pick self.old) self.old }
        ensures may { IsLeft self.old (left_by pick self.old) }
    {
        if pick == 0 {
            restore(&mut self.bytes, self.size, &self.synced[..self.low]);
        } else {
            let byte = (pick % 256) as u8;
            tear(&mut self.bytes, self.size, &self.written[..self.high], byte);
        }
    }

    /// What a crash with this pick leaves, all of it synced. With pick 0 each byte written since the last
    /// sync is as it was before, and 0 past the least size since. With another pick it is the pick modulo 256.
    pub fn crash(&mut self, pick: u64)
        ensures left { self.new ≡ crashed pick self.old }
        ensures may { IsLeft self.old (left_by pick self.old) }
    {
        self.leave(pick);
        self.sync();
    }
}
