//! The outside, as traits: bytes that come in, bytes that go out, the time, and packets on their way.
//!
//! - [`Source`] gives bytes in pieces of any size, and [`Sink`] takes them so. Each counts its faults,
//!   and a call fails only where the count rose in it. [`write_all`] writes a piece to its end, and
//!   [`read_front`] reads a buffer full. `specs/Streams` has the words in which callers say what was written.
//! - [`Clock`] gives the seconds, and [`FixedClock`] stands still.
//! - [`Wire`] carries packets, each behind its [`Leg`]. It may lose, repeat and reorder them, and counts
//!   each time that it does, or that a call fails. `specs/Wire` has the words for what a call did.
//! - [`BytesSource`] and [`BytesSink`] are the streams in memory. Contracts see which bytes they hold,
//!   and a test can cut the stream at every byte and let one call fail. [`MemoryWire`] is the wire in
//!   memory. Contracts see which packets were put, are on their way and were handed over, and a test can
//!   disturb each call by its number.
//! - [`real`] has the forms over the readers, the writers and the clock of std. Contracts know nothing of
//!   what they hold.
//!
//! ```text
//! let mut source = BytesSource::new(text).in_pieces(1);
//! let mut sink = BytesSink::new(alloc, 1_000)?.failing_after(3);
//! write_all(&mut sink, b"one piece")?;
//! let lost = Disturbance { call: 1, kind: DisturbanceKind::Lose };
//! let mut wire = MemoryWire::new(alloc, Vec::from_array(alloc, [lost])?);
//! wire.put(alloc, Leg { to: 0, tag: 1, answers: 0 }, b"one packet")?;
//! ```
//!
//! Promised, for every source and sink that tells its bytes: no byte is lost, given twice or changed
//! in order; a read that gives nothing into a buffer that is not empty found the end; a write takes at
//! least one byte of a piece that is not empty; a call that fails leaves what a source has left, and
//! leaves a sink with some front of the piece. For every wire that tells its packets: each put that does
//! not want memory adds its packet to those put, also where it fails; each packet that a take gives is
//! added to those handed over; and while the count stands still, a put goes behind the packets on their
//! way and a take gives the first of them. It stands on `cells_base`; its caller keeps nothing.
#![tactic(auto)]

mod clock;
mod memory;
mod memory_wire;
mod pieces;
pub mod real;
mod sink;
mod source;
#[cfg(test)]
mod tests;
mod wire;

pub use clock::{Clock, FixedClock};
pub use memory::{BytesSink, BytesSource};
pub use memory_wire::{Disturbance, DisturbanceKind, MemoryWire};
pub use pieces::{read_behind, read_front, write_all};
pub use sink::{Sink, SinkFailed};
pub use source::{Source, SourceFailed};
pub use wire::{Leg, Packet, Wire, WireError};
