use crate::real::{FileSource, StdSink, StdSource, SystemClock};
use crate::{
    BytesSink, BytesSource, Clock, Disturbance, DisturbanceKind, FixedClock, Leg, MemoryWire,
    Packet, Sink, SinkFailed, Source, SourceFailed, Wire, WireError, write_all,
};
use cells_base::Text;
use std::alloc::Global;
use std::test::Fail;

fn read_once<S: Source>(source: &mut S, buf: &mut [u8]) -> Result<usize, SourceFailed> {
    source.read(buf)
}

#[test]
fn reads_in_pieces_and_fails_once(rt: HostRuntime) -> Result<(), Fail> {
    let text = Text::from_slice(rt.alloc(), b"abcd")?;
    let mut source = BytesSource::new(text).in_pieces(3).failing_after(1);
    let mut buf = [0u8; 8];
    assert_eq!(rt; read_once(&mut source, &mut buf), Ok(3));
    assert_eq!(rt; &buf[..3], b"abc".as_slice());
    assert_eq!(rt; read_once(&mut source, &mut buf), Err(SourceFailed));
    assert_eq!(rt; read_once(&mut source, &mut buf), Ok(1));
    assert_eq!(rt; buf[0], b'd');
    assert_eq!(rt; read_once(&mut source, &mut buf), Ok(0));
    Ok(())
}

#[test]
fn writes_in_pieces_to_the_end_of_the_room(rt: HostRuntime) -> Result<(), Fail> {
    let mut sink = BytesSink::new(rt.alloc(), 7)?.in_pieces(2);
    assert_eq!(rt; write_all(&mut sink, b"abcde"), Ok(()));
    assert_eq!(rt; sink.written(), b"abcde".as_slice());
    assert_eq!(rt; write_all(&mut sink, b"fgh"), Err(SinkFailed));
    assert_eq!(rt; sink.written(), b"abcdefg".as_slice());
    Ok(())
}

#[test]
fn a_write_fails_once(rt: HostRuntime) -> Result<(), Fail> {
    let mut sink = BytesSink::new(rt.alloc(), 16)?
        .in_pieces(2)
        .failing_after(1);
    assert_eq!(rt; write_all(&mut sink, b"abcd"), Err(SinkFailed));
    assert_eq!(rt; sink.written(), b"ab".as_slice());
    assert_eq!(rt; write_all(&mut sink, b"e"), Ok(()));
    assert_eq!(rt; sink.written(), b"abe".as_slice());
    Ok(())
}

#[test]
fn reads_from_a_reader(rt: HostRuntime) {
    let mut source = StdSource::new(b"abc".as_slice());
    let mut buf = [0u8; 8];
    assert_eq!(rt; read_once(&mut source, &mut buf), Ok(3));
    assert_eq!(rt; &buf[..3], b"abc".as_slice());
    assert_eq!(rt; read_once(&mut source, &mut buf), Ok(0));
}

#[test]
fn writes_to_a_writer(rt: HostRuntime) -> Result<(), Fail> {
    let mut room = [0u8; 3];
    let mut sink = StdSink::new(room.as_mut_slice());
    assert_eq!(rt; write_all(&mut sink, b"ab"), Ok(()));
    assert_eq!(rt; write_all(&mut sink, b"cd"), Err(SinkFailed));
    assert_eq!(rt; sink.into_inner().len(), 0);
    assert_eq!(rt; room.as_slice(), b"abc".as_slice());
    Ok(())
}

#[test]
fn a_file_is_read_and_a_missing_one_is_a_fault(rt: HostRuntime) {
    let mut room = [0u8; 4];
    let mut empty = FileSource::new(&rt, "/dev/null");
    assert_eq!(rt; read_once(&mut empty, &mut room), Ok(0));
    let mut missing = FileSource::new(&rt, "no-such-folder/cells.toml");
    assert_eq!(rt; read_once(&mut missing, &mut room), Err(SourceFailed));
    assert_eq!(rt; read_once(&mut missing, &mut room), Err(SourceFailed));
}

fn seconds<C: Clock>(clock: &mut C) -> u64 {
    clock.now()
}

#[test]
fn clocks(rt: HostRuntime) {
    let mut fixed = FixedClock::new(7);
    assert_eq!(rt; seconds(&mut fixed), 7);
    assert_eq!(rt; seconds(&mut fixed), 7);
    // The system's clock stands behind the year 2001.
    assert!(rt; seconds(&mut SystemClock::new(&rt)) > 1_000_000_000);
}

#[test]
fn a_packet_is_handed_over_as_it_was_put(rt: HostRuntime) -> Result<(), Fail> {
    let alloc = rt.alloc();
    let leg = Leg {
        to: 1000,
        tag: 3,
        answers: 2,
    };
    let mut wire = MemoryWire::new(alloc, Vec::new(alloc));
    assert_eq!(rt; wire.put(alloc, leg, b"reply"), Ok(()));
    let bytes = Text::from_slice(alloc, b"reply")?;
    assert_eq!(rt; wire.take(alloc), Ok(Some(Packet { leg, bytes })));
    assert_eq!(rt; wire.take(alloc), Ok(None));
    assert_eq!(rt; wire.calls(), 3);
    Ok(())
}

// One byte is put on a wire, and `!` stands where that failed.
fn put_byte<N: Wire>(
    wire: &mut N,
    alloc: Global,
    byte: u8,
    seen: &mut Vec<u8>,
) -> Result<(), Fail> {
    let leg = Leg {
        to: 0,
        tag: 1,
        answers: 0,
    };
    if wire.put(alloc, leg, &[byte]).is_err() {
        seen.push(b'!')?;
    }
    Ok(())
}

// What a take gives, `!` where it failed and `.` where there is nothing.
fn take_bytes<N: Wire>(wire: &mut N, alloc: Global, seen: &mut Vec<u8>) -> Result<(), Fail> {
    match wire.take(alloc) {
        Ok(Some(packet)) => seen.extend_from_slice(packet.bytes.as_slice())?,
        Ok(None) => seen.push(b'.')?,
        Err(_) => seen.push(b'!')?,
    }
    Ok(())
}

// Calls 1 to 3 put `a`, `b` and `c`, and calls 4 to 8 are takes.
fn seen_with(alloc: Global, call: u64, kind: DisturbanceKind) -> Result<Vec<u8>, Fail> {
    let mut wire = MemoryWire::new(alloc, Vec::from_array(alloc, [Disturbance { call, kind }])?);
    let mut seen = Vec::new(alloc);
    for byte in b"abc" {
        put_byte(&mut wire, alloc, *byte, &mut seen)?;
    }
    for _ in 0..5 {
        take_bytes(&mut wire, alloc, &mut seen)?;
    }
    Ok(seen)
}

#[test]
fn disturbances(rt: HostRuntime) -> Result<(), Fail> {
    let table = [
        (9, DisturbanceKind::Lose, b"abc..".as_slice()),
        (1, DisturbanceKind::Lose, b"bc...".as_slice()),
        (3, DisturbanceKind::Repeat, b"abcc.".as_slice()),
        (1, DisturbanceKind::Swap, b"abc..".as_slice()),
        (2, DisturbanceKind::Swap, b"bac..".as_slice()),
        (3, DisturbanceKind::Swap, b"acb..".as_slice()),
        (2, DisturbanceKind::Fail, b"!ac...".as_slice()),
        (5, DisturbanceKind::Fail, b"a!bc.".as_slice()),
        (7, DisturbanceKind::Fail, b"abc!.".as_slice()),
        (4, DisturbanceKind::Swap, b"abc..".as_slice()),
    ];
    for (call, kind, expected) in table {
        assert_eq!(rt; seen_with(rt.alloc(), call, kind)?.as_slice(), expected);
    }
    Ok(())
}
