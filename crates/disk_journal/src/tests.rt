ghost use Rattle.disk_journal.specs.Journal.{IsBody};
ghost use Rattle.std.specs.Prelude.{◌≤◌};

use crate::{
    Bodies, Disk, FailingCall, FileDisk, FuseDisk, Journal, JournalFault, MemoryDisk, make,
};
use std::alloc::Global;
use std::fs;
use std::test::Fail;

const ROOM: usize = 4_096;

// A claim's first entry, and the journal that has it alone.
const ENTRY: [u8; 43] = [
    0x01, 0x00, 0x01, 0x00, 0x00, 0x00, 0x01, 0x80, 0x00, 0x80, 0x00, 0x00, 0x00, 0x00, 0x00, 0x00,
    0x01, 0x01, 0x01, 0x04, 0x61, 0x63, 0x6d, 0x65, 0x01, 0x00, 0x00, 0x00, 0x00, 0x00, 0x00, 0x00,
    0x01, 0x01, 0x00, 0x00, 0x00, 0x00, 0x00, 0x00, 0x00, 0x01, 0x00,
];

const JOURNAL: [u8; 65] = [
    0x63, 0x65, 0x6c, 0x6c, 0x73, 0x2d, 0x6a, 0x6f, 0x75, 0x72, 0x6e, 0x61, 0x6c, 0x2d, 0x30, 0x31,
    0x01, 0x00, 0x00, 0x00, 0x2b, 0x01, 0x00, 0x01, 0x00, 0x00, 0x00, 0x01, 0x80, 0x00, 0x80, 0x00,
    0x00, 0x00, 0x00, 0x00, 0x00, 0x01, 0x01, 0x01, 0x04, 0x61, 0x63, 0x6d, 0x65, 0x01, 0x00, 0x00,
    0x00, 0x00, 0x00, 0x00, 0x00, 0x01, 0x01, 0x00, 0x00, 0x00, 0x00, 0x00, 0x00, 0x00, 0x01, 0x00,
    0x00,
];

// Three bodies, `a`, `bb` and `ccc`, and the places of their gates: 16, 22, 29, 37.
const THREE: [u8; 38] = *b"cells-journal-01\x01\0\0\0\x01a\x01\0\0\0\x02bb\x01\0\0\0\x03ccc\0";

// Fewer bytes than the first number are refused at the second.
const REFUSED: [(usize, u64); 4] = [(17, 0), (23, 16), (30, 22), (38, 29)];

// `append` stopped at a call, begun or not, then a crash with a pick: how many bodies it leaves.
const STOPS: [(u64, bool, u64, usize); 16] = [
    (1, false, 0, 1),
    (1, false, 7, 1),
    (1, true, 0, 1),
    (1, true, 7, 1),
    (2, false, 0, 1),
    (2, false, 7, 1),
    (2, true, 0, 1),
    (2, true, 7, 1),
    (3, false, 0, 1),
    (3, false, 7, 1),
    (3, true, 0, 1),
    (3, true, 7, 2),
    (4, false, 0, 1),
    (4, false, 7, 2),
    (4, true, 0, 1),
    (4, true, 7, 2),
];

fn empty(alloc: Global) -> Result<MemoryDisk, Fail> {
    Ok(MemoryDisk::new(alloc, &[0, 7], ROOM, Vec::new(alloc))?)
}

// A disk with these bytes in file 7.
fn holding(alloc: Global, bytes: &[u8]) -> Result<MemoryDisk, Fail> {
    let mut disk = empty(alloc)?;
    disk.write_at(7, 0, bytes)?;
    Ok(disk)
}

fn contents<D: Disk>(alloc: Global, disk: &mut D, file: u16) -> Result<Vec<u8>, Fail> {
    let size = disk.size(file)? as usize;
    let mut bytes = vec![in alloc; 0; size]?;
    disk.read(file, 0, &mut bytes)?;
    Ok(bytes)
}

// Makes a journal on a disk, and adds a body.
fn begin<D: Disk>(alloc: Global, disk: &mut D, file: u16, body: &[u8]) -> Result<(), Fail>
    requires { IsBody body.now }
{
    make(disk, file)?;
    let mut opened = Journal::open(alloc, disk, file)?;
    opened.journal.append(disk, body)?;
    Ok(())
}

#[test]
fn the_bytes_of_a_journal(rt: HostRuntime) -> Result<(), Fail> {
    let alloc = rt.alloc();
    let mut disk = empty(alloc)?;
    begin(alloc, &mut disk, 7, &ENTRY)?;
    assert_eq!(rt;
        contents(alloc, &mut disk, 7)?.as_slice(),
        JOURNAL.as_slice()
    );
    Ok(())
}

// The bodies that a crash leaves, where an append of `b` behind `a` is stopped.
fn stopped(alloc: Global, call: u64, begun: bool, pick: u64) -> Result<Bodies, Fail>
    requires { call ≤ 4 }
{
    let mut disk = empty(alloc)?;
    begin(alloc, &mut disk, 7, b"a")?;
    // An opening makes five calls.
    let mut fuse = FuseDisk::new(disk, 4 + call, begun);
    let mut opened = Journal::open(alloc, &mut fuse, 7)?;
    let _ = opened.journal.append(&mut fuse, b"b");
    let mut after = fuse.crash(pick);
    Ok(Journal::open(alloc, &mut after, 7)?.bodies)
}

#[test]
fn a_stopped_append_leaves_one_body_or_both(rt: HostRuntime) -> Result<(), Fail> {
    for (call, begun, pick, count) in STOPS.iter() {
        let bodies = stopped(rt.alloc(), (*call).min(4), *begun, *pick)?;
        assert_eq!(rt;
            bodies.len(),
            *count,
            "call {call}, begun {begun}, pick {pick}"
        );
    }
    Ok(())
}

// How many bodies are read, where the write of the gate fails, its work done or not. To make a journal takes
// three calls, to open it five, and the gate is written in the third of the append.
fn kept(alloc: Global, done: bool) -> Result<usize, Fail> {
    let failing = vec![in alloc; FailingCall { call: 11, done }]?;
    let mut disk = MemoryDisk::new(alloc, &[7], ROOM, failing)?;
    make(&mut disk, 7)?;
    let mut opened = Journal::open(alloc, &mut disk, 7)?;
    if opened.journal.append(&mut disk, b"a").is_ok() || opened.journal.is_live() {
        return Ok(9);
    }
    Ok(Journal::open(alloc, &mut disk, 7)?.bodies.len())
}

#[test]
fn a_listed_call_fails_done_or_not(rt: HostRuntime) -> Result<(), Fail> {
    assert_eq!(rt; kept(rt.alloc(), false)?, 0);
    assert_eq!(rt; kept(rt.alloc(), true)?, 1);
    Ok(())
}

fn opened_at(alloc: Global, bytes: &[u8]) -> Result<Result<usize, JournalFault>, Fail> {
    let mut disk = holding(alloc, bytes)?;
    Ok(Journal::open(alloc, &mut disk, 7).map(|opened| opened.bodies.len()))
}

#[test]
fn each_cut_of_a_journal_is_refused_at_its_place(rt: HostRuntime) -> Result<(), Fail> {
    for size in 0..38 {
        let mut place = 0;
        for (below, at) in REFUSED.iter().rev() {
            if size < *below {
                place = *at;
            }
        }
        let outcome = opened_at(rt.alloc(), &THREE[..size])?;
        assert_eq!(rt;
            outcome,
            Err(JournalFault::NotAJournal { at: place }),
            "{size} bytes"
        );
    }
    assert_eq!(rt; opened_at(rt.alloc(), &THREE)?, Ok(3));
    Ok(())
}

#[test]
fn what_stands_behind_the_closed_gate_is_cut(rt: HostRuntime) -> Result<(), Fail> {
    let alloc = rt.alloc();
    let mut disk = holding(alloc, b"cells-journal-01\x01\0\0\0\x01a\0\0\0\0\x01b\0")?;
    let opened = Journal::open(alloc, &mut disk, 7)?;
    assert_eq!(rt; opened.bodies.len(), 1);
    assert_eq!(rt;
        contents(alloc, &mut disk, 7)?.as_slice(),
        b"cells-journal-01\x01\0\0\0\x01a\0".as_slice()
    );
    Ok(())
}

// Takes the files of file 8 and 9 away, and the folder where it is empty then.
fn clear(rt: &HostRuntime) {
    let _ = fs::remove_file(rt, "cells-data/cell-8.journal");
    let _ = fs::remove_file(rt, "cells-data/cell-9.journal");
    let _ = fs::remove_dir(rt, "cells-data");
}

#[test]
fn a_real_file_keeps_a_body_in_a_new_folder(rt: HostRuntime) -> Result<(), Fail> {
    let alloc = rt.alloc();
    clear(&rt);
    let mut first = FileDisk::new(&rt, alloc)?;
    assert_eq!(rt; first.size(9)?, 0);
    first.sync(9)?;
    begin(alloc, &mut first, 8, &ENTRY)?;
    drop(first);
    let mut second = FileDisk::new(&rt, alloc)?;
    let bytes = contents(alloc, &mut second, 8)?;
    assert_eq!(rt; bytes.as_slice(), JOURNAL.as_slice());
    let mut past = [0u8; 2];
    assert!(rt; second.read(8, 64, &mut past).is_err());
    assert!(rt; second.read(9, 0, &mut past).is_err());
    clear(&rt);
    Ok(())
}

#[test]
fn a_real_file_has_one_owner(rt: HostRuntime) -> Result<(), Fail> {
    let alloc = rt.alloc();
    let mut first = FileDisk::new(&rt, alloc)?;
    first.write_at(7, 0, b"a")?;
    let mut second = FileDisk::new(&rt, alloc)?;
    assert!(rt; second.size(7).is_err());
    first.cut(7, 0)?;
    drop(first);
    assert_eq!(rt; second.size(7)?, 0);
    let _ = fs::remove_file(&rt, "cells-data/cell-7.journal");
    Ok(())
}
