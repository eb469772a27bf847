use crate::run_tests::{CELLS, NODES, run_over, source};
use crate::*;
use cells_base::NoMemory;
use cells_edge::BytesSink;
use disk_journal::{Disk, FuseDisk, MemoryDisk};
use std::alloc::Global;
use std::test::Fail;

// Two cells, the second of which takes all identifiers that are left.
const WIDE: &[u8] =
    b"[[cell]]\nid = 1\nprefix = \"cell-1-\"\nwidth = 1000\n[[cell]]\nid = 2\nprefix = \"cell-2-\"\nwidth = 9223372036854774807\n";

// Worked scripts: what each shows, its configuration, its lines, and the end of its report.
const SCRIPTS: [(&str, &[u8], &[u8], &[u8]); 15] = [
    (
        "one change",
        CELLS,
        b"range 1\ncreate 1 organization acme\n",
        b"  take 1: ranged 1 1 1 1000\n1: ranged 1 1 1000\n  take 3: leased 00010000-0001-8000-8000-000000000001\n  take 4: recorded 00010000-0001-8000-8000-000000000001\n  take 5: committed 00010000-0001-8000-8000-000000000001\n2: accepted 00010000-0001-8000-8000-000000000001\nend\n",
    ),
    (
        "two cells ask for one route",
        CELLS,
        b"range 1\nrange 2\ncreate 1 organization one\ncreate 2 organization two\ncreate 1 group acme one\ncreate 2 group acme two\n",
        b"5: accepted 00010000-0001-8000-8000-000000000002\n  take 17: denied 00020000-0001-8000-8000-000000000002 owned route:acme 1\n6: denied 00020000-0001-8000-8000-000000000002 owned route:acme 1\nend\n",
    ),
    (
        "a route is still leased",
        CELLS,
        b"range 1\nrange 2\ncreate 1 organization one\ncreate 2 organization two\nlose 3\ncreate 1 group acme one\ncreate 2 group acme two\n",
        b"5: armed\n  take 13: leased 00010000-0001-8000-8000-000000000002\n  take 14: recorded 00010000-0001-8000-8000-000000000002\n6: accepted 00010000-0001-8000-8000-000000000002\n  take 15: denied 00020000-0001-8000-8000-000000000002 leased route:acme 00010000-0001-8000-8000-000000000002\n7: denied 00020000-0001-8000-8000-000000000002 leased route:acme 00010000-0001-8000-8000-000000000002\nend\n",
    ),
    (
        "a repeated begin",
        CELLS,
        b"range 1\nlose 2\ncreate 1 organization acme\nrepeat 3\n",
        b"2: armed\n  take 3: leased 00010000-0001-8000-8000-000000000001\n3: waiting 00010000-0001-8000-8000-000000000001\n  take 5: recorded 00010000-0001-8000-8000-000000000001\n  take 6: committed 00010000-0001-8000-8000-000000000001\n4: repeated 3\nend\n",
    ),
    (
        "a late commit",
        CELLS,
        b"range 1\nrange 2\ncreate 1 organization one\ncreate 2 organization two\ncreate 1 group acme one\nremove 1 route acme\ncreate 2 group acme two\nrepeat 15\nrepeat 15\nrepeat 15\n",
        b"7: accepted 00020000-0001-8000-8000-000000000002\n8: repeated 15\n9: repeated 15\n10: repeated 15\nend\n",
    ),
    (
        "the threshold",
        CELLS,
        b"range 1\nlose 2\ncreate 1 organization acme\nwait 599\nreconcile 1\nwait 1\nreconcile 1\n",
        b"  take 3: leased 00010000-0001-8000-8000-000000000001\n3: waiting 00010000-0001-8000-8000-000000000001\n4: waited\n5: reconciled\n6: waited\n  ended 00010000-0001-8000-8000-000000000001\n  take 8: rolled back 00010000-0001-8000-8000-000000000001\n7: reconciled\nend\n",
    ),
    (
        "a late reply",
        CELLS,
        b"range 1\nlose 2\ncreate 1 organization acme\nwait 599\nreconcile 1\nwait 1\nreconcile 1\nrepeat 4\n",
        b"  take 3: leased 00010000-0001-8000-8000-000000000001\n3: waiting 00010000-0001-8000-8000-000000000001\n4: waited\n5: reconciled\n6: waited\n  ended 00010000-0001-8000-8000-000000000001\n  take 8: rolled back 00010000-0001-8000-8000-000000000001\n7: reconciled\n8: repeated 4\nend\n",
    ),
    (
        "a stale list",
        CELLS,
        b"range 1\nlose 3\ncreate 1 organization acme\nlose 1\nreconcile 1\nrepeat 8\n",
        b"  take 3: leased 00010000-0001-8000-8000-000000000001\n  take 4: recorded 00010000-0001-8000-8000-000000000001\n3: accepted 00010000-0001-8000-8000-000000000001\n4: armed\n  take 7: committed 00010000-0001-8000-8000-000000000001\n5: reconciled\n6: repeated 8\nend\n",
    ),
    (
        "the limit of operations",
        CELLS,
        b"range 1\ncreate 1 organization o\ncreate 1 group acme o\ncreate 1 project acme/p1\ncreate 1 project acme/p2\ncreate 1 project acme/p3\ncreate 1 project acme/p4\ncreate 1 project acme/p5\ncreate 1 project acme/p6\ncreate 1 project acme/p7\ncreate 1 project acme/p8\ncreate 1 project acme/p9\ncreate 1 project acme/p10\ncreate 1 project acme/p11\ncreate 1 project acme/p12\ncreate 1 project acme/p13\ncreate 1 project acme/p14\ncreate 1 project acme/p15\ncreate 1 project acme/p16\ncreate 1 project acme/p17\ncreate 1 project acme/p18\ncreate 1 project acme/p19\ncreate 1 project acme/p20\ncreate 1 project acme/p21\ncreate 1 project acme/p22\ncreate 1 project acme/p23\ncreate 1 project acme/p24\ncreate 1 project acme/p25\ncreate 1 project acme/p26\ncreate 1 project acme/p27\ncreate 1 project acme/p28\ncreate 1 project acme/p29\ncreate 1 project acme/p30\ncreate 1 project acme/p31\nrename 1 route acme beta\ncreate 1 project beta/p32\nrename 1 route beta acme\n",
        b"37: refused too-many 66\nend\n",
    ),
    (
        "ranges",
        WIDE,
        b"range 1\nrange 2\nrange 1 1\nrange 1 3\nrange 1\n",
        b"  take 1: ranged 1 1 1 1000\n1: ranged 1 1 1000\n  take 3: ranged 2 1 1001 9223372036854775807\n2: ranged 1 1001 9223372036854775807\n3: ranged 1 1 1000\n4: too far 2\n5: exhausted 9223372036854775807\nend\n",
    ),
    (
        "an attempt whose records changed",
        CELLS,
        b"range 1\ncreate 1 organization o\nlose 2\ncreate 1 user a o\ncreate 1 user b o\nrepeat 7\n",
        b"  take 7: leased 00010000-0001-8000-8000-000000000002\n4: waiting 00010000-0001-8000-8000-000000000002\n  take 8: leased 00010000-0001-8000-8000-000000000003\n  take 9: recorded 00010000-0001-8000-8000-000000000003\n  take 10: committed 00010000-0001-8000-8000-000000000003\n5: accepted 00010000-0001-8000-8000-000000000003\n  changed 00010000-0001-8000-8000-000000000002 1 2\n  take 14: rolled back 00010000-0001-8000-8000-000000000002\n6: repeated 7\nend\n",
    ),
    (
        "the rules of records",
        CELLS,
        b"range 1\ncreate 1 organization o\ncreate 1 user al o\ncreate 1 user AL o\ncreate 1 user api o\ncreate 1 project x/y\ncreate 1 domain al x.example\nrename 1 route al al\nremove 1 organization_path o\ncreate 9 user b o\n",
        b"3: accepted 00010000-0001-8000-8000-000000000002\n4: refused taken-here route:al\n5: refused bad-name\n6: refused no-such-record\n7: refused wrong-kind\n8: refused same\n9: refused has-children\n10: no cell\nend\n",
    ),
    (
        "no range",
        CELLS,
        b"create 1 organization o\n",
        b"1: refused no-ids\nend\n",
    ),
    ("an empty script", CELLS, b"", b"end\n"),
    (
        "lines that are skipped keep their numbers",
        CELLS,
        b"# a comment\r\n\r\n\nwait 1\r\n",
        b"4: waited\nend\n",
    ),
];

// How a command of one word ends on a disk, and what it writes.
fn ran<D: Disk>(
    alloc: Global,
    word: &str,
    config: &[u8],
    script: &[u8],
    disk: &mut D,
) -> Result<(Status, BytesSink), NoMemory> {
    let config = source(alloc, config)?;
    let script = source(alloc, script)?;
    run_over(
        alloc,
        word,
        config,
        script,
        BytesSink::new(alloc, 16_384)?,
        disk,
    )
}

// The files of a new installation.
fn installed(alloc: Global, config: &[u8]) -> Result<MemoryDisk, NoMemory> {
    let mut disk = MemoryDisk::new(alloc, &NODES, 16_384, Vec::new(alloc))?;
    let _ = ran(alloc, "init", config, b"", &mut disk)?;
    Ok(disk)
}

#[test]
fn does_scripts(rt: HostRuntime) -> Result<(), Fail> {
    for (name, config, script, end) in SCRIPTS {
        let mut disk = installed(rt.alloc(), config)?;
        let (status, out) = ran(rt.alloc(), "up", config, script, &mut disk)?;
        assert_eq!(rt; status, Status::End, "{name}");
        assert!(rt; out.written().ends_with(end), "{name}");
    }
    Ok(())
}

// Scripts that end early: the status, and the whole report.
const REFUSED: [(&[u8], Status, &[u8]); 3] = [
    (
        b"wait 1\nwait 1\nwait 1\nwait 1\njump\n",
        Status::Script { line: 5 },
        b"1: waited\n2: waited\n3: waited\n4: waited\nscript 5\n",
    ),
    (
        b"wait 1\nverify 1\n",
        Status::Script { line: 2 },
        b"1: waited\nscript 2\n",
    ),
    (b"wait 1\r", Status::Script { line: 1 }, b"script 1\n"),
];

#[test]
fn names_the_line_that_is_refused(rt: HostRuntime) -> Result<(), Fail> {
    let mut disk = installed(rt.alloc(), CELLS)?;
    for (script, want, report) in REFUSED {
        let (status, out) = ran(rt.alloc(), "up", CELLS, script, &mut disk)?;
        assert_eq!(rt; status, want);
        assert_eq!(rt; status.code(), 4);
        assert_eq!(rt; out.written(), report);
    }
    Ok(())
}

// A journal whose one entry is the last epoch that there is.
const SPENT: &[u8] = b"cells-journal-01\x01\x00\x00\x00\x05\x11\xff\xff\xff\xff\x00";

// What stands first in a file: the status, its number, and the report.
const DAMAGED: [(u16, &[u8], Status, u8, &[u8]); 2] = [
    (
        0,
        b"x",
        Status::NotAJournal { file: 0, at: 0 },
        9,
        b"not a journal 0 0\n",
    ),
    (
        1,
        SPENT,
        Status::EpochsSpent { cell: 1 },
        12,
        b"epochs spent 1\n",
    ),
];

#[test]
fn names_what_a_file_shows(rt: HostRuntime) -> Result<(), Fail> {
    for (file, bytes, want, code, report) in DAMAGED {
        let mut disk = installed(rt.alloc(), CELLS)?;
        disk.write_at(file, 0, bytes)?;
        let (status, out) = ran(rt.alloc(), "up", CELLS, b"wait 1\n", &mut disk)?;
        assert_eq!(rt; status, want);
        assert_eq!(rt; status.code(), code);
        assert_eq!(rt; out.written(), report);
    }
    Ok(())
}

// Scripts whose disk stops: behind how many calls at least, and how many calls the whole run makes. Of one change each
// call is stopped, and of the others those that a range, a rollback or a late reply makes.
const STOPPED: [(&str, u64, u64); 6] = [
    ("one change", 0, 56),
    ("a late commit", 120, 128),
    ("the threshold", 40, 48),
    ("a stale list", 48, 56),
    ("ranges", 32, 39),
    ("an attempt whose records changed", 72, 80),
];

// Whether the call that is stopped is begun, and what a crash puts for each byte that was not synced.
const STOPS: [(bool, u64); 2] = [(false, 0), (true, 7)];

// The configuration and the lines of a worked script.
fn script_named(name: &str) -> Option<(&'static [u8], &'static [u8])> {
    for (other, config, script, _) in SCRIPTS {
        if other == name {
            return Some((config, script));
        }
    }
    None
}

// How a run ended whose disk stopped, what it wrote, and how an empty script ends over what a crash left.
#[derive(Drop)]
struct Halt {
    status: Status,
    out: BytesSink,
    again: Status,
}

fn halted(
    alloc: Global,
    config: &[u8],
    script: &[u8],
    calls: u64,
    stop: (bool, u64),
) -> Result<Halt, NoMemory> {
    let (begun, pick) = stop;
    let mut disk = FuseDisk::new(installed(alloc, config)?, calls, begun);
    let (status, out) = ran(alloc, "up", config, script, &mut disk)?;
    let mut left = disk.crash(pick);
    let (again, _) = ran(alloc, "up", config, b"", &mut left)?;
    Ok(Halt { status, out, again })
}

// Whether a run ended at a fault of the disk, behind a front of the whole report, and its files are opened again.
fn is_sound(alloc: Global, halt: &Halt, whole: &[u8]) -> Result<bool, NoMemory> {
    let Status::DiskFault { file } = halt.status else {
        return Ok(false);
    };
    let last = format!(in alloc; "disk fault {file}\n")?;
    match halt.out.written().strip_suffix(last.as_str().as_bytes()) {
        Some(front) => Ok(whole.starts_with(front) && halt.again == Status::End),
        None => Ok(false),
    }
}

// Whether each stop behind so many calls is sound.
fn are_sound(
    alloc: Global,
    config: &[u8],
    script: &[u8],
    whole: &[u8],
    calls: u64,
) -> Result<bool, NoMemory> {
    for stop in STOPS {
        let halt = halted(alloc, config, script, calls, stop)?;
        if !is_sound(alloc, &halt, whole)? {
            return Ok(false);
        }
    }
    Ok(true)
}

#[test]
fn ends_at_each_fault_of_the_disk(rt: HostRuntime) -> Result<(), Fail> {
    let alloc = rt.alloc();
    for (name, from, calls) in STOPPED {
        let (config, script) = script_named(name).ok_or("no such script")?;
        let whole = halted(alloc, config, script, calls, STOPS[0])?;
        assert_eq!(rt; whole.status, Status::End, "{name}");
        for passed in from..calls {
            let sound = are_sound(alloc, config, script, whole.out.written(), passed)?;
            assert!(rt; sound, "{name}, stopped behind {passed} calls");
        }
    }
    Ok(())
}
