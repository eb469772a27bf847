use crate::*;
use cells_base::NoMemory;
use cells_edge::{BytesSink, BytesSource, FixedClock, MemoryWire};
use claim_types::Text;
use disk_journal::{Disk, FailingCall, MemoryDisk};
use std::alloc::Global;
use std::test::Fail;

// Three begins of one route: the first of its lease, one that finds it leased, and one of no lease.
const THREE: &[u8] =
    b"{\"ask\":\"begin\",\"creates\":[{\"bucket\":\"route\",\"row\":1,\"subject\":\"group\",\"subject_id\":1,\"table\":2,\"value\":\"Acme\"}],\"destroys\":[],\"lease\":\"00010000-0001-8000-8000-000000000001\"}
{\"ask\":\"begin\",\"creates\":[{\"bucket\":\"route\",\"row\":1,\"subject\":\"group\",\"subject_id\":1,\"table\":2,\"value\":\"acme\"}],\"destroys\":[],\"lease\":\"00010000-0001-8000-8000-000000000002\"}
{\"ask\":\"begin\",\"creates\":[{\"bucket\":\"route\",\"row\":1,\"subject\":\"group\",\"subject_id\":1,\"table\":2,\"value\":\"acme\"}],\"destroys\":[],\"lease\":\"f81d4fae-7dec-41d0-a765-00a0c91e6bf6\"}
";

const THREE_ANSWERS: &[u8] =
    b"{\"lease\":\"00010000-0001-8000-8000-000000000001\",\"reply\":\"begun\",\"result\":\"ok\"}
{\"bucket\":\"route\",\"by\":\"00010000-0001-8000-8000-000000000001\",\"lease\":\"00010000-0001-8000-8000-000000000002\",\"reply\":\"begun\",\"result\":\"leased\",\"value\":\"acme\"}
{\"fault\":\"bad value\",\"member\":\"lease\"}
";

// A lease that is committed, one that finds its route owned, one that is given up before it is begun,
// and a range that is not the next.
const LEASES: &[u8] =
    b"{\"ask\":\"begin\",\"creates\":[{\"bucket\":\"route\",\"row\":1,\"subject\":\"group\",\"subject_id\":1,\"table\":2,\"value\":\"acme\"}],\"destroys\":[],\"lease\":\"00010000-0001-8000-8000-000000000001\"}
{\"ask\":\"commit\",\"lease\":\"00010000-0001-8000-8000-000000000001\"}
{\"ask\":\"begin\",\"creates\":[{\"bucket\":\"route\",\"row\":1,\"subject\":\"group\",\"subject_id\":1,\"table\":2,\"value\":\"acme\"}],\"destroys\":[],\"lease\":\"00010000-0001-8000-8000-000000000002\"}
{\"ask\":\"rollback\",\"lease\":\"00010000-0001-8000-8000-000000000003\"}
{\"ask\":\"begin\",\"creates\":[{\"bucket\":\"route\",\"row\":1,\"subject\":\"group\",\"subject_id\":1,\"table\":2,\"value\":\"b\"}],\"destroys\":[],\"lease\":\"00010000-0001-8000-8000-000000000003\"}
{\"ask\":\"range\",\"cell\":1,\"number\":3}
";

const LEASES_ANSWERS: &[u8] =
    b"{\"lease\":\"00010000-0001-8000-8000-000000000001\",\"reply\":\"begun\",\"result\":\"ok\"}
{\"lease\":\"00010000-0001-8000-8000-000000000001\",\"reply\":\"committed\",\"result\":\"ok\"}
{\"bucket\":\"route\",\"lease\":\"00010000-0001-8000-8000-000000000002\",\"owner\":1,\"reply\":\"begun\",\"result\":\"owned\",\"value\":\"acme\"}
{\"lease\":\"00010000-0001-8000-8000-000000000003\",\"reply\":\"rolled_back\",\"result\":\"ok\"}
{\"how\":\"rolled_back\",\"lease\":\"00010000-0001-8000-8000-000000000003\",\"reply\":\"begun\",\"result\":\"settled\"}
{\"cell\":1,\"next\":2,\"number\":3,\"reply\":\"ranged\",\"result\":\"too_far\"}
";

// A route that cell 1 holds, and where requests belong; the service has no page.
const QUESTIONS: &[u8] = b"{\"ask\":\"classify\",\"by\":\"first\"}
{\"ask\":\"begin\",\"creates\":[{\"bucket\":\"route\",\"row\":1,\"subject\":\"group\",\"subject_id\":1,\"table\":2,\"value\":\"acme\"}],\"destroys\":[],\"lease\":\"00010000-0001-8000-8000-000000000001\"}
{\"ask\":\"classify\",\"by\":\"path\",\"text\":\"acme\"}
{\"ask\":\"commit\",\"lease\":\"00010000-0001-8000-8000-000000000001\"}
{\"ask\":\"classify\",\"by\":\"path\",\"text\":\"acme/x/y\"}
{\"ask\":\"classify\",\"by\":\"path\",\"text\":\"acmex\"}
{\"ask\":\"classify\",\"by\":\"claim\",\"bucket\":\"route\",\"value\":\"Acme\"}
{\"ask\":\"classify\",\"by\":\"cell\",\"cell\":9}
{\"ask\":\"page\",\"cell\":1,\"named\":true,\"path\":\"acme\"}
";

const QUESTIONS_ANSWERS: &[u8] =
    b"{\"answer\":1,\"by\":\"first\",\"reply\":\"classified\",\"result\":\"cell\"}
{\"lease\":\"00010000-0001-8000-8000-000000000001\",\"reply\":\"begun\",\"result\":\"ok\"}
{\"by\":\"path\",\"reply\":\"classified\",\"result\":\"not_found\",\"text\":\"acme\"}
{\"lease\":\"00010000-0001-8000-8000-000000000001\",\"reply\":\"committed\",\"result\":\"ok\"}
{\"answer\":1,\"by\":\"path\",\"reply\":\"classified\",\"result\":\"cell\",\"text\":\"acme/x/y\"}
{\"by\":\"path\",\"reply\":\"classified\",\"result\":\"not_found\",\"text\":\"acmex\"}
{\"answer\":1,\"bucket\":\"route\",\"by\":\"claim\",\"reply\":\"classified\",\"result\":\"cell\",\"value\":\"acme\"}
{\"by\":\"cell\",\"cell\":9,\"reply\":\"classified\",\"result\":\"unknown_cell\"}
{\"cell\":1,\"reply\":\"no_cell\"}
";

/// Three cells.
pub const CELLS: &[u8] =
    b"[[cell]]\nid = 1\nprefix = \"cell-1-\"\nwidth = 1000\n[[cell]]\nid = 2\nprefix = \"cell-2-\"\nwidth = 500\n[[cell]]\nid = 3\nprefix = \"cell-3-\"\nwidth = 1000\n";

// Ranges of these cells, one of a cell that the configuration lacks, and a list of that.
const RANGES: &[u8] = b"{\"ask\":\"range\",\"cell\":1,\"number\":1}
{\"ask\":\"range\",\"cell\":2,\"number\":1}
{\"ask\":\"range\",\"cell\":1,\"number\":2}
{\"ask\":\"range\",\"cell\":1,\"number\":1}
{\"ask\":\"range\",\"cell\":4,\"number\":1}
{\"ask\":\"list\",\"after\":null,\"cell\":4}
";

const RANGES_ANSWERS: &[u8] =
    b"{\"cell\":1,\"high\":1000,\"low\":1,\"number\":1,\"reply\":\"ranged\",\"result\":\"ok\"}
{\"cell\":2,\"high\":1500,\"low\":1001,\"number\":1,\"reply\":\"ranged\",\"result\":\"ok\"}
{\"cell\":1,\"high\":2500,\"low\":1501,\"number\":2,\"reply\":\"ranged\",\"result\":\"ok\"}
{\"cell\":1,\"high\":1000,\"low\":1,\"number\":1,\"reply\":\"ranged\",\"result\":\"ok\"}
{\"cell\":4,\"number\":1,\"reply\":\"ranged\",\"result\":\"unknown_cell\"}
{\"cell\":4,\"reply\":\"no_cell\"}
";

// What a finished `init` leaves of each file.
const EMPTY: &[u8] = b"cells-journal-01\0";

/// The files of the service and of three cells.
pub const NODES: [u16; 4] = [0, 1, 2, 3];

const PLAIN: &str = "replay";

const REGISTRY: &str = "replay --registry";

pub(crate) fn source(alloc: Global, bytes: &[u8]) -> Result<BytesSource, NoMemory> {
    Ok(BytesSource::new(Text::from_slice(alloc, bytes)?))
}

fn words_of(alloc: Global, text: &str) -> Result<Vec<String>, NoMemory> {
    let mut words = Vec::new(alloc);
    for word in text.split_whitespace() {
        words.push(String::from_str(alloc, word)?)?;
    }
    Ok(words)
}

fn disk_of(alloc: Global) -> Result<MemoryDisk, NoMemory> {
    MemoryDisk::new(alloc, &NODES, 64, Vec::new(alloc))
}

/// How a run of these words ends, and what it writes. Nothing befalls its wire.
pub(crate) fn run_over<D: Disk>(
    alloc: Global,
    words: &str,
    mut config: BytesSource,
    mut script: BytesSource,
    mut out: BytesSink,
    disk: &mut D,
) -> Result<(Status, BytesSink), NoMemory> {
    let words = words_of(alloc, words)?;
    let mut wire = MemoryWire::new(alloc, Vec::new(alloc));
    let mut clock = FixedClock::new(0);
    let status = run(
        alloc,
        &words,
        &mut config,
        &mut script,
        &mut out,
        disk,
        &mut wire,
        &mut clock,
    );
    Ok((status, out))
}

// How a run ends whose script comes in pieces of at most so many bytes, and what it writes.
fn ran(
    alloc: Global,
    words: &str,
    config: &[u8],
    script: &[u8],
    most: u16,
) -> Result<(Status, BytesSink), NoMemory> {
    let config = source(alloc, config)?;
    let script = source(alloc, script)?.in_pieces(most as usize + 1);
    let out = BytesSink::new(alloc, 4096)?;
    run_over(alloc, words, config, script, out, &mut disk_of(alloc)?)
}

#[test]
fn answers_each_line_in_any_pieces(rt: HostRuntime) -> Result<(), Fail> {
    for most in 0..THREE.len() {
        let (status, out) = ran(rt.alloc(), PLAIN, b"", THREE, most as u16)?;
        assert_eq!(rt; status, Status::End, "in pieces of {most} and one");
        assert_eq!(rt; out.written(), THREE_ANSWERS, "in pieces of {most} and one");
    }
    Ok(())
}

#[test]
fn answers_what_is_due(rt: HostRuntime) -> Result<(), Fail> {
    let rows = [
        (PLAIN, b"".as_slice(), b"".as_slice(), b"".as_slice()),
        (PLAIN, b"", THREE, THREE_ANSWERS),
        (PLAIN, b"", LEASES, LEASES_ANSWERS),
        (PLAIN, b"", QUESTIONS, QUESTIONS_ANSWERS),
        (REGISTRY, CELLS, RANGES, RANGES_ANSWERS),
    ];
    for (words, config, script, want) in rows {
        let (status, out) = ran(rt.alloc(), words, config, script, 100)?;
        assert_eq!(rt; status, Status::End);
        assert_eq!(rt; status.code(), 0);
        assert_eq!(rt; out.written(), want);
    }
    Ok(())
}

// Two cells with one id.
const TWICE: &[u8] =
    b"[[cell]]\nid = 1\nprefix = \"a\"\nwidth = 1\n[[cell]]\nid = 1\nprefix = \"b\"\nwidth = 1\n";

// Words and configurations that are refused: the status, its number, and the last line.
const REFUSED: [(&str, &[u8], Status, u8, &[u8]); 12] = [
    ("", b"", Status::Usage, 2, b"usage\n"),
    ("up now", b"", Status::Usage, 2, b"usage\n"),
    ("replay --cells", CELLS, Status::Usage, 2, b"usage\n"),
    ("replay --registry 1", CELLS, Status::Usage, 2, b"usage\n"),
    ("init 0", CELLS, Status::Usage, 2, b"usage\n"),
    ("init 02", CELLS, Status::Usage, 2, b"usage\n"),
    ("init 1000", CELLS, Status::Usage, 2, b"usage\n"),
    ("init +1", CELLS, Status::Usage, 2, b"usage\n"),
    ("init 4", CELLS, Status::Usage, 2, b"usage\n"),
    (
        REGISTRY,
        TWICE,
        Status::ConfigRegistry { number: 5 },
        3,
        b"config registry 5\n",
    ),
    (
        REGISTRY,
        b"",
        Status::ConfigRegistry { number: 3 },
        3,
        b"config registry 3\n",
    ),
    (
        REGISTRY,
        b"[",
        Status::ConfigRegistry { number: 1 },
        3,
        b"config registry 1\n",
    ),
];

#[test]
fn refuses_words_and_configurations(rt: HostRuntime) -> Result<(), Fail> {
    for (words, config, want, code, last) in REFUSED {
        let (status, out) = ran(rt.alloc(), words, config, THREE, 100)?;
        assert_eq!(rt; status, want);
        assert_eq!(rt; status.code(), code);
        assert_eq!(rt; out.written(), last);
    }
    Ok(())
}

#[test]
fn refuses_a_configuration_of_a_byte_too_many(rt: HostRuntime) -> Result<(), Fail> {
    let rows = [
        (CONFIG_BYTES, Status::ConfigRegistry { number: 3 }),
        (CONFIG_BYTES + 1, Status::ConfigLong),
    ];
    for (length, want) in rows {
        let config = vec![in rt.alloc(); b'\n'; length]?;
        let (status, out) = ran(rt.alloc(), REGISTRY, &config, THREE, 100)?;
        assert_eq!(rt; status, want);
        assert_eq!(rt; status.code(), 3);
        assert_eq!(rt; out.written().is_empty(), false);
    }
    Ok(())
}

#[test]
fn refuses_lines(rt: HostRuntime) -> Result<(), Fail> {
    let most = vec![in rt.alloc(); b' '; 32_768]?;
    let (status, out) = ran(rt.alloc(), PLAIN, b"", &most, 100)?;
    assert_eq!(rt; status, Status::End);
    assert_eq!(rt; out.written(), b"{\"fault\":\"not json\"}\n".as_slice());
    let more = vec![in rt.alloc(); b' '; 32_769]?;
    let (status, out) = ran(rt.alloc(), PLAIN, b"", &more, 100)?;
    assert_eq!(rt; status, Status::Script { line: 1 });
    assert_eq!(rt; status.code(), 4);
    assert_eq!(rt; out.written(), b"script 1\n".as_slice());
    let lines = vec![in rt.alloc(); b'\n'; 4_097]?;
    let (status, out) = ran(rt.alloc(), PLAIN, b"", &lines, 100)?;
    assert_eq!(rt; status, Status::Script { line: 4_097 });
    assert_eq!(rt; out.written(), b"script 4097\n".as_slice());
    Ok(())
}

#[test]
fn names_a_fault_of_reading(rt: HostRuntime) -> Result<(), Fail> {
    let alloc = rt.alloc();
    for (config_reads, script_reads) in [(0u64, 9u64), (9, 0)] {
        let config = source(alloc, CELLS)?.failing_after(config_reads);
        let script = source(alloc, THREE)?.failing_after(script_reads);
        let out = BytesSink::new(alloc, 4096)?;
        let mut disk = disk_of(alloc)?;
        let (status, out) = run_over(alloc, REGISTRY, config, script, out, &mut disk)?;
        assert_eq!(rt; status, Status::ReadFault);
        assert_eq!(rt; status.code(), 5);
        assert_eq!(rt; out.written(), b"read fault\n".as_slice());
    }
    Ok(())
}

#[test]
fn leaves_a_front_where_writing_fails(rt: HostRuntime) -> Result<(), Fail> {
    let alloc = rt.alloc();
    for passes in 0..20u64 {
        let config = source(alloc, b"")?;
        let script = source(alloc, THREE)?;
        let out = BytesSink::new(alloc, 4096)?
            .in_pieces(10)
            .failing_after(passes);
        let mut disk = disk_of(alloc)?;
        let (status, out) = run_over(alloc, PLAIN, config, script, out, &mut disk)?;
        assert_eq!(rt; status, Status::WriteFault);
        assert_eq!(rt; status.code(), 6);
        assert!(rt; THREE_ANSWERS.starts_with(out.written()));
    }
    Ok(())
}

fn contents<D: Disk>(alloc: Global, disk: &mut D, file: u16) -> Result<Vec<u8>, Fail> {
    let size = disk.size(file)? as usize;
    let mut bytes = vec![in alloc; 0; size]?;
    disk.read(file, 0, &mut bytes)?;
    Ok(bytes)
}

// How `init` ends on a disk, and what it writes.
fn installed(
    alloc: Global,
    words: &str,
    disk: &mut MemoryDisk,
) -> Result<(Status, BytesSink), NoMemory> {
    let config = source(alloc, CELLS)?;
    let script = source(alloc, THREE)?;
    run_over(
        alloc,
        words,
        config,
        script,
        BytesSink::new(alloc, 4096)?,
        disk,
    )
}

#[test]
fn makes_the_files_of_an_installation_once(rt: HostRuntime) -> Result<(), Fail> {
    let alloc = rt.alloc();
    let mut disk = disk_of(alloc)?;
    let (status, out) = installed(alloc, "init", &mut disk)?;
    assert_eq!(rt; status, Status::End);
    assert_eq!(rt;
        out.written(),
        b"made 0\nmade 1\nmade 2\nmade 3\nend\n".as_slice()
    );
    for file in NODES {
        assert_eq!(rt; contents(alloc, &mut disk, file)?.as_slice(), EMPTY);
    }
    let (status, out) = installed(alloc, "init", &mut disk)?;
    assert_eq!(rt; status, Status::FileInUse { file: 0, size: 17 });
    assert_eq!(rt; status.code(), 10);
    assert_eq!(rt; out.written(), b"file in use 0 17\n".as_slice());
    Ok(())
}

#[test]
fn makes_the_file_of_one_cell(rt: HostRuntime) -> Result<(), Fail> {
    let alloc = rt.alloc();
    let mut disk = disk_of(alloc)?;
    let (status, out) = installed(alloc, "init 2", &mut disk)?;
    assert_eq!(rt; status, Status::End);
    assert_eq!(rt; out.written(), b"made 2\nend\n".as_slice());
    assert_eq!(rt; contents(alloc, &mut disk, 2)?.as_slice(), EMPTY);
    let (status, out) = installed(alloc, "init", &mut disk)?;
    assert_eq!(rt; status, Status::FileInUse { file: 2, size: 17 });
    assert_eq!(rt; out.written(), b"file in use 2 17\n".as_slice());
    assert_eq!(rt; disk.size(0), Ok(0));
    Ok(())
}

// What is written where the call with this number fails: the four sizes are asked first, and then each file
// is asked again, written and synced.
const FAULTS: [(u64, u16, &[u8]); 6] = [
    (1, 0, b"disk fault 0\n"),
    (4, 3, b"disk fault 3\n"),
    (5, 0, b"disk fault 0\n"),
    (9, 1, b"made 0\ndisk fault 1\n"),
    (13, 2, b"made 0\nmade 1\ndisk fault 2\n"),
    (16, 3, b"made 0\nmade 1\nmade 2\ndisk fault 3\n"),
];

#[test]
fn names_the_file_on_which_a_call_fails(rt: HostRuntime) -> Result<(), Fail> {
    let alloc = rt.alloc();
    for (call, file, want) in FAULTS.iter() {
        let failing = vec![in alloc;
            FailingCall {
                call: *call,
                done: false
            },
        ]?;
        let mut disk = MemoryDisk::new(alloc, &NODES, 64, failing)?;
        let (status, out) = installed(alloc, "init", &mut disk)?;
        assert_eq!(rt; status, Status::DiskFault { file: *file }, "call {call}");
        assert_eq!(rt; status.code(), 8);
        assert_eq!(rt; out.written(), *want, "call {call}");
    }
    Ok(())
}
