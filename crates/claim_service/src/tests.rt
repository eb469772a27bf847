ghost use Rattle.std.specs.Prelude.{IfOk, IfSome, OnSome, IsTrue};
ghost use Rattle.claim_types.specs.MessageBounds.{IsRequest};
ghost use Rattle.claim_map.specs.Bounds.{AreCells};
ghost use Rattle.claim_service.specs.Node.{IsNode, Rests};

use crate::{SERVICE_FILE, ServiceOpenFault, TopologyNode};
use cell_registry::Registry;
use claim_types::{Bucket, LeaseId, Request, ServiceEntry};
use disk_journal::{Disk, FuseDisk, MemoryDisk, make};
use entry_codec::read_service;
use std::alloc::Global;
use std::test::Fail;

const ROOM: usize = 4_096;

const ONE_CELL: &[u8] = b"[[cell]]\nid = 1\nprefix = 'cell-1-'\nwidth = 1000\n";

const LEASE: LeaseId = LeaseId {
    cell: 1,
    epoch: 1,
    attempt: 1,
};

// Range 1 of cell 1 is given, 1 to 1,000; and range 1 of cell 9, 1,001 to 2,000.
const GIVEN: [u8; 27] = [
    0x03, 0x00, 0x01, 0x00, 0x00, 0x00, 0x00, 0x00, 0x00, 0x00, 0x01, 0x00, 0x00, 0x00, 0x00, 0x00,
    0x00, 0x00, 0x01, 0x00, 0x00, 0x00, 0x00, 0x00, 0x00, 0x03, 0xe8,
];

const GIVEN_NINE: [u8; 27] = [
    0x03, 0x00, 0x09, 0x00, 0x00, 0x00, 0x00, 0x00, 0x00, 0x00, 0x01, 0x00, 0x00, 0x00, 0x00, 0x00,
    0x00, 0x03, 0xe9, 0x00, 0x00, 0x00, 0x00, 0x00, 0x00, 0x07, 0xd0,
];

// The lease is opened, with the create of organization_path `acme` for organization 1, row 1.
const BEGUN: [u8; 43] = [
    0x01, 0x00, 0x01, 0x00, 0x00, 0x00, 0x01, 0x80, 0x00, 0x80, 0x00, 0x00, 0x00, 0x00, 0x00, 0x00,
    0x01, 0x01, 0x01, 0x04, 0x61, 0x63, 0x6d, 0x65, 0x01, 0x00, 0x00, 0x00, 0x00, 0x00, 0x00, 0x00,
    0x01, 0x01, 0x00, 0x00, 0x00, 0x00, 0x00, 0x00, 0x00, 0x01, 0x00,
];

// It is committed, or rolled back.
const COMMITTED: [u8; 18] = [
    0x02, 0x00, 0x01, 0x00, 0x00, 0x00, 0x01, 0x80, 0x00, 0x80, 0x00, 0x00, 0x00, 0x00, 0x00, 0x00,
    0x01, 0x01,
];

const ROLLED_BACK: [u8; 18] = [
    0x02, 0x00, 0x01, 0x00, 0x00, 0x00, 0x01, 0x80, 0x00, 0x80, 0x00, 0x00, 0x00, 0x00, 0x00, 0x00,
    0x01, 0x02,
];

// An entry of a cell's file.
const EPOCH: [u8; 5] = [0x11, 0x00, 0x00, 0x00, 0x01];

// A begin stopped at a call of its append, begun or not, then a crash with a pick: whether its lease is open.
const STOPS: [(u64, bool, u64, bool); 8] = [
    (1, true, 7, false),
    (2, true, 7, false),
    (3, false, 7, false),
    (3, true, 0, false),
    (3, true, 7, true),
    (4, false, 0, false),
    (4, false, 7, true),
    (4, true, 7, true),
];

fn one_cell(alloc: Global) -> Result<Registry, Fail>
    ensures { IfOk result AreCells }
{
    Ok(Registry::read_toml(alloc, ONE_CELL)?)
}

// A disk whose service file has these bodies.
fn holding(alloc: Global, bodies: &[&[u8]]) -> Result<MemoryDisk, Fail> {
    let mut bytes = Vec::from_slice(alloc, b"cells-journal-01")?;
    for body in bodies {
        bytes.extend_from_slice(&[1, 0, 0, 0, body.len().min(255) as u8])?;
        bytes.extend_from_slice(body)?;
    }
    bytes.push(0)?;
    let mut disk = MemoryDisk::new(alloc, &[SERVICE_FILE], ROOM, Vec::new(alloc))?;
    disk.write_at(SERVICE_FILE, 0, bytes.as_slice())?;
    Ok(disk)
}

// Why a file with these bodies is not opened.
fn refusal(alloc: Global, bodies: &[&[u8]]) -> Result<Option<ServiceOpenFault>, Fail> {
    let registry = one_cell(alloc)?;
    let mut disk = holding(alloc, bodies)?;
    Ok(TopologyNode::open(alloc, &mut disk, &registry).err())
}

#[test]
fn each_entry_has_its_turn(rt: HostRuntime) -> Result<(), Fail> {
    let alloc = rt.alloc();
    let bad = |index: u64| Some(ServiceOpenFault::BadEntry { index });
    let rows: [(&[&[u8]], Option<ServiceOpenFault>); 10] = [
        (&[&GIVEN, &BEGUN, &COMMITTED], None),
        (&[&GIVEN, &ROLLED_BACK], None),
        (&[&GIVEN, &BEGUN, &BEGUN], bad(2)),
        (&[&GIVEN, &COMMITTED], bad(1)),
        (&[&GIVEN, &BEGUN, &COMMITTED, &COMMITTED], bad(3)),
        (&[&GIVEN, &GIVEN], bad(1)),
        (&[&BEGUN], bad(0)),
        (&[&EPOCH], bad(0)),
        (
            &[&GIVEN, &GIVEN_NINE],
            Some(ServiceOpenFault::ConfigLacks { cell: 9 }),
        ),
        (&[&GIVEN, &GIVEN_NINE, &GIVEN], bad(2)),
    ];
    for (bodies, fault) in rows {
        assert_eq!(rt; refusal(alloc, bodies)?, fault);
    }
    Ok(())
}

// The begin that is written down as `BEGUN`.
fn begin(alloc: Global) -> Option<Request>
    ensures { IfSome result IsRequest }
{
    match read_service(alloc, &BEGUN).ok()? {
        Some(ServiceEntry::Begun { lease, ops }) => Some(Request::Begin { lease, ops }),
        _ => None,
    }
}

// Hands a request to a node, and says whether an entry was appended for it.
fn handle<D: Disk>(
    alloc: Global,
    disk: &mut D,
    registry: &Registry,
    node: &mut TopologyNode,
    request: &Request,
) -> Option<bool>
    requires node { IsNode node.old }
    requires cells { AreCells registry.now }
    requires bounds { IsRequest request.now }
    requires live { IsTrue node.old.journal.live }
    requires at_rest { Rests D.Disk disk.old node.old }
    ensures node { IsNode node.new }
    ensures live { OnSome result (IsTrue node.new.journal.live) }
    ensures at_rest { OnSome result (Rests D.Disk disk.new node.new) }
{
    match node.handle(alloc, disk, registry, request) {
        Ok(handled) => Some(handled.fresh),
        Err(_) => None,
    }
}

// The same, where the node is given back once it has answered.
fn ask<D: Disk>(
    alloc: Global,
    disk: &mut D,
    registry: &Registry,
    node: TopologyNode,
    request: &Request,
) -> Option<(TopologyNode, bool)>
    requires node { IsNode node }
    requires cells { AreCells registry.now }
    requires bounds { IsRequest request.now }
    requires live { IsTrue node.journal.live }
    requires at_rest { Rests D.Disk disk.old node }
    ensures node { IfSome result (λ it. IsNode it.0) }
    ensures live { IfSome result (λ it. IsTrue it.0.journal.live) }
    ensures at_rest { IfSome result (λ it. Rests D.Disk disk.new it.0) }
{
    let mut node = node;
    match handle(alloc, disk, registry, &mut node, request) {
        Some(fresh) => Some((node, fresh)),
        None => None,
    }
}

// Asks for the same twice, and says which of the two were written down.
fn ask_twice<D: Disk>(
    alloc: Global,
    disk: &mut D,
    registry: &Registry,
    node: TopologyNode,
    request: &Request,
) -> Option<(TopologyNode, [bool; 2])>
    requires node { IsNode node }
    requires cells { AreCells registry.now }
    requires bounds { IsRequest request.now }
    requires live { IsTrue node.journal.live }
    requires at_rest { Rests D.Disk disk.old node }
    ensures node { IfSome result (λ it. IsNode it.0) }
    ensures live { IfSome result (λ it. IsTrue it.0.journal.live) }
    ensures at_rest { IfSome result (λ it. Rests D.Disk disk.new it.0) }
{
    let (node, first) = ask(alloc, disk, registry, node, request)?;
    let (node, second) = ask(alloc, disk, registry, node, request)?;
    Some((node, [first, second]))
}

// Asks for the begin twice.
fn ask_begin<D: Disk>(
    alloc: Global,
    disk: &mut D,
    registry: &Registry,
    node: TopologyNode,
) -> Option<(TopologyNode, [bool; 2])>
    requires node { IsNode node }
    requires cells { AreCells registry.now }
    requires live { IsTrue node.journal.live }
    requires at_rest { Rests D.Disk disk.old node }
    ensures node { IfSome result (λ it. IsNode it.0) }
    ensures live { IfSome result (λ it. IsTrue it.0.journal.live) }
    ensures at_rest { IfSome result (λ it. Rests D.Disk disk.new it.0) }
{
    match begin(alloc) {
        Some(begin) => ask_twice(alloc, disk, registry, node, &begin),
        None => None,
    }
}

// The node of a file, whose cell was given its first range.
fn opened<D: Disk>(alloc: Global, disk: &mut D, registry: &Registry) -> Option<TopologyNode>
    requires cells { AreCells registry.now }
    ensures node { IfSome result IsNode }
    ensures live { IfSome result (λ node. IsTrue node.journal.live) }
    ensures at_rest { IfSome result (Rests D.Disk disk.new) }
{
    let Ok(node) = TopologyNode::open(alloc, disk, registry) else {
        return None;
    };
    let range = Request::Range { cell: 1, number: 1 };
    let (node, _) = ask(alloc, disk, registry, node, &range)?;
    Some(node)
}

// Which of the two begins and the two commits of a lease were written down.
fn ask_each<D: Disk>(alloc: Global, disk: &mut D, registry: &Registry) -> Option<[[bool; 2]; 2]>
    requires { AreCells registry.now }
{
    let node = opened(alloc, disk, registry)?;
    let (node, begins) = ask_begin(alloc, disk, registry, node)?;
    let commit = Request::Commit { lease: LEASE };
    let (_, commits) = ask_twice(alloc, disk, registry, node, &commit)?;
    Some([begins, commits])
}

#[test]
fn a_node_keeps_what_it_answered(rt: HostRuntime) -> Result<(), Fail> {
    let alloc = rt.alloc();
    let registry = one_cell(alloc)?;
    let mut disk = MemoryDisk::new(alloc, &[SERVICE_FILE], ROOM, Vec::new(alloc))?;
    make(&mut disk, SERVICE_FILE)?;
    let fresh = ask_each(alloc, &mut disk, &registry);
    assert_eq!(rt; fresh, Some([[true, false], [true, false]]));
    let node = TopologyNode::open(alloc, &mut disk, &registry)?;
    assert!(rt; node.holds(&Request::Commit { lease: LEASE }));
    assert!(rt; !node.holds(&Request::Rollback { lease: LEASE }));
    assert!(rt; node.holds(&Request::Range { cell: 1, number: 1 }));
    assert_eq!(rt; node.ranges().list().len(), 1);
    let holder = node.leases().holder_of(Bucket::OrganizationPath, b"acme");
    assert_eq!(rt; holder.map(|holding| holding.origin.row), Some(1));
    Ok(())
}

// Whether a begin that is stopped at a call stands after a crash.
fn stands(alloc: Global, call: u64, begun: bool, pick: u64) -> Result<bool, Fail> {
    let registry = one_cell(alloc)?;
    // An opening makes five calls, and the range before the begin four; the call counts from 1.
    let passes = 8 + call.min(4);
    let mut fuse = FuseDisk::new(holding(alloc, &[])?, passes, begun);
    let _ = ask_each(alloc, &mut fuse, &registry);
    let mut disk = fuse.crash(pick);
    let node = TopologyNode::open(alloc, &mut disk, &registry)?;
    Ok(node.holds(&begin(alloc).ok_or("no begin")?))
}

#[test]
fn a_begin_stands_or_not(rt: HostRuntime) -> Result<(), Fail> {
    for (call, begun, pick, is_open) in STOPS {
        assert_eq!(rt;
            stands(rt.alloc(), call, begun, pick)?,
            is_open,
            "call {call}, begun {begun}, pick {pick}"
        );
    }
    Ok(())
}
