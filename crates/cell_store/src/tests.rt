use crate::{CellOpenFault, CellStore};
use claim_types::{Change, Kind, LeaseId, NoMemory, Range, Text};
use disk_journal::{Disk, FuseDisk, MemoryDisk};
use std::alloc::Global;
use std::test::Fail;

const ROOM: usize = 4_096;

// Epochs 1, 2 and the greatest.
const EPOCH: [u8; 5] = [0x11, 0x00, 0x00, 0x00, 0x01];

const SECOND: [u8; 5] = [0x11, 0x00, 0x00, 0x00, 0x02];

const GREATEST: [u8; 5] = [0x11, 0xff, 0xff, 0xff, 0xff];

// Range 1 is learned of, 1 to 1,000; then range 3, 1,001 to 2,000; and range 2 from 1,000 to 2,000.
const GOT: [u8; 25] = [
    0x14, 0x00, 0x00, 0x00, 0x00, 0x00, 0x00, 0x00, 0x01, 0x00, 0x00, 0x00, 0x00, 0x00, 0x00, 0x00,
    0x01, 0x00, 0x00, 0x00, 0x00, 0x00, 0x00, 0x03, 0xe8,
];

const GOT_THIRD: [u8; 25] = [
    0x14, 0x00, 0x00, 0x00, 0x00, 0x00, 0x00, 0x00, 0x03, 0x00, 0x00, 0x00, 0x00, 0x00, 0x00, 0x03,
    0xe9, 0x00, 0x00, 0x00, 0x00, 0x00, 0x00, 0x07, 0xd0,
];

const GOT_OVER: [u8; 25] = [
    0x14, 0x00, 0x00, 0x00, 0x00, 0x00, 0x00, 0x00, 0x02, 0x00, 0x00, 0x00, 0x00, 0x00, 0x00, 0x03,
    0xe8, 0x00, 0x00, 0x00, 0x00, 0x00, 0x00, 0x07, 0xd0,
];

// The organization `acme` is made under lease (1, 1, 1), as record 1.
const RECORDED: [u8; 58] = [
    0x12, 0x00, 0x01, 0x00, 0x00, 0x00, 0x01, 0x80, 0x00, 0x80, 0x00, 0x00, 0x00, 0x00, 0x00, 0x00,
    0x01, 0x01, 0x01, 0x00, 0x00, 0x00, 0x00, 0x00, 0x00, 0x00, 0x00, 0x04, 0x61, 0x63, 0x6d, 0x65,
    0x01, 0x01, 0x04, 0x61, 0x63, 0x6d, 0x65, 0x01, 0x00, 0x00, 0x00, 0x00, 0x00, 0x00, 0x00, 0x01,
    0x01, 0x00, 0x00, 0x00, 0x00, 0x00, 0x00, 0x00, 0x01, 0x00,
];

// The organization `acmf` is made under the same lease, as record 2.
const AGAIN: [u8; 58] = [
    0x12, 0x00, 0x01, 0x00, 0x00, 0x00, 0x01, 0x80, 0x00, 0x80, 0x00, 0x00, 0x00, 0x00, 0x00, 0x00,
    0x01, 0x01, 0x01, 0x00, 0x00, 0x00, 0x00, 0x00, 0x00, 0x00, 0x00, 0x04, 0x61, 0x63, 0x6d, 0x66,
    0x01, 0x01, 0x04, 0x61, 0x63, 0x6d, 0x66, 0x01, 0x00, 0x00, 0x00, 0x00, 0x00, 0x00, 0x00, 0x02,
    0x01, 0x00, 0x00, 0x00, 0x00, 0x00, 0x00, 0x00, 0x02, 0x00,
];

// The row of that lease is gone.
const ROW_GONE: [u8; 17] = [
    0x13, 0x00, 0x01, 0x00, 0x00, 0x00, 0x01, 0x80, 0x00, 0x80, 0x00, 0x00, 0x00, 0x00, 0x00, 0x00,
    0x01,
];

// What a byte of the change's entry is, so that it is not legal behind an epoch and a range.
const BROKEN: [(&str, usize, u8); 5] = [
    ("the lease is of another cell", 2, 2),
    ("the lease is of a later epoch", 6, 2),
    ("the change is refused", 26, 7),
    ("the operations are of another key", 38, 0x66),
    ("the entry is outside the grammar", 57, 1),
];

// A record stopped at a call, begun or not, then a crash with a pick: whether change and row stand.
const STOPS: [(u64, bool, u64, bool); 8] = [
    (1, true, 7, false),
    (2, true, 7, false),
    (3, false, 7, false),
    (3, true, 0, false),
    (3, true, 7, true),
    (4, false, 0, false),
    (4, false, 7, true),
    (4, true, 7, true),
];

// A disk whose file 1 is a journal with these bodies.
fn holding(alloc: Global, bodies: &[&[u8]]) -> Result<MemoryDisk, Fail> {
    let mut bytes = Vec::from_slice(alloc, b"cells-journal-01")?;
    for body in bodies {
        bytes.extend_from_slice(&[1, 0, 0, 0, body.len().min(255) as u8])?;
        bytes.extend_from_slice(body)?;
    }
    bytes.push(0)?;
    let mut disk = MemoryDisk::new(alloc, &[1], ROOM, Vec::new(alloc))?;
    disk.write_at(1, 0, bytes.as_slice())?;
    Ok(disk)
}

// Why a file with these bodies is not opened.
fn refusal(alloc: Global, bodies: &[&[u8]]) -> Result<Option<CellOpenFault>, Fail> {
    let mut disk = holding(alloc, bodies)?;
    Ok(CellStore::open(alloc, &mut disk, 1).err())
}

#[test]
fn each_condition_of_a_change_is_asked(rt: HostRuntime) -> Result<(), Fail> {
    let alloc = rt.alloc();
    let whole: [&[u8]; 3] = [&EPOCH, &GOT, &RECORDED];
    assert_eq!(rt; refusal(alloc, &whole)?, None);
    for (what, at, byte) in BROKEN.iter() {
        let mut entry = RECORDED;
        entry[(*at).min(57)] = *byte;
        let bodies: [&[u8]; 3] = [&EPOCH, &GOT, &entry];
        let fault = refusal(alloc, &bodies)?;
        assert_eq!(rt; fault, Some(CellOpenFault::BadEntry { index: 2 }), "{what}");
    }
    Ok(())
}

#[test]
fn each_entry_has_its_turn(rt: HostRuntime) -> Result<(), Fail> {
    let alloc = rt.alloc();
    let twice: [&[u8]; 4] = [&EPOCH, &GOT, &RECORDED, &AGAIN];
    assert_eq!(rt;
        refusal(alloc, &twice)?,
        Some(CellOpenFault::BadEntry { index: 3 })
    );
    let gone: [&[u8]; 5] = [&EPOCH, &GOT, &RECORDED, &ROW_GONE, &AGAIN];
    assert_eq!(rt; refusal(alloc, &gone)?, None);
    let gone_twice: [&[u8]; 5] = [&EPOCH, &GOT, &RECORDED, &ROW_GONE, &ROW_GONE];
    assert_eq!(rt;
        refusal(alloc, &gone_twice)?,
        Some(CellOpenFault::BadEntry { index: 4 })
    );
    let third: [&[u8]; 3] = [&EPOCH, &GOT, &GOT_THIRD];
    assert_eq!(rt;
        refusal(alloc, &third)?,
        Some(CellOpenFault::BadEntry { index: 2 })
    );
    let over: [&[u8]; 3] = [&EPOCH, &GOT, &GOT_OVER];
    assert_eq!(rt;
        refusal(alloc, &over)?,
        Some(CellOpenFault::BadEntry { index: 2 })
    );
    let fallen: [&[u8]; 3] = [&SECOND, &GOT, &EPOCH];
    assert_eq!(rt;
        refusal(alloc, &fallen)?,
        Some(CellOpenFault::BadEntry { index: 2 })
    );
    let spent: [&[u8]; 2] = [&EPOCH, &GREATEST];
    assert_eq!(rt; refusal(alloc, &spent)?, Some(CellOpenFault::EpochsSpent));
    let bad_and_spent: [&[u8]; 2] = [&GREATEST, &ROW_GONE];
    assert_eq!(rt;
        refusal(alloc, &bad_and_spent)?,
        Some(CellOpenFault::BadEntry { index: 1 })
    );
    Ok(())
}

// The create of the organization `acme`.
fn acme(alloc: Global) -> Result<Change, NoMemory> {
    Ok(Change::Create {
        kind: Kind::Organization,
        parent: 0,
        name: Text::from_slice(alloc, b"acme")?,
    })
}

// Opens the store of cell 1, and records the organization `acme` in its first range, under the lease of the
// present epoch's first attempt. Its row is taken away again if that is asked. Nothing is given where a call
// fails, or the store is not a new one.
fn keep<D: Disk>(alloc: Global, disk: &mut D, gone: bool) -> Option<CellStore> {
    let Ok(mut store) = CellStore::open(alloc, disk, 1) else {
        return None;
    };
    if !store.known().is_empty() {
        return None;
    }
    if !store.rows().is_empty() {
        return None;
    }
    let range = Range {
        cell: 1,
        number: 1,
        low: 1,
        high: 1_000,
    };
    let Ok(()) = store.range_got(alloc, disk, range) else {
        return None;
    };
    let Ok(change) = acme(alloc) else {
        return None;
    };
    let Ok(ops) = store.tree().operations_of(alloc, &change, store.known()) else {
        return None;
    };
    let lease = LeaseId {
        cell: 1,
        epoch: store.epoch(),
        attempt: 1,
    };
    let Ok(()) = store.record(alloc, disk, lease, &change, &ops, 0) else {
        return None;
    };
    if gone {
        let Ok(()) = store.row_gone(disk, lease) else {
            return None;
        };
    }
    Some(store)
}

#[test]
fn a_store_keeps_what_it_recorded(rt: HostRuntime) -> Result<(), Fail> {
    let alloc = rt.alloc();
    let lease = LeaseId {
        cell: 1,
        epoch: 1,
        attempt: 1,
    };
    for gone in [false, true] {
        let mut disk = holding(alloc, &[])?;
        let kept = keep(alloc, &mut disk, gone).ok_or("nothing is kept")?;
        assert!(rt; kept.epoch() == 1 && kept.has_row(lease) == !gone);
        let again = CellStore::open(alloc, &mut disk, 1)?;
        assert!(rt; again.cell() == 1 && again.epoch() == 2 && again.has_row(lease) == !gone);
        assert_eq!(rt; again.rows().len(), if gone { 0 } else { 1 });
        assert_eq!(rt; again.known().len(), 1);
        assert_eq!(rt; again.tree().records().len(), 1);
        assert_eq!(rt; again.tree().version(), 1);
    }
    Ok(())
}

// The store that a crash leaves where a record is stopped at a call.
fn stopped(alloc: Global, call: u64, begun: bool, pick: u64) -> Result<CellStore, Fail> {
    // An opening and its epoch make nine calls, and a range four; the call counts from 1.
    let passes = 12 + call.min(4);
    let mut fuse = FuseDisk::new(holding(alloc, &[])?, passes, begun);
    let _ = keep(alloc, &mut fuse, false);
    let mut disk = fuse.crash(pick);
    Ok(CellStore::open(alloc, &mut disk, 1)?)
}

#[test]
fn change_and_row_stand_together(rt: HostRuntime) -> Result<(), Fail> {
    let alloc = rt.alloc();
    for (call, begun, pick, stands) in STOPS.iter() {
        let store = stopped(alloc, *call, *begun, *pick)?;
        let count = if *stands { 1 } else { 0 };
        assert_eq!(rt;
            store.known().len(),
            1,
            "call {call}, begun {begun}, pick {pick}"
        );
        assert_eq!(rt;
            store.rows().len(),
            count,
            "call {call}, begun {begun}, pick {pick}"
        );
        assert_eq!(rt;
            store.tree().records().len(),
            count,
            "call {call}, begun {begun}, pick {pick}"
        );
    }
    Ok(())
}
