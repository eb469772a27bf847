use super::*;
use claim_types::{How, LeaseId, NoMemory};
use std::alloc::Global;
use std::test::Fail;

// Lease (1, 1, 1) is opened, with the create of organization_path `acme` for organization 1, row 1.
const BEGUN: [u8; 43] = [
    0x01, 0x00, 0x01, 0x00, 0x00, 0x00, 0x01, 0x80, 0x00, 0x80, 0x00, 0x00, 0x00, 0x00, 0x00, 0x00,
    0x01, 0x01, 0x01, 0x04, 0x61, 0x63, 0x6d, 0x65, 0x01, 0x00, 0x00, 0x00, 0x00, 0x00, 0x00, 0x00,
    0x01, 0x01, 0x00, 0x00, 0x00, 0x00, 0x00, 0x00, 0x00, 0x01, 0x00,
];

// Range 1 of cell 1 is given: 1 to 1,000.
const GIVEN: [u8; 27] = [
    0x03, 0x00, 0x01, 0x00, 0x00, 0x00, 0x00, 0x00, 0x00, 0x00, 0x01, 0x00, 0x00, 0x00, 0x00, 0x00,
    0x00, 0x00, 0x01, 0x00, 0x00, 0x00, 0x00, 0x00, 0x00, 0x03, 0xe8,
];

// The lease is rolled back.
const SETTLED: [u8; 18] = [
    0x02, 0x00, 0x01, 0x00, 0x00, 0x00, 0x01, 0x80, 0x00, 0x80, 0x00, 0x00, 0x00, 0x00, 0x00, 0x00,
    0x01, 0x02,
];

// Epoch 7.
const EPOCH: [u8; 5] = [0x11, 0x00, 0x00, 0x00, 0x07];

// The organization `acme` is made under the lease.
const RECORDED: [u8; 58] = [
    0x12, 0x00, 0x01, 0x00, 0x00, 0x00, 0x01, 0x80, 0x00, 0x80, 0x00, 0x00, 0x00, 0x00, 0x00, 0x00,
    0x01, 0x01, 0x01, 0x00, 0x00, 0x00, 0x00, 0x00, 0x00, 0x00, 0x00, 0x04, 0x61, 0x63, 0x6d, 0x65,
    0x01, 0x01, 0x04, 0x61, 0x63, 0x6d, 0x65, 0x01, 0x00, 0x00, 0x00, 0x00, 0x00, 0x00, 0x00, 0x01,
    0x01, 0x00, 0x00, 0x00, 0x00, 0x00, 0x00, 0x00, 0x01, 0x00,
];

// Record 1 is named `acme` under the lease.
const RENAMED: [u8; 57] = [
    0x12, 0x00, 0x01, 0x00, 0x00, 0x00, 0x01, 0x80, 0x00, 0x80, 0x00, 0x00, 0x00, 0x00, 0x00, 0x00,
    0x01, 0x02, 0x00, 0x00, 0x00, 0x00, 0x00, 0x00, 0x00, 0x01, 0x04, 0x61, 0x63, 0x6d, 0x65, 0x01,
    0x01, 0x04, 0x61, 0x63, 0x6d, 0x65, 0x01, 0x00, 0x00, 0x00, 0x00, 0x00, 0x00, 0x00, 0x01, 0x01,
    0x00, 0x00, 0x00, 0x00, 0x00, 0x00, 0x00, 0x01, 0x00,
];

// Record 1 is removed under the lease.
const REMOVED: [u8; 52] = [
    0x12, 0x00, 0x01, 0x00, 0x00, 0x00, 0x01, 0x80, 0x00, 0x80, 0x00, 0x00, 0x00, 0x00, 0x00, 0x00,
    0x01, 0x03, 0x00, 0x00, 0x00, 0x00, 0x00, 0x00, 0x00, 0x01, 0x01, 0x01, 0x04, 0x61, 0x63, 0x6d,
    0x65, 0x01, 0x00, 0x00, 0x00, 0x00, 0x00, 0x00, 0x00, 0x01, 0x01, 0x00, 0x00, 0x00, 0x00, 0x00,
    0x00, 0x00, 0x01, 0x00,
];

// The lease's row is gone.
const ROW_GONE: [u8; 17] = [
    0x13, 0x00, 0x01, 0x00, 0x00, 0x00, 0x01, 0x80, 0x00, 0x80, 0x00, 0x00, 0x00, 0x00, 0x00, 0x00,
    0x01,
];

// Range 1 is learned of: 1 to 1,000.
const GOT: [u8; 25] = [
    0x14, 0x00, 0x00, 0x00, 0x00, 0x00, 0x00, 0x00, 0x01, 0x00, 0x00, 0x00, 0x00, 0x00, 0x00, 0x00,
    0x01, 0x00, 0x00, 0x00, 0x00, 0x00, 0x00, 0x03, 0xe8,
];

// Whether a body is read, and written again as it was.
fn is_service_body(alloc: Global, body: &[u8]) -> Result<bool, NoMemory> {
    match read_service(alloc, body)? {
        Some(entry) => Ok(write_service(alloc, &entry)?.as_slice() == body),
        None => Ok(false),
    }
}

fn is_cell_body(alloc: Global, body: &[u8]) -> Result<bool, NoMemory> {
    match read_cell(alloc, body)? {
        Some(entry) => Ok(write_cell(alloc, &entry)?.as_slice() == body),
        None => Ok(false),
    }
}

#[test]
fn each_entry_is_read_and_written(rt: HostRuntime) -> Result<(), Fail> {
    let alloc = rt.alloc();
    assert!(rt; is_service_body(alloc, &BEGUN)?, "begun");
    assert!(rt; is_service_body(alloc, &SETTLED)?, "settled");
    assert!(rt; is_service_body(alloc, &GIVEN)?, "given");
    assert!(rt; is_cell_body(alloc, &EPOCH)?, "epoch");
    assert!(rt; is_cell_body(alloc, &RECORDED)?, "recorded");
    assert!(rt; is_cell_body(alloc, &RENAMED)?, "renamed");
    assert!(rt; is_cell_body(alloc, &REMOVED)?, "removed");
    assert!(rt; is_cell_body(alloc, &ROW_GONE)?, "row gone");
    assert!(rt; is_cell_body(alloc, &GOT)?, "got");
    Ok(())
}

#[test]
fn what_the_vectors_say(rt: HostRuntime) -> Result<(), Fail> {
    let alloc = rt.alloc();
    let lease = LeaseId {
        cell: 1,
        epoch: 1,
        attempt: 1,
    };
    assert_eq!(rt; write_row_gone(lease), ROW_GONE);
    match read_service(alloc, &BEGUN)? {
        Some(ServiceEntry::Begun { lease: found, ops }) => {
            assert!(rt; found == lease);
            assert_eq!(rt; ops.creates.len(), 1);
            assert_eq!(rt; ops.destroys.len(), 0);
            assert_eq!(rt;
                ops.creates.as_slice()[0].key.value.as_slice(),
                b"acme".as_slice()
            );
        }
        _ => assert!(rt; false, "begun"),
    }
    match read_service(alloc, &GIVEN)? {
        Some(ServiceEntry::Given { range }) => assert_eq!(rt; range.high, 1000),
        _ => assert!(rt; false, "given"),
    }
    match read_service(alloc, &SETTLED)? {
        Some(ServiceEntry::Settled { how, .. }) => assert!(rt; how == How::RolledBack),
        _ => assert!(rt; false, "settled"),
    }
    Ok(())
}

// Whether each front of a body, and the body with a byte behind it, is no entry.
fn is_cut_at_its_end(alloc: Global, body: &[u8]) -> Result<bool, NoMemory> {
    for end in 0..body.len() {
        if read_service(alloc, &body[..end])?.is_some()
            || read_cell(alloc, &body[..end])?.is_some()
        {
            return Ok(false);
        }
    }
    let mut longer = Vec::from_slice(alloc, body)?;
    longer.push(0)?;
    Ok(read_service(alloc, &longer)?.is_none() && read_cell(alloc, &longer)?.is_none())
}

#[test]
fn a_byte_more_or_less_is_refused(rt: HostRuntime) -> Result<(), Fail> {
    let alloc = rt.alloc();
    assert!(rt; is_cut_at_its_end(alloc, &BEGUN)?, "begun");
    assert!(rt; is_cut_at_its_end(alloc, &SETTLED)?, "settled");
    assert!(rt; is_cut_at_its_end(alloc, &GIVEN)?, "given");
    assert!(rt; is_cut_at_its_end(alloc, &EPOCH)?, "epoch");
    assert!(rt; is_cut_at_its_end(alloc, &RECORDED)?, "recorded");
    assert!(rt; is_cut_at_its_end(alloc, &ROW_GONE)?, "row gone");
    assert!(rt; is_cut_at_its_end(alloc, &GOT)?, "got");
    Ok(())
}

// A place of a body, and a byte that may not stand there.
type Wrong = (usize, u8);

const WRONG_IN_BEGUN: [Wrong; 22] = [
    // no first byte of the service's
    (0, 0x00),
    (0, 0x04),
    (0, 0x13),
    // cell 0, epoch 0, another version, a bit between, another variant, attempt 0
    (2, 0),
    (6, 0),
    (7, 0x70),
    (8, 1),
    (9, 0xc0),
    (16, 0),
    // one create too many or too few
    (17, 0),
    (17, 2),
    // no bucket
    (18, 0),
    (18, 6),
    // a length off by one, and a capital letter
    (19, 3),
    (19, 5),
    (20, b'A'),
    // no subject kind, subject 0, and one past the identifiers
    (24, 0),
    (24, 5),
    (32, 0),
    (25, 0x80),
    // no table, and row 0
    (33, 8),
    (41, 0),
];

const WRONG_IN_SETTLED: [Wrong; 2] = [(17, 0), (17, 3)];

const WRONG_IN_GIVEN: [Wrong; 6] = [
    // cell 0 and past 999, number 0, low 0, low above high, high past the identifiers
    (2, 0),
    (1, 0x04),
    (10, 0),
    (18, 0),
    (17, 0x04),
    (19, 0x80),
];

const WRONG_IN_RECORDED: [Wrong; 6] = [
    // no change, no kind, a parent past the identifiers, no name, a length off by one
    (17, 0),
    (17, 4),
    (18, 8),
    (19, 0x80),
    (27, 0),
    (27, 5),
];

// The first of these changes that leaves an entry, if one does.
fn let_through(alloc: Global, body: &[u8], wrongs: &[Wrong]) -> Result<Option<usize>, NoMemory> {
    for (index, (place, byte)) in wrongs.iter().enumerate() {
        let mut other = Vec::from_slice(alloc, body)?;
        if let Some(there) = other.get_mut(*place) {
            *there = *byte;
        }
        if read_service(alloc, &other)?.is_some() || read_cell(alloc, &other)?.is_some() {
            return Ok(Some(index));
        }
    }
    Ok(None)
}

#[test]
fn what_is_out_of_its_bounds_is_refused(rt: HostRuntime) -> Result<(), Fail> {
    let alloc = rt.alloc();
    assert_eq!(rt; let_through(alloc, &BEGUN, &WRONG_IN_BEGUN)?, None, "begun");
    assert_eq!(rt;
        let_through(alloc, &SETTLED, &WRONG_IN_SETTLED)?,
        None,
        "settled"
    );
    assert_eq!(rt; let_through(alloc, &GIVEN, &WRONG_IN_GIVEN)?, None, "given");
    assert_eq!(rt; let_through(alloc, &EPOCH, &[(4, 0)])?, None, "epoch");
    assert_eq!(rt;
        let_through(alloc, &RECORDED, &WRONG_IN_RECORDED)?,
        None,
        "recorded"
    );
    assert_eq!(rt; let_through(alloc, &GOT, &[(8, 0)])?, None, "got");
    Ok(())
}

// A Begun with this many destroys, of addresses of two letters.
fn destroying(alloc: Global, count: u8) -> Result<Vec<u8>, NoMemory> {
    let mut body = Vec::from_slice(alloc, &BEGUN[..17])?;
    body.push(0)?;
    body.push(count)?;
    for index in 0..count {
        body.extend_from_slice(&[3, 2, b'a' + index / 26, b'a' + index % 26])?;
    }
    Ok(body)
}

#[test]
fn one_to_sixty_four_distinct_operations(rt: HostRuntime) -> Result<(), Fail> {
    let alloc = rt.alloc();
    assert!(rt; is_service_body(alloc, &destroying(alloc, 64)?)?, "64");
    assert!(rt; !is_service_body(alloc, &destroying(alloc, 65)?)?, "65");
    assert!(rt; !is_service_body(alloc, &destroying(alloc, 0)?)?, "none");
    let mut twice = Vec::from_slice(alloc, &BEGUN[..42])?;
    twice.push(1)?;
    twice.extend_from_slice(&BEGUN[18..24])?;
    assert!(rt; !is_service_body(alloc, &twice)?, "created and destroyed");
    Ok(())
}
