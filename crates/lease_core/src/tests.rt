ghost use Rattle.std.specs.Prelude.{◌≡◌};
ghost use Rattle.std.specs.FinMap as map;

use crate::*;
use claim_types::{
    Bucket, ClaimKey, Copied, Create, GREATEST_IDENTIFIER, Holding, How, Items, Kind, LeaseId,
    NoMemory, OPEN_LEASES, Operations, Origin, Range, Subject, Text,
};
use std::alloc::Global;
use std::test::Fail;

fn key(alloc: Global, value: &[u8]) -> Result<ClaimKey, NoMemory> {
    Ok(ClaimKey {
        bucket: Bucket::Route,
        value: Text::from_slice(alloc, value)?,
    })
}

fn create(alloc: Global, value: &[u8], row: u64) -> Result<Create, NoMemory> {
    Ok(Create {
        key: key(alloc, value)?,
        subject: Subject {
            kind: Kind::Group,
            id: row,
        },
        origin: Origin {
            table: Kind::Group,
            row,
        },
    })
}

fn no_operations(alloc: Global) -> Operations {
    Operations {
        creates: Items::new(alloc),
        destroys: Items::new(alloc),
    }
}

fn creating(alloc: Global, value: &[u8], row: u64) -> Result<Operations, NoMemory> {
    let mut operations = no_operations(alloc);
    operations.creates.push(create(alloc, value, row)?)?;
    Ok(operations)
}

fn destroying(alloc: Global, value: &[u8]) -> Result<Operations, NoMemory> {
    let mut operations = no_operations(alloc);
    operations.destroys.push(key(alloc, value)?)?;
    Ok(operations)
}

// So many creates of different keys, with row 1.
fn many(alloc: Global, number: u64) -> Result<Operations, NoMemory> {
    let mut operations = no_operations(alloc);
    for n in 0..number {
        operations
            .creates
            .push(create(alloc, &n.to_be_bytes(), 1)?)?;
    }
    Ok(operations)
}

fn lease(attempt: u64) -> LeaseId {
    LeaseId {
        cell: 1,
        epoch: 1,
        attempt,
    }
}

const GIVEN: [Range; 1] = [Range {
    cell: 1,
    number: 1,
    low: 1,
    high: 100,
}];

// Begins a lease that creates this route for this row.
fn begin(
    alloc: Global,
    leases: &mut Leases,
    attempt: u64,
    route: &[u8],
    row: u64,
) -> Result<(), Fail> {
    let operations = creating(alloc, route, row)?;
    leases.begin(&GIVEN, lease(attempt), operations)?;
    Ok(())
}

// Begins such a lease, and commits it.
fn claim(
    alloc: Global,
    leases: &mut Leases,
    attempt: u64,
    route: &[u8],
    row: u64,
) -> Result<(), Fail> {
    begin(alloc, leases, attempt, route, row)?;
    leases.commit(lease(attempt))?;
    Ok(())
}

// Lease 1 commits `held`, lease 2 is rolled back, and lease 3 is opened on `leased`.
fn begin_some(alloc: Global, leases: &mut Leases) -> Result<(), Fail> {
    claim(alloc, leases, 1, b"held", 5)?;
    leases.rollback(lease(2))?;
    begin(alloc, leases, 3, b"leased", 6)
}

fn some_leases(alloc: Global) -> Result<Leases, Fail> {
    let mut leases = Leases::new(alloc);
    begin_some(alloc, &mut leases)?;
    Ok(leases)
}

// Whether the verdict on a begin of these operations is this.
fn judges(leases: &Leases, attempt: u64, operations: Operations, expected: Verdict) -> bool {
    leases.judge(&GIVEN, lease(attempt), &operations) == expected
}

// Whether the begin is refused so.
fn refuses(leases: &Leases, attempt: u64, operations: Operations, reason: Refusal) -> bool {
    judges(leases, attempt, operations, Verdict::Refused(reason))
}

fn commit(leases: &mut Leases, attempt: u64) -> Result<bool, CommitFault> {
    leases.commit(lease(attempt))
}

fn rollback(leases: &mut Leases, attempt: u64) -> Result<bool, RollbackFault> {
    leases.rollback(lease(attempt))
}

// The lease is settled, or open on the same operations or on others.
fn looks_at_leases_first(alloc: Global, leases: &Leases) -> Result<bool, NoMemory> {
    let committed = Refusal::Settled {
        how: How::Committed,
    };
    let rolled_back = Refusal::Settled {
        how: How::RolledBack,
    };
    Ok(
        refuses(leases, 1, creating(alloc, b"leased", 6)?, committed)
            && refuses(leases, 2, no_operations(alloc), rolled_back)
            && judges(leases, 3, creating(alloc, b"leased", 6)?, Verdict::Again)
            && refuses(leases, 3, no_operations(alloc), Refusal::OtherOperations),
    )
}

#[test]
fn looks_at_the_lease_before_its_operations(rt: HostRuntime) -> Result<(), Fail> {
    let alloc = rt.alloc();
    let leases = some_leases(alloc)?;
    assert!(rt; looks_at_leases_first(alloc, &leases)?);
    Ok(())
}

// A key that stands twice, is held, and comes from a row of another cell.
fn creating_twice(alloc: Global) -> Result<Operations, NoMemory> {
    let mut operations = creating(alloc, b"held", 101)?;
    operations.destroys.push(key(alloc, b"held")?)?;
    Ok(operations)
}

fn looks_at_operations_next(alloc: Global, leases: &Leases) -> Result<bool, NoMemory> {
    let none = Refusal::NoneOrTooMany { n: 0 };
    let too_many = Refusal::NoneOrTooMany { n: 65 };
    let twice = Refusal::Twice { index: 1 };
    let foreign = Refusal::ForeignId { id: 101 };
    Ok(
        refuses(leases, 4, no_operations(alloc), none)
            && refuses(leases, 4, many(alloc, 65)?, too_many)
            && refuses(leases, 4, creating_twice(alloc)?, twice)
            && refuses(leases, 4, creating(alloc, b"held", 101)?, foreign)
            && judges(leases, 4, many(alloc, 64)?, Verdict::Fresh),
    )
}

#[test]
fn refuses_operations_before_it_looks_at_keys(rt: HostRuntime) -> Result<(), Fail> {
    let alloc = rt.alloc();
    let leases = some_leases(alloc)?;
    assert!(rt; looks_at_operations_next(alloc, &leases)?);
    Ok(())
}

fn looks_at_keys_last(alloc: Global, leases: &Leases) -> Result<bool, NoMemory> {
    let owned = Refusal::Owned { index: 0, cell: 1 };
    let leased = Refusal::Leased {
        index: 0,
        lease: lease(3),
    };
    let not_owned = Refusal::NotOwned { index: 0 };
    Ok(
        refuses(leases, 4, creating(alloc, b"held", 1)?, owned)
            && refuses(leases, 4, creating(alloc, b"leased", 1)?, leased)
            && refuses(leases, 4, destroying(alloc, b"free")?, not_owned),
    )
}

#[test]
fn refuses_keys_in_other_hands(rt: HostRuntime) -> Result<(), Fail> {
    let alloc = rt.alloc();
    let leases = some_leases(alloc)?;
    assert!(rt; looks_at_keys_last(alloc, &leases)?);
    Ok(())
}

// Opens as many leases as a cell may have open.
fn open_all(alloc: Global, leases: &mut Leases) -> Result<(), Fail> {
    for n in 0..OPEN_LEASES {
        begin(alloc, leases, n, &n.to_be_bytes(), 1)?;
    }
    Ok(())
}

fn has_no_room(alloc: Global, leases: &Leases) -> Result<bool, NoMemory> {
    let operations = creating(alloc, b"one more", 1)?;
    Ok(
        leases.open_number() == 4_096
            && refuses(leases, OPEN_LEASES, operations, Refusal::TooManyOpen),
    )
}

#[test]
fn opens_only_so_many(rt: HostRuntime) -> Result<(), Fail> {
    let alloc = rt.alloc();
    let mut leases = Leases::new(alloc);
    open_all(alloc, &mut leases)?;
    assert!(rt; has_no_room(alloc, &leases)?);
    Ok(())
}

// The row that this route comes from, if it is held.
fn row_of(alloc: Global, leases: &Leases, route: &[u8]) -> Result<Option<u64>, NoMemory> {
    let holder = leases.holder(&key(alloc, route)?);
    Ok(holder.map(|holding| holding.origin.row))
}

fn is_committed_once(leases: &mut Leases) -> bool {
    commit(leases, 3) == Ok(true)
        && commit(leases, 3) == Ok(false)
        && rollback(leases, 3) == Err(RollbackFault::WasCommitted)
}

#[test]
fn commits_a_lease_once(rt: HostRuntime) -> Result<(), Fail> {
    let alloc = rt.alloc();
    let mut leases = some_leases(alloc)?;
    assert!(rt; is_committed_once(&mut leases));
    assert!(rt; row_of(alloc, &leases, b"leased")? == Some(6));
    Ok(())
}

fn is_rolled_back_once(leases: &mut Leases) -> bool {
    commit(leases, 9) == Err(CommitFault::Unknown)
        && rollback(leases, 9) == Ok(true)
        && rollback(leases, 9) == Ok(false)
        && commit(leases, 9) == Err(CommitFault::WasRolledBack)
}

#[test]
fn rolls_back_a_lease_that_was_never_begun(rt: HostRuntime) -> Result<(), Fail> {
    let mut leases = some_leases(rt.alloc())?;
    assert!(rt; is_rolled_back_once(&mut leases));
    Ok(())
}

// The one open lease behind this attempt, if there is one and no other.
fn opened_behind(
    alloc: Global,
    leases: &Leases,
    attempt: u64,
) -> Result<Option<LeaseId>, NoMemory> {
    let page = leases.list(alloc, 1, Some(lease(attempt)))?;
    match page.leases.as_slice() {
        [one] => Ok(Some(*one)),
        _ => Ok(None),
    }
}

// How many claims of rows up to the greatest a page behind this row lists, and whether there are more.
fn listed(
    alloc: Global,
    leases: &Leases,
    greatest: u64,
    after: u64,
) -> Result<(usize, bool), NoMemory> {
    let page = leases.claims_in(alloc, 1, Bucket::Route, 1, greatest, after)?;
    Ok((page.items.len(), page.more))
}

// Lease 4 opens on `other`, and then both open leases are committed.
fn lists_both(alloc: Global, leases: &mut Leases) -> Result<bool, Fail> {
    begin(alloc, leases, 4, b"other", 4)?;
    let opened = opened_behind(alloc, leases, 3)?;
    leases.commit(lease(3))?;
    leases.commit(lease(4))?;
    let page = listed(alloc, leases, 6, 4)?;
    Ok(opened == Some(lease(4)) && page == (2, false))
}

#[test]
fn lists_what_is_open_and_held(rt: HostRuntime) -> Result<(), Fail> {
    let alloc = rt.alloc();
    let mut leases = some_leases(alloc)?;
    assert!(rt; lists_both(alloc, &mut leases)?);
    Ok(())
}

// How many keys are held, leases settled and leases open, by the parts.
fn parts_of(alloc: Global, leases: &Leases) -> Result<(usize, usize, usize), NoMemory> {
    let parts = leases.parts(alloc)?;
    Ok((parts.held.len(), parts.done.len(), parts.begun.len()))
}

fn group(row: u64) -> Holding {
    Holding {
        cell: 1,
        subject: Subject {
            kind: Kind::Group,
            id: row,
        },
        origin: Origin {
            table: Kind::Group,
            row,
        },
    }
}

// Has this route held by this row, where it is free.
fn hold(alloc: Global, leases: &mut Leases, route: &[u8], row: u64) -> Result<bool, NoMemory>
    requires { leases.old.open_leases ≡ map.empty }
    ensures { leases.new.open_leases ≡ map.empty }
{
    let held = key(alloc, route)?;
    leases.hold(held, group(row))
}

// A key is held and a lease is settled, as they were.
fn takes_parts(alloc: Global, leases: &mut Leases) -> Result<bool, NoMemory>
    requires { leases.old.open_leases ≡ map.empty }
{
    Ok(
        hold(alloc, leases, b"held", 5)?
            && leases.settle(lease(1), How::Committed)?
            && !leases.settle(lease(1), How::RolledBack)?,
    )
}

#[test]
fn is_made_of_its_parts(rt: HostRuntime) -> Result<(), Fail> {
    let alloc = rt.alloc();
    let leases = some_leases(alloc)?;
    assert!(rt; parts_of(alloc, &leases)? == (1, 2, 1));
    Ok(())
}

#[test]
fn is_made_from_parts(rt: HostRuntime) -> Result<(), Fail> {
    let alloc = rt.alloc();
    let mut leases = Leases::new(alloc);
    assert!(rt; takes_parts(alloc, &mut leases)?);
    Ok(())
}

// The route of `r` and six digits.
fn numbered(alloc: Global, n: u64) -> Result<String, NoMemory> {
    Ok(format!(in alloc; "r{n:06}")?)
}

// Has the route of this number held by its own row.
fn hold_numbered(alloc: Global, leases: &mut Leases, n: u64) -> Result<(), NoMemory>
    requires { leases.old.open_leases ≡ map.empty }
    ensures { leases.new.open_leases ≡ map.empty }
{
    let route = numbered(alloc, n)?;
    hold(alloc, leases, route.as_bytes(), n)?;
    Ok(())
}

// A state in which the routes from 1 to this number are held, each by its own row.
fn holding(alloc: Global, number: u64) -> Result<Leases, NoMemory> {
    let mut leases = Leases::new(alloc);
    for n in 0..number {
        hold_numbered(alloc, &mut leases, n + 1)?;
    }
    Ok(leases)
}

fn lists_two_pages(alloc: Global, leases: &Leases) -> Result<bool, NoMemory> {
    Ok(
        listed(alloc, leases, GREATEST_IDENTIFIER, 0)? == (64, true)
            && listed(alloc, leases, GREATEST_IDENTIFIER, 64)? == (1, false),
    )
}

#[test]
fn lists_a_page_and_then_the_rest(rt: HostRuntime) -> Result<(), Fail> {
    let alloc = rt.alloc();
    let leases = holding(alloc, 65)?;
    assert!(rt; lists_two_pages(alloc, &leases)?);
    Ok(())
}

// Whether the route of this number is held by its own row.
fn is_held(alloc: Global, leases: &Leases, n: u64) -> Result<bool, NoMemory> {
    let route = numbered(alloc, n)?;
    Ok(leases.holder_of(Bucket::Route, route.as_bytes()) == Some(group(n)))
}

// Whether so is each route from 1 to this number.
fn are_held(alloc: Global, leases: &Leases, number: u64) -> Result<bool, NoMemory> {
    for n in 0..number {
        if !is_held(alloc, leases, n + 1)? {
            return Ok(false);
        }
    }
    Ok(true)
}

#[test]
fn finds_each_of_many_routes(rt: HostRuntime) -> Result<(), Fail> {
    let alloc = rt.alloc();
    let leases = holding(alloc, 200_000)?;
    assert!(rt; are_held(alloc, &leases, 200_000)?);
    Ok(())
}
