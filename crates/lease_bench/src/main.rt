//! Claims as many routes as the first word says, each by a lease of its own, looks each of them up, lists
//! them in pages and in order, and prints how many each of the three found. With a second word `times` it
//! prints how many nanoseconds a call took, too.
#![tactic(auto)]

use claim_types::{
    Bucket, CLAIMS_A_PAGE, ClaimKey, Create, GREATEST_IDENTIFIER, Items, Kind, LeaseId, NoMemory,
    Operations, Origin, Range, Subject, Text,
};
use lease_core::{BeginFault, CommitFault, Leases};
use std::alloc::{AllocError, Global};
use std::process::ExitCode;
use std::time::{Duration, Instant};
use std::{env, io};

/// How many leases are open at a time.
const OPEN_AT_ONCE: u64 = 1_000;

/// The cell that claims the routes.
const CELL: u16 = 1;

/// The ranges that were given.
const GIVEN: [Range; 1] = [Range {
    cell: CELL,
    number: 1,
    low: 1,
    high: GREATEST_IDENTIFIER,
}];

// Why a run ended early.
#[derive(Drop)]
enum Fault {
    Memory,
    // A begin or a commit was refused.
    Refused,
    // The clock or the output failed.
    Outside,
}

impl From<NoMemory> for Fault {
    fn from(_: NoMemory) -> Self {
        Fault::Memory
    }
}

impl From<AllocError> for Fault {
    fn from(_: AllocError) -> Self {
        Fault::Memory
    }
}

impl From<BeginFault> for Fault {
    fn from(fault: BeginFault) -> Self {
        match fault {
            BeginFault::Refused(_) => Fault::Refused,
            BeginFault::Memory => Fault::Memory,
        }
    }
}

impl From<CommitFault> for Fault {
    fn from(_: CommitFault) -> Self {
        Fault::Refused
    }
}

impl From<io::Error> for Fault {
    fn from(_: io::Error) -> Self {
        Fault::Outside
    }
}

// The calls of one kind: how many they were, and how long they took.
#[derive(Clone, Copy)]
struct Calls {
    number: u64,
    nanoseconds: u64,
}

impl Calls {
    fn none() -> Self {
        Calls {
            number: 0,
            nanoseconds: 0,
        }
    }

    fn of(number: u64, time: Duration) -> Self {
        Calls {
            number,
            nanoseconds: u64::try_from(time.as_nanos()).unwrap_or(u64::MAX),
        }
    }

    fn and(self, more: Calls) -> Self {
        Calls {
            number: self.number.saturating_add(more.number),
            nanoseconds: self.nanoseconds.saturating_add(more.nanoseconds),
        }
    }

    fn each(self) -> u64 {
        self.nanoseconds / self.number.max(1)
    }
}

fn lease(n: u64) -> LeaseId {
    LeaseId {
        cell: CELL,
        epoch: 1,
        attempt: n,
    }
}

// The name of a route, made in the room of the one before.
fn name_route(name: &mut String, n: u64) -> Result<(), AllocError> {
    let mut digits = itoa::Buffer::new();
    name.clear();
    name.push_str("group-")?;
    name.push_str(digits.format(n))
}

// The operations that claim a route.
fn claiming(alloc: Global, route: &str, n: u64) -> Result<Operations, NoMemory> {
    let mut creates = Items::new(alloc);
    creates.push(Create {
        key: ClaimKey {
            bucket: Bucket::Route,
            value: Text::from_slice(alloc, route.as_bytes())?,
        },
        subject: Subject {
            kind: Kind::Group,
            id: n,
        },
        origin: Origin {
            table: Kind::Group,
            row: n,
        },
    })?;
    Ok(Operations {
        creates,
        destroys: Items::new(alloc),
    })
}

// Begins the leases from `first` to before `end`, each to claim a route.
fn begin(alloc: Global, leases: &mut Leases, first: u64, end: u64) -> Result<(), Fault> {
    let mut name = String::new(alloc);
    for n in first..end {
        name_route(&mut name, n)?;
        leases.begin(&GIVEN, lease(n), claiming(alloc, name.as_str(), n)?)?;
    }
    Ok(())
}

fn commit(leases: &mut Leases, first: u64, end: u64) -> Result<(), Fault> {
    for n in first..end {
        leases.commit(lease(n))?;
    }
    Ok(())
}

// Claims so many routes.
fn claim(rt: &HostRuntime, leases: &mut Leases, number: u64) -> Result<(Calls, Calls), Fault> {
    let mut begins = Calls::none();
    let mut commits = Calls::none();
    for turn in 0..number / OPEN_AT_ONCE + 1 {
        let first = turn.saturating_mul(OPEN_AT_ONCE).saturating_add(1);
        let end = first
            .saturating_add(OPEN_AT_ONCE)
            .min(number.saturating_add(1));
        let start = Instant::now(rt)?;
        begin(rt.alloc(), leases, first, end)?;
        begins = begins.and(Calls::of(end.saturating_sub(first), start.elapsed(rt)?));
        let start = Instant::now(rt)?;
        commit(leases, first, end)?;
        commits = commits.and(Calls::of(end.saturating_sub(first), start.elapsed(rt)?));
    }
    Ok((begins, commits))
}

// How many of the routes are held.
fn look_up(alloc: Global, leases: &Leases, number: u64) -> Result<u64, Fault> {
    let mut name = String::new(alloc);
    let mut held = 0u64;
    for n in 1..number.saturating_add(1) {
        name_route(&mut name, n)?;
        if leases.holder_of(Bucket::Route, name.as_bytes()).is_some() {
            held = held.saturating_add(1);
        }
    }
    Ok(held)
}

// How many claims the pages list, and how many pages they are.
fn list(alloc: Global, leases: &Leases) -> Result<(u64, u64), Fault> {
    let mut listed = 0u64;
    let mut pages = 0u64;
    let mut after = 0u64;
    for _ in 0..u64::MAX {
        let page = leases.claims_in(alloc, CELL, Bucket::Route, 1, GREATEST_IDENTIFIER, after)?;
        pages = pages.saturating_add(1);
        listed = listed.saturating_add(page.items.len() as u64);
        match page.items.as_slice().last() {
            Some(claim) if page.more => after = claim.origin.row,
            _ => break,
        }
    }
    Ok((listed, pages))
}

// How many claims stand in order.
fn pass(leases: &Leases) -> u64 {
    let mut passed = 0u64;
    for _ in leases.by_row() {
        passed = passed.saturating_add(1);
    }
    passed
}

// What a run found, and how long its calls took.
#[derive(Clone, Copy)]
struct Report {
    held: u64,
    listed: u64,
    in_order: u64,
    begins: Calls,
    commits: Calls,
    look_ups: Calls,
    pages: Calls,
    steps: Calls,
}

// What look-ups find, and how long they took.
fn look_ups(rt: &HostRuntime, leases: &Leases, number: u64) -> Result<(u64, Calls), Fault> {
    let start = Instant::now(rt)?;
    let held = look_up(rt.alloc(), leases, number)?;
    Ok((held, Calls::of(number, start.elapsed(rt)?)))
}

fn pages(rt: &HostRuntime, leases: &Leases) -> Result<(u64, Calls), Fault> {
    let start = Instant::now(rt)?;
    let (listed, pages) = list(rt.alloc(), leases)?;
    Ok((listed, Calls::of(pages, start.elapsed(rt)?)))
}

fn steps(rt: &HostRuntime, leases: &Leases) -> Result<(u64, Calls), Fault> {
    let start = Instant::now(rt)?;
    let passed = pass(leases);
    Ok((passed, Calls::of(passed, start.elapsed(rt)?)))
}

// What is found once the routes are claimed, and how long the calls took.
fn measured(
    rt: &HostRuntime,
    leases: &Leases,
    number: u64,
    begins: Calls,
    commits: Calls,
) -> Result<Report, Fault> {
    let (held, look_ups) = look_ups(rt, leases, number)?;
    let (listed, pages) = pages(rt, leases)?;
    let (in_order, steps) = steps(rt, leases)?;
    Ok(Report {
        held,
        listed,
        in_order,
        begins,
        commits,
        look_ups,
        pages,
        steps,
    })
}

fn run(rt: &HostRuntime, mut leases: Leases, number: u64) -> Result<Report, Fault> {
    let (begins, commits) = claim(rt, &mut leases, number)?;
    measured(rt, &leases, number, begins, commits)
}

fn print(rt: &HostRuntime, report: &Report, with_times: bool) -> Result<(), Fault> {
    let Report {
        held,
        listed,
        in_order,
        ..
    } = report;
    println!(rt; "{held} held, {listed} listed, {in_order} in order")?;
    if with_times {
        println!(rt; "begin {} ns", report.begins.each())?;
        println!(rt; "commit {} ns", report.commits.each())?;
        println!(rt; "look-up {} ns", report.look_ups.each())?;
        println!(rt; "page {} ns", report.pages.each())?;
        println!(rt; "step in order {} ns", report.steps.each())?;
    }
    Ok(())
}

// The number of routes, and whether times are asked for.
fn asked(rt: &HostRuntime) -> Option<(u64, bool)> {
    let mut words = env::args(rt).ok()?.skip(1);
    let number = words.next()?.parse::<u64>().ok()?;
    let with_times = match words.next() {
        Some(word) if word.as_str() == "times" => true,
        Some(_) => return None,
        None => false,
    };
    Some((number, with_times))
}

fn run_and_print(rt: &HostRuntime, number: u64, with_times: bool) -> Result<(), Fault> {
    let report = run(rt, Leases::new(rt.alloc()), number)?;
    print(rt, &report, with_times)
}

fn main(rt: HostRuntime) -> ExitCode {
    let Some((number, with_times)) = asked(&rt) else {
        return ExitCode::from(2);
    };
    match run_and_print(&rt, number, with_times) {
        Ok(()) => ExitCode::SUCCESS,
        Err(_) => ExitCode::FAILURE,
    }
}
