//! Runs the service's node over a real file: as many begins and commits of a route each as the first word says,
//! which are durable one by one, then an opening of the file, and the classification of 1,000 paths below these routes.
//! Prints what it found, and takes the file away. With a second word `times` it prints nanoseconds too; with
//! `open` it does the opening and the classification alone, on a file that is there, and leaves it.
//!
//! The file is `cells-data/service.journal` in the current folder. Where it is in use nothing is claimed on it.
#![tactic(auto)]

ghost use Rattle.claim_map.specs.Bounds.{AreCells, AreHeld};
ghost use Rattle.claim_service.specs.Node.{IsNode};
ghost use Rattle.service_bench.specs.Ready.{IsReady};

mod asking;
mod fault;

use asking::{claim_each, first_node, one_cell, route};
use bench_times::nanoseconds_each;
use cell_registry::Registry;
use claim_service::{SERVICE_FILE, TopologyNode};
use claim_types::{Class, Items, Question, Text};
use classifier::classify;
use disk_journal::{Disk, FileDisk, make};
use fault::Fault;
use lease_core::Leases;
use std::alloc::Global;
use std::process::ExitCode;
use std::time::Instant;
use std::{env, fs};

/// Where the service's file is.
const PATH: &str = "cells-data/service.journal";

/// How many paths are classified.
const PATHS: u64 = 1_000;

// What is asked for besides the number.
#[derive(Clone, Copy)]
enum Work {
    // Everything on a new file, with times or without.
    Whole { with_times: bool },
    // The opening and the paths alone, on a file that is there.
    Open,
}

// What an opened file has, and how many nanoseconds its opening took for each begin, and a classification.
#[derive(Clone, Copy)]
struct Found {
    held: u64,
    classified: u64,
    opening: u64,
    classification: u64,
}

// Claims so many routes, and says how many nanoseconds each took.
fn time_claims<D: Disk>(
    rt: &HostRuntime,
    disk: &mut D,
    registry: &Registry,
    node: &mut TopologyNode,
    number: u64,
) -> Result<u64, Fault>
    requires ready { IsReady D.Disk disk.old node.old }
    requires cells { AreCells registry.now }
{
    let start = Instant::now(rt)?;
    claim_each(rt.alloc(), disk, registry, node, number)?;
    Ok(nanoseconds_each(start.elapsed(rt)?, number))
}

// The same on a new file.
fn claim_routes(
    rt: &HostRuntime,
    disk: &mut FileDisk<&HostRuntime>,
    registry: &Registry,
    number: u64,
) -> Result<u64, Fault>
    requires { AreCells registry.now }
{
    make(disk, SERVICE_FILE)?;
    let mut node = first_node(rt.alloc(), disk, registry)?;
    time_claims(rt, disk, registry, &mut node, number)
}

// How many claims stand.
fn held(leases: &Leases) -> u64 {
    let mut held = 0u64;
    for _ in leases.by_row() {
        held = held.saturating_add(1);
    }
    held
}

// Questions for paths below routes of those from 1 to this number.
fn questions(alloc: Global, number: u64) -> Result<Items<Question>, Fault> {
    let mut questions = Items::new(alloc);
    for n in 0..PATHS {
        let place = n.saturating_mul(number) / PATHS;
        let mut path = route(alloc, place.saturating_add(1))?;
        path.push_str("/issues/1")?;
        let text = Text::from_vec(path.into_bytes());
        questions.push(Question::Path { text })?;
    }
    Ok(questions)
}

// How many of these questions are answered by the cell.
fn classified(leases: &Leases, registry: &Registry, questions: &[Question]) -> u64
    requires { AreHeld leases.now.holder }
{
    let mut found = 0u64;
    for question in questions {
        if classify(leases, registry, question) == (Class::Cell { id: 1 }) {
            found = found.saturating_add(1);
        }
    }
    found
}

// What a node has that was being opened since a moment.
fn found_in(
    rt: &HostRuntime,
    node: &TopologyNode,
    registry: &Registry,
    questions: &[Question],
    number: u64,
    start: Instant,
) -> Result<Found, Fault>
    requires { IsNode node.now }
{
    let opening = nanoseconds_each(start.elapsed(rt)?, number);
    let start = Instant::now(rt)?;
    let classified = classified(node.leases(), registry, questions);
    let classification = nanoseconds_each(start.elapsed(rt)?, PATHS);
    Ok(Found {
        held: held(node.leases()),
        classified,
        opening,
        classification,
    })
}

// Opens the file, and says what it has.
fn look(
    rt: &HostRuntime,
    disk: &mut FileDisk<&HostRuntime>,
    registry: &Registry,
    number: u64,
) -> Result<Found, Fault> {
    let questions = questions(rt.alloc(), number)?;
    let start = Instant::now(rt)?;
    let node = TopologyNode::open(rt.alloc(), disk, registry)?;
    found_in(rt, &node, registry, questions.as_slice(), number, start)
}

fn print(rt: &HostRuntime, number: u64, found: &Found) -> Result<(), Fault> {
    let Found {
        held,
        classified,
        ..
    } = found;
    println!(rt; "{number} begun and committed, {held} held, {classified} paths classified")?;
    Ok(())
}

fn print_times(rt: &HostRuntime, found: &Found) -> Result<(), Fault> {
    println!(rt; "opening {} ns", found.opening)?;
    println!(rt; "classification {} ns", found.classification)?;
    Ok(())
}

fn run(
    rt: &HostRuntime,
    disk: &mut FileDisk<&HostRuntime>,
    number: u64,
    work: Work,
) -> Result<(), Fault> {
    let registry = one_cell(rt.alloc())?;
    match work {
        Work::Whole { with_times } => {
            let claim = claim_routes(rt, disk, &registry, number)?;
            let found = look(rt, disk, &registry, number)?;
            let _ = fs::remove_file(rt, PATH);
            print(rt, number, &found)?;
            if with_times {
                println!(rt; "begin and commit {} ns", claim)?;
                print_times(rt, &found)?;
            }
        }
        Work::Open => {
            let found = look(rt, disk, &registry, number)?;
            print(rt, number, &found)?;
            print_times(rt, &found)?;
        }
    }
    Ok(())
}

// The number of routes, and what is asked for besides.
fn asked(rt: &HostRuntime) -> Option<(u64, Work)> {
    let mut words = env::args(rt).ok()?.skip(1);
    let number = words.next()?.parse::<u64>().ok()?;
    let work = match words.next() {
        Some(word) if word.as_str() == "times" => Work::Whole { with_times: true },
        Some(word) if word.as_str() == "open" => Work::Open,
        Some(_) => return None,
        None => Work::Whole { with_times: false },
    };
    Some((number, work))
}

fn main(rt: HostRuntime) -> ExitCode {
    let Some((number, work)) = asked(&rt) else {
        return ExitCode::from(2);
    };
    let Ok(mut disk) = FileDisk::new(&rt, rt.alloc()) else {
        return ExitCode::FAILURE;
    };
    match run(&rt, &mut disk, number, work) {
        Ok(()) => ExitCode::SUCCESS,
        Err(Fault::InUse) => {
            let _ = eprintln!(&rt; "{PATH} is in use");
            ExitCode::FAILURE
        }
        Err(_) => ExitCode::FAILURE,
    }
}
