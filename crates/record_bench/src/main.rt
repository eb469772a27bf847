//! Makes as many users below one organization as the first word says, and a group with 30 projects in it behind
//! them; renames that group some times, and looks up paths below its projects. Prints what is there and what was
//! found. With a second word `times` it prints how many nanoseconds a call took, too; with `first` it does the
//! same, and the group stands before the users.
//!
//! A change is made as a cell makes it: its operations are asked for, and then it is made.
#![tactic(auto)]

ghost use Rattle.claim_map.specs.Trees.{TreeFits};
ghost use Rattle.record_bench.specs.declared.changes.TheConstants.{KNOWN};

mod changes;

use bench_times::nanoseconds_each;
use changes::{ChangeFault, create, rename, start};
use claim_types::Kind;
use record_tree::Tree;
use std::alloc::{AllocError, Global};
use std::process::ExitCode;
use std::time::Instant;
use std::{env, io};

/// How many projects the group has.
const PROJECTS: u64 = 30;

/// How often the group is renamed.
const RENAMES: u64 = 100;

/// How many paths are looked up.
const PATHS: u64 = 1_000;

// Why a run ended early.
#[derive(Drop)]
enum Fault {
    Change(ChangeFault),
    Memory,
    // The clock or the output failed.
    Outside,
}

impl From<ChangeFault> for Fault {
    fn from(fault: ChangeFault) -> Self {
        Fault::Change(fault)
    }
}

impl From<AllocError> for Fault {
    fn from(_: AllocError) -> Self {
        Fault::Memory
    }
}

impl From<io::Error> for Fault {
    fn from(_: io::Error) -> Self {
        Fault::Outside
    }
}

// Writes a name with a number, in the room of the one before.
fn write_name(name: &mut String, front: &str, n: u64) -> Result<(), AllocError> {
    let mut digits = itoa::Buffer::new();
    name.clear();
    name.push_str(front)?;
    name.push_str(digits.format(n))
}

// Makes so many records of a kind below another.
fn create_each(
    alloc: Global,
    tree: &mut Tree,
    kind: Kind,
    parent: u64,
    front: &str,
    number: u64,
) -> Result<(), Fault>
    requires { TreeFits tree.old KNOWN }
    ensures { TreeFits tree.new KNOWN }
{
    let mut name = String::new(alloc);
    for n in 0..number {
        write_name(&mut name, front, n)?;
        create(alloc, tree, kind, parent, name.as_str())?;
    }
    Ok(())
}

// Makes the users, and says how many nanoseconds each took.
fn create_users(rt: &HostRuntime, tree: &mut Tree, users: u64) -> Result<u64, Fault>
    requires { TreeFits tree.old KNOWN }
    ensures { TreeFits tree.new KNOWN }
{
    let start = Instant::now(rt)?;
    create_each(rt.alloc(), tree, Kind::User, 1, "user-", users)?;
    Ok(nanoseconds_each(start.elapsed(rt)?, users))
}

// Makes the group and its projects, and gives the group's identifier.
fn create_group(alloc: Global, tree: &mut Tree) -> Result<u64, Fault>
    requires { TreeFits tree.old KNOWN }
    ensures { TreeFits tree.new KNOWN }
{
    let group = tree.used().saturating_add(1);
    create(alloc, tree, Kind::Group, 1, "group")?;
    create_each(alloc, tree, Kind::Project, group, "project-", PROJECTS)?;
    Ok(group)
}

// Renames the group, each time otherwise, the last time to `group-99`; and says how many nanoseconds each took.
fn rename_group(rt: &HostRuntime, tree: &mut Tree, group: u64) -> Result<u64, Fault>
    requires { TreeFits tree.old KNOWN }
    ensures { TreeFits tree.new KNOWN }
{
    let alloc = rt.alloc();
    let mut name = String::new(alloc);
    let start = Instant::now(rt)?;
    for n in 0..RENAMES {
        write_name(&mut name, "group-", n)?;
        rename(alloc, tree, group, name.as_str())?;
    }
    Ok(nanoseconds_each(start.elapsed(rt)?, RENAMES))
}

// The paths that are looked up: below a project each.
fn paths(alloc: Global) -> Result<Vec<String>, AllocError> {
    let mut paths = Vec::new(alloc);
    let mut path = String::new(alloc);
    for n in 0..PATHS {
        write_name(&mut path, "group-99/project-", n % PROJECTS)?;
        path.push_str("/issues")?;
        paths.push(path.clone()?)?;
    }
    Ok(paths)
}

// How many of these paths a record stands for.
fn found_of(tree: &Tree, paths: &[String]) -> u64 {
    let mut found = 0u64;
    for path in paths {
        if tree.find_path(path.as_bytes()).is_some() {
            found = found.saturating_add(1);
        }
    }
    found
}

// What a run found, and how many nanoseconds a call of each kind took.
#[derive(Clone, Copy)]
struct Report {
    users: u64,
    records: u64,
    found: u64,
    version: u64,
    create: u64,
    rename: u64,
    find_path: u64,
}

// Makes the records, those of the group before or behind the users. Gives the group's identifier, and how many
// nanoseconds a create of a user took.
fn fill(
    rt: &HostRuntime,
    tree: &mut Tree,
    users: u64,
    group_first: bool,
) -> Result<(u64, u64), Fault>
    requires { TreeFits tree.old KNOWN }
    ensures { TreeFits tree.new KNOWN }
{
    let alloc = rt.alloc();
    create(alloc, tree, Kind::Organization, 0, "organization")?;
    if group_first {
        let group = create_group(alloc, tree)?;
        return Ok((group, create_users(rt, tree, users)?));
    }
    let create = create_users(rt, tree, users)?;
    Ok((create_group(alloc, tree)?, create))
}

fn run(rt: &HostRuntime, mut tree: Tree, users: u64, group_first: bool) -> Result<Report, Fault>
    requires { TreeFits tree KNOWN }
{
    let (group, create) = fill(rt, &mut tree, users, group_first)?;
    let rename = rename_group(rt, &mut tree, group)?;
    let paths = paths(rt.alloc())?;
    let start = Instant::now(rt)?;
    let found = found_of(&tree, paths.as_slice());
    Ok(Report {
        users,
        records: tree.records().len() as u64,
        found,
        version: tree.version(),
        create,
        rename,
        find_path: nanoseconds_each(start.elapsed(rt)?, PATHS),
    })
}

fn print(rt: &HostRuntime, report: &Report, with_times: bool) -> Result<(), Fault> {
    let Report {
        users,
        records,
        found,
        version,
        ..
    } = report;
    println!(rt; "{users} users, {records} records, {found} paths found, version {version}")?;
    if with_times {
        println!(rt; "create {} ns", report.create)?;
        println!(rt; "rename {} ns", report.rename)?;
        println!(rt; "find_path {} ns", report.find_path)?;
    }
    Ok(())
}

// What is asked for: how many users, whether times are printed, and whether the group stands first.
fn asked(rt: &HostRuntime) -> Option<(u64, bool, bool)> {
    let mut words = env::args(rt).ok()?.skip(1);
    let users = words.next()?.parse::<u64>().ok()?;
    match words.next() {
        Some(word) if word.as_str() == "times" => Some((users, true, false)),
        Some(word) if word.as_str() == "first" => Some((users, true, true)),
        Some(_) => None,
        None => Some((users, false, false)),
    }
}

fn main(rt: HostRuntime) -> ExitCode {
    let Some((users, with_times, group_first)) = asked(&rt) else {
        return ExitCode::from(2);
    };
    let done = match run(&rt, start(rt.alloc()), users, group_first) {
        Ok(report) => print(&rt, &report, with_times),
        Err(fault) => Err(fault),
    };
    match done {
        Ok(()) => ExitCode::SUCCESS,
        Err(_) => ExitCode::FAILURE,
    }
}
