//! Appends bodies of 100 bytes to a journal in the folder `cells-data` of the current folder, as many as the
//! first word says, and prints how many. The journal's file has a number that no node has. It is refused where
//! it is in use, and is taken away at the end.
#![tactic(auto)]

ghost use Rattle.std.specs.Prelude.{◌≡◌, true};

use disk_journal::{DiskFailed, FileDisk, Journal, JournalFault, MakeFault, make};
use std::alloc::Global;
use std::process::ExitCode;
use std::{env, fs};

/// The length of each body, in bytes.
const BODY_BYTES: usize = 100;

/// The number of the journal's file.
const FILE: u16 = 65_000;

/// Where that file is.
const PATH: &str = "cells-data/cell-65000.journal";

// Why not all bodies were appended.
enum Fault {
    InUse,
    Failed,
}

impl From<MakeFault> for Fault {
    fn from(fault: MakeFault) -> Self {
        match fault {
            MakeFault::FileInUse { .. } => Fault::InUse,
            MakeFault::Failed => Fault::Failed,
        }
    }
}

impl From<JournalFault> for Fault {
    fn from(_: JournalFault) -> Self {
        Fault::Failed
    }
}

impl From<DiskFailed> for Fault {
    fn from(_: DiskFailed) -> Self {
        Fault::Failed
    }
}

// The first word, as a number.
fn count(rt: &HostRuntime) -> Option<u64> {
    let word = env::args(rt).ok()?.nth(1)?;
    word.parse::<u64>().ok()
}

fn append_all(
    journal: &mut Journal,
    disk: &mut FileDisk<&HostRuntime>,
    count: u64,
) -> Result<(), DiskFailed>
    requires { journal.old.live ≡ true }
{
    let body = [b'x'; BODY_BYTES];
    for _ in 0..count {
        journal.append(disk, &body)?;
    }
    Ok(())
}

fn run(alloc: Global, disk: &mut FileDisk<&HostRuntime>, count: u64) -> Result<(), Fault> {
    make(disk, FILE)?;
    let mut opened = Journal::open(alloc, disk, FILE)?;
    append_all(&mut opened.journal, disk, count)?;
    Ok(())
}

// The status of a run. After a fault the file is opened again, as a node would: 3 where that passes.
fn status(rt: &HostRuntime, disk: &mut FileDisk<&HostRuntime>, count: u64) -> u8 {
    match run(rt.alloc(), disk, count) {
        Ok(()) => {
            let _ = fs::remove_file(rt, PATH);
            let _ = println!(rt; "{count}");
            0
        }
        Err(Fault::InUse) => {
            let _ = eprintln!(rt; "{PATH} is in use");
            1
        }
        Err(Fault::Failed) if Journal::open(rt.alloc(), disk, FILE).is_ok() => 3,
        Err(Fault::Failed) => 1,
    }
}

fn main(rt: HostRuntime) -> ExitCode {
    let Some(count) = count(&rt) else {
        return ExitCode::from(2);
    };
    let Ok(mut disk) = FileDisk::new(&rt, rt.alloc()) else {
        return ExitCode::FAILURE;
    };
    ExitCode::from(status(&rt, &mut disk, count))
}
