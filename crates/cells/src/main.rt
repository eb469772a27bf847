//! The program: the real ends round `cells_cli::run`.
#![tactic(auto)]

ghost use Rattle.std.specs.Prelude.{◌≢◌};
ghost use Rattle.cells_cli.specs.declared.status.Status.TheVariants as status;

use cells_cli::{Status, finish, run};
use cells_edge::MemoryWire;
use cells_edge::real::{FileSource, StdSink, StdSource, SystemClock};
use disk_journal::FileDisk;
use std::env;
use std::io::{self, ErrorKind};
use std::process::ExitCode;

/// The configuration, in the current folder.
const CONFIG: &str = "cells.toml";

// Why there are no words. One that is not UTF-8 is no word of a command.
fn without_words(error: &io::Error) -> Status
    ensures { result ≢ status.WriteFault }
{
    if error.kind() == ErrorKind::InvalidData {
        return Status::Usage;
    }
    Status::Memory
}

fn main(rt: HostRuntime) -> ExitCode {
    let mut out = StdSink::new(rt.stdout());
    let words = match env::args(&rt) {
        Ok(words) => words,
        Err(error) => {
            let status = finish(rt.alloc(), without_words(&error), &mut out);
            return ExitCode::from(status.code());
        }
    };
    let Ok(words) = words.skip(1).collect::<Vec<String>>(rt.alloc()) else {
        return ExitCode::from(finish(rt.alloc(), Status::Memory, &mut out).code());
    };
    let Ok(mut disk) = FileDisk::new(&rt, rt.alloc()) else {
        return ExitCode::from(finish(rt.alloc(), Status::Memory, &mut out).code());
    };
    let mut config = FileSource::new(&rt, CONFIG);
    let mut script = StdSource::new(rt.stdin());
    // Packets go through memory, and nothing befalls them.
    let mut wire = MemoryWire::new(rt.alloc(), Vec::new(rt.alloc()));
    let mut clock = SystemClock::new(&rt);
    let status = run(
        rt.alloc(),
        &words,
        &mut config,
        &mut script,
        &mut out,
        &mut disk,
        &mut wire,
        &mut clock,
    );
    ExitCode::from(status.code())
}
