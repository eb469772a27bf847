//! The program as a library: the commands, what they read and what they write.
//!
//! ```text
//! // words: ["up"]
//! let status = run(alloc, &words, &mut config, &mut script, &mut out, &mut disk, &mut wire, &mut clock);
//! exit(status.code())
//! ```
//!
//! `replay` reads requests as lines of JSON and answers each by one line, from a service in memory: one
//! of a single cell, or with `--registry` one of the cells that a configuration names. Its whole promise
//! is the contract of [`run`]: what is written is exactly the reply that is due to each line in the claim
//! map after the earlier lines (`specs/Replay` and `specs/Served`, over `due` of claim_map), and where a run
//! ends early the last line names its cause (`specs/Report`). What a run is to do is in `specs/Config`.
//!
//! `init` makes the files of the service and of all cells, and `init ID` that of one cell, where none of them
//! is in use. At its end each of them is a journal without a body in whatever a crash leaves, and every other
//! file is as it was (`specs/Files`, `specs/Installed`).
//!
//! `up` opens the service and the cells from their files, and does the lines of a script. What is told of each line
//! stands in `specs/Told`, which lines are done in `specs/Script`, and what the whole comes to in `specs/Ups`: where the
//! files were opened, the transitions that are told are a run of legal steps from the claim map that the files stood for.
//! Behind a run that ended between two lines the files stand for the claim map behind them; behind one that ended in a line
//! of which is told, for that one, or, only where the disk's count of faults rose in that line, behind one event more. A line
//! that was done and could not be told stands on the files, too.
//!
//! The lines come as `specs/Lines` defines them, in whatever pieces the source gives its bytes, and those of
//! a script as `specs/ScriptLines` does: there LF drops a CR in front of it.
//!
//! It stands on `cells_world` and `cells_script`, and on `message_json`, `claim_service`, `disk_journal`, `cell_registry` and
//! `cells_edge`. The caller of
//! [`run`] keeps nothing; that of [`finish`] gives a status which is no fault of writing.
#![tactic(auto)]

mod command;
mod config;
mod init;
mod lines;
mod reading;
mod replay;
mod report;
#[cfg(test)]
mod run_tests;
mod script_lines;
mod service;
mod status;
mod tellable;
#[cfg(test)]
mod tests;
mod up;
#[cfg(test)]
mod up_tests;

pub use command::{Command, finish, run};
pub use config::{CONFIG_BYTES, ConfigFault};
pub use lines::{LINES, LONGEST_LINE_BYTES, LineFault, LineReader};
pub use service::Service;
pub use status::Status;
