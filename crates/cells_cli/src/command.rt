ghost use Rattle.std.specs.Prelude.{◌≡◌, ◌≢◌, ◌≤◌, ◌⊎◌, List, ℕ, IsTrue, IfOk, string_bytes};
ghost use Rattle.cell_registry.specs.Bounds.{is_registry};
ghost use Rattle.cells_edge.specs.Streams.{WritesAll, WritesFront, SinkFails, SourceFails};
ghost use Rattle.cells_cli.specs.Config.{command_of, command_of_one, command_of_two, cell_named as named_by, is_digit as is_digit_byte, is_first_digit as is_first_digit_byte, ReadsConfig, Replays};
ghost use Rattle.cells_cli.specs.Files.{AreDistinct};
ghost use Rattle.cells_cli.specs.Installed.{EndsInit, LeavesFiles, DiskFails};
ghost use Rattle.cells_cli.specs.Report.{Reports, ReportsService, ReportsFiles, Installs, WritesFrontOf, IsRefused, StartsBy, GivesNoWork, CouldNotRead, Ends, LeavesScript, LeavesDisk, LeavesWire, RunsUpBy};
ghost use Rattle.cells_cli.specs.Served.{EndsAs, EndsService};
ghost use Rattle.cells_cli.specs.Service.{KeepsBounds};
ghost use Rattle.cells_cli.specs.Status.{last_line};
ghost use Rattle.cells_cli.specs.Ups.{EndsUp, RunsUp};
ghost use Rattle.cells_cli.specs.Went.{moment_shown};

use crate::config::{ConfigFault, Work, work_of};
use crate::init::{InitStop, make_files};
use crate::replay::{Stop, replay};
use crate::up::{UpStop, up};
use crate::{Service, Status};
use cell_registry::Registry;
use cells_base::NoMemory;
use cells_edge::{Clock, Sink, SinkFailed, Source, Wire, write_all};
use cells_world::{ClusterError, Damage};
use disk_journal::Disk;
use std::alloc::Global;

/// What the words of a command line ask for.
#[derive(Clone, Copy, Debug, PartialEq, Eq)]
pub enum Command {
    /// `replay`: one cell, which was given one range.
    Replay,
    /// `replay --registry`: the cells of the configuration, none of which was given a range.
    ReplayRegistry,
    /// `init`: the files of the service and of all cells of the configuration are made.
    Init,
    /// `init ID`: the file of this cell alone is made.
    InitCell { cell: u16 },
    /// `up`: the lines of a script are done over the service and the cells of the configuration.
    Up,
}

impl From<Stop> for Status {
    ghost use Rattle.cells_cli.specs.Served.{status_of};

    ghost from_gives = { λ stop status. status ≡ status_of stop };

    fn from(stop: Stop) -> Self {
        match stop {
            Stop::Script { line } => Status::Script { line },
            Stop::ReadFault => Status::ReadFault,
            Stop::WriteFault => Status::WriteFault,
            Stop::Memory => Status::Memory,
        }
    }
}

impl From<InitStop> for Status {
    ghost use Rattle.cells_cli.specs.Installed.{status_of};

    ghost from_gives = { λ stop status. status ≡ status_of stop };

    fn from(stop: InitStop) -> Self {
        match stop {
            InitStop::InUse { file, size } => Status::FileInUse { file, size },
            InitStop::Disk { file } => Status::DiskFault { file },
            InitStop::WriteFault => Status::WriteFault,
            InitStop::Memory => Status::Memory,
        }
    }
}

impl From<ConfigFault> for Status {
    ghost use Rattle.cells_cli.specs.Config.{status_of_config};

    ghost from_gives = { λ fault status. status ≡ status_of_config fault };

    fn from(fault: ConfigFault) -> Self {
        match fault {
            ConfigFault::Read => Status::ReadFault,
            ConfigFault::Long => Status::ConfigLong,
            ConfigFault::Refused { number } => Status::ConfigRegistry { number },
            ConfigFault::NoSuchCell => Status::Usage,
            ConfigFault::Memory => Status::Memory,
        }
    }
}

impl From<ClusterError> for Status {
    ghost use Rattle.cells_cli.specs.Doing.{status_of_cluster};

    ghost from_gives = { λ error status. status ≡ status_of_cluster error };

    fn from(error: ClusterError) -> Self {
        match error {
            ClusterError::DiskFailed { file } => Status::DiskFault { file },
            ClusterError::Memory => Status::Memory,
            ClusterError::Damaged { file, fault } => match fault {
                Damage::NotAJournal { at } => Status::NotAJournal { file, at },
                Damage::BadEntry { index } => Status::BadEntry { file, index },
                Damage::ConfigLacks { cell } => Status::ConfigLacks { cell },
                Damage::EpochsSpent => Status::EpochsSpent { cell: file },
            },
        }
    }
}

impl From<UpStop> for Status {
    ghost use Rattle.cells_cli.specs.Doing.{status_of};

    ghost from_gives = { λ stop status. status ≡ status_of stop };

    fn from(stop: UpStop) -> Self {
        match stop {
            UpStop::Script { line } => Status::Script { line },
            UpStop::ReadFault => Status::ReadFault,
            UpStop::WriteFault => Status::WriteFault,
            UpStop::Memory => Status::Memory,
            UpStop::Cluster { error } => Status::from(error),
        }
    }
}

fn is_digit(byte: u8) -> bool
    ensures { result ≡ is_digit_byte byte }
{
    byte.is_ascii_digit()
}

// A number does not begin with 0.
fn is_first_digit(byte: u8) -> bool
    ensures { result ≡ is_first_digit_byte byte }
{
    (b'1'..=b'9').contains(&byte)
}

// The cell that a word names: one to three digits.
fn cell_named(word: &[u8]) -> Option<u16>
    ensures { result ≡ named_by word.now }
{
    match *word {
        [a] if is_first_digit(a) => Some((a - b'0') as u16),
        [a, b] if is_first_digit(a) && is_digit(b) => {
            Some(10 * (a - b'0') as u16 + (b - b'0') as u16)
        }
        [a, b, c] if is_first_digit(a) && is_digit(b) && is_digit(c) => {
            Some(100 * (a - b'0') as u16 + 10 * (b - b'0') as u16 + (c - b'0') as u16)
        }
        _ => None,
    }
}

fn command_of_one(word: &String) -> Option<Command>
    ensures { result ≡ command_of_one word.now }
{
    match word.as_str() {
        "replay" => Some(Command::Replay),
        "init" => Some(Command::Init),
        "up" => Some(Command::Up),
        _ => None,
    }
}

fn command_of_two(word: &String, option: &String) -> Option<Command>
    ensures { result ≡ command_of_two word.now option.now }
{
    if word.as_str() == "replay" && option.as_str() == "--registry" {
        return Some(Command::ReplayRegistry);
    }
    if word.as_str() != "init" {
        return None;
    }
    let cell = cell_named(option.as_str().as_bytes())?;
    Some(Command::InitCell { cell })
}

fn command_of(words: &[String]) -> Option<Command>
    ensures { result ≡ command_of words.now }
{
    match words {
        [word] => command_of_one(word),
        [word, option] => command_of_two(word, option),
        _ => None,
    }
}

fn line_of(alloc: Global, status: Status) -> Result<Vec<u8>, NoMemory>
    ensures { IfOk result (λ line. line.items ≡ last_line status) }
{
    let mut line = status.words(alloc)?.into_bytes();
    line.push(b'\n')?;
    Ok(line)
}

// Writes the last line of a report, and answers how the run ended then.
fn put_last<W: Sink>(status: Status, line: &[u8], out: &mut W) -> Status
    requires { line.now ≡ last_line status }
    ensures ends { (result ≡ status) ⊎ (result ≡ Status.WriteFault) }
    ensures told { result ≢ Status.WriteFault → WritesAll W.Sink out.old out.new (last_line status) }
    ensures part { WritesFront W.Sink out.old out.new (last_line status) }
    ensures cause { result ≡ Status.WriteFault → status ≢ Status.WriteFault → SinkFails W.Sink out.old out.new }
    ensures later { W.faults out.old ≤ W.faults out.new }
{
    match write_all(out, line) {
        Ok(()) => status,
        Err(SinkFailed) => Status::WriteFault,
    }
}

/// Ends a report with the last line of a status. The status is another one where memory is wanting for
/// that line, or where it cannot be written.
pub fn finish<W: Sink>(alloc: Global, status: Status, out: &mut W) -> Status
    requires { status ≢ Status.WriteFault }
    ensures ends { (result ≡ status) ⊎ ((result ≡ Status.Memory) ⊎ (result ≡ Status.WriteFault)) }
    ensures told { result ≢ Status.WriteFault → WritesAll W.Sink out.old out.new (last_line result) }
    ensures part { result ≡ Status.WriteFault → WritesFrontOf W.Sink out.old out.new status }
    ensures cause { result ≡ Status.WriteFault → SinkFails W.Sink out.old out.new }
{
    match line_of(alloc, status) {
        Ok(line) => put_last(status, &line, out),
        Err(NoMemory) => put_last(Status::Memory, b"memory\n", out),
    }
}

// The run of a service that has begun.
fn serve<B: Source, W: Sink>(
    alloc: Global,
    mut service: Service,
    script: &mut B,
    out: &mut W,
) -> Status
    requires { KeepsBounds service }
    ensures report { ReportsService B.Source W.Sink service script.old out.old out.new result }
    ensures lines { IsTrue B.tells → EndsAs (B.left script.old) (B.left script.new) result }
    ensures read { result ≡ Status.ReadFault → SourceFails B.Source script.old script.new }
    ensures write { result ≡ Status.WriteFault → SinkFails W.Sink out.old out.new }
    ensures statuses { EndsService result }
{
    match replay(alloc, &mut service, script, out) {
        Ok(()) => Status::End,
        Err(Stop::WriteFault) => Status::WriteFault,
        Err(stop) => finish(alloc, Status::from(stop), out),
    }
}

// The run of a command that makes files.
fn install<W: Sink, D: Disk>(alloc: Global, files: &[u16], out: &mut W, disk: &mut D) -> Status
    requires { AreDistinct files.now }
    ensures report { ReportsFiles W.Sink files.now out.old out.new result }
    ensures leaves { IsTrue D.tells → LeavesFiles W.Sink D.Disk files.now out.old out.new disk.old disk.new result }
    ensures write { result ≡ Status.WriteFault → SinkFails W.Sink out.old out.new }
    ensures disk { DiskFails D.Disk disk.old disk.new result }
    ensures statuses { EndsInit result }
{
    match make_files(alloc, files, out, disk) {
        Ok(()) => finish(alloc, Status::End, out),
        Err(InitStop::WriteFault) => Status::WriteFault,
        Err(stop) => finish(alloc, Status::from(stop), out),
    }
}

// The run of a script over the service and the cells.
fn operate<B: Source, W: Sink, D: Disk, N: Wire, C: Clock>(
    alloc: Global,
    registry: Registry,
    script: &mut B,
    out: &mut W,
    disk: &mut D,
    wire: &mut N,
    clock: &mut C,
) -> Status
    requires { IsTrue (is_registry registry) }
    ensures runs { RunsUp B.Source W.Sink D.Disk N.Wire (moment_shown C.Clock clock.old) registry
        script.old script.new out.old out.new disk.old disk.new wire.old wire.new result }
    ensures read { result ≡ Status.ReadFault → SourceFails B.Source script.old script.new }
    ensures write { result ≡ Status.WriteFault → SinkFails W.Sink out.old out.new }
    ensures disk { DiskFails D.Disk disk.old disk.new result }
    ensures statuses { EndsUp result }
{
    match up(alloc, registry, script, out, disk, wire, clock) {
        Ok(()) => finish(alloc, Status::End, out),
        Err(UpStop::WriteFault) => Status::WriteFault,
        Err(stop) => finish(alloc, Status::from(stop), out),
    }
}

/// Runs the command that the words say, and answers how it ended; [`Status::code`] is the exit code.
///
/// `replay` answers each line of the script that is not empty by one line: the reply that is due to
/// its request in the claim map after the earlier lines, or the fault that the line has. It knows one
/// cell; `replay --registry` reads the cells of the configuration first. Whatever ends a run before
/// the end of its script is named by the last line of the report, but a fault of the sink, which
/// leaves a front of the report.
///
/// `init` makes the files of the service and of all cells of the configuration, `init ID` that of one
/// cell: empty journals. All are asked for their sizes first, and where one is in use nothing is done.
/// It says of each file that it was made, as soon as it was.
///
/// `up` opens the service and the cells of the configuration from their files, and does the lines of the script
/// in turn, over the wire. Of each line it writes its notes, its transitions and its answer. A line that is
/// refused ends the run, and so does a fault of the disk or a file that shows damage.
pub fn run<A: Source, B: Source, W: Sink, D: Disk, N: Wire, C: Clock>(
    alloc: Global,
    words: &[String],
    config: &mut A,
    script: &mut B,
    out: &mut W,
    disk: &mut D,
    wire: &mut N,
    clock: &mut C,
) -> Status
    // what was written
    ensures report { Reports A.Source B.Source W.Sink words.now config.old script.old out.old out.new result }
    ensures refused { IsRefused result → WritesAll W.Sink out.old out.new (last_line result) }

    // what was made
    ensures made { Installs A.Source W.Sink D.Disk words.now config.old out.old out.new disk.old disk.new result }

    // what was done, traced and left
    ensures up { RunsUpBy A.Source B.Source W.Sink D.Disk N.Wire (moment_shown C.Clock clock.old) words.now
        config.old script.old script.new out.old out.new disk.old disk.new wire.old wire.new result }

    // when each status comes; want of memory is free
    ensures start { StartsBy A.Source words.now config.old result }
    ensures lines { Replays (command_of words.now) → IsTrue B.tells →
        EndsAs (B.left script.old) (B.left script.new) result }
    ensures read { result ≡ Status.ReadFault → CouldNotRead A.Source B.Source W.Sink words.now config.old config.new
        script.old script.new out.old out.new }
    ensures write { result ≡ Status.WriteFault → SinkFails W.Sink out.old out.new }
    ensures disk { DiskFails D.Disk disk.old disk.new result }
    ensures statuses { Ends (command_of words.now) result }

    // what is left alone
    ensures nothing_done { GivesNoWork A.Source words.now config.old →
        (script.new ≡ script.old) × (disk.new ≡ disk.old) × (wire.new ≡ wire.old) × (clock.new ≡ clock.old) }
    ensures script_unread { LeavesScript (command_of words.now) result → script.new ≡ script.old }
    ensures config_unread { (ReadsConfig (command_of words.now) → ⊥) → config.new ≡ config.old }
    ensures disk_unused { LeavesDisk (command_of words.now) result → disk.new ≡ disk.old }
    ensures wire_unused { LeavesWire (command_of words.now) result → wire.new ≡ wire.old }
    ensures clock_unused { LeavesWire (command_of words.now) result → clock.new ≡ clock.old }
{
    let Some(command) = command_of(words) else {
        return finish(alloc, Status::Usage, out);
    };
    match work_of(alloc, command, config) {
        Ok(Work::Answer(service)) => serve(alloc, service, script, out),
        Ok(Work::Make(files)) => install(alloc, &files, out, disk),
        Ok(Work::Run(registry)) => operate(alloc, registry, script, out, disk, wire, clock),
        Err(fault) => finish(alloc, Status::from(fault), out),
    }
}
