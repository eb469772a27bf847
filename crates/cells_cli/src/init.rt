//! The command `init`: the files of an installation.
ghost use Rattle.std.specs.Prelude.{◌≡◌, ◌≤◌, IfOk, IsTrue};
ghost use Rattle.std.specs.List.{All};
ghost use Rattle.cells_edge.specs.Streams.{Writes};
ghost use Rattle.disk_journal.specs.Effects.{StaysElsewhere};
ghost use Rattle.disk_journal.specs.Moments.{StaysEverywhere};
ghost use Rattle.cells_cli.specs.Files.{AreDistinct, IsFree, IsTold, made_line};
ghost use Rattle.cells_cli.specs.Making.{IsStop, AreStops, IsAsked, AreAsked, Makes, IsSaid, IsCause, HasCause, AreFreshOr, LeavesBy, OthersStay};
ghost use Rattle.cells_cli.specs.declared.init.InitStop.TheVariants.{Memory, WriteFault};

use cells_base::NoMemory;
use cells_edge::{Sink, SinkFailed, write_all};
use disk_journal::{Disk, DiskFailed, MakeFault, make};
use std::alloc::Global;

/// Why not all files were made.
#[derive(Clone, Copy, Debug, PartialEq, Eq)]
pub enum InitStop {
    /// The file is there already, with this size in bytes.
    InUse { file: u16, size: u64 },
    /// A call of the disk on this file failed.
    Disk { file: u16 },
    WriteFault,
    Memory,
}

impl From<NoMemory> for InitStop {
    ghost from_gives = { λ _ s. s ≡ Memory };

    fn from(_: NoMemory) -> Self {
        InitStop::Memory
    }
}

impl From<SinkFailed> for InitStop {
    ghost from_gives = { λ _ s. s ≡ WriteFault };

    fn from(_: SinkFailed) -> Self {
        InitStop::WriteFault
    }
}

// Asks whether a file is free.
fn ask<D: Disk>(disk: &mut D, file: u16) -> Result<(), InitStop>
    ensures told { IsAsked D.Disk file disk.old result }
    ensures stops { IsStop D.Disk file disk.old disk.new result }
    ensures stays { StaysEverywhere D.Disk disk.old disk.new }
    ensures later { D.faults disk.old ≤ D.faults disk.new }
{
    match disk.size(file) {
        Ok(0) => Ok(()),
        Ok(size) => Err(InitStop::InUse { file, size }),
        Err(DiskFailed) => Err(InitStop::Disk { file }),
    }
}

// Asks whether all these files are free.
fn ask_all<D: Disk>(disk: &mut D, files: &[u16]) -> Result<(), InitStop>
    ensures told { AreAsked D.Disk files.now disk.old result }
    ensures stops { AreStops D.Disk files.now disk.old disk.new result }
    ensures stays { StaysEverywhere D.Disk disk.old disk.new }
    ensures later { D.faults disk.old ≤ D.faults disk.new }
{
    for file in files {
        ask(disk, *file)?;
    }
    Ok(())
}

// The line that says that a file was made.
fn line_of(alloc: Global, file: u16) -> Result<Vec<u8>, NoMemory>
    ensures { IfOk result (λ line. line.items ≡ made_line file) }
{
    let mut line = format!(in alloc; "made {file}")?.into_bytes();
    line.push(b'\n')?;
    Ok(line)
}

// Makes a file.
fn make_file<D: Disk>(disk: &mut D, file: u16) -> Result<(), InitStop>
    ensures made { Makes D.Disk file disk.old disk.new result }
    ensures stops { IsStop D.Disk file disk.old disk.new result }
    ensures others { StaysElsewhere D.Disk file disk.old disk.new }
    ensures later { D.faults disk.old ≤ D.faults disk.new }
{
    match make(disk, file) {
        Ok(()) => Ok(()),
        Err(MakeFault::FileInUse { size }) => Err(InitStop::InUse { file, size }),
        Err(MakeFault::Failed) => Err(InitStop::Disk { file }),
    }
}

// Makes a file, and says so.
fn make_one<W: Sink, D: Disk>(
    alloc: Global,
    file: u16,
    out: &mut W,
    disk: &mut D,
) -> Result<(), InitStop>
    ensures said { Writes W.Sink out.old out.new (IsSaid file result) }
    ensures made { Makes D.Disk file disk.old disk.new result }
    ensures cause { IsCause W.Sink D.Disk file out.old out.new disk.old disk.new result }
    ensures others { StaysElsewhere D.Disk file disk.old disk.new }
    ensures later { D.faults disk.old ≤ D.faults disk.new }
    ensures written { W.faults out.old ≤ W.faults out.new }
{
    let line = line_of(alloc, file)?;
    make_file(disk, file)?;
    write_all(out, &line)?;
    Ok(())
}

// Makes these files in order, and says so of each.
fn make_all<W: Sink, D: Disk>(
    alloc: Global,
    files: &[u16],
    out: &mut W,
    disk: &mut D,
) -> Result<(), InitStop>
    requires distinct { AreDistinct files.now }
    requires free { IsTrue D.tells → All (IsFree (D.seen disk.old)) files.now }
    ensures told { Writes W.Sink out.old out.new (IsTold files.now result) }
    ensures made { IsTrue D.tells → AreFreshOr D.Disk files.now disk.new result }
    ensures cause { HasCause W.Sink D.Disk out.old out.new disk.old disk.new result }
    ensures others { OthersStay D.Disk files.now disk.old disk.new }
    ensures written { W.faults out.old ≤ W.faults out.new }
{
    for file in files {
        make_one(alloc, *file, out, disk)?;
    }
    Ok(())
}

/// Makes these files in order, and says so of each, unless one of them is in use: all are asked first, and
/// where one has a size nothing is done.
pub fn make_files<W: Sink, D: Disk>(
    alloc: Global,
    files: &[u16],
    out: &mut W,
    disk: &mut D,
) -> Result<(), InitStop>
    requires { AreDistinct files.now }
    ensures told { Writes W.Sink out.old out.new (IsTold files.now result) }
    ensures leaves { IsTrue D.tells → LeavesBy D.Disk files.now out.old out.new disk.old disk.new result }
    ensures cause { HasCause W.Sink D.Disk out.old out.new disk.old disk.new result }
    ensures others { OthersStay D.Disk files.now disk.old disk.new }
    ensures written { W.faults out.old ≤ W.faults out.new }
{
    ask_all(disk, files)?;
    make_all(alloc, files, out, disk)
}
