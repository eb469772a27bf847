//! The command `up`: a script over the service and its cells.
ghost use Rattle.std.specs.Prelude.{◌≡◌, ◌≤◌, ◌<◌, ◌+◌, ℕ, IsTrue, [], drop, OnOk};
ghost use Rattle.cell_registry.specs.Bounds.{is_registry};
ghost use Rattle.cells_script.specs.declared.limits.TheConstants.{LINE_BYTES};
ghost use Rattle.cells_world.specs.Cluster.{IsReady};
ghost use Rattle.cells_world.specs.Lines.{IsBuilt};
ghost use Rattle.cells_world.specs.World.{at as moment};
ghost use Rattle.cells_world.specs.declared.limits.TheConstants.{MOST_TAKES, TAKES_A_LINE};
ghost use Rattle.cells_cli.specs.Doing.{DoesLine, DoesScript, DoesText, HasItsCause, HasLineCause, ReadsAll, ended, stopped_by, EndsSo};
ghost use Rattle.cells_cli.specs.Ups.{OpensSo, Ups};
ghost use Rattle.cells_cli.specs.Went.{moment_shown};
ghost use Rattle.cells_cli.specs.declared.up.UpStop.TheVariants.{Memory, Cluster as OfCluster};

use crate::lines::{LINES, LineFault, LineReader};
use crate::reading::{Reading, reading_of};
use crate::report::{tell_end, tell_line};
use cell_registry::Registry;
use cells_base::{NoMemory, behind};
use cells_edge::{Clock, Sink, Source, Wire};
use cells_script::{LINE_BYTES, Line};
use cells_world::{Cluster, ClusterError};
use disk_journal::Disk;
use std::alloc::Global;

/// Why a script was not done to its end.
#[derive(Clone, Copy)]
pub enum UpStop {
    /// The script is refused at this line, from 1.
    Script { line: u64 },
    ReadFault,
    WriteFault,
    Memory,
    /// The cluster came to an end.
    Cluster { error: ClusterError },
}

impl From<NoMemory> for UpStop {
    ghost from_gives = { λ _ s. s ≡ Memory };

    fn from(_: NoMemory) -> Self {
        UpStop::Memory
    }
}

impl From<ClusterError> for UpStop {
    ghost from_gives = { λ e s. s ≡ OfCluster e };

    fn from(error: ClusterError) -> Self {
        UpStop::Cluster { error }
    }
}

impl From<LineFault> for UpStop {
    ghost use Rattle.cells_cli.specs.Doing.{stop_of};

    ghost from_gives = { λ e s. s ≡ stop_of e };

    fn from(fault: LineFault) -> Self {
        match fault {
            LineFault::TooLong { line } => UpStop::Script { line },
            LineFault::TooMany => UpStop::Script { line: LINES + 1 },
            LineFault::Read => UpStop::ReadFault,
        }
    }
}

// What stands behind so many items, nothing where there are no more.
fn past<T>(items: &[T], count: usize) -> &[T]
    ensures { result.now ≡ drop count items.now }
{
    items.get(count..).unwrap_or(&[])
}

// Does a line, and tells of it.
fn do_line<W: Sink, D: Disk, N: Wire, C: Clock>(
    alloc: Global,
    cluster: &mut Cluster,
    number: u64,
    line: &Line,
    out: &mut W,
    disk: &mut D,
    wire: &mut N,
    clock: &mut C,
) -> Result<(), UpStop>
    requires ready { IsReady D.Disk disk.old cluster.old }
    requires takes { cluster.old.takes < MOST_TAKES }
    requires built { IsBuilt line.now }
    ensures does { DoesLine W.Sink D.Disk N.Wire (moment_shown C.Clock clock.old) number line.now
        (moment cluster.old disk.old wire.old) (moment cluster.new disk.new wire.new) out.old out.new result }
    ensures takes { OnOk result (cluster.new.takes ≤ cluster.old.takes + TAKES_A_LINE) }
    ensures cause { HasLineCause W.Sink D.Disk out.old out.new disk.old disk.new result }
    ensures clock { moment_shown C.Clock clock.new ≡ moment_shown C.Clock clock.old }
    ensures later { (W.faults out.old ≤ W.faults out.new) × (D.faults disk.old ≤ D.faults disk.new) }
{
    let notes = cluster.notes().len();
    let steps = cluster.trace().len();
    let now = clock.now();
    match cluster.line(alloc, disk, wire, now, line) {
        Ok(answer) => tell_line(
            alloc,
            number,
            behind(cluster.notes(), notes),
            behind(cluster.trace(), steps),
            &answer,
            out,
        ),
        Err(error) => {
            let told = tell_end(
                alloc,
                past(cluster.notes(), notes),
                past(cluster.trace(), steps),
                out,
            );
            stopped(told, error)
        }
    }
}

// How a line ends at which the cluster came to an end: by what telling of it came to, or by that.
fn stopped(told: Result<(), UpStop>, error: ClusterError) -> Result<(), UpStop>
    ensures { result ≡ stopped_by told error }
{
    match told {
        Ok(()) => Err(UpStop::Cluster { error }),
        Err(stop) => Err(stop),
    }
}

// Does what a line asks for, by its bytes.
fn take_line<W: Sink, D: Disk, N: Wire, C: Clock>(
    alloc: Global,
    cluster: &mut Cluster,
    number: u64,
    text: &[u8],
    out: &mut W,
    disk: &mut D,
    wire: &mut N,
    clock: &mut C,
) -> Result<(), UpStop>
    requires ready { IsReady D.Disk disk.old cluster.old }
    requires takes { cluster.old.takes < MOST_TAKES }
    ensures does { DoesText W.Sink D.Disk N.Wire (moment_shown C.Clock clock.old) number text.now
        (moment cluster.old disk.old wire.old) (moment cluster.new disk.new wire.new) out.old out.new result }
    ensures takes { OnOk result (cluster.new.takes ≤ cluster.old.takes + TAKES_A_LINE) }
    ensures cause { HasLineCause W.Sink D.Disk out.old out.new disk.old disk.new result }
    ensures clock { moment_shown C.Clock clock.new ≡ moment_shown C.Clock clock.old }
    ensures later { (W.faults out.old ≤ W.faults out.new) × (D.faults disk.old ≤ D.faults disk.new) }
{
    match reading_of(alloc, text) {
        Ok(Reading::Skipped) => Ok(()),
        Ok(Reading::Wanted { line }) => do_line(
            alloc, cluster, number, &line, out, disk, wire, clock,
        ),
        Ok(Reading::Refused) => Err(UpStop::Script { line: number }),
        Err(NoMemory) => Err(UpStop::Memory),
    }
}

// Does each line of the script in turn.
fn do_lines<S: Source, W: Sink, D: Disk, N: Wire, C: Clock>(
    alloc: Global,
    cluster: &mut Cluster,
    lines: &mut LineReader,
    script: &mut S,
    out: &mut W,
    disk: &mut D,
    wire: &mut N,
    clock: &mut C,
) -> Result<(), UpStop>
    requires ready { IsReady D.Disk disk.old cluster.old }
    requires takes { cluster.old.takes ≡ 0 }
    requires fresh { (lines.old.given ≡ 0) × (lines.old.pending ≡ []) × (lines.old.limit ≡ LINE_BYTES) }
    ensures does { DoesScript S.Source W.Sink D.Disk N.Wire (moment_shown C.Clock clock.old) script.old
        (moment cluster.old disk.old wire.old) (moment cluster.new disk.new wire.new) out.old out.new result }
    ensures end { IsTrue S.tells → ReadsAll S.Source script.new result }
    ensures cause { HasItsCause S.Source W.Sink (EndsSo D.Disk disk.old disk.new) script.old script.new
        out.old out.new result }
    ensures later { (W.faults out.old ≤ W.faults out.new) × (D.faults disk.old ≤ D.faults disk.new) }
{
    while lines.next_script_line(script)? {
        take_line(
            alloc,
            cluster,
            lines.given(),
            lines.line(),
            out,
            disk,
            wire,
            clock,
        )?;
    }
    Ok(())
}

/// Opens the service and the cells of a configuration, and does each line of the script in turn. It says why it did
/// not come to the script's end, if it did not.
pub fn up<S: Source, W: Sink, D: Disk, N: Wire, C: Clock>(
    alloc: Global,
    registry: Registry,
    script: &mut S,
    out: &mut W,
    disk: &mut D,
    wire: &mut N,
    clock: &mut C,
) -> Result<(), UpStop>
    requires { IsTrue (is_registry registry) }
    ensures ups { Ups S.Source W.Sink D.Disk N.Wire (moment_shown C.Clock clock.old) registry script.old
        out.old out.new disk.old disk.new wire.old wire.new (ended result) }
    ensures end { IsTrue S.tells → ReadsAll S.Source script.new result }
    ensures cause { HasItsCause S.Source W.Sink (OpensSo D.Disk registry disk.old disk.new) script.old script.new
        out.old out.new result }
    ensures later { W.faults out.old ≤ W.faults out.new }
{
    let mut lines = LineReader::new(alloc, LINE_BYTES as usize)?;
    let mut cluster = Cluster::open(alloc, disk, registry)?;
    do_lines(
        alloc,
        &mut cluster,
        &mut lines,
        script,
        out,
        disk,
        wire,
        clock,
    )
}
