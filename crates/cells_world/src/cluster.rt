//! Service and cells on one disk, with a wire between them.
ghost use Rattle.std.specs.Prelude.{◌≡◌, ◌≢◌, ◌≤◌, ◌<◌, ◌+◌, ◌-◌, ◌^◌, ◌++◌, ◌∷◌, [], ℕ, Bool, false, IsTrue, Some, IfSome, IfNone, IfOk, IfErr, OnOk, OnErr, IsErrOf, length, map as list_map, min, vec_len, vec_capacity};
ghost use Rattle.std.specs.List.{slice_get};
ghost use Rattle.claim_laws.specs.Bounded.{IsMessage};
ghost use Rattle.disk_journal.specs.Effects.{FailedAt};
ghost use Rattle.cells_world.specs.Packets.{message_of};
ghost use Rattle.cells_world.specs.Post.{packets_of, ArePackets, IsGiven, Puts, Sends, SendsSome};
ghost use Rattle.claim_service.specs.Opening.{KnowsAll};
ghost use Rattle.claim_service.specs.State.{kept};
ghost use Rattle.std.specs.FinMap as map;
ghost use Rattle.cells_world.specs.Answers.{Begins, begun_on_wire, begun_repeat};
ghost use Rattle.cells_world.specs.Follows.{BreaksLine, Drains, Follows, IsDrained};
ghost use Rattle.cells_world.specs.Lines.{Acts, IsBuilt, cell_of_change, moment_of, waited_by};
ghost use Rattle.cells_world.specs.Puts.{PutsFor};
ghost use Rattle.cells_script.specs.declared.line.Line.TheVariants.{Range as LineRange, Reconcile, Repeat};
ghost use Rattle.claim_types.specs.MessageBounds.{IsRequest};
ghost use Rattle.claim_types.specs.declared.limits.TheConstants.{GREATEST_NUMBER};
ghost use Rattle.claim_types.specs.declared.rule.Note.TheVariants.{Ended as EndedNote};
ghost use Rattle.claim_laws.specs.Acts.{packet_of as asked_packet};
ghost use Rattle.claim_laws.specs.Nodes.{due_attempts, without_attempts};
ghost use Rattle.reconciler.specs.Agent.{kept_by, IsAgent, IsSameAgent};
ghost use Rattle.cells_world.specs.Ending.{GoesOn, NotesMore};
ghost use Rattle.cells_world.specs.Opening.{AreOpenedFrom, FailsTwice, IsNew, IsOpenEnd, IsServiceFrom, KeepsFiles, Opens};
ghost use Rattle.cells_world.specs.declared.limits.TheConstants.{MOST_TAKES, TAKES_A_LINE};
ghost use Rattle.cells_world.specs.Cluster.{IsReady, IsPlaceOf, Lacks, noted_by, outstanding_of, traced_by, IsEndOf, IsSameBeside, IsSameButWire, IsSameCluster, SendsOnly};
ghost use Rattle.cells_world.specs.World.{at as moment, BreaksAt, BreaksOff, HandsAt, HandsOver};

use crate::answer::{Begun, is_tag, is_zero, refused};
use crate::course::Course;
use crate::fault::ClusterError;
use crate::hear::hear;
use crate::limits::TAKES_A_LINE;
use crate::message::{Message, receiver_of};
use crate::opening::{open_agents, open_service};
use crate::post::Post;
use crate::serve::serve;
use crate::wanted::change_wanted;
use cell_registry::Registry;
use cells_base::{NoMemory, behind};
use cells_edge::{Wire, WireError};
use cells_script::{Answer, Line};
use claim_service::TopologyNode;
use claim_types::{Ended, GREATEST_ATTEMPT, Note, Request, Step, Transition};
use disk_journal::Disk;
use reconciler::CellAgent;
use std::alloc::Global;

/// The service and the cells of a configuration, over one disk, and what they sent to one another.
#[derive(Drop)]
pub struct Cluster {
    registry: Registry,
    service: TopologyNode,
    cells: Vec<CellAgent>,
    post: Post,
    trace: Vec<Transition>,
    notes: Vec<Note>,
    takes: u64,
    // Seconds, by the lines that wait.
    waited: u64,
}

// The cell of a line that asks for a change.
fn cell_of_change(line: &Line) -> Option<u16>
    ensures { result ≡ cell_of_change line.now }
{
    match line {
        Line::CreateOrganization { cell, .. } => Some(*cell),
        Line::CreateUser { cell, .. } => Some(*cell),
        Line::CreateTopGroup { cell, .. } => Some(*cell),
        Line::CreateGroup { cell, .. } => Some(*cell),
        Line::CreateProject { cell, .. } => Some(*cell),
        Line::CreateKey { cell, .. } => Some(*cell),
        Line::CreateAddress { cell, .. } => Some(*cell),
        Line::CreateDomain { cell, .. } => Some(*cell),
        Line::Rename { cell, .. } => Some(*cell),
        Line::Remove { cell, .. } => Some(*cell),
        _ => None,
    }
}

// Ends the attempts of an agent that are due at this moment, each with a note. There is room for as many notes as attempts wait.
fn end_due(agent: &mut CellAgent, notes: &mut Vec<Note>, now: u64)
    requires agent { IsAgent agent.old }
    requires room { vec_len notes.old + map.len (kept_by agent.old).pending ≤ vec_capacity notes.old }
    ensures ended { kept_by agent.new
        ≡ without_attempts (due_attempts agent.old.threshold now (kept_by agent.old)) (kept_by agent.old) }
    ensures notes { notes.new.items
        ≡ notes.old.items ++ list_map (λ l. EndedNote l) (due_attempts agent.old.threshold now (kept_by agent.old)) }
    ensures agent { IsAgent agent.new }
    ensures store { agent.new.store ≡ agent.old.store }
    ensures same { IsSameAgent agent.old agent.new }
{
    for _ in 0..agent.pending() {
        let Some(lease) = agent.expire(now) else {
            return;
        };
        notes.push_reserved(Note::Ended { lease });
    }
}

// The place of the agent of a cell.
fn place_of(cells: &[CellAgent], cell: u16) -> Option<usize>
    ensures found { IfSome result (λ n. IsPlaceOf cells.now cell n) }
    ensures within { IfSome result (λ n. n < length cells.now) }
    ensures missing { IfNone result (Lacks cells.now cell) }
{
    for (place, agent) in cells.iter().enumerate() {
        if agent.store().cell() == cell {
            return Some(place);
        }
    }
    None
}

// Traces a step that this take brought about, if there is one.
fn trace(trace: &mut Vec<Transition>, take: u64, step: Option<Step>)
    requires { vec_len trace.old < vec_capacity trace.old }
    ensures { trace.new.items ≡ traced_by step take trace.old.items }
{
    if let Some(step) = step {
        trace.push_reserved(Transition { take, step });
    }
}

// Notes an attempt that ended since the records have changed.
fn note(notes: &mut Vec<Note>, ended: &Option<Ended>)
    requires { vec_len notes.old < vec_capacity notes.old }
    ensures { notes.new.items ≡ noted_by ended.now notes.old.items }
{
    if let Some(Ended::Changed { lease, then, now }) = ended {
        notes.push_reserved(Note::Changed {
            lease: *lease,
            then: *then,
            now: *now,
        });
    }
}

impl Cluster {
    // Hands the packet in this place to its receiver: a request to the service, and a reply to the cell that it is for, if there
    // is such a cell.
    fn hand<D: Disk, N: Wire>(
        &mut self,
        alloc: Global,
        disk: &mut D,
        wire: &mut N,
        at: usize,
        now: u64,
    ) -> Result<(), ClusterError>
        requires ready { IsReady D.Disk disk.old self.old }
        requires place { at < length self.old.post.sent.items }
        ensures hands { OnOk result
            (HandsAt D.Disk at (moment self.old disk.old wire.old) (moment self.new disk.new wire.new)) }
        ensures breaks { OnErr result
            (BreaksAt D.Disk at (moment self.old disk.old wire.old) (moment self.new disk.new wire.new)) }
        ensures sends { OnOk result (SendsSome (Puts N.Wire) wire.old wire.new self.old.post self.new.post) }
        ensures ready { OnOk result (IsReady D.Disk disk.new self.new) }
        ensures end { IsEndOf D.Disk disk.old disk.new result }
        ensures handed { IsTrue N.tells → N.handed wire.new ≡ N.handed wire.old }
        ensures grows { OnOk result (GoesOn self.old self.new) }
        ensures same { IsSameCluster self.old self.new }
        ensures later { (D.faults disk.old ≤ D.faults disk.new) × (N.faults wire.old ≤ N.faults wire.new) }
    {
        self.trace.reserve(1)?;
        self.notes.reserve(1)?;
        match self.post.sent()[at].message() {
            Message::Ask(request) => {
                let served = serve(alloc, disk, &mut self.service, &self.registry, request)?;
                trace(&mut self.trace, self.takes, served.step);
                self.post
                    .send(alloc, wire, Message::Answer(served.reply), at as u64 + 1)?;
                Ok(())
            }
            Message::Answer(reply) => {
                let Some(place) = place_of(self.cells.as_slice(), receiver_of(reply)) else {
                    return Ok(());
                };
                let told = hear(alloc, disk, &mut self.cells[place], reply, now)?;
                trace(&mut self.trace, self.takes, told.step);
                note(&mut self.notes, &told.ended);
                self.post
                    .send_requests(alloc, wire, told.to_send.into_vec())?;
                Ok(())
            }
        }
    }

    // Takes a packet, and hands it to its receiver if it was sent here; the line's course goes on. Whether one was given.
    fn take_one<D: Disk, N: Wire>(
        &mut self,
        alloc: Global,
        disk: &mut D,
        wire: &mut N,
        now: u64,
        course: &mut Course,
    ) -> Result<bool, ClusterError>
        requires ready { IsReady D.Disk disk.old self.old }
        requires takes { self.old.takes < 2 ^ 63 - 1 }
        ensures hands { OnOk result
            (HandsOver D.Disk N.Wire course.old course.new
            (moment self.old disk.old wire.old) (moment self.new disk.new wire.new)) }
        ensures breaks { OnErr result
            (BreaksOff D.Disk N.Wire (moment self.old disk.old wire.old) (moment self.new disk.new wire.new)) }
        ensures sends { OnOk result (SendsSome (IsGiven N.Wire) wire.old wire.new self.old.post self.new.post) }
        ensures ready { OnOk result (IsReady D.Disk disk.new self.new) }
        ensures end { IsEndOf D.Disk disk.old disk.new result }
        ensures grows { OnOk result (GoesOn self.old self.new) }
        ensures takes { self.new.takes ≤ self.old.takes + 1 }
        ensures given { IfOk result (λ given. IsTrue given → self.new.takes ≡ self.old.takes + 1) }
        ensures drained { IfOk result (λ given. given ≡ false → IsDrained N.Wire wire.old wire.new) }
        ensures registry { self.new.registry ≡ self.old.registry }
        ensures waited { self.new.waited ≡ self.old.waited }
        ensures later { (D.faults disk.old ≤ D.faults disk.new) × (N.faults wire.old ≤ N.faults wire.new) }
    {
        let packet = match wire.take(alloc) {
            Ok(Some(packet)) => packet,
            Ok(None) => return Ok(false),
            Err(WireError::Failed) => return Ok(false),
            Err(WireError::Memory) => return Err(ClusterError::Memory),
        };
        self.takes += 1;
        match self.post.place_of(&packet) {
            Some(at) => {
                self.hand(alloc, disk, wire, at, now)?;
                *course = course.after(&self.post, at);
                Ok(true)
            }
            None => Ok(true),
        }
    }

    // Takes packets, until a take gives none or as many were taken as a line may take.
    fn take_all<D: Disk, N: Wire>(
        &mut self,
        alloc: Global,
        disk: &mut D,
        wire: &mut N,
        now: u64,
        course: &mut Course,
    ) -> Result<(), ClusterError>
        requires ready { IsReady D.Disk disk.old self.old }
        requires takes { self.old.takes < 2 ^ 63 - TAKES_A_LINE }
        ensures hands { OnOk result
            (HandsOver D.Disk N.Wire course.old course.new
            (moment self.old disk.old wire.old) (moment self.new disk.new wire.new)) }
        ensures breaks { OnErr result
            (BreaksOff D.Disk N.Wire (moment self.old disk.old wire.old) (moment self.new disk.new wire.new)) }
        ensures sends { OnOk result (SendsSome (IsGiven N.Wire) wire.old wire.new self.old.post self.new.post) }
        ensures ready { OnOk result (IsReady D.Disk disk.new self.new) }
        ensures end { IsEndOf D.Disk disk.old disk.new result }
        ensures grows { OnOk result (GoesOn self.old self.new) }
        ensures takes { self.new.takes ≤ self.old.takes + TAKES_A_LINE }
        ensures drains { OnOk result (Drains N.Wire wire.old wire.new self.old.takes self.new.takes) }
        ensures registry { self.new.registry ≡ self.old.registry }
        ensures waited { self.new.waited ≡ self.old.waited }
        ensures later { (D.faults disk.old ≤ D.faults disk.new) × (N.faults wire.old ≤ N.faults wire.new) }
    {
        for _ in 0..TAKES_A_LINE {
            if !self.take_one(alloc, disk, wire, now, course)? {
                return Ok(());
            }
        }
        Ok(())
    }

    // Takes packets, where the event of the line put one; a line that put none takes none.
    fn take_behind<D: Disk, N: Wire>(
        &mut self,
        alloc: Global,
        disk: &mut D,
        wire: &mut N,
        now: u64,
        puts: bool,
        course: &mut Course,
    ) -> Result<(), ClusterError>
        requires ready { IsReady D.Disk disk.old self.old }
        requires takes { self.old.takes < 2 ^ 63 - TAKES_A_LINE }
        ensures hands { OnOk result
            (HandsOver D.Disk N.Wire course.old course.new
            (moment self.old disk.old wire.old) (moment self.new disk.new wire.new)) }
        ensures quiet { puts ≡ false → self.new.takes ≡ self.old.takes }
        ensures drains { OnOk result (IsTrue puts → Drains N.Wire wire.old wire.new self.old.takes self.new.takes) }
        ensures breaks { OnErr result
            (BreaksOff D.Disk N.Wire (moment self.old disk.old wire.old) (moment self.new disk.new wire.new)) }
        ensures sends { OnOk result (SendsSome (IsGiven N.Wire) wire.old wire.new self.old.post self.new.post) }
        ensures ready { OnOk result (IsReady D.Disk disk.new self.new) }
        ensures end { IsEndOf D.Disk disk.old disk.new result }
        ensures grows { OnOk result (GoesOn self.old self.new) }
        ensures takes { self.new.takes ≤ self.old.takes + TAKES_A_LINE }
        ensures registry { self.new.registry ≡ self.old.registry }
        ensures waited { self.new.waited ≡ self.old.waited }
        ensures later { (D.faults disk.old ≤ D.faults disk.new) × (N.faults wire.old ≤ N.faults wire.new) }
    {
        if !puts {
            return Ok(());
        }
        self.take_all(alloc, disk, wire, now, course)
    }

    // Sends a request.
    fn request<N: Wire>(
        &mut self,
        alloc: Global,
        wire: &mut N,
        request: Request,
    ) -> Result<(), NoMemory>
        requires packets { ArePackets self.old.post }
        requires bounds { IsRequest request }
        ensures sends { OnOk result
            (Sends (Puts N.Wire) wire.old wire.new self.old.post self.new.post (asked_packet request ∷ [])) }
        ensures packets { OnOk result (ArePackets self.new.post) }
        ensures handed { IsTrue N.tells → N.handed wire.new ≡ N.handed wire.old }
        ensures later { N.faults wire.old ≤ N.faults wire.new }
        ensures same { SendsOnly self.old self.new }
    {
        self.post.send(alloc, wire, Message::Ask(request), 0)?;
        Ok(())
    }

    // A cell asks for the range with this number, or for its next. Nobody is asked for number 0.
    fn begin_range<D: Disk, N: Wire>(
        &mut self,
        alloc: Global,
        disk: &D,
        wire: &mut N,
        cell: u16,
        number: Option<u64>,
    ) -> Result<Begun, NoMemory>
        requires ready { IsReady D.Disk disk.now self.old }
        ensures acts { OnOk result ((now : ℕ) → Acts now (LineRange cell number) self.old self.new) }
        ensures begun { IfOk result (λ begun. (now : ℕ) → Begins now (LineRange cell number) self.old begun) }
        ensures puts { OnOk result
            (PutsFor (Puts N.Wire) (LineRange cell number) wire.old wire.new self.old.post self.new.post) }
        ensures ready { OnOk result (IsReady D.Disk disk.now self.new) }
        ensures agents { self.new.cells.items ≡ self.old.cells.items }
        ensures notes { OnOk result (NotesMore self.old self.new) }
        ensures unnoted { OnErr result (self.new.notes.items ≡ self.old.notes.items) }
        ensures handed { IsTrue N.tells → N.handed wire.new ≡ N.handed wire.old }
        ensures later { N.faults wire.old ≤ N.faults wire.new }
        ensures waits { OnOk result (self.new.waited ≡ self.old.waited) }
        ensures same { IsSameBeside self.old self.new }
    {
        let cells = self.cells.as_slice();
        let Some(place) = place_of(cells, cell) else {
            return Ok(Begun::Told(Answer::NoCell));
        };
        if is_zero(number) {
            return Ok(Begun::Told(Answer::Waiting { lease: None }));
        }
        let request = cells[place].ask_range(number);
        self.request(alloc, wire, request)?;
        Ok(Begun::RangeAsked)
    }

    // A cell asks for the change that a line wants. Where it has drawn the last attempt of its epoch, nothing is asked.
    fn begin_change<D: Disk, N: Wire>(
        &mut self,
        alloc: Global,
        disk: &D,
        wire: &mut N,
        cell: u16,
        line: &Line,
        now: u64,
    ) -> Result<Begun, ClusterError>
        requires ready { IsReady D.Disk disk.now self.old }
        requires cell { cell_of_change line.now ≡ Some cell }
        ensures acts { OnOk result (Acts now line.now self.old self.new) }
        ensures begun { IfOk result (Begins now line.now self.old) }
        ensures puts { OnOk result (PutsFor (Puts N.Wire) line.now wire.old wire.new self.old.post self.new.post) }
        ensures ready { OnOk result (IsReady D.Disk disk.now self.new) }
        ensures end { IfErr result (λ e. e ≡ ClusterError.Memory) }
        ensures notes { OnOk result (NotesMore self.old self.new) }
        ensures unnoted { OnErr result (self.new.notes.items ≡ self.old.notes.items) }
        ensures handed { IsTrue N.tells → N.handed wire.new ≡ N.handed wire.old }
        ensures later { N.faults wire.old ≤ N.faults wire.new }
        ensures waits { OnOk result (self.new.waited ≡ self.old.waited) }
        ensures same { IsSameBeside self.old self.new }
    {
        let cells = self.cells.as_slice();
        let Some(place) = place_of(cells, cell) else {
            return Ok(Begun::Told(Answer::NoCell));
        };
        if cells[place].drawn() >= GREATEST_ATTEMPT {
            return Ok(Begun::Told(Answer::Waiting { lease: None }));
        }
        let Some(change) = change_wanted(alloc, line, cells[place].store().tree())? else {
            return Ok(Begun::Told(Answer::NoRule));
        };
        match self.cells[place].ask_change(alloc, change, now) {
            Ok(request) => {
                let begun = Begun::by(&request);
                self.request(alloc, wire, request)?;
                Ok(begun)
            }
            Err(rule) => Ok(refused(rule)?),
        }
    }

    // A cell begins a reconciliation: its attempts that are due end, and what it asks is sent.
    fn begin_reconcile<D: Disk, N: Wire>(
        &mut self,
        alloc: Global,
        disk: &D,
        wire: &mut N,
        cell: u16,
        now: u64,
    ) -> Result<Begun, NoMemory>
        requires ready { IsReady D.Disk disk.now self.old }
        ensures acts { OnOk result (Acts now (Reconcile cell) self.old self.new) }
        ensures begun { IfOk result (Begins now (Reconcile cell) self.old) }
        ensures puts { OnOk result
            (PutsFor (Puts N.Wire) (Reconcile cell) wire.old wire.new self.old.post self.new.post) }
        ensures ready { OnOk result (IsReady D.Disk disk.now self.new) }
        ensures notes { OnOk result (NotesMore self.old self.new) }
        ensures unnoted { OnErr result (self.new.notes.items ≡ self.old.notes.items) }
        ensures handed { IsTrue N.tells → N.handed wire.new ≡ N.handed wire.old }
        ensures later { N.faults wire.old ≤ N.faults wire.new }
        ensures waits { OnOk result (self.new.waited ≡ self.old.waited) }
        ensures same { IsSameBeside self.old self.new }
    {
        let Some(place) = place_of(self.cells.as_slice(), cell) else {
            return Ok(Begun::Told(Answer::NoCell));
        };
        let agent = &mut self.cells[place];
        let requests = agent.ask_reconcile(alloc)?;
        self.notes.reserve(agent.pending() as usize)?;
        self.post.send_requests(alloc, wire, requests.into_vec())?;
        end_due(agent, &mut self.notes, now);
        Ok(Begun::Reconciles)
    }

    // Arms a loss, puts a packet again, or lets the clock go on, where a line says so; another line does nothing of itself.
    fn begin_on_wire<N: Wire>(
        &mut self,
        alloc: Global,
        wire: &mut N,
        line: &Line,
    ) -> Result<Begun, NoMemory>
        requires packets { ArePackets self.old.post }
        ensures same { IsSameButWire self.old self.new }
        ensures begun { IfOk result (λ begun. begun ≡ begun_on_wire (length (packets_of self.old.post)) line.now) }
        ensures puts { OnOk result (PutsFor (Puts N.Wire) line.now wire.old wire.new self.old.post self.new.post) }
        ensures waits { OnOk result (self.new.waited ≡ waited_by line.now self.old.waited) }
        ensures handed { IsTrue N.tells → N.handed wire.new ≡ N.handed wire.old }
        ensures later { N.faults wire.old ≤ N.faults wire.new }
    {
        match line {
            Line::Lose { number } => {
                self.post.lose(*number)?;
                Ok(Begun::Told(Answer::Armed))
            }
            Line::Repeat { tag } => self.begin_repeat(alloc, wire, *tag),
            Line::Wait { seconds } => {
                self.waited = self.waited.saturating_add(*seconds);
                Ok(Begun::Told(Answer::Waited))
            }
            _ => Ok(Begun::Told(Answer::NoRule)),
        }
    }

    // The packet with this tag is put again, if one has it.
    fn begin_repeat<N: Wire>(
        &mut self,
        alloc: Global,
        wire: &mut N,
        tag: u64,
    ) -> Result<Begun, NoMemory>
        requires packets { ArePackets self.old.post }
        ensures same { IsSameButWire self.old self.new }
        ensures begun { IfOk result (λ begun. begun ≡ begun_repeat tag (length (packets_of self.old.post))) }
        ensures puts { OnOk result (PutsFor (Puts N.Wire) (Repeat tag) wire.old wire.new self.old.post self.new.post) }
        ensures waits { self.new.waited ≡ self.old.waited }
        ensures handed { IsTrue N.tells → N.handed wire.new ≡ N.handed wire.old }
        ensures later { N.faults wire.old ≤ N.faults wire.new }
    {
        if !is_tag(tag, self.post.sent().len() as u64) {
            return Ok(Begun::Told(Answer::NoPacket));
        }
        self.post.repeat(alloc, wire, (tag - 1) as usize)?;
        Ok(Begun::Told(Answer::Repeated { tag }))
    }

    // The event of a line itself.
    fn begin<D: Disk, N: Wire>(
        &mut self,
        alloc: Global,
        disk: &D,
        wire: &mut N,
        line: &Line,
        now: u64,
    ) -> Result<Begun, ClusterError>
        requires ready { IsReady D.Disk disk.now self.old }
        ensures acts { OnOk result (Acts now line.now self.old self.new) }
        ensures begun { IfOk result (Begins now line.now self.old) }
        ensures puts { OnOk result (PutsFor (Puts N.Wire) line.now wire.old wire.new self.old.post self.new.post) }
        ensures ready { OnOk result (IsReady D.Disk disk.now self.new) }
        ensures end { IfErr result (λ e. e ≡ ClusterError.Memory) }
        ensures notes { OnOk result (NotesMore self.old self.new) }
        ensures unnoted { OnErr result (self.new.notes.items ≡ self.old.notes.items) }
        ensures handed { IsTrue N.tells → N.handed wire.new ≡ N.handed wire.old }
        ensures later { N.faults wire.old ≤ N.faults wire.new }
        ensures waits { OnOk result (self.new.waited ≡ waited_by line.now self.old.waited) }
        ensures same { IsSameBeside self.old self.new }
    {
        if let Some(cell) = cell_of_change(line) {
            return self.begin_change(alloc, disk, wire, cell, line, now);
        }
        match line {
            Line::Range { cell, number } => {
                Ok(self.begin_range(alloc, disk, wire, *cell, *number)?)
            }
            Line::Reconcile { cell } => Ok(self.begin_reconcile(alloc, disk, wire, *cell, now)?),
            _ => Ok(self.begin_on_wire(alloc, wire, line)?),
        }
    }

    // The moment of a line, by this one of the clock.
    fn moment(&self, now: u64) -> u64
        ensures { result ≡ moment_of self.now now }
    {
        now.saturating_add(self.waited)
    }

    /// The transitions, in order.
    pub fn trace(&self) -> &[Transition]
        ensures { result.now ≡ self.now.trace.items }
    {
        self.trace.as_slice()
    }

    /// The notes, in order.
    pub fn notes(&self) -> &[Note]
        ensures { result.now ≡ self.now.notes.items }
    {
        self.notes.as_slice()
    }

    /// How many packets were handed over since the opening.
    pub fn takes(&self) -> u64
        ensures { result ≡ self.now.takes }
    {
        self.takes
    }

    /// How many leases are open.
    pub fn open_leases(&self) -> u64
        ensures { result ≡ map.len (kept self.now.service.state).leases.open_leases }
    {
        self.service.leases().open_number()
    }

    /// How many rows are outstanding, over all cells, as far as the count goes.
    pub fn outstanding(&self) -> u64
        ensures { result ≡ min (outstanding_of self.now.cells.items) GREATEST_NUMBER }
    {
        let mut rows = 0u64;
        for agent in self.cells.as_slice() {
            rows = rows.saturating_add(agent.store().rows().len() as u64);
        }
        rows
    }

    /// Opens the service's file, and then those of the cells in the order of the configuration. A file whose opening failed is
    /// tried once more.
    ///
    /// Errors: [`ClusterError::DiskFailed`] where it failed again; [`ClusterError::Damaged`] with what a file shows;
    /// [`ClusterError::Memory`].
    pub fn open<D: Disk>(
        alloc: Global,
        disk: &mut D,
        registry: Registry,
    ) -> Result<Cluster, ClusterError>
        ensures registry { IfOk result (λ c. c.registry ≡ registry) }
        ensures opens { IsTrue D.tells → IfOk result (Opens D.Disk registry disk.old disk.new) }
        ensures service { IfOk result (λ c. IsServiceFrom D.Disk disk.old c.service) }
        ensures cells { IfOk result (λ c. AreOpenedFrom D.Disk disk.old disk.new c.cells.items) }
        ensures knows { IsTrue D.tells → OnOk result (KnowsAll registry (D.seen disk.new)) }
        ensures ready { IfOk result (IsReady D.Disk disk.new) }
        ensures new { IfOk result IsNew }
        ensures end { IsOpenEnd D.Disk registry disk.old disk.new result }
        ensures twice { IfErr result (FailsTwice D.Disk disk.old disk.new) }
        ensures keeps { KeepsFiles D.Disk registry disk.old disk.new }
        ensures later { D.faults disk.old ≤ D.faults disk.new }
    {
        let configured = registry.cells();
        let service = open_service(alloc, disk, &registry)?;
        let cells = open_agents(alloc, disk, configured, registry.threshold())?;
        Ok(Cluster {
            registry,
            service,
            cells,
            post: Post::new(alloc),
            trace: Vec::new(alloc),
            notes: Vec::new(alloc),
            takes: 0,
            waited: 0,
        })
    }

    /// Does a line of a script at this moment of the clock, in seconds: the line's own event first, and then, where this put a
    /// packet, it takes packets and hands them over, until a take gives none or fails, or as many were taken as a line may
    /// take. The answer is the one that these events bring. Over a wire that tells, and whose count stood still, `waiting` comes
    /// only where as many packets were taken, where a put was lost, or where the line's own event came to it.
    ///
    /// Errors: [`ClusterError::DiskFailed`] where calls of the disk on this file failed; [`ClusterError::Memory`]. The cluster
    /// is not used again then; its trace and notes are those of some first events of the line, and the files stand for the
    /// world behind these, or, only where the disk's count of faults rose, behind one more.
    pub fn line<D: Disk, N: Wire>(
        &mut self,
        alloc: Global,
        disk: &mut D,
        wire: &mut N,
        now: u64,
        line: &Line,
    ) -> Result<Answer, ClusterError>
        requires ready { IsReady D.Disk disk.old self.old }
        requires takes { self.old.takes < MOST_TAKES }
        requires built { IsBuilt line.now }
        ensures follows { IfOk result (λ answer. Follows D.Disk N.Wire now line.now answer
            (moment self.old disk.old wire.old) (moment self.new disk.new wire.new)) }
        ensures breaks { OnErr result (BreaksLine D.Disk N.Wire now line.now
            (moment self.old disk.old wire.old) (moment self.new disk.new wire.new)) }
        ensures puts { OnOk result (PutsFor (IsGiven N.Wire) line.now wire.old wire.new self.old.post self.new.post) }
        ensures ready { OnOk result (IsReady D.Disk disk.new self.new) }
        ensures registry { self.new.registry ≡ self.old.registry }
        ensures waits { OnOk result (self.new.waited ≡ waited_by line.now self.old.waited) }
        ensures takes { OnOk result (self.new.takes ≤ self.old.takes + TAKES_A_LINE) }
        ensures grows { OnOk result (GoesOn self.old self.new) }
        ensures end { IsEndOf D.Disk disk.old disk.new result }
        ensures later { (D.faults disk.old ≤ D.faults disk.new) × (N.faults wire.old ≤ N.faults wire.new) }
    {
        let now = self.moment(now);
        let steps = self.trace.len();
        let notes = self.notes.len();
        let begun = self.begin(alloc, disk, wire, line, now)?;
        let mut course = begun.course(self.post.sent().len() as u64);
        self.take_behind(alloc, disk, wire, now, begun.puts(), &mut course)?;
        Ok(begun.answer(
            alloc,
            behind(self.trace.as_slice(), steps),
            behind(self.notes.as_slice(), notes),
            course.reply(&self.post),
        )?)
    }
}
