//! The command `replay`: requests as lines of JSON, answered by a service in memory.
ghost use Rattle.std.specs.Prelude.{◌≡◌, ◌≢◌, ◌+◌, ◌≤◌, ◌<◌, ◌++◌, [], ◌∷◌, ℕ, List, None, Some, IsTrue, true, IfOk, OnOk, OnErr, IsErrOf, Ok, Err, length};
ghost use Rattle.cells_edge.specs.Streams.{WritesAll, WritesFront, SinkFails, SourceFails};
ghost use Rattle.claim_types.specs.MessageBounds.{IsRequest};
ghost use Rattle.message_json.specs.RequestReader.{request_of};
ghost use Rattle.claim_map.specs.State.{leases_of};
ghost use Rattle.cells_cli.specs.Service.{map_of, KeepsBounds};
ghost use Rattle.cells_cli.specs.Replay.{answer_to, map_after, line_answer, after_line};
ghost use Rattle.cells_cli.specs.Answering.{answer_of, AnswersLines, EndsAt};
ghost use Rattle.cells_cli.specs.declared.replay.Stop.TheVariants.{Memory, WriteFault};

use crate::lines::{LINES, LineFault, LineReader};
use crate::{Service, Status};
use cells_base::{NoMemory, Text};
use cells_edge::{Sink, SinkFailed, Source, write_all};
use claim_types::{BODY, Request};
use message_json::{BodyFault, read_request, write_fault, write_reply};
use std::alloc::{AllocFailed, Global};

/// Why a replay ended before the end of its input.
#[derive(Clone, Copy, Debug, PartialEq, Eq)]
pub enum Stop {
    /// The input is refused at this line, from 1.
    Script { line: u64 },
    ReadFault,
    WriteFault,
    Memory,
}

impl From<NoMemory> for Stop {
    ghost from_gives = { λ _ s. s ≡ Memory };

    fn from(_: NoMemory) -> Self {
        Stop::Memory
    }
}

impl<T: Drop> From<AllocFailed<T>> for Stop {
    ghost from_gives = { λ _ s. s ≡ Memory };

    fn from(_: AllocFailed<T>) -> Self {
        Stop::Memory
    }
}

impl From<SinkFailed> for Stop {
    ghost from_gives = { λ _ s. s ≡ WriteFault };

    fn from(_: SinkFailed) -> Self {
        Stop::WriteFault
    }
}

impl From<LineFault> for Stop {
    ghost use Rattle.cells_cli.specs.Stop.{stop_of};

    ghost from_gives = { λ e s. s ≡ stop_of e };

    fn from(fault: LineFault) -> Self {
        match fault {
            LineFault::TooLong { line } => Stop::Script { line },
            LineFault::TooMany => Stop::Script { line: LINES + 1 },
            LineFault::Read => Stop::ReadFault,
        }
    }
}

fn reply_body(alloc: Global, service: &mut Service, request: Request) -> Result<Text, NoMemory>
    requires map { KeepsBounds service.old }
    requires bounds { IsRequest request }
    ensures body { IfOk result (λ body. body ≡ answer_to service.old.registry (map_of service.old) (Ok request)) }
    ensures map { OnOk result (map_of service.new ≡ map_after service.old.registry (map_of service.old) (Ok request)) }
    ensures bounds { OnOk result (KeepsBounds service.new) }
    ensures registry { service.new.registry ≡ service.old.registry }
{
    let reply = service.answer(alloc, &request)?;
    let body = write_reply(alloc, &reply)?;
    Ok(body)
}

// The body that answers a line.
fn answer_body(alloc: Global, service: &mut Service, line: &[u8]) -> Result<Text, NoMemory>
    requires { KeepsBounds service.old }
    ensures body { IfOk result (λ body. body ≡
        answer_to service.old.registry (map_of service.old) (request_of line.now)) }
    ensures map { OnOk result (map_of service.new ≡
        map_after service.old.registry (map_of service.old) (request_of line.now)) }
    ensures bounds { OnOk result (KeepsBounds service.new) }
    ensures registry { service.new.registry ≡ service.old.registry }
{
    match read_request(alloc, line) {
        Ok(request) => reply_body(alloc, service, request),
        Err(BodyFault::Memory) => Err(NoMemory),
        Err(fault) => write_fault(alloc, fault),
    }
}

// What is written for a line: nothing for an empty one, and else the body and LF.
fn line_body(alloc: Global, service: &mut Service, line: &[u8]) -> Result<Vec<u8>, NoMemory>
    requires { KeepsBounds service.old }
    ensures body { IfOk result (λ body. body.items ≡ line_answer service.old.registry (map_of service.old) line.now) }
    ensures map { OnOk result (map_of service.new ≡ after_line service.old.registry (map_of service.old) line.now) }
    ensures bounds { OnOk result (KeepsBounds service.new) }
    ensures registry { service.new.registry ≡ service.old.registry }
{
    if line.is_empty() {
        return Ok(Vec::new(alloc));
    }
    let mut body = answer_body(alloc, service, line)?.into_vec();
    body.push(b'\n')?;
    Ok(body)
}

// Answers a line.
fn answer_line<W: Sink>(
    alloc: Global,
    service: &mut Service,
    line: &[u8],
    out: &mut W,
) -> Result<(), Stop>
    requires { KeepsBounds service.old }
    ensures told { OnOk result (WritesAll W.Sink out.old out.new (answer_of service.old line.now)) }
    ensures map { OnOk result (map_of service.new ≡ after_line service.old.registry (map_of service.old) line.now) }
    ensures bounds { OnOk result (KeepsBounds service.new) }
    ensures registry { service.new.registry ≡ service.old.registry }
    ensures nothing { result ≡ Err Stop.Memory → WritesAll W.Sink out.old out.new [] }
    ensures part { result ≡ Err Stop.WriteFault → WritesFront W.Sink out.old out.new (answer_of service.old line.now) }
    ensures cause { result ≡ Err Stop.WriteFault → SinkFails W.Sink out.old out.new }
    ensures later { W.faults out.old ≤ W.faults out.new }
    ensures others { (result ≢ Err Stop.ReadFault) × ((k : ℕ) → result ≢ Err (Stop.Script k)) }
{
    let body = line_body(alloc, service, line)?;
    write_all(out, &body)?;
    Ok(())
}

// Answers each line of the script in turn.
fn answer_lines<S: Source, W: Sink>(
    alloc: Global,
    service: &mut Service,
    reader: &mut LineReader,
    script: &mut S,
    out: &mut W,
) -> Result<(), Stop>
    requires bounds { KeepsBounds service.old }
    requires fresh { (reader.old.given ≡ 0) × (reader.old.pending ≡ []) × (reader.old.limit ≡ BODY) }
    ensures told { AnswersLines S.Source W.Sink service.old script.old out.old out.new result }
    ensures lines { IsTrue S.tells → EndsAt (S.left script.old) (S.left script.new) result }
    ensures read { result ≡ Err Stop.ReadFault → SourceFails S.Source script.old script.new }
    ensures write { result ≡ Err Stop.WriteFault → SinkFails W.Sink out.old out.new }
    ensures later { W.faults out.old ≤ W.faults out.new }
{
    while reader.next(script)? {
        answer_line(alloc, service, reader.line(), out)?;
    }
    Ok(())
}

/// Answers the lines of the script, and says why it ended before the script's end, if it did.
pub fn replay<S: Source, W: Sink>(
    alloc: Global,
    service: &mut Service,
    script: &mut S,
    out: &mut W,
) -> Result<(), Stop>
    requires { KeepsBounds service.old }
    ensures told { AnswersLines S.Source W.Sink service.old script.old out.old out.new result }
    ensures lines { IsTrue S.tells → EndsAt (S.left script.old) (S.left script.new) result }
    ensures read { result ≡ Err Stop.ReadFault → SourceFails S.Source script.old script.new }
    ensures write { result ≡ Err Stop.WriteFault → SinkFails W.Sink out.old out.new }
    ensures later { W.faults out.old ≤ W.faults out.new }
{
    let mut reader = LineReader::new(alloc, BODY as usize)?;
    answer_lines(alloc, service, &mut reader, script, out)
}
