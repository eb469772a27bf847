//! A cell hears a reply.
ghost use Rattle.std.specs.Prelude.{◌≡◌, ℕ, IsTrue, IfOk, OnOk, IsErrOf};
ghost use Rattle.std.specs.Option.{option_map};
ghost use Rattle.std.specs.FinMap as map;
ghost use Rattle.claim_types.specs.MessageBounds.{IsReply};
ghost use Rattle.disk_journal.specs.Effects.{FailedAt};
ghost use Rattle.disk_journal.specs.Entries.{TouchesOnly};
ghost use Rattle.cell_store.specs.Store.{stored};
ghost use Rattle.reconciler.specs.Agent.{kept_by, heard_by, IsReady, IsSameAgent, Writes, WritesAtMost};
ghost use Rattle.cells_world.specs.Hearing.{change_waiting, step_recorded};
ghost use Rattle.cells_world.specs.declared.fault.ClusterError.TheVariants.{DiskFailed, Damaged};

use crate::fault::{ClusterError, Damage};
use cell_store::copy_of_change;
use cells_base::NoMemory;
use claim_types::{BegunResult, Change, Ended, LeaseId, Reply, Step};
use disk_journal::Disk;
use reconciler::{AgentFault, CellAgent, Requests};
use std::alloc::Global;

/// What came of a reply: the step that the claim map took, the attempt that ended without a record, and what is to be sent.
#[derive(Drop)]
pub struct Told {
    pub step: Option<Step>,
    pub ended: Option<Ended>,
    pub to_send: Requests,
}

// The change whose attempt a reply ends well, if it waits.
fn change_waiting(
    alloc: Global,
    agent: &CellAgent,
    reply: &Reply,
) -> Result<Option<Change>, NoMemory>
    ensures { IfOk result (λ change. change ≡ change_waiting (kept_by agent.now) reply.now) }
{
    let Reply::Begun {
        lease,
        result: BegunResult::Good,
    } = reply
    else {
        return Ok(None);
    };
    match agent.attempt(*lease) {
        Some(attempt) => Ok(Some(copy_of_change(alloc, &attempt.change)?)),
        None => Ok(None),
    }
}

// The step of a change that was recorded.
fn step_recorded(recorded: Option<LeaseId>, change: Option<Change>) -> Option<Step>
    ensures { result ≡ step_recorded recorded change }
{
    match recorded {
        Some(lease) => match change {
            Some(change) => Some(Step::Recorded { lease, change }),
            None => None,
        },
        None => None,
    }
}

/// Has a cell hear a reply, and tells the step that this was. Whatever memory the step needs is taken
/// before the call; where memory is wanting the disk was not called.
pub fn hear<D: Disk>(
    alloc: Global,
    disk: &mut D,
    agent: &mut CellAgent,
    reply: &Reply,
    now: u64,
) -> Result<Told, ClusterError>
    requires ready { IsReady D.Disk disk.old agent.old }
    requires bounds { IsReply reply.now }
    ensures step { IfOk result (λ told. told.step ≡ (heard_by agent.old reply.now).step) }
    ensures ended { IfOk result (λ told. told.ended ≡ (heard_by agent.old reply.now).ended) }
    ensures sends { IfOk result (λ told. told.to_send ≡ (heard_by agent.old reply.now).sends) }
    ensures tree { OnOk result ((stored agent.new.store).tree ≡ (heard_by agent.old reply.now).tree) }
    ensures agent { OnOk result (kept_by agent.new ≡ (heard_by agent.old reply.now).agent) }
    ensures ready { OnOk result (IsReady D.Disk disk.new agent.new) }
    ensures written { OnOk result (Writes D.Disk disk.old disk.new agent.old agent.new (heard_by agent.old reply.now)) }
    ensures any_moment { WritesAtMost D.Disk disk.old disk.new agent.old (heard_by agent.old reply.now) }
    ensures others { TouchesOnly D.Disk agent.old.store.cell disk.old disk.new }
    ensures same { IsSameAgent agent.old agent.new }
    ensures failed { (file : ℕ) → IsErrOf result (ClusterError.DiskFailed file) →
        (file ≡ agent.old.store.cell) × FailedAt D.Disk agent.old.store.cell disk.old disk.new }
    ensures memory { IsErrOf result ClusterError.Memory → disk.new ≡ disk.old }
    ensures whole { (file : ℕ) (fault : Damage) → IsErrOf result (ClusterError.Damaged file fault) → ⊥ }
{
    let change = change_waiting(alloc, agent, reply)?;
    let file = agent.store().cell();
    match agent.receive(alloc, disk, reply, now) {
        Ok(outcome) => Ok(Told {
            step: step_recorded(outcome.recorded, change),
            ended: outcome.ended,
            to_send: outcome.to_send,
        }),
        Err(AgentFault::Failed) => Err(ClusterError::DiskFailed { file }),
        Err(AgentFault::Memory) => Err(ClusterError::Memory),
    }
}
