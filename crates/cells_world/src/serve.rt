//! The service answers a request.
ghost use Rattle.std.specs.Prelude.{◌≡◌, ℕ, false, true, IsTrue, IfOk, OnOk, OnErr, IsErrOf};
ghost use Rattle.claim_types.specs.MessageBounds.{IsRequest};
ghost use Rattle.claim_map.specs.Bounds.{AreCells};
ghost use Rattle.claim_map.specs.Entries.{entry_of};
ghost use Rattle.claim_service.specs.Node.{Writes, WritesAtMost};
ghost use Rattle.claim_service.specs.State.{kept, kept_after, owed};
ghost use Rattle.claim_service.specs.declared.limits.TheConstants.{SERVICE_FILE};
ghost use Rattle.disk_journal.specs.Effects.{FailedAt};
ghost use Rattle.disk_journal.specs.Entries.{TouchesOnly};
ghost use Rattle.cells_world.specs.Serving.{step_asked, step_unwritten, step_told, IsServing, WritesNothing};
ghost use Rattle.cells_world.specs.declared.fault.ClusterError.TheVariants.{DiskFailed, Damaged};

use crate::fault::{ClusterError, Damage};
use cell_registry::Registry;
use cells_base::{Copied, NoMemory};
use claim_service::{NodeError, SERVICE_FILE, TopologyNode, copy_of_question};
use claim_types::{BegunResult, Range, RangedResult, Reply, Request, Step};
use disk_journal::Disk;
use reconciler::copy_of_denial;
use std::alloc::Global;

/// What came of a request: the reply, and the step that the claim map took.
#[derive(Drop)]
pub struct Served {
    pub reply: Reply,
    pub step: Option<Step>,
}

impl From<NodeError> for ClusterError {
    ghost use Rattle.cells_world.specs.Faults.{fault_of_service};

    ghost from_gives = { λ fault e. e ≡ fault_of_service fault };

    fn from(fault: NodeError) -> Self {
        match fault {
            NodeError::Failed => ClusterError::DiskFailed { file: SERVICE_FILE },
            NodeError::Memory => ClusterError::Memory,
        }
    }
}

// The step that a request asks for.
fn step_asked(alloc: Global, request: &Request) -> Result<Option<Step>, NoMemory>
    ensures { IfOk result (λ step. step ≡ step_asked request.now) }
{
    Ok(match request {
        Request::Begin { lease, ops } => Some(Step::Leased {
            lease: *lease,
            ops: ops.copy(alloc)?,
        }),
        Request::Commit { lease } => Some(Step::Committed { lease: *lease }),
        Request::Rollback { lease } => Some(Step::RolledBack { lease: *lease }),
        Request::List { .. }
        | Request::Range { .. }
        | Request::Claims { .. }
        | Request::Classify { .. }
        | Request::Page { .. } => None,
    })
}

// The step of a reply for which no entry was written.
fn step_unwritten(alloc: Global, reply: &Reply) -> Result<Option<Step>, NoMemory>
    ensures { IfOk result (λ step. step ≡ step_unwritten reply.now) }
{
    match reply {
        Reply::Begun {
            lease,
            result: BegunResult::Denied(denial),
        } => {
            let denial = copy_of_denial(alloc, denial)?;
            Ok(Some(Step::Denied {
                lease: *lease,
                denial,
            }))
        }
        Reply::Classified { question, class } => {
            let question = copy_of_question(alloc, question)?;
            Ok(Some(Step::Answered {
                question,
                class: *class,
            }))
        }
        _ => Ok(None),
    }
}

// The step of a reply for which an entry was written. It takes no memory.
fn step_written(asked: Option<Step>, reply: &Reply) -> Option<Step>
    ensures { result ≡ step_told asked true reply.now }
{
    match reply {
        Reply::Ranged {
            cell,
            number,
            result: RangedResult::Good { low, high },
        } => Some(Step::Ranged {
            range: Range {
                cell: *cell,
                number: *number,
                low: *low,
                high: *high,
            },
        }),
        _ => asked,
    }
}

// The step that a reply tells. It takes no memory where an entry was written.
fn step_told(
    alloc: Global,
    asked: Option<Step>,
    fresh: bool,
    reply: &Reply,
) -> Result<Option<Step>, NoMemory>
    ensures step { IfOk result (λ step. step ≡ step_told asked fresh reply.now) }
    ensures unwritten { OnErr result (fresh ≡ false) }
{
    if fresh {
        return Ok(step_written(asked, reply));
    }
    step_unwritten(alloc, reply)
}

/// Has the service answer a request, and tells the step that this was. Whatever memory a step that is written down needs is
/// taken before the call; where memory is wanting nothing was written.
pub fn serve<D: Disk>(
    alloc: Global,
    disk: &mut D,
    service: &mut TopologyNode,
    registry: &Registry,
    request: &Request,
) -> Result<Served, ClusterError>
    requires cells { AreCells registry.now }
    requires serving { IsServing D.Disk disk.old service.old }
    requires bounds { IsRequest request.now }
    ensures reply { IfOk result (λ served. served.reply
        ≡ (owed registry.now (kept service.old.state) request.now).reply) }
    ensures step { IfOk result (λ served. served.step ≡ (owed registry.now (kept service.old.state) request.now).step) }
    ensures keeps { OnOk result (kept service.new.state
        ≡ kept_after (kept service.old.state) (owed registry.now (kept service.old.state) request.now)) }
    ensures serving { OnOk result (IsServing D.Disk disk.new service.new) }
    ensures written { OnOk result (Writes D.Disk disk.old disk.new service.old service.new
        (owed registry.now (kept service.old.state) request.now)) }
    ensures any_moment { WritesAtMost D.Disk disk.old disk.new service.old
        (owed registry.now (kept service.old.state) request.now) }
    ensures others { TouchesOnly D.Disk SERVICE_FILE disk.old disk.new }
    ensures failed { (file : ℕ) → IsErrOf result (ClusterError.DiskFailed file) →
        (file ≡ SERVICE_FILE) × FailedAt D.Disk SERVICE_FILE disk.old disk.new }
    ensures memory { IsErrOf result ClusterError.Memory → WritesNothing D.Disk disk.old disk.new service.old }
    ensures whole { (file : ℕ) (fault : Damage) → IsErrOf result (ClusterError.Damaged file fault) → ⊥ }
{
    let asked = step_asked(alloc, request)?;
    let handled = service.handle(alloc, disk, registry, request)?;
    let step = step_told(alloc, asked, handled.fresh, &handled.reply)?;
    Ok(Served {
        reply: handled.reply,
        step,
    })
}
