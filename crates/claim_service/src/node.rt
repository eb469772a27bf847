//! The service over its journal.
ghost use Rattle.std.specs.Prelude.{◌≡◌, ◌↔◌, IsTrue, IfOk, IfErr, OnOk, IsErrOf};
ghost use Rattle.claim_types.specs.MessageBounds.{IsRequest};
ghost use Rattle.claim_map.specs.Bounds.{AreCells};
ghost use Rattle.claim_map.specs.Entries.{entry_of};
ghost use Rattle.disk_journal.specs.Entries.{Stands, TouchesOnly, FailsAt, Untouched};
ghost use Rattle.disk_journal.specs.Effects.{FailedAt, IsOpening, IsTrimmed};
ghost use Rattle.disk_journal.specs.Moments.{LeavesOnly};
ghost use Rattle.claim_service.specs.Opening.{IsOpenFault, KnowsAll};
ghost use Rattle.claim_service.specs.declared.opening.ServiceOpenFault.TheVariants.{Failed as OpenFailed};
ghost use Rattle.claim_service.specs.State.{kept, owed, HasEffect};
ghost use Rattle.claim_service.specs.Node.{service, IsNode, IsHandled, Rests, Writes, WritesAtMost, LeavesInDoubt};
ghost use Rattle.claim_service.specs.declared.node.NodeError.TheVariants.{Failed, Memory};

use crate::limits::SERVICE_FILE;
use crate::opening::replay;
use crate::{ServiceOpenFault, ServiceState};
use cell_registry::{Ranges, Registry};
use claim_types::{NoMemory, Reply, Request};
use disk_journal::{Disk, DiskFailed, Journal};
use lease_core::Leases;
use std::alloc::Global;

/// The service over its journal, in file [`SERVICE_FILE`] of its disk. The form of its entries is stated in
/// docs/FORMATS.md.
#[derive(Drop)]
pub struct TopologyNode {
    journal: Journal,
    state: ServiceState,
}

/// A reply, and whether an entry was appended for it.
#[derive(Debug, Drop)]
pub struct Handled {
    pub reply: Reply,
    pub fresh: bool,
}

/// Why a request got no reply.
#[derive(Clone, Copy, Debug, PartialEq, Eq)]
pub enum NodeError {
    /// A call of the disk failed. The node is to be opened again.
    Failed,
    /// Want of memory. Nothing changed.
    Memory,
}

impl From<NoMemory> for NodeError {
    ghost from_gives = { λ _ e. e ≡ Memory };

    fn from(_: NoMemory) -> Self {
        NodeError::Memory
    }
}

impl From<DiskFailed> for NodeError {
    ghost from_gives = { λ _ e. e ≡ Failed };

    fn from(_: DiskFailed) -> Self {
        NodeError::Failed
    }
}

impl TopologyNode {
    /// Opens the service's file: what its entries stand for, each in its turn, is what the node keeps.
    pub fn open<D: Disk>(
        alloc: Global,
        disk: &mut D,
        registry: &Registry,
    ) -> Result<Self, ServiceOpenFault>
        ensures stands { IsTrue D.tells →
            IfOk result (λ node. Stands service (D.seen disk.old) SERVICE_FILE (kept node.state)) }
        ensures knows { IsTrue D.tells → OnOk result (KnowsAll registry.now (D.seen disk.old)) }
        ensures at_rest { IfOk result (Rests D.Disk disk.new) }
        ensures live { IfOk result (λ node. IsTrue node.journal.live) }
        ensures node { IfOk result IsNode }
        ensures refused { IsTrue D.tells → IfErr result (IsOpenFault registry.now (D.seen disk.old)) }
        ensures reads { IsTrue D.tells → IsTrimmed SERVICE_FILE (D.seen disk.old) (D.seen disk.new) }
        ensures any_moment { LeavesOnly D.Disk disk.old disk.new (IsOpening D.Disk disk.old SERVICE_FILE) }
        ensures others { TouchesOnly D.Disk SERVICE_FILE disk.old disk.new }
        ensures failed { IsErrOf result ServiceOpenFault.Failed → FailedAt D.Disk SERVICE_FILE disk.old disk.new }
    {
        let opened = Journal::open(alloc, disk, SERVICE_FILE)?;
        let replayed = replay(alloc, registry, opened.bodies.as_slice())?;
        match replayed.lacking {
            Some(cell) => Err(ServiceOpenFault::ConfigLacks { cell }),
            None => Ok(TopologyNode {
                journal: opened.journal,
                state: replayed.state,
            }),
        }
    }

    /// Answers a request by what is due to it. The entry, if there is one, is on the disk before the answer.
    ///
    /// Errors: [`NodeError::Failed`] where a call of the disk failed, after which it is opened again;
    /// [`NodeError::Memory`] where memory was wanted, and then nothing changed.
    pub fn handle<D: Disk>(
        &mut self,
        alloc: Global,
        disk: &mut D,
        registry: &Registry,
        request: &Request,
    ) -> Result<Handled, NodeError>
        requires node { IsNode self.old }
        requires cells { AreCells registry.now }
        requires bounds { IsRequest request.now }
        requires live { IsTrue self.old.journal.live }
        requires at_rest { Rests D.Disk disk.old self.old }
        ensures ok { IfOk result (IsHandled (owed registry.now (kept self.old.state) request.now) self.old self.new) }
        ensures live { OnOk result (IsTrue self.new.journal.live) }
        ensures node { IsNode self.new }
        ensures written { OnOk result
            (Writes D.Disk disk.old disk.new self.old self.new
            (owed registry.now (kept self.old.state) request.now)) }
        ensures any_moment { WritesAtMost D.Disk disk.old disk.new self.old
            (owed registry.now (kept self.old.state) request.now) }
        ensures in_doubt { IsErrOf result NodeError.Failed →
            LeavesInDoubt D.Disk disk.old disk.new self.old
            (owed registry.now (kept self.old.state) request.now) }
        ensures memory { IsErrOf result NodeError.Memory → Untouched disk.old disk.new self.old self.new }
        ensures failed { IsErrOf result NodeError.Failed →
            FailsAt D.Disk SERVICE_FILE disk.old disk.new
            (entry_of (owed registry.now (kept self.old.state) request.now).step) }
        ensures others { TouchesOnly D.Disk SERVICE_FILE disk.old disk.new }
    {
        let answered = self.state.take(alloc, registry, request)?;
        let reply = answered.reply;
        match answered.body {
            Some(body) => {
                self.journal.append(disk, body.as_slice())?;
                Ok(Handled { reply, fresh: true })
            }
            None => Ok(Handled {
                reply,
                fresh: false,
            }),
        }
    }

    /// Whether what a request asks for stands: for a begin, its lease is open with these operations; for a
    /// commit or a rollback, its lease ended so; for a range, it was given. Where a call answered
    /// [`NodeError::Failed`], this says of the node that was opened again whether the entry stood. It takes
    /// no memory.
    pub fn holds(&self, request: &Request) -> bool
        ensures { IsTrue result ↔ HasEffect (kept self.now.state) request.now }
    {
        self.state.holds(request)
    }

    /// Who holds each key, and the leases that are open or have ended.
    pub fn leases(&self) -> &Leases
        ensures { result.now ≡ (kept self.now.state).leases }
    {
        self.state.leases()
    }

    /// The ranges that were given, in order of giving.
    pub fn ranges(&self) -> &Ranges
        ensures { result.now ≡ (kept self.now.state).ranges }
    {
        self.state.ranges()
    }
}
