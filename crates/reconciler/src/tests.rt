ghost use Rattle.std.specs.Prelude.{IfOk, OnOk};
ghost use Rattle.claim_types.specs.Leases.{IsLease};
ghost use Rattle.claim_types.specs.MessageBounds.{IsReply};
ghost use Rattle.reconciler.specs.Agent.{IsReady};

use crate::{CellAgent, Outcome};
use cell_store::CellStore;
use claim_types::{
    BegunResult, Change, CommittedResult, Denial, GREATEST_ATTEMPT, Kind, LeaseId, LeaseIds,
    LeasePage, RangedResult, Reply, Request, RolledBackResult, Text,
};
use disk_journal::{Disk, MemoryDisk, make};
use std::alloc::Global;
use std::process::Abort;
use std::test::Fail;

const THRESHOLD: u64 = 600;

// The first attempts of cell 1.
const A: LeaseId = LeaseId {
    cell: 1,
    epoch: 1,
    attempt: 1,
};

const B: LeaseId = LeaseId {
    cell: 1,
    epoch: 1,
    attempt: 2,
};

const C: LeaseId = LeaseId {
    cell: 1,
    epoch: 1,
    attempt: 3,
};

// A lease of another cell.
const OTHER: LeaseId = LeaseId {
    cell: 2,
    epoch: 1,
    attempt: 1,
};

// What a request is about.
#[derive(Clone, Copy, Debug, PartialEq)]
enum Asked {
    Commit(LeaseId),
    Rollback(LeaseId),
    List(Option<LeaseId>),
    Other,
}

fn what(request: &Request) -> Asked {
    match request {
        Request::Commit { lease } => Asked::Commit(*lease),
        Request::Rollback { lease } => Asked::Rollback(*lease),
        Request::List { after, .. } => Asked::List(*after),
        _ => Asked::Other,
    }
}

fn is_nothing(outcome: &Outcome) -> bool {
    outcome.recorded.is_none() && outcome.ended.is_none() && outcome.to_send.is_empty()
}

// Hands a reply to an agent.
fn hear<D: Disk>(
    alloc: Global,
    disk: &mut D,
    agent: &mut CellAgent,
    reply: &Reply,
) -> Result<Outcome, Fail>
    requires ready { IsReady D.Disk disk.old agent.old }
    requires bounds { IsReply reply.now }
    ensures { OnOk result (IsReady D.Disk disk.new agent.new) }
{
    Ok(agent.receive(alloc, disk, reply, 0)?)
}

// The agent of cell 1 on a new file, which knows the range 1 to 1,000.
fn open<D: Disk>(alloc: Global, disk: &mut D) -> Result<CellAgent, Fail>
    ensures { IfOk result (IsReady D.Disk disk.new) }
{
    make(disk, 1)?;
    let store = CellStore::open(alloc, disk, 1)?;
    let mut agent = CellAgent::new(alloc, store, THRESHOLD);
    let given = Reply::Ranged {
        cell: 1,
        number: 1,
        result: RangedResult::Good {
            low: 1,
            high: 1_000,
        },
    };
    let _ = hear(alloc, disk, &mut agent, &given)?;
    Ok(agent)
}

// Asks for an organization, and gives the lease of its begin.
fn ask<D: Disk>(
    rt: &impl Abort,
    alloc: Global,
    disk: &D,
    agent: &mut CellAgent,
    name: &[u8],
    now: u64,
) -> Result<LeaseId, Fail>
    requires { IsReady D.Disk disk.now agent.old }
    ensures { OnOk result (IsReady D.Disk disk.now agent.new) }
{
    assert!(rt; agent.drawn() < GREATEST_ATTEMPT);
    let change = Change::Create {
        kind: Kind::Organization,
        parent: 0,
        name: Text::from_slice(alloc, name)?,
    };
    match agent.ask_change(alloc, change, now)? {
        Request::Begin { lease, .. } => Ok(lease),
        _ => Ok(OTHER),
    }
}

// Ends the least attempt that is due.
fn end<D: Disk>(disk: &D, agent: &mut CellAgent, now: u64) -> Option<LeaseId>
    requires { IsReady D.Disk disk.now agent.old }
    ensures { IsReady D.Disk disk.now agent.new }
{
    let _ = disk;
    agent.expire(now)
}

// Hands over a good answer to the begin of a lease of cell 1.
fn grant<D: Disk>(
    alloc: Global,
    disk: &mut D,
    agent: &mut CellAgent,
    lease: LeaseId,
) -> Result<Outcome, Fail>
    requires ready { IsReady D.Disk disk.old agent.old }
    requires lease { IsLease lease }
    ensures { OnOk result (IsReady D.Disk disk.new agent.new) }
{
    let result = BegunResult::Good;
    hear(alloc, disk, agent, &Reply::Begun { lease, result })
}

// An attempt that was begun at 0 ends at the threshold, and its late answer brings nothing about.
fn ends<D: Disk>(rt: &impl Abort, alloc: Global, disk: &mut D) -> Result<(), Fail> {
    let mut agent = open(alloc, disk)?;
    assert_eq!(rt; ask(rt, alloc, disk, &mut agent, b"acme", 0)?, A);
    assert_eq!(rt; end(disk, &mut agent, 599), None);
    assert_eq!(rt; end(disk, &mut agent, 600), Some(A));
    assert_eq!(rt; end(disk, &mut agent, 600), None);
    let outcome = grant(alloc, disk, &mut agent, A)?;
    assert!(rt; is_nothing(&outcome));
    Ok(())
}

#[test]
fn an_attempt_ends_at_the_threshold(rt: HostRuntime) -> Result<(), Fail> {
    let alloc = rt.alloc();
    let mut disk = MemoryDisk::new(alloc, &[1], 4_096, Vec::new(alloc))?;
    ends(&rt, alloc, &mut disk)
}

// A page lists a lease whose row is kept, one that waits, and one that the cell knows nothing of.
fn lists<D: Disk>(rt: &impl Abort, alloc: Global, disk: &mut D) -> Result<Outcome, Fail> {
    let mut agent = open(alloc, disk)?;
    assert_eq!(rt; ask(rt, alloc, disk, &mut agent, b"acme", 0)?, A);
    let outcome = grant(alloc, disk, &mut agent, A)?;
    assert_eq!(rt; outcome.recorded, Some(A));
    assert_eq!(rt; ask(rt, alloc, disk, &mut agent, b"beta", 0)?, B);
    page(alloc, disk, &mut agent)
}

fn page<D: Disk>(alloc: Global, disk: &mut D, agent: &mut CellAgent) -> Result<Outcome, Fail>
    requires { IsReady D.Disk disk.old agent.old }
{
    let page = LeasePage {
        leases: LeaseIds::from_vec(vec![in alloc; A, B, C]?),
        more: true,
    };
    hear(alloc, disk, agent, &Reply::Leases { cell: 1, page })
}

#[test]
fn a_page_sends_what_each_lease_needs(rt: HostRuntime) -> Result<(), Fail> {
    let alloc = rt.alloc();
    let mut disk = MemoryDisk::new(alloc, &[1], 4_096, Vec::new(alloc))?;
    let outcome = lists(&rt, alloc, &mut disk)?;
    let wanted = [Asked::Commit(A), Asked::Rollback(C), Asked::List(Some(C))];
    assert_eq!(rt; outcome.to_send.len(), wanted.len());
    for (request, expected) in outcome.to_send.as_slice().iter().zip(wanted.iter()) {
        assert_eq!(rt; what(request), *expected);
    }
    Ok(())
}

// Whether a new agent, with nothing pending, does nothing at a reply.
fn passes(alloc: Global, reply: &Reply) -> Result<bool, Fail>
    requires { IsReply reply.now }
{
    let mut disk = MemoryDisk::new(alloc, &[1], 4_096, Vec::new(alloc))?;
    let mut agent = open(alloc, &mut disk)?;
    let outcome = hear(alloc, &mut disk, &mut agent, reply)?;
    Ok(is_nothing(&outcome) && agent.pending() == 0 && agent.store().known().len() == 1)
}

// A reply to a begin, a commit and a rollback of a lease.
fn passes_lease(alloc: Global, lease: LeaseId) -> Result<bool, Fail>
    requires { IsLease lease }
{
    let good = BegunResult::Good;
    let denied = BegunResult::Denied(Denial::TooManyOpen);
    let committed = CommittedResult::Good;
    let rolled_back = RolledBackResult::Good;
    Ok(
        passes(
            alloc,
            &Reply::Begun {
                lease,
                result: good,
            },
        )? && passes(
            alloc,
            &Reply::Begun {
                lease,
                result: denied,
            },
        )? && passes(
            alloc,
            &Reply::Committed {
                lease,
                result: committed,
            },
        )? && passes(
            alloc,
            &Reply::RolledBack {
                lease,
                result: rolled_back,
            },
        )?,
    )
}

#[test]
fn an_idle_agent_passes_over_replies(rt: HostRuntime) -> Result<(), Fail> {
    let alloc = rt.alloc();
    assert!(rt; passes_lease(alloc, A)?);
    assert!(rt; passes_lease(alloc, OTHER)?);
    let result = RangedResult::Good {
        low: 1_001,
        high: 2_000,
    };
    let too_far = Reply::Ranged {
        cell: 1,
        number: 3,
        result,
    };
    assert!(rt; passes(alloc, &too_far)?);
    let of_another = Reply::Ranged {
        cell: 2,
        number: 2,
        result,
    };
    assert!(rt; passes(alloc, &of_another)?);
    let page = LeasePage {
        leases: LeaseIds::new(alloc),
        more: true,
    };
    assert!(rt; passes(alloc, &Reply::Leases { cell: 1, page })?);
    Ok(())
}
