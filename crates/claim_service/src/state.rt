//! What the service keeps, in memory: what is due to a request is done there, and written as an entry.
ghost use Rattle.std.specs.Prelude.{◌≡◌, ◌≤◌, ◌↔◌, true, [], Ok, Option, None, Some, IfOk, IfSome, IfNone, OnErr, IsTrue, is_none};
ghost use Rattle.std.specs.FinMap as map;
ghost use Rattle.claim_types.specs.Bounds.{IsCell, IsRange, IsRangeNumber, AreOperations};
ghost use Rattle.claim_types.specs.EntryBounds.{IsServiceEntry};
ghost use Rattle.claim_types.specs.Leases.{IsLease};
ghost use Rattle.claim_types.specs.MessageBounds.{IsRequest};
ghost use Rattle.claim_types.specs.declared.verdict.Verdict.TheVariants.{Fresh};
ghost use Rattle.claim_types.specs.declared.entry.ServiceEntry.TheVariants.{Begun};
ghost use Rattle.claim_map.specs.Bounds.{AreHeld, IsWithinBounds};
ghost use Rattle.claim_map.specs.Classification.{class_of};
ghost use Rattle.claim_map.specs.Due.{begin_due, commit_due, rollback_due, range_due, classify_due, told, key_at, denial_of};
ghost use Rattle.claim_map.specs.Ranges.{follows, given_as, fresh as fresh_range, range_verdict};
ghost use Rattle.claim_map.specs.Registry.{cell_of};
ghost use Rattle.claim_map.specs.Verdict.{verdict_of};
ghost use Rattle.claim_laws.specs.Files.{empty_service, map_of};
ghost use Rattle.claim_service.specs.State.{kept, owed, Answers, IsJudged, IsTurn, HasEffect, cell_asked, Knows};

use cell_registry::{Asked, RangeFault, Ranges, Registry};
use claim_types::{
    BegunResult, Bucket, ClaimKey, CommittedResult, Copied, Denial, How, LeaseId, NoMemory,
    Operations, Question, Range, RangedResult, Refusal, Reply, Request, RolledBackResult,
    ServiceEntry, Text, Verdict,
};
use classifier::classify;
use entry_codec::write_service;
use lease_core::{CommitFault, Leases, RollbackFault};
use std::alloc::Global;

/// The leases of a service and the ranges that it gave.
#[derive(Drop)]
pub struct ServiceState {
    leases: Leases,
    ranges: Ranges,
}

/// A reply, and the body of the entry that what was done for it is written down as, if it is.
#[derive(Drop)]
pub struct Answered {
    pub reply: Reply,
    pub body: Option<Text>,
}

// The range that a cell was given under a number.
fn given_as(given: &[Range], cell: u16, number: u64) -> Option<Range>
    ensures { result ≡ given_as given.now cell number }
{
    given
        .iter()
        .copied()
        .find(|range| range.cell == cell && range.number == number)
}

// A reply for which nothing is written down.
fn unwritten(reply: Reply) -> Answered
    ensures reply { result.reply ≡ reply }
    ensures body { result.body ≡ None }
{
    Answered { reply, body: None }
}

fn key_at(alloc: Global, ops: &Operations, at: u64) -> Result<ClaimKey, NoMemory>
    ensures { IfOk result (λ key. key ≡ key_at ops.now at) }
{
    let creates = ops.creates.as_slice();
    let place = at as usize;
    if place < creates.len() {
        return creates[place].key.copy(alloc);
    }
    match ops.destroys.as_slice().get(place - creates.len()) {
        Some(key) => key.copy(alloc),
        None => Ok(ClaimKey {
            bucket: Bucket::Route,
            value: Text::new(alloc),
        }),
    }
}

fn denial(alloc: Global, ops: &Operations, refusal: Refusal) -> Result<Denial, NoMemory>
    ensures { IfOk result (λ denial. denial ≡ denial_of ops.now refusal) }
{
    Ok(match refusal {
        Refusal::Settled { how } => Denial::Settled { how },
        Refusal::OtherOperations => Denial::OtherOperations,
        Refusal::NoneOrTooMany { n } => Denial::NoneOrTooMany { n },
        Refusal::Twice { index } => Denial::Twice {
            key: key_at(alloc, ops, index)?,
        },
        Refusal::ForeignId { id } => Denial::ForeignId { id },
        Refusal::TooManyOpen => Denial::TooManyOpen,
        Refusal::Owned { index, cell } => Denial::Owned {
            key: key_at(alloc, ops, index)?,
            cell,
        },
        Refusal::Leased { index, lease } => Denial::Leased {
            key: key_at(alloc, ops, index)?,
            lease,
        },
        Refusal::NotOwned { index } => Denial::NotOwned {
            key: key_at(alloc, ops, index)?,
        },
    })
}

/// The same question again.
pub fn copy_of_question(alloc: Global, question: &Question) -> Result<Question, NoMemory>
    ensures { IfOk result (λ copied. copied ≡ question.now) }
{
    Ok(match question {
        Question::First => Question::First,
        Question::Cell { id } => Question::Cell { id: *id },
        Question::Session { text } => Question::Session {
            text: text.copy(alloc)?,
        },
        Question::Claim { key } => Question::Claim {
            key: key.copy(alloc)?,
        },
        Question::Path { text } => Question::Path {
            text: text.copy(alloc)?,
        },
    })
}

// The cell that a request is about. A request for a range, a question and a request for a page are
// answered without it.
fn cell_asked(request: &Request) -> Option<u16>
    ensures { result ≡ cell_asked request.now }
{
    match request {
        Request::Begin { lease, .. } | Request::Commit { lease } | Request::Rollback { lease } =>
            Some(lease.cell),
        Request::List { cell, .. } | Request::Claims { cell, .. } => Some(*cell),
        Request::Range { .. } | Request::Classify { .. } | Request::Page { .. } => None,
    }
}

// The cell of a request, if it is one that the configuration lacks.
fn lacking(registry: &Registry, request: &Request) -> Option<u16>
    ensures none { IfNone result (Knows registry.now (cell_asked request.now)) }
    ensures some { IfSome result (λ cell. (cell_asked request.now ≡ Some cell) ×
        IsTrue (is_none (cell_of registry.now cell))) }
{
    match cell_asked(request) {
        Some(cell) if registry.cell(cell).is_none() => Some(cell),
        _ => None,
    }
}

impl ServiceState {
    /// Nothing is claimed and no range was given. It takes no memory.
    pub fn new(alloc: Global) -> Self
        ensures { kept result ≡ empty_service }
    {
        ServiceState {
            leases: Leases::new(alloc),
            ranges: Ranges::new(alloc),
        }
    }

    /// Who holds each key, which leases are open, and how the others ended.
    pub fn leases(&self) -> &Leases
        ensures { result.now ≡ (kept self.now).leases }
    {
        &self.leases
    }

    /// The ranges that were given, in order of giving.
    pub fn ranges(&self) -> &Ranges
        ensures { result.now ≡ (kept self.now).ranges }
    {
        &self.ranges
    }

    /// Whether what a request asks for stands: for a begin, its lease is open with these operations; for a
    /// commit or a rollback, its lease ended so; for a range, it was given. It takes no memory.
    pub fn holds(&self, request: &Request) -> bool
        ensures { IsTrue result ↔ HasEffect (kept self.now) request.now }
    {
        match request {
            Request::Begin { lease, ops } => self.leases.is_same(*lease, ops).unwrap_or(false),
            Request::Commit { lease } => self.leases.how_ended(*lease) == Some(How::Committed),
            Request::Rollback { lease } => self.leases.how_ended(*lease) == Some(How::RolledBack),
            Request::Range { cell, number } => {
                given_as(self.ranges.list(), *cell, *number).is_some()
            }
            Request::List { .. }
            | Request::Claims { .. }
            | Request::Classify { .. }
            | Request::Page { .. } => false,
        }
    }

    fn commit(&mut self, alloc: Global, lease: LeaseId) -> Result<Answered, NoMemory>
        requires { IsLease lease }
        ensures { Answers (commit_due lease (map.get self.old.leases.open_leases lease)
            (map.get self.old.leases.settled lease)) (kept self.old) result (kept self.new) }
    {
        let how = How::Committed;
        let body = write_service(alloc, &ServiceEntry::Settled { lease, how })?;
        let (result, body) = match self.leases.commit(lease) {
            Ok(true) => (CommittedResult::Good, Some(body)),
            Ok(false) => (CommittedResult::Good, None),
            Err(CommitFault::Unknown) => (CommittedResult::Unknown, None),
            Err(CommitFault::WasRolledBack) => (CommittedResult::WasRolledBack, None),
        };
        Ok(Answered {
            reply: Reply::Committed { lease, result },
            body,
        })
    }

    fn rollback(&mut self, alloc: Global, lease: LeaseId) -> Result<Answered, NoMemory>
        requires { IsLease lease }
        ensures { Answers (rollback_due lease (map.get self.old.leases.settled lease)) (kept self.old) result
            (kept self.new) }
    {
        let how = How::RolledBack;
        let body = write_service(alloc, &ServiceEntry::Settled { lease, how })?;
        let (result, body) = match self.leases.rollback(lease) {
            Ok(true) => (RolledBackResult::Good, Some(body)),
            Ok(false) => (RolledBackResult::Good, None),
            Err(RollbackFault::WasCommitted) => (RolledBackResult::WasCommitted, None),
            Err(RollbackFault::Memory) => return Err(NoMemory),
        };
        Ok(Answered {
            reply: Reply::RolledBack { lease, result },
            body,
        })
    }

    // Opens a lease that was judged fresh.
    fn open(&mut self, alloc: Global, lease: LeaseId, ops: Operations) -> Result<Answered, NoMemory>
        requires entry { IsServiceEntry (Begun lease ops) }
        requires fresh { verdict_of self.old.leases self.old.ranges lease ops ≡ Fresh }
        ensures { Answers (begin_due lease ops Fresh) (kept self.old) result (kept self.new) }
    {
        let entry = ServiceEntry::Begun { lease, ops };
        let body = write_service(alloc, &entry)?;
        self.enter_judged(entry)?;
        let result = BegunResult::Good;
        Ok(Answered {
            reply: Reply::Begun { lease, result },
            body: Some(body),
        })
    }

    fn begin(
        &mut self,
        alloc: Global,
        lease: LeaseId,
        ops: &Operations,
    ) -> Result<Answered, NoMemory>
        requires lease { IsLease lease }
        requires ops { AreOperations ops.now }
        ensures { Answers (begin_due lease ops.now (verdict_of self.old.leases self.old.ranges lease ops.now))
            (kept self.old) result (kept self.new) }
    {
        let result = match self.leases.judge(self.ranges.list(), lease, ops) {
            Verdict::Fresh => return self.open(alloc, lease, ops.copy(alloc)?),
            Verdict::Again => BegunResult::Good,
            Verdict::Refused(refusal) => BegunResult::Denied(denial(alloc, ops, refusal)?),
        };
        Ok(unwritten(Reply::Begun { lease, result }))
    }

    // Gives a range that follows those before it.
    fn give(&mut self, alloc: Global, range: Range) -> Result<Answered, NoMemory>
        requires bounds { IsRange range }
        requires follows { follows self.old.ranges range ≡ true }
        ensures { Answers (range_due range.cell range.number (fresh_range range)) (kept self.old) result
            (kept self.new) }
    {
        let body = write_service(alloc, &ServiceEntry::Given { range })?;
        self.ranges.add(range)?;
        let Range {
            cell,
            number,
            low,
            high,
        } = range;
        let result = RangedResult::Good { low, high };
        Ok(Answered {
            reply: Reply::Ranged {
                cell,
                number,
                result,
            },
            body: Some(body),
        })
    }

    fn range(
        &mut self,
        alloc: Global,
        registry: &Registry,
        cell: u16,
        number: u64,
    ) -> Result<Answered, NoMemory>
        requires cell { IsCell cell }
        requires number { IsRangeNumber number }
        ensures { Answers (range_due cell number (range_verdict registry.now self.old.ranges cell number))
            (kept self.old) result (kept self.new) }
    {
        let result = match self.ranges.asked(registry, cell, number) {
            Ok(Asked { range, fresh: true }) => return self.give(alloc, range),
            Ok(
                Asked {
                    range,
                    fresh: false,
                },
            ) => RangedResult::Good {
                low: range.low,
                high: range.high,
            },
            Err(RangeFault::UnknownCell) => RangedResult::UnknownCell,
            Err(RangeFault::TooFar { next }) => RangedResult::TooFar { next },
            Err(RangeFault::Exhausted { last }) => RangedResult::Exhausted { last },
            Err(RangeFault::Memory) => return Err(NoMemory),
        };
        Ok(unwritten(Reply::Ranged {
            cell,
            number,
            result,
        }))
    }

    fn classify(
        &self,
        alloc: Global,
        registry: &Registry,
        question: &Question,
    ) -> Result<Answered, NoMemory>
        requires { AreHeld self.now.leases.holder }
        ensures { Answers (classify_due question.now
            (class_of registry.now self.now.leases.holder question.now)) (kept self.now) result (kept self.now) }
    {
        let class = classify(&self.leases, registry, question);
        let question = copy_of_question(alloc, question)?;
        Ok(unwritten(Reply::Classified { question, class }))
    }

    // What is written down as this entry is done, where that is legal in its turn. A begin was judged.
    fn enter_judged(&mut self, entry: ServiceEntry) -> Result<bool, NoMemory>
        requires { IsJudged (kept self.old) entry }
        ensures { IsTurn (kept self.old) entry result (kept self.new) }
    {
        match entry {
            ServiceEntry::Begun { lease, ops } => {
                self.leases.open(self.ranges.list(), lease, ops)?;
                Ok(true)
            }
            ServiceEntry::Settled {
                lease,
                how: How::Committed,
            } => match self.leases.commit(lease) {
                Ok(done) => Ok(done),
                Err(_) => Ok(false),
            },
            ServiceEntry::Settled {
                lease,
                how: How::RolledBack,
            } => match self.leases.rollback(lease) {
                Ok(done) => Ok(done),
                Err(RollbackFault::WasCommitted) => Ok(false),
                Err(RollbackFault::Memory) => Err(NoMemory),
            },
            ServiceEntry::Given { range } => self.ranges.add(range),
        }
    }

    // What is due to a request whose cell the configuration has.
    fn take_known(
        &mut self,
        alloc: Global,
        registry: &Registry,
        request: &Request,
    ) -> Result<Answered, NoMemory>
        requires bounds { IsRequest request.now }
        requires holders { AreHeld self.old.leases.holder }
        requires known { Knows registry.now (cell_asked request.now) }
        ensures { Answers (owed registry.now (kept self.old) request.now) (kept self.old) result (kept self.new) }
    {
        match request {
            Request::Begin { lease, ops } => self.begin(alloc, *lease, ops),
            Request::Commit { lease } => self.commit(alloc, *lease),
            Request::Rollback { lease } => self.rollback(alloc, *lease),
            Request::List { cell, after } => Ok(unwritten(Reply::Leases {
                cell: *cell,
                page: self.leases.list(alloc, *cell, *after)?,
            })),
            Request::Range { cell, number } => self.range(alloc, registry, *cell, *number),
            Request::Claims {
                cell,
                bucket,
                first,
                last,
                after,
            } => Ok(unwritten(Reply::Claims {
                cell: *cell,
                bucket: *bucket,
                first: *first,
                last: *last,
                after: *after,
                page: self
                    .leases
                    .claims_in(alloc, *cell, *bucket, *first, *last, *after)?,
            })),
            Request::Classify { question } => self.classify(alloc, registry, question),
            Request::Page { cell, .. } => Ok(unwritten(Reply::NoCell { cell: *cell })),
        }
    }

    /// Does what is due to a request, and gives its reply and the body of its entry. Where memory is
    /// wanted nothing changes.
    pub fn take(
        &mut self,
        alloc: Global,
        registry: &Registry,
        request: &Request,
    ) -> Result<Answered, NoMemory>
        requires bounds { IsRequest request.now }
        requires holders { AreHeld (kept self.old).leases.holder }
        ensures { Answers (owed registry.now (kept self.old) request.now) (kept self.old) result (kept self.new) }
    {
        match lacking(registry, request) {
            Some(cell) => Ok(unwritten(Reply::NoCell { cell })),
            None => self.take_known(alloc, registry, request),
        }
    }

    /// Does what this entry is written down for, where it is legal in its turn. Where it is not, or memory
    /// is wanted, nothing changes.
    pub fn enter(&mut self, entry: ServiceEntry) -> Result<bool, NoMemory>
        ensures { IsTurn (kept self.old) entry result (kept self.new) }
    {
        if let ServiceEntry::Begun { lease, ops } = &entry {
            if self.leases.judge(self.ranges.list(), *lease, ops) != Verdict::Fresh {
                return Ok(false);
            }
        }
        self.enter_judged(entry)
    }
}
