//! The agent over its store.
ghost use Rattle.std.specs.Prelude.{◌≡◌, ◌<◌, ◌&&◌, nat_eq, [], ◌∷◌, flat_map, drop, IsTrue, false, is_some, Some};
ghost use Rattle.std.specs.Prelude.{IfOk, OnOk, OnErr, IsErrOf, MatchOption};
ghost use Rattle.std.specs.List.{slice_get};
ghost use Rattle.std.specs.Option.{option_copied};
ghost use Rattle.std.specs.FinMap as map;
ghost use Rattle.claim_types.specs.Leases.{IsLease};
ghost use Rattle.claim_types.specs.MessageBounds.{IsReply};
ghost use Rattle.claim_types.specs.declared.limits.TheConstants.{GREATEST_ATTEMPT};
ghost use Rattle.claim_types.specs.declared.message.Reply.TheVariants.{Begun, Committed, Leases, Ranged};
ghost use Rattle.claim_types.specs.declared.message.BegunResult.TheVariants.{Good, Denied};
ghost use Rattle.claim_types.specs.declared.message.CommittedResult.TheVariants.{Good as CommittedGood};
ghost use Rattle.claim_map.specs.Claims.{claims_of};
ghost use Rattle.claim_laws.specs.Nodes.{attempts_and_rows, next_lease, ask_change, due_attempts, without_attempt};
ghost use Rattle.claim_laws.specs.Nodes.{ask_reconcile, ask_range, is_next, requests_for_listed};
ghost use Rattle.disk_journal.specs.Entries.{TouchesOnly, FailsAt, Untouched};
ghost use Rattle.record_tree.specs.Answer.{Gives, answer_of};
ghost use Rattle.record_tree.specs.Paths.{IsPathHolder};
ghost use Rattle.cell_store.specs.Store.{stored, IsStore, AreRowsEarlier};
ghost use Rattle.reconciler.specs.Agent.{kept_by, heard_by, IsAgent, IsSameAgent, Answers, IsHeard, Rests};
ghost use Rattle.reconciler.specs.Agent.{Writes, WritesAtMost, LeavesInDoubt};
ghost use Rattle.reconciler.specs.Kept.{kept_with};
ghost use Rattle.reconciler.specs.declared.outcome.AgentFault.TheVariants.{Failed, Memory};

use crate::attempts::Attempts;
use crate::outcome::{AgentFault, Outcome, Requests, copy_of_denial, nothing};
use cell_store::{CellStore, RecordFault};
use claim_types::{
    ATTEMPTS_AND_ROWS, Attempt, BegunResult, Change, CommittedResult, Copied, Denial, Ended, Items,
    LeaseId, LeasePage, NoMemory, Operations, Range, RangedResult, Reply, Request, Rule,
};
use disk_journal::Disk;
use std::alloc::Global;

/// The part of a cell that talks to the service: its store, the attempts that wait for an answer, and how many
/// leases were drawn in the store's epoch.
#[derive(Drop)]
pub struct CellAgent {
    store: CellStore,
    pending: Attempts,
    drawn: u64,
    threshold: u64,
}

// Whether a range is the one that a cell keeps next.
fn is_next(known: &[Range], range: Range) -> bool
    ensures { result ≡ is_next known.now range }
{
    if range.number != known.len() as u64 + 1 {
        return false;
    }
    match known.last() {
        Some(last) => last.high < range.low,
        None => 0 < range.low,
    }
}

impl CellAgent {
    /// The agent of a store that was just opened: none waits, and nothing was drawn. The threshold is in
    /// seconds. It takes no memory.
    pub fn new(alloc: Global, store: CellStore, threshold: u64) -> Self
        requires store { IsStore store }
        requires earlier { AreRowsEarlier store }
        ensures store { result.store ≡ store }
        ensures kept { kept_by result ≡ kept_with (stored store) map.empty 0 }
        ensures threshold { result.threshold ≡ threshold }
        ensures agent { IsAgent result }
    {
        CellAgent {
            store,
            pending: Attempts::new(alloc),
            drawn: 0,
            threshold,
        }
    }

    /// The records, the outstanding rows, the known ranges and the epoch.
    pub fn store(&self) -> &CellStore
        ensures { result.now ≡ self.now.store }
    {
        &self.store
    }

    /// The age, in seconds, at which an attempt is due.
    pub fn threshold(&self) -> u64
        ensures { result ≡ self.now.threshold }
    {
        self.threshold
    }

    /// How many attempts wait for an answer.
    pub fn pending(&self) -> u64
        ensures { result ≡ map.len (kept_by self.now).pending }
    {
        self.pending.len() as u64
    }

    /// How many leases were drawn in this epoch.
    pub fn drawn(&self) -> u64
        ensures { result ≡ (kept_by self.now).drawn }
    {
        self.drawn
    }

    /// Whether the attempt of a lease waits for an answer.
    pub fn is_pending(&self, lease: LeaseId) -> bool
        ensures { result ≡ is_some (map.get (kept_by self.now).pending lease) }
    {
        self.pending.has(lease)
    }

    /// The attempt of a lease, if it waits.
    pub fn attempt(&self, lease: LeaseId) -> Option<&Attempt>
        ensures { option_copied result ≡ map.get (kept_by self.now).pending lease }
    {
        self.pending.get(lease)
    }

    // The operations of a change on the present records, or the first rule of records that it breaks.
    fn operations_of(&self, alloc: Global, change: &Change) -> Result<Operations, Rule>
        requires { IsAgent self.now }
        ensures { Gives result (answer_of (stored self.now.store).tree change.now (kept_by self.now).known) }
    {
        self.store
            .tree()
            .operations_of(alloc, change, self.store.known())
    }

    // How many attempts and rows there are, together.
    fn attempts_and_rows(&self) -> u64
        requires { IsAgent self.now }
        ensures { result ≡ attempts_and_rows (kept_by self.now) }
    {
        (self.pending.len() + self.store.rows().len()) as u64
    }

    // The lease that is drawn next.
    fn next_lease(&self) -> LeaseId
        requires { (kept_by self.now).drawn < GREATEST_ATTEMPT }
        ensures { result ≡ next_lease self.now.store.cell (kept_by self.now) }
    {
        LeaseId {
            cell: self.store.cell(),
            epoch: self.store.epoch(),
            attempt: self.drawn + 1,
        }
    }

    /// Asks for a change at a moment in seconds: draws the next lease and gives its begin. Fewer than 2^62 - 1
    /// leases were drawn in this epoch.
    ///
    /// Errors: the first rule of records that the change breaks; after those [`Rule::TooManyRows`], where
    /// attempts and rows together are as many as may be; [`Rule::Memory`]. Then nothing is drawn.
    pub fn ask_change(&mut self, alloc: Global, change: Change, now: u64) -> Result<Request, Rule>
        requires agent { IsAgent self.old }
        requires drawn { (kept_by self.old).drawn < GREATEST_ATTEMPT }
        ensures asked { Answers
            (ask_change self.old.store.cell (stored self.old.store).tree (kept_by self.old) change now)
            (kept_by self.old) result (kept_by self.new) }
        ensures agent { IsAgent self.new }
        ensures store { self.new.store ≡ self.old.store }
        ensures same { IsSameAgent self.old self.new }
    {
        let ops = self.operations_of(alloc, &change)?;
        let n = self.attempts_and_rows();
        if n >= ATTEMPTS_AND_ROWS {
            return Err(Rule::TooManyRows { n });
        }
        let lease = self.next_lease();
        let attempt = Attempt {
            change,
            ops: ops.copy(alloc)?,
            version: self.store.tree().version(),
            since: now,
        };
        self.pending.put(lease, attempt)?;
        self.drawn += 1;
        Ok(Request::Begin { lease, ops })
    }

    /// Ends the least attempt that is due at a moment in seconds, and names its lease; none where none is due.
    /// An attempt is due once its age has reached the threshold; the age is 0 where the clock went back. It
    /// takes no memory.
    pub fn expire(&mut self, now: u64) -> Option<LeaseId>
        requires agent { IsAgent self.old }
        ensures least { result ≡ slice_get (due_attempts self.old.threshold now (kept_by self.old)) 0 }
        ensures ended { MatchOption result (self.new ≡ self.old)
            (λ lease. kept_by self.new ≡ without_attempt (kept_by self.old) lease) }
        ensures rest { due_attempts self.old.threshold now (kept_by self.new)
            ≡ drop 1 (due_attempts self.old.threshold now (kept_by self.old)) }
        ensures agent { IsAgent self.new }
        ensures store { self.new.store ≡ self.old.store }
        ensures same { IsSameAgent self.old self.new }
    {
        let lease = self.pending.first_due(self.threshold, now)?;
        self.pending.remove(lease);
        Some(lease)
    }

    /// The requests that begin a reconciliation: a commit for each outstanding row in order of lease, and then
    /// the request for the first page of the cell's open leases.
    pub fn ask_reconcile(&self, alloc: Global) -> Result<Requests, NoMemory>
        ensures { IfOk result (λ requests. requests ≡ ask_reconcile self.now.store.cell (kept_by self.now)) }
    {
        let mut requests = Vec::new(alloc);
        for lease in self.store.rows() {
            requests.push(Request::Commit { lease: *lease })?;
        }
        requests.push(Request::List {
            cell: self.store.cell(),
            after: None,
        })?;
        Ok(Items::from_vec(requests))
    }

    /// The request for the range with this number from 1, or else for the one behind those that are known.
    pub fn ask_range(&self, number: Option<u64>) -> Request
        ensures { result ≡ ask_range self.now.store.cell (kept_by self.now) number }
    {
        Request::Range {
            cell: self.store.cell(),
            number: match number {
                Some(number) => number,
                None => self.store.known().len() as u64 + 1,
            },
        }
    }

    /// The record that the page of a path shows. A path that names a record shows that of the longest route
    /// that is the path or is followed in it by a slash, if there is one; another shows 0.
    pub fn page(&self, path: &[u8], named: bool) -> Option<u64>
        ensures found { IsTrue named → IsPathHolder (claims_of (stored self.now.store).tree) path.now result }
        ensures unnamed { named ≡ false → result ≡ Some 0 }
    {
        if named {
            self.store.tree().find_path(path)
        } else {
            Some(0)
        }
    }

    // Its begin was answered well: an attempt that waits is recorded, or ends where the records have changed.
    fn hear_begun<D: Disk>(
        &mut self,
        alloc: Global,
        disk: &mut D,
        lease: LeaseId,
    ) -> Result<Outcome, AgentFault>
        requires agent { IsAgent self.old }
        requires lease { IsLease lease }
        requires live { IsTrue self.old.store.journal.live }
        requires at_rest { Rests D.Disk disk.old self.old }
        ensures ok { IfOk result (IsHeard (heard_by self.old (Begun lease Good)) self.new) }
        ensures live { OnOk result (IsTrue self.new.store.journal.live) }
        ensures agent { OnOk result (IsAgent self.new) }
        ensures written { OnOk result
            (Writes D.Disk disk.old disk.new self.old self.new (heard_by self.old (Begun lease Good))) }
        ensures any_moment { WritesAtMost D.Disk disk.old disk.new self.old (heard_by self.old (Begun lease Good)) }
        ensures in_doubt { IsErrOf result AgentFault.Failed →
            LeavesInDoubt D.Disk disk.old disk.new self.old (heard_by self.old (Begun lease Good)) }
        ensures memory { IsErrOf result AgentFault.Memory → Untouched disk.old disk.new self.old self.new }
        ensures failed { IsErrOf result AgentFault.Failed →
            FailsAt D.Disk self.old.store.cell disk.old disk.new (heard_by self.old (Begun lease Good)).entry }
        ensures others { TouchesOnly D.Disk self.old.store.cell disk.old disk.new }
        ensures same { IsSameAgent self.old self.new }
    {
        let Some(attempt) = self.pending.get(lease) else {
            return Ok(nothing(alloc));
        };
        let mut requests = Vec::with_capacity(alloc, 1)?;
        let Attempt {
            change,
            ops,
            version,
            ..
        } = attempt;
        let recorded = self.store.record(alloc, disk, lease, change, ops, *version);
        match recorded {
            Ok(()) => {
                self.pending.remove(lease);
                requests.push_reserved(Request::Commit { lease });
                Ok(Outcome {
                    recorded: Some(lease),
                    ended: None,
                    to_send: Items::from_vec(requests),
                })
            }
            Err(RecordFault::Changed { then, now }) => {
                self.pending.remove(lease);
                requests.push_reserved(Request::Rollback { lease });
                Ok(Outcome {
                    recorded: None,
                    ended: Some(Ended::Changed { lease, then, now }),
                    to_send: Items::from_vec(requests),
                })
            }
            Err(RecordFault::Failed) => Err(AgentFault::Failed),
            Err(RecordFault::Memory) => Err(AgentFault::Memory),
        }
    }

    // Its begin was refused: an attempt that waits ends.
    fn hear_denied(
        &mut self,
        alloc: Global,
        lease: LeaseId,
        denial: &Denial,
    ) -> Result<Outcome, NoMemory>
        requires { IsAgent self.old }
        ensures ok { IfOk result (IsHeard (heard_by self.old (Begun lease (Denied denial.now))) self.new) }
        ensures agent { IsAgent self.new }
        ensures store { self.new.store ≡ self.old.store }
        ensures memory { OnErr result (self.new ≡ self.old) }
        ensures same { IsSameAgent self.old self.new }
    {
        if !self.pending.has(lease) {
            return Ok(nothing(alloc));
        }
        let denial = copy_of_denial(alloc, denial)?;
        self.pending.remove(lease);
        Ok(Outcome {
            recorded: None,
            ended: Some(Ended::Denied { lease, denial }),
            to_send: Items::new(alloc),
        })
    }

    // Its lease is committed: an outstanding row is taken away.
    fn hear_committed<D: Disk>(
        &mut self,
        alloc: Global,
        disk: &mut D,
        lease: LeaseId,
    ) -> Result<Outcome, AgentFault>
        requires agent { IsAgent self.old }
        requires live { IsTrue self.old.store.journal.live }
        requires at_rest { Rests D.Disk disk.old self.old }
        ensures ok { IfOk result (IsHeard (heard_by self.old (Committed lease CommittedGood)) self.new) }
        ensures live { OnOk result (IsTrue self.new.store.journal.live) }
        ensures agent { OnOk result (IsAgent self.new) }
        ensures written { OnOk result
            (Writes D.Disk disk.old disk.new self.old self.new (heard_by self.old (Committed lease CommittedGood))) }
        ensures any_moment { WritesAtMost D.Disk disk.old disk.new self.old
            (heard_by self.old (Committed lease CommittedGood)) }
        ensures in_doubt { IsErrOf result AgentFault.Failed →
            LeavesInDoubt D.Disk disk.old disk.new self.old (heard_by self.old (Committed lease CommittedGood)) }
        ensures memory { IsErrOf result AgentFault.Memory → Untouched disk.old disk.new self.old self.new }
        ensures failed { IsErrOf result AgentFault.Failed →
            FailsAt D.Disk self.old.store.cell disk.old disk.new
            (heard_by self.old (Committed lease CommittedGood)).entry }
        ensures others { TouchesOnly D.Disk self.old.store.cell disk.old disk.new }
        ensures same { IsSameAgent self.old self.new }
    {
        if !self.store.has_row(lease) {
            return Ok(nothing(alloc));
        }
        self.store.row_gone(disk, lease)?;
        Ok(nothing(alloc))
    }

    // What is sent for a listed lease, if anything is.
    fn request_for(&self, lease: LeaseId) -> Option<Request>
        ensures { MatchOption result
            (requests_for_listed self.now.store.cell (kept_by self.now) lease ≡ [])
            (λ request. requests_for_listed self.now.store.cell (kept_by self.now) lease ≡ request ∷ []) }
    {
        if lease.cell != self.store.cell() {
            return None;
        }
        if self.store.has_row(lease) {
            return Some(Request::Commit { lease });
        }
        if self.pending.has(lease) {
            return None;
        }
        Some(Request::Rollback { lease })
    }

    // What is sent for listed leases.
    fn requests_for(&self, alloc: Global, leases: &[LeaseId]) -> Result<Vec<Request>, NoMemory>
        ensures { IfOk result (λ requests. requests.items
            ≡ flat_map (requests_for_listed self.now.store.cell (kept_by self.now)) leases.now) }
    {
        let mut requests = Vec::new(alloc);
        for lease in leases {
            if let Some(request) = self.request_for(*lease) {
                requests.push(request)?;
            }
        }
        Ok(requests)
    }

    // Its open leases are listed: what each needs is sent, and then the next page is asked for.
    fn hear_page(&self, alloc: Global, page: &LeasePage) -> Result<Outcome, NoMemory>
        ensures { IfOk result (IsHeard (heard_by self.now (Leases self.now.store.cell page.now)) self.now) }
    {
        let leases = page.leases.as_slice();
        let mut requests = self.requests_for(alloc, leases)?;
        if page.more {
            if let Some(last) = leases.last() {
                requests.push(Request::List {
                    cell: self.store.cell(),
                    after: Some(*last),
                })?;
            }
        }
        Ok(Outcome {
            recorded: None,
            ended: None,
            to_send: Items::from_vec(requests),
        })
    }

    // Whether a range is the one that this cell keeps next.
    fn keeps_next(&self, range: Range) -> bool
        ensures { result ≡ (nat_eq range.cell self.now.store.cell && is_next (kept_by self.now).known range) }
    {
        if range.cell != self.store.cell() {
            return false;
        }
        is_next(self.store.known(), range)
    }

    // A range was given: the cell's next one is kept.
    fn hear_range<D: Disk>(
        &mut self,
        alloc: Global,
        disk: &mut D,
        cell: u16,
        number: u64,
        answer: RangedResult,
    ) -> Result<Outcome, AgentFault>
        requires agent { IsAgent self.old }
        requires bounds { IsReply (Ranged cell number answer) }
        requires live { IsTrue self.old.store.journal.live }
        requires at_rest { Rests D.Disk disk.old self.old }
        ensures ok { IfOk result (IsHeard (heard_by self.old (Ranged cell number answer)) self.new) }
        ensures live { OnOk result (IsTrue self.new.store.journal.live) }
        ensures agent { OnOk result (IsAgent self.new) }
        ensures written { OnOk result
            (Writes D.Disk disk.old disk.new self.old self.new (heard_by self.old (Ranged cell number answer))) }
        ensures any_moment { WritesAtMost D.Disk disk.old disk.new self.old (heard_by self.old
            (Ranged cell number answer)) }
        ensures in_doubt { IsErrOf result AgentFault.Failed →
            LeavesInDoubt D.Disk disk.old disk.new self.old (heard_by self.old (Ranged cell number answer)) }
        ensures memory { IsErrOf result AgentFault.Memory → Untouched disk.old disk.new self.old self.new }
        ensures failed { IsErrOf result AgentFault.Failed →
            FailsAt D.Disk self.old.store.cell disk.old disk.new (heard_by self.old (Ranged cell number answer)).entry }
        ensures others { TouchesOnly D.Disk self.old.store.cell disk.old disk.new }
        ensures same { IsSameAgent self.old self.new }
    {
        let range = match answer {
            RangedResult::Good { low, high } => Range {
                cell,
                number,
                low,
                high,
            },
            RangedResult::UnknownCell
            | RangedResult::TooFar { .. }
            | RangedResult::Exhausted { .. } => return Ok(nothing(alloc)),
        };
        if !self.keeps_next(range) {
            return Ok(nothing(alloc));
        }
        self.store.range_got(alloc, disk, range)?;
        Ok(nothing(alloc))
    }

    /// Does what a reply calls for. The entry, if there is one, is on the disk before the answer, and so before
    /// any request that it asks to send; all memory is taken before anything is written. A reply is within its
    /// bounds. No answer hangs on the moment at which it came.
    ///
    /// Errors: [`AgentFault::Failed`] where a call of the disk failed, after which the store is opened again and
    /// its attempts are gone; [`AgentFault::Memory`] where memory was wanted, and then nothing changed.
    pub fn receive<D: Disk>(
        &mut self,
        alloc: Global,
        disk: &mut D,
        reply: &Reply,
        now: u64,
    ) -> Result<Outcome, AgentFault>
        requires agent { IsAgent self.old }
        requires bounds { IsReply reply.now }
        requires live { IsTrue self.old.store.journal.live }
        requires at_rest { Rests D.Disk disk.old self.old }
        ensures ok { IfOk result (IsHeard (heard_by self.old reply.now) self.new) }
        ensures live { OnOk result (IsTrue self.new.store.journal.live) }
        ensures agent { OnOk result (IsAgent self.new) }
        ensures written { OnOk result
            (Writes D.Disk disk.old disk.new self.old self.new (heard_by self.old reply.now)) }
        ensures any_moment { WritesAtMost D.Disk disk.old disk.new self.old (heard_by self.old reply.now) }
        ensures in_doubt { IsErrOf result AgentFault.Failed →
            LeavesInDoubt D.Disk disk.old disk.new self.old (heard_by self.old reply.now) }
        ensures memory { IsErrOf result AgentFault.Memory → Untouched disk.old disk.new self.old self.new }
        ensures failed { IsErrOf result AgentFault.Failed →
            FailsAt D.Disk self.old.store.cell disk.old disk.new (heard_by self.old reply.now).entry }
        ensures others { TouchesOnly D.Disk self.old.store.cell disk.old disk.new }
        ensures same { IsSameAgent self.old self.new }
    {
        match reply {
            Reply::Begun {
                lease,
                result: BegunResult::Good,
            } => self.hear_begun(alloc, disk, *lease),
            Reply::Begun {
                lease,
                result: BegunResult::Denied(denial),
            } => Ok(self.hear_denied(alloc, *lease, denial)?),
            Reply::Committed {
                lease,
                result: CommittedResult::Good,
            } => self.hear_committed(alloc, disk, *lease),
            Reply::Leases { page, .. } => Ok(self.hear_page(alloc, page)?),
            Reply::Ranged {
                cell,
                number,
                result,
            } => self.hear_range(alloc, disk, *cell, *number, *result),
            Reply::Committed {
                result: CommittedResult::Unknown | CommittedResult::WasRolledBack,
                ..
            }
            | Reply::RolledBack { .. }
            | Reply::Claims { .. }
            | Reply::Classified { .. }
            | Reply::Page { .. }
            | Reply::NoCell { .. } => Ok(nothing(alloc)),
        }
    }
}
