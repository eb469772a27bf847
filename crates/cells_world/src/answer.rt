//! What a line of a script comes to.
ghost use Rattle.std.specs.Prelude.{◌≡◌, ◌≢◌, false, IsTrue, IfOk, IfSome, OnOk, Some, option_copied};
ghost use Rattle.std.specs.List.{list_any};
ghost use Rattle.cells_world.specs.Answers as spec;
ghost use Rattle.claim_types.specs.Bounds.{IsRangeNumber};
ghost use Rattle.claim_types.specs.declared.rule.Rule.TheVariants.{Memory as RuleMemory};
ghost use Rattle.cells_script.specs.declared.answer.Answer.TheVariants.{Refused};

use crate::course::Course;
use cells_base::NoMemory;
use cells_script::Answer;
use claim_types::{
    BegunResult, LeaseId, Note, RangedResult, Reply, Request, Rule, Step, Transition,
};
use reconciler::copy_of_denial;
use std::alloc::Global;

/// What the event of a line began.
#[derive(Drop)]
pub enum Begun {
    /// Nothing: the line comes to this.
    Told(Answer),
    /// A change was asked for, with this lease.
    Asked(LeaseId),
    /// A range was asked for.
    RangeAsked,
    /// A reconciliation began.
    Reconciles,
}

/// Whether a number is given and is 0, which numbers no range.
pub fn is_zero(number: Option<u64>) -> bool
    ensures test { result ≡ spec.is_zero number }
    ensures zero { IsTrue result → number ≡ Some 0 }
    ensures other { result ≡ false → IfSome number IsRangeNumber }
{
    match number {
        Some(number) => number == 0,
        None => false,
    }
}

/// Whether one of so many packets has this tag.
pub fn is_tag(tag: u64, sent: u64) -> bool
    ensures { result ≡ spec.is_tag tag sent }
{
    0 < tag && tag <= sent
}

/// What a line that is told the answer to a change begins, where this rule refuses it.
pub fn refused(rule: Rule) -> Result<Begun, NoMemory>
    ensures rule { OnOk result (rule ≢ RuleMemory) }
    ensures told { IfOk result (λ begun. begun ≡ Begun.Told (Refused rule)) }
{
    match rule {
        Rule::Memory => Err(NoMemory),
        _ => Ok(Begun::Told(Answer::Refused { rule })),
    }
}

// The change of a lease was recorded.
fn records(lease: LeaseId, step: &Step) -> bool
    ensures { result ≡ spec.records lease step.now }
{
    match step {
        Step::Recorded { lease: of, .. } => *of == lease,
        _ => false,
    }
}

// Whether the change of a lease is recorded among these transitions.
fn is_recorded(lease: LeaseId, steps: &[Transition]) -> bool
    ensures { result ≡ list_any (λ transition. spec.records lease transition.step) steps.now }
{
    steps
        .iter()
        .any(|transition| records(lease, &transition.step))
}

// The answer to a change that is recorded among these transitions.
fn recorded_in(lease: LeaseId, steps: &[Transition]) -> Option<Answer>
    ensures { result ≡ spec.recorded_in lease steps.now }
{
    if is_recorded(lease, steps) {
        return Some(Answer::Accepted { lease });
    }
    None
}

// The answer to a change whose attempt ended by this note since the records have changed.
fn change_noted(lease: LeaseId, note: &Note) -> Option<Answer>
    ensures { result ≡ spec.change_noted lease note.now }
{
    match note {
        Note::Changed {
            lease: of,
            then,
            now,
        } if *of == lease => Some(Answer::Changed {
            lease,
            then: *then,
            now: *now,
        }),
        _ => None,
    }
}

// The answer by the first of these notes that names the attempt.
fn first_change(lease: LeaseId, notes: &[Note]) -> Option<Answer>
    ensures { result ≡ spec.first_change lease notes.now }
{
    for note in notes {
        match change_noted(lease, note) {
            Some(answer) => return Some(answer),
            None => {}
        }
    }
    None
}

// The answer to a change whose begin was refused.
fn denial_in(
    alloc: Global,
    lease: LeaseId,
    reply: Option<&Reply>,
) -> Result<Option<Answer>, NoMemory>
    ensures { IfOk result (λ answer. answer ≡ spec.denial_in lease (option_copied reply.entry)) }
{
    match reply {
        Some(
            Reply::Begun {
                result: BegunResult::Denied(denial),
                ..
            },
        ) => Ok(Some(Answer::Denied {
            lease,
            denial: copy_of_denial(alloc, denial)?,
        })),
        _ => Ok(None),
    }
}

// What a change comes to: the first that applies.
fn answer_of_change(
    alloc: Global,
    lease: LeaseId,
    steps: &[Transition],
    notes: &[Note],
    reply: Option<&Reply>,
) -> Result<Answer, NoMemory>
    ensures { IfOk result (λ answer. answer
        ≡ spec.answer_of_change lease steps.now notes.now (option_copied reply.entry)) }
{
    if let Some(answer) = recorded_in(lease, steps) {
        return Ok(answer);
    }
    if let Some(answer) = first_change(lease, notes) {
        return Ok(answer);
    }
    match denial_in(alloc, lease, reply)? {
        Some(answer) => Ok(answer),
        None => Ok(Answer::Waiting { lease: Some(lease) }),
    }
}

// What a range that was asked for comes to, by the result in its reply.
fn answer_ranged(number: u64, given: &RangedResult) -> Answer
    ensures { result ≡ spec.answer_ranged number given.now }
{
    match given {
        RangedResult::Good { low, high } => Answer::Ranged {
            number,
            low: *low,
            high: *high,
        },
        RangedResult::UnknownCell => Answer::NoCell,
        RangedResult::TooFar { next } => Answer::TooFar { next: *next },
        RangedResult::Exhausted { last } => Answer::Exhausted { last: *last },
    }
}

// What a range that was asked for comes to, by its reply.
fn answer_of_range(reply: Option<&Reply>) -> Answer
    ensures { result ≡ spec.answer_of_range (option_copied reply.entry) }
{
    match reply {
        Some(Reply::Ranged { number, result, .. }) => answer_ranged(*number, result),
        _ => Answer::Waiting { lease: None },
    }
}

// What a reconciliation comes to, by the last page that was taken.
fn answer_of_reconcile(reply: Option<&Reply>) -> Answer
    ensures { result ≡ spec.answer_of_reconcile (option_copied reply.entry) }
{
    match reply {
        Some(Reply::Leases { .. }) => Answer::Reconciled,
        _ => Answer::Waiting { lease: None },
    }
}

impl Begun {
    /// What was begun by sending this request.
    pub fn by(request: &Request) -> Begun
        ensures { result ≡ spec.begun_by_request request.now }
    {
        match request {
            Request::Begin { lease, .. } => Begun::Asked(*lease),
            _ => Begun::RangeAsked,
        }
    }

    /// Whether the event put a packet, a lost one included: it sent one, or put one again.
    pub fn puts(&self) -> bool
        ensures { result ≡ spec.puts_first self.now }
    {
        match self {
            Begun::Told(Answer::Repeated { .. }) => true,
            Begun::Told(_) => false,
            _ => true,
        }
    }

    /// What the line waits for, where so many packets were sent by then.
    pub fn course(&self, sent: u64) -> Course
        ensures { result ≡ spec.course_of self.now sent }
    {
        match self {
            Begun::Told(_) => Course::Idle,
            _ => Course::Awaits { tag: sent },
        }
    }

    /// What the line comes to, by what was traced, noted and replied since.
    pub fn answer(
        self,
        alloc: Global,
        steps: &[Transition],
        notes: &[Note],
        reply: Option<&Reply>,
    ) -> Result<Answer, NoMemory>
        ensures { IfOk result (λ answer. answer ≡ spec.answer_by self steps.now notes.now (option_copied reply.entry)) }
    {
        match self {
            Begun::Told(answer) => Ok(answer),
            Begun::Asked(lease) => answer_of_change(alloc, lease, steps, notes, reply),
            Begun::RangeAsked => Ok(answer_of_range(reply)),
            Begun::Reconciles => Ok(answer_of_reconcile(reply)),
        }
    }
}
