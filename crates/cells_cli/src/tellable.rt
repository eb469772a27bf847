//! Whether something can be told: the leases that it names are within their bounds.
ghost use Rattle.std.specs.Prelude.{IsTrue, IfSome};
ghost use Rattle.claim_types.specs.Leases.{IsLease};
ghost use Rattle.cells_script.specs.Telling.{CanTellAnswer, CanTellDenial, CanTellNote, CanTellRule, CanTellStep};

use cells_script::Answer;
use claim_types::{Denial, GREATEST_ATTEMPT, GREATEST_CELL, LeaseId, Note, Rule, Step};

fn is_lease(lease: LeaseId) -> bool
    ensures { IsTrue result → IsLease lease }
{
    if lease.cell == 0 || lease.cell > GREATEST_CELL {
        return false;
    }
    if lease.epoch == 0 {
        return false;
    }
    if lease.attempt == 0 {
        return false;
    }
    lease.attempt <= GREATEST_ATTEMPT
}

fn can_tell_denial(denial: &Denial) -> bool
    ensures { IsTrue result → CanTellDenial denial.now }
{
    match denial {
        Denial::Leased { lease, .. } => is_lease(*lease),
        Denial::Settled { .. }
        | Denial::OtherOperations
        | Denial::NoneOrTooMany { .. }
        | Denial::Twice { .. }
        | Denial::ForeignId { .. }
        | Denial::TooManyOpen
        | Denial::Owned { .. }
        | Denial::NotOwned { .. } => true,
    }
}

fn can_tell_denied(lease: LeaseId, denial: &Denial) -> bool
    ensures lease { IsTrue result → IsLease lease }
    ensures denial { IsTrue result → CanTellDenial denial.now }
{
    if !is_lease(lease) {
        return false;
    }
    can_tell_denial(denial)
}

fn can_tell_rule(rule: &Rule) -> bool
    ensures { IsTrue result → CanTellRule rule.now }
{
    !matches!(rule, Rule::Memory)
}

fn can_tell_waiting(lease: Option<LeaseId>) -> bool
    ensures { IsTrue result → IfSome lease IsLease }
{
    match lease {
        Some(lease) => is_lease(lease),
        None => true,
    }
}

pub fn can_tell_answer(answer: &Answer) -> bool
    ensures { IsTrue result → CanTellAnswer answer.now }
{
    match answer {
        Answer::Refused { rule } => can_tell_rule(rule),
        Answer::InDoubt { lease } => is_lease(*lease),
        Answer::Accepted { lease } => is_lease(*lease),
        Answer::Changed { lease, .. } => is_lease(*lease),
        Answer::Denied { lease, denial } => can_tell_denied(*lease, denial),
        Answer::Waiting { lease } => can_tell_waiting(*lease),
        _ => true,
    }
}

pub fn can_tell_note(note: &Note) -> bool
    ensures { IsTrue result → CanTellNote note.now }
{
    match note {
        Note::Ended { lease } => is_lease(*lease),
        Note::Changed { lease, .. } => is_lease(*lease),
    }
}

pub fn can_tell_step(step: &Step) -> bool
    ensures { IsTrue result → CanTellStep step.now }
{
    match step {
        Step::Leased { lease, .. } => is_lease(*lease),
        Step::Denied { lease, denial } => can_tell_denied(*lease, denial),
        Step::Recorded { lease, .. } => is_lease(*lease),
        Step::Committed { lease } => is_lease(*lease),
        Step::RolledBack { lease } => is_lease(*lease),
        Step::Ranged { .. } | Step::Answered { .. } | Step::Served { .. } => true,
    }
}
