//! Answers, notes and transitions as texts.
ghost use Rattle.std.specs.Prelude.{◌≡◌, [], ◌∷◌, ◌++◌, IfOk, OnOk};
ghost use Rattle.claim_types.specs.Leases.{IsLease, lease_text};
ghost use Rattle.cells_script.specs.Said.{word_text};
ghost use Rattle.cells_script.specs.Telling.{CanTellAnswer, CanTellDenial, CanTellNote, CanTellStep};
ghost use Rattle.cells_script.specs.Texts as spec;
ghost use Rattle.cells_script.specs.Texts.{behind};

use crate::Answer;
use crate::parts::{put_question, put_reason, put_rule};
use crate::word::{Word, lease_word, put, put_number, put_words};
use claim_types::{Class, Denial, LeaseId, NoMemory, Note, Question, Step, Text, Transition};
use std::alloc::Global;

// Writes a lease, and why it is refused.
fn put_denied(out: &mut Vec<u8>, lease: LeaseId, denial: &Denial) -> Result<(), NoMemory>
    requires lease { IsLease lease }
    requires denial { CanTellDenial denial.now }
    ensures { OnOk result (out.new.items ≡ out.old.items ++ behind (lease_text lease ∷ spec.reason_words denial.now)) }
{
    put_words(out, &[lease_word(lease)])?;
    put_reason(out, denial)
}

// Writes a lease whose change was asked for at one version and answered at another.
fn put_changed(out: &mut Vec<u8>, lease: LeaseId, then: u64, now: u64) -> Result<(), NoMemory>
    requires { IsLease lease }
    ensures { OnOk result (out.new.items ≡ out.old.items ++ behind (spec.changed_words lease then now)) }
{
    put_words(
        out,
        &[lease_word(lease), Word::Number(then), Word::Number(now)],
    )
}

fn name_of(answer: &Answer) -> &'static str
    ensures { result.now ≡ spec.answer_name answer.now }
{
    match answer {
        Answer::NoCell => "no cell",
        Answer::Refused { .. } => "refused",
        Answer::InDoubt { .. } => "in doubt",
        Answer::Accepted { .. } => "accepted",
        Answer::Changed { .. } => "changed",
        Answer::Denied { .. } => "denied",
        Answer::Waiting { .. } => "waiting",
        Answer::Ranged { .. } => "ranged",
        Answer::TooFar { .. } => "too far",
        Answer::Exhausted { .. } => "exhausted",
        Answer::Reconciled => "reconciled",
        Answer::Verified { .. } => "verified",
        Answer::Busy { .. } => "busy",
        Answer::Moved { .. } => "moved",
        Answer::InCell { .. } => "cell",
        Answer::NotFound => "not found",
        Answer::UnknownCell => "unknown cell",
        Answer::BadKey => "bad key",
        Answer::Served { .. } => "served",
        Answer::NotHere { .. } => "not here",
        Answer::NoRule => "no rule",
        Answer::BadTarget => "bad target",
        Answer::Armed => "armed",
        Answer::Waited => "waited",
        Answer::Repeated { .. } => "repeated",
        Answer::NoPacket => "no packet",
        Answer::Restarted => "restarted",
    }
}

// Writes what was counted in a comparison.
fn put_verified(out: &mut Vec<u8>, missing: u64, extra: u64, different: u64) -> Result<(), NoMemory>
    ensures { OnOk result (out.new.items ≡ out.old.items ++ behind (spec.verified_words missing extra different)) }
{
    put_words(
        out,
        &[
            Word::Number(missing),
            Word::Name("missing"),
            Word::Number(extra),
            Word::Name("extra"),
            Word::Number(different),
            Word::Name("different"),
        ],
    )
}

// Writes the words behind an answer's name.
fn put_details(out: &mut Vec<u8>, answer: &Answer) -> Result<(), NoMemory>
    requires { CanTellAnswer answer.now }
    ensures { OnOk result (out.new.items ≡ out.old.items ++ behind (spec.answer_words answer.now)) }
{
    match answer {
        Answer::Refused { rule } => put_rule(out, rule),
        Answer::InDoubt { lease } => put_words(out, &[lease_word(*lease)]),
        Answer::Accepted { lease } => put_words(out, &[lease_word(*lease)]),
        Answer::Changed { lease, then, now } => put_changed(out, *lease, *then, *now),
        Answer::Denied { lease, denial } => put_denied(out, *lease, denial),
        Answer::Waiting { lease: Some(lease) } => put_words(out, &[lease_word(*lease)]),
        Answer::Ranged { number, low, high } => {
            put_words(
                out,
                &[
                    Word::Number(*number),
                    Word::Number(*low),
                    Word::Number(*high),
                ],
            )
        }
        Answer::TooFar { next } => put_words(out, &[Word::Number(*next)]),
        Answer::Exhausted { last } => put_words(out, &[Word::Number(*last)]),
        Answer::Verified {
            missing,
            extra,
            different,
        } => put_verified(out, *missing, *extra, *different),
        Answer::Busy {
            pending,
            outstanding,
        } => { put_words(out, &[Word::Number(*pending), Word::Number(*outstanding)]) }
        Answer::Moved { then, now } => put_words(out, &[Word::Number(*then), Word::Number(*now)]),
        Answer::InCell { cell } => put_words(out, &[Word::Number(u64::from(*cell))]),
        Answer::Served { cell, id } => {
            put_words(out, &[Word::Number(u64::from(*cell)), Word::Number(*id)])
        }
        Answer::NotHere { cell } => put_words(out, &[Word::Number(u64::from(*cell))]),
        Answer::Repeated { tag } => put_words(out, &[Word::Number(*tag)]),
        _ => Ok(()),
    }
}

impl Answer {
    /// The answer as a text, without the number of its line.
    pub fn text(&self, alloc: Global) -> Result<Text, NoMemory>
        requires { CanTellAnswer self.now }
        ensures { IfOk result (λ text. text ≡ spec.answer_text self.now) }
    {
        let mut out = Vec::new(alloc);
        put(&mut out, name_of(self).as_bytes())?;
        put_details(&mut out, self)?;
        Ok(Text::from_vec(out))
    }
}

/// A note as a line of a report.
pub fn note_text(alloc: Global, note: &Note) -> Result<Text, NoMemory>
    requires { CanTellNote note.now }
    ensures { IfOk result (λ text. text ≡ spec.note_text note.now) }
{
    let mut out = Vec::new(alloc);
    match note {
        Note::Ended { lease } => {
            put(&mut out, b"  ended")?;
            put_words(&mut out, &[lease_word(*lease)])?;
        }
        Note::Changed { lease, then, now } => {
            put(&mut out, b"  changed")?;
            put_changed(&mut out, *lease, *then, *now)?;
        }
    }
    Ok(Text::from_vec(out))
}

fn step_name(step: &Step) -> &'static str
    ensures { result.now ≡ spec.step_name step.now }
{
    match step {
        Step::Leased { .. } => "leased",
        Step::Denied { .. } => "denied",
        Step::Recorded { .. } => "recorded",
        Step::Committed { .. } => "committed",
        Step::RolledBack { .. } => "rolled back",
        Step::Ranged { .. } => "ranged",
        Step::Answered { .. } => "answered",
        Step::Served { .. } => "served",
    }
}

fn class_word(class: Class) -> Word<'static>
    ensures { word_text result ≡ spec.class_text class }
{
    match class {
        Class::Cell { id } => Word::Number(u64::from(id)),
        Class::NotFound => Word::Name("none"),
        Class::UnknownCell => Word::Name("unknown"),
    }
}

// Writes what was asked, and a word about it.
fn put_asked(out: &mut Vec<u8>, question: &Question, word: Word<'_>) -> Result<(), NoMemory>
    ensures { OnOk result (out.new.items
        ≡ out.old.items ++ behind (spec.question_words question.now ++ word_text word.entry ∷ [])) }
{
    put_question(out, question)?;
    put_words(out, &[word])
}

// Writes the words behind a step's name.
fn put_step(out: &mut Vec<u8>, step: &Step) -> Result<(), NoMemory>
    requires { CanTellStep step.now }
    ensures { OnOk result (out.new.items ≡ out.old.items ++ behind (spec.step_words step.now)) }
{
    match step {
        Step::Leased { lease, .. } => put_words(out, &[lease_word(*lease)]),
        Step::Denied { lease, denial } => put_denied(out, *lease, denial),
        Step::Recorded { lease, .. } => put_words(out, &[lease_word(*lease)]),
        Step::Committed { lease } => put_words(out, &[lease_word(*lease)]),
        Step::RolledBack { lease } => put_words(out, &[lease_word(*lease)]),
        Step::Ranged { range } => put_words(
            out,
            &[
                Word::Number(u64::from(range.cell)),
                Word::Number(range.number),
                Word::Number(range.low),
                Word::Number(range.high),
            ],
        ),
        Step::Answered { question, class } => put_asked(out, question, class_word(*class)),
        Step::Served { question, cell } => put_asked(out, question, Word::Number(u64::from(*cell))),
    }
}

/// A transition as a line of a report.
pub fn transition_text(alloc: Global, transition: &Transition) -> Result<Text, NoMemory>
    requires { CanTellStep transition.now.step }
    ensures { IfOk result (λ text. text ≡ spec.transition_text transition.now) }
{
    let mut out = Vec::new(alloc);
    put(&mut out, b"  take ")?;
    put_number(&mut out, transition.take)?;
    put(&mut out, b": ")?;
    put(&mut out, step_name(&transition.step).as_bytes())?;
    put_step(&mut out, &transition.step)?;
    Ok(Text::from_vec(out))
}
