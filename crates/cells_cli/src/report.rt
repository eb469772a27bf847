//! What is written of a line of a script: its notes, its transitions, its answer.
ghost use Rattle.std.specs.Prelude.{◌≡◌, ◌≤◌, ◌++◌, ◌∷◌, [], IfOk, OnOk};
ghost use Rattle.cells_script.specs.Texts.{answer_text, note_text as text_of_note, transition_text as text_of_transition};
ghost use Rattle.cells_cli.specs.Doing.{Tells};
ghost use Rattle.cells_cli.specs.Told.{answer_line as line_of_answer, answered_text, as_lines, broken_off_text, events_text};

use crate::tellable::{can_tell_answer, can_tell_note, can_tell_step};
use crate::up::UpStop;
use cells_base::{NoMemory, Text};
use cells_edge::{Sink, SinkFailed, write_all};
use cells_script::{Answer, note_text, transition_text};
use claim_types::{Note, Transition};
use std::alloc::Global;

// Puts a line behind a text.
fn put_line(text: &mut Vec<u8>, line: &[u8]) -> Result<(), NoMemory>
    ensures { OnOk result (text.new.items ≡ text.old.items ++ line.now ++ 10 ∷ []) }
{
    text.extend_from_slice(line)?;
    text.push(b'\n')?;
    Ok(())
}

// The text of a note. One with a lease outside its bounds, which never comes, has none.
fn line_of_note(alloc: Global, note: &Note) -> Result<Text, NoMemory>
    ensures { IfOk result (λ text. text ≡ text_of_note note.now) }
{
    if !can_tell_note(note) {
        return Err(NoMemory);
    }
    note_text(alloc, note)
}

fn line_of_step(alloc: Global, step: &Transition) -> Result<Text, NoMemory>
    ensures { IfOk result (λ text. text ≡ text_of_transition step.now) }
{
    if !can_tell_step(&step.step) {
        return Err(NoMemory);
    }
    transition_text(alloc, step)
}

fn text_of_answer(alloc: Global, answer: &Answer) -> Result<Text, NoMemory>
    ensures { IfOk result (λ text. text ≡ answer_text answer.now) }
{
    if !can_tell_answer(answer) {
        return Err(NoMemory);
    }
    answer.text(alloc)
}

fn put_notes(alloc: Global, text: &mut Vec<u8>, notes: &[Note]) -> Result<(), NoMemory>
    ensures { OnOk result (text.new.items ≡ text.old.items ++ as_lines text_of_note notes.now) }
{
    for note in notes {
        let line = line_of_note(alloc, note)?;
        put_line(text, line.as_slice())?;
    }
    Ok(())
}

fn put_steps(alloc: Global, text: &mut Vec<u8>, steps: &[Transition]) -> Result<(), NoMemory>
    ensures { OnOk result (text.new.items ≡ text.old.items ++ as_lines text_of_transition steps.now) }
{
    for step in steps {
        let line = line_of_step(alloc, step)?;
        put_line(text, line.as_slice())?;
    }
    Ok(())
}

// The notes and the transitions of a line.
fn events_of(alloc: Global, notes: &[Note], steps: &[Transition]) -> Result<Vec<u8>, NoMemory>
    ensures { IfOk result (λ text. text.items ≡ events_text notes.now steps.now) }
{
    let mut text = Vec::new(alloc);
    put_notes(alloc, &mut text, notes)?;
    put_steps(alloc, &mut text, steps)?;
    Ok(text)
}

// The line of an answer.
fn answer_line(alloc: Global, number: u64, answer: &Answer) -> Result<Vec<u8>, NoMemory>
    ensures { IfOk result (λ line. line.items ≡ line_of_answer number answer.now) }
{
    let mut line = format!(in alloc; "{number}: ")?.into_bytes();
    let text = text_of_answer(alloc, answer)?;
    put_line(&mut line, text.as_slice())?;
    Ok(line)
}

// All that is written of a line that was answered.
#[tactic(auto, unfolding(crate::specs::Told::answered_text))]
fn text_of_line(
    alloc: Global,
    number: u64,
    notes: &[Note],
    steps: &[Transition],
    answer: &Answer,
) -> Result<Vec<u8>, NoMemory>
    ensures { IfOk result (λ text. text.items ≡ answered_text number notes.now steps.now answer.now) }
{
    let mut text = events_of(alloc, notes, steps)?;
    let line = answer_line(alloc, number, answer)?;
    text.extend_from_slice(&line)?;
    Ok(text)
}

fn write_text<W: Sink>(text: &[u8], out: &mut W) -> Result<(), UpStop>
    ensures told { Tells W.Sink text.now out.old out.new result }
    ensures later { W.faults out.old ≤ W.faults out.new }
{
    match write_all(out, text) {
        Ok(()) => Ok(()),
        Err(SinkFailed) => Err(UpStop::WriteFault),
    }
}

/// Writes of a line that was answered its notes, its transitions and its answer.
pub fn tell_line<W: Sink>(
    alloc: Global,
    number: u64,
    notes: &[Note],
    steps: &[Transition],
    answer: &Answer,
    out: &mut W,
) -> Result<(), UpStop>
    ensures told { Tells W.Sink (answered_text number notes.now steps.now answer.now) out.old out.new result }
    ensures later { W.faults out.old ≤ W.faults out.new }
{
    match text_of_line(alloc, number, notes, steps, answer) {
        Ok(text) => write_text(&text, out),
        Err(NoMemory) => Err(UpStop::Memory),
    }
}

/// Writes of the line at which a run ended its notes and its transitions.
#[tactic(auto, unfolding(crate::specs::Told::broken_off_text))]
pub fn tell_end<W: Sink>(
    alloc: Global,
    notes: &[Note],
    steps: &[Transition],
    out: &mut W,
) -> Result<(), UpStop>
    ensures told { Tells W.Sink (broken_off_text notes.now steps.now) out.old out.new result }
    ensures later { W.faults out.old ≤ W.faults out.new }
{
    match events_of(alloc, notes, steps) {
        Ok(text) => write_text(&text, out),
        Err(NoMemory) => Err(UpStop::Memory),
    }
}
