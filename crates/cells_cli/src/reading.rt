//! What a line of a script is: skipped, to be done, or refused.
ghost use Rattle.std.specs.Prelude.{◌≡◌, IfOk};
ghost use Rattle.cells_cli.specs.Script.{is_skipped as is_skipped_text, is_built as is_built_form, reading_if, reading_of as reading_of_text, IsFit};

use cells_base::NoMemory;
use cells_script::{LINE_BYTES, Line};
use std::alloc::Global;

/// What a line of a script is.
#[derive(Drop)]
pub enum Reading {
    /// It is skipped.
    Skipped,
    /// It is to be done.
    Wanted { line: Line },
    /// It is refused.
    Refused,
}

fn is_skipped(text: &[u8]) -> bool
    ensures { result ≡ is_skipped_text text.now }
{
    match text {
        [] => true,
        [first, ..] => *first == b'#',
    }
}

// Whether lines of this form are done.
fn is_built(line: &Line) -> bool
    ensures { result ≡ is_built_form line.now }
{
    match line {
        Line::Verify { .. }
        | Line::ClassifyFirst
        | Line::ClassifyCell { .. }
        | Line::ClassifySession { .. }
        | Line::ClassifyClaim { .. }
        | Line::ClassifyPath { .. }
        | Line::Route { .. }
        | Line::RestartService
        | Line::Restart { .. } => false,
        Line::CreateOrganization { .. }
        | Line::CreateUser { .. }
        | Line::CreateTopGroup { .. }
        | Line::CreateGroup { .. }
        | Line::CreateProject { .. }
        | Line::CreateKey { .. }
        | Line::CreateAddress { .. }
        | Line::CreateDomain { .. }
        | Line::Rename { .. }
        | Line::Remove { .. }
        | Line::Range { .. }
        | Line::Reconcile { .. }
        | Line::Lose { .. }
        | Line::Repeat { .. }
        | Line::Wait { .. } => true,
    }
}

// A line of the grammar is to be done where its form is built.
fn reading_with(line: Line) -> Reading
    ensures told { result ≡ reading_if (is_built_form line) line }
    ensures fit { IsFit result }
{
    if is_built(&line) {
        return Reading::Wanted { line };
    }
    Reading::Refused
}

/// What a line is that is not behind too many others, by its bytes without the line's end.
#[tactic(auto, unfolding(crate::specs::Script::reading_of))]
pub fn reading_of(alloc: Global, text: &[u8]) -> Result<Reading, NoMemory>
    ensures told { IfOk result (λ reading. reading ≡ reading_of_text text.now) }
    ensures fit { IfOk result IsFit }
{
    if text.len() as u64 > LINE_BYTES {
        return Ok(Reading::Refused);
    }
    if is_skipped(text) {
        return Ok(Reading::Skipped);
    }
    match Line::read(alloc, text)? {
        Some(line) => Ok(reading_with(line)),
        None => Ok(Reading::Refused),
    }
}
