//! The lines of a script, and the texts that answer them.
//!
//! ```text
//! let line = Line::read(alloc, b"create 1 user Alice acme")?;
//! // Some(Line::CreateUser { cell: 1, name: "Alice", organization: "acme" })
//! let answer = Answer::Accepted { lease };
//! answer.text(alloc)?                 // accepted 00010000-0001-8000-8000-000000000002
//! ```
//!
//! A [`Line`] has its words as they stand in the text, without their spaces; only the cookie of a `route`
//! line is the rest of the text as it stands. Each form of line is one small definition of `specs/Lines`, over
//! the words that `specs/Words` finds and the numbers that `specs/Numbers` reads. An [`Answer`], a note and a
//! transition are written as `specs/Texts` states: a name, and words behind it that each follow a space.
//!
//! Promised: [`Line::read`] gives exactly the line that a text is, and none where it is no line: a line that a
//! script skips, which is empty or begins with `#`, is none. Each word and number of a line that was read lies
//! within the bounds of `specs/Bounds`. [`Answer::text`], [`note_text`] and [`transition_text`] give exactly
//! their texts. Want of memory is the one other answer.
//!
//! It stands on `cells_base` and `claim_types`, on `uuid` for the texts of leases and on `itoa` for those of
//! numbers. A reader takes any bytes, without the line's end. A caller of a text keeps that it can be told, as
//! `specs/Telling` states: its leases are within their bounds, and no want of memory is told as a rule.
#![tactic(auto)]

mod answer;
mod asks;
mod changes;
mod limits;
mod line;
mod nodes;
mod numbers;
mod parts;
mod read;
mod telling;
#[cfg(test)]
mod tests;
mod word;
mod words;

pub use answer::Answer;
pub use limits::{GREATEST_COUNT, LINE_BYTES};
pub use line::{Line, Span};
pub use telling::{note_text, transition_text};
