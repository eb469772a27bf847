//! The words of a line.
ghost use Rattle.std.specs.Prelude.{◌≡◌, ◌≤◌, IfOk, IfSome, length, map, not, position, true};
ghost use Rattle.cells_script.specs.Bounds.{IsRest};
ghost use Rattle.cells_script.specs.Words as spec;

use crate::LINE_BYTES;
use cells_base::behind;
use claim_types::{NoMemory, Text};
use std::alloc::{AllocError, Global};

// Whether a line may be one: it is not too long, and is made of words with spaces between them.
#[tactic(auto, unfolding(crate::specs::Words::is_made_of_words))]
pub fn is_made_of_words(line: &[u8]) -> bool
    ensures { result ≡ spec.is_made_of_words line.now }
{
    if line.len() as u64 > LINE_BYTES {
        return false;
    }
    if !is_printable(line) {
        return false;
    }
    !has_space_at_an_end(line)
}

fn is_printable(line: &[u8]) -> bool
    ensures { result ≡ spec.is_all_printable line.now }
{
    line.iter().all(|b| (b' '..=b'~').contains(b))
}

fn has_space_at_an_end(line: &[u8]) -> bool
    ensures { result ≡ spec.has_space_at_an_end line.now }
{
    match line {
        [] => false,
        [first, .., last] => *first == b' ' || *last == b' ',
        [only] => *only == b' ',
    }
}

fn is_word(part: &str) -> bool
    ensures { result ≡ spec.is_word part.now }
{
    !part.is_empty()
}

// The words of a line, in order.
pub fn words_in(alloc: Global, line: &str) -> Result<Vec<&str>, AllocError>
    ensures { IfOk result (λ words. map (λ w. w.now) words.items ≡ spec.words_in line.now) }
{
    line.split(' ').filter(|word| is_word(word)).collect(alloc)
}

// A word as a text of its own.
pub fn text_of(alloc: Global, word: &str) -> Result<Text, NoMemory>
    ensures { IfOk result (λ text. text ≡ word.now) }
{
    Text::from_slice(alloc, word.as_bytes())
}

fn space_at(line: &[u8]) -> Option<usize>
    ensures place { result ≡ position spec.is_space line.now }
    ensures within { IfSome result (λ at. at ≤ length line.now) }
{
    line.iter().position(|b| *b == b' ')
}

fn word_at(line: &[u8]) -> Option<usize>
    ensures place { result ≡ position (λ b. not (spec.is_space b)) line.now }
    ensures within { IfSome result (λ at. at ≤ length line.now) }
{
    line.iter().position(|b| *b != b' ')
}

fn from_space(line: &[u8]) -> &[u8]
    ensures { result.now ≡ spec.from_space line.now }
{
    match space_at(line) {
        Some(at) => behind(line, at),
        None => &[],
    }
}

fn from_word(line: &[u8]) -> &[u8]
    ensures { result.now ≡ spec.from_word line.now }
{
    match word_at(line) {
        Some(at) => behind(line, at),
        None => &[],
    }
}

// The line from its second word on.
#[tactic(auto, unfolding(crate::specs::Words::after_word))]
fn after_word(line: &[u8]) -> &[u8]
    ensures { result.now ≡ spec.after_word line.now }
{
    from_word(from_space(line))
}

// The line from its fourth word on, as it stands.
pub fn cookie_in(line: &[u8]) -> &[u8]
    requires { spec.is_made_of_words line.now ≡ true }
    ensures value { result.now ≡ spec.after_three_words line.now }
    ensures rest { IsRest result.now }
{
    after_word(after_word(after_word(line)))
}
