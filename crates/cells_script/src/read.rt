//! Reading a line.
ghost use Rattle.std.specs.Prelude.{◌≡◌, IfOk, IfSome, map, true};
ghost use Rattle.std.specs.List.{All};
ghost use Rattle.cells_script.specs.Bounds.{IsWord, IsRest, IsLine};
ghost use Rattle.cells_script.specs.Lines.{line_of};
ghost use Rattle.cells_script.specs.Lines as spec;
ghost use Rattle.cells_script.specs.Words.{is_made_of_words as is_of_words};

use crate::Line;
use crate::asks::{classify_line, route_line};
use crate::changes::{create_line, remove_line, rename_line};
use crate::nodes::{count_in, range_line, reconcile_line, restart_line, verify_line};
use crate::words::{cookie_in, is_made_of_words, words_in};
use claim_types::NoMemory;
use std::alloc::Global;

fn count_line(verb: &str, words: &[&str]) -> Option<Line>
    ensures value { result ≡ spec.count_line verb.now (map (λ w. w.now) words.now) }
    ensures bounds { IfSome result IsLine }
{
    let count = count_in(words)?;
    match verb {
        "lose" => Some(Line::Lose { number: count }),
        "repeat" => Some(Line::Repeat { tag: count }),
        "wait" => Some(Line::Wait { seconds: count }),
        _ => None,
    }
}

// A line about a node, the packets or the clock.
fn node_line(verb: &str, words: &[&str]) -> Option<Line>
    ensures value { result ≡ spec.node_line verb.now (map (λ w. w.now) words.now) }
    ensures bounds { IfSome result IsLine }
{
    match verb {
        "range" => range_line(words),
        "reconcile" => reconcile_line(words),
        "verify" => verify_line(words),
        "restart" => restart_line(words),
        _ => count_line(verb, words),
    }
}

fn by_verb(
    alloc: Global,
    cookie: &[u8],
    verb: &str,
    words: &[&str],
) -> Result<Option<Line>, NoMemory>
    requires words { All (λ w. IsWord w.now) words.now }
    requires cookie { IsRest cookie.now }
    ensures value { IfOk result (λ line. line ≡ spec.by_verb cookie.now verb.now (map (λ w. w.now) words.now)) }
    ensures bounds { IfOk result (λ line. IfSome line IsLine) }
{
    match verb {
        "create" => create_line(alloc, words),
        "rename" => rename_line(alloc, words),
        "remove" => remove_line(alloc, words),
        "classify" => classify_line(alloc, words),
        "route" => route_line(alloc, cookie, words),
        _ => Ok(node_line(verb, words)),
    }
}

fn line_with(alloc: Global, cookie: &[u8], words: &[&str]) -> Result<Option<Line>, NoMemory>
    requires words { All (λ w. IsWord w.now) words.now }
    requires cookie { IsRest cookie.now }
    ensures value { IfOk result (λ line. line ≡ spec.line_with cookie.now (map (λ w. w.now) words.now)) }
    ensures bounds { IfOk result (λ line. IfSome line IsLine) }
{
    match words {
        [] => Ok(None),
        [verb, words @ ..] => by_verb(alloc, cookie, verb, words),
    }
}

// The line that is made of words.
fn line_in(alloc: Global, line: &str) -> Result<Option<Line>, NoMemory>
    requires { is_of_words line.now ≡ true }
    ensures value { IfOk result (λ found. found ≡ line_of line.now) }
    ensures bounds { IfOk result (λ found. IfSome found IsLine) }
{
    let words = words_in(alloc, line)?;
    line_with(alloc, cookie_in(line.as_bytes()), words.as_slice())
}

impl Line {
    /// The line of a script that a text is, if it is one. The text stands without its end. A line that a
    /// script skips is none.
    #[tactic(auto, unfolding(crate::specs::Lines::line_of))]
    pub fn read(alloc: Global, text: &[u8]) -> Result<Option<Line>, NoMemory>
        ensures value { IfOk result (λ line. line ≡ line_of text.now) }
        ensures bounds { IfOk result (λ line. IfSome line IsLine) }
    {
        if !is_made_of_words(text) {
            return Ok(None);
        }
        match str::from_utf8(text) {
            Ok(line) => line_in(alloc, line),
            Err(_) => unreachable!(),
        }
    }
}
