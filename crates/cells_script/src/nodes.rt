//! Lines about a node, the packets and the clock.
ghost use Rattle.std.specs.Prelude.{◌≡◌, IfSome, map};
ghost use Rattle.cells_script.specs.Bounds.{IsLine, IsCount, IsSpan};
ghost use Rattle.cells_script.specs.Lines as spec;

use crate::numbers::{cell_in, number_in};
use crate::{GREATEST_COUNT, Line, Span};
use claim_types::{Bucket, GREATEST_IDENTIFIER, GREATEST_NUMBER};

pub fn range_line(words: &[&str]) -> Option<Line>
    ensures value { result ≡ spec.range_line (map (λ w. w.now) words.now) }
    ensures bounds { IfSome result IsLine }
{
    match words {
        [cell] => Some(Line::Range {
            cell: cell_in(cell)?,
            number: None,
        }),
        [cell, number] => {
            let cell = cell_in(cell)?;
            let number = number_in(1, GREATEST_NUMBER, number)?;
            Some(Line::Range {
                cell,
                number: Some(number),
            })
        }
        _ => None,
    }
}

pub fn reconcile_line(words: &[&str]) -> Option<Line>
    ensures value { result ≡ spec.reconcile_line (map (λ w. w.now) words.now) }
    ensures bounds { IfSome result IsLine }
{
    match words {
        [cell] => Some(Line::Reconcile {
            cell: cell_in(cell)?,
        }),
        _ => None,
    }
}

fn span_in(bucket: &str, first: &str, last: &str) -> Option<Span>
    ensures value { result ≡ spec.span_in bucket.now first.now last.now }
    ensures bounds { IfSome result IsSpan }
{
    let bucket = Bucket::from_name(bucket)?;
    let first = number_in(1, GREATEST_IDENTIFIER, first)?;
    let last = number_in(first, GREATEST_IDENTIFIER, last)?;
    Some(Span {
        bucket,
        first,
        last,
    })
}

pub fn verify_line(words: &[&str]) -> Option<Line>
    ensures value { result ≡ spec.verify_line (map (λ w. w.now) words.now) }
    ensures bounds { IfSome result IsLine }
{
    match words {
        [cell] => Some(Line::Verify {
            cell: cell_in(cell)?,
            span: None,
        }),
        [cell, bucket, first, last] => {
            let cell = cell_in(cell)?;
            let span = span_in(bucket, first, last)?;
            Some(Line::Verify {
                cell,
                span: Some(span),
            })
        }
        _ => None,
    }
}

// The one number of a line.
pub fn count_in(words: &[&str]) -> Option<u64>
    ensures value { result ≡ spec.count_in (map (λ w. w.now) words.now) }
    ensures bounds { IfSome result IsCount }
{
    match words {
        [count] => number_in(0, GREATEST_COUNT, count),
        _ => None,
    }
}

fn restart(node: &str) -> Option<Line>
    ensures value { result ≡ spec.restart node.now }
    ensures bounds { IfSome result IsLine }
{
    match node {
        "service" => Some(Line::RestartService),
        _ => Some(Line::Restart {
            cell: cell_in(node)?,
        }),
    }
}

pub fn restart_line(words: &[&str]) -> Option<Line>
    ensures value { result ≡ spec.restart_line (map (λ w. w.now) words.now) }
    ensures bounds { IfSome result IsLine }
{
    match words {
        [node] => restart(node),
        _ => None,
    }
}
