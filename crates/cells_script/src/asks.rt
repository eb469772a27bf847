//! Lines that ask where something belongs.
ghost use Rattle.std.specs.Prelude.{◌≡◌, IfOk, IfSome, map};
ghost use Rattle.std.specs.List.{All};
ghost use Rattle.cells_script.specs.Bounds.{IsWord, IsRest, IsLine};
ghost use Rattle.cells_script.specs.Lines as spec;

use crate::Line;
use crate::numbers::cell_in;
use crate::words::text_of;
use claim_types::{Bucket, NoMemory, Text};
use std::alloc::Global;

fn classify_one(alloc: Global, by: &str, word: &str) -> Result<Option<Line>, NoMemory>
    requires { IsWord word.now }
    ensures value { IfOk result (λ line. line ≡ spec.classify_one by.now word.now) }
    ensures bounds { IfOk result (λ line. IfSome line IsLine) }
{
    match by {
        "cell" => match cell_in(word) {
            Some(cell) => Ok(Some(Line::ClassifyCell { cell })),
            None => Ok(None),
        },
        "session" => Ok(Some(Line::ClassifySession {
            text: text_of(alloc, word)?,
        })),
        "path" => Ok(Some(Line::ClassifyPath {
            text: text_of(alloc, word)?,
        })),
        _ => Ok(None),
    }
}

fn classify_two(
    alloc: Global,
    by: &str,
    bucket: &str,
    value: &str,
) -> Result<Option<Line>, NoMemory>
    requires { IsWord value.now }
    ensures value { IfOk result (λ line. line ≡ spec.classify_two by.now bucket.now value.now) }
    ensures bounds { IfOk result (λ line. IfSome line IsLine) }
{
    if by != "claim" {
        return Ok(None);
    }
    let Some(bucket) = Bucket::from_name(bucket) else {
        return Ok(None);
    };
    let value = text_of(alloc, value)?;
    Ok(Some(Line::ClassifyClaim { bucket, value }))
}

fn classify_by(by: &str) -> Option<Line>
    ensures value { result ≡ spec.classify_by by.now }
    ensures bounds { IfSome result IsLine }
{
    match by {
        "first" => Some(Line::ClassifyFirst),
        _ => None,
    }
}

pub fn classify_line(alloc: Global, words: &[&str]) -> Result<Option<Line>, NoMemory>
    requires { All (λ w. IsWord w.now) words.now }
    ensures value { IfOk result (λ line. line ≡ spec.classify_line (map (λ w. w.now) words.now)) }
    ensures bounds { IfOk result (λ line. IfSome line IsLine) }
{
    match words {
        [by] => Ok(classify_by(by)),
        [by, word] => classify_one(alloc, by, word),
        [by, bucket, value] => classify_two(alloc, by, bucket, value),
        _ => Ok(None),
    }
}

fn route(
    alloc: Global,
    method: &str,
    target: &str,
    cookie: Option<Text>,
) -> Result<Option<Line>, NoMemory>
    requires method { IsWord method.now }
    requires target { IsWord target.now }
    requires cookie { IfSome cookie IsRest }
    ensures value { IfOk result (λ line. line ≡ spec.route method.now target.now cookie) }
    ensures bounds { IfOk result (λ line. IfSome line IsLine) }
{
    let method = text_of(alloc, method)?;
    let target = text_of(alloc, target)?;
    Ok(Some(Line::Route {
        method,
        target,
        cookie,
    }))
}

// The cookie is the line from its fourth word on.
pub fn route_line(alloc: Global, cookie: &[u8], words: &[&str]) -> Result<Option<Line>, NoMemory>
    requires words { All (λ w. IsWord w.now) words.now }
    requires cookie { IsRest cookie.now }
    ensures value { IfOk result (λ line. line ≡ spec.route_line cookie.now (map (λ w. w.now) words.now)) }
    ensures bounds { IfOk result (λ line. IfSome line IsLine) }
{
    match words {
        [method, target] => route(alloc, method, target, None),
        [method, target, _, ..] => {
            let cookie = Text::from_slice(alloc, cookie)?;
            route(alloc, method, target, Some(cookie))
        }
        _ => Ok(None),
    }
}
