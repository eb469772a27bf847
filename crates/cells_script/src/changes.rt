//! Lines that change the records of a cell.
ghost use Rattle.std.specs.Prelude.{◌≡◌, IfOk, IfSome, map};
ghost use Rattle.std.specs.List.{All};
ghost use Rattle.claim_types.specs.Bounds.{IsCell};
ghost use Rattle.cells_script.specs.Bounds.{IsWord, IsLine};
ghost use Rattle.cells_script.specs.Lines as spec;

use crate::Line;
use crate::numbers::cell_in;
use crate::words::text_of;
use claim_types::{Bucket, NoMemory};
use std::alloc::Global;

// What one word creates.
fn create_one(alloc: Global, cell: u16, kind: &str, word: &str) -> Result<Option<Line>, NoMemory>
    requires cell { IsCell cell }
    requires word { IsWord word.now }
    ensures value { IfOk result (λ line. line ≡ spec.create_one cell kind.now word.now) }
    ensures bounds { IfOk result (λ line. IfSome line IsLine) }
{
    let word = text_of(alloc, word)?;
    Ok(match kind {
        "organization" => Some(Line::CreateOrganization { cell, name: word }),
        "group" => Some(Line::CreateGroup { cell, route: word }),
        "project" => Some(Line::CreateProject { cell, route: word }),
        _ => None,
    })
}

// What two words create.
fn create_two(
    alloc: Global,
    cell: u16,
    kind: &str,
    first: &str,
    second: &str,
) -> Result<Option<Line>, NoMemory>
    requires cell { IsCell cell }
    requires first { IsWord first.now }
    requires second { IsWord second.now }
    ensures value { IfOk result (λ line. line ≡ spec.create_two cell kind.now first.now second.now) }
    ensures bounds { IfOk result (λ line. IfSome line IsLine) }
{
    let (first, second) = (text_of(alloc, first)?, text_of(alloc, second)?);
    Ok(match kind {
        "user" => Some(Line::CreateUser {
            cell,
            name: first,
            organization: second,
        }),
        "group" => Some(Line::CreateTopGroup {
            cell,
            name: first,
            organization: second,
        }),
        "key" => Some(Line::CreateKey {
            cell,
            user: first,
            value: second,
        }),
        "address" => Some(Line::CreateAddress {
            cell,
            user: first,
            value: second,
        }),
        "domain" => Some(Line::CreateDomain {
            cell,
            route: first,
            value: second,
        }),
        _ => None,
    })
}

pub fn create_line(alloc: Global, words: &[&str]) -> Result<Option<Line>, NoMemory>
    requires { All (λ w. IsWord w.now) words.now }
    ensures value { IfOk result (λ line. line ≡ spec.create_line (map (λ w. w.now) words.now)) }
    ensures bounds { IfOk result (λ line. IfSome line IsLine) }
{
    match words {
        [cell, kind, word] => match cell_in(cell) {
            Some(cell) => create_one(alloc, cell, kind, word),
            None => Ok(None),
        },
        [cell, kind, first, second] => match cell_in(cell) {
            Some(cell) => create_two(alloc, cell, kind, first, second),
            None => Ok(None),
        },
        _ => Ok(None),
    }
}

pub fn rename_line(alloc: Global, words: &[&str]) -> Result<Option<Line>, NoMemory>
    requires { All (λ w. IsWord w.now) words.now }
    ensures value { IfOk result (λ line. line ≡ spec.rename_line (map (λ w. w.now) words.now)) }
    ensures bounds { IfOk result (λ line. IfSome line IsLine) }
{
    let [cell, bucket, value, name] = words else {
        return Ok(None);
    };
    let Some(cell) = cell_in(cell) else {
        return Ok(None);
    };
    let Some(bucket) = Bucket::from_name(bucket) else {
        return Ok(None);
    };
    let value = text_of(alloc, value)?;
    let name = text_of(alloc, name)?;
    Ok(Some(Line::Rename {
        cell,
        bucket,
        value,
        name,
    }))
}

pub fn remove_line(alloc: Global, words: &[&str]) -> Result<Option<Line>, NoMemory>
    requires { All (λ w. IsWord w.now) words.now }
    ensures value { IfOk result (λ line. line ≡ spec.remove_line (map (λ w. w.now) words.now)) }
    ensures bounds { IfOk result (λ line. IfSome line IsLine) }
{
    let [cell, bucket, value] = words else {
        return Ok(None);
    };
    let Some(cell) = cell_in(cell) else {
        return Ok(None);
    };
    let Some(bucket) = Bucket::from_name(bucket) else {
        return Ok(None);
    };
    let value = text_of(alloc, value)?;
    Ok(Some(Line::Remove {
        cell,
        bucket,
        value,
    }))
}
