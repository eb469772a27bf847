ghost use Rattle.std.specs.Prelude.{◌≡◌, ◌+◌, ◌≤◌, ◌<◌, ◌^◌, List, [], ◌∷◌, ◌++◌, length, nat_eq, ◌&&◌, if◌then◌else◌, true, IsTrue, is_ok, IfOk, IfSome, OnErr};
ghost use Rattle.claim_types.specs.declared.cell.Range.{Range};
ghost use Rattle.claim_map.specs.State.{covers as is_covered};
ghost use Rattle.claim_map.specs.Ranges as rule;
ghost use Rattle.claim_map.specs.Ranges.{AreRanges, range_verdict, ranges_after};
ghost use Rattle.cell_registry.specs.Giving.{asked_by, IsGiven, IsAdded};

use crate::{RangeFault, Registry};
use claim_types::{GREATEST_IDENTIFIER, NoMemory, Range};
use std::alloc::Global;
use std::marker::Model;

/// The range that a request comes to, and whether it is to be given now or was given before.
#[derive(Clone, Copy)]
pub struct Asked {
    pub range: Range,
    pub fresh: bool,
}

/// The ranges that were given, in order of giving. Contracts see it as the list of them.
#[derive(Drop)]
pub struct Ranges {
    given: Vec<Range>,
}

impl Model for Ranges {
    ghost use Rattle.std.specs.Prelude.{List};
    ghost use Rattle.claim_types.specs.declared.cell.Range.{Range};

    ghost Value = { List Range };

    ghost use Rattle.claim_map.specs.Ranges.{AreRanges};

    ghost view = { λ r. r.given.items };

    ghost invariant = { λ r. AreRanges r.given.items };
}

fn is_numbered(range: &Range, cell: u16, number: u64) -> bool
    ensures { result ≡ (nat_eq range.now.cell cell && nat_eq range.now.number number) }
{
    range.cell == cell && range.number == number
}

fn given_as(given: &[Range], cell: u16, number: u64) -> Option<Range>
    ensures value { result ≡ rule.given_as given.now cell number }
    ensures asked { IfSome result (λ range. (range.cell ≡ cell) × (range.number ≡ number)) }
{
    given
        .iter()
        .copied()
        .find(|range| is_numbered(range, cell, number))
}

fn next_number(given: &[Range], cell: u16) -> u64
    requires { length given.now < 2 ^ 63 }
    ensures { result ≡ rule.next_number given.now cell }
{
    given.iter().filter(|range| range.cell == cell).count() as u64 + 1
}

fn last_end(given: &[Range]) -> u64
    requires { AreRanges given.now }
    ensures value { result ≡ rule.last_end given.now }
    ensures bound { result ≤ GREATEST_IDENTIFIER }
{
    match given.last() {
        Some(range) => range.high,
        None => 0,
    }
}

fn follows(given: &[Range], range: &Range) -> bool
    requires { AreRanges given.now }
    ensures { result ≡ rule.follows given.now range.now }
{
    if range.number != next_number(given, range.cell) {
        return false;
    }
    if range.low != last_end(given) + 1 {
        return false;
    }
    range.low <= range.high && range.high <= GREATEST_IDENTIFIER
}

impl Ranges {
    /// No range, which takes no memory.
    pub fn new(alloc: Global) -> Self
        ensures { result ≡ [] }
    {
        Ranges {
            given: Vec::new(alloc),
        }
    }

    /// Adds a range that was given before, of whatever width. The answer is false, and nothing changes,
    /// where its number is not the next of its cell, it does not begin just past the last range, or its
    /// end is below its beginning or past the greatest identifier.
    pub fn add(&mut self, range: Range) -> Result<bool, NoMemory>
        ensures answer { IsAdded result (rule.follows self.old range) }
        ensures added { IfOk result (λ added. self.new ≡ (if added then self.old ++ range ∷ [] else self.old)) }
        ensures err { OnErr result (self.new ≡ self.old) }
    {
        if !follows(&self.given, &range) {
            return Ok(false);
        }
        self.given.push(range)?;
        Ok(true)
    }

    /// What a request of a cell for its range with this number comes to. Nothing changes, and it takes no
    /// memory.
    pub fn asked(&self, registry: &Registry, cell: u16, number: u64) -> Result<Asked, RangeFault>
        requires { 1 ≤ number }
        ensures answer { result ≡ asked_by (range_verdict registry.now self.now cell number) }
        ensures asked { IfOk result (λ asked. (asked.range.cell ≡ cell) × (asked.range.number ≡ number)) }
        ensures follows { IfOk result (λ asked. IsTrue asked.fresh → rule.follows self.now asked.range ≡ true) }
    {
        let Some(cell) = registry.cell(cell) else {
            return Err(RangeFault::UnknownCell);
        };
        if let Some(range) = given_as(&self.given, cell.id, number) {
            return Ok(Asked {
                range,
                fresh: false,
            });
        }
        let next = next_number(&self.given, cell.id);
        if next < number {
            return Err(RangeFault::TooFar { next });
        }
        let last = last_end(&self.given);
        if GREATEST_IDENTIFIER - last < cell.width {
            return Err(RangeFault::Exhausted { last });
        }
        let range = Range {
            cell: cell.id,
            number: next,
            low: last + 1,
            high: last + cell.width,
        };
        Ok(Asked { range, fresh: true })
    }

    /// Gives a cell its range with this number. A number that was given before gives the same range, and
    /// nothing changes.
    pub fn give(&mut self, registry: &Registry, cell: u16, number: u64) -> Result<Range, RangeFault>
        requires { 1 ≤ number }
        ensures answer { IsGiven result (range_verdict registry.now self.old cell number) }
        ensures after { self.new ≡
            (if is_ok result then ranges_after (range_verdict registry.now self.old cell number) self.old else self.old) }
        ensures asked { IfOk result (λ range. (range.cell ≡ cell) × (range.number ≡ number)) }
    {
        let asked = self.asked(registry, cell, number)?;
        if asked.fresh {
            self.given.push(asked.range)?;
        }
        Ok(asked.range)
    }

    /// Whether an identifier lies in a range of the cell.
    pub fn covers(&self, cell: u16, id: u64) -> bool
        ensures { result ≡ is_covered self.now cell id }
    {
        self.given
            .iter()
            .filter(|range| range.cell == cell)
            .any(|range| range.low <= id && id <= range.high)
    }

    /// The ranges, in order of giving.
    pub fn list(&self) -> &[Range]
        ensures value { result.now ≡ self.now }
        ensures sound { AreRanges self.now }
    {
        self.given.as_slice()
    }
}
