ghost use Rattle.std.specs.Prelude.{◌≡◌, ◌+◌, ◌<◌, ◌≤◌, ◌^◌, ◌&&◌, nat_eq, nat_le, Option, Some, None, option_map, [], length, take, slice_index_or};
ghost use Rattle.std.specs.List.{list_any, find};
ghost use Rattle.std.specs.FinMap as map;
ghost use Rattle.claim_types.specs.Order.{key_eq};
ghost use Rattle.claim_types.specs.Operations.{keys_of, operation_count};
ghost use Rattle.claim_types.specs.declared.verdict.Refusal.TheVariants.{Twice};
ghost use Rattle.claim_map.specs.State.{covers as covers_id};
ghost use Rattle.claim_map.specs.Verdict.{verdict_of, refusal_of, wrong_number as is_wrong_number, first_repeated, foreign as is_foreign, too_many_open as are_too_many_open, open_count, lease_naming, blocked_by, create_refusal as create_refused, destroy_refusal as destroy_refused, creates_refusal as creates_refused, destroys_refusal as destroys_refused};

use crate::Leases;
use cells_base::front;
use claim_types::{
    ClaimKey, Create, Holding, LeaseId, OPEN_LEASES, OPERATIONS, Operations, Range, Refusal,
    Verdict,
};

fn is_created(creates: &[Create], key: &ClaimKey) -> bool
    ensures { result ≡ list_any (λ c. key_eq c.key key.now) creates.now }
{
    creates.iter().any(|create| create.key == *key)
}

// Whether a key stands among these.
fn is_among(keys: &[ClaimKey], key: &ClaimKey) -> bool
    ensures { result ≡ list_any (λ k. key_eq k key.now) keys.now }
{
    keys.iter().any(|other| *other == *key)
}

fn number_of(ops: &Operations) -> usize
    ensures { result ≡ operation_count ops.now }
{
    ops.creates.as_slice().len() + ops.destroys.as_slice().len()
}

fn wrong_number(ops: &Operations) -> Option<Refusal>
    ensures { result ≡ is_wrong_number (operation_count ops.now) }
{
    let n = number_of(ops) as u64;
    if n == 0 || n > OPERATIONS {
        return Some(Refusal::NoneOrTooMany { n });
    }
    None
}

// Whether a range is of the cell and has the identifier.
fn has(range: &Range, cell: u16, id: u64) -> bool
    ensures { result ≡ (nat_eq range.now.cell cell && (nat_le range.now.low id && nat_le id range.now.high)) }
{
    range.cell == cell && (range.low <= id && id <= range.high)
}

// Whether an identifier lies in a range of the cell. Ranges that were given ascend, so the one that
// halving finds is looked at first.
fn covers(given: &[Range], cell: u16, id: u64) -> bool
    ensures { result ≡ covers_id given.now cell id }
{
    let place = given.partition_point(|range| range.high < id);
    if place < given.len() && has(&given[place], cell, id) {
        return true;
    }
    given
        .iter()
        .filter(|range| range.cell == cell)
        .any(|range| range.low <= id && id <= range.high)
}

fn foreign(given: &[Range], cell: u16, creates: &[Create]) -> Option<Refusal>
    ensures { result ≡ is_foreign given.now cell creates.now }
{
    creates
        .iter()
        .find(|create| !covers(given, cell, create.origin.row))
        .map(|create| Refusal::ForeignId {
            id: create.origin.row,
        })
}

fn too_many_open(leases: &Leases, cell: u16) -> Option<Refusal>
    ensures { result ≡ are_too_many_open (open_count leases.now.open_leases cell) }
{
    if OPEN_LEASES <= leases.open_of(cell) {
        return Some(Refusal::TooManyOpen);
    }
    None
}

// An open lease that names the key of the operation in this place.
fn blocked(named: Option<LeaseId>, index: u64) -> Option<Refusal>
    ensures { result ≡ blocked_by named index }
{
    named.map(|lease| Refusal::Leased { index, lease })
}

fn create_refusal(leases: &Leases, key: &ClaimKey, index: u64) -> Option<Refusal>
    ensures { result ≡ create_refused (map.get leases.now.holder key.now)
        (lease_naming leases.now.open_leases key.now) index }
{
    let state = leases.state(key);
    match state.holder {
        Some(holding) => Some(Refusal::Owned {
            index,
            cell: holding.cell,
        }),
        None => blocked(state.named, index),
    }
}

fn destroy_refusal(leases: &Leases, cell: u16, key: &ClaimKey, index: u64) -> Option<Refusal>
    ensures { result ≡ destroy_refused cell (map.get leases.now.holder key.now)
        (lease_naming leases.now.open_leases key.now) index }
{
    let state = leases.state(key);
    match state.holder {
        Some(holding) if holding.cell == cell => blocked(state.named, index),
        _ => Some(Refusal::NotOwned { index }),
    }
}

fn creates_refusal(leases: &Leases, creates: &[Create]) -> Option<Refusal>
    ensures { result ≡ creates_refused leases.now 0 creates.now }
{
    let mut index = 0u64;
    for create in creates {
        let refused = create_refusal(leases, &create.key, index);
        if refused.is_some() {
            return refused;
        }
        index += 1;
    }
    None
}

fn destroys_refusal(
    leases: &Leases,
    cell: u16,
    first: u64,
    destroys: &[ClaimKey],
) -> Option<Refusal>
    requires { first + length destroys.now < 2 ^ 64 }
    ensures { result ≡ destroys_refused leases.now cell first destroys.now }
{
    let mut index = first;
    for key in destroys {
        let refused = destroy_refusal(leases, cell, key, index);
        if refused.is_some() {
            return refused;
        }
        index += 1;
    }
    None
}

// The key of the operation in this place.
fn key_at(ops: &Operations, index: usize) -> &ClaimKey
    requires { index < operation_count ops.now }
    ensures { result.now ≡ slice_index_or (keys_of ops.now) index result.now }
{
    let creates = ops.creates.as_slice();
    if index < creates.len() {
        return &creates[index].key;
    }
    &ops.destroys.as_slice()[index - creates.len()]
}

// Whether an operation before this place has a key.
fn stands_before(ops: &Operations, index: usize, key: &ClaimKey) -> bool
    requires { index ≤ operation_count ops.now }
    ensures { result ≡ list_any (λ k. key_eq k key.now) (take index (keys_of ops.now)) }
{
    let creates = ops.creates.as_slice();
    if index <= creates.len() {
        return is_created(front(creates, index), key);
    }
    if is_created(creates, key) {
        return true;
    }
    is_among(front(ops.destroys.as_slice(), index - creates.len()), key)
}

fn repeated(ops: &Operations) -> Option<u64>
    requires { operation_count ops.now < 2 ^ 32 }
    ensures { result ≡ first_repeated [] (keys_of ops.now) }
{
    for index in 0..number_of(ops) {
        if stands_before(ops, index, key_at(ops, index)) {
            return Some(index as u64);
        }
    }
    None
}

fn twice(ops: &Operations) -> Option<Refusal>
    requires { operation_count ops.now < 2 ^ 32 }
    ensures { result ≡ option_map Twice (first_repeated [] (keys_of ops.now)) }
{
    match repeated(ops) {
        Some(index) => Some(Refusal::Twice { index }),
        None => None,
    }
}

// Why a lease that is neither open nor settled may not be opened.
fn refusal(leases: &Leases, given: &[Range], id: LeaseId, ops: &Operations) -> Option<Refusal>
    ensures { result ≡ refusal_of leases.now given.now id ops.now }
{
    let creates = ops.creates.as_slice();
    let destroys = ops.destroys.as_slice();
    if let Some(reason) = wrong_number(ops) {
        return Some(reason);
    }
    if let Some(reason) = twice(ops) {
        return Some(reason);
    }
    if let Some(reason) = foreign(given, id.cell, creates) {
        return Some(reason);
    }
    if let Some(reason) = too_many_open(leases, id.cell) {
        return Some(reason);
    }
    if let Some(reason) = creates_refusal(leases, creates) {
        return Some(reason);
    }
    destroys_refusal(leases, id.cell, creates.len() as u64, destroys)
}

impl Leases {
    /// What a begin of this lease comes to, where these ranges were given. It takes no memory and
    /// changes nothing.
    pub fn judge(&self, given: &[Range], id: LeaseId, ops: &Operations) -> Verdict
        ensures { result ≡ verdict_of self.now given.now id ops.now }
    {
        if let Some(how) = self.how_ended(id) {
            return Verdict::Refused(Refusal::Settled { how });
        }
        match self.is_same(id, ops) {
            Some(true) => Verdict::Again,
            Some(false) => Verdict::Refused(Refusal::OtherOperations),
            None => match refusal(self, given, id, ops) {
                Some(reason) => Verdict::Refused(reason),
                None => Verdict::Fresh,
            },
        }
    }
}
