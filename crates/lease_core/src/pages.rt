ghost use Rattle.std.specs.Prelude.{◌≡◌, [], IfOk, length, max, map as each, filter, take, nat_eq, nat_lt, ◌&&◌};
ghost use Rattle.std.specs.FinMap as map;
ghost use Rattle.std.specs.FinMap.{values, from_entries};
ghost use Rattle.claim_map.specs.Pages.{is_above as stands_behind, place_cmp, placed, is_listed};
ghost use Rattle.lease_core.specs.Kept.{HasHeld};
ghost use Rattle.lease_core.specs.Listed.{first_sought};
ghost use Rattle.lease_core.specs.Gathered.{claim_at as claim_there, is_beyond as stands_beyond, is_place as is_its_place};

use crate::lease_map::LeaseMap;
use crate::rows::{RowKey, Rows};
use claim_types::{
    Bucket, CLAIMS_A_PAGE, ClaimItem, ClaimKey, Copied, Holding, Items, LEASES_A_PAGE, LeaseId,
    NoMemory, Operations, Text,
};
use key_table::Keys;
use std::alloc::Global;

/// How many leases are sought for a page: one more, so that it can say whether the list goes on.
pub const LEASES_SOUGHT: usize = LEASES_A_PAGE as usize + 1;

/// How many claims are sought for a page.
pub const CLAIMS_SOUGHT: usize = CLAIMS_A_PAGE as usize + 1;

/// The first of these items, at most so many, and whether there are more.
pub fn page_of<T: Drop>(mut items: Vec<T>, most: usize) -> (Items<T>, bool)
    ensures items { result.0 ≡ take most items.items }
    ensures more { result.1 ≡ nat_lt most (length items.items) }
{
    let more = most < items.len();
    items.truncate(most);
    (Items::from_vec(items), more)
}

fn is_above(last: Option<LeaseId>, lease: LeaseId) -> bool
    ensures { result ≡ stands_behind last lease }
{
    match last {
        None => true,
        Some(last) => last < lease,
    }
}

fn is_sought(lease: LeaseId, cell: u16, last: Option<LeaseId>) -> bool
    ensures { result ≡ (nat_eq lease.cell cell && stands_behind last lease) }
{
    if lease.cell != cell {
        return false;
    }
    is_above(last, lease)
}

// A lease that none of a cell's page behind this one stands before.
fn first_lease(cell: u16, last: Option<LeaseId>) -> LeaseId
    ensures { result ≡ first_sought cell last }
{
    let least = LeaseId {
        cell,
        epoch: 0,
        attempt: 0,
    };
    match last {
        Some(last) if least < last => last,
        _ => least,
    }
}

/// The first open leases of a cell behind this one, at most so many.
pub fn leases_above(
    alloc: Global,
    open_leases: &LeaseMap<Operations>,
    cell: u16,
    last: Option<LeaseId>,
    most: usize,
) -> Result<Vec<LeaseId>, NoMemory>
    ensures { IfOk result (λ leases. leases.items ≡
        take most (filter (λ l. nat_eq l.cell cell && stands_behind last l) (map.keys open_leases.now))) }
{
    let mut leases = Vec::new(alloc);
    for (lease, _) in open_leases.entries.range(first_lease(cell, last)..) {
        if leases.len() >= most {
            return Ok(leases);
        }
        if lease.cell > cell {
            return Ok(leases);
        }
        if is_sought(*lease, cell, last) {
            leases.push(*lease)?;
        }
    }
    Ok(leases)
}

/// Which claims a page lists: those of a cell and a bucket with a row from `first` to `last` and
/// above `after`.
#[derive(Clone, Copy)]
pub struct Listing {
    pub cell: u16,
    pub bucket: Bucket,
    pub first: u64,
    pub last: u64,
    pub after: u64,
}

fn lists(listing: &Listing, key: &ClaimKey, holding: &Holding) -> bool
    ensures { result ≡ is_listed listing.now.cell listing.now.bucket listing.now.first listing.now.last
        listing.now.after (key.now, holding.now) }
{
    let row = holding.origin.row;
    holding.cell == listing.cell
        && key.bucket.number() == listing.bucket.number()
        && listing.first <= row
        && row <= listing.last
        && listing.after < row
}

/// Whether this is the place of its key, where the key is held so.
pub fn is_place(place: &RowKey, holding: &Holding) -> bool
    ensures { result ≡ is_its_place place.now holding.now }
{
    place.cell == holding.cell
        && place.bucket.number() == place.key.bucket.number()
        && place.row == holding.origin.row
}

// Whether a place stands behind all that a page may list.
fn is_beyond(listing: &Listing, place: &RowKey) -> bool
    ensures { result ≡ stands_beyond listing.now.cell listing.now.bucket listing.now.last place.now }
{
    place
        .cell
        .cmp(&listing.cell)
        .then_with(|| place.bucket.number().cmp(&listing.bucket.number()))
        .then_with(|| place.row.cmp(&listing.last))
        .is_gt()
}

// The claim of a place, if its key is held there and the page lists it.
fn claim_at(
    alloc: Global,
    keys: &Keys,
    listing: &Listing,
    place: &RowKey,
) -> Result<Option<ClaimItem>, NoMemory>
    ensures { IfOk result (λ claim. claim ≡
        claim_there keys.now.holder
        (is_listed listing.now.cell listing.now.bucket listing.now.first listing.now.last listing.now.after)
        place.now) }
{
    let key = &place.key;
    let Some(holding) = keys.state(key.bucket, key.value.as_slice()).holder else {
        return Ok(None);
    };
    if !is_place(place, &holding) {
        return Ok(None);
    }
    if !lists(listing, key, &holding) {
        return Ok(None);
    }
    Ok(Some(ClaimItem {
        key: key.copy(alloc)?,
        subject: holding.subject,
        origin: holding.origin,
    }))
}

// A place that none of the page stands before.
fn first_place(alloc: Global, listing: &Listing) -> RowKey
    ensures { result ≡ record {
      cell = listing.now.cell;
      bucket = listing.now.bucket;
      row = max listing.now.first
          listing.now.after;
      key = record { bucket = Bucket.OrganizationPath; value = [] };
    } }
{
    RowKey {
        cell: listing.cell,
        bucket: listing.bucket,
        row: listing.first.max(listing.after),
        key: ClaimKey {
            bucket: Bucket::OrganizationPath,
            value: Text::new(alloc),
        },
    }
}

/// The first claims that a page lists, in order of row and then of key, at most so many.
pub fn first_claims(
    alloc: Global,
    keys: &Keys,
    rows: &Rows,
    listing: &Listing,
    most: usize,
) -> Result<Vec<ClaimItem>, NoMemory>
    requires { HasHeld rows.now keys.now.holder }
    ensures { IfOk result (λ claims. claims.items ≡
        take most (values (from_entries {R = place_cmp} (each placed (filter
        (is_listed listing.now.cell listing.now.bucket listing.now.first listing.now.last listing.now.after)
        (map.entries keys.now.holder)))))) }
{
    let mut claims = Vec::new(alloc);
    for place in rows.places.range(first_place(alloc, listing)..) {
        if claims.len() >= most {
            return Ok(claims);
        }
        if is_beyond(listing, place) {
            return Ok(claims);
        }
        if let Some(claim) = claim_at(alloc, keys, listing, place)? {
            claims.push(claim)?;
        }
    }
    Ok(claims)
}
