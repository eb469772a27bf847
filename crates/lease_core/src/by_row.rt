ghost use Rattle.std.specs.Prelude.{◌≡◌, filter};
ghost use Rattle.std.specs.Iterator.{YieldsFirstRef, item_count};
ghost use Rattle.lease_core.specs.Kept.{HasHeld};
ghost use Rattle.lease_core.specs.ByRow.{is_claimed as is_place_of_claim, ArePlacesOf};

use crate::pages::is_place;
use crate::rows::{RowKey, Rows};
use key_table::Keys;
use std::collections::btree_set::Iter;
use std::marker::Model;

/// The places of all claims, ascending by cell, bucket, row and key. Contracts see it as the list of
/// those that are still to come.
#[derive(Drop)]
pub struct ByRow<'a> {
    places: Iter<'a, RowKey>,
    keys: &'a Keys,
}

impl<'a> Model for ByRow<'a> {
    ghost use Rattle.std.specs.Prelude.{List, filter};
    ghost use Rattle.std.specs.Coded.{coded_list};
    ghost use Rattle.lease_core.specs.declared.rows.RowKey.{RowKey};
    ghost use Rattle.lease_core.specs.contracts.rows.RowKey as row_type;
    ghost use Rattle.lease_core.specs.ByRow.{is_claimed};

    ghost Value = { List RowKey };

    ghost coded = { coded_list row_type.the_row.coded };

    ghost view = { λ r. filter (is_claimed r.keys.now.holder) r.places };
}

// Whether a place is that of its key, which is held.
fn is_claimed(keys: &Keys, place: &RowKey) -> bool
    ensures { result ≡ is_place_of_claim keys.now.holder place.now }
{
    let key = &place.key;
    match keys.state(key.bucket, key.value.as_slice()).holder {
        Some(holding) => is_place(place, &holding),
        None => false,
    }
}

// The next place of a claim.
fn next_claim<'a>(places: &mut Iter<'a, RowKey>, keys: &Keys) -> Option<&'a RowKey>
    ensures { YieldsFirstRef (filter (is_place_of_claim keys.now.holder)) places.old result places.new }
{
    while let Some(place) = places.next() {
        if is_claimed(keys, place) {
            return Some(place);
        }
    }
    None
}

impl<'a> ByRow<'a> {
    pub(crate) fn new(keys: &'a Keys, rows: &'a Rows) -> Self
        requires { HasHeld rows.now keys.now.holder }
        ensures { ArePlacesOf keys.now.holder result }
    {
        ByRow {
            places: rows.places.iter(),
            keys,
        }
    }
}

impl<'a> Iterator for ByRow<'a> {
    type Item = &'a RowKey;

    ghost next_gives = { YieldsFirstRef (λ places. places) };

    ghost remaining = { item_count (λ places. places) };

    fn next(&mut self) -> Option<&'a RowKey> {
        next_claim(&mut self.places, self.keys)
    }
}
