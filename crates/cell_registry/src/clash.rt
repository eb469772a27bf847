//! Whether two cells of a configuration clash.
ghost use Rattle.std.specs.Prelude.{◌≡◌, ◌+◌, ◌<◌, ◌≤◌, nat_eq, [], length, take, drop, Option, Some, option_map};
ghost use Rattle.std.specs.List.{list_any, find};
ghost use Rattle.cell_registry.specs.declared.fault.RegistryFault.TheVariants.{PrefixOverlap};
ghost use Rattle.cell_registry.specs.Bounds as spec;
ghost use Rattle.cell_registry.specs.Reading.{cells_fault as clash_of};

use crate::RegistryFault;
use cells_base::{behind, front};
use claim_types::Cell;

// Whether one of these cells has the id.
fn has_id(cells: &[Cell], id: u16) -> bool
    ensures { result ≡ list_any (λ c. nat_eq c.id id) cells.now }
{
    cells.iter().any(|cell| cell.id == id)
}

fn repeated_id(cells: &[Cell]) -> Option<RegistryFault>
    ensures { result ≡ spec.repeated_id [] cells.now }
{
    for (index, cell) in cells.iter().enumerate() {
        if has_id(front(cells, index), cell.id) {
            return Some(RegistryFault::Duplicate { id: cell.id });
        }
    }
    None
}

fn overlap(a: &[u8], b: &[u8]) -> bool
    ensures { result ≡ spec.overlap a.now b.now }
{
    a.starts_with(b) || b.starts_with(a)
}

// The first of these cells whose prefix and that of a cell before them overlap.
fn overlap_behind(cell: &Cell, others: &[Cell]) -> Option<RegistryFault>
    ensures { result ≡ option_map (λ d. PrefixOverlap cell.now.id d.id) (find
        (λ d. spec.overlap cell.now.prefix d.prefix) others.now) }
{
    others
        .iter()
        .find(|other| overlap(cell.prefix.as_slice(), other.prefix.as_slice()))
        .map(|other| RegistryFault::PrefixOverlap {
            a: cell.id,
            b: other.id,
        })
}

fn overlapping(cells: &[Cell]) -> Option<RegistryFault>
    ensures { result ≡ spec.overlapping cells.now }
{
    for (index, cell) in cells.iter().enumerate() {
        let found = overlap_behind(cell, behind(cells, index + 1));
        if found.is_some() {
            return found;
        }
    }
    None
}

/// The first cell whose id stood earlier, else the first two cells whose prefixes overlap.
pub fn cells_fault(cells: &[Cell]) -> Option<RegistryFault>
    ensures { result ≡ clash_of cells.now }
{
    match repeated_id(cells) {
        Some(fault) => Some(fault),
        None => overlapping(cells),
    }
}
