//! A configuration is read off the tree that TOML gives.
ghost use Rattle.std.specs.Prelude.{◌≡◌, Some, map, option_copied, IfOk, IfSome, IsTrue};
ghost use Rattle.std.specs.List.{filter_map};
ghost use Rattle.toml.specs.Parse.{parse_document};
ghost use Rattle.toml.specs.View.{view};
ghost use Rattle.cell_registry.specs.Bounds as bounds;
ghost use Rattle.cell_registry.specs.Reading as spec;
ghost use Rattle.cell_registry.specs.Reading.{Gives};

use crate::bounds::{is_prefix, is_within};
use crate::clash::cells_fault;
use crate::{CELLS, Cells, DEFAULT_THRESHOLD, GREATEST_THRESHOLD, Name, Registry, RegistryFault};
use claim_types::{Cell, GREATEST_CELL, GREATEST_IDENTIFIER, NoMemory, Text};
use std::alloc::Global;
use toml::Value;

// The integer that a table gives under a name.
fn integer_at(name: Name, value: &Value) -> Option<i64>
    ensures { result ≡ spec.integer_at name (view value.now) }
{
    match value.get(name.key()) {
        Some(found) => found.as_integer(),
        None => None,
    }
}

fn text_at(name: Name, value: &Value) -> Option<&str>
    ensures { option_copied result ≡ spec.text_at name (view value.now) }
{
    match value.get(name.key()) {
        Some(found) => found.as_str(),
        None => None,
    }
}

// An integer, if it is from `low` to `high`.
fn between(low: u64, high: u64, n: i64) -> Option<u64>
    ensures value { result ≡ spec.between low high n }
    ensures bounds { IfSome result (λ n. IsTrue (bounds.is_within low high n)) }
{
    if n < 0 {
        return None;
    }
    let n = n as u64;
    if is_within(low, high, n) {
        return Some(n);
    }
    None
}

fn id_in(value: &Value) -> Option<u16>
    ensures { result ≡ spec.id_in (view value.now) }
{
    match between(1, GREATEST_CELL as u64, integer_at(Name::Id, value)?) {
        Some(id) => Some(id as u16),
        None => None,
    }
}

fn prefix_in(value: &Value) -> Option<&[u8]>
    ensures { option_copied result ≡ spec.prefix_in (view value.now) }
{
    let text = text_at(Name::Prefix, value)?.as_bytes();
    if is_prefix(text) {
        return Some(text);
    }
    None
}

fn width_in(value: &Value) -> Option<u64>
    ensures { result ≡ spec.width_in (view value.now) }
{
    between(1, GREATEST_IDENTIFIER, integer_at(Name::Width, value)?)
}

// The first value that a cell lacks, or has of another kind.
fn missing_in(value: &Value) -> Option<Name>
    ensures { result ≡ spec.missing_in (view value.now) }
{
    if integer_at(Name::Id, value).is_none() {
        return Some(Name::Id);
    }
    if text_at(Name::Prefix, value).is_none() {
        return Some(Name::Prefix);
    }
    if integer_at(Name::Width, value).is_none() {
        return Some(Name::Width);
    }
    None
}

// The first value of a cell that is not legal.
fn bad_in(value: &Value) -> Option<Name>
    ensures { result ≡ spec.bad_in (view value.now) }
{
    if id_in(value).is_none() {
        return Some(Name::Id);
    }
    if prefix_in(value).is_none() {
        return Some(Name::Prefix);
    }
    if width_in(value).is_none() {
        return Some(Name::Width);
    }
    None
}

fn first_missing(given: &[Value]) -> Option<Name>
    ensures { result ≡ spec.first_found spec.missing_in (map view given.now) }
{
    for value in given {
        let found = missing_in(value);
        if found.is_some() {
            return found;
        }
    }
    None
}

fn first_bad(given: &[Value]) -> Option<Name>
    ensures { result ≡ spec.first_found spec.bad_in (map view given.now) }
{
    for value in given {
        let found = bad_in(value);
        if found.is_some() {
            return found;
        }
    }
    None
}

// The tables `[[cell]]`.
fn cells_given(tree: &Value) -> &[Value]
    ensures { map view result.now ≡ spec.cells_given (view tree.now) }
{
    match tree.get(Name::Cell.key()) {
        Some(found) => match found.as_array() {
            Some(array) => array.as_slice(),
            None => &[],
        },
        None => &[],
    }
}

fn threshold_of(service: &Value) -> Option<u64>
    ensures value { result ≡ spec.service_threshold (Some (view service.now)) }
    ensures bounds { IfSome result (λ n. IsTrue (bounds.is_within 1 GREATEST_THRESHOLD n)) }
{
    if !service.is_table() {
        return None;
    }
    match service.get(Name::Threshold.key()) {
        Some(found) => between(1, GREATEST_THRESHOLD, found.as_integer()?),
        None => Some(DEFAULT_THRESHOLD),
    }
}

fn threshold_in(tree: &Value) -> Option<u64>
    ensures value { result ≡ spec.threshold_in (view tree.now) }
    ensures bounds { IfSome result (λ n. IsTrue (bounds.is_within 1 GREATEST_THRESHOLD n)) }
{
    match tree.get("service") {
        Some(service) => threshold_of(service),
        None => Some(DEFAULT_THRESHOLD),
    }
}

// What is wrong with the values, before the cells are held against each other.
fn value_fault(threshold: Option<u64>, given: &[Value]) -> Option<RegistryFault>
    ensures { result ≡ spec.value_fault threshold (map view given.now) }
{
    if CELLS < given.len() as u64 {
        return Some(RegistryFault::TooManyCells);
    }
    if given.is_empty() {
        return Some(RegistryFault::Missing { name: Name::Cell });
    }
    if let Some(name) = first_missing(given) {
        return Some(RegistryFault::Missing { name });
    }
    if threshold.is_none() {
        return Some(RegistryFault::BadValue {
            name: Name::Threshold,
        });
    }
    match first_bad(given) {
        Some(name) => Some(RegistryFault::BadValue { name }),
        None => None,
    }
}

// A cell, if its values are all legal.
fn cell_in(alloc: Global, value: &Value) -> Result<Option<Cell>, NoMemory>
    ensures { IfOk result (λ cell. cell ≡ spec.cell_in (view value.now)) }
{
    let Some(id) = id_in(value) else {
        return Ok(None);
    };
    let Some(prefix) = prefix_in(value) else {
        return Ok(None);
    };
    let Some(width) = width_in(value) else {
        return Ok(None);
    };
    let prefix = Text::from_slice(alloc, prefix)?;
    Ok(Some(Cell { id, prefix, width }))
}

fn cells_in(alloc: Global, given: &[Value]) -> Result<Cells, NoMemory>
    ensures { IfOk result (λ cells. cells ≡ filter_map spec.cell_in (map view given.now)) }
{
    let mut cells = Cells::new(alloc);
    for value in given {
        if let Some(cell) = cell_in(alloc, value)? {
            cells.push(cell)?;
        }
    }
    Ok(cells)
}

fn registry_given(
    alloc: Global,
    threshold: Option<u64>,
    given: &[Value],
) -> Result<Registry, RegistryFault>
    requires { IfSome threshold (λ n. IsTrue (bounds.is_within 1 GREATEST_THRESHOLD n)) }
    ensures value { Gives result (spec.registry_given threshold (map view given.now)) }
    ensures legal { IfOk result (λ registry. IsTrue (bounds.is_registry registry)) }
{
    if let Some(fault) = value_fault(threshold, given) {
        return Err(fault);
    }
    let cells = cells_in(alloc, given)?;
    if let Some(fault) = cells_fault(cells.as_slice()) {
        return Err(fault);
    }
    let threshold = threshold.unwrap_or(DEFAULT_THRESHOLD);
    Ok(Registry::from_cells(cells, threshold))
}

fn registry_in(alloc: Global, tree: &Value) -> Result<Registry, RegistryFault>
    ensures value { Gives result (spec.registry_in (view tree.now)) }
    ensures legal { IfOk result (λ registry. IsTrue (bounds.is_registry registry)) }
{
    registry_given(alloc, threshold_in(tree), cells_given(tree))
}

fn registry_read(alloc: Global, text: &str) -> Result<Registry, RegistryFault>
    ensures value { Gives result (spec.registry_read (parse_document text.now)) }
    ensures legal { IfOk result (λ registry. IsTrue (bounds.is_registry registry)) }
{
    match toml::table_from_str(alloc, text) {
        Ok(table) => registry_in(alloc, &Value::Table(table)),
        Err(error) => {
            if error.is_memory() {
                return Err(RegistryFault::Memory);
            }
            Err(RegistryFault::Text)
        }
    }
}

impl Registry {
    /// The configuration that a text is, or its first fault. Each kind of fault is sought over the whole
    /// text before the next; of several of one kind that of `[service]` comes first, then those of the
    /// cells in order, and in a cell those of `id`, `prefix`, `width`.
    pub fn read_toml(alloc: Global, text: &[u8]) -> Result<Registry, RegistryFault>
        ensures value { Gives result (spec.registry_text text.now) }
        ensures legal { IfOk result (λ registry. IsTrue (bounds.is_registry registry)) }
    {
        match str::from_utf8(text) {
            Ok(text) => registry_read(alloc, text),
            Err(_) => Err(RegistryFault::Text),
        }
    }
}
