use crate::*;
use claim_types::{Items, NoMemory, Text};
use std::alloc::Global;
use std::test::Fail;

// Three cells, and keys that are ignored.
const THREE: &[u8] = b"
[service]
threshold = 86400
name = 1
[[cell]]
id = 7
prefix = 'cell-1-'
width = 1000
colour = 'red'
[[cell]]
id = 2
prefix = 'cell-2-'
width = 500
[[cell]]
id = 3
prefix = 'cell-3-'
width = 9223372036854775807
[[rule]]
prefix = 3
";

// Cell 1 of width 1,000, and cell 2, which can have one range behind it and no other.
const WIDE: &[u8] = b"
[[cell]]
id = 1
prefix = 'cell-1-'
width = 1000
[[cell]]
id = 2
prefix = 'cell-2-'
width = 9223372036854774807
";

fn fault_of(alloc: Global, text: &[u8]) -> Option<RegistryFault> {
    match Registry::read_toml(alloc, text) {
        Ok(_) => None,
        Err(fault) => Some(fault),
    }
}

// Configurations, the fault that each is refused for, and its number.
const FAULTS: [(&[u8], RegistryFault, u8); 24] = [
    (b"\xff", RegistryFault::Text, 1),
    (b"[cell", RegistryFault::Text, 1),
    (
        b"service = { threshold = 99999999999999999999 }\n",
        RegistryFault::Text,
        1,
    ),
    (
        b"cell = [1, 1, 1, 1, 1, 1, 1, 1, 1, 1, 1, 1, 1, 1, 1, 1, 1]",
        RegistryFault::TooManyCells,
        2,
    ),
    (
        b"cell = [1, 1, 1, 1, 1, 1, 1, 1, 1, 1, 1, 1, 1, 1, 1, 1]",
        RegistryFault::Missing { name: Name::Id },
        3,
    ),
    (b"", RegistryFault::Missing { name: Name::Cell }, 3),
    (b"cell = 3", RegistryFault::Missing { name: Name::Cell }, 3),
    (b"cell = []", RegistryFault::Missing { name: Name::Cell }, 3),
    (
        b"[cell]\nid = 1",
        RegistryFault::Missing { name: Name::Cell },
        3,
    ),
    (
        b"cell = [{ id = '1', prefix = 'a', width = 1 }]",
        RegistryFault::Missing { name: Name::Id },
        3,
    ),
    (
        b"cell = [{ id = 1, width = 1 }]",
        RegistryFault::Missing { name: Name::Prefix },
        3,
    ),
    (
        b"service = { threshold = 0 }\ncell = [{ id = 0, prefix = 'a', width = 1 }, { id = 1, prefix = 'b' }]",
        RegistryFault::Missing { name: Name::Width },
        3,
    ),
    (
        b"service = 3\ncell = [{ id = 1, prefix = 'a', width = 1 }]",
        RegistryFault::BadValue {
            name: Name::Threshold,
        },
        4,
    ),
    (
        b"service = { threshold = '600' }\ncell = [{ id = 0, prefix = 'a', width = 1 }]",
        RegistryFault::BadValue {
            name: Name::Threshold,
        },
        4,
    ),
    (
        b"service = { threshold = 86401 }\ncell = [{ id = 1, prefix = 'a', width = 1 }]",
        RegistryFault::BadValue {
            name: Name::Threshold,
        },
        4,
    ),
    (
        b"cell = [{ id = 1000, prefix = 'A', width = 1 }]",
        RegistryFault::BadValue { name: Name::Id },
        4,
    ),
    (
        b"cell = [{ id = -1, prefix = 'a', width = 1 }]",
        RegistryFault::BadValue { name: Name::Id },
        4,
    ),
    (
        b"cell = [{ id = 1, prefix = '', width = 1 }]",
        RegistryFault::BadValue { name: Name::Prefix },
        4,
    ),
    (
        b"cell = [{ id = 1, prefix = 'A', width = 0 }]",
        RegistryFault::BadValue { name: Name::Prefix },
        4,
    ),
    (
        b"cell = [{ id = 1, prefix = 'aaaaaaaaaaaaaaaaaaaaaaaaaaaaaaaaa', width = 1 }]",
        RegistryFault::BadValue { name: Name::Prefix },
        4,
    ),
    (
        b"cell = [{ id = 1, prefix = 'a', width = 1 }, { id = 1, prefix = 'a', width = 0 }]",
        RegistryFault::BadValue { name: Name::Width },
        4,
    ),
    (
        b"cell = [{ id = 2, prefix = 'a', width = 1 }, { id = 1, prefix = 'a', width = 1 }, { id = 1, prefix = 'b', width = 1 }]",
        RegistryFault::Duplicate { id: 1 },
        5,
    ),
    (
        b"cell = [{ id = 2, prefix = 'ab', width = 1 }, { id = 1, prefix = 'b', width = 1 }, { id = 3, prefix = 'a', width = 1 }]",
        RegistryFault::PrefixOverlap { a: 2, b: 3 },
        6,
    ),
    (
        b"cell = [{ id = 9, prefix = 'a', width = 1 }, { id = 8, prefix = 'b', width = 1 }, { id = 7, prefix = 'b', width = 1 }, { id = 6, prefix = 'ac', width = 1 }]",
        RegistryFault::PrefixOverlap { a: 9, b: 6 },
        6,
    ),
];

#[test]
fn names_the_first_fault_of_the_first_kind(rt: HostRuntime) {
    for (text, fault, number) in FAULTS {
        assert_eq!(rt; fault_of(rt.alloc(), text), Some(fault));
        assert_eq!(rt; fault.number(), Some(number));
    }
    assert_eq!(rt; RegistryFault::Memory.number(), None);
}

#[test]
fn reads_cells(rt: HostRuntime) -> Result<(), Fail> {
    let registry = Registry::read_toml(rt.alloc(), THREE)?;
    assert_eq!(rt; registry.cells().len(), 3);
    assert_eq!(rt; registry.first_cell(), 7);
    assert_eq!(rt; registry.threshold(), 86_400);
    let rows = [
        (b"cell-1-x".as_slice(), Some(7)),
        (b"cell-2-", Some(2)),
        (b"cell-3", None),
        (b"", None),
    ];
    for (text, cell) in rows {
        assert_eq!(rt; registry.by_prefix(text), cell);
    }
    assert_eq!(rt; registry.cell(2).map(|cell| cell.width), Some(500));
    assert_eq!(rt; registry.cell(1).map(|cell| cell.width), None);
    Ok(())
}

fn range(cell: u16, number: u64, low: u64, high: u64) -> Range {
    Range {
        cell,
        number,
        low,
        high,
    }
}

#[test]
fn gives_ranges_one_behind_the_other(rt: HostRuntime) -> Result<(), Fail> {
    let registry = Registry::read_toml(rt.alloc(), WIDE)?;
    let mut ranges = Ranges::new(rt.alloc());
    let rows = [
        (1, 1, Ok(range(1, 1, 1, 1000))),
        (2, 1, Ok(range(2, 1, 1001, 9_223_372_036_854_775_807))),
        (1, 1, Ok(range(1, 1, 1, 1000))),
        (1, 3, Err(RangeFault::TooFar { next: 2 })),
        (
            1,
            2,
            Err(RangeFault::Exhausted {
                last: 9_223_372_036_854_775_807,
            }),
        ),
        (3, 1, Err(RangeFault::UnknownCell)),
    ];
    for (cell, number, answer) in rows {
        assert_eq!(rt; ranges.give(&registry, cell, number), answer);
    }
    assert_eq!(rt; ranges.list().len(), 2);
    assert!(rt; ranges.covers(1, 1000));
    assert!(rt; !ranges.covers(2, 1000));
    assert!(rt; !ranges.covers(1, 1001));
    Ok(())
}

#[test]
fn adds_ranges_that_follow(rt: HostRuntime) -> Result<(), Fail> {
    let mut ranges = Ranges::new(rt.alloc());
    let rows = [
        (range(1, 1, 2, 9), false),
        (range(1, 2, 1, 9), false),
        (range(1, 1, 1, 0), false),
        (range(1, 1, 1, 9_223_372_036_854_775_808), false),
        (range(1, 1, 1, 9), true),
        (range(1, 1, 10, 10), false),
        (range(1, 2, 9, 10), false),
        (range(1, 2, 10, 10), true),
        (range(2, 1, 11, 11), true),
    ];
    for (range, added) in rows {
        assert_eq!(rt; ranges.add(range)?, added);
    }
    assert_eq!(rt; ranges.list().len(), 3);
    Ok(())
}

// The configuration of one cell.
fn of_one_cell(alloc: Global) -> Result<Registry, NoMemory> {
    let prefix = Text::from_slice(alloc, b"cell-1-")?;
    let mut cells = Items::new(alloc);
    cells.push(Cell {
        id: 1,
        prefix,
        width: 1_000_000,
    })?;
    Ok(Registry::from_cells(cells, DEFAULT_THRESHOLD))
}

#[test]
fn a_cell_by_itself_is_a_configuration(rt: HostRuntime) -> Result<(), Fail> {
    let registry = of_one_cell(rt.alloc())?;
    assert_eq!(rt; registry.first_cell(), 1);
    assert_eq!(rt; registry.threshold(), 600);
    Ok(())
}
