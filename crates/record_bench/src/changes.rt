//! The tree of a cell that knows one range, and its changes.
ghost use Rattle.std.specs.Prelude.{OnOk};
ghost use Rattle.claim_map.specs.Trees.{TreeFits};

use claim_types::{Change, GREATEST_IDENTIFIER, Kind, NoMemory, Range, Rule, Text};
use record_tree::Tree;
use std::alloc::Global;

/// The ranges that the cell knows.
const KNOWN: [Range; 1] = [Range {
    cell: 1,
    number: 1,
    low: 1,
    high: GREATEST_IDENTIFIER,
}];

/// Why a change was not made.
#[derive(Clone, Copy, Drop)]
pub enum ChangeFault {
    Memory,
    Refused,
}

impl From<NoMemory> for ChangeFault {
    fn from(_: NoMemory) -> Self {
        ChangeFault::Memory
    }
}

impl From<Rule> for ChangeFault {
    fn from(rule: Rule) -> Self {
        match rule {
            Rule::Memory => ChangeFault::Memory,
            _ => ChangeFault::Refused,
        }
    }
}

/// The tree before its first change.
pub fn start(alloc: Global) -> Tree
    ensures { TreeFits result KNOWN }
{
    Tree::new(alloc)
}

// Makes a change as a cell does: its operations are asked for, and then it is made.
fn make(alloc: Global, tree: &mut Tree, change: &Change) -> Result<(), ChangeFault>
    requires { TreeFits tree.old KNOWN }
    ensures { TreeFits tree.new KNOWN }
{
    let _ = tree.operations_of(alloc, change, &KNOWN)?;
    tree.apply(alloc, change, &KNOWN)?;
    Ok(())
}

/// Makes a record below another.
pub fn create(
    alloc: Global,
    tree: &mut Tree,
    kind: Kind,
    parent: u64,
    name: &str,
) -> Result<(), ChangeFault>
    requires { TreeFits tree.old KNOWN }
    ensures { TreeFits tree.new KNOWN }
{
    let name = Text::from_slice(alloc, name.as_bytes())?;
    make(alloc, tree, &Change::Create { kind, parent, name })
}

/// Gives a record another name.
pub fn rename(alloc: Global, tree: &mut Tree, id: u64, name: &str) -> Result<(), ChangeFault>
    requires { TreeFits tree.old KNOWN }
    ensures { TreeFits tree.new KNOWN }
{
    let name = Text::from_slice(alloc, name.as_bytes())?;
    make(alloc, tree, &Change::Rename { id, name })
}
