ghost use Rattle.std.specs.Prelude.{◌≡◌, ◌+◌, ◌-◌, ◌≤◌, IsSome, IfOk, OnOk, OnErr, unwrap_or};
ghost use Rattle.std.specs.FinMap as map;

use claim_types::NoMemory;
use std::alloc::Global;
use std::collections::BTreeMap;
use std::marker::Model;

/// A number for each of some cells. Contracts see it as a finite map.
#[derive(Drop)]
pub struct CellNumbers {
    numbers: BTreeMap<u16, u64>,
}

impl Model for CellNumbers {
    ghost use Rattle.std.specs.Prelude.{ℕ};
    ghost use Rattle.std.specs.Coded.{coded_ℕ};
    ghost use Rattle.std.specs.Ordering.{nat_cmp};
    ghost use Rattle.std.specs.FinMap.{FinMap, code, from_entries};

    ghost Value = { FinMap nat_cmp ℕ };

    ghost coded = { code coded_ℕ coded_ℕ };

    ghost view = { λ m. from_entries m.numbers.entries };
}

impl CellNumbers {
    /// It takes no memory.
    pub fn new(alloc: Global) -> Self
        ensures { result ≡ map.empty }
    {
        CellNumbers {
            numbers: BTreeMap::new(alloc),
        }
    }

    /// The number of a cell, which is 0 where there is none.
    pub fn of(&self, cell: u16) -> u64
        ensures { result ≡ unwrap_or (map.get self.now cell) 0 }
    {
        match self.numbers.get(&cell) {
            Some(number) => *number,
            None => 0,
        }
    }

    pub fn put(&mut self, cell: u16, number: u64) -> Result<(), NoMemory>
        ensures ok { OnOk result (self.new ≡ map.insert self.old cell number) }
        ensures err { OnErr result (self.new ≡ self.old) }
    {
        self.numbers.insert(cell, number)?;
        Ok(())
    }

    /// Puts another number at a cell that has one, which takes no memory.
    pub fn set(&mut self, cell: u16, number: u64)
        requires { IsSome (map.get self.old cell) }
        ensures { self.new ≡ map.insert self.old cell number }
    {
        let _ = self.numbers.insert(cell, number);
    }
}

/// A number more. There is no memory for so many things that none follows.
pub fn one_more(number: u64) -> Result<u64, NoMemory>
    ensures { IfOk result (λ more. more ≡ number + 1) }
{
    if number == u64::MAX {
        return Err(NoMemory);
    }
    Ok(number + 1)
}

/// A cell has one less. It takes no memory.
pub fn lower(numbers: &mut CellNumbers, cell: u16)
    requires there { IsSome (map.get numbers.old cell) }
    requires some { 1 ≤ unwrap_or (map.get numbers.old cell) 0 }
    ensures { numbers.new ≡ map.insert numbers.old cell (unwrap_or (map.get numbers.old cell) 0 - 1) }
{
    let number = numbers.of(cell);
    numbers.set(cell, number - 1);
}
