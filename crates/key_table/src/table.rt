ghost use Rattle.std.specs.Prelude.{◌≡◌, IsSome, OnOk, OnErr};
ghost use Rattle.std.specs.FinMap as map;

use claim_types::NoMemory;
use std::alloc::Global;
use std::collections::HashMap;
use std::marker::Model;

/// A value for each of some texts, in one hash table. Contracts see it as a finite map in the order of
/// the texts' bytes.
#[derive(Drop)]
pub struct Table<V: Copy> {
    states: HashMap<Vec<u8>, V>,
}

impl<V: Copy> Model for Table<V> {
    ghost use Rattle.std.specs.Coded.{coded_list, coded_ℕ};
    ghost use Rattle.std.specs.FinMap.{FinMap, code};
    ghost use Rattle.std.specs.Ordering.{nat_cmp};
    ghost use Rattle.std.specs.Cmp.Lexicographic.{slice_cmp};
    ghost use Rattle.key_table.specs.Texts.{table_of};

    ghost Value = { FinMap (slice_cmp nat_cmp) V };

    ghost coded = { code (coded_list coded_ℕ) V.code };

    ghost view = { λ t. table_of t.states.entries };
}

impl<V: Copy> Table<V> {
    /// It takes no memory.
    pub fn new(alloc: Global) -> Self
        ensures { result ≡ map.empty }
    {
        Table {
            states: HashMap::new(alloc),
        }
    }

    /// The value of a text.
    pub fn get(&self, text: &[u8]) -> Option<V>
        ensures { result ≡ map.get self.now text.now }
    {
        match self.states.get(text) {
            Some(value) => Some(*value),
            None => None,
        }
    }

    /// Gives a text a value. After want of memory all is as it was.
    pub fn put(&mut self, text: Vec<u8>, value: V) -> Result<(), NoMemory>
        ensures ok { OnOk result (self.new ≡ map.insert self.old text.items value) }
        ensures err { OnErr result (self.new ≡ self.old) }
    {
        self.states.insert(text, value)?;
        Ok(())
    }

    /// Gives a text that is there another value, which takes no memory.
    pub fn change(&mut self, text: &[u8], value: V)
        requires { IsSome (map.get self.old text.now) }
        ensures { self.new ≡ map.insert self.old text.now value }
    {
        let Some(slot) = self.states.get_mut(text) else {
            return;
        };
        *slot = value;
    }

    /// Takes a text away, which takes no memory.
    pub fn remove(&mut self, text: &[u8])
        ensures { self.new ≡ map.remove self.old text.now }
    {
        let _ = self.states.remove(text);
    }
}
