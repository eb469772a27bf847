//! The tree of a cell's records, with the index of their keys.
ghost use Rattle.std.specs.Prelude.{◌≡◌, ◌+◌, ◌<◌, ◌^◌, ◌↔◌, IsTrue, [], ◌∷◌, ◌++◌, length, slice_set, slice_index_or, None, IfOk, OnOk, OnErr};
ghost use Rattle.std.specs.List.{remove as list_without};
ghost use Rattle.claim_types.specs.declared.record.Record.{Record as TheRecord};
ghost use Rattle.claim_map.specs.State.{empty_tree};
ghost use Rattle.claim_map.specs.Claims.{claims_of};
ghost use Rattle.claim_map.specs.Records.{changed_by};
ghost use Rattle.claim_map.specs.Rules.{rule_of};
ghost use Rattle.claim_map.specs.Trees.{AreRising};
ghost use Rattle.record_tree.specs.Adding.{MayBeAdded, with_added, after_adding};
ghost use Rattle.record_tree.specs.Answer.{Gives, answer_of};
ghost use Rattle.record_tree.specs.Follows.{MayFollow};
ghost use Rattle.record_tree.specs.Known.{IsWithin};
ghost use Rattle.record_tree.specs.Listed.{claim_items};
ghost use Rattle.record_tree.specs.Paths.{IsPathHolder};
ghost use Rattle.record_tree.specs.Refusals.{claimant};

use crate::adding::adding;
use crate::apply::{put_record, remove_record, rename_record};
use crate::changes::{create, remove, rename};
use crate::listing;
use crate::paths::holder_of;
use crate::places::place_of;
use crate::ranges::id_at;
use claim_types::{
    Change, ClaimItems, ClaimKey, Copied, NoMemory, Operations, Range, Record, Rule, Text,
};
use key_table::KeyMap;
use std::alloc::Global;
use std::marker::Model;

/// The records of a cell in order of identifier, with an index of the keys that they claim.
#[derive(Drop)]
pub struct Tree {
    records: Vec<Record>,
    index: KeyMap<u64>,
    used: u64,
    version: u64,
}

impl Model for Tree {
    ghost use Rattle.claim_map.specs.State.{Tree};
    ghost use Rattle.record_tree.specs.Indexed.{IsWhole, tree_code};

    ghost Value = { Tree };

    ghost coded = { tree_code };

    ghost view = { λ t. record { records = t.records.items; used = t.used; version = t.version } };

    ghost invariant = { λ t. IsWhole t.records.items t.index };
}

impl Tree {
    /// A tree without records, that has used no identifier and never changed. It takes no memory.
    pub fn new(alloc: Global) -> Self
        ensures { result ≡ empty_tree }
    {
        Tree::start(alloc, 0, 0)
    }

    /// A tree without records, that has used so many identifiers and changed so often. It takes no
    /// memory.
    pub fn start(alloc: Global, used: u64, version: u64) -> Self
        ensures { result ≡ record { records = []; used = used; version = version } }
    {
        Tree {
            records: Vec::new(alloc),
            index: KeyMap::new(alloc),
            used,
            version,
        }
    }

    /// The records in order of identifier.
    pub fn records(&self) -> &[Record]
        ensures { result.now ≡ self.now.records }
    {
        self.records.as_slice()
    }

    /// How many of the known identifiers were used, those of removed records included.
    pub fn used(&self) -> u64
        ensures { result ≡ self.now.used }
    {
        self.used
    }

    /// How often the tree has changed.
    pub fn version(&self) -> u64
        ensures { result ≡ self.now.version }
    {
        self.version
    }

    /// The identifier of the record that claims a key, if one does.
    pub fn find(&self, key: &ClaimKey) -> Option<u64>
        ensures { result ≡ claimant (claims_of self.now) key.now }
    {
        self.index.get(key.bucket, key.value.as_slice())
    }

    /// The identifier of the record whose route is the longest of those that are the path or are followed
    /// in it by a slash, if there is one.
    pub fn find_path(&self, path: &[u8]) -> Option<u64>
        ensures { IsPathHolder (claims_of self.now) path.now result }
    {
        holder_of(&self.index, path)
    }

    /// What the records claim, in order of identifier. Its one error is want of memory.
    pub fn claims(&self, alloc: Global) -> Result<ClaimItems, NoMemory>
        ensures { IfOk result (λ items. items ≡ claim_items self.now) }
    {
        let items = listing::items(alloc, self.records.as_slice())?;
        Ok(items)
    }

    /// The operations of a change, each list in order of identifier, or the first rule that speaks
    /// against it. The rule on attempts and rows is never given, and want of memory is told as a rule.
    pub fn operations_of(
        &self,
        alloc: Global,
        change: &Change,
        known: &[Range],
    ) -> Result<Operations, Rule>
        requires { IsWithin self.now known.now }
        ensures { Gives result (answer_of self.now change.now known.now) }
    {
        let records = self.records.as_slice();
        match change {
            Change::Create { kind, parent, name } => {
                let next = id_at(known, self.used);
                create(
                    alloc,
                    records,
                    &self.index,
                    self.version,
                    *kind,
                    *parent,
                    name.as_slice(),
                    next,
                )
            }
            Change::Rename { id, name } => rename(
                alloc,
                records,
                &self.index,
                self.version,
                *id,
                name.as_slice(),
            ),
            Change::Remove { id } => remove(alloc, records, self.version, *id),
        }
    }

    // Puts a record behind the others, where these are the operations of that.
    fn put_behind(&mut self, alloc: Global, ops: &Operations, item: Record) -> Result<(), NoMemory>
        requires { MayFollow self.old.records (self.old.records ++ item ∷ []) ops.now }
        ensures ok { OnOk result (self.new ≡ with_added self.old item) }
        ensures err { OnErr result (self.new ≡ self.old) }
    {
        put_record(alloc, &mut self.records, &mut self.index, ops, item)?;
        Ok(())
    }

    // Puts a record of a change behind the others.
    fn push(
        &mut self,
        alloc: Global,
        ops: &Operations,
        item: Record,
        version: u64,
    ) -> Result<(), NoMemory>
        requires may { MayFollow self.old.records (self.old.records ++ item ∷ []) ops.now }
        requires used { self.old.used + 1 < 2 ^ 64 }
        requires version { version ≡ self.old.version + 1 }
        ensures ok { OnOk result (self.new ≡ record {
          records = self.old.records ++
              item ∷ [];
          used = self.old.used + 1;
          version = self.old.version + 1;
        }) }
        ensures err { OnErr result (self.new ≡ self.old) }
    {
        self.put_behind(alloc, ops, item)?;
        self.used += 1;
        self.version = version;
        Ok(())
    }

    // Gives the record in this place another name, where these are the operations of that.
    fn rename_at(
        &mut self,
        alloc: Global,
        ops: &Operations,
        at: usize,
        name: Text,
        version: u64,
    ) -> Result<(), NoMemory>
        requires within { at < length self.old.records }
        requires may { (d : TheRecord) →
            MayFollow self.old.records (slice_set self.old.records at (record
            (slice_index_or self.old.records at d) { name = name })) ops.now }
        requires version { version ≡ self.old.version + 1 }
        ensures ok { (d : TheRecord) → OnOk result (self.new ≡
            record {
              records = slice_set self.old.records at (record
                  (slice_index_or self.old.records at d) { name = name });
              used = self.old.used;
              version =
                  self.old.version + 1;
            }) }
        ensures err { OnErr result (self.new ≡ self.old) }
    {
        rename_record(alloc, &mut self.records, &mut self.index, ops, at, name)?;
        self.version = version;
        Ok(())
    }

    // Takes the record in this place away, where these are the operations of that.
    fn remove_at(
        &mut self,
        alloc: Global,
        ops: &Operations,
        at: usize,
        version: u64,
    ) -> Result<(), NoMemory>
        requires within { at < length self.old.records }
        requires may { MayFollow self.old.records (list_without self.old.records at) ops.now }
        requires version { version ≡ self.old.version + 1 }
        ensures ok { OnOk result (self.new ≡
            record {
              records = list_without self.old.records at;
              used = self.old.used;
              version = self.old.version
                  + 1;
            }) }
        ensures err { OnErr result (self.new ≡ self.old) }
    {
        remove_record(alloc, &mut self.records, &mut self.index, ops, at)?;
        self.version = version;
        Ok(())
    }

    /// Adds a record as it is behind the others: one whose identifier was used and is above theirs, whose
    /// parent is of an allowed kind or 0 for an organization, and whose key is within its grammar and
    /// claimed by none. Ok(true) says that it was added; else, and after want of memory, nothing changed.
    pub fn add(&mut self, alloc: Global, item: Record, known: &[Range]) -> Result<bool, NoMemory>
        requires { AreRising 0 known.now }
        ensures answer { IfOk result (λ added.
            IsTrue added ↔ MayBeAdded self.old.records self.old.used known.now item) }
        ensures after { IfOk result (λ added. self.new ≡ after_adding added self.old item) }
        ensures err { OnErr result (self.new ≡ self.old) }
    {
        let records = self.records.as_slice();
        let Some(operations) = adding(alloc, records, &self.index, self.used, known, &item)? else {
            return Ok(false);
        };
        self.put_behind(alloc, &operations, item)?;
        Ok(true)
    }

    /// Makes a change that no rule speaks against. After want of memory the tree is as it was.
    pub fn apply(&mut self, alloc: Global, change: &Change, known: &[Range]) -> Result<(), NoMemory>
        requires within { IsWithin self.old known.now }
        requires allowed { rule_of self.old change.now known.now ≡ None }
        ensures ok { OnOk result (self.new ≡ changed_by self.old change.now known.now) }
        ensures err { OnErr result (self.new ≡ self.old) }
    {
        let Ok(ops) = self.operations_of(alloc, change, known) else {
            return Err(NoMemory);
        };
        let version = self.version() + 1;
        match change {
            Change::Create { kind, parent, name } => {
                let Some(id) = id_at(known, self.used) else {
                    return Err(NoMemory);
                };
                let name = name.copy(alloc)?;
                let item = Record {
                    id,
                    kind: *kind,
                    parent: *parent,
                    name,
                };
                self.push(alloc, &ops, item, version)
            }
            Change::Rename { id, name } => {
                let Some(at) = place_of(self.records.as_slice(), *id) else {
                    return Err(NoMemory);
                };
                let name = name.copy(alloc)?;
                self.rename_at(alloc, &ops, at, name, version)
            }
            Change::Remove { id } => {
                let Some(at) = place_of(self.records.as_slice(), *id) else {
                    return Err(NoMemory);
                };
                self.remove_at(alloc, &ops, at, version)
            }
        }
    }
}
