//! What a change does to the records and their index.
ghost use Rattle.std.specs.Prelude.{◌≡◌, ◌<◌, ◌++◌, [], ◌∷◌, length, OnOk, OnErr, slice_set, slice_index_or};
ghost use Rattle.std.specs.List.{remove as list_without};
ghost use Rattle.claim_types.specs.declared.record.Record.{Record as TheRecord};
ghost use Rattle.record_tree.specs.Unique.{index_after, AreFree, IsSame};

use crate::index::follow;
use claim_types::{NoMemory, Operations, Record, Text};
use key_table::KeyMap;
use std::alloc::Global;

/// Puts a record behind the others.
pub fn put_record(
    alloc: Global,
    records: &mut Vec<Record>,
    index: &mut KeyMap<u64>,
    ops: &Operations,
    item: Record,
) -> Result<(), NoMemory>
    requires { AreFree ops.now.creates index.old }
    ensures ok { OnOk result (records.new.items ≡ records.old.items ++ item ∷ []) }
    ensures index { OnOk result (index.new ≡ index_after ops.now index.old) }
    ensures stays { OnErr result (records.new.items ≡ records.old.items) }
    ensures same { OnErr result (IsSame index.old index.new) }
{
    records.reserve(1)?;
    follow(alloc, index, ops)?;
    records.push_reserved(item);
    Ok(())
}

/// Gives the record in this place another name.
pub fn rename_record(
    alloc: Global,
    records: &mut Vec<Record>,
    index: &mut KeyMap<u64>,
    ops: &Operations,
    at: usize,
    name: Text,
) -> Result<(), NoMemory>
    requires within { at < length records.old.items }
    requires free { AreFree ops.now.creates index.old }
    ensures ok { (d : TheRecord) → OnOk result (records.new.items ≡
        slice_set records.old.items at (record (slice_index_or records.old.items at d) { name = name })) }
    ensures index { OnOk result (index.new ≡ index_after ops.now index.old) }
    ensures stays { OnErr result (records.new.items ≡ records.old.items) }
    ensures same { OnErr result (IsSame index.old index.new) }
{
    follow(alloc, index, ops)?;
    records[at].name = name;
    Ok(())
}

/// Takes the record in this place away.
pub fn remove_record(
    alloc: Global,
    records: &mut Vec<Record>,
    index: &mut KeyMap<u64>,
    ops: &Operations,
    at: usize,
) -> Result<(), NoMemory>
    requires within { at < length records.old.items }
    requires free { AreFree ops.now.creates index.old }
    ensures ok { OnOk result (records.new.items ≡ list_without records.old.items at) }
    ensures index { OnOk result (index.new ≡ index_after ops.now index.old) }
    ensures stays { OnErr result (records.new.items ≡ records.old.items) }
    ensures same { OnErr result (IsSame index.old index.new) }
{
    follow(alloc, index, ops)?;
    let _ = records.remove(at);
    Ok(())
}
