//! The index of keys through a change.
ghost use Rattle.std.specs.Prelude.{◌≡◌, OnOk, OnErr, map as each};
ghost use Rattle.record_tree.specs.Unique.{without, with_claims, index_after, AreFree, IsSame, IsSameBut};

use claim_types::{ClaimKey, Copied, Create, NoMemory, Operations};
use key_table::KeyMap;
use std::alloc::Global;

fn take_keys(index: &mut KeyMap<u64>, keys: &[ClaimKey])
    ensures { index.new ≡ without keys.now index.old }
{
    for key in keys {
        index.remove(key.bucket, key.value.as_slice());
    }
}

fn take_claims(index: &mut KeyMap<u64>, claims: &[Create])
    ensures { index.new ≡ without (each (λ c. c.key) claims.now) index.old }
{
    for claim in claims {
        index.remove(claim.key.bucket, claim.key.value.as_slice());
    }
}

fn put_claims(alloc: Global, index: &mut KeyMap<u64>, claims: &[Create]) -> Result<(), NoMemory>
    ensures ok { OnOk result (index.new ≡ with_claims claims.now index.old) }
    ensures err { OnErr result (IsSameBut claims.now index.old index.new) }
{
    for claim in claims {
        let key = claim.key.copy(alloc)?;
        index.put(key, claim.origin.row)?;
    }
    Ok(())
}

/// The index after these operations, of which no created key is claimed before.
pub fn follow(alloc: Global, index: &mut KeyMap<u64>, ops: &Operations) -> Result<(), NoMemory>
    requires { AreFree ops.now.creates index.old }
    ensures ok { OnOk result (index.new ≡ index_after ops.now index.old) }
    ensures err { OnErr result (IsSame index.old index.new) }
{
    let creates = ops.creates.as_slice();
    match put_claims(alloc, index, creates) {
        Ok(()) => {
            take_keys(index, ops.destroys.as_slice());
            Ok(())
        }
        Err(_) => {
            take_claims(index, creates);
            Err(NoMemory)
        }
    }
}
