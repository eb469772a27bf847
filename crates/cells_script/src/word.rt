//! The words of a text, written one behind the other.
ghost use Rattle.std.specs.Prelude.{◌≡◌, ◌++◌, OnOk, decimal, map};
ghost use Rattle.claim_types.specs.Leases.{IsLease, lease_text};
ghost use Rattle.cells_script.specs.Said.{id_text, word_text};
ghost use Rattle.cells_script.specs.Texts.{behind, key_text};

use claim_types::{ClaimKey, LeaseId, NoMemory};
use itoa::Buffer;
use uuid::Uuid;

/// A word of a text.
#[derive(Clone, Copy)]
pub enum Word<'a> {
    Name(&'a str),
    Number(u64),
    Id([u8; 16]),
    Key(&'a ClaimKey),
    Bytes(&'a [u8]),
}

// The word that names a lease.
#[tactic(auto, unfolding(crate::specs::Said::id_text, claim_types::specs::Leases::lease_text))]
pub fn lease_word(lease: LeaseId) -> Word<'static>
    requires { IsLease lease }
    ensures { word_text result ≡ lease_text lease }
{
    Word::Id(lease.to_uuid().into_bytes())
}

// Writes bytes behind what stands there.
pub fn put(out: &mut Vec<u8>, bytes: &[u8]) -> Result<(), NoMemory>
    ensures { OnOk result (out.new.items ≡ out.old.items ++ bytes.now) }
{
    out.extend_from_slice(bytes)?;
    Ok(())
}

pub fn put_number(out: &mut Vec<u8>, n: u64) -> Result<(), NoMemory>
    ensures { OnOk result (out.new.items ≡ out.old.items ++ decimal n) }
{
    let mut buffer = Buffer::new();
    put(out, buffer.format(n).as_bytes())
}

#[tactic(auto, unfolding(crate::specs::Said::id_text))]
fn put_id(out: &mut Vec<u8>, id: [u8; 16]) -> Result<(), NoMemory>
    ensures { OnOk result (out.new.items ≡ out.old.items ++ id_text id) }
{
    let mut room = [0; 36];
    put(
        out,
        Uuid::from_bytes(id)
            .hyphenated()
            .encode_lower(&mut room)
            .as_bytes(),
    )
}

fn put_key(out: &mut Vec<u8>, key: &ClaimKey) -> Result<(), NoMemory>
    ensures { OnOk result (out.new.items ≡ out.old.items ++ key_text key.now) }
{
    put(out, key.bucket.name().as_bytes())?;
    out.push(b':')?;
    put(out, key.value.as_slice())
}

fn put_word(out: &mut Vec<u8>, word: &Word<'_>) -> Result<(), NoMemory>
    ensures { OnOk result (out.new.items ≡ out.old.items ++ word_text word.now) }
{
    match word {
        Word::Name(name) => put(out, name.as_bytes()),
        Word::Number(n) => put_number(out, *n),
        Word::Id(id) => put_id(out, *id),
        Word::Key(key) => put_key(out, key),
        Word::Bytes(bytes) => put(out, bytes),
    }
}

// Writes words, each after a space.
pub fn put_words(out: &mut Vec<u8>, words: &[Word<'_>]) -> Result<(), NoMemory>
    ensures { OnOk result (out.new.items ≡ out.old.items ++ behind (map word_text words.now)) }
{
    for word in words {
        out.push(b' ')?;
        put_word(out, word)?;
    }
    Ok(())
}
