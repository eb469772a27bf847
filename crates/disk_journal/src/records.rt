ghost use Rattle.std.specs.Prelude.{◌≡◌, ◌≢◌, ◌+◌, ◌≤◌, ◌<◌, ◌++◌, ◌↔◌, ℕ, List, IsTrue, IfOk, IsErrOf, MatchOption, length, take, drop};
ghost use Rattle.disk_journal.specs.Journal.{header, IsJournal, EndsAt, IsRecord};
ghost use Rattle.disk_journal.specs.Answers.{Refuses};
ghost use Rattle.disk_journal.specs.declared.fault.JournalFault.TheVariants.{Failed};

use crate::JournalFault;
use crate::limits::{BODY_BYTES, FRAME_BYTES, HEADER_BYTES};
use cells_base::Text;
use std::alloc::Global;

/// What a journal begins with. A gate follows it.
const HEADER: [u8; HEADER_BYTES] = *b"cells-journal-01";

/// The bodies of a journal, and the place of its first closed gate.
#[derive(Drop)]
pub struct Records {
    pub bodies: Vec<Text>,
    pub gate: usize,
}

fn begins_with_header(bytes: &[u8]) -> bool
    requires { HEADER_BYTES ≤ length bytes.now }
    ensures { IsTrue result ↔ (take HEADER_BYTES bytes.now ≡ header) }
{
    &bytes[..HEADER_BYTES] == HEADER.as_slice()
}

// The body behind an open gate: its length in four bytes, the most significant first, the body, and the next gate.
fn body_of(behind: &[u8]) -> Option<&[u8]>
    ensures { MatchOption result ((b : List ℕ) → IsRecord b behind.now → ⊥) (λ b. IsRecord b.now behind.now) }
{
    let [a, b, c, d, rest @ ..] = behind else {
        return None;
    };
    let length = u32::from_be_bytes([*a, *b, *c, *d]) as usize;
    if length == 0 || length > BODY_BYTES || length >= rest.len() {
        return None;
    }
    Some(&rest[..length])
}

/// The bodies up to the first closed gate.
pub fn read_records(alloc: Global, bytes: &[u8]) -> Result<Records, JournalFault>
    ensures bodies { IfOk result (λ read. IsJournal bytes.now read.bodies.items) }
    ensures front { IfOk result (λ read. EndsAt (take (read.gate + 1) bytes.now) read.gate read.bodies.items) }
    ensures within { IfOk result (λ read. read.gate < length bytes.now) }
    ensures refused { Refuses result bytes.now }
    ensures no_call { IsErrOf result JournalFault.Failed → ⊥ }
{
    if bytes.len() <= HEADER_BYTES || !begins_with_header(bytes) {
        return Err(JournalFault::NotAJournal { at: 0 });
    }
    let mut bodies = Vec::new(alloc);
    let mut gate = HEADER_BYTES;
    while bytes[gate] != 0 {
        let Some(body) = body_of(&bytes[gate + 1..]) else {
            return Err(JournalFault::NotAJournal { at: gate as u64 });
        };
        bodies.push(Text::from_slice(alloc, body)?)?;
        gate += FRAME_BYTES + body.len();
    }
    Ok(Records { bodies, gate })
}
