//! Faults as they are written.
ghost use Rattle.std.specs.Prelude.{◌≡◌, IfOk};
ghost use Rattle.serde_json.specs.View.{view};
ghost use Rattle.message_json.specs.FaultWriter as spec;

use crate::BodyFault;
use crate::texts::compact;
use claim_types::{NoMemory, Text};
use serde_json::{Value, json};
use std::alloc::{AllocError, Global};

fn words(alloc: Global, words: &str) -> Result<Value, AllocError>
    ensures { IfOk result (λ v. view v ≡ spec.words_fault words.now) }
{
    json!(in alloc; { "fault": words })
}

fn about_member(alloc: Global, words: &str, name: &str) -> Result<Value, AllocError>
    ensures { IfOk result (λ v. view v ≡ spec.member_fault words.now name.now) }
{
    json!(in alloc; { "fault": words, "member": name })
}

fn fault_value(alloc: Global, fault: BodyFault) -> Result<Value, AllocError>
    ensures { IfOk result (λ v. view v ≡ spec.fault_data fault) }
{
    match fault {
        BodyFault::NotJson => words(alloc, "not json"),
        BodyFault::Missing { name } => about_member(alloc, "missing", name.text()),
        BodyFault::WrongKind { name } => about_member(alloc, "wrong kind", name.text()),
        BodyFault::BadValue { name } => about_member(alloc, "bad value", name.text()),
        BodyFault::Memory => words(alloc, "memory"),
    }
}

/// The body that names a fault: `not json`, `missing`, `wrong kind`, `bad value` or `memory`, the
/// middle three with the member's name.
#[tactic(auto, unfolding(crate::specs::FaultWriter::fault_text))]
pub fn write_fault(alloc: Global, fault: BodyFault) -> Result<Text, NoMemory>
    ensures { IfOk result (λ text. text ≡ spec.fault_text fault) }
{
    let value = fault_value(alloc, fault)?;
    compact(alloc, &value)
}
