ghost use Rattle.std.specs.Prelude.{◌≡◌, ◌==◌, IsTrue, if◌then◌else◌, Option};
ghost use Rattle.std.specs.List.{find};
ghost use Rattle.std.specs.Result.{is_ok};
ghost use Rattle.disk_journal.specs.declared.failing.FailingCall.{FailingCall};
ghost use Rattle.disk_journal.specs.Failing.{fate_at, passes, one_more};
ghost use Rattle.disk_journal.specs.Disk.{HasCause};

use crate::DiskFailed;

/// A call that fails, by its number from 1, and whether it has done its work.
#[derive(Clone, Copy, Debug)]
pub struct FailingCall {
    pub call: u64,
    pub done: bool,
}

/// Whether a call passes, or fails with its work done or not done.
#[derive(Clone, Copy)]
pub enum Fate {
    Passes,
    FailsDone,
    FailsIdle,
}

// What the list says of a call.
fn named(failing: &[FailingCall], call: u64) -> Option<FailingCall>
    ensures { result ≡ find (λ (it : FailingCall). it.call == call) failing.now }
{
    failing.iter().copied().find(|it| it.call == call)
}

fn fate_of(failing: &[FailingCall], call: u64) -> Fate
    ensures { result ≡ fate_at failing.now call }
{
    match named(failing, call) {
        Some(found) if found.done => Fate::FailsDone,
        Some(_) => Fate::FailsIdle,
        None => Fate::Passes,
    }
}

/// Counts a call, and says what the list says of it.
pub fn next_fate(calls: &mut u64, failing: &[FailingCall]) -> Fate
    ensures fate { result ≡ fate_at failing.now (one_more calls.old) }
    ensures calls { calls.new ≡ one_more calls.old }
{
    *calls = calls.saturating_add(1);
    fate_of(failing, *calls)
}

/// Whether a call of this fate passes, where the disk can do its work or cannot.
pub fn is_passed(fate: Fate, can: bool) -> bool
    ensures { result ≡ passes fate can }
{
    match fate {
        Fate::Passes => can,
        _ => false,
    }
}

/// What a call answers that passed or not. One that did not is counted.
pub fn answer(
    faults: &mut u64,
    last_fault: &mut u16,
    file: u16,
    passed: bool,
) -> Result<(), DiskFailed>
    ensures ok { is_ok result ≡ passed }
    ensures faults { faults.new ≡ (if passed then faults.old else one_more faults.old) }
    ensures last { last_fault.new ≡ (if passed then last_fault.old else file) }
    ensures cause { HasCause file faults.old faults.new last_fault.old last_fault.new result }
{
    if passed {
        return Ok(());
    }
    *faults = faults.saturating_add(1);
    *last_fault = file;
    Err(DiskFailed)
}
