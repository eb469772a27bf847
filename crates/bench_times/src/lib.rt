//! How long calls took, for the programs that measure.
//!
//! ```text
//! let start = Instant::now(rt)?;
//! for n in 0..1_000 { .. }
//! nanoseconds_each(start.elapsed(rt)?, 1_000)
//! ```
#![tactic(auto)]

ghost use Rattle.std.specs.Prelude.{◌≡◌, ◌/◌, ◌-◌, ◌^◌, min, max};
ghost use Rattle.std.specs.Duration.{as_nanos};

use std::time::Duration;

/// The nanoseconds of each of so many calls that took this time together, rounded down; of no call, those of
/// all; as many as a number of 64 bits holds at most.
pub fn nanoseconds_each(time: Duration, calls: u64) -> u64
    ensures { result ≡ min (as_nanos time / max calls 1) (2 ^ 64 - 1) }
{
    match u64::try_from(time.as_nanos() / calls.max(1) as u128) {
        Ok(each) => each,
        Err(_) => u64::MAX,
    }
}

#[cfg(test)]
mod tests {
    use super::*;

    #[test]
    fn each_call_has_its_share(rt: HostRuntime) {
        assert_eq!(rt; nanoseconds_each(Duration::from_micros(7), 2), 3_500);
        assert_eq!(rt; nanoseconds_each(Duration::from_nanos(7), 4), 1);
        assert_eq!(rt; nanoseconds_each(Duration::from_nanos(7), 0), 7);
        assert_eq!(rt;
            nanoseconds_each(Duration::from_secs(u64::MAX), 1),
            u64::MAX
        );
    }
}
