ghost use Rattle.std.specs.Prelude.{◌≡◌, Bool, IsTrue, ℕ, true};

use std::marker::Model;

/// A clock of whole seconds. Nothing rests on its truth.
pub trait Clock {
    /// Whether the clock tells its moment. A clause on moments holds where it does.
    ghost tells: { Bool };

    /// The one moment at which the clock stands.
    ghost moment: { Self → ℕ };

    /// The seconds that the clock shows.
    fn now(&mut self) -> u64
        ensures moment { IsTrue tells → result ≡ moment self.old }
        ensures stays { IsTrue tells → moment self.new ≡ moment self.old };
}

/// A clock that stands still. Contracts see its moment.
#[derive(Drop)]
pub struct FixedClock {
    seconds: u64,
}

impl Model for FixedClock {
    ghost use Rattle.std.specs.Prelude.{ℕ};

    ghost Value = { ℕ };

    ghost view = { λ c. c.seconds };
}

impl FixedClock {
    /// A clock that stands at this moment.
    pub fn new(now: u64) -> Self
        ensures { result ≡ now }
    {
        FixedClock { seconds: now }
    }
}

impl Clock for FixedClock {
    ghost tells = { true };

    ghost moment = { λ c. c };

    fn now(&mut self) -> u64
        ensures moment { result ≡ self.old }
        ensures stays { self.new ≡ self.old }
    {
        self.seconds
    }
}
