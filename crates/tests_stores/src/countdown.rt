//! One of the calls to come.
ghost use Rattle.std.specs.Prelude.{◌≡◌, ◌==◌, ◌-◌};

use std::marker::Model;

/// How many calls are to come up to the one that counts, and with it; 0 where none counts.
#[derive(Drop)]
pub(crate) struct Countdown {
    left: u64,
}

impl Model for Countdown {
    ghost use Rattle.std.specs.Prelude.{ℕ};

    ghost Value = { ℕ };

    ghost view = { λ countdown. countdown.left };
}

impl Countdown {
    /// To the k-th call from now on, counted from 1; with 0 to none.
    pub(crate) fn new(k: u64) -> Countdown
        ensures { result ≡ k }
    {
        Countdown { left: k }
    }

    /// One call more, and whether it is the one that counts.
    pub(crate) fn is_due(&mut self) -> bool
        ensures due { result ≡ (self.old == 1) }
        ensures left { self.new ≡ self.old - 1 }
    {
        let due = self.left == 1;
        self.left = self.left.saturating_sub(1);
        due
    }
}
