ghost use Rattle.std.specs.Prelude.{◌≡◌, ◌≤◌, ◌^◌};
ghost use Rattle.pgw_wire.specs.Memory.{limit_of, next_cut};

use std::marker::Model;

/// How many bytes each call that succeeds moves at most, and how many calls succeeded.
#[derive(Drop)]
pub(crate) struct Cuts {
    most: Vec<usize>,
    successes: u64,
}

impl Model for Cuts {
    ghost use Rattle.pgw_wire.specs.Memory.{Cuts as MostBytes};

    ghost Value = { MostBytes };

    ghost view = { λ c. record { most = c.most.items; successes = c.successes } };
}

impl Cuts {
    pub(crate) fn new(most: Vec<usize>) -> Cuts
        ensures { result ≡ record { most = most.items; successes = 0 } }
    {
        Cuts { most, successes: 0 }
    }

    /// How many bytes the next call that succeeds moves at most.
    pub(crate) fn limit(&self) -> usize
        ensures { result ≡ limit_of self.now }
    {
        let cut = self.most.get(self.successes as usize).copied();
        cut.unwrap_or(usize::MAX).max(1)
    }

    /// Goes on to the next cut.
    pub(crate) fn advance(&mut self)
        ensures { self.new ≡ next_cut self.old }
    {
        self.successes = self.successes.saturating_add(1);
    }
}
