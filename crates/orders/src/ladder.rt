// A ladder: the classes 1 to r, for r rungs, in the order of numbers.
ghost use Rattle.std.specs.Prelude.{◌≡◌};
ghost use Rattle.orders.specs.Ladder.{is_rung, at_or_below};
ghost use Rattle.std.proofs.Common.{rules};

use crate::order::Order;
use std::marker::Model;

#[derive(Clone, Copy)]
pub struct Ladder {
    rungs: u8,
}

// Clauses see the number of rungs.
impl Model for Ladder {
    ghost use Rattle.std.specs.Prelude.{ℕ};

    ghost Value = { ℕ };

    ghost view = { λ l. l.rungs };

    ghost inverse = { λ n. record { rungs = n } };
}

impl Ladder {
    // The ladder of this many rungs; one of none has no classes.
    pub fn new(rungs: u8) -> Ladder
        ensures { result ≡ rungs }
    {
        Ladder { rungs }
    }
}

impl Order for Ladder {
    ghost class = { is_rung };

    ghost below = { at_or_below };

    ghost ordered = { Prim.search rules };

    fn is_class(&self, code: u64) -> bool {
        1 <= code && code <= u64::from(self.rungs)
    }

    fn at_or_below(&self, a: u64, b: u64) -> bool {
        1 <= a && a <= b && b <= u64::from(self.rungs)
    }
}
