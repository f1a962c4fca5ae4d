// The tally of a plan: its cost (document 01: price) and its number of steps.
#![tactic(auto)]

ghost use Rattle.std.specs.Prelude.{◌≡◌};
ghost use Rattle.std.specs.Ordering.{is_lt};
ghost use Rattle.tally.specs.Tally.{bounds, nothing, one_more, comparison};

use std::cmp::Ordering;

// A tally. Its fields may hold any values. Their order makes its order: the lower cost, then the fewer steps.
#[derive(Clone, Copy, PartialEq, Eq, PartialOrd, Ord)]
pub struct Tally {
    pub cost: u32,
    pub steps: u32,
}

impl Tally {
    // The most steps and the most cost that a tally counts up to.
    pub const STEPS: u32 = 255;

    pub const COST: u32 = 255_000_000;

    // The bounds of the code are those of the definitions.
    pub fn bounds() -> Tally
        ensures { result ≡ bounds }
    {
        Tally {
            cost: Tally::COST,
            steps: Tally::STEPS,
        }
    }

    // The tally of no step.
    pub fn new() -> Tally
        ensures { result ≡ nothing }
    {
        Tally { cost: 0, steps: 0 }
    }

    // The tally with one step more, or unchanged where a bound would be passed.
    pub fn add(self, cost: u32) -> Tally
        ensures { result ≡ one_more self cost }
    {
        if Tally::STEPS <= self.steps {
            return self;
        }
        if Tally::COST < self.cost {
            return self;
        }
        if Tally::COST - self.cost < cost {
            return self;
        }
        Tally {
            cost: self.cost + cost,
            steps: self.steps + 1,
        }
    }

    // Compares by cost, then by steps.
    pub fn compare(self, other: Tally) -> Ordering
        ensures { result ≡ comparison self other }
    {
        self.cmp(&other)
    }

    // Whether it is the lower of two.
    pub fn is_lower(self, other: Tally) -> bool
        ensures { result ≡ is_lt (comparison self other) }
    {
        self.compare(other).is_lt()
    }
}
