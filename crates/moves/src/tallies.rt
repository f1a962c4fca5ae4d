// The tallies of the steps so far: of all, of those kept and of those struck.
ghost use Rattle.std.specs.Prelude.{◌≡◌};
ghost use Rattle.moves.specs.Between.Tallied.{none_yet, with_one};

use tally::Tally;

// The tallies of all steps, of those kept and of those struck.
#[derive(Clone, Copy)]
pub struct Tallies {
    pub lodged: Tally,
    pub left: Tally,
    pub struck: Tally,
}

impl Tallies {
    // Those of no step.
    pub fn new() -> Tallies
        ensures { result ≡ none_yet }
    {
        Tallies {
            lodged: Tally::new(),
            left: Tally::new(),
            struck: Tally::new(),
        }
    }

    // With one step more of this cost, which is kept or struck.
    pub fn add(self, cost: u32, is_kept: bool) -> Tallies
        ensures { result ≡ with_one self cost is_kept }
    {
        let lodged = self.lodged;
        let left = self.left;
        let struck = self.struck;
        if is_kept {
            return Tallies {
                lodged: lodged.add(cost),
                left: left.add(cost),
                struck,
            };
        }
        Tallies {
            lodged: lodged.add(cost),
            left,
            struck: struck.add(cost),
        }
    }
}
