// A reduction on its way, told by its tally and its word of choices.
ghost use Rattle.std.specs.Prelude.{◌≡◌};
ghost use Rattle.std.specs.Int.Bits.{bit_or};
ghost use Rattle.tally.specs.Tally.{one_more};
ghost use Rattle.turns.specs.Between.Unpacked.{bit_of};

use mask::Mask;
use tally::Tally;

// A reduction that keeps the flagged steps. It is small, and the turns hand it on by value.
#[derive(Clone, Copy)]
pub struct Chosen {
    pub tally: Tally,
    pub bits: u64,
}

// The bits of a word of choices but the lowest.
const BITS: usize = Mask::BITS - 1;

// The bit of unflagged step d, none past the last bit.
fn bit(d: usize) -> u64
    ensures { result ≡ bit_of d }
{
    if d < BITS { 1 << (d + 1) } else { 0 }
}

impl Chosen {
    // Keeps unflagged step d too, at its cost.
    pub fn keep_step(self, d: usize, cost: u32) -> Chosen
        ensures { (result.tally ≡ one_more self.tally cost)
            × (result.bits ≡ bit_or self.bits (bit_of d)) }
    {
        Chosen {
            tally: self.tally.add(cost),
            bits: self.bits | bit(d),
        }
    }
}
