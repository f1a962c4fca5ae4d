// What is told and written of a reduction.
ghost use Rattle.reduced.specs.Between.Kept.{Finishes};

use crate::tallied::tally_of;
use mask::{Mask, mask_of, write_kept};
use tally::Tally;

// The tally and the mask of a reduction.
#[derive(Clone, Copy)]
pub struct Kept {
    pub tally: Tally,
    pub mask: Mask,
}

// Writes the kept steps of a plan to the front of `out`. Their number is that of the ones in the mask.
pub fn finish(words: &[u32], plan: &[u32], flags: &[bool], out: &mut [u32]) -> Kept
    ensures { Finishes words.now plan.now flags.now
        out.old result.tally result.mask.words out.new }
{
    let mask = mask_of(flags);
    let tally = tally_of(words, plan, flags);
    let cost = tally.cost;
    let steps = mask.count();
    write_kept(mask, plan, out);
    Kept {
        tally: Tally { cost, steps },
        mask,
    }
}
