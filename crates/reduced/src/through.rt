// A reduction of what a reduction leaves, as one mask over the lodged plan.
ghost use Rattle.std.specs.Prelude.{◌≡◌, ◌≤◌, length};
ghost use Rattle.plan.specs.Limits.{most_steps};
ghost use Rattle.reduction.specs.Reduction.{Reduction, compose};
ghost use Rattle.mask.specs.Mask.{mask_bits, mask_words};

use mask::{Mask, mask_of};
use plan::limits::Plan;

// The mask of the steps that are kept by these flags, and then by the second mask: its steps are those that the flags
// keep.
pub fn mask_through(flags: &[bool], second: Mask) -> Mask
    requires { length flags.now ≤ most_steps }
    ensures { (m : Reduction) → second.words ≡ mask_words m → length m ≤ mask_bits
        → result.words ≡ mask_words (compose flags.now m) }
{
    let n = flags.len();
    let mut both = [false; Plan::STEPS];
    let mut left = 0;
    for (i, &kept) in flags.iter().enumerate() {
        if !kept {
            continue;
        }
        both[i] = second.keeps(left);
        left += 1;
    }
    mask_of(&both[..n])
}
