// The flags of the steps that choices keep.
ghost use Rattle.turns.specs.Between.Unpacked.{Unpacks};

use access::get_or;
use plan::limits::Plan;

// A flag for each step that a plan may have: up where the step is flagged or kept. The lowest bit is no step's, and
// each unflagged step has the next.
pub(crate) fn unpack(flags: &[bool], bits: u64) -> [bool; Plan::STEPS]
    ensures { Unpacks flags.now bits result }
{
    let mut left = bits / 2;
    let mut kept = [false; Plan::STEPS];
    for (i, up) in kept.iter_mut().enumerate() {
        if get_or(flags, i, false) {
            *up = true;
        } else {
            *up = left % 2 == 1;
            left /= 2;
        }
    }
    kept
}
