// The minimal reduction of a plan of which no more than a limit of steps is unmarked.
ghost use Rattle.std.specs.Prelude.{◌≤◌};
ghost use Rattle.packed_state.specs.Between.Chosen.{most_choices};
ghost use Rattle.minimal.specs.Minimised.{shortening};
ghost use Rattle.minimal.specs.Between.Computed.{MinimisesOf};

use landmark::marks::mark_lodged;
use mask::mask_of;
use reduced::finish::{Kept, finish};
use reduced::room::check_room;
use refusal::Refusal;
use search::best::minimal;
use tally::Tally;

// The tally and the mask of the steps kept, and of the lodged list its tally and the number of its marked steps.
#[derive(Clone, Copy)]
pub struct Shortened {
    pub left: Kept,
    pub lodged: Tally,
    pub marked: u32,
}

// Writes what the minimal reduction leaves of a plan to the front of `out`; refuses where more than `limit` steps are
// unmarked. The search has room for so many.
pub(crate) fn reduce_within(
    words: &[u32],
    plan: &[u32],
    out: &mut [u32],
    limit: usize,
) -> Result<Shortened, Refusal>
    requires { limit ≤ most_choices }
    ensures { MinimisesOf limit words.now plan.now out.old (shortening result)
        out.new }
{
    let n = plan.len();
    let checked = mark_lodged(words, plan, check_room(n, out.len()))?;
    let lodged = checked.tally;
    let flags = checked.flags;
    let marked = mask_of(&flags[..n]).count();
    let unmarked = n - marked as usize;
    if limit < unmarked {
        return Err(Refusal::Unmarked(unmarked));
    }
    let kept = minimal(words, plan, &flags[..n], lodged);
    let left = finish(words, plan, &kept[..n], out);
    Ok(Shortened {
        left,
        lodged,
        marked,
    })
}
