// The search from the starting values.
ghost use Rattle.std.specs.Prelude.{◌≡◌, ◌+◌, ◌-◌, ◌≤◌, ◌^◌};
ghost use Rattle.packed_state.specs.Between.Chosen.{most_choices};
ghost use Rattle.turns.specs.Between.Told.{Begins, Finds};

use crate::unpack::unpack;
use choice_rows::rows::{Choices, note_choices};
use fact_bits::bits::bits_behind;
use packed_state::packed::start;
use plan::limits::Plan;
use reduced::tallied::tally_of;
use tally::Tally;
use turns::chosen::Chosen;
use turns::turns::{keep, strike};

// The choices that keep all of `count` unflagged steps.
fn all_chosen(count: usize) -> u64
    requires { count ≤ most_choices }
    ensures { result ≡ 2 ^ (count + 1) - 1 }
{
    (1 << (count + 1)) - 1
}

// The choices of the minimal reduction of a plan: the search begins with the flagged steps kept and the lodged plan as
// the best. Of a plan with more unflagged steps than there is room for nothing is promised: the service refuses it.
fn choose(words: &[u32], plan: &[u32], flags: &[bool], lodged: Tally) -> u64
    ensures { Begins words.now plan.now flags.now lodged result }
{
    let behind = bits_behind(words, plan, flags);
    let mut choices = Choices::new();
    if !note_choices(words, plan, flags, &behind, &mut choices) {
        return 0;
    }
    let steps = choices.steps();
    let kept = Chosen {
        tally: tally_of(words, plan, flags),
        bits: 1,
    };
    let whole = Chosen {
        tally: lodged,
        bits: all_chosen(steps.len()),
    };
    let state = choices.start.write_over(&start(words));
    let struck = strike(steps, 0, &state, kept, whole);
    keep(steps, 0, &state, kept, struck).bits
}

// The flags of the minimal reduction of a valid plan with this tally, of which `flags` has steps that every valid
// reduction keeps.
pub fn minimal(words: &[u32], plan: &[u32], flags: &[bool], lodged: Tally) -> [bool; Plan::STEPS]
    ensures { Finds words.now plan.now flags.now lodged result }
{
    unpack(flags, choose(words, plan, flags, lodged))
}
