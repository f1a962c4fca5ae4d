// The check of a plan with its marks, as what every service that needs them begins with, and the marks as a service:
// refusals 1 to 9 and 11.
ghost use Rattle.refusal.specs.Refusal.{verdict_in};
ghost use Rattle.landmark.specs.Marks.{mask_masked, Masks};
ghost use Rattle.landmark.specs.Between.Flagged.{answer_marked, flags_marked, MarksLodged};

use crate::flags::landmarks;
use mask::{Mask, mask_of};
use plan::check::check_lodged;
use plan::limits::Plan;
use refusal::Refusal;
use tally::Tally;

// The tally of a valid plan, and its marks: a flag for each step, none past the last.
#[derive(Clone, Copy)]
pub struct Marked {
    pub tally: Tally,
    pub flags: [bool; Plan::STEPS],
}

// Checks a plan of a task and marks its landmarks. `besides` is the verdict on what a service asks besides.
pub fn mark_lodged(
    words: &[u32],
    plan: &[u32],
    besides: Result<(), Refusal>,
) -> Result<Marked, Refusal>
    ensures { MarksLodged words.now plan.now besides (answer_marked result) (flags_marked result) }
{
    let checked = check_lodged(words, plan, Plan::STEPS, besides)?;
    Ok(Marked {
        tally: checked.tally,
        flags: landmarks(words, plan),
    })
}

// Marks the landmarks of a plan of a task, as document 01 returns them: a mask of four words.
pub fn marks_mask(words: &[u32], plan: &[u32]) -> Result<Mask, Refusal>
    ensures { Masks words.now plan.now (verdict_in result) (mask_masked result) }
{
    let marked = mark_lodged(words, plan, Ok(()))?;
    let flags = marked.flags;
    Ok(mask_of(&flags[..plan.len()]))
}
