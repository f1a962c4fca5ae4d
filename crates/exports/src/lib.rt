// The services as a static library, for programs in other languages: C's names, slices and numbers alone. A slice is
// passed as its pointer and then its length. Slices that are lent to be written overlap no other slice of the same
// call: nothing checks that. What does not fit into a lent slice is dropped. Lent outputs, which a refusal leaves
// untouched: `state` of `hollchiku_step`, `states`, `rows`, `output`, `first` and `second`, `words` of
// `hollchiku_read_words` and `hollchiku_open`, and `text` of `hollchiku_text_of`. Return channels, which every call
// writes, on a refusal with document 01's zeros: `out`, `mask`, `part`, and `state` of `hollchiku_check_plan`. So are
// `bytes`, which no call refuses, and `text` of `hollchiku_license_lines` and `hollchiku_shorten_lines`, where a
// refusal has its line. A slice that is lent to be read is only read. forms: the forms that programs read and print.
#![tactic(auto)]

mod forms;

ghost use Rattle.std.specs.Prelude.{◌≡◌, min, length};
ghost use Rattle.std.proofs.lemmas.List.Edits.{sets};
ghost use Rattle.refusal.specs.Check.{answer};
ghost use Rattle.tally.specs.Tally.{one_more, comparison};
ghost use Rattle.sheet.specs.Causes.{sheet_checks};
ghost use Rattle.elimination.specs.declared.single.Elimination.TheVariants.{Plain, Greedy};
ghost use Rattle.cheaper.specs.Cheaper.{cheaper_part};
ghost use Rattle.lent.specs.Words.{answer_words, lent_tally, tally_words, order_number};
ghost use Rattle.exports.specs.Services.{StepsLent, ChecksLent, CoursesLent, MovesLent};
ghost use Rattle.exports.specs.Services.{MarksLent, TranslatesLent};
ghost use Rattle.striking.specs.Strikes.{EliminatesLent, MinimisesLent, LicensesLent, ReducesBothLent};
ghost use Rattle.striking.specs.Strikes.{CheaperLent};
ghost use Rattle.striking.specs.Statement.{DemandThreeLent, MayBeLodgedLent};

use access::put_all;
use cheaper::both::kept_part;
use course::plan_course;
use elimination::single::Elimination;
use landmark::marks::marks_mask;
use lent::{
    read_state, write_answer, write_checked, write_counted, write_front, write_pair, write_verdict,
};
use mask::Mask;
use moves::rows::plan_moves;
use plan::check::check_plan;
use sheet_check::check::check_sheet;
use std::cmp::Ordering;
use step::one::step;
use striking::{eliminate, eliminate_both, eliminate_cheaper, license_plan, minimise};
use tally::Tally;
use translation::translate::translate;

// Checks a task: the number and the place of its refusal go to `out`, or 0 and 0.
#[unsafe(no_mangle)]
pub extern "C" fn hollchiku_check_sheet(words: &[u32], out: &mut [u64])
    ensures { out.new
        ≡ sets out.old 0 (answer_words (answer (sheet_checks words.now))) }
{
    write_verdict(out, check_sheet(words));
}

// Adds a step to a tally: the cost and the steps after it go to `out`.
#[unsafe(no_mangle)]
pub extern "C" fn hollchiku_tally_add(cost: u32, steps: u32, price: u32, out: &mut [u64])
    ensures { out.new
        ≡ sets out.old 0 (tally_words (one_more (lent_tally cost steps) price)) }
{
    let after = Tally { cost, steps }.add(price);
    write_pair(out, 0, after.cost as u64, after.steps as u64);
}

// Compares two tallies: 0 where the first is the lower, 1 where they are equal, 2 where the second is.
#[unsafe(no_mangle)]
pub extern "C" fn hollchiku_tally_compare(
    cost_a: u32,
    steps_a: u32,
    cost_b: u32,
    steps_b: u32,
) -> u32
    ensures { result ≡ order_number (comparison (lent_tally cost_a steps_a) (lent_tally cost_b steps_b)) }
{
    let first = Tally {
        cost: cost_a,
        steps: steps_a,
    };
    let second = Tally {
        cost: cost_b,
        steps: steps_b,
    };
    match first.compare(second) {
        Ordering::Less => 0,
        Ordering::Equal => 1,
        Ordering::Greater => 2,
    }
}

// Does one step in a lent state of 64 values: the number and the place of its refusal go to `out`, or 0 and 0. A state
// of fewer words has zeros past its end, and what a step would write there is dropped.
#[unsafe(no_mangle)]
pub extern "C" fn hollchiku_step(words: &[u32], state: &mut [u32], action: u32, out: &mut [u64])
    ensures { StepsLent words.now action
        state.old state.new out.old out.new }
{
    let stepped = step(words, read_state(state), action);
    let after = stepped.state;
    let values = after.values;
    let verdict = stepped.verdict;
    put_all(state, &values);
    write_verdict(out, verdict);
}

// Checks a plan of a task: the number and the place of its refusal, or 0 and 0, then its cost and steps go to `out`,
// and the end state to the lent state.
#[unsafe(no_mangle)]
pub extern "C" fn hollchiku_check_plan(
    words: &[u32],
    plan: &[u32],
    state: &mut [u32],
    out: &mut [u64],
)
    ensures { ChecksLent words.now plan.now
        state.old state.new out.old out.new }
{
    write_checked(state, out, check_plan(words, plan));
}

// The states along a plan go to the front of `states`, one behind the other, each a value for each variable: the
// starting values, and the state after each step, up to the first that can't be done. The number and the place of a
// refusal of what is read, or 0 and 0, then how many states these are go to `out`.
#[unsafe(no_mangle)]
pub extern "C" fn hollchiku_course(words: &[u32], plan: &[u32], states: &mut [u32], out: &mut [u64])
    ensures { CoursesLent words.now plan.now
        states.old states.new out.old out.new }
{
    write_counted(out, plan_course(words, plan, states));
}

// The moves of a plan: a row of nine words for each step goes to the front of `rows`, one behind the other: its cost; 1
// where its bit in `kept` is one, else 0, and the same of `marked`; the cost and the number of all steps up to it, of
// those kept among them, and of those struck. The number and the place of a refusal of what is read, or 0 and 0, then
// the cost and the number of all struck steps go to `out`.
#[unsafe(no_mangle)]
pub extern "C" fn hollchiku_moves(
    words: &[u32],
    plan: &[u32],
    kept: &[u64],
    marked: &[u64],
    rows: &mut [u32],
    out: &mut [u64],
)
    ensures { MovesLent words.now plan.now kept.now marked.now
        rows.old rows.new out.old out.new }
{
    let given = plan_moves(words, plan, kept, marked, rows);
    write_answer(out, given);
}

// Marks the landmarks of a plan: the four words of their mask go to the lent mask, the number and the place of a
// refusal, or 0 and 0, to `out`.
#[unsafe(no_mangle)]
pub extern "C" fn hollchiku_marks(words: &[u32], plan: &[u32], mask: &mut [u64], out: &mut [u64])
    ensures { MarksLent words.now plan.now
        mask.old mask.new out.old out.new }
{
    match marks_mask(words, plan) {
        Ok(marks) => {
            put_all(mask, &marks.words);
            write_verdict(out, Ok(()));
        }
        Err(refusal) => {
            put_all(mask, &[0u64; Mask::WORDS]);
            write_verdict(out, Err(refusal));
        }
    }
}

// Elimination: the kept action numbers go to the front of `output`, the four words of their mask to `mask`, and the
// number and the place of a refusal, or 0 and 0, then the cost and the steps to `out`.
#[unsafe(no_mangle)]
pub extern "C" fn hollchiku_eliminate(
    words: &[u32],
    plan: &[u32],
    output: &mut [u32],
    mask: &mut [u64],
    out: &mut [u64],
)
    ensures { EliminatesLent Plain words.now plan.now
        output.old output.new mask.old mask.new
        out.old out.new }
{
    eliminate(words, plan, output, mask, out, Elimination::Plain);
}

// Greedy elimination, in the same form.
#[unsafe(no_mangle)]
pub extern "C" fn hollchiku_greedy(
    words: &[u32],
    plan: &[u32],
    output: &mut [u32],
    mask: &mut [u64],
    out: &mut [u64],
)
    ensures { EliminatesLent Greedy words.now plan.now
        output.old output.new mask.old mask.new
        out.old out.new }
{
    eliminate(words, plan, output, mask, out, Elimination::Greedy);
}

// What the cheaper elimination leaves (lower cost, then fewer steps, then elimination's), in the same form.
#[unsafe(no_mangle)]
pub extern "C" fn hollchiku_cheaper_left(
    words: &[u32],
    plan: &[u32],
    output: &mut [u32],
    mask: &mut [u64],
    out: &mut [u64],
)
    ensures { CheaperLent words.now plan.now
        output.old output.new mask.old mask.new
        out.old out.new }
{
    eliminate_cheaper(words, plan, output, mask, out);
}

// The minimal reduction, in the same form.
#[unsafe(no_mangle)]
pub extern "C" fn hollchiku_exact(
    words: &[u32],
    plan: &[u32],
    output: &mut [u32],
    mask: &mut [u64],
    out: &mut [u64],
)
    ensures words { MinimisesLent words.now plan.now
        output.old output.new mask.old mask.new
        out.old out.new }
    ensures demand_three { DemandThreeLent words.now plan.now
        output.old output.new mask.old mask.new
        out.old out.new }
{
    minimise(words, plan, output, mask, out);
}

// The licence of a plan, in the same form. Behind the tally goes the claim: 0 and how many steps are unmarked where it
// is open, 1 and 0 where it is irreducible, 2 and 0 where it is least.
#[unsafe(no_mangle)]
pub extern "C" fn hollchiku_license(
    words: &[u32],
    plan: &[u32],
    output: &mut [u32],
    mask: &mut [u64],
    out: &mut [u64],
)
    ensures words { LicensesLent words.now plan.now
        output.old output.new mask.old mask.new
        out.old out.new }
    ensures may_be_lodged { MayBeLodgedLent words.now plan.now
        output.old output.new mask.old mask.new
        out.old out.new }
{
    license_plan(words, plan, output, mask, out);
}

// Both eliminations: the list that each leaves goes to the front of its output, elimination's to `first`; the number
// and the place of a refusal, or 0 and 0, then both tallies go to `out`.
#[unsafe(no_mangle)]
pub extern "C" fn hollchiku_cheaper(
    words: &[u32],
    plan: &[u32],
    first: &mut [u32],
    second: &mut [u32],
    out: &mut [u64],
)
    ensures { ReducesBothLent words.now plan.now first.old first.new
        second.old second.new out.old out.new }
{
    eliminate_both(words, plan, first, second, out);
}

// The kept part of the cheaper of two lists goes to the front of `part`; how many words were written is returned.
#[unsafe(no_mangle)]
pub extern "C" fn hollchiku_kept_part<'a>(
    first: &'a [u32],
    second: &'a [u32],
    cost: u32,
    steps: u32,
    other: u32,
    others: u32,
    part: &mut [u32],
) -> u64
    ensures part { part.new ≡ sets part.old 0
        (cheaper_part first.now second.now (lent_tally cost steps) (lent_tally other others)) }
    ensures written { result ≡ min (length part.old) (length
        (cheaper_part first.now second.now (lent_tally cost steps) (lent_tally other others))) }
{
    let kept = kept_part(
        first,
        second,
        Tally { cost, steps },
        Tally {
            cost: other,
            steps: others,
        },
    );
    write_front(part, kept) as u64
}

// Reads a planner's text into a sheet: its words go to `output`; the number and the place of its refusal, or 0 and 0,
// and how many words it has go to `out`.
#[unsafe(no_mangle)]
pub extern "C" fn hollchiku_translate(text: &[u8], output: &mut [u32], out: &mut [u64])
    ensures { TranslatesLent text.now output.old output.new
        out.old out.new }
{
    write_counted(out, translate(text, output));
}
