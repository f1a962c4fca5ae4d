// The services that strike, over lent words: the list left, its mask and the answer go to lent slices.
#![tactic(auto)]

ghost use Rattle.std.specs.Prelude.{◌≡◌};
ghost use Rattle.std.proofs.lemmas.List.Edits.{sets};
ghost use Rattle.striking.specs.Strikes.{EliminatesLent, MinimisesLent, claim_words, LicensesLent};
ghost use Rattle.striking.specs.Strikes.{ReducesBothLent, CheaperLent};
ghost use Rattle.striking.specs.Statement.{DemandThreeLent, MayBeLodgedLent};

use cheaper::both::cheaper;
use cheaper::left::cheaper_left;
use claim::answer::Claim;
use claim::license::license;
use elimination::single::{Elimination, eliminate_plan};
use lent::{write_both, write_pair, write_reduced};
use minimal::reduce::minimal_reduction;
use tally::Tally;

// Where a claim stands, after the refusal's number and place and the tally.
const CLAIM_AT: usize = 4;

// Elimination, or greedy elimination: the kept action numbers go to the front of `output`, the four words of their mask
// to `mask`, and the number and the place of a refusal, or 0 and 0, then the cost and the steps to `out`.
pub fn eliminate(
    words: &[u32],
    plan: &[u32],
    output: &mut [u32],
    mask: &mut [u64],
    out: &mut [u64],
    by: Elimination,
)
    ensures { EliminatesLent by words.now plan.now
        output.old output.new mask.old mask.new
        out.old out.new }
{
    write_reduced(mask, out, eliminate_plan(words, plan, output, by));
}

// What the cheaper elimination leaves, in the same form.
// A function of its own: `CheaperLent` is no case of `EliminatesLent`.
pub fn eliminate_cheaper(
    words: &[u32],
    plan: &[u32],
    output: &mut [u32],
    mask: &mut [u64],
    out: &mut [u64],
)
    ensures { CheaperLent words.now plan.now
        output.old output.new mask.old mask.new
        out.old out.new }
{
    write_reduced(mask, out, cheaper_left(words, plan, output));
}

// The minimal reduction, in the same form.
pub fn minimise(words: &[u32], plan: &[u32], output: &mut [u32], mask: &mut [u64], out: &mut [u64])
    ensures words { MinimisesLent words.now plan.now
        output.old output.new mask.old mask.new
        out.old out.new }
    ensures demand_three { DemandThreeLent words.now plan.now
        output.old output.new mask.old mask.new
        out.old out.new }
{
    match minimal_reduction(words, plan, output) {
        Ok(shortened) => write_reduced(mask, out, Ok(shortened.left)),
        Err(refusal) => write_reduced(mask, out, Err(refusal)),
    }
}

// Writes a claim behind an answer: 0 and how many steps are unmarked where it is open, 1 and 0 where it is irreducible,
// 2 and 0 where it is least.
// The numbers of the C interface.
fn write_claim(out: &mut [u64], claim: Claim)
    ensures { out.new ≡ sets out.old 4 (claim_words claim) }
{
    match claim {
        Claim::Open(steps) => write_pair(out, CLAIM_AT, 0, steps as u64),
        Claim::Irreducible => write_pair(out, CLAIM_AT, 1, 0),
        Claim::Least => write_pair(out, CLAIM_AT, 2, 0),
    }
}

// The licence of a plan, in the same form. Behind the tally goes the claim: 0 and how many steps are unmarked where it
// is open, 1 and 0 where it is irreducible, 2 and 0 where it is least.
pub fn license_plan(
    words: &[u32],
    plan: &[u32],
    output: &mut [u32],
    mask: &mut [u64],
    out: &mut [u64],
)
    ensures words { LicensesLent words.now plan.now
        output.old output.new mask.old mask.new
        out.old out.new }
    ensures may_be_lodged { MayBeLodgedLent words.now plan.now
        output.old output.new mask.old mask.new
        out.old out.new }
{
    match license(words, plan, output) {
        Ok(licence) => {
            write_reduced(mask, out, Ok(licence.told.left));
            write_claim(out, licence.claim);
        }
        Err(refusal) => {
            write_reduced(mask, out, Err(refusal));
            write_claim(out, Claim::Open(0));
        }
    }
}

// Both eliminations: the list that each leaves goes to the front of its output, elimination's to `first`; the number
// and the place of a refusal, or 0 and 0, then both tallies go to `out`.
pub fn eliminate_both(
    words: &[u32],
    plan: &[u32],
    first: &mut [u32],
    second: &mut [u32],
    out: &mut [u64],
)
    ensures { ReducesBothLent words.now plan.now first.old first.new
        second.old second.new out.old out.new }
{
    match cheaper(words, plan, first, second) {
        Ok(both) => write_both(out, Ok(()), both.first, both.second),
        Err(refusal) => write_both(out, Err(refusal), Tally::new(), Tally::new()),
    }
}
