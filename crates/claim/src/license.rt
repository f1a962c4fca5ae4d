// The licence of a plan: refusals 1 to 11, and the claim, the tally, the mask and the list left.
ghost use Rattle.std.specs.Prelude.{◌≡◌};
ghost use Rattle.std.proofs.Math.Option.{some};
ghost use Rattle.refusal.specs.Refusal.{told_refusal};
ghost use Rattle.minimal.specs.Minimised.{most_unmarked, minimal_refusal};
ghost use Rattle.claim.specs.Licensing.{licensing};
ghost use Rattle.claim.specs.Licensed.{Licenses};
ghost use Rattle.claim.specs.Between.Computed.{LicensesOf};
ghost use Rattle.claim.specs.Statement.{MayBeLodged};

use crate::answer::{Claim, Licensed};
use crate::further::license_further;
use minimal::reduce::minimal_reduction;
use plan::check::check_lodged;
use plan::limits::Plan;
use reduced::room::check_room;
use refusal::Refusal;

// Licenses a plan that the minimal reduction refuses, unless one of the checks 1 to 11 refuses it.
fn license_refused(
    words: &[u32],
    plan: &[u32],
    out: &mut [u32],
    refusal: Refusal,
) -> Result<Licensed, Refusal>
    requires { minimal_refusal most_unmarked words.now plan.now out.old ≡ some (told_refusal refusal) }
    ensures { LicensesOf words.now plan.now out.old (licensing result) out.new }
{
    let checked = check_lodged(words, plan, Plan::STEPS, check_room(plan.len(), out.len()))?;
    Ok(license_further(words, plan, out, checked.tally, refusal.place()))
}

// Writes what is left of a plan to the front of `out`, with the strongest claim that is proved of it.
pub fn license(words: &[u32], plan: &[u32], out: &mut [u32]) -> Result<Licensed, Refusal>
    ensures answer { Licenses words.now plan.now out.old (licensing result) out.new }
    ensures may_be_lodged { MayBeLodged words.now plan.now out.old (licensing result)
        out.new }
{
    match minimal_reduction(words, plan, out) {
        Ok(told) => Ok(Licensed {
            claim: Claim::Least,
            told,
        }),
        Err(refusal) => license_refused(words, plan, out, refusal),
    }
}
