// Plans with too many unmarked steps for the minimal reduction: what the cheaper elimination leaves of them, and of
// that the minimal reduction where few enough steps are unmarked there.
ghost use Rattle.std.specs.Prelude.{◌≡◌};
ghost use Rattle.claim.specs.Licensing.{licensing};
ghost use Rattle.claim.specs.Between.Computed.{LicensesOf};
ghost use Rattle.claim.specs.Between.Further.{GoesFurther};

use crate::answer::{Claim, Licensed};
use access::put_all;
use cheaper::both::flags_of_cheaper;
use minimal::reduce::minimal_reduction;
use minimal::within::Shortened;
use plan::limits::Plan;
use reduced::finish::{Kept, finish};
use reduced::through::mask_through;
use tally::Tally;

// A claim of what is left, with the lodged plan's tally and its number of marked steps.
fn grant(claim: Claim, left: Kept, lodged: Tally, marked: u32) -> Licensed
    ensures { result ≡ record {
      claim = claim;
      told = record { left = left; lodged = lodged; marked = marked };
    } }
{
    Licensed {
        claim,
        told: Shortened {
            left,
            lodged,
            marked,
        },
    }
}

// Licenses a plan of this tally, of which so many steps are unmarked.
pub(crate) fn license_further(
    words: &[u32],
    plan: &[u32],
    out: &mut [u32],
    lodged: Tally,
    unmarked: usize,
) -> Licensed
    requires { GoesFurther words.now plan.now out.old lodged unmarked }
    ensures { LicensesOf words.now plan.now out.old (licensing (Ok result)) out.new }
{
    let n = plan.len();
    let marked = (n - unmarked) as u32;
    let flags = flags_of_cheaper(words, plan);
    // Fixed memory: of these words `left` are the list.
    let mut list = [0u32; Plan::STEPS];
    let kept = finish(words, plan, &flags[..n], &mut list);
    let left = kept.tally.steps as usize;
    match minimal_reduction(words, &list[..left], out) {
        Ok(exact) => {
            let mask = mask_through(&flags[..n], exact.left.mask);
            let tally = exact.left.tally;
            grant(Claim::Irreducible, Kept { tally, mask }, lodged, marked)
        }
        Err(refusal) => {
            put_all(out, &list[..left]);
            grant(Claim::Open(refusal.place()), kept, lodged, marked)
        }
    }
}
