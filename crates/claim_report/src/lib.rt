// What is printed for a plan that is licensed, put on a page: the line of its claim, and the report of what is left.
#![tactic(auto)]

ghost use Rattle.program.specs.Between.Room.{TextPut};
ghost use Rattle.report.specs.Between.Reported.{PutsLines};
ghost use Rattle.claim_report.specs.Licensed.{claim_line, licensed};
ghost use Rattle.claim_report.specs.Between.LicenceRoom.{licence_room};

use claim::answer::Claim;
use claim::license::license;
use lines::Page;
use plan::limits::Plan;
use program::output::{put_line, put_refusal};
use report::reported::put_report;

// Puts the line of a claim.
// No Display, for the reason at `Page::number`.
fn put_claim(page: &mut Page, claim: Claim)
    ensures { PutsLines 1 (claim_line claim) page.old page.new }
{
    match claim {
        Claim::Least => put_line(page, b"least", &[]),
        Claim::Irreducible => put_line(page, b"irreducible", &[]),
        Claim::Open(unmarked) => put_line(page, b"open", &[unmarked as u64]),
    }
}

// Puts the claim and the report of a plan, or its refusal. The list left has room for the longest that is read.
pub fn put_licensed(page: &mut Page, words: &[u32], plan: &[u32])
    ensures { TextPut licence_room page.old page.new
        (licensed words.now plan.now) }
{
    let mut left = [0u32; Plan::STEPS];
    match license(words, plan, &mut left) {
        Ok(licence) => {
            put_claim(page, licence.claim);
            put_report(page, words, plan, licence.told);
        }
        Err(refusal) => put_refusal(page, refusal),
    }
}
