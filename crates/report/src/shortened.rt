// What is printed for a plan that is shortened, put to the front of lent bytes.
ghost use Rattle.program.specs.Between.Room.{TextPut};
ghost use Rattle.report.specs.Shortened.{shortened};
ghost use Rattle.report.specs.Between.Reported.{report_room};

use crate::reported::put_report;
use lines::Page;
use minimal::reduce::minimal_reduction;
use plan::limits::Plan;
use program::output::put_refusal;

// Puts the report of a plan, or its refusal. The list left has room for the longest that is read.
pub fn put_shortened(page: &mut Page, words: &[u32], plan: &[u32])
    ensures { TextPut report_room page.old page.new
        (shortened words.now plan.now) }
{
    let mut left = [0u32; Plan::STEPS];
    match minimal_reduction(words, plan, &mut left) {
        Ok(shortened) => put_report(page, words, plan, shortened),
        Err(refusal) => put_refusal(page, refusal),
    }
}
