// The lines that programs print of a plan that is shortened.
ghost use Rattle.std.specs.Prelude.{◌+◌, length};
ghost use Rattle.reduction.specs.Reduction.{Reduction};
ghost use Rattle.minimal.specs.Minimised.{shortening};
ghost use Rattle.report.specs.Report.{step_lines, report};
ghost use Rattle.report.specs.Between.Reported.{MasksSteps, Reports, PutsStep, PutsLines};

use lines::Page;
use mask::Mask;
use minimal::within::Shortened;
use program::output::{put_line, put_row, put_tally};
use sheet::layout::cost;

// Puts the line of a step: its position, its action and its cost.
fn put_step(page: &mut Page, words: &[u32], position: usize, action: u32)
    ensures { PutsStep words.now position action page.old page.new }
{
    put_row(
        page,
        position as u64,
        &[u64::from(action), u64::from(cost(words, action))],
    );
}

// Puts a line for each kept step.
fn put_steps(page: &mut Page, words: &[u32], plan: &[u32], mask: Mask)
    ensures { (m : Reduction) → MasksSteps plan.now m mask
        → PutsLines (length plan.now) (step_lines words.now 1 plan.now m)
        page.old page.new }
{
    for (i, action) in plan.iter().enumerate() {
        if mask.keeps(i) {
            put_step(page, words, i + 1, *action);
        }
    }
}

// Puts all lines of a plan that is shortened.
pub fn put_report(page: &mut Page, words: &[u32], plan: &[u32], told: Shortened)
    ensures { (m : Reduction) → Reports words.now plan.now m (shortening (Ok told)) told.left.tally
        → PutsLines (3 + length plan.now) (report words.now plan.now m)
        page.old page.new }
{
    put_tally(page, b"lodged", told.lodged);
    put_line(page, b"marked", &[u64::from(told.marked)]);
    put_tally(page, b"kept", told.left.tally);
    put_steps(page, words, plan, told.left.mask);
}
