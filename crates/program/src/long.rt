// The refusal of a plan that is too long to be read.
ghost use Rattle.std.specs.Prelude.{◌≡◌};
ghost use Rattle.refusal.specs.Refusal.{told_refusal};
ghost use Rattle.program.specs.Long.{long_refusal};

use plan::limits::Plan;
use refusal::Refusal;
use sheet_check::check::check_sheet;

// The task's own checks go first, so that a faulty task is refused as in any other service.
pub(crate) fn refuse_long(words: &[u32]) -> Refusal
    ensures { told_refusal result ≡ long_refusal words.now }
{
    match check_sheet(words) {
        Err(refusal) => refusal,
        Ok(()) => Refusal::PlanLength(Plan::STEPS),
    }
}
