// The checks of what is read: the sheet's, then those of a plan's entries, refusal 8, too many steps, and 9, an unknown
// action.
ghost use Rattle.std.specs.Prelude.{◌≡◌};
ghost use Rattle.refusal.specs.Refusal.{told};
ghost use Rattle.refusal.specs.Check.{answer};
ghost use Rattle.plan.specs.Checked.{unknown_place, list_checks, read_checks};

use refusal::Refusal;
use sheet::layout::actions;
use sheet_check::check::check_sheet;

// The position of the first unknown action.
fn unknown_action(words: &[u32], plan: &[u32]) -> Option<usize>
    ensures { result ≡ unknown_place words.now plan.now }
{
    let known = actions(words);
    for (i, &a) in plan.iter().enumerate() {
        if known <= a as usize {
            return Some(i + 1);
        }
    }
    None
}

// Refusals 8, more steps than the limit, and 9.
fn check_list(words: &[u32], plan: &[u32], limit: usize) -> Result<(), Refusal>
    ensures { told result ≡ answer (list_checks limit words.now plan.now) }
{
    if limit < plan.len() {
        return Err(Refusal::PlanLength(limit));
    }
    match unknown_action(words, plan) {
        Some(i) => Err(Refusal::UnknownAction(i)),
        None => Ok(()),
    }
}

// The sheet's checks, then the list's.
pub fn check_read(words: &[u32], plan: &[u32], limit: usize) -> Result<(), Refusal>
    ensures { told result ≡ answer (read_checks limit words.now plan.now) }
{
    check_sheet(words)?;
    check_list(words, plan, limit)
}
