// The check of a task (document 01: job sheet), refusals 1 to 7 and 16.
ghost use Rattle.std.specs.Prelude.{◌≡◌, false, drop};
ghost use Rattle.refusal.specs.Refusal.{told};
ghost use Rattle.refusal.specs.Check.{answer};
ghost use Rattle.sheet.specs.Causes.{bad_counts, sheet_checks};

use crate::costs::bad_cost_place;
use crate::facts::bad_fact_place;
use crate::header::{bad_counts, bad_edition, bad_length};
use crate::pairs::bad_pair_place;
use crate::variables::bad_variable_place;
use conflict::find::conflict_place;
use refusal::Refusal;

// The checks of the parts, 4 to 7 and 16, which follow those of the header: the last needs as few variables as a table
// has room for.
fn check_parts(w: &[u32]) -> Result<(), Refusal>
    requires { bad_counts w.now ≡ false }
    ensures { told result ≡ answer (drop 3 (sheet_checks w.now)) }
{
    let pair = bad_pair_place(w);
    if let Some(k) = pair {
        return Err(Refusal::Pair(k));
    }
    let variable = bad_variable_place(w);
    if let Some(v) = variable {
        return Err(Refusal::Variable(v));
    }
    let fact = bad_fact_place(w);
    if let Some(i) = fact {
        return Err(Refusal::Fact(i));
    }
    let cost = bad_cost_place(w);
    if let Some(a) = cost {
        return Err(Refusal::Cost(a));
    }
    let conflict = conflict_place(w);
    if let Some(a) = conflict {
        return Err(Refusal::Conflict(a));
    }
    Ok(())
}

// Accepts a task or gives the first cause of refusal.
pub fn check_sheet(w: &[u32]) -> Result<(), Refusal>
    ensures { told result ≡ answer (sheet_checks w.now) }
{
    if bad_length(w) {
        return Err(Refusal::Length);
    }
    if bad_edition(w) {
        return Err(Refusal::Edition);
    }
    if bad_counts(w) {
        return Err(Refusal::Counts);
    }
    check_parts(w)
}
