// Causes 1 to 3: the length, the edition, the numbers of variables and actions.
ghost use Rattle.std.specs.Prelude.{◌≡◌};
ghost use Rattle.sheet.specs.Causes.{bad_length, bad_edition, bad_counts};

use sheet::layout::{EDITION, EDITION_AT, LENGTH_AT, PAIRS_AT, actions, number, variables};
use sheet::limits::Sheet;

pub(crate) fn bad_length(w: &[u32]) -> bool
    ensures { result ≡ bad_length w.now }
{
    if w.len() < PAIRS_AT {
        return true;
    }
    if Sheet::WORDS < w.len() {
        return true;
    }
    if number(w, LENGTH_AT) == w.len() {
        return false;
    }
    true
}

pub(crate) fn bad_edition(w: &[u32]) -> bool
    ensures { result ≡ bad_edition w.now }
{
    if number(w, EDITION_AT) == EDITION {
        return false;
    }
    true
}

pub(crate) fn bad_counts(w: &[u32]) -> bool
    ensures { result ≡ bad_counts w.now }
{
    let v = variables(w);
    if v < 1 {
        return true;
    }
    if Sheet::VARIABLES < v {
        return true;
    }
    if Sheet::ACTIONS < actions(w) {
        return true;
    }
    false
}
