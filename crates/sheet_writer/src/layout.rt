// The words that say where the parts of a sheet stand, and what an action's part begins with.
ghost use Rattle.std.specs.Prelude.{◌≡◌, [], ◌∷◌, ◌+◌, ◌-◌, ◌*◌, ◌≤◌, ◌<◌, ◌^◌};
ghost use Rattle.std.proofs.lemmas.List.Edits.{sets};
ghost use Rattle.sheet.specs.Layout.{header};
ghost use Rattle.sheet_writer.specs.Between.Laid.{past};

use access::put_from;
use sheet::layout::{EDITION_AT, PAIR, PAIRS_AT};

// Writes the words before the pairs: the edition, and how many variables, actions and words there are.
pub fn write_header(sheet: &mut [u32], edition: u32, variables: usize, actions: usize, words: usize)
    requires { (variables ≤ past) × (actions ≤ past) × (words ≤ past) }
    ensures { sheet.new
        ≡ sets sheet.old 0 (edition ∷ variables ∷ actions ∷ words ∷ []) }
{
    put_from(
        sheet,
        EDITION_AT,
        &[edition, variables as u32, actions as u32, words as u32],
    );
}

// Writes the pair of part k, which stands from word `at` up to, not including, word `end`.
pub fn write_pair(sheet: &mut [u32], k: usize, at: usize, end: usize)
    requires { (k ≤ past) × (at ≤ end) × (end ≤ past) }
    ensures { sheet.new ≡ sets sheet.old (header + 2 * k) (at ∷ (end - at) ∷ []) }
{
    put_from(sheet, PAIRS_AT + PAIR * k, &[at as u32, (end - at) as u32]);
}

// Writes what the part of an action begins with, from word `at` on: its cost, and how many facts its precondition has.
pub fn write_action_header(sheet: &mut [u32], at: usize, cost: u32, needed: usize)
    requires { (at ≤ past) × (needed < 2 ^ 32) }
    ensures { sheet.new ≡ sets sheet.old at (cost ∷ needed ∷ []) }
{
    put_from(sheet, at, &[cost, needed as u32]);
}
