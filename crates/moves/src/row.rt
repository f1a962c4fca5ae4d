// The row of one step.
ghost use Rattle.std.specs.Prelude.{◌≡◌, ◌<◌, ◌^◌};
ghost use Rattle.std.proofs.lemmas.List.Edits.{sets};
ghost use Rattle.lent.specs.Words.{tally_words};
ghost use Rattle.moves.specs.Between.Tallied.{row_words};

use crate::tallies::Tallies;
use access::put;
use tally::Tally;

// Where the flags and the tallies of a row stand, behind the cost.
const KEPT_AT: usize = 1;

const MARKED_AT: usize = 2;

const LODGED_AT: usize = 3;

const LEFT_AT: usize = 5;

const STRUCK_AT: usize = 7;

// Writes the cost and the steps of a tally, the cost at index `at`.
fn put_tally(rows: &mut [u32], at: usize, tally: Tally)
    requires { at < 2 ^ 32 }
    ensures { rows.new ≡ sets rows.old at (tally_words tally) }
{
    put(rows, at, tally.cost);
    put(rows, at + 1, tally.steps);
}

// Writes a row from index `at` on.
pub(crate) fn put_row(
    rows: &mut [u32],
    at: usize,
    cost: u32,
    is_kept: bool,
    is_marked: bool,
    so_far: Tallies,
)
    requires { at < 2 ^ 16 }
    ensures { rows.new ≡ sets rows.old at (row_words cost is_kept is_marked so_far) }
{
    let lodged = so_far.lodged;
    let left = so_far.left;
    let struck = so_far.struck;
    put(rows, at, cost);
    put(rows, at + KEPT_AT, u32::from(is_kept));
    put(rows, at + MARKED_AT, u32::from(is_marked));
    put_tally(rows, at + LODGED_AT, lodged);
    put_tally(rows, at + LEFT_AT, left);
    put_tally(rows, at + STRUCK_AT, struck);
}
