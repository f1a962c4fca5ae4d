// The landmarks of a plan, one flag to a step, found in passes along its positions until one changes nothing.
ghost use Rattle.std.specs.Prelude.{◌≡◌, true, ◌≤◌, length};
ghost use Rattle.reduction.specs.Reduction.{keeps};
ghost use Rattle.plan.specs.Limits.{most_steps};
ghost use Rattle.plan.specs.Readable.{Readable};
ghost use Rattle.reduced.specs.Between.Held.{flags_of};
ghost use Rattle.landmark.specs.Marks.{marks};
ghost use Rattle.landmark.specs.Between.Passes.{framed_list, pass, ends_up, steps_held};

use crate::rows::{POSITIONS, ROWS, note};
use crate::walks::{close, walk};
use plan::limits::Plan;
use sheet::group::goal;
use trace::traces::{TRACES, start};

// The flags of a plan's positions after one pass more. A landmark found in a pass has what it needs supported in the
// same pass, so that a chain of needs takes one, whatever its length. What stands in the rows before is not read.
fn pass_along(
    words: &[u32],
    plan: &[u32],
    flags: &[bool; POSITIONS],
    rows: &mut [u8; ROWS],
) -> [bool; POSITIONS]
    requires { length plan.now ≤ most_steps }
    ensures { Readable words.now plan.now → keeps flags.now 0
        → result ≡ pass (framed_list words.now plan.now) flags.now }
{
    let mut traces = [0u8; TRACES];
    let mut latest = start(words);
    walk(words, plan, flags, &mut traces, &mut latest, rows);
    note(&traces, rows, plan.len() + 1, goal(words).facts(words));
    let mut next = *flags;
    close(words, plan, rows, &mut next);
    next
}

// The flags of the positions of a plan of n steps with start and end alone marked.
fn ends(n: usize) -> [bool; POSITIONS]
    requires { n ≤ most_steps }
    ensures { result ≡ ends_up n }
{
    let mut flags = [false; POSITIONS];
    flags[0] = true;
    flags[n + 1] = true;
    flags
}

// The flags of the n steps of a plan among those of its positions.
fn of_steps(flags: &[bool; POSITIONS], n: usize) -> [bool; Plan::STEPS]
    requires { n ≤ most_steps }
    ensures { result ≡ steps_held n flags.now }
{
    let mut steps = [false; Plan::STEPS];
    steps[..n].copy_from_slice(&flags[1..n + 1]);
    steps
}

// The landmarks of a plan that can be read. Each pass finds at least what one round of the rule does, so that as many
// as there are steps are enough; the first that changes nothing is the last.
pub(crate) fn landmarks(words: &[u32], plan: &[u32]) -> [bool; Plan::STEPS]
    ensures { Readable words.now plan.now
        → result ≡ flags_of plan.now (marks words.now plan.now) }
{
    let n = plan.len();
    if Plan::STEPS < n {
        return [false; Plan::STEPS];
    }
    let mut rows = [0u8; ROWS];
    let mut flags = ends(n);
    for _ in 0..n {
        let next = pass_along(words, plan, &flags, &mut rows);
        if next == flags {
            return of_steps(&flags, n);
        }
        flags = next;
    }
    of_steps(&flags, n)
}
