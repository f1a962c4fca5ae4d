// The two walks of a pass along the positions of a plan: from the first to the last for the supports of what each
// needs, and back to raise the supports of each marked one.
ghost use Rattle.std.specs.Prelude.{◌≡◌, suc, ◌≤◌, length};
ghost use Rattle.sheet.specs.Between.Group.{facts_in};
ghost use Rattle.sas.specs.Plan.{needed};
ghost use Rattle.reduction.specs.Landmark.{step};
ghost use Rattle.plan.specs.Limits.{most_steps};
ghost use Rattle.plan.specs.Valid.{steps};
ghost use Rattle.landmark.specs.Between.Passes.{framed_list, walk_tables, walked, closed};

use crate::rows::{note, raise_marked};
use access::get_or;
use sheet::group::{Group, facts_of, goal};
use trace::traces::write_effects;

// What the position behind index i of a plan needs: a step's facts, or the goal's behind the last step.
fn needs_at(words: &[u32], plan: &[u32], i: usize) -> Group
    requires { i ≤ length plan.now }
    ensures { facts_in words.now result
        ≡ needed (step (framed_list words.now plan.now) (suc i)) }
{
    if i < plan.len() {
        return facts_of(words, plan[i]).precondition;
    }
    goal(words)
}

// Walks along the steps of a plan, of which `flags` has the marked positions, and notes what supports each need.
pub(crate) fn walk(
    words: &[u32],
    plan: &[u32],
    flags: &[bool],
    traces: &mut [u8],
    latest: &mut [u32],
    rows: &mut [u8],
)
    requires { length plan.now ≤ most_steps }
    ensures { walk_tables traces.new latest.new rows.new
        ≡ walked flags.now 1 (steps words.now plan.now)
        (walk_tables traces.old latest.old rows.old) }
{
    for (i, a) in plan.iter().enumerate() {
        let facts = facts_of(words, *a);
        note(traces, rows, i + 1, facts.precondition.facts(words));
        let marked = get_or(flags, i + 1, false);
        write_effects(words, traces, latest, (i + 1) as u8, marked, facts.effects);
    }
}

// Walks back from the end step of a plan, and raises the supports of what each marked position needs.
pub(crate) fn close(words: &[u32], plan: &[u32], rows: &[u8], flags: &mut [bool])
    requires { length plan.now ≤ most_steps }
    ensures { flags.new
        ≡ closed rows.now (framed_list words.now plan.now)
        (suc (suc (length plan.now))) flags.old }
{
    for i in (0..plan.len() + 1).rev() {
        raise_marked(rows, flags, i + 1, needs_at(words, plan, i).facts(words));
    }
}
