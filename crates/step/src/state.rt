// A state: a value for each variable of a task, at the front of an array that has room for any task's. What is past
// them no step reads or writes, so a walk is lent the front alone.
ghost use Rattle.std.specs.Prelude.{◌≡◌, ◌≤◌};
ghost use Rattle.sheet.specs.Limits.{limits};
ghost use Rattle.sheet.specs.Decode.{initial as initial_of};
ghost use Rattle.step.specs.State.{state_size, in_array};

use access::{get_or, put};
use sheet::layout::{start_at, variables};
use sheet::limits::Sheet;

// A state (document 01: site state). It may hold any values; those past the task's variables stay as they are.
#[derive(Clone, Copy)]
pub struct State {
    pub values: [u32; Sheet::VARIABLES],
}

// How many values of an array are the state: one for each variable, as far as the array goes.
pub fn size(words: &[u32]) -> usize
    ensures { (result ≡ state_size words.now) × (result ≤ limits.variables) }
{
    variables(words).min(Sheet::VARIABLES)
}

// The starting values, zero past them.
pub fn initial(words: &[u32]) -> [u32; Sheet::VARIABLES]
    ensures { result ≡ in_array (initial_of words.now) }
{
    let from = start_at(words);
    let mut values = [0u32; Sheet::VARIABLES];
    for v in 0..variables(words) {
        put(&mut values, v, get_or(words, from + v, 0));
    }
    values
}
