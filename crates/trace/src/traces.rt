// What a walk along a plan knows of each fact that a step wrote, and of the marked steps that wrote each variable.
ghost use Rattle.std.specs.Prelude.{◌≡◌};
ghost use Rattle.sheet.specs.Limits.{limits};
ghost use Rattle.sheet.specs.Decode.{initial as initial_of};
ghost use Rattle.sheet.specs.Between.Effects.{written_in, always_in};
ghost use Rattle.step.specs.State.{in_array};
ghost use Rattle.trace.specs.Between.Traces.{until_at, supporting, trace_wrote, traces_wrote};
ghost use Rattle.trace.specs.Between.Traces.{latest_wrote, latest_each, tables, wrote_each, started};

use access::{get_or, put};
use fact_table::FACTS;
use sheet::effects::Effects;
use sheet::limits::Sheet;
use sheet::values::variable;
use step::state::initial;

// The bytes of a fact: the position of its last writer, and its support, which is that writer where a marked step wrote
// another value since the writer before; 0 for none. A position fits a byte, since a plan has at most 255 steps. None
// is no Option here and below: 0 is the start step, which is marked in any case, and Options would double the tables.
pub const TRACE: usize = 2;
// Where the support stands.
pub const SUPPORT: usize = 1;
// The bytes of all facts.
pub const TRACES: usize = TRACE * FACTS;
// The words of a variable: the fact that its last marked writer wrote, one more than that writer's position, and one
// more than that of the last marked step which wrote another value than that; 0 for none.
const VARIABLE: usize = 3;
// Where the last marked writer's place stands.
const AT: usize = 1;
// Where that of the last one with another value stands.
const OTHER: usize = 2;
// The words of all variables.
pub const LATEST: usize = VARIABLE * Sheet::VARIABLES;

// One more than the position of the last marked step that wrote another value to a fact's variable; 0 for none.
fn until(latest: &[u32], fact: u32) -> u32
    ensures { result ≡ until_at latest.now fact }
{
    let v = VARIABLE * variable(fact);
    if get_or(latest, v, 0) == fact {
        get_or(latest, v + OTHER, 0)
    } else {
        get_or(latest, v + AT, 0)
    }
}

// The support of a fact that the step at this position writes.
fn support(last: u8, until: u32, at: u8) -> u8
    ensures { result ≡ supporting last until at }
{
    if (last as u32) < until { at } else { 0 }
}

// The step at this position writes a fact: its support, told by what earlier steps wrote, and the step as its last
// writer. A fact that the step has written already stays as it is.
fn note_fact(traces: &mut [u8], latest: &[u32], at: u8, fact: u32)
    ensures { traces.new ≡ trace_wrote at latest.now fact traces.old }
{
    let here = TRACE * fact as usize;
    let last = get_or(traces, here, 0);
    if last == at {
        return;
    }
    let seen = until(latest, fact);
    put(traces, here + SUPPORT, support(last, seen, at));
    put(traces, here, at);
}

// The same of all facts that its effects may write.
fn note_effects(words: &[u32], traces: &mut [u8], latest: &[u32], at: u8, effects: Effects)
    ensures { traces.new ≡ traces_wrote at latest.now
        (written_in words.now effects) traces.old }
{
    for fact in effects.facts(words) {
        note_fact(traces, latest, at, fact);
    }
}

// The marked step at this position writes a fact, as the last one that wrote its variable.
fn mark_fact(latest: &mut [u32], at: u8, fact: u32)
    ensures { latest.new ≡ latest_wrote at fact latest.old }
{
    let seen = until(latest, fact);
    let v = VARIABLE * variable(fact);
    put(latest, v, fact);
    put(latest, v + AT, at as u32 + 1);
    put(latest, v + OTHER, seen);
}

// The same of the facts of those effects that have no condition: another value counts only where it is always written.
fn mark_effects(words: &[u32], latest: &mut [u32], at: u8, effects: Effects)
    ensures { latest.new ≡ latest_each at
        (always_in words.now effects) latest.old }
{
    for effect in effects.each(words) {
        if effect.condition.is_empty() {
            mark_fact(latest, at, effect.fact);
        }
    }
}

// The step at this position writes what its effects may write. All supports are told before any write of the step
// counts as one of a marked step, so that it is never its own earlier writer.
pub fn write_effects(
    words: &[u32],
    traces: &mut [u8],
    latest: &mut [u32],
    at: u8,
    marked: bool,
    effects: Effects,
)
    ensures { tables traces.new latest.new
        ≡ wrote_each at marked (written_in words.now effects) (always_in words.now effects)
        (tables traces.old latest.old) }
{
    note_effects(words, traces, latest, at, effects);
    if marked {
        mark_effects(words, latest, at, effects);
    }
}

// The words of all variables behind the start step, which is marked and writes the starting values at position 0.
pub fn start(words: &[u32]) -> [u32; LATEST]
    ensures { result ≡ started (in_array (initial_of words.now)) limits.variables }
{
    let values = initial(words);
    let mut latest = [0u32; LATEST];
    for (v, value) in values.iter().enumerate() {
        latest[VARIABLE * v] = (v * Sheet::VALUES) as u32 + *value % Sheet::VALUES as u32;
        latest[VARIABLE * v + AT] = 1;
    }
    latest
}
