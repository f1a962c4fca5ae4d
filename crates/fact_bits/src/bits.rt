// Two words for each unflagged step of a plan. In one, bit k is one when fact k of those that the step may write is
// wanted behind the step; in the other, when no later step and not the goal needs it. A fact past the last bit has
// none, and is taken as not wanted, which bars less, and as needed, so that its step counts as of use.
ghost use Rattle.std.specs.Prelude.{◌≡◌};
ghost use Rattle.fact_bits.specs.Between.Bits.{packed, ToldBehind};

use access::get_or;
use fact_table::{FACTS, has, pass_back, stamp};
use plan::limits::Plan;
use sheet::group::{Facts, facts_of, goal};

// The bits of the facts that a table has, the first the lowest. A fact past the last bit has none.
fn pack<F: Facts>(table: &[bool], facts: F) -> u64
    ensures { result ≡ packed table.now (F.facts_left facts) }
{
    let mut bits = 0u64;
    let mut bit = 1u64;
    for fact in facts {
        if has(table, fact) {
            bits |= bit;
        }
        bit <<= 1;
    }
    bits
}

// The bits of the facts that an unflagged step may write: which are wanted behind the step, and which neither a later
// step nor the goal needs.
#[derive(Clone, Copy)]
pub struct Behind {
    pub wanted: u64,
    pub useless: u64,
}

impl Behind {
    // Of a step that nothing is told of.
    pub const NONE: Behind = Behind {
        wanted: 0,
        useless: 0,
    };
}

// The bits of a plan's steps, of which `flags` has those that are kept in any case, by one walk from the last step. Of
// a flagged one nothing is asked.
pub fn bits_behind(words: &[u32], plan: &[u32], flags: &[bool]) -> [Behind; Plan::STEPS]
    ensures { ToldBehind words.now plan.now flags.now result }
{
    let mut wanting = [false; FACTS];
    stamp(&mut wanting, goal(words).facts(words), true);
    let mut unneeded = [true; FACTS];
    stamp(&mut unneeded, goal(words).facts(words), false);
    let mut behind = [Behind::NONE; Plan::STEPS];
    for i in (0..plan.len()).rev() {
        let facts = facts_of(words, plan[i]);
        let flagged = get_or(flags, i, false);
        if !flagged && i < Plan::STEPS {
            behind[i] = Behind {
                wanted: pack(&wanting, facts.effects.facts(words)),
                useless: pack(&unneeded, facts.effects.facts(words)),
            };
        }
        pass_back(words, &mut wanting, facts, flagged);
        stamp(&mut unneeded, facts.precondition.facts(words), false);
    }
    behind
}
