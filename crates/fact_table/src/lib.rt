// Tables with a flag for each fact, at the index that is the fact's word: the search's cuts are told by them. An entry
// takes a byte, since to fill tables of words costs more than the walks along a plan of small actions.
#![tactic(auto)]

ghost use Rattle.std.specs.Prelude.{◌≡◌};
ghost use Rattle.sheet.specs.Between.Effects.{written_in};
ghost use Rattle.sheet.specs.Between.Group.{facts_in};
ghost use Rattle.fact_table.specs.Between.Tables.{stamped, has_fact, passed_back};

use access::{get_or, put};
use sheet::group::{ActionFacts, Facts};
use sheet::limits::Sheet;

// The size of a table: an accepted task has no fact past it.
pub const FACTS: usize = Sheet::VARIABLES * Sheet::VALUES;

// Writes x at each of some facts.
pub fn stamp<F: Facts>(table: &mut [bool], facts: F, x: bool)
    ensures { table.new ≡ stamped table.old (F.facts_left facts) x }
{
    for fact in facts {
        put(table, fact as usize, x);
    }
}

// Whether the table has a fact.
pub fn has(table: &[bool], fact: u32) -> bool
    ensures { result ≡ has_fact table.now fact }
{
    get_or(table, fact as usize, false)
}

// Makes a table of the facts that are wanted behind a step one of those that are wanted before it: what the step may
// write is wanted no more, and what it needs is wanted, where it is flagged.
pub fn pass_back(words: &[u32], table: &mut [bool], facts: ActionFacts, flagged: bool)
    ensures { table.new ≡ passed_back table.old
        (facts_in words.now facts.precondition)
        (written_in words.now facts.effects) flagged }
{
    stamp(table, facts.effects.facts(words), false);
    if flagged {
        stamp(table, facts.precondition.facts(words), true);
    }
}
