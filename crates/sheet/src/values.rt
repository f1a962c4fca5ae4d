// The variables of facts and their values, and what facts write among values that stand at their variables' indices.
ghost use Rattle.std.specs.Prelude.{◌≡◌, ◌<◌, ◌^◌, set};
ghost use Rattle.sas.specs.Plan.{assign as assigned};
ghost use Rattle.sheet.specs.Limits.{limits};
ghost use Rattle.sheet.specs.Decode.{fact_of};

use crate::group::Facts;
use crate::limits::Sheet;
use access::put;

// The variable of a fact.
pub fn variable(fact: u32) -> usize
    ensures { (result ≡ (fact_of fact).variable) × (result < 2 ^ 24) }
{
    fact as usize / Sheet::VALUES
}

// Its value.
pub fn value(fact: u32) -> u32
    ensures { (result ≡ (fact_of fact).value) × (result < limits.values) }
{
    fact % Sheet::VALUES as u32
}

// Writes a fact.
pub fn put_fact(values: &mut [u32], fact: u32)
    ensures { values.new
        ≡ set values.old (fact_of fact).variable (fact_of fact).value }
{
    put(values, variable(fact), value(fact));
}

// Writes some facts, from the first on.
pub fn assign<F: Facts>(values: &mut [u32], facts: F)
    ensures { values.new ≡ assigned values.old (F.facts_left facts) }
{
    for fact in facts {
        put_fact(values, fact);
    }
}
