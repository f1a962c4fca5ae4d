// What facts say of the variables: a table with a value for each, and a mark where nothing is said. It is a state as
// any other, in which `assign` notes facts, so that an Option for each value would need a second one.
ghost use Rattle.std.specs.Prelude.{◌≡◌};
ghost use Rattle.sas.specs.Conflict.{some_of};
ghost use Rattle.sheet.specs.Decode.{fact_of};
ghost use Rattle.sheet.specs.Between.Group.{group_left};
ghost use Rattle.conflict.specs.Between.Table.{denies as denies_fact};

use access::get_or;
use sheet::group::GroupFacts;
use sheet::limits::Sheet;
use sheet::values::{value, variable};

// What stands where nothing is said: no value is as large.
pub(crate) const UNSAID: u32 = Sheet::VALUES as u32;

// Whether a table has another value for the variable of the fact that a word is.
fn denies(table: &[u32], fact: u32) -> bool
    ensures { result ≡ denies_fact table.now (fact_of fact) }
{
    let said = get_or(table, variable(fact), 0);
    said != UNSAID && said != value(fact)
}

// Whether it does so for some of these facts.
pub(crate) fn denies_some(table: &[u32], mut facts: GroupFacts) -> bool
    ensures { result ≡ some_of (denies_fact table.now) (group_left facts.entry) }
{
    facts.any(|fact| denies(table, fact))
}
