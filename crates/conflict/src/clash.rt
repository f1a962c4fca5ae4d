// The effects of an action, each against those behind it that write its variable: they stand in the order of their fact
// words, so these are neighbours, and those of its own fact come first.
ghost use Rattle.std.specs.Prelude.{◌≡◌};
ghost use Rattle.sheet.specs.Decode.{fact_of};
ghost use Rattle.sheet.specs.Between.Group.{group_left};
ghost use Rattle.sheet.specs.Between.Effects.{effects_left, effect_read};
ghost use Rattle.conflict.specs.Between.Clash.{beyond, first_writes as writes_first, some_fits};
ghost use Rattle.conflict.specs.Between.Clash.{clashes as clashes_with, some_clash, beside as is_beside, some_beside, clash_in};

use crate::table::{UNSAID, denies_some};
use sheet::effects::{EachEffect, ReadEffect};
use sheet::group::{GroupFacts, facts_of};
use sheet::limits::Sheet;
use sheet::values::{assign, variable};

// The effects that are left behind the first ones of a fact, given by its word.
fn past<'a>(effects: EachEffect<'a>, fact: u32) -> EachEffect<'a>
    ensures { effects_left result ≡ beyond fact (effects_left effects.entry) }
{
    let mut rest = effects;
    let mut ahead = effects;
    while let Some(effect) = ahead.next() {
        if effect.fact != fact {
            return rest;
        }
        rest = ahead;
    }
    rest
}

// Whether the first of some effects writes a variable.
fn first_writes(mut effects: EachEffect, wanted: usize) -> bool
    ensures { result ≡ writes_first wanted (effects_left effects.entry) }
{
    match effects.next() {
        Some(effect) => variable(effect.fact) == wanted,
        None => false,
    }
}

// Whether, among the first of some effects that write a variable, one has a condition that a table does not deny.
fn find_fitting(table: &[u32], effects: EachEffect, wanted: usize) -> bool
    ensures { result ≡ some_fits table.now wanted (effects_left effects.entry) }
{
    for effect in effects {
        if variable(effect.fact) != wanted {
            return false;
        }
        if !denies_some(table, effect.condition) {
            return true;
        }
    }
    false
}

// Whether an effect clashes with one of those behind it that write its variable at another value, under a precondition.
// Where there is none, no table is made.
fn clashes(precondition: GroupFacts, effect: ReadEffect, behind: EachEffect) -> bool
    ensures { result ≡ clashes_with (group_left precondition.entry) (effect_read effect.entry)
        (effects_left behind.entry) }
{
    let written = variable(effect.fact);
    if !first_writes(behind, written) {
        return false;
    }
    let mut table = [UNSAID; Sheet::VARIABLES];
    assign(&mut table, precondition);
    if denies_some(&table, effect.condition) {
        return false;
    }
    assign(&mut table, effect.condition);
    find_fitting(&table, behind, written)
}

// Whether some effect clashes with one behind it, under a precondition.
fn find_clash(precondition: GroupFacts, effects: EachEffect) -> bool
    ensures { result ≡ some_clash (group_left precondition.entry) (effects_left effects.entry) }
{
    let mut behind = effects;
    for effect in effects {
        behind = past(behind, effect.fact);
        if clashes(precondition, effect, behind) {
            return true;
        }
    }
    false
}

// Whether two words are facts of one variable at two values.
fn beside(fact: u32, next: u32) -> bool
    ensures { result ≡ is_beside fact (fact_of next) }
{
    next != fact && variable(next) == variable(fact)
}

// Whether some effect has the variable of the one before it at another value.
fn have_neighbours(mut effects: EachEffect) -> bool
    ensures { result ≡ some_beside (effects_left effects.entry) }
{
    let Some(first) = effects.next() else {
        return false;
    };
    let mut before = first.fact;
    for effect in effects {
        if beside(before, effect.fact) {
            return true;
        }
        before = effect.fact;
    }
    false
}

// Whether some effect of action a clashes with one behind it. In most actions each variable is written at one value,
// which one pass tells.
pub(crate) fn some_clash(w: &[u32], a: u32) -> bool
    ensures { result ≡ clash_in w.now a }
{
    let facts = facts_of(w, a);
    let effects = facts.effects.each(w);
    have_neighbours(effects) && find_clash(facts.precondition.facts(w), effects)
}
