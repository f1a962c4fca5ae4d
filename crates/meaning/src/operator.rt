// An operator among the numbers of a text.
ghost use Rattle.std.specs.Prelude.{◌≡◌, ◌+◌, ◌<◌, ◌≤◌, ◌^◌};
ghost use Rattle.meaning.specs.Between.Sections.{effects_at, cost_at, operator_end, prevail, old_values, new_values};
ghost use Rattle.meaning.specs.Between.Sections.{action_at};
ghost use Rattle.meaning.specs.Between.Gathered.{far, effect_values, line_facts};

use crate::lines::{EFFECT, FACT, Lines};
use crate::numbers::{METRIC_AT, Numbers};

// How far behind its variable an effect's old value stands, and its new one.
const OLD: usize = 1;

const NEW: usize = 2;

// The operator whose numbers begin at index `at`. It is still far from overflow, since a text may state any counts.
#[derive(Clone, Copy)]
pub struct Operator<'a> {
    pub numbers: &'a Numbers<'a>,
    pub at: usize,
    ghost near: { at ≤ far },
}

impl<'a> Operator<'a> {
    // Where the number of its effects stands, and its cost.
    fn effects_at(&self) -> usize
        ensures { (result ≡ effects_at self.now.numbers.now self.now.at) × (result < self.now.at + 2 ^ 34) }
    {
        self.at + 1 + FACT * self.numbers.number(self.at)
    }

    fn cost_at(&self) -> usize
        ensures { (result ≡ cost_at self.now.numbers.now self.now.at) × (result < self.now.at + 2 ^ 35) }
    {
        let effects = self.effects_at();
        effects + 1 + EFFECT * self.numbers.number(effects)
    }

    // What it costs: with metric 0 every operator costs 1.
    pub fn cost(&self) -> u32
        ensures { result ≡ (action_at self.now.numbers.now self.now.at).cost }
    {
        if self.numbers.word(METRIC_AT) == 0 {
            return 1;
        }
        self.numbers.word(self.cost_at())
    }

    // Where its numbers end.
    pub fn end(&self) -> usize
        ensures { (result ≡ operator_end self.now.numbers.now self.now.at) × (result ≤ self.now.at + 2 ^ 35) }
    {
        self.cost_at() + 1
    }

    // The lines of its prevail conditions, of the old values of its effects, and of their new values.
    pub fn prevail(&self) -> Lines
        ensures { line_facts self.now.numbers.now result
            ≡ prevail self.now.numbers.now self.now.at }
    {
        self.numbers.facts(self.at)
    }

    // The lines of its effects, each with the value `on` numbers behind its variable.
    fn effects(&self, on: usize) -> Lines
        requires { on ≤ 2 }
        ensures { line_facts self.now.numbers.now result
            ≡ effect_values self.now.numbers.now self.now.at on }
    {
        let effects = self.effects_at();
        Lines {
            from: effects + 2,
            wide: EFFECT,
            on,
            count: self.numbers.number(effects),
        }
    }

    pub fn old_values(&self) -> Lines
        ensures { line_facts self.now.numbers.now result
            ≡ old_values self.now.numbers.now self.now.at }
    {
        self.effects(OLD)
    }

    pub fn new_values(&self) -> Lines
        ensures { line_facts self.now.numbers.now result
            ≡ new_values self.now.numbers.now self.now.at }
    {
        self.effects(NEW)
    }
}
