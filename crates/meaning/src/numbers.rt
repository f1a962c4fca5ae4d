// The numbers of a text, and where they stand: one past the last reads as 0.
ghost use Rattle.std.specs.Prelude.{◌≡◌, ◌+◌, ◌<◌, ◌≤◌, ◌^◌, cond};
ghost use Rattle.sheet.specs.Limits.{limits};
ghost use Rattle.meaning.specs.Between.Sections.{number_at, fact_wide, facts_at, variables as variables_of};
ghost use Rattle.meaning.specs.Between.Sections.{range_of, ranges, state, goal_at, goal, operators_at};
ghost use Rattle.meaning.specs.Between.Writable.{variables_fit};
ghost use Rattle.meaning.specs.Between.Small.{says_variables};
ghost use Rattle.meaning.specs.Between.Gathered.{far, line_facts};

use crate::lines::{FACT, Lines};
use access::get_or;
use sheet::limits::Sheet;
use std::marker::Model;

// How far behind its variable a fact's value stands.
const VALUE: usize = 1;

// Where the metric stands, the number of variables, and the range of the first.
pub(crate) const METRIC_AT: usize = 0;

const VARIABLES_AT: usize = 1;

pub const RANGES_AT: usize = 2;

// Numbers whose variables have bits and slots, and whose values fit a fact's word. A text may state any counts, so that
// an index may lie past the last number.
#[derive(Drop)]
pub struct Numbers<'a> {
    all: &'a [u32],
}

// To a contract they are the list of them.
impl<'a> Model for Numbers<'a> {
    ghost use Rattle.std.specs.Prelude.{List, ℕ};
    ghost use Rattle.meaning.specs.Between.Small.{Small};

    ghost Value = { List ℕ };

    ghost view = { λ x. x.all.now };

    ghost invariant = { λ x. Small x.all.now };
}

// The number at index i.
fn number(all: &[u32], i: usize) -> usize
    ensures { (result ≡ number_at all.now i) × (result < 2 ^ 32) }
{
    get_or(all, i, 0) as usize
}

// Whether a sheet can say each range and starting value.
fn variables_fit(all: &[u32]) -> bool
    ensures { result ≡ variables_fit (ranges all.now) (state all.now) }
{
    let v = number(all, VARIABLES_AT);
    (0..v).all(|k| {
        let range = number(all, RANGES_AT + k);
        range <= Sheet::VALUES && number(all, RANGES_AT + v + k) < range
    })
}

impl<'a> Numbers<'a> {
    // The numbers, if there are no more variables than a sheet may have, and it can say each.
    pub fn new(all: &'a [u32]) -> Option<Numbers<'a>>
        ensures { result ≡ cond (says_variables all.now) (Some all.now) None }
    {
        if Sheet::VARIABLES < number(all, VARIABLES_AT) {
            return None;
        }
        if !variables_fit(all) {
            return None;
        }
        Some(Numbers { all })
    }

    pub fn all(&self) -> &[u32]
        ensures { result.now ≡ self.now }
    {
        self.all
    }

    // The number at index i, as a word and as a number.
    pub fn word(&self, i: usize) -> u32
        ensures { result ≡ number_at self.now i }
    {
        get_or(self.all, i, 0)
    }

    pub fn number(&self, i: usize) -> usize
        ensures { (result ≡ number_at self.now i) × (result < 2 ^ 32) }
    {
        number(self.all, i)
    }

    // How many variables there are, and how many values variable v has.
    pub fn variables(&self) -> usize
        ensures { (result ≡ variables_of self.now) × (result ≤ limits.variables) }
    {
        number(self.all, VARIABLES_AT)
    }

    pub fn range(&self, v: usize) -> usize
        requires { v < variables_of self.now }
        ensures { (result ≡ range_of self.now v) × (result ≤ limits.values) }
    {
        number(self.all, RANGES_AT + v)
    }

    // Where the number of goal facts stands, and that of operators.
    fn goal_at(&self) -> usize
        ensures { (result ≡ goal_at self.now) × (result < 2 ^ 34) }
    {
        RANGES_AT + 2 * self.variables()
    }

    fn operators_at(&self) -> usize
        ensures { (result ≡ operators_at self.now) × (result < 2 ^ 35) }
    {
        let goal = self.goal_at();
        goal + 1 + FACT * self.number(goal)
    }

    // The lines of facts whose number stands at index i.
    pub(crate) fn facts(&self, i: usize) -> Lines
        requires { i ≤ far }
        ensures { line_facts self.now result ≡ facts_at self.now fact_wide 1 (i + 1) (number_at self.now i) }
    {
        Lines {
            from: i + 1,
            wide: FACT,
            on: VALUE,
            count: self.number(i),
        }
    }

    // The lines of the goal.
    pub fn goal(&self) -> Lines
        ensures { line_facts self.now result ≡ goal self.now }
    {
        self.facts(self.goal_at())
    }

    // How many operators there are, and where the numbers of the first begin.
    pub fn operators(&self) -> usize
        ensures { (result ≡ number_at self.now (operators_at self.now)) × (result < 2 ^ 32) }
    {
        self.number(self.operators_at())
    }

    pub fn first_operator(&self) -> usize
        ensures { (result ≡ operators_at self.now + 1) × (result ≤ 2 ^ 35) }
    {
        self.operators_at() + 1
    }
}
