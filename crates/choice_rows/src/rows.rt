// The choices at the unflagged steps of a plan: of each its cost, what must hold of a state where it is struck, what it
// needs where it is kept, what of use it may write, and what is written behind it, where it is struck and where it is
// kept, by the step and the flagged steps up to the next unflagged one.
ghost use Rattle.std.specs.Prelude.{◌≡◌, ◌≤◌, ◌<◌, true, false, length, ltb};
ghost use Rattle.sheet.specs.Decode.{fact_of};
ghost use Rattle.sheet.specs.Between.Effects.{written_in};
ghost use Rattle.packed_state.specs.Between.Chosen.{most_choices, open_before};
ghost use Rattle.choice_rows.specs.Between.Rows.{laid, stamped_row, no_choice, choice_of, passed};
ghost use Rattle.choice_rows.specs.Between.Rows.{no_choices, with_choice, with_passed, ChoicesTold};

use access::get_or;
use fact_bits::bits::Behind;
use packed_state::packed::{MOST, Row, STATE};
use sheet::effects::Effects;
use sheet::group::{Facts, facts_of};
use sheet::layout::cost;
use sheet::limits::Sheet;
use std::marker::Model;

// Bits that ask for every fact.
const ALL: u64 = u64::MAX;

// Puts a fact into a row, where its bit, the lowest, is one.
fn lay(row: &mut Row, bits: u64, fact: u32)
    ensures { row.new ≡ laid row.old bits (fact_of fact) }
{
    let v = fact as usize / Sheet::VALUES;
    if bits % 2 == 1 && v < STATE {
        row.asked[v] = true;
        row.values[v] = (fact as usize % Sheet::VALUES) as u8;
    }
}

// Puts the facts whose bits are one into a row; one past the last bit has none.
fn stamp<F: Facts>(row: &mut Row, bits: u64, facts: F)
    ensures { row.new ≡ stamped_row row.old bits (F.facts_left facts) }
{
    let mut left = bits;
    for fact in facts {
        lay(row, left, fact);
        left /= 2;
    }
}

// The choice at an unflagged step.
#[derive(Clone, Copy, Default, Drop)]
pub struct Choice {
    pub cost: u32,
    // What is asked for where the step is struck, and where it is kept.
    pub strike: Row,
    pub keep: Row,
    // What of use it may write.
    pub useful: Row,
    // What is written where it is struck, and where it is kept.
    pub struck: Row,
    pub kept: Row,
}

impl Choice {
    // That of no step.
    fn none() -> Choice
        ensures { result ≡ no_choice }
    {
        Choice {
            cost: 0,
            strike: Row::new(),
            keep: Row::new(),
            useful: Row::new(),
            struck: Row::new(),
            kept: Row::new(),
        }
    }

    // Makes that of no step that of action a, with nothing behind it yet.
    fn note(&mut self, words: &[u32], a: u32, behind: Behind)
        requires { self.old ≡ no_choice }
        ensures { self.new ≡ choice_of words.now a behind }
    {
        let facts = facts_of(words, a);
        self.cost = cost(words, a);
        stamp(&mut self.strike, behind.wanted, facts.effects.facts(words));
        stamp(&mut self.keep, ALL, facts.precondition.facts(words));
        stamp(
            &mut self.useful,
            ALL - behind.useless,
            facts.effects.facts(words),
        );
        stamp(&mut self.kept, ALL, facts.effects.facts(words));
    }

    // Writes behind the step what a flagged one writes.
    fn pass(&mut self, words: &[u32], effects: Effects)
        ensures { self.new ≡ passed self.old (written_in words.now effects) }
    {
        stamp(&mut self.struck, ALL, effects.facts(words));
        stamp(&mut self.kept, ALL, effects.facts(words));
    }
}

// The choices of a plan, and what the flagged steps in front of the first unflagged one write. Fixed memory, filled
// where it lies: of `all` the first `count` are choices, and the others are those of no step.
#[derive(Drop)]
pub struct Choices {
    pub start: Row,
    all: [Choice; MOST],
    count: usize,
}

// To a contract they are that row and the list of the choices.
impl Model for Choices {
    ghost use Rattle.std.specs.Prelude.{take};
    ghost use Rattle.choice_rows.specs.Between.Rows.{PlanChoices, ChoicesHeld};

    ghost Value = { PlanChoices };

    ghost view = { λ c. record { start = c.start; steps = take c.count c.all } };

    ghost invariant = { λ c. ChoicesHeld c.all c.count };
}

impl Choices {
    // Those of no step.
    pub fn new() -> Choices
        ensures { result ≡ no_choices }
    {
        Choices {
            start: Row::new(),
            all: [Choice::none(); MOST],
            count: 0,
        }
    }

    // The choices, which are no more than there is room for.
    pub fn steps(&self) -> &[Choice]
        ensures all { result.now ≡ self.now.steps }
        ensures few { length result.now ≤ most_choices }
    {
        &self.all[..self.count]
    }

    // Adds that of an unflagged step, where there is room, and says whether there is.
    fn push(&mut self, words: &[u32], a: u32, behind: Behind) -> bool
        ensures room { result ≡ ltb (length self.old.steps) most_choices }
        ensures adds { self.new ≡ with_choice self.old (choice_of words.now a behind) }
    {
        if self.count == MOST {
            return false;
        }
        self.all[self.count].note(words, a, behind);
        self.count += 1;
        true
    }

    // Writes what a flagged step writes behind the last choice, or in front of the first.
    fn pass(&mut self, words: &[u32], effects: Effects)
        ensures { self.new ≡ with_passed self.old (written_in words.now effects) }
    {
        if self.count == 0 {
            stamp(&mut self.start, ALL, effects.facts(words));
        } else {
            self.all[self.count - 1].pass(words, effects);
        }
    }
}

// Notes the choices at all unflagged steps of a plan in `choices`, where there is none yet, and says whether there is
// room for them. They are lent, since they take 20 KB of the stack, and handed back they would take it twice.
pub fn note_choices(
    words: &[u32],
    plan: &[u32],
    flags: &[bool],
    behind: &[Behind],
    choices: &mut Choices,
) -> bool
    ensures many { choices.old ≡ no_choices → result ≡ false
        → most_choices < open_before flags.now (length plan.now) }
    ensures told { choices.old ≡ no_choices → result ≡ true
        → ChoicesTold words.now plan.now flags.now behind.now choices.new }
{
    for (i, &a) in plan.iter().enumerate() {
        if get_or(flags, i, false) {
            choices.pass(words, facts_of(words, a).effects);
        } else if !choices.push(words, a, get_or(behind, i, Behind::NONE)) {
            return false;
        }
    }
    true
}
