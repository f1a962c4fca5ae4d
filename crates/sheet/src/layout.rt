// Where the parts of a task stand among its words. Each function is safe for any words: what a word lacks reads as 0.
ghost use Rattle.std.specs.Prelude.{◌≡◌, ◌<◌, ◌≤◌, ◌^◌};
ghost use Rattle.sheet.specs.Layout.{word as word_at, variables as variables_of, actions as actions_of};
ghost use Rattle.sheet.specs.Layout.{offset as offset_of, size as type_size, cost_word};
ghost use Rattle.sheet.specs.Layout.{has_conditions, effect_fact};

use access::get_or;

// The words of the header, and the pair where the actions begin.
pub const EDITION_AT: usize = 0;

pub const VARIABLES_AT: usize = 1;

pub const ACTIONS_AT: usize = 2;

pub const LENGTH_AT: usize = 3;

pub const PAIRS_AT: usize = 4;

pub const PAIR: usize = 2;

pub const DOMAINS: usize = 0;

pub const INITIAL: usize = 1;

pub const GOAL: usize = 2;

pub const FIRST_ACTION: usize = 3;

// An action's part begins with its cost and its number of precondition facts.
pub const ACTION_HEADER: usize = 2;

// The edition of document 01, and that of document 02 whose effects have conditions.
pub const EDITION: usize = 1;

pub const SECOND_EDITION: usize = 2;

// A word as a number.
pub fn number(w: &[u32], i: usize) -> usize
    ensures { (result ≡ word_at w.now i) × (result < 2 ^ 32) }
{
    get_or(w, i, 0) as usize
}

// Whether the edition is one whose effects have conditions.
pub fn has_conditions(w: &[u32]) -> bool
    ensures { result ≡ has_conditions w.now }
{
    number(w, EDITION_AT) == SECOND_EDITION
}

// Where the fact of an effect that has a condition stands, for the effect at word `at` of a part that ends at word
// `end`: behind its number of condition facts and these, and never past the end.
pub fn effect_fact(w: &[u32], end: usize, at: usize) -> usize
    ensures { result ≡ effect_fact w.now end at }
{
    if at < end {
        let behind = number(w, at) + 1;
        if behind < end - at {
            return at + behind;
        }
    }
    end
}

// The number of variables, 01's V.
pub fn variables(w: &[u32]) -> usize
    ensures { (result ≡ variables_of w.now) × (result < 2 ^ 32) }
{
    number(w, VARIABLES_AT)
}

// The number of actions, 01's A.
pub fn actions(w: &[u32]) -> usize
    ensures { (result ≡ actions_of w.now) × (result < 2 ^ 32) }
{
    number(w, ACTIONS_AT)
}

// The offset in pair k.
pub fn offset(w: &[u32], k: usize) -> usize
    requires { k ≤ 2 ^ 33 }
    ensures { (result ≡ offset_of w.now k) × (result < 2 ^ 32) }
{
    number(w, PAIRS_AT + PAIR * k)
}

// The length in pair k.
pub fn size(w: &[u32], k: usize) -> usize
    requires { k ≤ 2 ^ 33 }
    ensures { (result ≡ type_size w.now k) × (result < 2 ^ 32) }
{
    number(w, PAIRS_AT + PAIR * k + 1)
}

// Where the starting values begin.
pub fn start_at(w: &[u32]) -> usize
    ensures { (result ≡ offset_of w.now 1) × (result < 2 ^ 32) }
{
    offset(w, INITIAL)
}

// The cost of action a.
pub fn cost(w: &[u32], a: u32) -> u32
    ensures { (result ≡ cost_word w.now a) × (result < 2 ^ 32) }
{
    get_or(w, offset(w, FIRST_ACTION + a as usize), 0)
}
