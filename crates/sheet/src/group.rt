// The groups of facts of a sheet, the goal and each action's precondition, and where an action's effects stand. How a
// group's facts lie among the words is known here and to the sheet's own checks alone: every other function goes
// through a group fact by fact, from the first or from the last.
ghost use Rattle.std.specs.Prelude.{◌≡◌, ◌<◌, ◌^◌, ℕ, Option, []};
ghost use Rattle.std.specs.Bool.{Decides};
ghost use Rattle.std.specs.Iterator.{YieldsFirstBy, YieldsLastBy, IsFinite, item_count};
ghost use Rattle.sas.specs.Task.{Assignment};
ghost use Rattle.sheet.specs.Decode.{fact_of};
ghost use Rattle.sheet.specs.Between.Group.{goal_group, needed_group, first_fact, rest_of, last_fact, front_of};
ghost use Rattle.sheet.specs.Between.Group.{facts_in, group_left};
ghost use Rattle.sheet.specs.Between.Effects.{effects_of};

use crate::effects::Effects;
use crate::layout::{ACTION_HEADER, FIRST_ACTION, GOAL, has_conditions, number, offset, size};
use access::get_or;

// A group of facts, or what is left of one: from word `at` up to, not including, word `end`.
#[derive(Clone, Copy)]
pub struct Group {
    pub at: usize,
    pub end: usize,
}

impl Group {
    // The word of its first fact.
    pub fn first(self, w: &[u32]) -> u32
        ensures { (result ≡ first_fact w.now self) × (result < 2 ^ 32) }
    {
        get_or(w, self.at, 0)
    }

    // Its facts from the first on.
    pub fn facts<'a>(self, w: &'a [u32]) -> GroupFacts<'a>
        ensures { group_left result ≡ facts_in w.now self }
    {
        GroupFacts {
            words: w,
            rest: self,
        }
    }

    // The group without its first fact, and an empty group as it is.
    pub fn rest(self) -> Group
        ensures { result ≡ rest_of self }
    {
        if self.at < self.end {
            return Group {
                at: self.at + 1,
                end: self.end,
            };
        }
        self
    }

    // The word of its last fact, and 0 of an empty group.
    pub fn last(self, w: &[u32]) -> u32
        ensures { (result ≡ last_fact w.now self) × (result < 2 ^ 32) }
    {
        if self.at < self.end {
            return get_or(w, self.end - 1, 0);
        }
        0
    }

    // The group without its last fact, and an empty group as it is.
    pub fn front(self) -> Group
        ensures { result ≡ front_of self }
    {
        if self.at < self.end {
            return Group {
                at: self.at,
                end: self.end - 1,
            };
        }
        self
    }
}

// What gives facts, each by its word, until none is left.
pub trait Facts: Iterator<Item = u32> + Drop {
    // The facts that are left.
    ghost facts_left: { Self → Assignment };

    ghost goes_on: { (s : Self) → Self.can_next s };

    ghost ends: { (s : Self) → IsFinite (Self.remaining s) };

    ghost gives: { (s : Self) (r : Option ℕ) (t : Self) → Self.next_gives s r t
        → YieldsFirstBy fact_of facts_left s r t };
}

// The facts that are left of a group.
#[derive(Clone, Copy, Drop)]
pub struct GroupFacts<'a> {
    words: &'a [u32],
    rest: Group,
}

impl<'a> GroupFacts<'a> {
    // Whether none is left.
    pub fn is_empty(&self) -> bool
        ensures { Decides result (group_left self.now ≡ []) }
    {
        self.rest.end <= self.rest.at
    }
}

impl<'a> Iterator for GroupFacts<'a> {
    type Item = u32;

    ghost next_gives = { YieldsFirstBy fact_of group_left };

    ghost remaining = { item_count group_left };

    fn next(&mut self) -> Option<u32> {
        if self.rest.at < self.rest.end {
            let fact = get_or(self.words, self.rest.at, 0);
            self.rest.at += 1;
            return Some(fact);
        }
        None
    }
}

impl<'a> DoubleEndedIterator for GroupFacts<'a> {
    ghost next_back_gives = { YieldsLastBy fact_of group_left };

    fn next_back(&mut self) -> Option<u32> {
        if self.rest.at < self.rest.end {
            self.rest.end -= 1;
            return Some(get_or(self.words, self.rest.end, 0));
        }
        None
    }
}

impl<'a> Facts for GroupFacts<'a> {
    ghost facts_left = { group_left };

    ghost goes_on = { λ s. tt };

    ghost ends = { λ s. tt };

    ghost gives = { λ s r t h. h };
}

// The goal.
pub fn goal(w: &[u32]) -> Group
    ensures { result ≡ goal_group w.now }
{
    let at = offset(w, GOAL);
    Group {
        at,
        end: at + size(w, GOAL),
    }
}

// What an action needs, and its effects.
#[derive(Clone, Copy)]
pub struct ActionFacts {
    pub precondition: Group,
    pub effects: Effects,
}

// The facts of action a, from one reading of its pair.
pub fn facts_of(w: &[u32], a: u32) -> ActionFacts
    ensures { (result.precondition ≡ needed_group w.now a)
        × (result.effects ≡ effects_of w.now a) }
{
    let k = FIRST_ACTION + a as usize;
    let from = offset(w, k);
    let precondition = from + ACTION_HEADER;
    let effect = precondition + number(w, from + 1);
    ActionFacts {
        precondition: Group {
            at: precondition,
            end: effect,
        },
        effects: Effects {
            at: effect,
            end: from + size(w, k),
            conditional: has_conditions(w),
        },
    }
}
