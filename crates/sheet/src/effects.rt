// The effects of an action. How they lie among the words is known here and to the sheet's own checks alone: every other
// function goes through them one by one, from the first.
ghost use Rattle.std.specs.Prelude.{◌≡◌, ◌<◌, ◌-◌, ◌^◌};
ghost use Rattle.std.specs.Iterator.{YieldsFirst, YieldsFirstBy, item_count};
ghost use Rattle.sheet.specs.Decode.{fact_of, effect_words};
ghost use Rattle.sheet.specs.Between.Effects.{fact_place, first_written, first_condition, rest_effects};
ghost use Rattle.sheet.specs.Between.Effects.{effects_in, written_in, effects_left, written_left};
ghost use Rattle.sheet.specs.Between.Effects.{effect_read, places_left};

use crate::group::{Facts, Group, GroupFacts};
use crate::layout::effect_fact;
use access::get_or;

// The effects of an action, or what is left of them: from word `at` up to, not including, word `end`. In edition 1 each
// is a fact; in edition 2 each has a condition. The edition is a flag and no enum, since it changes only how the first
// of them is read (`fact_place`, `condition`).
#[derive(Clone, Copy)]
pub struct Effects {
    pub at: usize,
    pub end: usize,
    pub conditional: bool,
}

impl Effects {
    // The effects from the first on.
    pub fn each<'a>(self, w: &'a [u32]) -> EachEffect<'a>
        ensures { effects_left result ≡ effects_in w.now self }
    {
        EachEffect {
            words: w,
            rest: self,
        }
    }

    // The facts that they may write, from the first on.
    pub fn facts<'a>(self, w: &'a [u32]) -> WrittenFacts<'a>
        ensures { written_left result ≡ written_in w.now self }
    {
        WrittenFacts {
            words: w,
            rest: self,
        }
    }

    // Where the fact of the first of them stands.
    fn fact_place(self, w: &[u32]) -> usize
        ensures { result ≡ fact_place w.now self }
    {
        if self.conditional {
            return effect_fact(w, self.end, self.at);
        }
        self.at
    }

    // The word of the fact that the first of them may write.
    pub fn first(self, w: &[u32]) -> u32
        ensures { (result ≡ first_written w.now self) × (result < 2 ^ 32) }
    {
        get_or(w, self.fact_place(w), 0)
    }

    // The condition of the first of them, which is empty in edition 1.
    pub fn condition(self, w: &[u32]) -> Group
        ensures { result ≡ first_condition w.now self }
    {
        if self.conditional {
            let fact = self.fact_place(w);
            if self.at < self.end {
                return Group {
                    at: self.at + 1,
                    end: fact,
                };
            }
            return Group {
                at: self.end,
                end: fact,
            };
        }
        Group {
            at: self.at,
            end: self.at,
        }
    }

    // All but the first; where there is none, none.
    pub fn rest(self, w: &[u32]) -> Effects
        ensures { result ≡ rest_effects w.now self }
    {
        if self.at < self.end {
            let fact = self.fact_place(w);
            if fact < self.end {
                return Effects {
                    at: fact + 1,
                    end: self.end,
                    conditional: self.conditional,
                };
            }
            return Effects {
                at: self.end,
                end: self.end,
                conditional: self.conditional,
            };
        }
        self
    }
}

// An effect as it is read: the facts of its condition, and the word of the fact that it writes.
#[derive(Clone, Copy, Drop)]
pub struct ReadEffect<'a> {
    pub condition: GroupFacts<'a>,
    pub fact: u32,
}

// The effects that are left of an action's.
#[derive(Clone, Copy, Drop)]
pub struct EachEffect<'a> {
    words: &'a [u32],
    rest: Effects,
}

impl<'a> Iterator for EachEffect<'a> {
    type Item = ReadEffect<'a>;

    ghost next_gives = { YieldsFirstBy effect_read effects_left };

    ghost remaining = { item_count effects_left };

    fn next(&mut self) -> Option<ReadEffect<'a>> {
        if self.rest.at < self.rest.end {
            let condition = self.rest.condition(self.words).facts(self.words);
            let fact = self.rest.first(self.words);
            self.rest = self.rest.rest(self.words);
            return Some(ReadEffect { condition, fact });
        }
        None
    }
}

// The facts that the effects left of an action's may write.
#[derive(Clone, Copy, Drop)]
pub struct WrittenFacts<'a> {
    words: &'a [u32],
    rest: Effects,
}

impl<'a> Iterator for WrittenFacts<'a> {
    type Item = u32;

    ghost next_gives = { YieldsFirstBy fact_of written_left };

    ghost remaining = { item_count written_left };

    fn next(&mut self) -> Option<u32> {
        if self.rest.at < self.rest.end {
            let fact = self.rest.first(self.words);
            self.rest = self.rest.rest(self.words);
            return Some(fact);
        }
        None
    }
}

impl<'a> Facts for WrittenFacts<'a> {
    ghost facts_left = { written_left };

    ghost goes_on = { λ s. tt };

    ghost ends = { λ s. tt };

    ghost gives = { λ s r t h. h };
}

// The words at which the effects with conditions that are left of an action's stand.
#[derive(Clone, Copy, Drop)]
pub struct EffectPlaces<'a> {
    words: &'a [u32],
    at: usize,
    end: usize,
}

impl<'a> EffectPlaces<'a> {
    // Those of the effects that stand from word `at` up to, not including, word `end`.
    pub fn new(words: &'a [u32], at: usize, end: usize) -> EffectPlaces<'a>
        ensures { places_left result ≡ effect_words words.now end at (end - at) }
    {
        EffectPlaces { words, at, end }
    }
}

impl<'a> Iterator for EffectPlaces<'a> {
    type Item = usize;

    ghost next_gives = { YieldsFirst places_left };

    ghost remaining = { item_count places_left };

    fn next(&mut self) -> Option<usize> {
        if self.at < self.end {
            let place = self.at;
            let fact = effect_fact(self.words, self.end, place);
            self.at = fact.saturating_add(1).min(self.end);
            return Some(place);
        }
        None
    }
}
