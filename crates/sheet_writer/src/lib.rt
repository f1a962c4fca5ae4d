// The writing of a sheet to lent words, part by part; a word for which there is no room is dropped. What a part says is
// the caller's to know.
// layout: the words before the pairs, a pair, and what begins an action's part. words: a run of words. facts: the word
// of a fact, and a group of facts.
#![tactic(auto)]

pub mod facts;
pub mod layout;
pub mod words;
