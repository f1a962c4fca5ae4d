// The two eliminations of document 01: a trial at each step, and the best trial of a round.
// eliminate: a trial at each position in turn. greedy: rounds of trials. single: each elimination as a service.
#![tactic(auto)]

mod eliminate;
mod greedy;
pub mod single;
