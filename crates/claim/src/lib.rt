// The licence of a list as a service: every plan gets the strongest claim that is proved of what is left of it.
// answer: what the service answers. further: plans with too many unmarked steps for the minimal reduction. license: the
// service.
#![tactic(auto)]

pub mod answer;
mod further;
pub mod license;
