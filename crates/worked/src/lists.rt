// Sheet P of document 01, "Worked lists", and the lists that are made for it.
use plan::limits::Plan;

// The words of sheet P, and what drop costs in it.
const WORDS: usize = 41;

pub(crate) const DROP_COST: u32 = 5;

// Sheet P, with drop at another cost: its header and pairs, the domains, the start, the goal, and its actions lift,
// drain, drop and lamp.
#[rattlefmt::skip]
pub(crate) fn sheet(cost: u32) -> [u32; WORDS] {
    [
        1, 3, 4, 41,
        18, 3, 21, 3, 24, 2, 26, 4, 30, 4, 34, 4, 38, 3,
        2, 2, 2,
        0, 0, 0,
        0, 257,
        5, 1, 0, 1,
        2, 1, 1, 257,
        cost, 1, 1, 0,
        1, 0, 513,
    ]
}

// The most steps of a list that is made here: one more than a plan may have.
pub(crate) const LONGEST: usize = Plan::STEPS + 1;

// The steps that follow the lamps: lift, drain and drop.
const LAST: [u32; BEHIND] = [0, 1, 2];

pub(crate) const BEHIND: usize = 3;

// So many lamps, then lift, drain and drop.
pub(crate) fn after_lamps(lamps: usize) -> [u32; LONGEST] {
    let mut list = [3u32; LONGEST];
    for (step, last) in list.iter_mut().skip(lamps).zip(LAST) {
        *step = last;
    }
    list
}
