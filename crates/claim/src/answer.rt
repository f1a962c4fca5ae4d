// What the licence of a list answers.
use minimal::within::Shortened;

// What is proved of the list left. Least: no valid reduction of the lodged list leaves a lower one. Irreducible:
// nothing more can be struck from it. Open: so many of its steps are unmarked, too many for the minimal reduction.
// None of the three is a refusal, so that no Result says them.
#[derive(Clone, Copy)]
pub enum Claim {
    Least,
    Irreducible,
    Open(usize),
}

// The claim, and what is told of the list that is shortened.
#[derive(Clone, Copy)]
pub struct Licensed {
    pub claim: Claim,
    pub told: Shortened,
}
