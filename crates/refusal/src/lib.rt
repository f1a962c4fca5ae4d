// The causes of refusal of documents 01 and 02, each with the place that is not always the same.
// specs/Refusal.antt gives each its number and place, and `number` and `place` hold the code to it.
#![tactic(auto)]

ghost use Rattle.std.specs.Prelude.{◌≡◌};
ghost use Rattle.refusal.specs.Refusal.{told_refusal};

#[derive(Clone, Copy)]
pub enum Refusal {
    Length,
    Edition,
    Counts,
    Pair(usize),
    Variable(usize),
    Fact(usize),
    Cost(usize),
    PlanLength(usize),
    UnknownAction(usize),
    ShortOutput(usize),
    NotAPlan(usize),
    Unmarked(usize),
    Form(usize),
    Unsupported(usize),
    Unwritable,
    Conflict(usize),
}

impl Refusal {
    // The number in document 01's table, which document 02's join.
    pub fn number(self) -> u32
        ensures { result ≡ (told_refusal self).number }
    {
        match self {
            Refusal::Length => 1,
            Refusal::Edition => 2,
            Refusal::Counts => 3,
            Refusal::Pair(_) => 4,
            Refusal::Variable(_) => 5,
            Refusal::Fact(_) => 6,
            Refusal::Cost(_) => 7,
            Refusal::PlanLength(_) => 8,
            Refusal::UnknownAction(_) => 9,
            Refusal::ShortOutput(_) => 10,
            Refusal::NotAPlan(_) => 11,
            Refusal::Unmarked(_) => 12,
            Refusal::Form(_) => 13,
            Refusal::Unsupported(_) => 14,
            Refusal::Unwritable => 15,
            Refusal::Conflict(_) => 16,
        }
    }

    // The place that is returned with it.
    pub fn place(self) -> usize
        ensures { result ≡ (told_refusal self).place }
    {
        match self {
            Refusal::Length | Refusal::Edition | Refusal::Counts | Refusal::Unwritable => 0,
            Refusal::Pair(at)
            | Refusal::Variable(at)
            | Refusal::Fact(at)
            | Refusal::Cost(at)
            | Refusal::PlanLength(at)
            | Refusal::UnknownAction(at)
            | Refusal::ShortOutput(at)
            | Refusal::NotAPlan(at)
            | Refusal::Unmarked(at)
            | Refusal::Form(at)
            | Refusal::Unsupported(at)
            | Refusal::Conflict(at) => at,
        }
    }
}
