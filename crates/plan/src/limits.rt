// The limit of a plan, stated here and nowhere else in the code. specs/Limits.antt has it for the definitions.
ghost use Rattle.std.specs.Prelude.{◌≡◌};
ghost use Rattle.plan.specs.Limits.{most_steps};

// A plan (document 01: list). It is a run of words that the caller lends, so its type holds nothing.
#[derive(Clone, Copy)]
pub struct Plan {}

impl Plan {
    pub const STEPS: usize = 255;

    // The limit of the code is that of the definitions.
    pub fn most_steps() -> usize
        ensures { result ≡ most_steps }
    {
        Plan::STEPS
    }
}
