// The limits of a sheet, each stated here and nowhere else in the code.
// specs/Limits.antt has them for the definitions, and `as_stated` holds the two together.
ghost use Rattle.std.specs.Prelude.{◌≡◌};
ghost use Rattle.sheet.specs.Limits.{limits as limits_of_01};

// The job sheet of document 01. It is a run of words that the caller lends, so its type holds nothing.
#[derive(Clone, Copy)]
pub struct Sheet {}

impl Sheet {
    pub const WORDS: usize = 8192;

    pub const VARIABLES: usize = 64;

    pub const ACTIONS: usize = 1024;

    pub const VALUES: usize = 256;

    pub const COST: u32 = 1_000_000;
}

#[derive(Clone, Copy)]
pub struct Limits {
    pub words: usize,
    pub variables: usize,
    pub actions: usize,
    pub values: usize,
    pub cost: u32,
}

// The limits of the code are those of the definitions.
pub fn as_stated() -> Limits
    ensures { result ≡ limits_of_01 }
{
    Limits {
        words: Sheet::WORDS,
        variables: Sheet::VARIABLES,
        actions: Sheet::ACTIONS,
        values: Sheet::VALUES,
        cost: Sheet::COST,
    }
}
