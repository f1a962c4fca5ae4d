// A state in bytes, a byte for each variable, since no domain has more than 256 values; and rows: the facts of an
// assignment as a flag for each variable that says whether it has one, and a byte for its value. A row is tested and
// written whole, without a branch, so that its facts cost the same whatever they are.
ghost use Rattle.std.specs.Prelude.{◌≡◌};
ghost use Rattle.sheet.specs.Decode.{initial as initial_of};
ghost use Rattle.step.specs.State.{in_array};
ghost use Rattle.packed_state.specs.Between.Packed.{meeting, taking, has_all, written_over, packed_start, no_row};

use sheet::limits::Sheet;
use step::state::initial;

// The most unflagged steps that there is room for; a word of choices has a bit for each, and bit 0.
pub const MOST: usize = 31;
// The bytes of a state.
pub const STATE: usize = Sheet::VARIABLES;

// Whether a variable has the value that it is asked for, if it is.
fn meets(asked: bool, value: u8, has: u8) -> bool
    ensures { result ≡ meeting asked value has }
{
    !asked || has == value
}

// The value that a row gives a variable: its own where it has none.
fn takes(asked: bool, value: u8, has: u8) -> u8
    ensures { result ≡ taking asked value has }
{
    if asked { value } else { has }
}

// The facts of an assignment: which variables have one, and with which value. One array of options is slower: it takes
// five to seven times the instructions to test and to write, since tags and values alternate in it.
#[derive(Clone, Copy, Default)]
pub struct Row {
    pub asked: [bool; STATE],
    pub values: [u8; STATE],
}

impl Row {
    // A row without facts.
    pub fn new() -> Row
        ensures { result ≡ no_row }
    {
        Row {
            asked: [false; STATE],
            values: [0; STATE],
        }
    }

    // Whether a state has all that the row asks for.
    pub fn holds(&self, state: &[u8; STATE]) -> bool
        ensures { result ≡ has_all self.now state.now }
    {
        let mut all = true;
        for (v, has) in state.iter().enumerate() {
            all &= meets(self.asked[v], self.values[v], *has);
        }
        all
    }

    // A state with the row written over it.
    pub fn write_over(&self, state: &[u8; STATE]) -> [u8; STATE]
        ensures { result ≡ written_over self.now state.now }
    {
        let mut next = *state;
        for (v, has) in next.iter_mut().enumerate() {
            *has = takes(self.asked[v], self.values[v], *has);
        }
        next
    }
}

// The starting values in bytes.
pub fn start(words: &[u32]) -> [u8; STATE]
    ensures { result ≡ packed_start (in_array (initial_of words.now)) }
{
    initial(words).map(|value| (value % Sheet::VALUES as u32) as u8)
}
