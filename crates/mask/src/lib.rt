// A reduction of a plan as a mask of four words: made from flags, counted, read bit by bit, and written out.
#![tactic(auto)]

ghost use Rattle.std.specs.Prelude.{◌≡◌, ◌≤◌, false, length, get_or, take, drop};
ghost use Rattle.std.proofs.lemmas.List.Edits.{sets};
ghost use Rattle.std.specs.Int.Count.{ones as ones_in_lem};
ghost use Rattle.mask.specs.Mask.{word_bits, mask_bits, binary, mask_words, ones_of, bit_up};
ghost use Rattle.mask.specs.Between.Places.{kept_by_words};

use access::{get_or, write_word};

// Document 01's mask. Its words may hold any values.
#[derive(Clone, Copy)]
pub struct Mask {
    pub words: [u64; Mask::WORDS],
}

impl Mask {
    // The words of a mask, and the bits of a word. specs/Mask.antt has them for the definitions.
    pub const WORDS: usize = 4;

    pub const BITS: usize = 64;

    // The number of ones.
    pub fn count(self) -> u32
        ensures { result ≡ ones_of self.words }
    {
        let words = self.words;
        ones(words[0]) + ones(words[1]) + ones(words[2]) + ones(words[3])
    }

    // Whether the step at index i is kept. One that the mask has no bit for is not.
    pub fn keeps(self, i: usize) -> bool
        ensures { result ≡ bit_up self.words i }
    {
        bit(&self.words, i)
    }
}

// Whether bit i of a mask's words is one; where there is no such word it is not.
pub fn bit(words: &[u64], i: usize) -> bool
    ensures { result ≡ bit_up words.now i }
{
    (get_or(words, i / Mask::BITS, 0) >> (i % Mask::BITS)) % 2 == 1
}

// The number of ones in a word.
fn ones(word: u64) -> u32
    ensures { (result ≡ ones_in_lem word) × (result ≤ word_bits) }
{
    u64::count_ones(word)
}

// The word of the flags from index `from` on.
fn word_of(flags: &[bool], from: usize) -> u64
    requires { from ≤ mask_bits }
    ensures { result ≡ binary (take word_bits (drop from flags.now)) }
{
    let mut word = 0;
    for i in (0..Mask::BITS).rev() {
        word = 2 * word + u64::from(get_or(flags, from + i, false));
    }
    word
}

// The mask of these flags; those that it has no bit for are dropped.
pub fn mask_of(flags: &[bool]) -> Mask
    ensures { result.words ≡ mask_words flags.now }
{
    Mask {
        words: [
            word_of(flags, 0),
            word_of(flags, Mask::BITS),
            word_of(flags, 2 * Mask::BITS),
            word_of(flags, 3 * Mask::BITS),
        ],
    }
}

// Writes the plan's words at the ones of a mask to the front of `out`, in order; all other words stay. Returns how many
// there are.
pub fn write_kept(mask: Mask, plan: &[u32], out: &mut [u32]) -> usize
    ensures { (out.new ≡ sets out.old 0 (kept_by_words mask.words plan.now))
        × (result ≡ length (kept_by_words mask.words plan.now)) }
{
    let words = mask.words;
    let mut to = 0;
    for (k, &word) in words.iter().enumerate() {
        to = write_word(word, (k * Mask::BITS) as u32, plan, out, to as u32);
    }
    to
}
