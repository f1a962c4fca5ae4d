// A run of words.
ghost use Rattle.std.specs.Prelude.{◌≡◌, ◌+◌, ◌≤◌, ◌^◌};
ghost use Rattle.std.proofs.lemmas.List.Edits.{sets};
ghost use Rattle.sheet.specs.Layout.{word as word_at};
ghost use Rattle.sheet.specs.Decode.{table};

use access::{get_or, put};

// Writes n words, which stand among `words` from index `from` on, from word `at` of the sheet on. What `words` lacks
// reads as 0, so that no slice of it serves.
pub fn write_words(words: &[u32], from: usize, n: usize, sheet: &mut [u32], at: usize)
    requires { (from ≤ 2 ^ 62) × (n ≤ 2 ^ 62) × (at ≤ 2 ^ 62) }
    ensures { sheet.new
        ≡ sets sheet.old at (table (λ k. word_at words.now (from + k)) 0 n) }
{
    for k in 0..n {
        put(sheet, at + k, get_or(words, from + k, 0));
    }
}
