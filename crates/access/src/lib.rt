// Reads and writes that are safe at any index: past the end a read finds 0, and a write does nothing.
#![tactic(auto)]

ghost use Rattle.std.specs.Prelude.{◌≡◌, ◌+◌, length, get_or, set, take};
ghost use Rattle.std.proofs.lemmas.List.Edits.{sets};
ghost use Rattle.access.specs.Bits.{word_bits};
ghost use Rattle.access.specs.Between.Places.{ones_at, at_places};

// The element at index i, or `absent` past the end.
pub fn get_or<T: Copy>(elements: &[T], i: usize, absent: T) -> T
    ensures { result ≡ get_or elements.now i absent }
{
    if i < elements.len() {
        elements[i]
    } else {
        absent
    }
}

// The first n elements, or all where there are fewer.
pub fn front<T>(elements: &[T], n: usize) -> &[T]
    ensures { result.now ≡ take n elements.now }
{
    if n < elements.len() {
        &elements[..n]
    } else {
        elements
    }
}

// Writes x at index i.
pub fn put<T: Copy>(elements: &mut [T], i: usize, x: T)
    ensures { elements.new ≡ set elements.old i x }
{
    if i < elements.len() {
        elements[i] = x;
    }
}

// Writes values over the first elements. What there is no room for is dropped. How many there are to write is settled
// before the first is written, so that the loop is a copy; `copy_from_slice` would have the library for C need `memmove`
// where nothing tells that both are apart.
pub fn put_all<T: Copy>(elements: &mut [T], values: &[T])
    ensures { elements.new ≡ sets elements.old 0 values.now }
{
    let n = elements.len().min(values.len());
    for i in 0..n {
        elements[i] = values[i];
    }
}

// Writes values over the elements from index `at` on. What there is no room for is dropped.
pub fn put_from<T: Copy>(elements: &mut [T], at: usize, values: &[T])
    ensures { elements.new ≡ sets elements.old at values.now }
{
    if at < elements.len() {
        put_all(&mut elements[at..], values);
    }
}

// Writes the words at the places of the ones in `bits`, whose lowest bit has place `from`, to `out` from index `at` on.
// Returns the index after them.
pub fn write_word(bits: u64, from: u32, words: &[u32], out: &mut [u32], at: u32) -> usize
    ensures { (out.new
        ≡ sets out.old at (at_places words.now (ones_at from word_bits bits)))
        × (result ≡ at + length (ones_at from word_bits bits)) }
{
    let mut rest = bits;
    let mut to = at as usize;
    while rest != 0 {
        let lowest = u64::trailing_zeros(rest);
        put(out, to, get_or(words, from as usize + lowest as usize, 0));
        rest -= 1 << lowest;
        to += 1;
    }
    to
}
