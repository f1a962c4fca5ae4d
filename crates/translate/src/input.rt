// The reading of an input.
ghost use Rattle.translate.specs.Input.{HasReadText};

use std::io::Read;

// How many bytes were read, and how many the last call of `read` gave: none where it failed, and 0 at the input's end.
#[derive(Clone, Copy)]
pub(crate) struct Input {
    pub(crate) count: usize,
    pub(crate) last: Option<usize>,
}

// Reads the input to its end, or until the bytes lent are full, or a read fails.
pub(crate) fn read_input<R: Read>(reader: &mut R, bytes: &mut [u8]) -> Input
    ensures { HasReadText bytes.new result }
{
    let mut have = 0;
    let mut last = Some(0);
    // Each turn goes on as far as its read gave.
    while have < bytes.len() {
        last = reader.read(&mut bytes[have..]).ok();
        match last {
            None | Some(0) => return Input { count: have, last },
            Some(more) => have += more,
        }
    }
    Input { count: have, last }
}
