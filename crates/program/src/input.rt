// The reading of an input, in stages, so that a program never waits for bytes that it does not need.
ghost use Rattle.io.specs.Counts.{IsPrefixLen};
ghost use Rattle.program.specs.Printed.{HasRead};

use records::framing::{WORDS, bytes_to_read};
use records::word::WORD;
use std::io::Read;

// How many bytes have been read, and whether the input ended before all that were asked for. No Result: the count holds
// either way, and `HasRead` and `HasDone` speak of it.
#[derive(Clone, Copy, PartialEq, Eq, Debug)]
pub struct Input {
    pub count: usize,
    pub ended: bool,
}

// What a program has read, and how many bytes its answer has.
#[derive(Clone, Copy, PartialEq, Eq, Debug)]
pub struct Done {
    pub input: Input,
    pub written: usize,
}

// Reads until the bytes lent are full, the input ends or a read fails, and answers how many bytes are at their front.
// No `read_exact`: what it has read says nothing after a failure, and each turn goes on as far as its read gave.
fn read_full<R: Read>(reader: &mut R, bytes: &mut [u8]) -> usize
    ensures { IsPrefixLen result bytes.new }
{
    let mut have = 0;
    while have < bytes.len() {
        let got = reader.read(&mut bytes[have..]).unwrap_or(0);
        if got == 0 {
            break;
        }
        have += got;
    }
    have
}

// Reads a record, with `further` words behind its plan, as far as its form needs, and `beyond` bytes behind a whole
// one; or to the end of the input. Where the bytes lent could be too few nothing is read, as from an input that is
// empty.
pub fn read<R: Read>(reader: &mut R, bytes: &mut [u8], further: u32, beyond: u32) -> Input
    ensures { HasRead further beyond bytes.new result }
{
    if bytes.len() < WORD * (WORDS + further as usize) + beyond as usize {
        return Input {
            count: 0,
            ended: true,
        };
    }
    let mut have = 0;
    loop {
        let want = bytes_to_read(&bytes[..have], further, beyond);
        if want <= have {
            return Input {
                count: have,
                ended: false,
            };
        }
        let got = read_full(reader, &mut bytes[have..want]);
        have += got;
        if have < want {
            return Input {
                count: have,
                ended: true,
            };
        }
    }
}
