// What a program finds of its input before it answers.
ghost use Rattle.std.specs.Prelude.{◌≡◌, ◌+◌, ◌≤◌, length};
ghost use Rattle.records.specs.RecordForm.{unpacked};
ghost use Rattle.records.specs.Between.Needed.{most_words};
ghost use Rattle.program.specs.Opening.{opening};
ghost use Rattle.program.specs.Between.Found.{opening_of};

use crate::long::refuse_long;
use access::front;
use records::frame::{Extent, Fault};
use records::framing::frame_input;
use records::unpack::unpack;
use refusal::Refusal;

// Fills `words` with the words of an input of one record, with `further` words behind its plan, and tells where its
// parts are among them, or its refusal. The input's form goes before every other check.
pub fn open_input(bytes: &[u8], further: u32, words: &mut [u32]) -> Result<Extent, Refusal>
    requires { most_words + further ≤ length words.old }
    ensures opens { opening_of further result words.new ≡ opening further bytes.now }
    ensures fills { words.new ≡ unpacked bytes.now (length words.old) }
{
    unpack(bytes, words);
    match frame_input(bytes, further) {
        Ok(extent) => Ok(extent),
        Err(Fault::Broken) => Err(Refusal::Length),
        Err(Fault::Long { task }) => Err(refuse_long(front(words, task))),
    }
}
