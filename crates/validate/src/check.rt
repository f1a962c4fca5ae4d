// What the program prints for the bytes of its input, put into lent bytes.
ghost use Rattle.std.specs.Prelude.{◌≤◌, length};
ghost use Rattle.std.proofs.Common.{lit≤};
ghost use Rattle.program.specs.Printed.{HasDone};
ghost use Rattle.program.specs.Between.Room.{line_room, TextPut};
ghost use Rattle.validate.specs.Validate.{checked, printed};

use lines::Page;
use plan::check::check_plan;
use program::answer::{Service, answer};
use program::input::Done;
use program::output::{put_refusal, put_tally};
use std::io::Read;

// The tally of a plan that is checked.
struct Checking;

impl Service for Checking {
    ghost text = { checked };

    ghost room = { line_room };

    ghost refusal_fits = { lit≤ tt };

    fn put(&self, page: &mut Page, words: &[u32], plan: &[u32]) {
        match check_plan(words, plan) {
            Ok(checked) => put_tally(page, b"lodged", checked.tally),
            Err(refusal) => put_refusal(page, refusal),
        }
    }
}

// Reads the input from `reader` to the front of `bytes`, and puts what is printed for it to the front of `out`.
// A function of its own, since the theorem on what this program prints is about it.
pub(crate) fn answer_input<R: Read>(reader: &mut R, bytes: &mut [u8], out: &mut [u8]) -> Done
    requires { line_room ≤ length out.old }
    ensures done { HasDone 0 printed bytes.new result out.old out.new }
    ensures within { result.written ≤ length out.new }
{
    answer(&Checking, reader, bytes, out)
}
