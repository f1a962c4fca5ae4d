// What the program prints for the bytes of its input, put into lent bytes.
ghost use Rattle.std.specs.Prelude.{◌≤◌, length};
ghost use Rattle.std.proofs.Common.{lit≤};
ghost use Rattle.program.specs.Printed.{HasDone};
ghost use Rattle.claim_report.specs.Licensed.{licensed};
ghost use Rattle.claim_report.specs.Between.LicenceRoom.{licence_room};
ghost use Rattle.license.specs.License.{printed};

use claim_report::put_licensed;
use lines::Page;
use program::answer::{Service, answer};
use program::input::Done;
use std::io::Read;

// The claim and the report of a plan that is licensed.
struct Licensing;

impl Service for Licensing {
    ghost text = { licensed };

    ghost room = { licence_room };

    ghost refusal_fits = { lit≤ tt };

    fn put(&self, page: &mut Page, words: &[u32], plan: &[u32]) {
        put_licensed(page, words, plan);
    }
}

// Reads the input from `reader` to the front of `bytes`, and puts what is printed for it to the front of `out`.
// A function of its own, since the theorem on what this program prints is about it.
pub(crate) fn answer_input<R: Read>(reader: &mut R, bytes: &mut [u8], out: &mut [u8]) -> Done
    requires { licence_room ≤ length out.old }
    ensures done { HasDone 0 printed bytes.new result out.old out.new }
    ensures within { result.written ≤ length out.new }
{
    answer(&Licensing, reader, bytes, out)
}
