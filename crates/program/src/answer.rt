// What a program answers to its input: what it puts for a task and its plan, or the line of the refusal.
ghost use Rattle.std.specs.Prelude.{List, ℕ, ◌≤◌, length};
ghost use Rattle.program.specs.Printed.{refusal_line, HasDone};
ghost use Rattle.program.specs.Reply.{reply};
ghost use Rattle.program.specs.Between.Room.{line_room, TextPut};

use crate::input::{Done, read};
use crate::opened::open_input;
use crate::output::put_refusal;
use lines::Page;
use records::framing::{ALONE, WORDS};
use std::io::Read;

// What a program asks of a task and its plan, and prints.
pub trait Service {
    // the text that is printed for the words of both, and how many bytes it has at most
    ghost text: { List ℕ → List ℕ → List ℕ };

    ghost room: { ℕ };

    // Puts that text.
    fn put(&self, page: &mut Page, words: &[u32], plan: &[u32])
        ensures { TextPut room page.old page.new (text words.now plan.now) };

    // a refusal has no more
    ghost refusal_fits: { line_room ≤ room };
}

// Puts what is printed for an input.
fn put_reply<S: Service>(service: &S, page: &mut Page, bytes: &[u8])
    ensures { TextPut S.room page.old page.new (reply refusal_line S.text bytes.now) }
{
    let mut words = [0u32; WORDS];
    match open_input(bytes, 0, &mut words) {
        Err(refusal) => put_refusal(page, refusal),
        Ok(extent) => service.put(page, extent.task_words(&words), extent.plan_words(&words)),
    }
}

// Reads the input from `reader` to the front of `bytes`, and puts what is printed for it to the front of `out`.
pub fn answer<S: Service, R: Read>(
    service: &S,
    reader: &mut R,
    bytes: &mut [u8],
    out: &mut [u8],
) -> Done
    requires { S.room ≤ length out.old }
    ensures done { HasDone 0 (reply refusal_line S.text) bytes.new result out.old out.new }
    ensures within { result.written ≤ length out.new }
{
    let input = read(reader, bytes, 0, ALONE);
    let n = input.count;
    let mut page = Page::new(out);
    put_reply(service, &mut page, &bytes[..n]);
    Done {
        input,
        written: page.end,
    }
}
