// The program that checks a plan of a task. It reads both from standard input (document 01, "Worked lists", on the
// program) and prints the steps and the cost of a valid plan, or the refusal.
// check: what is printed for the bytes of the input.
#![tactic(auto)]

mod check;

use crate::check::answer_input;
use program::output::{LINE, write_text};
use records::framing::BYTES;

fn main(rt: HostRuntime) {
    let mut reader = rt.stdin();
    let mut bytes = [0u8; BYTES];
    let mut text = [0u8; LINE];
    let done = answer_input(&mut reader, &mut bytes, &mut text);
    write_text(&rt, &text[..done.written]);
}
