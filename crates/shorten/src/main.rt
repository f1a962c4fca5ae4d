// The program that shortens a plan of a task by the minimal reduction (document 01: exact reduction). It reads both
// from standard input (document 01, "Worked lists", on the program) and prints what is kept, or the refusal.
// shortened: what is printed for the bytes of the input.
#![tactic(auto)]

mod shortened;

use crate::shortened::answer_input;
use plan::limits::Plan;
use program::output::{LINE, write_text};
use records::framing::BYTES;

// The most bytes that are printed: three lines, and one for each step.
const TEXT: usize = LINE * (3 + Plan::STEPS);

fn main(rt: HostRuntime) {
    let mut reader = rt.stdin();
    let mut bytes = [0u8; BYTES];
    let mut text = [0u8; TEXT];
    let done = answer_input(&mut reader, &mut bytes, &mut text);
    write_text(&rt, &text[..done.written]);
}
