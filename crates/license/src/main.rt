// The program that licenses a plan of a task: may this list be lodged? It reads both from standard input, in the form
// of document 01's program ("Worked lists"), and prints the strongest claim that is proved of what is left of the plan,
// and then what is kept, or the refusal.
// licensed: what is printed for the bytes of the input.
#![tactic(auto)]

mod licensed;

use crate::licensed::answer_input;
use plan::limits::Plan;
use program::output::{LINE, write_text};
use records::framing::BYTES;

// The most bytes that are printed: the line of the claim, three lines, and one for each step.
const TEXT: usize = LINE * (4 + Plan::STEPS);

fn main(rt: HostRuntime) {
    let mut reader = rt.stdin();
    let mut bytes = [0u8; BYTES];
    let mut text = [0u8; TEXT];
    let done = answer_input(&mut reader, &mut bytes, &mut text);
    write_text(&rt, &text[..done.written]);
}
