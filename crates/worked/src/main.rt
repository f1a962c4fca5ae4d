// The program that runs those of document 01's worked lists that show its limits, 10 and 11, with the marks of document
// 02, and prints a line for each. Every one is sheet P with some lamps, then lift, drain and drop.
// lists: the sheet and the lists. found: what the services find of a list.
#![tactic(auto)]

mod found;
mod lists;

ghost use Rattle.std.specs.Prelude.{◌<◌, ◌^◌};

use crate::found::print_found;
use crate::lists::{BEHIND, DROP_COST, after_lamps, sheet};
use access::front;
use minimal::reduce::UNMARKED;
use plan::limits::Plan;
use sheet::limits::Sheet;

// So many lamps, where drop costs so much.
fn run(rt: &(impl Print + Eprint), name: &[u8], number: u64, cost: u32, lamps: usize)
    requires { lamps < 2 ^ 32 }
{
    let words = sheet(cost);
    let list = after_lamps(lamps);
    print_found(rt, name, number, &words, front(&list, lamps + BEHIND));
}

// Named by the lamps.
fn with_lamps(rt: &(impl Print + Eprint), lamps: usize)
    requires { lamps < 2 ^ 32 }
{
    run(rt, b"list 10, lamps", lamps as u64, DROP_COST, lamps);
}

// Named by all steps.
fn with_steps(rt: &(impl Print + Eprint), lamps: usize)
    requires { lamps < 2 ^ 32 }
{
    run(
        rt,
        b"list 11, steps",
        (lamps + BEHIND) as u64,
        DROP_COST,
        lamps,
    );
}

// Named by the price of drop.
fn with_price(rt: &(impl Print + Eprint), price: u32) {
    run(rt, b"list 11, price", price as u64, price, 0);
}

// Of each two the first is the last that passes and the second the first that does not; of list 10 the one before that
// stands in front.
fn main(rt: HostRuntime) {
    with_lamps(&rt, UNMARKED - 1);
    with_lamps(&rt, UNMARKED);
    with_lamps(&rt, UNMARKED + 1);
    with_steps(&rt, Plan::STEPS - BEHIND);
    with_steps(&rt, Plan::STEPS - BEHIND + 1);
    with_price(&rt, Sheet::COST);
    with_price(&rt, Sheet::COST + 1);
}
