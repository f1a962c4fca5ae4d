// The tally of a reduction.
ghost use Rattle.std.specs.Prelude.{◌≡◌};
ghost use Rattle.reduced.specs.Between.Tallied.{tallied};

use access::get_or;
use sheet::layout::cost;
use tally::Tally;

// The tally of the kept steps of a plan.
pub fn tally_of(words: &[u32], plan: &[u32], flags: &[bool]) -> Tally
    ensures { result ≡ tallied words.now plan.now flags.now }
{
    let mut tally = Tally::new();
    for (i, &a) in plan.iter().enumerate() {
        if !get_or(flags, i, false) {
            continue;
        }
        tally = tally.add(cost(words, a));
    }
    tally
}
