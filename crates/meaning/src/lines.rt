// Lines of facts among the numbers of a text.
ghost use Rattle.std.specs.Prelude.{◌≤◌, ◌<◌, ◌^◌};
ghost use Rattle.meaning.specs.declared.lines.TheConstants.{EFFECT};

// How many numbers a fact has, and how many an effect: its conditions, the variable, the old value and the new one.
pub(crate) const FACT: usize = 2;

pub(crate) const EFFECT: usize = 4;

// Where facts stand: in `count` lines of `wide` numbers each, the first variable at index `from`, and each value `on`
// numbers behind its variable. No index of theirs overflows.
#[derive(Clone, Copy)]
pub struct Lines {
    pub(crate) from: usize,
    pub(crate) wide: usize,
    pub(crate) on: usize,
    pub(crate) count: usize,
    ghost near: { (from ≤ 2 ^ 48) × (wide ≤ EFFECT) × (on ≤ 2) × (count < 2 ^ 32) },
}
