// What a search asks at the unflagged steps of a plan, prepared once: which of the facts that a step may write are
// wanted behind it (a flagged step or the goal needs them before any step writes them), and which are needed there at
// all. A step is struck only where each wanted one holds already, and kept only where a needed one does not.
// bits: for each such step a word for either question, with a bit for each fact that the step may write.
#![tactic(auto)]

pub mod bits;
