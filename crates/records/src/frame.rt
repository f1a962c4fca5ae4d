// A record, a task with its plan and what stands behind them, at the front of bytes: how far it goes, and why none can
// be told or read.
ghost use Rattle.std.specs.Prelude.{◌≡◌, ◌+◌, take, drop};
ghost use Rattle.records.specs.RecordForm.{as_fault};

use access::front;

// A record whose end is told: its task and its plan have so many words, and it ends before the byte at `end`, which
// the bytes may not reach.
#[derive(Clone, Copy, PartialEq, Eq, Debug)]
pub struct Extent {
    pub task: usize,
    pub plan: usize,
    pub end: usize,
}

// Why no end is told, as far as bytes tell.
#[derive(Clone, Copy, PartialEq, Eq, Debug)]
pub enum NoEnd {
    // They break off before they tell: so many in all are needed to tell more.
    Untold { needed: usize },
    // It is nowhere: the task is said to have too few words or too many.
    Unfit,
    // It is nowhere: the task is there, and the plan is too long.
    Long { task: usize },
}

// Why a record can't be read.
#[derive(Clone, Copy, PartialEq, Eq, Debug)]
pub enum Fault {
    // It breaks off, or says that the task has too few words or too many; as an input, it may also run on.
    Broken,
    // The task is there, and the plan is too long: nothing after its length counts.
    Long { task: usize },
}

// A record whose end is not told can't be read.
impl From<NoEnd> for Fault {
    ghost from_gives = { λ e fault. fault ≡ as_fault e };

    fn from(e: NoEnd) -> Fault {
        match e {
            NoEnd::Untold { needed: _ } => Fault::Broken,
            NoEnd::Unfit => Fault::Broken,
            NoEnd::Long { task } => Fault::Long { task },
        }
    }
}

// What follows the first n, or nothing where there are no more.
fn past<T>(items: &[T], n: usize) -> &[T]
    ensures { result.now ≡ drop n items.now }
{
    items.get(n..).unwrap_or(&[])
}

// The parts of the record among its words, each as far as there are so many. Each is safe at any length.
impl Extent {
    // The task.
    pub fn task_words(self, words: &[u32]) -> &[u32]
        ensures { result.now ≡ take self.task words.now }
    {
        front(words, self.task)
    }

    // What follows the task and the length.
    fn past_length(self, words: &[u32]) -> &[u32]
        ensures { result.now ≡ drop (self.task + 1) words.now }
    {
        past(past(words, self.task), 1)
    }

    // The plan.
    pub fn plan_words(self, words: &[u32]) -> &[u32]
        ensures { result.now ≡ take self.plan (drop (self.task + 1) words.now) }
    {
        front(self.past_length(words), self.plan)
    }

    // The `further` words behind the plan.
    pub fn further_words(self, words: &[u32], further: usize) -> &[u32]
        ensures { result.now ≡ take further (drop (self.task + 1 + self.plan) words.now) }
    {
        front(past(self.past_length(words), self.plan), further)
    }
}
