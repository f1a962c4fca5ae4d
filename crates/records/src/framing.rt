// Where a record at the front of bytes ends, which form it has, and how much must have been read to tell. `further` is
// how many words stand behind its plan: none in document 01's program.
ghost use Rattle.std.specs.Prelude.{◌≡◌, ◌<◌, ◌≤◌, ◌^◌};
ghost use Rattle.records.specs.RecordForm.{outside as outside_limits, task_length, record_ending};
ghost use Rattle.records.specs.RecordForm.{record_form, input_form};
ghost use Rattle.records.specs.Between.Needed.{bytes_to_read, most_bytes};

use crate::frame::{Extent, Fault, NoEnd};
use crate::word::{WORD, word_at};
use plan::limits::Plan;
use sheet::layout::{LENGTH_AT, PAIRS_AT};
use sheet::limits::Sheet;

// How many bytes beyond a record are read where nothing may follow it, to see that nothing does.
pub const ALONE: u32 = 1;

// The most words of a record with none behind its plan, and the most bytes that are read of an input of one.
pub const WORDS: usize = Sheet::WORDS + 1 + Plan::STEPS;

pub const BYTES: usize = WORD * WORDS + ALONE as usize;

// How many words the task has, by its own account.
fn task_length(bytes: &[u8]) -> usize
    ensures { (result ≡ task_length bytes.now) × (result < 2 ^ 32) }
{
    word_at(bytes, LENGTH_AT) as usize
}

// Whether a task may not have so many words.
fn outside(words: usize) -> bool
    ensures { result ≡ outside_limits words }
{
    !(PAIRS_AT..=Sheet::WORDS).contains(&words)
}

// Where the record at the front of the bytes ends, whatever follows it. Of records that stand one behind the other each
// is found by the bytes from the end of the one before on.
pub fn find_end(bytes: &[u8], further: u32) -> Result<Extent, NoEnd>
    ensures { result ≡ record_ending further bytes.now }
{
    let header = WORD * PAIRS_AT;
    if bytes.len() < header {
        return Err(NoEnd::Untold { needed: header });
    }
    let task = task_length(bytes);
    if outside(task) {
        return Err(NoEnd::Unfit);
    }
    let start = WORD * (task + 1);
    if bytes.len() < start {
        return Err(NoEnd::Untold { needed: start });
    }
    let plan = word_at(bytes, task) as usize;
    if Plan::STEPS < plan {
        return Err(NoEnd::Long { task });
    }
    let end = start + WORD * (plan + further as usize);
    Ok(Extent { task, plan, end })
}

// The record at the front of the bytes, whatever follows it.
pub fn frame_record(bytes: &[u8], further: u32) -> Result<Extent, Fault>
    ensures { result ≡ record_form further bytes.now }
{
    let extent = find_end(bytes, further)?;
    if bytes.len() < extent.end {
        return Err(Fault::Broken);
    }
    Ok(extent)
}

// The record that an input is, behind which nothing may follow.
pub fn frame_input(bytes: &[u8], further: u32) -> Result<Extent, Fault>
    ensures { result ≡ input_form further bytes.now }
{
    let extent = frame_record(bytes, further)?;
    if extent.end < bytes.len() {
        return Err(Fault::Broken);
    }
    Ok(extent)
}

// How many bytes in all must have been read before the form can be told, as far as those read so far show, with
// `beyond` bytes behind the record. Where it ends nowhere, no more need be.
pub fn bytes_to_read(bytes: &[u8], further: u32, beyond: u32) -> usize
    ensures { (result ≡ bytes_to_read further beyond bytes.now) × (result ≤ most_bytes further beyond) }
{
    match find_end(bytes, further) {
        Ok(extent) => extent.end + beyond as usize,
        Err(NoEnd::Untold { needed }) => needed,
        Err(NoEnd::Unfit) => 0,
        Err(NoEnd::Long { task: _ }) => 0,
    }
}
