// The text of the words that bytes are: a task with its plan in sections, other words in plain lines.
ghost use Rattle.std.specs.Prelude.{◌*◌, ◌≤◌, length};
ghost use Rattle.lines.specs.Puts.{Puts};
ghost use Rattle.records.specs.RecordForm.{word_bytes};
ghost use Rattle.text.specs.Limits.{most};
ghost use Rattle.layout.specs.Shown.{text_whole, text_of, shown};

use crate::sections::put_record;
use access::front;
use lines::Page;
use records::framing::frame_input;
use records::unpack::unpack;
use records::word::WORD;
use sheet::layout::actions;
use sheet::limits::Sheet;
use text::limits::MOST;
use word_rows::put_rows;

// Puts words of which the first `task` may be a task, with its plan behind it.
fn put_whole(page: &mut Page, words: &[u32], task: usize)
    ensures { Puts (text_whole task words.now) page.old page.new }
{
    if Sheet::ACTIONS < actions(front(words, task)) {
        return put_rows(page, words);
    }
    put_record(page, words, task);
}

// Puts the words of bytes.
fn put_bytes(page: &mut Page, bytes: &[u8])
    requires { length bytes.now ≤ word_bytes * most }
    ensures { Puts (text_of bytes.now) page.old page.new }
{
    let mut space = [0u32; MOST];
    unpack(bytes, &mut space);
    let words = front(&space, bytes.len() / WORD);
    match frame_input(bytes, 0) {
        Ok(extent) => put_whole(page, words, extent.task),
        Err(_) => put_rows(page, words),
    }
}

// Shows bytes: the text of the words that they are, or nothing where they are too many or the last breaks off.
pub fn show(page: &mut Page, bytes: &[u8])
    ensures { Puts (shown bytes.now) page.old page.new }
{
    if bytes.len() <= WORD * MOST && bytes.len() % WORD == 0 {
        put_bytes(page, bytes);
    }
}
