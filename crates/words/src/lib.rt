// The words of the forms that programs read, a text of words and an input, written to lent words, with what was found.
#![tactic(auto)]

ghost use Rattle.std.specs.Prelude.{◌≡◌};
ghost use Rattle.text.specs.Text.{stopped};
ghost use Rattle.words.specs.Found.{found_words, ReadsLent, OpensLent};

use access::{front, put_all};
use program::opened::open_input;
use records::framing::WORDS;
use text::limits::MOST;
use text::reader::{TextError, read_whole};

// What is wrong with a text, as the two numbers that `hollchiku_read_words` hands to programs in other languages.
fn told(e: TextError) -> [u64; 2]
    ensures { result ≡ found_words (stopped e) }
{
    match e {
        TextError::NoWord(line) => [1, line],
        TextError::NoRoom(line) => [2, line],
        TextError::Long => [3, 0],
    }
}

// Reads a text of words: they go to the front of `words`; 0 and how many they are go to `out`, or what is wrong: 1 and
// the line of a field that is no word, 2 and the line of a word for which no text has room, 3 and 0 where the text is
// too long to be read. 8,449 words have room for those of any text (`few_found`).
pub fn read_text(text: &[u8], words: &mut [u32], out: &mut [u64])
    ensures { ReadsLent text.now words.old words.new
        out.old out.new }
{
    let mut found = [0u32; MOST];
    match read_whole(text, &mut found) {
        Ok(n) => {
            let read = front(&found, n);
            put_all(words, read);
            put_all(out, &[0, read.len() as u64]);
        }
        Err(e) => put_all(out, &told(e)),
    }
}

// Opens an input, a sheet with its list in the form that the programs read: the sheet, the length of its list and the
// list go to the front of `words`; the number and the place of its refusal, or 0 and 0, then how many words the sheet
// has and how many the list, go to `out`.
pub fn open_record(bytes: &[u8], words: &mut [u32], out: &mut [u64])
    ensures { OpensLent bytes.now words.old words.new
        out.old out.new }
{
    let mut found = [0u32; WORDS];
    match open_input(bytes, 0, &mut found) {
        Err(refusal) => put_all(
            out,
            &[refusal.number() as u64, refusal.place() as u64, 0, 0],
        ),
        Ok(extent) => {
            let sheet = extent.task_words(&found).len();
            let list = extent.plan_words(&found).len();
            put_all(words, front(&found, sheet + 1 + list));
            put_all(out, &[0, 0, sheet as u64, list as u64]);
        }
    }
}
