// The forms that programs read and print, over lent words and bytes.
ghost use Rattle.lines.specs.Prints.{Prints};
ghost use Rattle.records.specs.Bytes.{all_bytes};
ghost use Rattle.layout.specs.Shown.{shown};
ghost use Rattle.claim_report.specs.Licensed.{licensed};
ghost use Rattle.report.specs.Shortened.{shortened};
ghost use Rattle.words.specs.Found.{ReadsLent, OpensLent};

use claim_report::put_licensed;
use layout::shown::show;
use lines::Page;
use program::pack::pack;
use report::shortened::put_shortened;
use words::{open_record, read_text};

// Packs words: their bytes, the lowest of each first, go to the front of `bytes`; how many were written is returned.
#[unsafe(no_mangle)]
pub extern "C" fn hollchiku_pack(words: &[u32], bytes: &mut [u8]) -> u64
    ensures { Prints (all_bytes words.now) 0 bytes.old bytes.new result }
{
    let mut page = Page::new(bytes);
    pack(&mut page, words);
    page.end as u64
}

// Reads a text of words: they go to the front of `words`; 0 and how many they are go to `out`, or what is wrong: 1 and
// the line of a field that is no word, 2 and the line of a word for which no text has room, 3 and 0 where the text is
// too long to be read. 8,449 words have room for those of any text (`few_found`).
#[unsafe(no_mangle)]
pub extern "C" fn hollchiku_read_words(text: &[u8], words: &mut [u32], out: &mut [u64])
    ensures { ReadsLent text.now words.old words.new
        out.old out.new }
{
    read_text(text, words, out);
}

// Opens an input, a sheet with its list in the form that the programs read: the sheet, the length of its list and the
// list go to the front of `words`; the number and the place of its refusal, or 0 and 0, then how many words the sheet
// has and how many the list, go to `out`.
#[unsafe(no_mangle)]
pub extern "C" fn hollchiku_open(bytes: &[u8], words: &mut [u32], out: &mut [u64])
    ensures { OpensLent bytes.now words.old words.new
        out.old out.new }
{
    open_record(bytes, words, out);
}

// Shows bytes: the text of the words that they are, in sections where these are a sheet with its list, goes to the
// front of `text`, and nothing where there are more words than a text has or the last breaks off; how many bytes were
// written is returned. 131,072 bytes have room for any text (`text_fits`).
#[unsafe(no_mangle)]
pub extern "C" fn hollchiku_text_of(bytes: &[u8], text: &mut [u8]) -> u64
    ensures { Prints (shown bytes.now) 0 text.old text.new result }
{
    let mut page = Page::new(text);
    show(&mut page, bytes);
    page.end as u64
}

// Prints the licence of a plan: the lines that the program `license` prints go to the front of `text`; how many bytes
// were written is returned.
#[unsafe(no_mangle)]
pub extern "C" fn hollchiku_license_lines(words: &[u32], plan: &[u32], text: &mut [u8]) -> u64
    ensures { Prints (licensed words.now plan.now) 0
        text.old text.new result }
{
    let mut page = Page::new(text);
    put_licensed(&mut page, words, plan);
    page.end as u64
}

// Prints the minimal reduction of a plan, as the program `shorten` does, in the same form.
#[unsafe(no_mangle)]
pub extern "C" fn hollchiku_shorten_lines(words: &[u32], plan: &[u32], text: &mut [u8]) -> u64
    ensures { Prints (shortened words.now plan.now) 0
        text.old text.new result }
{
    let mut page = Page::new(text);
    put_shortened(&mut page, words, plan);
    page.end as u64
}
