// Lines of a text.
ghost use Rattle.std.specs.Prelude.{◌≡◌, ◌==◌, ◌||◌, false, fold, position, length, ◌≤◌};
ghost use Rattle.fields.specs.Between.Fields.{lines_of};
ghost use Rattle.fields.specs.Between.Reading.{SkipsLine, StripsLine};

use crate::class::ends_line;

// How many bytes are looked at together: a name is passed over without a test for each of its bytes.
const BLOCK: usize = 16;

// Whether a line ends within these bytes. Each is looked at, with no early exit, so that they can be tested at once.
fn ends_within(block: &[u8]) -> bool
    ensures { result ≡ fold (λ found byte. found || byte == 10) false block.now }
{
    block
        .iter()
        .fold(false, |found, byte| found | ends_line(*byte))
}

// Passes over blocks in which no line ends: what stands behind the first line stays.
fn skip_blocks(bytes: &[u8]) -> &[u8]
    ensures { ((lines_of result.now).others ≡ (lines_of bytes.now).others) × (length result.now ≤ length bytes.now) }
{
    let mut rest = bytes;
    while let Some((block, after)) = rest.split_first_chunk::<BLOCK>() {
        if ends_within(block) {
            break;
        }
        rest = after;
    }
    rest
}

// Where the first line end stands.
fn first_end(bytes: &[u8]) -> Option<usize>
    ensures { result ≡ position (λ byte. byte == 10) bytes.now }
{
    bytes.iter().position(|byte| ends_line(*byte))
}

// What stands behind the first line, if it ends.
pub fn skip_line(bytes: &[u8]) -> Option<&[u8]>
    ensures { SkipsLine bytes.now result }
{
    let rest = skip_blocks(bytes);
    let end = first_end(rest)?;
    Some(&rest[end + 1..])
}

// What stands behind this line and its line end, if the bytes begin with them.
pub fn strip_line<'a>(bytes: &'a [u8], line: &[u8]) -> Option<&'a [u8]>
    ensures { StripsLine bytes.now line.now result }
{
    match bytes.strip_prefix(line)?.split_first() {
        Some((byte, rest)) if ends_line(*byte) => Some(rest),
        _ => None,
    }
}
