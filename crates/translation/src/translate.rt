// The service that reads a planner's text into a sheet.
ghost use Rattle.std.specs.Prelude.{◌≡◌, ◌*◌, length};
ghost use Rattle.planner.specs.Text.{most_bytes};
ghost use Rattle.translation.specs.Translation.{Translates};
ghost use Rattle.translation.specs.Between.Checks.{AnswersChecks};
ghost use Rattle.translation.specs.Between.Written.{WritesTask};

use access::put_all;
use form::limits::NUMBERS;
use refusal::Refusal;
use sheet::limits::Sheet;
use task_sheet::build::build;
use text_sections::text::read_text;

// Room for the numbers of the longest text. The array is so long that only its length is told.
fn number_room() -> [u32; NUMBERS]
    ensures { most_bytes ≡ 2 * length result }
{
    [0; NUMBERS]
}

// Writes the sheet of the task that numbers mean to the front of `out`, and tells how many words it has. The sheet is
// made elsewhere first, so that a refusal leaves every word of `out`.
fn write_task(x: &[u32], out: &mut [u32]) -> Result<usize, Refusal>
    ensures { WritesTask x.now out.old result out.new }
{
    let mut sheet = [0u32; Sheet::WORDS];
    let words = build(x, &mut sheet).ok_or(Refusal::Unwritable)?;
    if out.len() < words {
        return Err(Refusal::ShortOutput(words));
    }
    put_all(out, &sheet[..words]);
    Ok(words)
}

// Answers by the checks of a text, in the order in which they run.
fn run_checks(text: &[u8], out: &mut [u32]) -> Result<usize, Refusal>
    ensures { AnswersChecks text.now out.old result out.new }
{
    let mut tape = number_room();
    match read_text(text, &mut tape) {
        Err(line) => Err(Refusal::Form(line)),
        Ok(numbers) => {
            if let Some(line) = numbers.barred {
                return Err(Refusal::Unsupported(line));
            }
            write_task(numbers.kept, out)
        }
    }
}

// Reads a planner's text into a sheet at the front of `out`, and tells how many words it has.
pub fn translate(text: &[u8], out: &mut [u32]) -> Result<usize, Refusal>
    ensures checks { AnswersChecks text.now out.old result out.new }
    ensures answer { Translates text.now out.old result out.new }
{
    run_checks(text, out)
}
