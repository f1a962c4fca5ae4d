// A text that is read line by line.
ghost use Rattle.std.specs.Prelude.{◌+◌, ◌*◌, ◌≤◌, ◌<◌, ◌≡◌, ◌^◌, length, false, List, [], ◌∷◌};
ghost use Rattle.fields.specs.Between.Reading.{has_line_end};

use fields::lines::{skip_line, strip_line};

// The bytes that are left; the tape, at whose front the numbers kept stand; how many lines and numbers were read; and
// the first line that no sheet can say.
#[derive(Drop)]
pub struct Reader<'a> {
    pub rest: &'a [u8],
    pub tape: &'a mut [u32],
    pub line: usize,
    pub count: usize,
    pub barred: Option<usize>,
    // A number has a byte, and another one behind it: the tape has room for those that are left.
    ghost room: { 2 * count + length rest.now ≤ 2 * length tape.now },
    // A line has a byte, its line end.
    ghost lines: { line + length rest.now < 2 ^ 63 },
}

// What reads lines answers Ok where each is what it must be; or Err with the number of the first that is not, from 1.
impl<'a> Reader<'a> {
    ghost use Rattle.form.specs.Between.Form.{keyword as due_keyword, name as due_name, Due, times};
    ghost use Rattle.form.specs.Between.Reading.{stand, starting, passed, keeping, noting, Reads, AlwaysReads};
    ghost use Rattle.form.specs.Between.Reading.{FindsSame, AlwaysFindsSame};

    // At the beginning of a text.
    pub fn start(text: &'a [u8], tape: &'a mut [u32]) -> Reader<'a>
        requires { length text.now ≤ 2 * length tape.old }
        ensures { stand result ≡ starting text.now tape.old tape.entry.ref_ptr }
    {
        Reader {
            rest: text,
            tape,
            line: 0,
            count: 0,
            barred: None,
        }
    }

    // The number of the next line.
    pub fn next_line(&self) -> usize
        ensures { result ≡ self.now.line + 1 }
    {
        self.line + 1
    }

    // Goes past a line, with these bytes behind it.
    pub fn pass(&mut self, rest: &'a [u8])
        requires { length rest.now < length self.old.rest.now }
        ensures { stand self.new ≡ passed rest.now (stand self.old) }
    {
        self.rest = rest;
        self.line += 1;
    }

    // Keeps a number of the line that was passed last.
    pub fn keep(&mut self, number: u32)
        requires { 2 * (self.old.count + 1) + length self.old.rest.now ≤ 2 * length self.old.tape.now }
        ensures { stand self.new ≡ keeping number (stand self.old) }
    {
        self.tape[self.count] = number;
        self.count += 1;
    }

    // Notes the line that was passed last, if it is the first that no sheet can say.
    pub fn note(&mut self, bars: bool)
        ensures { stand self.new ≡ noting bars (stand self.old) }
    {
        self.barred = self.barred.or(bars.then_some(self.line));
    }

    // Reads a keyword.
    pub fn keyword(&mut self, word: &[u8]) -> Result<(), usize>
        requires { has_line_end word.now ≡ false }
        ensures { Reads (due_keyword word.now ∷ []) self.old result self.new }
    {
        let Some(rest) = strip_line(self.rest, word) else {
            return Err(self.next_line());
        };
        self.pass(rest);
        Ok(())
    }

    // Reads a name, which is any line.
    pub fn name(&mut self) -> Result<(), usize>
        ensures { Reads (due_name ∷ []) self.old result self.new }
    {
        let Some(rest) = skip_line(self.rest) else {
            return Err(self.next_line());
        };
        self.pass(rest);
        Ok(())
    }

    // Reads n times what `step` reads.
    pub fn repeat<F: Fn(&mut Reader<'a>) -> Result<(), usize>>(
        &mut self,
        n: usize,
        step: F,
    ) -> Result<(), usize>
        requires { F.IsAlwaysCallable step }
        ensures finds { (ds : List Due) → AlwaysFindsSame ds (F.post step)
            → FindsSame (times n ds) self.old result self.new }
        // With the tape that was there, where each step keeps it.
        ensures reads { (ds : List Due) → AlwaysReads ds (F.post step)
            → Reads (times n ds) self.old result self.new }
    {
        for _ in 0..n {
            step(self)?;
        }
        Ok(())
    }
}
