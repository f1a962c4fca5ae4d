// A task and its plan as lines of words, each part under a comment. A walk along the words gives each part those up to
// its end, so that every word is put once and in order, even where the task is wrong about its parts.
ghost use Rattle.std.specs.Prelude.{◌≡◌, List, [], ◌∷◌, ◌-◌};
ghost use Rattle.lines.specs.Puts.{Puts};
ghost use Rattle.word_rows.specs.Rows.{rows};
ghost use Rattle.sheet.specs.Layout.{variables as variables_of, offset, effect_end};
ghost use Rattle.layout.specs.Layout.{comment, Section, laid_out, action_title, action_section};
ghost use Rattle.layout.specs.Layout.{sections, list_sections, record_text};
ghost use Rattle.layout.specs.Between.Walk.{Goes, PutsPart, action_sections};

use lines::Page;
use sheet::group::{facts_of, goal as goal_of};
use sheet::layout::{PAIRS_AT, actions, start_at, variables};
use word_rows::put_rows;

// What stands before the title of a section.
const COMMENT: &[u8] = b"# ";

// Puts a comment.
fn put_comment(page: &mut Page, title: &[u8])
    ensures { Puts (comment title.now) page.old page.new }
{
    page.text(COMMENT);
    page.line(title, &[]);
}

// Puts the comment over an action.
fn put_action_comment(page: &mut Page, a: u32)
    ensures { Puts (comment (action_title a)) page.old page.new }
{
    page.text(COMMENT);
    page.text(b"action ");
    page.row(u64::from(a), &[]);
}

// A walk along words that puts them on a page: the words that are left, and the index of the first of them.
#[derive(Drop)]
struct Walk<'p, 'a, 'w> {
    page: &'p mut Page<'a>,
    words: &'w [u32],
    at: usize,
}

impl<'p, 'a, 'w> Walk<'p, 'a, 'w> {
    // Puts the words up to index `end`, in lines.
    fn part(&mut self, end: usize)
        ensures { PutsPart end self.old self.new }
    {
        let n = end.saturating_sub(self.at).min(self.words.len());
        let (part, left) = self.words.split_at(n);
        put_rows(self.page, part);
        self.words = left;
        self.at = self.at.max(end);
    }

    // Puts a part under its comment, up to word `end`.
    fn section(&mut self, title: &[u8], end: usize)
        ensures same { self.new.page.ghost_name ≡ self.old.page.ghost_name }
        ensures goes { (ss : List Section) → Goes (record { title = title.now; end = end } ∷ ss)
            self.old ss self.new }
    {
        put_comment(self.page, title);
        self.part(end);
    }

    // Puts the part of an action.
    fn action(&mut self, sheet: &[u32], a: u32)
        ensures same { self.new.page.ghost_name ≡ self.old.page.ghost_name }
        ensures goes { (ss : List Section) → Goes (action_section sheet.now a ∷ ss)
            self.old ss self.new }
    {
        put_action_comment(self.page, a);
        self.part(action_end(sheet, a));
    }

    // Puts the actions.
    fn actions(&mut self, sheet: &[u32])
        ensures same { self.new.page.ghost_name ≡ self.old.page.ghost_name }
        ensures goes { Goes (action_sections sheet.now) self.old [] self.new }
    {
        let title =
            b"actions: price, number of precondition facts, precondition facts, effect facts";
        self.section(title, 0);
        for a in 0..actions(sheet) {
            self.action(sheet, a as u32);
        }
    }

    // Puts the words that no section takes.
    fn rest(&mut self)
        ensures same { self.new.page.ghost_name ≡ self.old.page.ghost_name }
        ensures puts { Puts (rows self.old.words.now) self.old.page.now self.new.page.now }
    {
        let words = self.words;
        put_rows(self.page, words);
    }
}

// Where the part of an action ends, which its effect does too.
fn action_end(sheet: &[u32], a: u32) -> usize
    ensures { result ≡ effect_end sheet.now a }
{
    let facts = facts_of(sheet, a);
    let effects = facts.effects;
    effects.end
}

// Where the domain sizes begin, which end before the starting values and are as many as the variables.
fn domains_at(sheet: &[u32]) -> usize
    ensures { result ≡ offset sheet.now 1 - variables_of sheet.now }
{
    start_at(sheet).saturating_sub(variables(sheet))
}

// Puts a task.
fn put_task(page: &mut Page, sheet: &[u32])
    ensures { Puts (laid_out 0 (sections sheet.now) sheet.now) page.old page.new }
{
    let goal = goal_of(sheet);
    let mut walk = Walk {
        page,
        words: sheet,
        at: 0,
    };
    walk.section(b"edition, variables, actions, words of the sheet", PAIRS_AT);
    walk.section(b"where each part begins, and its length", domains_at(sheet));
    walk.section(b"domain sizes", start_at(sheet));
    walk.section(b"starting values", goal.at);
    walk.section(b"goal facts, each variable * 256 + value", goal.end);
    walk.actions(sheet);
    walk.rest();
}

// Puts a plan behind its length.
fn put_list(page: &mut Page, list: &[u32])
    ensures { Puts (laid_out 0 (list_sections list.now) list.now) page.old page.new }
{
    let mut walk = Walk {
        page,
        words: list,
        at: 0,
    };
    walk.section(b"length of the list", 1);
    walk.section(b"list", list.len());
    walk.rest();
}

// Puts a task of so many words, and the plan behind it.
pub(crate) fn put_record(page: &mut Page, words: &[u32], task: usize)
    ensures { Puts (record_text task words.now) page.old page.new }
{
    let (sheet, list) = words.split_at(task.min(words.len()));
    put_task(page, sheet);
    put_list(page, list);
}
