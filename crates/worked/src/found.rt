// What the services find of a list, as a line. What is put into it is held to the program's stored output alone.
use crate::lists::LONGEST;
use landmark::marks::marks_mask;
use lines::Page;
use minimal::reduce::minimal_reduction;
use plan::check::check_plan;
use program::output::{LINE, put_refusal, put_tally, write_text};

// How many steps are not marked. No more are marked than there are.
fn unmarked(words: &[u32], plan: &[u32]) -> usize {
    let marked = match marks_mask(words, plan) {
        Ok(mask) => mask.count(),
        Err(_) => 0,
    };
    plan.len().saturating_sub(marked as usize)
}

// Puts the list as it was lodged, where it is valid.
fn put_lodged(page: &mut Page, words: &[u32], plan: &[u32]) {
    if let Ok(checked) = check_plan(words, plan) {
        let tally = checked.tally;
        page.text(b"lodged");
        page.spaced(&[tally.steps, tally.cost]);
        page.text(b", unmarked");
        page.spaced(&[unmarked(words, plan) as u64]);
        page.text(b", ");
    }
}

// Puts what is kept of it, or the refusal.
fn put_kept(page: &mut Page, words: &[u32], plan: &[u32]) {
    let mut left = [0u32; LONGEST];
    match minimal_reduction(words, plan, &mut left) {
        Ok(shortened) => put_tally(page, b"kept", shortened.left.tally),
        Err(refusal) => put_refusal(page, refusal),
    }
}

// Prints a line: which list it is, by its name and a number, and what is found of it.
pub(crate) fn print_found(
    rt: &(impl Print + Eprint),
    name: &[u8],
    number: u64,
    words: &[u32],
    plan: &[u32],
) {
    let mut line = [0u8; 3 * LINE];
    let mut page = Page::new(&mut line);
    page.text(name);
    page.spaced(&[number]);
    page.text(b": ");
    put_lodged(&mut page, words, plan);
    put_kept(&mut page, words, plan);
    write_text(rt, page.written());
}
