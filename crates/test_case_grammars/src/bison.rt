//! Words of `.y` files as bison reads them, or where reading is stuck.
use lrpar_grammar_bison::word_list::{WordsFault, read_words};
use std::alloc::Global;
use test_case_lines::cases::Case;
use test_case_lines::fault::Fault;
use test_case_lines::printed::Printed;

/// The keys that say what is done.
pub const INPUTS: &[&str] = &["file"];

/// A line for each word of the file: its kind, its place, and its name; or the place where reading is stuck, and what begins there.
pub fn outcome(out: &mut Printed, alloc: Global, case: Case<'_, '_>) -> Result<(), Fault> {
    let file = case.text(alloc, "file")?;
    match read_words(alloc, file.as_str()) {
        Ok(words) => {
            for word in &words {
                out.text("word ");
                out.debug(&word.kind);
                push_place(out, word.span().start(), word.span().end());
                push_name(out, word.name);
            }
        }
        Err(WordsFault::Unread(place, what)) => {
            out.number("unread ", place);
            out.text(" ");
            out.debug(&what);
            out.text("\n");
        }
        Err(WordsFault::Memory) => out.lack_memory(),
    }
    Ok(())
}

// Adds the place of a word.
fn push_place(out: &mut Printed, start: usize, end: usize) {
    out.number(" ", start);
    out.number("..", end);
}

// Adds the name of a word, if it has one, and the end of the line.
fn push_name(out: &mut Printed, name: &str) {
    if !name.is_empty() {
        out.text(" ");
        out.debug(&name);
    }
    out.text("\n");
}
