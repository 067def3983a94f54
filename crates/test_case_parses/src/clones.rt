//! Clones of errors and of trees.
use crate::shown::{CaseError, Tree};
use lrpar_lexer::Token;
use lrpar_parse_errors::errors::{LexParseError, ParseError};
use std::alloc::Global;
use test_case_lines::printed::Printed;

/// Adds for each parse error whether its clone equals it.
pub(crate) fn push_clones_of_errors(out: &mut Printed, errors: &[CaseError]) {
    for error in errors {
        if let LexParseError::ParseError(error) = error {
            push_clone_of_error(out, error);
        }
    }
}

// Adds whether the error's clone equals it.
fn push_clone_of_error(out: &mut Printed, error: &ParseError<Token<u32>, u32>) {
    match error.clone() {
        Ok(copy) => push_clone(out, "error", copy == *error),
        Err(_) => out.lack_memory(),
    }
}

/// Adds whether the tree's clone equals it.
pub(crate) fn push_clone_of_tree(out: &mut Printed, alloc: Global, tree: &Tree) {
    match tree.clone(alloc) {
        Ok(copy) => push_clone(out, "tree", copy == *tree),
        Err(_) => out.lack_memory(),
    }
}

// Adds what was cloned, and whether the clone equals it.
fn push_clone(out: &mut Printed, original: &str, is_equal: bool) {
    out.texts("clone ", original);
    out.text(if is_equal { ": equal\n" } else { ": differs\n" });
}
