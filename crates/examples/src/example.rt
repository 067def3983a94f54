//! The examples by their names.
use crate::language::Failed;
use crate::{calculator, completer, formatter, linter, queries};
use std::alloc::Global;

/// An example: what it prints of a text.
#[derive(Clone, Copy)]
pub(crate) enum Example {
    Calculator,
    Completer,
    Formatter,
    Linter,
    Queries,
}

impl Example {
    /// The example that the first of the words names.
    pub(crate) fn of_words(words: &[String]) -> Option<Example> {
        match words.first()?.as_str() {
            "calculator" => Some(Example::Calculator),
            "completer" => Some(Example::Completer),
            "formatter" => Some(Example::Formatter),
            "linter" => Some(Example::Linter),
            "queries" => Some(Example::Queries),
            _ => None,
        }
    }

    /// What the example prints of the text.
    pub(crate) fn output(self, alloc: Global, text: &str) -> Result<String, Failed> {
        match self {
            Example::Calculator => calculator::run(alloc, text),
            Example::Completer => completer::run(alloc, text),
            Example::Formatter => formatter::run(alloc, text),
            Example::Linter => linter::run(alloc, text),
            Example::Queries => queries::run(alloc, text),
        }
    }
}
