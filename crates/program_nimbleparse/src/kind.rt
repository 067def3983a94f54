//! The kinds of grammar files, and how the kind of a file is found.
use lrpar_grammar_words::word_order::Expected;
use lrpar_grammar_yacc::parts::{PartKind, YaccKind};
use lrpar_grammar_yacc::steps::{StepKind, step_at};

/// How a grammar file is read.
#[derive(Clone, Copy, Debug, PartialEq, Eq)]
pub enum GrammarKind {
    /// As a grammar text, which has nothing else than a grammar.
    Profile,
    /// As a `.y` file of lrpar, of this kind.
    Yacc(YaccKind),
    /// As a `.y` file of bison or yacc.
    Bison,
    /// As a typed grammar.
    Typed,
}

// What files of bison have, and grammar texts and files of lrpar don't.
const BISON_SIGNS: [&str; 17] = [
    "%{",
    "%union",
    "%type",
    "%define",
    "%code",
    "%require",
    "%precedence",
    "%nterm",
    "%param",
    "%parse-param",
    "%lex-param",
    "%locations",
    "%pure",
    "%glr-parser",
    "%destructor",
    "%printer",
    "%token <",
];

/// Whether the text has something that only files of bison have.
pub(crate) fn looks_like_bison(text: &str) -> bool {
    BISON_SIGNS.iter().any(|sign| text.contains(*sign))
}

// What a text has that a grammar text doesn't have, as far as it can be read.
#[derive(Clone, Copy)]
struct Seen {
    has_types: bool,
    has_parts: bool,
}

/// The kind of a `.y` file by its look, if it has something that a grammar text doesn't have, before the place at which it can't be read on,
/// or there: `Grmtools` if a rule has a type, and `Original` otherwise.
pub(crate) fn kind_by_look(text: &str) -> Option<YaccKind> {
    if seen_by(YaccKind::Grmtools, text).has_types {
        Some(YaccKind::Grmtools)
    } else if seen_by(YaccKind::Original, text).has_parts {
        Some(YaccKind::Original)
    } else {
        None
    }
}

// What is seen in a text that is read as a `.y` file of this kind.
fn seen_by(kind: YaccKind, text: &str) -> Seen {
    let bytes = text.as_bytes();
    let mut seen = Seen {
        has_types: false,
        has_parts: false,
    };
    let mut expected = Expected::Declaration;
    let mut place = 0usize;
    for _ in 0..bytes.len() {
        let rest = bytes.get(place..).unwrap_or(&[]);
        let Some(step) = step_at(kind, expected, rest) else {
            return with_beginning(seen, expected, rest);
        };
        if let StepKind::Part(part) = step.kind {
            seen.has_parts = true;
            seen.has_types = seen.has_types || matches!(part, PartKind::RuleType);
        }
        expected = step.next;
        place = place.saturating_add(step.len);
    }
    seen
}

// What is seen, with what begins where the text can't be read on: a type, an action, `%prec` or `%grmtools` that isn't whole.
fn with_beginning(seen: Seen, expected: Expected, rest: &[u8]) -> Seen {
    let is_type = matches!(expected, Expected::RuleColon) && rest.starts_with(b"->");
    let is_part = match expected {
        Expected::NextSymbol => rest.starts_with(b"{") || rest.starts_with(b"%prec"),
        Expected::Declaration | Expected::MoreTokens => rest.starts_with(b"%grmtools"),
        _ => false,
    };
    Seen {
        has_types: seen.has_types || is_type,
        has_parts: seen.has_parts || is_type || is_part,
    }
}
