//! Trees of any text: a completion repairs each error.
use crate::expectations::same;
use lrpar::repair::Completion;
use lrpar::{ParserData, RTParserBuilder};
use lrpar_lexer::{LexRule, RuleLexer};
use std::alloc::Global;
use std::io::Write;
use std::process::Abort;
use std::test::Fail as Failed;

/// Writes the errors of a text with their repairs, and its tree, which there is whatever is wrong with the text.
fn complete<W: Write>(
    alloc: Global,
    data: &ParserData<u32>,
    rules: &[LexRule],
    input: &str,
    out: &mut W,
) -> Result<(), Failed> {
    let parser = RTParserBuilder::new(data).recoverer(Completion::new(alloc, data)?);
    let lexer = RuleLexer::new(alloc, rules, input)?;
    let (tree, errors) = parser.parse_generictree(alloc, &lexer)?;
    for error in &errors {
        writeln!(out, "{}", error.message(alloc, data.grm(), &lexer)?)?;
    }
    if let Some(tree) = &tree {
        tree.write(alloc, data.grm(), input, out)?;
    }
    Ok(())
}

// Texts, and what is shown of each: a value and a sign are missing; a value and all that comes after it; and there is nothing to go on with.
const COMPLETED: [(&str, &str); 3] = [
    (
        "width = height = 80;",
        "Parsing error at line 1 column 9. Repair sequences found:\n   1: Insert NUMBER, Insert ;\nFile\n File\n  File\n  Setting\n   NAME width\n   = =\n   Value\n    NUMBER \n   ; \n Setting\n  NAME height\n  = =\n  Value\n   NUMBER 80\n  ; ;\n",
    ),
    (
        "width =",
        "Parsing error at line 1 column 8. Repair sequences found:\n   1: Insert NUMBER, Insert ;\nFile\n File\n Setting\n  NAME width\n  = =\n  Value\n   NUMBER \n  ; \n",
    ),
    (
        "; 80 \"a\"",
        "Parsing error at line 1 column 1. Repair sequences found:\n   1: Delete ;, Delete 80, Delete \"a\"\nFile\n",
    ),
];

/// The texts of the language of settings are completed.
pub(crate) fn are_completed(
    rt: &impl Abort,
    alloc: Global,
    data: &ParserData<u32>,
    rules: &[LexRule],
) -> Result<(), Failed> {
    for (input, expected) in COMPLETED {
        let mut found = Vec::new(alloc);
        complete(alloc, data, rules, input, &mut found)?;
        same(rt, &input, &found.as_slice(), &expected.as_bytes());
    }
    Ok(())
}
