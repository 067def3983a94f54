//! A formatter of settings: one a line, with one space at each side of `=`; or the errors of the text, if it has any.
use crate::language::{Failed, language_of, push_reports};
use lrpar::{Lexeme, Lexer, RTParserBuilder};
use lrpar_language::Language;
use lrpar_lexer::RuleLexer;
use std::alloc::Global;

const GRAMMAR: &str =
    "%% File: | File Setting; Setting: 'NAME' '=' Value ';'; Value: 'NUMBER' | 'TEXT';";

const LEXER: &str = r#"
    [a-z_]+ 'NAME'
    = '='
    ; ';'
    [0-9]+ 'NUMBER'
    "[^"]*" 'TEXT'
    [ \t\r\n]+ ;"#;

/// The settings of the text, one a line; or its errors.
pub(crate) fn run(alloc: Global, text: &str) -> Result<String, Failed> {
    let settings = language_of(alloc, GRAMMAR, LEXER)?;
    format(alloc, &settings, text)
}

fn format(alloc: Global, settings: &Language, text: &str) -> Result<String, Failed> {
    let lexer = settings.lexer(alloc, text)?;
    let errors = RTParserBuilder::new(settings.data()).parse_noaction(alloc, &lexer)?;
    let mut out = String::new(alloc);
    if errors.is_empty() {
        push_settings(&mut out, alloc, &lexer, text)?;
    } else {
        let reports = settings.error_reports(alloc, text, &errors)?;
        push_reports(&mut out, alloc, "input", text, &reports)?;
    }
    Ok(out)
}

// Adds the settings of a text that has no error.
fn push_settings(
    out: &mut String,
    alloc: Global,
    lexer: &RuleLexer<'_, '_>,
    text: &str,
) -> Result<(), Failed> {
    for lexeme in lexer.iter(alloc)? {
        let Ok(lexeme) = lexeme else {
            continue;
        };
        let span = lexeme.span();
        out.push_str(match text.get(span.start()..span.end()).unwrap_or("") {
            "=" => " = ",
            ";" => ";\n",
            word => word,
        })?;
    }
    Ok(())
}
