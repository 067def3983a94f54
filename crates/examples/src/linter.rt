//! A linter of JSON: reports of the errors of a text, with fixes, and of keys that are twice in an object; and how deep the text nests.
use crate::language::{Failed, push_reports};
use lrpar::repair::CpctPlus;
use lrpar::span::TextRange;
use lrpar::{Lexeme, Lexer, RTParserBuilder};
use lrpar_language::{Language, LanguageTexts};
use lrpar_lexer::RuleLexer;
use lrpar_report::{Look, Report, Reporter};
use std::alloc::{AllocError, Global};
use std::collections::BTreeMap;

const GRAMMAR: &str = "%% Value: Object | Array | 'STRING' | 'NUMBER' | 'true' | 'false' | 'null';
    Object: '{' '}' | '{' Members '}';
    Members: Member | Members ',' Member;
    Member: 'STRING' ':' Value;
    Array: '[' ']' | '[' Values ']';
    Values: Value | Values ',' Value;";

const LEXER: &str = r#"
    "([^"\\]|\\.)*" 'STRING'
    -?[0-9]+(\.[0-9]+)?([eE][-+]?[0-9]+)? 'NUMBER'
    true 'true'
    false 'false'
    null 'null'
    \{ '{'
    \} '}'
    \[ '['
    \] ']'
    , ','
    : ':'
    [ \t\r\n]+ ;"#;

// Names of tokens and rules, and a message for each error that a text can have.
const MESSAGES: &str = "
Value: a value
Member: a member
STRING: a string
NUMBER: a number

%%

$
    expected a value, not {found}

'{' $
    expected the name of a member or '}' after '{', not {found}

'{' 'STRING' $
    expected ':' and a value after the name {before}, not {found}

'{' 'STRING' ':' $
    expected a value after ':', not {found}

'{' 'STRING' ':' 'STRING' ',' $
    expected another member after ',', not {found}

'[' $
    expected a value or ']' after '[', not {found}

'[' 'STRING' ',' $
    expected another value after ',', not {found}

// After a value may come the end of the text, or what goes on with a list or an object.
'STRING' ']'
    expected {expected} after {before}, not {found}

'NUMBER' ']'
    expected {expected} after {before}, not {found}

'true' ']'
    expected {expected} after {before}, not {found}

'false' ']'
    expected {expected} after {before}, not {found}

'null' ']'
    expected {expected} after {before}, not {found}

'{' '}' ']'
    expected {expected} after {before}, not {found}

'[' ']' ']'
    expected {expected} after {before}, not {found}

'{' 'STRING' ':' 'STRING' '}' ']'
    expected {expected} after {before}, not {found}

'[' 'STRING' ']' ']'
    expected {expected} after {before}, not {found}
";

/// The reports about the text, on its errors and on what its lexemes show.
pub(crate) fn run(alloc: Global, text: &str) -> Result<String, Failed> {
    let texts = LanguageTexts {
        grammar: GRAMMAR,
        lexer: LEXER,
        messages: MESSAGES,
    };
    lint(alloc, &Language::new(alloc, texts)?, text)
}

fn lint(alloc: Global, json: &Language, text: &str) -> Result<String, Failed> {
    let lexer = json.lexer(alloc, text)?;
    let errors = RTParserBuilder::new(json.data())
        .recoverer(CpctPlus::new(10_000))
        .parse_noaction(alloc, &lexer)?;
    let reports = json.error_reports(alloc, text, &errors)?;
    let mut out = String::new(alloc);
    push_reports(&mut out, alloc, "input", text, &reports)?;
    push_lints(&mut out, alloc, &lexer, text)?;
    Ok(out)
}

// Adds a warning for each key that its object already has, and a line for how deep the lexemes nest.
fn push_lints<'a>(
    out: &mut String,
    alloc: Global,
    lexer: &RuleLexer<'_, 'a>,
    text: &'a str,
) -> Result<(), AllocError> {
    let reporter = Reporter::new(alloc, text, "input", Look::Plain)?;
    // The keys so far of each object and array that is open, with their places.
    let mut open = Vec::new(alloc);
    let mut deepest = 0usize;
    let mut last = TextRange::new(0, 0);
    for lexeme in lexer.iter(alloc)? {
        let Ok(lexeme) = lexeme else {
            continue;
        };
        let span = lexeme.span();
        match text.get(span.start()..span.end()).unwrap_or("") {
            "{" | "[" => open.push(BTreeMap::new(alloc))?,
            "}" | "]" => {
                let _ = open.pop();
            }
            ":" => {
                let key = text.get(last.start()..last.end()).unwrap_or("");
                push_key(out, alloc, &reporter, &mut open, key, last)?;
            }
            _ => {}
        }
        deepest = deepest.max(open.len());
        last = TextRange::from(span);
    }
    writeln!(out, "depth {deepest}")?;
    Ok(())
}

// Keeps a key in the innermost object. Adds a warning if the object already has it.
fn push_key<'a>(
    out: &mut String,
    alloc: Global,
    reporter: &Reporter<'_>,
    open: &mut [BTreeMap<&'a str, TextRange>],
    key: &'a str,
    range: TextRange,
) -> Result<(), AllocError> {
    let Some(keys) = open.last_mut() else {
        return Ok(());
    };
    match keys.insert(key, range)? {
        Some(first) => push_repeated(out, alloc, reporter, key, range, first),
        None => Ok(()),
    }
}

// Adds the warning of a key that its object already has, at another place.
fn push_repeated(
    out: &mut String,
    alloc: Global,
    reporter: &Reporter<'_>,
    key: &str,
    range: TextRange,
    first: TextRange,
) -> Result<(), AllocError> {
    let message = format!(in alloc; "this object already has the key {key}")?;
    let report = Report::warning(alloc, message.as_str())?
        .label(range.span(), "the second one")?
        .label(first.span(), "the first one")?;
    reporter.push(out, alloc, &report)
}
