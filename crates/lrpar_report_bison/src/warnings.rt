//! What to warn of in `.y` files that bison takes.
use crate::names::rules_of;
use crate::repeated::push_repeated;
use crate::seen::{Seen, words_seen};
use crate::words::push_word;
use lrpar_grammar_bison::words::{Word, WordKind};
use lrpar_grammar_bison_parts::ends::end_in_rules;
use lrpar_grammar_bison_parts::symbols::alias_map;
use lrpar_grammar_bison_rules::directives::Directive;
use lrpar_grammar_bison_rules::rules::FileRules;
use lrpar_grammar_bison_rules::signs::Sign;
use lrpar_grammar_bison_rules::word_order::{Expected, Role, SymbolList};
use lrpar_report_lines::Report;
use std::alloc::{AllocError, Global};
use std::collections::BTreeMap;

/// A warning for each thing in a `.y` file that bison takes and warns of: old directives, those that only a GLR parser has a use for, tokens
/// and texts that are declared again, and declared names that are no symbols. Conflicts and rules of no use aren't among them, nor is what
/// depends on types. One more is of the token of the end in a rule, which for bison is the end itself.
///
/// Takes time linear in the text, but for names: each is looked up in logarithmic time. `Err`: out of memory.
pub fn bison_warnings(alloc: Global, text: &str) -> Result<Vec<Report>, AllocError> {
    let seen = words_seen(alloc, text)?;
    let mut reports = Vec::new(alloc);
    push_directives(&mut reports, alloc, &seen)?;
    push_repeated(&mut reports, alloc, &seen)?;
    push_unknown_names(&mut reports, alloc, &seen)?;
    push_end(&mut reports, alloc, text)?;
    Ok(reports)
}

// Adds a warning for each directive that is old, or that only a GLR parser has a use for.
fn push_directives(
    reports: &mut Vec<Report>,
    alloc: Global,
    seen: &[Seen<'_>],
) -> Result<(), AllocError> {
    let is_glr = seen.iter().any(|one| matches!(one.role, Role::Glr));
    let mut before = "";
    for one in seen {
        if let Some(instead) = new_directive(one) {
            reports.push(old_directive(alloc, one, instead)?)?;
        }
        if is_old_equals(one, before) {
            reports.push(old_equals(alloc, one, before)?)?;
        }
        if !is_glr && is_for_glr(one.sign) {
            reports.push(glr_directive(alloc, one)?)?;
        }
        before = one.word.name;
    }
    Ok(())
}

// What bison has in place of the word, if that is an old directive.
fn new_directive(one: &Seen<'_>) -> Option<&'static str> {
    if !matches!(one.sign, Sign::Directive(_)) {
        return None;
    }
    match one.word.name {
        "pure-parser" | "pure_parser" => Some("%define api.pure"),
        "error-verbose" | "error_verbose" => Some("%define parse.error verbose"),
        "name-prefix" | "name_prefix" => Some("%define api.prefix {..}"),
        "fixed-output-files" | "fixed_output_files" => Some("%output \"y.tab.c\""),
        "no_lines" => Some("%no-lines"),
        "token_table" => Some("%token-table"),
        "default_prec" => Some("%default-prec"),
        "no_default_prec" => Some("%no-default-prec"),
        "expect_rr" => Some("%expect-rr"),
        _ => None,
    }
}

// The warning of an old directive.
fn old_directive(alloc: Global, one: &Seen<'_>, instead: &str) -> Result<Report, AllocError> {
    let name = one.word.name;
    let message = format!(in alloc; "directive '%{name}' is deprecated")?;
    let label = format!(in alloc; "use {instead}")?;
    Report::warning(alloc, message.as_str())?.label(one.word.span(), label.as_str())
}

// Whether the word is an `=` that has gone out of use, after the directive of that name.
fn is_old_equals(one: &Seen<'_>, before: &str) -> bool {
    matches!(one.sign, Sign::Other(WordKind::Equals)) && matches!(before, "file-prefix" | "output")
}

// The warning of such an `=`.
fn old_equals(alloc: Global, one: &Seen<'_>, before: &str) -> Result<Report, AllocError> {
    let message = format!(in alloc; "'=' after '%{before}' is deprecated")?;
    Report::warning(alloc, message.as_str())?.label(one.word.span(), "leave it out")
}

// Whether only a GLR parser has a use for it.
fn is_for_glr(sign: Sign) -> bool {
    matches!(
        sign,
        Sign::Directive(Directive::Dprec | Directive::Merge | Directive::ExpectRr)
    )
}

// The warning of a directive that only a GLR parser has a use for.
fn glr_directive(alloc: Global, one: &Seen<'_>) -> Result<Report, AllocError> {
    let name = one.word.name;
    let message = format!(in alloc; "directive '%{name}' is for GLR parsers alone")?;
    let label = "leave it out, or declare %glr-parser";
    Report::warning(alloc, message.as_str())?.label(one.word.span(), label)
}

// Adds a warning for each name in %type, %nterm, %destructor and %printer that is no token and that no rule has, at its first place.
fn push_unknown_names(
    reports: &mut Vec<Report>,
    alloc: Global,
    seen: &[Seen<'_>],
) -> Result<(), AllocError> {
    let mut known = BTreeMap::new(alloc);
    for one in seen {
        if is_symbol_role(one.role) {
            known.insert(one.word.name, ())?;
        }
    }
    for one in seen {
        if is_declared_name(one)
            && !is_of_bison(one.word.name)
            && !known.contains_key(one.word.name)
        {
            reports.push(unknown_name(alloc, one)?)?;
            known.insert(one.word.name, ())?;
        }
    }
    Ok(())
}

// Whether a word of that role is a token or a rule.
fn is_symbol_role(role: Role) -> bool {
    matches!(
        role,
        Role::Token | Role::LevelName | Role::Defined | Role::Item(_)
    )
}

// Whether the word is a name in a list of symbols that declares no token.
fn is_declared_name(one: &Seen<'_>) -> bool {
    let is_declared = matches!(
        one.expected,
        Expected::List(
            _,
            SymbolList::Types | SymbolList::Nonterminals | SymbolList::Properties,
            _
        )
    );
    is_declared && matches!(one.sign, Sign::Other(WordKind::Name))
}

// Whether the name is that of a token that needs no declaration.
fn is_of_bison(name: &str) -> bool {
    matches!(name, "error" | "YYUNDEF" | "YYEOF")
}

// The warning of a name that is no token, and that no rule has.
fn unknown_name(alloc: Global, one: &Seen<'_>) -> Result<Report, AllocError> {
    let mut message = String::new(alloc);
    push_word(&mut message, one.word.name)?;
    message.push_str(" is declared, but isn't used")?;
    let label = "it is no token, and no rule has this name";
    Report::warning(alloc, message.as_str())?.label(one.word.span(), label)
}

// Adds a warning for the first symbol of a rule that is the token of the end, if there is one.
fn push_end(reports: &mut Vec<Report>, alloc: Global, text: &str) -> Result<(), AllocError> {
    let Some(rules) = rules_of(alloc, text)? else {
        return Ok(());
    };
    if let Some(word) = end_word(alloc, &rules)? {
        reports.push(end_in_rule(alloc, word)?)?;
    }
    Ok(())
}

// The first symbol of a rule that is the token of the end.
fn end_word<'a>(alloc: Global, rules: &FileRules<'a>) -> Result<Option<Word<'a>>, AllocError> {
    let aliases = alias_map(alloc, &rules.aliases)?;
    Ok(end_in_rules(rules, &aliases))
}

// The warning of a symbol that is the token of the end.
fn end_in_rule(alloc: Global, word: Word<'_>) -> Result<Report, AllocError> {
    let mut message = String::new(alloc);
    push_word(&mut message, word.name)?;
    message.push_str(" is the end of the text, but a rule uses it")?;
    let label = "the parser needs it as a lexeme here";
    Report::warning(alloc, message.as_str())?.label(word.span(), label)
}
