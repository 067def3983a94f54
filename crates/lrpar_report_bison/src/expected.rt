//! What is allowed at a place of a `.y` file, in words.
use lrpar_grammar_bison_rules::word_order::{Before, Expected, Section, SymbolList};

/// Whether a rule or an alternative may go on here.
pub(crate) fn is_in_rules(expected: Expected) -> bool {
    begins_rules(expected) || expected.is_in_alternative()
}

/// Whether a rule may begin here.
pub(crate) fn begins_rules(expected: Expected) -> bool {
    matches!(expected, Expected::Rule | Expected::RuleOrAlternative)
}

/// Whether the first `%%` may be here.
pub(crate) fn lacks_sections(expected: Expected) -> bool {
    match expected {
        Expected::Declaration
        | Expected::MoreParams
        | Expected::DefineValue
        | Expected::OptionalText => true,
        Expected::List(Section::Declarations, _, before) => {
            !matches!(before, Before::Directive | Before::Tag)
        }
        _ => false,
    }
}

/// What is allowed, in words.
pub(crate) fn expected_text(expected: Expected) -> &'static str {
    match expected {
        Expected::Declaration => "expected a declaration or %%",
        Expected::List(section, list, before) => list_text(section, list, before),
        Expected::PropertiesCode(_) => "expected code in braces, and then symbols or types",
        Expected::NameOrCode(_) => "expected code in braces, perhaps after a name",
        Expected::Code(_) | Expected::FirstParam => "expected code in braces",
        Expected::MoreParams => "expected code in braces, a declaration or %%",
        Expected::DefineName => "expected the name of a variable",
        Expected::DefineValue => "expected a value, a declaration or %%",
        Expected::TextOrEquals => "expected a text in double quotes, perhaps after '='",
        Expected::PlainText => "expected a text in double quotes",
        Expected::OptionalText => "expected a text in double quotes, a declaration or %%",
        Expected::ExpectNumber | Expected::ExpectRrNumber => "expected a number of conflicts",
        Expected::DeclarationEnd => "expected ';' after a declaration among the rules",
        _ => rule_text(expected),
    }
}

// What is allowed in rules, in words.
fn rule_text(expected: Expected) -> &'static str {
    match expected {
        Expected::Rule => "expected a rule, a declaration or %%",
        Expected::RuleOrAlternative => "expected '|', ';', a rule, a declaration or %%",
        Expected::RuleColon => "expected ':' after the name of a rule",
        Expected::Symbol => "expected a symbol, an action, '|', ';' or the next rule",
        Expected::SymbolOrLabel => "expected a symbol, an action, '|', ';' or the next rule",
        Expected::TypedAction => "expected an action in braces after its type",
        Expected::PrecName => "expected a token after %prec",
        Expected::Number => "expected a number",
        Expected::MergeType => "expected a type between '<' and '>'",
        _ => "expected the end of the grammar",
    }
}

// What is allowed in a list of symbols, in words.
fn list_text(section: Section, list: SymbolList, before: Before) -> &'static str {
    match (before, section) {
        (Before::Directive, _) => first_text(list),
        (Before::Tag, _) => "expected a symbol of this type",
        (_, Section::Declarations) => "expected one more symbol, a declaration or %%",
        (_, Section::Rules) => "expected one more symbol, or ';' after the declaration",
    }
}

// What is allowed at the start of a list of symbols, in words.
fn first_text(list: SymbolList) -> &'static str {
    match list {
        SymbolList::Starts => "expected the name of a rule",
        SymbolList::Tokens | SymbolList::Level => "expected a token or a type",
        SymbolList::Nonterminals => "expected the name of a rule, or a type",
        SymbolList::Types | SymbolList::Properties => "expected a symbol or a type",
    }
}
