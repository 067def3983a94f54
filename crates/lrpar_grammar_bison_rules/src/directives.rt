//! The directives of a `.y` file.
ghost use Rattle.std.specs.Prelude.{◌≡◌};
ghost use Rattle.lrpar_grammar_bison_rules.specs.Directives.{code_directive, directive_named, is_flag, other_directive, symbols_directive, text_directive};

use lrpar_table_precedence::precedence::AssocKind;

/// What comes after a directive.
#[derive(Clone, Copy, Debug, PartialEq, Eq)]
pub enum Directive {
    /// Start rules: `%start`.
    Start,
    /// Tokens, each perhaps with a number and a text: `%token`.
    Token,
    /// Rules: `%nterm`.
    Nonterminal,
    /// Symbols of a type: `%type`.
    Types,
    /// The tokens of a level of precedence: `%left` and its like.
    Level(AssocKind),
    /// Code, and the symbols and types that it is for: `%destructor`, `%printer`.
    Properties,
    /// Code, perhaps after a name: `%code`, `%union`.
    NamedCode,
    /// Code: `%initial-action`.
    Code,
    /// Code, once or more often: `%param` and its like.
    Params,
    /// A variable, and perhaps a value: `%define`.
    Define,
    /// A text: `%require` and its like.
    Text,
    /// A text, perhaps after `=`: `%name-prefix` and its like.
    Prefix,
    /// Perhaps a text: `%header`.
    Header,
    /// Nothing: `%locations` and its like.
    Flag,
    /// Nothing. The parser follows each way out of a conflict: `%glr-parser`.
    Glr,
    /// Nothing. A production has the precedence of its last token: `%default-prec`; or has none without `%prec`: `%no-default-prec`.
    DefaultPrec(bool),
    /// A number of conflicts between a shift and a reduction: `%expect`.
    Expect,
    /// A number of conflicts between reductions: `%expect-rr`.
    ExpectRr,
    /// A symbol, from which the production has its precedence: `%prec`.
    Prec,
    /// Nothing. The production has no symbols: `%empty`.
    Empty,
    /// A number: `%dprec`.
    Dprec,
    /// A type: `%merge`.
    Merge,
}

/// The directive of bison with that name, which is without `%`.
pub fn directive_named(name: &str) -> Option<Directive>
    ensures { result ≡ directive_named name.now }
{
    symbols_directive(name)
        .or(code_directive(name))
        .or(text_directive(name))
        .or(other_directive(name))
}

// A directive before symbols.
fn symbols_directive(name: &str) -> Option<Directive>
    ensures { result ≡ symbols_directive name.now }
{
    match name {
        "token" | "term" => Some(Directive::Token),
        "type" => Some(Directive::Types),
        "start" => Some(Directive::Start),
        "nterm" => Some(Directive::Nonterminal),
        "left" => Some(Directive::Level(AssocKind::Left)),
        "right" => Some(Directive::Level(AssocKind::Right)),
        "nonassoc" | "binary" => Some(Directive::Level(AssocKind::Nonassoc)),
        "precedence" => Some(Directive::Level(AssocKind::Undeclared)),
        "prec" => Some(Directive::Prec),
        _ => None,
    }
}

// A directive before code.
fn code_directive(name: &str) -> Option<Directive>
    ensures { result ≡ code_directive name.now }
{
    match name {
        "union" | "code" => Some(Directive::NamedCode),
        "destructor" | "printer" => Some(Directive::Properties),
        "param" | "parse-param" | "lex-param" => Some(Directive::Params),
        "initial-action" => Some(Directive::Code),
        _ => None,
    }
}

// A directive before a variable or a text.
fn text_directive(name: &str) -> Option<Directive>
    ensures { result ≡ text_directive name.now }
{
    match name {
        "define" => Some(Directive::Define),
        "require" | "language" | "skeleton" => Some(Directive::Text),
        "name-prefix" | "name_prefix" | "file-prefix" | "output" => Some(Directive::Prefix),
        "header" | "defines" => Some(Directive::Header),
        _ => None,
    }
}

// A directive before a number or a type, or one before nothing.
fn other_directive(name: &str) -> Option<Directive>
    ensures { result ≡ other_directive name.now }
{
    match name {
        "empty" => Some(Directive::Empty),
        "dprec" => Some(Directive::Dprec),
        "merge" => Some(Directive::Merge),
        "expect" => Some(Directive::Expect),
        "expect-rr" | "expect_rr" => Some(Directive::ExpectRr),
        "default-prec" | "default_prec" => Some(Directive::DefaultPrec(true)),
        "no-default-prec" | "no_default_prec" => Some(Directive::DefaultPrec(false)),
        "glr-parser" | "nondeterministic-parser" => Some(Directive::Glr),
        _ if is_flag(name) => Some(Directive::Flag),
        _ => None,
    }
}

// Whether the directive says nothing of the grammar, and nothing comes after it.
fn is_flag(name: &str) -> bool
    ensures { result ≡ is_flag name.now }
{
    matches!(
        name,
        "locations"
            | "debug"
            | "verbose"
            | "yacc"
            | "no-lines"
            | "no_lines"
            | "token-table"
            | "token_table"
            | "pure-parser"
            | "pure_parser"
            | "error-verbose"
            | "error_verbose"
            | "fixed-output-files"
            | "fixed_output_files"
    )
}
