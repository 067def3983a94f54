//! The shape of a grammar text: declarations, `%%`, rules, an optional second `%%`, the end.
ghost use Rattle.std.specs.Prelude.{◌≡◌};
ghost use Rattle.lrpar_grammar_words.specs.WordOrder.{after, colon, declaration, may_end, more_tokens, named, next_rule, quoted, symbol, token};

use crate::words::WordKind;

/// What is allowed next in a grammar text.
#[derive(Clone, Copy)]
pub enum Expected {
    /// A declaration, or the first `%%`.
    Declaration,
    /// The name of the start rule.
    StartName,
    /// The first token after `%token`.
    FirstToken,
    /// One more token, a declaration, or the first `%%`.
    MoreTokens,
    /// The token of an `%epp`.
    EppName,
    /// The printed text of an `%epp`.
    EppText,
    /// A rule, the second `%%`, or the end.
    NextRule,
    /// The `:` of a rule.
    RuleColon,
    /// A symbol, or what ends an alternative.
    NextSymbol,
    /// The end.
    TextEnd,
}

/// The role of a word in a grammar text.
#[derive(Clone, Copy)]
pub enum Role {
    /// A sign that only says what comes after it.
    Sign,
    /// The start rule.
    Start,
    /// A token that is declared.
    Declared,
    /// The token whose printed text comes next.
    EppOf,
    /// A printed text.
    Epp,
    /// A rule that is defined.
    Defined,
    /// A symbol of an alternative.
    Symbol,
    /// The `|` or `;` that ends an alternative.
    AlternativeEnd,
}

impl Expected {
    /// The role of a word of that kind here, and what is allowed after it: `None` if no such word is allowed here.
    #[tactic(auto, unfolding(crate::specs::WordOrder::after))]
    pub fn after(self, kind: WordKind) -> Option<(Role, Expected)>
        ensures { result ≡ after self kind }
    {
        match self {
            Expected::Declaration => declaration(kind),
            Expected::StartName => named(kind, Role::Start, Expected::Declaration),
            Expected::FirstToken => token(kind, Role::Declared, Expected::MoreTokens),
            Expected::MoreTokens => more_tokens(kind),
            Expected::EppName => token(kind, Role::EppOf, Expected::EppText),
            Expected::EppText => quoted(kind, Role::Epp, Expected::Declaration),
            Expected::NextRule => next_rule(kind),
            Expected::RuleColon => colon(kind),
            Expected::NextSymbol => symbol(kind),
            Expected::TextEnd => None,
        }
    }

    // Whether the text may end here.
    pub(crate) fn may_end(self) -> bool
        ensures { result ≡ may_end self }
    {
        match self {
            Expected::NextRule | Expected::TextEnd => true,
            _ => false,
        }
    }
}

// A declaration, or the first `%%`.
fn declaration(kind: WordKind) -> Option<(Role, Expected)>
    ensures { result ≡ declaration kind }
{
    match kind {
        WordKind::StartSign => Some((Role::Sign, Expected::StartName)),
        WordKind::TokenSign => Some((Role::Sign, Expected::FirstToken)),
        WordKind::EppSign => Some((Role::Sign, Expected::EppName)),
        WordKind::RulesSign => Some((Role::Sign, Expected::NextRule)),
        _ => None,
    }
}

// A name with that role, followed by `next`.
fn named(kind: WordKind, role: Role, next: Expected) -> Option<(Role, Expected)>
    ensures { result ≡ named kind role next }
{
    match kind {
        WordKind::Name => Some((role, next)),
        _ => None,
    }
}

// A name or a quoted word with that role, followed by `next`.
fn token(kind: WordKind, role: Role, next: Expected) -> Option<(Role, Expected)>
    ensures { result ≡ token kind role next }
{
    match kind {
        WordKind::Name | WordKind::Quoted => Some((role, next)),
        _ => None,
    }
}

// A quoted word with that role, followed by `next`.
fn quoted(kind: WordKind, role: Role, next: Expected) -> Option<(Role, Expected)>
    ensures { result ≡ quoted kind role next }
{
    match kind {
        WordKind::Quoted => Some((role, next)),
        _ => None,
    }
}

// One more token, a declaration, or the first `%%`.
fn more_tokens(kind: WordKind) -> Option<(Role, Expected)>
    ensures { result ≡ more_tokens kind }
{
    match kind {
        WordKind::Name | WordKind::Quoted => Some((Role::Declared, Expected::MoreTokens)),
        _ => declaration(kind),
    }
}

// A rule, or the second `%%`.
fn next_rule(kind: WordKind) -> Option<(Role, Expected)>
    ensures { result ≡ next_rule kind }
{
    match kind {
        WordKind::RulesSign => Some((Role::Sign, Expected::TextEnd)),
        _ => named(kind, Role::Defined, Expected::RuleColon),
    }
}

// The `:` of a rule.
fn colon(kind: WordKind) -> Option<(Role, Expected)>
    ensures { result ≡ colon kind }
{
    match kind {
        WordKind::Colon => Some((Role::Sign, Expected::NextSymbol)),
        _ => None,
    }
}

// A symbol, or what ends an alternative.
fn symbol(kind: WordKind) -> Option<(Role, Expected)>
    ensures { result ≡ symbol kind }
{
    match kind {
        WordKind::Bar => Some((Role::AlternativeEnd, Expected::NextSymbol)),
        WordKind::Semicolon => Some((Role::AlternativeEnd, Expected::NextRule)),
        _ => token(kind, Role::Symbol, Expected::NextSymbol),
    }
}
