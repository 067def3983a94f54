//! The shape of a `.y` file: declarations, `%%`, rules and declarations, an optional second `%%`.
ghost use Rattle.std.specs.Prelude.{◌≡◌};
ghost use Rattle.lrpar_grammar_bison_rules.specs.WordOrder.{action, after, after_declaration, alias_after, any_symbol, any_type, closing, code, colon, declaration, declaration_directive, declaration_end, end_of, in_alternative, is_in_alternative, label, level_member, list_end, list_of, list_step, may_end, member, name, name_or_code, next_rule, number, number_after, part, part_directive, rule_name, rule_or_alternative, shared_directive, step_to, symbol, tag, text, text_or_equals, token, token_member, type_after, value};

use crate::directives::Directive;
use crate::signs::Sign;
use lrpar_grammar_bison::words::WordKind;
use lrpar_table_precedence::precedence::AssocKind;

/// A part of a file.
#[derive(Clone, Copy, Debug, PartialEq, Eq)]
pub enum Section {
    /// What is before the first `%%`.
    Declarations,
    /// What is after it.
    Rules,
}

/// A list of symbols in a declaration.
#[derive(Clone, Copy, Debug, PartialEq, Eq)]
pub enum SymbolList {
    /// Start rules.
    Starts,
    /// Tokens, each perhaps with a number and a text.
    Tokens,
    /// Rules.
    Nonterminals,
    /// Symbols of a type.
    Types,
    /// The tokens of a level of precedence.
    Level,
    /// Symbols and types that code is for.
    Properties,
}

/// What is before the next word of a list of symbols.
#[derive(Clone, Copy, Debug, PartialEq, Eq)]
pub enum Before {
    /// The directive.
    Directive,
    /// A type, which a symbol has to follow.
    Tag,
    /// A symbol, which may have a number.
    Symbol,
    /// The number of a symbol.
    Number,
    /// A symbol with all that it may have.
    All,
}

/// What is allowed next in a `.y` file.
#[derive(Clone, Copy, Debug, PartialEq, Eq)]
pub enum Expected {
    /// A declaration, or the first `%%`.
    Declaration,
    /// One more word of a list of symbols, or what may come after the list.
    List(Section, SymbolList, Before),
    /// The code of `%destructor` or `%printer`.
    PropertiesCode(Section),
    /// Code, perhaps after a name.
    NameOrCode(Section),
    /// Code.
    Code(Section),
    /// The first code of `%param` and its like.
    FirstParam,
    /// One more code, a declaration, or the first `%%`.
    MoreParams,
    /// The variable of a `%define`.
    DefineName,
    /// Its value, a declaration, or the first `%%`.
    DefineValue,
    /// A text, perhaps after `=`.
    TextOrEquals,
    /// A text.
    PlainText,
    /// A text, a declaration, or the first `%%`.
    OptionalText,
    /// The number of conflicts between a shift and a reduction that are expected.
    ExpectNumber,
    /// The number of conflicts between reductions that are expected.
    ExpectRrNumber,
    /// The `;` after a declaration among the rules.
    DeclarationEnd,
    /// A rule, a declaration, or the second `%%`.
    Rule,
    /// A rule, a declaration, the second `%%`, one more alternative of the rule before, or one more `;`.
    RuleOrAlternative,
    /// The `:` of a rule.
    RuleColon,
    /// A symbol, an action, or what ends an alternative.
    Symbol,
    /// A symbol, an action, what ends an alternative, or the label of the symbol or action before.
    SymbolOrLabel,
    /// The action after a type.
    TypedAction,
    /// The symbol of a `%prec`.
    PrecName,
    /// The number of a directive in an alternative.
    Number,
    /// The type of a `%merge`.
    MergeType,
    /// Anything: what comes after the second `%%` is no part of the grammar.
    End,
}

/// The role of a word.
#[derive(Clone, Copy, Debug, PartialEq, Eq)]
pub enum Role {
    /// It says nothing of the grammar.
    Nothing,
    /// A start rule.
    Start,
    /// A token that is declared.
    Token,
    /// The text of the token before.
    Alias,
    /// The number of the token before.
    Number,
    /// The number of the token of a level before.
    LevelNumber,
    /// It begins a level of precedence.
    Level(AssocKind),
    /// A token of the last level.
    LevelName,
    /// The number of conflicts between a shift and a reduction that are expected.
    Expected,
    /// The number of conflicts between reductions that are expected.
    ExpectedRr,
    /// It says that the parser follows each way out of a conflict.
    Glr,
    /// It says whether a production has the precedence of its last token.
    DefaultPrec(bool),
    /// A rule that is defined.
    Defined,
    /// A part of an alternative.
    Item(ItemKind),
}

/// A part of an alternative.
#[derive(Clone, Copy, Debug, PartialEq, Eq)]
pub enum ItemKind {
    /// A symbol.
    Symbol,
    /// An action, or a predicate.
    Action,
    /// The symbol of a `%prec`.
    Prec,
    /// `%empty`.
    Empty,
}

/// What a word does: whether it ends an alternative, its role, and what is allowed after it.
#[derive(Clone, Copy, Debug, PartialEq, Eq)]
pub struct Step {
    pub closes: bool,
    pub role: Role,
    pub next: Expected,
}

// A word with that role, and what is allowed after it.
fn step_to(role: Role, next: Expected) -> Option<Step>
    ensures { result ≡ step_to role next }
{
    Some(Step {
        closes: false,
        role,
        next,
    })
}

impl Expected {
    /// What a word does that is this here: `None` if no such word is allowed.
    #[tactic(auto, unfolding(crate::specs::WordOrder::after))]
    pub fn after(self, sign: Sign) -> Option<Step>
        ensures { result ≡ after self sign }
    {
        match self {
            Expected::Declaration => declaration(sign),
            Expected::List(section, list, before) => list_step(section, list, before, sign),
            Expected::PropertiesCode(section) => code(
                sign,
                Expected::List(section, SymbolList::Properties, Before::Directive),
            ),
            Expected::NameOrCode(section) => name_or_code(section, sign),
            Expected::Code(section) => code(sign, end_of(section)),
            Expected::FirstParam => code(sign, Expected::MoreParams),
            Expected::MoreParams => code(sign, Expected::MoreParams).or(declaration(sign)),
            Expected::DefineName => name(sign, Expected::DefineValue),
            Expected::DefineValue => value(sign).or(declaration(sign)),
            Expected::TextOrEquals => text_or_equals(sign),
            Expected::PlainText => text(sign, Role::Nothing, Expected::Declaration),
            Expected::OptionalText => {
                text(sign, Role::Nothing, Expected::Declaration).or(declaration(sign))
            }
            Expected::ExpectNumber => number(sign, Role::Expected, Expected::Declaration),
            Expected::ExpectRrNumber => number(sign, Role::ExpectedRr, Expected::Declaration),
            Expected::DeclarationEnd => declaration_end(sign),
            Expected::Rule => next_rule(sign),
            Expected::RuleOrAlternative => rule_or_alternative(sign),
            Expected::RuleColon => colon(sign),
            Expected::Symbol => in_alternative(sign),
            Expected::SymbolOrLabel => label(sign).or(in_alternative(sign)),
            Expected::TypedAction => action(sign),
            Expected::PrecName => symbol(sign, Role::Item(ItemKind::Prec), Expected::Symbol),
            Expected::Number => number(sign, Role::Nothing, Expected::Symbol),
            Expected::MergeType => tag(sign, Expected::Symbol),
            Expected::End => None,
        }
    }

    /// Whether the file may end here.
    pub fn may_end(self) -> bool
        ensures { result ≡ may_end self }
    {
        matches!(
            self,
            Expected::Rule
                | Expected::RuleOrAlternative
                | Expected::Symbol
                | Expected::SymbolOrLabel
                | Expected::End
        )
    }

    /// Whether an alternative is open here.
    pub fn is_in_alternative(self) -> bool
        ensures { result ≡ is_in_alternative self }
    {
        matches!(self, Expected::Symbol | Expected::SymbolOrLabel)
    }
}

// A declaration, or the first `%%`.
fn declaration(sign: Sign) -> Option<Step>
    ensures { result ≡ declaration sign }
{
    match sign {
        Sign::Directive(directive) => declaration_directive(directive),
        Sign::Other(WordKind::Prologue | WordKind::Semicolon) => {
            step_to(Role::Nothing, Expected::Declaration)
        }
        Sign::Other(WordKind::Sections) => step_to(Role::Nothing, Expected::Rule),
        _ => None,
    }
}

// A directive before the first `%%`.
fn declaration_directive(directive: Directive) -> Option<Step>
    ensures { result ≡ declaration_directive directive }
{
    match directive {
        Directive::Code => step_to(Role::Nothing, Expected::Code(Section::Declarations)),
        Directive::Params => step_to(Role::Nothing, Expected::FirstParam),
        Directive::Define => step_to(Role::Nothing, Expected::DefineName),
        Directive::Text => step_to(Role::Nothing, Expected::PlainText),
        Directive::Prefix => step_to(Role::Nothing, Expected::TextOrEquals),
        Directive::Header => step_to(Role::Nothing, Expected::OptionalText),
        Directive::Flag => step_to(Role::Nothing, Expected::Declaration),
        Directive::Glr => step_to(Role::Glr, Expected::Declaration),
        Directive::Expect => step_to(Role::Nothing, Expected::ExpectNumber),
        Directive::ExpectRr => step_to(Role::Nothing, Expected::ExpectRrNumber),
        _ => shared_directive(Section::Declarations, directive),
    }
}

// A directive that may also be among the rules.
fn shared_directive(section: Section, directive: Directive) -> Option<Step>
    ensures { result ≡ shared_directive section directive }
{
    match directive {
        Directive::Start => list_of(section, SymbolList::Starts, Role::Nothing),
        Directive::Token => list_of(section, SymbolList::Tokens, Role::Nothing),
        Directive::Nonterminal => list_of(section, SymbolList::Nonterminals, Role::Nothing),
        Directive::Types => list_of(section, SymbolList::Types, Role::Nothing),
        Directive::Level(kind) => list_of(section, SymbolList::Level, Role::Level(kind)),
        Directive::Properties => step_to(Role::Nothing, Expected::PropertiesCode(section)),
        Directive::NamedCode => step_to(Role::Nothing, Expected::NameOrCode(section)),
        Directive::DefaultPrec(is) => step_to(Role::DefaultPrec(is), end_of(section)),
        _ => None,
    }
}

// A directive before a list of symbols.
fn list_of(section: Section, list: SymbolList, role: Role) -> Option<Step>
    ensures { result ≡ list_of section list role }
{
    step_to(role, Expected::List(section, list, Before::Directive))
}

// What comes after a declaration.
fn end_of(section: Section) -> Expected
    ensures { result ≡ end_of section }
{
    match section {
        Section::Declarations => Expected::Declaration,
        Section::Rules => Expected::DeclarationEnd,
    }
}

// A word where a declaration may end.
fn after_declaration(section: Section, sign: Sign) -> Option<Step>
    ensures { result ≡ after_declaration section sign }
{
    match section {
        Section::Declarations => declaration(sign),
        Section::Rules => declaration_end(sign),
    }
}

// The `;` after a declaration among the rules.
fn declaration_end(sign: Sign) -> Option<Step>
    ensures { result ≡ declaration_end sign }
{
    match sign {
        Sign::Other(WordKind::Semicolon) => step_to(Role::Nothing, Expected::Rule),
        _ => None,
    }
}

// One more word of a list of symbols, or what may come after the list.
fn list_step(section: Section, list: SymbolList, before: Before, sign: Sign) -> Option<Step>
    ensures { result ≡ list_step section list before sign }
{
    match member(list, before, sign) {
        Some((role, before)) => step_to(role, Expected::List(section, list, before)),
        None => list_end(section, before, sign),
    }
}

// What may come after a list of symbols, which isn't empty.
fn list_end(section: Section, before: Before, sign: Sign) -> Option<Step>
    ensures { result ≡ list_end section before sign }
{
    match before {
        Before::Directive | Before::Tag => None,
        _ => after_declaration(section, sign),
    }
}

// The role of a word of a list of symbols, and what it is to the next word.
fn member(list: SymbolList, before: Before, sign: Sign) -> Option<(Role, Before)>
    ensures { result ≡ member list before sign }
{
    match list {
        SymbolList::Starts => any_symbol(sign, Role::Start),
        SymbolList::Tokens => token_member(before, sign),
        SymbolList::Nonterminals => rule_name(sign).or(type_after(before, sign)),
        SymbolList::Types => any_symbol(sign, Role::Nothing).or(type_after(before, sign)),
        SymbolList::Level => level_member(before, sign),
        SymbolList::Properties => any_symbol(sign, Role::Nothing).or(any_type(sign)),
    }
}

// A token, its number or text, or a type.
fn token_member(before: Before, sign: Sign) -> Option<(Role, Before)>
    ensures { result ≡ token_member before sign }
{
    token(sign, Role::Token)
        .or(type_after(before, sign))
        .or(number_after(before, sign, Role::Number))
        .or(alias_after(before, sign))
}

// A token of a level, its number, or a type.
fn level_member(before: Before, sign: Sign) -> Option<(Role, Before)>
    ensures { result ≡ level_member before sign }
{
    token(sign, Role::LevelName)
        .or(any_symbol(sign, Role::LevelName))
        .or(type_after(before, sign))
        .or(number_after(before, sign, Role::LevelNumber))
}

// A name or a character.
fn token(sign: Sign, role: Role) -> Option<(Role, Before)>
    ensures { result ≡ token sign role }
{
    match sign {
        Sign::Other(WordKind::Name | WordKind::Character) => Some((role, Before::Symbol)),
        _ => None,
    }
}

// A name of a rule.
fn rule_name(sign: Sign) -> Option<(Role, Before)>
    ensures { result ≡ rule_name sign }
{
    match sign {
        Sign::Other(WordKind::Name) => Some((Role::Nothing, Before::All)),
        _ => None,
    }
}

// A name, a character or a text.
fn any_symbol(sign: Sign, role: Role) -> Option<(Role, Before)>
    ensures { result ≡ any_symbol sign role }
{
    match sign {
        Sign::Other(WordKind::Name | WordKind::Character | WordKind::Text) => {
            Some((role, Before::All))
        }
        _ => None,
    }
}

// A type to which nothing has to belong.
fn any_type(sign: Sign) -> Option<(Role, Before)>
    ensures { result ≡ any_type sign }
{
    match sign {
        Sign::Other(WordKind::Tag) => Some((Role::Nothing, Before::All)),
        _ => None,
    }
}

// The type of the symbols that come next.
fn type_after(before: Before, sign: Sign) -> Option<(Role, Before)>
    ensures { result ≡ type_after before sign }
{
    match (before, sign) {
        (Before::Tag, _) => None,
        (_, Sign::Other(WordKind::Tag)) => Some((Role::Nothing, Before::Tag)),
        _ => None,
    }
}

// The number of the symbol before.
fn number_after(before: Before, sign: Sign, role: Role) -> Option<(Role, Before)>
    ensures { result ≡ number_after before sign role }
{
    match (before, sign) {
        (Before::Symbol, Sign::Other(WordKind::Number)) => Some((role, Before::Number)),
        _ => None,
    }
}

// The text of the token before.
fn alias_after(before: Before, sign: Sign) -> Option<(Role, Before)>
    ensures { result ≡ alias_after before sign }
{
    match (before, sign) {
        (Before::Symbol | Before::Number, Sign::Other(WordKind::Text | WordKind::Translated)) =>
            Some((Role::Alias, Before::All)),
        _ => None,
    }
}

// Code, before `next`.
fn code(sign: Sign, next: Expected) -> Option<Step>
    ensures { result ≡ code sign next }
{
    match sign {
        Sign::Other(WordKind::Code) => step_to(Role::Nothing, next),
        _ => None,
    }
}

// A name, before `next`.
fn name(sign: Sign, next: Expected) -> Option<Step>
    ensures { result ≡ name sign next }
{
    match sign {
        Sign::Other(WordKind::Name) => step_to(Role::Nothing, next),
        _ => None,
    }
}

// Code, perhaps after a name.
fn name_or_code(section: Section, sign: Sign) -> Option<Step>
    ensures { result ≡ name_or_code section sign }
{
    name(sign, Expected::Code(section)).or(code(sign, end_of(section)))
}

// The value of a `%define`.
fn value(sign: Sign) -> Option<Step>
    ensures { result ≡ value sign }
{
    match sign {
        Sign::Other(WordKind::Name | WordKind::Text | WordKind::Code) => {
            step_to(Role::Nothing, Expected::Declaration)
        }
        _ => None,
    }
}

// A text, before `next`.
fn text(sign: Sign, role: Role, next: Expected) -> Option<Step>
    ensures { result ≡ text sign role next }
{
    match sign {
        Sign::Other(WordKind::Text) => step_to(role, next),
        _ => None,
    }
}

// A text, perhaps after `=`.
fn text_or_equals(sign: Sign) -> Option<Step>
    ensures { result ≡ text_or_equals sign }
{
    match sign {
        Sign::Other(WordKind::Text) => step_to(Role::Nothing, Expected::Declaration),
        Sign::Other(WordKind::Equals) => step_to(Role::Nothing, Expected::PlainText),
        _ => None,
    }
}

// A number, before `next`.
fn number(sign: Sign, role: Role, next: Expected) -> Option<Step>
    ensures { result ≡ number sign role next }
{
    match sign {
        Sign::Other(WordKind::Number) => step_to(role, next),
        _ => None,
    }
}

// A type, before `next`.
fn tag(sign: Sign, next: Expected) -> Option<Step>
    ensures { result ≡ tag sign next }
{
    match sign {
        Sign::Other(WordKind::Tag) => step_to(Role::Nothing, next),
        _ => None,
    }
}

// A name, a character or a text, before `next`.
fn symbol(sign: Sign, role: Role, next: Expected) -> Option<Step>
    ensures { result ≡ symbol sign role next }
{
    match sign {
        Sign::Other(WordKind::Name | WordKind::Character | WordKind::Text) => step_to(role, next),
        _ => None,
    }
}

// A rule, a declaration, or the second `%%`.
fn next_rule(sign: Sign) -> Option<Step>
    ensures { result ≡ next_rule sign }
{
    match sign {
        Sign::RuleName => step_to(Role::Defined, Expected::RuleColon),
        Sign::Directive(directive) => shared_directive(Section::Rules, directive),
        Sign::Other(WordKind::Sections) => step_to(Role::Nothing, Expected::End),
        _ => None,
    }
}

// A rule, a declaration, the second `%%`, one more alternative of the rule before, or one more `;`.
fn rule_or_alternative(sign: Sign) -> Option<Step>
    ensures { result ≡ rule_or_alternative sign }
{
    match sign {
        Sign::Other(WordKind::Bar) => step_to(Role::Nothing, Expected::Symbol),
        Sign::Other(WordKind::Semicolon) => step_to(Role::Nothing, Expected::RuleOrAlternative),
        _ => next_rule(sign),
    }
}

// The `:` of a rule, perhaps after a label.
fn colon(sign: Sign) -> Option<Step>
    ensures { result ≡ colon sign }
{
    match sign {
        Sign::Other(WordKind::Label) => step_to(Role::Nothing, Expected::RuleColon),
        Sign::Other(WordKind::Colon) => step_to(Role::Nothing, Expected::Symbol),
        _ => None,
    }
}

// A part of an alternative, or what ends it.
fn in_alternative(sign: Sign) -> Option<Step>
    ensures { result ≡ in_alternative sign }
{
    part(sign).or(closing(rule_or_alternative(sign)))
}

// The same step, with an alternative ended before it.
fn closing(step: Option<Step>) -> Option<Step>
    ensures { result ≡ closing step }
{
    let step = step?;
    Some(Step {
        closes: true,
        role: step.role,
        next: step.next,
    })
}

// A part of an alternative.
fn part(sign: Sign) -> Option<Step>
    ensures { result ≡ part sign }
{
    match sign {
        Sign::Other(WordKind::Name | WordKind::Character | WordKind::Text) => {
            step_to(Role::Item(ItemKind::Symbol), Expected::SymbolOrLabel)
        }
        Sign::Other(WordKind::Code) => {
            step_to(Role::Item(ItemKind::Action), Expected::SymbolOrLabel)
        }
        Sign::Other(WordKind::Predicate) => {
            step_to(Role::Item(ItemKind::Action), Expected::Symbol)
        }
        Sign::Other(WordKind::Tag) => step_to(Role::Nothing, Expected::TypedAction),
        Sign::Directive(directive) => part_directive(directive),
        _ => None,
    }
}

// A directive in an alternative.
fn part_directive(directive: Directive) -> Option<Step>
    ensures { result ≡ part_directive directive }
{
    match directive {
        Directive::Prec => step_to(Role::Nothing, Expected::PrecName),
        Directive::Empty => step_to(Role::Item(ItemKind::Empty), Expected::Symbol),
        Directive::Dprec | Directive::Expect | Directive::ExpectRr => {
            step_to(Role::Nothing, Expected::Number)
        }
        Directive::Merge => step_to(Role::Nothing, Expected::MergeType),
        _ => None,
    }
}

// The label of the symbol or action before.
fn label(sign: Sign) -> Option<Step>
    ensures { result ≡ label sign }
{
    match sign {
        Sign::Other(WordKind::Label) => step_to(Role::Nothing, Expected::Symbol),
        _ => None,
    }
}

// The action after a type.
fn action(sign: Sign) -> Option<Step>
    ensures { result ≡ action sign }
{
    match sign {
        Sign::Other(WordKind::Code) => {
            step_to(Role::Item(ItemKind::Action), Expected::SymbolOrLabel)
        }
        _ => None,
    }
}
