//! The syntax of a language, generated from its grammar by `nimbleparse --rust`. To change it, edit the grammar and generate it again.
//!
//! SHA-1 of the grammar: a56f8575d27ec539a88dbbe506afc80924175f78
ghost use Rattle.std.specs.Prelude.{◌<◌, ◌≤◌, ◌↔◌, IfOk, IsTrue, length};
ghost use Rattle.lrpar_typed.specs.Rows.{AllHold, AreOfRow, AreRowsOf, IsOfRow, IsRuleNext, IsTaken, TakesRow};
ghost use Rattle.lrpar_typed.specs.TypedParse.{ValueHolds};
ghost use Rattle.lrpar_grammar_typed.specs.Syntax.{HoldsOf, rule_of};
ghost use Rattle.lrpar_grammar_typed.specs.declared.syntax.RuleValue.{RuleValue};
ghost use Rattle.lrpar_grammar_typed.specs.declared.syntax.TheConstants.{ROWS};

use crate::file::{Alternative, Declaration, File, Item, Label, Mention, Part, Repeat, Rule};
use lrpar_grammar::span::Span;
use lrpar_lexer::{RuleLexer, Token, TokenTypes};
use lrpar_typed::{Lexeme, Recoverer, Typed};
use std::alloc::{AllocError, Global};

/// The grammar, as a grammar text.
pub(crate) const GRAMMAR: &str = r##"
%start File
%token 'HEADER'
%token '%%'
%token 'USE'
%token '%start'
%token '%token'
%token '%type'
%token 'TYPE'
%token ':'
%token '|'
%token ';'
%token '#'
%token '('
%token 'PATH'
%token ')'
%token '['
%token ']'
%token '*'
%token '+'
%token '?'
%token '%'
%token '%?'
%token 'QUOTED'
%token 'NAME'
%%
File: HEADER_option Declaration_list '%%' Rule_list;
Declaration: 'USE'
  | '%start' Name
  | '%token' Symbol_some
  | '%type' 'TYPE' Name_some;
Rule: Name ':' Alternative_by_or ';';
Alternative: Part_list Label_option;
Label: '#' Name
  | '#' Name '(' 'PATH' ')';
Part: Item
  | Item '[' Name ']';
Item: Symbol
  | '(' Alternative_by_or ')'
  | Item Repeat;
Repeat: '*'
  | '+'
  | '?'
  | '%' Symbol
  | '%?' Symbol;
Symbol: Name
  | 'QUOTED';
Name: 'NAME';
HEADER_option:
  | 'HEADER';
Declaration_list:
  | Declaration_list Declaration;
Rule_list:
  | Rule_list Rule;
Symbol_some: Symbol
  | Symbol_some Symbol;
Name_some: Name
  | Name_some Name;
Alternative_by_or: Alternative
  | Alternative_by_or '|' Alternative;
Part_list:
  | Part_list Part;
Label_option:
  | Label;
"##;

/// The numbers of tokens.
pub(crate) mod tokens {
    /// The token `HEADER`.
    pub(crate) const HEADER: u32 = 0;

    /// The token `%%`.
    pub(crate) const PERCENT_PERCENT: u32 = 1;

    /// The token `USE`.
    pub(crate) const USE: u32 = 2;

    /// The token `%start`.
    pub(crate) const PERCENT_START: u32 = 3;

    /// The token `%token`.
    pub(crate) const PERCENT_TOKEN: u32 = 4;

    /// The token `%type`.
    pub(crate) const PERCENT_TYPE: u32 = 5;

    /// The token `TYPE`.
    pub(crate) const TYPE: u32 = 6;

    /// The token `:`.
    pub(crate) const COLON: u32 = 7;

    /// The token `|`.
    pub(crate) const OR: u32 = 8;

    /// The token `;`.
    pub(crate) const SEMICOLON: u32 = 9;

    /// The token `#`.
    pub(crate) const HASH: u32 = 10;

    /// The token `(`.
    pub(crate) const LEFT_PAREN: u32 = 11;

    /// The token `PATH`.
    pub(crate) const PATH: u32 = 12;

    /// The token `)`.
    pub(crate) const RIGHT_PAREN: u32 = 13;

    /// The token `[`.
    pub(crate) const LEFT_BRACKET: u32 = 14;

    /// The token `]`.
    pub(crate) const RIGHT_BRACKET: u32 = 15;

    /// The token `*`.
    pub(crate) const STAR: u32 = 16;

    /// The token `+`.
    pub(crate) const PLUS: u32 = 17;

    /// The token `?`.
    pub(crate) const QUESTION: u32 = 18;

    /// The token `%`.
    pub(crate) const PERCENT: u32 = 19;

    /// The token `%?`.
    pub(crate) const PERCENT_QUESTION: u32 = 20;

    /// The token `QUOTED`.
    pub(crate) const QUOTED: u32 = 21;

    /// The token `NAME`.
    pub(crate) const NAME: u32 = 22;
}

/// The allocator, the lexer, and where a production is.
#[derive(Clone, Copy)]
pub(crate) struct At<'a, 'text> {
    pub(crate) alloc: Global,
    pub(crate) lexer: &'a RuleLexer<'a, 'text>,
    pub(crate) range: lrpar_typed::TextRange,
}

/// The values of productions.
pub(crate) trait Actions {
    /// Why a text has no value.
    type Error: Drop + From<lrpar_typed::ParseFault> + From<AllocError>;

    /// A fact about each value. An action may assume it of its arguments and has to prove it of its result, so it is true of the value of a
    /// parse. Of a list or an option it is asked of the items. Rules of the same type share the fact of the first of them. Leave it out to
    /// claim nothing.
    ghost holds: { Self → RuleValue → Type 0 } = { λ _ _. Unit {0} };

    /// `File: HEADER_option Declaration_list '%%' Rule_list`
    fn file(
        &self,
        at: At<'_, '_>,
        declarations: Vec<Declaration>,
        rules: Vec<Rule>,
    ) -> Result<File, Self::Error>
        requires { HoldsOf (holds self.now) (RuleValue.DeclarationList declarations) × HoldsOf (holds self.now) (RuleValue.RuleList rules) }
        ensures { IfOk result (λ made. HoldsOf (holds self.now) (RuleValue.File made)) };

    /// `Declaration: 'USE'`
    fn declare_use(&self, at: At<'_, '_>, path: Token<u32>) -> Result<Declaration, Self::Error>
        ensures { IfOk result (λ made. HoldsOf (holds self.now) (RuleValue.Declaration made)) };

    /// `Declaration: '%start' Name`
    fn declare_start(&self, at: At<'_, '_>, name: Span) -> Result<Declaration, Self::Error>
        requires { HoldsOf (holds self.now) (RuleValue.Name name) }
        ensures { IfOk result (λ made. HoldsOf (holds self.now) (RuleValue.Declaration made)) };

    /// `Declaration: '%token' Symbol_some`
    fn declare_tokens(
        &self,
        at: At<'_, '_>,
        symbols: Vec<Mention>,
    ) -> Result<Declaration, Self::Error>
        requires { HoldsOf (holds self.now) (RuleValue.SymbolSome symbols) }
        ensures { IfOk result (λ made. HoldsOf (holds self.now) (RuleValue.Declaration made)) };

    /// `Declaration: '%type' 'TYPE' Name_some`
    fn declare_type(
        &self,
        at: At<'_, '_>,
        value: Token<u32>,
        rules: Vec<Span>,
    ) -> Result<Declaration, Self::Error>
        requires { HoldsOf (holds self.now) (RuleValue.NameSome rules) }
        ensures { IfOk result (λ made. HoldsOf (holds self.now) (RuleValue.Declaration made)) };

    /// `Rule: Name ':' Alternative_by_or ';'`
    fn rule(
        &self,
        at: At<'_, '_>,
        name: Span,
        alternatives: Vec<Alternative>,
    ) -> Result<Rule, Self::Error>
        requires { HoldsOf (holds self.now) (RuleValue.Name name) × HoldsOf (holds self.now) (RuleValue.AlternativeByOr alternatives) }
        ensures { IfOk result (λ made. HoldsOf (holds self.now) (RuleValue.Rule made)) };

    /// `Alternative: Part_list Label_option`
    fn alternative(
        &self,
        at: At<'_, '_>,
        parts: Vec<Part>,
        label: Option<Label>,
    ) -> Result<Alternative, Self::Error>
        requires { HoldsOf (holds self.now) (RuleValue.PartList parts) × HoldsOf (holds self.now) (RuleValue.LabelOption label) }
        ensures { IfOk result (λ made. HoldsOf (holds self.now) (RuleValue.Alternative made)) };

    /// `Label: '#' Name`
    fn label(&self, at: At<'_, '_>, name: Span) -> Result<Label, Self::Error>
        requires { HoldsOf (holds self.now) (RuleValue.Name name) }
        ensures { IfOk result (λ made. HoldsOf (holds self.now) (RuleValue.Label made)) };

    /// `Label: '#' Name '(' 'PATH' ')'`
    fn label_of_kind(
        &self,
        at: At<'_, '_>,
        name: Span,
        constant: Token<u32>,
    ) -> Result<Label, Self::Error>
        requires { HoldsOf (holds self.now) (RuleValue.Name name) }
        ensures { IfOk result (λ made. HoldsOf (holds self.now) (RuleValue.Label made)) };

    /// `Part: Item`
    fn part(&self, at: At<'_, '_>, item: Item) -> Result<Part, Self::Error>
        requires { HoldsOf (holds self.now) (RuleValue.Item item) }
        ensures { IfOk result (λ made. HoldsOf (holds self.now) (RuleValue.Part made)) };

    /// `Part: Item '[' Name ']'`
    fn named_part(&self, at: At<'_, '_>, item: Item, name: Span) -> Result<Part, Self::Error>
        requires { HoldsOf (holds self.now) (RuleValue.Item item) × HoldsOf (holds self.now) (RuleValue.Name name) }
        ensures { IfOk result (λ made. HoldsOf (holds self.now) (RuleValue.Part made)) };

    /// `Item: Symbol`
    fn symbol_item(&self, at: At<'_, '_>, symbol: Mention) -> Result<Item, Self::Error>
        requires { HoldsOf (holds self.now) (RuleValue.Symbol symbol) }
        ensures { IfOk result (λ made. HoldsOf (holds self.now) (RuleValue.Item made)) };

    /// `Item: '(' Alternative_by_or ')'`
    fn group(&self, at: At<'_, '_>, alternatives: Vec<Alternative>) -> Result<Item, Self::Error>
        requires { HoldsOf (holds self.now) (RuleValue.AlternativeByOr alternatives) }
        ensures { IfOk result (λ made. HoldsOf (holds self.now) (RuleValue.Item made)) };

    /// `Item: Item Repeat`
    fn repeated(&self, at: At<'_, '_>, item: Item, repeat: Repeat) -> Result<Item, Self::Error>
        requires { HoldsOf (holds self.now) (RuleValue.Item item) × HoldsOf (holds self.now) (RuleValue.Repeat repeat) }
        ensures { IfOk result (λ made. HoldsOf (holds self.now) (RuleValue.Item made)) };

    /// `Repeat: '*'`
    fn zero_or_more(&self, at: At<'_, '_>) -> Result<Repeat, Self::Error>
        ensures { IfOk result (λ made. HoldsOf (holds self.now) (RuleValue.Repeat made)) };

    /// `Repeat: '+'`
    fn one_or_more(&self, at: At<'_, '_>) -> Result<Repeat, Self::Error>
        ensures { IfOk result (λ made. HoldsOf (holds self.now) (RuleValue.Repeat made)) };

    /// `Repeat: '?'`
    fn optional(&self, at: At<'_, '_>) -> Result<Repeat, Self::Error>
        ensures { IfOk result (λ made. HoldsOf (holds self.now) (RuleValue.Repeat made)) };

    /// `Repeat: '%' Symbol`
    fn separated(&self, at: At<'_, '_>, separator: Mention) -> Result<Repeat, Self::Error>
        requires { HoldsOf (holds self.now) (RuleValue.Symbol separator) }
        ensures { IfOk result (λ made. HoldsOf (holds self.now) (RuleValue.Repeat made)) };

    /// `Repeat: '%?' Symbol`
    fn terminated(&self, at: At<'_, '_>, separator: Mention) -> Result<Repeat, Self::Error>
        requires { HoldsOf (holds self.now) (RuleValue.Symbol separator) }
        ensures { IfOk result (λ made. HoldsOf (holds self.now) (RuleValue.Repeat made)) };

    /// `Symbol: Name`
    fn name(&self, at: At<'_, '_>, name: Span) -> Result<Mention, Self::Error>
        requires { HoldsOf (holds self.now) (RuleValue.Name name) }
        ensures { IfOk result (λ made. HoldsOf (holds self.now) (RuleValue.Symbol made)) };

    /// `Symbol: 'QUOTED'`
    fn quoted(&self, at: At<'_, '_>, text: Token<u32>) -> Result<Mention, Self::Error>
        ensures { IfOk result (λ made. HoldsOf (holds self.now) (RuleValue.Symbol made)) };

    /// `Name: 'NAME'`
    fn word(&self, at: At<'_, '_>, word: Token<u32>) -> Result<Span, Self::Error>
        ensures { IfOk result (λ made. HoldsOf (holds self.now) (RuleValue.Name made)) };
}

/// The value of a rule.
#[derive(Drop)]
pub(crate) enum RuleValue {
    File(File),
    Declaration(Declaration),
    Rule(Rule),
    Alternative(Alternative),
    Label(Label),
    Part(Part),
    Item(Item),
    Repeat(Repeat),
    Symbol(Mention),
    Name(Span),
    HEADEROption(Option<Token<u32>>),
    DeclarationList(Vec<Declaration>),
    RuleList(Vec<Rule>),
    SymbolSome(Vec<Mention>),
    NameSome(Vec<Span>),
    AlternativeByOr(Vec<Alternative>),
    PartList(Vec<Part>),
    LabelOption(Option<Label>),
}

// The arguments of a production.
type RuleArgs<'a, 'rules, 'text, ErrorT> = lrpar_typed::Args<
    'a,
    RuleLexer<'rules, 'text>,
    Token<u32>,
    RuleValue,
    ErrorT,
>;

// The values by these actions.
#[derive(Drop)]
struct Acting<'a, A> {
    actions: &'a A,
}

// The productions: the rule and the symbols of each, rule r as 2r + 1, and token t as 2t + 2.
const ROWS: [[u32; 6]; 38] = [
    [3, 23, 25, 4, 27, 0],
    [5, 6, 0, 0, 0, 0],
    [5, 8, 21, 0, 0, 0],
    [5, 10, 29, 0, 0, 0],
    [5, 12, 14, 31, 0, 0],
    [7, 21, 16, 33, 20, 0],
    [9, 35, 37, 0, 0, 0],
    [11, 22, 21, 0, 0, 0],
    [11, 22, 21, 24, 26, 28],
    [13, 15, 0, 0, 0, 0],
    [13, 15, 30, 21, 32, 0],
    [15, 19, 0, 0, 0, 0],
    [15, 24, 33, 28, 0, 0],
    [15, 15, 17, 0, 0, 0],
    [17, 34, 0, 0, 0, 0],
    [17, 36, 0, 0, 0, 0],
    [17, 38, 0, 0, 0, 0],
    [17, 40, 19, 0, 0, 0],
    [17, 42, 19, 0, 0, 0],
    [19, 21, 0, 0, 0, 0],
    [19, 44, 0, 0, 0, 0],
    [21, 46, 0, 0, 0, 0],
    [23, 0, 0, 0, 0, 0],
    [23, 2, 0, 0, 0, 0],
    [25, 0, 0, 0, 0, 0],
    [25, 25, 5, 0, 0, 0],
    [27, 0, 0, 0, 0, 0],
    [27, 27, 7, 0, 0, 0],
    [29, 19, 0, 0, 0, 0],
    [29, 29, 19, 0, 0, 0],
    [31, 21, 0, 0, 0, 0],
    [31, 31, 21, 0, 0, 0],
    [33, 9, 0, 0, 0, 0],
    [33, 33, 18, 9, 0, 0],
    [35, 0, 0, 0, 0, 0],
    [35, 35, 13, 0, 0, 0],
    [37, 0, 0, 0, 0, 0],
    [37, 11, 0, 0, 0, 0],
];

impl<'a, 'rules, 'text, A: Actions> Typed<u32, Token<u32>, RuleLexer<'rules, 'text>>
    for Acting<'a, A> {
    type Value = RuleValue;

    type Error = A::Error;

    ghost rows = { ROWS };

    ghost start = { 1 };

    ghost rule = { rule_of };

    ghost gives = { λ _ _ _ _. Unit {0} };

    ghost holds = { λ acting. HoldsOf (A.holds acting.actions.now) };

    fn takes(
        &self,
        pidx: lrpar_typed::PIdx<u32>,
        ridx: lrpar_typed::RIdx<u32>,
        symbols: &[lrpar_typed::Symbol<u32>],
    ) -> bool
        ensures { IsTrue result ↔ TakesRow (λ n. n) ROWS pidx ridx symbols.now }
    {
        lrpar_typed::has_row(&ROWS, pidx, ridx, symbols)
    }

    fn value(
        &self,
        alloc: Global,
        production: usize,
        args: &mut RuleArgs<'_, 'rules, 'text, A::Error>,
    ) -> Result<RuleValue, A::Error>
        requires within { production < length ROWS }
        requires fits { AreOfRow (λ n. n) ⟦<Token<u32> as Lexeme<u32>>⟧.parts rule_of ROWS production args.old }
        requires hold { AllHold (HoldsOf (A.holds self.now.actions.now)) args.old.left }
        ensures rule { IsOfRow rule_of ROWS production result }
        ensures gives { Unit {0} }
        ensures holds { IfOk result (HoldsOf (A.holds self.now.actions.now)) }
    {
        let at = At {
            alloc,
            lexer: args.lexer(),
            range: lrpar_typed::TextRange::from(args.span()),
        };
        if production < 8 {
            make_from_0(self.actions, at, production, args)
        } else if production < 16 {
            make_from_8(self.actions, at, production, args)
        } else if production < 24 {
            make_from_16(self.actions, at, production, args)
        } else if production < 32 {
            make_from_24(self.actions, at, production, args)
        } else {
            make_from_32(self.actions, at, production, args)
        }
    }
}

// The values of productions 0 to 7.
fn make_from_0<'text, A: Actions>(
    actions: &A,
    at: At<'_, 'text>,
    production: usize,
    args: &mut RuleArgs<'_, '_, 'text, A::Error>,
) -> Result<RuleValue, A::Error>
    requires high { production < 8 }
    requires fits { AreOfRow (λ n. n) ⟦<Token<u32> as Lexeme<u32>>⟧.parts rule_of ROWS production args.old }
    requires hold { AllHold (HoldsOf (A.holds actions.now)) args.old.left }
    ensures rule { IsOfRow rule_of ROWS production result }
    ensures holds { IfOk result (HoldsOf (A.holds actions.now)) }
{
    match production {
        // File: HEADER_option Declaration_list '%%' Rule_list
        0 => {
            let _header_option = next_header_option(args);
            let declarations = next_declaration_list(args);
            let _percent_percent = lrpar_typed::next_lexeme(args);
            let rules = next_rule_list(args);
            let made = actions.file(at, declarations, rules)?;
            Ok(RuleValue::File(made))
        }
        // Declaration: 'USE'
        1 => {
            let path = lrpar_typed::next_lexeme(args);
            let made = actions.declare_use(at, path)?;
            Ok(RuleValue::Declaration(made))
        }
        // Declaration: '%start' Name
        2 => {
            let _percent_start = lrpar_typed::next_lexeme(args);
            let name = next_name(args);
            let made = actions.declare_start(at, name)?;
            Ok(RuleValue::Declaration(made))
        }
        // Declaration: '%token' Symbol_some
        3 => {
            let _percent_token = lrpar_typed::next_lexeme(args);
            let symbols = next_symbol_some(args);
            let made = actions.declare_tokens(at, symbols)?;
            Ok(RuleValue::Declaration(made))
        }
        // Declaration: '%type' 'TYPE' Name_some
        4 => {
            let _percent_type = lrpar_typed::next_lexeme(args);
            let value = lrpar_typed::next_lexeme(args);
            let rules = next_name_some(args);
            let made = actions.declare_type(at, value, rules)?;
            Ok(RuleValue::Declaration(made))
        }
        // Rule: Name ':' Alternative_by_or ';'
        5 => {
            let name = next_name(args);
            let _colon = lrpar_typed::next_lexeme(args);
            let alternatives = next_alternative_by_or(args);
            let _semicolon = lrpar_typed::next_lexeme(args);
            let made = actions.rule(at, name, alternatives)?;
            Ok(RuleValue::Rule(made))
        }
        // Alternative: Part_list Label_option
        6 => {
            let parts = next_part_list(args);
            let label = next_label_option(args);
            let made = actions.alternative(at, parts, label)?;
            Ok(RuleValue::Alternative(made))
        }
        // Label: '#' Name
        7 => {
            let _hash = lrpar_typed::next_lexeme(args);
            let name = next_name(args);
            let made = actions.label(at, name)?;
            Ok(RuleValue::Label(made))
        }
        _ => unreachable!(),
    }
}

// The values of productions 8 to 15.
fn make_from_8<'text, A: Actions>(
    actions: &A,
    at: At<'_, 'text>,
    production: usize,
    args: &mut RuleArgs<'_, '_, 'text, A::Error>,
) -> Result<RuleValue, A::Error>
    requires low { 8 ≤ production }
    requires high { production < 16 }
    requires fits { AreOfRow (λ n. n) ⟦<Token<u32> as Lexeme<u32>>⟧.parts rule_of ROWS production args.old }
    requires hold { AllHold (HoldsOf (A.holds actions.now)) args.old.left }
    ensures rule { IsOfRow rule_of ROWS production result }
    ensures holds { IfOk result (HoldsOf (A.holds actions.now)) }
{
    match production {
        // Label: '#' Name '(' 'PATH' ')'
        8 => {
            let _hash = lrpar_typed::next_lexeme(args);
            let name = next_name(args);
            let _left_paren = lrpar_typed::next_lexeme(args);
            let constant = lrpar_typed::next_lexeme(args);
            let _right_paren = lrpar_typed::next_lexeme(args);
            let made = actions.label_of_kind(at, name, constant)?;
            Ok(RuleValue::Label(made))
        }
        // Part: Item
        9 => {
            let item = next_item(args);
            let made = actions.part(at, item)?;
            Ok(RuleValue::Part(made))
        }
        // Part: Item '[' Name ']'
        10 => {
            let item = next_item(args);
            let _left_bracket = lrpar_typed::next_lexeme(args);
            let name = next_name(args);
            let _right_bracket = lrpar_typed::next_lexeme(args);
            let made = actions.named_part(at, item, name)?;
            Ok(RuleValue::Part(made))
        }
        // Item: Symbol
        11 => {
            let symbol = next_symbol(args);
            let made = actions.symbol_item(at, symbol)?;
            Ok(RuleValue::Item(made))
        }
        // Item: '(' Alternative_by_or ')'
        12 => {
            let _left_paren = lrpar_typed::next_lexeme(args);
            let alternatives = next_alternative_by_or(args);
            let _right_paren = lrpar_typed::next_lexeme(args);
            let made = actions.group(at, alternatives)?;
            Ok(RuleValue::Item(made))
        }
        // Item: Item Repeat
        13 => {
            let item = next_item(args);
            let repeat = next_repeat(args);
            let made = actions.repeated(at, item, repeat)?;
            Ok(RuleValue::Item(made))
        }
        // Repeat: '*'
        14 => {
            let _star = lrpar_typed::next_lexeme(args);
            let made = actions.zero_or_more(at)?;
            Ok(RuleValue::Repeat(made))
        }
        // Repeat: '+'
        15 => {
            let _plus = lrpar_typed::next_lexeme(args);
            let made = actions.one_or_more(at)?;
            Ok(RuleValue::Repeat(made))
        }
        _ => unreachable!(),
    }
}

// The values of productions 16 to 23.
fn make_from_16<'text, A: Actions>(
    actions: &A,
    at: At<'_, 'text>,
    production: usize,
    args: &mut RuleArgs<'_, '_, 'text, A::Error>,
) -> Result<RuleValue, A::Error>
    requires low { 16 ≤ production }
    requires high { production < 24 }
    requires fits { AreOfRow (λ n. n) ⟦<Token<u32> as Lexeme<u32>>⟧.parts rule_of ROWS production args.old }
    requires hold { AllHold (HoldsOf (A.holds actions.now)) args.old.left }
    ensures rule { IsOfRow rule_of ROWS production result }
    ensures holds { IfOk result (HoldsOf (A.holds actions.now)) }
{
    match production {
        // Repeat: '?'
        16 => {
            let _question = lrpar_typed::next_lexeme(args);
            let made = actions.optional(at)?;
            Ok(RuleValue::Repeat(made))
        }
        // Repeat: '%' Symbol
        17 => {
            let _percent = lrpar_typed::next_lexeme(args);
            let separator = next_symbol(args);
            let made = actions.separated(at, separator)?;
            Ok(RuleValue::Repeat(made))
        }
        // Repeat: '%?' Symbol
        18 => {
            let _percent_question = lrpar_typed::next_lexeme(args);
            let separator = next_symbol(args);
            let made = actions.terminated(at, separator)?;
            Ok(RuleValue::Repeat(made))
        }
        // Symbol: Name
        19 => {
            let name = next_name(args);
            let made = actions.name(at, name)?;
            Ok(RuleValue::Symbol(made))
        }
        // Symbol: 'QUOTED'
        20 => {
            let text = lrpar_typed::next_lexeme(args);
            let made = actions.quoted(at, text)?;
            Ok(RuleValue::Symbol(made))
        }
        // Name: 'NAME'
        21 => {
            let word = lrpar_typed::next_lexeme(args);
            let made = actions.word(at, word)?;
            Ok(RuleValue::Name(made))
        }
        // HEADER_option:
        22 => Ok(RuleValue::HEADEROption(None)),
        // HEADER_option: 'HEADER'
        23 => {
            let item = lrpar_typed::next_lexeme(args);
            Ok(RuleValue::HEADEROption(Some(item)))
        }
        _ => unreachable!(),
    }
}

// The values of productions 24 to 31.
fn make_from_24<'text, A: Actions>(
    actions: &A,
    at: At<'_, 'text>,
    production: usize,
    args: &mut RuleArgs<'_, '_, 'text, A::Error>,
) -> Result<RuleValue, A::Error>
    requires low { 24 ≤ production }
    requires high { production < 32 }
    requires fits { AreOfRow (λ n. n) ⟦<Token<u32> as Lexeme<u32>>⟧.parts rule_of ROWS production args.old }
    requires hold { AllHold (HoldsOf (A.holds actions.now)) args.old.left }
    ensures rule { IsOfRow rule_of ROWS production result }
    ensures holds { IfOk result (HoldsOf (A.holds actions.now)) }
{
    match production {
        // Declaration_list:
        24 => Ok(RuleValue::DeclarationList(Vec::new(at.alloc))),
        // Declaration_list: Declaration_list Declaration
        25 => {
            let list = next_declaration_list(args);
            let item = next_declaration(args);
            Ok(RuleValue::DeclarationList(lrpar_typed::with_item(list, item)?))
        }
        // Rule_list:
        26 => Ok(RuleValue::RuleList(Vec::new(at.alloc))),
        // Rule_list: Rule_list Rule
        27 => {
            let list = next_rule_list(args);
            let item = next_rule(args);
            Ok(RuleValue::RuleList(lrpar_typed::with_item(list, item)?))
        }
        // Symbol_some: Symbol
        28 => {
            let item = next_symbol(args);
            Ok(RuleValue::SymbolSome(lrpar_typed::one_item(at.alloc, item)?))
        }
        // Symbol_some: Symbol_some Symbol
        29 => {
            let list = next_symbol_some(args);
            let item = next_symbol(args);
            Ok(RuleValue::SymbolSome(lrpar_typed::with_item(list, item)?))
        }
        // Name_some: Name
        30 => {
            let item = next_name(args);
            Ok(RuleValue::NameSome(lrpar_typed::one_item(at.alloc, item)?))
        }
        // Name_some: Name_some Name
        31 => {
            let list = next_name_some(args);
            let item = next_name(args);
            Ok(RuleValue::NameSome(lrpar_typed::with_item(list, item)?))
        }
        _ => unreachable!(),
    }
}

// The values of productions 32 to 37.
fn make_from_32<'text, A: Actions>(
    actions: &A,
    at: At<'_, 'text>,
    production: usize,
    args: &mut RuleArgs<'_, '_, 'text, A::Error>,
) -> Result<RuleValue, A::Error>
    requires low { 32 ≤ production }
    requires high { production < 38 }
    requires fits { AreOfRow (λ n. n) ⟦<Token<u32> as Lexeme<u32>>⟧.parts rule_of ROWS production args.old }
    requires hold { AllHold (HoldsOf (A.holds actions.now)) args.old.left }
    ensures rule { IsOfRow rule_of ROWS production result }
    ensures holds { IfOk result (HoldsOf (A.holds actions.now)) }
{
    match production {
        // Alternative_by_or: Alternative
        32 => {
            let item = next_alternative(args);
            Ok(RuleValue::AlternativeByOr(lrpar_typed::one_item(at.alloc, item)?))
        }
        // Alternative_by_or: Alternative_by_or '|' Alternative
        33 => {
            let list = next_alternative_by_or(args);
            let _or = lrpar_typed::next_lexeme(args);
            let item = next_alternative(args);
            Ok(RuleValue::AlternativeByOr(lrpar_typed::with_item(list, item)?))
        }
        // Part_list:
        34 => Ok(RuleValue::PartList(Vec::new(at.alloc))),
        // Part_list: Part_list Part
        35 => {
            let list = next_part_list(args);
            let item = next_part(args);
            Ok(RuleValue::PartList(lrpar_typed::with_item(list, item)?))
        }
        // Label_option:
        36 => Ok(RuleValue::LabelOption(None)),
        // Label_option: Label
        37 => {
            let item = next_label(args);
            Ok(RuleValue::LabelOption(Some(item)))
        }
        _ => unreachable!(),
    }
}

fn next_declaration<ErrorT: Drop>(args: &mut RuleArgs<'_, '_, '_, ErrorT>) -> Declaration
    requires { IsRuleNext rule_of 2 args.old.left }
    ensures { IsTaken args.old (RuleValue.Declaration result) args.new }
{
    match lrpar_typed::next_value(args) {
        RuleValue::Declaration(value) => value,
        _ => unreachable!(),
    }
}

fn next_rule<ErrorT: Drop>(args: &mut RuleArgs<'_, '_, '_, ErrorT>) -> Rule
    requires { IsRuleNext rule_of 3 args.old.left }
    ensures { IsTaken args.old (RuleValue.Rule result) args.new }
{
    match lrpar_typed::next_value(args) {
        RuleValue::Rule(value) => value,
        _ => unreachable!(),
    }
}

fn next_alternative<ErrorT: Drop>(args: &mut RuleArgs<'_, '_, '_, ErrorT>) -> Alternative
    requires { IsRuleNext rule_of 4 args.old.left }
    ensures { IsTaken args.old (RuleValue.Alternative result) args.new }
{
    match lrpar_typed::next_value(args) {
        RuleValue::Alternative(value) => value,
        _ => unreachable!(),
    }
}

fn next_label<ErrorT: Drop>(args: &mut RuleArgs<'_, '_, '_, ErrorT>) -> Label
    requires { IsRuleNext rule_of 5 args.old.left }
    ensures { IsTaken args.old (RuleValue.Label result) args.new }
{
    match lrpar_typed::next_value(args) {
        RuleValue::Label(value) => value,
        _ => unreachable!(),
    }
}

fn next_part<ErrorT: Drop>(args: &mut RuleArgs<'_, '_, '_, ErrorT>) -> Part
    requires { IsRuleNext rule_of 6 args.old.left }
    ensures { IsTaken args.old (RuleValue.Part result) args.new }
{
    match lrpar_typed::next_value(args) {
        RuleValue::Part(value) => value,
        _ => unreachable!(),
    }
}

fn next_item<ErrorT: Drop>(args: &mut RuleArgs<'_, '_, '_, ErrorT>) -> Item
    requires { IsRuleNext rule_of 7 args.old.left }
    ensures { IsTaken args.old (RuleValue.Item result) args.new }
{
    match lrpar_typed::next_value(args) {
        RuleValue::Item(value) => value,
        _ => unreachable!(),
    }
}

fn next_repeat<ErrorT: Drop>(args: &mut RuleArgs<'_, '_, '_, ErrorT>) -> Repeat
    requires { IsRuleNext rule_of 8 args.old.left }
    ensures { IsTaken args.old (RuleValue.Repeat result) args.new }
{
    match lrpar_typed::next_value(args) {
        RuleValue::Repeat(value) => value,
        _ => unreachable!(),
    }
}

fn next_symbol<ErrorT: Drop>(args: &mut RuleArgs<'_, '_, '_, ErrorT>) -> Mention
    requires { IsRuleNext rule_of 9 args.old.left }
    ensures { IsTaken args.old (RuleValue.Symbol result) args.new }
{
    match lrpar_typed::next_value(args) {
        RuleValue::Symbol(value) => value,
        _ => unreachable!(),
    }
}

fn next_name<ErrorT: Drop>(args: &mut RuleArgs<'_, '_, '_, ErrorT>) -> Span
    requires { IsRuleNext rule_of 10 args.old.left }
    ensures { IsTaken args.old (RuleValue.Name result) args.new }
{
    match lrpar_typed::next_value(args) {
        RuleValue::Name(value) => value,
        _ => unreachable!(),
    }
}

fn next_header_option<ErrorT: Drop>(args: &mut RuleArgs<'_, '_, '_, ErrorT>) -> Option<Token<u32>>
    requires { IsRuleNext rule_of 11 args.old.left }
    ensures { IsTaken args.old (RuleValue.HEADEROption result) args.new }
{
    match lrpar_typed::next_value(args) {
        RuleValue::HEADEROption(value) => value,
        _ => unreachable!(),
    }
}

fn next_declaration_list<ErrorT: Drop>(args: &mut RuleArgs<'_, '_, '_, ErrorT>) -> Vec<Declaration>
    requires { IsRuleNext rule_of 12 args.old.left }
    ensures { IsTaken args.old (RuleValue.DeclarationList result) args.new }
{
    match lrpar_typed::next_value(args) {
        RuleValue::DeclarationList(value) => value,
        _ => unreachable!(),
    }
}

fn next_rule_list<ErrorT: Drop>(args: &mut RuleArgs<'_, '_, '_, ErrorT>) -> Vec<Rule>
    requires { IsRuleNext rule_of 13 args.old.left }
    ensures { IsTaken args.old (RuleValue.RuleList result) args.new }
{
    match lrpar_typed::next_value(args) {
        RuleValue::RuleList(value) => value,
        _ => unreachable!(),
    }
}

fn next_symbol_some<ErrorT: Drop>(args: &mut RuleArgs<'_, '_, '_, ErrorT>) -> Vec<Mention>
    requires { IsRuleNext rule_of 14 args.old.left }
    ensures { IsTaken args.old (RuleValue.SymbolSome result) args.new }
{
    match lrpar_typed::next_value(args) {
        RuleValue::SymbolSome(value) => value,
        _ => unreachable!(),
    }
}

fn next_name_some<ErrorT: Drop>(args: &mut RuleArgs<'_, '_, '_, ErrorT>) -> Vec<Span>
    requires { IsRuleNext rule_of 15 args.old.left }
    ensures { IsTaken args.old (RuleValue.NameSome result) args.new }
{
    match lrpar_typed::next_value(args) {
        RuleValue::NameSome(value) => value,
        _ => unreachable!(),
    }
}

fn next_alternative_by_or<ErrorT: Drop>(args: &mut RuleArgs<'_, '_, '_, ErrorT>) -> Vec<Alternative>
    requires { IsRuleNext rule_of 16 args.old.left }
    ensures { IsTaken args.old (RuleValue.AlternativeByOr result) args.new }
{
    match lrpar_typed::next_value(args) {
        RuleValue::AlternativeByOr(value) => value,
        _ => unreachable!(),
    }
}

fn next_part_list<ErrorT: Drop>(args: &mut RuleArgs<'_, '_, '_, ErrorT>) -> Vec<Part>
    requires { IsRuleNext rule_of 17 args.old.left }
    ensures { IsTaken args.old (RuleValue.PartList result) args.new }
{
    match lrpar_typed::next_value(args) {
        RuleValue::PartList(value) => value,
        _ => unreachable!(),
    }
}

fn next_label_option<ErrorT: Drop>(args: &mut RuleArgs<'_, '_, '_, ErrorT>) -> Option<Label>
    requires { IsRuleNext rule_of 18 args.old.left }
    ensures { IsTaken args.old (RuleValue.LabelOption result) args.new }
{
    match lrpar_typed::next_value(args) {
        RuleValue::LabelOption(value) => value,
        _ => unreachable!(),
    }
}

/// Whether the grammar of a table has these productions, no others, and this start rule.
pub(crate) fn has_syntax(checked: &lrpar_typed::ParserData<u32>) -> bool
    ensures { IsTrue result ↔ AreRowsOf ROWS 1 checked.now.grammar }
{
    lrpar_typed::are_rows_of(&ROWS, 1, checked.grm())
}

/// A table whose grammar has these productions.
#[derive(Drop)]
pub(crate) struct Table {
    pub(crate) checked: lrpar_typed::ParserData<u32>,
    ghost fits: { AreRowsOf ROWS 1 checked.grammar },
}

impl Table {
    /// The table, if its grammar has these productions, no others, and this start rule.
    pub(crate) fn new(checked: lrpar_typed::ParserData<u32>) -> Option<Table> {
        if has_syntax(&checked) {
            Some(Table { checked })
        } else {
            None
        }
    }
}

/// The value of a text, if it has one, and its errors; or why there is neither.
pub(crate) type Parsed<ValueT, ErrorT> = Result<
    (
        Option<ValueT>,
        Vec<lrpar_typed::LexParseError<u32, TokenTypes<u32>>>,
    ),
    ErrorT,
>;

/// Parses a text to the value of `File`. What holds of values by the actions holds of it.
pub(crate) fn parse_file<R: Recoverer<u32, Token<u32>> + Drop, A: Actions>(
    alloc: Global,
    parser: &lrpar_typed::RTParserBuilder<'_, u32, TokenTypes<u32>, R>,
    lexer: &RuleLexer<'_, '_>,
    actions: &A,
) -> Parsed<File, A::Error>
    requires { AreRowsOf ROWS 1 parser.now.checked.grammar }
    ensures { IfOk result (ValueHolds (λ v. HoldsOf (A.holds actions.now) (RuleValue.File v))) }
{
    let (value, errors) = lrpar_typed::parse_typed(parser, alloc, lexer, &Acting { actions })?;
    match value {
        Some(RuleValue::File(value)) => Ok((Some(value), errors)),
        None => Ok((None, errors)),
        _ => unreachable!(),
    }
}
