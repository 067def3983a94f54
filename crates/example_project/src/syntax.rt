//! The syntax of a language, generated from its grammar by `nimbleparse --rust`. To change it, edit the grammar and generate it again.
//!
//! SHA-1 of the grammar: 95e98c98d62ff95bd201a9dc2d779c3eea6c7fb7
ghost use Rattle.std.specs.Prelude.{◌<◌, ◌≤◌, ◌↔◌, IfOk, IsTrue, length};
ghost use Rattle.lrpar_typed.specs.Rows.{AllHold, AreOfRow, AreRowsOf, IsOfRow, IsRuleNext, IsTaken, TakesRow};
ghost use Rattle.lrpar_typed.specs.TypedParse.{ValueHolds};
ghost use Rattle.example_project.specs.Syntax.{HoldsOf, rule_of};
ghost use Rattle.example_project.specs.declared.syntax.RuleValue.{RuleValue};
ghost use Rattle.example_project.specs.declared.syntax.TheConstants.{ROWS};

use crate::values::Setting;
use lrpar_lexer::{RuleLexer, Token, TokenTypes};
use lrpar_typed::{Lexeme, Recoverer, Typed};
use std::alloc::{AllocError, Global};

/// The grammar, as a grammar text.
pub(crate) const GRAMMAR: &str = r##"
%start File
%token 'NAME'
%token '='
%token ';'
%token 'DIGITS'
%token '+'
%%
File: Setting_list;
Setting: 'NAME' '=' Number ';';
Number: 'DIGITS'
  | Number '+' 'DIGITS';
Setting_list:
  | Setting_list Setting;
"##;

/// The numbers of tokens.
pub(crate) mod tokens {
    /// The token `NAME`.
    pub(crate) const NAME: u32 = 0;

    /// The token `=`.
    pub(crate) const EQUALS: u32 = 1;

    /// The token `;`.
    pub(crate) const SEMICOLON: u32 = 2;

    /// The token `DIGITS`.
    pub(crate) const DIGITS: u32 = 3;

    /// The token `+`.
    pub(crate) const PLUS: u32 = 4;
}

/// The allocator, the lexer, and where a production is.
#[derive(Clone, Copy)]
pub(crate) struct At<'a, 'text> {
    pub(crate) alloc: Global,
    pub(crate) lexer: &'a RuleLexer<'a, 'text>,
    pub(crate) range: lrpar_typed::TextRange,
}

/// The values of productions.
pub(crate) trait Actions<'text> {
    /// Why a text has no value.
    type Error: Drop + From<lrpar_typed::ParseFault> + From<AllocError>;

    /// A fact about each value. An action may assume it of its arguments and has to prove it of its result, so it is true of the value of a
    /// parse. Of a list or an option it is asked of the items. Rules of the same type share the fact of the first of them. Leave it out to
    /// claim nothing.
    ghost holds: { Self → RuleValue → Type 0 } = { λ _ _. Unit {0} };

    /// `Setting: 'NAME' '=' Number ';'`
    fn setting(
        &self,
        at: At<'_, 'text>,
        name: Token<u32>,
        value: u64,
    ) -> Result<Setting<'text>, Self::Error>
        requires { HoldsOf (holds self.now) (RuleValue.Number value) }
        ensures { IfOk result (λ made. HoldsOf (holds self.now) (RuleValue.Setting made)) };

    /// `Number: 'DIGITS'`
    fn number(&self, at: At<'_, 'text>, digits: Token<u32>) -> Result<u64, Self::Error>
        ensures { IfOk result (λ made. HoldsOf (holds self.now) (RuleValue.Number made)) };

    /// `Number: Number '+' 'DIGITS'`
    fn sum(&self, at: At<'_, 'text>, left: u64, digits: Token<u32>) -> Result<u64, Self::Error>
        requires { HoldsOf (holds self.now) (RuleValue.Number left) }
        ensures { IfOk result (λ made. HoldsOf (holds self.now) (RuleValue.Number made)) };
}

/// The value of a rule.
#[derive(Drop)]
pub(crate) enum RuleValue<'text> {
    File(Vec<Setting<'text>>),
    Setting(Setting<'text>),
    Number(u64),
    SettingList(Vec<Setting<'text>>),
}

// The arguments of a production.
type RuleArgs<'a, 'rules, 'text, ErrorT> = lrpar_typed::Args<
    'a,
    RuleLexer<'rules, 'text>,
    Token<u32>,
    RuleValue<'text>,
    ErrorT,
>;

// The values by these actions.
#[derive(Drop)]
struct Acting<'a, A> {
    actions: &'a A,
}

// The productions: the rule and the symbols of each, rule r as 2r + 1, and token t as 2t + 2.
const ROWS: [[u32; 5]; 6] = [
    [3, 9, 0, 0, 0],
    [5, 2, 4, 7, 6],
    [7, 8, 0, 0, 0],
    [7, 7, 10, 8, 0],
    [9, 0, 0, 0, 0],
    [9, 9, 5, 0, 0],
];

impl<'a, 'rules, 'text, A: Actions<'text>> Typed<u32, Token<u32>, RuleLexer<'rules, 'text>>
    for Acting<'a, A> {
    type Value = RuleValue<'text>;

    type Error = A::Error;

    ghost rows = { ROWS };

    ghost start = { 1 };

    ghost rule = { rule_of };

    ghost gives = { λ _ _ _ _. Unit {0} };

    ghost holds = { λ acting. HoldsOf (A.holds acting.actions.now) };

    fn takes(
        &self,
        pidx: lrpar_typed::PIdx<u32>,
        ridx: lrpar_typed::RIdx<u32>,
        symbols: &[lrpar_typed::Symbol<u32>],
    ) -> bool
        ensures { IsTrue result ↔ TakesRow (λ n. n) ROWS pidx ridx symbols.now }
    {
        lrpar_typed::has_row(&ROWS, pidx, ridx, symbols)
    }

    fn value(
        &self,
        alloc: Global,
        production: usize,
        args: &mut RuleArgs<'_, 'rules, 'text, A::Error>,
    ) -> Result<RuleValue<'text>, A::Error>
        requires within { production < length ROWS }
        requires fits { AreOfRow (λ n. n) ⟦<Token<u32> as Lexeme<u32>>⟧.parts rule_of ROWS production args.old }
        requires hold { AllHold (HoldsOf (A.holds self.now.actions.now)) args.old.left }
        ensures rule { IsOfRow rule_of ROWS production result }
        ensures gives { Unit {0} }
        ensures holds { IfOk result (HoldsOf (A.holds self.now.actions.now)) }
    {
        let at = At {
            alloc,
            lexer: args.lexer(),
            range: lrpar_typed::TextRange::from(args.span()),
        };
        make_from_0(self.actions, at, production, args)
    }
}

// The values of productions 0 to 5.
fn make_from_0<'text, A: Actions<'text>>(
    actions: &A,
    at: At<'_, 'text>,
    production: usize,
    args: &mut RuleArgs<'_, '_, 'text, A::Error>,
) -> Result<RuleValue<'text>, A::Error>
    requires high { production < 6 }
    requires fits { AreOfRow (λ n. n) ⟦<Token<u32> as Lexeme<u32>>⟧.parts rule_of ROWS production args.old }
    requires hold { AllHold (HoldsOf (A.holds actions.now)) args.old.left }
    ensures rule { IsOfRow rule_of ROWS production result }
    ensures holds { IfOk result (HoldsOf (A.holds actions.now)) }
{
    match production {
        // File: Setting_list
        0 => {
            let setting_list = next_setting_list(args);
            Ok(RuleValue::File(setting_list))
        }
        // Setting: 'NAME' '=' Number ';'
        1 => {
            let name = lrpar_typed::next_lexeme(args);
            let _equals = lrpar_typed::next_lexeme(args);
            let value = next_number(args);
            let _semicolon = lrpar_typed::next_lexeme(args);
            let made = actions.setting(at, name, value)?;
            Ok(RuleValue::Setting(made))
        }
        // Number: 'DIGITS'
        2 => {
            let digits = lrpar_typed::next_lexeme(args);
            let made = actions.number(at, digits)?;
            Ok(RuleValue::Number(made))
        }
        // Number: Number '+' 'DIGITS'
        3 => {
            let left = next_number(args);
            let _plus = lrpar_typed::next_lexeme(args);
            let digits = lrpar_typed::next_lexeme(args);
            let made = actions.sum(at, left, digits)?;
            Ok(RuleValue::Number(made))
        }
        // Setting_list:
        4 => Ok(RuleValue::SettingList(Vec::new(at.alloc))),
        // Setting_list: Setting_list Setting
        5 => {
            let list = next_setting_list(args);
            let item = next_setting(args);
            Ok(RuleValue::SettingList(lrpar_typed::with_item(list, item)?))
        }
        _ => unreachable!(),
    }
}

fn next_setting<'text, ErrorT: Drop>(args: &mut RuleArgs<'_, '_, 'text, ErrorT>) -> Setting<'text>
    requires { IsRuleNext rule_of 2 args.old.left }
    ensures { IsTaken args.old (RuleValue.Setting result) args.new }
{
    match lrpar_typed::next_value(args) {
        RuleValue::Setting(value) => value,
        _ => unreachable!(),
    }
}

fn next_number<'text, ErrorT: Drop>(args: &mut RuleArgs<'_, '_, 'text, ErrorT>) -> u64
    requires { IsRuleNext rule_of 3 args.old.left }
    ensures { IsTaken args.old (RuleValue.Number result) args.new }
{
    match lrpar_typed::next_value(args) {
        RuleValue::Number(value) => value,
        _ => unreachable!(),
    }
}

fn next_setting_list<'text, ErrorT: Drop>(
    args: &mut RuleArgs<'_, '_, 'text, ErrorT>,
) -> Vec<Setting<'text>>
    requires { IsRuleNext rule_of 4 args.old.left }
    ensures { IsTaken args.old (RuleValue.SettingList result) args.new }
{
    match lrpar_typed::next_value(args) {
        RuleValue::SettingList(value) => value,
        _ => unreachable!(),
    }
}

/// Whether the grammar of a table has these productions, no others, and this start rule.
pub(crate) fn has_syntax(checked: &lrpar_typed::ParserData<u32>) -> bool
    ensures { IsTrue result ↔ AreRowsOf ROWS 1 checked.now.grammar }
{
    lrpar_typed::are_rows_of(&ROWS, 1, checked.grm())
}

/// A table whose grammar has these productions.
#[derive(Drop)]
pub(crate) struct Table {
    pub(crate) checked: lrpar_typed::ParserData<u32>,
    ghost fits: { AreRowsOf ROWS 1 checked.grammar },
}

impl Table {
    /// The table, if its grammar has these productions, no others, and this start rule.
    pub(crate) fn new(checked: lrpar_typed::ParserData<u32>) -> Option<Table> {
        if has_syntax(&checked) {
            Some(Table { checked })
        } else {
            None
        }
    }
}

/// The value of a text, if it has one, and its errors; or why there is neither.
pub(crate) type Parsed<ValueT, ErrorT> = Result<
    (
        Option<ValueT>,
        Vec<lrpar_typed::LexParseError<u32, TokenTypes<u32>>>,
    ),
    ErrorT,
>;

/// Parses a text to the value of `File`. What holds of values by the actions holds of it.
pub(crate) fn parse_file<'text, R: Recoverer<u32, Token<u32>> + Drop, A: Actions<'text>>(
    alloc: Global,
    parser: &lrpar_typed::RTParserBuilder<'_, u32, TokenTypes<u32>, R>,
    lexer: &RuleLexer<'_, 'text>,
    actions: &A,
) -> Parsed<Vec<Setting<'text>>, A::Error>
    requires { AreRowsOf ROWS 1 parser.now.checked.grammar }
    ensures { IfOk result (ValueHolds (λ v. HoldsOf (A.holds actions.now) (RuleValue.File v))) }
{
    let (value, errors) = lrpar_typed::parse_typed(parser, alloc, lexer, &Acting { actions })?;
    match value {
        Some(RuleValue::File(value)) => Ok((Some(value), errors)),
        None => Ok((None, errors)),
        _ => unreachable!(),
    }
}
