//! The syntax of a language, generated from its grammar by `nimbleparse --rust`. To change it, edit the grammar and generate it again.
//!
//! SHA-1 of the grammar: b5f7d23d61d9863cafca353608c66eeba77841ab
ghost use Rattle.std.specs.Prelude.{◌<◌, ◌≤◌, ◌↔◌, IfOk, IsTrue, length};
ghost use Rattle.lrpar_typed.specs.Rows.{AllHold, AreOfRow, AreRowsOf, IsOfRow, IsRuleNext, IsTaken, TakesRow};
ghost use Rattle.lrpar_typed.specs.TypedParse.{ValueHolds};
ghost use Rattle.test_headline.specs.Syntax.{HoldsOf, rule_of};
ghost use Rattle.test_headline.specs.declared.syntax.RuleValue.{RuleValue};
ghost use Rattle.test_headline.specs.declared.syntax.TheConstants.{ROWS};

use lrpar_lexer::{RuleLexer, Token, TokenTypes};
use lrpar_typed::{Lexeme, Recoverer, Typed};
use std::alloc::{AllocError, Global};

/// The grammar, as a grammar text.
pub(crate) const GRAMMAR: &str = r##"
%start Percents
%token ','
%token 'DIGITS'
%%
Percents: Percent_by_comma;
Percent: 'DIGITS';
Percent_by_comma: Percent
  | Percent_by_comma ',' Percent;
"##;

/// The numbers of tokens.
pub(crate) mod tokens {
    /// The token `,`.
    pub(crate) const COMMA: u32 = 0;

    /// The token `DIGITS`.
    pub(crate) const DIGITS: u32 = 1;
}

/// The allocator, the lexer, and where a production is.
#[derive(Clone, Copy)]
pub(crate) struct At<'a, 'text> {
    pub(crate) alloc: Global,
    pub(crate) lexer: &'a RuleLexer<'a, 'text>,
    pub(crate) range: lrpar_typed::TextRange,
}

/// The values of productions.
pub(crate) trait Actions {
    /// Why a text has no value.
    type Error: Drop + From<lrpar_typed::ParseFault> + From<AllocError>;

    /// A fact about each value. An action may assume it of its arguments and has to prove it of its result, so it is true of the value of a
    /// parse. Of a list or an option it is asked of the items. Rules of the same type share the fact of the first of them. Leave it out to
    /// claim nothing.
    ghost holds: { Self → RuleValue → Type 0 } = { λ _ _. Unit {0} };

    /// `Percent: 'DIGITS'`
    fn percent(&self, at: At<'_, '_>, digits: Token<u32>) -> Result<u8, Self::Error>
        ensures { IfOk result (λ made. HoldsOf (holds self.now) (RuleValue.Percent made)) };
}

/// The value of a rule.
#[derive(Drop)]
pub(crate) enum RuleValue {
    Percents(Vec<u8>),
    Percent(u8),
    PercentByComma(Vec<u8>),
}

// The arguments of a production.
type RuleArgs<'a, 'rules, 'text, ErrorT> = lrpar_typed::Args<
    'a,
    RuleLexer<'rules, 'text>,
    Token<u32>,
    RuleValue,
    ErrorT,
>;

// The values by these actions.
#[derive(Drop)]
struct Acting<'a, A> {
    actions: &'a A,
}

// The productions: the rule and the symbols of each, rule r as 2r + 1, and token t as 2t + 2.
const ROWS: [[u32; 4]; 4] = [[3, 7, 0, 0], [5, 4, 0, 0], [7, 5, 0, 0], [7, 7, 2, 5]];

impl<'a, 'rules, 'text, A: Actions> Typed<u32, Token<u32>, RuleLexer<'rules, 'text>>
    for Acting<'a, A> {
    type Value = RuleValue;

    type Error = A::Error;

    ghost rows = { ROWS };

    ghost start = { 1 };

    ghost rule = { rule_of };

    ghost gives = { λ _ _ _ _. Unit {0} };

    ghost holds = { λ acting. HoldsOf (A.holds acting.actions.now) };

    fn takes(
        &self,
        pidx: lrpar_typed::PIdx<u32>,
        ridx: lrpar_typed::RIdx<u32>,
        symbols: &[lrpar_typed::Symbol<u32>],
    ) -> bool
        ensures { IsTrue result ↔ TakesRow (λ n. n) ROWS pidx ridx symbols.now }
    {
        lrpar_typed::has_row(&ROWS, pidx, ridx, symbols)
    }

    fn value(
        &self,
        alloc: Global,
        production: usize,
        args: &mut RuleArgs<'_, 'rules, 'text, A::Error>,
    ) -> Result<RuleValue, A::Error>
        requires within { production < length ROWS }
        requires fits { AreOfRow (λ n. n) ⟦<Token<u32> as Lexeme<u32>>⟧.parts rule_of ROWS production args.old }
        requires hold { AllHold (HoldsOf (A.holds self.now.actions.now)) args.old.left }
        ensures rule { IsOfRow rule_of ROWS production result }
        ensures gives { Unit {0} }
        ensures holds { IfOk result (HoldsOf (A.holds self.now.actions.now)) }
    {
        let at = At {
            alloc,
            lexer: args.lexer(),
            range: lrpar_typed::TextRange::from(args.span()),
        };
        make_from_0(self.actions, at, production, args)
    }
}

// The values of productions 0 to 3.
fn make_from_0<'text, A: Actions>(
    actions: &A,
    at: At<'_, 'text>,
    production: usize,
    args: &mut RuleArgs<'_, '_, 'text, A::Error>,
) -> Result<RuleValue, A::Error>
    requires high { production < 4 }
    requires fits { AreOfRow (λ n. n) ⟦<Token<u32> as Lexeme<u32>>⟧.parts rule_of ROWS production args.old }
    requires hold { AllHold (HoldsOf (A.holds actions.now)) args.old.left }
    ensures rule { IsOfRow rule_of ROWS production result }
    ensures holds { IfOk result (HoldsOf (A.holds actions.now)) }
{
    match production {
        // Percents: Percent_by_comma
        0 => {
            let percent_by_comma = next_percent_by_comma(args);
            Ok(RuleValue::Percents(percent_by_comma))
        }
        // Percent: 'DIGITS'
        1 => {
            let digits = lrpar_typed::next_lexeme(args);
            let made = actions.percent(at, digits)?;
            Ok(RuleValue::Percent(made))
        }
        // Percent_by_comma: Percent
        2 => {
            let item = next_percent(args);
            Ok(RuleValue::PercentByComma(lrpar_typed::one_item(at.alloc, item)?))
        }
        // Percent_by_comma: Percent_by_comma ',' Percent
        3 => {
            let list = next_percent_by_comma(args);
            let _comma = lrpar_typed::next_lexeme(args);
            let item = next_percent(args);
            Ok(RuleValue::PercentByComma(lrpar_typed::with_item(list, item)?))
        }
        _ => unreachable!(),
    }
}

fn next_percent<ErrorT: Drop>(args: &mut RuleArgs<'_, '_, '_, ErrorT>) -> u8
    requires { IsRuleNext rule_of 2 args.old.left }
    ensures { IsTaken args.old (RuleValue.Percent result) args.new }
{
    match lrpar_typed::next_value(args) {
        RuleValue::Percent(value) => value,
        _ => unreachable!(),
    }
}

fn next_percent_by_comma<ErrorT: Drop>(args: &mut RuleArgs<'_, '_, '_, ErrorT>) -> Vec<u8>
    requires { IsRuleNext rule_of 3 args.old.left }
    ensures { IsTaken args.old (RuleValue.PercentByComma result) args.new }
{
    match lrpar_typed::next_value(args) {
        RuleValue::PercentByComma(value) => value,
        _ => unreachable!(),
    }
}

/// Whether the grammar of a table has these productions, no others, and this start rule.
pub(crate) fn has_syntax(checked: &lrpar_typed::ParserData<u32>) -> bool
    ensures { IsTrue result ↔ AreRowsOf ROWS 1 checked.now.grammar }
{
    lrpar_typed::are_rows_of(&ROWS, 1, checked.grm())
}

/// A table whose grammar has these productions.
#[derive(Drop)]
pub(crate) struct Table {
    pub(crate) checked: lrpar_typed::ParserData<u32>,
    ghost fits: { AreRowsOf ROWS 1 checked.grammar },
}

impl Table {
    /// The table, if its grammar has these productions, no others, and this start rule.
    pub(crate) fn new(checked: lrpar_typed::ParserData<u32>) -> Option<Table> {
        if has_syntax(&checked) {
            Some(Table { checked })
        } else {
            None
        }
    }
}

/// The value of a text, if it has one, and its errors; or why there is neither.
pub(crate) type Parsed<ValueT, ErrorT> = Result<
    (
        Option<ValueT>,
        Vec<lrpar_typed::LexParseError<u32, TokenTypes<u32>>>,
    ),
    ErrorT,
>;

/// Parses a text to the value of `Percents`. What holds of values by the actions holds of it.
pub(crate) fn parse_percents<R: Recoverer<u32, Token<u32>> + Drop, A: Actions>(
    alloc: Global,
    parser: &lrpar_typed::RTParserBuilder<'_, u32, TokenTypes<u32>, R>,
    lexer: &RuleLexer<'_, '_>,
    actions: &A,
) -> Parsed<Vec<u8>, A::Error>
    requires { AreRowsOf ROWS 1 parser.now.checked.grammar }
    ensures { IfOk result (ValueHolds (λ v. HoldsOf (A.holds actions.now) (RuleValue.Percents v))) }
{
    let (value, errors) = lrpar_typed::parse_typed(parser, alloc, lexer, &Acting { actions })?;
    match value {
        Some(RuleValue::Percents(value)) => Ok((Some(value), errors)),
        None => Ok((None, errors)),
        _ => unreachable!(),
    }
}
