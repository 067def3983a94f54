//! The syntax of a language, generated from its grammar by `nimbleparse --rust`. To change it, edit the grammar and generate it again.
//!
//! SHA-1 of the grammar: 7fed340ca0746ab1540cce6b7626173d5e68b2d8
ghost use Rattle.std.specs.Prelude.{◌<◌, ◌≤◌, ◌↔◌, IfOk, IsTrue, length};
ghost use Rattle.lrpar_typed.specs.Rows.{AllHold, AreOfRow, AreRowsOf, IsOfRow, IsRuleNext, IsTaken, TakesRow};
ghost use Rattle.lrpar_typed.specs.TypedParse.{ValueHolds};
ghost use Rattle.examples.specs.Syntax.{HoldsOf, rule_of};
ghost use Rattle.examples.specs.declared.syntax.RuleValue.{RuleValue};
ghost use Rattle.examples.specs.declared.syntax.TheConstants.{ROWS};

use crate::queries::tree::{Expr, Operator, Query, Stage};
use lrpar_lexer::{RuleLexer, Token, TokenTypes};
use lrpar_typed::{Lexeme, Recoverer, Typed};
use std::alloc::{AllocError, Global};

/// The grammar, as a grammar text.
pub(crate) const GRAMMAR: &str = r##"
%start File
%token ';'
%token 'let'
%token 'NAME'
%token '='
%token 'show'
%token 'from'
%token 'where'
%token 'select'
%token ','
%token 'take'
%token 'INT'
%token 'or'
%token 'and'
%token '<'
%token '+'
%token '-'
%token '*'
%token '/'
%token '('
%token ')'
%token 'TEXT'
%token 'null'
%%
File: File_group_list;
Statement: 'let' 'NAME' '=' Query
  | 'show' Query;
Query: 'from' 'NAME' Stage_list;
Stage: 'where' Expr
  | 'select' Expr_by_comma
  | 'take' 'INT';
Expr: Expr 'or' And
  | And;
And: And 'and' Comparison
  | Comparison;
Comparison: Sum '=' Sum
  | Sum '<' Sum
  | Sum;
Sum: Sum '+' Product
  | Sum '-' Product
  | Product;
Product: Product '*' Atom
  | Product '/' Atom
  | Atom;
Atom: 'NAME'
  | 'NAME' '(' Expr_by_comma ')'
  | 'INT'
  | 'TEXT'
  | 'null'
  | '(' Expr ')';
File_group: Statement ';';
File_group_list:
  | File_group_list File_group;
Stage_list:
  | Stage_list Stage;
Expr_by_comma: Expr
  | Expr_by_comma ',' Expr;
"##;

/// The numbers of tokens.
pub(crate) mod tokens {
    /// The token `;`.
    pub(crate) const SEMICOLON: u32 = 0;

    /// The token `let`.
    pub(crate) const LET: u32 = 1;

    /// The token `NAME`.
    pub(crate) const NAME: u32 = 2;

    /// The token `=`.
    pub(crate) const EQUALS: u32 = 3;

    /// The token `show`.
    pub(crate) const SHOW: u32 = 4;

    /// The token `from`.
    pub(crate) const FROM: u32 = 5;

    /// The token `where`.
    pub(crate) const WHERE: u32 = 6;

    /// The token `select`.
    pub(crate) const SELECT: u32 = 7;

    /// The token `,`.
    pub(crate) const COMMA: u32 = 8;

    /// The token `take`.
    pub(crate) const TAKE: u32 = 9;

    /// The token `INT`.
    pub(crate) const INT: u32 = 10;

    /// The token `or`.
    pub(crate) const OR: u32 = 11;

    /// The token `and`.
    pub(crate) const AND: u32 = 12;

    /// The token `<`.
    pub(crate) const LESS: u32 = 13;

    /// The token `+`.
    pub(crate) const PLUS: u32 = 14;

    /// The token `-`.
    pub(crate) const MINUS: u32 = 15;

    /// The token `*`.
    pub(crate) const STAR: u32 = 16;

    /// The token `/`.
    pub(crate) const SLASH: u32 = 17;

    /// The token `(`.
    pub(crate) const LEFT_PAREN: u32 = 18;

    /// The token `)`.
    pub(crate) const RIGHT_PAREN: u32 = 19;

    /// The token `TEXT`.
    pub(crate) const TEXT: u32 = 20;

    /// The token `null`.
    pub(crate) const NULL: u32 = 21;
}

/// The allocator, the lexer, and where a production is.
#[derive(Clone, Copy)]
pub(crate) struct At<'a, 'text> {
    pub(crate) alloc: Global,
    pub(crate) lexer: &'a RuleLexer<'a, 'text>,
    pub(crate) range: lrpar_typed::TextRange,
}

/// The values of productions.
pub(crate) trait Actions<'text> {
    /// Why a text has no value.
    type Error: Drop + From<lrpar_typed::ParseFault> + From<AllocError>;

    /// A fact about each value. An action may assume it of its arguments and has to prove it of its result, so it is true of the value of a
    /// parse. Of a list or an option it is asked of the items. Rules of the same type share the fact of the first of them. Leave it out to
    /// claim nothing.
    ghost holds: { Self → RuleValue → Type 0 } = { λ _ _. Unit {0} };

    /// `Statement: 'let' 'NAME' '=' Query`
    fn named_query(
        &self,
        at: At<'_, 'text>,
        name: Token<u32>,
        query: Query<'text>,
    ) -> Result<Query<'text>, Self::Error>
        requires { HoldsOf (holds self.now) (RuleValue.Query query) }
        ensures { IfOk result (λ made. HoldsOf (holds self.now) (RuleValue.Statement made)) };

    /// `Query: 'from' 'NAME' Stage_list`
    fn query(
        &self,
        at: At<'_, 'text>,
        name: Token<u32>,
        stages: Vec<Stage<'text>>,
    ) -> Result<Query<'text>, Self::Error>
        requires { HoldsOf (holds self.now) (RuleValue.StageList stages) }
        ensures { IfOk result (λ made. HoldsOf (holds self.now) (RuleValue.Query made)) };

    /// `Stage: 'where' Expr`
    fn filter(&self, at: At<'_, 'text>, condition: Expr<'text>) -> Result<Stage<'text>, Self::Error>
        requires { HoldsOf (holds self.now) (RuleValue.Expr condition) }
        ensures { IfOk result (λ made. HoldsOf (holds self.now) (RuleValue.Stage made)) };

    /// `Stage: 'select' Expr_by_comma`
    fn select(
        &self,
        at: At<'_, 'text>,
        columns: Vec<Expr<'text>>,
    ) -> Result<Stage<'text>, Self::Error>
        requires { HoldsOf (holds self.now) (RuleValue.ExprByComma columns) }
        ensures { IfOk result (λ made. HoldsOf (holds self.now) (RuleValue.Stage made)) };

    /// `Stage: 'take' 'INT'`
    fn take(&self, at: At<'_, 'text>, count: Token<u32>) -> Result<Stage<'text>, Self::Error>
        ensures { IfOk result (λ made. HoldsOf (holds self.now) (RuleValue.Stage made)) };

    /// `Expr: Expr 'or' And`
    /// `And: And 'and' Comparison`
    /// `Comparison: Sum '=' Sum`
    /// `Comparison: Sum '<' Sum`
    /// `Sum: Sum '+' Product`
    /// `Sum: Sum '-' Product`
    /// `Product: Product '*' Atom`
    /// `Product: Product '/' Atom`
    fn binary(
        &self,
        at: At<'_, 'text>,
        kind: Operator,
        left: Expr<'text>,
        right: Expr<'text>,
    ) -> Result<Expr<'text>, Self::Error>
        requires { HoldsOf (holds self.now) (RuleValue.Expr left) × HoldsOf (holds self.now) (RuleValue.And right) }
        ensures { IfOk result (λ made. HoldsOf (holds self.now) (RuleValue.Expr made)) };

    /// `Atom: 'NAME'`
    fn column(&self, at: At<'_, 'text>, name: Token<u32>) -> Result<Expr<'text>, Self::Error>
        ensures { IfOk result (λ made. HoldsOf (holds self.now) (RuleValue.Atom made)) };

    /// `Atom: 'NAME' '(' Expr_by_comma ')'`
    fn call(
        &self,
        at: At<'_, 'text>,
        name: Token<u32>,
        arguments: Vec<Expr<'text>>,
    ) -> Result<Expr<'text>, Self::Error>
        requires { HoldsOf (holds self.now) (RuleValue.ExprByComma arguments) }
        ensures { IfOk result (λ made. HoldsOf (holds self.now) (RuleValue.Atom made)) };

    /// `Atom: 'INT'`
    fn number(&self, at: At<'_, 'text>, digits: Token<u32>) -> Result<Expr<'text>, Self::Error>
        ensures { IfOk result (λ made. HoldsOf (holds self.now) (RuleValue.Atom made)) };

    /// `Atom: 'TEXT'`
    fn text(&self, at: At<'_, 'text>, text: Token<u32>) -> Result<Expr<'text>, Self::Error>
        ensures { IfOk result (λ made. HoldsOf (holds self.now) (RuleValue.Atom made)) };

    /// `Atom: 'null'`
    fn null(&self, at: At<'_, 'text>) -> Result<Expr<'text>, Self::Error>
        ensures { IfOk result (λ made. HoldsOf (holds self.now) (RuleValue.Atom made)) };
}

/// The value of a rule.
#[derive(Drop)]
pub(crate) enum RuleValue<'text> {
    File(Vec<Query<'text>>),
    Statement(Query<'text>),
    Query(Query<'text>),
    Stage(Stage<'text>),
    Expr(Expr<'text>),
    And(Expr<'text>),
    Comparison(Expr<'text>),
    Sum(Expr<'text>),
    Product(Expr<'text>),
    Atom(Expr<'text>),
    FileGroup(Query<'text>),
    FileGroupList(Vec<Query<'text>>),
    StageList(Vec<Stage<'text>>),
    ExprByComma(Vec<Expr<'text>>),
}

// The arguments of a production.
type RuleArgs<'a, 'rules, 'text, ErrorT> = lrpar_typed::Args<
    'a,
    RuleLexer<'rules, 'text>,
    Token<u32>,
    RuleValue<'text>,
    ErrorT,
>;

// The values by these actions.
#[derive(Drop)]
struct Acting<'a, A> {
    actions: &'a A,
}

// The productions: the rule and the symbols of each, rule r as 2r + 1, and token t as 2t + 2.
const ROWS: [[u32; 5]; 33] = [
    [3, 25, 0, 0, 0],
    [5, 4, 6, 8, 7],
    [5, 10, 7, 0, 0],
    [7, 12, 6, 27, 0],
    [9, 14, 11, 0, 0],
    [9, 16, 29, 0, 0],
    [9, 20, 22, 0, 0],
    [11, 11, 24, 13, 0],
    [11, 13, 0, 0, 0],
    [13, 13, 26, 15, 0],
    [13, 15, 0, 0, 0],
    [15, 17, 8, 17, 0],
    [15, 17, 28, 17, 0],
    [15, 17, 0, 0, 0],
    [17, 17, 30, 19, 0],
    [17, 17, 32, 19, 0],
    [17, 19, 0, 0, 0],
    [19, 19, 34, 21, 0],
    [19, 19, 36, 21, 0],
    [19, 21, 0, 0, 0],
    [21, 6, 0, 0, 0],
    [21, 6, 38, 29, 40],
    [21, 22, 0, 0, 0],
    [21, 42, 0, 0, 0],
    [21, 44, 0, 0, 0],
    [21, 38, 11, 40, 0],
    [23, 5, 2, 0, 0],
    [25, 0, 0, 0, 0],
    [25, 25, 23, 0, 0],
    [27, 0, 0, 0, 0],
    [27, 27, 9, 0, 0],
    [29, 11, 0, 0, 0],
    [29, 29, 18, 11, 0],
];

impl<'a, 'rules, 'text, A: Actions<'text>> Typed<u32, Token<u32>, RuleLexer<'rules, 'text>>
    for Acting<'a, A> {
    type Value = RuleValue<'text>;

    type Error = A::Error;

    ghost rows = { ROWS };

    ghost start = { 1 };

    ghost rule = { rule_of };

    ghost gives = { λ _ _ _ _. Unit {0} };

    ghost holds = { λ acting. HoldsOf (A.holds acting.actions.now) };

    fn takes(
        &self,
        pidx: lrpar_typed::PIdx<u32>,
        ridx: lrpar_typed::RIdx<u32>,
        symbols: &[lrpar_typed::Symbol<u32>],
    ) -> bool
        ensures { IsTrue result ↔ TakesRow (λ n. n) ROWS pidx ridx symbols.now }
    {
        lrpar_typed::has_row(&ROWS, pidx, ridx, symbols)
    }

    fn value(
        &self,
        alloc: Global,
        production: usize,
        args: &mut RuleArgs<'_, 'rules, 'text, A::Error>,
    ) -> Result<RuleValue<'text>, A::Error>
        requires within { production < length ROWS }
        requires fits { AreOfRow (λ n. n) ⟦<Token<u32> as Lexeme<u32>>⟧.parts rule_of ROWS production args.old }
        requires hold { AllHold (HoldsOf (A.holds self.now.actions.now)) args.old.left }
        ensures rule { IsOfRow rule_of ROWS production result }
        ensures gives { Unit {0} }
        ensures holds { IfOk result (HoldsOf (A.holds self.now.actions.now)) }
    {
        let at = At {
            alloc,
            lexer: args.lexer(),
            range: lrpar_typed::TextRange::from(args.span()),
        };
        if production < 8 {
            make_from_0(self.actions, at, production, args)
        } else if production < 16 {
            make_from_8(self.actions, at, production, args)
        } else if production < 24 {
            make_from_16(self.actions, at, production, args)
        } else if production < 32 {
            make_from_24(self.actions, at, production, args)
        } else {
            make_from_32(self.actions, at, production, args)
        }
    }
}

// The values of productions 0 to 7.
fn make_from_0<'text, A: Actions<'text>>(
    actions: &A,
    at: At<'_, 'text>,
    production: usize,
    args: &mut RuleArgs<'_, '_, 'text, A::Error>,
) -> Result<RuleValue<'text>, A::Error>
    requires high { production < 8 }
    requires fits { AreOfRow (λ n. n) ⟦<Token<u32> as Lexeme<u32>>⟧.parts rule_of ROWS production args.old }
    requires hold { AllHold (HoldsOf (A.holds actions.now)) args.old.left }
    ensures rule { IsOfRow rule_of ROWS production result }
    ensures holds { IfOk result (HoldsOf (A.holds actions.now)) }
{
    match production {
        // File: File_group_list
        0 => {
            let file_group_list = next_file_group_list(args);
            Ok(RuleValue::File(file_group_list))
        }
        // Statement: 'let' 'NAME' '=' Query
        1 => {
            let _let = lrpar_typed::next_lexeme(args);
            let name = lrpar_typed::next_lexeme(args);
            let _equals = lrpar_typed::next_lexeme(args);
            let query = next_query(args);
            let made = actions.named_query(at, name, query)?;
            Ok(RuleValue::Statement(made))
        }
        // Statement: 'show' Query
        2 => {
            let _show = lrpar_typed::next_lexeme(args);
            let query = next_query(args);
            Ok(RuleValue::Statement(query))
        }
        // Query: 'from' 'NAME' Stage_list
        3 => {
            let _from = lrpar_typed::next_lexeme(args);
            let name = lrpar_typed::next_lexeme(args);
            let stages = next_stage_list(args);
            let made = actions.query(at, name, stages)?;
            Ok(RuleValue::Query(made))
        }
        // Stage: 'where' Expr
        4 => {
            let _where = lrpar_typed::next_lexeme(args);
            let condition = next_expr(args);
            let made = actions.filter(at, condition)?;
            Ok(RuleValue::Stage(made))
        }
        // Stage: 'select' Expr_by_comma
        5 => {
            let _select = lrpar_typed::next_lexeme(args);
            let columns = next_expr_by_comma(args);
            let made = actions.select(at, columns)?;
            Ok(RuleValue::Stage(made))
        }
        // Stage: 'take' 'INT'
        6 => {
            let _take = lrpar_typed::next_lexeme(args);
            let count = lrpar_typed::next_lexeme(args);
            let made = actions.take(at, count)?;
            Ok(RuleValue::Stage(made))
        }
        // Expr: Expr 'or' And
        7 => {
            let left = next_expr(args);
            let _or = lrpar_typed::next_lexeme(args);
            let right = next_and(args);
            let made = actions.binary(at, Operator::Or, left, right)?;
            Ok(RuleValue::Expr(made))
        }
        _ => unreachable!(),
    }
}

// The values of productions 8 to 15.
fn make_from_8<'text, A: Actions<'text>>(
    actions: &A,
    at: At<'_, 'text>,
    production: usize,
    args: &mut RuleArgs<'_, '_, 'text, A::Error>,
) -> Result<RuleValue<'text>, A::Error>
    requires low { 8 ≤ production }
    requires high { production < 16 }
    requires fits { AreOfRow (λ n. n) ⟦<Token<u32> as Lexeme<u32>>⟧.parts rule_of ROWS production args.old }
    requires hold { AllHold (HoldsOf (A.holds actions.now)) args.old.left }
    ensures rule { IsOfRow rule_of ROWS production result }
    ensures holds { IfOk result (HoldsOf (A.holds actions.now)) }
{
    match production {
        // Expr: And
        8 => {
            let and = next_and(args);
            Ok(RuleValue::Expr(and))
        }
        // And: And 'and' Comparison
        9 => {
            let left = next_and(args);
            let _and = lrpar_typed::next_lexeme(args);
            let right = next_comparison(args);
            let made = actions.binary(at, Operator::And, left, right)?;
            Ok(RuleValue::And(made))
        }
        // And: Comparison
        10 => {
            let comparison = next_comparison(args);
            Ok(RuleValue::And(comparison))
        }
        // Comparison: Sum '=' Sum
        11 => {
            let left = next_sum(args);
            let _equals = lrpar_typed::next_lexeme(args);
            let right = next_sum(args);
            let made = actions.binary(at, Operator::Equal, left, right)?;
            Ok(RuleValue::Comparison(made))
        }
        // Comparison: Sum '<' Sum
        12 => {
            let left = next_sum(args);
            let _less = lrpar_typed::next_lexeme(args);
            let right = next_sum(args);
            let made = actions.binary(at, Operator::Less, left, right)?;
            Ok(RuleValue::Comparison(made))
        }
        // Comparison: Sum
        13 => {
            let sum = next_sum(args);
            Ok(RuleValue::Comparison(sum))
        }
        // Sum: Sum '+' Product
        14 => {
            let left = next_sum(args);
            let _plus = lrpar_typed::next_lexeme(args);
            let right = next_product(args);
            let made = actions.binary(at, Operator::Plus, left, right)?;
            Ok(RuleValue::Sum(made))
        }
        // Sum: Sum '-' Product
        15 => {
            let left = next_sum(args);
            let _minus = lrpar_typed::next_lexeme(args);
            let right = next_product(args);
            let made = actions.binary(at, Operator::Minus, left, right)?;
            Ok(RuleValue::Sum(made))
        }
        _ => unreachable!(),
    }
}

// The values of productions 16 to 23.
fn make_from_16<'text, A: Actions<'text>>(
    actions: &A,
    at: At<'_, 'text>,
    production: usize,
    args: &mut RuleArgs<'_, '_, 'text, A::Error>,
) -> Result<RuleValue<'text>, A::Error>
    requires low { 16 ≤ production }
    requires high { production < 24 }
    requires fits { AreOfRow (λ n. n) ⟦<Token<u32> as Lexeme<u32>>⟧.parts rule_of ROWS production args.old }
    requires hold { AllHold (HoldsOf (A.holds actions.now)) args.old.left }
    ensures rule { IsOfRow rule_of ROWS production result }
    ensures holds { IfOk result (HoldsOf (A.holds actions.now)) }
{
    match production {
        // Sum: Product
        16 => {
            let product = next_product(args);
            Ok(RuleValue::Sum(product))
        }
        // Product: Product '*' Atom
        17 => {
            let left = next_product(args);
            let _star = lrpar_typed::next_lexeme(args);
            let right = next_atom(args);
            let made = actions.binary(at, Operator::Times, left, right)?;
            Ok(RuleValue::Product(made))
        }
        // Product: Product '/' Atom
        18 => {
            let left = next_product(args);
            let _slash = lrpar_typed::next_lexeme(args);
            let right = next_atom(args);
            let made = actions.binary(at, Operator::Over, left, right)?;
            Ok(RuleValue::Product(made))
        }
        // Product: Atom
        19 => {
            let atom = next_atom(args);
            Ok(RuleValue::Product(atom))
        }
        // Atom: 'NAME'
        20 => {
            let name = lrpar_typed::next_lexeme(args);
            let made = actions.column(at, name)?;
            Ok(RuleValue::Atom(made))
        }
        // Atom: 'NAME' '(' Expr_by_comma ')'
        21 => {
            let name = lrpar_typed::next_lexeme(args);
            let _left_paren = lrpar_typed::next_lexeme(args);
            let arguments = next_expr_by_comma(args);
            let _right_paren = lrpar_typed::next_lexeme(args);
            let made = actions.call(at, name, arguments)?;
            Ok(RuleValue::Atom(made))
        }
        // Atom: 'INT'
        22 => {
            let digits = lrpar_typed::next_lexeme(args);
            let made = actions.number(at, digits)?;
            Ok(RuleValue::Atom(made))
        }
        // Atom: 'TEXT'
        23 => {
            let text = lrpar_typed::next_lexeme(args);
            let made = actions.text(at, text)?;
            Ok(RuleValue::Atom(made))
        }
        _ => unreachable!(),
    }
}

// The values of productions 24 to 31.
fn make_from_24<'text, A: Actions<'text>>(
    actions: &A,
    at: At<'_, 'text>,
    production: usize,
    args: &mut RuleArgs<'_, '_, 'text, A::Error>,
) -> Result<RuleValue<'text>, A::Error>
    requires low { 24 ≤ production }
    requires high { production < 32 }
    requires fits { AreOfRow (λ n. n) ⟦<Token<u32> as Lexeme<u32>>⟧.parts rule_of ROWS production args.old }
    requires hold { AllHold (HoldsOf (A.holds actions.now)) args.old.left }
    ensures rule { IsOfRow rule_of ROWS production result }
    ensures holds { IfOk result (HoldsOf (A.holds actions.now)) }
{
    match production {
        // Atom: 'null'
        24 => {
            let _null = lrpar_typed::next_lexeme(args);
            let made = actions.null(at)?;
            Ok(RuleValue::Atom(made))
        }
        // Atom: '(' Expr ')'
        25 => {
            let _left_paren = lrpar_typed::next_lexeme(args);
            let expr = next_expr(args);
            let _right_paren = lrpar_typed::next_lexeme(args);
            Ok(RuleValue::Atom(expr))
        }
        // File_group: Statement ';'
        26 => {
            let statement = next_statement(args);
            let _semicolon = lrpar_typed::next_lexeme(args);
            Ok(RuleValue::FileGroup(statement))
        }
        // File_group_list:
        27 => Ok(RuleValue::FileGroupList(Vec::new(at.alloc))),
        // File_group_list: File_group_list File_group
        28 => {
            let list = next_file_group_list(args);
            let item = next_file_group(args);
            Ok(RuleValue::FileGroupList(lrpar_typed::with_item(list, item)?))
        }
        // Stage_list:
        29 => Ok(RuleValue::StageList(Vec::new(at.alloc))),
        // Stage_list: Stage_list Stage
        30 => {
            let list = next_stage_list(args);
            let item = next_stage(args);
            Ok(RuleValue::StageList(lrpar_typed::with_item(list, item)?))
        }
        // Expr_by_comma: Expr
        31 => {
            let item = next_expr(args);
            Ok(RuleValue::ExprByComma(lrpar_typed::one_item(at.alloc, item)?))
        }
        _ => unreachable!(),
    }
}

// The values of productions 32 to 32.
fn make_from_32<'text, A: Actions<'text>>(
    actions: &A,
    at: At<'_, 'text>,
    production: usize,
    args: &mut RuleArgs<'_, '_, 'text, A::Error>,
) -> Result<RuleValue<'text>, A::Error>
    requires low { 32 ≤ production }
    requires high { production < 33 }
    requires fits { AreOfRow (λ n. n) ⟦<Token<u32> as Lexeme<u32>>⟧.parts rule_of ROWS production args.old }
    requires hold { AllHold (HoldsOf (A.holds actions.now)) args.old.left }
    ensures rule { IsOfRow rule_of ROWS production result }
    ensures holds { IfOk result (HoldsOf (A.holds actions.now)) }
{
    match production {
        // Expr_by_comma: Expr_by_comma ',' Expr
        32 => {
            let list = next_expr_by_comma(args);
            let _comma = lrpar_typed::next_lexeme(args);
            let item = next_expr(args);
            Ok(RuleValue::ExprByComma(lrpar_typed::with_item(list, item)?))
        }
        _ => unreachable!(),
    }
}

fn next_statement<'text, ErrorT: Drop>(args: &mut RuleArgs<'_, '_, 'text, ErrorT>) -> Query<'text>
    requires { IsRuleNext rule_of 2 args.old.left }
    ensures { IsTaken args.old (RuleValue.Statement result) args.new }
{
    match lrpar_typed::next_value(args) {
        RuleValue::Statement(value) => value,
        _ => unreachable!(),
    }
}

fn next_query<'text, ErrorT: Drop>(args: &mut RuleArgs<'_, '_, 'text, ErrorT>) -> Query<'text>
    requires { IsRuleNext rule_of 3 args.old.left }
    ensures { IsTaken args.old (RuleValue.Query result) args.new }
{
    match lrpar_typed::next_value(args) {
        RuleValue::Query(value) => value,
        _ => unreachable!(),
    }
}

fn next_stage<'text, ErrorT: Drop>(args: &mut RuleArgs<'_, '_, 'text, ErrorT>) -> Stage<'text>
    requires { IsRuleNext rule_of 4 args.old.left }
    ensures { IsTaken args.old (RuleValue.Stage result) args.new }
{
    match lrpar_typed::next_value(args) {
        RuleValue::Stage(value) => value,
        _ => unreachable!(),
    }
}

fn next_expr<'text, ErrorT: Drop>(args: &mut RuleArgs<'_, '_, 'text, ErrorT>) -> Expr<'text>
    requires { IsRuleNext rule_of 5 args.old.left }
    ensures { IsTaken args.old (RuleValue.Expr result) args.new }
{
    match lrpar_typed::next_value(args) {
        RuleValue::Expr(value) => value,
        _ => unreachable!(),
    }
}

fn next_and<'text, ErrorT: Drop>(args: &mut RuleArgs<'_, '_, 'text, ErrorT>) -> Expr<'text>
    requires { IsRuleNext rule_of 6 args.old.left }
    ensures { IsTaken args.old (RuleValue.And result) args.new }
{
    match lrpar_typed::next_value(args) {
        RuleValue::And(value) => value,
        _ => unreachable!(),
    }
}

fn next_comparison<'text, ErrorT: Drop>(args: &mut RuleArgs<'_, '_, 'text, ErrorT>) -> Expr<'text>
    requires { IsRuleNext rule_of 7 args.old.left }
    ensures { IsTaken args.old (RuleValue.Comparison result) args.new }
{
    match lrpar_typed::next_value(args) {
        RuleValue::Comparison(value) => value,
        _ => unreachable!(),
    }
}

fn next_sum<'text, ErrorT: Drop>(args: &mut RuleArgs<'_, '_, 'text, ErrorT>) -> Expr<'text>
    requires { IsRuleNext rule_of 8 args.old.left }
    ensures { IsTaken args.old (RuleValue.Sum result) args.new }
{
    match lrpar_typed::next_value(args) {
        RuleValue::Sum(value) => value,
        _ => unreachable!(),
    }
}

fn next_product<'text, ErrorT: Drop>(args: &mut RuleArgs<'_, '_, 'text, ErrorT>) -> Expr<'text>
    requires { IsRuleNext rule_of 9 args.old.left }
    ensures { IsTaken args.old (RuleValue.Product result) args.new }
{
    match lrpar_typed::next_value(args) {
        RuleValue::Product(value) => value,
        _ => unreachable!(),
    }
}

fn next_atom<'text, ErrorT: Drop>(args: &mut RuleArgs<'_, '_, 'text, ErrorT>) -> Expr<'text>
    requires { IsRuleNext rule_of 10 args.old.left }
    ensures { IsTaken args.old (RuleValue.Atom result) args.new }
{
    match lrpar_typed::next_value(args) {
        RuleValue::Atom(value) => value,
        _ => unreachable!(),
    }
}

fn next_file_group<'text, ErrorT: Drop>(args: &mut RuleArgs<'_, '_, 'text, ErrorT>) -> Query<'text>
    requires { IsRuleNext rule_of 11 args.old.left }
    ensures { IsTaken args.old (RuleValue.FileGroup result) args.new }
{
    match lrpar_typed::next_value(args) {
        RuleValue::FileGroup(value) => value,
        _ => unreachable!(),
    }
}

fn next_file_group_list<'text, ErrorT: Drop>(
    args: &mut RuleArgs<'_, '_, 'text, ErrorT>,
) -> Vec<Query<'text>>
    requires { IsRuleNext rule_of 12 args.old.left }
    ensures { IsTaken args.old (RuleValue.FileGroupList result) args.new }
{
    match lrpar_typed::next_value(args) {
        RuleValue::FileGroupList(value) => value,
        _ => unreachable!(),
    }
}

fn next_stage_list<'text, ErrorT: Drop>(
    args: &mut RuleArgs<'_, '_, 'text, ErrorT>,
) -> Vec<Stage<'text>>
    requires { IsRuleNext rule_of 13 args.old.left }
    ensures { IsTaken args.old (RuleValue.StageList result) args.new }
{
    match lrpar_typed::next_value(args) {
        RuleValue::StageList(value) => value,
        _ => unreachable!(),
    }
}

fn next_expr_by_comma<'text, ErrorT: Drop>(
    args: &mut RuleArgs<'_, '_, 'text, ErrorT>,
) -> Vec<Expr<'text>>
    requires { IsRuleNext rule_of 14 args.old.left }
    ensures { IsTaken args.old (RuleValue.ExprByComma result) args.new }
{
    match lrpar_typed::next_value(args) {
        RuleValue::ExprByComma(value) => value,
        _ => unreachable!(),
    }
}

/// Whether the grammar of a table has these productions, no others, and this start rule.
pub(crate) fn has_syntax(checked: &lrpar_typed::ParserData<u32>) -> bool
    ensures { IsTrue result ↔ AreRowsOf ROWS 1 checked.now.grammar }
{
    lrpar_typed::are_rows_of(&ROWS, 1, checked.grm())
}

/// A table whose grammar has these productions.
#[derive(Drop)]
pub(crate) struct Table {
    pub(crate) checked: lrpar_typed::ParserData<u32>,
    ghost fits: { AreRowsOf ROWS 1 checked.grammar },
}

impl Table {
    /// The table, if its grammar has these productions, no others, and this start rule.
    pub(crate) fn new(checked: lrpar_typed::ParserData<u32>) -> Option<Table> {
        if has_syntax(&checked) {
            Some(Table { checked })
        } else {
            None
        }
    }
}

/// The value of a text, if it has one, and its errors; or why there is neither.
pub(crate) type Parsed<ValueT, ErrorT> = Result<
    (
        Option<ValueT>,
        Vec<lrpar_typed::LexParseError<u32, TokenTypes<u32>>>,
    ),
    ErrorT,
>;

/// Parses a text to the value of `File`. What holds of values by the actions holds of it.
pub(crate) fn parse_file<'text, R: Recoverer<u32, Token<u32>> + Drop, A: Actions<'text>>(
    alloc: Global,
    parser: &lrpar_typed::RTParserBuilder<'_, u32, TokenTypes<u32>, R>,
    lexer: &RuleLexer<'_, 'text>,
    actions: &A,
) -> Parsed<Vec<Query<'text>>, A::Error>
    requires { AreRowsOf ROWS 1 parser.now.checked.grammar }
    ensures { IfOk result (ValueHolds (λ v. HoldsOf (A.holds actions.now) (RuleValue.File v))) }
{
    let (value, errors) = lrpar_typed::parse_typed(parser, alloc, lexer, &Acting { actions })?;
    match value {
        Some(RuleValue::File(value)) => Ok((Some(value), errors)),
        None => Ok((None, errors)),
        _ => unreachable!(),
    }
}
