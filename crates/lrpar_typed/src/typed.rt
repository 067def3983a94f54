//! What generated code implements.
ghost use Rattle.std.specs.Prelude.{◌<◌, ◌↔◌, ℕ, List, Result, IfOk, IsTrue, length};
ghost use Rattle.lrpar_parse.specs.Arguments.{Answers};
ghost use Rattle.lrpar_parse.specs.ValueArguments.{ValueArguments};
ghost use Rattle.lrpar_parse.specs.Values.{GivesOrCarries};
ghost use Rattle.lrpar_typed.specs.Rows.{AllHold, AreOfRow, FitRow, IsOfRow, IsOfRule, IsRow, TakesRow};

use lrpar_grammar::span::{PIdx, RIdx, Span, StorageIndex, Symbol};
use lrpar_parse::failures::{first_failure, has_failure};
use lrpar_parse::parser::{AStackType, Actions, Args, ParseFault};
use lrpar_parse_lexemes::lex_api::Lexeme;
use std::alloc::{AllocError, Global};

/// Values whose types are those of their rules: what code that is generated from a grammar implements.
///
/// A value is an enum with a variant for each rule. `value` gets the arguments of the production with this number, and each has the kind of its
/// symbol, so a match of one on the variant of its rule is exhaustive: that is proved, by the rows.
pub trait Typed<StorageT: StorageIndex, LexemeT: Lexeme<StorageT>, LexerT> {
    /// The values of rules: each has the number of its rule.
    type Value: Drop;

    /// Why a production has no value. It is made of a `ParseFault`, so that it also says why a parse has no result.
    type Error: Drop + From<ParseFault>;

    /// The productions, a row each: the kind of the rule, those of its symbols, and zeros.
    ghost rows: { List (List ℕ) };

    /// The start rule.
    ghost start: { ℕ };

    /// The rule of a value.
    ghost rule: { Self.Value → ℕ };

    /// The results that `value` may have, by production and arguments.
    ghost gives: { Self → ℕ → ValueArguments LexerT LexemeT Self.Value → Result Self.Value Self.Error → Type 0 };

    /// A fact about each value. `value` may assume it of its arguments and has to prove it of its result, so it is true of the value of a
    /// parse. Leave it out to claim nothing.
    ghost holds: { Self → Self.Value → Type 0 } = { λ _ _. Unit {0} };

    /// Whether the rows have the production of this number, this rule and these symbols.
    fn takes(
        &self,
        pidx: PIdx<StorageT>,
        ridx: RIdx<StorageT>,
        symbols: &[Symbol<StorageT>],
    ) -> bool
        ensures { IsTrue result ↔ TakesRow StorageT.index rows pidx ridx symbols.now };

    /// The value of a production, from its number and the arguments for its symbols. It is called for each production of the tree but those
    /// that have an error among their arguments: from left to right, each after those below it.
    ///
    /// An `Err` doesn't end the parse. It is the value of each production above, until `parse_typed` returns it.
    fn value(
        &self,
        alloc: Global,
        production: usize,
        args: &mut Args<'_, LexerT, LexemeT, Self::Value, Self::Error>,
    ) -> Result<Self::Value, Self::Error>
        requires within { production < length rows }
        requires fits { AreOfRow StorageT.index LexemeT.parts rule rows production args.old }
        requires hold { AllHold (holds self.now) args.old.left }
        ensures rule { IsOfRow rule rows production result }
        ensures gives { gives self.now production args.old result }
        ensures holds { IfOk result (holds self.now) };
}

/// The actions that make typed values: the value of a production with an error among its arguments is the first such error.
#[derive(Drop)]
pub(crate) struct Typing<'a, T> {
    pub(crate) typed: &'a T,
}

impl<
    'a,
    StorageT: StorageIndex,
    LexemeT: Lexeme<StorageT>,
    LexerT,
    T: Typed<StorageT, LexemeT, LexerT>,
> Actions<StorageT, LexemeT, LexerT> for Typing<'a, T> {
    type ActionT = Result<T::Value, T::Error>;

    type ParamT = ();

    ghost taken = { λ _ p r symbols. IsRow T.rows p r symbols };

    ghost fact = { λ typing r v. IsOfRule T.rule (T.holds typing.typed.now) r v };

    ghost answers = { λ typing. GivesOrCarries (T.gives typing.typed.now) };

    fn takes(
        &self,
        pidx: PIdx<StorageT>,
        ridx: RIdx<StorageT>,
        symbols: &[Symbol<StorageT>],
    ) -> bool
        ensures { IsTrue result ↔ TakesRow StorageT.index T.rows pidx ridx symbols.now }
    {
        self.typed.takes(pidx, ridx, symbols)
    }

    fn act(
        &self,
        alloc: Global,
        pidx: PIdx<StorageT>,
        ridx: RIdx<StorageT>,
        lexer: &LexerT,
        span: Span,
        args: Vec<AStackType<LexemeT, Result<T::Value, T::Error>>>,
        param: &(),
    ) -> Result<Result<T::Value, T::Error>, AllocError>
        requires { FitRow StorageT.index LexemeT.parts T.rule (T.holds self.now.typed.now) T.rows pidx ridx args.items }
        ensures fact { IfOk result (IsOfRule T.rule (T.holds self.now.typed.now) (StorageT.index ridx.0)) }
        ensures answers { IfOk result (Answers StorageT.index (GivesOrCarries (T.gives self.now.typed.now)) pidx ridx lexer.now span args param.now) }
    {
        if has_failure(&args) {
            return Ok(Err(first_failure(args)));
        }
        let mut args = Args::new(lexer, span, args);
        Ok(self.typed.value(alloc, usize::from(pidx), &mut args))
    }
}
