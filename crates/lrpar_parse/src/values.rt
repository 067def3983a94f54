//! Values: what a caller's function makes of each production, or its error.
ghost use Rattle.std.specs.Prelude.{◌↔◌, ℕ, IfOk, IsTrue, Result};
ghost use Rattle.lrpar_parse.specs.ValueArguments.{ValueArguments};
ghost use Rattle.lrpar_parse.specs.Arguments.{Answers};
ghost use Rattle.lrpar_parse.specs.Values.{GivesOrCarries};

use crate::actions::Actions;
use crate::args::Args;
use crate::failures::{first_failure, has_failure};
use crate::fault::ParseFault;
use lrpar_grammar::span::{PIdx, RIdx, Span, StorageIndex, Symbol};
use lrpar_parse_lexemes::lex_api::Lexeme;
use lrpar_parse_run::values::AStackType;
use std::alloc::{AllocError, Global};

/// Values: they are made production by production, by `parse_values`. Nothing has to be stated of them.
pub trait Values<LexemeT, LexerT> {
    /// The values of rules.
    type Value: Drop;

    /// Why a production has no value. It is made of a `ParseFault`, so that it also says why a parse has no result.
    type Error: Drop + From<ParseFault>;

    /// The results that `value` may have: by production and arguments. Who claims nothing of them leaves it out.
    ghost gives: { Self → ℕ → ValueArguments LexerT LexemeT Self.Value → Result Self.Value Self.Error → Type 0 } = { λ _ _ _ _. Unit {0} };

    /// The value of a production, from its number and the arguments for its symbols. It is called for each production of the tree but
    /// those that have an error among their arguments: from left to right, each after those below it. Productions are numbered from 0,
    /// in the order of the grammar text.
    ///
    /// An `Err` doesn't end the parse. It is the value of each production above, until `parse_values` returns it.
    fn value(
        &self,
        alloc: Global,
        production: usize,
        args: &mut Args<'_, LexerT, LexemeT, Self::Value, Self::Error>,
    ) -> Result<Self::Value, Self::Error>
        ensures { gives self.now production args.old result };
}

/// The actions that make a caller's values: the value of a production with an error among its arguments is the first such error.
#[derive(Drop)]
pub(crate) struct Valued<'a, V> {
    pub(crate) values: &'a V,
}

impl<
    'a,
    StorageT: StorageIndex,
    LexemeT: Lexeme<StorageT>,
    LexerT,
    V: Values<LexemeT, LexerT>,
> Actions<StorageT, LexemeT, LexerT> for Valued<'a, V> {
    type ActionT = Result<V::Value, V::Error>;

    type ParamT = ();

    ghost taken = { λ _ _ _ _. Unit {0} };

    ghost fact = { λ _ _ _. Unit {0} };

    ghost answers = { λ valued. GivesOrCarries (V.gives valued.values.now) };

    fn takes(&self, _: PIdx<StorageT>, _: RIdx<StorageT>, _: &[Symbol<StorageT>]) -> bool
        ensures { IsTrue result ↔ Unit {0} }
    {
        true
    }

    fn act(
        &self,
        alloc: Global,
        pidx: PIdx<StorageT>,
        ridx: RIdx<StorageT>,
        lexer: &LexerT,
        span: Span,
        args: Vec<AStackType<LexemeT, Result<V::Value, V::Error>>>,
        param: &(),
    ) -> Result<Result<V::Value, V::Error>, AllocError>
        ensures fact { IfOk result (λ _. Unit {0}) }
        ensures answers { IfOk result (Answers StorageT.index (GivesOrCarries (V.gives self.now.values.now)) pidx ridx lexer.now span args param.now) }
    {
        if has_failure(&args) {
            return Ok(Err(first_failure(args)));
        }
        let mut args = Args::new(lexer, span, args);
        Ok(self.values.value(alloc, usize::from(pidx), &mut args))
    }
}
