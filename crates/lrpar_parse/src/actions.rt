//! Actions: a caller's values for productions.
ghost use Rattle.std.specs.Prelude.{◌≡◌, ◌≤◌, ◌↔◌, ℕ, List, IfOk, IsTrue, OnOk, length, map};
ghost use Rattle.lrpar_grammar_places.specs.Span.{Extent};
ghost use Rattle.lrpar_grammar.specs.Grammar.{GrammarSymbol};
ghost use Rattle.lrpar_grammar.specs.Symbols.{symbol_of};
ghost use Rattle.lrpar_parse_run.specs.declared.values.AStackType.{AStackType};
ghost use Rattle.lrpar_parse_lexemes.specs.Views.{span_by, token_by};
ghost use Rattle.lrpar_parse_lexemes.specs.PlacedSpans.{Rise, arguments_of, spans_of};
ghost use Rattle.lrpar_parse_run.specs.Placed.{IsPlacedLexeme, IsPlacedValue};
ghost use Rattle.lrpar_parse_run.specs.PlacedRising.{placed_rise};
ghost use Rattle.lrpar_parse_run.specs.RunStack.{Pops, on_top};
ghost use Rattle.lrpar_parse.specs.Acted.{acts_by};
ghost use Rattle.lrpar_parse.specs.Arguments.{Answers, FitProduction, IsArgument, TakesAll, TakesSymbols};

use lrpar_grammar::grammar::YaccGrammar;
use lrpar_grammar::span::{PIdx, RIdx, Span, StorageIndex, Symbol};
use lrpar_parse_lexemes::lex_api::Lexeme;
use lrpar_parse_lexemes::placed::{Placed, span_of};
use lrpar_parse_run::building::Build;
use lrpar_parse_run::top::pop_mapped;
use lrpar_parse_run::values::AStackType;
use std::alloc::{AllocError, Global};

/// Actions: they make the values of `parse_actions`, production by production. An implementation states three things: which
/// productions it takes; for each rule a fact, which every value of the rule has; and which answers it may give. If the fact says of
/// which kind a rule's value is, an action never gets an argument of another kind, and the other arms of a `match` are never reached.
pub trait Actions<StorageT: StorageIndex, LexemeT: Lexeme<StorageT>, LexerT> {
    /// The values of rules.
    type ActionT: Drop;

    /// A parameter that each action borrows.
    type ParamT;

    /// Which productions the actions take: by number, rule and symbols.
    ghost taken: { Self → ℕ → ℕ → List GrammarSymbol → Type 0 };

    /// The fact of a rule, which each of its values has.
    ghost fact: { Self → ℕ → Self.ActionT → Type 0 };

    /// The answers that `act` may give: by production, rule, lexer, span, arguments and parameter.
    ghost answers: { Self → ℕ → ℕ → LexerT → Extent → List (AStackType LexemeT Self.ActionT) → Self.ParamT → Self.ActionT → Type 0 };

    /// Whether the actions take the production of this number, this rule and these symbols. `act` is called for such productions
    /// alone.
    fn takes(
        &self,
        pidx: PIdx<StorageT>,
        ridx: RIdx<StorageT>,
        symbols: &[Symbol<StorageT>],
    ) -> bool
        ensures { IsTrue result ↔ TakesSymbols StorageT.index (taken self.now) pidx ridx symbols.now };

    /// The value of a production of rule `ridx`. `args` has an argument for each of its symbols, from left to right: a lexeme for a
    /// token, and a value for a rule. `span` extends from the first symbol's start to the last one's end. A production without symbols
    /// has the span of the symbol before it, or 0..0 if there is none. `Err`: out of memory; it ends the parse.
    fn act(
        &self,
        alloc: Global,
        pidx: PIdx<StorageT>,
        ridx: RIdx<StorageT>,
        lexer: &LexerT,
        span: Span,
        args: Vec<AStackType<LexemeT, Self::ActionT>>,
        param: &Self::ParamT,
    ) -> Result<Self::ActionT, AllocError>
        requires { FitProduction StorageT.index LexemeT.parts fact taken self.now pidx ridx args.items }
        ensures fact { IfOk result (fact self.now (StorageT.index ridx.0)) }
        ensures answers { IfOk result (Answers StorageT.index (answers self.now) pidx ridx lexer.now span args param.now) };
}

/// Builds the value of a caller's actions.
#[derive(Drop)]
pub struct Acting<'a, LexerT, A, ParamT> {
    pub actions: &'a A,
    pub lexer: &'a LexerT,
    pub param: &'a ParamT,
}

impl<
    'a,
    StorageT: StorageIndex,
    LexemeT: Lexeme<StorageT>,
    LexerT,
    A: Actions<StorageT, LexemeT, LexerT>,
> Build<StorageT, LexemeT> for Acting<'a, LexerT, A, A::ParamT> {
    type Entry = Placed<AStackType<LexemeT, A::ActionT>>;

    type Entries = Vec<Placed<AStackType<LexemeT, A::ActionT>>>;

    ghost builds = { λ b. record {
      can_build = λ g. TakesAll (A.taken b.actions.now) g;
      suits = λ s e. IsArgument (token_by StorageT.index LexemeT.parts) (A.fact b.actions.now) s e.argument;
      leaf = λ x e. IsPlacedLexeme (span_by LexemeT.parts) x e;
      node = λ g p before es e. IsPlacedValue (acts_by (A.answers b.actions.now) g b.lexer.now b.param.now p) before es e;
      rises = λ es n. Rise 0 (spans_of es) n;
    } };

    fn shift(
        &self,
        lexeme: LexemeT,
        entries: &mut Vec<Placed<AStackType<LexemeT, A::ActionT>>>,
    ) -> Result<(), AllocError> {
        entries.push(Placed {
            span: lexeme.span(),
            argument: AStackType::Lexeme(lexeme),
        })?;
        Ok(())
    }

    fn reduce(
        &self,
        alloc: Global,
        grm: &YaccGrammar<StorageT>,
        pidx: &PIdx<StorageT>,
        count: usize,
        entries: &mut Vec<Placed<AStackType<LexemeT, A::ActionT>>>,
    ) -> Result<(), AllocError> {
        let (before, own) = entries.split_at(entries.len() - count);
        let span = span_of(before, own);
        let ridx = grm.prod_to_rule(*pidx);
        let args = pop_arguments(alloc, count, entries)?;
        let value = self
            .actions
            .act(alloc, *pidx, ridx, self.lexer, span, args, self.param)?;
        entries.push(Placed {
            span,
            argument: AStackType::ActionType(value),
        })?;
        Ok(())
    }

    ghost rising = { λ b g. placed_rise (span_by LexemeT.parts) (acts_by (A.answers b.actions.now) g b.lexer.now b.param.now) };
}

// Pops the top `count` entries, and returns their arguments, the lowest first.
fn pop_arguments<T: Drop>(
    alloc: Global,
    count: usize,
    entries: &mut Vec<Placed<T>>,
) -> Result<Vec<T>, AllocError>
    requires deep { count ≤ length entries.old.items }
    ensures kept { OnOk result (Pops count entries.old entries.new) }
    ensures arguments { IfOk result (λ args. args.items ≡ arguments_of (on_top count entries.old.items)) }
{
    pop_mapped(alloc, count, entries, &|entry: Placed<T>| entry.argument)
}
