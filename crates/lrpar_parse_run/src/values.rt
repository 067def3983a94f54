//! Building a value with a caller's two functions, one for lexemes and one for rules.
ghost use Rattle.std.specs.Prelude.{◌≤◌, IfOk, OnOk, length};
ghost use Rattle.lrpar_grammar.specs.Grammar.{rule_of};
ghost use Rattle.lrpar_parse_run.specs.Entries.{Gives, IsLexemeEntry, IsMadeEntry, SuitsSymbol};
ghost use Rattle.lrpar_parse_run.specs.Made.{made_by};
ghost use Rattle.lrpar_parse_run.specs.RunStack.{AreOfTop, Pops};

use crate::building::Build;
use crate::top::pop_mapped;
use lrpar_grammar::grammar::YaccGrammar;
use lrpar_grammar::span::{PIdx, RIdx, StorageIndex};
use lrpar_parse_lexemes::lex_api::Lexeme;
use std::alloc::{AllocError, Global};
use std::marker::PhantomData;

/// What a parse has for a symbol: a value for a rule, and a lexeme for a token. An action gets these as its arguments.
#[derive(Debug, Drop)]
pub enum AStackType<LexemeT, ActionT> {
    /// The symbol is a rule: the value that was made for it.
    ActionType(ActionT),
    /// The symbol is a token: the lexeme that was shifted.
    Lexeme(LexemeT),
}

/// Two functions: `fterm` gives the value of a lexeme, and `fnonterm` the value of a rule over the values of its symbols.
#[derive(Drop)]
pub struct Functions<'a, V, F, G> {
    pub fterm: &'a F,
    pub fnonterm: &'a G,
    pub values: PhantomData<V>,
}

impl<
    'a,
    StorageT: StorageIndex,
    LexemeT: Lexeme<StorageT>,
    V: Drop,
    F: Fn(LexemeT) -> V,
    G: Fn(RIdx<StorageT>, Vec<V>) -> V,
> Build<StorageT, LexemeT> for Functions<'a, V, F, G> {
    type Entry = AStackType<LexemeT, V>;

    type Entries = Vec<AStackType<LexemeT, V>>;

    ghost builds = { λ b. record {
      can_build = λ g. F.IsAlwaysCallable b.fterm.now × G.IsAlwaysCallable b.fnonterm.now;
      suits = λ s e. SuitsSymbol s e;
      leaf = λ x e. IsLexemeEntry x e;
      node = λ g p before es e. IsMadeEntry (F.post b.fterm.now) (made_by StorageT.index (G.post b.fnonterm.now)) (rule_of g p) es e;
      rises = λ es n. Unit {0};
    } };

    fn shift(
        &self,
        lexeme: LexemeT,
        entries: &mut Vec<AStackType<LexemeT, V>>,
    ) -> Result<(), AllocError> {
        entries.push(AStackType::Lexeme(lexeme))?;
        Ok(())
    }

    fn reduce(
        &self,
        alloc: Global,
        grm: &YaccGrammar<StorageT>,
        pidx: &PIdx<StorageT>,
        count: usize,
        entries: &mut Vec<AStackType<LexemeT, V>>,
    ) -> Result<(), AllocError> {
        let values = pop_values(alloc, self.fterm, count, entries)?;
        let ridx = grm.prod_to_rule(*pidx);
        let value = (self.fnonterm)(ridx, values);
        entries.push(AStackType::ActionType(value))?;
        Ok(())
    }

    ghost rising = { λ b g. record { with_none = tt; by_leaf = λ es n x e rise low is. tt; by_node = λ kept es n p e rise is. tt } };
}

// Pops the top `count` entries, and returns their values, the lowest first.
fn pop_values<LexemeT: Copy, V: Drop, F: Fn(LexemeT) -> V>(
    alloc: Global,
    fterm: &F,
    count: usize,
    entries: &mut Vec<AStackType<LexemeT, V>>,
) -> Result<Vec<V>, AllocError>
    requires callable { F.IsAlwaysCallable fterm.now }
    requires deep { count ≤ length entries.old.items }
    ensures kept { OnOk result (Pops count entries.old entries.new) }
    ensures values { IfOk result (AreOfTop (Gives (F.post fterm.now)) count entries.old) }
{
    let value_of = |entry: AStackType<LexemeT, V>| -> V
        requires { F.IsAlwaysCallable fterm.now }
        ensures { Gives (F.post fterm.entry.now) entry result }
    {
        match entry {
            AStackType::ActionType(value) => value,
            AStackType::Lexeme(lexeme) => fterm(lexeme),
        }
    };
    pop_mapped(alloc, count, entries, &value_of)
}
