//! The entries of a state: those past the last state are none.
ghost use Rattle.std.specs.Prelude.{◌≡◌, ◌≤◌, IfSome, None, length};
ghost use Rattle.lrpar_grammar.specs.Grammar.{prod_len, prods_len};
ghost use Rattle.lrpar_table_pops.specs.Entries.{AreActionsOf, AreAllRulesOf, AreAllTokensOf, AreGotosOf};

use lrpar_grammar::grammar::YaccGrammar;
use lrpar_grammar::span::{PIdx, RIdx, StIdx, StorageIndex, TIdx};
use lrpar_table_rows::table::{Action, StateTable};

/// The actions of the state but errors, with their tokens.
pub(crate) fn actions_at<StorageT: StorageIndex>(
    stable: &StateTable<StorageT>,
    s: StIdx<StorageT>,
) -> (&[TIdx<StorageT>], &[Action<StorageT>])
    ensures paired { length result.1.now ≡ length result.0.now }
    ensures all { AreAllTokensOf StorageT.index stable.now s result.0.now }
    ensures actions { AreActionsOf StorageT.index stable.now s result.0.now result.1.now }
{
    if usize::from(s) >= stable.states_len() {
        return (&[], &[]);
    }
    stable.actions_of(s)
}

/// The gotos of the state, with their rules.
pub(crate) fn gotos_at<StorageT: StorageIndex>(
    stable: &StateTable<StorageT>,
    s: StIdx<StorageT>,
) -> (&[RIdx<StorageT>], &[StIdx<StorageT>])
    ensures paired { length result.1.now ≡ length result.0.now }
    ensures all { AreAllRulesOf StorageT.index stable.now s result.0.now }
    ensures gotos { AreGotosOf StorageT.index stable.now s result.0.now result.1.now }
{
    if usize::from(s) >= stable.states_len() {
        return (&[], &[]);
    }
    stable.gotos_of(s)
}

/// How many symbols the production has, if the grammar has it.
pub(crate) fn symbols_len<StorageT: StorageIndex>(
    grm: &YaccGrammar<StorageT>,
    prod: PIdx<StorageT>,
) -> Option<usize>
    ensures len { IfSome result (λ len. len ≡ prod_len grm.now (StorageT.index prod.0)) }
    ensures none { result ≡ None → prods_len grm.now ≤ StorageT.index prod.0 }
{
    if usize::from(prod) >= grm.prods_len() {
        return None;
    }
    Some(grm.prod(prod).len())
}
