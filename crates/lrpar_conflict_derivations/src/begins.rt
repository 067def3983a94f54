//! Which tokens symbols begin with.
ghost use Rattle.std.specs.Prelude.{◌≡◌, ◌<◌, All, length, map};
ghost use Rattle.lrpar_grammar.specs.Symbols.{symbol_of};
ghost use Rattle.lrpar_table_first.specs.FirstRows.{IsSymbolBelow, begins, rows_of};
ghost use Rattle.lrpar_conflict_derivations.specs.Stored.{has_token};

use lrpar_grammar::span::{StorageIndex, Symbol};
use lrpar_grammar::token_set::TokenSet;

/// Whether the symbols begin with the token, given the FIRST set of each rule. The dummy lookahead, which is the number of no token, asks
/// whether they derive nothing.
pub(crate) fn can_begin<StorageT: StorageIndex>(
    firsts: &[TokenSet],
    symbols: &[Symbol<StorageT>],
    token: usize,
    dummy: usize,
) -> bool
    requires { All (IsSymbolBelow (length firsts.now) dummy) (map (symbol_of StorageT.index) symbols.now) }
    ensures { result ≡ begins dummy (rows_of firsts.now) (map (symbol_of StorageT.index) symbols.now) token }
{
    for symbol in symbols {
        match *symbol {
            Symbol::Token(first) => return token == usize::from(first),
            Symbol::Rule(rule) => {
                let set = &firsts[usize::from(rule)];
                if has_token(set, token, dummy) {
                    return true;
                }
                if !set.contains(dummy) {
                    return false;
                }
            }
        }
    }
    token == dummy
}

// Whether the set has the token. The dummy lookahead is none.
fn has_token(set: &TokenSet, token: usize, dummy: usize) -> bool
    ensures { result ≡ has_token set.now token dummy }
{
    token < dummy && set.contains(token)
}
