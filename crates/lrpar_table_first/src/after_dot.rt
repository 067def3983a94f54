//! The rule after the dot of an item.
ghost use Rattle.std.specs.Prelude.{◌<◌, ◌≤◌, IfSome};
ghost use Rattle.lrpar_grammar.specs.Grammar.{IsWellFormed, prod_len, prods_len, rules_len};
ghost use Rattle.lrpar_table_first.specs.Stored.{AreSymbolsOf, FindsRule};

use lrpar_grammar::grammar::YaccGrammar;
use lrpar_grammar::span::{PIdx, RIdx, StorageIndex, Symbol};

/// The rule that the production has right after its first `dot` symbols, if a rule is there, and the symbols after that rule.
pub fn rule_after<'a, StorageT: StorageIndex>(
    grm: &'a YaccGrammar<StorageT>,
    pidx: PIdx<StorageT>,
    dot: usize,
) -> Option<(RIdx<StorageT>, &'a [Symbol<StorageT>])>
    requires well_formed { IsWellFormed grm.now }
    requires prod { StorageT.index pidx.0 < prods_len grm.now }
    requires dot { dot ≤ prod_len grm.now (StorageT.index pidx.0) }
    ensures rule { FindsRule StorageT.index grm.now pidx dot result }
    ensures within { IfSome result (λ found. StorageT.index found.0.0 < rules_len grm.now) }
    ensures rest { IfSome result (λ found. AreSymbolsOf StorageT.index grm.now found.1.now) }
{
    let symbols = &grm.prod(pidx)[dot..];
    match symbols.split_first() {
        None => None,
        Some((first, rest)) => match *first {
            Symbol::Rule(rule) => Some((rule, rest)),
            Symbol::Token(_) => None,
        },
    }
}
