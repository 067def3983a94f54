//! Names of rules and tokens.
ghost use Rattle.std.specs.Prelude.{◌≡◌, ◌↔◌, Any, IsTrue};
ghost use Rattle.lrpar_grammar_unmatched.specs.WithToken.{HasSymbolNamed};

use lrpar_grammar::grammar::YaccGrammar;
use lrpar_grammar_places::span::{RIdx, StorageIndex};

// Whether a rule or a token of the grammar has the name.
pub(crate) fn has_symbol_named<StorageT: StorageIndex>(
    grm: &YaccGrammar<StorageT>,
    name: &str,
) -> bool
    ensures { IsTrue result ↔ HasSymbolNamed grm.now name.now }
{
    has_rule(grm, name) || has_token(grm, name)
}

// Whether a rule of the grammar has the name.
fn has_rule<StorageT: StorageIndex>(grm: &YaccGrammar<StorageT>, name: &str) -> bool
    ensures { IsTrue result ↔ Any (λ rule. rule.name ≡ name.now) grm.now.rules }
{
    for number in 0..grm.rules_len() {
        let rule = RIdx(StorageT::from_index(number).unwrap());
        if grm.rule_name_str(rule) == name {
            return true;
        }
    }
    false
}

// Whether a token of the grammar has the name.
fn has_token<StorageT: StorageIndex>(grm: &YaccGrammar<StorageT>, name: &str) -> bool
    ensures { IsTrue result ↔ Any (λ token. token.name ≡ name.now) grm.now.tokens }
{
    grm.token_idx(name).is_some()
}
