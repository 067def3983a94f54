//! FIRST sets and scratch space, for closures.
ghost use Rattle.std.specs.Prelude.{IfOk};
ghost use Rattle.lrpar_table_items.specs.Working.{AreSets};

use lrpar_grammar::grammar::YaccGrammar;
use lrpar_grammar::span::StorageIndex;
use lrpar_grammar::token_set::TokenSet;
use lrpar_table_first::first::{empty_sets, first_sets};
use std::alloc::{AllocError, Global};

/// The FIRST sets of the rules, and scratch space for closures: the lookaheads that a closure brings to each rule, whether the rule waits to
/// pass them on, and two sets of tokens.
pub struct Sets {
    pub firsts: Vec<TokenSet>,
    pub brought: Vec<TokenSet>,
    pub waits: Vec<bool>,
    pub front: TokenSet,
    pub fresh: TokenSet,
}

// With its own `Drop`, a function that drops one proves one call.
impl Drop for Sets {
    fn drop(self) {
        let Sets {
            firsts,
            brought,
            waits,
            front,
            fresh,
        } = self;
        drop(firsts);
        drop(brought);
        drop(waits);
        drop(front);
        drop(fresh);
    }
}

impl Sets {
    /// The FIRST sets of the grammar, and scratch space.
    #[tactic(auto, using(lrpar_grammar_places::proofs::FaultLemmas::no_value))]
    pub fn new<StorageT: StorageIndex>(
        alloc: Global,
        grm: &YaccGrammar<StorageT>,
    ) -> Result<Self, AllocError>
        ensures { IfOk result (AreSets grm.now) }
    {
        let firsts = first_sets(alloc, grm)?;
        let brought = empty_sets(alloc, grm)?;
        let waits = vec![in alloc; false; grm.rules_len()]?;
        let front = TokenSet::new(alloc, grm.tokens_len() + 1)?;
        let fresh = TokenSet::new(alloc, grm.tokens_len() + 1)?;
        Ok(Sets {
            firsts,
            brought,
            waits,
            front,
            fresh,
        })
    }
}
