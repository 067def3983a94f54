//! Tokens by which, as a rule, all stacks of a table can be completed. They are a guess: nothing rests on it.
ghost use Rattle.std.specs.Prelude.{◌<◌};
ghost use Rattle.lrpar_table_rows.specs.Graph.{graph_len};

use crate::automaton::Automaton;
use crate::found::rule_number;
use crate::sets::{insert, insert_new};
use lrpar_grammar::grammar::YaccGrammar;
use lrpar_grammar::span::{PIdx, RIdx, StIdx, StorageIndex, Symbol};
use lrpar_grammar::token_set::TokenSet;
use lrpar_table_rows::table::StateGraph;
use lrpar_table_sentences::shortest::Shortest;
use std::alloc::{AllocError, Global};

/// The tokens that are chosen, and the rules of whose minimal sentences the tokens are to be chosen, each once.
#[derive(Drop)]
struct Likely<'a, StorageT: StorageIndex> {
    grm: &'a YaccGrammar<StorageT>,
    shortest: Shortest<StorageT>,
    tokens: TokenSet,
    rules: Vec<RIdx<StorageT>>,
    is_known: TokenSet,
}

/// The end token, and the tokens that shortest complete a kernel core of each state.
///
/// A core of a rule that is its own first symbol, with the dot past that, is chosen only if there is no other one: what completes it leads
/// back to the same state. It takes time for a pass over the kernel cores, and for some passes over the grammar.
pub(crate) fn likely_tokens<StorageT: StorageIndex>(
    alloc: Global,
    automaton: &Automaton<'_, StorageT>,
) -> Result<TokenSet, AllocError> {
    let (grm, sgraph) = (automaton.grm(), automaton.sgraph());
    let mut likely = Likely {
        grm,
        shortest: Shortest::new(alloc, grm)?,
        tokens: TokenSet::new(alloc, grm.tokens_len())?,
        rules: Vec::new(alloc),
        is_known: TokenSet::new(alloc, grm.rules_len())?,
    };
    insert(&mut likely.tokens, usize::from(grm.eof_token_idx()));
    for number in 0..sgraph.states_len() {
        likely.add_state(sgraph, StIdx(StorageT::from_index(number).unwrap()))?;
    }
    for place in 0..grm.rules_len() {
        likely.add_rule(place)?;
    }
    let Likely { tokens, .. } = likely;
    Ok(tokens)
}

impl<StorageT: StorageIndex> Likely<'_, StorageT> {
    // Adds what completes the state's cheapest core.
    fn add_state(
        &mut self,
        sgraph: &StateGraph<StorageT>,
        state: StIdx<StorageT>,
    ) -> Result<(), AllocError>
        requires { StorageT.index state.0 < graph_len sgraph.now }
    {
        let mut cheapest = None;
        for (prod, dot) in sgraph.begun_cores(state) {
            let cost = self.cost(*prod, *dot);
            match cheapest {
                Some((least, _, _)) if least <= cost => {}
                _ => cheapest = Some((cost, *prod, *dot)),
            }
        }
        match cheapest {
            Some((_, prod, dot)) => self.add_symbols(rest_of(self.grm, prod, dot)),
            None => Ok(()),
        }
    }

    // How many tokens complete the core; more than all others need, if that leads back to the core's state.
    fn cost(&self, prod: PIdx<StorageT>, dot: usize) -> usize {
        if dot == 1 && is_left_recursive(self.grm, prod) {
            return usize::MAX;
        }
        let rest = rest_of(self.grm, prod, dot);
        self.shortest.len_of_all(rest).unwrap_or(usize::MAX)
    }

    // Adds the tokens, and has those of the rules added later.
    fn add_symbols(&mut self, symbols: &[Symbol<StorageT>]) -> Result<(), AllocError> {
        for symbol in symbols {
            match *symbol {
                Symbol::Token(token) => insert(&mut self.tokens, usize::from(token)),
                Symbol::Rule(rule) => {
                    if insert_new(&mut self.is_known, usize::from(rule)) {
                        self.rules.push(rule)?;
                    }
                }
            }
        }
        Ok(())
    }

    // Adds what makes up a minimal sentence of the rule at this place, if there is one.
    fn add_rule(&mut self, place: usize) -> Result<(), AllocError> {
        let grm = self.grm;
        let Some(rule) = self.rules.get(place) else {
            return Ok(());
        };
        if usize::from(*rule) >= grm.rules_len() {
            return Ok(());
        }
        let len = self.shortest.len_of(Symbol::Rule(*rule));
        for prod in grm.rule_to_prods(*rule) {
            let symbols = rest_of(grm, *prod, 0);
            if self.shortest.len_of_all(symbols) == len {
                return self.add_symbols(symbols);
            }
        }
        Ok(())
    }
}

// The symbols of the production after the dot.
fn rest_of<StorageT: StorageIndex>(
    grm: &YaccGrammar<StorageT>,
    prod: PIdx<StorageT>,
    dot: usize,
) -> &[Symbol<StorageT>] {
    if usize::from(prod) >= grm.prods_len() {
        return &[];
    }
    let symbols = grm.prod(prod);
    if dot > symbols.len() {
        return &[];
    }
    &symbols[dot..]
}

// Whether the production's rule is its own first symbol.
fn is_left_recursive<StorageT: StorageIndex>(
    grm: &YaccGrammar<StorageT>,
    prod: PIdx<StorageT>,
) -> bool {
    match rest_of(grm, prod, 0).first() {
        Some(Symbol::Rule(first)) => {
            rule_number(grm, usize::from(prod)) == Some(usize::from(*first))
        }
        Some(Symbol::Token(_)) | None => false,
    }
}
