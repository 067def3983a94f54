//! The completion of a stack: tokens that lead from it to a stack that accepts.
ghost use Rattle.std.specs.Prelude.{◌≡◌, ◌<◌, ◌↔◌, [], IfOk, IsTrue};
ghost use Rattle.lrpar_grammar.specs.Grammar.{prod_len, prods_len};
ghost use Rattle.lrpar_table_sentences.specs.Choices.{AreShortest};
ghost use Rattle.lrpar_parse_completion.specs.Opening.{IsAfterPushed, IsRestPushed};

use crate::waiting::{Link, waiting};
use lrpar_grammar::grammar::YaccGrammar;
use lrpar_grammar::span::{PIdx, StIdx, StorageIndex, Symbol, TIdx};
use lrpar_table_check::check::ParserData;
use lrpar_table_sentences::moves::Move;
use lrpar_table_sentences::shortest::Shortest;
use std::alloc::{AllocError, Global};

/// What the completion of a stack needs: a checked table, and the minimal sentences of its grammar's rules.
#[derive(Drop)]
pub(crate) struct Completer<'a, StorageT: StorageIndex> {
    pub(crate) data: &'a ParserData<StorageT>,
    pub(crate) shortest: &'a Shortest<StorageT>,
}

impl<'a, StorageT: StorageIndex> Completer<'a, StorageT> {
    ghost use Rattle.lrpar_parse_completion.specs.CompleterView.{CompletesStack, FindsCompletion, HasBegun, HasProd, HasState, IsKernelOf, IsOpening, KnowsShortest};

    /// The completion of the stack, bottom first: a minimal sentence of the symbols after the dot of a kernel item of the top state, and
    /// then, for each item whose rule this ends, of those after the rule in an item that waits for it, down to the start item.
    ///
    /// There is one, if the table is viable and complete and its reachable rules are productive.
    pub(crate) fn completion(
        &self,
        alloc: Global,
        stack: &[StIdx<StorageT>],
    ) -> Result<Option<Vec<TIdx<StorageT>>>, AllocError>
        requires shortest { KnowsShortest self.now }
        ensures { IfOk result (CompletesStack StorageT.index self.now stack.now) }
    {
        let mut tokens = Vec::new(alloc);
        if self.push_completion(alloc, stack, &mut tokens)? {
            Ok(Some(tokens))
        } else {
            Ok(None)
        }
    }

    // Puts the tokens of the completion into the empty list; returns whether there is one.
    fn push_completion(
        &self,
        alloc: Global,
        stack: &[StIdx<StorageT>],
        tokens: &mut Vec<TIdx<StorageT>>,
    ) -> Result<bool, AllocError>
        requires shortest { KnowsShortest self.now }
        requires empty { tokens.old.items ≡ [] }
        ensures { IfOk result (FindsCompletion StorageT.index self.now stack.now tokens.new) }
    {
        let _lemma = self.data.stable();
        if stack.is_empty() {
            return Ok(false);
        }
        let mut place = stack.len() - 1;
        let top = stack[place];
        if !self.has_state(top) {
            return Ok(false);
        }
        let start = usize::from(self.data.grm().start_prod());
        let (mut prod, mut dot) = self.kernel_core(top);
        let grm = self.data.grm();
        let rest = &grm.prod(prod)[dot..];
        if !push_rest(alloc, grm, self.shortest, tokens, rest)? {
            return Ok(false);
        }
        'items: while usize::from(prod) != start {
            if dot == 0 {
                return Ok(false);
            }
            if place < dot {
                return Ok(false);
            }
            place -= dot;
            let base = stack[place];
            if !self.has_state(base) {
                return Ok(false);
            }
            let Some((next, at)) = self.find_opener(alloc, base, prod, tokens)? else {
                return Ok(false);
            };
            prod = next;
            dot = at;
        }
        Ok(true)
    }

    // Whether the state is one of the table.
    fn has_state(&self, state: StIdx<StorageT>) -> bool
        ensures { IsTrue result ↔ HasState StorageT.index self.now state }
    {
        usize::from(state) < self.data.sgraph().states_len()
    }

    // The core of the first kernel item of the state; that of the start item, if the state has none.
    fn kernel_core(&self, state: StIdx<StorageT>) -> (PIdx<StorageT>, usize)
        requires { HasState StorageT.index self.now state }
        ensures { IsKernelOf StorageT.index self.now state result }
    {
        let _lemma = self.data.stable();
        let cores = self.data.sgraph().begun_cores(state);
        if cores.is_empty() {
            return (self.data.grm().start_prod(), 0);
        }
        cores[0]
    }

    // Whether the core is that of a kernel item, or of an item of the start production.
    fn is_kernel(&self, prod: PIdx<StorageT>, dot: usize) -> bool
        ensures { IsTrue result ↔ HasBegun StorageT.index self.now prod dot }
    {
        dot > 0 || usize::from(prod) == usize::from(self.data.grm().start_prod())
    }

    // The core of an item of the state by which the production was opened: a kernel item or the start item. Appends minimal sentences of
    // what comes after the production's rule there, and after the rules of the items between.
    //
    // An item comes later in the list of those that wait for rules than the one that waits for its own rule.
    fn find_opener(
        &self,
        alloc: Global,
        state: StIdx<StorageT>,
        prod: PIdx<StorageT>,
        tokens: &mut Vec<TIdx<StorageT>>,
    ) -> Result<Option<(PIdx<StorageT>, usize)>, AllocError>
        requires shortest { KnowsShortest self.now }
        requires state { HasState StorageT.index self.now state }
        requires prod { HasProd StorageT.index self.now prod }
        ensures { IfOk result (IsOpening StorageT.index self.now state prod tokens.old tokens.new) }
    {
        let grm = self.data.grm();
        let _lemma = self.data.stable();
        let links = waiting(alloc, self.data, state)?;
        let mut wanted = grm.prod_to_rule(prod);
        let mut place = links.len();
        'links: while place > 0 {
            place -= 1;
            let link = links[place];
            if usize::from(link.rule) != usize::from(wanted) {
                continue;
            }
            if !push_after(alloc, grm, self.shortest, tokens, link)? {
                return Ok(None);
            }
            if self.is_kernel(link.prod, link.dot) {
                return Ok(Some((link.prod, link.dot)));
            }
            wanted = grm.prod_to_rule(link.prod);
        }
        Ok(None)
    }
}

// Appends the tokens of a minimal sentence of the symbols after the link's rule; returns whether there is one.
fn push_after<StorageT: StorageIndex>(
    alloc: Global,
    grm: &YaccGrammar<StorageT>,
    shortest: &Shortest<StorageT>,
    tokens: &mut Vec<TIdx<StorageT>>,
    link: Link<StorageT>,
) -> Result<bool, AllocError>
    requires shortest { AreShortest grm.now usize.MAX shortest.now }
    requires prod { StorageT.index link.prod.0 < prods_len grm.now }
    requires dot { link.dot < prod_len grm.now (StorageT.index link.prod.0) }
    ensures { IfOk result (IsAfterPushed StorageT.index grm.now link tokens.old tokens.new) }
{
    let rest = &grm.prod(link.prod)[link.dot + 1..];
    push_rest(alloc, grm, shortest, tokens, rest)
}

/// Appends the tokens of a minimal sentence of the symbols; returns whether there is one.
pub(crate) fn push_rest<StorageT: StorageIndex>(
    alloc: Global,
    grm: &YaccGrammar<StorageT>,
    shortest: &Shortest<StorageT>,
    tokens: &mut Vec<TIdx<StorageT>>,
    symbols: &[Symbol<StorageT>],
) -> Result<bool, AllocError>
    requires shortest { AreShortest grm.now usize.MAX shortest.now }
    ensures { IfOk result (IsRestPushed StorageT.index grm.now symbols.now tokens.old tokens.new) }
{
    if shortest.len_of_all(symbols).is_none() {
        return Ok(false);
    }
    let mut moves = Vec::new(alloc);
    shortest.push_all_moves(alloc, &mut moves, grm, symbols)?;
    for step in moves {
        let Move::Take(token) = step else {
            continue;
        };
        tokens.push(token)?;
    }
    Ok(true)
}
