//! How a derivation is completed from an item: up to the item that waits for its rule, and so on up to the start.
ghost use Rattle.std.specs.Prelude.{◌≢◌, ◌<◌, IfOk, OnOk};
ghost use Rattle.lrpar_grammar.specs.Grammar.{IsWellFormed, prods_len, start_prod};
ghost use Rattle.lrpar_table_first.specs.FirstRows.{rows_of};
ghost use Rattle.lrpar_table_sentences.specs.Choices.{AreShortest};
ghost use Rattle.lrpar_table_sentences.specs.Reachable.{EachReachableHasTree};
ghost use Rattle.lrpar_conflict_derivations.specs.Completion.{CanComplete};
ghost use Rattle.lrpar_conflict_derivations.specs.Stored.{AppendsRest, AppendsWayUp, AreAccessPath, Completes, EndsInKernel, FindsLink, HasItemWith, HasLinkOf, HasReachableRule, IsStateBefore, IsStateOf, IsStepLink, IsTokenOf, IsTopOf, LeadUp};

use crate::closure_links::{Link, links_to};
use lrpar_grammar::grammar::YaccGrammar;
use lrpar_grammar::span::{PIdx, RIdx, StIdx, StorageIndex, TIdx};
use lrpar_grammar::token_set::TokenSet;
use lrpar_table_rows::table::StateGraph;
use lrpar_table_sentences::access_strings::Step;
use lrpar_table_sentences::moves::Move;
use lrpar_table_sentences::shortest::Shortest;
use std::alloc::{AllocError, Global};

/// The kernel item that is reached from an item with its dot at the front, and whether it has the token that is asked for as lookahead.
#[derive(Clone, Copy)]
pub(crate) struct Up<StorageT> {
    pub(crate) prod: PIdx<StorageT>,
    pub(crate) dot: usize,
    pub(crate) asked: bool,
}

// Appends the moves of trees of the symbols after the link's rule.
fn push_rest<StorageT: StorageIndex>(
    alloc: Global,
    grm: &YaccGrammar<StorageT>,
    shortest: &Shortest<StorageT>,
    link: Link<StorageT>,
    token: TIdx<StorageT>,
    out: &mut Vec<Move<StorageT>>,
) -> Result<(), AllocError>
    requires well_formed { IsWellFormed grm.now }
    requires shortest { AreShortest grm.now usize.MAX shortest.now }
    requires each { EachReachableHasTree grm.now }
    requires token { IsTokenOf StorageT.index grm.now token }
    requires step { IsStepLink StorageT.index grm.now token link }
    requires reached { HasReachableRule StorageT.index grm.now link.prod }
    ensures { OnOk result (AppendsRest StorageT.index grm.now token link out.old.items out.new.items) }
{
    let rest = &grm.prod(link.prod)[link.dot + 1..];
    if link.asked && !link.further {
        return shortest.push_moves_from(alloc, out, grm, rest, token);
    }
    shortest.push_all_moves(alloc, out, grm, rest)
}

// The number of a link of the rule.
fn number_of<StorageT: StorageIndex>(
    links: &[Link<StorageT>],
    rule: RIdx<StorageT>,
    asked: bool,
) -> Option<usize>
    ensures { FindsLink StorageT.index links.now rule asked result }
{
    for (number, link) in links.iter().enumerate() {
        if usize::from(link.rule) == usize::from(rule) && link.asked == asked {
            return Some(number);
        }
    }
    None
}

// Appends moves that lead by the links from the production, with its dot at the front, up to a kernel item.
fn complete_by_links<StorageT: StorageIndex>(
    alloc: Global,
    grm: &YaccGrammar<StorageT>,
    shortest: &Shortest<StorageT>,
    links: &[Link<StorageT>],
    prod: PIdx<StorageT>,
    asked: bool,
    token: TIdx<StorageT>,
    out: &mut Vec<Move<StorageT>>,
) -> Result<Up<StorageT>, AllocError>
    requires shortest { AreShortest grm.now usize.MAX shortest.now }
    requires each { EachReachableHasTree grm.now }
    requires token { IsTokenOf StorageT.index grm.now token }
    requires prod { StorageT.index prod.0 < prods_len grm.now }
    requires links { LeadUp StorageT.index grm.now token links.now }
    requires linked { HasLinkOf StorageT.index grm.now links.now prod asked }
    ensures to_kernel { IfOk result (AppendsWayUp StorageT.index grm.now token prod asked out.old.items out.new.items) }
    ensures ends { IfOk result (IsTopOf StorageT.index grm.now links.now) }
{
    let start = usize::from(grm.start_prod());
    let mut number = number_of(links, grm.prod_to_rule(prod), asked).unwrap();
    let mut node = prod;
    'up: loop {
        let link = links[number];
        out.push(Move::Make(node))?;
        push_rest(alloc, grm, shortest, link, token, out)?;
        if link.dot > 0 || usize::from(link.prod) == start {
            return Ok(Up {
                prod: link.prod,
                dot: link.dot,
                asked: link.further,
            });
        }
        node = link.prod;
        number = link.above;
    }
}

// Appends moves that lead from an item of the state, with its dot at the front, up to a kernel item.
fn complete_in_state<StorageT: StorageIndex>(
    alloc: Global,
    grm: &YaccGrammar<StorageT>,
    firsts: &[TokenSet],
    shortest: &Shortest<StorageT>,
    graph: &StateGraph<StorageT>,
    state: StIdx<StorageT>,
    prod: PIdx<StorageT>,
    asked: bool,
    token: TIdx<StorageT>,
    out: &mut Vec<Move<StorageT>>,
) -> Result<Up<StorageT>, AllocError>
    requires parts { CanComplete grm.now graph.now usize.MAX (rows_of firsts.now) shortest.now }
    requires state { IsStateOf StorageT.index graph.now state }
    requires token { IsTokenOf StorageT.index grm.now token }
    requires listed { StorageT.index prod.0 ≢ start_prod grm.now }
    requires item { HasItemWith StorageT.index graph.now state token (prod, 0) asked }
    ensures to_kernel { IfOk result (AppendsWayUp StorageT.index grm.now token prod asked out.old.items out.new.items) }
    ensures begun { IfOk result (EndsInKernel StorageT.index grm.now graph.now state token) }
{
    // The proof needs that the grammar is well-formed.
    let _lemma = grm.start_prod();
    let rule = grm.prod_to_rule(prod);
    let links = links_to(alloc, grm, firsts, graph, state, token, rule, asked)?;
    complete_by_links(alloc, grm, shortest, &links, prod, asked, token, out)
}

// The state before a step, or the last one.
fn state_at<StorageT: StorageIndex>(
    steps: &[Step<StorageT>],
    place: usize,
    last: StIdx<StorageT>,
) -> StIdx<StorageT>
    ensures { IsStateBefore StorageT.index steps.now last place result }
{
    if place < steps.len() {
        steps[place].from
    } else {
        last
    }
}

/// Appends moves that complete a tree of the start rule from an item of the last state of the access path, after trees of the path's
/// symbols and trees of the symbols after the item's dot. If `asked`, the token is the item's lookahead, and comes next.
pub(crate) fn complete_derivation<StorageT: StorageIndex>(
    alloc: Global,
    grm: &YaccGrammar<StorageT>,
    firsts: &[TokenSet],
    shortest: &Shortest<StorageT>,
    graph: &StateGraph<StorageT>,
    steps: &[Step<StorageT>],
    last: StIdx<StorageT>,
    item: (PIdx<StorageT>, usize),
    asked: bool,
    token: TIdx<StorageT>,
    out: &mut Vec<Move<StorageT>>,
) -> Result<(), AllocError>
    requires parts { CanComplete grm.now graph.now usize.MAX (rows_of firsts.now) shortest.now }
    requires token { IsTokenOf StorageT.index grm.now token }
    requires access_path { AreAccessPath StorageT.index grm.now graph.now steps.now last }
    requires item { HasItemWith StorageT.index graph.now last token item asked }
    ensures { OnOk result (Completes StorageT.index grm.now steps.now item asked token out.old.items out.new.items) }
{
    let start = usize::from(grm.start_prod());
    let mut place = steps.len() - item.1;
    let mut node = item.0;
    let mut asked = asked;
    'up: while usize::from(node) != start {
        let state = state_at(steps, place, last);
        let up = complete_in_state(
            alloc, grm, firsts, shortest, graph, state, node, asked, token, out,
        )?;
        place -= up.dot;
        node = up.prod;
        asked = up.asked;
    }
    Ok(())
}
