//! Why a state has the items that come by closure: for each of their rules, an item with the rule after its dot.
ghost use Rattle.std.specs.Prelude.{◌<◌, ◌≤◌, ◌⊎◌, IfOk, OnOk, length};
ghost use Rattle.std.specs.Bool.{OnFalse, OnTrue};
ghost use Rattle.lrpar_grammar.specs.Grammar.{IsWellFormed, rules_len};
ghost use Rattle.lrpar_table_first.specs.FirstRows.{AreFirsts, rows_of};
ghost use Rattle.lrpar_conflict_derivations.specs.Stored.{AreLinksOf, AreMarked, AreMarkedOf, AsksFor, HasLinkAt, HasMarkFor, HasMarks, HasNoLinks, HasNoMarks, HasMarkForLink, HasRoom, HaveLinks, IsCoreOf, IsKernelCore, IsLinked, IsTokenOf, KeepsMarks, LinkItemsOf, NotesBelow, NotesCore, NotesKernel, NotesKernelCore, PutsBelow, PutsFromKernel, PutsLink, PutsMarked, PutsSteps};

use crate::begins::can_begin;
use lrpar_grammar::grammar::YaccGrammar;
use lrpar_grammar::span::{PIdx, RIdx, StIdx, StorageIndex, TIdx};
use lrpar_grammar::token_set::TokenSet;
use lrpar_table_first::after_dot::rule_after;
use lrpar_table_rows::table::StateGraph;
use std::alloc::{AllocError, Global};

/// Why a state has items of a rule with the dot at the front: the rule comes after the dot of another item.
#[derive(Clone, Copy)]
pub(crate) struct Link<StorageT> {
    /// The rule.
    pub(crate) rule: RIdx<StorageT>,
    /// Whether the items have the token that is asked for as lookahead.
    pub(crate) asked: bool,
    /// The production and the dot that the rule comes after.
    pub(crate) prod: PIdx<StorageT>,
    pub(crate) dot: usize,
    /// Whether the token is asked for there, too.
    pub(crate) further: bool,
    /// If the dot is at the front, the number of the link of that production's rule.
    pub(crate) above: usize,
}

/// The links that were found, and which rules have one: one for any lookahead, and one for the token.
#[derive(Drop)]
struct Found<StorageT> {
    links: Vec<Link<StorageT>>,
    any: Vec<bool>,
    asked: Vec<bool>,
}

/// Links of rules of items that the state has by closure, found from the kernel items on, until one of this rule is among them. Each comes
/// from a kernel item or from an item of an earlier link's rule.
pub(crate) fn links_to<StorageT: StorageIndex>(
    alloc: Global,
    grm: &YaccGrammar<StorageT>,
    firsts: &[TokenSet],
    graph: &StateGraph<StorageT>,
    state: StIdx<StorageT>,
    token: TIdx<StorageT>,
    rule: RIdx<StorageT>,
    asked: bool,
) -> Result<Vec<Link<StorageT>>, AllocError>
    requires asked { AsksFor StorageT.index grm.now firsts.now graph.now state token }
    requires rule { StorageT.index rule.0 < rules_len grm.now }
    ensures links { IfOk result (λ links. AreLinksOf StorageT.index grm.now graph.now state token links.items) }
    ensures linked { IfOk result (λ links. LinkItemsOf StorageT.index grm.now graph.now state token rule asked links.items) }
{
    let mut found = nothing_found(alloc, grm.rules_len())?;
    find_links(grm, firsts, graph, state, token, rule, asked, &mut found)?;
    let Found {
        links,
        any: _,
        asked: _,
    } = found;
    Ok(links)
}

// Finds links of rules of items that the state has by closure, until one of this rule is among them.
fn find_links<StorageT: StorageIndex>(
    grm: &YaccGrammar<StorageT>,
    firsts: &[TokenSet],
    graph: &StateGraph<StorageT>,
    state: StIdx<StorageT>,
    token: TIdx<StorageT>,
    rule: RIdx<StorageT>,
    asked: bool,
    found: &mut Found<StorageT>,
) -> Result<(), AllocError>
    requires asked { AsksFor StorageT.index grm.now firsts.now graph.now state token }
    requires rule { StorageT.index rule.0 < rules_len grm.now }
    requires none { HasNoLinks StorageT.index found.old }
    requires marks { AreMarked StorageT.index grm.now found.old }
    ensures links { OnOk result (AreLinksOf StorageT.index grm.now graph.now state token found.new.links.items) }
    ensures linked { OnOk result (LinkItemsOf StorageT.index grm.now graph.now state token rule asked found.new.links.items) }
{
    note_kernel(grm, firsts, graph, state, token, found)?;
    let mut at = 0;
    'links: while goes_on(found, at, rule, asked) {
        let link = found.links[at];
        note_rule(grm, firsts, token, link, at, found)?;
        at += 1;
    }
    Ok(())
}

// Whether there are links from this number on, and none yet of the rule.
fn goes_on<StorageT: StorageIndex>(
    found: &Found<StorageT>,
    at: usize,
    rule: RIdx<StorageT>,
    asked: bool,
) -> bool
    requires marks { HasMarks StorageT.index found.now }
    requires rule { HasMarkFor StorageT.index found.now rule }
    ensures more { OnTrue result (HasLinkAt found.now at) }
    ensures done { OnFalse result ((length found.now.links.items ≤ at) ⊎ IsLinked StorageT.index found.now rule asked) }
{
    if is_linked(found, rule, asked) {
        return false;
    }
    at < found.links.len()
}

// Whether there is a link of the rule.
fn is_linked<StorageT: StorageIndex>(
    found: &Found<StorageT>,
    rule: RIdx<StorageT>,
    asked: bool,
) -> bool
    requires marks { HasMarks StorageT.index found.now }
    requires rule { HasMarkFor StorageT.index found.now rule }
    ensures { OnTrue result (IsLinked StorageT.index found.now rule asked) }
{
    if asked {
        return found.asked[usize::from(rule)];
    }
    found.any[usize::from(rule)]
}

// No links, and no marks.
fn nothing_found<StorageT: StorageIndex>(
    alloc: Global,
    rules: usize,
) -> Result<Found<StorageT>, AllocError>
    ensures none { IfOk result (HasNoLinks StorageT.index) }
    ensures marks { IfOk result (AreMarkedOf StorageT.index rules) }
{
    Ok(Found {
        links: Vec::new(alloc),
        any: unmarked(alloc, rules)?,
        asked: unmarked(alloc, rules)?,
    })
}

// Marks for this number of rules, none of which is set.
fn unmarked(alloc: Global, rules: usize) -> Result<Vec<bool>, AllocError>
    ensures room { IfOk result (HasRoom rules) }
    ensures none { IfOk result HasNoMarks }
{
    vec![in alloc; false; rules]
}

// Links what comes by closure with the kernel items: those with a dot after a symbol, and the start item.
fn note_kernel<StorageT: StorageIndex>(
    grm: &YaccGrammar<StorageT>,
    firsts: &[TokenSet],
    graph: &StateGraph<StorageT>,
    state: StIdx<StorageT>,
    token: TIdx<StorageT>,
    found: &mut Found<StorageT>,
) -> Result<(), AllocError>
    requires asked { AsksFor StorageT.index grm.now firsts.now graph.now state token }
    requires marks { AreMarked StorageT.index grm.now found.old }
    ensures marks { OnOk result (AreMarked StorageT.index grm.now found.new) }
    ensures put { OnOk result (PutsFromKernel StorageT.index grm.now graph.now state token found.old found.new) }
    ensures noted { OnOk result (NotesKernel StorageT.index grm.now graph.now state token found.new) }
{
    let start = grm.start_prod();
    if graph.has_core(state, start, 0) {
        note_core(grm, firsts, graph, state, token, (start, 0), found)?;
    }
    for core in graph.begun_cores(state) {
        note_core(grm, firsts, graph, state, token, *core, found)?;
    }
    Ok(())
}

// Links what comes by closure with one core: for any lookahead, and for the token, if it is one of the core's.
fn note_core<StorageT: StorageIndex>(
    grm: &YaccGrammar<StorageT>,
    firsts: &[TokenSet],
    graph: &StateGraph<StorageT>,
    state: StIdx<StorageT>,
    token: TIdx<StorageT>,
    core: (PIdx<StorageT>, usize),
    found: &mut Found<StorageT>,
) -> Result<(), AllocError>
    requires asked { AsksFor StorageT.index grm.now firsts.now graph.now state token }
    requires marks { AreMarked StorageT.index grm.now found.old }
    requires core { IsKernelCore StorageT.index grm.now graph.now state core }
    ensures marks { OnOk result (AreMarked StorageT.index grm.now found.new) }
    ensures put { OnOk result (PutsFromKernel StorageT.index grm.now graph.now state token found.old found.new) }
    ensures noted { OnOk result (NotesKernelCore StorageT.index grm.now graph.now state token core found.new) }
{
    note(grm, firsts, token, core, false, 0, found)?;
    if graph.has_item(state, core.0, core.1, token) {
        note(grm, firsts, token, core, true, 0, found)?;
    }
    Ok(())
}

// Links what comes by closure with each production of the link's rule.
fn note_rule<StorageT: StorageIndex>(
    grm: &YaccGrammar<StorageT>,
    firsts: &[TokenSet],
    token: TIdx<StorageT>,
    link: Link<StorageT>,
    at: usize,
    found: &mut Found<StorageT>,
) -> Result<(), AllocError>
    requires well_formed { IsWellFormed grm.now }
    requires firsts { AreFirsts grm.now (rows_of firsts.now) }
    requires token { IsTokenOf StorageT.index grm.now token }
    requires rule { StorageT.index link.rule.0 < rules_len grm.now }
    requires marks { AreMarked StorageT.index grm.now found.old }
    ensures marks { OnOk result (AreMarked StorageT.index grm.now found.new) }
    ensures put { OnOk result (PutsBelow StorageT.index grm.now token at link found.old found.new) }
    ensures noted { OnOk result (NotesBelow StorageT.index grm.now token link found.new) }
{
    for pidx in grm.rule_to_prods(link.rule) {
        note(grm, firsts, token, (*pidx, 0), link.asked, at, found)?;
    }
    Ok(())
}

// Links what comes by closure with a core: the rule after its dot, if there is one.
fn note<StorageT: StorageIndex>(
    grm: &YaccGrammar<StorageT>,
    firsts: &[TokenSet],
    token: TIdx<StorageT>,
    core: (PIdx<StorageT>, usize),
    further: bool,
    above: usize,
    found: &mut Found<StorageT>,
) -> Result<(), AllocError>
    requires well_formed { IsWellFormed grm.now }
    requires firsts { AreFirsts grm.now (rows_of firsts.now) }
    requires token { IsTokenOf StorageT.index grm.now token }
    requires core { IsCoreOf StorageT.index grm.now core }
    requires marks { AreMarked StorageT.index grm.now found.old }
    ensures marks { OnOk result (AreMarked StorageT.index grm.now found.new) }
    ensures put { OnOk result (PutsSteps StorageT.index grm.now token core further above found.old found.new) }
    ensures noted { OnOk result (NotesCore StorageT.index grm.now token core further found.new) }
{
    let dummy = grm.tokens_len();
    let Some((rule, rest)) = rule_after(grm, core.0, core.1) else {
        return Ok(());
    };
    let link = Link {
        rule,
        asked: further,
        prod: core.0,
        dot: core.1,
        further,
        above,
    };
    if further {
        if can_begin(firsts, rest, dummy, dummy) {
            add(link, found)?;
        }
        return Ok(());
    }
    add(link, found)?;
    if can_begin(firsts, rest, usize::from(token), dummy) {
        add(
            Link {
                asked: true,
                ..link
            },
            found,
        )?;
    }
    Ok(())
}

// Appends a link, unless there is one of its rule for the same lookaheads.
fn add<StorageT: StorageIndex>(
    link: Link<StorageT>,
    found: &mut Found<StorageT>,
) -> Result<(), AllocError>
    requires rule { HasMarkFor StorageT.index found.old link.rule }
    requires marks { HasMarks StorageT.index found.old }
    ensures marks { OnOk result (KeepsMarks StorageT.index found.old found.new) }
    ensures put { OnOk result (PutsLink StorageT.index link found.old found.new) }
    ensures linked { OnOk result (IsLinked StorageT.index found.new link.rule link.asked) }
{
    if link.asked {
        put(link, &mut found.links, &mut found.asked)
    } else {
        put(link, &mut found.links, &mut found.any)
    }
}

// Appends a link and marks its rule, unless that is marked.
fn put<StorageT: StorageIndex>(
    link: Link<StorageT>,
    links: &mut Vec<Link<StorageT>>,
    marks: &mut Vec<bool>,
) -> Result<(), AllocError>
    requires rule { HasMarkForLink StorageT.index marks.old link }
    requires linked { HaveLinks StorageT.index links.old.items marks.old.items link.asked }
    ensures { OnOk result (PutsMarked StorageT.index link links.old.items links.new.items marks.old.items marks.new.items) }
{
    let rule = usize::from(link.rule);
    if !marks[rule] {
        links.push(link)?;
        marks[rule] = true;
    }
    Ok(())
}
