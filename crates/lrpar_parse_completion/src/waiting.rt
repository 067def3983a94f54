//! The rules that the items of a state wait for, each with an item that has it after the dot.
ghost use Rattle.std.specs.Prelude.{◌≡◌, ◌<◌, ◌≤◌, IfOk, OnOk, length};
ghost use Rattle.lrpar_grammar.specs.Grammar.{IsWellFormed, prod_len, prods_len, rules_len};
ghost use Rattle.lrpar_table_rows.specs.Graph.{graph_len};
ghost use Rattle.lrpar_parse_completion.specs.Waiting.{AreWaitingIn};

use lrpar_grammar::grammar::YaccGrammar;
use lrpar_grammar::span::{PIdx, RIdx, StIdx, StorageIndex};
use lrpar_table_check::check::ParserData;
use lrpar_table_first::after_dot::rule_after;
use std::alloc::{AllocError, Global};

/// A rule, and an item that has it after the dot: its production and its dot.
#[derive(Clone, Copy)]
pub(crate) struct Link<StorageT: StorageIndex> {
    pub(crate) rule: RIdx<StorageT>,
    pub(crate) prod: PIdx<StorageT>,
    pub(crate) dot: usize,
}

/// The rules that are found so far, in the order in which they are found, and for each rule of the grammar whether it is among them.
#[derive(Drop)]
struct Found<StorageT: StorageIndex> {
    links: Vec<Link<StorageT>>,
    marks: Vec<bool>,
}

/// The rules that the items of the state wait for, each once: an item has the rule after its dot. That item is a kernel item or the start
/// item, or the rule of its production is an earlier one.
///
/// Takes time and memory linear in the grammar. `Err`: out of memory.
pub(crate) fn waiting<StorageT: StorageIndex>(
    alloc: Global,
    checked: &ParserData<StorageT>,
    state: StIdx<StorageT>,
) -> Result<Vec<Link<StorageT>>, AllocError>
    requires { StorageT.index state.0 < graph_len checked.now.graph }
    ensures { IfOk result (AreWaitingIn StorageT.index checked.now state) }
{
    let _lemma = checked.stable();
    let grm = checked.grm();
    let mut found = Found::new(alloc, grm)?;
    found.add_kernel(checked, state)?;
    found.add_start(checked, state)?;
    let mut place = 0;
    'found: while place < found.links.len() {
        let link = found.links[place];
        found.add_prods(grm, link.rule)?;
        place += 1;
    }
    let Found { links, marks: _ } = found;
    Ok(links)
}

impl<StorageT: StorageIndex> Found<StorageT> {
    ghost use Rattle.lrpar_parse_completion.specs.Finding.{AddsItem, AddsKernel, AddsProds, AddsStart, HasNone, IsCounted};

    // No rule.
    fn new(alloc: Global, grm: &YaccGrammar<StorageT>) -> Result<Self, AllocError>
        ensures { IfOk result (HasNone StorageT.index grm.now) }
    {
        let marks = vec![in alloc; false; grm.rules_len()]?;
        Ok(Found {
            links: Vec::new(alloc),
            marks,
        })
    }

    // Adds the rules after the dots of the state's kernel items.
    fn add_kernel(
        &mut self,
        checked: &ParserData<StorageT>,
        state: StIdx<StorageT>,
    ) -> Result<(), AllocError>
        requires state { StorageT.index state.0 < graph_len checked.now.graph }
        requires counted { IsCounted StorageT.index checked.now.grammar self.old }
        ensures { OnOk result (AddsKernel StorageT.index checked.now state self.old self.new) }
    {
        let _lemma = checked.stable();
        let grm = checked.grm();
        for (prod, dot) in checked.sgraph().begun_cores(state) {
            self.add(grm, *prod, *dot)?;
        }
        Ok(())
    }

    // Adds the start rule, if the state is the start state.
    fn add_start(
        &mut self,
        checked: &ParserData<StorageT>,
        state: StIdx<StorageT>,
    ) -> Result<(), AllocError>
        requires counted { IsCounted StorageT.index checked.now.grammar self.old }
        ensures { OnOk result (AddsStart StorageT.index checked.now state self.old self.new) }
    {
        if usize::from(state) != usize::from(checked.stable().start_state()) {
            return Ok(());
        }
        let grm = checked.grm();
        self.add(grm, grm.start_prod(), 0)?;
        Ok(())
    }

    // Adds the rule after the dot of each production of the rule, with the dot at the start.
    fn add_prods(
        &mut self,
        grm: &YaccGrammar<StorageT>,
        rule: RIdx<StorageT>,
    ) -> Result<(), AllocError>
        requires formed { IsWellFormed grm.now }
        requires rule { StorageT.index rule.0 < rules_len grm.now }
        requires counted { IsCounted StorageT.index grm.now self.old }
        ensures { OnOk result (AddsProds StorageT.index grm.now rule self.old self.new) }
    {
        for prod in grm.rule_to_prods(rule) {
            self.add(grm, *prod, 0)?;
        }
        Ok(())
    }

    // Adds the rule after the dot of the item, if there is one and it isn't found yet.
    fn add(
        &mut self,
        grm: &YaccGrammar<StorageT>,
        prod: PIdx<StorageT>,
        dot: usize,
    ) -> Result<(), AllocError>
        requires formed { IsWellFormed grm.now }
        requires prod { StorageT.index prod.0 < prods_len grm.now }
        requires dot { dot ≤ prod_len grm.now (StorageT.index prod.0) }
        requires len { length self.old.marks.items ≡ rules_len grm.now }
        ensures { OnOk result (AddsItem StorageT.index grm.now prod dot self.old self.new) }
    {
        let Some((rule, _)) = rule_after(grm, prod, dot) else {
            return Ok(());
        };
        let number = usize::from(rule);
        if self.marks[number] {
            return Ok(());
        }
        self.links.push(Link { rule, prod, dot })?;
        self.marks[number] = true;
        Ok(())
    }
}
