//! The kernels of the gotos of an item set.
ghost use Rattle.std.specs.Prelude.{◌≡◌, ◌<◌, ◌+◌, ◌^◌, IfOk, IfSome, OnOk, length};
ghost use Rattle.lrpar_grammar.specs.Grammar.{IsWellFormed, rules_len, tokens_len};
ghost use Rattle.lrpar_table_items.specs.StoredCores.{AppendsAdvanced, AreOfGrammar, HasItems, HaveNoCores, IsOfGrammar, IsPutToRules, IsPutToTokens, IsSymbolAfter, IsSymbolOf};
ghost use Rattle.lrpar_table_items.specs.Working.{AreSuccessors};

use crate::cores::CoreItems;
use lrpar_grammar::grammar::YaccGrammar;
use lrpar_grammar::span::{StorageIndex, Symbol};
use std::alloc::{AllocError, Global};

/// A closed item set, by its cores, and the kernels to which it goes: one for each rule and one for each token. The kernel of a
/// symbol that comes after no dot has no cores.
#[derive(Drop)]
pub struct Successors<StorageT> {
    pub items: Vec<CoreItems<StorageT>>,
    pub rules: Vec<Vec<CoreItems<StorageT>>>,
    pub tokens: Vec<Vec<CoreItems<StorageT>>>,
}

impl<StorageT: StorageIndex> Successors<StorageT> {
    /// The item set of these cores and its kernels, by one pass over the cores.
    pub fn new(
        alloc: Global,
        grm: &YaccGrammar<StorageT>,
        items: Vec<CoreItems<StorageT>>,
    ) -> Result<Self, AllocError>
        requires well_formed { IsWellFormed grm.now }
        requires cores { AreOfGrammar StorageT.index grm.now items.items }
        ensures items { IfOk result (HasItems items.items) }
        ensures successors { IfOk result (AreSuccessors StorageT.index grm.now) }
    {
        let mut rules = no_kernels(alloc, grm.rules_len())?;
        let mut tokens = no_kernels(alloc, grm.tokens_len())?;
        for core in &items {
            put_next(alloc, grm, core, &mut rules, &mut tokens)?;
        }
        Ok(Successors {
            items,
            rules,
            tokens,
        })
    }
}

// `len` kernels without cores.
fn no_kernels<StorageT: StorageIndex>(
    alloc: Global,
    len: usize,
) -> Result<Vec<Vec<CoreItems<StorageT>>>, AllocError>
    ensures len { IfOk result (λ kernels. length kernels.items ≡ len) }
    ensures none { IfOk result (HaveNoCores StorageT.index) }
{
    let mut kernels = Vec::with_capacity(alloc, len)?;
    for _ in 0..len {
        kernels.push(Vec::new(alloc))?;
    }
    Ok(kernels)
}

// Appends the core, with its dot advanced, to the kernel of the symbol after its dot, if there is one.
fn put_next<StorageT: StorageIndex>(
    alloc: Global,
    grm: &YaccGrammar<StorageT>,
    core: &CoreItems<StorageT>,
    rules: &mut [Vec<CoreItems<StorageT>>],
    tokens: &mut [Vec<CoreItems<StorageT>>],
) -> Result<(), AllocError>
    requires well_formed { IsWellFormed grm.now }
    requires core { IsOfGrammar StorageT.index grm.now core.now }
    requires rules { length rules.old ≡ rules_len grm.now }
    requires tokens { length tokens.old ≡ tokens_len grm.now }
    ensures rules { OnOk result (IsPutToRules StorageT.index grm.now core.now rules.old rules.new) }
    ensures tokens { OnOk result (IsPutToTokens StorageT.index grm.now core.now tokens.old tokens.new) }
{
    match symbol_after(grm, core) {
        None => Ok(()),
        Some(Symbol::Rule(rule)) => {
            let target = usize::from(rule);
            push_advanced(alloc, core, &mut rules[target])
        }
        Some(Symbol::Token(token)) => {
            let target = usize::from(token);
            push_advanced(alloc, core, &mut tokens[target])
        }
    }
}

// The symbol after the core's dot, if there is one: a symbol of the grammar.
fn symbol_after<StorageT: StorageIndex>(
    grm: &YaccGrammar<StorageT>,
    core: &CoreItems<StorageT>,
) -> Option<Symbol<StorageT>>
    requires well_formed { IsWellFormed grm.now }
    requires core { IsOfGrammar StorageT.index grm.now core.now }
    ensures symbol { IsSymbolAfter StorageT.index grm.now core.now result }
    ensures listed { IfSome result (IsSymbolOf StorageT.index grm.now) }
    ensures next { IfSome result (λ _. core.now.dot + 1 < 2 ^ 64) }
{
    grm.prod(core.prod).get(core.dot).copied()
}

// Appends the core, with its dot one symbol further.
fn push_advanced<StorageT: StorageIndex>(
    alloc: Global,
    core: &CoreItems<StorageT>,
    kernel: &mut Vec<CoreItems<StorageT>>,
) -> Result<(), AllocError>
    requires { core.now.dot + 1 < 2 ^ 64 }
    ensures { OnOk result (AppendsAdvanced StorageT.index core.now kernel.old kernel.new) }
{
    let tokens = core.tokens.copy(alloc)?;
    kernel.push(CoreItems {
        prod: core.prod,
        dot: core.dot + 1,
        tokens,
    })?;
    Ok(())
}
