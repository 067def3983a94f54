//! Rules that lead back to themselves while a parse shifts no token.
ghost use Rattle.std.specs.Prelude.{◌<◌, ◌∷◌, IfOk, IfSome, List, length};
ghost use Rattle.std.specs.Bool.{OnTrue};
ghost use Rattle.lrpar_grammar.specs.Grammar.{prods_len};
ghost use Rattle.lrpar_table_sentences.specs.Choices.{AreShortest};
ghost use Rattle.lrpar_report.specs.Loops.{Begins, FindsLoop, IsLoopBy, IsRuleAt, IsStepTo, LeadTo, StepOf, TellsEmpty, TellsLoopSymbol, step_of};

use lrpar_grammar::grammar::YaccGrammar;
use lrpar_grammar::span::{PIdx, RIdx, StorageIndex, Symbol};
use lrpar_table_sentences::reachable::Reachable;
use lrpar_table_sentences::shortest::Shortest;
use std::alloc::{AllocError, Global};

/// How a rule leads back to itself.
#[derive(Clone, Copy)]
pub(crate) enum LoopKind {
    /// It derives itself alone: all other symbols of the productions derive the empty text.
    DerivesItself,
    /// Hidden left recursion: it begins with itself, after symbols that derive the empty text.
    IsHiddenLeft,
}

/// A step of such a loop: a production of a rule, and the place of the next rule on its right side.
#[derive(Clone, Copy)]
pub(crate) struct LoopStep<StorageT> {
    pub(crate) prod: PIdx<StorageT>,
    pub(crate) place: usize,
}

/// A path from a rule to the target: its first step, and how many steps come after it.
#[derive(Clone, Copy)]
struct Path<StorageT> {
    step: LoopStep<StorageT>,
    steps: usize,
}

/// A loop of this kind between reachable rules, if one is found: a shortest one that begins with the first step that begins any. If
/// a rule is named, the loop begins with it.
///
/// It computes minimal sentences of all rules. For each step that a loop can begin with, it then looks for shortest paths by sweeps
/// over all steps of the kind.
pub(crate) fn loop_of<StorageT: StorageIndex>(
    alloc: Global,
    grm: &YaccGrammar<StorageT>,
    kind: LoopKind,
    rule: Option<RIdx<StorageT>>,
) -> Result<Option<Vec<LoopStep<StorageT>>>, AllocError>
    ensures { IfOk result (FindsLoop StorageT.index kind grm.now) }
{
    let shortest = Shortest::new(alloc, grm)?;
    let steps = steps_of(alloc, grm, &shortest, kind)?;
    first_loop(alloc, grm, &shortest, &steps, kind, rule)
}

// The loop that begins with the first of these steps that begins any.
fn first_loop<StorageT: StorageIndex>(
    alloc: Global,
    grm: &YaccGrammar<StorageT>,
    shortest: &Shortest<StorageT>,
    steps: &[LoopStep<StorageT>],
    kind: LoopKind,
    rule: Option<RIdx<StorageT>>,
) -> Result<Option<Vec<LoopStep<StorageT>>>, AllocError>
    requires { AreShortest grm.now usize.MAX shortest.now }
    ensures { IfOk result (FindsLoop StorageT.index kind grm.now) }
{
    for first in steps {
        if may_begin(grm, kind, rule, *first) {
            if let Some(found) = loop_from(alloc, grm, steps, *first)? {
                if is_loop(grm, shortest, kind, &found) {
                    return Ok(Some(found));
                }
            }
        }
    }
    Ok(None)
}

// Whether a loop can begin with the step.
fn may_begin<StorageT: StorageIndex>(
    grm: &YaccGrammar<StorageT>,
    kind: LoopKind,
    rule: Option<RIdx<StorageT>>,
    step: LoopStep<StorageT>,
) -> bool {
    match rule {
        Some(rule) if rule_of(grm, step) != Some(rule) => false,
        _ => has_begun(kind, step),
    }
}

// Whether a loop can begin with the step, if it is one of the kind.
fn has_begun<StorageT: StorageIndex>(kind: LoopKind, step: LoopStep<StorageT>) -> bool
    ensures { OnTrue result ((steps : List StepOf) → Begins kind (step_of StorageT.index step ∷ steps)) }
{
    match kind {
        LoopKind::DerivesItself => true,
        LoopKind::IsHiddenLeft => step.place > 0,
    }
}

// The rule of the step's production.
fn rule_of<StorageT: StorageIndex>(
    grm: &YaccGrammar<StorageT>,
    step: LoopStep<StorageT>,
) -> Option<RIdx<StorageT>> {
    if usize::from(step.prod) < grm.prods_len() {
        Some(grm.prod_to_rule(step.prod))
    } else {
        None
    }
}

// The rule to which the step leads.
fn rule_after<StorageT: StorageIndex>(
    grm: &YaccGrammar<StorageT>,
    step: LoopStep<StorageT>,
) -> Option<RIdx<StorageT>> {
    if usize::from(step.prod) < grm.prods_len() {
        rule_at(grm.prod(step.prod), step.place)
    } else {
        None
    }
}

// The rule at the place, if there is one.
fn rule_at<StorageT: StorageIndex>(
    symbols: &[Symbol<StorageT>],
    place: usize,
) -> Option<RIdx<StorageT>>
    ensures within { IfSome result (λ rule. place < length symbols.now) }
    ensures rule { IfSome result (IsRuleAt StorageT.index symbols.now place) }
{
    match symbols.get(place) {
        Some(Symbol::Rule(rule)) => Some(*rule),
        _ => None,
    }
}

// All steps of the kind between reachable rules, production by production.
fn steps_of<StorageT: StorageIndex>(
    alloc: Global,
    grm: &YaccGrammar<StorageT>,
    shortest: &Shortest<StorageT>,
    kind: LoopKind,
) -> Result<Vec<LoopStep<StorageT>>, AllocError> {
    let reached = Reachable::new(alloc, grm)?;
    let mut steps = Vec::new(alloc);
    for prod in grm.iter_pidxs() {
        if usize::from(prod) < grm.prods_len() && reached.is_reachable(grm.prod_to_rule(prod)) {
            push_steps(&mut steps, grm, shortest, kind, prod)?;
        }
    }
    Ok(steps)
}

// Adds the steps of the kind by a production.
fn push_steps<StorageT: StorageIndex>(
    steps: &mut Vec<LoopStep<StorageT>>,
    grm: &YaccGrammar<StorageT>,
    shortest: &Shortest<StorageT>,
    kind: LoopKind,
    prod: PIdx<StorageT>,
) -> Result<(), AllocError>
    requires { StorageT.index prod.0 < prods_len grm.now }
{
    let symbols = grm.prod(prod);
    for place in 0..symbols.len() {
        if rule_at(symbols, place).is_some() && is_position(shortest, kind, symbols, place) {
            steps.push(LoopStep { prod, place })?;
        }
        if !derive_nothing(shortest, &symbols[place..place + 1]) {
            return Ok(());
        }
    }
    Ok(())
}

// The loop that begins with the step, if there is one.
fn loop_from<StorageT: StorageIndex>(
    alloc: Global,
    grm: &YaccGrammar<StorageT>,
    steps: &[LoopStep<StorageT>],
    first: LoopStep<StorageT>,
) -> Result<Option<Vec<LoopStep<StorageT>>>, AllocError> {
    let Some(target) = rule_of(grm, first) else {
        return Ok(None);
    };
    let paths = paths_to(alloc, grm, steps, target)?;
    let mut found = Vec::new(alloc);
    if push_path(&mut found, grm, &paths, first, target)? {
        Ok(Some(found))
    } else {
        Ok(None)
    }
}

// Adds the step and those of the path on which it leads. Returns whether they lead to the target.
fn push_path<StorageT: StorageIndex>(
    found: &mut Vec<LoopStep<StorageT>>,
    grm: &YaccGrammar<StorageT>,
    paths: &[Option<Path<StorageT>>],
    first: LoopStep<StorageT>,
    target: RIdx<StorageT>,
) -> Result<bool, AllocError> {
    let mut step = first;
    for _ in 0..grm.rules_len() {
        found.push(step)?;
        let Some(rule) = rule_after(grm, step) else {
            return Ok(false);
        };
        if rule == target {
            return Ok(true);
        }
        match paths.get(usize::from(rule)) {
            Some(Some(path)) => step = path.step,
            _ => return Ok(false),
        }
    }
    Ok(false)
}

// For each rule a shortest path to the target, if there is one.
fn paths_to<StorageT: StorageIndex>(
    alloc: Global,
    grm: &YaccGrammar<StorageT>,
    steps: &[LoopStep<StorageT>],
    target: RIdx<StorageT>,
) -> Result<Vec<Option<Path<StorageT>>>, AllocError> {
    let mut paths = vec![in alloc; None; grm.rules_len()]?;
    for sweep in 0..grm.rules_len() {
        if !add_paths(&mut paths, grm, steps, target, sweep) {
            return Ok(paths);
        }
    }
    Ok(paths)
}

// Adds the paths with `sweep` steps after the first one, and returns whether there is one.
fn add_paths<StorageT: StorageIndex>(
    paths: &mut [Option<Path<StorageT>>],
    grm: &YaccGrammar<StorageT>,
    steps: &[LoopStep<StorageT>],
    target: RIdx<StorageT>,
    sweep: usize,
) -> bool {
    let mut has_more = false;
    for step in steps {
        if leads_on(paths, grm, *step, target, sweep) && add_path(paths, grm, *step, sweep) {
            has_more = true;
        }
    }
    has_more
}

// Whether the step leads to the target, or to a rule for which an earlier sweep found a path.
fn leads_on<StorageT: StorageIndex>(
    paths: &[Option<Path<StorageT>>],
    grm: &YaccGrammar<StorageT>,
    step: LoopStep<StorageT>,
    target: RIdx<StorageT>,
    sweep: usize,
) -> bool {
    match rule_after(grm, step) {
        Some(rule) if rule == target => true,
        Some(rule) => match paths.get(usize::from(rule)) {
            Some(Some(path)) => path.steps < sweep,
            _ => false,
        },
        None => false,
    }
}

// Keeps a path with this first step for the step's rule, if the rule has none yet. Returns whether it had none.
fn add_path<StorageT: StorageIndex>(
    paths: &mut [Option<Path<StorageT>>],
    grm: &YaccGrammar<StorageT>,
    step: LoopStep<StorageT>,
    sweep: usize,
) -> bool {
    let Some(rule) = rule_of(grm, step) else {
        return false;
    };
    let rule = usize::from(rule);
    if rule < paths.len() && paths[rule].is_none() {
        paths[rule] = Some(Path { step, steps: sweep });
        true
    } else {
        false
    }
}

// Whether the steps are a loop of the kind.
fn is_loop<StorageT: StorageIndex>(
    grm: &YaccGrammar<StorageT>,
    shortest: &Shortest<StorageT>,
    kind: LoopKind,
    steps: &[LoopStep<StorageT>],
) -> bool
    requires { AreShortest grm.now usize.MAX shortest.now }
    ensures { OnTrue result (IsLoopBy StorageT.index kind grm.now steps.now) }
{
    let Some((first, _)) = steps.split_first() else {
        return false;
    };
    match rule_of(grm, *first) {
        Some(rule) if has_begun(kind, *first) => match end_of(grm, shortest, kind, steps, rule) {
            Some(end) => usize::from(end) == usize::from(rule),
            None => false,
        },
        _ => false,
    }
}

// The rule to which the steps lead from `from`, if they are steps of the kind.
fn end_of<StorageT: StorageIndex>(
    grm: &YaccGrammar<StorageT>,
    shortest: &Shortest<StorageT>,
    kind: LoopKind,
    steps: &[LoopStep<StorageT>],
    from: RIdx<StorageT>,
) -> Option<RIdx<StorageT>>
    requires { AreShortest grm.now usize.MAX shortest.now }
    ensures { IfSome result (LeadTo StorageT.index kind grm.now from steps.now) }
{
    let mut rule = from;
    'steps: for step in steps {
        match end_of_step(grm, shortest, kind, rule, *step) {
            Some(next) => rule = next,
            None => return None,
        }
    }
    Some(rule)
}

// The rule to which the step leads from `from`, if it is a step of the kind.
fn end_of_step<StorageT: StorageIndex>(
    grm: &YaccGrammar<StorageT>,
    shortest: &Shortest<StorageT>,
    kind: LoopKind,
    from: RIdx<StorageT>,
    step: LoopStep<StorageT>,
) -> Option<RIdx<StorageT>>
    requires { AreShortest grm.now usize.MAX shortest.now }
    ensures { IfSome result (IsStepTo StorageT.index kind grm.now from step) }
{
    if usize::from(step.prod) >= grm.prods_len()
        || usize::from(grm.prod_to_rule(step.prod)) != usize::from(from)
    {
        return None;
    }
    let symbols = grm.prod(step.prod);
    let to = rule_at(symbols, step.place)?;
    if is_position(shortest, kind, symbols, step.place) {
        Some(to)
    } else {
        None
    }
}

// Whether a step of the kind can lead to the symbol at the place.
fn is_position<StorageT: StorageIndex>(
    shortest: &Shortest<StorageT>,
    kind: LoopKind,
    symbols: &[Symbol<StorageT>],
    place: usize,
) -> bool
    requires { place < length symbols.now }
    ensures { TellsLoopSymbol StorageT.index usize.MAX shortest.now kind symbols.now place result }
{
    match kind {
        LoopKind::DerivesItself => {
            derive_nothing(shortest, &symbols[..place])
                && derive_nothing(shortest, &symbols[place + 1..])
        }
        LoopKind::IsHiddenLeft => derive_nothing(shortest, &symbols[..place]),
    }
}

// Whether the symbols derive the empty text.
fn derive_nothing<StorageT: StorageIndex>(
    shortest: &Shortest<StorageT>,
    symbols: &[Symbol<StorageT>],
) -> bool
    ensures { TellsEmpty StorageT.index usize.MAX shortest.now symbols.now result }
{
    match shortest.len_of_all(symbols) {
        Some(len) => len == 0,
        None => false,
    }
}
