//! The check whether each stack of a table can be completed.
ghost use Rattle.std.specs.Prelude.{◌<◌, IfErr, OnOk, length};
ghost use Rattle.lrpar_table_pops.specs.Completable.{AreAllCompletable};
ghost use Rattle.std.specs.Prelude.{IfOk};
ghost use Rattle.std.specs.Bool.{OnTrue};
ghost use Rattle.lrpar_table_pops.specs.Stuck.{IsFault};
ghost use Rattle.lrpar_table_pops.specs.Automaton.{HaveRoomIn, IsPartWith};
ghost use Rattle.lrpar_table_pops.specs.Search.{CompletesBy, GoesOnAt, HasAllGood, HasStacks, IsAllDone, IsFaultIfWhole, IsFaultIfAllGood};

use crate::automaton::Automaton;
pub use crate::fault::Incompletable;
use crate::likely::likely_tokens;
use crate::part::part_at;
use crate::pops::Pops;
use crate::searched::Searched;
use crate::sets::empty_sets;
use lrpar_grammar::span::StorageIndex;
use lrpar_grammar::token_set::TokenSet;
use lrpar_table_check::check::ParserData;
use lrpar_table_rows::table::StateTable;
use std::alloc::Global;

/// Checks that each stack of the table can be completed: some tokens lead from it to a stack that accepts.
///
/// The check goes over all stacks, from the start state up. It tells stacks apart by their tops, and by the ways in which a run can leave the
/// top and go on to accept; a stack is left out if a known one will do. `most` limits how many it tells apart. At first the runs read few
/// tokens alone: the end token, and those that shortest complete a kernel core of each state. By these the tables of C, C99, Python and PHP
/// pass. If they leave a stack, as in Lua, all is done again with all tokens, which takes several times as long.
///
/// `Stuck` gives a stack of the table for which there are no such tokens. `TooMany` means that there are more stacks to tell apart than
/// `most`, and says nothing of the table. `Memory` means that an allocation failed.
///
/// Each stack that it tells apart takes memory for a set of tokens for each kernel core of its top. It takes time for some passes over the
/// actions of the states that gotos of its top lead to, until a pass finds no new token; and it is compared with those of the same top.
pub fn check_completable<StorageT: StorageIndex>(
    alloc: Global,
    checked: &ParserData<StorageT>,
    most: usize,
) -> Result<(), Incompletable<StorageT>>
    ensures completable { OnOk result (AreAllCompletable checked.now.grammar checked.now.table) }
    ensures fault { IfErr result (IsFault StorageT.index checked.now.grammar checked.now.table) }
{
    // The proof needs that the table is safe, and has the tokens and rules of the grammar alone.
    let _lemma = checked.stable();
    let _lemma = (
        checked.stable().states_len(),
        checked.stable().tokens_len(),
        checked.stable().rules_len(),
    );
    let whole = Automaton::new(checked.grm(), checked.sgraph(), checked.stable());
    check_whole(alloc, &whole, most)
}

// Checks that each stack of the whole table can be completed, with few tokens first.
fn check_whole<StorageT: StorageIndex>(
    alloc: Global,
    whole: &Automaton<'_, StorageT>,
    most: usize,
) -> Result<(), Incompletable<StorageT>>
    ensures completable { OnOk result (AreAllCompletable whole.now.grammar whole.now.table) }
    ensures fault { IfErr result (IsFault StorageT.index whole.now.grammar whole.now.table) }
{
    let likely = likely_tokens(alloc, whole)?;
    if are_completable_by(alloc, whole, &likely, most)? {
        return Ok(());
    }
    let pops = Pops::new(alloc, whole)?;
    search_all(alloc, whole, whole.stable(), &pops, most)
}

// Whether it is found that each stack can be completed by runs that read these tokens alone. If not, that says nothing of the table. Refused
// as the check is; `TooMany`, too, so that a large table isn't gone over twice.
fn are_completable_by<StorageT: StorageIndex>(
    alloc: Global,
    whole: &Automaton<'_, StorageT>,
    tokens: &TokenSet,
    most: usize,
) -> Result<bool, Incompletable<StorageT>>
    ensures completable { IfOk result (λ yes. OnTrue yes (AreAllCompletable whole.now.grammar whole.now.table)) }
    ensures fault { IfErr result (IsFault StorageT.index whole.now.grammar whole.now.table) }
{
    let Some(stable) = part_at(alloc, whole.stable(), tokens)? else {
        return Ok(false);
    };
    let part = Automaton::new(whole.grm(), whole.sgraph(), &stable);
    let pops = Pops::new(alloc, &part)?;
    match search_all(alloc, whole, &stable, &pops, most) {
        Ok(()) => Ok(true),
        Err(Incompletable::Memory) => Err(Incompletable::Memory),
        Err(Incompletable::TooMany) => Err(Incompletable::TooMany),
        Err(Incompletable::Stuck(_)) => Ok(false),
    }
}

// Goes over the stacks of the table, from the start state up, until one can't be completed by these exits.
fn search_all<StorageT: StorageIndex>(
    alloc: Global,
    checked: &Automaton<'_, StorageT>,
    part: &StateTable<StorageT>,
    pops: &Pops,
    most: usize,
) -> Result<(), Incompletable<StorageT>>
    requires part { IsPartWith checked.now part.now pops.now }
    ensures completable { OnOk result (AreAllCompletable checked.now.grammar checked.now.table) }
    ensures fault { IfErr result (IsFaultIfWhole StorageT.index checked.now part.now pops.now) }
{
    // The proof needs that the table is safe.
    let _lemma = checked.stable();
    let mut searched = Searched::new(alloc, checked)?;
    search(alloc, checked, part, pops, &mut searched, most)
}

// Goes on from each stack in turn, until none is left.
fn search<StorageT: StorageIndex>(
    alloc: Global,
    checked: &Automaton<'_, StorageT>,
    part: &StateTable<StorageT>,
    pops: &Pops,
    searched: &mut Searched<StorageT>,
    most: usize,
) -> Result<(), Incompletable<StorageT>>
    requires part { IsPartWith checked.now part.now pops.now }
    requires stacks { HasStacks StorageT.index checked.now searched.old }
    requires all_good { HasAllGood StorageT.index checked.now searched.old }
    ensures stacks { OnOk result (HasStacks StorageT.index checked.now searched.new) }
    ensures done { OnOk result (IsAllDone StorageT.index checked.now pops.now searched.new) }
    ensures fault { IfErr result (IsFaultIfWhole StorageT.index checked.now part.now pops.now) }
{
    let mut reduced = empty_sets(alloc, checked.grm())?;
    let mut place = 0;
    'stacks: while place < searched.len() {
        if searched.len() > most {
            return Err(Incompletable::TooMany);
        }
        go_on(alloc, checked, part, pops, searched, place, &mut reduced)?;
        place += 1;
    }
    Ok(())
}

// Goes on from the stack at the place, if that can be completed.
fn go_on<StorageT: StorageIndex>(
    alloc: Global,
    checked: &Automaton<'_, StorageT>,
    part: &StateTable<StorageT>,
    pops: &Pops,
    searched: &mut Searched<StorageT>,
    place: usize,
    reduced: &mut Vec<TokenSet>,
) -> Result<(), Incompletable<StorageT>>
    requires part { IsPartWith checked.now part.now pops.now }
    requires stacks { HasStacks StorageT.index checked.now searched.old }
    requires place { place < length searched.old.stacks.items }
    requires room { HaveRoomIn checked.now reduced.old }
    ensures room { OnOk result (HaveRoomIn checked.now reduced.new) }
    ensures gone_on { OnOk result (GoesOnAt StorageT.index checked.now part.now pops.now place searched.old searched.new) }
    ensures completes { OnOk result (CompletesBy StorageT.index pops.now searched.old place) }
    ensures fault { IfErr result (IsFaultIfAllGood StorageT.index checked.now part.now pops.now searched.old) }
{
    // The proof needs that the table is safe.
    let _lemma = checked.stable();
    if !searched.can_complete(place, pops) {
        let states = searched.states(alloc, checked, place)?;
        return Err(Incompletable::Stuck(states));
    }
    searched.add_above(alloc, checked, part, pops, place, reduced)?;
    Ok(())
}
