//! One step under a lookahead, over any list of states: a stack, or the states of a chain.
ghost use Rattle.std.specs.Prelude.{◌≡◌, ◌<◌, IfOk, OnErr};
ghost use Rattle.lrpar_grammar.specs.Grammar.{prods_len, rules_len};
ghost use Rattle.lrpar_table_stacks.specs.ReductionStep.{AllowsReduction, FailsReduction, FailsStep, FitsGrammar, IsReductionMade, TakesStep};
ghost use Rattle.lrpar_table_stacks.specs.Stack.{AreSomeStatesOf, AreStatesOf};

use crate::state_stack::{Reduction, StateStack};
use lrpar_grammar::grammar::YaccGrammar;
use lrpar_grammar::span::{PIdx, StorageIndex, TIdx};
use lrpar_table_rows::table::{Action, StateTable};
use std::alloc::AllocError;

/// The result of a step.
#[derive(Clone, Copy)]
pub enum Step {
    /// A reduction was made.
    Reduced,
    /// A reduction is due that would drop all states. It wasn't made.
    LeavesNone,
    /// No reduction is due, or there is no goto for it.
    Stays,
}

/// Makes one reduction under the token, if it leaves a state that has the goto. Otherwise, and after an `Err`, the states stay
/// as they were. Returns the result of the step, and the action of the top. An `Err` means that an allocation failed.
pub fn take_step<StorageT: StorageIndex, S: StateStack<StorageT>>(
    grm: &YaccGrammar<StorageT>,
    table: &StateTable<StorageT>,
    states: &mut S,
    t: TIdx<StorageT>,
) -> Result<(Step, Action<StorageT>), AllocError>
    requires fits { FitsGrammar grm.now table.now }
    requires token { StorageT.index t.0 < table.now.tokens }
    requires suits { S.suits grm.now table.now states.old }
    requires states { AreSomeStatesOf table.now (S.states states.old) }
    ensures taken { IfOk result (TakesStep StorageT.index S.StateStack grm.now table.now t states.old states.new) }
    ensures short_of_memory { OnErr result (FailsStep StorageT.index S.StateStack grm.now table.now t states.old states.new) }
{
    match table.action(states.top(), t) {
        Action::Reduce(prod) => {
            let step = reduce_by(grm, table, states, prod)?;
            Ok((step, Action::Reduce(prod)))
        }
        other => Ok((Step::Stays, other)),
    }
}

// Reduces the states by the production, if it leaves a state that has the goto.
fn reduce_by<StorageT: StorageIndex, S: StateStack<StorageT>>(
    grm: &YaccGrammar<StorageT>,
    table: &StateTable<StorageT>,
    states: &mut S,
    prod: PIdx<StorageT>,
) -> Result<Step, AllocError>
    requires rules { table.now.rules ≡ rules_len grm.now }
    requires prod { StorageT.index prod.0 < prods_len grm.now }
    requires can { AllowsReduction StorageT.index S.StateStack grm.now table.now prod states.old }
    requires within { AreStatesOf table.now (S.states states.old) }
    ensures made { IfOk result (IsReductionMade StorageT.index S.StateStack grm.now table.now prod states.old states.new) }
    ensures fails { OnErr result (FailsReduction StorageT.index S.StateStack grm.now table.now prod states.old states.new) }
{
    let symbols = grm.prod(prod).len();
    let height = states.height();
    if height <= symbols {
        return Ok(Step::LeavesNone);
    }
    let rule = grm.prod_to_rule(prod);
    match table.goto(states.state_at(height - symbols - 1), rule) {
        None => Ok(Step::Stays),
        Some(next) => {
            states.reduce(Reduction {
                prod,
                rule,
                symbols,
                next,
            })?;
            Ok(Step::Reduced)
        }
    }
}
