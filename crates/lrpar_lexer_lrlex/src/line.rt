//! A line of a rule: what it says.
ghost use Rattle.lrpar_lexer_lrlex.specs.Lines.{GivesLine};

use crate::escapes::unescaped;
use crate::fault::LrlexFault;
use crate::names::{states_of, target_of, token_of};
use crate::part::Part;
use crate::rule_line::line_parts;
use crate::states::{StateName, Target};
use lrpar_grammar::grammar::YaccGrammar;
use lrpar_grammar_places::span::{Span, StorageIndex, TIdx};
use std::alloc::Global;

// What a line of a rule says.
#[derive(Drop)]
pub(crate) struct Line<StorageT> {
    // the pattern for `regex`
    pub(crate) pattern: String,
    // the place of the pattern in the text
    pub(crate) place: Span,
    pub(crate) states: Vec<usize>,
    pub(crate) target: Option<Target>,
    pub(crate) token: Option<TIdx<StorageT>>,
}

// What a line of a rule says.
pub(crate) fn read_line<StorageT: StorageIndex>(
    alloc: Global,
    grm: &YaccGrammar<StorageT>,
    states: &[StateName],
    line: Part,
) -> Result<Line<StorageT>, LrlexFault>
    ensures { GivesLine StorageT.index grm.now states.now line.entry result }
{
    let parts = match line_parts(line) {
        Ok(parts) => parts,
        Err(fault) => return Err(fault),
    };
    let numbers = states_of(alloc, states, parts.states)?;
    let target = target_of(states, parts.target)?;
    let token = token_of(grm, parts.name)?;
    let pattern = unescaped(alloc, parts.pattern.text)?;
    Ok(Line {
        pattern,
        place: parts.pattern.span(),
        states: numbers,
        target,
        token,
    })
}
