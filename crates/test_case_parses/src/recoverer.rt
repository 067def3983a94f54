//! The recoverers of cases.
use crate::lexemes::token_number;
use crate::steps::sequences_of;
use lrpar_grammar::grammar::YaccGrammar;
use lrpar_grammar::span::TIdx;
use lrpar_lexer::Token;
use lrpar_parse_completion::{Completion, NoCompletion, TableCompletion};
use lrpar_parse_cpctplus::{CostFault, CpctPlus};
use lrpar_parse_repair::or::Or;
use lrpar_parse_repair::repair::{FixedRecoverer, Recoverer, RecoveryPoint, RepairStep};
use lrpar_table::check::ParserData;
use lrpar_table_pops::check_completable::Incompletable;
use std::alloc::{AllocError, Global};
use test_case_lines::cases::Case;
use test_case_lines::fault::Fault;

/// What supplies sequences at the errors of a case.
#[derive(Drop)]
pub(crate) enum CaseRecoverer<'a> {
    /// These repairs, at each error.
    Fixed(FixedRecoverer<u32>),
    /// The cheapest ones.
    CpctPlus(CpctPlus),
    /// That of the nearest place, by a completion.
    Completion(Completion<'a, u32>),
    /// That of the nearest place, by tokens that finish a stack of the table.
    TableCompletion(TableCompletion<'a, u32>),
    /// The cheapest ones, or that of a completion.
    Either(Or<CpctPlus, Completion<'a, u32>, u32, Token<u32>>),
}

impl Recoverer<u32, Token<u32>> for CaseRecoverer<'_> {
    ghost allows = { λ _ _ _. Unit {0} };

    fn recover(
        &self,
        alloc: Global,
        point: &RecoveryPoint<'_, u32, Token<u32>>,
    ) -> Result<Vec<Vec<RepairStep<u32>>>, AllocError> {
        match self {
            CaseRecoverer::Fixed(recoverer) => recoverer.recover(alloc, point),
            CaseRecoverer::CpctPlus(recoverer) => recoverer.recover(alloc, point),
            CaseRecoverer::Completion(recoverer) => recoverer.recover(alloc, point),
            CaseRecoverer::TableCompletion(recoverer) => recoverer.recover(alloc, point),
            CaseRecoverer::Either(recoverer) => recoverer.recover(alloc, point),
        }
    }
}

/// The recoverer that the line `recoverer` of a case names; if there is no such line, the one that supplies the sequences of the line
/// `repairs`.
pub(crate) fn recoverer_of<'a>(
    alloc: Global,
    data: &'a ParserData<u32>,
    case: Case<'_, '_>,
) -> Result<CaseRecoverer<'a>, Fault> {
    let grm = data.grm();
    let Some((value, number)) = case.value("recoverer") else {
        return Ok(CaseRecoverer::Fixed(FixedRecoverer::new(sequences_of(alloc, grm, case)?)));
    };
    if let Some(most) = number_after("completion ", value) {
        return Ok(CaseRecoverer::Completion(completion_of(alloc, data, most, number)?));
    }
    if let Some(most) = number_after("table-completion ", value) {
        let completion = table_completion_of(alloc, data, most, number)?;
        return Ok(CaseRecoverer::TableCompletion(completion));
    }
    let Some(limit) = number_after("cpctplus ", value) else {
        return Err(Fault::Line(number, "cpctplus or completion, and a number, are wanted"));
    };
    let cheapest = cpct_plus_of(alloc, grm, case, limit)?;
    match case.value("or") {
        None => Ok(CaseRecoverer::CpctPlus(cheapest)),
        Some((value, number)) => match number_after("completion ", value) {
            None => Err(Fault::Line(number, "completion, and a number, are wanted")),
            Some(most) => {
                let completion = completion_of(alloc, data, most, number)?;
                Ok(CaseRecoverer::Either(cheapest.or(completion)))
            }
        },
    }
}

/// The recoverer that supplies no sequence.
pub(crate) fn no_recoverer<'a>(alloc: Global) -> CaseRecoverer<'a> {
    CaseRecoverer::Fixed(FixedRecoverer::new(Vec::new(alloc)))
}

// The number after the name of a recoverer.
fn number_after(name: &str, value: &str) -> Option<usize> {
    value.strip_prefix(name)?.parse().ok()
}

// The completion over the table, which tries this many tokens at each place.
fn completion_of<'a>(
    alloc: Global,
    data: &'a ParserData<u32>,
    most: usize,
    number: usize,
) -> Result<Completion<'a, u32>, Fault> {
    match Completion::new(alloc, data) {
        Ok(completion) => Ok(completion.most(most)),
        Err(NoCompletion::Unproductive(_)) => Err(Fault::Line(number, "a rule derives no text")),
        Err(NoCompletion::Incomplete(_, _)) => {
            Err(Fault::Line(number, "the table isn't complete"))
        }
        Err(NoCompletion::Memory) => Err(Fault::Memory),
    }
}

// The completion by the table's own runs, which tries this many tokens at each place.
fn table_completion_of<'a>(
    alloc: Global,
    data: &'a ParserData<u32>,
    most: usize,
    number: usize,
) -> Result<TableCompletion<'a, u32>, Fault> {
    match TableCompletion::new(alloc, data) {
        Ok(completion) => Ok(completion.most(most)),
        Err(Incompletable::Stuck(_)) => {
            Err(Fault::Line(number, "a stack of the table can't be completed"))
        }
        Err(Incompletable::TooMany) => Err(Fault::Line(number, "there are too many stacks")),
        Err(Incompletable::Memory) => Err(Fault::Memory),
    }
}

// The search with this limit; the line `within` says how many configurations there may be in all searches of the parse, and the lines
// `avoid`, `at-most` and `list` which repairs are listed, and in which order.
fn cpct_plus_of(
    alloc: Global,
    grm: &YaccGrammar<u32>,
    case: Case<'_, '_>,
    limit: usize,
) -> Result<CpctPlus, Fault> {
    let mut recoverer = priced(alloc, grm, case, limit)?;
    if let Some((total, number)) = case.value("within") {
        recoverer = recoverer.within(number_of(total, number)?);
    }
    if let Some((names, number)) = case.value("avoid") {
        recoverer = recoverer.avoid_insert(alloc, &tokens_of(alloc, grm, names, number)?)?;
    }
    if let Some((most, number)) = case.value("at-most") {
        recoverer = recoverer.at_most(number_of(most, number)?);
    }
    match case.value("list") {
        None => Ok(recoverer),
        Some(("all", _)) => Ok(recoverer.all()),
        Some((_, number)) => Err(Fault::Line(number, "all is wanted")),
    }
}

// The number that is the value of the line.
fn number_of(value: &str, number: usize) -> Result<usize, Fault> {
    value
        .parse()
        .map_err(|_| Fault::Line(number, "a number is wanted"))
}

// The search with this limit; the line `costs` says what tokens cost that don't cost 1.
fn priced(
    alloc: Global,
    grm: &YaccGrammar<u32>,
    case: Case<'_, '_>,
    limit: usize,
) -> Result<CpctPlus, Fault> {
    let Some((value, number)) = case.value("costs") else {
        return Ok(CpctPlus::new(limit));
    };
    match CpctPlus::from_costs(alloc, limit, grm, |token| cost_of(grm, value, token)) {
        Ok(recoverer) => Ok(recoverer),
        Err(CostFault::CostsNothing(_)) => {
            Err(Fault::Line(number, "costs of at least 1 are wanted"))
        }
        Err(CostFault::Memory) => Err(Fault::Memory),
    }
}

// The tokens of these names, which blanks separate.
fn tokens_of(
    alloc: Global,
    grm: &YaccGrammar<u32>,
    names: &str,
    number: usize,
) -> Result<Vec<TIdx<u32>>, Fault> {
    let mut tokens = Vec::new(alloc);
    for name in names.split(' ') {
        let Some(token) = token_number(grm, name) else {
            return Err(Fault::Line(number, "a token is wanted"));
        };
        tokens.push(TIdx(token))?;
    }
    Ok(tokens)
}

// The token's cost by the text `NAME=COST ..`; 1 if the text doesn't name it.
fn cost_of(grm: &YaccGrammar<u32>, text: &str, token: TIdx<u32>) -> u8 {
    for word in text.split(' ') {
        if let Some((name, cost)) = word.rsplit_once('=') {
            if token_number(grm, name) == Some(token.as_storaget()) {
                return cost.parse().unwrap_or(0);
            }
        }
    }
    1
}
