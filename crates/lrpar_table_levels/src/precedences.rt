//! The precedences that levels of tokens declare for a grammar.
ghost use Rattle.std.specs.Prelude.{◌≡◌, ◌↔◌, IfErr, IfOk, IsErrOf, OnOk, length};
ghost use Rattle.lrpar_grammar.specs.Grammar.{prods_len};
ghost use Rattle.lrpar_table_levels.specs.Filled.{AreProdSlots, AssignsLast};
ghost use Rattle.lrpar_table_levels.specs.Levels.{HasNoOtherProds};
ghost use Rattle.lrpar_table_levels.specs.Stored.{AreDeclaredOnce, AreKnown, AreTokensKnown, FillsNamed, FillsTokens, GivesProds, GivesTokens, IsLastToken, IsLevelsFaultOf, IsTokenFault, last_precedence};
ghost use Rattle.lrpar_table_levels.specs.declared.fault.PrecedenceFault.TheVariants.{BadIndex};

use crate::fault::PrecedenceFault;
use crate::filled::{empty_slots, fill};
use crate::levels::{Level, are_within, entries_of_prods, entries_of_tokens};
use lrpar_grammar::grammar::YaccGrammar;
use lrpar_grammar::span::{PIdx, StorageIndex, Symbol, TIdx};
use lrpar_table_precedence::precedence::{Precedence, slot_at};
use lrpar_table_precedence::precedences::Precedences;
use std::alloc::Global;

/// The precedences that these levels declare, the weakest first, for the grammar. `named` has the productions that name a level
/// by `%prec`, each with the number of the level.
///
/// A token has the precedence of its level. A production has that of the level that it names; if it names none, that of its last
/// token. Others have none. To give a production the level of a name that is no token of the grammar, as yacc's `UMINUS`, let the
/// level have no such token, and name the level.
///
/// It returns `BadIndex` if a token or a production isn't one of the grammar, or a level that a production names isn't there; this
/// is decided before any allocation. It returns `TokenTwice` if a token is in the levels twice, `ProdTwice` if a production names a
/// level twice, and `Memory` if an allocation fails. Time and memory grow with the grammar, the levels and the names.
pub fn precedences_of_levels<StorageT: StorageIndex>(
    alloc: Global,
    grm: &YaccGrammar<StorageT>,
    levels: &[Level<StorageT>],
    named: &[(PIdx<StorageT>, usize)],
) -> Result<Precedences, PrecedenceFault>
    ensures tokens { GivesTokens StorageT.index levels.now result }
    ensures prods { GivesProds StorageT.index grm.now levels.now named.now result }
    ensures others { IfOk result (HasNoOtherProds grm.now) }
    ensures once { OnOk result (AreDeclaredOnce StorageT.index levels.now named.now) }
    ensures bad_index { IsErrOf result BadIndex ↔ ¬ (AreKnown StorageT.index grm.now levels.now named.now) }
    ensures refused { IfErr result (IsLevelsFaultOf StorageT.index grm.now levels.now named.now) }
{
    if !are_within(grm, levels, named) {
        return Err(PrecedenceFault::BadIndex);
    }
    made(alloc, grm, levels, named)
}

// The precedences that these levels and names declare. All numbers are within range.
fn made<StorageT: StorageIndex>(
    alloc: Global,
    grm: &YaccGrammar<StorageT>,
    levels: &[Level<StorageT>],
    named: &[(PIdx<StorageT>, usize)],
) -> Result<Precedences, PrecedenceFault>
    requires { AreKnown StorageT.index grm.now levels.now named.now }
    ensures tokens { GivesTokens StorageT.index levels.now result }
    ensures prods { GivesProds StorageT.index grm.now levels.now named.now result }
    ensures others { IfOk result (HasNoOtherProds grm.now) }
    ensures once { OnOk result (AreDeclaredOnce StorageT.index levels.now named.now) }
    ensures refused { IfErr result (IsLevelsFaultOf StorageT.index grm.now levels.now named.now) }
{
    let tokens = token_slots(alloc, grm, levels)?;
    let mut prods = prod_slots(alloc, grm, levels, named)?;
    add_last_tokens(grm, &tokens, &mut prods);
    Ok(Precedences::from_slots(tokens, prods))
}

// The precedence of each token.
fn token_slots<StorageT: StorageIndex>(
    alloc: Global,
    grm: &YaccGrammar<StorageT>,
    levels: &[Level<StorageT>],
) -> Result<Vec<Option<Precedence>>, PrecedenceFault>
    requires { AreTokensKnown StorageT.index grm.now levels.now }
    ensures filled { FillsTokens StorageT.index levels.now result }
    ensures refused { IfErr result (IsTokenFault StorageT.index grm.now levels.now) }
{
    let entries = entries_of_tokens(alloc, levels)?;
    let mut slots = empty_slots(alloc, grm.tokens_len())?;
    match fill(&mut slots, &entries) {
        Some(token) => Err(PrecedenceFault::TokenTwice(token)),
        None => Ok(slots),
    }
}

// The precedence of each production that names a level.
fn prod_slots<StorageT: StorageIndex>(
    alloc: Global,
    grm: &YaccGrammar<StorageT>,
    levels: &[Level<StorageT>],
    named: &[(PIdx<StorageT>, usize)],
) -> Result<Vec<Option<Precedence>>, PrecedenceFault>
    requires { AreKnown StorageT.index grm.now levels.now named.now }
    ensures filled { FillsNamed StorageT.index levels.now named.now result }
    ensures len { IfOk result (AreProdSlots grm.now) }
    ensures refused { IfErr result (IsLevelsFaultOf StorageT.index grm.now levels.now named.now) }
{
    let entries = entries_of_prods(alloc, levels, named)?;
    let mut slots = empty_slots(alloc, grm.prods_len())?;
    match fill(&mut slots, &entries) {
        Some(prod) => Err(PrecedenceFault::ProdTwice(prod)),
        None => Ok(slots),
    }
}

// Gives each production that has no precedence yet that of its last token.
pub(crate) fn add_last_tokens<StorageT: StorageIndex>(
    grm: &YaccGrammar<StorageT>,
    tokens: &[Option<Precedence>],
    prods: &mut [Option<Precedence>],
)
    requires { length prods.old ≡ prods_len grm.now }
    ensures { AssignsLast grm.now tokens.now prods.old prods.new }
{
    for number in 0..grm.prods_len() {
        let pidx = PIdx(StorageT::from_index(number).unwrap());
        let named = prods[number];
        prods[number] = named.or(last_precedence(tokens, grm.prod(pidx)));
    }
}

// The precedence of the last token among the symbols, if there is one and it has one.
fn last_precedence<StorageT: StorageIndex>(
    tokens: &[Option<Precedence>],
    symbols: &[Symbol<StorageT>],
) -> Option<Precedence>
    ensures { result ≡ last_precedence StorageT.index tokens.now symbols.now }
{
    match last_token(symbols) {
        Some(token) => slot_at(tokens, usize::from(token)),
        None => None,
    }
}

// The last token among the symbols, if there is one.
fn last_token<StorageT: StorageIndex>(symbols: &[Symbol<StorageT>]) -> Option<TIdx<StorageT>>
    ensures { IsLastToken StorageT.index symbols.now result }
{
    let mut last = None;
    for symbol in symbols {
        match *symbol {
            Symbol::Token(token) => last = Some(token),
            Symbol::Rule(_) => {}
        }
    }
    last
}
