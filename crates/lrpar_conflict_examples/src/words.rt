//! The words of counterexamples' texts.
ghost use Rattle.std.specs.Prelude.{◌≡◌, ◌<◌, OnOk};
ghost use Rattle.lrpar_grammar.specs.Grammar.{prods_len, tokens_len};
ghost use Rattle.lrpar_grammar.specs.Symbols.{symbol_of};
ghost use Rattle.lrpar_table_sentences.specs.Moves.{move_of};
ghost use Rattle.lrpar_conflict_examples.specs.Fits.{HasSymbols, HasTokens, IsMoveOf, IsSymbolOf};
ghost use Rattle.lrpar_grammar_places.specs.Strings.{Appends};
ghost use Rattle.lrpar_conflict_examples.specs.Words.{AddsSymbols, AddsWords, move_text, name_of, reduce_text, symbol_text, word_text};

use lrpar_grammar::grammar::YaccGrammar;
use lrpar_grammar::span::{PIdx, StorageIndex, Symbol, TIdx};
use lrpar_table_sentences::moves::Move;
use std::alloc::AllocError;

/// A token as conflicts name it: by its name, and the end token by `$`.
pub(crate) fn shown_name<StorageT: StorageIndex>(
    grm: &YaccGrammar<StorageT>,
    token: TIdx<StorageT>,
) -> &str
    requires { StorageT.index token.0 < tokens_len grm.now }
    ensures { result.now ≡ name_of StorageT.index grm.now token }
{
    grm.token_name(token).unwrap_or("$")
}

/// Adds a token, after a space.
pub(crate) fn push_word<StorageT: StorageIndex>(
    out: &mut String,
    grm: &YaccGrammar<StorageT>,
    token: TIdx<StorageT>,
) -> Result<(), AllocError>
    requires { StorageT.index token.0 < tokens_len grm.now }
    ensures { OnOk result (Appends out.old out.new (word_text grm.now (StorageT.index token.0))) }
{
    out.push(' ')?;
    out.push_str(shown_name(grm, token))
}

/// Adds tokens, each after a space.
pub(crate) fn push_words<StorageT: StorageIndex>(
    out: &mut String,
    grm: &YaccGrammar<StorageT>,
    tokens: &[TIdx<StorageT>],
) -> Result<(), AllocError>
    requires { HasTokens StorageT.index grm.now tokens.now }
    ensures { OnOk result (AddsWords StorageT.index grm.now tokens.now out.old out.new) }
{
    let mut rest = tokens;
    while let Some((token, others)) = rest.split_first() {
        push_word(out, grm, *token)?;
        rest = others;
    }
    Ok(())
}

/// Adds what a move does.
pub(crate) fn push_move<StorageT: StorageIndex>(
    out: &mut String,
    grm: &YaccGrammar<StorageT>,
    step: Move<StorageT>,
) -> Result<(), AllocError>
    requires { IsMoveOf grm.now (move_of StorageT.index step) }
    ensures { OnOk result (Appends out.old out.new (move_text grm.now (move_of StorageT.index step))) }
{
    match step {
        Move::Take(token) => {
            let name = shown_name(grm, token);
            write!(out, "shift '{name}'")
        }
        Move::Make(prod) => push_reduce(out, grm, prod),
    }
}

// Adds a reduction of the production.
fn push_reduce<StorageT: StorageIndex>(
    out: &mut String,
    grm: &YaccGrammar<StorageT>,
    prod: PIdx<StorageT>,
) -> Result<(), AllocError>
    requires { StorageT.index prod.0 < prods_len grm.now }
    ensures { OnOk result (Appends out.old out.new (reduce_text grm.now (StorageT.index prod.0))) }
{
    // The proof needs that the grammar is well-formed.
    let _lemma = grm.start_prod();
    let name = grm.rule_name_str(grm.prod_to_rule(prod));
    write!(out, "reduce {name}:")?;
    push_symbols(out, grm, grm.prod(prod))
}

// Adds symbols, each after a space.
fn push_symbols<StorageT: StorageIndex>(
    out: &mut String,
    grm: &YaccGrammar<StorageT>,
    symbols: &[Symbol<StorageT>],
) -> Result<(), AllocError>
    requires { HasSymbols StorageT.index grm.now symbols.now }
    ensures { OnOk result (AddsSymbols StorageT.index grm.now symbols.now out.old out.new) }
{
    let mut rest = symbols;
    while let Some((symbol, others)) = rest.split_first() {
        push_symbol(out, grm, *symbol)?;
        rest = others;
    }
    Ok(())
}

// Adds a symbol after a space: a rule by its name, and a token by its name in quotes.
fn push_symbol<StorageT: StorageIndex>(
    out: &mut String,
    grm: &YaccGrammar<StorageT>,
    symbol: Symbol<StorageT>,
) -> Result<(), AllocError>
    requires { IsSymbolOf grm.now (symbol_of StorageT.index symbol) }
    ensures { OnOk result (Appends out.old out.new (symbol_text grm.now (symbol_of StorageT.index symbol))) }
{
    match symbol {
        Symbol::Rule(rule) => {
            let name = grm.rule_name_str(rule);
            write!(out, " {name}")
        }
        Symbol::Token(token) => {
            let name = shown_name(grm, token);
            write!(out, " '{name}'")
        }
    }
}
