//! The tables of names with which a grammar is read.
ghost use Rattle.std.specs.Prelude.{◌≡◌, ◌≤◌, IfErr, IfOk, OnOk, length};
ghost use Rattle.lrpar_grammar_words.specs.Words.{placed};
ghost use Rattle.lrpar_grammar_words.specs.Outline.{outline_of};
ghost use Rattle.lrpar_grammar_reader.specs.Spells.{HasFault, is_quoted, is_token};
ghost use Rattle.lrpar_grammar_reader.specs.TextWords.{AppendsTokens, AreEppsOf, AreTokenWords, AreTokensBy, HasDistinctEpps};

use crate::names::Names;
use crate::parts::GrammarFault;
use lrpar_grammar_words::outline::Outline;
use lrpar_grammar_words::words::{Word, WordKind};
use std::alloc::{AllocError, Global};

/// The rules, the declared tokens, all tokens, and the tokens of the `%epp`s of a grammar text.
pub struct Tables<'a> {
    pub rules: Names<'a>,
    pub declared: Names<'a>,
    pub tokens: Names<'a>,
    pub epps: Names<'a>,
}

// Hand-written, so that code that drops tables needs the proof of one call only.
impl<'a> Drop for Tables<'a> {
    fn drop(self) {
        let Tables {
            rules,
            declared,
            tokens,
            epps,
        } = self;
        drop(rules);
        drop(declared);
        drop(tokens);
        drop(epps);
    }
}

impl<'a> Tables<'a> {
    ghost use Rattle.lrpar_grammar_reader.specs.TextNames.{HasNumbering};

    /// The tables of an outline. Fails with `RepeatedEpp` at a second `%epp` of a name, and with `Memory` if an allocation fails.
    /// There must be at most one `%start`.
    pub fn new(alloc: Global, outline: &Outline<'a>) -> Result<Self, GrammarFault>
        requires { length (outline_of outline.now).starts ≤ 1 }
        ensures numbering { IfOk result (HasNumbering outline.now) }
        ensures epps { IfOk result (λ tables. AreEppsOf outline.now tables.epps) }
        ensures distinct { OnOk result (HasDistinctEpps outline.now) }
        ensures err { IfErr result (HasFault (outline_of outline.now)) }
    {
        let epps = Names::of_epps(alloc, outline)?;
        Ok(Tables::with_epps(alloc, outline, epps)?)
    }

    // The tables of an outline, with the tokens of its `%epp`s.
    fn with_epps(alloc: Global, outline: &Outline<'a>, epps: Names<'a>) -> Result<Self, AllocError>
        ensures numbering { IfOk result (HasNumbering outline.now) }
        ensures epps { IfOk result (λ tables. tables.epps ≡ epps.entry) }
    {
        let rules = Names::first_of_each(alloc, &outline.defined)?;
        let declared = Names::first_of_each(alloc, &outline.declared)?;
        let tokens = token_names(alloc, outline, &declared)?;
        Ok(Tables {
            rules,
            declared,
            tokens,
            epps,
        })
    }
}

/// Whether the word represents a token.
pub fn is_token(word: &Word, declared: &Names) -> bool
    ensures { result ≡ is_token declared.now (placed word.now) }
{
    is_quoted(word.kind) || declared.contains(word.name)
}

// Whether the word is quoted.
fn is_quoted(kind: WordKind) -> bool
    ensures { result ≡ is_quoted kind }
{
    matches!(kind, WordKind::Quoted)
}

// The declared tokens and those that the alternatives use: of each name the first word.
fn token_names<'a>(
    alloc: Global,
    outline: &Outline<'a>,
    declared: &Names,
) -> Result<Names<'a>, AllocError>
    ensures { IfOk result (AreTokensBy declared.now outline.now) }
{
    let words = token_words(alloc, outline, declared)?;
    Names::first_of_each(alloc, &words)
}

// The declared tokens, and after them those that the alternatives use.
fn token_words<'a>(
    alloc: Global,
    outline: &Outline<'a>,
    declared: &Names,
) -> Result<Vec<Word<'a>>, AllocError>
    ensures { IfOk result (AreTokenWords declared.now outline.now) }
{
    let mut words = Vec::from_slice(alloc, &outline.declared)?;
    for alternative in &outline.alternatives {
        push_tokens(&mut words, &alternative.symbols, declared)?;
    }
    Ok(words)
}

// Appends the words that represent tokens.
fn push_tokens<'a>(
    words: &mut Vec<Word<'a>>,
    symbols: &[Word<'a>],
    declared: &Names,
) -> Result<(), AllocError>
    ensures { OnOk result (AppendsTokens words.old words.new declared.now symbols.now) }
{
    for word in symbols {
        if is_token(word, declared) {
            words.push(*word)?;
        }
    }
    Ok(())
}
