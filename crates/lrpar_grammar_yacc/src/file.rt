//! `.y` files: the grammar of one, and what it declares beside the grammar.
ghost use Rattle.std.specs.Prelude.{◌≡◌, IfErr, IfOk, OnOk, string_bytes};
ghost use Rattle.lrpar_grammar.specs.Grammar.{IsWellFormed};
ghost use Rattle.lrpar_grammar.specs.SpansFit.{SpansFit};
ghost use Rattle.lrpar_grammar_yacc.specs.Declares.{declarations, declarations_of};
ghost use Rattle.lrpar_grammar_yacc.specs.Erasure.{erasure};
ghost use Rattle.lrpar_grammar_yacc.specs.declared.file.YaccFileFault.TheVariants.{Memory};
ghost use Rattle.lrpar_grammar_yacc.specs.YaccFiles.{AppendsLevels, AppendsNames, ArePrecWords, AreTokenNames, FindsUnknownName, HasNames, IsFileFault, IsFileOf, IsUnknownToken, first_of, of_declared, of_text};

use crate::declarations::{Declarations, Level, Prec};
use crate::faults::{YaccFault, YaccText};
use crate::parts::YaccKind;
use lrpar_grammar::grammar::{GrammarFault, YaccGrammar};
use lrpar_grammar_places::span::{Span, StorageIndex};
use lrpar_grammar_words::words::Word;
use std::alloc::{AllocError, AllocFailed, Global};
use std::collections::BTreeMap;
use thiserror::Error;

/// The grammar of a `.y` file, and what the file declares beside it.
pub struct YaccFile<'a, StorageT: StorageIndex> {
    /// The grammar.
    pub grammar: YaccGrammar<StorageT>,
    /// The erased file, and what it declares beside the grammar.
    pub text: YaccText<'a>,
}

// Hand-written, so that code that drops a file needs the proof of one call only.
impl<'a, StorageT: StorageIndex> Drop for YaccFile<'a, StorageT> {
    fn drop(self) {
        let YaccFile { grammar, text } = self;
        drop(grammar);
        drop(text);
    }
}

impl<'a, StorageT: StorageIndex> YaccFile<'a, StorageT> {
    /// Reads a `.y` file. Its grammar is that of the erased file, which has blanks in place of all that a grammar text doesn't have:
    /// actions, types, precedences and the like. So each place is one of the file.
    ///
    /// A name that `%left`, `%right` or `%nonassoc` declares is a token only if a rule uses it in quotes, or if `%token`
    /// declares it. A `%prec` may have it even if it is none.
    ///
    /// Fails with the first fault of what is erased, by its place; else with the fault of the erased file, as
    /// `YaccGrammar::new_with_storaget` answers it; else with `UnknownToken` at the first unknown name; or with `Memory` if an
    /// allocation fails. Takes memory linear in the text, and time linear in it but for names: each is looked up in logarithmic time.
    #[tactic(auto, using(crate::proofs::YaccFileLemmas::declared_refused, crate::proofs::YaccFileLemmas::text_refused))]
    pub fn new_with_kind(
        alloc: Global,
        kind: YaccKind,
        text: &'a str,
    ) -> Result<Self, YaccFileFault>
        ensures file { IfOk result (λ y. IsFileOf kind text.now y.grammar) }
        ensures well_formed { IfOk result (λ y. IsWellFormed y.grammar) }
        ensures fits { IfOk result (λ y. SpansFit y.grammar (erasure kind text.now)) }
        ensures erased { IfOk result (λ y. string_bytes y.text.erased ≡ erasure kind text.now) }
        ensures declared { IfOk result (λ y. declarations_of y.text.declarations ≡ declarations kind text.now) }
        ensures faulty { IfErr result (IsFileFault StorageT.limit kind text.now) }
    {
        let text = YaccText::read(alloc, kind, text)?;
        let grammar = YaccGrammar::new_with_storaget(alloc, text.erased.as_str())?;
        match unknown_token(alloc, &grammar, &text.declarations)? {
            Some(span) => Err(YaccFileFault::UnknownToken(span)),
            None => Ok(YaccFile { grammar, text }),
        }
    }

    /// The grammar, and the erased file with what it declares beside the grammar.
    pub fn into_parts(self) -> (YaccGrammar<StorageT>, YaccText<'a>)
        ensures grammar { result.0 ≡ self.entry.grammar }
        ensures text { result.1 ≡ self.entry.text }
    {
        let YaccFile { grammar, text } = self;
        (grammar, text)
    }
}

/// Why there is no grammar of a `.y` file. A failed allocation is always `Memory`, and never in another variant.
#[derive(Clone, Debug, Drop, PartialEq, Eq, Error)]
pub enum YaccFileFault {
    /// A fault of what a grammar text doesn't have.
    #[error("{0}")]
    Declared(YaccFault),
    /// A fault of the grammar text that is left.
    #[error("{0}")]
    Text(GrammarFault),
    /// A name after `%prec` that is no token and has no precedence, or one after `%avoid_insert` that is no token.
    #[error("unknown token at byte {at}", at = .0.start())]
    UnknownToken(Span),
    /// An allocation failed.
    #[error("out of memory")]
    Memory,
}

impl From<YaccFault> for YaccFileFault {
    ghost from_gives = { λ e fault. fault ≡ of_declared e };

    fn from(fault: YaccFault) -> YaccFileFault {
        match fault {
            YaccFault::Memory => YaccFileFault::Memory,
            fault => YaccFileFault::Declared(fault),
        }
    }
}

impl From<GrammarFault> for YaccFileFault {
    ghost from_gives = { λ e fault. fault ≡ of_text e };

    fn from(fault: GrammarFault) -> YaccFileFault {
        match fault {
            GrammarFault::Memory => YaccFileFault::Memory,
            fault => YaccFileFault::Text(fault),
        }
    }
}

impl From<AllocError> for YaccFileFault {
    ghost from_gives = { λ _ fault. fault ≡ Memory };

    fn from(_: AllocError) -> YaccFileFault {
        YaccFileFault::Memory
    }
}

// The first name that a file declares something of, and that the grammar doesn't know.
fn unknown_token<'a, StorageT: StorageIndex>(
    alloc: Global,
    grm: &'a YaccGrammar<StorageT>,
    declarations: &'a Declarations<'a>,
) -> Result<Option<Span>, AllocError>
    ensures { IfOk result (IsUnknownToken grm.now declarations.now) }
{
    let mut names = token_list(alloc, grm)?;
    let tokens = known(alloc, &names)?;
    let avoided = unknown_word(&declarations.avoided, &tokens);
    push_levels(&mut names, &declarations.levels)?;
    let all = known(alloc, &names)?;
    let words = prec_words(alloc, &declarations.precs)?;
    let prec = unknown_word(&words, &all);
    Ok(first_of(&prec, &avoided))
}

// The names of all tokens.
fn token_list<'a, StorageT: StorageIndex>(
    alloc: Global,
    grm: &'a YaccGrammar<StorageT>,
) -> Result<Vec<&'a str>, AllocError>
    ensures { IfOk result (AreTokenNames grm.now) }
{
    let mut names = Vec::new(alloc);
    let tokens = grm.tokens_map(alloc)?;
    for (name, _) in &tokens {
        names.push(*name)?;
    }
    Ok(names)
}

// Appends the names of levels.
fn push_levels<'a>(names: &mut Vec<&'a str>, levels: &[Level<'a>]) -> Result<(), AllocError>
    ensures { OnOk result (AppendsLevels names.old names.new levels.now) }
{
    for level in levels {
        push_names(names, &level.names)?;
    }
    Ok(())
}

// Appends the names of words.
fn push_names<'a>(names: &mut Vec<&'a str>, words: &[Word<'a>]) -> Result<(), AllocError>
    ensures { OnOk result (AppendsNames names.old names.new words.now) }
{
    for word in words {
        names.push(word.name)?;
    }
    Ok(())
}

// The names that productions have their precedence from.
fn prec_words<'a>(alloc: Global, precs: &[Prec<'a>]) -> Result<Vec<Word<'a>>, AllocError>
    ensures { IfOk result (ArePrecWords precs.now) }
{
    let mut words = Vec::new(alloc);
    for prec in precs {
        words.push(prec.name)?;
    }
    Ok(words)
}

// A map with these names.
fn known<'a>(alloc: Global, names: &[&'a str]) -> Result<BTreeMap<&'a str, ()>, AllocError>
    ensures { IfOk result (HasNames names.now) }
{
    let mut known = BTreeMap::new(alloc);
    for name in names {
        known.insert(*name, ())?;
    }
    Ok(known)
}

// The first word whose name isn't known.
fn unknown_word(words: &[Word], known: &BTreeMap<&str, ()>) -> Option<Span>
    ensures { FindsUnknownName known.now words.now result }
{
    for word in words {
        if !known.contains_key(word.name) {
            return Some(word.span());
        }
    }
    None
}

// Of two places the first.
fn first_of(a: &Option<Span>, b: &Option<Span>) -> Option<Span>
    ensures { result ≡ first_of a.now b.now }
{
    match (a, b) {
        (Some(a), Some(b)) => Some(if b.start() < a.start() { *b } else { *a }),
        (Some(a), None) => Some(*a),
        (None, b) => *b,
    }
}
