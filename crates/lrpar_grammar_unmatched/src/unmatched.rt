//! A grammar with a token for unmatched text.
ghost use Rattle.std.specs.Prelude.{◌≡◌, ◌<◌, ◌+◌, ◌≤◌, ◌↔◌, IfOk, IfSome, IfNone, IsErrOf, IsTrue};
ghost use Rattle.lrpar_grammar_reader.specs.Grammar.{IsWellFormed, end_token, tokens_len};
ghost use Rattle.lrpar_grammar_unmatched.specs.WithToken.{HasSymbolNamed, IsUnused, LacksNumber, with_token};
ghost use Rattle.lrpar_grammar_unmatched.specs.declared.unmatched.UnmatchedFault.TheVariants.{Memory, NameInUse, StorageTooSmall};

use crate::copies::parts_with_token;
use crate::names::has_symbol_named;
use lrpar_grammar::grammar::{GrammarFault, YaccGrammar};
use lrpar_grammar_places::span::{StorageIndex, TIdx};
use std::alloc::{AllocError, Global};
use thiserror::Error;

/// Why there is no grammar with one more token.
#[derive(Clone, Copy, Debug, Drop, PartialEq, Eq, Error)]
pub enum UnmatchedFault {
    /// A rule or a token of the grammar has the name.
    #[error("name in use")]
    NameInUse,
    /// There are more tokens, with the new one and the end token, than the storage type can number.
    #[error("storage type too small")]
    StorageTooSmall,
    /// An allocation failed.
    #[error("out of memory")]
    Memory,
}

/// The grammar with one more token, and the number of this token. The token has this name, which messages print, and no production has it. It
/// is the last token before the end token, and has the number that the end token had. All other numbers, names and spans stay as they are.
/// So precedences by numbers, and rules of a lexer that were read for the grammar, can be used with the new grammar.
///
/// If a lexer gives this token to text that none of its rules matches, such text is a syntax error like any other, with repairs. Since no
/// production has the token, no state shifts it: it is never expected, and no repair inserts it.
///
/// ```text
/// let (grm, unmatched) = with_unmatched(alloc, &grm, "unmatched")?;
/// let data = parser_data(alloc, grm, 10_000, 1_000)?;
/// let lexer = RuleLexer::new(alloc, &rules, text)?.with_unmatched(unmatched);
/// ```
///
/// Fails with the first of these that holds: a rule or a token has the name, since a name is to mean one symbol; the storage type can't
/// number one token more; an allocation fails. Takes time and memory linear in the grammar.
pub fn with_unmatched<StorageT: StorageIndex>(
    alloc: Global,
    grm: &YaccGrammar<StorageT>,
    name: &str,
) -> Result<(YaccGrammar<StorageT>, TIdx<StorageT>), UnmatchedFault>
    ensures grammar { IfOk result (λ made. made.0 ≡ with_token grm.now name.now) }
    ensures well_formed { IfOk result (λ made. IsWellFormed made.0) }
    ensures token { IfOk result (λ made. StorageT.index made.1.0 ≡ end_token grm.now) }
    ensures unused { IfOk result (λ made. IsUnused made.0 (end_token grm.now)) }

    // Each fault but `Memory` is returned if and only if it is the first that holds.
    ensures name_in_use { IsErrOf result NameInUse ↔ HasSymbolNamed grm.now name.now }
    ensures storage_too_small { IsErrOf result StorageTooSmall ↔ LacksNumber StorageT.limit grm.now name.now }
{
    if has_symbol_named(grm, name) {
        return Err(UnmatchedFault::NameInUse);
    }
    if StorageT::from_index(grm.tokens_len()).is_none() {
        return Err(UnmatchedFault::StorageTooSmall);
    }
    Ok((with_last_token(alloc, grm, name)?, grm.eof_token_idx()))
}

// The grammar with one more token, if the storage type can number it.
fn with_last_token<StorageT: StorageIndex>(
    alloc: Global,
    grm: &YaccGrammar<StorageT>,
    name: &str,
) -> Result<YaccGrammar<StorageT>, AllocError>
    requires { tokens_len grm.now < StorageT.limit }
    ensures grammar { IfOk result (λ made. made ≡ with_token grm.now name.now) }
    ensures well_formed { IfOk result IsWellFormed }
    ensures unused { IfOk result (λ made. IsUnused made (end_token grm.now)) }
{
    // what is known of these numbers says that the parts make a grammar
    let _known = (grm.rules_len(), grm.prods_len(), grm.start_prod());
    let parts = parts_with_token(alloc, grm, name)?;
    match YaccGrammar::from_parts(alloc, parts) {
        Ok(made) => Ok(made),
        Err(fault) => Err(lack_of_memory(fault)),
    }
}

// The error of a failed allocation.
fn lack_of_memory(fault: GrammarFault) -> AllocError
    requires { fault ≡ GrammarFault.Memory }
{
    match fault {
        GrammarFault::Memory => AllocError,
        _ => unreachable!(),
    }
}

impl From<AllocError> for UnmatchedFault {
    ghost from_gives = { λ _ fault. fault ≡ Memory };

    fn from(_: AllocError) -> UnmatchedFault {
        UnmatchedFault::Memory
    }
}
