//! The token of text that no line of the lexer takes.
use lrpar_grammar::grammar::YaccGrammar;
use lrpar_grammar::span::TIdx;
use lrpar_grammar_unmatched::{UnmatchedFault, with_unmatched};
use std::alloc::{AllocError, Global};

/// The name of the token. No message has it: no state shifts the token, and messages show the text of a lexeme.
const NAME: &str = "unmatched text";

/// The token of text that no line of the lexer takes, which the table's grammar has and the file's has not.
pub struct Unmatched {
    /// The grammar of the file.
    pub file_grm: YaccGrammar<u32>,
    /// The token.
    pub token: TIdx<u32>,
}

// Hand-written, so that code that drops one needs the proof of one call only.
impl Drop for Unmatched {
    fn drop(self) {
        let Unmatched { file_grm, token: _ } = self;
        drop(file_grm);
    }
}

/// The grammar for the table, and the token that it has for unmatched text. If a symbol of the file has the name of that token, or there are
/// too many tokens, it is the grammar of the file.
pub(crate) fn table_grammar(
    alloc: Global,
    grm: YaccGrammar<u32>,
) -> Result<(YaccGrammar<u32>, Option<Unmatched>), AllocError> {
    match with_unmatched(alloc, &grm, NAME) {
        Ok((table_grm, token)) => {
            let unmatched = Unmatched {
                file_grm: grm,
                token,
            };
            Ok((table_grm, Some(unmatched)))
        }
        Err(UnmatchedFault::Memory) => Err(AllocError),
        Err(UnmatchedFault::NameInUse | UnmatchedFault::StorageTooSmall) => Ok((grm, None)),
    }
}
