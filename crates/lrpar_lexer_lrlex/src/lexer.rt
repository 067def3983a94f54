//! The lexer of a text by rules with start states.
ghost use Rattle.std.specs.Prelude.{IfOk};
ghost use Rattle.lrpar_lexer_lrlex.specs.StoredLexemes.{AreLexemesByStates};

use crate::lexing::answers;
use crate::lexing_all::all_answers;
use crate::rules::LrlexRules;
use lrpar_grammar_places::span::{StorageIndex, TIdx};
use lrpar_lexer::{LexRules, NoToken, TextLexer, Token};
use std::alloc::{AllocError, Global};

/// A lexer of a text by rules with start states. It has a stack of states, at first `INITIAL` alone. At each place, of the rules that are
/// active in the state on top, the one with the longest match wins, and among several such rules the first. If it has a token, the match is a
/// lexeme; otherwise the match is skipped. Then its target pushes a state, pops one, or leaves one state alone.
///
/// If no active rule matches, there is an error, whose place is empty, and it is the last result. If a match pops the last state, there is an
/// error too, whose place is the match, and it is the last result.
///
/// `with_unmatched` gives lexemes in place of errors: the longest run of characters at which no active rule matches is one lexeme of its token.
/// A run ends at the first character at which a rule matches that is active, or at the end of the text. A match that pops the last state
/// is a lexeme of this token, too. Neither changes the stack of states. `iter` then takes the time of one match at each character of a
/// run, and of two at the character after it.
pub type StateLexer<'rules, 'input, StorageT = u32> = TextLexer<
    'input,
    &'rules LrlexRules<StorageT>,
    StorageT,
>;

impl<'rules, StorageT: StorageIndex> LexRules<StorageT> for &'rules LrlexRules<StorageT> {
    ghost gives = { λ rules. AreLexemesByStates StorageT.index rules.now };

    fn lex(
        &self,
        alloc: Global,
        unmatched: Option<TIdx<StorageT>>,
        input: &str,
    ) -> Result<Vec<Result<Token<StorageT>, NoToken>>, AllocError>
        ensures given { IfOk result (λ answers. AreLexemesByStates StorageT.index self.now.now unmatched input.now answers.items) }
    {
        match unmatched {
            Some(token) => all_answers(alloc, self, token, input),
            None => answers(alloc, self, input),
        }
    }
}
