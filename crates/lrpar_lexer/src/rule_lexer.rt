//! The lexer of a text by a list of rules.
ghost use Rattle.std.specs.Prelude.{IfOk};
ghost use Rattle.lrpar_lexer.specs.StoredLexemes.{AreLexemesBy};

use crate::lexer::{LexRules, TextLexer};
use crate::lexing::answers;
use crate::lexing_all::all_answers;
use crate::rule::LexRule;
use crate::token::{NoToken, Token};
use lrpar_grammar_places::span::{StorageIndex, TIdx};
use std::alloc::{AllocError, Global};

/// A lexer of a text by rules. At each place the rule with the longest match wins, and among several such rules the first. If it
/// has a token, the match is a lexeme; otherwise the match is skipped. If no rule matches, there is an error, and it is the last
/// result.
///
/// A pattern's match at a place is what `regex` finds in the text from that place on, if it begins there and isn't empty.
///
/// `with_unmatched` gives lexemes in place of errors: the longest run of characters at which no rule matches is one lexeme of its token. A run
/// ends at the first character at which a rule matches, or at the end of the text. `iter` then takes the time of one match at each character
/// of a run, and of two at the character after it.
pub type RuleLexer<'rules, 'input, StorageT = u32> = TextLexer<
    'input,
    &'rules [LexRule<StorageT>],
    StorageT,
>;

impl<'rules, StorageT: StorageIndex> LexRules<StorageT> for &'rules [LexRule<StorageT>] {
    ghost gives = { λ rules. AreLexemesBy StorageT.index rules.now };

    fn lex(
        &self,
        alloc: Global,
        unmatched: Option<TIdx<StorageT>>,
        input: &str,
    ) -> Result<Vec<Result<Token<StorageT>, NoToken>>, AllocError>
        ensures given { IfOk result (λ answers. AreLexemesBy StorageT.index self.now.now unmatched input.now answers.items) }
    {
        match unmatched {
            Some(token) => all_answers(alloc, self, token, input),
            None => answers(alloc, self, input),
        }
    }
}
