//! The tokens at which the state of an error has an action.
ghost use Rattle.lrpar_parse_errors.specs.ActedOn.{AreExpected};

use crate::errors::ParseError;
use lrpar_grammar::span::{StorageIndex, TIdx};
use lrpar_parse_lexemes::lex_api::Lexeme;
use lrpar_table_check::check::ParserData;

impl<LexemeT: Lexeme<StorageT>, StorageT: StorageIndex> ParseError<LexemeT, StorageT> {
    /// What was expected in place of the lexeme: the tokens at which the error's state has an action, ascending, each once. The
    /// end token is one of them if the lexemes may end there. There are none if `data` has no state of this number, which an
    /// error of a parse by another table can have. Takes no memory, and the time of a look-up.
    ///
    /// If the table was built of a grammar, without conflicts, and each reachable rule is productive, these are exactly the
    /// tokens with which some sentence goes on after the lexemes before the error, as repaired so far. If it has conflicts, some
    /// can be missing. Other tables can also list tokens that can't come. Merge the states of
    /// `S: 'a' A 'd' | 'a' B | 'b' A 'e' | 'b' B; A: 'c'; B: 'c' 'f';` as LALR does: then `e` is listed on `a c c`, though it
    /// can't come there, and `f` isn't listed on `a c e`, though it can.
    pub fn expected<'data>(&self, data: &'data ParserData<StorageT>) -> &'data [TIdx<StorageT>]
        ensures { AreExpected StorageT.index «data».now self.now result }
    {
        let table = data.stable();
        let state = self.stidx();
        if usize::from(state) < table.states_len() {
            table.actions_of(state).0
        } else {
            &[]
        }
    }
}
