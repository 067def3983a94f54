//! What a parse builds: an entry on the run's stack for each lexeme that is shifted and for each reduction.
ghost use Rattle.std.specs.Prelude.{OnOk};
ghost use Rattle.lrpar_grammar.specs.Grammar.{Grammar};
ghost use Rattle.lrpar_parse_lexemes.specs.Views.{token_by};
ghost use Rattle.lrpar_parse_run.specs.Building.{Building, IsShifted};
ghost use Rattle.lrpar_parse_run.specs.Productions.{CanReduceBy, IsBuiltBy};
ghost use Rattle.lrpar_parse_run.specs.Rising.{KeepsRising};

use crate::entries::Entries;
use lrpar_grammar::grammar::YaccGrammar;
use lrpar_grammar::span::{PIdx, StorageIndex};
use lrpar_parse_lexemes::lex_api::Lexeme;
use std::alloc::{AllocError, Global};

/// What a parse builds: values, trees or nothing. The run uses this trait alone.
pub trait Build<StorageT: StorageIndex, LexemeT: Lexeme<StorageT>> {
    /// The entry that is on the stack for a symbol.
    type Entry: Drop;

    /// The form in which the entries are kept.
    type Entries: Entries<Entry = Self::Entry>;

    /// For which grammars it can build, which entries symbols, lexemes and productions may have, and which lists of entries are in
    /// order.
    ghost builds: { Self → Building LexemeT Self.Entry };

    /// Adds the entry of a lexeme that is shifted. `Err`: out of memory.
    fn shift(&self, lexeme: LexemeT, entries: &mut Self::Entries) -> Result<(), AllocError>
        ensures { OnOk result (IsShifted (builds self.now) (token_by StorageT.index LexemeT.parts lexeme) lexeme
            (Self.Entries.as_list entries.old) (Self.Entries.as_list entries.new)) };

    /// Replaces the entries of the production's symbols, the last `count` ones, by the entry of the production. After an `Err`, which
    /// means out of memory, some of the entries may be gone.
    fn reduce(
        &self,
        alloc: Global,
        grm: &YaccGrammar<StorageT>,
        pidx: &PIdx<StorageT>,
        count: usize,
        entries: &mut Self::Entries,
    ) -> Result<(), AllocError>
        requires { CanReduceBy StorageT.index grm.now pidx.now (builds self.now) count (Self.Entries.as_list entries.old) }
        ensures { OnOk result (IsBuiltBy StorageT.index grm.now pidx.now (builds self.now) count
            (Self.Entries.as_list entries.old) (Self.Entries.as_list entries.new)) };

    ghost rising: { (b : Self) (g : Grammar) → KeepsRising (λ x. (LexemeT.parts x).span.start) (builds b).leaf ((builds b).node g) (builds b).rises };
}
