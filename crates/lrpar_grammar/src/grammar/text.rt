//! The grammar of a text.
ghost use Rattle.std.specs.Prelude.{IfErr, IfOk};
ghost use Rattle.lrpar_grammar_reader.specs.SpansFit.{SpansFit};
ghost use Rattle.lrpar_grammar_reader.specs.Spells.{IsGrammarFaultOf, Spells};

use super::value::YaccGrammar;
use lrpar_grammar_places::span::StorageIndex;
use lrpar_grammar_reader::parts::GrammarFault;
use lrpar_grammar_reader::reader::read_parts;
use std::alloc::Global;

impl<StorageT: StorageIndex> YaccGrammar<StorageT> {
    ghost use Rattle.lrpar_grammar_reader.specs.Grammar.{IsWellFormed};

    /// The grammar of a text: declarations, `%%`, rules, an optional second `%%`.
    ///
    /// A declaration is `%start` and a rule's name, `%token` and tokens, or `%epp`, a token and its printed text in
    /// quotes. A rule is `NAME : SYMBOLS | SYMBOLS ;`. A token is quoted or declared; any other name is a rule. Blanks,
    /// `//` to the end of the line and `/*` to the next `*/` may come between words. Without `%start` the first rule
    /// is the start rule.
    ///
    /// Rules are numbered by first definition, tokens by first declaration or use, productions in the order of the text. A
    /// place is in bytes and without quotes. All places fit the text, as `spans_fit` tests.
    ///
    /// Fails with `Syntax` if the text isn't of that shape, else with the first of these that holds:
    /// `RepeatedStart`, `RepeatedEpp`, `NoRules`, `TokenIsRule`, `UnknownRule`, `UnknownToken`, each at its first place,
    /// and `StorageTooSmall`; or with `Memory` if an allocation fails. Takes memory linear in the text, and time linear in
    /// it but for names: each of these is looked up in logarithmic time.
    pub fn new_with_storaget(alloc: Global, text: &str) -> Result<Self, GrammarFault>
        ensures spelled { IfOk result (Spells text.now) }
        ensures well_formed { IfOk result IsWellFormed }
        ensures fits { IfOk result (λ grm. SpansFit grm text.now) }
        ensures faulty { IfErr result (IsGrammarFaultOf StorageT.limit text.now) }
    {
        let parts = read_parts(alloc, text)?;
        Ok(YaccGrammar::made(alloc, parts)?)
    }
}
