//! The parser: calls that take a lexer, and return a value or a tree, and the errors.
ghost use Rattle.std.specs.Prelude.{◌≡◌, ◌<◌, ◌∷◌, ◌↔◌, [], Result, IfErr, IfOk, IfSome, IsOk, IsTrue, option_map};
ghost use Rattle.lrpar_table_check.specs.Checked.{IsChecked};
ghost use Rattle.lrpar_parse.specs.Arguments.{TakesAll};
ghost use Rattle.lrpar_parse_run.specs.Entries.{HasValueEntry};
ghost use Rattle.lrpar_parse_run.specs.declared.values.AStackType.TheVariants.{ActionType};
ghost use Rattle.lrpar_parse.specs.ExpectedAnswer.{AreValid};
ghost use Rattle.lrpar_parse.specs.Parser.{IsUnchanged, IsWithShifts, with_recoverer};
ghost use Rattle.lrpar_parse.specs.ParseCalls.{ExpectsNext, GetsErrors, GetsActed, GetsEntry, GetsGiven, GetsMapped, GetsSyntaxTree, GetsTree, RunsTo};

use crate::actions::Acting;
pub use crate::actions::Actions;
pub use crate::args::Args;
pub use crate::expected::Expected;
use crate::expected::expected_after;
use crate::failures::come_out;
pub use crate::fault::ParseFault;
pub use crate::generictree::action_generictree;
use crate::lexed::{lexemes_before_error, lexemes_or_error};
use crate::lexeme_fault::lexeme_fault;
pub use crate::shifts::ZeroShifts;
use crate::values::Valued;
pub use crate::values::Values;
use lrpar_grammar::grammar::YaccGrammar;
use lrpar_grammar::span::{PIdx, RIdx, StorageIndex};
pub use lrpar_parse_errors::{LexParseError, ParseError, ParseRepair, PpFault};
pub use lrpar_parse_flat_trees::children::Children;
use lrpar_parse_flat_trees::flat_trees::FlatTrees;
pub use lrpar_parse_flat_trees::kind::SyntaxKind;
pub use lrpar_parse_flat_trees::syntax_node::SyntaxNode;
pub use lrpar_parse_flat_trees::syntax_tree::SyntaxTree;
use lrpar_parse_lexemes::lex_api::{LexerTypes, NonStreamingLexer};
use lrpar_parse_lexemes::placed::Placed;
use lrpar_parse_repair::repair::{NoRecovery, Recoverer};
use lrpar_parse_run::building::Build;
use lrpar_parse_run::nothing::Nothing;
use lrpar_parse_run::run::Run;
use lrpar_parse_run::trees::Trees;
pub use lrpar_parse_run::values::AStackType;
use lrpar_parse_run::values::Functions;
use lrpar_parse_run::whole_run::WholeRun;
pub use lrpar_parse_trees::Node;
use lrpar_table::check::ParserData;
use std::alloc::{AllocError, Global};
use std::marker::{Model, PhantomData};

/// A value, if the parse comes to one, and the errors in order.
type Answer<StorageT, LexerTypesT, V> = (Option<V>, Vec<LexParseError<StorageT, LexerTypesT>>);

/// A parser: a checked table, a recoverer, and how many lexemes must follow a repair.
///
/// `new` makes a parser without repairs, which ends at its first error; `recoverer` and `shifts` change that. Each parse call takes a
/// lexer. `parse_map` makes a value with two functions, and `parse_actions` with an action for each production; `parse_generictree` makes
/// the parse tree, and `parse_tree` the same in one list; `parse_noaction` returns the errors alone. A parser can parse any number of times.
#[derive(Drop)]
pub struct RTParserBuilder<
    'a,
    StorageT: StorageIndex,
    LexerTypesT: LexerTypes<StorageT = StorageT>,
    R: Drop = NoRecovery,
> {
    checked: &'a ParserData<StorageT>,
    recoverer: R,
    shifts: usize,
    lexer_types: PhantomData<LexerTypesT>,
}

impl<'a, StorageT: StorageIndex, LexerTypesT: LexerTypes<StorageT = StorageT>, R: Drop> Model
    for RTParserBuilder<'a, StorageT, LexerTypesT, R> {
    ghost use Rattle.std.specs.Prelude.{◌<◌};
    ghost use Rattle.lrpar_parse.specs.Parser.{Parser};

    ghost Value = { Parser R };

    ghost view = { λ p. record { checked = p.checked.now; recoverer = p.recoverer; shifts = p.shifts } };

    ghost invariant = { λ p. 0 < p.shifts };
}

impl<'a, StorageT: StorageIndex, LexerTypesT: LexerTypes<StorageT = StorageT>> RTParserBuilder<
    'a,
    StorageT,
    LexerTypesT,
    NoRecovery,
> {
    /// Makes a parser for a grammar and its checked table. Its recoverer is `NoRecovery`, and 3 lexemes must follow a repair. Takes no
    /// memory.
    pub fn new(checked: &'a ParserData<StorageT>) -> Self
        ensures made { result.checked ≡ checked.now }
        ensures shifts { result.shifts ≡ 3 }
        ensures checked { IsChecked result.checked }
    {
        let _lemma = checked.stable();
        RTParserBuilder {
            checked,
            recoverer: NoRecovery,
            shifts: 3,
            lexer_types: PhantomData,
        }
    }
}

impl<
    'a,
    StorageT: StorageIndex,
    LexerTypesT: LexerTypes<StorageT = StorageT>,
    R: Recoverer<StorageT, LexerTypesT::LexemeT> + Drop,
> RTParserBuilder<'a, StorageT, LexerTypesT, R> {
    /// This parser with another recoverer, which it calls at each error. The number of lexemes that must follow a repair stays.
    pub fn recoverer<Q: Recoverer<StorageT, LexerTypesT::LexemeT> + Drop>(
        self,
        recoverer: Q,
    ) -> RTParserBuilder<'a, StorageT, LexerTypesT, Q>
        ensures { result ≡ with_recoverer self.entry recoverer }
    {
        RTParserBuilder {
            checked: self.checked,
            recoverer,
            shifts: self.shifts,
            lexer_types: PhantomData,
        }
    }

    /// This parser, but `count` lexemes must follow a repair. So a sequence works if this number of lexemes can be fed after it; or,
    /// if fewer are left, if all of these can, and the parse then accepts. `count` must be at least 1; the `Err` has the parser as it
    /// was.
    pub fn shifts(self, count: usize) -> Result<Self, ZeroShifts<Self>>
        ensures set { IfOk result (IsWithShifts self.entry count) }
        ensures back { IfErr result (IsUnchanged self.entry) }
        ensures exact { IsOk result ↔ (0 < count) }
    {
        if count == 0 {
            return Err(ZeroShifts { builder: self });
        }
        Ok(RTParserBuilder {
            checked: self.checked,
            recoverer: self.recoverer,
            shifts: count,
            lexer_types: PhantomData,
        })
    }

    /// How many lexemes must follow a repair.
    pub fn shift_count(&self) -> usize
        ensures count { result ≡ self.now.shifts }
        ensures some { 0 < result }
    {
        self.shifts
    }

    /// Parses the lexemes that the lexer returns, and makes a value. `fterm` gives the value of a lexeme, and `fnonterm` gives the value of
    /// a rule from the rule and the values of its symbols, from left to right. The lexer is called once.
    ///
    /// If the lexer returns lexing errors, the first one is the only error, and there is no value. Otherwise there is a parse error for
    /// each error point: the state and the lexeme for which there is no action, and those of the recoverer's sequences that work there.
    /// The recoverer is called once for each error point. The parse replays the first of these sequences and goes on; if there is none,
    /// it ends. So there is a value if and only if each error lists a sequence. A lexeme that a repair inserts is faulty, and has a value
    /// like any other.
    ///
    /// `Err(BadToken)` or `Err(StartsDecrease)`: the lexer returned no lexing error, and this is the first lexeme with a fault.
    /// `Err(Memory)`: out of memory, also in the lexer or in the recoverer.
    ///
    /// The time grows with the lexemes, the reductions, and the steps that the recoverer supplies. Let `cap` be that of the checked table.
    /// At one lookahead there are at most `cap * h` reductions, if the stack has h states before it. A parse to a value over l leaves, with
    /// e errors, makes at most `cap * (cap + 3) * (l + e + 1)`. The test of a sequence of m steps makes at most
    /// `cap * (h + (m + k + 1) * (cap + 3))`, if the stack has h states and k lexemes must follow a repair.
    pub fn parse_map<
        'input,
        L: NonStreamingLexer<'input, LexerTypesT>,
        V: Drop,
        F: Fn(LexerTypesT::LexemeT) -> V + Drop,
        G: Fn(RIdx<StorageT>, Vec<V>) -> V + Drop,
    >(
        &self,
        alloc: Global,
        lexer: &L,
        fterm: F,
        fnonterm: G,
    ) -> Result<Answer<StorageT, LexerTypesT, V>, ParseFault>
        requires fterm { F.IsAlwaysCallable fterm }
        requires fnonterm { G.IsAlwaysCallable fnonterm }
        // Out of memory, or the lexer allows an answer, and the result is that of the parse over this answer.
        ensures parse { GetsMapped StorageT.index LexerTypesT.LexemeT.parts R.allows self.now (L.allows lexer.now)
            (F.post fterm) (G.post fnonterm) result }
    {
        let functions = Functions {
            fterm: &fterm,
            fnonterm: &fnonterm,
            values: PhantomData,
        };
        match self.parse_to_entry(alloc, lexer, &functions) {
            Ok((entry, errors)) => Ok((value_of(entry), errors)),
            Err(fault) => Err(fault),
        }
    }

    /// Parses the lexemes that the lexer returns, and makes a value with actions. The actions give the value of each production, from its
    /// number, its rule, the lexer, its span, the arguments for its symbols, and `param`. The lexer is called once.
    ///
    /// The actions must take each production of the grammar but the start production, as `takes_all` tests.
    ///
    /// The errors and each `Err` are as for `parse_map`; `Err(Memory)` also means that an action ran out of memory. The next parse by the
    /// same parser is as if this one hadn't been.
    ///
    /// Besides what the actions take, a production with symbols takes memory for two lists of its arguments. The time grows as that of
    /// `parse_map`.
    pub fn parse_actions<
        'input,
        L: NonStreamingLexer<'input, LexerTypesT>,
        A: Actions<StorageT, LexerTypesT::LexemeT, L>,
    >(
        &self,
        alloc: Global,
        lexer: &L,
        actions: &A,
        param: &A::ParamT,
    ) -> Result<Answer<StorageT, LexerTypesT, A::ActionT>, ParseFault>
        requires taken { TakesAll (A.taken actions.now) self.now.checked.grammar }
        // Out of memory, or the lexer allows an answer, and the result is that of the parse over this answer.
        ensures parse { GetsActed StorageT.index LexerTypesT.LexemeT.parts R.allows self.now (L.allows lexer.now)
            (A.answers actions.now) (A.fact actions.now) lexer.now param.now result }
    {
        let acting = Acting {
            actions,
            lexer,
            param,
        };
        match self.parse_to_entry(alloc, lexer, &acting) {
            Ok((entry, errors)) => Ok((value_of(argument_of(entry)), errors)),
            Err(fault) => Err(fault),
        }
    }

    /// Whether the actions take each production of the grammar but the start production. `parse_actions` requires it.
    pub fn takes_all<
        'input,
        L: NonStreamingLexer<'input, LexerTypesT>,
        A: Actions<StorageT, LexerTypesT::LexemeT, L>,
    >(&self, _lexer: &L, actions: &A) -> bool
        ensures { IsTrue result ↔ TakesAll (A.taken actions.now) self.now.checked.grammar }
    {
        let grm = self.checked.grm();
        for number in 0..grm.start_prod().as_storaget().to_index() {
            let pidx = PIdx(StorageT::from_index(number).unwrap());
            if !actions.takes(pidx, grm.prod_to_rule(pidx), grm.prod(pidx)) {
                return false;
            }
        }
        true
    }

    /// Parses the lexemes that the lexer returns, and makes a value. `values` gives the value of each production, from its number and its
    /// arguments, or an error of its own. The lexer is called once.
    ///
    /// An error of a production is the value of each production above it, so the parse goes on and finds all its errors. If it comes to a
    /// value and this is an error, the result is this error: the first one, in the order in which values are made. If it comes to no
    /// value, there is none, and the result has the errors of the parse alone.
    ///
    /// What for `parse_map` is an `Err` is also one here: a `ParseFault`, made an error of `values` by `From`.
    ///
    /// The time and the memory are those of `parse_actions`, and each argument is looked at once more.
    pub fn parse_values<
        'input,
        L: NonStreamingLexer<'input, LexerTypesT>,
        V: Values<LexerTypesT::LexemeT, L>,
    >(
        &self,
        alloc: Global,
        lexer: &L,
        values: &V,
    ) -> Result<Answer<StorageT, LexerTypesT, V::Value>, V::Error>
        // A parse to a value or an error, as that of `parse_actions`, and the result is what comes out of it.
        ensures parse { GetsGiven StorageT.index LexerTypesT.LexemeT.parts R.allows self.now (L.allows lexer.now)
            V.Error.from_gives (V.gives values.now) lexer.now result }
    {
        come_out(self.parse_actions(alloc, lexer, &Valued { values }, &()))
    }

    /// The grammar of the parser.
    pub fn grammar(&self) -> &YaccGrammar<StorageT>
        ensures { result.now ≡ self.now.checked.grammar }
    {
        self.checked.grm()
    }

    /// Parses the lexemes that the lexer returns, and makes their parse tree. The lexer is called once. The errors and each `Err` are as
    /// for `parse_map`. Each rule with symbols takes memory once, for the list of its trees.
    pub fn parse_generictree<'input, L: NonStreamingLexer<'input, LexerTypesT>>(
        &self,
        alloc: Global,
        lexer: &L,
    ) -> Result<Answer<StorageT, LexerTypesT, Node<LexerTypesT::LexemeT, StorageT>>, ParseFault>
        // Out of memory, or the lexer allows an answer, and the result is that of the parse over this answer.
        ensures parse { GetsTree StorageT.index LexerTypesT.LexemeT.parts R.allows self.now (L.allows lexer.now) result }
    {
        self.parse_to_entry(alloc, lexer, &Trees)
    }

    /// Parses the lexemes that the lexer returns, and makes their parse tree as one list of nodes, which has productions where
    /// `parse_generictree` has rules. The lexer is called once. The errors and each `Err` are as for `parse_map`.
    ///
    /// No node takes memory of its own: there is one list, with 16 bytes a node if the storage type has 32 bits. `Err(Memory)` also means
    /// that a lexeme ends past byte 2^32 - 1, or that there are about as many nodes.
    pub fn parse_tree<'input, L: NonStreamingLexer<'input, LexerTypesT>>(
        &self,
        alloc: Global,
        lexer: &L,
    ) -> Result<Answer<StorageT, LexerTypesT, SyntaxTree<StorageT>>, ParseFault>
        // Out of memory, or the lexer allows an answer, and the result is that of the parse over this answer.
        ensures parse { GetsSyntaxTree StorageT.index LexerTypesT.LexemeT.parts R.allows self.now (L.allows lexer.now) result }
    {
        self.parse_to_entry(alloc, lexer, &FlatTrees)
    }

    /// Parses the lexemes that the lexer returns, for the errors alone. The lexer is called once. The errors and each `Err` are as for
    /// `parse_map`. Takes memory for the lexemes, the stack of states, the errors, and the recoverer's sequences and their test, and for
    /// nothing else.
    pub fn parse_noaction<'input, L: NonStreamingLexer<'input, LexerTypesT>>(
        &self,
        alloc: Global,
        lexer: &L,
    ) -> Result<Vec<LexParseError<StorageT, LexerTypesT>>, ParseFault>
        // Out of memory, or the lexer allows an answer, and the result has the errors of the parse over this answer.
        ensures parse { GetsErrors StorageT.index LexerTypesT.LexemeT.parts R.allows self.now (L.allows lexer.now) result }
    {
        match self.parse_to_entry(alloc, lexer, &Nothing) {
            Ok((_, errors)) => Ok(errors),
            Err(fault) => Err(fault),
        }
    }

    /// What may come next after the lexemes that the lexer returns, for example to complete an input. Only the lexemes before the first
    /// lexing error count. The result says how many of them can be fed in turn, without repairs, and which tokens can be fed there: at
    /// the stack after these lexemes, before any reduction at the token of the next one. The end token is among them if the parse would
    /// accept. The lexer is called once, and the recoverer isn't called.
    ///
    /// `Err(BadToken)` or `Err(StartsDecrease)`: this is the first of these lexemes with a fault. `Err(Memory)`: out of memory, also in the
    /// lexer.
    ///
    /// The reductions under a lexeme are made once, over the stack: what they give replaces what they took, if the lexeme can be fed. Then
    /// each token at which the top state has an action costs one settle.
    pub fn expected<'input, L: NonStreamingLexer<'input, LexerTypesT>>(
        &self,
        alloc: Global,
        lexer: &L,
    ) -> Result<Expected<StorageT, LexerTypesT::LexErrorT>, ParseFault>
        // Out of memory, or the lexer allows an answer, and the result says what may come next after its lexemes.
        ensures expected { ExpectsNext StorageT.index LexerTypesT.LexemeT.parts self.now (L.allows lexer.now) result }
    {
        let answers = lexer.iter(alloc)?;
        let (lexemes, lexing_error) = lexemes_before_error(alloc, answers)?;
        if let Some(fault) = lexeme_fault(self.checked.grm(), &lexemes) {
            return Err(fault);
        }
        let (place, tokens) = expected_after(alloc, self.checked, &lexemes)?;
        Ok(Expected {
            place,
            tokens,
            lexing_error,
        })
    }

    /// The grammar of the parser with its checked table.
    pub(crate) fn checked(&self) -> &'a ParserData<StorageT>
        ensures { result.now ≡ self.now.checked }
    {
        self.checked
    }

    // Parses the lexemes that the lexer returns to an entry of the builder.
    fn parse_to_entry<
        'input,
        L: NonStreamingLexer<'input, LexerTypesT>,
        B: Build<StorageT, LexerTypesT::LexemeT>,
    >(
        &self,
        alloc: Global,
        lexer: &L,
        build: &B,
    ) -> Result<Answer<StorageT, LexerTypesT, B::Entry>, ParseFault>
        requires can { (B.builds build.now).can_build self.now.checked.grammar }
        ensures parse { GetsEntry StorageT.index LexerTypesT.LexemeT.parts R.allows self.now (L.allows lexer.now)
            (B.builds build.now) result }
    {
        let answers = lexer.iter(alloc)?;
        match lexemes_or_error(alloc, answers)? {
            Err(error) => Ok((None, one_error(alloc, LexParseError::LexError(error))?)),
            Ok(lexemes) => match lexeme_fault(self.checked.grm(), &lexemes) {
                Some(fault) => Err(fault),
                None => Ok(self.run(alloc, &lexemes, build)?),
            },
        }
    }

    // The answer of the run over valid lexemes: an entry, if it accepts, and the errors of its error points.
    fn run<B: Build<StorageT, LexerTypesT::LexemeT>>(
        &self,
        alloc: Global,
        lexemes: &[LexerTypesT::LexemeT],
        build: &B,
    ) -> Result<Answer<StorageT, LexerTypesT, B::Entry>, AllocError>
        requires can { (B.builds build.now).can_build self.now.checked.grammar }
        requires valid { AreValid StorageT.index LexerTypesT.LexemeT.parts self.now.checked lexemes.now }
        ensures ran { IfOk result (RunsTo StorageT.index LexerTypesT.LexemeT.parts R.allows self.now (B.builds build.now) lexemes.now) }
    {
        let whole_run = WholeRun {
            run: Run::new(self.checked, build),
            lexemes,
            recoverer: &self.recoverer,
            shifts: self.shift_count(),
        };
        whole_run.over(alloc)
    }
}

// The argument of an entry.
fn argument_of<T: Drop>(entry: Option<Placed<T>>) -> Option<T>
    ensures { result ≡ option_map (λ e. e.argument) entry }
{
    match entry {
        Some(placed) => Some(placed.argument),
        None => None,
    }
}

// The value of an entry of a rule.
fn value_of<LexemeT: Drop, V: Drop>(entry: Option<AStackType<LexemeT, V>>) -> Option<V>
    requires { IfSome entry HasValueEntry }
    ensures { entry ≡ option_map ActionType result }
{
    match entry {
        Some(AStackType::ActionType(value)) => Some(value),
        Some(AStackType::Lexeme(_)) => unreachable!(),
        None => None,
    }
}

// A list of this error alone.
fn one_error<StorageT: StorageIndex, LexerTypesT: LexerTypes<StorageT = StorageT>>(
    alloc: Global,
    error: LexParseError<StorageT, LexerTypesT>,
) -> Result<Vec<LexParseError<StorageT, LexerTypesT>>, AllocError>
    ensures { IfOk result (λ errors. errors.items ≡ error ∷ []) }
{
    let mut errors = Vec::new(alloc);
    errors.push(error)?;
    Ok(errors)
}
