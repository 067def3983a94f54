//! The grammar value.
ghost use Rattle.std.specs.Prelude.{◌≡◌, ◌<◌, ◌≤◌, ◌↔◌, if◌then◌else◌, codes, IfErr, IfOk, IsNone, IsTrue};
ghost use Rattle.std.specs.List.{range_with_len};
ghost use Rattle.lrpar_grammar_reader.specs.SpansFit.{NamesFit, SpansFit};
ghost use Rattle.lrpar_grammar_reader.specs.Symbols.{prod_numbers};
ghost use Rattle.lrpar_grammar.specs.Stored.{FailsExactly, HasDeclaredRightSide, HaveTokenNames, HaveTokenNumbers, IsEndOf, IsFirstNamed, IsGrammarOf, IsRightSide, IsTokenAt, text_in};

use super::fit::{prods_fit, rules_fit, tokens_fit};
use super::numbers::Numbers;
use super::prods::{SplitProd, prods_by_rule, split_prods};
use super::tokens::{first_named, numbered_names};
use lrpar_grammar_places::span::{PIdx, RIdx, Span, StorageIndex, Symbol, TIdx};
use lrpar_grammar_reader::parts::{GrammarFault, GrammarParts, RulePart, TokenPart};
use std::alloc::{AllocError, Global};
use std::marker::Model;

/// A context-free grammar with names and places, augmented: rule 0 is the added rule `^`; the last production, the start
/// production, is of that rule and derives the start rule alone; the last token is the end token, which has no name.
#[derive(Debug)]
pub struct YaccGrammar<StorageT: StorageIndex> {
    rules: Vec<RulePart>,
    tokens: Vec<TokenPart>,
    prods: Vec<SplitProd<StorageT>>,
    start: RIdx<StorageT>,
    rule_prods: Vec<Vec<PIdx<StorageT>>>,
}

// Hand-written, so that code that drops a grammar needs the proof of one call only.
impl<StorageT: StorageIndex> Drop for YaccGrammar<StorageT> {
    fn drop(self) {
        let YaccGrammar {
            rules,
            tokens,
            prods,
            start: _,
            rule_prods,
        } = self;
        drop(rules);
        drop(tokens);
        drop(prods);
        drop(rule_prods);
    }
}

impl<StorageT: StorageIndex> Model for YaccGrammar<StorageT> {
    ghost use Rattle.lrpar_grammar_reader.specs.Grammar.{Grammar};

    ghost Value = { Grammar };

    ghost use Rattle.lrpar_grammar.specs.Kept.{IsKept, kept_grammar};

    ghost view = { λ s. kept_grammar StorageT.index s.rules.items s.tokens.items s.prods.items s.start.0 };

    ghost invariant = { λ s. IsKept StorageT.limit StorageT.index
        (kept_grammar StorageT.index s.rules.items s.tokens.items s.prods.items s.start.0) s.rule_prods.items };
}

impl<StorageT: StorageIndex> YaccGrammar<StorageT> {
    ghost use Rattle.lrpar_grammar_reader.specs.Parts.{IsRefusalOf, MakeGrammar, parts_of};
    ghost use Rattle.lrpar_grammar.specs.Kept.{IsKeptProd};
    ghost use Rattle.lrpar_grammar.specs.Printed.{printed_of};
    ghost use Rattle.lrpar_grammar_reader.specs.Grammar.{IsWellFormed, rules_len, prods_len, tokens_len, end_token, start_prod, rule_of, symbol_spans_of, prod_span_of, prods_of, rule_name, rule_span, token_name, token_epp, token_span};

    /// The grammar of the parts. Its rules are the added rule and the listed ones, in order; its productions are the
    /// listed ones, in order, and the start production; its tokens are the listed ones, in order, and the end token.
    ///
    /// Fails with the first of these that holds: no rule is listed; the storage type can't number them all, with
    /// what is added; the start isn't a listed rule; a production's rule or one of its symbols isn't listed; an allocation
    /// fails. Takes time and memory linear in the parts.
    pub fn from_parts(alloc: Global, parts: GrammarParts<StorageT>) -> Result<Self, GrammarFault>
        ensures made { IfOk result (IsGrammarOf StorageT.index parts) }
        ensures well_formed { IfOk result IsWellFormed }

        // An error is the first fault of the parts or, if they have none, `Memory`.
        ensures refused { IfErr result (IsRefusalOf StorageT.limit (parts_of StorageT.index parts)) }

        // Each fault but `Memory` is returned if and only if it is the first that holds.
        ensures no_rules { FailsExactly StorageT.index StorageT.limit parts result GrammarFault.NoRules }
        ensures storage_too_small { FailsExactly StorageT.index StorageT.limit parts result GrammarFault.StorageTooSmall }
        ensures bad_start { FailsExactly StorageT.index StorageT.limit parts result GrammarFault.BadStart }
        ensures bad_symbol { FailsExactly StorageT.index StorageT.limit parts result GrammarFault.BadSymbol }
    {
        match parts.fault() {
            Some(fault) => Err(fault),
            None => Ok(YaccGrammar::made(alloc, parts)?),
        }
    }

    // The grammar of sound parts.
    pub(super) fn made(alloc: Global, parts: GrammarParts<StorageT>) -> Result<Self, AllocError>
        requires { MakeGrammar StorageT.index StorageT.limit parts }
        ensures made { IfOk result (IsGrammarOf StorageT.index parts) }
        ensures well_formed { IfOk result IsWellFormed }
    {
        let prods = split_prods(alloc, &parts.prods, parts.start)?;
        let rule_prods = prods_by_rule(alloc, parts.rules.len() + 1, &prods)?;
        let GrammarParts {
            rules,
            tokens,
            prods: _,
            start,
        } = parts;
        Ok(YaccGrammar {
            rules,
            tokens,
            prods,
            start,
            rule_prods,
        })
    }

    /// The number of rules, with the added one.
    pub fn rules_len(&self) -> usize
        ensures len { result ≡ rules_len self.now }
        ensures within { result ≤ StorageT.limit }
    {
        self.rule_prods.len()
    }

    /// The number of productions, with the start production.
    pub fn prods_len(&self) -> usize
        ensures len { result ≡ prods_len self.now }
        ensures within { result ≤ StorageT.limit }
    {
        self.prods.len()
    }

    /// The number of tokens, with the end token.
    pub fn tokens_len(&self) -> usize
        ensures len { result ≡ tokens_len self.now }
        ensures within { result ≤ StorageT.limit }
    {
        self.tokens.len() + 1
    }

    /// The numbers of the rules, ascending.
    pub fn iter_rules(&self) -> Numbers<StorageT, RIdx<StorageT>>
        ensures { result ≡ range_with_len 0 (rules_len self.now) }
    {
        Numbers::below(self.rules_len())
    }

    /// The numbers of the productions, ascending.
    pub fn iter_pidxs(&self) -> Numbers<StorageT, PIdx<StorageT>>
        ensures { result ≡ range_with_len 0 (prods_len self.now) }
    {
        Numbers::below(self.prods_len())
    }

    /// The numbers of the tokens, ascending.
    pub fn iter_tidxs(&self) -> Numbers<StorageT, TIdx<StorageT>>
        ensures { result ≡ range_with_len 0 (tokens_len self.now) }
    {
        Numbers::below(self.tokens_len())
    }

    /// The right side of a production.
    pub fn prod(&self, pidx: PIdx<StorageT>) -> &[Symbol<StorageT>]
        requires { StorageT.index pidx.0 < prods_len self.now }
        ensures { IsRightSide StorageT.index self.now pidx result.now }
    {
        &self.kept(pidx).symbols
    }

    // The right side of a production, whose symbols are rules and tokens of the grammar.
    pub(super) fn declared_symbols(&self, pidx: PIdx<StorageT>) -> &[Symbol<StorageT>]
        requires { StorageT.index pidx.0 < prods_len self.now }
        ensures symbols { IsRightSide StorageT.index self.now pidx result.now }
        ensures listed { HasDeclaredRightSide StorageT.index self.now pidx }
    {
        &self.prods[usize::from(pidx)].symbols
    }

    /// The place of each symbol of a production.
    pub fn symbol_spans(&self, pidx: PIdx<StorageT>) -> &[Span]
        requires { StorageT.index pidx.0 < prods_len self.now }
        ensures { result.now ≡ symbol_spans_of self.now (StorageT.index pidx.0) }
    {
        &self.kept(pidx).symbol_spans
    }

    /// The rule of a production.
    pub fn prod_to_rule(&self, pidx: PIdx<StorageT>) -> RIdx<StorageT>
        requires { StorageT.index pidx.0 < prods_len self.now }
        ensures rule { StorageT.index result.0 ≡ rule_of self.now (StorageT.index pidx.0) }
        ensures within { StorageT.index result.0 < rules_len self.now }
    {
        self.kept(pidx).rule
    }

    /// The place of a production.
    pub fn prod_span(&self, pidx: PIdx<StorageT>) -> Span
        requires { StorageT.index pidx.0 < prods_len self.now }
        ensures { result ≡ prod_span_of self.now (StorageT.index pidx.0) }
    {
        self.kept(pidx).span
    }

    // A production as it is kept.
    fn kept(&self, pidx: PIdx<StorageT>) -> &SplitProd<StorageT>
        requires { StorageT.index pidx.0 < prods_len self.now }
        ensures prod { IsKeptProd StorageT.index self.now pidx result.now }
        ensures within { StorageT.index result.now.rule.0 < rules_len self.now }
    {
        &self.prods[usize::from(pidx)]
    }

    /// The productions of a rule, ascending.
    pub fn rule_to_prods(&self, ridx: RIdx<StorageT>) -> &[PIdx<StorageT>]
        requires { StorageT.index ridx.0 < rules_len self.now }
        ensures { prod_numbers StorageT.index result.now ≡ prods_of self.now (StorageT.index ridx.0) }
    {
        &self.rule_prods[usize::from(ridx)]
    }

    /// A rule's name: `^` for the added rule.
    pub fn rule_name_str(&self, ridx: RIdx<StorageT>) -> &str
        requires { StorageT.index ridx.0 < rules_len self.now }
        ensures { result.now ≡ rule_name self.now (StorageT.index ridx.0) }
    {
        match usize::from(ridx) {
            0 => "^",
            listed => self.rules[listed - 1].name.as_str(),
        }
    }

    /// The place where a rule is first defined; for the added rule, the empty span at 0.
    pub fn rule_name_span(&self, ridx: RIdx<StorageT>) -> Span
        requires { StorageT.index ridx.0 < rules_len self.now }
        ensures { result ≡ rule_span self.now (StorageT.index ridx.0) }
    {
        match usize::from(ridx) {
            0 => Span::new(0, 0),
            listed => self.rules[listed - 1].span,
        }
    }

    /// A token's name. `None` for the end token alone.
    pub fn token_name(&self, tidx: TIdx<StorageT>) -> Option<&str>
        requires { StorageT.index tidx.0 < tokens_len self.now }
        ensures name { text_in result ≡ token_name self.now (StorageT.index tidx.0) }
        ensures end { IsNone result ↔ IsEndOf StorageT.index self.now tidx }
    {
        let token = self.token(tidx)?;
        Some(token.name.as_str())
    }

    /// The text that messages print for a token. `None` for the end token alone.
    pub fn token_epp(&self, tidx: TIdx<StorageT>) -> Option<&str>
        requires { StorageT.index tidx.0 < tokens_len self.now }
        ensures epp { text_in result ≡ token_epp self.now (StorageT.index tidx.0) }
        ensures end { IsNone result ↔ IsEndOf StorageT.index self.now tidx }
    {
        let token = self.token(tidx)?;
        Some(token.printed())
    }

    /// What messages print for a token, whatever its number: the text of `token_epp`, `end of input` for the end token, and
    /// `no token` for a number that the grammar doesn't have. So it can be passed as the `epp` of an error's text.
    pub fn epp_of(&self, tidx: TIdx<StorageT>) -> &str
        ensures { result.now ≡ printed_of self.now (StorageT.index tidx.0) }
    {
        let number = usize::from(tidx);
        match self.tokens.get(number) {
            Some(token) => token.printed(),
            None => unlisted(number == self.tokens.len()),
        }
    }

    /// The place where a token is first declared or used. `None` for the end token alone.
    pub fn token_span(&self, tidx: TIdx<StorageT>) -> Option<Span>
        requires { StorageT.index tidx.0 < tokens_len self.now }
        ensures span { result ≡ token_span self.now (StorageT.index tidx.0) }
        ensures end { IsNone result ↔ IsEndOf StorageT.index self.now tidx }
    {
        let token = self.token(tidx)?;
        Some(token.span)
    }

    // What is kept for a token. `None` for the end token alone.
    fn token(&self, tidx: TIdx<StorageT>) -> Option<&TokenPart>
        requires { StorageT.index tidx.0 < tokens_len self.now }
        ensures token { IsTokenAt StorageT.index self.now tidx result }
        ensures end { IsNone result ↔ IsEndOf StorageT.index self.now tidx }
    {
        self.tokens.get(usize::from(tidx))
    }

    /// The start production, the last one.
    pub fn start_prod(&self) -> PIdx<StorageT>
        ensures number { StorageT.index result.0 ≡ start_prod self.now }
        ensures within { StorageT.index result.0 < prods_len self.now }
        ensures well_formed { IsWellFormed self.now }
    {
        PIdx(StorageT::from_index(self.prods.len() - 1).unwrap())
    }

    /// The start rule.
    pub fn start_rule_idx(&self) -> RIdx<StorageT>
        ensures start { StorageT.index result.0 ≡ self.now.start }
        ensures within { StorageT.index result.0 < rules_len self.now }
    {
        self.start
    }

    /// The end token, the last one.
    pub fn eof_token_idx(&self) -> TIdx<StorageT>
        ensures { StorageT.index result.0 ≡ end_token self.now }
    {
        TIdx(StorageT::from_index(self.tokens.len()).unwrap())
    }

    /// Whether the places of the grammar fit a text: each starts and ends between two characters of it; the place of each
    /// symbol, and of each production without symbols, is on one line; and the places of the symbols of a production
    /// are in order and don't overlap. Takes time linear in the grammar and its places, and no memory.
    pub fn spans_fit(&self, src: &str) -> bool
        ensures { IsTrue result ↔ SpansFit self.now src.now }
    {
        self.names_fit(src) && prods_fit(&self.prods, src)
    }

    // Whether the places of the rules and tokens fit a text.
    fn names_fit(&self, src: &str) -> bool
        ensures { IsTrue result ↔ NamesFit self.now src.now }
    {
        rules_fit(&self.rules, src) && tokens_fit(&self.tokens, src)
    }

    /// The first token with that name. Takes time linear in the number of tokens.
    pub fn token_idx(&self, name: &str) -> Option<TIdx<StorageT>>
        ensures { IsFirstNamed StorageT.index self.now name.now result }
    {
        match first_named(&self.tokens, name) {
            Some(number) => Some(TIdx(StorageT::from_index(number).unwrap())),
            None => None,
        }
    }

    /// The tokens other than the end token, each with its name, ascending. Takes time and memory linear in their number.
    pub fn tokens_map(&self, alloc: Global) -> Result<Vec<(&str, TIdx<StorageT>)>, AllocError>
        ensures names { IfOk result (HaveTokenNames self.now) }
        ensures numbers { IfOk result (HaveTokenNumbers StorageT.index self.now) }
    {
        numbered_names(alloc, &self.tokens)
    }
}

// What messages print for a token that isn't listed: the end token, or no token at all.
fn unlisted(is_end: bool) -> &'static str
    ensures { result.now ≡ (if is_end then codes "end of input" else codes "no token") }
{
    if is_end { "end of input" } else { "no token" }
}
