//! The parts of a grammar, as a reader or a caller supplies them, and their faults.
ghost use Rattle.std.specs.Prelude.{◌≡◌, ◌↔◌, IsTrue, IfSome, IfNone};
ghost use Rattle.lrpar_grammar_reader.specs.declared.parts.GrammarFault.TheVariants.{Memory};
ghost use Rattle.lrpar_grammar_reader.specs.Symbols.{AreBelow, IsRuleAmong, IsSymbolAmong};

use lrpar_grammar_places::span::{RIdx, Span, StorageIndex, Symbol};
use std::alloc::{AllocError, AllocFailed};
use thiserror::Error;

/// A rule: its name, and the place where it is first defined.
#[derive(Debug, Drop)]
pub struct RulePart {
    /// The rule's name. Two rules may have the same name.
    pub name: String,
    /// The place where it is first defined.
    pub span: Span,
}

/// A token: its name, the text that messages print for it, and the place where it is first declared or used.
#[derive(Debug, Drop)]
pub struct TokenPart {
    /// The token's name. Two tokens may have the same name.
    pub name: String,
    /// The text that messages print, if it isn't the name.
    pub epp: Option<String>,
    /// The place where it is first declared or used.
    pub span: Span,
}

impl TokenPart {
    ghost use Rattle.lrpar_grammar_reader.specs.Parts.{token_name_of};

    /// The text that messages print.
    pub fn printed(&self) -> &str
        ensures { result.now ≡ (token_name_of self.now).epp }
    {
        match &self.epp {
            Some(epp) => epp.as_str(),
            None => self.name.as_str(),
        }
    }
}

/// A production: its rule, the symbols of its right side, each with its place, and its own place.
#[derive(Debug, Drop)]
pub struct ProdPart<StorageT> {
    /// The rule, numbered from 1 in the order of the listed rules.
    pub rule: RIdx<StorageT>,
    /// The right side: rules numbered from 1 and tokens from 0, each with its place.
    pub symbols: Vec<(Symbol<StorageT>, Span)>,
    /// The place of the production.
    pub span: Span,
}

/// All the parts of a grammar. Rules are numbered from 1, tokens and productions from 0, each in the order listed.
#[derive(Debug, Drop)]
pub struct GrammarParts<StorageT> {
    /// The rules. There must be at least one.
    pub rules: Vec<RulePart>,
    /// The tokens, without the end token.
    pub tokens: Vec<TokenPart>,
    /// The productions. A rule may have none.
    pub prods: Vec<ProdPart<StorageT>>,
    /// The start rule.
    pub start: RIdx<StorageT>,
}

/// Why there is no grammar.
#[derive(Clone, Debug, Drop, PartialEq, Eq, Error)]
pub enum GrammarFault {
    /// A production's rule or one of its symbols isn't the number of a listed rule or token.
    #[error("bad symbol")]
    BadSymbol,
    /// The start rule isn't the number of a listed rule.
    #[error("bad start rule")]
    BadStart,
    /// No rule is listed.
    #[error("no rules")]
    NoRules,
    /// There are more rules, productions or tokens, with the added ones, than the storage type can number.
    #[error("storage type too small")]
    StorageTooSmall,
    /// The text isn't a grammar text. At this byte is the first word that can't be read or isn't allowed there, a
    /// quote or comment that isn't closed, or the end of the text, if it comes too early.
    #[error("syntax at byte {0}")]
    Syntax(usize),
    /// A name after `%start` that is no rule, or a symbol that is neither a declared token nor a rule.
    #[error("unknown rule at byte {at}", at = .0.start())]
    UnknownRule(Span),
    /// The name after `%epp` is no token.
    #[error("unknown token at byte {at}", at = .0.start())]
    UnknownToken(Span),
    /// A rule has the name of a token that `%token` declares.
    #[error("token is a rule at byte {at}", at = .0.start())]
    TokenIsRule(Span),
    /// A second `%start`.
    #[error("repeated %start at byte {at}", at = .0.start())]
    RepeatedStart(Span),
    /// A second `%epp` of one name.
    #[error("repeated %epp at byte {at}", at = .0.start())]
    RepeatedEpp(Span),
    /// An allocation failed.
    #[error("out of memory")]
    Memory,
}

impl<StorageT: StorageIndex> GrammarParts<StorageT> {
    ghost use Rattle.lrpar_grammar_reader.specs.Parts.{parts_of, FitStorage, HasDeclaredStart, HasDeclaredSymbols, IsFirstFault, MakeGrammar};

    /// The first fault of the parts, `Memory` aside. `None` if a grammar can be made of them. Takes time linear in the parts, and
    /// no memory.
    pub fn fault(&self) -> Option<GrammarFault>
        ensures found { IfSome result (IsFirstFault StorageT.limit (parts_of StorageT.index self.now)) }
        ensures sound { IfNone result (MakeGrammar StorageT.index StorageT.limit self.now) }
    {
        if self.rules.is_empty() {
            Some(GrammarFault::NoRules)
        } else if !self.fit_storage() {
            Some(GrammarFault::StorageTooSmall)
        } else if !self.has_declared_start() {
            Some(GrammarFault::BadStart)
        } else if !self.has_declared_symbols() {
            Some(GrammarFault::BadSymbol)
        } else {
            None
        }
    }

    // Whether all can be numbered, with the added rule, the added production and the end token.
    fn fit_storage(&self) -> bool
        ensures { IsTrue result ↔ FitStorage StorageT.limit (parts_of StorageT.index self.now) }
    {
        can_number::<StorageT>(self.rules.len(), self.tokens.len(), self.prods.len())
    }

    // Whether the start rule is a listed rule.
    fn has_declared_start(&self) -> bool
        ensures { IsTrue result ↔ HasDeclaredStart (parts_of StorageT.index self.now) }
    {
        is_declared_rule(self.start, self.rules.len())
    }

    // Whether every production is of a listed rule and has listed symbols.
    fn has_declared_symbols(&self) -> bool
        ensures { IsTrue result ↔ HasDeclaredSymbols (parts_of StorageT.index self.now) }
    {
        let rules = self.rules.len();
        let tokens = self.tokens.len();
        for prod in &self.prods {
            if !prod.is_declared(rules, tokens) {
                return false;
            }
        }
        true
    }
}

impl<StorageT: StorageIndex> ProdPart<StorageT> {
    ghost use Rattle.lrpar_grammar_reader.specs.Parts.{IsProdAmong};

    // Whether the production is of one of `rules` listed rules, and its symbols are listed.
    fn is_declared(&self, rules: usize, tokens: usize) -> bool
        ensures { IsTrue result ↔ IsProdAmong StorageT.index rules tokens self.now }
    {
        for (symbol, _) in &self.symbols {
            if !is_declared_symbol(*symbol, rules, tokens) {
                return false;
            }
        }
        is_declared_rule(self.rule, rules)
    }
}

// Whether the storage type can number this many rules, tokens and productions, with what a grammar adds to them.
pub(crate) fn can_number<StorageT: StorageIndex>(rules: usize, tokens: usize, prods: usize) -> bool
    ensures { IsTrue result ↔ AreBelow StorageT.limit rules tokens prods }
{
    StorageT::from_index(rules).is_some()
        && StorageT::from_index(tokens).is_some()
        && StorageT::from_index(prods).is_some()
}

// Whether the rule is one of `rules` listed rules.
fn is_declared_rule<StorageT: StorageIndex>(rule: RIdx<StorageT>, rules: usize) -> bool
    ensures { IsTrue result ↔ IsRuleAmong StorageT.index rules rule }
{
    let rule = usize::from(rule);
    0 < rule && rule <= rules
}

// Whether the symbol is one of `rules` listed rules or `tokens` listed tokens.
fn is_declared_symbol<StorageT: StorageIndex>(
    symbol: Symbol<StorageT>,
    rules: usize,
    tokens: usize,
) -> bool
    ensures { IsTrue result ↔ IsSymbolAmong StorageT.index rules tokens symbol }
{
    match symbol {
        Symbol::Rule(rule) => is_declared_rule(rule, rules),
        Symbol::Token(token) => usize::from(token) < tokens,
    }
}

impl From<AllocError> for GrammarFault {
    ghost from_gives = { λ _ fault. fault ≡ Memory };

    fn from(_: AllocError) -> GrammarFault {
        GrammarFault::Memory
    }
}

impl<T: Drop> From<AllocFailed<T>> for GrammarFault {
    ghost from_gives = { λ _ fault. fault ≡ Memory };

    fn from(_: AllocFailed<T>) -> GrammarFault {
        GrammarFault::Memory
    }
}
