//! Laws of spans, numbers and symbols. Each function does nothing: its clauses are the law.
ghost use Rattle.lrpar_grammar_places.specs.Comparisons.{AreSameRange, AreSameSpan, ComparesByNumber, HashesAs, IsEquality, IsSameSymbol, ProdsHashBy, RulesHashBy, StatesHashBy, SymbolsHashBy, TokensHashBy, range_input, span_input};

use crate::span::{PIdx, RIdx, Span, StIdx, StorageIndex, Symbol, TIdx};
use crate::text_range::TextRange;
use std::hash::Hash;

/// Spans are equal if and only if their starts and their ends are. A hasher is fed the start and then the end.
pub fn spans_compare_by_ends()
    ensures equal { IsEquality AreSameSpan ⟦<Span as PartialEq>⟧.eq }
    ensures hash { HashesAs span_input ⟦<Span as PartialEq>⟧.eq ⟦<Span as Hash>⟧.hash_input }
{}

/// Parts of a text, as trees keep them, are equal if and only if their starts and their ends are. A hasher is fed the start and then
/// the end.
pub fn text_ranges_compare_by_ends()
    ensures equal { IsEquality AreSameRange ⟦<TextRange as PartialEq>⟧.eq }
    ensures hash { HashesAs range_input ⟦<TextRange as PartialEq>⟧.eq ⟦<TextRange as Hash>⟧.hash_input }
{}

/// The numbers of rules, productions, tokens and states are equal and ordered as numbers are. A hasher is fed what it is fed
/// for the storage number in them.
pub fn numbers_compare_by_value<StorageT: StorageIndex>()
    ensures rules { ComparesByNumber (λ x. StorageT.index x.0) ⟦<RIdx<StorageT> as PartialEq>⟧.eq ⟦<RIdx<StorageT> as PartialOrd>⟧.partial_cmp ⟦<RIdx<StorageT> as Ord>⟧.cmp }
    ensures prods { ComparesByNumber (λ x. StorageT.index x.0) ⟦<PIdx<StorageT> as PartialEq>⟧.eq ⟦<PIdx<StorageT> as PartialOrd>⟧.partial_cmp ⟦<PIdx<StorageT> as Ord>⟧.cmp }
    ensures tokens { ComparesByNumber (λ x. StorageT.index x.0) ⟦<TIdx<StorageT> as PartialEq>⟧.eq ⟦<TIdx<StorageT> as PartialOrd>⟧.partial_cmp ⟦<TIdx<StorageT> as Ord>⟧.cmp }
    ensures states { ComparesByNumber (λ x. StorageT.index x.0) ⟦<StIdx<StorageT> as PartialEq>⟧.eq ⟦<StIdx<StorageT> as PartialOrd>⟧.partial_cmp ⟦<StIdx<StorageT> as Ord>⟧.cmp }
    ensures rules_hash { RulesHashBy StorageT.hash_input ⟦<RIdx<StorageT> as PartialEq>⟧ ⟦<RIdx<StorageT> as Hash>⟧ }
    ensures prods_hash { ProdsHashBy StorageT.hash_input ⟦<PIdx<StorageT> as PartialEq>⟧ ⟦<PIdx<StorageT> as Hash>⟧ }
    ensures tokens_hash { TokensHashBy StorageT.hash_input ⟦<TIdx<StorageT> as PartialEq>⟧ ⟦<TIdx<StorageT> as Hash>⟧ }
    ensures states_hash { StatesHashBy StorageT.hash_input ⟦<StIdx<StorageT> as PartialEq>⟧ ⟦<StIdx<StorageT> as Hash>⟧ }
{}

/// Symbols are equal if and only if both are rules or both are tokens, with the same number. A hasher is fed which of the two it
/// is, and then what it is fed for the number.
pub fn symbols_compare_by_contents<StorageT: StorageIndex>()
    ensures equal { IsEquality (IsSameSymbol StorageT.index) ⟦<Symbol<StorageT> as PartialEq>⟧.eq }
    ensures hash { SymbolsHashBy StorageT.hash_input ⟦<Symbol<StorageT> as PartialEq>⟧ ⟦<Symbol<StorageT> as Hash>⟧ }
{}
