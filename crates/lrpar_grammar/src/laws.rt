//! Laws of the definitions that contracts cite. Each function does nothing: its clauses are the law.
ghost use Rattle.std.specs.Prelude.{◌≡◌, [], ◌∷◌};
ghost use Rattle.lrpar_grammar_reader.specs.Grammar.{Nonterminal};
ghost use Rattle.lrpar_grammar.specs.Rewriting.{LeavesAreDerived, DerivedAreLeaves};
ghost use Rattle.lrpar_grammar.specs.Sentence.{LexemeFacts};
ghost use Rattle.lrpar_grammar.specs.SpelledLaws.{ListingsKeepOrder, NumbersTellApart, PartsKeepTexts};
ghost use Rattle.lrpar_grammar.specs.Sum.{SumIsWorkedOut, sum_grammar, sum_lexemes, sum_tree};
ghost use Rattle.lrpar_grammar.specs.Tree.{Fits, leaves, productions};

pub use lrpar_grammar_reader::laws::text_spells_one_grammar;

/// The definitions give the numbers, names and places of a small grammar, and the leaves and productions of a tree.
pub fn sum_is_worked_out()
    ensures { SumIsWorkedOut }
{}

/// The tree of `a+b` fits the rule E, and not the rule T. Its leaves are the three lexemes, and its productions are `T: 'ID'` twice,
/// `E: T` and `E: T '+' E`.
pub fn sum_tree_fits()
    ensures fits { Fits (λ x. x.token) sum_grammar sum_tree (Nonterminal 1) }
    ensures lexemes { leaves sum_tree ≡ sum_lexemes }
    ensures prods { productions sum_tree ≡ 2 ∷ 2 ∷ 1 ∷ 0 ∷ [] }
    ensures other_rule { ¬ (Fits (λ x. x.token) sum_grammar sum_tree (Nonterminal 2)) }
{}

/// Derivation trees and rewriting agree, over lexemes of any type and over the lexemes of contracts: the tokens of a
/// tree's leaves are derived from the symbol that the tree fits, and if the tokens of lexemes are derived from a symbol, the
/// lexemes are the leaves of a tree that fits it.
pub fn trees_are_derivations<LexemeT>()
    ensures derived { LeavesAreDerived LexemeT }
    ensures has_tree { DerivedAreLeaves LexemeT }
    ensures facts_derived { LeavesAreDerived LexemeFacts }
    ensures facts_have_tree { DerivedAreLeaves LexemeFacts }
{}

/// The numbers of a production's symbols tell which rule and which right side it has.
pub fn numbers_tell_productions_apart()
    ensures { NumbersTellApart }
{}

/// In a list of productions by their texts, no two productions have the same place, and the places of productions that are spelled
/// alike are in the order of these productions.
pub fn listings_keep_order()
    ensures { ListingsKeepOrder }
{}

/// If a list comes in parts, each place of the whole list is one place of one part, and this part has the same text there.
pub fn parts_keep_texts()
    ensures { PartsKeepTexts }
{}
