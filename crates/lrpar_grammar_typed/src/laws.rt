//! Laws of lists. The function does nothing: its clauses are the law.
ghost use Rattle.lrpar_grammar_typed.specs.ListTrees.{ListsAreTrees, TreesAreLists};

/// The trees of `X*` are lists of trees of X, one after the other.
pub fn trees_of_lists_are_lists<LexemeT>()
    ensures lists { TreesAreLists LexemeT }
    ensures trees { ListsAreTrees LexemeT }
{}
