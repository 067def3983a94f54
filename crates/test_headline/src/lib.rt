//! What a user concludes about a parse. For every checked table, every list of valid lexemes and every recoverer: the parse ends; there is
//! a value if and only if there is no lexing error and each parse error lists a repair; the value is the fold of a derivation whose leaves
//! are the lexemes as first repaired; over a complete table every sentence has one tree only, which the parse returns; each error lists
//! exactly the supplied sequences that work, in the order in which they were supplied; and if the recoverer always repairs, there is a
//! value unless there is a lexing error. A table is safe and its chains are within its cap before any parse uses it. What holds of each
//! value by the actions of a typed grammar holds of the value of a parse. Each file is about one of these. Their proofs use the contracts of
//! public functions alone, as a user's proofs do.
#![tactic(auto)]

mod derivations;
mod ends;
mod percents;
mod repairs;
mod sentences;
mod syntax;
mod tables;
mod texts;
mod values;

pub use derivations::{acted_value, folded_value, tree_of};
pub use ends::errors_of;
pub use percents::{PercentFault, percentages};
pub use repairs::{errors_by, errors_without_repairs};
pub use sentences::{Unknown, is_sentence, only_tree, trees_are_one};
pub use tables::{built_table, checked_table, reductions_under};
pub use texts::{errors_of_any_text, tree_of_any_text};
pub use values::value_of;
