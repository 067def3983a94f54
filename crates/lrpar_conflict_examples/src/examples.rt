//! Counterexamples of the conflicts of a table that was built of a grammar, and their texts.
pub use crate::conflict::ConflictExample;
pub use crate::conflict_list::conflict_examples;
pub use crate::merged::{MergedConflicts, NoExamples, conflict_examples_by};
pub use crate::text::format_examples;
pub use crate::unresolved::{ConflictsLeft, UnmetConflict, conflict_examples_with};
pub use lrpar_conflict_derivations::examples::{Example, ExampleFault, Examples};
pub use lrpar_table_sentences::moves::Move;
