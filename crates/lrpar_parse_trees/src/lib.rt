//! Parse trees: comparing, cloning and dropping them, and their texts, in brackets, as JSON and as graphs.
#![tactic(auto)]

mod escapes;
mod form;
mod graph;
mod labels;
mod nested;
pub mod node;
mod node_parts;
mod tree_text;
mod tree_write;

pub use escapes::push_escaped;
pub use form::Form;
pub use graph::write_graph;
pub use nested::write_nested;
pub use node::Node;
