//! Syntax trees: parse trees with all nodes in one list, and the builder that makes them.
#![tactic(auto)]

pub mod children;
pub mod flat_trees;
pub mod growing;
pub mod kind;
pub mod nodes;
pub mod packed;
pub mod syntax_node;
pub mod syntax_tree;
mod text;
