//! A state table as it is stored: actions, gotos, conflicts, and the item set of each state; and what a safe table is.
#![tactic(auto)]

mod ascending;
mod bases;
pub mod condition;
mod conflicts;
mod each;
mod entries;
mod fault;
mod full;
mod graph;
mod item_iter;
mod items;
mod key;
pub mod laws;
mod numbers;
mod packed;
mod resolved;
mod rows;
mod runs;
mod slots;
mod sparse;
pub mod table;
