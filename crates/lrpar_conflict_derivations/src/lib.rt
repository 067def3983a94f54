//! A counterexample of one conflict: two derivations with a common beginning, and the search for one sentence with both.
#![tactic(auto)]

mod access_paths;
mod begins;
mod closure_links;
mod completion;
mod configurations;
mod context;
mod derivations;
mod example;
pub mod examples;
mod fault;
mod min_lengths;
mod minimal_sentences;
mod predecessors;
mod priority_queue;
mod replay;
mod search;
mod stacks;
mod unifying;
mod validation;
