//! The recoverer CPCT+: a search for the repairs of least cost.
#![tactic(auto)]

mod budget;
mod counts;
mod cpct_plus;
mod fault;
mod form;
mod graph;
pub mod laws;
mod layer;
mod link;
mod listing;
mod nodes;
mod search;

pub use cpct_plus::CpctPlus;
pub use fault::CostFault;
