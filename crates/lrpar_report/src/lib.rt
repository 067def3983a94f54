//! Reports for people: what is wrong with a grammar text, with rules of a lexer, with a table, and with an input, and where.
//!
//! A report is made by one call for each fault, or by [`Report::error`] and its kin for faults of your own. [`Reporter::push`] shows it.
#![tactic(auto)]

mod choices;
mod conflicts;
mod errors;
mod file;
mod grammar;
mod lexer;
mod loops;
mod lrlex;
mod near;
mod placed;
mod shape;
mod tables;
mod warnings;
mod yacc;

pub use choices::{push_choices, push_quoted, push_token};
pub use conflicts::conflict_reports;
pub use errors::{error_report, lexing_report, parse_report, unexpected_report};
pub use file::{file_message, text_of};
pub use grammar::grammar_report;
pub use lexer::rules_report;
pub use lrlex::lrlex_report;
pub use lrpar_report_lines::{
    Edit, Fix, Label, Level, Look, PlacedFault, Report, Reporter, next_boundary, part_of,
};
pub use near::nearest;
pub use placed::{placed_error, placed_grammar_fault, placed_rules_fault};
pub use tables::{build_report, chain_report};
pub use warnings::{rule_warnings, rule_warnings_but, token_warnings};
pub use yacc::yacc_report;
