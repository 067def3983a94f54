//! Reports for people: what is wrong with a `.y` file that is read as bison reads it, and where.
#![tactic(auto)]

mod directives;
mod earlier;
mod expected;
mod faults;
mod names;
mod repeated;
mod seen;
mod unclosed;
mod warnings;
mod word_order;
mod words;

pub use faults::bison_report;
pub use warnings::bison_warnings;
