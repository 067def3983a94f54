//! Reports for people, and how they look: a message, the lines of a text that its labels touch, notes, and fixes.
#![tactic(auto)]

mod captions;
mod changes;
mod edits;
mod fixes;
mod levels;
mod marks;
mod placed;
mod places;
mod reporting;
mod reports;
mod touched;

pub use edits::{Edit, Fix};
pub use levels::{Level, Look};
pub use placed::PlacedFault;
pub use places::{next_boundary, part_of};
pub use reporting::Reporter;
pub use reports::{Label, Report};
