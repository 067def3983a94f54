//! The states in which a run can stop at an error, and where a run over tokens stops.
#![tactic(auto)]

mod met;
mod path;
mod runs;
mod stops;

pub use path::next_by;
pub use runs::{stack_after, stop_at};
pub use stops::ErrorStates;
