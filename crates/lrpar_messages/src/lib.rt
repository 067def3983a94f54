//! Messages for the errors of a language, written by hand: which errors there are, and the message of each.
#![tactic(auto)]

mod entry;
mod fault;
mod groups;
mod lines;
mod messages;
mod paths;
mod reading;
mod sentences;

pub use fault::{MessageFault, MessageFaultKind};
pub use groups::{error_groups, have_same_kernel};
pub use messages::Messages;
pub use sentences::{ErrorExample, error_examples, push_example};
