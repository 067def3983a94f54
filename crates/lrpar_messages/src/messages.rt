//! The messages of a catalogue.
ghost use Rattle.std.specs.Prelude.{IfOk};
ghost use Rattle.lrpar_messages.specs.Messages.{AreApart, AreApartBeside, Finds, FindsEntry};

use crate::fault::{MessageFault, MessageFaultKind};
use crate::groups::have_same_kernel;
use crate::reading::read_all;
use lrpar_grammar::span::{Span, StIdx, StorageIndex};
use lrpar_table_check::check::ParserData;
use lrpar_table_rows::table::StateGraph;
use lrpar_table_stops::ErrorStates;
use std::alloc::{AllocError, Global};
use std::marker::Model;

/// A message: a state of the group for which it is, its words, and the line of its entry.
pub(crate) struct Message<StorageT: StorageIndex> {
    pub(crate) state: StIdx<StorageT>,
    pub(crate) text: String,
    pub(crate) line: Span,
}

// Hand-written, so that code that drops one needs the proof of one call only.
impl<StorageT: StorageIndex> Drop for Message<StorageT> {
    fn drop(self) {
        let Message {
            state: _,
            text,
            line: _,
        } = self;
        drop(text);
    }
}

/// Messages for the states in which a parse can stop, one for all states with the same kernel cores.
pub struct Messages<StorageT: StorageIndex> {
    messages: Vec<Message<StorageT>>,
}

impl<StorageT: StorageIndex> Model for Messages<StorageT> {
    ghost use Rattle.std.specs.Prelude.{List};
    ghost use Rattle.lrpar_messages.specs.Messages.{MessageOf, messages_of};

    ghost Value = { List MessageOf };

    ghost view = { λ messages. messages_of StorageT.index messages.messages.items };
}

// Hand-written, so that code that drops them needs the proof of one call only.
impl<StorageT: StorageIndex> Drop for Messages<StorageT> {
    fn drop(self) {
        let Messages { messages } = self;
        drop(messages);
    }
}

impl<StorageT: StorageIndex> Messages<StorageT> {
    /// The messages of a catalogue for this table: what comes after the first line `%%` of a messages file, none if there is no such line.
    ///
    /// ```text
    /// '{' 'STRING' 'STRING'
    ///     Expected ':' after the name of a member, before {found}.
    /// ```
    ///
    /// A line of tokens shows an error: a run over them stops at the last one, and not before. A name in quotes ends at the next such quote,
    /// another one at a blank, and `$` is the end of the input. After `%after` come rules and tokens that lead to a state from the start,
    /// for an error that only comes after a repair. The lines below, which begin with a blank, are the message, joined by spaces. Empty
    /// lines say nothing, nor do those that begin with `//`.
    ///
    /// Fails with the first fault of the text, in the order of its lines, or with `Memory`. Takes for each entry the time of a run over its
    /// tokens, and time linear in the number of entries.
    pub fn read(
        alloc: Global,
        data: &ParserData<StorageT>,
        text: &str,
    ) -> Result<Self, MessageFault>
        ensures apart { IfOk result (AreApart data.now.graph) }
    {
        let mut faults = Vec::new(alloc);
        let messages = read_all(alloc, data, text, &mut faults)?;
        match faults.first() {
            Some(fault) => Err(*fault),
            None => Ok(Messages { messages }),
        }
    }

    /// All faults of a catalogue, in the order of its lines, and the messages of the entries without one. Then come the entries for states in
    /// which no run stops. `Err`: out of memory.
    pub fn check(
        alloc: Global,
        data: &ParserData<StorageT>,
        stops: &ErrorStates,
        text: &str,
    ) -> Result<(Self, Vec<MessageFault>), AllocError>
        ensures apart { IfOk result (AreApartBeside data.now.graph) }
    {
        let mut faults = Vec::new(alloc);
        let messages = read_all(alloc, data, text, &mut faults)?;
        for message in &messages {
            if !stops.contains(message.state) {
                faults.push(MessageFault::At {
                    kind: MessageFaultKind::NoStop,
                    span: message.line,
                })?;
            }
        }
        Ok((Messages { messages }, faults))
    }

    /// The message for an error at which a parse stops in this state of the graph, if there is one.
    ///
    /// Takes time linear in the number of messages.
    pub fn of(&self, sgraph: &StateGraph<StorageT>, state: StIdx<StorageT>) -> Option<&str>
        ensures { Finds StorageT.index sgraph.now self.now state result }
    {
        match find_message(sgraph, &self.messages, state) {
            Some(message) => Some(message.text.as_str()),
            None => None,
        }
    }
}

/// The first message for the state, if there is one.
pub(crate) fn find_message<'m, StorageT: StorageIndex>(
    sgraph: &StateGraph<StorageT>,
    messages: &'m [Message<StorageT>],
    state: StIdx<StorageT>,
) -> Option<&'m Message<StorageT>>
    ensures { FindsEntry StorageT.index sgraph.now messages.now state result }
{
    for message in messages {
        if have_same_kernel(sgraph, message.state, state) {
            return Some(message);
        }
    }
    None
}
