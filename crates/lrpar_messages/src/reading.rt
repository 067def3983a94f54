//! The reader of a catalogue.
ghost use Rattle.std.specs.Prelude.{IfOk};
ghost use Rattle.lrpar_messages.specs.Messages.{AreAllApart, IsNew};

use crate::entry::state_of;
use crate::fault::{MessageFault, MessageFaultKind};
use crate::lines::{Lines, read_entries};
use crate::messages::{Message, find_message};
use lrpar_grammar::span::{Span, StorageIndex};
use lrpar_table_check::check::ParserData;
use std::alloc::{AllocError, Global};

/// The messages of the entries without a fault. Adds the faults of the others.
pub(crate) fn read_all<StorageT: StorageIndex>(
    alloc: Global,
    data: &ParserData<StorageT>,
    text: &str,
    faults: &mut Vec<MessageFault>,
) -> Result<Vec<Message<StorageT>>, AllocError>
    ensures { IfOk result (AreAllApart StorageT.index data.now) }
{
    let mut strays = Vec::new(alloc);
    let entries = read_entries(alloc, text, &mut strays)?;
    for span in &strays {
        push_fault(faults, MessageFaultKind::Stray, *span)?;
    }
    let mut messages = Vec::new(alloc);
    for entry in &entries {
        match message_of(alloc, data, &messages, entry)? {
            Ok(message) => messages.push(message)?,
            Err((kind, span)) => push_fault(faults, kind, span)?,
        }
    }
    Ok(messages)
}

// Adds a fault.
fn push_fault(
    faults: &mut Vec<MessageFault>,
    kind: MessageFaultKind,
    span: Span,
) -> Result<(), AllocError> {
    faults.push(MessageFault::At { kind, span })?;
    Ok(())
}

// The message of an entry, after these messages, or what is wrong with the entry, and where.
fn message_of<StorageT: StorageIndex>(
    alloc: Global,
    data: &ParserData<StorageT>,
    messages: &[Message<StorageT>],
    entry: &Lines<'_>,
) -> Result<Result<Message<StorageT>, (MessageFaultKind, Span)>, AllocError>
    ensures new { IfOk result (IsNew StorageT.index data.now messages.now) }
{
    let line = entry.span;
    let state = match state_of(alloc, data, entry.head)? {
        Ok(state) => state,
        Err(fault) => return Ok(Err((fault.kind, fault.span(line)))),
    };
    match find_message(data.sgraph(), messages, state) {
        Some(other) => {
            let first = other.line;
            return Ok(Err((MessageFaultKind::Repeated { first }, line)));
        }
        None => {}
    }
    if entry.message.is_empty() {
        return Ok(Err((MessageFaultKind::NoMessage, line)));
    }
    Ok(Ok(Message {
        state,
        text: String::from_str(alloc, entry.message.as_str())?,
        line,
    }))
}
