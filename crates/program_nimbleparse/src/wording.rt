//! What messages call tokens and rules.
use crate::messages::FileMessages;
use crate::plan::Plan;
use lrpar_names::Names;
use lrpar_report_fixes::Wording;
use std::alloc::{AllocError, Global};

/// What messages call tokens and rules, by a messages file and by the rules of the lexer, and its messages.
pub(crate) fn wording_of(
    alloc: Global,
    plan: &Plan<'_>,
    file: Option<FileMessages>,
) -> Result<Wording<u32>, AllocError> {
    let grm = plan.data().grm();
    let (names, messages) = match file {
        Some(file) => {
            let (names, messages) = file.into_parts();
            (names, Some(messages))
        }
        None => (Names::new(alloc, grm)?, None),
    };
    let texts = plan.files.texts(alloc, grm)?;
    let avoided = Vec::from_slice(alloc, &plan.table.avoided)?;
    let wording = Wording::new(alloc, grm, names, texts)?.avoided(avoided);
    let wording = match messages {
        Some(messages) => wording.messages(messages),
        None => wording,
    };
    let wording = match plan.table.hidden {
        Some(token) => wording.hidden(token),
        None => wording,
    };
    Ok(match plan.unmatched() {
        Some(token) => wording.unmatched(token),
        None => wording,
    })
}
