//! The texts of files and of standard input.
use lrpar_report::{file_message, text_of};
use program_files::fault::Fault;
use std::alloc::Global;
use std::io::Read;
use std::rt::Files;
use std::{fs, io};

/// The path that means standard input, also in messages.
pub(crate) const STANDARD_INPUT: &str = "-";

/// The text of a file.
pub(crate) fn file_text<R: Files>(rt: &R, alloc: Global, path: &str) -> Result<String, Fault> {
    match file_bytes(rt, alloc, path) {
        Ok(bytes) => text_or_fault(alloc, path, bytes),
        Err(error) => Err(unreadable(alloc, path, &error)),
    }
}

/// The text of standard input.
pub(crate) fn input_text<I: Read + Drop>(alloc: Global, input: I) -> Result<String, Fault> {
    match all_bytes(alloc, input) {
        Ok(bytes) => text_or_fault(alloc, STANDARD_INPUT, bytes),
        Err(error) => Err(unreadable(alloc, STANDARD_INPUT, &error)),
    }
}

// The text of these bytes of a file.
fn text_or_fault(alloc: Global, path: &str, bytes: Vec<u8>) -> Result<String, Fault> {
    match text_of(alloc, path, bytes)? {
        Ok(text) => Ok(text),
        Err(message) => Err(Fault::of_message(message)),
    }
}

// The fault of a file that can't be read.
fn unreadable(alloc: Global, path: &str, error: &io::Error) -> Fault {
    if error.kind() == io::ErrorKind::OutOfMemory {
        return Fault::Memory;
    }
    match file_message(alloc, path, error) {
        Ok(message) => Fault::of_message(message),
        Err(_) => Fault::Memory,
    }
}

// The bytes of a file.
fn file_bytes<R: Files>(rt: &R, alloc: Global, path: &str) -> io::Result<Vec<u8>> {
    all_bytes(alloc, fs::open(rt, path)?)
}

// What the reader has.
fn all_bytes<I: Read + Drop>(alloc: Global, mut input: I) -> io::Result<Vec<u8>> {
    let mut bytes = Vec::new(alloc);
    input.read_to_end(&mut bytes)?;
    Ok(bytes)
}
