//! The texts of files and of standard input.
use crate::fault::Fault;
use std::alloc::Global;
use std::io::Read;
use std::rt::Files;
use std::{fs, io};

/// The text of a file.
pub fn file_text<R: Files>(rt: &R, alloc: Global, path: &str) -> Result<String, Fault> {
    match read_file(rt, alloc, path) {
        Ok(text) => Ok(text),
        Err(error) => Err(Fault::of_file(alloc, path, &error)),
    }
}

/// The text of a file, or no text if there is no path.
pub fn text_if_any<R: Files>(rt: &R, alloc: Global, path: Option<&str>) -> Result<String, Fault> {
    match path {
        Some(path) => file_text(rt, alloc, path),
        None => Ok(String::new(alloc)),
    }
}

/// The text of standard input.
pub fn input_text<I: Read + Drop>(alloc: Global, input: I) -> Result<String, Fault> {
    match io::read_to_string(alloc, input) {
        Ok(text) => Ok(text),
        Err(error) => Err(Fault::of_input(&error)),
    }
}

// The text of a file, or the system's error.
fn read_file<R: Files>(rt: &R, alloc: Global, path: &str) -> io::Result<String> {
    io::read_to_string(alloc, fs::open(rt, path)?)
}
