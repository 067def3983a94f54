//! What comes of a case, as lines.
use crate::fault::Fault;
use lrpar_grammar::span::Span;
use std::alloc::Global;
use std::fmt;

/// What comes of a case, as far as it is written. A failed allocation is kept until the end, so that no call that writes has an error
/// of its own ("Errors are values", The Go Blog, 2015).
#[derive(Drop)]
pub struct Printed {
    text: String,
    is_whole: bool,
}

impl Printed {
    /// Nothing so far.
    pub fn new(alloc: Global) -> Printed {
        Printed {
            text: String::new(alloc),
            is_whole: true,
        }
    }

    /// What is written so far.
    pub fn so_far(&self) -> &str {
        self.text.as_str()
    }

    /// Notes that an allocation failed.
    pub fn lack_memory(&mut self) {
        self.is_whole = false;
    }

    /// Writes a text.
    pub fn text(&mut self, text: &str) {
        if self.text.push_str(text).is_err() {
            self.is_whole = false;
        }
    }

    /// Writes a value by `Display`.
    pub fn show<T: fmt::Display>(&mut self, value: &T) {
        if write!(self.text, "{value}").is_err() {
            self.is_whole = false;
        }
    }

    /// Writes a value by `Debug`.
    pub fn debug<T: fmt::Debug>(&mut self, value: &T) {
        if write!(self.text, "{value:?}").is_err() {
            self.is_whole = false;
        }
    }

    /// Writes a text and a number.
    pub fn number(&mut self, text: &str, number: usize) {
        self.text(text);
        self.show(&number);
    }

    /// Writes a text, the two ends of a span, and the end of the line.
    pub fn span_line(&mut self, text: &str, span: Span) {
        self.number(text, span.start());
        self.line("..", &span.end());
    }

    /// Writes two texts.
    pub fn texts(&mut self, first: &str, second: &str) {
        self.text(first);
        self.text(second);
    }

    /// Writes a text between two of these signs.
    pub fn push_quoted(&mut self, sign: char, text: &str) {
        self.show(&sign);
        self.text(text);
        self.show(&sign);
    }

    /// Writes a text, a value by `Display`, and the end of the line.
    pub fn line<T: fmt::Display>(&mut self, text: &str, value: &T) {
        self.text(text);
        self.show(value);
        self.text("\n");
    }

    /// Writes the text of another one.
    pub fn append(&mut self, other: &Printed) {
        self.text(other.so_far());
        self.is_whole &= other.is_whole;
    }

    /// Whether two have the same text. If an allocation failed in one of them, that is noted.
    pub fn agree(&mut self, first: &Printed, second: &Printed) -> bool {
        self.is_whole &= first.is_whole && second.is_whole;
        first.so_far() == second.so_far()
    }

    /// Writes a text that came, under its key: nothing if it is empty; as lines of text if it ends in a line feed; else beside the
    /// key, with escapes.
    pub fn field(&mut self, key: &str, text: &str) {
        if text.is_empty() {
            return;
        }
        match text.strip_suffix('\n') {
            Some(lines) => self.lines(key, lines),
            None => self.beside(key, text),
        }
    }

    /// Writes the lines of a text below its key.
    pub fn lines(&mut self, key: &str, lines: &str) {
        self.text(key);
        for line in lines.split('\n') {
            self.texts("\n|", line);
        }
        self.text("\n");
    }

    // Writes a text of one line beside its key.
    fn beside(&mut self, key: &str, text: &str) {
        self.texts(key, " ");
        for c in text.chars() {
            match c {
                '\n' => self.text("\\n"),
                '\r' => self.text("\\r"),
                '\t' => self.text("\\t"),
                '\\' => self.text("\\\\"),
                c => self.show(&c),
            }
        }
        self.text("\n");
    }

    /// What is written, unless an allocation failed.
    pub fn end(self) -> Result<String, Fault> {
        if self.is_whole {
            Ok(self.text)
        } else {
            Err(Fault::Memory)
        }
    }
}
