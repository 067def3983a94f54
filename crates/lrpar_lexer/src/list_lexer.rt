//! A lexer over a list of lexemes and errors.
ghost use Rattle.std.specs.Prelude.{◌≡◌, All, IfOk, IfErr};
ghost use Rattle.std.specs.Str.{IsCharBoundary};
ghost use Rattle.lrpar_grammar_places.specs.Lines.{column_of, line_of, line_table};
ghost use Rattle.lrpar_lexer.specs.ListPlaces.{FitsText, IsListFault};
ghost use Rattle.lrpar_lexer.specs.TextParts.{IsEmptyOutside, IsPartAt};

use crate::list_fault::ListFault;
use crate::list_places::first_misplaced;
use crate::parts::part_of;
use crate::token::{NoToken, Token, TokenTypes};
use lrpar_grammar_places::lines::NewlineCache;
use lrpar_grammar_places::span::{Span, StorageIndex};
use lrpar_parse_lexemes::{InputLexer, Lexeme, Lexer, NonStreamingLexer};
use std::alloc::{AllocError, Global};

/// A lexer that gives a list of lexemes and errors, which its caller made of a text or which `lexed` of another lexer found.
#[derive(Drop)]
pub struct ListLexer<'input, StorageT = u32> {
    answers: Vec<Result<Token<StorageT>, NoToken>>,
    input: &'input str,
    lines: NewlineCache,
    ghost lines_of_input: { lines ≡ line_table input.now },
}

impl<'input, StorageT: StorageIndex> ListLexer<'input, StorageT> {
    /// The lexer that gives this list for this text: `Ok` for each lexeme, and `Err` for each part of the text that no token fits. Each
    /// must start and end in the text, each time between two characters; otherwise the fault is the first one that doesn't, by its place in
    /// the list. The list is dropped with any fault. Takes time linear in the list and the text, and memory for each line of the text.
    pub fn new(
        alloc: Global,
        input: &'input str,
        answers: Vec<Result<Token<StorageT>, NoToken>>,
    ) -> Result<Self, ListFault>
        ensures answers { IfOk result (λ lexer. lexer.answers.items ≡ answers.items) }
        ensures input { IfOk result (λ lexer. lexer.input.now ≡ input.now) }
        ensures fit { IfOk result (λ _. All (FitsText input.now) answers.items) }
        ensures fault { IfErr result (IsListFault input.now answers.items) }
    {
        if let Some(place) = first_misplaced(input, &answers) {
            return Err(ListFault::Misplaced(place));
        }
        Ok(ListLexer::over(alloc, input, answers)?)
    }

    /// The lexer that gives this list for this text, without a look at its places, for a list that a lexer of this text gave. Takes time
    /// linear in the text, and memory for each of its lines.
    pub fn over(
        alloc: Global,
        input: &'input str,
        answers: Vec<Result<Token<StorageT>, NoToken>>,
    ) -> Result<Self, AllocError>
        ensures answers { IfOk result (λ lexer. lexer.answers.items ≡ answers.items) }
        ensures input { IfOk result (λ lexer. lexer.input.now ≡ input.now) }
    {
        let lines = NewlineCache::new(alloc, input)?;
        Ok(ListLexer {
            answers,
            input,
            lines,
        })
    }

    /// The lexeme's part of the text. It is empty if the lexeme doesn't start and end in the text, each between two characters.
    pub fn text(&self, lexeme: &Token<StorageT>) -> &'input str
        ensures part { IsPartAt self.now.input.now lexeme.now.span result.now }
        ensures outside { IsEmptyOutside self.now.input.now lexeme.now.span result.now }
    {
        part_of(self.input, lexeme.span())
    }

    // The line and the column of a byte.
    fn position(&self, byte: usize) -> (usize, usize)
        requires { IsCharBoundary self.now.input.now byte }
        ensures line { result.0 ≡ line_of self.now.input.now byte }
        ensures column { result.1 ≡ column_of self.now.input.now byte }
    {
        self.lines
            .byte_to_line_num_and_col_num(self.input, byte)
            .unwrap()
    }
}

impl<'input, StorageT: StorageIndex> Lexer<TokenTypes<StorageT>> for ListLexer<'input, StorageT> {
    ghost allows = { λ lexer given. given ≡ lexer.answers.items };

    fn iter(&self, alloc: Global) -> Result<Vec<Result<Token<StorageT>, NoToken>>, AllocError> {
        Vec::from_slice(alloc, &self.answers)
    }
}

impl<'input, StorageT: StorageIndex> NonStreamingLexer<'input, TokenTypes<StorageT>>
    for ListLexer<'input, StorageT> {
    ghost text = { λ lexer. lexer.input.now };

    fn span_str(&self, span: Span) -> &'input str {
        &self.input[span.start()..span.end()]
    }

    fn span_lines_str(&self, span: Span) -> &'input str {
        let (start, end) = self.lines.span_line_bytes(span);
        &self.input[start..end]
    }

    fn line_col(&self, span: Span) -> ((usize, usize), (usize, usize)) {
        (self.position(span.start()), self.position(span.end()))
    }
}

impl<'input, StorageT: StorageIndex> InputLexer<'input, TokenTypes<StorageT>>
    for ListLexer<'input, StorageT> {
    fn input(&self) -> &'input str {
        self.input
    }
}
