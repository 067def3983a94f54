//! The lexer of a text by rules of some kind.
ghost use Rattle.std.specs.Prelude.{◌≡◌, ℕ, IfOk, List, None, Option, Result, Some};
ghost use Rattle.std.specs.Str.{IsCharBoundary};
ghost use Rattle.lrpar_grammar_places.specs.Lines.{column_of, line_of, line_table};
ghost use Rattle.lrpar_grammar_places.specs.declared.span.TIdx.{TIdx};
ghost use Rattle.lrpar_lexer.specs.TextParts.{IsEmptyOutside, IsPartAt};
ghost use Rattle.lrpar_lexer.specs.declared.token.Token.{Token};
ghost use Rattle.lrpar_lexer.specs.declared.token.NoToken.{NoToken};

use crate::list_lexer::ListLexer;
use crate::parts::part_of;
use crate::token::{NoToken, Token, TokenTypes};
use lrpar_grammar_places::lines::NewlineCache;
use lrpar_grammar_places::span::{Span, StorageIndex, TIdx};
use lrpar_parse_lexemes::{InputLexer, Lexeme, Lexer, NonStreamingLexer};
use std::alloc::{AllocError, Global};

/// Rules by which a `TextLexer` lexes its text: those of `RuleLexer`, those of the `StateLexer` of `lrpar_lexer_lrlex`, or some of your own.
pub trait LexRules<StorageT>: Drop {
    /// The lists of lexemes and errors that the rules may give for a text, with a token for what would be an error or without one.
    ghost gives: { Self → Option (TIdx StorageT) → List ℕ → List (Result (Token StorageT) NoToken) → Type 0 };

    /// The lexemes and errors of the text. With a token in `unmatched`, what would be an error is a lexeme of that token.
    fn lex(
        &self,
        alloc: Global,
        unmatched: Option<TIdx<StorageT>>,
        input: &str,
    ) -> Result<Vec<Result<Token<StorageT>, NoToken>>, AllocError>
        ensures given { IfOk result (λ answers. gives self.now unmatched input.now answers.items) };
}

/// A lexer of a text by rules. `RuleLexer` and the `StateLexer` of `lrpar_lexer_lrlex` are names for it with two kinds of rules, and say
/// what these give for a text.
#[derive(Drop)]
pub struct TextLexer<'input, Rules, StorageT = u32> {
    rules: Rules,
    input: &'input str,
    lines: NewlineCache,
    // the token of what would be an error
    unmatched: Option<TIdx<StorageT>>,
    ghost lines_of_input: { lines ≡ line_table input.now },
}

impl<'input, Rules: LexRules<StorageT>, StorageT: StorageIndex> TextLexer<'input, Rules, StorageT> {
    ghost use Rattle.lrpar_lexer.specs.Lexers.{HasLexemesOf};

    /// The lexer of this text by these rules. Takes time linear in the text, and memory for each of its lines.
    pub fn new(alloc: Global, rules: Rules, input: &'input str) -> Result<Self, AllocError>
        ensures rules { IfOk result (λ lexer. lexer.rules ≡ rules) }
        ensures input { IfOk result (λ lexer. lexer.input.now ≡ input.now) }
        ensures unmatched { IfOk result (λ lexer. lexer.unmatched ≡ None) }
    {
        let lines = NewlineCache::new(alloc, input)?;
        Ok(TextLexer {
            rules,
            input,
            lines,
            unmatched: None,
        })
    }

    /// This lexer, made so that it never gives an error: what would be one is a lexeme of this token, and the lexer goes on after it.
    pub fn with_unmatched(mut self, token: TIdx<StorageT>) -> Self
        ensures rules { result.rules ≡ self.entry.rules }
        ensures input { result.input.now ≡ self.entry.input.now }
        ensures unmatched { result.unmatched ≡ Some token }
    {
        self.unmatched = Some(token);
        self
    }

    /// The lexeme's part of the input. It is empty if the lexeme doesn't start and end in the input, each between two characters.
    pub fn text(&self, lexeme: &Token<StorageT>) -> &'input str
        ensures part { IsPartAt self.now.input.now lexeme.now.span result.now }
        ensures outside { IsEmptyOutside self.now.input.now lexeme.now.span result.now }
    {
        part_of(self.input, lexeme.span())
    }

    /// A lexer over the lexemes and errors that this one gives. They are found here, and only once, so that a parse, `expected` and a
    /// report about one text can share them. Takes memory for the list, and for each line of the text.
    pub fn lexed(&self, alloc: Global) -> Result<ListLexer<'input, StorageT>, AllocError>
        ensures answers { IfOk result (HasLexemesOf Rules.gives self.now) }
        ensures input { IfOk result (λ lexer. lexer.input.now ≡ self.now.input.now) }
    {
        ListLexer::over(alloc, self.input, self.iter(alloc)?)
    }

    // The line and the column of a byte.
    fn position(&self, byte: usize) -> (usize, usize)
        requires { IsCharBoundary self.now.input.now byte }
        ensures line { result.0 ≡ line_of self.now.input.now byte }
        ensures column { result.1 ≡ column_of self.now.input.now byte }
    {
        self.lines
            .byte_to_line_num_and_col_num(self.input, byte)
            .unwrap()
    }
}

impl<'input, Rules: LexRules<StorageT>, StorageT: StorageIndex> Lexer<TokenTypes<StorageT>>
    for TextLexer<'input, Rules, StorageT> {
    ghost use Rattle.lrpar_lexer.specs.Lexers.{LexesInput};

    ghost allows = { λ lexer given. LexesInput Rules.gives lexer given };

    fn iter(&self, alloc: Global) -> Result<Vec<Result<Token<StorageT>, NoToken>>, AllocError> {
        self.rules.lex(alloc, self.unmatched, self.input)
    }
}

impl<'input, Rules: LexRules<StorageT>, StorageT: StorageIndex> NonStreamingLexer<
    'input,
    TokenTypes<StorageT>,
> for TextLexer<'input, Rules, StorageT> {
    ghost text = { λ lexer. lexer.input.now };

    fn span_str(&self, span: Span) -> &'input str {
        &self.input[span.start()..span.end()]
    }

    fn span_lines_str(&self, span: Span) -> &'input str {
        let (start, end) = self.lines.span_line_bytes(span);
        &self.input[start..end]
    }

    fn line_col(&self, span: Span) -> ((usize, usize), (usize, usize)) {
        (self.position(span.start()), self.position(span.end()))
    }
}

impl<'input, Rules: LexRules<StorageT>, StorageT: StorageIndex> InputLexer<
    'input,
    TokenTypes<StorageT>,
> for TextLexer<'input, Rules, StorageT> {
    fn input(&self) -> &'input str {
        self.input
    }
}
