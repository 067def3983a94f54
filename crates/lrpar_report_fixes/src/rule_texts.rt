//! Texts of tokens, by the lines of a lexer's rules.
use crate::patterns::plain_text;
use crate::token_texts::TokenTexts;
use lrpar_grammar::grammar::YaccGrammar;
use lrpar_grammar::span::{Span, TIdx};
use lrpar_lexer::{LexRules, NoToken, TextLexer, Token};
use lrpar_parse_lexemes::lex_api::{Lexeme, Lexer};
use std::alloc::{AllocError, Global};

/// Texts that seem to be those of tokens.
struct Guesses {
    /// The texts, a line each.
    text: String,
    /// The token of each, and its place in the text above.
    places: Vec<(TIdx<u32>, Span)>,
    /// How many rules give each token.
    counts: Vec<usize>,
}

// Hand-written, so that code that drops guesses needs the proof of one call only.
impl Drop for Guesses {
    fn drop(self) {
        let Guesses {
            text,
            places,
            counts,
        } = self;
        drop(text);
        drop(places);
        drop(counts);
    }
}

/// The texts of those tokens that one rule of the lexer gives, if its pattern is a plain text, and if the rules indeed lex it as that token.
/// `text` are the rules as a text, either with a rule on each line or as a `.l` file.
///
/// Takes time linear in that text, and that of lexing the patterns. `Err`: out of memory.
pub fn read_token_texts<R: LexRules<u32>>(
    alloc: Global,
    grm: &YaccGrammar<u32>,
    rules: R,
    text: &str,
) -> Result<TokenTexts, AllocError> {
    let guesses = guesses_of(alloc, grm, text)?;
    let lexer = TextLexer::new(alloc, rules, guesses.text.as_str())?;
    let answers = lexer.with_unmatched(grm.eof_token_idx()).iter(alloc)?;
    let mut texts = TokenTexts::new(alloc, grm)?;
    for answer in &answers {
        if let Ok(lexeme) = answer {
            set_text(alloc, &guesses, lexeme, &mut texts)?;
        }
    }
    Ok(texts)
}

// Gives a token its text, if a guess is this lexeme.
fn set_text(
    alloc: Global,
    guesses: &Guesses,
    lexeme: &Token<u32>,
    texts: &mut TokenTexts,
) -> Result<(), AllocError> {
    let span = lexeme.span();
    let at = guesses
        .places
        .partition_point(|place| place.1.start() < span.start());
    let Some((token, place)) = guesses.places.get(at) else {
        return Ok(());
    };
    let is_only = guesses.counts.get(usize::from(*token)) == Some(&1);
    if !is_only || *place != span || TIdx(lexeme.tok_id()) != *token {
        return Ok(());
    }
    let text = guesses.text.get(span.start()..span.end()).unwrap_or("");
    texts.set(alloc, *token, text)
}

// The tokens that lines name whose patterns are plain texts.
fn guesses_of(alloc: Global, grm: &YaccGrammar<u32>, text: &str) -> Result<Guesses, AllocError> {
    let mut guesses = Guesses {
        text: String::new(alloc),
        places: Vec::new(alloc),
        counts: vec![in alloc; 0usize; grm.tokens_len()]?,
    };
    for line in text.split('\n') {
        if let Some((pattern, name)) = parts_of(line) {
            if let Some(token) = grm.token_idx(name) {
                push_guess(alloc, &mut guesses, token, pattern)?;
            }
        }
    }
    Ok(guesses)
}

// Adds what a line with this pattern and token says.
fn push_guess(
    alloc: Global,
    guesses: &mut Guesses,
    token: TIdx<u32>,
    pattern: &str,
) -> Result<(), AllocError> {
    if let Some(count) = guesses.counts.get_mut(usize::from(token)) {
        *count = count.saturating_add(1);
    }
    let Some(text) = plain_text(alloc, pattern)? else {
        return Ok(());
    };
    let start = guesses.text.len();
    guesses.text.push_str(text.as_str())?;
    let end = guesses.text.len();
    guesses.text.push('\n')?;
    guesses.places.push((token, Span::new(start, end)))?;
    Ok(())
}

// The pattern of a line, and the name of its token in quotes, if it has one.
fn parts_of(line: &str) -> Option<(&str, &str)> {
    let line = line.trim();
    let (front, name) = match line.chars().next_back()? {
        '\'' => line.strip_suffix('\'')?.rsplit_once('\'')?,
        '"' => line.strip_suffix('"')?.rsplit_once('"')?,
        _ => return None,
    };
    Some((without_states(front.trim()), name))
}

// The pattern of a line of a `.l` file without its start states.
fn without_states(pattern: &str) -> &str {
    match pattern.strip_prefix('<') {
        Some(rest) => match rest.split_once('>') {
            Some((states, pattern)) if !states.is_empty() && !pattern.is_empty() => pattern,
            Some(_) | None => pattern,
        },
        None => pattern,
    }
}
