//! The grammar as reports of its table show it.
use crate::rules::LexerRules;
use lrpar_grammar::grammar::YaccGrammar;
use lrpar_grammar::span::TIdx;
use lrpar_grammar_unmatched::declared_parts;
use lrpar_names::{Names, NamesFault};
use lrpar_report_fixes::{TokenTexts, read_token_texts};
use std::alloc::{AllocError, Global};

/// What other files say of a grammar's tokens.
#[derive(Clone, Copy)]
pub(crate) struct TokenFiles<'a> {
    pub(crate) rules: &'a LexerRules,
    /// The text of the lexer's rules.
    pub(crate) lexer: &'a str,
    /// The messages file.
    pub(crate) messages: Option<&'a str>,
}

impl<'a> TokenFiles<'a> {
    /// The texts of those tokens that always have the same one.
    pub(crate) fn texts(
        self,
        alloc: Global,
        grm: &YaccGrammar<u32>,
    ) -> Result<TokenTexts, AllocError> {
        match self.rules {
            LexerRules::Lines(rules) => read_token_texts(alloc, grm, rules.as_slice(), self.lexer),
            LexerRules::States(rules) => read_token_texts(alloc, grm, rules, self.lexer),
        }
    }
}

/// The grammar with other names of tokens: the text that a token always has by the lexer, if it is made of visible characters. A token that the
/// messages file names is printed by that name, and one with a printed text of its own by this text.
pub(crate) fn shown_grammar(
    alloc: Global,
    grm: &YaccGrammar<u32>,
    files: TokenFiles<'_>,
) -> Result<YaccGrammar<u32>, AllocError> {
    let texts = files.texts(alloc, grm)?;
    let names = names_of(alloc, grm, files.messages)?;
    let mut parts = declared_parts(alloc, grm)?;
    for (number, part) in parts.tokens.iter_mut().enumerate() {
        if let Ok(storaget) = u32::try_from(number) {
            let token = TIdx(storaget);
            part.epp = printed(alloc, grm, &names, token)?;
            if let Some(text) = visible_text(&texts, token) {
                part.name = String::from_str(alloc, text)?;
            }
        }
    }
    match YaccGrammar::from_parts(alloc, parts) {
        Ok(shown) => Ok(shown),
        // The parts are those of a grammar, so it was memory that was refused.
        Err(_) => Err(AllocError),
    }
}

// The names of a messages file; none, if there is no such file, or it has a fault.
fn names_of(
    alloc: Global,
    grm: &YaccGrammar<u32>,
    messages: Option<&str>,
) -> Result<Names, AllocError> {
    let Some(text) = messages else {
        return Names::new(alloc, grm);
    };
    match Names::read(alloc, grm, text) {
        Ok(names) => Ok(names),
        Err(NamesFault::Memory) => Err(AllocError),
        Err(_) => Names::new(alloc, grm),
    }
}

// What messages print for a token in place of its name, if they print something else.
fn printed(
    alloc: Global,
    grm: &YaccGrammar<u32>,
    names: &Names,
    token: TIdx<u32>,
) -> Result<Option<String>, AllocError> {
    if let Some(words) = names.token(token) {
        return Ok(Some(String::from_str(alloc, words)?));
    }
    let epp = grm.epp_of(token);
    if usize::from(token) < grm.tokens_len() && grm.token_name(token) != Some(epp) {
        return Ok(Some(String::from_str(alloc, epp)?));
    }
    Ok(None)
}

// The text of the token, if it always has the same one, of visible characters.
fn visible_text(texts: &TokenTexts, token: TIdx<u32>) -> Option<&str> {
    let text = texts.get(token)?;
    if text.chars().all(|c| !c.is_whitespace() && !c.is_control()) {
        Some(text)
    } else {
        None
    }
}
