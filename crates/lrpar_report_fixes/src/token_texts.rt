//! The texts of tokens.
use lrpar_grammar::grammar::YaccGrammar;
use lrpar_grammar::span::{StorageIndex, TIdx};
use std::alloc::{AllocError, Global};

/// The texts of those tokens that always have the same text, such as `;` or `while`. A fix can insert these.
pub struct TokenTexts {
    texts: Vec<Option<String>>,
}

// Hand-written, so that code that drops texts needs the proof of one call only.
impl Drop for TokenTexts {
    fn drop(self) {
        let TokenTexts { texts } = self;
        drop(texts);
    }
}

impl TokenTexts {
    /// No token of the grammar has a text. Takes memory for each token. `Err`: out of memory.
    pub fn new<StorageT: StorageIndex>(
        alloc: Global,
        grm: &YaccGrammar<StorageT>,
    ) -> Result<Self, AllocError> {
        let count = grm.tokens_len();
        let mut texts = Vec::with_capacity(alloc, count)?;
        for _ in 0..count {
            texts.push(None)?;
        }
        Ok(TokenTexts { texts })
    }

    /// Gives the token this text, in place of one that it has. A token that the grammar doesn't have gets none. `Err`: out of memory; the
    /// texts are as they were.
    pub fn set<StorageT: StorageIndex>(
        &mut self,
        alloc: Global,
        token: TIdx<StorageT>,
        text: &str,
    ) -> Result<(), AllocError> {
        let text = String::from_str(alloc, text)?;
        if let Some(slot) = self.texts.get_mut(usize::from(token)) {
            *slot = Some(text);
        }
        Ok(())
    }

    /// The text of the token, if it always has the same one.
    pub fn get<StorageT: StorageIndex>(&self, token: TIdx<StorageT>) -> Option<&str> {
        match self.texts.get(usize::from(token)) {
            Some(Some(text)) => Some(text.as_str()),
            Some(None) | None => None,
        }
    }
}
