//! What reports call tokens and rules.
use crate::expected::choices_after;
use crate::token_texts::TokenTexts;
use lrpar_grammar::grammar::YaccGrammar;
use lrpar_grammar::span::{RIdx, StorageIndex, TIdx};
use lrpar_messages::Messages;
use lrpar_names::{Choices, FirstTokens, Names, push_choices};
use lrpar_report::push_quoted;
use lrpar_table::check::ParserData;
use std::alloc::{AllocError, Global};

/// What reports of parse errors call the tokens and rules of a grammar, and which tokens their fixes insert.
pub struct Wording<StorageT: StorageIndex> {
    pub(crate) names: Names,
    pub(crate) texts: TokenTexts,
    first: FirstTokens,
    pub(crate) unmatched: Option<TIdx<StorageT>>,
    hidden: Option<TIdx<StorageT>>,
    avoided: Vec<TIdx<StorageT>>,
    pub(crate) messages: Option<Messages<StorageT>>,
}

// Hand-written, so that code that drops words needs the proof of one call only.
impl<StorageT: StorageIndex> Drop for Wording<StorageT> {
    fn drop(self) {
        let Wording {
            names,
            texts,
            first,
            unmatched: _,
            hidden: _,
            avoided,
            messages,
        } = self;
        drop(names);
        drop(texts);
        drop(first);
        drop(avoided);
        drop(messages);
    }
}

impl<StorageT: StorageIndex> Wording<StorageT> {
    /// The words by these names and these texts of tokens. A token that has neither a name among these nor a printed text (`%epp`) is called by
    /// its text. Takes time and memory linear in the grammar's First sets and in the names. `Err`: out of memory.
    pub fn new(
        alloc: Global,
        grm: &YaccGrammar<StorageT>,
        names: Names,
        texts: TokenTexts,
    ) -> Result<Self, AllocError> {
        let mut names = names;
        name_by_texts(alloc, grm, &texts, &mut names)?;
        Ok(Wording {
            names,
            texts,
            first: FirstTokens::new(alloc, grm)?,
            unmatched: None,
            hidden: None,
            avoided: Vec::new(alloc),
            messages: None,
        })
    }

    /// The words with the token of text that no rule of the lexer takes. Its lexemes are reported as unknown text, and no fix inserts one.
    pub fn unmatched(mut self, token: TIdx<StorageT>) -> Self {
        self.unmatched = Some(token);
        self
    }

    /// The words with a token that no report names and no fix inserts, such as `error` of bison's files.
    pub fn hidden(mut self, token: TIdx<StorageT>) -> Self {
        self.hidden = Some(token);
        self
    }

    /// The words with tokens that a fix inserts only where nothing else is as likely, such as those after `%avoid_insert`.
    pub fn avoided(mut self, tokens: Vec<TIdx<StorageT>>) -> Self {
        self.avoided = tokens;
        self
    }

    /// The words with messages for the errors of a language, in place of those that say what is expected.
    pub fn messages(mut self, messages: Messages<StorageT>) -> Self {
        self.messages = Some(messages);
        self
    }

    /// Adds what may come after these tokens by the table: `expected A, B or C`. Takes the time of a run over the tokens. If one of them can't
    /// be fed, it adds nothing. After an `Err`, which is out of memory, a part may have been added.
    pub fn push_expected(
        &self,
        out: &mut String,
        alloc: Global,
        data: &ParserData<StorageT>,
        before: &[TIdx<StorageT>],
    ) -> Result<(), AllocError> {
        let choices = choices_after(alloc, data, self, before)?;
        push_choices(out, data.grm(), &self.names, &choices)
    }

    /// Adds the tokens: `expected A, B or C`. After an `Err`, which is out of memory, a part may have been added.
    pub fn push_tokens(
        &self,
        out: &mut String,
        alloc: Global,
        grm: &YaccGrammar<StorageT>,
        tokens: &[TIdx<StorageT>],
    ) -> Result<(), AllocError> {
        let choices = Choices {
            rules: Vec::new(alloc),
            tokens: Vec::from_slice(alloc, tokens)?,
        };
        push_choices(out, grm, &self.names, &choices)
    }

    /// Few names for what is expected, where an item goes on with one of these rules.
    pub(crate) fn choices(
        &self,
        alloc: Global,
        rules: &[RIdx<StorageT>],
        expected: &[TIdx<StorageT>],
    ) -> Result<Choices<StorageT>, AllocError> {
        self.first.choose_names(alloc, &self.names, rules, expected)
    }

    /// Whether no fix inserts the token.
    pub(crate) fn is_never_inserted(&self, token: TIdx<StorageT>) -> bool {
        self.hidden == Some(token) || self.unmatched == Some(token)
    }

    /// Whether no report names the token.
    pub(crate) fn is_hidden(&self, token: TIdx<StorageT>) -> bool {
        self.hidden == Some(token)
    }

    /// Whether fixes are to avoid the token.
    pub(crate) fn is_avoided(&self, token: TIdx<StorageT>) -> bool {
        self.avoided.contains(&token)
    }
}

// Names each token by its text, if it has one, and neither a name nor a printed text of its own.
fn name_by_texts<StorageT: StorageIndex>(
    alloc: Global,
    grm: &YaccGrammar<StorageT>,
    texts: &TokenTexts,
    names: &mut Names,
) -> Result<(), AllocError> {
    for token in grm.iter_tidxs() {
        if let Some(text) = texts.get(token) {
            if prints_name(grm, token) {
                let mut name = String::new(alloc);
                push_quoted(&mut name, text)?;
                names.name_token(token, name.as_str())?;
            }
        }
    }
    Ok(())
}

// Whether messages print the token's name.
fn prints_name<StorageT: StorageIndex>(grm: &YaccGrammar<StorageT>, token: TIdx<StorageT>) -> bool {
    usize::from(token) < grm.tokens_len() && grm.token_name(token) == Some(grm.epp_of(token))
}
