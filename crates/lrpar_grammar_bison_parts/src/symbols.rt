//! Words of a `.y` file as words of a grammar text.
ghost use Rattle.std.specs.Prelude.{◌≡◌, IfOk};
ghost use Rattle.lrpar_grammar_bison.specs.Words.{placed};
ghost use Rattle.lrpar_grammar_words.specs.Words.{placed as text_placed};
ghost use Rattle.lrpar_grammar_bison_parts.specs.Symbols.{HasAliases, HasTarget, IsSymbolWord, text_kind, text_word};

use lrpar_grammar_bison::words::{Word, WordKind};
use lrpar_grammar_bison_rules::aliases::Alias;
use lrpar_grammar_words::words as text;
use std::alloc::{AllocError, Global};
use std::collections::BTreeMap;

/// The tokens that have a text, by their texts: of two tokens with one text the first.
pub fn alias_map<'a>(
    alloc: Global,
    aliases: &[Alias<'a>],
) -> Result<BTreeMap<&'a str, Word<'a>>, AllocError>
    ensures { IfOk result (HasAliases aliases.now) }
{
    let mut tokens = BTreeMap::new(alloc);
    for alias in aliases {
        if !tokens.contains_key(alias.text.name) {
            tokens.insert(alias.text.name, alias.token)?;
        }
    }
    Ok(tokens)
}

/// The token whose text the word is, if there is one, and otherwise the word.
pub fn target<'a>(word: Word<'a>, aliases: &BTreeMap<&'a str, Word<'a>>) -> Word<'a>
    ensures { HasTarget aliases.now word.entry result }
{
    match aliases.get(word.name) {
        Some(token) => *token,
        None => word,
    }
}

/// The word in a grammar text. Literals keep their quotes.
pub fn text_word<'a>(word: Word<'a>) -> text::Word<'a>
    ensures { text_placed result ≡ text_word (placed word.entry) }
{
    text::Word {
        kind: text_kind(word.kind),
        name: word.name,
        len: word.len,
        end: word.end,
    }
}

/// A symbol of a rule in a grammar text: the token whose text it is, or itself, at its place.
pub fn symbol_word<'a>(word: Word<'a>, aliases: &BTreeMap<&'a str, Word<'a>>) -> text::Word<'a>
    ensures { IsSymbolWord aliases.now word.entry result }
{
    let token = target(word, aliases);
    text::Word {
        kind: text_kind(token.kind),
        name: token.name,
        len: word.len,
        end: word.end,
    }
}

// The kind of a word in a grammar text.
fn text_kind(kind: WordKind) -> text::WordKind
    ensures { result ≡ text_kind kind }
{
    match kind {
        WordKind::Character | WordKind::Text => text::WordKind::Quoted,
        _ => text::WordKind::Name,
    }
}
