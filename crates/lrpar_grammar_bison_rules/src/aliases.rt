//! Texts that are names of tokens.
ghost use Rattle.std.specs.Prelude.{◌≡◌, IfOk, map};
ghost use Rattle.lrpar_grammar_bison_rules.specs.Aliases.{IsNewAlias, alias_of, first_aliases, is_predefined};

use lrpar_grammar_bison::words::Word;
use std::alloc::{AllocError, Global};
use std::collections::BTreeMap;

/// A token and its text.
#[derive(Clone, Copy, Debug)]
pub struct Alias<'a> {
    pub token: Word<'a>,
    pub text: Word<'a>,
}

// The texts that are names of tokens: each token has one, and each text is that of one token, so of several the first counts. Takes
// logarithmic time for each.
pub(crate) fn first_aliases<'a>(
    alloc: Global,
    aliases: &[Alias<'a>],
) -> Result<Vec<Alias<'a>>, AllocError>
    ensures { IfOk result (λ first. map alias_of first.items ≡ first_aliases (map alias_of aliases.now)) }
{
    let mut first = Vec::new(alloc);
    let mut tokens = BTreeMap::new(alloc);
    let mut texts = BTreeMap::new(alloc);
    for alias in aliases {
        if is_new(alias, &tokens, &texts) {
            first.push(*alias)?;
            tokens.insert(alias.text.name, alias.token)?;
            texts.insert(alias.token.name, alias.text)?;
        }
    }
    Ok(first)
}

// Whether the token has no text yet, and the text is no other token's, by maps of tokens by texts and of texts by tokens.
fn is_new<'a>(
    alias: &Alias<'a>,
    tokens: &BTreeMap<&'a str, Word<'a>>,
    texts: &BTreeMap<&'a str, Word<'a>>,
) -> bool
    ensures { IsNewAlias tokens.now texts.now alias.now result }
{
    !is_predefined(alias.token.name)
        && (!tokens.contains_key(alias.text.name) && !texts.contains_key(alias.token.name))
}

/// Whether this is the name of a token that needs no declaration. Such a token has a text of bison's own.
pub fn is_predefined(name: &str) -> bool
    ensures { result ≡ is_predefined name.now }
{
    name == "error" || name == "YYUNDEF"
}
