//! Tokens by name.
ghost use Rattle.std.specs.Prelude.{◌≡◌, ◌≤◌, IfOk, length};
ghost use Rattle.lrpar_grammar.specs.Stored.{HaveNamesOf, HaveNumbersOf, first_named};

use lrpar_grammar_places::span::{StorageIndex, TIdx};
use lrpar_grammar_reader::parts::TokenPart;
use std::alloc::{AllocError, Global};

// The place of the first token with that name.
pub(super) fn first_named(tokens: &[TokenPart], name: &str) -> Option<usize>
    ensures { result ≡ first_named name.now tokens.now }
{
    tokens.iter().position(|token| token.name.as_str() == name)
}

// The name and the number of each token.
pub(super) fn numbered_names<StorageT: StorageIndex>(
    alloc: Global,
    tokens: &[TokenPart],
) -> Result<Vec<(&str, TIdx<StorageT>)>, AllocError>
    requires { length tokens.now ≤ StorageT.limit }
    ensures names { IfOk result (HaveNamesOf tokens.now) }
    ensures numbers { IfOk result (HaveNumbersOf StorageT.index tokens.now) }
{
    let mut pairs = Vec::with_capacity(alloc, tokens.len())?;
    for (number, token) in tokens.iter().enumerate() {
        let tidx = TIdx(StorageT::from_index(number).unwrap());
        pairs.push((token.name.as_str(), tidx))?;
    }
    Ok(pairs)
}
