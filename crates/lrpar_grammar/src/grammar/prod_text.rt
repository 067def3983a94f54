//! The texts of productions.
ghost use Rattle.std.specs.Prelude.{◌≡◌, ◌<◌, IfOk, OnOk, string_bytes};
ghost use Rattle.lrpar_grammar_reader.specs.Symbols.{symbol_of};
ghost use Rattle.lrpar_grammar.specs.ProdText.{prod_text, quote_for, quoted_name, symbol_text};
ghost use Rattle.lrpar_grammar_places.specs.Strings.{Appends};
ghost use Rattle.lrpar_grammar.specs.Stored.{IsDeclaredIn};

use super::value::YaccGrammar;
use lrpar_grammar_places::span::{PIdx, StorageIndex, Symbol};
use std::alloc::{AllocError, Global};

impl<StorageT: StorageIndex> YaccGrammar<StorageT> {
    ghost use Rattle.lrpar_grammar_reader.specs.Grammar.{prods_len};

    /// The text of a production, as `Expr: Expr 'OR' And`: its rule, a colon, and its symbols. A token is in single quotes or, if its
    /// name has one, in double quotes. `prods_spelled` takes such texts. Takes time and memory linear in the text.
    pub fn prod_text(&self, alloc: Global, pidx: PIdx<StorageT>) -> Result<String, AllocError>
        requires { StorageT.index pidx.0 < prods_len self.now }
        ensures { IfOk result (λ text. string_bytes text ≡ prod_text self.now (StorageT.index pidx.0)) }
    {
        let mut text = String::from_str(alloc, self.rule_name_str(self.prod_to_rule(pidx)))?;
        text.push(':')?;
        for symbol in self.declared_symbols(pidx) {
            text.push(' ')?;
            self.push_symbol(&mut text, *symbol)?;
        }
        Ok(text)
    }

    // Appends a rule's name, or a token's name in quotes.
    fn push_symbol(&self, text: &mut String, symbol: Symbol<StorageT>) -> Result<(), AllocError>
        requires { IsDeclaredIn StorageT.index self.now symbol }
        ensures { OnOk result (Appends text.old text.new (symbol_text self.now (symbol_of StorageT.index symbol))) }
    {
        match symbol {
            Symbol::Rule(ridx) => text.push_str(self.rule_name_str(ridx)),
            Symbol::Token(tidx) => match self.token_name(tidx) {
                Some(name) => push_quoted(text, name),
                None => unreachable!(),
            },
        }
    }
}

// Appends the name in quotes.
fn push_quoted(text: &mut String, name: &str) -> Result<(), AllocError>
    ensures { OnOk result (Appends text.old text.new (quoted_name name.now)) }
{
    let quote = quote_for(name);
    text.push(quote)?;
    text.push_str(name)?;
    text.push(quote)
}

// The quote for a name.
fn quote_for(name: &str) -> char
    ensures { result ≡ quote_for name.now }
{
    if name.as_bytes().contains(&b'\'') {
        '"'
    } else {
        '\''
    }
}
