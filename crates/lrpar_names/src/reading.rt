//! The names of a messages file.
ghost use Rattle.std.specs.Prelude.{◌≡◌};
ghost use Rattle.lrpar_names.specs.Faults.{Gives};
ghost use Rattle.lrpar_names.specs.Messages as spec;
ghost use Rattle.lrpar_names.specs.Messages.{Adds, FindsRule, FindsSymbol, read_names};
ghost use Rattle.lrpar_names.specs.Parts.{plain};

use crate::entry::entry_of;
use crate::fault::NamesFault;
use crate::names::Names;
use crate::part::Part;
use lrpar_grammar::grammar::YaccGrammar;
use lrpar_grammar_places::span::{RIdx, StorageIndex, Symbol};
use std::alloc::Global;

impl Names {
    /// The names of a messages file, for the rules and tokens of the grammar. Each line `NAME: WORDS` names one, as in
    /// `Expr: an expression`. The file ends at a line `%%`, or where the text ends. Blank lines say nothing, nor do lines that begin with
    /// `//`.
    ///
    /// NAME is the name of a rule or a token in the grammar. If both have it, the rule is meant. It ends at the first colon. In single or in
    /// double quotes, which aren't part of it, it ends at the next such quote, so `':': a colon` names the token `:`. The added rule can't
    /// be named, so `^` is a token. WORDS is the rest of the line. Spaces, tabs and carriage returns around NAME, WORDS and a line are
    /// ignored, but not those between quotes.
    ///
    /// Fails with the first fault of the text. In a line it is the first of these that holds: `Unread`, `Unknown`, `Repeated`, `Empty`.
    /// Fails with `Memory` if an allocation fails. Takes time linear in the text, and for each line linear in the number of rules and
    /// tokens.
    pub fn read<StorageT: StorageIndex>(
        alloc: Global,
        grm: &YaccGrammar<StorageT>,
        text: &str,
    ) -> Result<Names, NamesFault>
        ensures { Gives (read_names grm.now text.now) result }
    {
        let mut names = Names::new(alloc, grm)?;
        let mut left = Some(Part::whole(text));
        'lines: while let Some(part) = left {
            let (line, rest) = part.cut('\n');
            let core = line.trimmed();
            if is_end_sign(core) {
                return Ok(names);
            }
            add_line(grm, &mut names, core)?;
            left = rest;
        }
        Ok(names)
    }
}

// Whether the line ends the file.
fn is_end_sign(line: Part) -> bool
    ensures { result ≡ spec.is_end_sign (plain line.entry) }
{
    line.text == "%%"
}

// Adds what a line says. A line with nothing says nothing, nor does a comment.
fn add_line<StorageT: StorageIndex>(
    grm: &YaccGrammar<StorageT>,
    names: &mut Names,
    line: Part,
) -> Result<(), NamesFault>
    ensures { Adds grm.now names.old line.entry names.new result }
{
    if line.text.is_empty() || line.is_comment() {
        return Ok(());
    }
    let entry = match entry_of(line) {
        Ok(entry) => entry,
        Err(fault) => return Err(fault),
    };
    let Some(symbol) = symbol_named(grm, entry.name.text) else {
        return Err(NamesFault::Unknown(entry.name.span()));
    };
    if names.has_words(symbol) {
        return Err(NamesFault::Repeated(entry.name.span()));
    }
    if entry.words.text.is_empty() {
        return Err(NamesFault::Empty(line.span()));
    }
    names.name_symbol(symbol, entry.words.text)?;
    Ok(())
}

// The rule with this name, or else the token.
fn symbol_named<StorageT: StorageIndex>(
    grm: &YaccGrammar<StorageT>,
    name: &str,
) -> Option<Symbol<StorageT>>
    ensures { FindsSymbol StorageT.index grm.now name.now result }
{
    match rule_named(grm, name) {
        Some(rule) => Some(Symbol::Rule(rule)),
        None => Some(Symbol::Token(grm.token_idx(name)?)),
    }
}

// The first rule with this name, but for the added one.
fn rule_named<StorageT: StorageIndex>(
    grm: &YaccGrammar<StorageT>,
    name: &str,
) -> Option<RIdx<StorageT>>
    ensures { FindsRule StorageT.index grm.now name.now result }
{
    'rules: for number in 1..grm.rules_len() {
        let rule = RIdx(StorageT::from_index(number).unwrap());
        if grm.rule_name_str(rule) == name {
            return Some(rule);
        }
    }
    None
}
