//! The precedences that a `.y` file declares, by names.
ghost use Rattle.std.specs.Prelude.{IfOk, OnOk};
ghost use Rattle.lrpar_table_levels.specs.Declarations.{AddsNames, AreNamePrecedences, HasNamesOf, HasProdsByName, HasTokensByName, AssignsPrecs};
ghost use Rattle.lrpar_table_levels.specs.Levels.{HasNoOtherProds};

use crate::filled::empty_slots;
use crate::precedences::add_last_tokens;
use lrpar_grammar::grammar::YaccGrammar;
use lrpar_grammar::span::StorageIndex;
use lrpar_grammar_words::words::Word;
use lrpar_grammar_yacc::declarations::{Declarations, Level, Prec};
use lrpar_table_precedence::precedence::Precedence;
use lrpar_table_precedence::precedences::Precedences;
use std::alloc::{AllocError, Global};
use std::collections::BTreeMap;

/// The precedences that a `.y` file declares for its grammar by `%left`, `%right`, `%nonassoc` and `%prec`.
///
/// A token has the precedence of its name. A production has that of the name after its `%prec`, which is none if no level has the
/// name; without a `%prec`, it has that of its last token. Others have none.
///
/// Fails only if an allocation fails. Takes memory linear in the grammar and the declarations, and time linear in them but for
/// names: each is looked up in logarithmic time.
pub fn precedences_of_declarations<StorageT: StorageIndex>(
    alloc: Global,
    grm: &YaccGrammar<StorageT>,
    declarations: &Declarations<'_>,
) -> Result<Precedences, AllocError>
    ensures tokens { IfOk result (HasTokensByName grm.now declarations.now) }
    ensures prods { IfOk result (HasProdsByName grm.now declarations.now) }
    ensures others { IfOk result (HasNoOtherProds grm.now) }
{
    let names = names_of_levels(alloc, &declarations.levels)?;
    let tokens = tokens_by_name(alloc, grm, &names)?;
    let mut prods = empty_slots(alloc, grm.prods_len())?;
    add_last_tokens(grm, &tokens, &mut prods);
    assign_precs(&mut prods, &declarations.precs, &names);
    Ok(Precedences::from_slots(tokens, prods))
}

// The names of the levels, each with its precedence. Of equal names the first counts.
fn names_of_levels<'a>(
    alloc: Global,
    levels: &[Level<'a>],
) -> Result<BTreeMap<&'a str, Precedence>, AllocError>
    ensures { IfOk result (HasNamesOf levels.now) }
{
    let mut names = BTreeMap::new(alloc);
    for number in 0..levels.len() {
        let level = &levels[number];
        let precedence = Precedence {
            level: number,
            kind: level.kind,
        };
        add_names(&mut names, &level.names, precedence)?;
    }
    Ok(names)
}

// Adds names with their precedence, but those that are there.
fn add_names<'a>(
    names: &mut BTreeMap<&'a str, Precedence>,
    words: &[Word<'a>],
    precedence: Precedence,
) -> Result<(), AllocError>
    ensures { OnOk result (AddsNames words.now precedence names.old names.new) }
{
    for word in words {
        if !names.contains_key(word.name) {
            names.insert(word.name, precedence)?;
        }
    }
    Ok(())
}

// The precedence of each token but the end token.
fn tokens_by_name<StorageT: StorageIndex>(
    alloc: Global,
    grm: &YaccGrammar<StorageT>,
    names: &BTreeMap<&str, Precedence>,
) -> Result<Vec<Option<Precedence>>, AllocError>
    ensures { IfOk result (AreNamePrecedences grm.now names.now) }
{
    let named = grm.tokens_map(alloc)?;
    let mut tokens = Vec::with_capacity(alloc, named.len())?;
    for (name, _) in &named {
        tokens.push(names.get(*name).copied())?;
    }
    Ok(tokens)
}

// Gives each production with a `%prec` the precedence of its name. Of two for one production the first counts.
fn assign_precs(
    prods: &mut [Option<Precedence>],
    precs: &[Prec<'_>],
    names: &BTreeMap<&str, Precedence>,
)
    ensures { AssignsPrecs names.now precs.now prods.old prods.new }
{
    let mut left = precs.len();
    while left > 0 {
        left -= 1;
        let Prec { prod, name } = precs[left];
        if prod < prods.len() {
            prods[prod] = names.get(name.name).copied();
        }
    }
}
