//! The parts of the grammar that a text spells.
ghost use Rattle.std.specs.Prelude.{◌≤◌, IfErr, IfOk, OnOk, length};
ghost use Rattle.lrpar_grammar_words.specs.Outline.{outline_of};
ghost use Rattle.lrpar_grammar_reader.specs.Parts.{MakeGrammar};
ghost use Rattle.lrpar_grammar_reader.specs.Spells.{AreDeclaredOnce, HasFault, IsClean, IsGrammarFaultOf, IsOutlineFault};
ghost use Rattle.lrpar_grammar_reader.specs.TextNames.{HasNumbering};
ghost use Rattle.lrpar_grammar_reader.specs.TextParts.{ArePartsOf, AreSpelledBy, HavePlacesIn, RefusesOutline};
ghost use Rattle.lrpar_grammar_reader.specs.TextWords.{AreEppsOf, HasDefinedRules, HasSymbolsInOrder, IsReadFrom};

use crate::parts::{GrammarFault, GrammarParts};
use crate::spelled::{fit, spelled_parts};
use crate::tables::Tables;
use crate::wrong_names::check_names;
use lrpar_grammar_places::span::StorageIndex;
use lrpar_grammar_words::outline::{Outline, OutlineFault};
use std::alloc::Global;

/// The parts of the grammar that the text spells. They make a grammar, and their places fit the text.
///
/// Fails with `Syntax` if the text isn't a grammar text, else with the first of these that holds: `RepeatedStart`,
/// `RepeatedEpp`, `NoRules`, `TokenIsRule`, `UnknownRule`, `UnknownToken`, each at its first place, and
/// `StorageTooSmall`; or with `Memory` if an allocation fails. Takes memory linear in the text, and time linear in it but
/// for names: each of these is looked up in logarithmic time.
pub fn read_parts<StorageT: StorageIndex>(
    alloc: Global,
    text: &str,
) -> Result<GrammarParts<StorageT>, GrammarFault>
    ensures spelled { IfOk result (AreSpelledBy StorageT.index text.now) }
    ensures sound { IfOk result (MakeGrammar StorageT.index StorageT.limit) }
    ensures fits { IfOk result (HavePlacesIn StorageT.index text.now) }
    ensures faulty { IfErr result (IsGrammarFaultOf StorageT.limit text.now) }
{
    let outline = read_outline(alloc, text)?;
    checked_parts(alloc, &outline)
}

// The declarations and rules of the text.
fn read_outline(alloc: Global, text: &str) -> Result<Outline, GrammarFault>
    ensures outline { IfOk result (IsReadFrom text.now) }
    ensures rules { IfOk result HasDefinedRules }
    ensures order { IfOk result HasSymbolsInOrder }
    ensures err { IfErr result (IsOutlineFault text.now) }
{
    match Outline::read(alloc, text) {
        Ok(outline) => Ok(outline),
        Err(OutlineFault::Syntax(place)) => Err(GrammarFault::Syntax(place)),
        Err(OutlineFault::Memory) => Err(GrammarFault::Memory),
    }
}

/// The parts that the declarations and rules spell, if they have no fault. Each alternative must be of a rule that is defined, and its
/// symbols must be in the order of the text.
///
/// Fails as `read_parts` does, but for `Syntax`. Takes memory linear in the outline, and time as `read_parts` does.
pub fn checked_parts<StorageT: StorageIndex>(
    alloc: Global,
    outline: &Outline,
) -> Result<GrammarParts<StorageT>, GrammarFault>
    requires rules { HasDefinedRules outline.now }
    requires order { HasSymbolsInOrder outline.now }
    ensures parts { IfOk result (ArePartsOf StorageT.index StorageT.limit outline.now) }
    ensures err { IfErr result (RefusesOutline StorageT.limit outline.now) }
{
    refuse_second_start(outline)?;
    let tables = Tables::new(alloc, outline)?;
    named_parts(alloc, outline, &tables)
}

// Refuses a second `%start`.
fn refuse_second_start(outline: &Outline) -> Result<(), GrammarFault>
    ensures ok { OnOk result (length (outline_of outline.now).starts ≤ 1) }
    ensures err { IfErr result (HasFault (outline_of outline.now)) }
{
    match outline.starts.get(1) {
        Some(word) => Err(GrammarFault::RepeatedStart(word.span())),
        None => Ok(()),
    }
}

// The parts that the declarations and rules spell, if there is at most one start and no second text for a token.
fn named_parts<StorageT: StorageIndex>(
    alloc: Global,
    outline: &Outline,
    tables: &Tables,
) -> Result<GrammarParts<StorageT>, GrammarFault>
    requires numbering { HasNumbering outline.now tables.now }
    requires epps { AreEppsOf outline.now (tables.now).epps }
    requires once { AreDeclaredOnce (outline_of outline.now) }
    requires rules { HasDefinedRules outline.now }
    requires order { HasSymbolsInOrder outline.now }
    ensures parts { IfOk result (ArePartsOf StorageT.index StorageT.limit outline.now) }
    ensures err { IfErr result (RefusesOutline StorageT.limit outline.now) }
{
    if outline.defined.is_empty() {
        return Err(GrammarFault::NoRules);
    }
    check_names(outline, tables)?;
    fitting_parts(alloc, outline, tables)
}

// The parts that clean declarations and rules spell, if the storage type can number them.
fn fitting_parts<StorageT: StorageIndex>(
    alloc: Global,
    outline: &Outline,
    tables: &Tables,
) -> Result<GrammarParts<StorageT>, GrammarFault>
    requires numbering { HasNumbering outline.now tables.now }
    requires epps { AreEppsOf outline.now (tables.now).epps }
    requires clean { IsClean (outline_of outline.now) }
    requires rules { HasDefinedRules outline.now }
    requires order { HasSymbolsInOrder outline.now }
    ensures parts { IfOk result (ArePartsOf StorageT.index StorageT.limit outline.now) }
    ensures err { IfErr result (RefusesOutline StorageT.limit outline.now) }
{
    if !fit::<StorageT>(outline, tables) {
        return Err(GrammarFault::StorageTooSmall);
    }
    Ok(spelled_parts(alloc, outline, tables)?)
}
