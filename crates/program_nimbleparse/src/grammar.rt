//! The grammar of a file and its table, or why there is none.
ghost use Rattle.lrpar_table_rows.specs.Safe.{IsSafe};

use crate::conflicts::push_conflicts;
use crate::counts::{Counts, counts_of};
use crate::declared::Declared;
use crate::expects::{expect, expects_conflicts, has_expected};
use crate::kind::GrammarKind;
use crate::printer::{MessageForm, Printer};
use crate::program::Terminal;
use crate::show::{fault_of_report, push_reports, write_messages};
use crate::shown::{TokenFiles, shown_grammar};
use crate::source::Source;
use crate::states::push_states;
use crate::unmatched::{Unmatched, table_grammar};
use crate::useless::useless_reports;
use lrpar_grammar::grammar::YaccGrammar;
use lrpar_grammar::span::TIdx;
use lrpar_report::{Level, Report, build_report, chain_report};
use lrpar_report_bison::bison_warnings;
use lrpar_table::build::BuildFault;
use lrpar_table::check::{CheckFault, ParserData, Refused};
use lrpar_table::table::{StateGraph, StateTable};
use lrpar_table_options::{Minimiser, TableOptions};
use program_files::fault::Fault;
use std::alloc::{AllocError, Global};
use std::io::Write;

/// The cap with which tables are checked. It's the largest one, so a table that is refused with it passes with none.
const CAP: u16 = u16::MAX;

/// What is asked of a grammar file.
#[derive(Clone, Copy)]
pub struct Asked {
    /// The kind of the file; if it isn't named, it is found.
    pub kind: Option<GrammarKind>,
    /// Whether errors alone are printed.
    pub is_quiet: bool,
    /// Whether the states of the table are printed.
    pub shows_states: bool,
    /// Whether more is said of the table.
    pub is_verbose: bool,
    /// Whether its item sets are merged.
    pub minimiser: Minimiser,
    /// How many states it may have.
    pub max_states: usize,
    /// The form of messages.
    pub form: MessageForm,
    /// Whether the grammar is looked at alone. Then tokens that are of no use are warned of, too, and its states are what was asked for, so
    /// they go to standard output.
    pub is_looked_at: bool,
}

/// A grammar file, and what is asked of it.
#[derive(Clone, Copy)]
pub(crate) struct GrammarFile<'a> {
    pub(crate) path: &'a str,
    pub(crate) text: &'a str,
    pub(crate) asked: Asked,
    pub(crate) terminal: Terminal,
}

impl<'a> GrammarFile<'a> {
    /// What messages about the file need.
    pub(crate) fn printer(self, alloc: Global) -> Result<Printer<'a>, AllocError> {
        let form = self.asked.form;
        Printer::new(alloc, self.text, self.path, form, self.terminal.look)
    }
}

/// The checked table of a grammar, and what is known of its file.
pub struct GrammarTable {
    pub data: ParserData<u32>,
    /// The token of text that no line of the lexer takes, if the table's grammar has one.
    pub unmatched: Option<Unmatched>,
    /// The tokens that repairs are to avoid.
    pub avoided: Vec<TIdx<u32>>,
    /// The token that no lexer gives, no message names and no repair is to insert, if there is one.
    pub hidden: Option<TIdx<u32>>,
    /// Whether the file declares precedences.
    pub has_precedences: bool,
    /// How many conflicts are left.
    pub(crate) counts: Counts,
    /// Whether the file says how many conflicts it expects.
    pub expects_conflicts: bool,
    /// Whether something is warned of, or would be if the program weren't to be quiet.
    pub has_warnings: bool,
}

// Hand-written, so that code that drops one needs the proof of one call only.
impl Drop for GrammarTable {
    fn drop(self) {
        let GrammarTable {
            data,
            unmatched,
            avoided,
            hidden: _,
            has_precedences: _,
            counts: _,
            expects_conflicts: _,
            has_warnings: _,
        } = self;
        drop(data);
        drop(unmatched);
        drop(avoided);
    }
}

impl GrammarTable {
    /// The grammar of the file.
    pub fn file_grm(&self) -> &YaccGrammar<u32> {
        match &self.unmatched {
            Some(unmatched) => &unmatched.file_grm,
            None => self.data.grm(),
        }
    }
}

/// The checked table of a grammar file of this source. A line says that it is built, if the terminal is to show that. Warns of what is of no use,
/// and of conflicts, unless the program is to be quiet. A table with another number of conflicts than the file expects is refused. What is
/// said of the table calls tokens as these files do, if there are any.
pub(crate) fn make_table<O: Write, E: Write>(
    alloc: Global,
    file: GrammarFile<'_>,
    printer: &Printer<'_>,
    source: Source<'_>,
    files: Option<TokenFiles<'_>>,
    out: &mut O,
    err: &mut E,
) -> Result<GrammarTable, Fault> {
    let asked = file.asked;
    if file.terminal.shows_progress && !asked.is_quiet {
        write_messages(out, err, "nimbleparse: building the table ..\n")?;
    }
    let Source { grammar, declared } = source;
    let warnings = warnings_of(alloc, file.text, &grammar, &declared, asked)?;
    let (grammar, unmatched) = grammar_of_table(alloc, grammar, asked)?;
    let notes = Notes {
        printer,
        declared: &declared,
        warnings: &warnings,
        asked,
        files,
    };
    let (data, counts) = build_data(alloc, grammar, notes, out, err)?;
    let has_warnings = !warnings.is_empty() || !has_expected(&declared, counts);
    Ok(GrammarTable {
        data,
        unmatched,
        avoided: Vec::from_slice(alloc, &declared.avoided)?,
        hidden: declared.hidden,
        has_precedences: declared.has_precedences,
        counts,
        expects_conflicts: expects_conflicts(&declared),
        has_warnings,
    })
}

// The grammar of the table, with a token for unmatched text, unless the grammar is looked at alone.
fn grammar_of_table(
    alloc: Global,
    grm: YaccGrammar<u32>,
    asked: Asked,
) -> Result<(YaccGrammar<u32>, Option<Unmatched>), AllocError> {
    if asked.is_looked_at {
        Ok((grm, None))
    } else {
        table_grammar(alloc, grm)
    }
}

// Warnings of what is of no use, and before them, if the grammar is looked at, those of bison about its file.
fn warnings_of(
    alloc: Global,
    text: &str,
    grm: &YaccGrammar<u32>,
    declared: &Declared<'_>,
    asked: Asked,
) -> Result<Vec<Report>, AllocError> {
    let mut warnings = if asked.is_looked_at && declared.is_bison {
        bison_warnings(alloc, text)?
    } else {
        Vec::new(alloc)
    };
    for report in useless_reports(alloc, grm, declared, asked.is_looked_at)? {
        warnings.push(report)?;
    }
    Ok(warnings)
}

// What notes about a table are made of, beside the table.
#[derive(Clone, Copy)]
struct Notes<'a> {
    printer: &'a Printer<'a>,
    declared: &'a Declared<'a>,
    warnings: &'a [Report],
    asked: Asked,
    // What other files say of tokens.
    files: Option<TokenFiles<'a>>,
}

impl<'a> Notes<'a> {
    // The grammar as notes show it, if that isn't the grammar itself.
    fn shown_grammar(
        self,
        alloc: Global,
        grm: &YaccGrammar<u32>,
    ) -> Result<Option<YaccGrammar<u32>>, AllocError> {
        match self.files {
            Some(files) => Ok(Some(shown_grammar(alloc, grm, files)?)),
            None => Ok(None),
        }
    }
}

// A table that was built, its grammar, and its item sets.
#[derive(Clone, Copy)]
struct Built<'a> {
    grm: &'a YaccGrammar<u32>,
    sgraph: &'a StateGraph<u32>,
    stable: &'a StateTable<u32>,
    counts: Counts,
}

// The checked table of a grammar whose conflicts are resolved by the precedences that its file declares, if it declares any.
fn build_data<O: Write, E: Write>(
    alloc: Global,
    grm: YaccGrammar<u32>,
    notes: Notes<'_>,
    out: &mut O,
    err: &mut E,
) -> Result<(ParserData<u32>, Counts), Fault> {
    let Notes {
        declared,
        asked,
        ..
    } = notes;
    let options = TableOptions::new()
        .precedences(&declared.precedences)
        .minimiser(asked.minimiser)
        .max_states(asked.max_states);
    match options.state_table(alloc, &grm) {
        Ok((sgraph, stable)) => {
            let counts = counts_of(alloc, declared, &stable)?;
            let built = Built {
                grm: &grm,
                sgraph: &sgraph,
                stable: &stable,
                counts,
            };
            write_notes(alloc, built, notes, out, err)?;
            expect(alloc, notes.printer, declared, counts)?;
            let data = check_chains(alloc, grm, sgraph, stable, notes)?;
            Ok((data, counts))
        }
        Err(fault) => Err(fault_of_build(alloc, &grm, &fault, notes)),
    }
}

// Writes the warnings and those of conflicts, and the states of the table if they are asked for; or nothing, if the program is to
// be quiet.
fn write_notes<O: Write, E: Write>(
    alloc: Global,
    built: Built<'_>,
    notes: Notes<'_>,
    out: &mut O,
    err: &mut E,
) -> Result<(), Fault> {
    if notes.asked.is_quiet {
        return Ok(());
    }
    let shows_tokens = notes.asked.shows_states || built.stable.conflicts().is_some();
    let shown = if shows_tokens {
        notes.shown_grammar(alloc, built.grm)?
    } else {
        None
    };
    let built = match &shown {
        Some(grm) => Built { grm, ..built },
        None => built,
    };
    let text = notes_of(alloc, built, notes)?;
    write_messages(out, err, text.as_str())?;
    if notes.asked.shows_states {
        write_states(alloc, built, notes, out, err)?;
    }
    Ok(())
}

// The warnings, and those of conflicts, unless these are what the file expects.
fn notes_of(alloc: Global, built: Built<'_>, notes: Notes<'_>) -> Result<String, AllocError> {
    let Notes {
        printer,
        declared,
        ..
    } = notes;
    let mut text = String::new(alloc);
    push_reports(&mut text, alloc, printer, notes.warnings)?;
    if declared.is_glr {
        push_reports(&mut text, alloc, printer, &[glr_note(alloc)?])?;
    }
    if !has_expected(declared, built.counts) {
        let precedences = &declared.precedences;
        let max_states = notes.asked.max_states;
        push_conflicts(
            &mut text,
            alloc,
            printer,
            built.grm,
            precedences,
            built.stable,
            max_states,
        )?;
    }
    Ok(text)
}

// The note of a file for a GLR parser.
fn glr_note(alloc: Global) -> Result<Report, AllocError> {
    let text = "an ambiguous text gets the tree that the resolution of conflicts picks, not all";
    Report::new(alloc, Level::Note, text)
}

// Writes the states of the table: to standard output if the grammar is looked at, and to standard error otherwise.
fn write_states<O: Write, E: Write>(
    alloc: Global,
    built: Built<'_>,
    notes: Notes<'_>,
    out: &mut O,
    err: &mut E,
) -> Result<(), Fault> {
    let mut text = String::new(alloc);
    push_states(&mut text, built.grm, built.sgraph, built.stable)?;
    if notes.asked.is_looked_at {
        out.write_all(text.as_bytes())?;
        return Ok(());
    }
    let mut shown = String::new(alloc);
    let printer = notes.printer;
    printer.push_text(&mut shown, alloc, "states of the table", text.as_str())?;
    write_messages(out, err, shown.as_str())
}

// Checks the chains of reductions of a table, and returns it.
fn check_chains(
    alloc: Global,
    grm: YaccGrammar<u32>,
    sgraph: StateGraph<u32>,
    stable: StateTable<u32>,
    notes: Notes<'_>,
) -> Result<ParserData<u32>, Fault>
    requires { IsSafe grm sgraph stable }
{
    match ParserData::of_safe(alloc, grm, sgraph, stable, CAP) {
        Ok(data) => Ok(data),
        Err(refused) => Err(fault_of_chain(alloc, refused, notes)),
    }
}

// The fault of a grammar that has no table.
fn fault_of_build(
    alloc: Global,
    grm: &YaccGrammar<u32>,
    fault: &BuildFault,
    notes: Notes<'_>,
) -> Fault {
    let report = build_report(alloc, grm, fault, notes.asked.max_states);
    fault_of_report(alloc, notes.printer, report)
}

// The fault of a table with a chain of reductions that is too long for any cap.
fn fault_of_chain(alloc: Global, refused: Refused<u32>, notes: Notes<'_>) -> Fault {
    let CheckFault::ChainTooLong(state, token) = refused.fault() else {
        return Fault::Memory;
    };
    let (grm, _, _) = refused.into_parts();
    let report = report_of_chain(alloc, &grm, state, token, notes);
    fault_of_report(alloc, notes.printer, report)
}

// The report of a chain of reductions that is too long for any cap.
fn report_of_chain(
    alloc: Global,
    grm: &YaccGrammar<u32>,
    state: usize,
    token: usize,
    notes: Notes<'_>,
) -> Result<Report, AllocError> {
    match notes.shown_grammar(alloc, grm)? {
        Some(shown) => chain_report(alloc, &shown, state, token, CAP),
        None => chain_report(alloc, grm, state, token, CAP),
    }
}
