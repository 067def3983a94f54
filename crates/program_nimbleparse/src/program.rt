//! The whole program: it reads its words, a grammar, a lexer and inputs, and writes trees to standard output and messages to standard
//! error.
ghost use Rattle.std.specs.Prelude.{◌≤◌};

use crate::catalogue::{Catalogue, check_errors, list_errors};
use crate::code::{CodeTask, run_code};
use crate::command::PossibleValues;
use crate::completer::Completer;
use crate::fault_line::FaultLine;
use crate::grammar::{GrammarFile, GrammarTable, make_table};
use crate::inputs::{STANDARD_INPUT, file_text, input_text};
use crate::look::look_at;
use crate::messages::{FileMessages, read_messages, read_names};
use crate::options::{GrammarOptions, Options, Request, Task, request_of};
use crate::parse::{Input, Repairs, parse};
use crate::plan::{Plan, Recovery};
use crate::printer::Printer;
use crate::recoverers::Searches;
use crate::rules::{LexerRules, lexer_rules};
use crate::show::{with_label_text, write_messages};
use crate::shown::TokenFiles;
use crate::sizes::{push_sizes, push_table};
use crate::source::{Source, source_of};
use lrpar_grammar::grammar::YaccGrammar;
use lrpar_report::{Level, Look, Report, token_warnings};
use lrpar_table::check::ParserData;
use lrpar_table_options::Minimiser;
use program_files::fault::{Fault, Misuse};
use program_files::streams::{Status, exit_status, flush_answer, words};
use std::alloc::{AllocError, Global};
use std::env;
use std::io::{BufWriter, IsTerminal, Read, Write};
use std::rt::Files;

/// What is known of the terminal that messages are written to.
#[derive(Clone, Copy, Debug, PartialEq, Eq)]
pub struct Terminal {
    /// Whether messages have colours.
    pub look: Look,
    /// Whether a line says what the program does before something that can take long.
    pub shows_progress: bool,
}

/// Runs the program on the process's own arguments and streams, and returns its exit status, as [`run`] does. An argument that isn't
/// UTF-8 is a wrong one. Messages have colours if standard error is a terminal, and `NO_COLOR` isn't set or is empty.
pub fn run_of_process(rt: &HostRuntime) -> u8
    ensures status { result ≤ 2 }
{
    match words(rt) {
        Ok(args) => run(
            rt,
            rt.alloc(),
            &args,
            terminal_of(rt),
            rt.stdin(),
            rt.stdout(),
            rt.stderr(),
        ),
        Err(error) => exit_status(
            Err(FaultLine(Fault::of_arguments(&error))),
            &mut rt.stderr(),
        ),
    }
}

/// Runs the program and returns its exit status: 0 if each input has a tree and no error, 1 if one has errors, 2 if there is no answer. Of
/// a grammar alone it is 0 if nothing is warned of, and 1 otherwise. `args` are the words after the program's name, and `rt` reads the
/// files that they name.
///
/// Trees are written to `out`, and messages to `err`: errors, and unless the words ask for errors alone, warnings and a note of how large
/// the grammar and its table are. Of a grammar alone it is `out` that gets how large they are. A failure of `err` is ignored. `out` is
/// buffered: it is flushed before something is written to `err`, and at the end.
pub fn run<R: Files, I: Read + Drop, O: Write + Drop, E: Write + Drop>(
    rt: &R,
    alloc: Global,
    args: &[String],
    terminal: Terminal,
    input: I,
    out: O,
    mut err: E,
) -> u8
    ensures status { result ≤ 2 }
{
    let ending = run_buffered(rt, alloc, args, terminal, input, out, &mut err);
    exit_status(ending.map_err(FaultLine), &mut err)
}

// What is known of the terminal.
fn terminal_of(rt: &HostRuntime) -> Terminal {
    let is_terminal = rt.stderr().is_terminal();
    Terminal {
        look: if is_terminal && may_colour(rt) {
            Look::Coloured
        } else {
            Look::Plain
        },
        shows_progress: is_terminal,
    }
}

// Whether `NO_COLOR` isn't set or is empty (<https://no-color.org>).
fn may_colour(rt: &HostRuntime) -> bool {
    match env::var(rt, "NO_COLOR") {
        Ok(text) => text.is_empty(),
        Err(error) => error == env::VarError::NotPresent,
    }
}

// Runs the program over a buffered `out`, and returns how it ends after `out` is flushed.
fn run_buffered<R: Files, I: Read + Drop, O: Write + Drop, E: Write>(
    rt: &R,
    alloc: Global,
    args: &[String],
    terminal: Terminal,
    input: I,
    out: O,
    err: &mut E,
) -> Result<Status, Fault> {
    match BufWriter::new(alloc, out) {
        Ok(mut out) => {
            let status = run_words(rt, alloc, args, terminal, input, &mut out, err);
            flush_answer(status, out)
        }
        Err(_) => Err(Fault::Memory),
    }
}

// Does what the words ask for, and returns how the program ends.
fn run_words<R: Files, I: Read + Drop, O: Write, E: Write>(
    rt: &R,
    alloc: Global,
    args: &[String],
    terminal: Terminal,
    input: I,
    out: &mut O,
    err: &mut E,
) -> Result<Status, Fault> {
    let values = PossibleValues::new();
    match request_of(alloc, args, &values)? {
        Request::Help(text) => print_help(text.as_str(), out),
        Request::LookAt(options) => look_at_file(rt, alloc, options, terminal, out, err),
        Request::Code(options, task, name) => {
            make_code(rt, alloc, options, task, name, terminal, out)
        }
        Request::Parse(options) => run_files(rt, alloc, &options, terminal, input, out, err),
    }
}

// Prints the help text.
fn print_help<O: Write>(text: &str, out: &mut O) -> Result<Status, Fault> {
    out.write_all(text.as_bytes())?;
    Ok(Status::Success)
}

// Reads the grammar that the options name, and looks at it.
fn look_at_file<R: Files, O: Write, E: Write>(
    rt: &R,
    alloc: Global,
    options: GrammarOptions<'_>,
    terminal: Terminal,
    out: &mut O,
    err: &mut E,
) -> Result<Status, Fault> {
    let text = file_text(rt, alloc, options.grammar)?;
    look_at(alloc, options.file(text.as_str(), terminal), out, err)
}

// Reads the grammar that the options name, and writes its code.
fn make_code<R: Files, O: Write>(
    rt: &R,
    alloc: Global,
    options: GrammarOptions<'_>,
    task: CodeTask,
    name: Option<&str>,
    terminal: Terminal,
    out: &mut O,
) -> Result<Status, Fault> {
    let text = file_text(rt, alloc, options.grammar)?;
    let file = options.file(text.as_str(), terminal);
    run_code(rt, alloc, file, task, name, out)
}

// Reads the files that the options name, and does what these ask for.
fn run_files<R: Files, I: Read + Drop, O: Write, E: Write>(
    rt: &R,
    alloc: Global,
    options: &Options<'_>,
    terminal: Terminal,
    input: I,
    out: &mut O,
    err: &mut E,
) -> Result<Status, Fault> {
    let grammar = file_text(rt, alloc, options.grammar)?;
    let lexer = file_text(rt, alloc, options.lexer)?;
    let messages = match options.messages {
        Some(path) => Some(file_text(rt, alloc, path)?),
        None => None,
    };
    let work = Work {
        options,
        terminal,
        grammar: grammar.as_str(),
        lexer: lexer.as_str(),
        messages: messages.as_ref().map(|text| text.as_str()),
    };
    run_work(rt, alloc, work, input, out, err)
}

// What the words ask for, and the texts of the files that they name.
#[derive(Clone, Copy)]
struct Work<'a> {
    options: &'a Options<'a>,
    terminal: Terminal,
    grammar: &'a str,
    lexer: &'a str,
    messages: Option<&'a str>,
}

impl<'a> Work<'a> {
    // The grammar file, and what is asked of it.
    fn grammar_file(self) -> GrammarFile<'a> {
        GrammarFile {
            path: self.options.grammar,
            text: self.grammar,
            asked: self.options.asked,
            terminal: self.terminal,
        }
    }

    // What messages about a text need.
    fn printer(
        self,
        alloc: Global,
        text: &'a str,
        path: &'a str,
    ) -> Result<Printer<'a>, AllocError> {
        let form = self.options.asked.form;
        Printer::new(alloc, text, path, form, self.terminal.look)
    }

    // What is said of tokens beside the grammar.
    fn token_files(self, rules: &'a LexerRules) -> TokenFiles<'a> {
        TokenFiles {
            rules,
            lexer: self.lexer,
            messages: self.messages,
        }
    }

    // How inputs are parsed and trees are printed.
    fn plan(self, table: &'a GrammarTable, rules: &'a LexerRules) -> Plan<'a> {
        Plan {
            grammar: self.grammar_file(),
            table,
            files: self.token_files(rules),
            shifts: self.options.shifts,
            recovery: self.options.recovery,
            format: self.options.format,
            is_quiet: self.options.asked.is_quiet,
            shows_paths: self.options.inputs.len() > 1,
            look: self.terminal.look,
        }
    }
}

// Reads the grammar and the lexer's rules, makes the table, and does the task over them. A fault of the grammar or of its table comes before
// one of the lexer.
fn run_work<R: Files, I: Read + Drop, O: Write, E: Write>(
    rt: &R,
    alloc: Global,
    work: Work<'_>,
    input: I,
    out: &mut O,
    err: &mut E,
) -> Result<Status, Fault> {
    let file = work.grammar_file();
    let printer = file.printer(alloc)?;
    let source = source_of(alloc, &printer, file.text, file.asked.kind)?;
    match rules_of_lexer(alloc, work, &source.grammar) {
        Ok(rules) => run_with_rules(rt, alloc, work, &printer, source, &rules, input, out, err),
        Err(Fault::Memory) => Err(Fault::Memory),
        Err(fault) => {
            drop(make_table(alloc, file, &printer, source, None, out, err)?);
            Err(fault)
        }
    }
}

// Makes the table of a grammar, and does the task over it and the lexer's rules.
fn run_with_rules<'a, R: Files, I: Read + Drop, O: Write, E: Write>(
    rt: &R,
    alloc: Global,
    work: Work<'a>,
    printer: &Printer<'_>,
    source: Source<'_>,
    rules: &'a LexerRules,
    input: I,
    out: &mut O,
    err: &mut E,
) -> Result<Status, Fault> {
    let file = work.grammar_file();
    let files = work.token_files(rules);
    let table = make_table(alloc, file, printer, source, Some(files), out, err)?;
    run_task(rt, alloc, work, &table, rules, input, out, err)
}

// Does the task over the table and the lexer's rules.
fn run_task<R: Files, I: Read + Drop, O: Write, E: Write>(
    rt: &R,
    alloc: Global,
    work: Work<'_>,
    table: &GrammarTable,
    rules: &LexerRules,
    input: I,
    out: &mut O,
    err: &mut E,
) -> Result<Status, Fault> {
    let messages = file_messages(alloc, work, &table.data)?;
    let catalogue = match (work.options.messages, work.messages) {
        (Some(path), Some(text)) => Some(Catalogue { path, text }),
        (_, None) | (None, _) => None,
    };
    match (work.options.task, catalogue) {
        (Task::ListErrors, _) => list_errors(alloc, &work.plan(table, rules), messages, out),
        (Task::CheckErrors, Some(catalogue)) => {
            check_errors(alloc, &work.plan(table, rules), catalogue, out, err)
        }
        _ => {
            warn(alloc, work, table, rules, out, err)?;
            parse_inputs(rt, alloc, work, table, rules, messages, input, out, err)
        }
    }
}

// The rules of the lexer.
fn rules_of_lexer(
    alloc: Global,
    work: Work<'_>,
    grm: &YaccGrammar<u32>,
) -> Result<LexerRules, Fault> {
    let path = work.options.lexer;
    let printer = work.printer(alloc, work.lexer, path)?;
    lexer_rules(alloc, &printer, grm, work.lexer)
}

// What the messages file says, if there is one. If it is to be checked, these are its names alone.
fn file_messages(
    alloc: Global,
    work: Work<'_>,
    data: &ParserData<u32>,
) -> Result<Option<FileMessages>, Fault> {
    let (Some(path), Some(text)) = (work.options.messages, work.messages) else {
        return Ok(None);
    };
    let printer = work.printer(alloc, text, path)?;
    if work.options.task == Task::CheckErrors {
        drop(read_names(alloc, &printer, data.grm(), text)?);
        return Ok(None);
    }
    Ok(Some(read_messages(alloc, &printer, data, text)?))
}

// Warns of tokens that the lexer never gives, and notes how large the grammar and its table are, unless the program is to be quiet.
fn warn<O: Write, E: Write>(
    alloc: Global,
    work: Work<'_>,
    table: &GrammarTable,
    rules: &LexerRules,
    out: &mut O,
    err: &mut E,
) -> Result<(), Fault> {
    if work.options.asked.is_quiet {
        return Ok(());
    }
    let text = warnings(alloc, work, table, rules)?;
    write_messages(out, err, text.as_str())
}

// The text of the warnings and of the notes.
fn warnings(
    alloc: Global,
    work: Work<'_>,
    table: &GrammarTable,
    rules: &LexerRules,
) -> Result<String, AllocError> {
    let printer = work.grammar_file().printer(alloc)?;
    let mut text = String::new(alloc);
    push_token_warnings(&mut text, alloc, &printer, table.file_grm(), rules)?;
    push_sizes_note(&mut text, alloc, &printer, table)?;
    let asked = work.options.asked;
    if asked.is_verbose {
        push_table_note(&mut text, alloc, &printer, &table.data, asked.minimiser)?;
    }
    Ok(text)
}

// Adds a warning for each token that no rule gives.
fn push_token_warnings(
    out: &mut String,
    alloc: Global,
    printer: &Printer<'_>,
    grm: &YaccGrammar<u32>,
    rules: &LexerRules,
) -> Result<(), AllocError> {
    for report in token_warnings(alloc, grm, rules.rules())? {
        let report = with_label_text(report, "no line of LEXER names this token")?;
        printer.push(out, alloc, &report)?;
    }
    Ok(())
}

// Adds a note of how large the grammar and its table are.
fn push_sizes_note(
    out: &mut String,
    alloc: Global,
    printer: &Printer<'_>,
    table: &GrammarTable,
) -> Result<(), AllocError> {
    let mut text = String::new(alloc);
    push_sizes(&mut text, table)?;
    printer.push(out, alloc, &Report::new(alloc, Level::Note, text.as_str())?)
}

// Adds a note of more about the table.
fn push_table_note(
    out: &mut String,
    alloc: Global,
    printer: &Printer<'_>,
    data: &ParserData<u32>,
    minimiser: Minimiser,
) -> Result<(), AllocError> {
    let mut text = String::new(alloc);
    push_table(&mut text, data, minimiser)?;
    printer.push(out, alloc, &Report::new(alloc, Level::Note, text.as_str())?)
}

// Parses the inputs, prints what comes of them, and returns how that ends. It's a success if each has a tree, and no error.
fn parse_inputs<R: Files, I: Read + Drop, O: Write, E: Write>(
    rt: &R,
    alloc: Global,
    work: Work<'_>,
    table: &GrammarTable,
    rules: &LexerRules,
    messages: Option<FileMessages>,
    input: I,
    out: &mut O,
    err: &mut E,
) -> Result<Status, Fault> {
    let plan = work.plan(table, rules);
    let mut repairs = repairs_of(alloc, &plan, messages)?;
    let mut stdin = Some(input);
    let mut are_clean = true;
    for path in &work.options.inputs {
        let text = read_input(rt, alloc, path, &mut stdin)?;
        let input = Input {
            path,
            text: text.as_str(),
        };
        let is_clean = parse(alloc, &mut repairs, &plan, input, out, err)?;
        are_clean = is_clean && are_clean;
    }
    Ok(Status::of(are_clean))
}

// What repairs the errors of inputs, and what their messages call tokens and rules.
fn repairs_of<'a>(
    alloc: Global,
    plan: &Plan<'a>,
    messages: Option<FileMessages>,
) -> Result<Repairs<'a>, Fault> {
    if plan.shifts == Some(0) {
        return Err(Fault::ZeroShifts);
    }
    let searches = match plan.recovery {
        Recovery::Nothing => None,
        Recovery::Cheapest { limit } | Recovery::Complete { limit } => {
            Some(Searches::new(alloc, limit, plan.table)?)
        }
    };
    let completer = Completer::new(plan.recovery);
    Ok(Repairs {
        searches,
        completer,
        messages,
        wording: None,
    })
}

// The text of an input.
fn read_input<R: Files, I: Read + Drop>(
    rt: &R,
    alloc: Global,
    path: &str,
    input: &mut Option<I>,
) -> Result<String, Fault> {
    if path != STANDARD_INPUT {
        return file_text(rt, alloc, path);
    }
    match input.take() {
        Some(input) => input_text(alloc, input),
        None => Err(Fault::Usage(Misuse::Input)),
    }
}
