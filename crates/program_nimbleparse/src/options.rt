//! What the words after the program's name ask for.
use crate::code::CodeTask;
use crate::command::{
    CHECK, CHECK_ERRORS, CRATE, FORMAT, FORMATS, FORMS, GRAMMAR, INPUT, INPUT_OPTIONS, KIND, KINDS,
    LEXER, LIMIT, LIST_ERRORS, MAX_STATES, MESSAGES, MESSAGES_FORMAT, MINIMISER, MINIMISERS,
    PossibleValues, QUIET, REPAIRS, RUST, SEARCHES, SHIFTS, STATES, Search, VERBOSE, command_line,
    meaning_of,
};
use crate::grammar::{Asked, GrammarFile};
use crate::plan::{Format, Recovery};
use crate::printer::MessageForm;
use crate::program::Terminal;
use clap::error::ErrorKind;
use clap::parser::ValueSource;
use clap::{ArgMatches, Error};
use lrpar_table_options::Minimiser;
use program_files::fault::{Fault, Misuse};
use std::alloc::{AllocError, Global};

/// What is wrong with words without a path.
const NO_PATH: &str = "the following required arguments were not provided: <GRAMMAR>";

/// What is wrong with inputs where none is parsed.
const NO_INPUT: &str = "no input is read with --list-errors and --check-errors";

/// What is wrong with a lexer where code is made.
const NO_LEXER: &str = "--rust needs a grammar alone";

/// What is wrong with options about code without it.
const CHECK_WITHOUT_RUST: &str = "--check needs --rust";

const CRATE_WITHOUT_RUST: &str = "--crate needs --rust";

/// What the words ask for.
#[derive(Drop)]
pub(crate) enum Request<'a> {
    /// This help text.
    Help(String),
    /// A look at a grammar alone.
    LookAt(GrammarOptions<'a>),
    /// The code of a grammar.
    Code(GrammarOptions<'a>, CodeTask, Option<&'a str>),
    /// A parse of inputs.
    Parse(Options<'a>),
}

/// Which grammar is to be looked at, and how.
#[derive(Clone, Copy)]
pub(crate) struct GrammarOptions<'a> {
    pub(crate) grammar: &'a str,
    pub(crate) asked: Asked,
}

impl<'a> GrammarOptions<'a> {
    /// The file, whose text this is, and what is asked of it.
    pub(crate) fn file(self, text: &'a str, terminal: Terminal) -> GrammarFile<'a> {
        GrammarFile {
            path: self.grammar,
            text,
            asked: self.asked,
            terminal,
        }
    }
}

/// What is to be done with a lexer and a grammar.
#[derive(Clone, Copy, Debug, PartialEq, Eq)]
pub(crate) enum Task {
    /// Parse inputs.
    Parse,
    /// Print the errors that a text can have.
    ListErrors,
    /// Check that a messages file has a message for each of them.
    CheckErrors,
}

/// How inputs are to be parsed.
#[derive(Drop)]
pub(crate) struct Options<'a> {
    /// What is asked of the grammar.
    pub(crate) asked: Asked,
    pub(crate) recovery: Recovery,
    /// How many lexemes have to follow a repair.
    pub(crate) shifts: Option<usize>,
    pub(crate) format: Format,
    /// The rules of the lexer.
    pub(crate) lexer: &'a str,
    pub(crate) grammar: &'a str,
    pub(crate) task: Task,
    /// The messages file.
    pub(crate) messages: Option<&'a str>,
    /// The inputs, `-` being standard input. There is at least one.
    pub(crate) inputs: Vec<&'a str>,
}

/// What these words ask for. A fault about them names the word.
pub(crate) fn request_of<'a>(
    alloc: Global,
    args: &'a [String],
    values: &'a PossibleValues<'a>,
) -> Result<Request<'a>, Fault> {
    let command = command_line(alloc, values)?;
    match command.try_get_matches_from(args) {
        Ok(matches) => request_by(alloc, &matches),
        Err(error) => match error.kind() {
            ErrorKind::OutOfMemory => Err(Fault::Memory),
            ErrorKind::DisplayHelp => Ok(Request::Help(format!(in alloc; "{error}")?)),
            _ => Err(Fault::Words(message_of(alloc, &error)?)),
        },
    }
}

// What the words ask for in which this was found. What has a default is found. A single path is that of a grammar.
fn request_by<'a>(alloc: Global, matches: &ArgMatches<'a>) -> Result<Request<'a>, Fault> {
    let Some(first) = matches.get_str(LEXER) else {
        return Err(Fault::Words(String::from_str(alloc, NO_PATH)?));
    };
    if let Some(text) = code_misuse(matches) {
        return Err(Fault::Words(String::from_str(alloc, text)?));
    }
    match matches.get_str(GRAMMAR) {
        Some(grammar) => Ok(Request::Parse(options_of(alloc, matches, first, grammar)?)),
        None => Ok(look_or_code(matches, grammar_options(alloc, matches, first)?)),
    }
}

// What is wrong with words about code, if something is.
fn code_misuse(matches: &ArgMatches<'_>) -> Option<&'static str> {
    if matches.get_flag(RUST) {
        matches.get_str(GRAMMAR).map(|_| NO_LEXER)
    } else if matches.get_flag(CHECK) {
        Some(CHECK_WITHOUT_RUST)
    } else {
        matches.get_str(CRATE).map(|_| CRATE_WITHOUT_RUST)
    }
}

// A look at a grammar, or its code.
fn look_or_code<'a>(matches: &ArgMatches<'a>, options: GrammarOptions<'a>) -> Request<'a> {
    if !matches.get_flag(RUST) {
        return Request::LookAt(options);
    }
    let task = if matches.get_flag(CHECK) {
        CodeTask::Check
    } else {
        CodeTask::Write
    };
    Request::Code(options, task, matches.get_str(CRATE))
}

// How the grammar at this path is to be looked at. An option about lexers or inputs is refused.
fn grammar_options<'a>(
    alloc: Global,
    matches: &ArgMatches<'a>,
    grammar: &'a str,
) -> Result<GrammarOptions<'a>, Fault> {
    match INPUT_OPTIONS.iter().find(|(id, _)| is_given(matches, id)) {
        Some((_, word)) => {
            let text = format!(in alloc;
                "{word} needs a lexer: a single path is that of a grammar"
            )?;
            Err(Fault::Words(text))
        }
        None => Ok(GrammarOptions {
            grammar,
            asked: asked_of(matches, true),
        }),
    }
}

// How inputs are to be parsed by the lexer and the grammar at these paths.
fn options_of<'a>(
    alloc: Global,
    matches: &ArgMatches<'a>,
    lexer: &'a str,
    grammar: &'a str,
) -> Result<Options<'a>, Fault> {
    let recovery = recovery_of(matches)?;
    let inputs = inputs_of(alloc, matches)?;
    let task = task_of(matches);
    if task != Task::Parse && is_given(matches, INPUT) {
        return Err(Fault::Words(String::from_str(alloc, NO_INPUT)?));
    }
    Ok(Options {
        asked: asked_of(matches, task != Task::Parse),
        recovery,
        shifts: matches.get_one::<usize>(SHIFTS),
        format: meaning_of(matches, FORMAT, &FORMATS).unwrap_or(Format::Brackets),
        lexer,
        grammar,
        task,
        messages: match matches.get_str(CHECK_ERRORS) {
            Some(path) => Some(path),
            None => matches.get_str(MESSAGES),
        },
        inputs,
    })
}

// What is to be done.
fn task_of(matches: &ArgMatches<'_>) -> Task {
    if matches.get_str(CHECK_ERRORS).is_some() {
        Task::CheckErrors
    } else if matches.get_flag(LIST_ERRORS) {
        Task::ListErrors
    } else {
        Task::Parse
    }
}

// What is asked of a grammar that is only looked at, or not.
fn asked_of(matches: &ArgMatches<'_>, is_looked_at: bool) -> Asked {
    Asked {
        kind: meaning_of(matches, KIND, &KINDS),
        is_quiet: matches.get_flag(QUIET),
        shows_states: matches.get_flag(STATES),
        is_verbose: matches.get_flag(VERBOSE),
        minimiser: meaning_of(matches, MINIMISER, &MINIMISERS).unwrap_or(Minimiser::Pager),
        max_states: matches.get_one::<usize>(MAX_STATES).unwrap_or(usize::MAX),
        form: meaning_of(matches, MESSAGES_FORMAT, &FORMS).unwrap_or(MessageForm::Text),
        is_looked_at,
    }
}

// The paths of the inputs.
fn inputs_of<'a>(alloc: Global, matches: &ArgMatches<'a>) -> Result<Vec<&'a str>, AllocError> {
    let mut inputs = Vec::new(alloc);
    for input in matches.get_strs(INPUT).unwrap_or(&[]) {
        inputs.push(*input)?;
    }
    Ok(inputs)
}

// Which repairs are looked for. A limit needs a search that it limits.
fn recovery_of(matches: &ArgMatches<'_>) -> Result<Recovery, Fault> {
    let limit = matches.get_one::<usize>(LIMIT).unwrap_or(0);
    match meaning_of(matches, REPAIRS, &SEARCHES) {
        Some(Search::Cheapest) => Ok(Recovery::Cheapest { limit }),
        Some(Search::Nothing) if is_given(matches, LIMIT) => {
            Err(Fault::Usage(Misuse::LimitAlone))
        }
        Some(Search::Nothing) => Ok(Recovery::Nothing),
        Some(Search::Complete) | None => Ok(Recovery::Complete { limit }),
    }
}

// Whether the words have a value, so that it isn't the default.
fn is_given(matches: &ArgMatches<'_>, id: &str) -> bool {
    matches.value_source(id) == Some(ValueSource::CommandLine)
}

// What is wrong with the words, on one line: clap's text without the usage.
fn message_of(alloc: Global, error: &Error) -> Result<String, AllocError> {
    let text = format!(in alloc; "{error}")?;
    let mut message = String::new(alloc);
    for line in text.as_str().split('\n') {
        if line.starts_with("Usage: ") || line.starts_with("For more information") {
            break;
        }
        push_line(&mut message, line)?;
    }
    Ok(message)
}

// Adds a line of clap's text to the message.
fn push_line(message: &mut String, line: &str) -> Result<(), AllocError> {
    if let Some(text) = line.strip_prefix("error: ") {
        message.push_str(text)
    } else if let Some(tip) = line.strip_prefix("  tip: ") {
        message.push_str("; ")?;
        message.push_str(tip)
    } else if line.is_empty() {
        Ok(())
    } else {
        message.push_str(" ")?;
        message.push_str(line.trim())
    }
}
