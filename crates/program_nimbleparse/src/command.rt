//! The options and paths of `nimbleparse`, with the texts about them. Its help, its usage line and the table in docs/COMMANDS.md are made
//! of these.
use crate::inputs::STANDARD_INPUT;
use crate::kind::GrammarKind;
use crate::plan::Format;
use crate::printer::MessageForm;
use clap::builder::PossibleValue;
use clap::{Arg, ArgAction, ArgMatches, Command, value_parser};
use lrpar_grammar_yacc::parts::YaccKind;
use lrpar_table_options::Minimiser;
use std::alloc::{AllocError, Global};

/// The names under which a parse of the words has their values.
pub(crate) const QUIET: &str = "quiet";

pub(crate) const STATES: &str = "states";

pub(crate) const VERBOSE: &str = "verbose";

pub(crate) const KIND: &str = "kind";

pub(crate) const MINIMISER: &str = "minimiser";

pub(crate) const MAX_STATES: &str = "max-states";

pub(crate) const REPAIRS: &str = "repairs";

pub(crate) const LIMIT: &str = "limit";

pub(crate) const SHIFTS: &str = "shifts";

pub(crate) const FORMAT: &str = "format";

pub(crate) const MESSAGES: &str = "messages";

pub(crate) const MESSAGES_FORMAT: &str = "messages-format";

pub(crate) const LIST_ERRORS: &str = "list-errors";

pub(crate) const CHECK_ERRORS: &str = "check-errors";

pub(crate) const RUST: &str = "rust";

pub(crate) const CHECK: &str = "check";

pub(crate) const CRATE: &str = "crate";

pub(crate) const LEXER: &str = "lexer";

pub(crate) const GRAMMAR: &str = "grammar";

pub(crate) const INPUT: &str = "input";

/// The options about lexers and inputs, each with the word that it is given by.
pub(crate) const INPUT_OPTIONS: [(&str, &str); 7] = [
    (REPAIRS, "-r"),
    (LIMIT, "--limit"),
    (SHIFTS, "--shifts"),
    (FORMAT, "--format"),
    (MESSAGES, "--messages"),
    (LIST_ERRORS, "--list-errors"),
    (CHECK_ERRORS, "--check-errors"),
];

const ABOUT: &str =
    "Reads the rules of a lexer and a grammar, and parses each input; or looks at a grammar alone, or generates code from it";

const USAGE: &str = "\
nimbleparse [OPTIONS] <LEXER> <GRAMMAR> [INPUT]...
       nimbleparse [OPTIONS] <GRAMMAR>
       nimbleparse --rust [OPTIONS] <GRAMMAR>";

const AFTER_HELP: &str = "\
All words after -- are paths.

Status 0: each input has a tree and no error; 1: an input has errors; 2: there is no result.
Of a grammar alone, 0: nothing is warned of; 1: something is; 2: there is no table.
With --rust, 0: the files are written or up to date; 1: with --check, a file is out of date;
2: there is no code.";

const LONG_HELP_OF_STATES: &str = "\
Print the states of the table: the kernel items of each with their lookaheads, and the states to
which its gotos and shifts lead. With -q it does nothing";

const LONG_HELP_OF_KIND: &str = "\
Read GRAMMAR as a file of this kind. Without the option it is of the kind that the yacckind of its
%grmtools{..} says; else a grammar text, if it can be read as one; else of the kind grmtools, if a
rule has a type; else of the kind original or bison, the first that it can be read as";

const LONG_HELP_OF_LIMIT: &str = "\
Find no repairs at the first error of an input if more than N configurations, a stack and a place
in the input each, can be reached at less cost than the cheapest repairs; and at a later error if
more than N / 64 can be. 0 finds none. With -r none it is an error";

/// Which repairs are searched for.
#[derive(Clone, Copy)]
pub(crate) enum Search {
    Nothing,
    Cheapest,
    Complete,
}

/// A word that an option takes, what it means, and the text about it.
#[derive(Clone, Copy)]
pub(crate) struct Choice<T> {
    name: &'static str,
    meaning: T,
    help: &'static str,
}

impl<T> Choice<T> {
    // The word, as the help shows it.
    fn to_possible_value<'a>(&self) -> PossibleValue<'a> {
        PossibleValue::new(self.name).help(self.help)
    }
}

/// The kinds of grammar files.
pub(crate) const KINDS: [Choice<GrammarKind>; 5] = [
    Choice {
        name: "bison",
        meaning: GrammarKind::Bison,
        help: "A .y file of bison or yacc",
    },
    Choice {
        name: "grmtools",
        meaning: GrammarKind::Yacc(YaccKind::Grmtools),
        help: "A .y file whose rules have types",
    },
    Choice {
        name: "original",
        meaning: GrammarKind::Yacc(YaccKind::Original),
        help: "A .y file of lrpar whose rules have no types",
    },
    Choice {
        name: "profile",
        meaning: GrammarKind::Profile,
        help: "A grammar text: declarations, rules, and nothing else",
    },
    Choice {
        name: "typed",
        meaning: GrammarKind::Typed,
        help: "A typed grammar, from which --rust generates code",
    },
];

/// The ways to merge states.
pub(crate) const MINIMISERS: [Choice<Minimiser>; 2] = [
    Choice {
        name: "pager",
        meaning: Minimiser::Pager,
        help: "Merge states whose lookaheads allow it: a small table",
    },
    Choice {
        name: "canonical",
        meaning: Minimiser::Canonical,
        help: "Merge none: an error is found before any reduction that it rules out",
    },
];

/// The searches for repairs.
pub(crate) const SEARCHES: [Choice<Search>; 3] = [
    Choice {
        name: "none",
        meaning: Search::Nothing,
        help: "No repairs: the first error of an input is the last",
    },
    Choice {
        name: "cpctplus",
        meaning: Search::Cheapest,
        help: "The cheapest repairs, of which the first is taken",
    },
    Choice {
        name: "complete",
        meaning: Search::Complete,
        help: "The same; if there are none, insert and delete what leads to the nearest place to go on",
    },
];

/// The forms of trees.
pub(crate) const FORMATS: [Choice<Format>; 4] = [
    Choice {
        name: "brackets",
        meaning: Format::Brackets,
        help: "In brackets, on one line",
    },
    Choice {
        name: "tree",
        meaning: Format::Indented,
        help: "A line for each node, indented by its level",
    },
    Choice {
        name: "json",
        meaning: Format::Json,
        help: "JSON, on one line",
    },
    Choice {
        name: "dot",
        meaning: Format::Graph,
        help: "A graph for Graphviz",
    },
];

/// The forms of messages.
pub(crate) const FORMS: [Choice<MessageForm>; 2] = [
    Choice {
        name: "text",
        meaning: MessageForm::Text,
        help: "Lines for people, with the lines of the text that they are about",
    },
    Choice {
        name: "json",
        meaning: MessageForm::Json,
        help: "A JSON object on a line for each message, for programs",
    },
];

/// The words that options take, as their parser checks them and the help shows them.
#[derive(Clone, Copy)]
pub(crate) struct PossibleValues<'a> {
    kinds: [PossibleValue<'a>; 5],
    minimisers: [PossibleValue<'a>; 2],
    searches: [PossibleValue<'a>; 3],
    formats: [PossibleValue<'a>; 4],
    forms: [PossibleValue<'a>; 2],
}

impl<'a> PossibleValues<'a> {
    pub(crate) fn new() -> PossibleValues<'a> {
        PossibleValues {
            kinds: [
                KINDS[0].to_possible_value(),
                KINDS[1].to_possible_value(),
                KINDS[2].to_possible_value(),
                KINDS[3].to_possible_value(),
                KINDS[4].to_possible_value(),
            ],
            minimisers: [
                MINIMISERS[0].to_possible_value(),
                MINIMISERS[1].to_possible_value(),
            ],
            searches: [
                SEARCHES[0].to_possible_value(),
                SEARCHES[1].to_possible_value(),
                SEARCHES[2].to_possible_value(),
            ],
            formats: [
                FORMATS[0].to_possible_value(),
                FORMATS[1].to_possible_value(),
                FORMATS[2].to_possible_value(),
                FORMATS[3].to_possible_value(),
            ],
            forms: [FORMS[0].to_possible_value(), FORMS[1].to_possible_value()],
        }
    }
}

/// What the word means that was found for an option, if there is one.
pub(crate) fn meaning_of<T: Copy>(
    matches: &ArgMatches<'_>,
    option: &str,
    choices: &[Choice<T>],
) -> Option<T> {
    let word = matches.get_str(option)?;
    match choices.iter().find(|choice| choice.name == word) {
        Some(choice) => Some(choice.meaning),
        None => None,
    }
}

/// The command line. Options may be anywhere before `--`; if one is repeated, the last counts.
pub(crate) fn command_line<'a>(
    alloc: Global,
    values: &'a PossibleValues<'a>,
) -> Result<Command<'a>, AllocError> {
    let command = Command::new(alloc, "nimbleparse")
        .about(ABOUT)
        .override_usage(USAGE)
        .after_help(AFTER_HELP)
        .no_binary_name(true)
        .args_override_self(true);
    let command = add_paths(alloc, command)?;
    let command = add_flags(alloc, command)?;
    let command = add_table_options(alloc, command, values)?;
    let command = add_repair_options(alloc, command, values)?;
    let command = add_format(alloc, command, values)?;
    let command = add_message_options(alloc, command, values)?;
    add_code_options(alloc, command)
}

// Adds the paths. A single one is found under the name of the lexer, though it is that of a grammar.
fn add_paths<'a>(alloc: Global, command: Command<'a>) -> Result<Command<'a>, AllocError> {
    command
        .arg(
            Arg::new(alloc, LEXER)
                .value_name("LEXER")
                .help("The rules of a lexer; with a line %%, a .l file of lrlex"),
        )?
        .arg(
            Arg::new(alloc, GRAMMAR)
                .value_name("GRAMMAR")
                .help("A grammar text, or a .y file of yacc or of grmtools"),
        )?
        .arg(
            Arg::new(alloc, INPUT)
                .value_name("INPUT")
                .help("A text to parse; - is standard input")
                .num_args(1..)
                .action(ArgAction::Append)
                .default_value(STANDARD_INPUT),
        )
}

// Adds the options that take no word.
fn add_flags<'a>(alloc: Global, command: Command<'a>) -> Result<Command<'a>, AllocError> {
    command
        .arg(flag(
            alloc,
            QUIET,
            'q',
            "Print errors only: no trees, no warnings, no notes",
        ))?
        .arg(flag(alloc, STATES, 'd', "Print the states of the table").long_help(
            LONG_HELP_OF_STATES,
        ))?
        .arg(flag(
            alloc,
            VERBOSE,
            'v',
            "Say whether states are merged, and how many actions and gotos the table has",
        ))
}

// An option of one letter that takes no word.
fn flag<'a>(alloc: Global, id: &'a str, letter: char, help: &'a str) -> Arg<'a> {
    Arg::new(alloc, id)
        .short(letter)
        .help(help)
        .action(ArgAction::SetTrue)
}

// Adds the options about the grammar and its table.
fn add_table_options<'a>(
    alloc: Global,
    command: Command<'a>,
    values: &'a PossibleValues<'a>,
) -> Result<Command<'a>, AllocError> {
    command
        .arg(
            Arg::new(alloc, KIND)
                .short('y')
                .value_name("KIND")
                .value_parser(values.kinds.as_slice())
                .help("Read GRAMMAR as a file of this kind")
                .long_help(LONG_HELP_OF_KIND),
        )?
        .arg(
            Arg::new(alloc, MINIMISER)
                .long("minimise")
                .value_name("HOW")
                .value_parser(values.minimisers.as_slice())
                .default_value("pager")
                .help("Merge states of the table in this way"),
        )?
        .arg(
            Arg::new(alloc, MAX_STATES)
                .long("max-states")
                .value_name("N")
                .value_parser(value_parser!(usize))
                .default_value("10000")
                .help("Build no table of more than N states"),
        )
}

// Adds the options about repairs.
fn add_repair_options<'a>(
    alloc: Global,
    command: Command<'a>,
    values: &'a PossibleValues<'a>,
) -> Result<Command<'a>, AllocError> {
    command
        .arg(
            Arg::new(alloc, REPAIRS)
                .short('r')
                .value_name("REPAIRS")
                .value_parser(values.searches.as_slice())
                .default_value("complete")
                .help("Search for these repairs at each error"),
        )?
        .arg(
            Arg::new(alloc, LIMIT)
                .long("limit")
                .value_name("N")
                .value_parser(value_parser!(usize))
                .default_value("8000")
                .help("Find no repairs if more than N configurations cost less than they do")
                .long_help(LONG_HELP_OF_LIMIT),
        )?
        .arg(
            Arg::new(alloc, SHIFTS)
                .long("shifts")
                .value_name("K")
                .value_parser(value_parser!(usize).range(1..))
                .default_value("3")
                .help("Require K lexemes after a repair"),
        )
}

// Adds the option about the form of trees.
fn add_format<'a>(
    alloc: Global,
    command: Command<'a>,
    values: &'a PossibleValues<'a>,
) -> Result<Command<'a>, AllocError> {
    command.arg(
        Arg::new(alloc, FORMAT)
            .long("format")
            .value_name("FORMAT")
            .value_parser(values.formats.as_slice())
            .default_value("brackets")
            .help("Print trees in this form"),
    )
}

// Adds the options about messages.
fn add_message_options<'a>(
    alloc: Global,
    command: Command<'a>,
    values: &'a PossibleValues<'a>,
) -> Result<Command<'a>, AllocError> {
    command
        .arg(
            Arg::new(alloc, MESSAGES)
                .long("messages")
                .value_name("FILE")
                .help("Name tokens and rules in messages as this file does, and take its messages"),
        )?
        .arg(
            Arg::new(alloc, MESSAGES_FORMAT)
                .long("messages-format")
                .value_name("FORM")
                .value_parser(values.forms.as_slice())
                .default_value("text")
                .help("Write messages in this form"),
        )?
        .arg(
            Arg::new(alloc, LIST_ERRORS)
                .long("list-errors")
                .help("Print the errors that a text can have, each with room for a message")
                .action(ArgAction::SetTrue),
        )?
        .arg(
            Arg::new(alloc, CHECK_ERRORS)
                .long("check-errors")
                .value_name("FILE")
                .help("Say which errors have no message in this file, and what is wrong with it"),
        )
}

// Adds the options about code.
fn add_code_options<'a>(alloc: Global, command: Command<'a>) -> Result<Command<'a>, AllocError> {
    command
        .arg(
            Arg::new(alloc, RUST)
                .long("rust")
                .help(
                    "Write the code of a typed grammar: src/syntax.rt and specs/Syntax.antt of its crate",
                )
                .action(ArgAction::SetTrue),
        )?
        .arg(
            Arg::new(alloc, CHECK)
                .long("check")
                .help("With --rust: write nothing, and name each file that is out of date")
                .action(ArgAction::SetTrue),
        )?
        .arg(
            Arg::new(alloc, CRATE).long("crate").value_name("NAME").help(
                "With --rust: the crate has this name, not that of its folder",
            ),
        )
}
