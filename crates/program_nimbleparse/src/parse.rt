//! The parse of one input, and what is printed of it.
use crate::completer::Completer;
use crate::errors::{report_of_lexing, with_no_repairs};
use crate::messages::FileMessages;
use crate::plan::{Format, Plan, Recovery};
use crate::printer::Printer;
use crate::recoverers::{Completing, Searches, Searching};
use crate::rules::LexerRules;
use crate::show::write_messages;
use crate::wording::wording_of;
use lrpar_grammar::span::TIdx;
use lrpar_lexer::{LexRules, ListLexer, RuleLexer, TextLexer, Token, TokenTypes};
use lrpar_lexer_lrlex::StateLexer;
use lrpar_parse::RTParserBuilder;
use lrpar_parse::parser::SyntaxTree;
use lrpar_parse_errors::errors::LexParseError;
use lrpar_parse_lexemes::lex_api::Lexer;
use lrpar_parse_repair::repair::{NoRecovery, Recoverer};
use lrpar_parse_trees::{Form, Node, write_graph, write_nested};
use lrpar_report::Report;
use lrpar_report_fixes::{TextReports, Wording};
use program_files::fault::Fault;
use program_files::parsing::{Parsed, TextError, with_shifts};
use std::alloc::{AllocError, Global};
use std::io::Write;

/// A tree of an input: in one list if its form needs no more.
enum Tree {
    Flat(SyntaxTree<u32>),
    Nested(Node<Token<u32>, u32>),
}

// Hand-written, so that code that drops one needs the proof of one call only.
impl Drop for Tree {
    fn drop(self) {
        match self {
            Tree::Flat(tree) => drop(tree),
            Tree::Nested(tree) => drop(tree),
        }
    }
}

/// What repairs the errors of inputs, and what their messages call tokens and rules.
pub(crate) struct Repairs<'a> {
    /// The searches, if any are asked for.
    pub(crate) searches: Option<Searches>,
    pub(crate) completer: Completer<'a>,
    /// What a messages file says, until there is an error.
    pub(crate) messages: Option<FileMessages>,
    /// The words of messages, once there is an error.
    pub(crate) wording: Option<Wording<u32>>,
}

// Hand-written, so that code that drops one needs the proof of one call only.
impl<'a> Drop for Repairs<'a> {
    fn drop(self) {
        let Repairs {
            searches,
            completer,
            messages,
            wording,
        } = self;
        drop(searches);
        drop(completer);
        drop(messages);
        drop(wording);
    }
}

impl<'a> Repairs<'a> {
    // Makes the words of messages, if they aren't made yet, and returns them.
    fn make_wording(
        &mut self,
        alloc: Global,
        plan: &Plan<'_>,
    ) -> Result<&Wording<u32>, AllocError> {
        if self.wording.is_none() {
            let messages = self.messages.take();
            self.wording = Some(wording_of(alloc, plan, messages)?);
        }
        match &self.wording {
            Some(wording) => Ok(wording),
            None => unreachable!(),
        }
    }
}

/// An input: its path and its text.
#[derive(Clone, Copy)]
pub(crate) struct Input<'i> {
    pub(crate) path: &'i str,
    pub(crate) text: &'i str,
}

/// Parses the input. Writes messages of its errors, and prints its tree, if there is one. Returns whether there is a tree, and no error.
pub(crate) fn parse<'a, O: Write, E: Write>(
    alloc: Global,
    repairs: &mut Repairs<'a>,
    plan: &Plan<'a>,
    input: Input<'_>,
    out: &mut O,
    err: &mut E,
) -> Result<bool, Fault> {
    let lexer = lex(alloc, plan, input.text)?;
    let (tree, errors) = parse_lexemes(alloc, repairs, plan, &lexer, out, err)?;
    if !errors.is_empty() {
        write_errors(alloc, repairs, plan, input, &lexer, &errors, out, err)?;
    }
    let has_tree = print_if_any(alloc, plan, input, tree.as_ref(), out)?;
    Ok(has_tree && errors.is_empty())
}

// Writes messages of the errors.
fn write_errors<'a, O: Write, E: Write>(
    alloc: Global,
    repairs: &mut Repairs<'a>,
    plan: &Plan<'a>,
    input: Input<'_>,
    lexer: &ListLexer<'_>,
    errors: &[TextError],
    out: &mut O,
    err: &mut E,
) -> Result<(), Fault> {
    let wording = repairs.make_wording(alloc, plan)?;
    let text = errors_text(alloc, plan, wording, input, lexer, errors)?;
    write_messages(out, err, text.as_str())
}

// Prints the tree, if there is one, and returns whether there is.
fn print_if_any<O: Write>(
    alloc: Global,
    plan: &Plan<'_>,
    input: Input<'_>,
    tree: Option<&Tree>,
    out: &mut O,
) -> Result<bool, Fault> {
    match tree {
        Some(tree) => {
            print_tree(alloc, plan, input, tree, out)?;
            Ok(true)
        }
        None => Ok(false),
    }
}

// The lexemes of the input, found once.
fn lex<'i>(alloc: Global, plan: &Plan<'_>, text: &'i str) -> Result<ListLexer<'i>, AllocError> {
    match plan.files.rules {
        LexerRules::Lines(rules) => {
            with_token(RuleLexer::new(alloc, rules, text)?, plan.unmatched()).lexed(alloc)
        }
        LexerRules::States(rules) => {
            with_token(StateLexer::new(alloc, rules, text)?, plan.unmatched()).lexed(alloc)
        }
    }
}

// The lexer, with the token for text that its rules don't take, if there is one.
fn with_token<'input, R: LexRules<u32>>(
    lexer: TextLexer<'input, R>,
    unmatched: Option<TIdx<u32>>,
) -> TextLexer<'input, R> {
    match unmatched {
        Some(token) => lexer.with_unmatched(token),
        None => lexer,
    }
}

// Parses the lexemes without repairs; if that finds an error, again with repairs, if any are asked for.
fn parse_lexemes<'a, O: Write, E: Write>(
    alloc: Global,
    repairs: &mut Repairs<'a>,
    plan: &Plan<'a>,
    lexer: &ListLexer<'_>,
    out: &mut O,
    err: &mut E,
) -> Result<Parsed<Tree>, Fault> {
    let (tree, errors) = parse_with(alloc, plan, NoRecovery, lexer)?;
    let Repairs {
        searches,
        completer,
        messages: _,
        wording: _,
    } = repairs;
    match searches {
        Some(searches) if lacks_repair(&errors) => {
            search_repairs(alloc, searches, completer, plan, lexer, &errors, out, err)
        }
        Some(_) | None => Ok((tree, errors)),
    }
}

// Parses the lexemes with the searches, after a parse without repairs that had these errors. If an error is left without a repair, parses them
// again with a completion, if there is one.
fn search_repairs<'a, O: Write, E: Write>(
    alloc: Global,
    searches: &Searches,
    completer: &mut Completer<'a>,
    plan: &Plan<'a>,
    lexer: &ListLexer<'_>,
    errors: &[TextError],
    out: &mut O,
    err: &mut E,
) -> Result<Parsed<Tree>, Fault> {
    let searching = Searching { errors, searches };
    let (tree, errors) = parse_with(alloc, plan, searching, lexer)?;
    if !lacks_repair(&errors) {
        return Ok((tree, errors));
    }
    match completer.make_completion(alloc, plan, out, err)? {
        Some(completion) => {
            let completing = Completing {
                errors: &errors,
                searches,
                completion,
            };
            parse_with(alloc, plan, completing, lexer)
        }
        None => Ok((tree, errors)),
    }
}

// Whether the last of the errors is one of a parse that has no repair.
fn lacks_repair(errors: &[TextError]) -> bool {
    match errors.last() {
        Some(LexParseError::ParseError(error)) => error.repairs().is_empty(),
        Some(LexParseError::LexError(_)) | None => false,
    }
}

// Parses the lexemes with this recoverer.
fn parse_with<R: Recoverer<u32, Token<u32>> + Drop>(
    alloc: Global,
    plan: &Plan<'_>,
    recoverer: R,
    lexer: &ListLexer<'_>,
) -> Result<Parsed<Tree>, Fault> {
    let parser = RTParserBuilder::new(plan.data()).recoverer(recoverer);
    let parser = with_shifts(parser, plan.shifts)?;
    match plan.format {
        Format::Indented => {
            let (tree, errors) = parser.parse_tree(alloc, lexer)?;
            Ok((flat(tree), errors))
        }
        Format::Brackets | Format::Json | Format::Graph => {
            let (tree, errors) = parser.parse_generictree(alloc, lexer)?;
            Ok((nested(tree), errors))
        }
    }
}

// The tree in one list, if there is one.
fn flat(tree: Option<SyntaxTree<u32>>) -> Option<Tree> {
    match tree {
        Some(tree) => Some(Tree::Flat(tree)),
        None => None,
    }
}

// The tree as nodes within nodes, if there is one.
fn nested(tree: Option<Node<Token<u32>, u32>>) -> Option<Tree> {
    match tree {
        Some(tree) => Some(Tree::Nested(tree)),
        None => None,
    }
}

// The messages of the errors of an input.
fn errors_text(
    alloc: Global,
    plan: &Plan<'_>,
    wording: &Wording<u32>,
    input: Input<'_>,
    lexer: &ListLexer<'_>,
    errors: &[TextError],
) -> Result<String, Fault> {
    let answers = lexer.iter(alloc)?;
    let mut reports = TextReports::new(alloc, plan.data(), wording, input.text, &answers)?;
    let form = plan.grammar.asked.form;
    let printer = Printer::new(alloc, input.text, input.path, form, plan.look)?;
    let mut text = String::new(alloc);
    for error in errors {
        let report = report_of(alloc, plan.recovery, input, &mut reports, error)?;
        printer.push(&mut text, alloc, &report)?;
    }
    Ok(text)
}

// The report of an error.
fn report_of(
    alloc: Global,
    recovery: Recovery,
    input: Input<'_>,
    reports: &mut TextReports<'_, u32>,
    error: &TextError,
) -> Result<Report, AllocError> {
    match error {
        LexParseError::LexError(error) => report_of_lexing(alloc, input.text, error),
        LexParseError::ParseError(error) => {
            let report = reports.report(alloc, error)?;
            match error.repairs().is_empty() {
                true => with_no_repairs(alloc, recovery, report),
                false => Ok(report),
            }
        }
    }
}

// Prints the tree of an input, unless it is to be quiet.
fn print_tree<O: Write>(
    alloc: Global,
    plan: &Plan<'_>,
    input: Input<'_>,
    tree: &Tree,
    out: &mut O,
) -> Result<(), Fault> {
    if plan.is_quiet {
        return Ok(());
    }
    match tree {
        Tree::Flat(tree) => {
            print_path(plan, input.path, out)?;
            tree.write(alloc, plan.data().grm(), input.text, out)?;
            Ok(())
        }
        Tree::Nested(tree) => print_nested(alloc, plan, input, tree, out),
    }
}

// Prints a tree that is nodes within nodes.
fn print_nested<O: Write>(
    alloc: Global,
    plan: &Plan<'_>,
    input: Input<'_>,
    tree: &Node<Token<u32>, u32>,
    out: &mut O,
) -> Result<(), Fault> {
    let grm = plan.data().grm();
    match plan.format {
        Format::Brackets => {
            print_path(plan, input.path, out)?;
            write_nested(alloc, Form::Brackets, grm, input.text, tree, out)?;
            out.write_all(b"\n")?;
        }
        Format::Indented => {
            print_path(plan, input.path, out)?;
            tree.write(alloc, grm, input.text, out)?;
        }
        Format::Json => {
            write_nested(alloc, Form::Json, grm, input.text, tree, out)?;
            out.write_all(b"\n")?;
        }
        Format::Graph => write_graph(alloc, grm, input.text, tree, out)?,
    }
    Ok(())
}

// Prints the path of an input before its tree, if there are several inputs.
fn print_path<O: Write>(plan: &Plan<'_>, path: &str, out: &mut O) -> Result<(), Fault> {
    if plan.shows_paths {
        writeln!(out, "{path}:")?;
    }
    Ok(())
}
