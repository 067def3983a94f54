//! What inputs are parsed by, and how trees are printed.
use crate::grammar::{GrammarFile, GrammarTable};
use crate::shown::TokenFiles;
use lrpar_grammar::span::TIdx;
use lrpar_report::Look;
use lrpar_table::check::ParserData;

/// How trees are printed.
#[derive(Clone, Copy, Debug, PartialEq, Eq)]
pub enum Format {
    /// On one line, in brackets.
    Brackets,
    /// A line for each node, indented by its level.
    Indented,
    /// As JSON, on one line.
    Json,
    /// As a graph for Graphviz.
    Graph,
}

/// Which repairs are looked for.
#[derive(Clone, Copy, Debug, PartialEq, Eq)]
pub enum Recovery {
    /// None.
    Nothing,
    /// The cheapest ones.
    Cheapest {
        /// How many configurations, a stack and a place among the lexemes each, may be reached at less cost than the repairs have.
        limit: usize,
    },
    /// The cheapest ones, and a completion where none of these is found.
    Complete {
        /// As above.
        limit: usize,
    },
}

/// What inputs are parsed by, and how trees are printed.
#[derive(Clone, Copy)]
pub(crate) struct Plan<'a> {
    pub(crate) grammar: GrammarFile<'a>,
    pub(crate) table: &'a GrammarTable,
    pub(crate) files: TokenFiles<'a>,
    /// How many lexemes have to follow a repair, if it is said.
    pub(crate) shifts: Option<usize>,
    pub(crate) recovery: Recovery,
    pub(crate) format: Format,
    /// Whether errors alone are printed.
    pub(crate) is_quiet: bool,
    /// Whether trees are headed by the path of their input.
    pub(crate) shows_paths: bool,
    pub(crate) look: Look,
}

impl<'a> Plan<'a> {
    /// The grammar with its checked table.
    pub(crate) fn data(&self) -> &'a ParserData<u32> {
        &self.table.data
    }

    /// The token of text that no line of the lexer takes, if there is one.
    pub(crate) fn unmatched(&self) -> Option<TIdx<u32>> {
        self.table
            .unmatched
            .as_ref()
            .map(|unmatched| unmatched.token)
    }
}
