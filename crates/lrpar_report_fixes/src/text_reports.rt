//! Reports of the parse errors of a text.
ghost use Rattle.std.specs.Prelude.{◌≡◌, IfOk};
ghost use Rattle.lrpar_report_lines.specs.declared.levels.Level.TheVariants.{Error};

use crate::expected::choices_after;
use crate::lexemes::TextLexemes;
use crate::reports::{report_with_fixes, report_with_repairs};
use crate::subject::Subject;
use crate::wording::Wording;
use lrpar_grammar::span::{StorageIndex, TIdx};
use lrpar_grammar_places::lines::NewlineCache;
use lrpar_names::Choices;
use lrpar_parse_errors::errors::ParseError;
use lrpar_parse_lexemes::lex_api::Lexeme;
use lrpar_report::Report;
use lrpar_table::check::ParserData;
use std::alloc::{AllocError, Global};

/// How many errors of a text are looked at closely.
const MOST_CLOSE_LOOKS: usize = 25;

/// Makes reports of the parse errors of a text, one after the other.
///
/// ```text
/// let mut reports = TextReports::new(alloc, &data, &wording, text, &lexer.iter(alloc)?)?;
/// for error in &errors {
///     let report = reports.report(alloc, error)?;
///     reporter.push(&mut out, alloc, &report)?;
/// }
/// ```
///
/// ```text
/// main.c:2:12: error: expected an operator or ';' before 'if'
/// 2|   int x = 3
///              ^
/// help: insert ';'
/// 2|   int x = 3;
///              +
/// ```
pub struct TextReports<'a, StorageT: StorageIndex> {
    data: &'a ParserData<StorageT>,
    wording: &'a Wording<StorageT>,
    text: &'a str,
    lines: NewlineCache,
    lexemes: TextLexemes<StorageT>,
    /// How many reports were made.
    count: usize,
}

// Hand-written, so that code that drops one needs the proof of one call only.
impl<'a, StorageT: StorageIndex> Drop for TextReports<'a, StorageT> {
    fn drop(self) {
        let TextReports {
            data: _,
            wording: _,
            text: _,
            lines,
            lexemes,
            count: _,
        } = self;
        drop(lines);
        drop(lexemes);
    }
}

impl<'a, StorageT: StorageIndex> TextReports<'a, StorageT> {
    /// For reports of the errors of a text by this table. `answers` are what the lexer of the parse gives; a lexing error among them is passed
    /// over. Takes time and memory linear in their number, and in the text for its lines. `Err`: out of memory.
    pub fn new<LexemeT: Lexeme<StorageT>, ErrorT>(
        alloc: Global,
        data: &'a ParserData<StorageT>,
        wording: &'a Wording<StorageT>,
        text: &'a str,
        answers: &[Result<LexemeT, ErrorT>],
    ) -> Result<Self, AllocError> {
        let mut lexemes = TextLexemes::new(alloc);
        for answer in answers {
            if let Ok(lexeme) = answer {
                lexemes.push(TIdx(lexeme.tok_id()), lexeme.span())?;
            }
        }
        Ok(TextReports {
            data,
            wording,
            text,
            lines: NewlineCache::new(alloc, text)?,
            lexemes,
            count: 0,
        })
    }

    /// The report of the next error, with at most three fixes. It says which tokens are expected: those that can be fed at the error. Where an
    /// item goes on with a rule that has a name for people, that name replaces all tokens with which the rule can begin.
    ///
    /// If the error lists repairs, the fixes are the likeliest changes of one lexeme, the error's or one of the two before it, after which the
    /// parse goes on, and then the first repairs. If the first fix only inserts, the report points right after the lexeme before, and says `expected A or B before 'LEXEME'`; else it points
    /// to the error's lexeme, and says `unexpected 'LEXEME', expected A or B`. A lexeme that no rule of the lexer takes is
    /// `unknown text 'LEXEME'`, and the end of the text is `end of input`. If the first fix closes a bracket, a second label shows where that
    /// was opened.
    ///
    /// The errors have to come in the order of the parse, each once: a report looks at the lexemes as they are after the first repairs of the
    /// errors before. After 25 errors a report offers repairs alone, and doesn't say what is expected; before that it takes the time of [`lrpar_parse_suggestions::suggestions`] and time linear in the number of lexemes. `Err`: out of
    /// memory; reports of later errors may then be of less use.
    pub fn report<LexemeT: Lexeme<StorageT>>(
        &mut self,
        alloc: Global,
        error: &ParseError<LexemeT, StorageT>,
    ) -> Result<Report, AllocError>
        ensures level { IfOk result (λ report. report.level ≡ Error) }
    {
        let place = self.place_of(error);
        let is_close = self.count < MOST_CLOSE_LOOKS;
        self.count = self.count.saturating_add(1);
        if !is_close {
            return report_with_repairs(alloc, self.subject(), place, error);
        }
        let choices = self.choices_at(alloc, place)?;
        let report = report_with_fixes(alloc, self.subject(), &choices, place, error)?;
        match error.repairs().first() {
            Some(repairs) => self.lexemes.repair(alloc, place, repairs)?,
            None => {}
        }
        Ok(report)
    }

    // What the report of an error needs of the text.
    fn subject(&self) -> Subject<'_, StorageT> {
        Subject {
            data: self.data,
            wording: self.wording,
            text: self.text,
            lines: &self.lines,
            lexemes: &self.lexemes,
        }
    }

    // Where the lexeme of an error is among all. The end of the text has their number.
    fn place_of<LexemeT: Lexeme<StorageT>>(&self, error: &ParseError<LexemeT, StorageT>) -> usize {
        let lexeme = error.lexeme();
        if TIdx(lexeme.tok_id()) == self.data.grm().eof_token_idx() {
            self.lexemes.spans().len()
        } else {
            self.lexemes.first_from(lexeme.span().start())
        }
    }

    // Few names for what may come at a place.
    fn choices_at(&self, alloc: Global, place: usize) -> Result<Choices<StorageT>, AllocError> {
        let tokens = self.lexemes.tokens();
        let before = tokens.get(..place).unwrap_or(tokens);
        choices_after(alloc, self.data, self.wording, before)
    }
}
