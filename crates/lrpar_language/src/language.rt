//! A language, made of its texts.
ghost use Rattle.std.specs.Prelude.{◌≡◌, IfOk};
ghost use Rattle.lrpar_language.specs.Language.{IsTableOf};
ghost use Rattle.lrpar_language.specs.declared.language.TheConstants.{CAP, MAX_STATES, UNKNOWN};

use crate::fault::LanguageFault;
use lrpar_grammar::grammar::YaccGrammar;
use lrpar_grammar::span::TIdx;
use lrpar_grammar_unmatched::with_unmatched;
use lrpar_lexer::{LexRule, RuleLexer, TokenTypes, rules_of};
use lrpar_messages::Messages;
use lrpar_names::Names;
use lrpar_parse_errors::LexParseError;
use lrpar_parse_lexemes::lex_api::Lexer;
use lrpar_report::{Report, lexing_report};
use lrpar_report_fixes::{TextReports, Wording, read_token_texts};
use lrpar_table::build::parser_data;
use lrpar_table_check::check::ParserData;
use std::alloc::{AllocError, Global};
use std::marker::Model;

// The name of the token of text that no rule of the lexer takes.
const UNKNOWN: &str = "unknown text";

// How many states a table may have.
const MAX_STATES: usize = 10_000;

// How long a chain of reductions may be.
const CAP: u16 = 1_000;

/// The texts that a language is made of.
#[derive(Clone, Copy, Debug)]
pub struct LanguageTexts<'a> {
    /// The grammar, as [`YaccGrammar::new_with_storaget`] reads it.
    pub grammar: &'a str,
    /// The rules of the lexer, as [`rules_of`] reads them.
    pub lexer: &'a str,
    /// What reports call tokens and rules, and after a line `%%` messages for errors, as [`Names::read`] and [`Messages::read`] read them. It
    /// may be empty.
    pub messages: &'a str,
}

/// A language: the table of its grammar, its lexer, and the words of reports.
#[derive(Drop)]
pub struct Language {
    data: ParserData<u32>,
    rules: Vec<LexRule>,
    unmatched: TIdx<u32>,
    wording: Wording<u32>,
}

impl Model for Language {
    ghost use Rattle.lrpar_table_check.specs.Checked.{Checked};

    ghost Value = { Checked };

    ghost view = { λ language. language.data };
}

impl Language {
    /// Makes a language of its texts: the canonical table of the grammar, with at most 10,000 states and with chains of at most 1,000
    /// reductions, and the lexer. Text that no rule of the lexer takes is a lexeme of a token of its own, `unknown text`, which no production
    /// has: so it is a syntax error like any other.
    ///
    /// It takes the time of the table, some milliseconds for the grammar of a small language: make it once. `Err`: the first text that is at
    /// fault, with what is wrong.
    pub fn new(alloc: Global, texts: LanguageTexts<'_>) -> Result<Language, LanguageFault>
        ensures { IfOk result (IsTableOf texts.entry.grammar.now UNKNOWN.now MAX_STATES CAP) }
    {
        let grm = YaccGrammar::<u32>::new_with_storaget(alloc, texts.grammar)?;
        let (grm, unmatched) = with_unmatched(alloc, &grm, UNKNOWN)?;
        let rules = rules_of(alloc, &grm, texts.lexer)?;
        let names = Names::read(alloc, &grm, texts.messages)?;
        let token_texts = read_token_texts(alloc, &grm, rules.as_slice(), texts.lexer)?;
        let wording = Wording::new(alloc, &grm, names, token_texts)?.unmatched(unmatched);
        let data = parser_data(alloc, grm, MAX_STATES, CAP)?;
        let wording = wording.messages(Messages::read(alloc, &data, texts.messages)?);
        Ok(Language {
            data,
            rules,
            unmatched,
            wording,
        })
    }

    /// The grammar with its checked table, for a parser.
    pub fn data(&self) -> &ParserData<u32>
        ensures { result.now ≡ self.now }
    {
        &self.data
    }

    /// The rules of the lexer.
    pub fn rules(&self) -> &[LexRule] {
        self.rules.as_slice()
    }

    /// What reports call rules and tokens, and the messages for errors.
    pub fn wording(&self) -> &Wording<u32> {
        &self.wording
    }

    /// The lexer of a text.
    pub fn lexer<'rules, 'text>(
        &'rules self,
        alloc: Global,
        text: &'text str,
    ) -> Result<RuleLexer<'rules, 'text>, AllocError> {
        Ok(RuleLexer::new(alloc, self.rules.as_slice(), text)?.with_unmatched(self.unmatched))
    }

    /// A report for each error of a parse of the text, in the order of the parse: what is wrong, where, and ways to mend it. `errors` has to
    /// come from a parse of this text by this language. It takes time and memory linear in the text, and for each of the first 25 errors the
    /// time of [`TextReports::report`]. `Err`: an allocation failed.
    pub fn error_reports(
        &self,
        alloc: Global,
        text: &str,
        errors: &[LexParseError<u32, TokenTypes<u32>>],
    ) -> Result<Vec<Report>, AllocError> {
        let mut found = Vec::new(alloc);
        if errors.is_empty() {
            return Ok(found);
        }
        let answers = self.lexer(alloc, text)?.iter(alloc)?;
        let mut reports = TextReports::new(alloc, &self.data, &self.wording, text, &answers)?;
        for error in errors {
            let report = match error {
                LexParseError::LexError(error) => lexing_report(alloc, text, error)?,
                LexParseError::ParseError(error) => reports.report(alloc, error)?,
            };
            found.push(report)?;
        }
        Ok(found)
    }
}
