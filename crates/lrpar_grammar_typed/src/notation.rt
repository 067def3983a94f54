//! The notation of typed grammars: its grammar, its lexer, and what a text in it means.
use crate::file::{
    Alternative, Atom, Declaration, File, Item, Label, MAX_DEPTH, Mention, Part, Repeat, Rule,
};
use crate::syntax::{Actions, At, GRAMMAR, Table, parse_file};
use lrpar_grammar::grammar::{GrammarFault, YaccGrammar};
use lrpar_grammar::span::{Span, TIdx};
use lrpar_grammar_unmatched::{UnmatchedFault, with_unmatched};
use lrpar_lexer::{LexRule, RuleLexer, RulesFault, Token, TokenTypes, rules_of};
use lrpar_table::build::{Unbuilt, parser_data};
use lrpar_typed::{LexParseError, Lexeme, ParseFault, ParserData, RTParserBuilder};
use std::alloc::{AllocError, Global};
use thiserror::Error;

/// What messages call rules, and tokens whose texts vary, as a messages file.
pub const NAMES: &str = "
Declaration: a declaration
Part: a symbol
Repeat: a sign such as '*'
Label: a label
NAME: a name
QUOTED: a token in quotes
PATH: a path, such as Kind::Sum
TYPE: a type in '<' and '>'
USE: '%use PATH;'
HEADER: '%grmtools{..}'
";

/// The rules of the notation's lexer. A type has brackets of at most four levels.
pub const LEXER: &str = r##"
    %grmtools\{[^}]*\} 'HEADER'
    %use[ \t]+[^\n;]*; 'USE'
    %start '%start'
    %token '%token'
    %type '%type'
    %% '%%'
    <([^<>\n]|<([^<>\n]|<([^<>\n]|<[^<>\n]*>)*>)*>)*> 'TYPE'
    [A-Za-z_][A-Za-z_0-9]*(::[A-Za-z_][A-Za-z_0-9]*)+ 'PATH'
    [A-Za-z_][A-Za-z_0-9]* 'NAME'
    '[^'\n]*'|"[^"\n]*" 'QUOTED'
    : ':'
    \| '|'
    ; ';'
    # '#'
    \( '('
    \) ')'
    \[ '['
    \] ']'
    \* '*'
    \+ '+'
    \? '?'
    % '%'
    %\? '%?'
    [ \t\r\n]+ ;
    //[^\n]* ;
    /\*([^*]|\*+[^*/])*\*+/ ;"##;

/// Why the notation can't be made, or a text can't be read.
#[derive(Debug, Drop, Error)]
pub enum NotationFault {
    /// The grammar of the notation is at fault.
    #[error("the notation's grammar: {0}")]
    Grammar(#[from] GrammarFault),
    /// The grammar of the notation has no room for unknown text.
    #[error("the notation's unknown text: {0}")]
    Unmatched(#[from] UnmatchedFault),
    /// The lexer of the notation is at fault.
    #[error("the notation's lexer: {0}")]
    Lexer(#[from] RulesFault),
    /// The notation has no table.
    #[error("the notation's table: {0}")]
    Table(#[from] Unbuilt<u32>),
    /// The table isn't that of the actions.
    #[error("the notation's grammar isn't that of its actions")]
    Actions,
    /// Groups are nested too deeply.
    #[error("groups are nested too deeply at byte {at}", at = .0.start())]
    TooDeep(Span),
    /// The parse has no result.
    #[error("parse: {0}")]
    Parse(#[from] ParseFault),
    /// An allocation failed.
    #[error("out of memory")]
    Memory(#[from(alloc)] AllocError),
}

/// The notation: what a text is read by.
#[derive(Drop)]
pub struct Notation {
    table: Table,
    rules: Vec<LexRule>,
    unmatched: TIdx<u32>,
}

impl Notation {
    /// Makes the notation: its table and its lexer, which takes some milliseconds.
    pub fn new(alloc: Global) -> Result<Notation, NotationFault> {
        let grm = YaccGrammar::<u32>::new_with_storaget(alloc, GRAMMAR)?;
        let (grm, unmatched) = with_unmatched(alloc, &grm, "unknown text")?;
        let rules = rules_of(alloc, &grm, LEXER)?;
        let data = parser_data(alloc, grm, 10_000, 1_000)?;
        let table = Table::new(data).ok_or(NotationFault::Actions)?;
        Ok(Notation {
            table,
            rules,
            unmatched,
        })
    }

    /// The notation's checked table, for reports of errors.
    pub fn data(&self) -> &ParserData<u32> {
        &self.table.checked
    }

    /// The rules of the notation's lexer.
    pub fn lex_rules(&self) -> &[LexRule] {
        self.rules.as_slice()
    }

    /// The token of text that the notation doesn't have.
    pub fn unmatched(&self) -> TIdx<u32> {
        self.unmatched
    }

    /// The lexer of a text.
    pub fn lexer<'rules, 'text>(
        &'rules self,
        alloc: Global,
        text: &'text str,
    ) -> Result<RuleLexer<'rules, 'text>, AllocError> {
        Ok(RuleLexer::new(alloc, &self.rules, text)?.with_unmatched(self.unmatched))
    }

    /// Reads the text of a lexer that [`Notation::lexer`] made: the file, or `None` and the errors of the text. `Err`: `TooDeep`, `Parse` or
    /// `Memory`.
    pub fn read(
        &self,
        alloc: Global,
        lexer: &RuleLexer<'_, '_>,
    ) -> Result<(Option<File>, Vec<LexParseError<u32, TokenTypes<u32>>>), NotationFault> {
        let parser = RTParserBuilder::new(&self.table.checked);
        parse_file(alloc, &parser, lexer, &Reader)
    }
}

// Makes the parts of a typed grammar.
#[derive(Drop)]
struct Reader;

impl Actions for Reader {
    type Error = NotationFault;

    fn file(
        &self,
        _at: At<'_, '_>,
        declarations: Vec<Declaration>,
        rules: Vec<Rule>,
    ) -> Result<File, NotationFault> {
        Ok(File {
            declarations,
            rules,
        })
    }

    fn declare_use(&self, _at: At<'_, '_>, path: Token<u32>) -> Result<Declaration, NotationFault> {
        Ok(Declaration::Use(within(path.span(), 4)))
    }

    fn declare_start(&self, _at: At<'_, '_>, name: Span) -> Result<Declaration, NotationFault> {
        Ok(Declaration::Start(name))
    }

    fn declare_tokens(
        &self,
        _at: At<'_, '_>,
        symbols: Vec<Mention>,
    ) -> Result<Declaration, NotationFault> {
        Ok(Declaration::Tokens(symbols))
    }

    fn declare_type(
        &self,
        at: At<'_, '_>,
        value: Token<u32>,
        rules: Vec<Span>,
    ) -> Result<Declaration, NotationFault> {
        Ok(Declaration::Type(within(value.span(), 1), rules))
    }

    fn rule(
        &self,
        _at: At<'_, '_>,
        name: Span,
        alternatives: Vec<Alternative>,
    ) -> Result<Rule, NotationFault> {
        Ok(Rule { name, alternatives })
    }

    fn alternative(
        &self,
        at: At<'_, '_>,
        parts: Vec<Part>,
        label: Option<Label>,
    ) -> Result<Alternative, NotationFault> {
        Ok(Alternative {
            parts,
            label,
            span: at.range.span(),
        })
    }

    fn label(&self, _at: At<'_, '_>, name: Span) -> Result<Label, NotationFault> {
        Ok(Label { name, kind: None })
    }

    fn label_of_kind(
        &self,
        at: At<'_, '_>,
        name: Span,
        constant: Token<u32>,
    ) -> Result<Label, NotationFault> {
        Ok(Label {
            name,
            kind: Some(constant.span()),
        })
    }

    fn part(&self, _at: At<'_, '_>, item: Item) -> Result<Part, NotationFault> {
        Ok(Part { item, name: None })
    }

    fn named_part(&self, _at: At<'_, '_>, item: Item, name: Span) -> Result<Part, NotationFault> {
        Ok(Part {
            item,
            name: Some(name),
        })
    }

    fn symbol_item(&self, at: At<'_, '_>, symbol: Mention) -> Result<Item, NotationFault> {
        Ok(Item {
            atom: Atom::Symbol(symbol),
            repeats: Vec::new(at.alloc),
            span: at.range.span(),
            depth: 0,
        })
    }

    fn group(&self, at: At<'_, '_>, alternatives: Vec<Alternative>) -> Result<Item, NotationFault> {
        let depth = depth_of(&alternatives);
        if depth >= MAX_DEPTH {
            return Err(NotationFault::TooDeep(at.range.span()));
        }
        Ok(Item {
            atom: Atom::Group(alternatives),
            repeats: Vec::new(at.alloc),
            span: at.range.span(),
            depth: depth + 1,
        })
    }

    fn repeated(
        &self,
        at: At<'_, '_>,
        mut item: Item,
        repeat: Repeat,
    ) -> Result<Item, NotationFault> {
        item.repeats.push(repeat)?;
        item.span = at.range.span();
        Ok(item)
    }

    fn zero_or_more(&self, _at: At<'_, '_>) -> Result<Repeat, NotationFault> {
        Ok(Repeat::ZeroOrMore)
    }

    fn one_or_more(&self, _at: At<'_, '_>) -> Result<Repeat, NotationFault> {
        Ok(Repeat::OneOrMore)
    }

    fn optional(&self, _at: At<'_, '_>) -> Result<Repeat, NotationFault> {
        Ok(Repeat::Optional)
    }

    fn separated(&self, _at: At<'_, '_>, separator: Mention) -> Result<Repeat, NotationFault> {
        Ok(Repeat::Separated(separator))
    }

    fn terminated(&self, _at: At<'_, '_>, separator: Mention) -> Result<Repeat, NotationFault> {
        Ok(Repeat::Terminated(separator))
    }

    fn name(&self, _at: At<'_, '_>, name: Span) -> Result<Mention, NotationFault> {
        Ok(Mention {
            name,
            is_quoted: false,
        })
    }

    fn quoted(&self, at: At<'_, '_>, text: Token<u32>) -> Result<Mention, NotationFault> {
        Ok(Mention {
            name: within(text.span(), 1),
            is_quoted: true,
        })
    }

    fn word(&self, at: At<'_, '_>, word: Token<u32>) -> Result<Span, NotationFault> {
        Ok(word.span())
    }
}

// How deep groups nest in the alternatives.
fn depth_of(alternatives: &[Alternative]) -> usize {
    let mut depth = 0;
    for alternative in alternatives {
        for part in &alternative.parts {
            depth = depth.max(part.item.depth);
        }
    }
    depth
}

// The place within this one, without so many bytes at its start and one at its end.
fn within(span: Span, before: usize) -> Span {
    let start = span.start().saturating_add(before);
    let end = span.end().saturating_sub(1);
    if start <= end {
        Span::new(start, end)
    } else {
        span
    }
}
