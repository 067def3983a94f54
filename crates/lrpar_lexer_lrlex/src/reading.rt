//! The rules of a `.l` file.
ghost use Rattle.std.specs.Prelude.{◌≡◌, IfOk, IfErr};
ghost use Rattle.lrpar_lexer_lrlex.specs.Parts.{placed};
ghost use Rattle.lrpar_lexer_lrlex.specs.Reading.{ArePaired, AreRulesIn, IsFaultIn, IsLrlexFaultOf, IsFirstFaultIn, IsReadFrom, IsRefusedAt, IsRuleIn, counts};
ghost use Rattle.lrpar_lexer_lrlex.specs.States.{AreExclusive};

use crate::declarations::declarations;
use crate::fault::LrlexFault;
use crate::flags::{TextFlags, header};
use crate::line::{Line, read_line};
use crate::part::Part;
use crate::rules::LrlexRules;
use crate::states::{Starts, StateName};
use lrpar_grammar::grammar::YaccGrammar;
use lrpar_grammar_places::span::{Span, StorageIndex};
use lrpar_lexer::LexRule;
use std::alloc::{AllocError, Global};

/// The rules of a `.l` file of lrlex, with tokens of the grammar. First comes `%grmtools{FLAGS}`, if it is there; then lines that declare
/// start states; then a line `%%`; then the rules, one a line.
///
/// FLAGS are separated by commas, and `!` in front turns a flag off. `multi_line` and `octal` are on at first, as in lrlex, and
/// `case_insensitive`, `swap_greed` and `allow_wholeline_comments` are off; `unicode` is on. `dot_matches_new_line` is off, other than in
/// lrlex: `.` doesn't match a line feed. Other flags of lrlex are refused.
///
/// `%x NAMES` declares exclusive start states, and `%s NAMES` inclusive ones, with spaces between the names. The state `INITIAL` is always
/// there, and is inclusive. A line that begins with `//` is a comment.
///
/// A rule is `<STATES>PATTERN <TARGET>NAME`, with spaces or tabs before the last word. The name is a token of the grammar, in double
/// quotes, in single ones or plain; a semicolon in its place skips the matches. `<STATES>` may be left out, and so may `<TARGET>`. STATES are
/// separated by commas. TARGET is `+STATE`, which pushes a state, `-STATE`, which pops the state on top, whichever it is, or `STATE`, which
/// leaves that state alone on the stack. After the flag `allow_wholeline_comments` a line that begins with `//` is a comment here too.
///
/// A pattern is one of `regex`. A backslash before a character is left out if `regex` gives that escape no meaning, or if the character is
/// `<` or `>`.
///
/// Spaces, tabs and carriage returns at both ends of a line are ignored. A fault is the first of the text. In a line of a rule, its form
/// comes first, then the states in front, the target, the name, and at last the pattern. Takes time linear in the text times the number of
/// states, and what `regex` takes for each pattern.
pub fn rules_of_lrlex<StorageT: StorageIndex>(
    alloc: Global,
    grm: &YaccGrammar<StorageT>,
    text: &str,
) -> Result<LrlexRules<StorageT>, LrlexFault>
    ensures rules { IfOk result (IsReadFrom StorageT.index grm.now text.now) }
    ensures fault { IfErr result (IsLrlexFaultOf StorageT.index grm.now text.now) }
{
    let (flags, rest) = match header(Part::whole(text)) {
        Ok(header) => header,
        Err(fault) => return Err(fault),
    };
    let (states, lines) = match declarations(alloc, rest) {
        Ok(declared) => declared,
        Err(fault) => return Err(fault),
    };
    let exclusive = exclusive_of(alloc, &states)?;
    let (rules, starts) = rules_in(alloc, grm, &states, &flags, lines)?;
    Ok(LrlexRules {
        exclusive,
        rules,
        starts,
    })
}

// For each state whether it is exclusive.
fn exclusive_of(alloc: Global, states: &[StateName]) -> Result<Vec<bool>, AllocError>
    ensures { IfOk result (AreExclusive states.now) }
{
    let mut exclusive = Vec::new(alloc);
    'states: for state in states {
        exclusive.push(state.exclusive)?;
    }
    Ok(exclusive)
}

// The rules of lines, and their states and targets.
fn rules_in<StorageT: StorageIndex>(
    alloc: Global,
    grm: &YaccGrammar<StorageT>,
    states: &[StateName],
    flags: &TextFlags,
    lines: Option<Part>,
) -> Result<(Vec<LexRule<StorageT>>, Vec<Starts>), LrlexFault>
    ensures rules { IfOk result (AreRulesIn StorageT.index grm.now states.now flags.now lines.entry) }
    ensures paired { IfOk result ArePaired }
    ensures fault { IfErr result (IsFirstFaultIn StorageT.index grm.now states.now flags.now lines.entry) }
{
    let mut rules = Vec::new(alloc);
    let mut starts = Vec::new(alloc);
    let mut left = lines;
    'lines: while let Some(part) = left {
        let (line, rest) = part.cut('\n');
        let core = line.trimmed();
        left = rest;
        if counts(flags, core) {
            let (rule, start) = rule_of(alloc, grm, states, flags, core)?;
            rules.push(rule)?;
            starts.push(start)?;
        }
    }
    Ok((rules, starts))
}

// Whether a line has a rule: it isn't empty, and no comment.
fn counts(flags: &TextFlags, line: Part) -> bool
    ensures { result ≡ counts flags.now (placed line.entry) }
{
    !(line.text.is_empty() || flags.comments && line.is_comment())
}

// The rule of a line, and its states and its target.
fn rule_of<StorageT: StorageIndex>(
    alloc: Global,
    grm: &YaccGrammar<StorageT>,
    states: &[StateName],
    flags: &TextFlags,
    line: Part,
) -> Result<(LexRule<StorageT>, Starts), LrlexFault>
    ensures rule { IfOk result (IsRuleIn StorageT.index grm.now states.now flags.now line.entry) }
    ensures fault { IfErr result (IsFaultIn grm.now states.now flags.now line.entry) }
{
    let Line {
        pattern,
        place,
        states,
        target,
        token,
    } = read_line(alloc, grm, states, line)?;
    match LexRule::with_config(alloc, &pattern, &flags.config, token) {
        Ok(rule) => Ok((rule, Starts { states, target })),
        Err(error) => Err(refusal(place, &error)),
    }
}

// The fault of a pattern at this place that is refused.
fn refusal(place: Span, error: &regex::Error) -> LrlexFault
    ensures { IsRefusedAt place error.now result }
{
    match error {
        regex::Error::OutOfMemory => LrlexFault::Memory,
        refusal => LrlexFault::Pattern(place, *refusal),
    }
}
