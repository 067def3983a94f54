//! A rule of a lexer.
ghost use Rattle.std.specs.Prelude.{◌≡◌, ◌≢◌, IfOk, IfErr};
ghost use Rattle.regex.specs.Patterns.{default_config};
ghost use Rattle.regex.specs.Failures.{IsRightKind};
ghost use Rattle.regex.specs.Sources.{IsRefusal};
ghost use Rattle.regex.specs.declared.error.Error.TheVariants.{Internal};
ghost use Rattle.regex_hir.specs.Meaning.{meaning};
ghost use Rattle.regex_meta.specs.Programs.{pattern_of};
ghost use Rattle.lrpar_lexer.specs.Anchored.{FindsAtStart, IsAfterStart, after_start, without_start};

use lrpar_grammar_places::span::{StorageIndex, TIdx};
use regex::Error;
use regex_hir::{Hir, Look};
use regex_meta::Program;
use regex_syntax::{Config, Parsed};
use std::alloc::{AllocError, Global};
use std::fmt;

/// The limit in bytes for a compiled pattern: a little more than the 10 MiB of `regex`, as there is one more assertion.
const SIZE_LIMIT: usize = 11 << 20;

/// A rule: a pattern, and the token of its matches. The matches of a rule without a token are skipped.
pub struct LexRule<StorageT = u32> {
    /// The pattern after an assertion that the text starts there, so that a search of the rest of a text reads no further than
    /// a match at its start could.
    pub(crate) anchored: Program,
    pub(crate) token: Option<TIdx<StorageT>>,
    ghost finds: { FindsAtStart anchored (without_start (pattern_of anchored)) },
}

// Hand-written, so that code that drops a rule needs the proof of one call only.
impl<StorageT: Drop> Drop for LexRule<StorageT> {
    fn drop(self) {
        let LexRule { anchored, token: _ } = self;
        drop(anchored);
    }
}

impl<StorageT: StorageIndex> LexRule<StorageT> {
    ghost use Rattle.lrpar_lexer.specs.Rules.{HasPattern, HasPatternBy, HasToken};

    /// The rule with this pattern and token. Fails as `regex` fails for the pattern. The pattern is compiled only here.
    pub fn new(alloc: Global, pattern: &str, token: Option<TIdx<StorageT>>) -> Result<Self, Error>
        ensures pattern { IfOk result (HasPattern pattern.now) }
        ensures token { IfOk result (HasToken StorageT.index token) }
        ensures refused { IfErr result (IsRefusal default_config pattern.now) }
        ensures kind { IfErr result (IsRightKind default_config pattern.now) }
        ensures no_internal { IfErr result (λ error. error ≢ Internal) }
    {
        LexRule::with_config(alloc, pattern, &Config::default(), token)
    }

    /// A rule with these options of its pattern: the flags at its start, octal escapes, and how deep it may nest.
    pub fn with_config(
        alloc: Global,
        pattern: &str,
        config: &Config,
        token: Option<TIdx<StorageT>>,
    ) -> Result<Self, Error>
        ensures pattern { IfOk result (HasPatternBy config.now pattern.now) }
        ensures token { IfOk result (HasToken StorageT.index token) }
        ensures refused { IfErr result (IsRefusal config.now pattern.now) }
        ensures kind { IfErr result (IsRightKind config.now pattern.now) }
        ensures no_internal { IfErr result (λ error. error ≢ Internal) }
    {
        let anchored = anchored(alloc, pattern, config)?;
        Ok(LexRule { anchored, token })
    }

    /// The token of the pattern's matches, if they have one.
    pub fn token(&self) -> Option<TIdx<StorageT>>
        ensures { HasToken StorageT.index result self.now }
    {
        self.token
    }
}

impl<StorageT: fmt::Debug> fmt::Debug for LexRule<StorageT> {
    fn fmt<W: fmt::Write>(&self, f: &mut fmt::Formatter<W>) -> fmt::Result {
        f.debug_struct("LexRule")
            .field("token", &self.token)
            .finish()
    }
}

// The program that finds at the start of a text what the pattern finds there.
fn anchored(alloc: Global, pattern: &str, config: &Config) -> Result<Program, Error>
    ensures read { IfOk result (IsAfterStart config.now pattern.now) }
    ensures refused { IfErr result (IsRefusal config.now pattern.now) }
    ensures kind { IfErr result (IsRightKind config.now pattern.now) }
    ensures no_internal { IfErr result (λ error. error ≢ Internal) }
{
    let Parsed { hir, names } = regex_syntax::parse(alloc, pattern, config)?;
    let Ok(groups) = u32::try_from(names.len()) else {
        return Err(Error::CompiledTooBig);
    };
    let tree = after_start(alloc, hir)?;
    Ok(Program::new(alloc, tree, groups, SIZE_LIMIT)?)
}

// The tree after an assertion that the text starts there.
fn after_start(alloc: Global, hir: Hir) -> Result<Hir, AllocError>
    ensures { IfOk result (λ tree. meaning tree ≡ after_start (meaning hir)) }
{
    let mut parts = Vec::with_capacity(alloc, 2)?;
    parts.push(Hir::Look(Look::Start))?;
    parts.push(hir)?;
    Ok(Hir::Concat(parts))
}
