//! Why a text isn't a `.l` file.
use lrpar_grammar_places::span::Span;
use std::alloc::{AllocError, AllocFailed};
use thiserror::Error;

/// Why a text gives no rules. Each fault has its place in the text, in bytes.
#[derive(Clone, Copy, Debug, PartialEq, Eq, Error)]
pub enum LrlexFault {
    /// After `%grmtools` there is no `{`, or it isn't closed. The place is all from `%grmtools` on.
    #[error("expected {{FLAGS}} after %grmtools, at byte {at}", at = .0.start())]
    Header(Span),
    /// A flag of `%grmtools` that isn't honoured here, or none at all.
    #[error("flag isn't supported, at byte {at}", at = .0.start())]
    Flag(Span),
    /// A line before `%%` that declares no start states.
    #[error("expected %x NAMES, %s NAMES or %%, at byte {at}", at = .0.start())]
    Declaration(Span),
    /// The name of a start state has a character that is no ASCII letter, digit, `_` or `.`, or begins with no letter.
    #[error("bad name of a start state, at byte {at}", at = .0.start())]
    StateName(Span),
    /// A start state that is declared already, as `INITIAL` always is.
    #[error("repeated start state, at byte {at}", at = .0.start())]
    RepeatedState(Span),
    /// There is no line `%%`.
    #[error("no line %%")]
    NoRules,
    /// A `<` in front of a pattern or a name isn't closed. The place begins with it.
    #[error("< isn't closed, at byte {at}", at = .0.start())]
    OpenState(Span),
    /// A line after `%%` has no pattern, or nothing after its pattern. The place is the whole line.
    #[error("expected PATTERN NAME or PATTERN ;, at byte {at}", at = .0.start())]
    NoPattern(Span),
    /// A name begins with a quote and doesn't end with that quote.
    #[error("quote isn't closed, at byte {at}", at = .0.start())]
    OpenQuote(Span),
    /// There is no name after a target.
    #[error("expected a name or ; at byte {at}", at = .0.start())]
    NoName(Span),
    /// A start state that isn't declared.
    #[error("unknown start state, at byte {at}", at = .0.start())]
    UnknownState(Span),
    /// A name that isn't the name of a token of the grammar.
    #[error("the grammar has no token of this name, at byte {at}", at = .0.start())]
    UnknownToken(Span),
    /// `regex` refuses the pattern at this place, with this error. The places of the error are bytes of the pattern after its escapes were
    /// replaced.
    #[error("bad pattern at byte {at}: {1}", at = .0.start())]
    Pattern(Span, regex::Error),
    /// An allocation failed.
    #[error("out of memory")]
    Memory,
}

impl LrlexFault {
    ghost use Rattle.std.specs.Prelude.{◌≡◌};
    ghost use Rattle.lrpar_lexer_lrlex.specs.FaultPlaces.{place_of};

    /// The place of the fault in the text. `NoRules` and `Memory` have none.
    pub fn span(&self) -> Option<Span>
        ensures { result ≡ place_of self.now }
    {
        match *self {
            LrlexFault::Header(span)
            | LrlexFault::Flag(span)
            | LrlexFault::Declaration(span)
            | LrlexFault::StateName(span)
            | LrlexFault::RepeatedState(span)
            | LrlexFault::OpenState(span)
            | LrlexFault::NoPattern(span)
            | LrlexFault::OpenQuote(span)
            | LrlexFault::NoName(span)
            | LrlexFault::UnknownState(span)
            | LrlexFault::UnknownToken(span)
            | LrlexFault::Pattern(span, _) => Some(span),
            LrlexFault::NoRules | LrlexFault::Memory => None,
        }
    }
}

impl From<AllocError> for LrlexFault {
    ghost use Rattle.std.specs.Prelude.{◌≡◌};
    ghost use Rattle.lrpar_lexer_lrlex.specs.declared.fault.LrlexFault.TheVariants.{Memory};

    ghost from_gives = { λ _ fault. fault ≡ Memory };

    fn from(_: AllocError) -> LrlexFault {
        LrlexFault::Memory
    }
}

impl<T: Drop> From<AllocFailed<T>> for LrlexFault {
    ghost use Rattle.std.specs.Prelude.{◌≡◌};
    ghost use Rattle.lrpar_lexer_lrlex.specs.declared.fault.LrlexFault.TheVariants.{Memory};

    ghost from_gives = { λ _ fault. fault ≡ Memory };

    fn from(_: AllocFailed<T>) -> LrlexFault {
        LrlexFault::Memory
    }
}
