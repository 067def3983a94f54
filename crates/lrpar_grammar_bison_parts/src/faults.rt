//! Why a `.y` file has no grammar.
ghost use Rattle.std.specs.Prelude.{◌≡◌};
ghost use Rattle.lrpar_grammar_bison_parts.specs.declared.faults.BisonFault.TheVariants.{Memory};
ghost use Rattle.lrpar_grammar_bison_parts.specs.Faults.{of_grammar, of_rules};

use lrpar_grammar_bison_rules::rules::RulesFault;
use lrpar_grammar_places::span::Span;
use lrpar_grammar_reader::parts::GrammarFault;
use std::alloc::{AllocError, AllocFailed};

/// Why a `.y` file has no grammar. A failed allocation is always `Memory`, and never in another variant.
#[derive(Clone, Debug, Drop, PartialEq, Eq)]
pub enum BisonFault {
    /// Its declarations and rules can't be read.
    Rules(RulesFault),
    /// A second `%prec` of one alternative.
    RepeatedPrec(Span),
    /// A second `%empty` of one alternative.
    RepeatedEmpty(Span),
    /// A `%empty` in an alternative that has symbols, or actions in the place of some.
    NotEmpty(Span),
    /// A number that no token can have.
    BadNumber(Span),
    /// A number of a token that has another one.
    RepeatedNumber(Span),
    /// A token whose precedence is declared a second time.
    RepeatedPrecedence(Span),
    /// A fault of the declarations and rules.
    Grammar(GrammarFault),
    /// An allocation failed.
    Memory,
}

impl From<RulesFault> for BisonFault {
    ghost from_gives = { λ e fault. fault ≡ of_rules e };

    fn from(fault: RulesFault) -> BisonFault {
        match fault {
            RulesFault::Memory => BisonFault::Memory,
            fault => BisonFault::Rules(fault),
        }
    }
}

impl From<GrammarFault> for BisonFault {
    ghost from_gives = { λ e fault. fault ≡ of_grammar e };

    fn from(fault: GrammarFault) -> BisonFault {
        match fault {
            GrammarFault::Memory => BisonFault::Memory,
            fault => BisonFault::Grammar(fault),
        }
    }
}

impl From<AllocError> for BisonFault {
    ghost from_gives = { λ _ fault. fault ≡ Memory };

    fn from(_: AllocError) -> BisonFault {
        BisonFault::Memory
    }
}

impl<T: Drop> From<AllocFailed<T>> for BisonFault {
    ghost from_gives = { λ _ fault. fault ≡ Memory };

    fn from(_: AllocFailed<T>) -> BisonFault {
        BisonFault::Memory
    }
}
