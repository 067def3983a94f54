//! What is printed for tokens: by a function of the caller, or by a grammar.
ghost use Rattle.std.specs.Prelude.{ℕ, List, Option, IfOk};
ghost use Rattle.lrpar_parse_errors.specs.Printed.{AppendsAnswer, AppendsName, IsPrintedName, printed_by};

use lrpar_grammar::grammar::YaccGrammar;
use lrpar_grammar::span::{StorageIndex, TIdx};
use std::alloc::AllocError;

// What prints a name for a token, or nothing. It adds the name to a text, so that a grammar's names needn't live as long as an input.
// The lifetime is that of a function's names.
pub(crate) trait TokenNames<'name, StorageT: StorageIndex> {
    // Whether it may be asked for names.
    ghost can_name: { Self → Type 0 };

    // What it may print for a token of this number.
    ghost prints: { Self → ℕ → Option (List ℕ) → Type 0 };

    // Adds the token's name, and returns whether there is one. `Err`: out of memory.
    fn push_name(&self, out: &mut String, token: TIdx<StorageT>) -> Result<bool, AllocError>
        requires { can_name self.now }
        ensures { IfOk result (AppendsName StorageT.index (prints self.now) token out.old out.new) };
}

// A function of the caller.
#[derive(Drop)]
pub(crate) struct ByFunction<F>(pub F);

impl<'name, StorageT: StorageIndex, F: Fn(TIdx<StorageT>) -> Option<&'name str>> TokenNames<
    'name,
    StorageT,
> for ByFunction<F> {
    ghost can_name = { λ by. F.IsAlwaysCallable by.0 };

    ghost prints = { λ by. printed_by StorageT.index (F.post by.0) };

    fn push_name(&self, out: &mut String, token: TIdx<StorageT>) -> Result<bool, AllocError>
        requires { F.IsAlwaysCallable self.now.0 }
        ensures { IfOk result (AppendsAnswer StorageT.index (F.post self.now.0) token out.old out.new) }
    {
        match (self.0)(token) {
            Some(name) => {
                out.push_str(name)?;
                Ok(true)
            }
            None => Ok(false),
        }
    }
}

impl<'name, StorageT: StorageIndex> TokenNames<'name, StorageT> for YaccGrammar<StorageT> {
    ghost can_name = { λ _. Unit {0} };

    ghost prints = { λ g. IsPrintedName g };

    fn push_name(&self, out: &mut String, token: TIdx<StorageT>) -> Result<bool, AllocError>
        ensures { IfOk result (AppendsName StorageT.index (IsPrintedName self.now) token out.old out.new) }
    {
        out.push_str(self.epp_of(token))?;
        Ok(true)
    }
}
