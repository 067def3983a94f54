//! Rules with start states.
ghost use Rattle.std.specs.Prelude.{◌≡◌, length};

use crate::states::Starts;
use lrpar_lexer::LexRule;

/// The rules of a lexer with start states: for each state whether it is exclusive, and for each rule its pattern and token, the states in
/// which it is active, and what its match does to the stack of states. State 0 is `INITIAL`.
pub struct LrlexRules<StorageT = u32> {
    pub(crate) exclusive: Vec<bool>,
    pub(crate) rules: Vec<LexRule<StorageT>>,
    pub(crate) starts: Vec<Starts>,
    ghost paired: { length starts.items ≡ length rules.items },
}

// Hand-written, so that code that drops rules needs the proof of one call only.
impl<StorageT: Drop> Drop for LrlexRules<StorageT> {
    fn drop(self) {
        let LrlexRules {
            exclusive,
            rules,
            starts,
        } = self;
        drop(exclusive);
        drop(rules);
        drop(starts);
    }
}

impl<StorageT> LrlexRules<StorageT> {
    /// The patterns and tokens of the rules, in the order of the file.
    pub fn rules(&self) -> &[LexRule<StorageT>]
        ensures { result.now ≡ self.now.rules.items }
    {
        &self.rules
    }
}
