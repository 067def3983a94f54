//! The conditions of a complete table.
ghost use Rattle.std.specs.Prelude.{◌≡◌, Some};
ghost use Rattle.lrpar_table_conditions.specs.Completeness.{condition_number, condition_text};

use std::fmt;

/// A condition that a complete table meets in each state. Its text is `C` and its number.
#[derive(Clone, Copy, Debug, PartialEq, Eq, Hash)]
pub enum CompletenessCondition {
    /// The start state has the start item `^: . S {end}`.
    C1 = 1,
    /// The items of a state are closed: if an item has a rule after its dot, with the symbols w after the rule, the state has the items
    /// of that rule's productions with dot 0, with each token of First(w, lookahead) as lookahead.
    C2 = 2,
    /// For an item with a token after its dot, the state shifts the token to a state with the advanced item.
    C3 = 3,
    /// For an item with a rule after its dot, the state has a goto by the rule to a state with the advanced item.
    C4 = 4,
    /// For a complete item, the state reduces by its production at its lookahead, or accepts, if it is the start production.
    C5 = 5,
}

impl CompletenessCondition {
    /// All conditions, in the order in which they are tested.
    pub const ALL: [CompletenessCondition; 5] = [
        CompletenessCondition::C1,
        CompletenessCondition::C2,
        CompletenessCondition::C3,
        CompletenessCondition::C4,
        CompletenessCondition::C5,
    ];

    /// Its number.
    pub fn number(self) -> u8
        ensures { result ≡ condition_number self }
    {
        self as u8
    }
}

impl fmt::Display for CompletenessCondition {
    ghost output = { λ condition. Some (condition_text condition) };

    fn fmt<W: fmt::Write>(&self, f: &mut fmt::Formatter<W>) -> fmt::Result {
        write!(f, "C{}", self.number())
    }
}
