//! The conditions of a safe table.
ghost use Rattle.std.specs.Prelude.{◌≡◌, Some};
ghost use Rattle.lrpar_table_rows.specs.Conditions.{condition_number, condition_text};

use std::fmt;

/// A condition that a safe table meets in each state. Its text is `S` and its number; `S1` is the table's shape.
#[derive(Clone, Copy, Debug, PartialEq, Eq, Hash)]
pub enum SafetyCondition {
    /// The items of the start state have dot 0.
    S2 = 2,
    /// No state shifts the end token.
    S3 = 3,
    /// Each kernel item of a state comes from the core one symbol before, in each state that leads there.
    S4 = 4,
    /// A state that reduces has the complete core of the production, which isn't the start production.
    S5 = 5,
    /// A state that has a core with dot 0 has a goto by its rule, unless the production is the start production.
    S6 = 6,
    /// A state accepts at the end token alone, and only if it has the complete core of the start production.
    S7 = 7,
    /// No shift and no goto leads to the start state, and no other state has the start production's core with dot 0.
    S8 = 8,
}

impl SafetyCondition {
    /// All conditions, in the order in which they are tested.
    pub const ALL: [SafetyCondition; 7] = [
        SafetyCondition::S2,
        SafetyCondition::S3,
        SafetyCondition::S4,
        SafetyCondition::S5,
        SafetyCondition::S6,
        SafetyCondition::S7,
        SafetyCondition::S8,
    ];

    /// Its number.
    pub fn number(self) -> u8
        ensures { result ≡ condition_number self }
    {
        self as u8
    }
}

impl fmt::Display for SafetyCondition {
    ghost output = { λ condition. Some (condition_text condition) };

    fn fmt<W: fmt::Write>(&self, f: &mut fmt::Formatter<W>) -> fmt::Result {
        write!(f, "S{}", self.number())
    }
}
