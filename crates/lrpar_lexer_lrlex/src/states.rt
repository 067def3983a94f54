//! Start states, and what rules say of them.
ghost use Rattle.std.specs.Prelude.{◌≡◌};
ghost use Rattle.lrpar_lexer_lrlex.specs.States as spec;
ghost use Rattle.std.specs.List.{list_all};
ghost use Rattle.lrpar_lexer_lrlex.specs.States.{is_in_name, plain_names};

/// A start state of a text.
#[derive(Clone, Copy)]
pub(crate) struct StateName<'t> {
    pub(crate) name: &'t str,
    pub(crate) exclusive: bool,
}

/// What a match does to the stack of states.
#[derive(Clone, Copy, Debug)]
pub(crate) enum Target {
    /// It pushes this state.
    Push(usize),
    /// It pops the state on top.
    Pop,
    /// It leaves this state alone.
    Set(usize),
}

/// The states in which a rule is active, and its target. Without states it is active in each inclusive one.
#[derive(Debug, Drop)]
pub(crate) struct Starts {
    pub(crate) states: Vec<usize>,
    pub(crate) target: Option<Target>,
}

// The number of the state with that name.
pub(crate) fn state_named(states: &[StateName], name: &str) -> Option<usize>
    ensures { result ≡ spec.state_named (plain_names states.now) name.now }
{
    states.iter().position(|state| state.name == name)
}

// Whether the text is the name of a start state: ASCII letters, digits, `_` and `.`, the first of which is a letter.
pub(crate) fn is_state_name(name: &[u8]) -> bool
    ensures { result ≡ spec.is_state_name name.now }
{
    let [first, rest @ ..] = name else {
        return false;
    };
    first.is_ascii_alphabetic() && are_in_name(rest)
}

// Whether each byte may be in a name.
fn are_in_name(bytes: &[u8]) -> bool
    ensures { result ≡ list_all is_in_name bytes.now }
{
    bytes.iter().all(|byte| is_in_name(*byte))
}

// An ASCII letter, a digit, `_` or `.`.
fn is_in_name(byte: u8) -> bool
    ensures { result ≡ spec.is_in_name byte }
{
    byte.is_ascii_alphanumeric() || byte == b'_' || byte == b'.'
}
