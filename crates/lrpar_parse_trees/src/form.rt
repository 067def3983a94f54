//! The two forms in which a tree is written on one line: brackets and JSON.
ghost use Rattle.std.specs.Prelude.{◌≡◌};

/// The form in which a tree is written on one line.
#[derive(Clone, Copy, Debug, PartialEq, Eq)]
pub enum Form {
    /// `Sum[ Term[ INT "2" ] "+" Term[ INT "3" ] ]`: a rule's name, and its trees in brackets. A lexeme is its part of the input between
    /// double quotes, after its token's name if that is another text.
    Brackets,
    /// `{"rule":"Sum","children":[..]}`, and a lexeme as `{"token":"INT","text":"2","start":0,"end":1}`, with `,"inserted":true` at the
    /// end if a repair made it. `start` and `end` are bytes of the input.
    Json,
}

impl Form {
    ghost use Rattle.lrpar_parse_trees.specs.Nested.{end_of, gap};

    // What comes before a tree of a node: its first tree, or another one.
    pub(crate) fn gap(self, is_first: bool) -> &'static str
        ensures { result.now ≡ gap self is_first }
    {
        match self {
            Form::Brackets => " ",
            Form::Json if is_first => "",
            Form::Json => ",",
        }
    }

    // What comes after the trees of a node.
    pub(crate) fn end(self) -> &'static str
        ensures { result.now ≡ end_of self }
    {
        match self {
            Form::Brackets => " ]",
            Form::Json => "]}",
        }
    }
}
