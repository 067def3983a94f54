//! Spellings that people mix up.
use lrpar_report::nearest;

/// Operators and words that mean the same in different languages.
const SPELLINGS: [(&str, &str); 20] = [
    ("&&", "and"),
    ("||", "or"),
    ("!", "not"),
    ("!=", "~="),
    ("<>", "~="),
    ("<>", "!="),
    ("=<", "<="),
    ("=>", ">="),
    ("===", "=="),
    ("!==", "!="),
    (":=", "="),
    ("None", "null"),
    ("nil", "null"),
    ("NULL", "null"),
    ("undefined", "null"),
    ("True", "true"),
    ("False", "false"),
    ("elif", "elseif"),
    ("elsif", "elseif"),
    ("function", "def"),
];

/// Whether both texts mean the same in different languages.
pub(crate) fn mean_the_same(old: &str, new: &str) -> bool {
    for (one, other) in &SPELLINGS {
        if are_these(old, new, one, other) || are_these(new, old, one, other) {
            return true;
        }
    }
    false
}

// Whether the first two texts are the other two.
fn are_these(old: &str, new: &str, one: &str, other: &str) -> bool {
    old == one && new == other
}

/// Whether one slip of the keyboard makes the first word of the second one, which has at least three characters.
pub(crate) fn are_near(old: &str, new: &str) -> bool {
    new.len() > 2 && old.len() > 1 && nearest(old, &[new]).is_some()
}
