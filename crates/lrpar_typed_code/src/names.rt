//! Names in code.
use std::alloc::{AllocError, Global};

// Words that no name can be.
const KEYWORDS: [&str; 53] = [
    "abstract", "as", "async", "await", "become", "box", "break", "const", "continue", "crate",
    "do", "dyn", "else", "ensures", "enum", "extern", "false", "final", "fn", "for", "ghost", "if",
    "impl", "in", "let", "loop", "macro", "match", "mod", "move", "mut", "override", "priv", "pub",
    "ref", "requires", "return", "self", "static", "struct", "super", "trait", "true", "try",
    "type", "typeof", "unsafe", "unsized", "use", "virtual", "where", "while", "yield",
];

// Names that the code has beside those of arguments.
const TAKEN: [&str; 10] = [
    "actions",
    "args",
    "assumption",
    "at",
    "ground",
    "holds",
    "kind",
    "made",
    "production",
    "result",
];

// Words that a clause has in quotes, if they are names.
const QUOTED: [&str; 22] = [
    "abbrev",
    "axiom",
    "coe",
    "com",
    "data",
    "deriving",
    "elim",
    "fcoe",
    "hcom",
    "infix",
    "infixl",
    "infixr",
    "module",
    "mutual",
    "open",
    "package",
    "record",
    "ruleset",
    "tcoe",
    "unfold",
    "unfoldable",
    "unfolding",
];

/// A name in snake case: `AddSetting` as `add_setting`.
pub(crate) fn snake(alloc: Global, name: &str) -> Result<String, AllocError> {
    let mut snake = String::new(alloc);
    let mut is_inside = false;
    for letter in name.chars() {
        if letter.is_ascii_uppercase() {
            if is_inside {
                snake.push('_')?;
            }
            is_inside = false;
        } else {
            is_inside = letter != '_';
        }
        snake.push(letter.to_ascii_lowercase())?;
    }
    Ok(snake)
}

/// A name in camel case: `add_setting` as `AddSetting`.
pub(crate) fn camel(alloc: Global, name: &str) -> Result<String, AllocError> {
    let mut camel = String::new(alloc);
    let mut is_start = true;
    for letter in name.chars() {
        if letter == '_' {
            is_start = true;
        } else {
            let letter = if is_start {
                letter.to_ascii_uppercase()
            } else {
                letter
            };
            camel.push(letter)?;
            is_start = false;
        }
    }
    Ok(camel)
}

/// A name in lower case and without underscores, by which names in code are compared.
pub(crate) fn folded(alloc: Global, name: &str) -> Result<String, AllocError> {
    let mut folded = String::new(alloc);
    for letter in name.chars() {
        if letter != '_' {
            folded.push(letter.to_ascii_lowercase())?;
        }
    }
    Ok(folded)
}

/// The name of an action: one that is no keyword.
pub(crate) fn action_name(name: String) -> Result<String, AllocError> {
    if KEYWORDS.contains(&name.as_str()) {
        return with_underscore(name);
    }
    Ok(name)
}

/// The name of an argument: one that is no keyword, and that the code has for nothing else.
pub(crate) fn free_name(name: String) -> Result<String, AllocError> {
    if TAKEN.contains(&name.as_str()) {
        return with_underscore(name);
    }
    action_name(name)
}

// The name with an underscore after it.
fn with_underscore(mut name: String) -> Result<String, AllocError> {
    name.push('_')?;
    Ok(name)
}

/// Appends a name as a clause has it.
pub(crate) fn push_in_clause(out: &mut String, name: &str) -> Result<(), AllocError> {
    if QUOTED.contains(&name) {
        out.push('«')?;
        out.push_str(name)?;
        return out.push('»');
    }
    out.push_str(name)
}
