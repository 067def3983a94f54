//! Blanks between tokens that are inserted and the text around them.

/// Whether both characters are in one word, if nothing comes between them.
pub(crate) fn join_words(before: char, after: char) -> bool {
    is_in_word(before) && is_in_word(after)
}

/// Whether a blank comes between a character and the one after it, if one of both is inserted.
pub(crate) fn needs_blank(before: char, after: char) -> bool {
    if join_words(before, after) {
        return true;
    }
    if before.is_whitespace() || after.is_whitespace() {
        return false;
    }
    !(closes(after) || opens(before))
}

// Whether a character is part of a word or a number.
fn is_in_word(c: char) -> bool {
    c.is_alphanumeric() || c == '_'
}

// Whether what begins with this character comes right after what is before it.
fn closes(c: char) -> bool {
    matches!(c, ')' | ']' | '}' | ';' | ',' | '.' | ':')
}

// Whether what comes next follows this character without a blank.
fn opens(c: char) -> bool {
    matches!(c, '(' | '[' | '.')
}
