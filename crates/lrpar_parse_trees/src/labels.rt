//! Texts in labels of graphs.
ghost use Rattle.std.specs.Prelude.{◌≡◌, ◌<◌};
ghost use Rattle.lrpar_parse_lexemes.specs.Strings.{Pushes};
ghost use Rattle.lrpar_parse_trees.specs.Labels.{is_control, label_char, label_text, shown_hex};

use crate::escapes::push_hex;
use std::alloc::AllocError;

/// Adds the text, escaped as between the double quotes of a label, so that Graphviz shows the text: `"` and `\` after a `\`, a line
/// feed as `\n`, and `&` as `&amp;`. Graphviz shows a tab as `\t`, a carriage return as `\r`, and any other control character as `\u00`
/// and two hexadecimal digits. Takes time linear in the text. After an `Err`, which means out of memory, `out` has its old text and
/// some of the new one.
pub(crate) fn push_label(out: &mut String, text: &str) -> Result<(), AllocError>
    ensures { Pushes (label_text text.now) out.old out.new result }
{
    for c in text.chars() {
        push_label_char(out, c)?;
    }
    Ok(())
}

// Adds a character, escaped.
fn push_label_char(out: &mut String, c: char) -> Result<(), AllocError>
    ensures { Pushes (label_char c) out.old out.new result }
{
    match c {
        '"' => out.push_str("\\\""),
        '\\' => out.push_str("\\\\"),
        '\n' => out.push_str("\\n"),
        '&' => out.push_str("&amp;"),
        '\t' => out.push_str("\\\\t"),
        '\r' => out.push_str("\\\\r"),
        _ if is_control(c) => push_shown_hex(out, u32::from(c)),
        _ => out.push(c),
    }
}

// Adds a control character by its number, so that it is shown.
fn push_shown_hex(out: &mut String, number: u32) -> Result<(), AllocError>
    requires { number < 256 }
    ensures { Pushes (shown_hex number) out.old out.new result }
{
    out.push('\\')?;
    push_hex(out, number)
}

// Whether a character is a control character.
fn is_control(c: char) -> bool
    ensures { result ≡ is_control c }
{
    let number = u32::from(c);
    number < 32 || 126 < number && number < 160
}
