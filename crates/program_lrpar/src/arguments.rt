//! The words after the program's name as a command.
use program_files::fault::{Fault, Misuse};

/// A command, with its words.
#[derive(Clone, Copy)]
pub(crate) enum Command<'a> {
    /// Parses the text as a sum.
    Demo {
        text: &'a str,
    },
    /// Parses the file `input` by the grammar and the lexer's rules of two files, and by the repairs of a fourth one.
    Tree {
        shifts: Option<usize>,
        paths: TreePaths<'a>,
    },
    /// Builds and checks the table of the grammar of a file.
    Check {
        grammar: &'a str,
        cap: u16,
    },
    /// Prints the conflicts of the table of the grammar of a file.
    Conflicts {
        grammar: &'a str,
    },
    /// Computes the lines of standard input, by the repairs of a file.
    Calc {
        shifts: Option<usize>,
        repairs: Option<&'a str>,
    },
}

/// The paths of the files that `tree` reads.
#[derive(Clone, Copy)]
pub(crate) struct TreePaths<'a> {
    pub(crate) grammar: &'a str,
    pub(crate) lexer: &'a str,
    pub(crate) input: &'a str,
    pub(crate) repairs: Option<&'a str>,
}

/// The command of these words.
pub(crate) fn command_of(args: &[String]) -> Result<Command<'_>, Fault> {
    match args {
        [name, text] if name.as_str() == "demo" => Ok(Command::Demo {
            text: text.as_str(),
        }),
        [name, words @ ..] if name.as_str() == "tree" => tree(words),
        [name, words @ ..] if name.as_str() == "check" => check(words),
        [name, grammar] if name.as_str() == "conflicts" => Ok(Command::Conflicts {
            grammar: grammar.as_str(),
        }),
        [name, words @ ..] if name.as_str() == "calc" => calc(words),
        _ => Err(Fault::Usage(Misuse::Command)),
    }
}

// The command `tree` of the words after it.
fn tree(words: &[String]) -> Result<Command<'_>, Fault> {
    let (shifts, words) = option(words)?;
    let paths = tree_paths(words)?;
    Ok(Command::Tree {
        shifts: nonzero(shifts)?,
        paths,
    })
}

// The paths of the words after `tree` and its option.
fn tree_paths(words: &[String]) -> Result<TreePaths<'_>, Fault> {
    match words {
        [grammar, lexer, input, repairs @ ..] => Ok(TreePaths {
            grammar: grammar.as_str(),
            lexer: lexer.as_str(),
            input: input.as_str(),
            repairs: path_if_any(repairs)?,
        }),
        _ => Err(Fault::Usage(Misuse::Command)),
    }
}

// The path of the last words, which may be missing.
fn path_if_any(words: &[String]) -> Result<Option<&str>, Fault> {
    match words {
        [] => Ok(None),
        [path] => Ok(Some(path.as_str())),
        _ => Err(Fault::Usage(Misuse::Command)),
    }
}

// The command `check` of the words after it.
fn check(words: &[String]) -> Result<Command<'_>, Fault> {
    let [grammar, cap] = words else {
        return Err(Fault::Usage(Misuse::Command));
    };
    match digits(cap.as_str(), 5).parse::<u16>() {
        Ok(cap) => Ok(Command::Check {
            grammar: grammar.as_str(),
            cap,
        }),
        Err(_) => Err(Fault::Usage(Misuse::Command)),
    }
}

// The command `calc` of the words after it.
fn calc(words: &[String]) -> Result<Command<'_>, Fault> {
    let (shifts, words) = option(words)?;
    let repairs = path_if_any(words)?;
    Ok(Command::Calc {
        shifts: nonzero(shifts)?,
        repairs,
    })
}

// The number of the option `--shifts`, if the words begin with it, and the words after it.
fn option(words: &[String]) -> Result<(Option<usize>, &[String]), Fault> {
    match words {
        [name, rest @ ..] if name.as_str() == "--shifts" => {
            let [count, paths @ ..] = rest else {
                return Err(Fault::Usage(Misuse::Command));
            };
            match digits(count.as_str(), 9).parse::<usize>() {
                Ok(count) => Ok((Some(count), paths)),
                Err(_) => Err(Fault::Usage(Misuse::Command)),
            }
        }
        _ => Ok((None, words)),
    }
}

// The number, which may not be 0.
fn nonzero(shifts: Option<usize>) -> Result<Option<usize>, Fault> {
    match shifts {
        Some(0) => Err(Fault::ZeroShifts),
        shifts => Ok(shifts),
    }
}

// The word, if it has ASCII digits alone and at most `most` of them; else nothing.
fn digits(word: &str, most: usize) -> &str {
    if word.len() <= most && word.bytes().all(|byte| byte.is_ascii_digit()) {
        word
    } else {
        ""
    }
}
