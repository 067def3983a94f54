//! Texts, and what is shown of each.
use crate::language::{MESSAGES, new_language};
use crate::shown;
use lrpar_language::Language;
use lrpar_messages::{Messages, error_groups};
use lrpar_table_stops::ErrorStates;
use std::alloc::Global;
use std::process::Abort;
use std::test::Fail;

const SHOWN: [(&str, &str); 5] = [
    ("", ""),
    (
        "width = 80;\nheight = 20 + 4;",
        "width is 80\nheight is 24\n",
    ),
    (
        "width 80;",
        "input:1:6: error: expected '=' and a number after the name 'width', not '80'\n1| width 80;\n        ^\nhelp: insert '='\n1| width = 80;\n        ++\nwidth is 80\n",
    ),
    (
        "width = ;",
        "input:1:8: error: expected a number after '=', not ';'\n1| width = ;\n          ^\nhelp: insert a number\nwidth is 0\n",
    ),
    (
        "width = 8 & 4;",
        "input:1:11: error: unknown text '&', expected ';' or '+'\n1| width = 8 & 4;\n             ^ the lexer gives no token here\nhelp: replace '&' by '+'\n1| width = 8 + 4;\n             ~\nhelp: or delete '& 4'\nwidth is 12\n",
    ),
];

#[test]
fn settings(rt: HostRuntime) -> Result<(), Fail> {
    let language = new_language(rt.alloc())?;
    are_shown(&rt, rt.alloc(), &language)
}

// What is shown of each text is what the row says.
fn are_shown(rt: &impl Abort, alloc: Global, language: &Language) -> Result<(), Fail> {
    for (text, expected) in &SHOWN {
        let found = shown(alloc, language, *text)?;
        assert_eq!(rt; found.as_str(), *expected);
    }
    Ok(())
}

#[test]
fn each_error_has_a_message(rt: HostRuntime) -> Result<(), Fail> {
    let (alloc, language) = (rt.alloc(), new_language(rt.alloc())?);
    let stops = ErrorStates::new(alloc, language.data())?;
    let (messages, faults) = Messages::check(alloc, language.data(), &stops, MESSAGES)?;
    assert!(rt; faults.is_empty());
    for state in error_groups(alloc, language.data(), &stops)? {
        let message = messages.of(language.data().sgraph(), state);
        assert!(rt; message.is_some());
    }
    Ok(())
}
