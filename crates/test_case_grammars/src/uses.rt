//! Which rules of a grammar are reached from its start, and which derive some text.
use lrpar_grammar::grammar::YaccGrammar;
use lrpar_table_sentences::reachable::Reachable;
use lrpar_table_sentences::shortest::Shortest;
use std::alloc::Global;
use test_case_lines::fault::Fault;
use test_case_lines::names::rule_name;
use test_case_lines::printed::Printed;

/// A line for each rule, and the first rule that is reached and derives no text.
pub(crate) fn push_uses(
    printed: &mut Printed,
    alloc: Global,
    grm: &YaccGrammar<u8>,
) -> Result<(), Fault> {
    let shortest = Shortest::new(alloc, grm)?;
    let reached = Reachable::new(alloc, grm)?;
    for rule in grm.iter_rules() {
        push_use(
            printed,
            rule_name(grm, rule),
            reached.is_reachable(rule),
            shortest.derives_text(rule),
        );
    }
    match shortest.unproductive(alloc, grm)? {
        Some(rule) => printed.line("unproductive ", &rule_name(grm, rule)),
        None => printed.text("unproductive none\n"),
    }
    Ok(())
}

// A rule's name, whether it is reached, and whether it derives some text.
fn push_use(printed: &mut Printed, name: &str, is_reachable: bool, derives: bool) {
    printed.texts("use ", name);
    printed.text(if is_reachable {
        ": reached"
    } else {
        ": not reached"
    });
    printed.text(if derives {
        ", derives a text\n"
    } else {
        ", derives none\n"
    });
}
