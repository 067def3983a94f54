//! Conflicts, and the grammar that they are of.
use crate::expectations::holds;
use lrpar_grammar::grammar::YaccGrammar;
use lrpar_table::build::from_yacc;
use std::alloc::Global;
use std::process::Abort;
use std::test::Fail;

// Whether the table of the grammar has conflicts, and they fit the grammar.
fn fit(rt: &impl Abort, alloc: Global, grm: &YaccGrammar<u8>) -> bool {
    let (_, table) = from_yacc(alloc, grm, 100).expect(rt, "a table");
    match table.conflicts() {
        Some(conflicts) => conflicts.fit(grm),
        None => false,
    }
}

#[test]
fn conflicts_fit_their_grammar(rt: HostRuntime) -> Result<(), Fail> {
    let text = "%start A\n%%\nA : 'a' 'b' | B 'b';\nB : 'a' | C;\nC : 'a';";
    let grm = YaccGrammar::new_with_storaget(rt.alloc(), text).expect(&rt, "a grammar");
    holds(&rt, &"its own", fit(&rt, rt.alloc(), &grm));
    Ok(())
}
