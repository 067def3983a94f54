//! Texts of faults that no case has, since an allocation fails.
use crate::expectations::same;
use lrpar_grammar::grammar::GrammarFault;
use lrpar_table::build::BuildFault;
use lrpar_table::check::{CheckFault, CompleteFault};
use lrpar_table::table::TableFault;
use std::alloc::Global;
use std::fmt;
use std::process::Abort;
use std::test::Fail;

#[test]
fn out_of_memory_as_text(rt: HostRuntime) -> Result<(), Fail> {
    is_out_of_memory(&rt, rt.alloc(), &GrammarFault::Memory);
    is_out_of_memory(&rt, rt.alloc(), &BuildFault::Memory);
    is_out_of_memory(&rt, rt.alloc(), &TableFault::Memory);
    is_out_of_memory(&rt, rt.alloc(), &CheckFault::Memory);
    is_out_of_memory(&rt, rt.alloc(), &CompleteFault::Memory);
    Ok(())
}

// The fault has the text of a failed allocation.
fn is_out_of_memory<E: fmt::Display>(rt: &impl Abort, alloc: Global, fault: &E) {
    let text = format!(in alloc; "{fault}").expect(rt, "memory");
    same(rt, &"a text", &text.as_str(), &"out of memory");
}
