//! Why a case has no table. A failed allocation stays [`Fault::Memory`].
use lrpar_grammar::grammar::GrammarFault;
use lrpar_grammar_yacc::file::YaccFileFault;
use lrpar_table::check::CheckFault;
use lrpar_table::table::TableFault;
use test_case_lines::fault::Fault;

/// Why there is no grammar in this line: this reason, or that an allocation failed.
pub fn of_grammar(fault: GrammarFault, line: usize, text: &'static str) -> Fault {
    match fault {
        GrammarFault::Memory => Fault::Memory,
        _ => Fault::Line(line, text),
    }
}

/// Why there is no grammar of a `.y` file in this line: this reason, or that an allocation failed.
pub fn of_file(fault: &YaccFileFault, line: usize, text: &'static str) -> Fault {
    match fault {
        YaccFileFault::Memory => Fault::Memory,
        _ => Fault::Line(line, text),
    }
}

/// Why there are no item sets or no rows in this line: this reason, or that an allocation failed.
pub fn of_rows(fault: TableFault, line: usize, text: &'static str) -> Fault {
    match fault {
        TableFault::Memory => Fault::Memory,
        TableFault::BadIndex => Fault::Line(line, text),
    }
}

/// Why there is no checked table in this line: this reason, or that an allocation failed.
pub fn of_check(fault: CheckFault, line: usize, text: &'static str) -> Fault {
    match fault {
        CheckFault::Memory => Fault::Memory,
        _ => Fault::Line(line, text),
    }
}
