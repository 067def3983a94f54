//! The program `lrpar`.
#![tactic(auto)]

use program_lrpar::run_of_process;
use std::process::ExitCode;

fn main(rt: HostRuntime) -> ExitCode {
    ExitCode::from(run_of_process(&rt))
}
