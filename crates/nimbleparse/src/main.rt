//! The program `nimbleparse`.
#![tactic(auto)]

use program_nimbleparse::run_of_process;
use std::process::ExitCode;

fn main(rt: HostRuntime) -> ExitCode {
    ExitCode::from(run_of_process(&rt))
}
