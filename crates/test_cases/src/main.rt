//! A program that runs the case files that its words name, and prints how many cases each has.
#![tactic(auto)]

mod commands;
mod kinds;
mod runner;
mod streams;

use std::process::ExitCode;

fn main(rt: HostRuntime) -> ExitCode {
    runner::run_of_process(&rt)
}
