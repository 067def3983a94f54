//! The words of a program, and how it ends.
ghost use Rattle.std.specs.Prelude.{◌≡◌, ◌≤◌, IfOk, Ok, OnErr};
ghost use Rattle.program_files.specs.Status.{status_code, status_of};

use crate::fault::Fault;
use std::env;
use std::fmt::Display;
use std::io::{self, BufWriter, Write};

/// How a program ends.
#[derive(Clone, Copy)]
pub enum Status {
    /// With an answer.
    Success,
    /// With an answer on an input that has errors.
    Errors,
    /// With no answer.
    NoAnswer,
}

impl Status {
    /// How a program ends if its input has no error, or has one.
    pub fn of(is_clean: bool) -> Status
        ensures { result ≡ status_of is_clean }
    {
        if is_clean {
            Status::Success
        } else {
            Status::Errors
        }
    }

    /// The number that the system gets.
    pub fn code(self) -> u8
        ensures code { result ≡ status_code self }
        ensures range { result ≤ 2 }
    {
        match self {
            Status::Success => 0,
            Status::Errors => 1,
            Status::NoAnswer => 2,
        }
    }
}

/// The words after the program's name.
pub fn words(rt: &HostRuntime) -> io::Result<Vec<String>> {
    Ok(env::args(rt)?.skip(1).collect(rt.alloc())?)
}

/// Flushes `out`, and returns the answer. If there is a fault, what is left in the buffer of `out` is dropped.
pub fn flush_answer<O: Write + Drop>(
    answer: Result<Status, Fault>,
    mut out: BufWriter<O>,
) -> Result<Status, Fault>
    ensures { IfOk result (λ status. answer ≡ Ok status) }
{
    let answer = answer_after(answer, out.flush());
    if answer.is_err() {
        let _ = out.into_parts();
    }
    answer
}

// The answer, or that `out` couldn't be flushed.
fn answer_after(answer: Result<Status, Fault>, flushed: io::Result<()>) -> Result<Status, Fault>
    ensures { IfOk result (λ status. answer ≡ Ok status) }
{
    match (answer, flushed) {
        (Ok(status), Ok(())) => Ok(status),
        (Ok(_), Err(error)) => Err(error.into()),
        (Err(fault), _) => Err(fault),
    }
}

/// The exit status of a program. A fault is written to `err` first, with a line feed after it, as far as that can be done.
pub fn exit_status<FaultT: Display + Drop, E: Write>(
    ending: Result<Status, FaultT>,
    err: &mut E,
) -> u8
    ensures status { IfOk ending (λ status. result ≡ status_code status) }
    ensures fault { OnErr ending (result ≡ 2) }
    ensures range { result ≤ 2 }
{
    match ending {
        Ok(status) => status.code(),
        Err(fault) => {
            if writeln!(err, "{fault}").is_ok() {
                let _ = err.flush();
            }
            Status::NoAnswer.code()
        }
    }
}
