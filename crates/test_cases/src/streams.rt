//! Cases of the program `lrpar` whose streams fail, each of their calls in turn: what it writes to the others, and ends with.
use program_lrpar::run;
use std::alloc::Global;
use std::io::{self, Read, Write};
use std::rt::Files;
use test_case_lines::cases::Case;
use test_case_lines::fault::Fault;
use test_case_lines::printed::Printed;
use test_case_lines::values::number_at;

/// The keys of the lines that say what is done: those of commands, how many bytes an output takes a call, and which streams fail.
pub const INPUTS: &[&str] = &["words", "word", "file", "stdin", "takes", "fails"];

/// How many rounds there are at most.
const MOST_ROUNDS: usize = 1_000;

// One run of the program.
#[derive(Clone, Copy)]
struct Round<'a> {
    // The names of the streams that fail.
    fails: &'a str,
    // After how many of their calls they do.
    calls: usize,
    // How many bytes an output takes a call.
    takes: usize,
}

// A stream that fails after some calls, at each call from then on.
#[derive(Drop)]
struct Stream<'a> {
    // What is left to be read.
    rest: &'a [u8],
    // What was written.
    taken: Vec<u8>,
    // How many bytes it takes a call.
    takes: usize,
    calls_left: usize,
    has_failed: bool,
}

/// What comes of the program if the streams of the case fail at their first call, after one call, after two, and so on, until none
/// fails any more. Equal rounds in a row are one line.
pub fn push_rounds<R: Files>(
    out: &mut Printed,
    rt: &R,
    alloc: Global,
    case: Case<'_, '_>,
    words: &[String],
    input: &[u8],
) -> Result<(), Fault> {
    let first = Round {
        fails: case.value_or_nothing("fails"),
        calls: 0,
        takes: number_at(case, "takes", usize::MAX)?,
    };
    let mut lines = Printed::new(alloc);
    push_lines(&mut lines, rt, alloc, words, input, first);
    push_joined(out, lines.end()?.as_str());
    Ok(())
}

// Adds what comes of each round, a line each, and an empty line.
fn push_lines<R: Files>(
    lines: &mut Printed,
    rt: &R,
    alloc: Global,
    words: &[String],
    input: &[u8],
    first: Round<'_>,
) {
    for calls in 0..MOST_ROUNDS {
        let round = Round { calls, ..first };
        if !push_line(lines, rt, alloc, words, input, round) {
            break;
        }
    }
    lines.text("\n");
}

// Adds what comes of a round: the status, and what was written to the outputs that don't fail in it. Returns whether a call failed.
fn push_line<R: Files>(
    lines: &mut Printed,
    rt: &R,
    alloc: Global,
    words: &[String],
    input: &[u8],
    round: Round<'_>,
) -> bool {
    let mut input = Stream::new(alloc, round, "input", input);
    let mut stdout = Stream::new(alloc, round, "output", &[]);
    let mut stderr = Stream::new(alloc, round, "error", &[]);
    let status = run(rt, alloc, words, &mut input, &mut stdout, &mut stderr);
    lines.number("status ", usize::from(status));
    push_taken(lines, round, "output", &stdout);
    push_taken(lines, round, "error", &stderr);
    lines.text("\n");
    // Not by `||`, whose branches would each have the drops of the streams to prove.
    input.has_failed | stdout.has_failed | stderr.has_failed
}

// Adds what was written to a stream, if it is none of those that fail.
fn push_taken(lines: &mut Printed, round: Round<'_>, name: &str, stream: &Stream<'_>) {
    if !round.fails.contains(name) {
        lines.texts(", ", name);
        lines.text(" ");
        match str::from_utf8(&stream.taken) {
            Ok(text) => lines.debug(&text),
            Err(_) => lines.text("that isn't UTF-8"),
        }
    }
}

// Adds the lines of the rounds, which end with an empty one: equal lines in a row as one.
fn push_joined(out: &mut Printed, lines: &str) {
    let mut first = 0usize;
    for (last, (line, next)) in lines.lines().zip(lines.lines().skip(1)).enumerate() {
        if line != next {
            push_calls(out, first, last);
            out.texts(line, "\n");
            first = last.saturating_add(1);
        }
    }
}

// Adds the numbers of calls after which the streams fail.
fn push_calls(out: &mut Printed, first: usize, last: usize) {
    out.number("calls ", first);
    if first < last {
        out.number(" to ", last);
    }
    out.text(": ");
}

impl<'a> Stream<'a> {
    // The stream of this name in a round, from which this text can be read.
    fn new(alloc: Global, round: Round<'_>, name: &str, text: &'a [u8]) -> Stream<'a> {
        Stream {
            rest: text,
            taken: Vec::new(alloc),
            takes: round.takes,
            calls_left: if round.fails.contains(name) {
                round.calls
            } else {
                usize::MAX
            },
            has_failed: false,
        }
    }

    // Counts a call, or fails so.
    fn call(&mut self, kind: io::ErrorKind) -> io::Result<()> {
        if self.calls_left == 0 {
            self.has_failed = true;
            return Err(io::Error::from(kind));
        }
        self.calls_left -= 1;
        Ok(())
    }
}

impl<'a> Read for Stream<'a> {
    fn read(&mut self, bytes: &mut [u8]) -> io::Result<usize> {
        self.call(io::ErrorKind::ConnectionReset)?;
        self.rest.read(bytes)
    }
}

impl<'a> Write for Stream<'a> {
    fn write(&mut self, bytes: &[u8]) -> io::Result<usize> {
        self.call(io::ErrorKind::BrokenPipe)?;
        let count = bytes.len().min(self.takes);
        self.taken.extend_from_slice(&bytes[..count])?;
        Ok(count)
    }

    fn flush(&mut self) -> io::Result<()> {
        self.call(io::ErrorKind::BrokenPipe)
    }
}
