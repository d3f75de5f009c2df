//! Workers and callers who wait: a bell that is rung after each fill, rounds that fill what is left, asks that return once they have an
//! answer, and the program whose callers ask beside its workers. What waits has the bound `Wait`: it holds where it returns, and no return
//! is promised.
#![tactic(auto)]

mod bell;
mod callers;
mod jobs;
mod laws;
mod replies;
mod rounds;
#[cfg(test)]
mod tests;
mod top;
#[cfg(test)]
mod top_tests;
mod waits;
mod words;

use airy_io::{StdSink, StdSource};
pub use bell::Bell;
pub use laws::{first_refused_word, one_list};
pub use rounds::fill_round;
use run_reports::words_given;
use std::process::ExitCode;
pub use top::{run_waiting, serve};
pub use waits::{Told, ask_wait};
pub use words::{Asked, Job, read_wait_words};

/// Hands the words behind the program's name to `serve`, with standard input and output, and ends with its status. Where
/// the system doesn't give the words it ends with 1, and where memory for them is wanting with 10.
fn main(rt: HostRuntime) -> ExitCode {
    let words = match words_given(&rt) {
        Ok(words) => words,
        Err(status) => return ExitCode::from(status),
    };
    let mut source = StdSource {
        inner: rt.stdin(),
        faults: 0,
    };
    let mut sink = StdSink {
        inner: rt.stdout(),
        faults: 0,
    };
    serve(&rt, rt.alloc(), &words, &mut source, &mut sink)
}
