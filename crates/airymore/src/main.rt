//! The second program: tables of curves, the brackets of the operators, and tables of structures whose relations hold.
#![tactic(auto)]

mod brackets;
#[cfg(test)]
mod curve_tests;
mod curves;
#[cfg(test)]
mod document_tests;
mod documents;
mod laws;
mod places;
mod quick;
#[cfg(test)]
mod tests;
mod top;
mod verify;

use airy_io::{StdSink, StdSource};
pub use fill_crew::{Gate, OpenGate, StopAfter};
pub use laws::curve_steps;
use run_reports::words_given;
use std::process::ExitCode;
pub use top::{run_more, serve};

/// Hands the words behind the program's name to `serve`, with standard input and output, and ends with its status. Where
/// the system doesn't give the words it ends with 1, and where memory for them is wanting with 10.
fn main(rt: HostRuntime) -> ExitCode {
    let words = match words_given(&rt) {
        Ok(words) => words,
        Err(status) => return ExitCode::from(status),
    };
    let mut source = StdSource {
        inner: rt.stdin(),
        faults: 0,
    };
    let mut sink = StdSink {
        inner: rt.stdout(),
        faults: 0,
    };
    serve(&rt, rt.alloc(), &words, &mut source, &mut sink)
}
