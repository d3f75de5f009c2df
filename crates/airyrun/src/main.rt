//! The program: tables of the amplitudes of quantum Airy structures.
#![tactic(auto)]

mod bulks;
mod families;
#[cfg(test)]
mod family_tests;
#[cfg(test)]
mod fault_tests;
#[cfg(test)]
mod gate_tests;
mod laws;
#[cfg(test)]
mod number_tests;
mod numbers;
#[cfg(test)]
mod row_tests;
#[cfg(test)]
mod serve_tests;
#[cfg(test)]
mod session_tests;
#[cfg(test)]
mod shape_tests;
mod talk;
#[cfg(test)]
mod tests;
mod texts;
mod top;
mod valued;
mod volumes;
#[cfg(test)]
mod word_tests;

use airy_io::{StdSink, StdSource};
pub use fill_crew::{Gate, OpenGate, StopAfter};
pub use laws::{meant_is_one, table_steps};
use run_reports::words_given;
pub use session_law::{same_replies, session_shown};
use std::process::ExitCode;
pub use top::{run, serve};

/// Hands the words behind the program's name to `serve`, with standard input and output, and ends with its status. Where
/// the system doesn't give the words it ends with 1, and where memory for them is wanting with 10.
fn main(rt: HostRuntime) -> ExitCode {
    let words = match words_given(&rt) {
        Ok(words) => words,
        Err(status) => return ExitCode::from(status),
    };
    let mut source = StdSource {
        inner: rt.stdin(),
        faults: 0,
    };
    let mut sink = StdSink {
        inner: rt.stdout(),
        faults: 0,
    };
    serve(&rt, rt.alloc(), &words, &mut source, &mut sink)
}
