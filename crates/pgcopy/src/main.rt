//! Copies a stream of rows of given column types, as PostgreSQL's `COPY .. (FORMAT binary)` has it, from standard
//! input to standard output, in its canonical form. A line on standard error and the exit status tell what came of it.
#![tactic(auto)]

mod about;
mod catalog;
mod edge;
#[cfg(test)]
mod edge_tests;
#[cfg(test)]
mod error_tests;
mod lent;
mod numbers;
mod oid_words;
mod report;
mod run;
#[cfg(test)]
mod seam_cases;
#[cfg(test)]
mod seam_tests;
#[cfg(test)]
mod test_runs;
#[cfg(test)]
mod tests;
mod words;
#[cfg(test)]
mod words_tests;

use crate::report::Status;
use std::io::IsTerminal;
use std::process::ExitCode;

fn main(rt: HostRuntime) -> ExitCode {
    let ended = match edge::words(&rt) {
        Ok(words) => {
            if let Some(text) = about::asked(&words) {
                return edge::tell(text, &mut rt.stdout(), &mut rt.stderr());
            }
            edge::copy(
                rt.alloc(),
                &words,
                rt.stdin(),
                &mut rt.stdout(),
                &mut rt.stderr(),
            )
        }
        Err(error) => Err(error),
    };
    let status = match ended {
        Ok(status) => status,
        Err(error) => edge::explain(&error, &mut rt.stderr()),
    };
    if status == Status::Words && rt.stderr().is_terminal() {
        edge::hint(&mut rt.stderr());
    }
    ExitCode::from(status.code())
}
