// Follows an agreement through its readings: paper 01, "Pond trials".
#![tactic(auto)]

use std::io;
use std::process::ExitCode;
use watch::{Failure, watch};

// The system's reason without its number.
fn reason(told: &str) -> &str {
    match told.split_once(" (os error ") {
        Some((reason, _)) => reason,
        None => told,
    }
}

fn explain<R: Eprint + Alloc>(rt: &R, failure: Failure) -> io::Result<()> {
    let told = failure.to_string(rt.alloc())?;
    let reason = reason(&told);
    eprintln!(rt; "brinewatch: {reason}")
}

fn main(rt: HostRuntime) -> ExitCode {
    match watch(&mut rt.reader(), &mut io::writer(&rt)) {
        Ok(()) => ExitCode::SUCCESS,
        Err(failure) => {
            let _ = explain(&rt, failure);
            ExitCode::FAILURE
        }
    }
}

#[cfg(test)]
mod tests;
