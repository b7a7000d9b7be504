//! Says of binary modules, which are read from the files that are named, or from standard input, whether they are valid,
//! and why not: what they declare, the bodies of their functions, and their constant expressions.
#![tactic(auto)]

mod explain;
mod features;
mod given;
mod immediates;
mod input;
mod json;
mod lines;
mod listing;
mod module;
mod operators;
mod options;
mod origins;
mod program;
mod scene;
mod shown;
mod text;
mod type_names;
mod usage;
mod verdict_writer;
mod walk;
mod words;
mod written;

use module_check::Outcome;
use std::io;
use std::io::Write;
use std::process::ExitCode;

/// Says why the run failed, unless nobody reads on.
fn write_failure(rt: &HostRuntime, error: &io::Error) {
    if error.kind() != io::ErrorKind::BrokenPipe {
        let mut err = rt.stderr();
        let _ = writeln!(err, "wasmcheck: {error}");
    }
}

fn main(rt: HostRuntime) -> ExitCode {
    match program::run(&rt) {
        Ok(status) => ExitCode::from(status),
        Err(error) => {
            write_failure(&rt, &error);
            ExitCode::from(program::status_of(Outcome::OutOfMemory))
        }
    }
}
