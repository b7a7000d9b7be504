//! Reads a script from standard input, which declares a module and a body, and
//! prints the validator's verdict on each operator and on the whole.
#![tactic(auto)]

use std::process::ExitCode;

fn main(rt: HostRuntime) -> ExitCode {
    let status = opcheck_script::run(rt.alloc(), rt.reader(), rt.stdout(), rt.stderr());
    ExitCode::from(status)
}
