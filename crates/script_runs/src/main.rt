//! Runs the scripts of the files of `data/` that its standard input names, one a line, and prints how many
//! each has, and behind that whatever came out otherwise than expected.
//!
//! `NAME.cases` has sections (`cases.rt`). `NAME.script` is one script, and `NAME.expected` beside it what it
//! prints; it is accepted.
//!
//! A script runs as one list, with both outputs and its status compared; and operator by operator, each attempted,
//! where a refused one has to leave all frames and operands as they were. `tests/ways.py` runs each in further ways, which
//! a first line before the names asks for.
//!
//! With the words `--runs N` its standard input is one script instead, as `opcheck` reads it, and it prints how long the
//! validator takes for the body (`measure.rt`), the best of N runs. `--untimed` leaves the times out.
#![tactic(auto)]

mod bodies;
mod cases;
mod choice;
mod flags;
mod left;
mod measure;
mod paired;
mod places;
mod printed;
mod runs;
mod snapshot;
mod tally;
mod timing;
mod transcript;
mod undone;
mod unmeasured;
mod wanting;

use crate::cases::run_cases;
use crate::choice::read_choice;
use crate::measure::measure_input;
use crate::runs::{Output, Way, run_script};
use crate::tally::Tally;
use crate::unmeasured::Unmeasured;
use std::process::ExitCode;
use std::{fs, io};

/// The text of a file, or None where it can't be read or memory is wanting.
fn read(rt: &HostRuntime, name: &str, ending: &str) -> Option<String> {
    let file = format!(in rt.alloc(); "{name}.{ending}").ok()?;
    fs::read_to_string(rt, file.as_str()).ok()
}

/// What the scripts of a file of cases came to.
fn tally_of_cases(rt: &HostRuntime, name: &str, way: Way) -> Option<Tally> {
    let text = read(rt, name, "cases")?;
    let mut tally = Tally::new(rt.alloc(), way);
    run_cases(rt.alloc(), &mut tally, &text).ok()?;
    Some(tally)
}

/// What a script that is a file came to.
fn tally_of_script(rt: &HostRuntime, name: &str, way: Way) -> Option<Tally> {
    let script = read(rt, name, "script")?;
    let expected = read(rt, name, "expected")?;
    let expected = Output {
        out: &expected,
        err: "",
        status: 0,
    };
    let mut tally = Tally::new(rt.alloc(), way);
    run_script(rt.alloc(), &mut tally, &script, expected).ok()?;
    Some(tally)
}

/// What the scripts of a file came to, which a line of the input names.
fn tally_of(rt: &HostRuntime, line: &str, way: Way) -> Option<Tally> {
    let (name, rest) = line.split_once('.')?;
    match rest.split_once(' ').unwrap_or((rest, "")) {
        ("cases", "") => tally_of_cases(rt, name, way),
        ("script", "" | "with custom_descriptors") => tally_of_script(rt, name, way),
        _ => None,
    }
}

/// Prints what scripts came to, and says whether all was as expected.
fn print_tally(rt: &HostRuntime, name: &str, tally: &Tally) -> io::Result<bool> {
    let noun = if tally.scripts == 1 {
        "script"
    } else {
        "scripts"
    };
    println!(rt; "{name}: {} {noun}", tally.scripts)?;
    print!(rt; "{}", tally.printed)?;
    if tally.mismatches.is_empty() {
        return Ok(true);
    }
    println!(rt; "{}", tally.mismatches)?;
    Ok(false)
}

/// The same where they could be read.
fn print_read(rt: &HostRuntime, name: &str, tally: Option<Tally>) -> io::Result<bool> {
    match tally {
        Some(tally) => print_tally(rt, name, &tally),
        None => {
            println!(rt; "{name}: not read")?;
            Ok(false)
        }
    }
}

/// What a first line asks for.
const WAYS: &[(&str, Way)] = &[
    ("once", Way::Once),
    ("paired", Way::Paired),
    ("shown", Way::Shown),
    ("places", Way::Places),
];

/// What is done with each script, by a first line, and the lines behind it.
fn way_of(lines: &str) -> (Way, &str) {
    let (first, names) = lines.split_once('\n').unwrap_or(("", lines));
    for (name, way) in WAYS {
        if *name == first {
            return (*way, names);
        }
    }
    (Way::Checked, lines)
}

/// Runs all of them, and says whether all was as expected.
fn run_files(rt: &HostRuntime, lines: &str) -> io::Result<bool> {
    let (way, names) = way_of(lines);
    let mut is_well = true;
    for line in names.lines() {
        let (name, _) = line.split_once('.').unwrap_or((line, ""));
        is_well &= print_read(rt, name, tally_of(rt, line, way))?;
    }
    Ok(is_well)
}

/// The same of the files that the input names.
fn run_named(rt: &HostRuntime) -> io::Result<bool> {
    let names = io::read_to_string(rt.alloc(), rt.stdin())?;
    run_files(rt, &names)
}

/// The same, or measures the script that is the input, where the words ask for that.
fn run_chosen(rt: &HostRuntime) -> Result<bool, Unmeasured> {
    let choice = read_choice(rt)?;
    if choice.runs == 0 {
        return run_named(rt).map_err(|_| Unmeasured::Host);
    }
    measure_input(rt, choice)?;
    Ok(true)
}

fn main(rt: HostRuntime) -> ExitCode {
    match run_chosen(&rt) {
        Ok(true) => ExitCode::SUCCESS,
        Ok(false) => ExitCode::FAILURE,
        Err(failure) => {
            let _ = eprintln!(rt; "{}", failure.text());
            ExitCode::from(failure.status())
        }
    }
}
