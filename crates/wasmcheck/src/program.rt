//! The run of the program.

use crate::input::read_file;
use crate::lines::Lines;
use crate::module::{CheckOptions, CheckedModule, begun_message, check_bytes};
use crate::options::{Action, Detail, Options, read_options};
use crate::shown::add_word;
use crate::usage::{UsageError, add_error, write_help, write_version};
use crate::verdict_writer::write_summary;
use crate::written::Written;
use module_check::Outcome;
use std::alloc::Global;
use std::io;
use std::io::{BufWriter, Read, Write};

/// The status of a run that says how the program is used.
const SUCCESS: u8 = 0;

/// The status where the words aren't understood.
const USAGE_ERROR: u8 = 2;

/// What stands for standard input among the files.
const STANDARD_INPUT: &[u8] = b"-";

/// What to say of bytes that don't begin as a module does, if anything.
fn warning_of(input: &[u8]) -> Option<&'static str> {
    if input.is_empty() {
        Some("the input is empty")
    } else if !input.starts_with(b"\0asm".as_slice()) {
        Some("the input is no binary module: it doesn't begin with \\0asm")
    } else {
        None
    }
}

/// Says of bytes that aren't a module's what they look like.
fn write_warning(rt: &HostRuntime, options: CheckOptions<'_>, input: &[u8]) -> io::Result<()> {
    match (options.detail, warning_of(input)) {
        (Detail::Quiet, _) | (_, None) => Ok(()),
        (_, Some(text)) => {
            let mut message = begun_message(options.lines);
            message.add(text);
            message.add("\n");
            message.write_to(&mut rt.stderr())
        }
    }
}

/// What a run comes to by a module. A function that is asked for, and isn't there, weighs as much as bytes that aren't a
/// module's, and has their status: it is that of words that aren't understood, too.
fn outcome_of_run(checked: CheckedModule) -> Outcome {
    if checked.lacks_traced {
        checked.outcome.or(Outcome::Malformed)
    } else {
        checked.outcome
    }
}

/// Checks the module of these bytes.
fn check_input<W: Write>(
    rt: &HostRuntime,
    out: &mut W,
    options: CheckOptions<'_>,
    input: &[u8],
) -> io::Result<Outcome> {
    write_warning(rt, options, input)?;
    let checked = check_bytes(rt, out, options, input)?;
    Ok(outcome_of_run(checked))
}

/// Says that this file can't be read, and why.
fn write_read_error(rt: &HostRuntime, file: &[u8], error: &io::Error) -> io::Result<()> {
    let mut message = Written::new(rt.alloc());
    message.add("wasmcheck: ");
    add_word(&mut message, file);
    message.write_to(&mut rt.stderr())?;
    writeln!(rt.stderr(), ": {error}")
}

/// Says that a file can't be read, and what that comes to.
fn write_unreadable<W: Write>(
    rt: &HostRuntime,
    out: &mut W,
    options: CheckOptions<'_>,
    error: &io::Error,
) -> io::Result<Outcome> {
    write_read_error(rt, options.lines.file, error)?;
    let outcome = Outcome::Unreadable;
    write_summary(out, options.lines, options.detail, outcome, None)?;
    Ok(outcome)
}

/// Checks the module on standard input.
fn check_standard_input<W: Write>(
    rt: &HostRuntime,
    out: &mut W,
    options: CheckOptions<'_>,
) -> io::Result<Outcome> {
    let mut input = Vec::new(rt.alloc());
    rt.reader().read_to_end(&mut input)?;
    check_input(rt, out, options, &input)
}

/// Checks the module in a file.
fn check_file<W: Write>(
    rt: &HostRuntime,
    out: &mut W,
    options: CheckOptions<'_>,
) -> io::Result<Outcome> {
    if options.lines.file == STANDARD_INPUT {
        return check_standard_input(rt, out, options);
    }
    match read_file(rt, options.lines.file) {
        Ok(input) => check_input(rt, out, options, &input),
        Err(error) if error.kind() == io::ErrorKind::OutOfMemory => Err(error),
        Err(error) => write_unreadable(rt, out, options, &error),
    }
}

/// How a file is checked, by the words of the program.
fn check_options<'o>(alloc: Global, options: &'o Options, file: &'o [u8]) -> CheckOptions<'o> {
    CheckOptions {
        lines: Lines {
            alloc,
            format: options.format,
            file,
            is_one_of_several: options.files.len() > 1,
        },
        detail: options.detail,
        explains: options.explains,
        traced: match &options.traced {
            Some(word) => Some(word.as_slice()),
            None => None,
        },
        features: options.features,
    }
}

/// Checks each file, or standard input where none is named.
fn check_files<W: Write>(rt: &HostRuntime, out: &mut W, options: &Options) -> io::Result<Outcome> {
    if options.files.is_empty() {
        return check_file(rt, out, check_options(rt.alloc(), options, STANDARD_INPUT));
    }
    let mut outcome = Outcome::Valid;
    for file in &options.files {
        let checked = check_file(rt, out, check_options(rt.alloc(), options, file))?;
        outcome = outcome.or(checked);
        out.flush()?;
    }
    Ok(outcome)
}

/// The program's status.
pub fn status_of(outcome: Outcome) -> u8 {
    u8::try_from(outcome.status()).unwrap_or(u8::MAX)
}

/// Checks what is to be checked, and answers the status.
fn check(rt: &HostRuntime, options: &Options) -> io::Result<u8> {
    let mut out = BufWriter::new(rt.alloc(), io::writer(rt))?;
    let outcome = check_files(rt, &mut out, options)?;
    out.flush()?;
    Ok(status_of(outcome))
}

/// Does what the words ask for, and answers the status.
fn run_options(rt: &HostRuntime, options: &Options) -> io::Result<u8> {
    match options.action {
        Action::Check => check(rt, options),
        Action::Help => {
            write_help(rt.alloc(), &mut rt.stdout())?;
            Ok(SUCCESS)
        }
        Action::Version => {
            write_version(&mut rt.stdout())?;
            Ok(SUCCESS)
        }
    }
}

/// Says why the words aren't understood, and answers the status.
fn write_usage_error(rt: &HostRuntime, error: &UsageError) -> io::Result<u8> {
    let mut message = Written::new(rt.alloc());
    message.add("wasmcheck: ");
    add_error(&mut message, error);
    message.add("\n");
    message.write_to(&mut rt.stderr())?;
    Ok(USAGE_ERROR)
}

/// Runs the program, and answers its status.
pub fn run(rt: &HostRuntime) -> io::Result<u8> {
    match read_options(rt) {
        Ok(options) => run_options(rt, &options),
        Err(UsageError::Unread(error)) => Err(error),
        Err(error) => write_usage_error(rt, &error),
    }
}
