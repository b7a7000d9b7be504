//! How the program is used, and what is said of words that it doesn't know.

use crate::shown::add_word;
use crate::written::Written;
use module_rules::DECLARATION_FLAGS;
use std::alloc::{AllocError, Global};
use std::io;
use std::io::Write;
use validate_types::{Flags, WasmFeatures};

/// What `--help` begins with, up to the names of proposals.
const OPTIONS: &str = "\
usage: wasmcheck [OPTIONS] [--] [FILE]...

Checks binary WebAssembly modules, in each FILE or on standard input (-): what they declare, the bodies
of their functions, and their constant expressions. Says whether a module is valid and, if not, why.

  -q, --quiet      print nothing; the status is the answer
  -v, --verbose    print a line also for what is accepted, and counts; of several files, name those
                   that are valid too
      --explain    show below each refusal the last operators, the operands and the open blocks
      --trace FUNC list the operators of the function with this index or name, with the operands
                   after each
      --json       print each line as an object of JSON
  -f, --features LIST
                   which proposals are on, with commas between. LIST changes the default set: a name
                   turns its proposal on, a - before the name turns it off (wide-arithmetic,-gc), and
                   a set replaces all that stands before it (none,gc)
  -h, --help       print this
  -V, --version    print the version
      --           all words after this are files

Sets: all; none; default, which wasmparser has on; the standard's versions: wasm1 or mvp, wasm2,
wasm3. Proposals, in whose names a - may stand for a _:";

/// What it ends with.
const STATUSES: &str = "

Status: 0 valid; 1 invalid; 2 malformed, or an unknown option, proposal or function; 3 out of memory,
or a read or write failed; 4 not covered: nothing is refused, but there are vector operators; 5 a
file can't be read; 7 too large: what a module declares is past a limit of this implementation. If
several hold, it is the first of 3, 5, 2, 1, 7, 4.
";

/// The version of the program.
const VERSION: &str = "wasmcheck 0.1.0, the operator validator of wasmparser 0.263.0\n";

/// So many names of proposals stand in a line.
const NAMES_IN_LINE: usize = 4;

/// Adds the name of the proposal at this place.
fn add_name(help: &mut Written, place: usize, name: &str) {
    if place % NAMES_IN_LINE == 0 {
        help.add("\n  ");
    }
    help.add(" ");
    help.add(name);
}

/// Writes how the program is used.
pub fn write_help<W: Write>(alloc: Global, out: &mut W) -> io::Result<()> {
    let mut help = Written::new(alloc);
    help.add(OPTIONS);
    let flags = WasmFeatures::flags();
    for (place, flag) in flags.iter().enumerate() {
        add_name(&mut help, place, flag.name);
    }
    for (place, (name, _)) in DECLARATION_FLAGS.iter().enumerate() {
        add_name(&mut help, flags.len().saturating_add(place), name);
    }
    help.add(STATUSES);
    help.write_to(out)
}

/// Writes which version the program is.
pub fn write_version<W: Write>(out: &mut W) -> io::Result<()> {
    out.write_all(VERSION.as_bytes())
}

/// Why the words aren't understood, or couldn't be read.
#[derive(Drop)]
pub enum UsageError {
    /// No option is this word.
    Option(Vec<u8>),
    /// No proposal has this name.
    Proposal {
        /// The name.
        word: Vec<u8>,
        /// The one that it is nearest to.
        nearest: Option<&'static str>,
    },
    /// This option needs a value.
    NoValue(&'static str),
    /// They couldn't be read.
    Unread(io::Error),
}

impl UsageError {
    /// Memory ran out for the words.
    pub fn out_of_memory() -> UsageError {
        UsageError::Unread(io::Error::from(io::ErrorKind::OutOfMemory))
    }

    /// A word that is no option.
    pub fn unknown_option(alloc: Global, word: &[u8]) -> UsageError {
        match Vec::from_slice(alloc, word) {
            Ok(word) => UsageError::Option(word),
            Err(_) => UsageError::out_of_memory(),
        }
    }

    /// A name that no proposal has, and the one that it is nearest to.
    pub fn unknown_proposal(
        alloc: Global,
        word: &[u8],
        nearest: Option<&'static str>,
    ) -> UsageError {
        match Vec::from_slice(alloc, word) {
            Ok(word) => UsageError::Proposal { word, nearest },
            Err(_) => UsageError::out_of_memory(),
        }
    }
}

impl From<io::Error> for UsageError {
    fn from(error: io::Error) -> UsageError {
        UsageError::Unread(error)
    }
}

impl From<AllocError> for UsageError {
    fn from(_error: AllocError) -> UsageError {
        UsageError::out_of_memory()
    }
}

/// Says that no proposal has this name, and which one it is nearest to.
fn add_proposal(out: &mut Written, word: &[u8], nearest: Option<&'static str>) {
    out.add("unknown proposal ");
    add_word(out, word);
    if let Some(name) = nearest {
        out.add(": did you mean ");
        out.add(name);
        out.add("?");
    }
    out.add(" (--help lists all)");
}

/// Says why the words aren't understood.
pub fn add_error(out: &mut Written, error: &UsageError) {
    match error {
        UsageError::Option(word) => {
            out.add("unknown option ");
            add_word(out, word);
            out.add(" (--help lists all)");
        }
        UsageError::Proposal { word, nearest } => add_proposal(out, word, *nearest),
        UsageError::NoValue(option) => {
            out.add(option);
            out.add(" needs a value");
        }
        UsageError::Unread(_) => out.add("the words can't be read"),
    }
}
