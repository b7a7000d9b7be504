//! What the program's words choose.

use crate::features::{nearest_name, with_list};
use crate::usage::UsageError;
use crate::words::read_words;
use module_check::ModuleFeatures;
use std::alloc::Global;
use std::str;

/// What the program does.
#[derive(Clone, Copy)]
pub enum Action {
    /// It checks modules.
    Check,
    /// It says how it is used.
    Help,
    /// It says which version it is.
    Version,
}

/// How much is printed.
#[derive(Clone, Copy)]
pub enum Detail {
    /// Nothing: the status says it.
    Quiet,
    /// Whether the module is valid, and why not: a line for each body and expression that isn't accepted, or one for the
    /// module. Of several files, those that are valid are passed over.
    Normal,
    /// A line for each body and expression, and how many came to what.
    Verbose,
}

/// How it is printed.
#[derive(Clone, Copy)]
pub enum Format {
    /// In words.
    Text,
    /// Each line an object of JSON.
    Json,
}

/// An option that has a value.
#[derive(Clone, Copy)]
enum Valued {
    /// `--features`
    Features,
    /// `--trace`
    Trace,
}

impl Valued {
    /// Its name.
    fn name(self) -> &'static str {
        match self {
            Valued::Features => "--features",
            Valued::Trace => "--trace",
        }
    }
}

/// What an option chooses.
#[derive(Clone, Copy)]
enum Choice {
    /// What the program does.
    Action(Action),
    /// That nothing is printed.
    Quiet,
    /// That each line is printed.
    Verbose,
    /// That lines are objects of JSON.
    Json,
    /// That refusals are explained.
    Explain,
    /// That the next word is the value of this.
    Awaits(Valued),
    /// That all that follows are files.
    Files,
}

/// An option.
#[derive(Clone, Copy)]
struct Named {
    /// Its name.
    name: &'static str,
    /// What it chooses.
    choice: Choice,
}

/// The options that are a word of their own.
const WORDS: &[Named] = &[
    Named {
        name: "--",
        choice: Choice::Files,
    },
    Named {
        name: "--features",
        choice: Choice::Awaits(Valued::Features),
    },
    Named {
        name: "--trace",
        choice: Choice::Awaits(Valued::Trace),
    },
    Named {
        name: "--explain",
        choice: Choice::Explain,
    },
    Named {
        name: "--quiet",
        choice: Choice::Quiet,
    },
    Named {
        name: "--verbose",
        choice: Choice::Verbose,
    },
    Named {
        name: "--json",
        choice: Choice::Json,
    },
    Named {
        name: "--help",
        choice: Choice::Action(Action::Help),
    },
    Named {
        name: "--version",
        choice: Choice::Action(Action::Version),
    },
];

/// What the option that is this word chooses.
fn choice_of_word(word: &str) -> Option<Choice> {
    for option in WORDS {
        if option.name == word {
            return Some(option.choice);
        }
    }
    None
}

/// What the option that is this letter chooses.
fn choice_of_letter(letter: char) -> Option<Choice> {
    match letter {
        'q' => Some(Choice::Quiet),
        'v' => Some(Choice::Verbose),
        'h' => Some(Choice::Action(Action::Help)),
        'V' => Some(Choice::Action(Action::Version)),
        _ => None,
    }
}

/// What the words choose.
#[derive(Drop)]
pub struct Options {
    /// What the program does.
    pub action: Action,
    /// How much is printed.
    pub detail: Detail,
    /// How it is printed.
    pub format: Format,
    /// Whether a refusal is explained.
    pub explains: bool,
    /// The name or the index of the function whose operators are listed, if one is named.
    pub traced: Option<Vec<u8>>,
    /// The proposals that are on.
    pub features: ModuleFeatures,
    /// The files to read, `-` for standard input.
    pub files: Vec<Vec<u8>>,
}

/// The words as they are taken, one after another.
#[derive(Drop)]
struct Words {
    alloc: Global,
    options: Options,
    /// The option whose value the next word is.
    awaits: Option<Valued>,
    /// Whether all that follows are files.
    is_behind_options: bool,
}

/// Whether a word is an option, where one may stand.
fn is_option(word: &[u8]) -> bool {
    matches!(word, [b'-', _, ..])
}

impl Words {
    /// Takes a word.
    fn take(&mut self, word: Vec<u8>) -> Result<(), UsageError> {
        if let Some(option) = self.awaits {
            self.awaits = None;
            return self.take_value(option, &word);
        }
        if self.is_behind_options || !is_option(&word) {
            return self.take_file(word);
        }
        match str::from_utf8(&word) {
            Ok(text) => self.take_option(text),
            Err(_) => Err(UsageError::unknown_option(self.alloc, &word)),
        }
    }

    /// Takes the name of a file.
    fn take_file(&mut self, word: Vec<u8>) -> Result<(), UsageError> {
        match self.options.files.push(word) {
            Ok(()) => Ok(()),
            Err(_) => Err(UsageError::out_of_memory()),
        }
    }

    /// Takes an option: a long word, or letters that may be joined.
    fn take_option(&mut self, word: &str) -> Result<(), UsageError> {
        match choice_of_word(word) {
            Some(choice) => {
                self.choose(choice);
                Ok(())
            }
            None => self.take_joined(word),
        }
    }

    /// Does as an option says.
    fn choose(&mut self, choice: Choice) {
        match choice {
            Choice::Action(action) => self.options.action = action,
            Choice::Quiet => self.options.detail = Detail::Quiet,
            Choice::Verbose => self.take_verbose(),
            Choice::Json => self.options.format = Format::Json,
            Choice::Explain => self.options.explains = true,
            Choice::Awaits(option) => self.awaits = Some(option),
            Choice::Files => self.is_behind_options = true,
        }
    }

    /// Takes an option with its value in the same word, or letters.
    fn take_joined(&mut self, word: &str) -> Result<(), UsageError> {
        if let Some(list) = word.strip_prefix("--features=") {
            return self.take_value(Valued::Features, list.as_bytes());
        }
        if let Some(function) = word.strip_prefix("--trace=") {
            return self.take_value(Valued::Trace, function.as_bytes());
        }
        self.take_letters(word)
    }

    /// Takes letters behind a `-`, and answers whether each is an option.
    fn take_plain_letters(&mut self, letters: &str) -> bool {
        for letter in letters.chars().skip(1) {
            match choice_of_letter(letter) {
                Some(choice) => self.choose(choice),
                None => return false,
            }
        }
        true
    }

    /// Takes the letters behind a `-`. What stands behind an `f` is its list.
    fn take_letters(&mut self, word: &str) -> Result<(), UsageError> {
        let (letters, list) = match word.split_once('f') {
            Some((letters, list)) => (letters, Some(list)),
            None => (word, None),
        };
        if self.take_plain_letters(letters) {
            self.take_behind_letters(list)
        } else {
            Err(UsageError::unknown_option(self.alloc, word.as_bytes()))
        }
    }

    /// Takes what stands behind an `f`, if there is one.
    fn take_behind_letters(&mut self, list: Option<&str>) -> Result<(), UsageError> {
        match list {
            None => Ok(()),
            Some("") => {
                self.awaits = Some(Valued::Features);
                Ok(())
            }
            Some(list) => {
                let list = list.strip_prefix('=').unwrap_or(list);
                self.take_value(Valued::Features, list.as_bytes())
            }
        }
    }

    /// Lets each line be printed, unless none is to be.
    fn take_verbose(&mut self) {
        if !matches!(self.options.detail, Detail::Quiet) {
            self.options.detail = Detail::Verbose;
        }
    }

    /// Takes the value of an option.
    fn take_value(&mut self, option: Valued, value: &[u8]) -> Result<(), UsageError> {
        if value.is_empty() {
            return Err(UsageError::NoValue(option.name()));
        }
        match option {
            Valued::Features => self.take_list(value),
            Valued::Trace => {
                self.options.traced = Some(Vec::from_slice(self.alloc, value)?);
                Ok(())
            }
        }
    }

    /// Takes a list of proposals.
    fn take_list(&mut self, list: &[u8]) -> Result<(), UsageError> {
        let Ok(text) = str::from_utf8(list) else {
            return Err(UsageError::unknown_proposal(self.alloc, list, None));
        };
        match with_list(self.options.features, text) {
            Ok(features) => {
                self.options.features = features;
                Ok(())
            }
            Err(word) => {
                let nearest = nearest_name(word);
                Err(UsageError::unknown_proposal(self.alloc, word.as_bytes(), Some(nearest)))
            }
        }
    }

    /// The options, once all words are taken.
    fn end(self) -> Result<Options, UsageError> {
        if let Some(option) = self.awaits {
            return Err(UsageError::NoValue(option.name()));
        }
        Ok(self.options)
    }
}

/// The options where nothing is said.
fn default_options(alloc: Global) -> Options {
    Options {
        action: Action::Check,
        detail: Detail::Normal,
        format: Format::Text,
        explains: false,
        traced: None,
        features: ModuleFeatures::DEFAULT,
        files: Vec::new(alloc),
    }
}

/// Reads the program's words.
pub fn read_options(rt: &HostRuntime) -> Result<Options, UsageError> {
    let mut words = Words {
        alloc: rt.alloc(),
        options: default_options(rt.alloc()),
        awaits: None,
        is_behind_options: false,
    };
    for word in read_words(rt)? {
        words.take(word)?;
    }
    words.end()
}
