//! What the program's words choose.

use crate::unmeasured::Unmeasured;
use std::env;

/// What the words choose.
#[derive(Clone, Copy)]
pub struct Choice {
    /// How often the script that is the input is run in each way, or 0 where the input names files.
    pub runs: u32,
    /// Whether the times are left out.
    pub untimed: bool,
}

/// Reads the program's words.
pub fn read_choice(rt: &HostRuntime) -> Result<Choice, Unmeasured> {
    let mut choice = Choice {
        runs: 0,
        untimed: false,
    };
    let mut words = env::args(rt).map_err(|_| Unmeasured::Host)?.skip(1);
    while let Some(word) = words.next() {
        match word.as_str() {
            "--untimed" => choice.untimed = true,
            "--runs" => {
                let runs = words.next().ok_or(Unmeasured::Words)?;
                choice.runs = runs.parse().map_err(|_| Unmeasured::Words)?;
            }
            _ => return Err(Unmeasured::Words),
        }
    }
    Ok(choice)
}
