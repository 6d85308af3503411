//! How fast images are written and read, pages are written, and queues pass items on. How fast the machine runs `lfiload run`
//! shows.
//!
//! | Words | What is measured |
//! |---|---|
//! | `image WORDS [ROUNDS]` | an image of WORDS words, built, written to a file and read back, the least time of each part in ROUNDS rounds, and the most memory |
//! | `pages ROUNDS [time]` | 256 pages, written in each round |
//! | `closes COUNT [ROUNDS]` | COUNT Closes that a receiver passes over |
//! | `queues ITEMS [ROUNDS]` | ITEMS items, put and taken, by one thread and by four |
//!
//! The third word asks for times. Without words each is run once, by small counts and without times.
#![tactic(auto)]

mod carriers;
mod closes;
mod faults;
mod image;
mod pages;
mod queues;
mod times;

use crate::faults::Fault;
use std::env;
use std::process::ExitCode;

/// What is measured.
#[derive(Clone, Copy, PartialEq)]
enum Mode {
    Image,
    Pages,
    Queues,
    Closes,
}

impl Mode {
    /// All that there are.
    const ALL: [Mode; 4] = [Mode::Image, Mode::Pages, Mode::Queues, Mode::Closes];

    /// How much is measured where no word says it.
    fn count(self) -> u64 {
        match self {
            Mode::Image => 2049,
            Mode::Pages => 2,
            Mode::Queues => 1000,
            Mode::Closes => 1000,
        }
    }
}

/// What the words ask for.
#[derive(Clone, Copy)]
struct Asked {
    /// One mode, or all.
    mode: Option<Mode>,
    count: Option<u64>,
    /// How many rounds, where times are asked for.
    rounds: Option<u64>,
}

/// The number that a word is, or what stands for one that is none.
fn number_of(word: Option<String>, none: Option<u64>) -> Option<u64> {
    match word {
        Some(word) => word.parse::<u64>().ok().or(none),
        None => None,
    }
}

/// The mode that a word names; all where there is no word.
fn mode_of(word: Option<String>) -> Result<Option<Mode>, Fault> {
    match word {
        Some(word) => match word.as_str() {
            "image" => Ok(Some(Mode::Image)),
            "pages" => Ok(Some(Mode::Pages)),
            "queues" => Ok(Some(Mode::Queues)),
            "closes" => Ok(Some(Mode::Closes)),
            _ => Err(Fault::Is("the modes are image, pages, queues and closes")),
        },
        None => Ok(None),
    }
}

impl Asked {
    fn read(rt: &HostRuntime) -> Result<Asked, Fault> {
        let mut words = env::args(rt)?;
        // The first word is the program's name.
        let mode = mode_of(words.nth(1));
        let count = number_of(words.next(), None);
        let rounds = number_of(words.next(), Some(1));
        drop(words);
        Ok(Asked {
            mode: mode?,
            count,
            rounds,
        })
    }

    fn wants(self, mode: Mode) -> bool {
        match self.mode {
            Some(one) => one == mode,
            None => true,
        }
    }
}

/// Tells what went wrong, if anything did.
fn end(rt: &HostRuntime, measured: Result<(), Fault>) -> ExitCode {
    match measured {
        Ok(()) => ExitCode::SUCCESS,
        Err(fault) => {
            let _ = eprintln!(rt; "Error: {fault}");
            ExitCode::FAILURE
        }
    }
}

fn main(rt: HostRuntime) -> ExitCode {
    let asked = match Asked::read(&rt) {
        Ok(asked) => asked,
        Err(fault) => return end(&rt, Err(fault)),
    };
    let mut measured = Ok(());
    for mode in Mode::ALL.iter() {
        if asked.wants(*mode) && measured.is_ok() {
            let count = asked.count.unwrap_or(mode.count());
            measured = match mode {
                Mode::Image => image::run(&rt, count, asked.rounds),
                Mode::Pages => pages::run(&rt, count, asked.rounds),
                Mode::Queues => queues::run(&rt, count, asked.rounds),
                Mode::Closes => closes::run(&rt, count, asked.rounds),
            };
        }
    }
    end(&rt, measured)
}
