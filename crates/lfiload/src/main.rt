//! `lfiload`: checks the code of modules, and loads modules from streams.
#![tactic(auto)]

use lfi_commands::{Arguments, WrittenNotices, run_words};
use lfi_file_commands::{Errors, Outputs, SystemDisk, SystemStore, tell_unread_arguments};
use std::fs::File;
use std::os::fd::{AsRawFd, IntoRawFd};
use std::process::ExitCode;
use std::{env, io};

/// What `--version` tells: the program's version, the commit, where `checks/build` builds it from one, and the number of the C
/// library's interface.
const VERSION: &str = "0.1.0, library interface 7";

/// What stands for a standard descriptor that is closed.
const NOTHING: &str = "/dev/null";

/// Opens each standard descriptor that is closed, so that no file or connection of this run gets its number. Reads from
/// it and writes to it fail, as those of a closed one do: the standard input can't be read, nor the others written.
fn hold_standard_descriptors(rt: &HostRuntime) {
    for _ in 0..3 {
        // What is opened gets the least number that is free.
        let Ok(file) = File::open(rt, NOTHING) else {
            return;
        };
        match file.as_raw_fd() {
            0 => {
                drop(file);
                if let Ok(file) = File::options().write(true).open(rt, NOTHING) {
                    file.into_raw_fd();
                }
            }
            1 | 2 => {
                file.into_raw_fd();
            }
            _ => return,
        }
    }
}

/// The arguments.
fn words(rt: &HostRuntime) -> io::Result<Vec<String>> {
    Ok(env::args(rt)?.collect(rt.alloc())?)
}

fn main(rt: HostRuntime) -> ExitCode {
    hold_standard_descriptors(&rt);
    let disk = SystemDisk {
        rt: &rt,
        input: rt.stdin(),
    };
    let mut outputs = Outputs {
        images: SystemStore { rt: &rt },
        out: io::writer(&rt),
        errors: Errors::new(rt.alloc(), rt.stderr()),
    };
    let ending = match words(&rt) {
        Ok(words) => run_words(
            &rt,
            rt.alloc(),
            &disk,
            &WrittenNotices::new(rt.stderr()),
            Arguments {
                version: VERSION,
                words: &words,
            },
            &mut outputs,
        ),
        Err(error) => tell_unread_arguments(&error, &mut outputs.errors),
    };
    ExitCode::from(ending.status())
}
