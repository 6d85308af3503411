//! What is said of a line that can't be carried out. The program's own words for it are rows of checks/runs.

use crate::runs::words;
use lfi_command_line::{Arguments, LineFault, read_line};
use std::alloc::{AllocError, Global};
use std::test::Fail;

/// Lines, and how what is said of each begins.
const LINES: [(&str, &str); 6] = [
    (
        "lfiload pack --pages large a",
        "pages are small, or large with --profile 2",
    ),
    ("lfiload check --format xml a", "--format is text or json"),
    ("lfiload load a b c d e f g h i", "at most 8 streams"),
    ("lfiload --version", "lfiload 0"),
    ("lfiload check --profile 3 a", "error: invalid value '3'"),
    ("lfiload unpack", "error: "),
];

/// What is said of the words of a line; nothing where they can be carried out.
fn said(alloc: Global, line: &str) -> Result<String, AllocError> {
    let words = words(alloc, line)?;
    let arguments = Arguments {
        version: "0",
        words: &words,
    };
    match read_line(alloc, arguments) {
        Ok(_) => Ok(String::new(alloc)),
        Err(fault) => fault.to_string(alloc),
    }
}

#[test]
fn tells_what_is_wrong_with_a_line(rt: HostRuntime) -> Result<(), Fail> {
    for (line, begin) in &LINES {
        let told = said(rt.alloc(), line)?;
        assert!(rt; told.as_str().starts_with(*begin), "{told}");
    }
    let told = LineFault::NoMemory.to_string(rt.alloc())?;
    assert!(rt; told.as_str() == "no memory");
    Ok(())
}
