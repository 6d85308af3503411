//! The command line of `lfiload`: what its words ask for, and what is wrong with them.
#![tactic(auto)]

mod commands;
mod fault;
mod flaw;
mod given;
mod help;
mod line;
mod options;

pub use fault::LineFault;
pub use flaw::Flaw;
pub use line::{Arguments, Line, read_line};
pub use options::{
    CheckOptions, DisassembleOptions, Explain, Format, InfoOptions, LoadOptions, PackOptions,
    ReportOptions, RunOptions, ServeOptions, UnpackOptions,
};
