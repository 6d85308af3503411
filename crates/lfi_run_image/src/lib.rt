//! Image files, run: what serves the calls of their code, why a run ended, and what is told of it.
#![tactic(auto)]

mod console;
mod image_run;
mod run;
mod service;

pub use image_run::ImageRun;
pub use lfi_machine::{Halt, StopCause};
pub use run::run_image;
pub use service::Service;
