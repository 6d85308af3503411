//! Worked rows of `lfi_reference` and of `lfi_stage`: whole streams, and the reports on them.

mod connections;
mod cuts;
mod ends;
mod modules;
mod plain;
mod rows;
mod settled;
mod spoiled;
mod stage;
mod streams;
pub mod turned;
