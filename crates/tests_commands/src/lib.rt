//! Tests of the commands: readers, writers and disks that give and take little, or fail, and each command once over files.
//! Whole runs of the program over files are rows of checks/runs. `laws` read the records of contracts.
#![tactic(auto)]

#[cfg(test)]
mod devices;
#[cfg(test)]
mod disks;
#[cfg(test)]
mod endings;
#[cfg(test)]
mod files;
#[cfg(test)]
mod images;
mod laws;
#[cfg(test)]
mod lines;
#[cfg(test)]
mod notices;
#[cfg(test)]
mod runs;
#[cfg(test)]
mod serves;

pub use laws::{
    images_are_put, lawful_code_is_told_lawful, loads_tell_their_report, no_file_is_put,
    runs_are_confined, served_clients_are_told, unwritten_bytes_end_a_run,
};
