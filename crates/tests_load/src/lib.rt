//! Worked rows of `lfi_loader`: streams loaded on threads, and clients over sockets. `laws` read the records of contracts.
#![tactic(auto)]

#[cfg(test)]
mod ahead;
#[cfg(test)]
mod build;
#[cfg(test)]
mod clients;
#[cfg(test)]
mod gates;
#[cfg(test)]
mod growths;
#[cfg(test)]
mod inputs;
mod laws;
#[cfg(test)]
mod limits;
#[cfg(test)]
mod packs;
#[cfg(test)]
mod reads;
#[cfg(test)]
mod reports;
#[cfg(test)]
mod workers;

pub use laws::{
    absent_clients_have_no_module, failed_reads_have_failed, new_parts_share_a_pool,
    opened_modules_are_loaded, packed_modules_are_heard_whole,
};
