//! Tables of runs.
#![tactic(auto)]

#[cfg(test)]
mod accesses;
#[cfg(test)]
mod classes;
#[cfg(test)]
mod edges;
#[cfg(test)]
mod host;
#[cfg(test)]
mod late;
mod laws;
#[cfg(test)]
mod ordered;
#[cfg(test)]
mod runs;
#[cfg(test)]
mod semantics;
#[cfg(test)]
mod texts;
#[cfg(test)]
mod whole_slot;

pub use laws::{
    accesses_escape_from_the_last_slot, branches_escape_from_the_last_slot, no_word_keeps_no_page,
    stores_keep_their_pages_alone,
};
