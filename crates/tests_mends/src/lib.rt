//! Tables of mends: which instructions stand in the place of which word, and of which words there are none. What mends do to
//! registers and bytes is compared with the refused instruction on random states, also of words drawn near those of the tables.
#![tactic(auto)]

#[cfg(test)]
mod carries;
#[cfg(test)]
mod drawn;
mod laws;
#[cfg(test)]
mod machine;
#[cfg(test)]
mod neighbors;
#[cfg(test)]
mod reasons;
#[cfg(test)]
mod rows;
#[cfg(test)]
mod states;
#[cfg(test)]
mod tables;
#[cfg(test)]
mod writes;
