//! Tests of sequencers and verifiers.
#![tactic(auto)]

#[cfg(test)]
mod frames;
#[cfg(test)]
mod growths;
#[cfg(test)]
mod images;
#[cfg(test)]
mod items;
mod laws;
#[cfg(test)]
mod orders;
#[cfg(test)]
mod sequencers;
#[cfg(test)]
mod verifiers;
