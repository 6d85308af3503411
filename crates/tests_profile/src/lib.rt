//! Tables of modules: whether they are lawful, and where they first break which rule.
#![tactic(auto)]

#[cfg(test)]
mod cuttings;
#[cfg(test)]
mod explained;
#[cfg(test)]
mod instructions;
#[cfg(test)]
mod late;
#[cfg(test)]
mod letter;
#[cfg(test)]
mod modules;
#[cfg(test)]
mod needs;
#[cfg(test)]
mod ordered;
#[cfg(test)]
mod pages;
#[cfg(test)]
mod plain;
#[cfg(test)]
mod random;
#[cfg(test)]
mod row;
#[cfg(test)]
mod words;
