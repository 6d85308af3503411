//! What is told of words: each rule once with its whole text, all words of a module that break one, and listings.

mod late;
mod listings;
mod rules;
