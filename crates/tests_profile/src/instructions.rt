//! Tables of words: what they spell, and what it does.

mod effects;
mod flips;
mod names;
mod ordered;
mod ranges;
mod spelling;
mod texts;
mod words;
