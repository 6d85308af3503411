//! Words as they stand in a table.

use a64_word::Words;

/// Words that are lent.
#[derive(Clone, Copy)]
pub struct Row<'a>(pub &'a [u32]);

impl Words for Row<'_> {
    ghost words = { λ row. row.0.now };

    fn count(&self) -> usize {
        self.0.len()
    }

    fn word(&self, i: usize) -> u32 {
        self.0[i]
    }
}
