//! Where it is told, while modules are loaded, that one was refused.

use lfi_loader::Notices;
use lfi_module::ModuleNumber;
use std::array;
use std::io::Write;
use std::sync::atomic::{AtomicBool, Ordering};

/// How many bytes the longest line has, `module 15 refused` with its end.
const LONGEST: usize = 18;

/// Writes a line, `module M refused`, for each module of which it is told, once and in one write:
/// where several threads tell at the same time, none writes into another's line. What can't be
/// written is dropped.
#[derive(Drop)]
pub struct WrittenNotices<W> {
    writer: W,
    told: [AtomicBool; ModuleNumber::COUNT],
}

impl<W> WrittenNotices<W> {
    /// The lines go to this writer. None is written yet.
    pub fn new(writer: W) -> WrittenNotices<W> {
        WrittenNotices {
            writer,
            told: array::from_fn(|_| AtomicBool::new(false)),
        }
    }
}

impl<W: Write + Copy> Notices for WrittenNotices<W> {
    fn refused(&self, module: ModuleNumber) {
        if self.told[module.index()].swap(true, Ordering::SeqCst) {
            return;
        }
        let number = module.number();
        let mut line = [0; LONGEST];
        let mut room = line.as_mut_slice();
        let _ = writeln!(room, "module {number} refused");
        let written = LONGEST.saturating_sub(room.len());
        let mut writer = self.writer;
        let _ = writer.write_all(&line[..written]);
    }
}
