//! Disks in memory, which tell contracts their bytes.

ghost use Rattle.std.specs.Prelude.{Some, map, string_bytes};

use crate::runs::{
    FAILED, ONE_RET, ONE_RET_IMAGE, ONE_RET_REPORT, WELL, is_told, kept, run_noticed,
};
use lfi_file_commands::{Disk, ImageStore};
use lfi_image::CompleteImage;
use lfi_image_file::write_image;
use lfi_loader::NoNotices;
use std::alloc::Global;
use std::fs::{File, Files};
use std::io;
use std::net::Net;
use std::rt::Clock;
use std::sync::Wait;
use std::thread::Threads;

/// A file that was put, by its path and bytes.
#[derive(Drop)]
struct PutFile {
    path: String,
    bytes: Vec<u8>,
}

/// Has the same file at each path.
#[derive(Clone, Copy)]
struct MemoryDisk<'a> {
    file: &'a [u8],
}

/// Takes a number of images.
#[derive(Drop)]
pub struct MemoryStore {
    put: Vec<PutFile>,
    room: usize,
}

impl<'a> Disk for MemoryDisk<'a> {
    type Reader = &'a [u8];

    ghost file_at = { λ disk path. Some disk.file.now };

    fn open(&self, path: &str) -> io::Result<&'a [u8]> {
        let _ = path;
        Ok(self.file)
    }
}

impl ImageStore for MemoryStore {
    ghost put_files = { λ store. Some (map (λ f. (string_bytes f.path, f.bytes.items)) store.put.items) };

    fn put_image(&mut self, path: &str, image: &CompleteImage) -> io::Result<()> {
        if self.put.len() >= self.room {
            return Err(io::Error::from(io::ErrorKind::StorageFull));
        }
        let alloc = *self.put.allocator();
        let path = String::from_str(alloc, path)?;
        let mut bytes = Vec::new(alloc);
        match write_image(image, &mut bytes) {
            Ok(()) => {
                self.put.push(PutFile { path, bytes })?;
                Ok(())
            }
            Err(_) => Err(io::Error::from(io::ErrorKind::OutOfMemory)),
        }
    }
}

/// The words of the runs.
const LINE: &str = "lfiload load --out folder any.stream";

impl MemoryStore {
    /// Has room for `room` images.
    pub fn with_room(alloc: Global, room: usize) -> MemoryStore {
        MemoryStore {
            put: Vec::new(alloc),
            room,
        }
    }

    /// Whether `count` files were put, each the image of the one module at its path.
    fn has_put(&self, count: usize) -> bool {
        for file in &self.put {
            if file.path.as_str() != "folder/module-00.img"
                || file.bytes.as_slice() != ONE_RET_IMAGE.as_slice()
            {
                return false;
            }
        }
        self.put.len() == count
    }
}

/// Whether the run over a disk with room for a number of images fills it, writes the report, ends with this status and tells
/// exactly this.
fn fills<S: Threads + Wait + Files<File = File> + Net + Clock + Sync + AllocGlobal>(
    rt: &S,
    room: usize,
    status: u8,
    told: &str,
) -> bool {
    let disk = MemoryDisk {
        file: ONE_RET.as_slice(),
    };
    let mut outputs = kept(rt.alloc(), MemoryStore::with_room(rt.alloc(), room));
    let ended = run_noticed(rt, &disk, &NoNotices, LINE, &mut outputs);
    let is_so = ended == status && is_told(&outputs.errors, told);
    is_so && outputs.out.as_slice() == ONE_RET_REPORT.as_bytes() && outputs.images.has_put(room)
}

#[test]
fn disks_with_room_and_without(rt: HostRuntime) {
    let told = "lfiload: cannot write folder/module-00.img\n  No space left on device\n";
    assert!(rt; fills(&rt, 1, WELL, "") && fills(&rt, 0, FAILED, told));
}
