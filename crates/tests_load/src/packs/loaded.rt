//! Packed modules, loaded by the stage.

use crate::inputs::{Pieces, tells};
use crate::packs::devices::{ONE_WORD, Shape, StreamWriter, code, pack};
use lfi_module::Profile;
use std::alloc::Global;

const SHAPES: [Shape; 3] = [
    Shape {
        module: 5,
        words: 2,
        ..ONE_WORD
    },
    Shape {
        module: 6,
        words: 1025,
        profile: Profile::Two,
        ..ONE_WORD
    },
    Shape {
        module: 7,
        words: 3072,
        ..ONE_WORD
    },
];

/// Packs a module of this shape. The answer is whether it was packed.
fn pack_one(alloc: Global, shape: &Shape, stream: &mut StreamWriter) -> bool {
    match code(alloc, shape.words) {
        Ok(file) => pack(shape, Pieces::of(file.as_slice(), 700), stream) == Some(Ok(())),
        Err(_) => false,
    }
}

/// Packs modules of these shapes, one after the other. The answer is whether all were packed.
fn pack_all(alloc: Global, shapes: &[Shape], stream: &mut StreamWriter) -> bool {
    for shape in shapes {
        if !pack_one(alloc, shape, stream) {
            return false;
        }
    }
    true
}

#[test]
fn three_files(rt: HostRuntime) {
    let mut stream = StreamWriter::new(rt.alloc(), 100_000, 4096);
    let packed = pack_all(rt.alloc(), &SHAPES, &mut stream);
    let want =
        "module 5: complete, 2 words\nmodule 6: complete, 1025 words\nmodule 7: complete, 3072 words\nstrays 0\n";
    assert!(rt; packed && tells(&rt, &[stream.taken.as_slice()], 5000, 1, want));
}
