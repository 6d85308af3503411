//! Tests of packing: streams by hand, I/O errors, and packed modules loaded by the stage.

mod devices;
mod loaded;
mod packed;
