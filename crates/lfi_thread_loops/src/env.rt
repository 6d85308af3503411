//! What the threads of a stage share.

use lfi_stage_model::Shared;
use lfi_sync::Lifecycle;
use std::alloc::Global;

/// What the threads of a stage share, and what starts them. It is made once a load, and lent. A
/// thread's closure takes what it needs of it one by one.
#[derive(Drop)]
pub struct Env<'e, S, G, N> {
    pub rt: &'e S,
    pub alloc: Global,
    /// The stage.
    pub shared: &'e Shared,
    /// How far the threads are to go. It is new, and for as many verifiers as the stage has.
    pub lifecycle: &'e Lifecycle,
    /// What is told of each item before and after it is judged.
    pub gate: &'e G,
    /// What is told of refused modules.
    pub notices: &'e N,
}
