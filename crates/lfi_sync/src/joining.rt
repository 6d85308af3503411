//! Handles of threads are kept, and joined.

ghost use Rattle.std.specs.Prelude.{◌≡◌, ◌⊎◌, ℕ, Ok, Err, Some, IfOk, IfErr, OnOk, OnErr, ◌++◌, ◌∷◌, [], length, slice_get};

use crate::lifecycle::Lifecycle;
use crate::refusal::LoadError;
use std::alloc::AllocError;
use std::thread;
use std::thread::{Promise, PromisedHandle, Threads};

/// Keeps the handle of a thread, where it was started. Where memory is refused, all threads are told
/// to stop, and this one isn't joined: its client may be silent, and ends once connections are shut down. Its scope waits for it.
///
/// # Errors
///
/// Why it wasn't started, or `NoMemory` where memory for its handle is refused.
pub fn keep<T: Drop, P: Promise<T>>(
    lifecycle: &Lifecycle,
    handles: &mut Vec<PromisedHandle<T, P>>,
    started: Result<PromisedHandle<T, P>, LoadError>,
) -> Result<(), LoadError>
    ensures kept { OnOk result ((handle : _) × (started ≡ Ok handle) × (handles.new.items ≡ handles.old.items ++ handle ∷ [])) }
    ensures refused { OnErr result (handles.new.items ≡ handles.old.items) }
    ensures why { IfErr result (λ why. (started ≡ Err why) ⊎ (why ≡ LoadError.NoMemory)) }
{
    let handle = started?;
    match handles.push(handle) {
        Ok(()) => Ok(()),
        Err(refused) => {
            let why = lifecycle.stop(LoadError::NoMemory);
            drop(refused.value);
            Err(why)
        }
    }
}

/// Joins all of these threads, and gives what they gave back, in the order of the threads. Where
/// memory is refused, all have ended too.
///
/// # Errors
///
/// Where memory is refused for what they gave back.
pub fn join_all<S: Threads, T: Drop, P: Promise<T>>(
    rt: &S,
    handles: Vec<PromisedHandle<T, P>>,
) -> Result<Vec<T>, AllocError>
    ensures count { IfOk result (λ parts. length parts.items ≡ length handles.items) }
    ensures kept { IfOk result (λ parts. (k : ℕ) (part : T) → slice_get parts.items k ≡ Some part → (handle : _) × (slice_get handles.items k ≡ Some handle) × P.kept_by handle.promise part) }
{
    match thread::join_promised(rt, handles) {
        Ok(parts) => Ok(parts),
        Err(refused) => {
            for handle in refused.value {
                handle.join(rt);
            }
            Err(AllocError)
        }
    }
}
