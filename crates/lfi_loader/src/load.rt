//! Streams loaded by a stage, each part of which has its thread.

ghost use Rattle.std.specs.Prelude.{◌≡◌, ◌≤◌, ℕ, List, Some, IfOk, length, slice_get};
ghost use Rattle.lfi_receive.specs.Inputs.{left_of};
ghost use Rattle.lfi_receive.specs.declared.input.Input.{Input};
ghost use Rattle.lfi_sync.specs.Lifecycles.{judging_of};
ghost use Rattle.lfi_thread_loops.specs.Running.{AreBack, AreReady, had_by};
ghost use Rattle.lfi_loader.specs.Loaded.{IsLoaded};

use lfi_receive::Input;
use lfi_sequence::Gate;
use lfi_stage::{Report, Stage, let_go, settle};
use lfi_stage_model::Parts;
use lfi_sync::{Lifecycle, LoadError};
use lfi_thread_loops::{Env, Notices, load_in};
use std::alloc::Global;
use std::io::Read;
use std::sync::Wait;
use std::thread::{self, Threads};

/// Loads the modules of the streams that these inputs have, each up to its end. Each input is read
/// by a thread of its own, each of the verifiers has one, and this one turns all sequencers. The gate
/// is told of each item before and after it is judged, and the notices of refused modules.
///
/// # Errors
///
/// `NoMemory` where there is no memory for the stage, and `NoThread` where a thread can't be started;
/// no memory for a page is told in the report. Of both it is the one that came first, and then
/// nothing is loaded.
///
/// ```
/// let report = load_all(rt, alloc, inputs, 2, &OpenGate, &NoNotices)?;   // an Input a connection
/// write!(out, "{}", report.summary())?;
/// for told in &report.modules {
///     if let ImageState::Whole(image) = &told.image {
///         write_image(image, &mut file_of(image.slot()))?;
///     }
/// }
/// ```
pub fn load_all<
    'x,
    S: Threads + Wait + Sync,
    R: Read + Send + Drop,
    G: Gate + Sync,
    N: Notices + Sync,
>(
    rt: &'x S,
    alloc: Global,
    inputs: Vec<Input<R>>,
    verifiers: usize,
    gate: &'x G,
    notices: &'x N,
) -> Result<Report, LoadError>
    requires connections { (1 ≤ length inputs.items) × (length inputs.items ≤ 8) }
    requires verifiers { (1 ≤ verifiers) × (verifiers ≤ 8) }
    ensures { IfOk result (λ report. (texts : ℕ → List ℕ) → ((c : ℕ) (input : Input R) → slice_get inputs.items c ≡ Some input → left_of R.remaining input ≡ Some (texts c)) → IsLoaded (length inputs.items) verifiers texts report) }
{
    let Stage { parts, shared } = Stage::new(alloc, inputs.len(), verifiers)?;
    let lifecycle = Lifecycle::new(verifiers);
    let back = {
        let env = Env {
            rt,
            alloc,
            shared: &shared,
            lifecycle: &lifecycle,
            gate,
            notices,
        };
        let env = &env;
        thread::scope(
            thread::scope_env(),
            rt,
            move |scope| -> Result<Parts, LoadError>
                requires { AreReady env.now.shared.now (length inputs.items) parts × (judging_of env.now.lifecycle.now ≡ length parts.verifiers.items) }
                ensures { IfOk result (AreBack env.entry.now.shared.now (length inputs.items) (length parts.verifiers.items) (had_by R.remaining inputs.items)) }
            { load_in(scope, env, parts, inputs) },
        )
    };
    match back {
        Ok(parts) => Ok(settle(
            rt,
            parts.receivers,
            parts.verifiers,
            parts.sequencers,
            shared,
        )),
        Err(why) => {
            let_go(shared);
            Err(why)
        }
    }
}
