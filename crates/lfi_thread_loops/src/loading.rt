//! All parts of a stage go through their threads, each receiver with an input.

ghost use Rattle.std.specs.Prelude.{◌≡◌, IfOk, length};
ghost use Rattle.lfi_sync.specs.Lifecycles.{judging_of};
ghost use Rattle.lfi_thread_loops.specs.Running.{AreBack, AreReady, had_by};

use crate::env::Env;
use crate::notices::Notices;
use crate::running::join_parts;
use crate::sequencer_loop::sequence_loop;
use crate::starting::{start_receivers, start_verifiers};
use lfi_receive::Input;
use lfi_sequence::Gate;
use lfi_stage_model::Parts;
use lfi_sync::LoadError;
use std::io::Read;
use std::sync::Wait;
use std::thread::{Scope, Threads};

/// All parts of a stage go through their threads, each receiver with the input of its number: starts the threads of receivers
/// and verifiers, lets them go, turns all sequencers until the verifiers' have ended, and joins them. The gate is told of each
/// item before and after it is judged, and the notices of refused modules.
///
/// # Errors
///
/// `NoMemory` where there is no memory for the handles of threads, and `NoThread` where a thread can't
/// be started. Of both it is the one that came first.
pub fn load_in<
    's,
    'e: 's,
    S: Threads + Wait + Sync,
    R: Read + Send + Drop + 'e,
    G: Gate + Sync,
    N: Notices + Sync,
>(
    scope: &Scope<'s, &'e ()>,
    env: &Env<'e, S, G, N>,
    ready: Parts,
    inputs: Vec<Input<R>>,
) -> Result<Parts, LoadError>
    requires ready { AreReady env.now.shared.now (length inputs.items) ready }
    requires counted { judging_of env.now.lifecycle.now ≡ length ready.verifiers.items }
    ensures { IfOk result (AreBack env.entry.now.shared.now (length inputs.items) (length ready.verifiers.items) (had_by R.remaining inputs.items)) }
{
    let Parts {
        receivers,
        verifiers,
        sequencers,
    } = ready;
    let mut verifying = Vec::new(env.alloc);
    let mut receiving = Vec::new(env.alloc);
    let begun = start_verifiers(scope, env, verifiers, &mut verifying);
    let started = start_receivers(scope, env, begun, receivers, inputs, &mut receiving);
    env.lifecycle.go();
    let placed = sequence_loop(env.rt, env.shared, env.lifecycle, sequencers);
    let back = join_parts(env, receiving, verifying, placed);
    started.and(back)
}
