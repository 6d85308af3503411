//! Streams that clients send over a socket, loaded by a stage, each part of which has its thread.

ghost use Rattle.std.specs.Prelude.{◌≡◌, ◌≤◌, ℕ, Option, IfOk, length};
ghost use Rattle.std.specs.declared.time.Duration.{Duration};
ghost use Rattle.lfi_sync.specs.Deadlines.{limit_of_acceptor};
ghost use Rattle.lfi_sync.specs.Lifecycles.{judging_of};
ghost use Rattle.lfi_thread_loops.specs.Running.{AreReady, HaveServed};
ghost use Rattle.lfi_loader.specs.Served.{HasServed};

use lfi_sequence::Gate;
use lfi_stage::{Report, Stage, let_go, settle};
use lfi_stage_model::Shared;
use lfi_sync::{Acceptor, Lifecycle, LoadError, Streams};
use lfi_thread_loops::{Back, Env, Notices, ServedClients, serve_in};
use std::alloc::Global;
use std::fs::Files;
use std::rt::Clock;
use std::sync::Wait;
use std::thread::{self, Threads};

/// What became of what the clients sent.
#[derive(Drop)]
pub struct Served {
    pub report: Report,
    pub clients: ServedClients,
}

/// How large a stage is.
#[derive(Clone, Copy)]
pub struct StageSize {
    /// How many connections it has, 1 to 8.
    pub connections: usize,
    /// How many verifiers it has, 1 to 8.
    pub verifiers: usize,
}

/// What the threads are lent.
#[derive(Drop)]
struct Lent {
    shared: Shared,
    lifecycle: Lifecycle,
    streams: Streams,
}

/// The stage is settled, of which all parts are back.
fn settled<S: Wait>(rt: &S, back: Back, shared: Shared) -> Served
    requires { (count verifiers : ℕ) × (limit : Option Duration) × HaveServed shared count verifiers limit back }
    ensures { (count verifiers : ℕ) (limit : Option Duration) → HaveServed shared count verifiers limit back → HasServed count verifiers limit result }
{
    let Back { parts, clients } = back;
    let report = settle(
        rt,
        parts.receivers,
        parts.verifiers,
        parts.sequencers,
        shared,
    );
    Served { report, clients }
}

/// Takes clients of an acceptor, one a connection, and loads the modules of the streams that they send, each up
/// to its end. Each connection is read by a thread of its own from when it was accepted, each of so
/// many verifiers has a thread, and one turns all sequencers. The connections have numbers in the
/// order in which they were accepted. After the last one was, or where it comes to an error, the
/// acceptor is closed: the path at which its listener listens is removed, once; that this fails isn't told. The gate is told
/// of each item before and after it is judged, and the notices of refused modules.
///
/// A client that hasn't come when the acceptor's time is over isn't accepted, and the connections of all others end where they
/// are, as if their clients had closed them. What became of each is told with the report.
///
/// # Errors
///
/// `NoMemory` where there is no memory for the stage or for a connection, and `NoThread` where a
/// thread can't be started; no memory for a page is told in the report. Of both it is the one that
/// came first, and then nothing is loaded.
pub fn serve_on<'x, S: Threads + Wait + Files + Clock + Sync, G: Gate + Sync, N: Notices + Sync>(
    rt: &'x S,
    alloc: Global,
    acceptor: Acceptor<'_, S>,
    size: StageSize,
    gate: &'x G,
    notices: &'x N,
) -> Result<Served, LoadError>
    requires connections { (1 ≤ size.connections) × (size.connections ≤ 8) }
    requires verifiers { (1 ≤ size.verifiers) × (size.verifiers ≤ 8) }
    ensures { IfOk result (HasServed size.connections size.verifiers (limit_of_acceptor acceptor.entry)) }
{
    let Stage { parts, shared } = Stage::new(alloc, size.connections, size.verifiers)?;
    let lent = Lent {
        shared,
        lifecycle: Lifecycle::new(size.verifiers),
        streams: Streams::new(),
    };
    let back = {
        let lent = &lent;
        let env = Env {
            rt,
            alloc,
            shared: &lent.shared,
            lifecycle: &lent.lifecycle,
            gate,
            notices,
        };
        let env = &env;
        thread::scope(
            thread::scope_env(),
            rt,
            move |scope| -> Result<Back, LoadError>
                requires { ((count : ℕ) × AreReady env.now.shared.now count parts) × (judging_of env.now.lifecycle.now ≡ length parts.verifiers.items) }
                ensures { IfOk result (HaveServed env.entry.now.shared.now (length parts.receivers.items) (length parts.verifiers.items) (limit_of_acceptor acceptor.entry)) }
            { serve_in(scope, env, parts, acceptor, &lent.streams) },
        )
    };
    let Lent {
        shared,
        lifecycle: _,
        streams: _,
    } = lent;
    match back {
        Ok(back) => Ok(settled(rt, back, shared)),
        Err(why) => {
            let_go(shared);
            Err(why)
        }
    }
}
