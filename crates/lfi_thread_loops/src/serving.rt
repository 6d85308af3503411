//! All parts of a stage go through their threads, each receiver with a client of a socket.

ghost use Rattle.std.specs.Prelude.{◌≡◌, ◌≤◌, ℕ, [], Ok, Some, None, false, IsOk, IfOk, OnOk, length, slice_get};
ghost use Rattle.lfi_receive.specs.Inputs.{left_of};
ghost use Rattle.lfi_receive.specs.declared.receiver.Receiver.{Receiver};
ghost use Rattle.lfi_stage_model.specs.Parts.{IsReceiver};
ghost use Rattle.lfi_stage_model.specs.Fresh.{IsFresh};
ghost use Rattle.lfi_sync.specs.Clients.{sent_over_socket};
ghost use Rattle.lfi_sync.specs.Deadlines.{limit_of_acceptor};
ghost use Rattle.lfi_sync.specs.Fates.{fate_at, is_out_of_time};
ghost use Rattle.lfi_sync.specs.Lifecycles.{judging_of};
ghost use Rattle.lfi_thread_loops.specs.Running.{AreReady, HaveServed};
ghost use Rattle.lfi_thread_loops.specs.inner.Clients.{AreTaken, HaveComeTo};
ghost use Rattle.lfi_thread_loops.specs.inner.PartIds.{AreAt};

use crate::env::Env;
use crate::notices::Notices;
use crate::promises::ReceiverThread;
use crate::running::join_parts;
use crate::starting::{start_receiver, start_sequencers, start_verifiers};
use lfi_module::CONNECTIONS;
use lfi_receive::{Input, Receiver};
use lfi_sequence::Gate;
use lfi_stage_model::Parts;
use lfi_sync::{Acceptor, Client, ClientFate, Connection, LoadError, Streams, Unheard, keep};
use std::fs::Files;
use std::io::ErrorKind;
use std::rt::Clock;
use std::sync::Wait;
use std::thread::{Scope, Threads};
use std::time::Duration;

/// What became of the clients of a socket.
#[derive(Drop)]
pub struct ServedClients {
    /// What became of each, by the connections' numbers. One that isn't there has sent nothing: its text is empty.
    pub fates: [ClientFate; CONNECTIONS],
    /// Why reads of connections failed, by their numbers, where one failed.
    pub read_errors: [Option<ErrorKind>; CONNECTIONS],
    /// How long clients were waited for and heard, at most.
    pub limit: Option<Duration>,
}

/// All parts of a stage after their threads, and what became of their clients.
#[derive(Drop)]
pub struct Back {
    pub parts: Parts,
    pub clients: ServedClients,
}

/// The thread of a client's receiver.
type ClientThread<'e> = ReceiverThread<'e, Client<Connection<'e>>>;

/// Where clients come in, and what their connections share.
#[derive(Clone, Copy)]
struct Clients<'d, 'l, 'e, S: Files> {
    acceptor: &'d Acceptor<'l, S>,
    streams: &'e Streams,
}

/// A client as the input of its receiver. Where memory is refused, all are told to stop.
fn input_of<'e, S, G, N>(
    env: &Env<'_, S, G, N>,
    client: Client<Connection<'e>>,
) -> Result<Input<Client<Connection<'e>>>, LoadError>
    ensures { IfOk result (λ input. left_of sent_over_socket input ≡ sent_over_socket client.entry) }
{
    match Input::new(env.alloc, client) {
        Ok(input) => Ok(input),
        Err(_) => Err(env.lifecycle.stop(LoadError::NoMemory)),
    }
}

/// Takes a client for each receiver, where the verifiers' threads were started, and starts the
/// receiver's thread at once. The answer is what becomes of the clients, as far as it is known then.
/// Where memory or a thread is refused, all are told to stop.
fn accept_all<'s, 'e: 's, S: Threads + Wait + Files + Clock + Sync, G, N: Notices + Sync>(
    scope: &Scope<'s, &'e ()>,
    env: &Env<'e, S, G, N>,
    verifying: Result<(), LoadError>,
    clients: Clients<'_, '_, 'e, S>,
    receivers: Vec<Receiver>,
    handles: &mut Vec<ClientThread<'e>>,
) -> Result<[ClientFate; CONNECTIONS], LoadError>
    requires is { (k : ℕ) (r : Receiver) → slice_get receivers.items k ≡ Some r → IsReceiver env.now.shared.now k r × IsFresh r }
    requires few { length receivers.items ≤ 8 }
    requires none { handles.old.items ≡ [] }
    ensures numbered { AreAt env.entry.now.shared.now handles.new.items (λ h. h.promise.part) }
    ensures all { IfOk result (λ fates. length handles.new.items ≡ length receivers.items) }
    ensures taken { IfOk result (λ fates. AreTaken fates handles.new.items (λ h. left_of sent_over_socket h.promise.input.value)) }
    ensures endless { IfOk result (λ fates. limit_of_acceptor clients.entry.acceptor.now ≡ None → (c : ℕ) → is_out_of_time (fate_at fates c) ≡ false) }
    ensures verifying { OnOk result (IsOk verifying) }
{
    verifying?;
    let mut fates = [ClientFate::Heard; CONNECTIONS];
    for receiver in receivers {
        let number = handles.len();
        let client = clients.streams.accept(clients.acceptor, number);
        let fate = client.fate();
        let input = input_of(env, client)?;
        let handle = start_receiver(scope, env, number, receiver, input);
        keep(env.lifecycle, handles, handle)?;
        fates[number] = fate;
    }
    Ok(fates)
}

/// What comes back, where all clients could be waited for and all parts are there. These of them had not
/// ended when the time was over.
fn back_from(
    accepted: Result<[ClientFate; CONNECTIONS], LoadError>,
    unheard: Unheard,
    parts: Result<Parts, LoadError>,
    read_errors: [Option<ErrorKind>; CONNECTIONS],
    limit: Option<Duration>,
) -> Result<Back, LoadError>
    ensures fates { IfOk result (λ back. HaveComeTo accepted unheard back.clients.fates) }
    ensures parts { IfOk result (λ back. parts ≡ Ok back.parts) }
    ensures limit { IfOk result (λ back. back.clients.limit ≡ limit) }
{
    let fates = unheard.cut_off(accepted?);
    Ok(Back {
        parts: parts?,
        clients: ServedClients {
            fates,
            read_errors,
            limit,
        },
    })
}

/// All parts of a stage go through their threads, each receiver with a client of the acceptor: starts the threads as the clients
/// come, and joins them. Where it comes to an error, all connections are ended. Then, or once all clients have come, the acceptor is
/// closed. The gate is told of each item before and after it is judged, and the notices of refused modules.
///
/// # Errors
///
/// `NoMemory` where there is no memory for a connection or the handles of threads, and `NoThread` where
/// a thread can't be started. Of both it is the one that came first.
pub fn serve_in<
    's,
    'e: 's,
    'c: 'e,
    S: Threads + Wait + Files + Clock + Sync,
    G: Gate + Sync,
    N: Notices + Sync,
>(
    scope: &Scope<'s, &'e ()>,
    env: &Env<'e, S, G, N>,
    ready: Parts,
    acceptor: Acceptor<'_, S>,
    streams: &'c Streams,
) -> Result<Back, LoadError>
    requires ready { (count : ℕ) × AreReady env.now.shared.now count ready }
    requires counted { judging_of env.now.lifecycle.now ≡ length ready.verifiers.items }
    ensures { IfOk result (HaveServed env.entry.now.shared.now (length ready.receivers.items) (length ready.verifiers.items) (limit_of_acceptor acceptor.entry)) }
{
    let Parts {
        receivers,
        verifiers,
        sequencers,
    } = ready;
    let placing = start_sequencers(scope, env, sequencers)?;
    let mut verifying = Vec::new(env.alloc);
    let mut receiving = Vec::new(env.alloc);
    let begun = start_verifiers(scope, env, verifiers, &mut verifying);
    env.lifecycle.go();
    let clients = Clients {
        acceptor: &acceptor,
        streams,
    };
    let accepted = accept_all(scope, env, begun, clients, receivers, &mut receiving);
    streams.shut_down_unless(&accepted);
    let closed = acceptor.close();
    let unheard = closed.wait_in_time(env.rt, env.lifecycle, streams, receiving.len());
    let placed = placing.join(env.rt);
    let back = join_parts(env, receiving, verifying, placed);
    let read_errors = streams.read_errors().kinds();
    back_from(accepted, unheard, back, read_errors, closed.limit())
}
