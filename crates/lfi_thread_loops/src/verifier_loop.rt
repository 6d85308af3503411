//! What a verifier's thread does.

ghost use Rattle.std.specs.Prelude.{◌≡◌, Some, IsTrue};
ghost use Rattle.lfi_sequence.specs.declared.verifier.VerifierTurn.TheVariants as turn;
ghost use Rattle.lfi_sequence.specs.Handed.{seat_of};
ghost use Rattle.lfi_thread_loops.specs.declared.verifier_loop.VerifierExit.TheVariants as exit;
ghost use Rattle.lfi_thread_loops.specs.Seated.{IsVerifierOf, HasSeenAllEnd};
ghost use Rattle.lfi_thread_loops.specs.inner.Workers.{FoundNothing, EndsAsTold, IsVerifiedBy};

use crate::promises::{PartExit, PartId};
use lfi_module::ModuleNumber;
use lfi_sequence::{Gate, Verifier, VerifierTurn};
use lfi_stage_model::Shared;
use lfi_sync::{Lifecycle, Notifier, Stopped, Waiter};
use std::sync::Wait;

/// Why a verifier's thread ends.
#[derive(Clone, Copy)]
pub(crate) enum VerifierExit {
    /// All receivers had ended, and a later turn found nothing.
    Over,
    /// The threads are to stop.
    Stopped(Stopped),
}

/// Whether the board tells a verifier that all receivers have ended.
fn have_all_ended(part: PartId<'_>, verifier: &mut Verifier) -> bool
    requires is { IsVerifierOf part.shared.now part.number verifier.old }
    ensures is { IsVerifierOf part.entry.shared.now part.entry.number verifier.new }
    ensures seen { IsTrue result → HasSeenAllEnd part.entry.shared.now verifier.new }
{
    let shared = part.shared;
    verifier.ended(&shared.board) == shared.receivers
}

/// One turn of a verifier.
fn turn_one<S: Wait, G: Gate>(
    rt: &S,
    part: PartId<'_>,
    gate: &G,
    verifier: &mut Verifier,
) -> VerifierTurn
    requires is { IsVerifierOf part.shared.now part.number verifier.old }
    ensures is { IsVerifierOf part.entry.shared.now part.entry.number verifier.new }
    ensures seat { seat_of verifier.new ≡ seat_of verifier.old }
    ensures idle { result ≡ turn.Idle → FoundNothing verifier.old verifier.new }
{
    let shared = part.shared;
    verifier.turn(rt, &shared.intake, &shared.lanes, gate)
}

/// For how many judged items in one lane a verifier calls the sequencers' thread, at the latest: half a lane.
const JUDGED_A_CALL: u32 = 32;

/// For how many in all lanes it does, at the latest, by the numbers of receivers and verifiers: where each stream fills a lane of
/// its own, all verifiers together then fill half of each.
fn judged_a_call(receivers: u64, verifiers: u64) -> u32 {
    let all = u64::from(JUDGED_A_CALL).saturating_mul(receivers) / verifiers.max(1);
    u32::try_from(all).unwrap_or(u32::MAX).max(JUDGED_A_CALL)
}

/// For how many items of each receiver a verifier calls the receivers that wait, at the latest.
const TAKEN_A_CALL: u64 = 64;

/// After how many items that it took a verifier calls the receivers that wait, by the number of receivers.
fn taken_a_call(receivers: u64) -> u32 {
    u32::try_from(TAKEN_A_CALL.saturating_mul(receivers)).unwrap_or(u32::MAX)
}

/// How a verifier's thread waits, and tells others of what it brings them.
#[derive(Drop)]
struct VerifierPace<'a> {
    /// How far the threads are to go.
    lifecycle: &'a Lifecycle,
    /// Until there are items.
    idle: Waiter<'a>,
    /// Until there is room in the lane of the item in hand.
    blocked: Waiter<'a>,
    /// Of judged items.
    judged: Notifier<'a>,
    /// How many judged items it has put in each lane, since it called for one in which half a lane's were.
    in_lanes: [u32; ModuleNumber::COUNT],
    /// Of room in the intake.
    taken: Notifier<'a>,
}

impl<'a> VerifierPace<'a> {
    /// That of this verifier.
    fn new(lifecycle: &'a Lifecycle, part: PartId<'_>) -> VerifierPace<'a> {
        let wait_sets = lifecycle.wait_sets();
        let receivers = part.shared.receivers;
        VerifierPace {
            lifecycle,
            idle: Waiter::new(&wait_sets.items, part.number),
            blocked: Waiter::new(&wait_sets.lane_room, part.number),
            judged: Notifier::of_one(
                &wait_sets.judged,
                judged_a_call(receivers, lifecycle.verifiers()),
            ),
            in_lanes: [0; ModuleNumber::COUNT],
            taken: Notifier::of_all(&wait_sets.intake_room, taken_a_call(receivers)),
        }
    }

    /// It has put a judged item in the lane of this module.
    fn put_in(&mut self, module: ModuleNumber) {
        self.lifecycle.tell_filled(module);
        self.judged.brought();
        let lane = module.index();
        self.in_lanes[lane] = self.in_lanes[lane].saturating_add(1);
        if self.in_lanes[lane] >= JUDGED_A_CALL {
            self.in_lanes = [0; ModuleNumber::COUNT];
            self.judged.tell();
        }
    }

    /// Tells the others of what a turn of this verifier brought them that did this: the sequencers' thread of the lane at
    /// once. It and the receivers are called not for each item, and before this thread waits or ends.
    fn tell(&mut self, verifier: &Verifier, did: VerifierTurn) {
        match did {
            VerifierTurn::Worked => {
                if let Some(module) = verifier.last() {
                    self.put_in(module);
                }
                self.taken.brought();
            }
            VerifierTurn::Blocked => {
                self.judged.tell();
                self.taken.tell();
            }
            VerifierTurn::Idle => {
                self.judged.tell_rest();
                self.taken.tell_rest();
            }
            VerifierTurn::Again => {}
        }
    }

    /// Waits after a turn that found nothing, or no room.
    fn rest<S: Wait>(&mut self, rt: &S, did: VerifierTurn) {
        match did {
            VerifierTurn::Worked => {
                self.idle.end();
                self.blocked.end();
            }
            VerifierTurn::Blocked => {
                self.idle.end();
                self.blocked.pause(rt);
            }
            VerifierTurn::Idle => self.idle.pause(rt),
            VerifierTurn::Again => {}
        }
    }
}

/// Takes one turn of a verifier. Before it, its seat was asked whether all receivers have ended, and
/// this was the answer; it isn't asked again. The answer is why its thread is to end, where it is.
fn verify_once<S: Wait, G: Gate>(
    rt: &S,
    part: PartId<'_>,
    gate: &G,
    verifier: &mut Verifier,
    all_ended: bool,
    pace: &mut VerifierPace<'_>,
) -> Option<VerifierExit>
    requires is { IsVerifierOf part.shared.now part.number verifier.old }
    requires seen { IsTrue all_ended → HasSeenAllEnd part.shared.now verifier.old }
    ensures is { IsVerifierOf part.entry.shared.now part.entry.number verifier.new }
    ensures seat { seat_of verifier.new ≡ seat_of verifier.old }
    ensures over { result ≡ Some exit.Over → IsTrue all_ended × FoundNothing verifier.old verifier.new }
{
    let did = turn_one(rt, part, gate, verifier);
    pace.tell(verifier, did);
    if all_ended && did == VerifierTurn::Idle {
        return Some(VerifierExit::Over);
    }
    if let Some(stopped) = pace.lifecycle.stopped() {
        return Some(VerifierExit::Stopped(stopped));
    }
    pace.rest(rt, did);
    None
}

/// Turns a verifier until all receivers have ended and a later turn finds nothing, or the threads
/// are to stop. The answer is which of both it was.
fn verify_on<S: Wait, G: Gate>(
    rt: &S,
    part: PartId<'_>,
    lifecycle: &Lifecycle,
    gate: &G,
    verifier: &mut Verifier,
) -> VerifierExit
    requires is { IsVerifierOf part.shared.now part.number verifier.old }
    ensures is { IsVerifierOf part.entry.shared.now part.entry.number verifier.new }
    ensures ended { EndsAsTold result part.entry.shared.now verifier.new }
{
    let mut pace = VerifierPace::new(lifecycle, part);
    for _ in rt.forever() {
        let all_ended = have_all_ended(part, verifier);
        if let Some(exit) = verify_once(rt, part, gate, verifier, all_ended, &mut pace) {
            return exit;
        }
    }
    unreachable!()
}

/// What the thread of the verifier with this number does. Where the threads are to stop it gives up.
pub(crate) fn verify_loop<S: Wait, G: Gate>(
    rt: &S,
    shared: &Shared,
    number: usize,
    lifecycle: &Lifecycle,
    gate: &G,
    mut verifier: Verifier,
) -> PartExit<Verifier>
    requires is { IsVerifierOf shared.now number verifier }
    ensures { IsVerifiedBy shared.now number result }
{
    let part = PartId { shared, number };
    match verify_on(rt, part, lifecycle, gate, &mut verifier) {
        VerifierExit::Over => {
            lifecycle.tell_verified();
            PartExit::Ended(verifier)
        }
        VerifierExit::Stopped(stopped) => {
            drop(verifier);
            PartExit::GaveUp(stopped)
        }
    }
}
