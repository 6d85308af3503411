//! What a receiver's thread does.

ghost use Rattle.std.specs.Prelude.{◌≡◌, ℕ, List, Option, Some};
ghost use Rattle.lfi_receive.specs.Receivers.{IsFinished};
ghost use Rattle.lfi_receive.specs.Inputs.{left_of};
ghost use Rattle.lfi_stage_model.specs.Parts.{IsReceiver};
ghost use Rattle.lfi_stage_model.specs.Fresh.{IsFresh};
ghost use Rattle.lfi_thread_loops.specs.declared.receiver_loop.ReceiverExit.TheVariants as receiver_exit;
ghost use Rattle.lfi_thread_loops.specs.inner.Hearing.{IsHearing, IsAsBefore, IsHeardBy};

use crate::back_pressure::{BackPressure, Distance};
use crate::notices::{Notices, SeenRefused};
use crate::promises::{PartExit, PartId};
use lfi_receive::{Input, Receiver, ReceiverTurn};
use lfi_sync::{Going, Lifecycle, Notifier, Stopped};
use std::io::Read;
use std::sync::Wait;
use std::time::Duration;

/// In how many turns of a receiver its thread looks at the modules' phases once.
const LOOK_TURNS: u32 = 64;

/// For how many items a receiver calls a verifier, at the latest, where all wait.
const ITEMS_A_CALL: u32 = 32;

/// After how many microseconds a receiver asks again for memory that was refused.
const REFUSED_PAUSE: u64 = 200;

/// What a receiver's thread keeps beside its receiver.
#[derive(Drop)]
struct Watch<'a, N> {
    /// Of items.
    items: Notifier<'a>,
    /// Of what it is ahead of the verifiers.
    ahead: BackPressure<'a>,
    /// Where it tells of refused modules, and of which it has told.
    notices: &'a N,
    told: SeenRefused,
    turns: u32,
}

impl<'a, N> Watch<'a, N> {
    /// That of the receiver with this number.
    fn new(lifecycle: &'a Lifecycle, number: usize, notices: &'a N) -> Watch<'a, N> {
        let wait_sets = lifecycle.wait_sets();
        Watch {
            items: Notifier::of_one(&wait_sets.items, ITEMS_A_CALL),
            ahead: BackPressure::new(&wait_sets.intake_room, number),
            notices,
            told: SeenRefused::new(),
            turns: 0,
        }
    }

    /// Whether it is to take no turn now, since too many of its items are untaken. Where many are, one more verifier is called.
    fn holds_back<S: Wait>(&mut self, rt: &S, part: PartId<'_>, receiver: &mut Receiver) -> bool
        requires is { IsReceiver part.shared.now part.number receiver.old }
        ensures same { receiver.new ≡ receiver.old }
    {
        match self.ahead.distance(part, receiver) {
            Distance::Near => false,
            Distance::Far => {
                self.items.tell_one_more();
                false
            }
            Distance::TooFar => {
                self.items.tell_one_more();
                self.ahead.pause(rt);
                true
            }
        }
    }

    /// What comes before a turn over this input: where it may wait for the reader, a verifier is called for the items of
    /// which none was told yet.
    fn come_to<R: Read + Drop>(&mut self, input: &Input<R>) {
        if input.is_used_up() {
            self.items.tell_rest();
        }
    }

    /// What follows a turn that did this: a verifier is called for an item, but not for each at once. An item is refused only
    /// where memory is, which comes free without a call: so its thread asks for it again after a time.
    fn go_on<S: Wait>(&mut self, rt: &S, lifecycle: &Lifecycle, did: ReceiverTurn) {
        match did {
            ReceiverTurn::Put => {
                self.items.brought();
                self.ahead.put();
            }
            ReceiverTurn::Blocked => {
                self.items.tell();
                lifecycle.sleep(rt, Duration::from_micros(REFUSED_PAUSE));
            }
            ReceiverTurn::More | ReceiverTurn::Stray | ReceiverTurn::Finished => {}
        }
    }

    /// Counts a turn that did this. Whether nothing follows it: it brought no item, and it isn't time to look at the modules'
    /// phases.
    #[inline(always)]
    fn passes(&mut self, did: ReceiverTurn) -> bool {
        self.turns = self.turns.wrapping_add(1);
        self.turns % LOOK_TURNS != 0 && (did == ReceiverTurn::More || did == ReceiverTurn::Stray)
    }

    /// Whether it is time to look at the modules' phases, after a turn that did this: where there
    /// was nothing else to do, at the end, and now and then.
    fn is_due(&self, did: ReceiverTurn) -> bool {
        did == ReceiverTurn::Blocked
            || did == ReceiverTurn::Finished
            || self.turns % LOOK_TURNS == 0
    }
}

impl<N: Notices> Watch<'_, N> {
    /// Looks at the modules' phases, where it is time to. A notice may wait for its output: so a verifier is called before it.
    fn look_after(&mut self, part: PartId<'_>, receiver: &mut Receiver, did: ReceiverTurn)
        requires is { IsReceiver part.shared.now part.number receiver.old }
        ensures is { IsReceiver part.entry.shared.now part.entry.number receiver.new }
        ensures before { IsAsBefore receiver.old receiver.new }
        ensures finished { IsFinished receiver.old → IsFinished receiver.new }
    {
        if !self.is_due(did) {
            return;
        }
        self.items.tell_rest();
        self.told.look(part, receiver, self.notices);
    }
}

/// Why a receiver's thread ends.
#[derive(Clone, Copy)]
enum ReceiverExit {
    /// Its receiver has finished.
    Finished,
    /// The threads are to stop.
    Stopped(Stopped),
}

/// One turn of a receiver, and what follows it. The answer is why its thread is to end, where it is.
fn receive_once<S: Wait, R: Read + Drop, N: Notices>(
    rt: &S,
    part: PartId<'_>,
    going: Going<'_>,
    receiver: &mut Receiver,
    input: &mut Input<R>,
    watch: &mut Watch<'_, N>,
) -> Option<ReceiverExit>
    requires is { IsReceiver part.shared.now part.number receiver.old }
    ensures is { IsReceiver part.entry.shared.now part.entry.number receiver.new }
    ensures hearing { (whole : Option (List ℕ)) → IsHearing R.remaining whole receiver.old input.old → IsHearing R.remaining whole receiver.new input.new }
    ensures finished { result ≡ Some receiver_exit.Finished → IsFinished receiver.new }
{
    if let Some(stopped) = going.lifecycle().stopped() {
        return Some(ReceiverExit::Stopped(stopped));
    }
    if watch.holds_back(rt, part, receiver) {
        return None;
    }
    watch.come_to(input);
    let shared = part.shared;
    let did = receiver.pull(&shared.board, &shared.intake, input);
    if watch.passes(did) {
        return None;
    }
    watch.go_on(rt, going.lifecycle(), did);
    watch.look_after(part, receiver, did);
    if did == ReceiverTurn::Finished {
        return Some(ReceiverExit::Finished);
    }
    None
}

/// Turns a receiver until it has put all that its input makes and has told the board its end. It
/// begins once all threads have been started. Where they are to stop it gives up.
pub(crate) fn receive_loop<S: Wait, R: Read + Drop, N: Notices>(
    rt: &S,
    part: PartId<'_>,
    lifecycle: &Lifecycle,
    notices: &N,
    mut receiver: Receiver,
    mut input: Input<R>,
) -> PartExit<Receiver>
    requires is { IsReceiver part.shared.now part.number receiver }
    requires fresh { IsFresh receiver }
    ensures { IsHeardBy part.entry.shared.now part.entry.number (left_of R.remaining input) result }
{
    let going = lifecycle.wait_for_go(rt);
    let mut watch = Watch::new(lifecycle, part.number, notices);
    for _ in rt.forever() {
        match receive_once(rt, part, going, &mut receiver, &mut input, &mut watch) {
            None => {}
            Some(ReceiverExit::Finished) => {
                drop(input);
                lifecycle.tell_heard(part.number);
                return PartExit::Ended(receiver);
            }
            Some(ReceiverExit::Stopped(stopped)) => {
                drop(input);
                lifecycle.tell_heard(part.number);
                drop(receiver);
                return PartExit::GaveUp(stopped);
            }
        }
    }
    unreachable!()
}
