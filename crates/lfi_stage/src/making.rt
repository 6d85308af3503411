//! The parts of a new stage, by their numbers.

ghost use Rattle.std.specs.Prelude.{◌≡◌, ℕ, ◌≤◌, length, Some, IfOk, slice_get};
ghost use Rattle.lfi_module.specs.Numbers.{module_count};
ghost use Rattle.lfi_board.specs.Known.{module_of};
ghost use Rattle.lfi_board.specs.declared.seats.SequencerSeat.{SequencerSeat};
ghost use Rattle.lfi_queues.specs.Passes.{new_passes};
ghost use Rattle.lfi_sequence.specs.declared.lanes.Lanes.{Lanes};
ghost use Rattle.lfi_sequence.specs.declared.sequencer.Sequencer.{Sequencer};
ghost use Rattle.lfi_sequence.specs.Turns.{member_of as pool_seat_of};
ghost use Rattle.lfi_receive.specs.declared.receiver.Receiver.{Receiver};
ghost use Rattle.lfi_receive.specs.Receivers.{member_of};
ghost use Rattle.lfi_sequence.specs.Lanes.{AreNewLanes};
ghost use Rattle.lfi_stage.specs.inner.Made.{AreUnused, AreUnusedSeats, AreRowsOf, AreFreshOf, AreVerifiersOf, AreSequencersOf};

use lfi_board::{ReceiverSeat, SequencerSeat, WatchSeat};
use lfi_model::{Item, Judged};
use lfi_module::{CONNECTIONS, ModuleNumber};
use lfi_queues::{Intake, Lane, LanePut, LaneTake, PutPass, TakePass};
use lfi_receive::Receiver;
use lfi_sequence::{Lanes, Sequencer, Verifier};
use page_buf::PoolMember;
use std::alloc::{AllocError, Global};

/// A receiver for each of these passes, with the seat at the pass's place and a seat at the pool.
pub(crate) fn make_receivers(
    alloc: Global,
    puts: Vec<PutPass<Item>>,
    mut seats: [Option<ReceiverSeat>; CONNECTIONS],
    pool: &PoolMember,
) -> Result<Vec<Receiver>, AllocError>
    requires few { length puts.items ≤ 8 }
    requires puts { AreUnused puts.items }
    requires seats { AreUnusedSeats (length puts.items) seats }
    ensures fresh { IfOk result (λ made. AreFreshOf puts.items seats made.items) }
    ensures pool { IfOk result (λ made. (c : ℕ) (r : Receiver) → slice_get made.items c ≡ Some r → (member_of r).pool ≡ pool.now.pool) }
{
    let mut receivers = Vec::with_capacity(alloc, puts.len())?;
    for pass in puts {
        let seat = seats[receivers.len()].take().unwrap();
        receivers.push(Receiver::new(alloc, pass, seat, pool.another()?))?;
    }
    Ok(receivers)
}

/// A verifier for each of these passes, with the row and the seat at the pass's place.
pub(crate) fn make_verifiers(
    alloc: Global,
    takes: Vec<TakePass<Item>>,
    rows: Vec<Vec<LanePut<Judged>>>,
    seats: Vec<WatchSeat>,
) -> Result<Vec<Verifier>, AllocError>
    requires rows { AreRowsOf (length takes.items) rows.items }
    requires seats { length seats.items ≡ length takes.items }
    ensures { IfOk result (λ made. AreVerifiersOf takes.items rows.items seats.items made.items) }
{
    let mut verifiers = Vec::with_capacity(alloc, takes.len())?;
    let mut rows = rows.into_iter();
    let mut seats = seats.into_iter();
    for pass in takes {
        let row = rows.next().unwrap();
        let seat = seats.next().unwrap();
        verifiers.push(Verifier::new(pass, row, seat))?;
    }
    Ok(verifiers)
}

/// A sequencer for each module, with the pass and the seat at its place and a seat at the pool.
pub(crate) fn make_sequencers(
    alloc: Global,
    takes: Vec<LaneTake<Judged>>,
    seats: Vec<SequencerSeat>,
    pool: &PoolMember,
) -> Result<Vec<Sequencer>, AllocError>
    requires count { length takes.items ≡ module_count }
    requires seats { length seats.items ≡ module_count }
    requires seated { (m : ℕ) (s : SequencerSeat) → slice_get seats.items m ≡ Some s → module_of s ≡ m }
    requires takes { AreUnused takes.items }
    ensures are { IfOk result (λ made. AreSequencersOf takes.items seats.items made.items) }
    ensures pool { IfOk result (λ made. (m : ℕ) (s : Sequencer) → slice_get made.items m ≡ Some s → (pool_seat_of s).pool ≡ pool.now.pool) }
{
    let mut sequencers = Vec::with_capacity(alloc, ModuleNumber::COUNT)?;
    let mut seats = seats.into_iter();
    for pass in takes {
        let seat = seats.next().unwrap();
        sequencers.push(Sequencer::new(alloc, pass, seat, pool.another()?)?)?;
    }
    Ok(sequencers)
}

/// An intake, the passes that take from it, and a receiver for each of those that put to it.
pub(crate) fn make_hearing(
    alloc: Global,
    count: usize,
    takers: usize,
    seats: [Option<ReceiverSeat>; CONNECTIONS],
    pool: &PoolMember,
) -> Result<(Intake<Item>, Vec<TakePass<Item>>, Vec<Receiver>), AllocError>
    requires few { count ≤ 8 }
    requires seats { AreUnusedSeats count seats }
    ensures counts { IfOk result (λ r. (r.0.putters ≡ count) × (r.0.takers ≡ takers)) }
    ensures takes { IfOk result (λ r. r.1.items ≡ new_passes r.0 takers) }
    ensures receivers { IfOk result (λ r. AreFreshOf (new_passes r.0 count) seats r.2.items) }
    ensures pool { IfOk result (λ r. (c : ℕ) (receiver : Receiver) → slice_get r.2.items c ≡ Some receiver → (member_of receiver).pool ≡ pool.now.pool) }
{
    let (intake, puts, takes) = Intake::new(alloc, count, takers)?;
    let receivers = make_receivers(alloc, puts, seats, pool)?;
    Ok((intake, takes, receivers))
}

/// Lanes, with a verifier for each of these passes and seats, and a sequencer for each module.
pub(crate) fn make_placing(
    alloc: Global,
    takes: Vec<TakePass<Item>>,
    watchers: Vec<WatchSeat>,
    seats: Vec<SequencerSeat>,
    pool: &PoolMember,
) -> Result<(Vec<Lane<Judged>>, Vec<Verifier>, Vec<Sequencer>), AllocError>
    requires watchers { length watchers.items ≡ length takes.items }
    requires seats { length seats.items ≡ module_count }
    requires seated { (m : ℕ) (s : SequencerSeat) → slice_get seats.items m ≡ Some s → module_of s ≡ m }
    ensures made { IfOk result (λ r. (made : Lanes) × (made.lanes ≡ r.0) × AreNewLanes (length takes.items) made × AreVerifiersOf takes.items made.puts.items watchers.items r.1.items × AreSequencersOf made.takes.items seats.items r.2.items) }
    ensures pool { IfOk result (λ r. (m : ℕ) (s : Sequencer) → slice_get r.2.items m ≡ Some s → (pool_seat_of s).pool ≡ pool.now.pool) }
{
    let made = Lanes::new(alloc, takes.len())?;
    let verifiers = make_verifiers(alloc, takes, made.puts, watchers)?;
    let sequencers = make_sequencers(alloc, made.takes, seats, pool)?;
    Ok((made.lanes, verifiers, sequencers))
}
