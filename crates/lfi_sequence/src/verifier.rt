//! A verifier: it takes items from the intake, judges them, and hands them on to the lanes of their
//! modules.

ghost use Rattle.std.specs.Prelude.{◌≡◌, ◌<◌, ◌≤◌, ◌+◌, List, length, Option, Some, None};
ghost use Rattle.lfi_module.specs.Numbers.{module_count};
ghost use Rattle.lfi_model.specs.Item.{ItemView};
ghost use Rattle.lfi_board.specs.Knowledge.{ended_word};
ghost use Rattle.lfi_board.specs.Calls.{Saw};
ghost use Rattle.lfi_board.specs.Known.{board_id, watcher_board, known_by_watcher};
ghost use Rattle.lfi_queues.specs.Passes.{IsSamePass};
ghost use Rattle.lfi_sequence.specs.declared.verifier.VerifierTurn.TheVariants as turn;

use lfi_board::{Board, WatchSeat};
use lfi_model::{Item, Judged};
use lfi_module::ModuleNumber;
use lfi_queues::{Intake, Lane, LanePut, TakePass, Taken};
use std::sync::Wait;

/// What a verifier tells of before and after it judges an item. Judging takes the item, and nothing
/// else makes a judged one: so `before` can't come later, nor `after` earlier.
pub trait Gate {
    /// This item is about to be judged.
    fn before(&self, item: &Item);

    /// It was judged.
    fn after(&self, item: &Judged);
}

/// A gate that does nothing.
#[derive(Clone, Copy)]
pub struct OpenGate;

impl Gate for OpenGate {
    fn before(&self, _item: &Item) {}

    fn after(&self, _item: &Judged) {}
}

/// What a turn did.
#[derive(Clone, Copy, PartialEq, Eq)]
pub enum VerifierTurn {
    /// It put an item in its module's lane.
    Worked,
    /// The intake was empty.
    Idle,
    /// The intake asks for another turn.
    Again,
    /// The lane was full, and the item stays in hand.
    Blocked,
}

/// A verifier: its pass of the intake, its passes of the lanes by their modules, the item in its
/// hand, and its seat at the board.
#[derive(Drop)]
pub struct Verifier {
    pub(crate) pass: TakePass<Item>,
    pub(crate) lanes: Vec<LanePut<Judged>>,
    pub(crate) hand: Option<Judged>,
    pub(crate) seat: WatchSeat,
    /// The module of the item that it put last, or holds.
    pub(crate) last: Option<ModuleNumber>,
    ghost all: { length lanes.items ≡ module_count },
}

/// Judges an item, between the gate's two calls.
fn judged<G: Gate>(gate: &G, item: Item) -> Judged
    ensures { result ≡ item }
{
    gate.before(&item);
    let judged = item.judge();
    gate.after(&judged);
    judged
}

impl Verifier {
    ghost use Rattle.lfi_sequence.specs.Handed.{take_pass_of, lane_puts_of, hand_of, seat_of, last_of, HandsOn, WithLast, SameLanes, AreLanes, ByHand, AsTold, PutsLast};

    /// A verifier with its pass of the intake, its passes of the lanes, one a module, and its seat at
    /// the board. Nothing is in its hand.
    pub fn new(pass: TakePass<Item>, lanes: Vec<LanePut<Judged>>, seat: WatchSeat) -> Verifier
        requires { length lanes.items ≡ module_count }
        ensures pass { take_pass_of result ≡ pass }
        ensures lanes { lane_puts_of result ≡ lanes.items }
        ensures empty_handed { hand_of result ≡ None }
        ensures seat { seat_of result ≡ seat }
    {
        Verifier {
            pass,
            lanes,
            hand: None,
            seat,
            last: None,
        }
    }

    /// Puts an item in the lane of its module, or holds it.
    fn put<R: Wait>(&mut self, rt: &R, lanes: &[Lane<Judged>], item: Judged) -> VerifierTurn
        requires lanes { AreLanes lanes.now (lane_puts_of self.old) }
        requires empty { self.old.hand ≡ None }
        ensures tie { (took : List ItemView) → WithLast took self.old item → HandsOn took self.new }
        ensures did { ByHand result item (hand_of self.new) (lane_puts_of self.old) (lane_puts_of self.new) }
        ensures pass { self.new.pass ≡ self.old.pass }
        ensures seat { seat_of self.new ≡ seat_of self.old }
        ensures same { SameLanes (lane_puts_of self.old) (lane_puts_of self.new) }
        ensures last { last_of self.new ≡ Some item.«module» }
    {
        let module = item.module.index();
        self.last = Some(item.module);
        match lanes[module].put(rt, &mut self.lanes[module], item) {
            Ok(()) => VerifierTurn::Worked,
            Err(back) => {
                self.hand = Some(back);
                VerifierTurn::Blocked
            }
        }
    }

    /// One turn: puts the item in hand, or takes one from the intake, judges it where it is a page,
    /// and puts it in its module's lane. It takes no memory.
    pub fn turn<R: Wait, G: Gate>(
        &mut self,
        rt: &R,
        intake: &Intake<Item>,
        lanes: &[Lane<Judged>],
        gate: &G,
    ) -> VerifierTurn
        requires intake { (take_pass_of self.old).queue ≡ intake.now }
        requires lanes { AreLanes lanes.now (lane_puts_of self.old) }
        ensures tie { HandsOn (take_pass_of self.old).items self.old → HandsOn (take_pass_of self.new).items self.new }
        ensures did { AsTold result self.old self.new }
        ensures same { SameLanes (lane_puts_of self.old) (lane_puts_of self.new) }
        ensures pass { IsSamePass (take_pass_of self.old) (take_pass_of self.new) }
        ensures seat { seat_of self.new ≡ seat_of self.old }
        ensures last { PutsLast result self.old self.new }
    {
        match self.hand.take() {
            Some(held) => self.put(rt, lanes, held),
            None => match intake.take(&mut self.pass) {
                Taken::Item(item) => self.put(rt, lanes, judged(gate, item)),
                Taken::Empty => VerifierTurn::Idle,
                Taken::Again => VerifierTurn::Again,
            },
        }
    }

    /// How many receivers have ended, 0 to 8, as its seat sees it on the board.
    pub fn ended(&mut self, board: &Board) -> u64
        requires board { watcher_board (seat_of self.old) ≡ board_id board.now }
        ensures board { watcher_board (seat_of self.new) ≡ watcher_board (seat_of self.old) }
        ensures saw { Saw (known_by_watcher (seat_of self.old)) (known_by_watcher (seat_of self.new)) ended_word result }
        ensures most { result ≤ (known_by_watcher (seat_of self.old)).receivers }
        ensures pass { take_pass_of self.new ≡ take_pass_of self.old }
        ensures lanes { lane_puts_of self.new ≡ lane_puts_of self.old }
        ensures hand { hand_of self.new ≡ hand_of self.old }
    {
        board.ended(&mut self.seat)
    }

    /// The module of the item that it put last, or holds: after a turn that put an item, the module in whose lane it is.
    pub fn last(&self) -> Option<ModuleNumber>
        ensures { result ≡ last_of self.now }
    {
        self.last
    }

    /// Its pass of the intake, its passes of the lanes, and the item in its hand.
    pub fn into_parts(self) -> (TakePass<Item>, Vec<LanePut<Judged>>, Option<Judged>)
        ensures pass { result.0 ≡ take_pass_of self }
        ensures lanes { result.1.items ≡ lane_puts_of self }
        ensures hand { result.2 ≡ hand_of self }
    {
        let Verifier {
            pass,
            lanes,
            hand,
            seat: _,
            last: _,
        } = self;
        (pass, lanes, hand)
    }
}
