//! The receiver, which turns the bytes of one connection into items.

ghost use Rattle.std.specs.Prelude.{◌≡◌, ◌≢◌, ℕ, ◌+◌, ◌-◌, ◌*◌, ◌<◌, ◌≤◌, ◌==◌, ◌%◌, ◌^◌, ◌⊎◌, min, ◌↔◌, List, [], ◌∷◌, ◌++◌, length, take, drop, true, false, Some, None, is_some, IsSome, IsTrue, if◌then◌else◌, flat_map, ◌||◌, ◌&&◌};
ghost use Rattle.lfi_board.specs.Known.{board_id, board_of, known_by};
ghost use Rattle.lfi_board.specs.Calls.{Saw, number_of};
ghost use Rattle.lfi_frame.specs.Feeds.{IsTold, feed_fault, header_held};
ghost use Rattle.lfi_frame.specs.Streams.{Message, spelling};
ghost use Rattle.lfi_frame.specs.declared.answer.Got.TheVariants.{More};
ghost use Rattle.lfi_model.specs.declared.item.ItemKind.TheVariants.{Open, End};
ghost use Rattle.lfi_model.specs.declared.connection.Progress.{Progress};
ghost use Rattle.lfi_model.specs.declared.connection.Progress.TheVariants.{Going};
ghost use Rattle.lfi_model.specs.Items.{item_of};
ghost use Rattle.lfi_module.specs.Pages.{page_count};
ghost use Rattle.lfi_connection.specs.Modules.{IsPossible};
ghost use Rattle.lfi_connection.specs.Events.{Follows, Continues};

use crate::ahead::PageMemory;
use crate::coming::ComingPage;
use crate::modules::Modules;
use crate::seat::OwnSeat;
use crate::start::MessageStart;
use lfi_board::{Board, Phase, ReceiverSeat};
use lfi_connection::{DuePage, Event, advance, fault_at_end, lose_next};
use lfi_frame::{Feed, FrameFault, Got, HEADER_BYTES, Step};
use lfi_model::{EndCause, Item, ItemKind, Reason};
use lfi_module::{Extent, ModuleNumber};
use lfi_queues::{Intake, PutPass};
use page_buf::PoolMember;
use std::alloc::Global;

/// What a turn did.
#[derive(Clone, Copy, PartialEq, Eq)]
pub enum ReceiverTurn {
    /// It used bytes, and no item came of them; or it was given none.
    More,
    /// It put an item.
    Put,
    /// It used a header that is a stray.
    Stray,
    /// The intake refused the item, which stays in hand.
    Blocked,
    /// The input has ended, and all its items are put.
    Finished,
}

/// What came of the bytes that a turn went through.
#[derive(Clone, Copy)]
enum Parsed {
    /// An item, which is in the hand.
    Item,
    /// A stray.
    Stray,
    /// No item yet.
    More,
}

/// The receiver of one connection.
#[derive(Drop)]
pub struct Receiver {
    memory: PageMemory,
    feed: Feed,
    pass: PutPass<Item>,
    seat: OwnSeat,
    modules: Modules,
    /// The page whose payload is coming, where it is one that is due.
    page: Option<ComingPage>,
    /// The item that is to be put next.
    hand: Option<Item>,
    cause: Option<EndCause>,
    fault: Option<FrameFault>,
    strays: u64,
    /// How many bytes have come, modulo 2^64.
    came: u64,
    /// Where the message begins at which the input ended, once it has.
    start: MessageStart,
}

impl Receiver {
    ghost use Rattle.lfi_receive.specs.declared.receiver.ReceiverTurn.TheVariants as turn;
    ghost use Rattle.lfi_receive.specs.Turns.{PutsAsTold, CountsAsTold, is_finished};
    ghost use Rattle.lfi_receive.specs.inner.Holding.{made_by, knows, CountsTo, Holds, Brought};
    ghost use Rattle.lfi_receive.specs.inner.Steps.{bytes_before, is_stray, Begins, Keeps};
    ghost use Rattle.lfi_receive.specs.declared.receiver.Parsed.TheVariants as parsed;
    ghost use Rattle.lfi_receive.specs.inner.Pages.{coming_of, Fits};
    ghost use Rattle.lfi_model.specs.declared.connection.EndCause.TheVariants as cause_kind;
    ghost use Rattle.lfi_receive.specs.Receivers.{pass_of, seat_of, member_of, start_of, claimed_by, cause_of, hand_of, fault_of, strays_at, cause_told, cause_with, StandsFor, IsOver, IsFinished, due_of, EndsLeast, AfterEnd};

    /// A receiver of which no byte has come, with its pass of the intake and its seat at the board,
    /// neither of which was used, and the pool that it asks for pages first.
    pub fn new(alloc: Global, pass: PutPass<Item>, seat: ReceiverSeat, pool: PoolMember) -> Receiver
        requires pass { pass.items ≡ [] }
        requires unclaimed { (known_by seat).claimed ≡ [] }
        requires running { (known_by seat).ended ≡ false }
        ensures stands { StandsFor result [] }
        ensures pass { pass_of result ≡ pass }
        ensures seat { seat_of result ≡ seat }
        ensures empty_handed { hand_of result ≡ None }
        ensures running { cause_of result ≡ None }
        ensures faultless { fault_of result ≡ None }
        ensures strays { strays_at result ≡ 0 }
        ensures pool { (member_of result).pool ≡ pool.pool }
    {
        Receiver {
            memory: PageMemory::new(alloc, pool),
            feed: Feed::new(),
            pass,
            seat: OwnSeat { seat, told: false },
            modules: Modules::new(),
            page: None,
            hand: None,
            cause: None,
            fault: None,
            strays: 0,
            came: 0,
            start: MessageStart::FIRST,
        }
    }

    /// `used` bytes more have come.
    #[inline(always)]
    fn count(&mut self, used: usize)
        ensures { self.new ≡ record self.old { came = (self.old.came + used) % 2 ^ 64 } }
    {
        self.came = self.came.wrapping_add(used as u64);
    }

    /// `used` bytes more have come, and with them a header with this fault: the input is over.
    fn stop(&mut self, used: usize, fault: FrameFault)
        ensures over { self.new ≡ record self.old { came = (self.old.came + used) % 2 ^ 64; cause = Some cause_kind.End; fault = Some «fault»; start = self.new.start } }
        ensures byte { self.new.start.byte ≡ bytes_before 12 ((self.old.came + used) % 2 ^ 64) }
        ensures header { self.new.start.header ≡ header_held self.old.feed }
        ensures long { length self.new.start.header ≡ 12 }
    {
        self.count(used);
        self.start = MessageStart {
            byte: self.came.wrapping_sub(HEADER_BYTES as u64),
            header: self.feed.header(),
        };
        self.fault = Some(fault);
        self.cause = Some(EndCause::End);
    }

    /// Puts what is in hand, or keeps it there where the intake refuses it.
    fn put_hand(&mut self, intake: &Intake<Item>) -> ReceiverTurn
        requires held { IsSome self.old.hand }
        requires part { self.old.pass.queue ≡ intake.now }
        ensures puts { PutsAsTold result self.old.pass self.new.pass }
        ensures once { (result ≡ turn.Put) ⊎ (result ≡ turn.Blocked) }
        ensures made { made_by self.new ≡ made_by self.old }
        ensures hand { IsSome self.new.hand ↔ (result ≡ turn.Blocked) }
        ensures due { result ≡ turn.Put → due_of self.new + 1 ≡ due_of self.old }
        ensures rest { self.new ≡ record self.old { pass = self.new.pass; hand = self.new.hand } }
    {
        let Some(item) = self.hand.take() else {
            return ReceiverTurn::More;
        };
        match intake.put(&mut self.pass, item) {
            Ok(()) => ReceiverTurn::Put,
            Err(item) => {
                self.hand = Some(item);
                ReceiverTurn::Blocked
            }
        }
    }

    /// Counts a stray.
    #[inline(always)]
    fn stray(&mut self)
        ensures { self.new ≡ record self.old { strays = min (self.old.strays + 1) (2 ^ 64 - 1) } }
    {
        self.strays = self.strays.saturating_add(1);
    }

    /// The End of an open module, of which `pages` pages came, comes into the hand.
    #[inline(always)]
    fn end_module(&mut self, module: ModuleNumber, extent: Extent, pages: u32, reason: Reason)
        requires free { self.old.hand ≡ None }
        requires possible { IsPossible (Going extent pages) }
        ensures { self.new ≡ record self.old { hand = Some (item_of «module» (pages + 1) extent (End reason)) } }
    {
        self.hand = Some(Item {
            module,
            ordinal: pages + 1,
            extent,
            kind: ItemKind::End(reason),
        });
    }

    /// The Open of a module comes into the hand.
    #[inline(always)]
    fn open_module(&mut self, module: ModuleNumber, extent: Extent)
        requires free { self.old.hand ≡ None }
        ensures { self.new ≡ record self.old { hand = Some (item_of «module» 0 extent Open) } }
    {
        self.hand = Some(Item {
            module,
            ordinal: 0,
            extent,
            kind: ItemKind::Open,
        });
    }

    /// The page that is due begins: it has memory now, or where there is none the input is over.
    fn begin(&mut self, due: DuePage)
        requires due { (due.pages < page_count due.extent.pages due.extent.words) × (due.come ≡ 0) }
        requires running { self.old.cause ≡ None }
        ensures page { Begins due self.old self.new }
        ensures hand { self.new.hand ≡ self.old.hand }
    {
        match self.memory.page(due.extent.pages()) {
            Ok(page) => self.page = Some(ComingPage::of(due, page)),
            Err(_) => {
                self.feed.stop(FrameFault::NoMemory);
                self.start.byte = self.came.wrapping_sub(HEADER_BYTES as u64);
                self.fault = Some(FrameFault::NoMemory);
                self.cause = Some(EndCause::Starved);
            }
        }
    }

    /// Payload bytes of the page that is coming: they are kept, and where they end it it comes into the hand.
    fn payload(&mut self, ended: bool, bytes: &[u8]) -> Parsed
        requires free { self.old.hand ≡ None }
        requires fits { Fits self.old.page (length bytes.now) «ended» }
        ensures keeps { Keeps «ended» bytes.now self.old self.new }
        ensures hand { IsSome self.new.hand ↔ (result ≡ parsed.Item) }
        ensures stray { is_stray result ≡ false }
        ensures strays { self.new.strays ≡ self.old.strays }
    {
        let Some(page) = self.page.take() else {
            unreachable!();
        };
        if ended {
            self.hand = Some(page.end(bytes));
            Parsed::Item
        } else {
            self.page = Some(page.add(bytes));
            Parsed::More
        }
    }

    /// The page whose payload is coming.
    #[inline(always)]
    fn coming(&self) -> Option<DuePage>
        ensures { result ≡ coming_of self.now.page }
    {
        match &self.page {
            Some(page) => Some(page.due()),
            None => None,
        }
    }

    /// What an event brings comes into the hand, or into the page that is coming.
    #[inline(always)]
    fn tell(&mut self, event: Event, bytes: &[u8]) -> Parsed
        requires free { self.old.hand ≡ None }
        requires running { self.old.cause ≡ None }
        requires follows { (was : ℕ → Progress) × Follows event was }
        requires continues { Continues event (coming_of self.old.page) (length bytes.now) }
        ensures stands { (messages : List Message) (rest : List ℕ) → Brought self.old event messages rest bytes.now → StandsFor self.new (flat_map spelling messages ++ (rest ++ bytes.now)) }
        ensures over { (messages : List Message) (rest : List ℕ) → Brought self.old event messages rest bytes.now → IsOver (claimed_by self.new) self.new.cause (flat_map spelling messages ++ (rest ++ bytes.now)) }
        ensures pass { self.new.pass ≡ self.old.pass }
        ensures hand { IsSome self.new.hand ↔ (result ≡ parsed.Item) }
        ensures seat { self.new.seat ≡ self.old.seat }
        ensures strays { self.new.strays ≡ (if is_stray result then min (self.old.strays + 1) (2 ^ 64 - 1) else self.old.strays) }
    {
        match event {
            Event::Nothing => Parsed::More,
            Event::Open { module, extent } => {
                self.open_module(module, extent);
                Parsed::Item
            }
            Event::Begin(due) => {
                self.begin(due);
                Parsed::More
            }
            Event::Code { ended, .. } => self.payload(ended, bytes),
            Event::Stray { .. } => {
                self.stray();
                Parsed::Stray
            }
            Event::End {
                module,
                extent,
                pages,
                reason: why,
            } => {
                self.end_module(module, extent, pages, why);
                Parsed::Item
            }
        }
    }

    /// What these bytes brought, which the feed has told. At an Open the board is asked.
    #[inline(always)]
    fn take(&mut self, board: &Board, got: Got, bytes: &[u8]) -> Parsed
        requires free { self.old.hand ≡ None }
        requires running { self.old.cause ≡ None }
        requires board { board_of self.old.seat.seat ≡ board_id board.now }
        ensures stands { (messages : List Message) (rest : List ℕ) → (got ≢ More → bytes.now ≢ []) → CountsTo self.old.came self.old.feed messages (rest ++ bytes.now) → Holds self.old messages rest → IsTold got self.old.feed messages rest bytes.now → feed_fault self.old.feed ≡ None →
            StandsFor self.new (flat_map spelling messages ++ (rest ++ bytes.now)) }
        ensures over { (messages : List Message) (rest : List ℕ) → (got ≢ More → bytes.now ≢ []) → CountsTo self.old.came self.old.feed messages (rest ++ bytes.now) → Holds self.old messages rest → IsTold got self.old.feed messages rest bytes.now → feed_fault self.old.feed ≡ None →
            IsOver (claimed_by self.new) self.new.cause (flat_map spelling messages ++ (rest ++ bytes.now)) }
        ensures pass { self.new.pass ≡ self.old.pass }
        ensures hand { IsSome self.new.hand ↔ (result ≡ parsed.Item) }
        ensures board { board_of self.new.seat.seat ≡ board_of self.old.seat.seat }
        ensures ended { (knows self.new).ended ≡ (knows self.old).ended }
        ensures strays { self.new.strays ≡ (if is_stray result then min (self.old.strays + 1) (2 ^ 64 - 1) else self.old.strays) }
    {
        let is_free = self.seat.is_free(board, &got);
        let coming = self.coming();
        let event = advance(&mut self.modules, &coming, got, bytes.len(), is_free);
        self.tell(event, bytes)
    }

    /// Goes on in the bytes, up to the end of a header or a payload: how many it used, and what came of
    /// them.
    #[inline(always)]
    fn read(&mut self, board: &Board, piece: &[u8]) -> (usize, Parsed)
        requires free { self.old.hand ≡ None }
        requires running { self.old.cause ≡ None }
        requires board { board_of self.old.seat.seat ≡ board_id board.now }
        ensures used { result.0 ≤ length piece.now }
        ensures stands { (bytes : List ℕ) → StandsFor self.old bytes → StandsFor self.new (bytes ++ take result.0 piece.now) }
        ensures over { (bytes : List ℕ) → StandsFor self.old bytes → IsOver (claimed_by self.new) self.new.cause (bytes ++ take result.0 piece.now) }
        ensures moves { (bytes : List ℕ) → StandsFor self.old bytes → piece.now ≢ [] → 0 < result.0 }
        ensures pass { self.new.pass ≡ self.old.pass }
        ensures hand { IsSome self.new.hand ↔ (result.1 ≡ parsed.Item) }
        ensures board { board_of self.new.seat.seat ≡ board_of self.old.seat.seat }
        ensures ended { (knows self.new).ended ≡ (knows self.old).ended }
        ensures strays { self.new.strays ≡ (if is_stray result.1 then min (self.old.strays + 1) (2 ^ 64 - 1) else self.old.strays) }
    {
        match self.feed.feed(piece) {
            Ok(Step { used, got }) => {
                self.count(used);
                (used, self.take(board, got, &piece[..used]))
            }
            Err((used, fault)) => {
                self.stop(used, fault);
                (used, Parsed::More)
            }
        }
    }

    /// The End that is due next comes into the hand, if there is one.
    fn end_next(&mut self) -> bool
        requires free { self.old.hand ≡ None }
        requires ended { IsSome self.old.cause }
        ensures stands { (bytes : List ℕ) → StandsFor self.old bytes → StandsFor self.new bytes }
        ensures pass { self.new.pass ≡ self.old.pass }
        ensures some { IsTrue result ↔ IsSome self.new.hand }
        ensures due { due_of self.new ≡ due_of self.old }
        ensures seat { self.new.seat ≡ self.old.seat }
        ensures cause { self.new.cause ≡ self.old.cause }
        ensures strays { self.new.strays ≡ self.old.strays }
        ensures least { IsTrue result → EndsLeast self.old self.new }
        ensures none { result ≡ false → (self.new ≡ self.old) × IsFinished self.old }
    {
        let Some(fault) = self.fault else {
            return false;
        };
        let Event::End {
            module,
            extent,
            pages,
            reason,
        } = lose_next(&mut self.modules, fault)
        else {
            return false;
        };
        self.end_module(module, extent, pages, reason);
        true
    }

    /// Puts the End that is due next; where none is, the receiver is finished, and tells it.
    fn turn_ended(&mut self, board: &Board, intake: &Intake<Item>) -> ReceiverTurn
        requires free { self.old.hand ≡ None }
        requires ended { IsSome self.old.cause }
        requires part { self.old.pass.queue ≡ intake.now }
        requires board { board_of self.old.seat.seat ≡ board_id board.now }
        ensures stands { (bytes : List ℕ) → StandsFor self.old bytes → StandsFor self.new bytes }
        ensures puts { PutsAsTold result self.old.pass self.new.pass }
        ensures counts { self.new.strays ≡ self.old.strays }
        ensures hand { IsSome self.new.hand ↔ (result ≡ turn.Blocked) }
        ensures finished { result ≡ turn.Finished → IsFinished self.new }
        ensures after { AfterEnd self.old self.new 0 result }
        ensures board { board_of self.new.seat.seat ≡ board_of self.old.seat.seat }
        ensures told { (knows self.new).ended ≡ (if is_finished result then true else (knows self.old).ended) }
    {
        if self.end_next() {
            return self.put_hand(intake);
        }
        self.seat.tell_end(board);
        ReceiverTurn::Finished
    }

    /// One turn: it puts the item in hand, or an End that is due; or it goes on in the bytes of
    /// the piece, up to the end of a header or a payload, and puts the item that came of them. At
    /// an Open it claims the module on the board; once it is finished it tells the board, once.
    /// It answers how many bytes it used, and what it did. Give it what it didn't use again.
    pub fn turn(
        &mut self,
        board: &Board,
        intake: &Intake<Item>,
        piece: &[u8],
    ) -> (usize, ReceiverTurn)
        requires part { (pass_of self.old).queue ≡ intake.now }
        requires board { board_of (seat_of self.old) ≡ board_id board.now }
        ensures used { result.0 ≤ length piece.now }
        ensures stands { (bytes : List ℕ) → StandsFor self.old bytes → StandsFor self.new (bytes ++ take result.0 piece.now) }
        ensures over { (bytes : List ℕ) → StandsFor self.old bytes → cause_of self.old ≡ None → IsOver (claimed_by self.new) (cause_of self.new) (bytes ++ take result.0 piece.now) }
        ensures moves { (bytes : List ℕ) → StandsFor self.old bytes → hand_of self.old ≡ None → cause_of self.old ≡ None → piece.now ≢ [] → 0 < result.0 }
        ensures held { IsSome (hand_of self.old) → result.0 ≡ 0 }
        ensures puts { PutsAsTold result.1 (pass_of self.old) (pass_of self.new) }
        ensures strays { CountsAsTold result.1 (strays_at self.old) (strays_at self.new) }
        ensures hand { IsSome (hand_of self.new) ↔ (result.1 ≡ turn.Blocked) }
        ensures finished { result.1 ≡ turn.Finished → IsFinished self.new }
        ensures ended { IsSome (cause_of self.old) → AfterEnd self.old self.new result.0 result.1 }
        ensures told { (known_by (seat_of self.new)).ended ≡ (if is_finished result.1 then true else (known_by (seat_of self.old)).ended) }
        ensures board { board_of (seat_of self.new) ≡ board_of (seat_of self.old) }
    {
        if self.hand.is_some() {
            return (0, self.put_hand(intake));
        }
        if self.cause.is_some() {
            return (0, self.turn_ended(board, intake));
        }
        let (used, parsed) = self.read(board, piece);
        match parsed {
            Parsed::Item => (used, self.put_hand(intake)),
            Parsed::Stray => (used, ReceiverTurn::Stray),
            Parsed::More => (used, ReceiverTurn::More),
        }
    }

    /// The phase of a module, as its seat sees it now.
    pub fn look(&mut self, board: &Board, module: ModuleNumber) -> Phase
        requires board { board_of (seat_of self.old) ≡ board_id board.now }
        ensures board { board_of (seat_of self.new) ≡ board_of (seat_of self.old) }
        ensures saw { Saw (known_by (seat_of self.old)) (known_by (seat_of self.new)) «module» (number_of result) }
        ensures stands { (bytes : List ℕ) → StandsFor self.old bytes → StandsFor self.new bytes }
        ensures pass { pass_of self.new ≡ pass_of self.old }
        ensures hand { hand_of self.new ≡ hand_of self.old }
        ensures cause { cause_of self.new ≡ cause_of self.old }
        ensures fault { fault_of self.new ≡ fault_of self.old }
        ensures strays { strays_at self.new ≡ strays_at self.old }
        ensures due { due_of self.new ≡ due_of self.old }
        ensures finished { IsFinished self.old → IsFinished self.new }
    {
        board.look(&mut self.seat.seat, module)
    }

    /// Tells the end of the input, or that a read of it failed. A second call, or one after a fault, changes
    /// nothing. Whoever calls `pull` needn't call it: `pull` reads, and tells both.
    pub fn end(&mut self, failed: bool)
        ensures stands { (bytes : List ℕ) → StandsFor self.old bytes → StandsFor self.new bytes }
        ensures ended { cause_of self.new ≡ Some (cause_with (cause_of self.old) (cause_told «failed»)) }
        ensures again { IsSome (cause_of self.old) → self.new ≡ self.old }
        ensures pass { pass_of self.new ≡ pass_of self.old }
        ensures hand { hand_of self.new ≡ hand_of self.old }
        ensures seat { seat_of self.new ≡ seat_of self.old }
        ensures strays { strays_at self.new ≡ strays_at self.old }
    {
        if self.cause.is_some() {
            return;
        }
        if failed {
            self.end_by(EndCause::Failed);
        } else {
            self.end_by(EndCause::End);
        }
    }

    /// The input is over, for this cause.
    pub(crate) fn end_by(&mut self, cause: EndCause)
        requires running { cause_of self.old ≡ None }
        ensures stands { (bytes : List ℕ) → StandsFor self.old bytes → StandsFor self.new bytes }
        ensures ended { cause_of self.new ≡ Some cause }
        ensures pass { pass_of self.new ≡ pass_of self.old }
        ensures hand { hand_of self.new ≡ hand_of self.old }
        ensures seat { seat_of self.new ≡ seat_of self.old }
        ensures strays { strays_at self.new ≡ strays_at self.old }
    {
        self.start.byte = self.came.wrapping_sub(self.feed.begun() as u64);
        self.fault = fault_at_end(&self.modules, &mut self.feed, cause);
        self.cause = Some(cause);
    }

    /// Whether its next turn uses no bytes: an item is in its hand, or its input is over.
    pub(crate) fn needs_no_bytes(&self) -> bool
        ensures { result ≡ (is_some (hand_of self.now) || is_some (cause_of self.now)) }
    {
        self.hand.is_some() || self.cause.is_some()
    }

    /// How many of the items that it has put nobody has taken from the intake yet, at one moment of the call.
    pub fn untaken(&mut self, intake: &Intake<Item>) -> usize
        requires part { (pass_of self.old).queue ≡ intake.now }
        ensures same { self.new ≡ self.old }
        ensures few { result ≤ length (pass_of self.old).items }
    {
        intake.untaken(&mut self.pass)
    }

    /// The connection's fault, once it has come to one.
    pub fn fault(&self) -> Option<FrameFault>
        ensures { result ≡ fault_of self.now }
    {
        self.fault
    }

    /// How many strays have come; it stays at the greatest number.
    pub fn strays(&self) -> u64
        ensures { result ≡ strays_at self.now }
    {
        self.strays
    }

    /// Where the message begins at which its input ended, once it has: the first that isn't whole.
    pub fn start(&self) -> MessageStart
        ensures { result ≡ start_of self.now }
    {
        self.start
    }

    /// Its pass and its seat, for whoever settles what all receivers have put.
    pub fn into_parts(self) -> (PutPass<Item>, ReceiverSeat)
        ensures pass { result.0 ≡ pass_of self }
        ensures seat { result.1 ≡ seat_of self }
    {
        (self.pass, self.seat.seat)
    }
}
