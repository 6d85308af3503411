//! A feed, which is given a stream in pieces and tells its messages.
//!
//! Source of the format: docs/PROFILE.md, "Streams".

ghost use Rattle.std.specs.Prelude.{◌≡◌, ◌≢◌, ℕ, ◌+◌, ◌-◌, ◌<◌, ◌≤◌, ◌⊎◌, List, [], ◌++◌, take, drop, length, min, Result, Ok, Err, Option, Some, None, IfSome, IfNone, IfOk, All, is_some};
ghost use Rattle.lfi_frame.specs.inner.Positions.{filled_at, left_at, is_between};

use crate::answer::{Got, Step};
use crate::fault::FrameFault;
use crate::header::{HEADER_BYTES, Header};

/// Where in its stream a feed is.
#[derive(Clone, Copy, PartialEq, Eq)]
pub enum Position {
    /// `filled` bytes of a header have come, 0 to 11. With 0 it is between two messages.
    Header { filled: usize },
    /// `left` bytes of a payload are still to come, at least 1.
    Payload { left: u32 },
    /// The stream has this fault.
    Faulty(FrameFault),
}

/// A reader of a stream that comes in pieces, cut anywhere. Of the stream it holds the bytes of one
/// header alone; it takes no memory.
#[derive(Drop)]
pub struct Feed {
    held: [u8; HEADER_BYTES],
    position: Position,
    ghost header_room: { filled_at position < 12 },
    ghost payload_left: { 0 < left_at position },
}

/// Puts bytes into a header, from a place on. Mostly they are all of it, and then they are moved as a number of 12 bytes.
#[inline(always)]
fn fill(held: &mut [u8; HEADER_BYTES], filled: usize, bytes: &[u8])
    requires fits { filled + length bytes.now ≤ 12 }
    ensures after { held.new ≡ take filled held.old ++ (bytes.now ++ drop (filled + length bytes.now) held.old) }
    ensures len { length held.new ≡ 12 }
{
    match <[u8; HEADER_BYTES]>::try_from(bytes) {
        Ok(whole) => *held = whole,
        Err(_) => held[filled..filled + bytes.len()].copy_from_slice(bytes),
    }
}

impl Feed {
    ghost use Rattle.lfi_frame.specs.declared.fault.FrameFault.TheVariants.{NoMemory, Ended, ReadFailed};
    ghost use Rattle.lfi_frame.specs.Streams.{Message, IsMessage, header_at};
    ghost use Rattle.lfi_frame.specs.Feeds.{awaited, awaited_at, FeedStands, HoldsHeader, header_held, IsAt, IsFed, IsInRange, feed_fault, UsesAll, UsesPayload, IsHeaderUsed, can_be_at, fault_at, fault_told, used_in, IsAtEnd, fault_ended, answer_to, position_after};

    /// A feed of which no byte has come.
    pub fn new() -> Feed
        ensures stands { FeedStands result [] [] }
        ensures fault { feed_fault result ≡ None }
    {
        Feed {
            held: [0; HEADER_BYTES],
            position: Position::Header { filled: 0 },
        }
    }

    /// A feed that goes on from the bytes that another one held and where that was; `None` where no
    /// feed can be.
    pub fn at(held: [u8; HEADER_BYTES], position: Position) -> Option<Feed>
        ensures stands { IfSome result (λ feed. (messages : List Message) (rest : List ℕ) → All IsMessage messages → IsAt held position rest →
            FeedStands feed messages rest) }
        ensures fault { IfSome result (λ feed. feed_fault feed ≡ fault_at position) }
        ensures awaits { IfSome result (λ feed. awaited feed ≡ awaited_at position) }
        ensures none { IfNone result ((rest : List ℕ) → ¬ (IsAt held position rest)) }
        ensures possible { is_some result ≡ can_be_at position }
    {
        let can_be = match position {
            Position::Header { filled } => filled < HEADER_BYTES,
            Position::Payload { left } => left > 0,
            Position::Faulty(_) => true,
        };
        if can_be {
            Some(Feed { held, position })
        } else {
            None
        }
    }

    /// The bytes that it holds and where it is, of which `at` makes it again.
    pub fn parts(&self) -> ([u8; HEADER_BYTES], Position)
        ensures stands { (messages : List Message) (rest : List ℕ) → FeedStands self.now messages rest →
            All IsMessage messages × IsAt result.0 result.1 rest }
        ensures fault { fault_at result.1 ≡ feed_fault self.now }
        ensures room { filled_at result.1 < 12 }
    {
        (self.held, self.position)
    }

    /// Uses bytes of the piece, up to the end of a header or of a payload, and tells what they
    /// brought. Give it what it didn't use again, with what follows.
    ///
    /// # Errors
    ///
    /// The fault of a header, with the bytes used, which are those up to the header's end. After a
    /// fault it uses nothing and answers that fault.
    ///
    /// ```
    /// let mut feed = Feed::new();
    /// while !piece.is_empty() {
    ///     let step = feed.feed(piece)?;
    ///     act_on(step.got, &piece[..step.used]);
    ///     piece = &piece[step.used..];
    /// }
    /// ```
    pub fn feed(&mut self, piece: &[u8]) -> Result<Step, (usize, FrameFault)>
        ensures told { IsFed self.old piece.now result self.new }
        ensures holds { (messages : List Message) (rest : List ℕ) → FeedStands self.old messages rest → HoldsHeader self.old rest →
            HoldsHeader self.new (rest ++ take (used_in result) piece.now) }
        ensures range { IfOk result (λ step. IsInRange step.got) }
        ensures used { used_in result ≡ min (awaited self.old) (length piece.now) }
        ensures within { used_in result ≤ length piece.now }
        ensures whole { UsesAll result (length piece.now) }
        ensures payload { UsesPayload result (length piece.now) }
        ensures header { feed_fault self.old ≡ None → IsHeaderUsed self.old result }
        ensures moves { feed_fault self.old ≡ None → piece.now ≢ [] → 0 < used_in result }
        ensures empty { feed_fault self.old ≡ None → piece.now ≡ [] →
            result ≡ Ok (record { used = 0; got = Got.More }) }
        ensures fault { feed_fault self.new ≡ fault_told result }
        ensures over { IfSome (feed_fault self.old)
            (λ fault. (result ≡ Err (0, fault)) × (self.new ≡ self.old)) }
    {
        match self.position {
            Position::Faulty(fault) => Err((0, fault)),
            Position::Header { filled } => self.feed_header(filled, piece),
            Position::Payload { left } => Ok(self.feed_payload(left, piece)),
        }
    }

    /// `feed` where bytes of a header are to come.
    fn feed_header(&mut self, filled: usize, piece: &[u8]) -> Result<Step, (usize, FrameFault)>
        requires { self.old.position ≡ Position.Header filled }
        ensures told { IsFed self.old piece.now result self.new }
        ensures holds { (messages : List Message) (rest : List ℕ) → FeedStands self.old messages rest → HoldsHeader self.old rest →
            HoldsHeader self.new (rest ++ take (used_in result) piece.now) }
        ensures range { IfOk result (λ step. IsInRange step.got) }
        ensures used { used_in result ≡ min (12 - filled) (length piece.now) }
        ensures within { used_in result ≤ length piece.now }
        ensures whole { UsesAll result (length piece.now) }
        ensures payload { UsesPayload result (length piece.now) }
        ensures header { IsHeaderUsed self.old result }
        ensures moves { piece.now ≢ [] → 0 < used_in result }
        ensures empty { piece.now ≡ [] → result ≡ Ok (record { used = 0; got = Got.More }) }
        ensures fault { feed_fault self.new ≡ fault_told result }
    {
        let used = piece.len().min(HEADER_BYTES - filled);
        fill(&mut self.held, filled, &piece[..used]);
        let filled = filled + used;
        if filled < HEADER_BYTES {
            self.position = Position::Header { filled };
            return Ok(Step {
                used,
                got: Got::More,
            });
        }
        match self.begin() {
            Ok(got) => Ok(Step { used, got }),
            Err(fault) => Err((used, fault)),
        }
    }

    /// Judges the header whose last byte has come, and goes on after it.
    fn begin(&mut self) -> Result<Got, FrameFault>
        ensures answer { result ≡ answer_to (header_at self.old.held) }
        ensures range { IfOk result IsInRange }
        ensures position { self.new.position ≡ position_after (header_at self.old.held) }
        ensures held { self.new.held ≡ self.old.held }
    {
        let answer = Header::read(&self.held).judge();
        self.position = match answer {
            Err(fault) => Position::Faulty(fault),
            Ok(Got::Page { len, .. }) => Position::Payload { left: len },
            Ok(_) => Position::Header { filled: 0 },
        };
        answer
    }

    /// `feed` where bytes of a payload are to come.
    fn feed_payload(&mut self, left: u32, piece: &[u8]) -> Step
        requires { self.old.position ≡ Position.Payload left }
        ensures told { IsFed self.old piece.now (Ok result) self.new }
        ensures holds { (messages : List Message) (rest : List ℕ) → FeedStands self.old messages rest → HoldsHeader self.old rest →
            HoldsHeader self.new (rest ++ take (result.used) piece.now) }
        ensures range { IsInRange result.got }
        ensures used { result.used ≡ min left (length piece.now) }
        ensures within { result.used ≤ length piece.now }
        ensures whole { UsesAll (Ok result) (length piece.now) }
        ensures payload { UsesPayload (Ok result) (length piece.now) }
        ensures moves { piece.now ≢ [] → 0 < result.used }
        ensures empty { piece.now ≡ [] → result ≡ record { used = 0; got = Got.More } }
        ensures fault { feed_fault self.new ≡ None }
    {
        if piece.is_empty() {
            return Step {
                used: 0,
                got: Got::More,
            };
        }
        let used = piece.len().min(left as usize);
        let left = left - used as u32;
        if left == 0 {
            self.position = Position::Header { filled: 0 };
        } else {
            self.position = Position::Payload { left };
        }
        Step {
            used,
            got: Got::Payload { ended: left == 0 },
        }
    }

    /// How many bytes have come since the last whole message, where the stream has no fault.
    pub fn begun(&self) -> usize
        ensures { (messages : List Message) (rest : List ℕ) → FeedStands self.now messages rest → HoldsHeader self.now rest →
            feed_fault self.now ≡ None → result ≡ length rest }
    {
        match self.position {
            Position::Header { filled } => filled,
            Position::Payload { left } => {
                let payload = Header::read(&self.held).b;
                (HEADER_BYTES + payload as usize).saturating_sub(left as usize)
            }
            Position::Faulty(_) => 0,
        }
    }

    /// The bytes of the header that came last, as far as they came; what stands behind them says nothing.
    pub fn header(&self) -> [u8; HEADER_BYTES]
        ensures { result ≡ header_held self.now }
    {
        self.held
    }

    /// Tells that the input has ended. Between two messages this changes nothing.
    ///
    /// # Errors
    ///
    /// `Ended` inside a message, that is where bytes have come since the last whole message; it is
    /// then the stream's fault. After a fault, that fault.
    pub fn end(&mut self) -> Result<(), FrameFault>
        ensures stands { (messages : List Message) (rest : List ℕ) → FeedStands self.old messages rest →
            FeedStands self.new messages rest × IsAtEnd (feed_fault self.old) rest result }
        ensures fault { feed_fault self.new ≡ fault_ended result }
        ensures over { IfSome (feed_fault self.old)
            (λ fault. (result ≡ Err fault) × (self.new ≡ self.old)) }
    {
        if let Position::Faulty(fault) = self.position {
            return Err(fault);
        }
        if self.is_between() {
            return Ok(());
        }
        self.position = Position::Faulty(FrameFault::Ended);
        Err(FrameFault::Ended)
    }

    /// Whether nothing has come since the last whole message.
    fn is_between(&self) -> bool
        ensures { result ≡ is_between self.now.position }
    {
        match self.position {
            Position::Header { filled } => filled == 0,
            Position::Payload { .. } => false,
            Position::Faulty(_) => false,
        }
    }

    /// Gives the stream a fault that its bytes don't show, `NoMemory` or `ReadFailed`, unless it
    /// has one already.
    pub fn stop(&mut self, fault: FrameFault)
        requires { (fault ≡ NoMemory) ⊎ (fault ≡ ReadFailed) }
        ensures stands { (messages : List Message) (rest : List ℕ) → FeedStands self.old messages rest →
            FeedStands self.new messages rest }
        ensures first { feed_fault self.old ≡ None → feed_fault self.new ≡ Some fault }
        ensures over { IfSome (feed_fault self.old) (λ _. self.new ≡ self.old) }
    {
        if let Position::Faulty(_) = self.position {
            return;
        }
        self.position = Position::Faulty(fault);
    }
}

impl Default for Feed {
    ghost use Rattle.lfi_frame.specs.Feeds.{FeedStands, feed_fault};

    ghost is_default = { λ feed. FeedStands feed [] [] × (feed_fault feed ≡ None) };

    /// A feed of which no byte has come, as `Feed::new` makes it.
    fn default() -> Feed {
        Feed::new()
    }
}
