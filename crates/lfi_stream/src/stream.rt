//! A stream goes on.

ghost use Rattle.std.specs.Prelude.{◌≡◌, ◌≢◌, ◌<◌, ◌≤◌, ℕ, List, [], length, min, take, Some, None, Ok, Err, IfSome, IfNone};
ghost use Rattle.lfi_frame.specs.declared.feed.Feed.{Feed};
ghost use Rattle.lfi_frame.specs.declared.feed.Position.TheVariants.{Faulty};
ghost use Rattle.lfi_frame.specs.declared.fault.FrameFault.{FrameFault};
ghost use Rattle.lfi_frame.specs.declared.answer.Got.TheVariants.{More};
ghost use Rattle.lfi_frame.specs.Streams.{Message};
ghost use Rattle.lfi_frame.specs.Feeds.{awaited, awaited_at, FeedStands, IsTold, feed_fault, fault_at};
ghost use Rattle.lfi_connection.specs.Connections.{Holds};
ghost use Rattle.lfi_connection.specs.Events.{coming_after, Moves};
ghost use Rattle.lfi_frame.specs.declared.feed.Position.{Position};
ghost use Rattle.lfi_stream.specs.Numbers.{position_at, progress_at, page_at, FitsPage, IsPageOf};
ghost use Rattle.lfi_stream.specs.Streams.{all, IsIn, StandsFor};
ghost use Rattle.lfi_stream.specs.Events.{Tells, IsWithin};

use crate::numbers::{LfiStreamFeed, LfiStreamPage, LfiStreamText, feed_at, position_of};
use lfi_connection::{Event, advance};
use lfi_frame::{Feed, FrameFault, Got, Position, Step};

/// What is told of what `count` bytes brought.
fn brought(stream: &mut LfiStreamText, got: Got, count: usize) -> Event
    ensures moves { (feed : Feed) (messages : List Message) (rest used : List ℕ) → length used ≡ count → (got ≢ More → used ≢ []) → Holds (progress_at stream.old.modules) (page_at stream.old) all messages rest →
        IsTold got feed messages rest used → Moves feed (progress_at stream.new.modules) (page_at stream.old) all messages rest used result }
    ensures page { IsPageOf stream.new.page (coming_after result count (page_at stream.old)) }
    ensures within { IsWithin (Ok result) count stream.old }
{
    let coming = stream.coming();
    let event = advance(stream, &coming, got, count, true);
    stream.page = LfiStreamPage::of(event.coming_after(count, coming));
    event
}

/// The numbers of a feed.
fn kept(feed: &Feed) -> LfiStreamFeed
    ensures stands { (messages : List Message) (rest : List ℕ) → FeedStands feed.now messages rest → feed_fault feed.now ≡ None → IsIn result rest }
    ensures fault { (fault : FrameFault) → feed_fault feed.now ≡ Some fault → position_at result.place result.number ≡ Some (Faulty fault) }
{
    let (held, position) = feed.parts();
    feed_at(held, position)
}

/// Goes on from where a feed is.
fn go_on(
    stream: &mut LfiStreamText,
    start: Feed,
    piece: &[u8],
) -> (usize, Result<Event, FrameFault>)
    requires { feed_fault start ≡ None }
    ensures told { (messages : List Message) (rest : List ℕ) → FeedStands start messages rest → Holds (progress_at stream.old.modules) (page_at stream.old) all messages rest →
        Tells result.1 stream.new messages rest (take result.0 piece.now) }
    ensures used { result.0 ≡ min (awaited start) (length piece.now) }
    ensures within { result.0 ≤ length piece.now }
    ensures moves { piece.now ≢ [] → 0 < result.0 }
    ensures code { IsWithin result.1 result.0 stream.old }
{
    let mut feed = start;
    match feed.feed(piece) {
        Ok(Step { used, got }) => {
            let event = brought(stream, got, used);
            stream.feed = kept(&feed);
            (used, Ok(event))
        }
        Err((used, fault)) => {
            stream.feed = kept(&feed);
            (used, Err(fault))
        }
    }
}

/// Uses bytes of the next piece, up to the end of a header or of a payload, and tells how many it used and what they
/// brought, or the stream's fault. Give it what it didn't use again. After the fault it uses nothing, and tells the fault.
/// `None` where the numbers are those of no stream: no feed has them, or the page that is coming and what came of it
/// don't fit its module and what is to come.
pub fn next(stream: &mut LfiStreamText, piece: &[u8]) -> Option<(usize, Result<Event, FrameFault>)>
    ensures told { IfSome result (λ answer. (messages : List Message) (rest : List ℕ) → StandsFor stream.old messages rest →
        Tells answer.1 stream.new messages rest (take answer.0 piece.now)) }
    ensures used { IfSome result (λ answer. (position : Position) → position_at stream.old.feed.place stream.old.feed.number ≡ Some position →
        answer.0 ≡ min (awaited_at position) (length piece.now)) }
    ensures within { IfSome result (λ answer. answer.0 ≤ length piece.now) }
    ensures moves { IfSome result (λ answer. (rest : List ℕ) → IsIn stream.old.feed rest → piece.now ≢ [] → 0 < answer.0) }
    ensures code { IfSome result (λ answer. IsWithin answer.1 answer.0 stream.old) }
    ensures over { (fault : FrameFault) → position_at stream.old.feed.place stream.old.feed.number ≡ Some (Faulty fault) →
        (result ≡ Some (0, Err fault)) × (stream.new ≡ stream.old) }
    ensures none { IfNone result ((stream.new ≡ stream.old) × ((messages : List Message) (rest : List ℕ) → ¬ (StandsFor stream.old messages rest))) }
    ensures no_feed { position_at stream.old.feed.place stream.old.feed.number ≡ None → result ≡ None }
    ensures no_page { (position : Position) → position_at stream.old.feed.place stream.old.feed.number ≡ Some position → fault_at position ≡ None → ¬ (FitsPage stream.old position) → result ≡ None }
{
    let position = position_of(stream.feed.place, stream.feed.number)?;
    if let Position::Faulty(fault) = position {
        return Some((0, Err(fault)));
    }
    if !stream.fits_page(&position) {
        return None;
    }
    let feed = Feed::at(stream.feed.held, position)?;
    Some(go_on(stream, feed, piece))
}
