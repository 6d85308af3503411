//! A stream ends.

ghost use Rattle.std.specs.Prelude.{◌≡◌, ℕ, List, Some, None, IfSome, IfNone};
ghost use Rattle.lfi_frame.specs.declared.fault.FrameFault.{FrameFault};
ghost use Rattle.lfi_frame.specs.declared.feed.Position.TheVariants.{Faulty};
ghost use Rattle.lfi_frame.specs.Streams.{Message};
ghost use Rattle.lfi_frame.specs.declared.feed.Position.{Position};
ghost use Rattle.lfi_frame.specs.Feeds.{fault_at};
ghost use Rattle.lfi_stream.specs.Numbers.{position_at, FitsPage};
ghost use Rattle.lfi_stream.specs.Streams.{StandsFor};
ghost use Rattle.lfi_stream.specs.Endings.{LosesOne, Ends};

use crate::numbers::{LfiStreamText, feed_at, position_of};
use lfi_connection::{Event, fault_at_end, lose_next};
use lfi_frame::{Feed, FrameFault, Position};
use lfi_model::EndCause;

/// Tells that the input has ended: the fault that this is inside a message, or where a module is open; else nothing. At the
/// stream's fault it ends the modules that are open, one a call, the least number first, and then tells nothing. `None` where
/// the numbers are those of no stream.
pub fn end(stream: &mut LfiStreamText) -> Option<Result<Event, FrameFault>>
    ensures told { IfSome result (λ answer. (messages : List Message) (rest : List ℕ) → StandsFor stream.old messages rest →
        Ends answer stream.old stream.new messages rest) }
    ensures over { (fault : FrameFault) → position_at stream.old.feed.place stream.old.feed.number ≡ Some (Faulty fault) →
        LosesOne fault stream.old stream.new result }
    ensures none { IfNone result ((stream.new ≡ stream.old) × ((messages : List Message) (rest : List ℕ) → ¬ (StandsFor stream.old messages rest))) }
    ensures no_feed { position_at stream.old.feed.place stream.old.feed.number ≡ None → result ≡ None }
    ensures no_page { (position : Position) → position_at stream.old.feed.place stream.old.feed.number ≡ Some position → fault_at position ≡ None → ¬ (FitsPage stream.old position) → result ≡ None }
{
    let position = position_of(stream.feed.place, stream.feed.number)?;
    if let Position::Faulty(fault) = position {
        return Some(Ok(lose_next(stream, fault)));
    }
    if !stream.fits_page(&position) {
        return None;
    }
    let mut feed = Feed::at(stream.feed.held, position)?;
    let Some(fault) = fault_at_end(stream, &mut feed, EndCause::End) else {
        return Some(Ok(Event::Nothing));
    };
    stream.feed = feed_at(stream.feed.held, Position::Faulty(fault));
    Some(Err(fault))
}
