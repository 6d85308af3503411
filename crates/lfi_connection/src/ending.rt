//! A connection ends.

ghost use Rattle.std.specs.Prelude.{◌≡◌, ℕ, Bool, List, None, ◌||◌, ◌⊎◌};
ghost use Rattle.lfi_frame.specs.Streams.{Message, rest_of};
ghost use Rattle.lfi_frame.specs.Feeds.{FeedStands, feed_fault};
ghost use Rattle.lfi_model.specs.Items.{reason_of, fault_by_cause, connection_fault};
ghost use Rattle.lfi_connection.specs.Connections.{made_of, AreAt};
ghost use Rattle.lfi_connection.specs.Endings.{Loses};
ghost use Rattle.lfi_connection.specs.declared.event.Event.TheVariants.{Nothing};

use crate::event::Event;
use crate::progress_table::{ProgressTable, first_going};
use lfi_frame::{Feed, FrameFault};
use lfi_model::{EndCause, Progress, Reason};

/// The End of a module that is open at the connection's fault.
fn reason_of(fault: FrameFault) -> Reason
    ensures { result ≡ reason_of fault }
{
    match fault {
        FrameFault::NoMemory => Reason::NoMemory,
        fault => Reason::Lost(fault),
    }
}

/// The connection's fault where its input is over for this cause, and a message or a module may be left open.
fn fault_by(cause: EndCause, open: bool) -> Option<FrameFault>
    ensures { result ≡ fault_by_cause cause «open» }
{
    match cause {
        EndCause::End if open => Some(FrameFault::Ended),
        EndCause::End => None,
        EndCause::Failed => Some(FrameFault::ReadFailed),
        EndCause::Starved => Some(FrameFault::NoMemory),
    }
}

/// The connection's fault, where its input is over for this cause and has no fault yet.
pub fn fault_at_end<P: ProgressTable>(
    table: &P,
    feed: &mut Feed,
    cause: EndCause,
) -> Option<FrameFault>
    ensures { (claimed : ℕ → Bool) (messages : List Message) (rest : List ℕ) → FeedStands feed.old messages rest → feed_fault feed.old ≡ None →
        AreAt (P.progress_at table.now) (made_of claimed messages (rest_of rest)) → result ≡ connection_fault messages rest cause claimed }
{
    let unfinished = feed.end().is_err();
    let going = first_going(table).is_some();
    fault_by(cause, unfinished | going)
}

/// The open module of the least number is lost by this fault; `Nothing` where none is open.
pub fn lose_next<P: ProgressTable>(table: &mut P, fault: FrameFault) -> Event
    ensures loses { Loses fault (P.progress_at table.old) (P.progress_at table.new) result }
    ensures keeps { (table.new ≡ table.old) ⊎ P.Keeps table.old table.new }
    ensures none { result ≡ Nothing → table.new ≡ table.old }
{
    let Some(open) = first_going(table) else {
        return Event::Nothing;
    };
    table.set(open.number, Progress::Ended);
    Event::End {
        module: open.number,
        extent: open.extent,
        pages: open.pages,
        reason: reason_of(fault),
    }
}
