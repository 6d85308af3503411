//! A connection's stream, in a state that the caller keeps.

ghost use Rattle.std.specs.Prelude.{◌≡◌, ◌≢◌, ◌<◌, ◌≤◌, ℕ, List, [], length, min, take, Some, None, Err};
ghost use Rattle.lfi_frame.specs.declared.fault.FrameFault.{FrameFault};
ghost use Rattle.lfi_frame.specs.declared.feed.Position.TheVariants.{Faulty};
ghost use Rattle.lfi_frame.specs.Streams.{Message, rest_of};
ghost use Rattle.lfi_stream.specs.Streams.{IsIn, StandsFor, made_of};
ghost use Rattle.lfi_frame.specs.declared.feed.Position.{Position};
ghost use Rattle.lfi_frame.specs.Feeds.{awaited_at, fault_at};
ghost use Rattle.lfi_module.specs.declared.profile.Profile.{Profile};
ghost use Rattle.lfi_module.specs.Profiles.{profile_number};
ghost use Rattle.lfi_verifier.specs.Profiles.{IsUnknown};
ghost use Rattle.lfi_verifier.specs.Statuses.{status_number};
ghost use Rattle.lfi_model.specs.Item.{ItemView};
ghost use Rattle.lfi_stream.specs.Numbers.{position_at, progress_at, FitsPage};
ghost use Rattle.lfi_verifier.specs.StreamEvents.{reason_numbers, numbers_of, event_numbers, with_finding, no_stream, TellsNext, TellsEnd, TellsLost, LiesWithin, TellsOfCode};
ghost use Rattle.lfi_verifier.specs.States.{IsState};
ghost use Rattle.lfi_stream.specs.Endings.{LosesIn};
ghost use Rattle.lfi_verifier.specs.StreamVerdicts.{state_at, nothing_found, bad_found, AreJudged};
ghost use Rattle.lfi_verifier.specs.Streams.{StandsForStream, JudgesNext, JudgesLost, FindsLost};

use crate::fault::{LfiFault, NO_FAULT, told_of};
use crate::finding::Finding;
use crate::profile::profile_of;
use crate::status::Status;
use crate::verdicts::{LfiStreamVerdicts, end, follow};
use lfi_frame::FrameFault;
use lfi_model::Reason;
use lfi_stream::{Event, LfiStreamText};

/// A connection's stream of which some bytes came, as C keeps it.
#[repr(C)]
#[derive(Clone, Copy)]
pub struct LfiStream {
    /// What came of its text.
    pub text: LfiStreamText,
    /// What is judged of its code.
    pub verdicts: LfiStreamVerdicts,
}

/// What the bytes of a stream brought, in numbers. What a kind doesn't tell is 0.
#[repr(C)]
#[derive(Clone, Copy)]
pub struct LfiEvent {
    /// 0: nothing; 1: a module opens; 2: code; 3: a message is passed over; 4: a module ended; 5: the stream's fault; 6: the
    /// numbers are those of no stream.
    pub kind: u32,
    /// The module, of kinds 1 to 4.
    pub module: u32,
    /// How many words the module has, of kinds 1 and 4.
    pub words: u32,
    /// The word at which it is entered, of kind 1.
    pub entry: u32,
    /// The number of the profile by which it is to be judged, of kind 1.
    pub profile: u32,
    /// How many bytes a full page of it has, of kind 1: 4,096 or 16,384.
    pub page_bytes: u32,
    /// How many of its pages came, of kind 4.
    pub pages: u32,
    /// Why it ended, of kind 4: 1 a Close, 2 the stream's fault, 3 a page that isn't the one due, 4 no memory.
    pub reason: u32,
    /// The stream's fault, of kind 5, and of kind 4 where it is the reason; the index of that page.
    pub number: u32,
    /// Whether a page ended with these bytes, of kind 2: 1 or 0.
    pub ended: u32,
    /// What is found of the module's code, of kinds 2 and 4: the number of a status.
    pub verdict: u32,
    /// The first fault of the module's code, of kinds 2 and 4.
    pub fault: LfiFault,
    /// Where in the module's code the used bytes belong, of kind 2.
    pub offset: usize,
}

/// No event.
const NO_EVENT: LfiEvent = LfiEvent {
    kind: 0,
    module: 0,
    words: 0,
    entry: 0,
    profile: 0,
    page_bytes: 0,
    pages: 0,
    reason: 0,
    number: 0,
    ended: 0,
    verdict: 0,
    fault: NO_FAULT,
    offset: 0,
};

/// The numbers of a reason, and of what it tells.
fn reason_of(reason: Reason) -> (u32, u32)
    ensures { result ≡ reason_numbers reason }
{
    match reason {
        Reason::Close => (1, 0),
        Reason::Lost(fault) => (2, u32::from(fault.number())),
        Reason::PageFault(index) => (3, index),
        Reason::NoMemory => (4, 0),
    }
}

/// An event in numbers.
fn numbers_of(event: Event) -> LfiEvent
    ensures { result ≡ numbers_of event }
{
    match event {
        Event::Nothing | Event::Begin(_) => NO_EVENT,
        Event::Open { module, extent } => LfiEvent {
            kind: 1,
            module: u32::from(module.number()),
            words: extent.words().number(),
            entry: extent.entry(),
            profile: extent.profile().number(),
            page_bytes: extent.pages().bytes(),
            ..NO_EVENT
        },
        Event::Code { page, ended } => LfiEvent {
            kind: 2,
            module: u32::from(page.module.number()),
            offset: page.offset(),
            ended: u32::from(ended),
            ..NO_EVENT
        },
        Event::Stray { module } => LfiEvent {
            kind: 3,
            module: u32::from(module.number()),
            ..NO_EVENT
        },
        Event::End {
            module,
            extent,
            pages,
            reason,
        } => {
            let (why, number) = reason_of(reason);
            LfiEvent {
                kind: 4,
                module: u32::from(module.number()),
                words: extent.words().number(),
                pages,
                reason: why,
                number,
                ..NO_EVENT
            }
        }
    }
}

/// The stream's fault in numbers.
fn fault_event(fault: FrameFault) -> LfiEvent
    ensures { result ≡ event_numbers (Err fault) }
{
    LfiEvent {
        kind: 5,
        number: u32::from(fault.number()),
        ..NO_EVENT
    }
}

/// An event in numbers, with what is found of code.
fn told(event: &Event, finding: Finding) -> LfiEvent
    ensures told { result ≡ with_finding (numbers_of event.now) finding }
    ensures most { result.verdict ≤ 7 }
{
    LfiEvent {
        verdict: finding.status.number(),
        fault: told_of(finding.fault),
        ..numbers_of(*event)
    }
}

/// Begins a stream. Each of its modules tells at its opening the profile by which its code is to be judged; the argument
/// asks for one that is known.
#[unsafe(no_mangle)]
pub extern "C" fn lfi_stream_init(stream: &mut LfiStream, profile: u32) -> u32
    ensures begun { (by : Profile) → profile_number by ≡ profile → StandsForStream stream.new [] [] × (result ≡ status_number Status.Lawful) }
    ensures unknown { IsUnknown profile → (result ≡ status_number Status.UnknownProfile) × (stream.new ≡ stream.old) }
    ensures most { result ≤ 7 }
{
    if profile_of(profile).is_none() {
        return Status::UnknownProfile.number();
    }
    *stream = LfiStream {
        text: lfi_stream::begin(),
        verdicts: LfiStreamVerdicts::none(),
    };
    Status::Lawful.number()
}

/// Goes on in the next bytes, and tells how many it used and what they brought; where they are code, what is found of it so
/// far, and where a module ended, what becomes of it.
#[unsafe(no_mangle)]
pub extern "C" fn lfi_stream_next(
    stream: &mut LfiStream,
    bytes: &[u8],
    event: &mut LfiEvent,
) -> usize
    ensures judged { (messages : List Message) (rest : List ℕ) → StandsForStream stream.old messages rest →
        JudgesNext event.new stream.new messages rest (take result bytes.now) }
    ensures told { (messages : List Message) (rest : List ℕ) → StandsFor stream.old.text messages rest →
        TellsNext event.new stream.new.text messages rest (take result bytes.now) }
    ensures used { (position : Position) → position_at stream.old.text.feed.place stream.old.text.feed.number ≡ Some position → event.new ≢ no_stream →
        result ≡ min (awaited_at position) (length bytes.now) }
    ensures within { result ≤ length bytes.now }
    ensures moves { (rest : List ℕ) → IsIn stream.old.text.feed rest → event.new ≢ no_stream → bytes.now ≢ [] → 0 < result }
    ensures over { (fault : FrameFault) → position_at stream.old.text.feed.place stream.old.text.feed.number ≡ Some (Faulty fault) →
        (result ≡ 0) × (event.new ≡ event_numbers (Err fault)) × (stream.new ≡ stream.old) }
    ensures code { event.new.kind ≡ 2 → LiesWithin stream.old.text event.new result }
    ensures unjudged { TellsOfCode event.new → ¬ (IsState (state_at stream.old.verdicts.modules event.new.«module»)) → event.new.verdict ≡ status_number Status.BadState }
    ensures most { event.new.verdict ≤ 7 }
    ensures bad { event.new ≡ no_stream → (result ≡ 0) × (stream.new ≡ stream.old) × ((messages : List Message) (rest : List ℕ) → ¬ (StandsFor stream.old.text messages rest)) }
    ensures no_feed { position_at stream.old.text.feed.place stream.old.text.feed.number ≡ None → event.new ≡ no_stream }
    ensures no_page { (position : Position) → position_at stream.old.text.feed.place stream.old.text.feed.number ≡ Some position → fault_at position ≡ None → ¬ (FitsPage stream.old.text position) → event.new ≡ no_stream }
{
    match lfi_stream::next(&mut stream.text, bytes) {
        Some((used, Ok(brought))) => {
            let finding = follow(&mut stream.verdicts, brought, &bytes[..used]);
            *event = told(&brought, finding);
            used
        }
        Some((used, Err(fault))) => {
            *event = fault_event(fault);
            used
        }
        None => {
            *event = LfiEvent {
                kind: 6,
                ..NO_EVENT
            };
            0
        }
    }
}

/// What an event of the input's end tells of code: what becomes of the module that is lost.
fn lost(verdicts: &LfiStreamVerdicts, event: Event) -> Finding
    ensures found { (items : ℕ → List ItemView) (old new : LfiStreamText) (fault : FrameFault) → AreJudged verdicts.now.modules (progress_at old.modules) items →
        LosesIn fault old new event → FindsLost event result items }
    ensures nothing { event ≡ Event.Nothing → result ≡ nothing_found }
    ensures bad { ¬ (IsState (state_at verdicts.now.modules (numbers_of event).«module»)) → (numbers_of event).kind ≡ 4 → result ≡ bad_found }
{
    match event {
        Event::End { module, reason, .. } => end(verdicts, module, reason),
        _ => Finding::nothing(),
    }
}

/// Tells the end of the input, and then the modules that are lost by the stream's fault, one a call, with what becomes of
/// each.
#[unsafe(no_mangle)]
pub extern "C" fn lfi_stream_end(stream: &mut LfiStream, event: &mut LfiEvent) -> u32
    ensures told { (messages : List Message) (rest : List ℕ) → StandsFor stream.old.text messages rest →
        TellsEnd event.new stream.old.text stream.new.text messages rest × (result ≡ status_number Status.Lawful) }
    ensures over { (fault : FrameFault) → position_at stream.old.text.feed.place stream.old.text.feed.number ≡ Some (Faulty fault) →
        TellsLost fault event.new stream.old.text stream.new.text × (result ≡ status_number Status.Lawful) }
    ensures ended { (messages : List Message) (rest : List ℕ) → StandsForStream stream.old messages rest →
        AreJudged stream.new.verdicts.modules (progress_at stream.new.text.modules) (λ m. (made_of messages (rest_of rest) m).items) }
    ensures judged { (items : ℕ → List ItemView) (fault : FrameFault) → AreJudged stream.old.verdicts.modules (progress_at stream.old.text.modules) items →
        position_at stream.old.text.feed.place stream.old.text.feed.number ≡ Some (Faulty fault) → JudgesLost fault event.new stream.old stream.new items }
    ensures kept { stream.new.verdicts ≡ stream.old.verdicts }
    ensures unjudged { event.new.kind ≡ 4 → ¬ (IsState (state_at stream.old.verdicts.modules event.new.«module»)) → event.new.verdict ≡ status_number Status.BadState }
    ensures most { (result ≤ 7) × (event.new.verdict ≤ 7) }
    ensures bad { result ≡ status_number Status.BadState →
        (event.new ≡ no_stream) × (stream.new ≡ stream.old) × ((messages : List Message) (rest : List ℕ) → ¬ (StandsFor stream.old.text messages rest)) }
    ensures no_feed { position_at stream.old.text.feed.place stream.old.text.feed.number ≡ None → result ≡ status_number Status.BadState }
    ensures no_page { (position : Position) → position_at stream.old.text.feed.place stream.old.text.feed.number ≡ Some position → fault_at position ≡ None → ¬ (FitsPage stream.old.text position) → result ≡ status_number Status.BadState }
{
    match lfi_stream::end(&mut stream.text) {
        Some(Ok(ending)) => {
            let finding = lost(&stream.verdicts, ending);
            *event = told(&ending, finding);
            Status::Lawful.number()
        }
        Some(Err(fault)) => {
            *event = fault_event(fault);
            Status::Lawful.number()
        }
        None => {
            *event = LfiEvent {
                kind: 6,
                ..NO_EVENT
            };
            Status::BadState.number()
        }
    }
}
