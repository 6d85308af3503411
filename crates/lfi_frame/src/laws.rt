//! Laws of streams and feeds.

ghost use Rattle.std.specs.Prelude.{◌≡◌, ◌<◌, ◌^◌, ℕ, List, [], ◌++◌, flat_map};
ghost use Rattle.lfi_frame.specs.declared.fault.FrameFault.{FrameFault};
ghost use Rattle.lfi_frame.specs.declared.feed.Feed.{Feed};
ghost use Rattle.lfi_frame.specs.declared.header.Header.{Header};
ghost use Rattle.lfi_frame.specs.Streams.{AreBytes, Message, Cut, header_at, header_bytes, spelling, rest_of, faulty};
ghost use Rattle.lfi_frame.specs.Feeds.{FeedStands};
ghost use Rattle.lfi_frame.specs.Runs.{Call, AreCalls, used_by, hear, nothing_heard, joined, UseUp};

/// Whoever reads the twelve bytes of a header, whose numbers fit theirs, has that header again.
pub fn header_reads_back()
    ensures { (h : Header) → h.module < 2 ^ 16 → h.a < 2 ^ 32 → h.b < 2 ^ 32 → header_at (header_bytes h) ≡ h }
{}

/// Every text of bytes is cut in exactly one way.
pub fn one_cut()
    ensures some { (bytes : List ℕ) → AreBytes bytes →
        (messages : List Message) × (rest : List ℕ) × Cut bytes messages rest }
    ensures only { (bytes : List ℕ) (messages other : List Message) (rest last : List ℕ) →
        Cut bytes messages rest → Cut bytes other last → (messages ≡ other) × (rest ≡ last) }
{}

/// The text that a feed stands for is cut as the feed says.
pub fn stands_cut()
    ensures { (feed : Feed) (messages : List Message) (rest : List ℕ) → FeedStands feed messages rest →
        Cut (flat_map spelling messages ++ rest) messages rest }
{}

/// Over a whole run, in whatever pieces its bytes come, the messages that the answers tell are
/// those of the one cut of all bytes that were used.
pub fn whole_run()
    ensures { (from to : Feed) (calls : List Call) → FeedStands from [] [] → AreCalls from calls to →
        (rest : List ℕ) × Cut (flat_map used_by calls) (hear nothing_heard calls).messages rest
        × FeedStands to (hear nothing_heard calls).messages rest }
{}

/// So a feed that is given a list of pieces, and uses them up, tells the messages of the one cut
/// of all their bytes.
pub fn any_pieces()
    ensures { (from to : Feed) (pieces : List (List ℕ)) (calls : List Call)
        (messages : List Message) (rest : List ℕ) →
        FeedStands from [] [] → AreCalls from calls to → UseUp pieces calls →
        Cut (joined pieces) messages rest →
        ((hear nothing_heard calls).messages ≡ messages) × FeedStands to messages rest }
{}

/// What follows a faulty header changes nothing before it.
pub fn fault_stays()
    ensures { (bytes rest more : List ℕ) (messages : List Message) (fault : FrameFault) →
        Cut bytes messages rest → rest_of rest ≡ faulty fault →
        Cut (bytes ++ more) messages (rest ++ more) × (rest_of (rest ++ more) ≡ faulty fault) }
{}
