//! What `load_all`, `serve_on` and `Stage::new` promise, read from the records of their contracts: where one of these fields is
//! dropped, a law here isn't proved any more.

ghost use Rattle.std.specs.Prelude.{◌≡◌, ◌≢◌, ◌<◌, ◌-◌, ◌^◌, ℕ, Bool, List, [], ◌∷◌, ◌++◌, Option, Some, None, true, get_or, slice_get, slice_index, length, min, sum};
ghost use Rattle.std.specs.Io.KnownBytes.{Appends};
ghost use Rattle.std.specs.declared.time.Duration.{Duration};
ghost use Rattle.lfi_module.specs.Extents.{ExtentView};
ghost use Rattle.lfi_module.specs.Numbers.{module_count};
ghost use Rattle.lfi_board.specs.Calls.{Changed, number_of};
ghost use Rattle.lfi_board.specs.Known.{known_by_sequencer, module_of};
ghost use Rattle.lfi_board.specs.declared.seats.Change.{Change};
ghost use Rattle.lfi_board.specs.declared.seats.Phase.TheVariants as phase;
ghost use Rattle.lfi_board.specs.declared.seats.SequencerSeat.{SequencerSeat};
ghost use Rattle.lfi_frame.specs.Streams.{Message, Cut};
ghost use Rattle.a64_word.specs.Words.{words_of};
ghost use Rattle.lfi_rules.specs.Verdicts.{all_words};
ghost use Rattle.lfi_model.specs.Item.{ItemView};
ghost use Rattle.lfi_model.specs.Items.{item_of};
ghost use Rattle.lfi_model.specs.Outcomes.{end_of, pages_of};
ghost use Rattle.lfi_model.specs.declared.item.ItemKind.TheVariants.{Open};
ghost use Rattle.lfi_model.specs.declared.item.Reason.TheVariants.{Close};
ghost use Rattle.lfi_model.specs.declared.connection.EndCause.TheVariants.{End, Starved, Failed};
ghost use Rattle.lfi_pack.specs.Heard.{IsHeard, PackedView};
ghost use Rattle.lfi_pack.specs.Packs.{PacksPart};
ghost use Rattle.lfi_receive.specs.declared.receiver.Receiver.{Receiver};
ghost use Rattle.lfi_receive.specs.Claims.{is_opened};
ghost use Rattle.lfi_receive.specs.Pulls.{FailsAs};
ghost use Rattle.lfi_receive.specs.Receivers.{due_of, member_of, AfterEnd, AsksMemory};
ghost use Rattle.lfi_receive.specs.declared.receiver.ReceiverTurn.TheVariants as receiver_turn;
ghost use Rattle.lfi_sequence.specs.declared.sequence.BoardNotice.TheVariants as notice;
ghost use Rattle.lfi_sequence.specs.declared.sequencer.Sequencer.{Sequencer};
ghost use Rattle.lfi_sequence.specs.declared.verifier.Verifier.{Verifier};
ghost use Rattle.lfi_sequence.specs.Handed.{take_pass_of};
ghost use Rattle.lfi_sequence.specs.Turns as turns;
ghost use Rattle.lfi_stage.specs.declared.settlement.Report.{Report};
ghost use Rattle.lfi_stage.specs.declared.stage.Stage.{Stage};
ghost use Rattle.lfi_stage.specs.Reports.{verifiers_of};
ghost use Rattle.lfi_stage.specs.Stages.{IsNew};
ghost use Rattle.lfi_stage_model.specs.declared.shared.Parts.{Parts};
ghost use Rattle.lfi_stage_model.specs.declared.shared.Shared.{Shared};
ghost use Rattle.lfi_thread_loops.specs.Running.{AreBack};
ghost use Rattle.lfi_thread_loops.specs.Seated.{HasEnded};
ghost use Rattle.lfi_sync.specs.declared.fate.ClientFate.TheVariants.{Absent, CutOff};
ghost use Rattle.lfi_sync.specs.declared.fate.Absence.TheVariants.{NotCome};
ghost use Rattle.lfi_sync.specs.Fates.{fate_at, is_absent};
ghost use Rattle.lfi_loader.specs.declared.serve.Served.{Served};
ghost use Rattle.lfi_loader.specs.Loaded.{IsLoaded};
ghost use Rattle.lfi_loader.specs.Served.{HasServed};

/// A connection without a client has sent nothing, so it has no module, and is one of those that were asked for. A module that a
/// text opens is some connection's. Without a limit of time no client is cut off, and none comes too late. The limit that is told is the one that was asked for.
pub fn absent_clients_have_no_module()
    ensures absent { (connections verifiers : ℕ) (limit : Option Duration) (served : Served) → HasServed connections verifiers limit served → (c m : ℕ) → c < connections → m < module_count → is_absent (fate_at served.clients.fates c) ≡ true → get_or served.report.holders m None ≢ Some c }
    ensures asked_for { (connections verifiers : ℕ) (limit : Option Duration) (served : Served) → HasServed connections verifiers limit served → (c : ℕ) → is_absent (fate_at served.clients.fates c) ≡ true → c < connections }
    ensures opened { (connections verifiers : ℕ) (limit : Option Duration) (served : Served) → (is : HasServed connections verifiers limit served) → (c m : ℕ) (messages : List Message) (rest : List ℕ) → c < connections → m < module_count → Cut (is.is.texts c) messages rest → is_opened messages m ≡ true → get_or served.report.holders m None ≢ None }
    ensures endless { (connections verifiers : ℕ) (served : Served) → HasServed connections verifiers None served → (c : ℕ) → fate_at served.clients.fates c ≢ CutOff }
    ensures waited { (connections verifiers : ℕ) (served : Served) → HasServed connections verifiers None served → (c : ℕ) → fate_at served.clients.fates c ≢ Absent NotCome }
    ensures judged { (connections verifiers : ℕ) (limit : Option Duration) (served : Served) → HasServed connections verifiers limit served → verifiers_of served.report ≡ verifiers }
    ensures limited { (connections verifiers : ℕ) (limit : Option Duration) (served : Served) → HasServed connections verifiers limit served → served.clients.limit ≡ limit }
{}

/// A module that the text of an input opens is some connection's, where the input came to its end. Where an input ended for want
/// of memory, what was heard of it ends with the header of a page; where a read failed, it is what had come before.
pub fn opened_modules_are_loaded()
    ensures opened { (connections verifiers : ℕ) (texts : ℕ → List ℕ) (report : Report) → (is : IsLoaded connections verifiers texts report) → (c m : ℕ) (messages : List Message) (rest : List ℕ) → c < connections → m < module_count → is.causes c ≡ End → Cut (texts c) messages rest → is_opened messages m ≡ true → get_or report.holders m None ≢ None }
    ensures starved { (connections verifiers : ℕ) (texts : ℕ → List ℕ) (report : Report) → (is : IsLoaded connections verifiers texts report) → (c : ℕ) → c < connections → is.causes c ≡ Starved → AsksMemory (is.claims c) (is.heard c) }
    ensures failed { (connections verifiers : ℕ) (texts : ℕ → List ℕ) (report : Report) → (is : IsLoaded connections verifiers texts report) → (c : ℕ) → c < connections → is.causes c ≡ Failed → (rest : List ℕ) × (texts c ≡ is.heard c ++ rest) }
    ensures judged { (connections verifiers : ℕ) (texts : ℕ → List ℕ) (report : Report) → IsLoaded connections verifiers texts report → verifiers_of report ≡ verifiers }
{}

/// Strays are told up to 2^64 - 1, of each connection and of all together.
pub fn strays_are_counted()
    ensures each { (connections verifiers : ℕ) (texts : ℕ → List ℕ) (report : Report) → (is : IsLoaded connections verifiers texts report) → (c : ℕ) → c < connections → slice_index report.connection_strays c ≡ min (slice_index is.reports.strays c) (2 ^ 64 - 1) }
    ensures all { (connections verifiers : ℕ) (texts : ℕ → List ℕ) (report : Report) → (is : IsLoaded connections verifiers texts report) → report.strays ≡ min (sum is.reports.strays) (2 ^ 64 - 1) }
{}

/// A sequencer that finds its module refused, or at its end, tells the board so by one call.
pub fn ends_are_told_to_the_board()
    ensures refused { (old new : SequencerSeat) → turns.TellsBoard notice.Nothing notice.Refused old new → (answer : Change) × Changed (known_by_sequencer old) (known_by_sequencer new) (module_of old) (number_of phase.Refused) answer }
    ensures finished { (old new : SequencerSeat) → turns.TellsBoard notice.Nothing notice.Finished old new → (answer : Change) × Changed (known_by_sequencer old) (known_by_sequencer new) (module_of old) (number_of phase.Done) answer }
{}

/// Where a module isn't packed to its end, what was written of it isn't the whole.
pub fn packed_parts_are_not_whole()
    ensures { (number : ℕ) (extent : ExtentView) (old new : Option (List ℕ)) → (part : PacksPart number extent old new) → (front rest : List ℕ) × (part.text ≡ front ++ rest) × (0 < length rest) × Appends old new front }
{}

/// What a receiver hears of a packed module begins with its Open, has the words of its code, and ends by its Close.
pub fn packed_modules_are_heard_whole()
    ensures opened { (packed : PackedView) (items : List ItemView) → IsHeard packed items → (later : List ItemView) × (items ≡ item_of packed.number 0 packed.extent Open ∷ later) }
    ensures words { (packed : PackedView) (items : List ItemView) → IsHeard packed items → all_words (pages_of items) ≡ words_of packed.code }
    ensures ended { (packed : PackedView) (items : List ItemView) → IsHeard packed items → end_of items ≡ Some Close }
{}

/// Receivers and sequencers of a new stage share one pool of pages, and its verifiers and sequencers have taken nothing.
pub fn new_parts_share_a_pool()
    ensures shared { (receivers verifiers : ℕ) (stage : Stage) → IsNew receivers verifiers stage → (c m : ℕ) (r : Receiver) (s : Sequencer) → slice_get stage.parts.receivers.items c ≡ Some r → slice_get stage.parts.sequencers.items m ≡ Some s → (member_of r).pool ≡ (turns.member_of s).pool }
    ensures judging { (receivers verifiers : ℕ) (stage : Stage) → IsNew receivers verifiers stage → (k : ℕ) (v : Verifier) → slice_get stage.parts.verifiers.items k ≡ Some v → (take_pass_of v).items ≡ [] }
    ensures placing { (receivers verifiers : ℕ) (stage : Stage) → IsNew receivers verifiers stage → (m : ℕ) (s : Sequencer) → slice_get stage.parts.sequencers.items m ≡ Some s → (turns.lane_pass_of s).items ≡ [] }
{}

/// What is due of a connection after its end becomes less by each put, so it comes to its end. All verifiers that come back have ended after all
/// receivers had.
pub fn threads_come_to_their_end()
    ensures less { (old new : Receiver) (used : ℕ) → AfterEnd old new used receiver_turn.Put → due_of new < due_of old }
    ensures ended { (shared : Shared) (count verifiers : ℕ) (had : ℕ → Option (List ℕ)) (parts : Parts) → AreBack shared count verifiers had parts → (k : ℕ) (v : Verifier) → slice_get parts.verifiers.items k ≡ Some v → HasEnded shared v }
{}

/// A read is told as failed only where the reader has answered an error; where no read is, it has answered none since.
pub fn failed_reads_have_failed()
    ensures failed { (before after : Bool) → FailsAs (Some Failed) before after → after ≡ true }
    ensures none { (before after : Bool) → FailsAs None before after → after ≡ before }
    ensures ended { (before after : Bool) → FailsAs (Some End) before after → after ≡ before }
    ensures starved { (before after : Bool) → FailsAs (Some Starved) before after → after ≡ before }
{}
