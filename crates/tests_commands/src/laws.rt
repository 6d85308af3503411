//! What the commands promise, read from the records of their contracts: where one of these fields is dropped, a law here isn't
//! proved any more.

ghost use Rattle.std.specs.Prelude.{◌≡◌, ◌≢◌, ◌≤◌, ◌↔◌, ℕ, true, false, nat_lt, List, [], ◌∷◌, ◌++◌, Option, Some, None, codes, map, length};
ghost use Rattle.std.specs.Io.KnownBytes.{Appends, Keeps};
ghost use Rattle.a64_word.specs.Words.{words_of};
ghost use Rattle.a64_semantics.specs.declared.registers.Registers.{Registers};
ghost use Rattle.sparse_memory.specs.Kept.{byte_at};
ghost use Rattle.lfi_check.specs.declared.verdict.Verdict.TheVariants as verdicts;
ghost use Rattle.lfi_check.specs.Checking.{Checks, IsCode, verdict_text};
ghost use Rattle.lfi_explain.specs.Listings.{WritesListing};
ghost use Rattle.lfi_image.specs.Image.{Image};
ghost use Rattle.lfi_image_file.specs.declared.fault.ImageFault.{ImageFault};
ghost use Rattle.lfi_image_file.specs.Files.{FileOf};
ghost use Rattle.lfi_image_file.specs.Reading.{IsFault};
ghost use Rattle.lfi_confinement.specs.Runs.{Reach, Escaped};
ghost use Rattle.lfi_machine.specs.declared.runtime.Answer.TheVariants.{End};
ghost use Rattle.lfi_machine.specs.declared.halt.Halt.{Halt};
ghost use Rattle.lfi_machine.specs.declared.halt.Halt.TheVariants.{StepsUsed};
ghost use Rattle.lfi_machine.specs.Starts.{start_of};
ghost use Rattle.lfi_machine.specs.Runs.{Config, RanThenHalts, state};
ghost use Rattle.lfi_run_image.specs.declared.image_run.ImageRun.TheVariants.{Refused, Ended};
ghost use Rattle.lfi_run_image.specs.declared.service.Service.TheVariants.{Print};
ghost use Rattle.lfi_run_image.specs.Serving.{serves, Serves};
ghost use Rattle.lfi_model.specs.Texts.{summary_text};
ghost use Rattle.lfi_stage.specs.declared.settlement.Report.{Report};
ghost use Rattle.lfi_stage.specs.Summaries.{summary_of};
ghost use Rattle.lfi_sync.specs.Fates.{fate_at, is_out_of_time};
ghost use Rattle.lfi_loader.specs.declared.serve.Served.{Served};
ghost use Rattle.lfi_loader.specs.Loaded.{IsLoaded};
ghost use Rattle.lfi_command_line.specs.declared.options.CheckOptions.{CheckOptions};
ghost use Rattle.lfi_command_line.specs.declared.options.DisassembleOptions.{DisassembleOptions};
ghost use Rattle.lfi_command_line.specs.declared.options.Format.{Format};
ghost use Rattle.lfi_command_line.specs.declared.options.LoadOptions.{LoadOptions};
ghost use Rattle.lfi_command_line.specs.declared.options.PackOptions.{PackOptions};
ghost use Rattle.lfi_command_line.specs.declared.options.ReportOptions.{ReportOptions};
ghost use Rattle.lfi_command_line.specs.declared.options.ServeOptions.{ServeOptions};
ghost use Rattle.lfi_file_commands.specs.declared.ending.Ending.{Ending};
ghost use Rattle.lfi_file_commands.specs.declared.ending.Ending.TheVariants.{Well};
ghost use Rattle.lfi_file_commands.specs.declared.finding.Finding.TheVariants as findings;
ghost use Rattle.lfi_file_commands.specs.Explaining.{HasJudged, HasJudgedObject};
ghost use Rattle.lfi_file_commands.specs.Images.{asked_images, folder_or_none, image_file, WritesImages};
ghost use Rattle.lfi_file_commands.specs.Info.{most_told, HasTold, IsShortInfo};
ghost use Rattle.lfi_file_commands.specs.Json.{file_object, IsFindingText};
ghost use Rattle.lfi_file_commands.specs.Kinds.{file_kind, kind_note};
ghost use Rattle.lfi_file_commands.specs.Left.{Left};
ghost use Rattle.lfi_file_commands.specs.Listing.{listed_text, marks_by, HasListed};
ghost use Rattle.lfi_file_commands.specs.Packing.{codes_of, HasPacked, WritesStream};
ghost use Rattle.lfi_file_commands.specs.Running.{told_of_run, HasRun};
ghost use Rattle.lfi_file_commands.specs.Unpacking.{HasUnpacked};
ghost use Rattle.lfi_commands.specs.Clients.{fate_lines, read_lines};
ghost use Rattle.lfi_commands.specs.Explained.{TellsExplained};
ghost use Rattle.lfi_commands.specs.Loading.{folder_of, streams_of, AreKnown, HasLoaded, TellsObject, TellsReport};
ghost use Rattle.lfi_commands.specs.Objects.{Sources, TellModules};
ghost use Rattle.lfi_commands.specs.Serving.{HasServedAll, TellsServed};

/// Of an image that `run` ran no run from its start escapes, in any number of steps and whatever the runtime answers. Its words stay.
pub fn runs_are_confined()
    ensures confined { (bytes : List ℕ) (steps : ℕ) (format : Format) (old new : Left) (ending : Ending) → (is : HasRun (Some bytes) steps format old new ending) → (halt : Halt) (count : ℕ) → is.run ≡ Ended halt count → (image : Image) × FileOf image bytes × (start : Config) × (start.registers ≡ start_of image) × (start.owned.image ≡ image) × ((at : ℕ) → byte_at start.owned.kept at ≡ 0) × ((n : ℕ) → Reach start.owned.image (state start) n Escaped → ⊥) }
    ensures ran { (bytes : List ℕ) (steps : ℕ) (format : Format) (old new : Left) (ending : Ending) → (is : HasRun (Some bytes) steps format old new ending) → (halt : Halt) (count : ℕ) → is.run ≡ Ended halt count → (image : Image) × FileOf image bytes × (start last : Config) × (start.registers ≡ start_of image) × RanThenHalts serves start old.out halt count last new.out × (last.owned.image ≡ image) × (count ≤ steps) × ((halt ≡ StepsUsed) ↔ (count ≡ steps)) }
    ensures refused { (bytes : List ℕ) (steps : ℕ) (format : Format) (old new : Left) (ending : Ending) → (is : HasRun (Some bytes) steps format old new ending) → (fault : ImageFault) → is.run ≡ Refused fault → IsFault bytes fault × (new.out ≡ old.out) }
    ensures told { (bytes : List ℕ) (steps : ℕ) (format : Format) (old new : Left) (ending : Ending) → (is : HasRun (Some bytes) steps format old new ending) → new.is_lost ≡ false → Appends old.errors new.errors (told_of_run format is.run) × (new.put ≡ old.put) }
{}

/// Where `check` ends well of a file by itself, its code is lawful, its line or object says so, and nothing else was written or put.
pub fn lawful_code_is_told_lawful()
    ensures line { (asked : CheckOptions) (path bytes : List ℕ) (old new : Left) → HasJudged [] asked path (Some bytes) old new Well → (words : ℕ) × Checks asked.profile bytes (verdicts.Lawful words) × Appends old.out new.out (verdict_text (verdicts.Lawful words) ++ codes "\n") × (new.errors ≡ old.errors) × (new.put ≡ old.put) }
    ensures object { (asked : CheckOptions) (before : ℕ) (path bytes : List ℕ) (old new : Left) → HasJudgedObject asked before path (Some bytes) old new Well → (words : ℕ) × (told : List ℕ) × Checks asked.profile bytes (verdicts.Lawful words) × IsFindingText asked.profile asked.explain (Some bytes) (findings.Lawful words) told × Appends old.out new.out (file_object before path asked.profile told) × (new.errors ≡ old.errors) × (new.put ≡ old.put) }
{}

/// Where all images of a load were put, their files stand behind those that were there, each whole and in order.
pub fn images_are_put()
    ensures { (folder : List ℕ) (images : List Image) (old new : Left) (there : List (List ℕ × List ℕ)) → WritesImages folder images old new true → old.put ≡ Some there → new.put ≡ Some (there ++ map (image_file folder) images) }
{}

/// `load` of files whose bytes are known tells a report on these bytes, in lines or as an object. Where it ends well, all images that were
/// asked for were put, and of each read that failed it was told.
pub fn loads_tell_their_report()
    ensures loaded { (asked : LoadOptions) (file_at : List ℕ → Option (List ℕ)) (old new : Left) (ending : Ending) → (is : HasLoaded asked file_at old new ending) → (bytes : ℕ → List ℕ) → AreKnown (map file_at (streams_of asked)) bytes → IsLoaded (length asked.streams.items) asked.verifiers bytes is.report }
    ensures lines { (report : Report) (sources : Sources) (asked : ReportOptions) (old new : Left) (ending : Ending) → TellsReport report sources asked old new ending → (explained : List ℕ) × TellsExplained asked.explain report sources.paths explained × Appends old.out new.out (summary_text (summary_of report) ++ explained) }
    ensures images { (report : Report) (sources : Sources) (asked : ReportOptions) (old new : Left) (there : List (List ℕ × List ℕ)) → TellsReport report sources asked old new Well → old.put ≡ Some there → new.put ≡ Some (there ++ map (image_file (folder_or_none (folder_of asked))) (asked_images (folder_of asked) report.modules)) }
    ensures told { (report : Report) (sources : Sources) (asked : ReportOptions) (old new : Left) → TellsReport report sources asked old new Well → new.is_lost ≡ false → Appends old.errors new.errors (read_lines report.faults sources.kinds) }
    ensures object { (report : Report) (sources : Sources) (asked : ReportOptions) (old new : Left) (there : List (List ℕ × List ℕ)) → TellsObject report sources asked old new Well → old.put ≡ Some there → (modules rest : List ℕ) × TellModules asked.explain report.holders 0 report.modules modules × Appends old.out new.out (codes "{\"modules\":[" ++ modules ++ rest) × (new.put ≡ Some (there ++ map (image_file (folder_or_none (folder_of asked))) (asked_images (folder_of asked) report.modules))) × (new.is_lost ≡ false → Appends old.errors new.errors (read_lines report.faults sources.kinds)) }
{}

/// `serve` without a limit of time cuts no client off. It tells what became of the clients, and writes and puts nothing more than what a load does.
pub fn served_clients_are_told()
    ensures endless { (asked : ServeOptions) (old new : Left) (ending : Ending) → (is : HasServedAll asked old new ending) → asked.seconds ≡ None → (c : ℕ) → is_out_of_time (fate_at is.found.clients.fates c) ≡ false }
    ensures told { (connections : ℕ) (served : Served) (asked : ReportOptions) (old new : Left) (ending : Ending) → (is : TellsServed connections served asked old new ending) → new.is_lost ≡ false → (is.before.is_lost ≡ false) × Appends is.before.errors new.errors (fate_lines served.clients.fates) × (new.out ≡ is.before.out) × (new.put ≡ is.before.put) }
{}

/// `disassemble`, `pack` and `info` put no file. Where `disassemble` ends well, it has listed the words of the file, and what it tells of the
/// file, it tells. `info` of a file by itself writes what the file is, and tells nothing.
pub fn no_file_is_put()
    ensures listed { (asked : DisassembleOptions) (bytes : List ℕ) (old new : Left) → (is : HasListed asked (Some bytes) old new Well) → (code : List ℕ) × (bytes ≡ code) × IsCode code × WritesListing (marks_by asked.marks) asked.profile (words_of code) 0 old.out new.out × (new.put ≡ old.put) }
    ensures told { (asked : DisassembleOptions) (bytes : List ℕ) (old new : Left) (ending : Ending) → (is : HasListed asked (Some bytes) old new ending) → new.is_lost ≡ false → Appends old.errors new.errors (listed_text asked.file.now is.listed) }
    ensures packed { (asked : PackOptions) (file_at : List ℕ → Option (List ℕ)) (old new : Left) (ending : Ending) → HasPacked asked file_at old new ending → new.put ≡ old.put }
    ensures informed { (bytes : List ℕ) (old new : Left) (ending : Ending) → (is : HasTold [] (Some bytes) old new ending) → IsShortInfo (nat_lt most_told (length bytes)) bytes is.text ending × Appends old.out new.out is.text × (new.put ≡ old.put) × (new.errors ≡ old.errors) }
{}

/// `pack` of one file, where it ends well, wrote a stream of its code alone, and told what kind of file it begins as.
pub fn one_file_is_packed()
    ensures { (asked : PackOptions) (path code : List ℕ) (file_at : List ℕ → Option (List ℕ)) (old new : Left) → codes_of asked ≡ path ∷ [] → file_at path ≡ Some code → HasPacked asked file_at old new Well → WritesStream asked (code ∷ []) old.out new.out × Appends old.errors new.errors (kind_note path (file_kind code)) }
{}

/// Where `unpack` doesn't end well of a file, the file has a fault, and nothing was written or put.
pub fn no_image_is_unpacked()
    ensures { (bytes : List ℕ) (old new : Left) (ending : Ending) → ending ≢ Well → HasUnpacked (Some bytes) old new ending → (fault : ImageFault) × IsFault bytes fault × (new.out ≡ old.out) × (new.put ≡ old.put) }
{}

/// Where the runtime ends a run that wants to print, the byte could not be written: the status is 255, and the output as it was.
pub fn unwritten_bytes_end_a_run()
    ensures { (r : Registers) (old new : Option (List ℕ)) (status : ℕ) → Serves Print r old (End status) new → (status ≡ 255) × Keeps old new }
{}
