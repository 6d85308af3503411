//! What the definitions come to at the edges of slots, guards, table and code.

ghost use Rattle.std.specs.Prelude.{◌≡◌, ℕ, ◌+◌, ◌-◌, ◌*◌, ◌^◌, ◌<◌, false, pos, negsuc, ◌∷◌, map, replicate, Some, None};
ghost use Rattle.lfi_image.specs.Image.{Image};
ghost use Rattle.a64_word.specs.declared.instruction.Instruction.{Instruction};
ghost use Rattle.a64_word.specs.declared.instruction.Instruction.TheVariants.{Nop};
ghost use Rattle.a64_word.specs.declared.operands.Size.TheVariants.{Byte, Half, Double};
ghost use Rattle.a64_word.specs.declared.operands.BranchKind.TheVariants.{Br, Blr, Ret};
ghost use Rattle.a64_word.specs.Bytes.{number_at};
ghost use Rattle.a64_semantics.specs.declared.registers.Registers.{Registers};
ghost use Rattle.a64_semantics.specs.Registers.{x_at};
ghost use Rattle.lfi_module.specs.Numbers.{base_of, module_count, most_words};
ghost use Rattle.lfi_rules.specs.Map.{entry_count};
ghost use Rattle.lfi_confinement.specs.Slots.{base, is_guarded, entry_address, entry_at, word_place, data_offset, Readable, Writable, NoAccess, permission_in, byte_in, memory_of};
ghost use Rattle.lfi_confinement.specs.Moves.{word_at, performed, given, stop, ask, escape, State, Moves};
ghost use Rattle.lfi_confinement.specs.Lawful.{Held};
ghost use Rattle.lfi_confinement.specs.Runs.{Outcome, Running, Escaped, Leads, Step, Reach, NeverEscapes};
ghost use Rattle.lfi_confinement.specs.declared.cause.StopCause.TheVariants as cause;
ghost use Rattle.lfi_confinement.specs.Edges.{edge_image, with_x0, loads_at_x0, loads_pair_at_x0, stores_at_x0, stores_pair_at_x0, with_x30, goes_to, with_pc, branches_by, goes_on_at};

/// What an escape is, by rows: a byte that is accessed just outside of the guards of slot 0, and a pc just outside of the slot.
/// In a guard the machine stops. A run whose step is an escape has escaped: so code that isn't lawful can.
pub fn escapes_at_the_edges()
    ensures below { performed edge_image (with_x0 (2 ^ 32 - 65537)) (loads_at_x0 Byte) ≡ escape }
    ensures low_guard { performed edge_image (with_x0 (2 ^ 32 - 65536)) (loads_at_x0 Byte) ≡ stop (cause.NoAccess (2 ^ 32 - 65536)) }
    ensures high_guard { performed edge_image (with_x0 (2 ^ 33 + 65535)) (loads_at_x0 Byte) ≡ stop (cause.NoAccess (2 ^ 33 + 65535)) }
    ensures above { performed edge_image (with_x0 (2 ^ 33 + 65536)) (loads_at_x0 Byte) ≡ escape }
    ensures left_below { performed edge_image (with_x0 (2 ^ 32 - 1)) (goes_to Br 0) ≡ escape }
    ensures left_above { performed edge_image (with_x0 (2 ^ 33)) (goes_to Br 0) ≡ escape }
    ensures reached { (c : Image) (s : State) → Moves c s escape → Reach c s 1 Escaped }
{}

/// What a run is, so that one that never escapes is one of any number of steps: it begins where it is, each step that may follow
/// it makes one of one step more, and whatever lawful registers and bytes the runtime answers may follow a call of it.
pub fn runs_are_made_of_steps()
    ensures begins { (c : Image) (s : State) → Reach c s 0 (Running s) }
    ensures steps { (c : Image) (s : State) (mid : State) (count : ℕ) (t : Outcome) → Reach c s count (Running mid) → Step c mid t → Reach c s (count + 1) t }
    ensures answered { (c : Image) (s : State) (entry : ℕ) (given : Registers) (t : State) → Held (base c) t.registers → Leads c s (ask entry given) (Running t) }
    ensures never { (c : Image) (s : State) (count : ℕ) → Reach c s count Escaped → NeverEscapes c s → ⊥ }
{}

/// Of several bytes each counts: an access escapes where one of its bytes lies outside of the guards, and stops at the first that
/// lies in a guard.
pub fn wide_escapes_at_the_edges()
    ensures half_from_below { performed edge_image (with_x0 (2 ^ 32 - 65537)) (loads_at_x0 Half) ≡ escape }
    ensures half_in_the_low_guard { performed edge_image (with_x0 (2 ^ 32 - 65536)) (loads_at_x0 Half) ≡ stop (cause.NoAccess (2 ^ 32 - 65536)) }
    ensures half_in_the_high_guard { performed edge_image (with_x0 (2 ^ 33 + 65534)) (loads_at_x0 Half) ≡ stop (cause.NoAccess (2 ^ 33 + 65534)) }
    ensures half_out_above { performed edge_image (with_x0 (2 ^ 33 + 65535)) (loads_at_x0 Half) ≡ escape }
    ensures double_from_below { performed edge_image (with_x0 (2 ^ 32 - 65543)) (loads_at_x0 Double) ≡ escape }
    ensures double_into_the_slot { performed edge_image (with_x0 (2 ^ 32 - 4)) (loads_at_x0 Double) ≡ stop (cause.NoAccess (2 ^ 32 - 4)) }
    ensures double_out_of_the_slot { performed edge_image (with_x0 (2 ^ 33 - 4)) (loads_at_x0 Double) ≡ stop (cause.NoAccess (2 ^ 33)) }
    ensures double_in_the_high_guard { performed edge_image (with_x0 (2 ^ 33 + 65528)) (loads_at_x0 Double) ≡ stop (cause.NoAccess (2 ^ 33 + 65528)) }
    ensures double_out_above { performed edge_image (with_x0 (2 ^ 33 + 65529)) (loads_at_x0 Double) ≡ escape }
    ensures pair_in_the_high_guard { performed edge_image (with_x0 (2 ^ 33 + 65520)) loads_pair_at_x0 ≡ stop (cause.NoAccess (2 ^ 33 + 65520)) }
    ensures pair_out_above { performed edge_image (with_x0 (2 ^ 33 + 65521)) loads_pair_at_x0 ≡ escape }
{}

/// A store escapes just outside of the guards, as a load does, and stops in them.
pub fn stores_escape_at_the_edges()
    ensures below { map (performed edge_image (with_x0 (2 ^ 32 - 65537))) stores_at_x0 ≡ replicate 4 escape }
    ensures low_guard { map (performed edge_image (with_x0 (2 ^ 32 - 65536))) stores_at_x0 ≡ replicate 4 (stop (cause.NoAccess (2 ^ 32 - 65536))) }
    ensures high_guard { map (performed edge_image (with_x0 (2 ^ 33 + 65535))) stores_at_x0 ≡ replicate 4 (stop (cause.NoAccess (2 ^ 33 + 65535))) }
    ensures above { map (performed edge_image (with_x0 (2 ^ 33 + 65536))) stores_at_x0 ≡ replicate 4 escape }
    ensures pair_from_below { performed edge_image (with_x0 (2 ^ 32 - 65537)) stores_pair_at_x0 ≡ escape }
    ensures pair_in_the_low_guard { performed edge_image (with_x0 (2 ^ 32 - 65536)) stores_pair_at_x0 ≡ stop (cause.NoAccess (2 ^ 32 - 65536)) }
    ensures pair_in_the_high_guard { performed edge_image (with_x0 (2 ^ 33 + 65520)) stores_pair_at_x0 ≡ stop (cause.NoAccess (2 ^ 33 + 65520)) }
    ensures pair_out_above { performed edge_image (with_x0 (2 ^ 33 + 65521)) stores_pair_at_x0 ≡ escape }
{}

/// A direct branch of each kind escapes where it leaves the slot by a word, and goes on within it. So does what goes on with the
/// next word, an access too.
pub fn direct_branches_escape_at_the_edges()
    ensures left_below { map (performed edge_image (with_pc (2 ^ 32))) (branches_by (negsuc 0)) ≡ replicate 7 escape }
    ensures first_word { map goes_on_at (map (performed edge_image (with_pc (2 ^ 32 + 4))) (branches_by (negsuc 0))) ≡ replicate 7 (Some (2 ^ 32)) }
    ensures last_word { map goes_on_at (map (performed edge_image (with_pc (2 ^ 33 - 8))) (branches_by (pos 1))) ≡ replicate 7 (Some (2 ^ 33 - 4)) }
    ensures left_above { map (performed edge_image (with_pc (2 ^ 33 - 4))) (branches_by (pos 1)) ≡ replicate 7 escape }
    ensures next_within { map goes_on_at (map (performed edge_image (with_pc (2 ^ 33 - 8))) (Nop ∷ loads_at_x0 Byte ∷ stores_at_x0)) ≡ replicate 6 (Some (2 ^ 33 - 4)) }
    ensures next_above { map (performed edge_image (with_pc (2 ^ 33 - 4))) (Nop ∷ loads_at_x0 Byte ∷ stores_at_x0) ≡ replicate 6 escape }
{}

/// The table holds the address of each entry of the runtime, which is called there; and there is no other entry.
pub fn entries_stand_in_the_table()
    ensures held { (c : Image) (data_at : ℕ → ℕ) (j : ℕ) → j < entry_count → number_at (memory_of c data_at) 8 (base c + 8 * j) ≡ entry_address j }
    ensures called { (j : ℕ) → j < entry_count → entry_at (entry_address j) ≡ Some j }
    ensures below { entry_at (2 ^ 40 - 16) ≡ None }
    ensures first { entry_at (2 ^ 40) ≡ Some 0 }
    ensures within_the_first { entry_at (2 ^ 40 + 8) ≡ None }
    ensures number_257 { entry_at (2 ^ 40 + 4112) ≡ Some 257 }
    ensures last { entry_at (2 ^ 40 + 8176) ≡ Some 511 }
    ensures above { entry_at (2 ^ 40 + 8192) ≡ None }
    ensures first_in_the_table { number_at (memory_of edge_image (λ offset. 7)) 8 (2 ^ 32) ≡ 2 ^ 40 }
    ensures number_257_in_the_table { number_at (memory_of edge_image (λ offset. 7)) 8 (2 ^ 32 + 2056) ≡ 2 ^ 40 + 4112 }
    ensures last_in_the_table { number_at (memory_of edge_image (λ offset. 7)) 8 (2 ^ 32 + 4088) ≡ 2 ^ 40 + 8176 }
    ensures table_ends { permission_in 1 4095 ≡ Readable }
    ensures nothing_after { permission_in 1 4096 ≡ NoAccess }
{}

/// An entry is called by BLR X30 alone, with its address in x30: every other branch there leaves the slot. What the runtime gets
/// goes on after the call.
pub fn entries_are_called_by_x30()
    ensures called { performed edge_image (with_x30 (2 ^ 40 + 4112)) (goes_to Blr 30) ≡ ask 257 (given (with_x30 (2 ^ 40 + 4112)).registers) }
    ensures without_link { performed edge_image (with_x30 (2 ^ 40 + 4112)) (goes_to Br 30) ≡ escape }
    ensures returned { performed edge_image (with_x30 (2 ^ 40 + 4112)) (goes_to Ret 30) ≡ escape }
    ensures by_another_register { performed edge_image (with_x0 (2 ^ 40 + 4112)) (goes_to Blr 0) ≡ escape }
    ensures within_an_entry { performed edge_image (with_x30 (2 ^ 40 + 4120)) (goes_to Blr 30) ≡ escape }
    ensures past_the_last { performed edge_image (with_x30 (2 ^ 40 + 8192)) (goes_to Blr 30) ≡ escape }
    ensures given_link { x_at (given (with_x30 (2 ^ 40)).registers) 30 ≡ 2 ^ 32 + 65540 }
    ensures given_pc { (given (with_x30 (2 ^ 40)).registers).pc ≡ 2 ^ 32 + 65540 }
{}

/// No entry's address lies in a slot or in one of its guards.
pub fn entries_lie_outside()
    ensures { (j m : ℕ) → j < entry_count → m < module_count → is_guarded (base_of m) (entry_address j) 1 ≡ false }
{}

/// Where the code ends, in modules of 1,023, 1,024 and 1,025 words: what follows it up to a multiple of 4,096 bytes may be read,
/// and is 0; then come the data.
pub fn code_ends_within_a_page()
    ensures before_the_code { permission_in 1023 65535 ≡ NoAccess }
    ensures begins { permission_in 1023 65536 ≡ Readable }
    ensures last_of_1023 { permission_in 1023 69627 ≡ Readable }
    ensures after_1023 { permission_in 1023 69628 ≡ Readable }
    ensures page_of_1023 { permission_in 1023 69631 ≡ Readable }
    ensures data_of_1023 { permission_in 1023 69632 ≡ Writable }
    ensures last_of_1024 { permission_in 1024 69631 ≡ Readable }
    ensures data_of_1024 { permission_in 1024 69632 ≡ Writable }
    ensures last_of_1025 { permission_in 1025 69635 ≡ Readable }
    ensures after_1025 { permission_in 1025 69636 ≡ Readable }
    ensures page_of_1025 { permission_in 1025 73727 ≡ Readable }
    ensures data_of_1025 { permission_in 1025 73728 ≡ Writable }
    ensures data_of_the_most { data_offset most_words ≡ 65536 + 16777216 }
    ensures slot_ends { permission_in 1 (2 ^ 32 - 1) ≡ Writable }
    ensures after_the_slot { permission_in 1 (2 ^ 32) ≡ NoAccess }
    ensures last_byte { byte_in edge_image (λ offset. 7) 65539 ≡ 0xD5 }
    ensures byte_after { byte_in edge_image (λ offset. 7) 65540 ≡ 0 }
    ensures byte_before_the_data { byte_in edge_image (λ offset. 7) 69631 ≡ 0 }
    ensures byte_of_the_data { byte_in edge_image (λ offset. 7) 69632 ≡ 7 }
{}

/// Which addresses of slot 0 words begin at, in modules of 1,023, 1,024 and 1,025 words: every fourth of the code, and no other.
pub fn words_stand_in_the_code()
    ensures before { word_place (2 ^ 32) 1023 (2 ^ 32 + 65532) ≡ None }
    ensures first { word_place (2 ^ 32) 1023 (2 ^ 32 + 65536) ≡ Some 0 }
    ensures within_the_first { word_place (2 ^ 32) 1023 (2 ^ 32 + 65538) ≡ None }
    ensures last_of_1023 { word_place (2 ^ 32) 1023 (2 ^ 32 + 69624) ≡ Some 1022 }
    ensures after_1023 { word_place (2 ^ 32) 1023 (2 ^ 32 + 69628) ≡ None }
    ensures last_of_1024 { word_place (2 ^ 32) 1024 (2 ^ 32 + 69628) ≡ Some 1023 }
    ensures after_1024 { word_place (2 ^ 32) 1024 (2 ^ 32 + 69632) ≡ None }
    ensures last_of_1025 { word_place (2 ^ 32) 1025 (2 ^ 32 + 69632) ≡ Some 1024 }
    ensures within_the_last { word_place (2 ^ 32) 1025 (2 ^ 32 + 69634) ≡ None }
    ensures after_1025 { word_place (2 ^ 32) 1025 (2 ^ 32 + 69636) ≡ None }
    ensures fetched { word_at edge_image (2 ^ 32 + 65536) ≡ Some 0xD503201F }
    ensures none_after { word_at edge_image (2 ^ 32 + 65540) ≡ None }
{}
