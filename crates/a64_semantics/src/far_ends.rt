//! What the definitions come to at their far ends.

ghost use Rattle.std.specs.Prelude.{◌≡◌, ◌+◌, ◌-◌, ◌^◌, pos, negsuc};
ghost use Rattle.a64_semantics.specs.Results.{pc_relative};
ghost use Rattle.a64_semantics.specs.FarEnds.{adr, adrp};

/// How far ADR and ADRP reach, by their least and their greatest immediate: 2^20 bytes down and one less up, from pc; as many
/// pages, from the page of pc. Both go on from the last address to 0.
pub fn addresses_at_the_far_ends()
    ensures adr_least { pc_relative (adr (negsuc 1048575)) (2 ^ 32) ≡ 2 ^ 32 - 1048576 }
    ensures adr_greatest { pc_relative (adr (pos 1048575)) (2 ^ 32) ≡ 2 ^ 32 + 1048575 }
    ensures adr_below_zero { pc_relative (adr (negsuc 1048575)) 0 ≡ 2 ^ 64 - 1048576 }
    ensures adr_past_the_last { pc_relative (adr (pos 1048575)) (2 ^ 64 - 4) ≡ 1048571 }
    ensures adrp_least { pc_relative (adrp (negsuc 1048575)) (2 ^ 33 + 4092) ≡ 2 ^ 32 }
    ensures adrp_greatest { pc_relative (adrp (pos 1048575)) (2 ^ 32 + 4092) ≡ 2 ^ 33 - 4096 }
    ensures adrp_below_zero { pc_relative (adrp (negsuc 1048575)) 4092 ≡ 2 ^ 64 - 2 ^ 32 }
    ensures adrp_past_the_last { pc_relative (adrp (pos 1048575)) (2 ^ 64 - 4) ≡ 2 ^ 32 - 8192 }
{}
