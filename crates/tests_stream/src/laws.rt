//! What `read_image` promises, read from its definitions: where a part of one is dropped, a law here isn't proved any more.

ghost use Rattle.std.specs.Prelude.{◌≡◌, ◌+◌, ◌*◌, ◌<◌, ℕ, List, drop, length, Option, Some, None};
ghost use Rattle.a64_word.specs.Words.{words_of};
ghost use Rattle.lfi_module.specs.declared.profile.Profile.{Profile};
ghost use Rattle.lfi_rules.specs.Faults.{FirstFault};
ghost use Rattle.lfi_rules.specs.declared.fault.Fault.{Fault};
ghost use Rattle.lfi_image_file.specs.declared.fault.ImageFault.TheVariants.{Truncated, More, Unlawful};
ghost use Rattle.lfi_image_file.specs.Reading.{count_in, page_end, whole_pages, IsCodeFault, IsRestUnread};

/// A file that is cut, or longer than its code, has no fault in the pages that are there. After an unlawful page all that
/// follows this page is left.
pub fn pages_are_judged_before_the_end()
    ensures cut { (profile : Profile) (n : ℕ) (code : List ℕ) → IsCodeFault profile n code Truncated → FirstFault profile (words_of (whole_pages n code)) n None × (length code < 4 * n) }
    ensures more { (profile : Profile) (n : ℕ) (code : List ℕ) → IsCodeFault profile n code More → FirstFault profile (words_of (whole_pages n code)) n None × (4 * n < length code) }
    ensures left { (bytes : List ℕ) (left : Option (List ℕ)) (fault : Fault) → IsRestUnread bytes left (Unlawful fault) → left ≡ Some (drop (24 + page_end (count_in bytes) fault.word) bytes) }
{}
