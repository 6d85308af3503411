//! Laws of packed modules.

ghost use Rattle.std.specs.Prelude.{◌≡◌, ℕ, Bool, List, [], None};
ghost use Rattle.lfi_model.specs.Item.{ItemView};
ghost use Rattle.lfi_model.specs.declared.connection.EndCause.TheVariants.{End};
ghost use Rattle.lfi_module.specs.declared.profile.Profile.{Profile};
ghost use Rattle.lfi_model.specs.Items.{ItemsOf};
ghost use Rattle.lfi_model.specs.Modules.{Member};
ghost use Rattle.lfi_pack.specs.Heard.{PackedView, IsStream, NoneIs, AreDistinct, AreClaimed, IsHeard, modules_from};

/// Of packed modules, no two of the same number and all claimed, a connection makes exactly these:
/// each whole, with its profile, its pages' size and the words of its code, no items of another module, no fault and no strays.
pub fn packed_items()
    ensures { (modules : List PackedView) (text : List ℕ) (claimed : ℕ → Bool) → IsStream modules text → AreDistinct modules → AreClaimed claimed modules →
        (items : ℕ → List ItemView) × ItemsOf text End claimed items None 0 × ((p : PackedView) → Member modules p → IsHeard p (items p.number)) × ((m : ℕ) → NoneIs m modules → items m ≡ []) }
{}

/// Of modules that are numbered from some number on, no two have the same number.
pub fn numbered_modules()
    ensures { (profile : Profile) (size number entry : ℕ) (files : List (List ℕ)) → AreDistinct (modules_from profile size number entry files) }
{}
