//! A stream begins.

ghost use Rattle.std.specs.Prelude.{◌≡◌, ℕ, []};
ghost use Rattle.lfi_model.specs.declared.connection.Progress.TheVariants.{Unclaimed};
ghost use Rattle.lfi_stream.specs.Numbers.{progress_at};
ghost use Rattle.lfi_stream.specs.Streams.{StandsFor};

use crate::numbers::{LfiStreamFeed, LfiStreamModule, LfiStreamPage, LfiStreamText};
use lfi_frame::HEADER_BYTES;
use lfi_module::ModuleNumber;

/// All modules, of which none was opened.
fn none_opened() -> [LfiStreamModule; ModuleNumber::COUNT]
    ensures { (m : ℕ) → progress_at result m ≡ Unclaimed }
{
    let untouched = LfiStreamModule {
        phase: 0,
        words: 0,
        entry: 0,
        profile: 0,
        page_words: 0,
        pages: 0,
    };
    [untouched; ModuleNumber::COUNT]
}

/// A stream of which no byte came.
pub fn begin() -> LfiStreamText
    ensures { StandsFor result [] [] }
{
    LfiStreamText {
        feed: LfiStreamFeed {
            place: 0,
            number: 0,
            held: [0; HEADER_BYTES],
        },
        page: LfiStreamPage::none(),
        modules: none_opened(),
    }
}
