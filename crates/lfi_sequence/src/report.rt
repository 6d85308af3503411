//! What became of a module.

ghost use Rattle.std.specs.Prelude.{◌≡◌, ℕ, ◌+◌, ◌<◌, List, Option, Some, None};
ghost use Rattle.lfi_model.specs.Item.{ItemView};
ghost use Rattle.lfi_model.specs.declared.item.Reason.{Reason};
ghost use Rattle.lfi_model.specs.Outcomes.{end_of};
ghost use Rattle.lfi_sequence.specs.Placed.{IsPlacing, HasEnded, HandledBy};
ghost use Rattle.lfi_sequence.specs.Tells.{Tells, HasEnd};

use crate::placing::{Ended, Placing};
use crate::refused::{Refusal, RefusedModule};
use lfi_image::{Builder, CompleteImage};
use lfi_model::{Outcome, Reason};

/// What is there of a module's image.
#[derive(Drop)]
pub enum ImageState {
    /// Nothing: the module wasn't opened.
    Absent,
    /// The pages placed, which aren't all, or were not closed; of a refused module those before its first fault.
    Part(Builder),
    /// The whole image.
    Whole(CompleteImage),
}

/// What became of a module.
#[derive(Drop)]
pub struct ModuleReport {
    /// Its outcome.
    pub outcome: Outcome,
    /// What is there of its image.
    pub image: ImageState,
    /// What is known of it as a refused one, where its outcome is Refused: its extent, its first fault, and the
    /// words near that.
    pub refused: Option<RefusedModule>,
}

impl ModuleReport {
    /// A module that isn't whole, without a fault.
    fn part(outcome: Outcome, builder: Builder) -> ModuleReport
        ensures { result ≡ record { outcome = outcome; image = ImageState.Part builder; refused = None } }
    {
        ModuleReport {
            outcome,
            image: ImageState::Part(builder),
            refused: None,
        }
    }

    /// A module that is refused for this.
    fn of_refused(builder: Builder, refusal: Refusal) -> ModuleReport
        ensures { result ≡ record { outcome = Outcome.Refused refusal.fault; image = ImageState.Part builder; refused = Some (record { slot = builder.slot; extent = builder.extent; refusal = refusal }) } }
    {
        let refused = RefusedModule {
            slot: builder.slot(),
            extent: builder.extent(),
            refusal,
        };
        ModuleReport {
            outcome: Outcome::Refused(refusal.fault),
            image: ImageState::Part(builder),
            refused: Some(refused),
        }
    }
}

/// A module that was closed, whose words have no fault.
fn closed(builder: Builder, ended: Ended) -> ModuleReport
    requires { ended.reason ≡ Reason.Close }
    ensures { (m : ℕ) (items : List ItemView) → HasEnded m builder ended items → Tells m result items }
{
    match builder.finish() {
        Ok(image) => ModuleReport {
            outcome: Outcome::Complete {
                words: image.words().number(),
            },
            image: ImageState::Whole(image),
            refused: None,
        },
        Err(builder) => {
            let extent = builder.extent();
            let outcome = Outcome::Incomplete {
                pages: ended.pages,
                of: extent.words().pages(extent.pages()),
            };
            ModuleReport::part(outcome, builder)
        }
    }
}

/// A module that has ended, whose words have no fault.
fn by_end(builder: Builder, ended: Ended) -> ModuleReport
    ensures { (m : ℕ) (items : List ItemView) → HasEnded m builder ended items → Tells m result items }
{
    match ended.reason {
        Reason::Close => closed(builder, ended),
        Reason::Lost(fault) => ModuleReport::part(Outcome::Lost(fault), builder),
        Reason::PageFault(index) => ModuleReport::part(Outcome::PageFault(index), builder),
        Reason::NoMemory => ModuleReport::part(Outcome::NoMemory, builder),
    }
}

impl Placing {
    /// What became of a module that has ended.
    pub(crate) fn into_report(self) -> ModuleReport
        ensures { (m : ℕ) (items : List ItemView) (reason : Reason) → IsPlacing m self items → end_of items ≡ Some reason → Tells m result items }
    {
        let Placing {
            builder,
            refusal,
            ended,
        } = self;
        match (refusal, ended) {
            (Some(refusal), _) => ModuleReport::of_refused(builder, refusal),
            (None, Some(ended)) => by_end(builder, ended),
            (None, None) => ModuleReport::part(Outcome::Unused, builder),
        }
    }
}

/// What became of a module, of which this is left once all its items have come.
pub fn report_of(placing: Option<Placing>) -> ModuleReport
    ensures { (m : ℕ) (items : List ItemView) → HandledBy m placing items → HasEnd items → Tells m result items }
{
    match placing {
        Some(placing) => placing.into_report(),
        None => ModuleReport {
            outcome: Outcome::Unused,
            image: ImageState::Absent,
            refused: None,
        },
    }
}
