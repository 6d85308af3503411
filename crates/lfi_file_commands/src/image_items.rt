//! What is told of images as they are put, as items of a JSON array.

ghost use Rattle.std.specs.Prelude.{◌≡◌, ◌≢◌, ◌∷◌, [], ◌++◌, ℕ, List, None, Some, MatchOption, OnOk, option_map, string_bytes};
ghost use Rattle.lfi_file_commands.specs.Images.{Fate, image_path_of};
ghost use Rattle.lfi_file_commands.specs.Items.{AreItemsOf, kept_of};
ghost use Rattle.lfi_file_commands.specs.Json as spec;

use crate::failure::Failure;
use crate::images::image_path;
use crate::members::{push_comma, push_plain, push_quoted};
use lfi_command_line::Format;
use lfi_image::CompleteImage;
use std::alloc::{AllocError, Global};

/// What is told of images as they are put, as items of a JSON array.
#[derive(Drop)]
pub struct ImageItems {
    text: String,
    /// Whether they are kept: an object is asked for, and there was memory for all of them.
    is_kept: bool,
}

/// Puts the error of an image that could not be written.
fn push_error(
    alloc: Global,
    failure: Option<&Failure<'_>>,
    text: &mut String,
) -> Result<(), AllocError>
    ensures { OnOk result (string_bytes text.new ≡ string_bytes text.old ++ spec.error_member (option_map (λ f. f.now) failure.entry)) }
{
    match failure {
        Some(failure) => {
            push_plain(",\"error\":", text)?;
            push_quoted(alloc, format_args!("{failure}"), text)
        }
        None => Ok(()),
    }
}

/// Puts the path of an image in a folder.
fn push_path(
    alloc: Global,
    folder: &str,
    image: &CompleteImage,
    text: &mut String,
) -> Result<(), AllocError>
    ensures { OnOk result (string_bytes text.new ≡ string_bytes text.old ++ spec.quoted (image_path_of folder.now image.now.slot)) }
{
    let path = image_path(alloc, folder, image)?;
    push_quoted(alloc, path.as_str(), text)
}

/// Puts the item of an image that was to be put into a folder, of which this came, behind `before` others.
fn push_item(
    alloc: Global,
    before: usize,
    folder: &str,
    image: &CompleteImage,
    failure: Option<&Failure<'_>>,
    text: &mut String,
) -> Result<(), AllocError>
    ensures { OnOk result (string_bytes text.new ≡ string_bytes text.old ++ spec.image_item folder.now before (record { image = image.now; failure = option_map (λ f. f.now) failure.entry })) }
{
    push_comma(before, text)?;
    push_plain("{\"path\":", text)?;
    push_path(alloc, folder, image, text)?;
    push_error(alloc, failure, text)?;
    push_plain("}", text)
}

/// How many items stand before the next one, as far as a comma asks for it: none, or some.
fn before_next(items: &str) -> usize
    ensures none { items.now ≡ [] → result ≡ 0 }
    ensures some { items.now ≢ [] → result ≡ 1 }
{
    if items.is_empty() { 0 } else { 1 }
}

impl ImageItems {
    /// None yet. They are kept, where an object is asked for.
    pub fn new(alloc: Global, format: Format) -> ImageItems
        ensures { (folder : List ℕ) → AreItemsOf folder [] result }
    {
        ImageItems {
            text: String::new(alloc),
            is_kept: format == Format::Json,
        }
    }

    /// The items, with commas between them; `None`, where they aren't kept.
    pub fn text(&self) -> Option<&str>
        ensures { MatchOption result (kept_of self.now ≡ None) (λ text. kept_of self.now ≡ Some text.now) }
    {
        if self.is_kept {
            Some(self.text.as_str())
        } else {
            None
        }
    }

    /// Keeps the item of an image that was to be put into a folder, of which this came.
    pub(crate) fn keep(
        &mut self,
        alloc: Global,
        folder: &str,
        image: &CompleteImage,
        failure: Option<&Failure<'_>>,
    )
        ensures { (fates : List Fate) → AreItemsOf folder.now fates self.old → AreItemsOf folder.now (fates ++ record { image = image.now; failure = option_map (λ f. f.now) failure.entry } ∷ []) self.new }
    {
        if !self.is_kept {
            return;
        }
        let before = before_next(self.text.as_str());
        let pushed = push_item(alloc, before, folder, image, failure, &mut self.text);
        self.is_kept = pushed.is_ok();
    }
}
