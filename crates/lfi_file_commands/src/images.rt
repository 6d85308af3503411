//! The files of whole images.

ghost use Rattle.std.specs.Prelude.{◌≡◌, ◌∷◌, [], true, IfOk, IfErr, OnOk, OnErr, option_map, string_bytes};
ghost use Rattle.lfi_image_file.specs.Files.{file_of};
ghost use Rattle.lfi_file_commands.specs.declared.device_cause.DeviceCause.{DeviceCause};
ghost use Rattle.lfi_file_commands.specs.Images.{asked_images, folder_or_none, image_file, image_in, images_in, image_path_of, Puts};
ghost use Rattle.lfi_file_commands.specs.Failures.{IsOfWriting};
ghost use Rattle.lfi_file_commands.specs.Items.{AreItemsOf, PutsImages};
ghost use Rattle.lfi_file_commands.specs.inner.Keeping.{KeepsImages};

use crate::disk::ImageStore;
use crate::errors::tell_failure;
use crate::failure::{Failure, Target};
use crate::image_items::ImageItems;
use crate::outputs::Outputs;
use lfi_image::CompleteImage;
use lfi_sequence::{ImageState, ModuleReport};
use std::alloc::{AllocError, Global};
use std::io::Write;

/// The path of an image in this folder, by its own slot.
pub(crate) fn image_path(
    alloc: Global,
    folder: &str,
    image: &CompleteImage,
) -> Result<String, AllocError>
    ensures { IfOk result (λ path. string_bytes path ≡ image_path_of folder.now image.now.slot) }
{
    let slot = image.slot().number();
    format!(in alloc; "{folder}/module-{slot:02}.img")
}

/// Puts an image at this path.
fn put_at<P: ImageStore>(
    images: &mut P,
    path: String,
    image: &CompleteImage,
) -> Result<(), Failure<'static>>
    ensures ok { OnOk result (Puts (P.put_files images.old) (P.put_files images.new) ((string_bytes path, file_of image.now) ∷ [])) }
    ensures err { OnErr result (P.put_files images.new ≡ P.put_files images.old) }
    ensures failure { IfErr result (λ failure. (cause : DeviceCause) × (failure ≡ Failure.CannotWrite (Target.File path) cause)) }
{
    match images.put_image(path.as_str(), image) {
        Ok(()) => Ok(()),
        Err(error) => Err(Failure::writing(path, &error)),
    }
}

/// Puts an image into this folder.
fn put<P: ImageStore>(
    alloc: Global,
    folder: &str,
    image: &CompleteImage,
    images: &mut P,
) -> Result<(), Failure<'static>>
    ensures ok { OnOk result (Puts (P.put_files images.old) (P.put_files images.new) (image_file folder.now image.now ∷ [])) }
    ensures err { OnErr result (P.put_files images.new ≡ P.put_files images.old) }
    ensures failure { IfErr result (IsOfWriting (image_path_of folder.now image.now.slot)) }
{
    let path = match image_path(alloc, folder, image) {
        Ok(path) => path,
        Err(error) => return Err(Failure::from(error)),
    };
    put_at(images, path, image)
}

/// Writes the image of a module, where it is whole, to its file in this folder, and keeps its item. It tells of it where it
/// can't be written, and answers whether it was.
fn write_image_of<P: ImageStore, O: Write, E: Write>(
    alloc: Global,
    folder: &str,
    state: &ImageState,
    items: &mut ImageItems,
    outputs: &mut Outputs<P, O, E>,
) -> bool
    ensures written { KeepsImages folder.now (image_in state.now) outputs.old outputs.new result items.old items.new }
    ensures lost { outputs.old.is_lost ≡ true → outputs.new.is_lost ≡ true }
    ensures out { outputs.new.out ≡ outputs.old.out }
{
    let ImageState::Whole(image) = state else {
        return true;
    };
    match put(alloc, folder, image, &mut outputs.images) {
        Ok(()) => {
            items.keep(alloc, folder, image, None);
            true
        }
        Err(failure) => {
            items.keep(alloc, folder, image, Some(&failure));
            tell_failure(failure, &mut outputs.errors);
            false
        }
    }
}

/// Writes each whole image of these modules to the file of its slot in this folder, and keeps its item. It tells of each that
/// can't be written, and writes the others; it answers whether all were written.
fn write_images<P: ImageStore, O: Write, E: Write>(
    alloc: Global,
    folder: &str,
    modules: &[ModuleReport],
    items: &mut ImageItems,
    outputs: &mut Outputs<P, O, E>,
) -> bool
    ensures written { AreItemsOf folder.now [] items.old → PutsImages folder.now (images_in modules.now) outputs.old outputs.new result items.new }
    ensures out { outputs.new.out ≡ outputs.old.out }
{
    let mut all = true;
    for told in modules {
        all &= write_image_of(alloc, folder, &told.image, items, outputs);
    }
    all
}

/// Writes the whole images of modules to a folder, where one is named, and keeps the item of each behind those that are there. It
/// answers whether all that was to be written was.
pub fn write_asked_images<P: ImageStore, O: Write, E: Write>(
    alloc: Global,
    folder: Option<&str>,
    modules: &[ModuleReport],
    items: &mut ImageItems,
    outputs: &mut Outputs<P, O, E>,
) -> bool
    ensures written { let asked = option_map (λ s. s.now) folder.entry in AreItemsOf (folder_or_none asked) [] items.old → PutsImages (folder_or_none asked) (asked_images asked modules.now) outputs.old outputs.new result items.new }
    ensures out { outputs.new.out ≡ outputs.old.out }
{
    match folder {
        Some(folder) => write_images(alloc, folder, modules, items, outputs),
        None => true,
    }
}
