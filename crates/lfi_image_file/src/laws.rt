//! What the definitions say together.
ghost use Rattle.std.specs.Prelude.{◌≡◌, ◌⊎◌, ℕ, List};
ghost use Rattle.lfi_image_file.specs.declared.fault.ImageFault.{ImageFault};
ghost use Rattle.lfi_image_file.specs.declared.fault.ImageFault.TheVariants.{NoMemory, Device};
ghost use Rattle.lfi_image.specs.Image.{Image, IsImage};
ghost use Rattle.lfi_image_file.specs.Files.{FileOf};
ghost use Rattle.lfi_image_file.specs.Reading.{IsFault};

/// The file of an image has no fault of its own: reading it can only want memory, or fail by the device.
pub fn file_of_an_image()
    ensures { (image : Image) (bytes : List ℕ) (fault : ImageFault) → IsImage image → FileOf image bytes → IsFault bytes fault
        → (fault ≡ NoMemory) ⊎ (fault ≡ Device) }
{}

/// A file is that of one image: whoever reads the file of an image has that image again.
pub fn one_image()
    ensures { (one other : Image) (bytes : List ℕ) → IsImage one → IsImage other → FileOf one bytes → FileOf other bytes → one ≡ other }
{}
