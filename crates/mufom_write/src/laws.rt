//! A law about raw images, as the contract of a function that does nothing.

ghost use Rattle.mufom_write.specs.Laws.{RawImagesAreRanges};

/// Byte i of a raw image belongs to the first loaded address plus i: it is the byte that is loaded there, or the
/// fill byte if none is.
pub fn raw_images_are_ranges()
    ensures { RawImagesAreRanges }
{}
