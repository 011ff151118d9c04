//! Records and plans that several tests share.

/// A section `t` of four bytes that is not placed.
pub(crate) const SECTION: &[u8] = b"\xE6\x01\xC3\x01t\xE2\xD3\x01\x04";

/// The value of the first reference, in a field of four bytes of the first section.
pub(crate) const REFERENCE: &[u8] = b"\xE5\x01\xE4\xBE\xD8\x0B\xBF";

/// A region for sections named `t`.
pub(crate) const PAGE: &[u8] =
    b"[[region]]\nname = \"page\"\nbase = 256\nsize = 256\nsections = [\"t\"]\n";
