//! The offsets of the parts of a file.

/// The offsets of the parts in a module's written form, and its length, in bytes.
#[derive(Clone, Copy, Debug, PartialEq, Eq)]
pub struct FileLayout {
    /// The offsets of the extension, environment, section, external, debug, data and trailer parts (0 for
    /// an empty part), and the offset of the end of the last one; each from the start of the form.
    pub offsets: [u64; 8],
    /// The length of the whole form.
    pub length: u64,
}
