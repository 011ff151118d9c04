//! Which text of a module is printed.

/// One of the two texts of a module. They differ only in the parts that are kept as bytes (extension and
/// environment) and in the end of a repeat.
#[derive(Clone, Copy, Debug, PartialEq, Eq)]
pub enum TextForm {
    /// A summary to read: it has the length of a part that is kept as bytes, and no line for the end of a
    /// repeat.
    Summary,
    /// A listing, from which the module can be built: it has the bytes of such a part in hexadecimal digits,
    /// and a line `end` after the items of a repeat.
    Listing,
}
