//! How the bytes of a module file are read.

/// How the bytes of a module file are read.
#[derive(Clone, Copy, Debug, PartialEq, Eq)]
pub struct ReadOptions {
    /// The debug part is read; otherwise it is skipped.
    pub debug: bool,
    /// The forms of GNU binutils are accepted too.
    pub gnu: bool,
}
