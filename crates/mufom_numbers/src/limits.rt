//! The limits of modules, files and images that several layers share.

/// The greatest alignment of a section, in minimum addressable units (MAUs).
pub const MOST_ALIGNMENT: u64 = 2_147_483_648;
/// The greatest length of a string of a module, and of a literal of its loads, in bytes.
pub const MOST_STRING_BYTES: usize = 65_535;
/// The greatest length of a module's file, and of all input files of a command together, in bytes.
pub const MOST_FILE_BYTES: usize = 67_108_864;
/// The greatest number of bytes that are loaded into an image.
pub const MOST_IMAGE_BYTES: u64 = 67_108_864;
/// The greatest length of the file of a memory plan, in bytes.
pub const MOST_PLAN_BYTES: usize = 65_536;
/// The greatest number of modules of a run: those of its files, and those that `make` generates.
pub const MOST_MODULES: u32 = 65_536;
