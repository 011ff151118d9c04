//! Why a call of a host failed.

/// The cause of a failed call, as far as the host can tell.
#[derive(Clone, Copy, Debug, PartialEq, Eq)]
pub enum Cause {
    /// The host cannot tell.
    Unknown,
    /// No file has the name.
    NoFile,
    /// The name is that of a folder.
    Folder,
    /// The system does not permit it.
    NoPermission,
}
