//! A mention of a name by a module.

/// The kind of entry by which a module mentions a name.
#[derive(Clone, Copy, Debug, PartialEq, Eq)]
pub enum MentionKind {
    /// A public symbol has the name.
    Public,
    /// A reference, strong or weak, has it.
    Reference,
}

/// A module that mentions a name.
#[derive(Clone, Copy, Debug, PartialEq, Eq)]
pub struct Mention {
    /// The position of the module in the flat list.
    pub position: u32,
    pub kind: MentionKind,
}
