//! What a line of a listing states.

ghost use Rattle.std.specs.Prelude.{◌≡◌};
ghost use Rattle.mufom_build.specs.Shown.{shown_kind};

use crate::order::Kind;
use mufom_debug::BlockHead;
use mufom_expr::Postfix;
use mufom_loads::Item;
use mufom_module::Order;
use mufom_names::{Note, Weak};
use mufom_numbers::Bytes;
use mufom_sections::Section;

/// What the first line of a listing states.
#[derive(Debug, Drop)]
pub(crate) struct Title {
    pub name: Bytes,
    pub processor: Bytes,
    pub maus: u8,
    pub order: Order,
}

/// What a line of a listing states.
#[derive(Debug, Drop)]
pub(crate) enum Row {
    Title(Title),
    Extension(Bytes),
    Environment(Bytes),
    Section(Section),
    Public { name: Bytes, value: Postfix },
    Reference { name: Bytes, weak: Option<Weak> },
    /// A note of the name before it.
    Note(Note),
    /// A note of the debug name of this position.
    DebugNote { name: u32, note: Note },
    Block { head: BlockHead, name: Bytes },
    /// The end of a block, with its expression if it has one, or of a repeat.
    End(Option<Postfix>),
    Name(Bytes),
    Value { name: u32, value: Postfix },
    Select(u32),
    Counter { section: u32, value: Postfix },
    Item(Item),
    Repeat(u64),
    Start(Postfix),
}

impl Row {
    /// The kind of the line.
    pub(crate) fn kind(&self) -> Kind
        ensures { result ≡ shown_kind self.now }
    {
        match self {
            Row::Title(_) => Kind::Title,
            Row::Extension(_) => Kind::Extension,
            Row::Environment(_) => Kind::Environment,
            Row::Section(_) => Kind::Section,
            Row::Public { .. } => Kind::Public,
            Row::Reference { .. } => Kind::Reference,
            Row::Note(_) => Kind::Note,
            Row::DebugNote { .. } => Kind::Debug,
            Row::Block { .. } => Kind::Debug,
            Row::End(None) => Kind::End,
            Row::End(Some(_)) => Kind::EndWithValue,
            Row::Name(_) => Kind::Debug,
            Row::Value { .. } => Kind::Debug,
            Row::Select(_) => Kind::Load,
            Row::Counter { .. } => Kind::Load,
            Row::Item(_) => Kind::Item,
            Row::Repeat(_) => Kind::Load,
            Row::Start(_) => Kind::Start,
        }
    }
}
