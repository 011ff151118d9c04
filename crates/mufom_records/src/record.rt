//! The records of a module file.

use arrayvec::ArrayVec;
use mufom_expr::FieldKind;
use mufom_numbers::Span;

/// What is expected next in the input.
#[derive(Clone, Copy, Debug, PartialEq, Eq)]
pub enum Mode {
    /// MB, the start of the module. In this mode and the next two, any other first byte is `BadHeader`.
    Begin,
    /// AD, the address descriptor.
    Descriptor,
    /// ASW, the offset of the part with this number.
    Offset(u8),
    /// Any record, which begins with its code.
    Body,
    /// An item of an LR.
    Items,
    /// An item of an LR, in whose fields the size may follow the expression without a comma.
    GnuItems,
}

/// The fields that a block's kind adds to BB. A `Span` is the position of all bytes of an expression.
#[derive(Debug, Drop)]
pub enum BlockTail {
    /// Kind 3: no further fields.
    Module,
    /// Kinds 4 and 6: a stack number, the index of a type, and an expression.
    Scope {
        stack: u64,
        type_index: u64,
        offset: Span,
    },
    /// Kind 5: at most six numbers.
    Source(ArrayVec<u64, 6>),
    /// Kind 11: the type of a section, its index, and an expression.
    Section {
        section_type: u64,
        section: u32,
        offset: Span,
    },
}

/// A record, or an item of an LR, with its fields in the order of the file.
///
/// Strings, expressions and literal bytes are positions in the input: of a string, its bytes without the
/// length before them; of an expression, all its bytes; of literal bytes, those after their count. An index
/// is a `u32`, any other number a `u64`.
#[derive(Debug, Drop)]
pub enum Record {
    /// MB: the processor and the module's name.
    ModuleBegin(Span, Span),
    /// AD: bits per addressable unit (MAU), MAUs per address, and the letter of the byte order, if there is one.
    Descriptor(u64, u64, Option<u8>),
    /// ASW: the number of a part, and the offset in the file at which it begins, or 0 if it is absent.
    Offset(u64, u64),
    /// ME.
    ModuleEnd,
    /// ST: the index, whether the section is absolute (letters A S) or relocatable (C), the letter of the
    /// purpose, the name, and three optional numbers.
    SectionType(u32, bool, Option<u8>, Span, Option<u64>, Option<u64>, Option<u64>),
    /// SA: the index, the alignment, and an optional number.
    Alignment(u32, u64, Option<u64>),
    /// ASS: the index and the size in MAUs.
    SectionSize(u32, u64),
    /// ASL: the index and the base address.
    SectionBase(u32, u64),
    /// NI: the index and the name.
    PublicName(u32, Span),
    /// ASI: the index and the value.
    PublicValue(u32, Span),
    /// ATI: the index, the type, the attribute, and at most four numbers.
    PublicNote(u32, u64, u64, ArrayVec<u64, 4>),
    /// NX: the index and the name.
    ReferenceName(u32, Span),
    /// WX: the index, the size, and an optional default.
    WeakReference(u32, u64, Option<u64>),
    /// ATX: the index, the type, the attribute, and at most four numbers.
    ReferenceNote(u32, u64, u64, ArrayVec<u64, 4>),
    /// BB: the kind, the size, the name, and the fields that the kind adds.
    BlockBegin(u64, u64, Span, BlockTail),
    /// BE: an optional expression.
    BlockEnd(Option<Span>),
    /// NN: the index and the name.
    DebugName(u32, Span),
    /// ASN: the index and the value.
    DebugValue(u32, Span),
    /// ATN: the index, the type, the attribute, and at most four numbers.
    DebugNote(u32, u64, u64, ArrayVec<u64, 4>),
    /// SB: the index.
    SetSection(u32),
    /// ASP: the index and the value of the program counter.
    SetPc(u32, Span),
    /// LD: literal bytes.
    Constant(Span),
    /// LR, after which items follow.
    Relocate,
    /// Literal bytes of an LR.
    ConstantItem(Span),
    /// A field of an LR: its kind, its value, and its size in MAUs, 1 to 8, if it is given.
    FieldItem(FieldKind, Span, Option<u8>),
    /// RE and LD: the repeat count, and the literal bytes.
    RepeatConstant(u64, Span),
    /// RE and LR: the repeat count. The items follow.
    RepeatRelocate(u64),
    /// ASG: the start address.
    Start(Span),
}
