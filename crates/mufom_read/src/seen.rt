//! The record that is being checked, with its bytes.

ghost use Rattle.std.specs.Prelude.{◌≡◌, ◌+◌, ◌≤◌, length, slice_range, IfOk};
ghost use Rattle.mufom_records.specs.Parts as parts;
ghost use Rattle.mufom_records.specs.Parts.{LiesIn};
ghost use Rattle.mufom_module.specs.SpelledRecords as records;
ghost use Rattle.mufom_read.specs.Kept.{record_of_seen, HasOwnTokens};

use mufom_expr::{Postfix, Token};
use mufom_numbers::{Bytes, NoMemory, Span};
use mufom_records::{BlockTail, Record, postfix_of};
use std::alloc::Global;

/// The record that is being checked: the offset of its first byte, the record, its bytes, and the tokens of
/// its expression, if it has one.
#[derive(Debug, Drop)]
pub(crate) struct SeenRecord<'a> {
    pub start: u64,
    pub row: &'a Record,
    pub bytes: &'a [u8],
    pub tokens: &'a [Token],
}

// The offset expression of a block, if its kind has one.
fn offset_of(block: &BlockTail) -> Option<Span>
    ensures { result ≡ parts.offset_of_block block.now }
{
    match block {
        BlockTail::Module => None,
        BlockTail::Scope { offset, .. } => Some(*offset),
        BlockTail::Source(_) => None,
        BlockTail::Section { offset, .. } => Some(*offset),
    }
}

// The position of a record's expression in its bytes.
fn expression_of(record: &Record) -> Option<Span>
    ensures { result ≡ parts.expression_of «record».now }
{
    match record {
        Record::PublicValue(_, value) => Some(*value),
        Record::BlockBegin(_, _, _, block) => offset_of(block),
        Record::BlockEnd(value) => *value,
        Record::DebugValue(_, value) => Some(*value),
        Record::SetPc(_, value) => Some(*value),
        Record::FieldItem(_, value, _) => Some(*value),
        Record::Start(value) => Some(*value),
        _ => None,
    }
}

// The bytes at a span.
fn part_of(bytes: &[u8], span: Span) -> &[u8]
    requires { span.start + span.len ≤ length bytes.now }
    ensures { result.now ≡ slice_range bytes.now span.start (span.start + span.len) }
{
    &bytes[span.start..span.start + span.len]
}

impl SeenRecord<'_> {
    /// A copy of the record's bytes at a span.
    pub(crate) fn copy_text(&self, alloc: Global, span: Span) -> Result<Bytes, NoMemory>
        requires { LiesIn self.now.bytes.now span }
        ensures { IfOk result (λ bytes. bytes ≡ records.text_in (record_of_seen self.now) span) }
    {
        Bytes::from_slice(alloc, part_of(self.bytes, span))
    }

    /// The record's expression, if it has one. No record has more than one. Its variables have the indexes of
    /// the file.
    pub(crate) fn expression(&self, alloc: Global) -> Result<Option<Postfix>, NoMemory>
        requires { HasOwnTokens self.now }
        ensures { IfOk result (λ tree. tree ≡ records.tree_of_record (record_of_seen self.now)) }
    {
        match expression_of(self.row) {
            None => Ok(None),
            Some(_) => {
                let tree = postfix_of(alloc, self.tokens)?;
                Ok(Some(tree))
            }
        }
    }
}
