//! The error line of each outcome except `Done`.

ghost use Rattle.std.specs.Prelude.{◌≡◌, ◌++◌, IfOk, OnOk};
ghost use Rattle.std.specs.String.{string_bytes};
ghost use Rattle.mufom_text.specs.Show.{order_letter};
ghost use Rattle.mufom_outcome.specs.Complaint.{build_reason_text, complaint, defect_text, field_text, plan_text, reason_text, table_text};
ghost use Rattle.mufom_outcome.specs.Complaint.{txt_reason_text};

use crate::locate_text::{push_locate, push_region};
use crate::outcome::{BinRefusal, Input, Outcome, Refusal};
use mufom_meaning::Descriptor;
use mufom_module::{Defect, Order};
use mufom_numbers::{Bytes, NoMemory, Reason};
use mufom_plan::{PlanField, PlanRefusal, PlanTable};
use mufom_read::ReadRefusal;
use mufom_refusals::{
    BuildReason, BuildRefusal, LinkRefusal, LocateRefusal, TxtReason, TxtRefusal,
};
use mufom_text::quoted_name;
use mufom_words::UsageFault;
use std::alloc::Global;

/// The name of a reason, as error lines print it.
pub(crate) fn reason_name(reason: Reason) -> &'static str
    ensures { result.now ≡ reason_text reason }
{
    match reason {
        Reason::BadNumber => "BadNumber",
        Reason::BadId => "BadId",
        Reason::BadRecord => "BadRecord",
        Reason::UnsupportedRecord => "UnsupportedRecord",
        Reason::UnsupportedFunction => "UnsupportedFunction",
        Reason::UnsupportedVariable => "UnsupportedVariable",
        Reason::Underflow => "Underflow",
        Reason::SurplusTerms => "SurplusTerms",
        Reason::Empty => "Empty",
        Reason::TooLong => "TooLong",
        Reason::LongRun => "LongRun",
        Reason::BadFieldSize => "BadFieldSize",
        Reason::BracketMismatch => "BracketMismatch",
        Reason::BadSectionType => "BadSectionType",
        Reason::UnsupportedBlock => "UnsupportedBlock",
        Reason::UnsupportedAttribute => "UnsupportedAttribute",
        Reason::Truncated => "Truncated",
        Reason::BadHeader => "BadHeader",
        Reason::BadDescriptor => "BadDescriptor",
        Reason::OffsetOrder => "OffsetOrder",
        Reason::PartGap => "PartGap",
        Reason::WrongPart => "WrongPart",
        Reason::DuplicateIndex => "DuplicateIndex",
        Reason::UnknownIndex => "UnknownIndex",
        Reason::DuplicateValue => "DuplicateValue",
        Reason::MissingValue => "MissingValue",
        Reason::MissingBase => "MissingBase",
        Reason::BadAlignment => "BadAlignment",
        Reason::NoSection => "NoSection",
        Reason::BadP => "BadP",
        Reason::BlockNesting => "BlockNesting",
        Reason::Depth => "Depth",
        Reason::AfterEnd => "AfterEnd",
        Reason::FileLimit => "FileLimit",
        Reason::BadArchive => "BadArchive",
    }
}

/// The line of an error in the arguments.
pub fn usage_line(fault: UsageFault) -> &'static str
    ensures { result.now ≡ complaint (Outcome.Usage fault) }
{
    match fault {
        UsageFault::NoCommand => "usage: no command\n",
        UsageFault::BadWords => "usage: bad words\n",
        UsageFault::NoFile => "usage: no file\n",
        UsageFault::EmptyGroup => "usage: empty group\n",
        UsageFault::OpenGroup => "usage: open group\n",
        UsageFault::StrayBracket => "usage: stray bracket\n",
        UsageFault::BadMembers => "usage: bad members\n",
        UsageFault::FileCount => "usage: file count\n",
        UsageFault::BadCount => "usage: bad count\n",
        UsageFault::LongName => "usage: long name\n",
        UsageFault::BadByte => "usage: bad byte\n",
        UsageFault::BadAddress => "usage: bad address\n",
    }
}

// The line of an error in a file.
fn read_line(alloc: Global, file: u32, refusal: ReadRefusal) -> Result<String, NoMemory>
    ensures { IfOk result (λ text. string_bytes text ≡ complaint (Outcome.Refused (Refusal.Read file refusal))) }
{
    let offset = refusal.offset;
    let reason = reason_name(refusal.reason);
    Ok(format!(in alloc; "refused: file {file} at {offset}: {reason}\n")?)
}

// The line for the file in which the total length of all files exceeds the limit.
fn limit_line(alloc: Global, file: u32) -> Result<String, NoMemory>
    ensures { IfOk result (λ text. string_bytes text ≡ complaint (Outcome.Refused (Refusal.InputLimit file))) }
{
    Ok(format!(in alloc; "refused: file {file}: InputLimit\n")?)
}

// The line of files with too many modules.
fn modules_line(alloc: Global, count: u64) -> Result<String, NoMemory>
    ensures { IfOk result (λ text. string_bytes text ≡ complaint (Outcome.Refused (Refusal.TooManyModules count))) }
{
    Ok(format!(in alloc; "refused: TooManyModules {count}\n")?)
}

// The error line of arguments with too many files.
fn count_line(alloc: Global, count: u32) -> Result<String, NoMemory>
    ensures { IfOk result (λ text. string_bytes text ≡ complaint (Outcome.Refused (Refusal.TooManyFiles count))) }
{
    Ok(format!(in alloc; "refused: TooManyFiles {count}\n")?)
}

// The error line of arguments with too many groups open at once.
fn depth_line(alloc: Global, depth: u32) -> Result<String, NoMemory>
    ensures { IfOk result (λ text. string_bytes text ≡ complaint (Outcome.Refused (Refusal.TooDeep depth))) }
{
    Ok(format!(in alloc; "refused: TooDeep {depth}\n")?)
}

// The letter of an order of bytes.
fn order_name(order: Order) -> &'static str
    ensures { result.now ≡ order_letter order }
{
    match order {
        Order::Least => "L",
        Order::Most => "M",
    }
}

// The line of `Mismatch`.
fn mismatch_line(alloc: Global, first: Descriptor, other: Descriptor) -> Result<String, NoMemory>
    ensures { IfOk result (λ text. string_bytes text ≡ complaint (Outcome.Refused (Refusal.Link (LinkRefusal.Mismatch first other)))) }
{
    let maus = first.maus;
    let order = order_name(first.order);
    let other_maus = other.maus;
    let other_order = order_name(other.order);
    Ok(format!(in alloc; "refused: link: Mismatch {maus} {order} {other_maus} {other_order}\n")?)
}

// The line of `Duplicate`.
fn duplicate_line(alloc: Global, name: &Bytes) -> Result<Vec<u8>, NoMemory>
    ensures { IfOk result (λ text. text.items ≡ complaint (Outcome.Refused (Refusal.Link (LinkRefusal.Duplicate name.now)))) }
{
    let mut line = Vec::from_slice(alloc, b"refused: link: Duplicate ")?;
    line.extend_from_slice(quoted_name(alloc, name.as_slice())?.as_slice())?;
    line.push(b'\n')?;
    Ok(line)
}

/// The line of an error in linking.
pub fn link_line(alloc: Global, refusal: &LinkRefusal) -> Result<Vec<u8>, NoMemory>
    ensures { IfOk result (λ text. text.items ≡ complaint (Outcome.Refused (Refusal.Link refusal.now))) }
{
    match refusal {
        LinkRefusal::Mismatch(first, other) => {
            Ok(mismatch_line(alloc, *first, *other)?.into_bytes())
        }
        LinkRefusal::Duplicate(name) => duplicate_line(alloc, name),
        LinkRefusal::DuplicateStart => {
            Ok(Vec::from_slice(alloc, b"refused: link: DuplicateStart\n")?)
        }
        LinkRefusal::NoMemory => Err(NoMemory),
    }
}

// The word of a part of a plan.
fn field_name(field: PlanField) -> &'static str
    ensures { result.now ≡ field_text field }
{
    match field {
        PlanField::Region => "region",
        PlanField::Extra => "extra",
        PlanField::Name => "name",
        PlanField::Base => "base",
        PlanField::Size => "size",
        PlanField::Sections => "sections",
        PlanField::Common => "common",
        PlanField::Symbol => "symbol",
        PlanField::Kind => "kind",
        PlanField::Value => "value",
        PlanField::Start => "start",
        PlanField::End => "end",
        PlanField::Load => "load",
        PlanField::RegionEnd => "region_end",
        PlanField::Keep => "keep",
    }
}

// Adds the table of a plan, if there is one.
fn push_table(alloc: Global, text: &mut Vec<u8>, table: Option<PlanTable>) -> Result<(), NoMemory>
    ensures { OnOk result (text.new.items ≡ text.old.items ++ table_text table) }
{
    match table {
        Some(PlanTable::Region(region)) => push_region(alloc, text, Some(region)),
        Some(PlanTable::Symbol(symbol)) => {
            text.extend_from_slice(format!(in alloc; " symbol {symbol}")?.as_bytes())?;
            Ok(())
        }
        None => Ok(()),
    }
}

// Adds the reason why the plan is invalid.
fn push_plan(alloc: Global, text: &mut Vec<u8>, refusal: PlanRefusal) -> Result<(), NoMemory>
    ensures { OnOk result (text.new.items ≡ text.old.items ++ plan_text refusal) }
{
    match refusal {
        PlanRefusal::Syntax => text.extend_from_slice(b"Syntax")?,
        PlanRefusal::Shape { table, field } => {
            text.extend_from_slice(b"Shape")?;
            push_table(alloc, text, table)?;
            text.push(b' ')?;
            text.extend_from_slice(field_name(field).as_bytes())?;
        }
        PlanRefusal::Beyond(region) => {
            text.extend_from_slice(format!(in alloc; "Beyond region {region}")?.as_bytes())?;
        }
        PlanRefusal::TooLong => text.extend_from_slice(b"TooLong")?,
        PlanRefusal::NoMemory => return Err(NoMemory),
    }
    Ok(())
}

// The error line of an invalid plan.
fn plan_line(alloc: Global, refusal: PlanRefusal) -> Result<Vec<u8>, NoMemory>
    ensures { IfOk result (λ text. text.items ≡ complaint (Outcome.Refused (Refusal.Plan refusal))) }
{
    let mut line = Vec::from_slice(alloc, b"refused: plan: ")?;
    push_plan(alloc, &mut line, refusal)?;
    line.push(b'\n')?;
    Ok(line)
}

/// The line of an error in locating. An address has `maus` units.
pub fn locate_line(alloc: Global, refusal: &LocateRefusal, maus: u8) -> Result<Vec<u8>, NoMemory>
    ensures { IfOk result (λ text. text.items ≡ complaint (Outcome.Refused (Refusal.Locate refusal.now maus))) }
{
    let mut line = Vec::from_slice(alloc, b"refused: locate: ")?;
    push_locate(alloc, &mut line, maus, refusal)?;
    line.push(b'\n')?;
    Ok(line)
}

/// The line of `Duplicate` in locating: a symbol of the plan has the name of a public symbol.
pub fn shared_line(alloc: Global, name: &Bytes) -> Result<Vec<u8>, NoMemory>
    ensures { IfOk result (λ text. text.items ≡ complaint (Outcome.Refused (Refusal.SharedName name.now))) }
{
    let mut line = Vec::from_slice(alloc, b"refused: locate: Duplicate ")?;
    line.extend_from_slice(quoted_name(alloc, name.as_slice())?.as_slice())?;
    line.push(b'\n')?;
    Ok(line)
}

/// The line of `Unknown`: no public symbol has the name of `--keep`.
pub fn keep_line(alloc: Global, name: &Bytes) -> Result<Vec<u8>, NoMemory>
    ensures { IfOk result (λ text. text.items ≡ complaint (Outcome.Refused (Refusal.Keep name.now))) }
{
    let mut line = Vec::from_slice(alloc, b"refused: keep: Unknown ")?;
    line.extend_from_slice(quoted_name(alloc, name.as_slice())?.as_slice())?;
    line.push(b'\n')?;
    Ok(line)
}

// The line for a file of `bin` with too many bytes.
fn raw_line(alloc: Global, count: u128) -> Result<String, NoMemory>
    ensures { IfOk result (λ text. string_bytes text ≡ complaint (Outcome.Refused (Refusal.Bin (BinRefusal.TooLong count)))) }
{
    Ok(format!(in alloc; "refused: bin: TooLong {count}\n")?)
}

// The line for a name that no region has.
fn unknown_region_line(alloc: Global, name: &Bytes) -> Result<Vec<u8>, NoMemory>
    ensures { IfOk result (λ text. text.items ≡ complaint (Outcome.Refused (Refusal.Bin (BinRefusal.Region name.now)))) }
{
    let mut line = Vec::from_slice(alloc, b"refused: bin: Region ")?;
    line.extend_from_slice(quoted_name(alloc, name.as_slice())?.as_slice())?;
    line.push(b'\n')?;
    Ok(line)
}

// The line of an error in what `bin` writes.
fn bin_line(alloc: Global, refusal: &BinRefusal) -> Result<Vec<u8>, NoMemory>
    ensures { IfOk result (λ text. text.items ≡ complaint (Outcome.Refused (Refusal.Bin refusal.now))) }
{
    match refusal {
        BinRefusal::TooLong(count) => Ok(raw_line(alloc, *count)?.into_bytes()),
        BinRefusal::Region(name) => unknown_region_line(alloc, name),
    }
}

// Adds the error of a line of a text.
fn push_text_reason(alloc: Global, text: &mut Vec<u8>, reason: TxtReason) -> Result<(), NoMemory>
    ensures { OnOk result (text.new.items ≡ text.old.items ++ txt_reason_text reason) }
{
    match reason {
        TxtReason::BadLine => text.extend_from_slice(b"BadLine")?,
        TxtReason::NoAddress => text.extend_from_slice(b"NoAddress")?,
        TxtReason::Beyond => text.extend_from_slice(b"Beyond")?,
        TxtReason::Twice(address) => {
            text.extend_from_slice(format!(in alloc; "Twice {address}")?.as_bytes())?;
        }
        TxtReason::AfterEnd => text.extend_from_slice(b"AfterEnd")?,
        TxtReason::NoEnd => text.extend_from_slice(b"NoEnd")?,
    }
    Ok(())
}

// The error line of an invalid text.
fn text_line(alloc: Global, refusal: TxtRefusal) -> Result<Vec<u8>, NoMemory>
    ensures { IfOk result (λ text. text.items ≡ complaint (Outcome.Refused (Refusal.Text refusal))) }
{
    let number = refusal.line;
    let mut line = format!(in alloc; "refused: text line {number}: ")?.into_bytes();
    push_text_reason(alloc, &mut line, refusal.reason)?;
    line.push(b'\n')?;
    Ok(line)
}

/// The name of an error in a line of a listing, as error lines print it.
pub(crate) fn build_reason_name(reason: BuildReason) -> &'static str
    ensures { result.now ≡ build_reason_text reason }
{
    match reason {
        BuildReason::BadText => "BadText",
        BuildReason::TooGreat => "TooGreat",
        BuildReason::Position => "Position",
        BuildReason::Count => "Count",
        BuildReason::TooLong => "TooLong",
        BuildReason::Deep => "Deep",
    }
}

/// The name of a defect of the module of a listing, as error lines print it.
pub(crate) fn defect_name(defect: Defect) -> &'static str
    ensures { result.now ≡ defect_text defect }
{
    match defect {
        Defect::Depth => "Depth",
        Defect::LongId => "LongId",
        Defect::BadMaus => "BadMaus",
        Defect::BadAlign => "BadAlign",
        Defect::MissingBase => "MissingBase",
        Defect::Position => "Position",
        Defect::MisplacedP => "MisplacedP",
        Defect::NoSection => "NoSection",
        Defect::LongRun => "LongRun",
        Defect::FieldSize => "FieldSize",
        Defect::Attribute => "Attribute",
        Defect::Nesting => "Nesting",
        Defect::Weight => "Weight",
    }
}

// The error line of a text that is not the listing of a module.
fn listing_line(alloc: Global, refusal: BuildRefusal) -> Result<String, NoMemory>
    ensures { IfOk result (λ text. string_bytes text ≡ complaint (Outcome.Refused (Refusal.Build refusal))) }
{
    match refusal {
        BuildRefusal::At {
            line,
            column,
            reason,
        } => {
            let reason = build_reason_name(reason);
            Ok(format!(in alloc; "refused: listing line {line} column {column}: {reason}\n")?)
        }
        BuildRefusal::Module(defect) => {
            let defect = defect_name(defect);
            Ok(format!(in alloc; "refused: listing: {defect}\n")?)
        }
        BuildRefusal::NoMemory => Err(NoMemory),
    }
}

/// The line of an error that the texts call `refused:`.
pub fn refusal_line(alloc: Global, refusal: &Refusal) -> Result<Vec<u8>, NoMemory>
    ensures { IfOk result (λ text. text.items ≡ complaint (Outcome.Refused refusal.now)) }
{
    match refusal {
        Refusal::Read(file, refusal) => Ok(read_line(alloc, *file, *refusal)?.into_bytes()),
        Refusal::InputLimit(file) => Ok(limit_line(alloc, *file)?.into_bytes()),
        Refusal::TooManyModules(count) => Ok(modules_line(alloc, *count)?.into_bytes()),
        Refusal::TooManyFiles(count) => Ok(count_line(alloc, *count)?.into_bytes()),
        Refusal::TooDeep(depth) => Ok(depth_line(alloc, *depth)?.into_bytes()),
        Refusal::Plan(refusal) => plan_line(alloc, *refusal),
        Refusal::Link(refusal) => link_line(alloc, refusal),
        Refusal::Locate(refusal, maus) => locate_line(alloc, refusal, *maus),
        Refusal::SharedName(name) => shared_line(alloc, name),
        Refusal::Keep(name) => keep_line(alloc, name),
        Refusal::Bin(refusal) => bin_line(alloc, refusal),
        Refusal::Text(refusal) => text_line(alloc, *refusal),
        Refusal::Build(refusal) => Ok(listing_line(alloc, *refusal)?.into_bytes()),
    }
}

/// The line of an input that could not be read.
pub fn fault_line(alloc: Global, input: Input) -> Result<String, NoMemory>
    ensures { IfOk result (λ text. string_bytes text ≡ complaint (Outcome.ReadFault input)) }
{
    match input {
        Input::Plan => Ok(format!(in alloc; "read fault: plan\n")?),
        Input::File(file) => Ok(format!(in alloc; "read fault: file {file}\n")?),
    }
}
