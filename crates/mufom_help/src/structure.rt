//! Errors in a module as a whole: its header, its parts, its indexes and its rules.

ghost use Rattle.std.specs.Prelude.{◌≡◌, option_map};
ghost use Rattle.mufom_help.specs.Topics.{structure, topic_in};

/// The text of `help Truncated`.
pub const TRUNCATED: &str = "Truncated: a file ends before the end of its module

  refused: file N at OFFSET: Truncated

File N, counted from 0, has OFFSET bytes. They may be the beginning of a
module, but its last record (the byte E1) is missing.

Usual causes:
  - The compiler, the assembler or a copy was cut off, or the disk was full.
  - The file is empty: OFFSET is 0.
  - The input is a pipe whose writer stopped early.

What to do:
  - Write or copy the file again, and look at the result of that command.
  - If a build script got status 4 from this program, it must remove the file
    that was being written.
";

/// The text of `help BadHeader`.
pub const BAD_HEADER: &str = "BadHeader: the header contains an unexpected record

  refused: file N at OFFSET: BadHeader

File N, counted from 0, must begin with three kinds of records: the beginning
of the module (E0), the address descriptor (EC), and the offsets of the parts
(E2 D7), numbered 0 to 7. At OFFSET there is something else.

Usual causes:
  - OFFSET is 0: the file is not an object module of this format. It may be an
    ELF or COFF file, a text, or a plan without --plan before it; or an archive
    of `ar` that is not named after a +, or a thin one.
  - In an archive, a member is of another format. OFFSET is where its contents
    begin. `ar tO FILE` lists the members with these offsets, in hexadecimal.
  - The archive is one of BSD or macOS, with names such as #1/20 and
    __.SYMDEF SORTED. Such archives are not read.
  - The writer of the file leaves out offsets, or writes them in another order.

What to do:
  - Check the name of file N. Brackets and + are not counted.
  - Look at the bytes there: xxd -s OFFSET -l 96 FILE.
  - If it is an archive, name it after the +. A thin one does not hold its
    members: make it again with `ar rcD`.
  - If it is an object of gcc, GNU binutils 2.16.1 can write it as a module:
      objcopy -O ieee a.o a.695
";

/// The text of `help BadDescriptor`.
pub const BAD_DESCRIPTOR: &str = "BadDescriptor: an address is of a kind that mufom does not read

  refused: file N at OFFSET: BadDescriptor

The address descriptor, at OFFSET of file N (counted from 0), must have 8 bits
in an addressable unit and 1 to 8 units in an address.

Usual causes:
  - The file is for a processor whose smallest addressable unit is a word of
    16 or 32 bits.
  - The file is damaged.

What to do:
  - Look at the bytes there: xxd -s OFFSET -l 8 FILE. After EC come the bits of
    a unit and the units of an address.
  - Modules for processors that address words cannot be read.
";

/// The text of `help OffsetOrder`.
pub const OFFSET_ORDER: &str = "OffsetOrder: the offsets of the parts in the header are out of order

  refused: file N at OFFSET: OffsetOrder

The header gives the offset of each part of the file; an offset of 0 means that
the part is missing. In file N, counted from 0, the record at OFFSET has an
offset that is below an earlier one, or it is that of the end of the module,
which must not be 0.

Usual causes:
  - The writer of the file puts its parts in another order than the standard.
  - A tool changed the file and did not correct the offsets.

What to do:
  - Look at the eight offsets: xxd -l 96 FILE. Each record begins with E2 D7.
  - Write the file again with its parts in the order of their numbers.
";

/// The text of `help PartGap`.
pub const PART_GAP: &str = "PartGap: a part of the file does not begin or end where the header says

  refused: file N at OFFSET: PartGap

In file N, counted from 0, either the first part does not begin right after the
header, and OFFSET is that of the byte after the header; or the record at
OFFSET goes past the end of its part.

Usual causes:
  - The file was transferred in text mode, so that bytes were added or lost.
  - A tool changed the file and did not correct the offsets in the header.
  - Its writer leaves space between the header and the first part.

What to do:
  - Compare the offsets in the header with the file: xxd FILE.
  - Copy or write the file again.
";

/// The text of `help WrongPart`.
pub const WRONG_PART: &str = "WrongPart: a record is in a part of the file where it does not belong

  refused: file N at OFFSET: WrongPart

Each record belongs to one part: sections to the section part, symbols and
references to the external part, loads to the data part, the start address to
the trailer, and so on. In file N, counted from 0, the record at OFFSET is in
another part, or it is at the end of the module in place of E1.

Usual causes:
  - The offsets in the header are wrong by a few bytes.
  - The writer of the file mixes records of two parts.

What to do:
  - Compare the offsets in the header with the place of the record: xxd FILE.
  - Write the file again with each record in its own part.
";

/// The text of `help DuplicateIndex`.
pub const DUPLICATE_INDEX: &str =
    "DuplicateIndex: a section or a symbol is declared twice under one index

  refused: file N at OFFSET: DuplicateIndex

A file numbers its sections, public symbols, references and debug names, each
kind on its own. In file N, counted from 0, the record at OFFSET declares an
index that its kind already has.

Usual causes:
  - Two modules were joined into one file without numbering them anew.
  - The writer of the file declares a section again to continue it.

What to do:
  - Link modules with `mufom link`; do not join their files.
  - Write the file again with each index declared once.
";

/// The text of `help UnknownIndex`.
pub const UNKNOWN_INDEX: &str = "UnknownIndex: a record names an index that nothing declares

  refused: file N at OFFSET: UnknownIndex

In file N, counted from 0, the record at OFFSET names a section, a public
symbol, a reference or a debug name by an index that was not declared before.
(The value of a public symbol may also name what is declared later in the
external part; if nothing declares it, OFFSET is that of the value's record.)

Usual causes:
  - The writer of the file numbers from 0 in one place and from 1 in another.
  - A declaration was removed, as by a tool that strips symbols.
  - The file is damaged.

What to do:
  - Look at the record: xxd -s OFFSET -l 16 FILE. The index follows the code.
  - Write the file again with all declarations before their uses.
";

/// The text of `help DuplicateValue`.
pub const DUPLICATE_VALUE: &str = "DuplicateValue: something is given twice that may be given once

  refused: file N at OFFSET: DuplicateValue

In file N, counted from 0, the record at OFFSET gives the value of a public
symbol, the size of a weak reference, the alignment, size or base of a section,
or the start address, and an earlier record has given it.

Usual causes:
  - The writer of the file corrects a size by a second record.
  - Two modules were joined into one file.

What to do:
  - Look at the record: xxd -s OFFSET -l 16 FILE. The index follows the code.
  - Write the file again with one record for each, and link modules with
    `mufom link`.
";

/// The text of `help MissingValue`.
pub const MISSING_VALUE: &str = "MissingValue: a public symbol has no value

  refused: file N at OFFSET: MissingValue

In file N, counted from 0, the record at OFFSET declares a public symbol, and
no record of the external part gives its value.

Usual causes:
  - The source exports a name that it does not define.
  - A name that other modules define is declared as public; it must be a
    reference.

What to do:
  - Find the name: xxd -s OFFSET -l 32 FILE. It follows the code E8 and the
    index.
  - Define it in the source, or declare it there as external.
";

/// The text of `help MissingBase`.
pub const MISSING_BASE: &str = "MissingBase: an absolute section has no base address

  refused: file N at OFFSET: MissingBase

In file N, counted from 0, the record at OFFSET declares a section with the
letters A S, of an absolute section, and no record of the section part gives
its base address. Of a listing, `refused: listing: MissingBase`, a line
`section` has the letters AS and no `base`.

Usual causes:
  - The source has an absolute section without an address.
  - The writer of the file gives the address only in the data part.

What to do:
  - Find the name of the section: xxd -s OFFSET -l 32 FILE.
  - Give the section an address in the source, or make it relocatable and place
    it by the plan.
";

/// The text of `help BadAlignment`.
pub const BAD_ALIGNMENT: &str = "BadAlignment: the alignment of a section is 0 or above 2^31

  refused: file N at OFFSET: BadAlignment

In file N, counted from 0, the record at OFFSET gives the alignment of a
section. It must be 1 to 2,147,483,648; it need not be a power of 2.

Usual causes:
  - The writer of the file means no alignment by 0. It must write 1, or leave
    the record out.
  - The file is damaged.

What to do:
  - Look at the record: xxd -s OFFSET -l 16 FILE. After E7 come the index of
    the section and the alignment.
  - Set the alignment in the source or in the assembler's options.
";

/// The text of `help NoSection`.
pub const NO_SECTION: &str = "NoSection: bytes are loaded before a section is selected

  refused: file N at OFFSET: NoSection

In file N, counted from 0, the record at OFFSET loads bytes, and no record
before it selects the section (E5) that they belong to. Of a listing,
`refused: listing: NoSection`, no line `select` is before the loads.

Usual causes:
  - The writer of the file takes the first section as selected, or selects one
    by setting its program counter.
  - The source has code or data before its first section.

What to do:
  - Begin the code or data of the source with a section.
  - Write the file again with E5 and the index of the section before the first
    load.
";

/// The text of `help BadP`.
pub const BAD_P: &str = "BadP: an expression uses a program counter where it has none

  refused: file N at OFFSET: BadP

The variable P is allowed in two places. Where a section's program counter is
set, P is the same section's counter before it is set. In a relocated field, P
is the counter of the current section, which is the address of the field. In
file N, counted from 0, the record at OFFSET uses P elsewhere, or for another
section.

Usual causes:
  - A label is defined by `here`: the writer of the file gives the value of a
    public symbol, or the start address, as P.
  - A distance is computed to the counter of another section.

What to do:
  - Write R and an offset in place of P: the base of the section plus the
    distance of the label from it.
  - If OFFSET is in the debug part, use --no-debug to skip that part.
";

/// The text of `help BlockNesting`.
pub const BLOCK_NESTING: &str = "BlockNesting: debug blocks are not opened and closed in pairs

  refused: file N at OFFSET: BlockNesting

In file N, counted from 0, the record at OFFSET closes a debug block while none
is open; or it closes a block of kind 3 or 5 with an expression, which only
other kinds have; or it opens a block that is never closed.

Usual causes:
  - The compiler writes blocks in a way that this program does not read.
  - The end of the debug part is given too early in the header.

What to do:
  - Use --no-debug. It skips the debug part without reading it; everything else
    is linked and located as before.
";

/// The text of `help Depth`.
pub const DEPTH: &str = "Depth: more than 32 debug blocks are open at once

  refused: file N at OFFSET: Depth

In file N, counted from 0, the record at OFFSET opens a debug block inside 32
others.

Usual causes:
  - Functions or scopes are nested deeply, as in generated code.
  - The compiler opens blocks and does not close them.

What to do:
  - Use --no-debug. It skips the debug part without reading it; everything else
    is linked and located as before.
  - Or nest fewer scopes in the source.
";

/// The text of `help AfterEnd`.
pub const AFTER_END: &str = "AfterEnd: something follows the end of a module or of a text

  refused: file N at OFFSET: AfterEnd
    In file N, counted from 0, the module ends before OFFSET, and the file goes
    on there. The usual causes are a checksum record after the end, a file that
    was padded to a block size, as on a tape or by some transfers, and two
    modules in one file. See what follows: xxd -s OFFSET FILE. Cut the file
    there: head -c OFFSET FILE > NEW. If another module follows, put it into a
    file of its own, and name both files.

  refused: text line N: AfterEnd
    Line N of the text, counted from 1, is not blank and follows a line `q`,
    which ends the text. The usual cause is that several texts were joined. Put
    each into a file of its own, make a module of each, and link the modules.
";

/// The text of `help FileLimit`.
pub const FILE_LIMIT: &str = "FileLimit: a file has more than 67,108,864 bytes

A module must end within the first 67,108,864 bytes of its file. This is the
reason that the reader of modules has for a longer file. The commands of this
program stop at the same length, with this line:

  refused: file N: InputLimit

See `mufom help InputLimit` for causes and what to do.
";

/// The text of `help BadArchive`.
pub const BAD_ARCHIVE: &str = "BadArchive: an entry of an archive is invalid

  refused: file N at OFFSET: BadArchive

File N, counted from 0, is named after the + and begins as an archive of `ar`
does. The entry that begins at OFFSET, with a header of 60 bytes, is invalid.

Usual causes:
  - The archive was cut off: the contents of its last entry are incomplete, or
    the header is.
  - It was edited or copied as text, which moves the bytes that follow.
  - It is no longer an archive of this form at OFFSET, as after a conversion.
  - The name of the entry is one of the long names, and begins past their end.

What to do:
  - See how the entry begins: xxd -s OFFSET -l 60 FILE. A header is a name, a
    date, two numbers, a mode, a size in decimal digits, and the bytes 60 0A.
  - List the archive with `ar tv FILE`, and make it again: ar rcD NEW.a *.695.
";

/// The text of an error in a module as a whole, by its name.
pub(crate) fn structure_topic(word: &str) -> Option<&'static str>
    ensures { option_map (λ text. text.now) result ≡ topic_in structure word.now }
{
    match word {
        "Truncated" => Some(TRUNCATED),
        "BadHeader" => Some(BAD_HEADER),
        "BadDescriptor" => Some(BAD_DESCRIPTOR),
        "OffsetOrder" => Some(OFFSET_ORDER),
        "PartGap" => Some(PART_GAP),
        "WrongPart" => Some(WRONG_PART),
        "DuplicateIndex" => Some(DUPLICATE_INDEX),
        "UnknownIndex" => Some(UNKNOWN_INDEX),
        "DuplicateValue" => Some(DUPLICATE_VALUE),
        "MissingValue" => Some(MISSING_VALUE),
        "MissingBase" => Some(MISSING_BASE),
        "BadAlignment" => Some(BAD_ALIGNMENT),
        "NoSection" => Some(NO_SECTION),
        "BadP" => Some(BAD_P),
        "BlockNesting" => Some(BLOCK_NESTING),
        "Depth" => Some(DEPTH),
        "AfterEnd" => Some(AFTER_END),
        "FileLimit" => Some(FILE_LIMIT),
        "BadArchive" => Some(BAD_ARCHIVE),
        _ => None,
    }
}
