//! Errors in one record of a module: its numbers, strings, expressions and codes.

ghost use Rattle.std.specs.Prelude.{◌≡◌, option_map};
ghost use Rattle.mufom_help.specs.Topics.{records, topic_in};

/// The text of `help BadNumber`.
pub const BAD_NUMBER: &str = "BadNumber: a number is expected, and the byte there cannot begin one

  refused: file N at OFFSET: BadNumber

In file N, counted from 0, a number should begin at OFFSET. A number is one
byte 00 to 7F, or a byte 80 to 88 and as many bytes as it says after 80. The
byte there is 89 to FF, or the number is an index, and is 2^32 or more.

Usual causes:
  - The file is damaged: bytes were changed, lost or added on its way, as by a
    transfer in text mode.
  - Its writer spells numbers or records in another way than this program
    reads them.

What to do:
  - Look at the bytes there: xxd -s OFFSET -l 32 FILE.
  - Compare the file with its source, or write it again.
  - If OFFSET is in the debug part, use --no-debug to skip that part.
";

/// The text of `help BadId`.
pub const BAD_ID: &str = "BadId: a string is expected, and the byte there cannot begin one

  refused: file N at OFFSET: BadId

In file N, counted from 0, a string, such as a name, should begin at OFFSET. A
string begins with its length: one byte 00 to 7F, or DE and one byte, or DF and
two bytes. The byte there is none of these.

Usual causes:
  - The file is damaged: bytes were changed, lost or added on its way.
  - A length or an offset before OFFSET is wrong, so that the bytes are read
    out of step.

What to do:
  - Look at the bytes there: xxd -s OFFSET -l 32 FILE.
  - Compare the file with its source, or write it again.
  - If OFFSET is in the debug part, use --no-debug to skip that part.
";

/// The text of `help BadRecord`.
pub const BAD_RECORD: &str = "BadRecord: a byte is not the code of any record

  refused: file N at OFFSET: BadRecord

In file N, counted from 0, the byte at OFFSET should be the code of a record,
or the second byte of a code that begins with E2 or F1, or the ED or E4 that
follows the count of a repeat (F7). No record begins with that byte.

Usual causes:
  - The record before is longer than its writer meant, or shorter: a count, a
    length or an optional number is wrong.
  - The file is damaged, or its writer uses records of its own.

What to do:
  - For a file of GNU binutils, try --gnu; if it has debug data, try
    --gnu --no-debug.
  - Look at the bytes before and at OFFSET: xxd FILE.
  - If OFFSET is in the debug part, use --no-debug to skip that part.
  - Write the file again with records of the standard.
";

/// The text of `help UnsupportedRecord`.
pub const UNSUPPORTED_RECORD: &str =
    "UnsupportedRecord: the standard has this record, but mufom does not read it

  refused: file N at OFFSET: UnsupportedRecord

In file N, counted from 0, the record at OFFSET is F2 (a type), or E2 with C1,
C2, C6, CD or D2 after it. This program has no support for them.

Usual causes:
  - The file was compiled with debug information, which has type records.
  - Its writer uses assignments that this program leaves out.

What to do:
  - If OFFSET is in the debug part, use --no-debug to skip that part, or
    compile without debug information.
  - Otherwise set the compiler or assembler to write plain object modules.
";

/// The text of `help UnsupportedFunction`.
pub const UNSUPPORTED_FUNCTION: &str =
    "UnsupportedFunction: an expression has a function that mufom does not read

  refused: file N at OFFSET: UnsupportedFunction

In file N, counted from 0, the byte at OFFSET is A0, A1, A4 or B3 to B9: a
function of the standard that this program leaves out. It has absolute value,
negation, + - * /, remainder, maximum, minimum, comparisons, and the bitwise
and, or and exclusive or.

Usual causes:
  - The assembler left an expression to the linker that takes bits out of a
    value, or asks whether something is defined.
  - The bytes are read out of step, because a byte before OFFSET is wrong.

What to do:
  - For a file of GNU binutils that has debug data, try --gnu --no-debug.
  - Find the expression in the source, and write it with the functions above:
    a shift by n bits is a product with 2^n, or a quotient by it.
  - If OFFSET is in the debug part, use --no-debug to skip that part.
";

/// The text of `help UnsupportedVariable`.
pub const UNSUPPORTED_VARIABLE: &str =
    "UnsupportedVariable: an expression has a variable that mufom does not read

  refused: file N at OFFSET: UnsupportedVariable

In file N, counted from 0, the byte at OFFSET is a letter (C1 to DA) that names
no variable here. The variables are R and L, the base of a section, S, its
size, P, its program counter, I, the value of a public symbol, and X, that of a
reference.

Usual causes:
  - The writer of the file uses variables of its own, or others of the
    standard.
  - A letter that belongs to the next field is read as a part of an expression,
    because a byte before OFFSET is wrong.

What to do:
  - For a file of GNU binutils that has debug data, try --gnu --no-debug.
  - Find the expression in the source, and write it with public symbols and
    addresses in sections.
  - If OFFSET is in the debug part, use --no-debug to skip that part.
";

/// The text of `help Underflow`.
pub const UNDERFLOW: &str = "Underflow: a function in an expression has too few operands

  refused: file N at OFFSET: Underflow

Expressions are in postfix form: the operands come before their function. In
file N, counted from 0, the function at OFFSET needs one operand or two, and
fewer are left.

Usual causes:
  - The writer of the file puts the function first, or between its operands.
  - The file is damaged, or the bytes are read out of step.

What to do:
  - Look at the expression that ends there: xxd -s OFFSET -l 32 FILE.
  - Write the file again with postfix expressions: base of section 1 plus 4 is
    D2 01 04 A5.
  - If OFFSET is in the debug part, use --no-debug to skip that part.
";

/// The text of `help SurplusTerms`.
pub const SURPLUS_TERMS: &str = "SurplusTerms: an expression leaves more than one value

  refused: file N at OFFSET: SurplusTerms

Expressions are in postfix form and must leave one value. In file N, counted
from 0, the expression that ends before OFFSET leaves two or more.

Usual causes:
  - The size of a field follows the expression without a comma (90), as GNU
    binutils writes it, for example for gcc -mpcrel. --gnu reads this form.
  - A function is missing after its operands.
  - A number that belongs to the next field follows the expression at once, so
    that it is read as a part of it.

What to do:
  - For a file of GNU binutils, try --gnu; if it has debug data, try
    --gnu --no-debug.
  - Look at the bytes before OFFSET: xxd FILE.
  - If OFFSET is in the debug part, use --no-debug to skip that part.
";

/// The text of `help Empty`.
pub const EMPTY: &str = "Empty: an expression is expected, and there is none

  refused: file N at OFFSET: Empty

In file N, counted from 0, an expression should begin at OFFSET: the value of a
symbol, of a program counter, of a field or of the start address. The byte
there begins no number, variable or function.

Usual causes:
  - The writer of the file leaves out a value where it means 0.
  - The file is damaged, or the bytes are read out of step.

What to do:
  - Look at the bytes there: xxd -s OFFSET -l 32 FILE.
  - Write the value, and for 0 the byte 00.
  - If OFFSET is in the debug part, use --no-debug to skip that part.
";

/// The text of `help TooLong`.
pub const TOO_LONG: &str = "TooLong: an expression, a plan or a raw image is longer than the limit

  refused: file N at OFFSET: TooLong
    In file N, counted from 0, an expression has more than 255 numbers,
    variables and functions. OFFSET is that of the 256th. The usual causes are
    a generator or a macro that builds expressions, and a damaged file. Give a
    name to a part of the expression: a public symbol.
    If OFFSET is in the debug part, use --no-debug to skip that part.

  refused: listing line N column M: TooLong
    The same of the expression that begins at column M of line N of a listing.

  refused: plan: TooLong
    The file of the plan has more than 65,536 bytes. The usual cause is that
    --plan names another file than was meant. Check the name. If the plan is
    really that long, remove its comments, and list * in place of names of
    sections.

  refused: bin: TooLong COUNT
    The raw image would have COUNT bytes, more than 67,108,864, since it goes
    from the lowest loaded address to the highest; or the region of --region has
    that many addresses. The usual cause is a small section that is far from the
    rest: a vector table, or data in a region for RAM. Look for it with `dump`.
    Then name a region after --region, or move the section by the plan.
";

/// The text of `help LongRun`.
pub const LONG_RUN: &str = "LongRun: a literal of a load has more than 65,535 bytes

  refused: file N at OFFSET: LongRun

In file N, counted from 0, a load says at OFFSET how many bytes follow, and
that count is above 65,535. Of a listing, `refused: listing: LongRun`, a line
`bytes` has more than 65,535 bytes.

Usual causes:
  - The writer of the file puts a whole section into one load.
  - The file is damaged, or the bytes are read out of step.

What to do:
  - Look at the bytes there: xxd -s OFFSET -l 32 FILE.
  - Write the file again with several loads: each continues where the one
    before ended.
";

/// The text of `help BadFieldSize`.
pub const BAD_FIELD_SIZE: &str = "BadFieldSize: the size of a relocated field is not 1 to 8 bytes

  refused: file N at OFFSET: BadFieldSize

A field in a relocating load is an expression in brackets, and its size may
follow a comma (90). In file N, counted from 0, the size at OFFSET is 0 or
above 8.

Usual causes:
  - The writer of the file counts bits: for 4 bytes it must write 4, not 32.
  - The file is damaged, or the bytes are read out of step.

What to do:
  - Look at the bytes there: xxd -s OFFSET -l 32 FILE.
  - Write the size in bytes. Without a comma and a size, a field is as wide as
    an address.
";

/// The text of `help BracketMismatch`.
pub const BRACKET_MISMATCH: &str = "BracketMismatch: a bracket is not closed by its partner

  refused: file N at OFFSET: BracketMismatch

An expression is enclosed in two bytes: BA and BB for a signed field, BC and BD
for an unsigned one, and BE and BF for one that may be either. In file N,
counted from 0, the byte at OFFSET should close a bracket, and it is not the
partner of the one that is open.

Usual causes:
  - The writer of the file mixes the brackets of two kinds of fields.
  - Something follows the expression that is not a comma and a size.
  - The expression ended early, at a byte that it cannot contain.

What to do:
  - Look at the bytes there: xxd -s OFFSET -l 32 FILE.
  - Write the file again with the closing bracket that belongs to the opening
    one.
";

/// The text of `help BadSectionType`.
pub const BAD_SECTION_TYPE: &str = "BadSectionType: a section has a type that mufom does not read

  refused: file N at OFFSET: BadSectionType

In file N, counted from 0, the letters at OFFSET give the type of a section.
They must be C (byte C3), a relocatable section, or A S (bytes C1 D3), an
absolute one. The letter P, D or R may follow.

Usual causes:
  - The section is meant to be joined with sections of the same name, or laid
    over them. This program has no such types.
  - The file is damaged, or the bytes are read out of step.

What to do:
  - Find the section in the source: its name follows the letters, as
    xxd -s OFFSET -l 32 FILE shows.
  - Give it a relocatable type. Sections of one name are placed one after the
    other if a plan lists that name. For space that modules share, use a weak
    reference with a size (a common).
";

/// The text of `help UnsupportedBlock`.
pub const UNSUPPORTED_BLOCK: &str =
    "UnsupportedBlock: a debug block has a kind that mufom does not read

  refused: file N at OFFSET: UnsupportedBlock

In file N, counted from 0, the kind of a debug block, at OFFSET, is not 3
(module), 4 (global function), 5 (source file), 6 (local function) or 11 (part
of a section).

Usual causes:
  - The compiler writes type tables, or scopes of other kinds, as debug
    information.

What to do:
  - Use --no-debug. It skips the debug part without reading it; everything else
    is linked and located as before.
  - Or compile with less debug information.
";

/// The text of `help UnsupportedAttribute`.
pub const UNSUPPORTED_ATTRIBUTE: &str =
    "UnsupportedAttribute: a debug note has an attribute that mufom does not read

  refused: file N at OFFSET: UnsupportedAttribute

In file N, counted from 0, the attribute of a note on a debug name, at OFFSET,
is not 1, 2, 3, 4, 5, 7, 8 or 10.

Usual causes:
  - The compiler describes its variables in ways that this program leaves out.

What to do:
  - Use --no-debug. It skips the debug part without reading it; everything else
    is linked and located as before.
  - Or compile with less debug information.
";

/// The text of an error in one record of a module, by its name.
pub(crate) fn record_topic(word: &str) -> Option<&'static str>
    ensures { option_map (λ text. text.now) result ≡ topic_in records word.now }
{
    match word {
        "BadNumber" => Some(BAD_NUMBER),
        "BadId" => Some(BAD_ID),
        "BadRecord" => Some(BAD_RECORD),
        "UnsupportedRecord" => Some(UNSUPPORTED_RECORD),
        "UnsupportedFunction" => Some(UNSUPPORTED_FUNCTION),
        "UnsupportedVariable" => Some(UNSUPPORTED_VARIABLE),
        "Underflow" => Some(UNDERFLOW),
        "SurplusTerms" => Some(SURPLUS_TERMS),
        "Empty" => Some(EMPTY),
        "TooLong" => Some(TOO_LONG),
        "LongRun" => Some(LONG_RUN),
        "BadFieldSize" => Some(BAD_FIELD_SIZE),
        "BracketMismatch" => Some(BRACKET_MISMATCH),
        "BadSectionType" => Some(BAD_SECTION_TYPE),
        "UnsupportedBlock" => Some(UNSUPPORTED_BLOCK),
        "UnsupportedAttribute" => Some(UNSUPPORTED_ATTRIBUTE),
        _ => None,
    }
}
