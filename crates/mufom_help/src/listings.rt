//! Errors in a listing from which a module is built.

ghost use Rattle.std.specs.Prelude.{◌≡◌, option_map};
ghost use Rattle.mufom_help.specs.Topics.{listings, topic_in};

/// The text of `help BadText`.
pub const BAD_TEXT: &str = "BadText: a line is not one of a listing, or may not come there

  refused: listing line N column 1: BadText

Line N, counted from 1, is not a line that `show --listing` prints, or may not
come after the lines before it. At the end of the text, lines are missing.
The order of lines is: module, extension, environment, sections, publics and
references, each with its notes, debug lines, loads, start. A block and a
repeat end with `end`.

Usual causes:
  - A word is misspelled, or a part of the line is missing.
  - FILE is what `show` prints without --listing, or is a module.
  - An `end` is missing or is not needed, or lines are in another order.
  - There are tabs, or carriage returns at the ends of lines.

What to do:
  - Look at the line: sed -n Np FILE.
  - Compare it with a line of the same kind: mufom show --listing a.695.
";

/// The text of `help TooGreat`.
pub const TOO_GREAT: &str = "TooGreat: a number of a listing is greater than its field holds

  refused: listing line N column M: TooGreat

The number at column M of line N is too great; both count from 1, and a column
counts bytes. The greatest is 255 for `maus` and for the size of a field,
4,294,967,295 for a position and for the number of a section, public,
reference or debug name, and 18,446,744,073,709,551,615 elsewhere.

Usual causes:
  - A digit too many.
  - A number that should be negative: write 18446744073709551615 for -1.

What to do:
  - Look at the line, and correct the number: sed -n Np FILE.
";

/// The text of `help Position`.
pub const POSITION: &str = "Position: an entry has a wrong number, or names one that does not exist

  refused: listing line N column M: Position
    The number at column M of line N, after `section`, `public`, `reference` or
    `name`, is not the number of such lines before it. These are numbered from
    0 in their order. The usual cause is a line that was added or removed:
    number the lines after it again, and change the expressions and loads that
    name them.

  refused: listing: Position
    A load, an expression or a debug item names a section, public, reference or
    debug name that the listing does not have, or a debug name before its own
    line. In an expression R0 is the base of section 0, I0 public 0, and X0
    reference 0. Correct the number.
";

/// The text of `help Count`.
pub const COUNT: &str = "Count: a line of bytes states another number of bytes than it has

  refused: listing line N column M: Count

In line N the number after `bytes`, at column M, is not the number of bytes
that follow it. Lines and columns count from 1.

Usual causes:
  - Bytes were added or removed, and the number stayed.
  - A line was cut off while it was copied.

What to do:
  - Write the number of bytes, each of two hexadecimal digits: bytes 2 4E71.
";

/// The text of `help Deep`.
pub const DEEP: &str = "Deep: a block of a listing is inside 32 others

  refused: listing line N column M: Deep

The line `block` that begins at column M of line N opens a 33rd debug block.
Lines and columns count from 1.

Usual causes:
  - Lines `end` of earlier blocks are missing.
  - The listing was made by a program that nests blocks deeply.

What to do:
  - Add the missing `end` after the last item of each block, or nest fewer
    blocks.
";

/// The text of `help LongId`.
pub const LONG_ID: &str = "LongId: a name of a listing has more than 65,535 bytes

  refused: listing: LongId

The module, its processor, a section, a public symbol, a reference, a debug
block or a debug name has a name that is too long.

Usual causes:
  - The closing quote of a name is missing, so that it goes on.
  - The listing was made by a program that makes long names.

What to do:
  - Find the name: awk 'length > 65535 { print FNR }' FILE prints the numbers of
    long lines.
";

/// The text of `help BadMaus`.
pub const BAD_MAUS: &str = "BadMaus: an address does not have 1 to 8 addressable units

  refused: listing: BadMaus

The number after `maus` in the first line of the listing is 0, or more than 8.
It is the number of bytes (MAUs, minimum addressable units) in an address.

Usual causes:
  - The number of bits of an address was written in place of its bytes.
  - The listing is of a processor that addresses more than 8 units.

What to do:
  - Write 4 for a 68000, or 1 to 8 as the processor has it.
";

/// The text of `help BadAlign`.
pub const BAD_ALIGN: &str = "BadAlign: the alignment of a section is 0 or above 2^31

  refused: listing: BadAlign

The number after `align` in a line `section` is 0, or more than 2,147,483,648.

Usual causes:
  - 0 was written for a section without an alignment, which is 1.
  - The alignment was written as a power of two, or a digit is too many.

What to do:
  - Write 1 for a section that may begin at any address, 2 for one that begins
    at an even address, and so on.
";

/// The text of `help MisplacedP`.
pub const MISPLACED_P: &str = "MisplacedP: an expression uses a program counter where it has none

  refused: listing: MisplacedP

P0 is the program counter of section 0. Only two lines can use one: `field` that
of the section into which it loads, which was selected last, and `counter` that
of the section whose counter it sets.

Usual causes:
  - A line `field` was moved below another `select`.
  - A public symbol or the start should be an address in a section, and P was
    written for it.

What to do:
  - Look for P and a digit in the lines `public`, `start`, `block`, `value` and
    `end`, and use the base of the section and an offset: (R0 + 4).
  - In a line `field` or `counter`, use the number of its own section.
";

/// The text of `help FieldSize`.
pub const FIELD_SIZE: &str = "FieldSize: the size of a field is not 1 to 8 bytes

  refused: listing: FieldSize

The number before the equals sign of a line `field` is 0, or more than 8. It is
the number of bytes that the value is stored in: field either 4 = (R0 + 4).

Usual causes:
  - The number of bits was written in place of that of bytes.
  - The value and the size were exchanged.

What to do:
  - Write a size of 1 to 8 bytes.
";

/// The text of `help Attribute`.
pub const ATTRIBUTE: &str = "Attribute: a note of a debug name has an unknown attribute

  refused: listing: Attribute

The number after `attribute` in a line `note` of a debug name must be 1, 2, 3,
4, 5, 7, 8 or 10.

Usual causes:
  - The number is that of another kind of note, as those of a public symbol.
  - A digit is missing, or one too many.

What to do:
  - Compare the line with those of a module that can be read:
      mufom show --listing a.695
  - A note that is not needed can be removed.
";

/// The text of `help Nesting`.
pub const NESTING: &str = "Nesting: a module or source block has an address at its end

  refused: listing: Nesting

A line `end` closes a block of kind 3 (a module) or 5 (a source file), and has
an expression. Only a block of kind 4 or 6 (functions) or 11 (a part of a
section) has an address at its end.

Usual causes:
  - A line `end` is missing or is not needed, so that the others belong to other
    blocks than was meant.
  - The number after `block` was changed.

What to do:
  - Write `end` alone for these blocks.
";

/// The text of `help Weight`.
pub const WEIGHT: &str = "Weight: the module is too large

  refused: listing: Weight

The records of the module, as they would be in its file, have 2^32 bytes or
more.

Usual causes:
  - The listing was made by a program that repeats its lines without end.
  - Names or lines of bytes are very long.

What to do:
  - Make several modules, and link them when they are located.
";

/// The text of an error in a listing, by its name.
pub(crate) fn listing_topic(word: &str) -> Option<&'static str>
    ensures { option_map (λ text. text.now) result ≡ topic_in listings word.now }
{
    match word {
        "BadText" => Some(BAD_TEXT),
        "TooGreat" => Some(TOO_GREAT),
        "Position" => Some(POSITION),
        "Count" => Some(COUNT),
        "Deep" => Some(DEEP),
        "LongId" => Some(LONG_ID),
        "BadMaus" => Some(BAD_MAUS),
        "BadAlign" => Some(BAD_ALIGN),
        "MisplacedP" => Some(MISPLACED_P),
        "FieldSize" => Some(FIELD_SIZE),
        "Attribute" => Some(ATTRIBUTE),
        "Nesting" => Some(NESTING),
        "Weight" => Some(WEIGHT),
        _ => None,
    }
}
