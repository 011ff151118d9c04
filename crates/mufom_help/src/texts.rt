//! Errors in a TI-TXT text.

ghost use Rattle.std.specs.Prelude.{◌≡◌, option_map};
ghost use Rattle.mufom_help.specs.Topics.{texts, topic_in};

/// The text of `help BadLine`.
pub const BAD_LINE: &str = "BadLine: a line is not a valid TI-TXT line

  refused: text line N: BadLine

N is the number of the line, from 1. A line is blank, or an address, or bytes,
or the line `q` at the end:
  @1000
  4E 71 4E 75
  q
An address is `@` and 1 to 16 hexadecimal digits. A byte is two hexadecimal
digits, and there is a space between two bytes. Spaces at the ends of a line
are allowed.

Usual causes:
  - FILE is in another format, such as Intel HEX or S-records, or is a module.
  - Bytes are written without spaces, or with tabs or commas between them.
  - A byte has one digit, or an address begins with 0x.
  - Lines end with a carriage return alone.

What to do:
  - Look at the line: sed -n Np FILE.
  - Convert the file to TI-TXT. The program `srec_cat` does that:
      srec_cat FILE -intel -output NEW -ti-txt
";

/// The text of `help NoAddress`.
pub const NO_ADDRESS: &str = "NoAddress: the text has bytes before any address

  refused: text line N: NoAddress

Line N, counted from 1, has bytes, and no line before it has an address. So it
is not known where the bytes belong.

Usual causes:
  - The first line of the text is missing.
  - The `@` of the address is missing, so that its digits are read as bytes.

What to do:
  - Put a line with the address before the bytes, such as @1000.
";

/// The text of `help Twice`.
pub const TWICE: &str = "Twice: the text has two bytes for one address

  refused: text line N: Twice ADDRESS

Line N, counted from 1, has the second byte for ADDRESS, which is decimal. A
text has one byte for an address, even if both would be the same.

Usual causes:
  - Two texts that overlap were joined.
  - An address line is wrong, or is missing between two rows of bytes.

What to do:
  - Print the address as the text has it: printf '@%X\\n' ADDRESS. The bytes
    after an address line go to that address and those that follow it.
  - Remove one of the bytes, or correct the address line.
";

/// The text of `help NoEnd`.
pub const NO_END: &str = "NoEnd: the text has no line that ends it

  refused: text line N: NoEnd

A text ends with a line that has the letter q alone. N is the number of lines;
what follows the last line end counts as a line, even if it is empty.

Usual causes:
  - The file was cut off while it was copied.
  - The program that wrote it was stopped.

What to do:
  - Get the file again, since bytes may be missing at its end.
  - If it is complete, add the line: echo q >> FILE.
";

/// The text of an error in a TI-TXT text, by its name.
pub(crate) fn text_topic(word: &str) -> Option<&'static str>
    ensures { option_map (λ text. text.now) result ≡ topic_in texts word.now }
{
    match word {
        "BadLine" => Some(BAD_LINE),
        "NoAddress" => Some(NO_ADDRESS),
        "Twice" => Some(TWICE),
        "NoEnd" => Some(NO_END),
        _ => None,
    }
}
