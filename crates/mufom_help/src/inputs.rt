//! Errors in the list of input files, and in the memory plan.

ghost use Rattle.std.specs.Prelude.{◌≡◌, option_map};
ghost use Rattle.mufom_help.specs.Topics.{inputs, topic_in};

/// The text of `help InputLimit`.
pub const INPUT_LIMIT: &str = "InputLimit: the input files together have more than 67,108,864 bytes

  refused: file N: InputLimit

File N, counted from 0, is the file in which the total passes 67,108,864 bytes
(64 MiB). A file that is named twice counts twice, and members count whether
they are needed or not. An archive counts as a whole.

Usual causes:
  - The files contain large debug parts.
  - One of the files is not an object module but, say, a disk image.

What to do:
  - Check the name of file N. Brackets and + are not counted. For `fromtxt` it
    is the text, file 0; cut a long text in two, and link the two modules.
  - Link in stages: `mufom link -o part.695 ..` over some of the files, then
    name part.695 in their place. With --no-debug the result has no debug part.
  - Leave out members that the program does not need.
";

/// The text of `help TooManyFiles`.
pub const TOO_MANY_FILES: &str = "TooManyFiles: more than 1,024 files are named

  refused: TooManyFiles N

N is the number of files that are named, those after the + included. At most
1,024 are read in one run. An archive is one file.

Usual causes:
  - A pattern such as *.695 matches more files than were meant.

What to do:
  - Put the members into an archive, and name that: ar rcD lib.a *.695.
  - Link in stages: `mufom link -o part.695 ..` over at most 1,024 files, then
    name part.695 in their place.
  - Name only the members that the program may need.
";

/// The text of `help TooManyModules`.
pub const TOO_MANY_MODULES: &str = "TooManyModules: the files have more than 65,536 modules

  refused: TooManyModules N

N is the number of modules of all files, the members of archives included,
whether they are needed or not. One run takes at most 65,536.

Usual causes:
  - An archive is named more than once.
  - Archives are named that the program does not need.

What to do:
  - Name each archive once, after the +. A member is found wherever it is.
  - Link in stages: `mufom link -o part.695 .. + FILES` over some of the
    archives, then name part.695 in the place of the files.
";

/// The text of `help TooDeep`.
pub const TOO_DEEP: &str = "TooDeep: more than 64 groups are open at once

  refused: TooDeep N

Groups of files, in brackets, may contain groups. N is the greatest number of
groups that are open at once, and at most 64 may be.

Usual causes:
  - A script opens a group for each file and closes them all at the end.

What to do:
  - Close a group before the next one opens. Groups make no difference to what
    is linked; they only say what is linked first.
";

/// The text of `help Syntax`.
pub const SYNTAX: &str = "Syntax: the plan is not a TOML document

  refused: plan: Syntax

Usual causes:
  - --plan names another file than was meant.
  - A bracket, a quote, a comma or an equals sign is missing.
  - A key is given twice in one table.
  - A name is not in quotes, or a number is written as in C with a suffix.
  - The file is not in UTF-8.

What to do:
  - Compare the file with this plan, which has one region:
      [[region]]
      name = \"rom\"
      base = 0x2000
      size = 256
      sections = [\"*\"]
  - Put `explain` before the command: it prints the line on which the first
    statement begins that is not TOML.
";

/// The text of `help Shape`.
pub const SHAPE: &str = "Shape: a key of the plan is missing, unknown, or has a wrong value

  refused: plan: Shape FIELD
  refused: plan: Shape region R FIELD
  refused: plan: Shape symbol S FIELD

R and S are the numbers of the region and of the symbol in the plan, from 0.
FIELD without a number is a key at the top: `region`, `symbol` or `keep`, or
`extra` for any other. FIELD of a region or of a symbol is what is wrong:
  extra       a key that it does not have
  name        missing, not a text, empty, or that of an earlier one
  base, size  missing, not an integer, or negative
  sections    missing, not an array of texts, or a name that is already listed
  common      not true or false, or true in a second region
  load        not the name of another region, or of one that has `load` itself;
              for a symbol, not a name in the list of a region
  kind        a symbol has none of the five keys value, start, end, load and
              region_end, or more than one
  value       not an integer, or negative
  start, end  not a name in the list of a region
  region_end  not the name of a region

Usual causes:
  - A key is misspelled or missing: a region needs name, base, size, sections.
  - `region` or `symbol` is written as [region] instead of [[region]].
  - `keep` is not an array of texts, or has a name twice.
  - `keep` comes after a [[region]] or a [[symbol]]: it must come before them,
    or it is a key of that table (`extra`).
  - A number is in quotes.
  - A section is listed in two regions, or * is.

What to do:
  - Put `explain` before the command: it prints a key that is not allowed.
  - Correct the field. `mufom help plan` shows a plan.
";

/// The text of `help Beyond`.
pub const BEYOND: &str = "Beyond: a region or a byte is above the highest address allowed

  refused: plan: Beyond region R
    R is the number of a region in the plan, from 0. Its base plus its size is
    above 9,223,372,036,854,775,807 (2^63 - 1). The usual cause is that `size`
    is given as the last address, or has a digit too many. `size` is the number
    of addressable units in the region: a region from 0x1000 to 0x1FFF has the
    base 0x1000 and the size 0x1000.

  refused: text line N: Beyond
    Line N, counted from 1, has a byte at an address that does not fit in the
    bytes of an address: 4 bytes, which end at FFFFFFFF, or as many as --maus
    gives. The usual causes are an address with a digit too many, and a text
    for a processor with longer addresses. Correct the address line before line
    N, or give the number of bytes: mufom fromtxt --maus 8.
";

/// The text of an error in the input files or the plan, by its name.
pub(crate) fn input_topic(word: &str) -> Option<&'static str>
    ensures { option_map (λ text. text.now) result ≡ topic_in inputs word.now }
{
    match word {
        "InputLimit" => Some(INPUT_LIMIT),
        "TooManyFiles" => Some(TOO_MANY_FILES),
        "TooManyModules" => Some(TOO_MANY_MODULES),
        "TooDeep" => Some(TOO_DEEP),
        "Syntax" => Some(SYNTAX),
        "Shape" => Some(SHAPE),
        "Beyond" => Some(BEYOND),
        _ => None,
    }
}
