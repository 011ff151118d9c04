//! Error lines without a name of an error, and the lines about a plan: what they mean, by how they begin.

ghost use Rattle.std.specs.Prelude.{◌≡◌, option_map};
ghost use Rattle.mufom_help.specs.Topics.{lines, topic_in};

/// The text of `help usage`.
pub const USAGE: &str = "usage: the arguments give no command that mufom can carry out

  usage: bad address     --at needs 1 to 16 hexadecimal digits
  usage: bad byte        --fill needs two hexadecimal digits
  usage: bad count       `make` needs 1 to 65,536, and --maus one digit 1 to 8
  usage: bad members     a + is not between files and members, or comes twice
  usage: bad words       an option is unknown, missing, without its value, or
                         given twice (only --keep may be); or `help` has no
                         text for the argument
  usage: empty group     a group has no file
  usage: file count      a command for one file has more, or `make` has not one
                         number
  usage: long name       the name after --name has more than 65,535 bytes
  usage: no command      the first argument is not a command, or there is none
  usage: no file         no file is named
  usage: open group      a [ is not closed
  usage: stray bracket   a ] closes no group, or the command has no groups

No file was read or written.

Usual causes:
  - An option is misspelled, or the command does not have it.
  - A file name contains spaces and is not in quotes, so it is several
    arguments; or the shell replaced [, ] or *.
  - A file name begins with - and does not come after `--`.

What to do:
  - Put `explain` before the command. It prints the argument that is wrong, as
    in `word 1: \"--pln\"`, or the option that is missing. Arguments count from
    0, which is the command itself.
  - Compare the command with the form that `mufom help COMMAND` prints.
";

/// The text of `help read`.
pub const READ: &str = "read: an input could not be opened, or not read to its end

  read fault: file N
    File N, counted from 0. Brackets and + are not counted.
  read fault: plan
    The file that --plan names.

Nothing was printed, and no file was created.

Usual causes:
  - The name is misspelled, or the path is relative to another folder.
  - The name is that of a folder.
  - The user who runs mufom may not read the file.
  - The disk or the connection to it failed while the file was read.
  - The shell passed a pattern such as *.695 on, since no file matches it.

What to do:
  - Put `explain` before the command. It prints the name of the file and, if
    the system tells it, the cause: `no such file`, `is a folder` or `no
    permission`.
  - Look for the file with `ls -l` from the folder in which mufom runs.
";

/// The text of `help write`.
pub const WRITE: &str = "write: the output could not be written

  write fault

The output is the file after -o or, for a command without -o, the text on
standard output. A part of it may have been written: do not use it.

Usual causes:
  - The folder of the file does not exist, or may not be written to.
  - The name after -o is that of a folder, or of a file that may not be
    changed.
  - The disk is full, or a quota is used up.
  - Standard output is closed, or the program that reads it has ended, as `head`
    does after its lines.

What to do:
  - Create the folder, or give another name after -o.
  - Make room on the disk (`df` shows how much there is), and run the command
    again: it writes the whole file anew.
  - `explain` does not write, so it finds no write fault. For such a command it
    prints `done` and the name of the file that it did not try to write.
";

/// The text of `help memory`.
pub const MEMORY: &str = "memory: the system gave mufom no more memory

  out of memory

Nothing was printed, and no file was created. The files may be right.

Usual causes:
  - A limit is set for the process, for example by `ulimit -v` or by the
    container in which it runs.
  - Other programs use the memory of the machine.
  - The files are large: all modules of a command are in memory at once, and
    a byte of a file may take many bytes there. `explain` takes as much again.

What to do:
  - Raise the limit, or end other programs.
  - Leave the debug parts out: --no-debug.
  - Link in stages: `mufom link -o part.695 ..` over some of the files, then
    name part.695 in their place.
  - Leave out members that the program does not need.
";

/// The text of `help plan`.
pub const PLAN: &str = "plan: the memory plan could not be used

  refused: plan: Syntax        the file is not a TOML document
  refused: plan: Shape ..      a key is missing, unknown or wrong
  refused: plan: Beyond ..     a region ends above the highest address
  refused: plan: TooLong       the file has more than 65,536 bytes

`mufom help Syntax` and so on tell more, and `explain` before the command names
the file. `read fault: plan` means that it could not be read: `mufom help read`.

A plan is the file after --plan. It says where the sections go:
  keep = [\"vectors\"]         # sections that stay with --keep, if there are any
  [[region]]
  name = \"rom\"
  base = 0x1000              # the lowest address
  size = 0x8000              # the number of addressable units
  sections = [\"code\", \"*\"]   # names in their order; * is all others
  [[region]]
  name = \"ram\"
  base = 0x10000
  size = 0x4000
  sections = [\"data\", \"bss\"]
  common = true              # commons go here too; one region at most
  load = \"rom\"               # the bytes of these sections are stored in rom
  [[symbol]]
  name = \"data_begin\"        # a public symbol that the plan defines, by one of
  start = \"data\"             # value, start, end, load and region_end
`start` and `end` are where the sections of a name begin and end, `load` where
their bytes are stored, and `region_end` the end of all that is in a region.
";

/// The text about error lines that begin with a word.
pub(crate) fn line_topic(word: &str) -> Option<&'static str>
    ensures { option_map (λ text. text.now) result ≡ topic_in lines word.now }
{
    match word {
        "usage" => Some(USAGE),
        "read" => Some(READ),
        "write" => Some(WRITE),
        "memory" => Some(MEMORY),
        "plan" => Some(PLAN),
        _ => None,
    }
}
