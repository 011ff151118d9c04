//! The commands: what each does, its options, its exit statuses and an example.

ghost use Rattle.std.specs.Prelude.{◌≡◌, option_map};
ghost use Rattle.mufom_help.specs.Topics.{commands, topic_in};

/// What `help` prints without an argument: the commands with their forms, and how to get more help.
pub const LIST: &str = "mufom links, locates and inspects object modules of IEEE Std 695 (MUFOM).

Usage: mufom COMMAND [OPTION ...] OPERAND ...

To look at modules:
  show [--listing] [--gnu] [--no-debug] FILE
  check [--gnu] [--no-debug] FILE ...
To link modules, and to place their sections by a memory plan:
  link [--gnu] [--no-debug] [--name NAME] -o OUT FILES
  locate [--gnu] [--no-debug] [--plan PLAN] [--keep NAME] -o OUT FILES
To print the image, what is at which address, or the source line at one:
  dump [--gnu] [--no-debug] [--plan PLAN] [--keep NAME] FILES
  map [--gnu] [--no-debug] [--plan PLAN] [--keep NAME] [--at ADDRESS] FILES
  addr [--gnu] [--plan PLAN] --at ADDRESS FILES
To write the image as raw bytes or as TI-TXT:
  bin [--gnu] [--no-debug] [--plan PLAN] [--keep NAME] [--fill BYTE]
      [--region NAME] -o OUT FILES
  txt [--gnu] [--no-debug] [--plan PLAN] [--keep NAME] -o OUT FILES
To make modules, from a TI-TXT file or a listing, or for a self-test:
  fromtxt [--maus N] -o OUT FILE
  build -o OUT FILE
  make COUNT
To learn why a command is refused, or for help:
  explain COMMAND [OPTION ...] OPERAND ...
  help [COMMAND or NAME]
  version

FILES are files and groups, then perhaps a + and members or archives:
  a.695 [ b.695 c.695 ] + library.695 libc.a
A group is linked into one module first. A member is linked only if another
module needs it.

For more:
  mufom help COMMAND   what a command does, its options and an example
  mufom help NAME      what an error means and what to do about it; for the
                       line `refused: locate: Misfit section 3 region 0`
                       that is `mufom help Misfit`
A line `usage: ..` means that the arguments are wrong: `mufom explain` before
the command prints which. `mufom help` also has the texts `usage`, `read`,
`write` and `memory`, for lines without a NAME, and `plan`, on memory plans.
";

/// The text of `help show`.
pub const SHOW: &str = "show: prints one module as text

Usage: mufom show [--listing] [--gnu] [--no-debug] FILE

Prints the sections, public symbols, references, debug items, loads and start
address of a module, one line for each. Numbers are decimal, and entries are
numbered from 0. In an expression, R0 is the base of section 0, I0 the value
of public symbol 0, and X0 that of reference 0.

Options:
  --listing    print all of the module: the bytes of the extension and
               environment parts, and a line `end` after a repeat
  --gnu        accept the forms in which GNU binutils writes modules
  --no-debug   skip the debug part without reading it
  --           end the options; what follows is the name of a file

Exit status:
  0 done, 1 refused, 2 usage, 3 read fault, 4 write fault, 5 out of memory

Example:
  mufom show a.695
";

/// The text of `help check`.
pub const CHECK: &str = "check: finds out whether files are modules that mufom reads

Usage: mufom check [--gnu] [--no-debug] FILE ...

Reads all files, up to 1,024 of them, and then prints a line for each:
  file N NAME: sections A publics B references C loads D debug E
N is the number of the file, from 0, and NAME the name of the module in it. If
a file is refused, no line is printed, and the error line names the first error
in it and its offset.

Options:
  --gnu        accept the forms in which GNU binutils writes modules
  --no-debug   skip the debug parts without reading them; errors in them are
               not found
  --           end the options; what follows are names of files

Exit status:
  0 done, 1 refused, 2 usage, 3 read fault, 4 write fault, 5 out of memory

Example:
  mufom check a.695 program.695 library.695
";

/// The text of `help link`.
pub const LINK: &str = "link: links modules into one module

Usage: mufom link [--gnu] [--no-debug] [--name NAME] -o OUT FILES

Writes one module to OUT that replaces its inputs in every later link. A
reference to a name that one of the modules defines becomes that public
symbol; the other references stay. Nothing is located. OUT is created only
after all of its bytes are known.

FILES are files and groups, then perhaps a + and members or archives:
  a.695 [ b.695 c.695 ] + library.695 libc.a
A group is linked into one module first. A member is linked only if there is a
strong reference to a name that no file before the + defines and that this
member is the first member to define.

Options:
  --gnu         accept the forms in which GNU binutils writes modules
  --no-debug    skip the debug parts without reading them
  --name NAME   name the linked module NAME, in place of the name of the first
                module; at most 65,535 bytes
  -o OUT        the file to write; required
  --            end the options; brackets and + keep their meaning

Exit status:
  0 done, 1 refused, 2 usage, 3 read fault, 4 write fault (a part of OUT may
  remain), 5 out of memory

Example:
  mufom link -o part.695 program.695 + library.695
";

/// The text of `help locate`.
pub const LOCATE: &str =
    "locate: links modules, places their sections, and writes the absolute module

Usage: mufom locate [--gnu] [--no-debug] [--plan PLAN] [--keep NAME]
                    -o OUT FILES

Links FILES as `link` does, places the sections by a memory plan, and writes
the absolute module to OUT: every section has its base address and every
expression is its value. OUT is created only after all of its bytes are known.
Without --plan, every section needs a base address of its own.

FILES are files and groups, then perhaps a + and members or archives:
  a.695 [ b.695 c.695 ] + library.695 libc.a
A group is linked into one module first. A member is linked only if another
module needs it.

Options:
  --gnu         accept the forms in which GNU binutils writes modules
  --no-debug    skip the debug parts without reading them
  --plan PLAN   the file of the memory plan: `mufom help plan` shows one
  --keep NAME   keep only what is reachable from the public symbol NAME, from
                the start address and from the sections with a base address
                or in the plan's keep; debug items are left out. May be
                given several times
  -o OUT        the file to write; required
  --            end the options; brackets and + keep their meaning

Exit status:
  0 done, 1 refused, 2 usage, 3 read fault, 4 write fault (a part of OUT may
  remain), 5 out of memory

Example:
  mufom locate --plan plan.toml -o board.695 program.695 + library.695
with this plan.toml:
  [[region]]
  name = \"rom\"
  base = 0x2000
  size = 256
  sections = [\"*\"]
";

/// The text of `help dump`.
pub const DUMP: &str = "dump: links and locates modules, and prints the image

Usage: mufom dump [--gnu] [--no-debug] [--plan PLAN] [--keep NAME] FILES

Links and locates FILES as `locate` does, and prints the loaded bytes by
address, then the start address, the public symbols and the debug addresses.
Addresses and bytes are hexadecimal. No file is written.

FILES are files and groups, then perhaps a + and members or archives:
  a.695 [ b.695 c.695 ] + library.695 libc.a
A group is linked into one module first. A member is linked only if another
module needs it.

Options:
  --gnu         accept the forms in which GNU binutils writes modules
  --no-debug    skip the debug parts without reading them
  --plan PLAN   the file of the memory plan: `mufom help plan` shows one
  --keep NAME   keep only what is reachable from the public symbol NAME, from
                the start address and from the sections with a base address
                or in the plan's keep; debug items are left out. May be
                given several times
  --            end the options; brackets and + keep their meaning

Exit status:
  0 done, 1 refused, 2 usage, 3 read fault, 4 write fault, 5 out of memory

Example:
  mufom dump --plan plan.toml program.695 + library.695
";

/// The text of `help map`.
pub const MAP: &str = "map: links and locates modules, and prints what is at which address

Usage: mufom map [--gnu] [--no-debug] [--plan PLAN] [--keep NAME]
           [--at ADDRESS] FILES

Links and locates FILES as `locate` does, and prints these lines:
  module J NAME file N: WORD   each module that was linked, and its file
  region K NAME at ADDRESS size S used U free F [BAR]
                               each region; 32 cells: # full, + partly, . empty
  unused region K ENTRY        an entry of its list that places no section
  section I ADDRESS size S align A NAME module J region K
  common I ADDRESS size S align 8 NAME region K
  copy I ADDRESS size S align 8 NAME region K
                               by address; I is the number that errors name;
                               no region for a section with its own base; a
                               copy has the bytes of region NAME, stored in K
  public ADDRESS NAME module J by address; `plan` for a symbol of the plan
  start ADDRESS module J       the start address, if there is one
  sections N bytes T loaded L  totals
Addresses are hexadecimal, other numbers decimal. No file is written.

FILES are files and groups, then perhaps a + and members or archives:
  a.695 [ b.695 c.695 ] + library.695 libc.a

Options:
  --gnu         accept the forms in which GNU binutils writes modules
  --no-debug    skip the debug parts without reading them
  --plan PLAN   the file of the memory plan: `mufom help plan` shows one
  --keep NAME   keep only what is reachable from the public symbol NAME, the
                start address and sections with a base or in the plan's keep;
                modules are printed all. May be given several times
  --at ADDRESS  print only the section at this address (hexadecimal, without
                0x), and the nearest public in it, with the offset from that
  --            end the options; brackets and + keep their meaning

Exit status:
  0 done, 1 refused, 2 usage, 3 read fault, 4 write fault, 5 out of memory

Example:
  mufom map --plan plan.toml program.695 + library.695
";

/// The text of `help bin`.
pub const BIN: &str = "bin: links and locates modules, and writes the image as raw bytes

Usage: mufom bin [--gnu] [--no-debug] [--plan PLAN] [--keep NAME]
                 [--fill BYTE] [--region NAME] -o OUT FILES

Links and locates FILES as `locate` does. OUT gets one byte for each address
from the lowest loaded address to the highest: the loaded byte, or BYTE where
nothing is loaded. If nothing is loaded at all, OUT is empty. With --region,
OUT gets the bytes of that region alone, one for each of its addresses. An image
that would be longer than 67,108,864 bytes is refused as TooLong, and OUT is
not created.

FILES are files and groups, then perhaps a + and members or archives:
  a.695 [ b.695 c.695 ] + library.695 libc.a

Options:
  --gnu           accept the forms in which GNU binutils writes modules
  --no-debug      skip the debug parts without reading them
  --plan PLAN     the file of the memory plan: `mufom help plan` shows one
  --keep NAME     keep only what is reachable from the public symbol NAME, from
                  the start address and from the sections with a base address
                  or in the plan's keep; debug items are left out. May be
                  given several times
  --fill BYTE     two hexadecimal digits, as FF, for the gaps; 00 without it
  --region NAME   write all of the plan's region with this name
  -o OUT          the file to write; required
  --              end the options; brackets and + keep their meaning

Exit status:
  0 done, 1 refused, 2 usage, 3 read fault, 4 write fault (a part of OUT may
  remain), 5 out of memory

Example:
  mufom bin --plan plan.toml --fill FF --region rom -o rom.bin program.695
";

/// The text of `help txt`.
pub const TXT: &str = "txt: links and locates modules, and writes the image as a TI-TXT text

Usage: mufom txt [--gnu] [--no-debug] [--plan PLAN] [--keep NAME]
                 -o OUT FILES

Links and locates FILES as `locate` does, and writes the loaded bytes to OUT as
TI-TXT, which flash programmers read: for each run of bytes at consecutive
addresses a line `@` with the first address, then lines of up to 16 bytes, and
at the end the line `q`. Addresses and bytes are hexadecimal. The start
address, the public symbols and the debug items are not in it.

S-records and Intel HEX (-intel) are made of it with the program `srec_cat`:
  srec_cat OUT -ti-txt -execution-start-address 0x100 -output NEW -motorola

FILES are files and groups, then perhaps a + and members or archives:
  a.695 [ b.695 c.695 ] + library.695 libc.a

Options:
  --gnu         accept the forms in which GNU binutils writes modules
  --no-debug    skip the debug parts without reading them
  --plan PLAN   the file of the memory plan: `mufom help plan` shows one
  --keep NAME   keep only what is reachable from the public symbol NAME, from
                the start address and from the sections with a base address
                or in the plan's keep; debug items are left out. May be
                given several times
  -o OUT        the file to write; required
  --            end the options; brackets and + keep their meaning

Exit status:
  0 done, 1 refused, 2 usage, 3 read fault, 4 write fault (a part of OUT may
  remain), 5 out of memory

Example:
  mufom txt --plan plan.toml -o rom.txt program.695 + library.695
";

/// The text of `help fromtxt`.
pub const FROM_TXT: &str = "fromtxt: makes a module from a TI-TXT file

Usage: mufom fromtxt [--maus N] -o OUT FILE

Reads a TI-TXT file and writes a module to OUT that loads its bytes at its
addresses: an absolute section for each run of bytes at consecutive addresses,
and nothing else. The module can be linked, located and dumped like any other.

A line of FILE is `@` and an address of 1 to 16 hexadecimal digits; or bytes of
two hexadecimal digits with spaces between them; or `q`, which ends the text.
Blank lines, spaces around a line, and digits of either case are allowed. FILE
has at most 67,108,864 bytes.

Options:
  --maus N   the number of bytes (MAUs, minimum addressable units) in an address
             of the module, 1 to 8; 4 without this option
  -o OUT     the file to write; required
  --         end the options; what follows is the name of a file

Exit status:
  0 done, 1 refused, 2 usage, 3 read fault, 4 write fault (a part of OUT may
  remain), 5 out of memory

Example:
  mufom fromtxt -o rom.695 rom.txt
";

/// The text of `help build`.
pub const BUILD: &str = "build: makes a module from its listing

Usage: mufom build -o OUT FILE

Reads a listing, the text that `show --listing` prints, and writes its module
to OUT. Use it to keep and review a module as text, to change a module by hand
and build it again, or to write a test module from nothing.

Each line is as `show --listing` prints it. There may be more spaces where it
has one, spaces around a line, blank lines, leading zeros, and hexadecimal
digits of either case; in a name, \\x and two digits may stand for any byte.
The numbers after `section`, `public`, `reference` and `name`, and after
`bytes`, must be right. FILE has at most 67,108,864 bytes.

Options:
  -o OUT     the file to write; required
  --         end the options; what follows is the name of a file

Exit status:
  0 done, 1 refused, 2 usage, 3 read fault, 4 write fault (a part of OUT may
  remain), 5 out of memory

Example:
  mufom show --listing a.695 > a.txt
  mufom build -o new.695 a.txt
";

/// The text of `help addr`.
pub const ADDR: &str = "addr: prints the function and the source line at an address

Usage: mufom addr [--gnu] [--plan PLAN] --at ADDRESS FILES

Links and locates FILES as `dump` does, and prints what the debug items say of
one address:
  function KIND NAME BEGIN END   the innermost function around the address
  line N ADDR source NAME        the nearest line at or before the address
KIND is 4 for a global function and 6 for a local one. What is not known is
`none`. If the modules have no debug records, use `map --at`: it names the
section and the nearest public symbol.

FILES are files and groups, then perhaps a + and members or archives:
  a.695 [ b.695 c.695 ] + library.695 libc.a

Options:
  --gnu          accept the forms in which GNU binutils writes modules
  --plan PLAN    the file of the memory plan: `mufom help plan` shows one
  --at ADDRESS   the address, 1 to 16 hexadecimal digits without 0x; required
  --             end the options; brackets and + keep their meaning

Exit status:
  0 done, 1 refused, 2 usage, 3 read fault, 4 write fault, 5 out of memory

Example:
  mufom addr --plan plan.toml --at 2004 program.695 + library.695
";

/// The text of `help make`.
pub const MAKE: &str = "make: links and locates generated modules, as a self-test

Usage: mufom make COUNT

Builds COUNT modules in memory, links them in pairs, links the results into
one module, locates it, and prints the numbers of modules, public symbols and
loaded bytes, and the sum of these bytes. No file is read. COUNT is 1 to
65,536, in decimal digits.

Options:
  --   end the options; what follows is COUNT

Exit status:
  0 done, 2 usage, 4 write fault, 5 out of memory

Example:
  mufom make 1000
";

/// The text of `help explain`.
pub const EXPLAIN: &str = "explain: tells why a command ends with an error, and what to do

Usage: mufom explain COMMAND [OPTION ...] OPERAND ...

Put `explain` before a command that was refused. `explain` carries the command
out up to its first output: it reads the files, but writes no file, and does not
print what the command would print. Instead, it prints:
  - the error line of the command, or `done` if it would succeed up to there;
  - what the numbers and names in that line are: files, sections, regions, and
    the modules that define a name or refer to it; the wrong argument, counted
    from 0, or the option that is missing; why a file could not be read;
  - after `done`, the file that the command would write, which is not tried;
  - an empty line, and what `mufom help` prints for the error.
If the arguments are wrong, that is the text of the command that they name, or
the list of commands.

There are no options. All arguments after `explain` are those of the command;
`explain` can't explain itself.

Exit status:
  0 done, whatever the command would end with, 2 usage (there is no command),
  4 write fault, 5 out of memory

Example:
  mufom explain dump --plan plan.toml program.695
";

/// The text of `help help`.
pub const HELP: &str = "help: prints the commands, or explains a command or an error

Usage: mufom help [COMMAND or NAME]

`mufom help` prints the list of commands. `mufom help COMMAND` prints what a
command does, its options, its exit status and an example. `mufom help NAME`
explains an error: NAME is the first word of the error line that begins with a
capital letter. For the line
  refused: locate: Misfit section 3 region 0
that is `mufom help Misfit`. Upper and lower case differ. For other lines and
for plans, NAME is one of:
  usage    a line that begins with `usage:`; the arguments are wrong
  read     a line that begins with `read fault:`
  write    the line `write fault`
  memory   the line `out of memory`
  plan     the memory plan, and lines that begin with `refused: plan:`

In place of `help`, `--help` or `-h` does the same. There are no options.

Exit status:
  0 done, 2 usage, 4 write fault, 5 out of memory

Example:
  mufom help link
";

/// The text of `help version`.
pub const VERSION: &str = "version: prints the version of this program

Usage: mufom version

Prints `mufom` and three numbers with dots between them. In place of
`version`, `--version` or `-V` does the same. There are no options and no
operands.

Exit status:
  0 done, 2 usage, 4 write fault, 5 out of memory

Example:
  mufom version
";

/// The text of a command, by its name; `None` for any other word.
pub fn command_topic(word: &str) -> Option<&'static str>
    ensures { option_map (λ text. text.now) result ≡ topic_in commands word.now }
{
    match word {
        "show" => Some(SHOW),
        "check" => Some(CHECK),
        "link" => Some(LINK),
        "locate" => Some(LOCATE),
        "dump" => Some(DUMP),
        "map" => Some(MAP),
        "bin" => Some(BIN),
        "txt" => Some(TXT),
        "fromtxt" => Some(FROM_TXT),
        "build" => Some(BUILD),
        "addr" => Some(ADDR),
        "make" => Some(MAKE),
        "explain" => Some(EXPLAIN),
        "help" => Some(HELP),
        "version" => Some(VERSION),
        _ => None,
    }
}
