//! Errors in locating and in what is made of a location: places, names, loads and fields, and regions.

ghost use Rattle.std.specs.Prelude.{◌≡◌, option_map};
ghost use Rattle.mufom_help.specs.Topics.{locating, topic_in};

/// The text of `help Unplaced`.
pub const UNPLACED: &str = "Unplaced: a section has no base address, and no region takes it

  refused: locate: Unplaced section N

Every section needs a base address of its own, or a region of the plan whose
list of sections has its name, or *.

Usual causes:
  - --plan is missing.
  - The plan lists the section in another spelling: .text and text differ, and
    so do upper and lower case.
  - No region has * in its list.

What to do:
  - Put `explain` before the command: it names section N and its file.
  - Add its name, or *, to the `sections` of a region:
      sections = [\".text\", \"*\"]
";

/// The text of `help Misfit`.
pub const MISFIT: &str = "Misfit: a section does not fit its region, or the address space

  refused: locate: Misfit section N
  refused: locate: Misfit section N region R

Section N ends past the end of region R of the plan (both counted from 0), or
begins or ends past the last address. Without a region in the line, the section
has a base address of its own.

Usual causes:
  - The sections of the region are together larger than the region. Section N
    is only the first that does not fit; others may follow.
  - `size` of the region is the last address, or `base` has a wrong digit.
  - Alignment leaves gaps between the sections, or * takes sections that were
    meant for another region.
  - For a section with a base: the base is wrong.

What to do:
  - Put `explain` before the command: it names section N and its file, and how
    far the sections of region R reach above its base. A common is memory for a
    variable that modules request and none defines; a copy is the stored bytes
    of a region with `load`.
  - Make the region larger, or list some names in a region that has space.
  - Remove what is not needed.
";

/// The text of `help Overlap`.
pub const OVERLAP: &str = "Overlap: two sections share an address

  refused: locate: Overlap section N section M

Section N begins first, or both begin at the same address. Sections in one
region never overlap each other; so one of the two has a base address of its
own, or they are in two regions that overlap.

Usual causes:
  - Two sources place a section at the same address.
  - A section has a base in a region that the plan fills with others: regions
    are filled from their base, and do not leave out such sections.
  - The base or size of a region is wrong, so that it covers another.

What to do:
  - Put `explain` before the command: it names both sections and their files. A
    section with `base` in its line has a base address of its own. A common is
    memory for a variable that modules request and none defines; a copy is the
    stored bytes of a region with `load`.
  - Move one of them: change its address in the source, or `base` and `size` of
    the region so that they begin after the other.
";

/// The text of `help Undefined`.
pub const UNDEFINED: &str = "Undefined: nothing defines a name that a module needs

  refused: locate: Undefined NAME

A module has a strong reference to NAME, no module of the link has a public
symbol of this name, and no weak reference requests space for it. Other names
may be undefined too: this is the first.

Usual causes:
  - A file or a library is not named.
  - The name is spelled in another way: upper and lower case differ, and
    compilers put a _ before a name, or after it.
  - The module that defines NAME keeps it local.
  - NAME is a symbol of a plan, and --plan is missing or names another plan.

What to do:
  - Put `explain` before the command: it names each module that refers to NAME,
    and does the same for all other undefined names.
  - Name the file that defines NAME, before the + or after it.
  - Or define NAME in the plan: `mufom help plan` shows a symbol.
";

/// The text of `help CommonUnplaced`.
pub const COMMON_UNPLACED: &str = "CommonUnplaced: no region of the plan takes the commons

  refused: locate: CommonUnplaced NAME

A weak reference with a size requests space for NAME, and no module defines it.
Such space is called a common. It needs a region with `common = true`.

Usual causes:
  - --plan is missing, or its regions leave `common` out.
  - Variables of C without an initial value are left to the linker, and this is
    the first program that has one.
  - The module that should define NAME is not linked.

What to do:
  - Add one line to the region for variables, and to no other:
      common = true
  - Or link the module that defines NAME. `explain` before the command names
    each module that refers to it.
";

/// The text of `help Cycle`.
pub const CYCLE: &str = "Cycle: the value of a public symbol depends on itself

  refused: locate: Cycle NAME

The expression of NAME uses public symbols whose expressions lead back to NAME,
in one module or through several.

Usual causes:
  - Two sources each define a symbol by that of the other.
  - A name is defined as an alias of itself, since a prefix or the difference
    between upper and lower case was lost.

What to do:
  - Put `explain` before the command: it names the module that defines NAME, and
    those that refer to it.
  - See the expressions: link the same files with `link -o t`, and look at the
    lines `public` that `show t` prints. I3 in an expression is the symbol with
    the number 3 there; follow them from NAME.
  - Define one of the symbols by an address in a section, or by a number.
";

/// The text of `help ImageLimit`.
pub const IMAGE_LIMIT: &str = "ImageLimit: the loads have more than 67,108,864 bytes

  refused: locate: ImageLimit COUNT

COUNT is the number of bytes that the loads of all modules have. A repeated
load counts once for each time. At most 67,108,864 (64 MiB) can be located in
one run.

Usual causes:
  - A large area is filled by a repeated load, as by a macro that reserves
    memory. Such an area need not be loaded at all.
  - The count of a repeat is wrong.

What to do:
  - Look for large counts: `mufom show FILE` prints a line `repeat COUNT`
    before the items that are loaded again.
  - Reserve the memory by the size of a section, without loading it.
  - Locate the program in parts.
";

/// The text of `help DivideByZero`.
pub const DIVIDE_BY_ZERO: &str = "DivideByZero: an expression divides by 0

  refused: locate: DivideByZero SITE

SITE says where the expression is:
  public NAME                  the value of a public symbol
  counter of section N         where a section's program counter is set
  field at ADDR in section N   a field, at the hexadecimal address ADDR
  start                        the start address
  debug N                      debug expression N, counted from 0

A quotient or a remainder by 0 has no value.

Usual causes:
  - The divisor is a weak reference that nothing defines, whose default is 0.
  - The divisor is the size of a section that is empty, or a difference of two
    addresses that are the same in this link.
  - A symbol that the divisor uses is 0 by mistake.

What to do:
  - Put `explain` before the command: it names the section and its file, or the
    module that defines the symbol, and of a field the expression, after
    `value:`. Then look for the others in what `mufom show FILE` prints.
  - Correct the divisor in the source, or link the module that defines it.
  - For a debug expression, use --no-debug.
";

/// The text of `help LoadOutside`.
pub const LOAD_OUTSIDE: &str = "LoadOutside: a byte is loaded outside its section

  refused: locate: LoadOutside section N at ADDR

The loads of section N, counted from 0, put a byte at the hexadecimal address
ADDR, which is before the section's base, or past its end.

Usual causes:
  - The size of the section is smaller than what is loaded into it, or is not
    given in the module: then it is 0.
  - The program counter of the section is set to an absolute address in a
    relocatable section, or by a wrong expression.
  - A section was continued after it was full.

What to do:
  - Put `explain` before the command: it names section N and its file. Then
    compare its size with its loads, which `mufom show FILE` prints after the
    lines `select` and `counter` with its number in that file.
  - Correct the size, or the origin, in the source.
";

/// The text of `help LoadedTwice`.
pub const LOADED_TWICE: &str = "LoadedTwice: two bytes are loaded at one address

  refused: locate: LoadedTwice ADDR

Two loads put a byte at the hexadecimal address ADDR, even if the two bytes are
equal. Sections do not overlap here, so both loads belong to one section.

Usual causes:
  - The source sets the program counter back: two ORG with the same address, or
    a table that is filled first and patched later.

What to do:
  - Find the section that contains ADDR with its base and size: link the same
    files with `link -o t`, and look at the lines `counter` and the loads after
    them that `show t` prints.
  - Remove one of the loads in the source, or change the origin.
";

/// The text of `help Overflow`.
pub const OVERFLOW: &str = "Overflow: a value does not fit its field

  refused: locate: Overflow section N at ADDR KIND SIZE value VALUE

The field of SIZE bytes at the hexadecimal address ADDR, in section N, should
hold VALUE, which is hexadecimal too. What fits depends on KIND; for one byte:
  signed     -128 to 127; FFFFFF80 is -128 if an address has 4 bytes
  unsigned   0 to 255
  either     -128 to 255

Usual causes:
  - A short branch or call is too far from its target, since other code was
    placed between them.
  - An absolute address is used in a short form, and the section or the symbol
    was placed above the addresses that this form reaches.
  - A constant is too large, or is negative in an unsigned field.

What to do:
  - Put `explain` before the command: it names section N and its file, and after
    `value:` the expression of the field, with what its variables are.
  - Use the long form of the instruction in the source.
  - Or place the target nearer: list the two sections next to each other in the
    plan, or move the region to low addresses.
";
/// The text of `help Region`.
pub const REGION: &str = "Region: the plan has no region of this name

  refused: bin: Region NAME

--region NAME writes the bytes of one region of the plan. The files can be
located, but no region of the plan has the name NAME, which is written in
quotes. OUT was not created.

Usual causes:
  - The name is misspelled. Upper and lower case differ.
  - --plan names another plan, or is missing.
  - NAME is that of a section: --region needs the `name` of a region.

What to do:
  - Look at the lines `region` that `mufom map` prints for the same files: they
    have the names of the regions.
";

/// The text of an error in locating, by its name.
pub(crate) fn locating_topic(word: &str) -> Option<&'static str>
    ensures { option_map (λ text. text.now) result ≡ topic_in locating word.now }
{
    match word {
        "Unplaced" => Some(UNPLACED),
        "Misfit" => Some(MISFIT),
        "Overlap" => Some(OVERLAP),
        "Undefined" => Some(UNDEFINED),
        "CommonUnplaced" => Some(COMMON_UNPLACED),
        "Cycle" => Some(CYCLE),
        "ImageLimit" => Some(IMAGE_LIMIT),
        "DivideByZero" => Some(DIVIDE_BY_ZERO),
        "LoadOutside" => Some(LOAD_OUTSIDE),
        "LoadedTwice" => Some(LOADED_TWICE),
        "Overflow" => Some(OVERFLOW),
        "Region" => Some(REGION),
        _ => None,
    }
}
