//! Errors in linking, and in choosing what is kept.

ghost use Rattle.std.specs.Prelude.{◌≡◌, option_map};
ghost use Rattle.mufom_help.specs.Topics.{linking, topic_in};

/// The text of `help Mismatch`.
pub const MISMATCH: &str = "Mismatch: two modules have addresses of different kinds

  refused: link: Mismatch M1 O1 M2 O2

M is the number of bytes in an address, 1 to 8, and O the byte order: L if the
least significant byte comes first, M if the most significant does. M1 and O1
are those of the first module that is linked; M2 and O2 are those of the first
module that differs from it.

Usual causes:
  - Modules for two processors, or for two modes of one, are linked.
  - A library for another processor is named after the +.

What to do:
  - Put `explain` before the command: it names the two modules and their files.
    The first line that `mufom show FILE` prints has `maus` and `order`.
  - Compile all modules for the same processor, or leave the module out.
";

/// The text of `help Duplicate`.
pub const DUPLICATE: &str = "Duplicate: two public symbols have the same name

  refused: link: Duplicate NAME
  refused: locate: Duplicate NAME

Two modules define NAME, or one module defines it twice; or, in locating, a
module and a symbol of the plan. Every public symbol has a name of its own.
Upper and lower case differ.

Usual causes:
  - A file is named twice, or is also part of a partial link that is named.
  - A variable is defined in a header that several sources include.
  - A library's function was replaced by one of the program, and a member that
    defines it too is needed for another name.
  - The plan and the startup code both define an address of a section.
  - A file that `locate` wrote is located by the same plan again. It has the
    symbols of the plan already.

What to do:
  - Put `explain` before the command: it names each module that defines NAME,
    and its file, and the symbol of the plan.
  - Remove one of the definitions, make it local to its module, or rename it.
  - Use a located file without --plan, or name the files that it was made of.
  - Put a library after the +. Its modules are then linked only if they are
    needed.
";

/// The text of `help DuplicateStart`.
pub const DUPLICATE_START: &str = "DuplicateStart: two modules have a start address

  refused: link: DuplicateStart

A link has one start address at most.

Usual causes:
  - Two main programs are linked, or a startup module and a main program that
    has a start address of its own.
  - A file is named twice, or is also part of a partial link that is named.

What to do:
  - Put `explain` before the command: it names the two modules and their files.
  - Remove the start address in all sources but one: it is usually the operand
    of the assembler's END.
";

/// The text of `help Unknown`.
pub const UNKNOWN: &str = "Unknown: no module has the public symbol that is to be kept

  refused: keep: Unknown NAME

--keep NAME keeps what the public symbol NAME needs, and no module that is
linked has a public symbol of that name. Upper and lower case differ, and so do
a name and the same name with an underscore in front.

Usual causes:
  - The name is misspelled, or is that of the source: many C compilers put an
    underscore in front of it.
  - The module that defines NAME is after the + and nothing needs it, so that it
    is not linked.
  - NAME is only referred to, and no module defines it.

What to do:
  - Look for the name: `mufom show FILE` prints a line `public N NAME` for each
    public symbol of a module.
  - Name the module that defines NAME before the +.
";

/// The text of an error in linking, by its name.
pub(crate) fn linking_topic(word: &str) -> Option<&'static str>
    ensures { option_map (λ text. text.now) result ≡ topic_in linking word.now }
{
    match word {
        "Mismatch" => Some(MISMATCH),
        "Duplicate" => Some(DUPLICATE),
        "DuplicateStart" => Some(DUPLICATE_START),
        "Unknown" => Some(UNKNOWN),
        _ => None,
    }
}
