//! Laws about the texts. Each law is the contract of a function with an empty body.

ghost use Rattle.std.specs.Prelude.{true, ◌≡◌};
ghost use Rattle.mufom_help.specs.Pages.{are_pages, fits_a_screen, have_own_names};
ghost use Rattle.mufom_help.specs.Topics.{topics};
ghost use Rattle.mufom_help.specs.declared.commands.TheConstants.{LIST};

/// Each text begins with the name of its topic and a colon, and has at most 40 lines of at most 80
/// bytes, each with its line end. The list of commands is as short.
pub fn topics_are_pages()
    ensures pages { are_pages topics ≡ true }
    ensures list { fits_a_screen LIST.now ≡ true }
{}

/// No two topics have the same name.
pub fn topics_have_own_names()
    ensures { have_own_names topics ≡ true }
{}
