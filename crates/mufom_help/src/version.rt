//! The version of the program.

ghost use Rattle.std.specs.Prelude.{◌≡◌};
ghost use Rattle.mufom_help.specs.declared.version.TheConstants.{VERSION};

/// The line of `version`: the name of the program, three numbers with dots between, and a line end.
pub const VERSION: &str = "mufom 1.0.0\n";

/// What `version` prints.
pub fn version_line() -> &'static str
    ensures { result.now ≡ VERSION.now }
{
    VERSION
}
