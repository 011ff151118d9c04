//! The table of commands: the options and the operands of each.

ghost use Rattle.std.specs.Prelude.{◌≡◌};
ghost use Rattle.mufom_words.specs.Options.{demands, form_of, takes, usage_of};

use crate::command::Verb;
use crate::options::Setting;

/// The operands that a command takes.
#[derive(Clone, Copy, Debug, PartialEq, Eq)]
pub(crate) enum Operands {
    /// The name of one file.
    OneFile,
    /// The names of files.
    SomeFiles,
    /// The names of files in groups, and of members.
    GroupedFiles,
    /// A count.
    OneCount,
}

/// A row of the table of commands.
#[derive(Clone, Copy, Debug, PartialEq, Eq)]
pub(crate) enum Form {
    Show,
    Check,
    Link,
    Locate,
    Dump,
    Map,
    Make,
    Addr,
    Bin,
    Txt,
    FromTxt,
    Build,
}

impl Form {
    /// The row of the command that a word names, if any.
    pub(crate) fn from_name(word: &str) -> Option<Form>
        ensures { result ≡ form_of word.now }
    {
        match word {
            "show" => Some(Form::Show),
            "check" => Some(Form::Check),
            "link" => Some(Form::Link),
            "locate" => Some(Form::Locate),
            "dump" => Some(Form::Dump),
            "map" => Some(Form::Map),
            "make" => Some(Form::Make),
            "addr" => Some(Form::Addr),
            "bin" => Some(Form::Bin),
            "txt" => Some(Form::Txt),
            "fromtxt" => Some(Form::FromTxt),
            "build" => Some(Form::Build),
            _ => None,
        }
    }

    /// What the command does.
    pub(crate) fn verb(self) -> Verb
        ensures { result ≡ (usage_of self).verb }
    {
        match self {
            Form::Show => Verb::Show,
            Form::Check => Verb::Check,
            Form::Link => Verb::Link,
            Form::Locate => Verb::Locate,
            Form::Dump => Verb::Dump,
            Form::Map => Verb::Map,
            Form::Make => Verb::Make,
            Form::Addr => Verb::Addr,
            Form::Bin => Verb::Bin,
            Form::Txt => Verb::Txt,
            Form::FromTxt => Verb::FromTxt,
            Form::Build => Verb::Build,
        }
    }

    /// The word that names the command.
    pub(crate) fn name(self) -> &'static str
        ensures { result.now ≡ (usage_of self).name }
    {
        match self {
            Form::Show => "show",
            Form::Check => "check",
            Form::Link => "link",
            Form::Locate => "locate",
            Form::Dump => "dump",
            Form::Map => "map",
            Form::Make => "make",
            Form::Addr => "addr",
            Form::Bin => "bin",
            Form::Txt => "txt",
            Form::FromTxt => "fromtxt",
            Form::Build => "build",
        }
    }

    /// The options of the command.
    pub(crate) fn settings(self) -> &'static [Setting]
        ensures { result.now ≡ (usage_of self).settings }
    {
        match self {
            Form::Show => &[Setting::NoDebug, Setting::Gnu, Setting::Listing],
            Form::Check => &[Setting::NoDebug, Setting::Gnu],
            Form::Link => &[Setting::NoDebug, Setting::Gnu, Setting::Name, Setting::Out],
            Form::Locate => &[
                Setting::NoDebug,
                Setting::Gnu,
                Setting::Plan,
                Setting::Keep,
                Setting::Out,
            ],
            Form::Dump => &[Setting::NoDebug, Setting::Gnu, Setting::Plan, Setting::Keep],
            Form::Map => &[
                Setting::NoDebug,
                Setting::Gnu,
                Setting::Plan,
                Setting::Keep,
                Setting::OptionalAt,
            ],
            Form::Make => &[],
            Form::Addr => &[Setting::Gnu, Setting::Plan, Setting::At],
            Form::Bin => &[
                Setting::NoDebug,
                Setting::Gnu,
                Setting::Plan,
                Setting::Keep,
                Setting::Fill,
                Setting::Region,
                Setting::Out,
            ],
            Form::Txt => &[
                Setting::NoDebug,
                Setting::Gnu,
                Setting::Plan,
                Setting::Keep,
                Setting::Out,
            ],
            Form::FromTxt => &[Setting::Maus, Setting::Out],
            Form::Build => &[Setting::Out],
        }
    }

    /// The operands that the command takes.
    pub(crate) fn operands(self) -> Operands
        ensures { result ≡ (usage_of self).operands }
    {
        match self {
            Form::Show | Form::FromTxt | Form::Build => Operands::OneFile,
            Form::Check => Operands::SomeFiles,
            Form::Link
            | Form::Locate
            | Form::Dump
            | Form::Map
            | Form::Addr
            | Form::Bin
            | Form::Txt => Operands::GroupedFiles,
            Form::Make => Operands::OneCount,
        }
    }

    /// Whether the command has this option.
    pub(crate) fn takes(self, setting: Setting) -> bool
        ensures { result ≡ takes (usage_of self).settings setting }
    {
        self.settings().iter().any(|own| own.id() == setting.id())
    }

    /// Whether the option must be given with the command.
    pub(crate) fn demands(self, setting: Setting) -> bool
        ensures { result ≡ demands (usage_of self).settings setting }
    {
        self.settings()
            .iter()
            .any(|own| own.is_required() && own.id() == setting.id())
    }
}
