//! The options of each command, as a command of `clap`.

ghost use Rattle.std.specs.Prelude.{◌≡◌, IfOk, false};
ghost use Rattle.clap.specs.Simple.{app_of};
ghost use Rattle.clap.specs.Walk.{rule_of};
ghost use Rattle.mufom_words.specs.Faulty.{is_flag, is_short, may_repeat, spelling_of};
ghost use Rattle.mufom_words.specs.Options.{app_for, id_of, is_required, operands_rule, rule_for};

use crate::form::Form;
use clap::{Arg, ArgAction};
use std::alloc::{AllocError, Global};

/// An option of a command.
#[derive(Clone, Copy, Debug, PartialEq, Eq)]
pub enum Setting {
    /// `--no-debug`
    NoDebug,
    /// `--gnu`
    Gnu,
    /// `--name NAME`
    Name,
    /// `--plan PLAN`
    Plan,
    /// `-o OUT`, which is required.
    Out,
    /// `--listing`
    Listing,
    /// `--at ADDRESS`, which is required.
    At,
    /// `--at ADDRESS`, which may be left out.
    OptionalAt,
    /// `--fill BYTE`
    Fill,
    /// `--maus N`
    Maus,
    /// `--keep NAME`, which may be given several times.
    Keep,
    /// `--region NAME`
    Region,
}

impl Setting {
    /// The option as it is written in front of its value, for example `--plan` or `-o`.
    pub fn spelling(self) -> &'static str
        ensures { result.now ≡ spelling_of self }
    {
        match self {
            Setting::NoDebug => "--no-debug",
            Setting::Gnu => "--gnu",
            Setting::Name => "--name",
            Setting::Plan => "--plan",
            Setting::Out => "-o",
            Setting::Listing => "--listing",
            Setting::At | Setting::OptionalAt => "--at",
            Setting::Fill => "--fill",
            Setting::Maus => "--maus",
            Setting::Keep => "--keep",
            Setting::Region => "--region",
        }
    }

    /// Whether the option takes no value.
    pub(crate) fn is_flag(self) -> bool
        ensures { result ≡ is_flag self }
    {
        match self {
            Setting::NoDebug | Setting::Gnu | Setting::Listing => true,
            _ => false,
        }
    }

    /// Whether the option has a short name, which its value may follow directly.
    pub(crate) fn is_short(self) -> bool
        ensures { result ≡ is_short self }
    {
        match self {
            Setting::Out => true,
            _ => false,
        }
    }

    /// Whether the option must be given.
    pub(crate) fn is_required(self) -> bool
        ensures { result ≡ is_required self }
    {
        match self {
            Setting::Out | Setting::At => true,
            _ => false,
        }
    }

    /// Whether the option may be given several times.
    pub(crate) fn may_repeat(self) -> bool
        ensures { result ≡ may_repeat self }
    {
        match self {
            Setting::Keep => true,
            _ => false,
        }
    }

    /// The name by which `clap` knows the option.
    pub(crate) fn id(self) -> &'static str
        ensures { result.now ≡ id_of self }
    {
        match self {
            Setting::NoDebug => "no_debug",
            Setting::Gnu => "gnu",
            Setting::Name => "name",
            Setting::Plan => "plan",
            Setting::Out => "out",
            Setting::Listing => "listing",
            Setting::At | Setting::OptionalAt => "at",
            Setting::Fill => "fill",
            Setting::Maus => "maus",
            Setting::Keep => "keep",
            Setting::Region => "region",
        }
    }
}

// The option, as an argument of `clap`.
fn option_of<'a>(alloc: Global, setting: Setting) -> Arg<'a>
    ensures rule { rule_of result ≡ rule_for setting }
    ensures local { result.global ≡ false }
{
    match setting {
        Setting::NoDebug => Arg::new(alloc, "no_debug")
            .long("no-debug")
            .action(ArgAction::SetTrue),
        Setting::Gnu => Arg::new(alloc, "gnu")
            .long("gnu")
            .action(ArgAction::SetTrue),
        Setting::Name => Arg::new(alloc, "name").long("name"),
        Setting::Plan => Arg::new(alloc, "plan").long("plan"),
        Setting::Out => Arg::new(alloc, "out").short('o').required(true),
        Setting::Listing => Arg::new(alloc, "listing")
            .long("listing")
            .action(ArgAction::SetTrue),
        Setting::At => Arg::new(alloc, "at").long("at").required(true),
        Setting::OptionalAt => Arg::new(alloc, "at").long("at"),
        Setting::Fill => Arg::new(alloc, "fill").long("fill"),
        Setting::Maus => Arg::new(alloc, "maus").long("maus"),
        Setting::Keep => Arg::new(alloc, "keep")
            .long("keep")
            .action(ArgAction::Append),
        Setting::Region => Arg::new(alloc, "region").long("region"),
    }
}

// All operands.
fn operands<'a>(alloc: Global) -> Arg<'a>
    ensures rule { rule_of result ≡ operands_rule }
    ensures local { result.global ≡ false }
{
    Arg::new(alloc, "files").action(ArgAction::Append)
}

/// The command of `clap` that reads the arguments of a command. It has no help option.
pub(crate) fn command_of<'a>(alloc: Global, form: Form) -> Result<clap::Command<'a>, AllocError>
    ensures { IfOk result (λ command. app_of command ≡ app_for form) }
{
    let name: &'a str = form.name();
    let mut command = clap::Command::new(alloc, name).disable_help_flag(true);
    for setting in form.settings() {
        command = command.arg(option_of(alloc, *setting))?;
    }
    command.arg(operands(alloc))
}
