//! The order of the lines of a listing.

ghost use Rattle.std.specs.Prelude.{◌≡◌, nat_lt, if◌then◌else◌};
ghost use Rattle.mufom_build.specs.Order.{stage_number, may_come_outside, may_come_inside, may_be_repeated};

/// The part of a listing to which its last line belongs.
#[derive(Clone, Copy, Debug, PartialEq, Eq)]
pub(crate) enum Stage {
    /// No line has been read.
    Nothing,
    Module,
    Extension,
    Environment,
    Sections,
    Publics,
    References,
    Debug,
    Loads,
    Start,
}

/// The kinds of lines that the order of a listing distinguishes.
#[derive(Clone, Copy, Debug, PartialEq, Eq)]
pub(crate) enum Kind {
    /// The first line.
    Title,
    Extension,
    Environment,
    Section,
    Public,
    Reference,
    /// A note of the name before it.
    Note,
    /// The beginning of a block, a debug name, or a note or the value of one.
    Debug,
    /// The end of a block or of a repeat.
    End,
    /// The end of a block with an expression.
    EndWithValue,
    /// A line that selects a section, sets a program counter or begins a repeat.
    Load,
    /// Bytes or a field.
    Item,
    Start,
}

/// The numbers of lines of these kinds so far, and of open blocks.
#[derive(Clone, Copy, Debug, PartialEq, Eq)]
pub(crate) struct Counts {
    pub sections: usize,
    pub publics: usize,
    pub references: usize,
    /// The debug names.
    pub names: usize,
    /// The open blocks.
    pub depth: usize,
}

impl Stage {
    // The number of the stage, in the order of a listing.
    fn number(self) -> u8
        ensures { result ≡ stage_number self }
    {
        match self {
            Stage::Nothing => 0,
            Stage::Module => 1,
            Stage::Extension => 2,
            Stage::Environment => 3,
            Stage::Sections => 4,
            Stage::Publics => 5,
            Stage::References => 6,
            Stage::Debug => 7,
            Stage::Loads => 8,
            Stage::Start => 9,
        }
    }
}

// Whether a line of this kind may come when no block and no repeat is open.
fn follows_outside(stage: Stage, kind: Kind) -> bool
    ensures { result ≡ may_come_outside stage kind }
{
    let (first, last) = match kind {
        Kind::Title => (0, 0),
        Kind::Extension => (1, 1),
        Kind::Environment => (1, 2),
        Kind::Section => (1, 4),
        Kind::Public => (1, 5),
        Kind::Reference => (1, 6),
        Kind::Note => (5, 6),
        Kind::Debug => (1, 7),
        Kind::End | Kind::EndWithValue => return false,
        Kind::Load | Kind::Item | Kind::Start => (1, 8),
    };
    let number = stage.number();
    first <= number && number <= last
}

/// Whether a line of this kind may come next, at this stage and with this number of open blocks. `repeats`
/// says whether a repeat is open.
pub(crate) fn may_follow(stage: Stage, depth: usize, repeats: bool, kind: Kind) -> bool
    ensures { result ≡ (if repeats then may_be_repeated kind else if nat_lt 0 depth then may_come_inside kind else may_come_outside stage kind) }
{
    if repeats {
        return matches!(kind, Kind::Item | Kind::End);
    }
    if depth > 0 {
        return matches!(kind, Kind::Debug | Kind::End | Kind::EndWithValue);
    }
    follows_outside(stage, kind)
}
