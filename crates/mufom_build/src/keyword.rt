//! The first word of a line.

ghost use Rattle.std.specs.Prelude.{◌≡◌, ◌++◌, List, ℕ, Some, option_map};
ghost use Rattle.mufom_build.specs.Rows.{Keyword as Word, word_of};
ghost use Rattle.mufom_build.specs.FirstWords.{keyword_of};

/// The first word of a line, which tells what else the line states.
#[derive(Clone, Copy, Debug, PartialEq, Eq)]
pub(crate) enum Keyword {
    Module,
    Extension,
    Environment,
    Section,
    Public,
    Note,
    Reference,
    Block,
    End,
    Name,
    Value,
    Select,
    Counter,
    Bytes,
    Field,
    Repeat,
    Start,
}

/// Returns the keyword that the first bytes of the text indicate. If the text begins with a keyword, it is
/// that one.
pub(crate) fn first_word(text: &[u8]) -> Option<Keyword>
    ensures { (k : Word) (rest : List ℕ) → text.now ≡ word_of k ++ rest → option_map keyword_of result ≡ Some k }
{
    match text {
        [b'm', ..] => Some(Keyword::Module),
        [b'e', b'x', ..] => Some(Keyword::Extension),
        [b'e', b'n', b'v', ..] => Some(Keyword::Environment),
        [b'e', b'n', b'd', ..] => Some(Keyword::End),
        [b's', b'e', b'c', ..] => Some(Keyword::Section),
        [b's', b'e', b'l', ..] => Some(Keyword::Select),
        [b's', b't', ..] => Some(Keyword::Start),
        [b'p', ..] => Some(Keyword::Public),
        [b'n', b'o', ..] => Some(Keyword::Note),
        [b'n', b'a', ..] => Some(Keyword::Name),
        [b'r', b'e', b'f', ..] => Some(Keyword::Reference),
        [b'r', b'e', b'p', ..] => Some(Keyword::Repeat),
        [b'b', b'l', ..] => Some(Keyword::Block),
        [b'b', b'y', ..] => Some(Keyword::Bytes),
        [b'v', ..] => Some(Keyword::Value),
        [b'c', ..] => Some(Keyword::Counter),
        [b'f', ..] => Some(Keyword::Field),
        _ => None,
    }
}
