//! Laws of the help topics. Each is the contract of a function with an empty body.

ghost use Rattle.mufom_outcome.specs.TopicLaws.{CommandsHaveTexts, EachErrorHasATopic};

/// Help has a topic for each error that a run can end with.
pub fn each_error_has_a_topic()
    ensures { EachErrorHasATopic }
{}

/// Help has a text for each command, and for nothing else.
pub fn commands_have_texts()
    ensures { CommandsHaveTexts }
{}
