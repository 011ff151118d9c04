//! Laws about the verdicts on files. Each law is the contract of a function with an empty body.

ghost use Rattle.mufom_members.specs.Laws.{HaveMemberNames, HaveOneVerdict, HaveVerdict, PrefixErrorsStay};

/// No file has two verdicts: its bytes determine its modules, or its error.
pub fn files_have_one_verdict()
    ensures { HaveOneVerdict }
{}

/// Each file has a verdict.
pub fn files_have_a_verdict()
    ensures { HaveVerdict }
{}

/// The names of a file that is accepted are those in its bytes, and each module has one, unless the file is not
/// an archive.
pub fn files_have_member_names()
    ensures { HaveMemberNames }
{}

/// An error for which an archive is refused that is too long is the first error of the whole archive, whatever
/// follows the limit.
pub fn errors_before_the_limit_stay()
    ensures { PrefixErrorsStay }
{}
