//! Laws about the results of reading. Each law is the contract of a function with an empty body.

ghost use Rattle.mufom_judging.specs.Laws.{GnuFormsAreExtra};
ghost use Rattle.mufom_judging.specs.Laws.{EndedPrefixIsModule, PrefixesAreOne, PrefixesOfModulesAreCutOff, PrefixesStay, HasJudgment, HasOneJudgment};
ghost use Rattle.mufom_judging.specs.Laws.{JudgmentsExcludeEachOther, ModuleIsEndedPrefix, RefusalIsSingle, RefusalStays};

/// Of two error-free prefixes of a stream, one begins with the other.
pub fn prefixes_are_one()
    ensures { PrefixesAreOne }
{}

/// An error-free prefix of a stream is also one of every longer stream.
pub fn prefixes_stay()
    ensures { PrefixesStay }
{}

/// The error of a stream has one offset and one reason.
pub fn refusal_is_single()
    ensures { RefusalIsSingle }
{}

/// An error in a stream is the same error in every longer stream. So it makes no difference how a stream is
/// cut into chunks.
pub fn refusal_stays()
    ensures { RefusalStays }
{}

/// An error-free prefix that has ended and is the whole stream is a module's file, and states that module.
pub fn ended_prefix_is_module()
    ensures { EndedPrefixIsModule }
{}

/// Each stream has a judgment: it is the file of a module, or an error at an offset.
pub fn has_judgment()
    ensures { HasJudgment }
{}

/// A module's file is one error-free prefix, which ends with the stream and states the module.
pub fn module_is_ended_prefix()
    ensures { ModuleIsEndedPrefix }
{}

/// A stream with an error is not a module's file and is not cut off. A module's file is not cut off, and is
/// the file of only one module.
pub fn judgments_exclude_each_other()
    ensures { JudgmentsExcludeEachOther }
{}

/// No stream has two judgments.
pub fn has_one_judgment()
    ensures { HasOneJudgment }
{}

/// Every proper prefix of a module's file counts as cut off, never as an error: no valid file is lost.
pub fn prefixes_of_modules_are_cut_off()
    ensures { PrefixesOfModulesAreCutOff }
{}

/// A file of a module is a file of the same module if the forms of GNU binutils are accepted too.
pub fn gnu_forms_are_extra()
    ensures { GnuFormsAreExtra }
{}
