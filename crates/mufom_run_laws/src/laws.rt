//! The laws of runs.

ghost use Rattle.mufom_task.specs.Inputs.{HaveOneVerdict};
ghost use Rattle.mufom_run_laws.specs.Exist.{FilesHaveAVerdict, FlatListsExist, InputsAreAccepted, KeptEntriesExist, LinksExist};
ghost use Rattle.mufom_run_laws.specs.Exist.{MarksExist, NoFactIsDecided, ReadingHasAResult, SelectionsExist, WhatIsKeptExists};
ghost use Rattle.mufom_run_laws.specs.Leaves.{LinksMakeNoDifference, StagesCameByLinks};
ghost use Rattle.mufom_run_laws.specs.MakeLaws.{MakeIsDone};
ghost use Rattle.mufom_run_laws.specs.Results.{PlainRunsHaveResults};
ghost use Rattle.mufom_run_laws.specs.RunLaws.{AbsoluteFilesStand, AnswersAreDetermined, LinkedFilesStand, LocatingIsDone};
ghost use Rattle.mufom_run_laws.specs.RunLaws.{RunsAreSingle, RunsOfStages, StagesMakeNoDifference};

/// Reading files in order has only one result, if the files hold bytes.
pub fn files_have_one_verdict()
    ensures { HaveOneVerdict }
{}

/// Files that exist and hold bytes have a result when they are read in order.
pub fn files_have_a_verdict()
    ensures { FilesHaveAVerdict }
{}

/// Reading the modules of a task has a result, if the files exist and hold bytes: the modules, unless they are
/// too many, or the first error.
pub fn reading_has_a_result()
    ensures { ReadingHasAResult }
{}

/// A run has at most one result: one output or one error.
pub fn runs_are_single()
    ensures { RunsAreSingle }
{}

/// If no call failed and memory sufficed, the outcome of a run is the one that its arguments and files
/// determine.
pub fn answers_are_determined()
    ensures { AnswersAreDetermined }
{}

/// If no call failed and memory sufficed, a task that locates accepted files is `Done` if and only if their
/// flat list can be linked and what is kept of it can be located, whatever the plan and the groups are. For
/// `bin`, this assumes that the raw image is not too long.
pub fn locating_is_done()
    ensures { LocatingIsDone }
{}

/// A list that earlier runs linked in stages has the same link, and the same outputs of its location, as the
/// list that the stages began with. A map shows the modules and files of the first list.
pub fn stages_make_no_difference()
    ensures { StagesMakeNoDifference }
{}

/// A list that came by links and can be linked has the same link, and the same outputs of its location, as the
/// list that the links began with, under its own name. The modules of that list may have public symbols of one
/// name, different descriptors, or several start addresses: then the list cannot be linked.
pub fn links_make_no_difference()
    ensures { LinksMakeNoDifference }
{}

/// A list that came by stages of links that keep the name of their first module came by links.
pub fn stages_came_by_links()
    ensures { StagesCameByLinks }
{}

/// A task whose files were linked in stages has the same output or error as over the list that the stages
/// began with; a map shows the modules of its own files.
pub fn runs_of_stages()
    ensures { RunsOfStages }
{}

/// The output of `link` is the file of a module that can replace the flat list, in every context. The file,
/// if it is not too long, is read as that module.
pub fn linked_files_stand()
    ensures { LinkedFilesStand }
{}

/// The output of `locate` is the file of an absolute module that has the same location if it is located
/// alone, by the plan without regions. The file, if it is not too long, is read as that module.
pub fn absolute_files_stand()
    ensures { AbsoluteFilesStand }
{}

/// A run of `make` is `Done` unless a write failed or memory ran out: the generated modules can be
/// located, however many of them there are.
pub fn make_is_done()
    ensures { MakeIsDone }
{}

/// For all roots and members, members can be selected. Selections are unique, so there is exactly one.
pub fn selections_exist()
    ensures { SelectionsExist }
{}

/// The modules of each tree of files have a flat list.
pub fn flat_lists_exist()
    ensures { FlatListsExist }
{}

/// If the plan and the modules of the files can be read, the inputs are accepted, and give a flat list.
pub fn inputs_are_accepted()
    ensures { InputsAreAccepted }
{}

/// A list of at least one module that can be linked has a partial link, under each name.
pub fn links_exist()
    ensures { LinksExist }
{}

/// If the roots are entries, and each entry needs only entries, there is a smallest set that contains the
/// roots and what its entries need.
pub fn marks_exist()
    ensures { MarksExist }
{}

/// For each module and all names of public symbols and of sections, there is a smallest set of entries to
/// keep.
pub fn kept_entries_exist()
    ensures { KeptEntriesExist }
{}

/// If the arguments ask for a location of accepted inputs, the flat list can be linked and each name that
/// `--keep` gives is that of a public symbol of the list, then something is kept of the list.
pub fn what_is_kept_exists()
    ensures { WhatIsKeptExists }
{}

/// No error applies to the flat list of accepted inputs if and only if the list can be linked, each name
/// that `--keep` gives is that of a public symbol of the list, and whatever is kept of it can be located.
pub fn no_fact_is_decided()
    ensures { NoFactIsDecided }
{}

/// A plain run has a result: one whose arguments have an error, and one of each command but `build` and
/// `explain`. This holds if the files exist, with that of the plan, and hold bytes, and if a name that `link`
/// gives to its module consists of bytes.
pub fn plain_runs_have_results()
    ensures { PlainRunsHaveResults }
{}
