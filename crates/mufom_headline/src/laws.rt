//! Laws of whole runs, each the contract of a function that does nothing.

ghost use Rattle.mufom_headline.specs.Headline.{TheHeadline};
ghost use Rattle.mufom_headline.specs.Later.{LinkedFilesReplaceLists, SameWorksEndTheSame};
ghost use Rattle.mufom_headline.specs.Linking.{LinkingIsDone, LinksArePutOut, StagedRunsAreFlat};
ghost use Rattle.mufom_headline.specs.ReadBack.{WrittenFilesAreReadBack};
ghost use Rattle.mufom_headline.specs.Texts.{ListingsAreBuilt, TextsComeBack};

/// If no I/O call failed, the run did not run out of memory, and the plan and the files were accepted,
/// a task that locates is `Done` if and only if the flat list of the modules can be linked, what is
/// kept of it can be located, and `bin` may write its bytes: they are not too many, and the plan has
/// the region that is named. The output is then that location, as a file or as a text, and nothing
/// else. If earlier runs made the modules from another list in stages, the same holds of that list,
/// under the name of the first module of the flat list, whatever link errors it has; its map names the
/// modules of the files.
pub fn the_headline()
    ensures { TheHeadline }
{}

/// Under the same conditions, `link` is `Done` if and only if the flat list of the modules can be linked,
/// whatever the groups are.
pub fn linking_is_done()
    ensures { LinkingIsDone }
{}

/// The output of `link` is the file of the module into which the flat list is linked, and that module
/// means what the list means. If earlier runs made the modules from another list in stages, the same
/// holds of that list, under the name of the first module of the flat list.
pub fn links_are_put_out()
    ensures { LinksArePutOut }
{}

/// The work of a task whose files were linked in stages is its work over the list that the stages began
/// with, whether or not that list can be linked. A map names the modules of the files.
pub fn staged_runs_are_flat()
    ensures { StagedRunsAreFlat }
{}

/// The file that a run of `link` made replaces the modules that were linked: the tasks of later runs that read
/// it have the same works as over those modules, if these have one descriptor and no two of their public
/// symbols have one name. A map, which names modules and files, is left out.
pub fn linked_files_replace_lists()
    ensures { LinkedFilesReplaceLists }
{}

/// If the works of two tasks are the same, runs of them end the same: with the same outcome, and with the
/// same output. This holds if no I/O call failed in either run and neither ran out of memory.
pub fn same_works_end_the_same()
    ensures { SameWorksEndTheSame }
{}

/// A later run reads exactly this module from the file of a module, if the file is not too long.
pub fn written_files_are_read_back()
    ensures { WrittenFilesAreReadBack }
{}

/// `fromtxt` followed by `txt` preserves the bytes and addresses of a text that is not too long: `fromtxt` makes
/// the file of the module of the text's runs. If this file is not too long either, `txt` over it alone makes the
/// text of these runs.
pub fn texts_come_back()
    ensures { TextsComeBack }
{}

/// `build` makes the file of the module of a listing: of each text that is a listing of the module, and so of the
/// one that `show --listing` prints. A later run reads the module from the file. This holds if the text and
/// the file are not too long.
pub fn listings_are_built()
    ensures { ListingsAreBuilt }
{}
