//! Laws of the runs of the program.
//!
//! Each law is the contract of a function that does nothing. The laws are about runs as `mufom_works` defines
//! them and the contract of `run` in `mufom_command` states them: what a run gives depends only on its arguments
//! and files, a task that locates is done exactly if no error applies, and files that were linked in stages have
//! the outputs of the list that the stages began with.
#![tactic(auto)]

mod laws;

pub use laws::{
    absolute_files_stand, answers_are_determined, files_have_a_verdict, files_have_one_verdict,
    flat_lists_exist, inputs_are_accepted, kept_entries_exist, linked_files_stand, links_exist,
    links_make_no_difference, locating_is_done, make_is_done, marks_exist, no_fact_is_decided,
    plain_runs_have_results, reading_has_a_result, runs_are_single, runs_of_stages,
    selections_exist, stages_came_by_links, stages_make_no_difference, what_is_kept_exists,
};
