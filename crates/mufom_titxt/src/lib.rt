//! Reads and writes TI-TXT, the text form of an image that flash programmers and `srec_cat` read.
//!
//! [`read_txt`] returns the bytes of a text in maximal runs, or the first line with an error. [`write_run`]
//! and [`write_end`] write the text of runs to a sink, and [`text_module`] makes a module of runs, with an
//! absolute section for each of them.
//!
//! The crate depends on `mufom_module` and the crates of its parts, on `mufom_host` for the sink, on
//! `mufom_meaning` for runs and addresses, on `mufom_image_bytes`, which joins bytes into runs, and on
//! `memchr` to find the ends of lines. Its main clause is that of [`read_txt`]: the runs of a text without an
//! error, or the first line with an error. Laws add that the accepted texts are exactly those that satisfy
//! `TxtMap`, with the bytes that they give, and that the text that is written of runs is read back as these
//! runs.
#![tactic(auto)]

mod laws;
mod lines;
mod module;
mod page;
mod reading;
mod refusal;
mod shape;
mod store;
mod txt;
mod write;

pub use laws::{
    accepted_texts_are_texts, errors_are_at_the_first_wrong_line, located_texts_have_their_runs,
    runs_of_texts_have_modules, text_modules_are_located, texts_are_accepted,
    written_texts_are_read_back,
};
pub use module::text_module;
pub use mufom_meaning::Run as TextRun;
pub use mufom_refusals::{TxtReason, TxtRefusal};
pub use refusal::TxtStop;
pub use txt::read_txt;
pub use write::{write_end, write_run};
