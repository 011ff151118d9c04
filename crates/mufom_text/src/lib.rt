//! The texts that `mufom` prints: of a module, a line for each entry, as a summary or as a listing from which
//! the module can be built; and of a located image, as `dump` prints it: the loaded bytes, the start, the
//! publics and the debug addresses.
//!
//! It depends on the crates of a module's entries, on `mufom_module` and `mufom_host`, on `mufom_meaning` and
//! `mufom_located` for the definition of a location, and on `itoa`, `hex` and `thiserror`. The functions that
//! write lines are generic over one trait, [`Output`]. A page of a fixed size implements it and passes the
//! text on to a host, so only [`text_bytes`] holds a whole text in memory. The main clauses are those of
//! [`print_text`] and [`print_image`]: the output grows by exactly the text; or memory ran out before
//! anything was printed; or a print failed, the host's count of failed writes rose, and the output grew by
//! a prefix of the text.
#![tactic(auto)]

mod addresses;
mod debug;
mod digits;
mod form;
mod gathered;
mod image;
mod image_lines;
mod infix;
mod loads;
mod names;
mod output;
mod page;
mod print;
mod quoting;
mod sections;
mod show;
mod words;

pub use digits::{counted, hex};
pub use form::TextForm;
pub use image_lines::print_image;
pub use output::Output;
pub use print::{Lines, PrintStop, print_lines};
pub use quoting::quoted_name;
pub use show::{print_module, print_text, text_bytes};
pub use words::{number, numbered, quoted, quoted_bytes};
