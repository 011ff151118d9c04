//! The image of a module: the bytes that its loads put at addresses, in maximal runs.
//!
//! [`image_of_module`] walks the loads once. It returns the runs, or the first error on the walk: a byte
//! outside its section, an address that is loaded twice, a division by 0, or a value that does not fit its
//! field. The caller provides the values of all variables but P, the program counter, as an
//! [`Env`](mufom_expr::Env). The crate depends on the crates of a module's values, and on `mufom_meaning`, whose
//! definitions its contracts cite.
#![tactic(auto)]

mod chunk;
mod counted;
mod doubles;
mod field;
mod image;
mod layout;
mod loaded;
mod loads;
mod module_image;
mod places;
mod refusal;
mod runs;
mod stop;
mod walk;

pub use image::{image_of, runs_of_loaded};
pub use layout::Layout;
pub use loaded::{Loaded, nothing_loaded};
pub use module_image::image_of_module;
pub use refusal::LoadRefusal;
pub use stop::ImageStop;
