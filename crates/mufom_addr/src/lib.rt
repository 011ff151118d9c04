//! Address queries: the function and the source line at an address of a located program.
//!
//! It depends on `mufom_numbers`, `mufom_expr`, `mufom_names` and `mufom_debug`. It reads the debug
//! items of a located module, in which each expression is one number. Its main clause is that
//! [`find_address`] returns exactly the innermost function around the address and the nearest line at
//! or below it.
#![tactic(auto)]

mod find;
mod hit;
mod laws;
mod search;

pub use find::find_address;
pub use hit::{FunctionHit, Hit, LineHit};
pub use laws::{functions_are_innermost, lines_are_nearest};
