//! Numbers and strings as object modules spell them, the errors that the bytes of a module can have,
//! the limits of modules and files, and the lists and texts that the other crates store.
//!
//! This is the lowest layer: it depends only on `std`, `arrayvec`, `smallvec` and `thiserror`. Its
//! main clause is that [`read_number`] and [`read_string`] accept exactly the spellings. If the input
//! begins with a spelling, they return its value; if the input is a proper prefix of a spelling, they
//! return [`Taken::More`]; anything else is an error at the first byte.
#![tactic(auto)]

mod bytes;
pub mod codes;
mod digits;
mod laws;
pub mod limits;
mod list;
mod memory;
mod reason;
mod spelling;
mod taken;
mod text;

pub use bytes::Bytes;
pub use digits::hex_digit;
pub use laws::{number_spellings_exclude, shortest_spellings_are_read, string_spellings_exclude};
pub use list::List;
pub use memory::NoMemory;
pub use reason::Reason;
pub use spelling::{number_length, number_spelling, read_number, read_string, string_lead};
pub use taken::{Span, Taken};
pub use text::Text;
