//! Reads one record of an object module from bytes.
//!
//! The tokens of a record's expression are read once, with the record: [`read_record`] leaves them in a
//! buffer, from which [`postfix_of`] builds the expression. Only [`postfix_of`] allocates.
//!
//! The main clause is that of [`next_record`]. It returns a record if and
//! only if the input begins with a complete record of the table: if the end of the record depends on the
//! next byte, as after an optional field that is absent, that byte must be there. It returns an error,
//! always the first one, if and only if there is one. Otherwise it returns `More`.
#![tactic(auto)]

mod before;
mod brackets;
mod expression;
mod expression_tokens;
mod fields;
mod laws;
mod next;
mod options;
mod postfix;
mod record;
mod rows;
mod size;
mod stop;

pub use before::read_record_before;
pub use expression_tokens::ExpressionTokens;
pub use laws::{
    bytes_determine_the_record, incomplete_inputs_are_short, longer_inputs_answer_the_same,
    whole_records_at_one_place_are_one,
};
pub use next::{next_record, read_record};
pub use options::ReadOptions;
pub use postfix::postfix_of;
pub use record::{BlockTail, Mode, Record};
pub use stop::Stop;
