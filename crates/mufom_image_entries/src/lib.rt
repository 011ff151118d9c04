//! The publics, the start and the debug items of one module, with numbers in place of expressions.
#![tactic(auto)]

mod debug;
mod publics;
mod start;
mod valued;

pub use debug::{first_debug_division, located_debug};
pub use publics::located_publics;
pub use start::{divides_at_start, located_start};
pub use valued::ValuedModule;
