//! The input and output of the program as traits, with two implementations (hosts): one in memory for
//! tests, and the files and standard streams of the process.
//!
//! It depends on `mufom_numbers` and `thiserror`. A host may reveal all of its state, parts of it or
//! nothing, and the contracts of the traits speak of what it reveals. Their main clause is that a call
//! returns [`Failed`] only if its count of errors rose, that all bytes go where the call states, and
//! that everything else stays as it was.
#![tactic(auto)]

mod block;
mod cause;
mod counts;
mod laws;
mod memory;
mod real;
mod streams;
mod world;

pub use block::Block;
pub use cause::Cause;
pub use laws::modest_calls_never_fail;
pub use memory::MemHost;
pub use real::RealHost;
pub use world::{Failed, Host, Sink, Source, World, write_all};
