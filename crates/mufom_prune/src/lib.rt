//! Removes what a program does not use: a copy of one module without the sections, publics, references and
//! loads that neither given public symbols, nor the start, nor a section that always stays needs.
//!
//! [`prune_for`] follows what expressions mention, with one worklist that looks at each expression once, and
//! copies what remains with the positions of the new lists. The crate depends on the crates of a module's
//! values, on `mufom_copies` for copies, on `mufom_select` for marks, and on `mufom_meaning`. Its main clause
//! is that of [`prune_for`]: the smallest set of entries is kept that contains what is kept in any case and, with
//! each entry, everything that it needs. It also returns which sections and publics of the whole module are
//! left. [`prune`] and [`prune_with_marks`] do the same for one name. The laws state that what remains means
//! what it means in the whole module.
#![tactic(auto)]

mod entries;
mod laws;
mod needs;
mod positions;
mod pruning;
mod reach;
mod remaining;

pub use laws::{pruned_is_single, pruned_means_the_rest};
pub use mufom_refusals::PruneRefusal;
pub use pruning::{Pruned, prune, prune_for, prune_with_marks};
