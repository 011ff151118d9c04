//! What a stream of bytes is: the file of a module, or refused with an error at an offset, or only the start
//! of a module's file.
//!
//! This crate has definitions and laws, and no code. It depends on `mufom_records` for the bytes of a
//! record and on `mufom_module` for the file of a module. The reader of `mufom_read` returns what is
//! defined here. The main law is [`has_one_judgment`].
#![tactic(auto)]

mod laws;
mod weight_laws;

pub use laws::{
    ended_prefix_is_module, gnu_forms_are_extra, has_judgment, has_one_judgment,
    judgments_exclude_each_other, module_is_ended_prefix, prefixes_are_one,
    prefixes_of_modules_are_cut_off, prefixes_stay, refusal_is_single, refusal_stays,
};
pub use weight_laws::{files_weigh_tenfold, modules_weigh_tenfold};
