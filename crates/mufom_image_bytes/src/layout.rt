//! The sections of a module at their bases.

use mufom_module::Order;
use mufom_sections::Section;

/// The sections of a module at their bases, with the addresses and the order of bytes of the module.
#[derive(Clone, Copy)]
pub struct Layout<'a> {
    pub sections: &'a [Section],
    /// The base of each section.
    pub bases: &'a [u64],
    /// The width of an address in bits, from 8 to 64.
    pub width: u32,
    /// The order of the bytes of a field.
    pub order: Order,
}
