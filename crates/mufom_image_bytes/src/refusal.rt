//! The errors that stop the walk over the loads of a module.

use mufom_expr::FieldKind;
use thiserror::Error;

/// An error that stops the walk over the loads.
#[derive(Clone, Copy, Debug, Error)]
pub enum LoadRefusal {
    /// A load that sets the program counter of a section divides by 0.
    #[error("division by zero in a program counter of section {section}")]
    Counter {
        section: u32,
    },
    /// A field divides by 0.
    #[error("division by zero in a field of section {section}")]
    Field {
        section: u32,
        address: u64,
    },
    /// A byte lies outside its section, at an address modulo the address space.
    #[error("a byte is loaded outside section {section}")]
    Outside {
        section: u32,
        address: u64,
    },
    /// A value does not fit its field of `size` bytes.
    #[error("the value {value} does not fit its field of {size} bytes in section {section}")]
    Overflow {
        section: u32,
        address: u64,
        kind: FieldKind,
        size: u8,
        value: u64,
    },
    /// An address is loaded twice.
    #[error("a byte is loaded twice at address {address}")]
    Twice {
        address: u64,
    },
}
