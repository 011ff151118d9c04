//! Why a draft is not a module.

use mufom_expr::ExprFault;
use mufom_module::Defect;
use mufom_numbers::NoMemory;

/// Why a draft is not a module.
#[derive(Clone, Copy, Debug, PartialEq, Eq)]
pub enum DraftFault {
    NoMemory,
    /// The tokens of a value are not an expression.
    Expression(ExprFault),
    /// A note has more numbers than it may have, or a block of a source file has.
    Numbers,
    /// There is no entry to which a note could belong, no open block to end, or a block that is not ended.
    Missing,
    /// The parts have this defect.
    Defect(Defect),
}

impl From<NoMemory> for DraftFault {
    fn from(_: NoMemory) -> Self {
        DraftFault::NoMemory
    }
}

impl From<ExprFault> for DraftFault {
    fn from(fault: ExprFault) -> Self {
        DraftFault::Expression(fault)
    }
}
