//! Why bytes are not a plan.

use mufom_numbers::NoMemory;
use thiserror::Error;

/// The part of a plan that does not have the required shape.
#[derive(Clone, Copy, Debug, PartialEq, Eq)]
pub enum PlanField {
    /// The key `region`, which is an array of tables.
    Region,
    /// A key that a plan, a region or a symbol may not have.
    Extra,
    /// The key `name`: a text that is not empty and is not the name of an earlier region, or of an earlier
    /// symbol.
    Name,
    /// The key `base`: an integer that is not negative.
    Base,
    /// The key `size`: an integer that is not negative.
    Size,
    /// The key `sections`: an array of texts, none of which occurs earlier in the plan.
    Sections,
    /// The key `common`: a truth value, true in at most one region.
    Common,
    /// The key `symbol`, which is an array of tables.
    Symbol,
    /// The keys that say what a symbol's value is, of which it has exactly one.
    Kind,
    /// The key `value` of a symbol: an integer that is not negative.
    Value,
    /// The key `start` of a symbol: an entry of a region's list.
    Start,
    /// The key `end` of a symbol: an entry of a region's list.
    End,
    /// The key `load`. Of a region: the name of another region, which has no `load`. Of a symbol: an
    /// entry of a region's list.
    Load,
    /// The key `region_end` of a symbol: the name of a region.
    RegionEnd,
    /// The key `keep`: an array of texts, none of which occurs twice.
    Keep,
}

/// A table of a plan: a region or a symbol, by its position.
#[derive(Clone, Copy, Debug, PartialEq, Eq)]
pub enum PlanTable {
    Region(u32),
    Symbol(u32),
}

/// Why bytes are not a plan.
#[derive(Clone, Copy, Debug, PartialEq, Eq, Error)]
pub enum PlanRefusal {
    /// The bytes are not a TOML document.
    #[error("the plan is not a TOML document")]
    Syntax,
    /// A key of the document, or of the table that is given, is missing, is unknown or does not have the
    /// required value.
    #[error("the plan does not have the keys and values of a plan")]
    Shape {
        table: Option<PlanTable>,
        field: PlanField,
    },
    /// The end of the region at this position is above 2^63 - 1.
    #[error("the region {0} ends above 2^63 - 1")]
    Beyond(u32),
    /// The text of the plan is longer than 65,536 bytes.
    #[error("the plan has more than 65,536 bytes")]
    TooLong,
    /// Out of memory.
    #[error("out of memory")]
    NoMemory,
}

impl From<NoMemory> for PlanRefusal {
    ghost use Rattle.std.specs.Prelude.{◌≡◌};
    ghost use Rattle.mufom_plan.specs.declared.refusal.PlanRefusal.TheVariants.{NoMemory};

    ghost from_gives = { λ _ refusal. refusal ≡ NoMemory };

    fn from(_: NoMemory) -> Self {
        PlanRefusal::NoMemory
    }
}
