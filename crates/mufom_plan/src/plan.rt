//! A memory plan, its regions and its symbols.

use mufom_numbers::{Bytes, List};

/// A region of the address space, and the sections that it takes.
///
/// Addresses and sizes are counted in minimum addressable units.
#[derive(Debug, Drop)]
pub struct Region {
    /// The region's own name. It is not empty, and no other region has it.
    pub name: Bytes,
    /// The lowest address of the region.
    pub base: u64,
    /// The size of the region, in addressable units.
    pub size: u64,
    /// The names of the sections that are placed here, in this order. The name `*`
    /// matches itself and each name that is in no list of the plan.
    pub sections: List<Bytes>,
    /// Whether the commons are placed here, after those sections. In a plan that was read, this is
    /// true for at most one region.
    pub common: bool,
    /// The name of the region into which the bytes of these sections are loaded, or `None` if they are
    /// loaded at the sections' own addresses. In a plan that was read, it is another region, whose own
    /// `load` is `None`.
    pub load: Option<Bytes>,
}

/// What the value of a symbol is. An entry is one of the section names in the list of a region.
#[derive(Debug, Drop)]
pub enum SymbolValue {
    /// This number, which is below 2^63.
    Value(u64),
    /// The address of the first section that is placed for this entry.
    Start(Bytes),
    /// The address after the last section that is placed for this entry.
    End(Bytes),
    /// The address at which the bytes of the first section that is placed for this entry are loaded.
    Load(Bytes),
    /// The address after the last section, common or copy in the region of this name.
    RegionEnd(Bytes),
}

/// A symbol of a plan: a public name whose value follows from the placement.
#[derive(Debug, Drop)]
pub struct PlanSymbol {
    /// The symbol's name. It is not empty, and no other symbol of the plan has it.
    pub name: Bytes,
    pub value: SymbolValue,
}

/// A memory plan: the regions in which sections without a base of their own are placed, the symbols
/// that it defines, and the sections that always stay.
#[derive(Debug, Drop)]
pub struct Plan {
    pub regions: List<Region>,
    pub symbols: List<PlanSymbol>,
    /// The names of sections that stay where unused sections are removed. None occurs twice.
    pub keep: List<Bytes>,
}
