//! A located program, as a value of its own.

ghost use Rattle.std.specs.Prelude.{◌≡◌};
ghost use Rattle.mufom_meaning.specs.Absolute.{absolute_of};
ghost use Rattle.mufom_module.specs.Written.{weight};
ghost use Rattle.mufom_located.specs.Located.{IsLocated};

use crate::weight::weight_of;
use mufom_debug::DebugItem;
use mufom_meaning::LocatedParts;
use std::marker::Model;

/// The location of a module by a plan. Contracts see it as its parts.
#[derive(Debug)]
pub struct Located {
    parts: LocatedParts,
}

impl Model for Located {
    ghost use Rattle.std.specs.Coded.{codes};
    ghost use Rattle.mufom_expr.specs.TreeCode.{tree_code};
    ghost use Rattle.mufom_debug.specs.contracts.item.DebugItem as debug_item;
    ghost use Rattle.mufom_meaning.specs.declared.located.LocatedParts.{LocatedParts};
    ghost use Rattle.mufom_located.specs.Located.{IsLocated};

    ghost coded = { Prim.hlevel (codes, tree_code, debug_item.the_row.coded) };

    ghost Value = { LocatedParts };

    ghost view = { λ located. located.parts };

    ghost invariant = { λ located. IsLocated located.parts };
}

// Written out so that code that drops a location contains a single call: see "Drops" in docs/ARCHITECTURE.md.
impl Drop for Located {
    fn drop(self) {
        let Located { parts: _ } = self;
    }
}

impl Located {
    /// Makes a location of parts that are known to be one, without checking them. Does not allocate.
    pub fn sound(parts: LocatedParts) -> Located
        requires { IsLocated parts }
        ensures { result ≡ parts }
    {
        Located { parts }
    }

    /// The parts, which are the location of a module. Does not allocate.
    pub fn parts(&self) -> &LocatedParts
        ensures same { result.now ≡ self.now }
        ensures located { IsLocated self.now }
    {
        &self.parts
    }

    /// Takes the parts out, which are the location of a module. Does not allocate.
    pub fn into_parts(self) -> LocatedParts
        ensures same { result ≡ self }
        ensures located { IsLocated result }
    {
        let Located { parts } = self;
        parts
    }

    /// The weight in bytes of the module that [`absolute`](crate::absolute) makes: the length of its
    /// written form with nine bytes for each number, other than the eight offsets of its parts, and three
    /// for the lead of each string. Does not allocate.
    pub fn written_weight(&self) -> u64
        ensures { result ≡ weight (absolute_of self.now) }
    {
        weight_of(&self.parts)
    }
}
