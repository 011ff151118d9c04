//! A placed module with the values of its publics.

ghost use Rattle.std.specs.Prelude.{◌≡◌};
ghost use Rattle.mufom_image_entries.specs.Valued.{IsValued, parts_of, value_of};

use mufom_copies::ExpressionMap;
use mufom_expr::Postfix;
use mufom_image_values::{Evaluation, PlacedModule};
use mufom_module::Parts;
use mufom_numbers::NoMemory;
use std::alloc::Global;
use std::marker::Model;

/// A module whose sections and commons have bases, with the values of its publics.
#[derive(Clone, Copy)]
pub struct ValuedModule<'a> {
    pub placed: &'a PlacedModule<'a>,
    /// What [`PlacedModule::public_values`] returns.
    pub values: &'a [Evaluation],
}

impl<'a> ValuedModule<'a> {
    /// The parts of the module.
    pub(crate) fn parts(&self) -> &'a Parts
        ensures { result.now ≡ parts_of self.now }
    {
        let placed = self.placed;
        placed.graph.parts
    }

    /// Returns the value of an expression that has no program counter, or 0 if it has no value.
    pub(crate) fn value(&self, expression: &Postfix) -> u64
        requires { IsValued self.now }
        ensures { result ≡ value_of self.now expression.now }
    {
        self.placed
            .value(self.values, None, expression)
            .unwrap_or(0)
    }
}

/// A map of expressions that replaces each by its value.
#[derive(Drop)]
pub(crate) struct Numbers<'a> {
    pub valued: ValuedModule<'a>,
}

impl<'a> Model for Numbers<'a> {
    ghost use Rattle.std.specs.Coded.{codes};
    ghost use Rattle.mufom_expr.specs.TreeCode.{tree_code};
    ghost use Rattle.mufom_debug.specs.contracts.item.DebugItem as debug_item;
    ghost use Rattle.mufom_image_entries.specs.declared.valued.ValuedModule.{ValuedModule};
    ghost use Rattle.mufom_image_entries.specs.Valued.{IsValued};

    ghost coded = { Prim.hlevel (codes, tree_code, debug_item.the_row.coded) };

    ghost Value = { ValuedModule };

    ghost view = { λ n. n.valued };

    ghost invariant = { λ n. IsValued n.valued };
}

impl<'a> ExpressionMap for Numbers<'a> {
    ghost use Rattle.mufom_image_entries.specs.Valued.{number_for};

    ghost meaning = { number_for };

    fn expression(&self, alloc: Global, value: &Postfix) -> Result<Postfix, NoMemory> {
        Postfix::constant(alloc, self.valued.value(value))
    }
}
