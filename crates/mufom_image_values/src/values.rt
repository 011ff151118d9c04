//! The values of the publics, each computed once.

ghost use Rattle.std.specs.Prelude.{◌≡◌, ◌≢◌, ◌*◌, ◌<◌, ◌≤◌, ◌↔◌, option_map, slice_get, Some, None, IfOk, IsTrue};
ghost use Rattle.std.specs.List.{list_all};
ghost use Rattle.mufom_expr.specs.Value.{divides_by_zero};
ghost use Rattle.mufom_place.specs.Facts.{first_some};
ghost use Rattle.mufom_meaning.specs.declared.located.Site.TheVariants as sites;
ghost use Rattle.mufom_meaning.specs.Facts.{zero_divisor};
ghost use Rattle.mufom_meaning.specs.Values.{value, has_zero_divisor};
ghost use Rattle.mufom_meaning.specs.Walk.{public_fact};
ghost use Rattle.mufom_image_values.specs.Graph.{mentioned_in};
ghost use Rattle.mufom_image_values.specs.Surroundings.{known};
ghost use Rattle.mufom_image_values.specs.Evaluated.{alone, graph_edges, public_count, setting_of, valuation_at, IsPlaced, AreSurroundings};
ghost use Rattle.mufom_image_values.specs.Evaluated.{is_waiting, is_ready, AllEvaluated, IsEvaluated, AreEvaluated};
ghost use Rattle.mufom_image_values.specs.Evaluated.{AreRight, AreKept, IsRound, AreValues};

use crate::components::Components;
use crate::graph::Graph;
use crate::surroundings::{Evaluation, Surroundings};
use mufom_expr::{Postfix, Token};
use mufom_names::Public;
use mufom_numbers::NoMemory;
use std::alloc::Global;

/// A module with bases for its sections and commons, whose expressions can be evaluated.
#[derive(Clone, Copy)]
pub struct PlacedModule<'a> {
    pub graph: Graph<'a>,
    /// The base of each section.
    pub bases: &'a [u64],
    /// The base of each common, by its position, if the plan places commons.
    pub commons: &'a [u64],
}

fn is_waiting(evaluation: Option<Evaluation>) -> bool
    ensures { result ≡ is_waiting evaluation }
{
    match evaluation {
        Some(Evaluation::Waiting) => true,
        _ => false,
    }
}

fn has_no_value(evaluation: Evaluation) -> bool
    ensures { IsTrue result ↔ (evaluation ≡ Evaluation.Nothing) }
{
    match evaluation {
        Evaluation::Nothing => true,
        _ => false,
    }
}

fn none_waits(values: &[Evaluation]) -> bool
    ensures { IsTrue result → AllEvaluated values.now }
{
    values
        .iter()
        .all(|evaluation| !is_waiting(Some(*evaluation)))
}

impl<'a> PlacedModule<'a> {
    // The width of an address in bits.
    fn width(&self) -> u32
        requires { self.now.graph.parts.now.maus ≤ 8 }
        ensures { result ≡ 8 * self.now.graph.parts.now.maus }
    {
        8 * u32::from(self.graph.parts.maus)
    }

    /// Returns the values of everything that an expression can name, given those of the publics.
    pub fn surroundings<'b>(
        &'b self,
        values: &'b [Evaluation],
        counter: Option<u64>,
    ) -> Surroundings<'b>
        ensures { AreSurroundings self.now values.now counter result }
    {
        Surroundings {
            sections: self.graph.parts.sections.as_slice(),
            bases: self.bases,
            commons: self.commons,
            values,
            resolutions: self.graph.resolutions,
            counter,
        }
    }

    // Whether the public that a token mentions is evaluated, if it mentions one.
    fn is_ready(&self, values: &[Evaluation], token: Token) -> bool
        ensures { result ≡ is_ready values.now (mentioned_in self.now.graph.resolutions.now token) }
    {
        match self.graph.mentioned(token) {
            Some(position) => !is_waiting(values.get(position as usize).copied()),
            None => true,
        }
    }

    // Whether the publics that these tokens mention are all evaluated.
    fn all_ready(&self, values: &[Evaluation], tokens: &[Token]) -> bool
        ensures { result ≡ list_all (λ token. is_ready values.now (mentioned_in self.now.graph.resolutions.now token)) tokens.now }
    {
        tokens.iter().all(|token| self.is_ready(values, *token))
    }

    // Whether all publics that the one at a position mentions are evaluated.
    fn can_evaluate(&self, values: &[Evaluation], position: u32) -> bool
        ensures { IsTrue result ↔ AreEvaluated values.now (graph_edges self.now.graph position) }
    {
        self.all_ready(values, self.graph.tokens(position))
    }

    // The value of an expression, once all that it mentions is evaluated.
    fn valuation(&self, values: &[Evaluation], value: &Postfix) -> Evaluation
        requires low { 1 ≤ self.now.graph.parts.now.maus }
        requires high { self.now.graph.parts.now.maus ≤ 8 }
        ensures value { known result ≡ valuation_at self.now values.now None value.now }
        ensures evaluated { result ≢ Evaluation.Waiting }
    {
        match value.value(&self.surroundings(values, None), self.width()) {
            Some(value) => Evaluation::Value(value),
            None => Evaluation::Nothing,
        }
    }

    // Evaluates the public at a position, once all that it mentions is evaluated.
    fn evaluate(&self, values: &mut Vec<Evaluation>, position: u32)
        requires placed { IsPlaced self.now }
        requires right { AreRight self.now values.old.items }
        ensures right { AreRight self.now values.new.items }
        ensures kept { AreKept values.old.items values.new.items }
        ensures settled { position < public_count self.now.graph → AreEvaluated values.old.items (graph_edges self.now.graph position)
            → IsEvaluated values.new.items position }
    {
        let publics = self.graph.publics();
        if position as usize >= publics.len() {
            return;
        }
        let public = &publics[position as usize];
        if self.can_evaluate(values, position) {
            values[position as usize] = self.valuation(values, &public.value);
        }
    }

    // Evaluates the publics that can be evaluated, in this order.
    fn evaluate_in_order(&self, values: &mut Vec<Evaluation>, order: &[u32])
        requires placed { IsPlaced self.now }
        requires right { AreRight self.now values.old.items }
        ensures { AreRight self.now values.new.items }
    {
        for position in order {
            self.evaluate(values, *position);
        }
    }

    // Evaluates the publics that can be evaluated, in their own order.
    fn evaluate_all(&self, values: &mut Vec<Evaluation>)
        requires placed { IsPlaced self.now }
        requires right { AreRight self.now values.old.items }
        ensures right { AreRight self.now values.new.items }
        ensures round { IsRound self.now values.old.items values.new.items }
    {
        for position in 0..self.graph.publics().len() {
            self.evaluate(values, position as u32);
        }
    }

    // Evaluates all publics, in rounds over those that are still waiting.
    fn evaluate_in_rounds(&self, values: &mut Vec<Evaluation>)
        requires placed { IsPlaced self.now }
        requires right { AreRight self.now values.old.items }
        ensures right { AreRight self.now values.new.items }
        ensures evaluated { AllEvaluated values.new.items }
    {
        for _round in 0..self.graph.publics().len() + 1 {
            if none_waits(values) {
                return;
            }
            self.evaluate_all(values);
        }
    }

    /// Returns the values of the publics, none of which may lead back to itself. The result is the same for
    /// any components; with those of the graph, one round over the publics suffices.
    pub fn public_values(
        &self,
        alloc: Global,
        components: &Components,
    ) -> Result<Vec<Evaluation>, NoMemory>
        requires { IsPlaced self.now }
        ensures { IfOk result (λ values. AreValues self.now values.items) }
    {
        let count = self.graph.publics().len();
        let mut values = vec![in alloc; Evaluation::Waiting; count]?;
        self.evaluate_in_order(&mut values, components.order.as_slice());
        self.evaluate_in_rounds(&mut values);
        Ok(values)
    }

    /// Returns the value of an expression, given the values of all publics; `None` if it has none.
    pub fn value(
        &self,
        values: &[Evaluation],
        counter: Option<u64>,
        expression: &Postfix,
    ) -> Option<u64>
        requires placed { IsPlaced self.now }
        requires values { AreValues self.now values.now }
        ensures { result ≡ value (setting_of self.now) (alone self.now.graph.parts.now) counter expression.now }
    {
        expression.value(&self.surroundings(values, counter), self.width())
    }

    /// Whether any divisor in an expression has the value 0, given the values of all publics.
    pub fn divides_by_zero(
        &self,
        values: &[Evaluation],
        counter: Option<u64>,
        expression: &Postfix,
    ) -> bool
        requires placed { IsPlaced self.now }
        requires values { AreValues self.now values.now }
        ensures { result ≡ has_zero_divisor (setting_of self.now) (alone self.now.graph.parts.now) counter expression.now }
    {
        self.divides(values, counter, expression)
    }

    // The same, for any values of the publics.
    fn divides(&self, values: &[Evaluation], counter: Option<u64>, expression: &Postfix) -> bool
        requires low { 1 ≤ self.now.graph.parts.now.maus }
        requires high { self.now.graph.parts.now.maus ≤ 8 }
        ensures { result ≡ divides_by_zero (valuation_at self.now values.now counter) expression.now }
    {
        expression.divides_by_zero(&self.surroundings(values, counter), self.width())
    }

    /// Returns the first public whose own expression divides by 0, given the values of all publics.
    pub fn first_division(&self, values: &[Evaluation]) -> Option<&'a Public>
        requires placed { IsPlaced self.now }
        requires values { AreValues self.now values.now }
        ensures { first_some (public_fact (setting_of self.now)) (setting_of self.now).publics
            ≡ option_map (λ public. zero_divisor (sites.Public public.now.name)) result }
    {
        let publics = self.graph.publics();
        for position in 0..publics.len() {
            let public = &publics[position];
            if self.has_division(values, position, public) {
                return Some(public);
            }
        }
        None
    }

    // Whether the expression of the public at a position divides by 0 itself. That of a public with a value
    // does not.
    fn has_division(&self, values: &[Evaluation], position: usize, public: &Public) -> bool
        requires placed { IsPlaced self.now }
        requires values { AreValues self.now values.now }
        requires there { slice_get self.now.graph.parts.now.names.publics position ≡ Some public.now }
        ensures { result ≡ has_zero_divisor (setting_of self.now) (alone self.now.graph.parts.now) None public.now.value }
    {
        if has_no_value(values[position]) {
            self.divides_by_zero(values, None, &public.value)
        } else {
            false
        }
    }
}
