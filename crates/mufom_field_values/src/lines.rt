//! The lines about the value of a field.

ghost use Rattle.std.specs.Prelude.{◌≡◌, ◌++◌, ◌∷◌, [], IfOk, option_map, slice_get, unwrap_or, codes};
ghost use Rattle.std.specs.List.{list_any};
ghost use Rattle.mufom_expr.specs.Value.{variables_of};
ghost use Rattle.mufom_text.specs.Words.{line};
ghost use Rattle.mufom_field_values.specs.Lines.{name_of, new_line, same_variable, section_name, value_lines, variable_line, variable_lines};
ghost use Rattle.mufom_field_values.specs.Told.{value_text};

use mufom_expr::{Letter, Postfix, infix, letter_name};
use mufom_module::{Module, Parts};
use mufom_numbers::{Bytes, NoMemory};
use mufom_text::{Lines, Output, numbered, quoted};
use std::alloc::Global;

// ---- names

// The name of the section at a position; empty past the last one.
fn section_name(parts: &Parts, place: u32) -> &[u8]
    ensures { result.now ≡ unwrap_or (section_name parts.now place) [] }
{
    match parts.sections.as_slice().get(place as usize) {
        Some(section) => section.name.as_slice(),
        None => &[],
    }
}

fn public_name(parts: &Parts, place: u32) -> &[u8]
    ensures { result.now ≡ unwrap_or (name_of parts.now Letter.I place) [] }
{
    match parts.names.publics.as_slice().get(place as usize) {
        Some(public) => public.name.as_slice(),
        None => &[],
    }
}

fn reference_name(parts: &Parts, place: u32) -> &[u8]
    ensures { result.now ≡ unwrap_or (name_of parts.now Letter.X place) [] }
{
    match parts.names.references.as_slice().get(place as usize) {
        Some(reference) => reference.name.as_slice(),
        None => &[],
    }
}

// The name of what a variable stands for.
fn name_of(parts: &Parts, letter: Letter, place: u32) -> &[u8]
    ensures { result.now ≡ unwrap_or (name_of parts.now letter place) [] }
{
    match letter {
        Letter::I => public_name(parts, place),
        Letter::X => reference_name(parts, place),
        Letter::L => section_name(parts, place),
        Letter::P => section_name(parts, place),
        Letter::R => section_name(parts, place),
        Letter::S => section_name(parts, place),
    }
}

// ---- lines

fn same_variable(first: (Letter, u32), second: (Letter, u32)) -> bool
    ensures { result ≡ same_variable first second }
{
    letter_name(first.0) == letter_name(second.0) && first.1 == second.1
}

// Whether a variable is among these.
fn is_among(variables: &[(Letter, u32)], variable: (Letter, u32)) -> bool
    ensures { result ≡ list_any (same_variable variable) variables.now }
{
    variables
        .iter()
        .any(|other| same_variable(variable, *other))
}

// The line of a variable, as in `  R0: "code"`.
fn variable_line<K: Output>(out: &mut K, parts: &Parts, variable: (Letter, u32))
    ensures { K.takes out.old out.new (variable_line parts.now variable) }
{
    out.put(b"  ");
    numbered(out, letter_name(variable.0).as_bytes(), variable.1 as u64);
    out.put(b": ");
    quoted(out, name_of(parts, variable.0, variable.1));
    out.put(b"\n");
}

// The line of a variable, unless it is among earlier ones.
fn new_line<K: Output>(
    out: &mut K,
    parts: &Parts,
    earlier: &[(Letter, u32)],
    variable: &(Letter, u32),
)
    ensures { K.takes out.old out.new (new_line parts.now earlier.now variable.now) }
{
    match is_among(earlier, *variable) {
        true => {}
        false => variable_line(out, parts, *variable),
    }
}

// A line for each variable at its first place.
fn variable_lines<K: Output>(out: &mut K, parts: &Parts, variables: &[(Letter, u32)])
    ensures { K.takes out.old out.new (variable_lines parts.now [] variables.now) }
{
    for at in 0..variables.len() {
        let variable = &variables[at];
        new_line(out, parts, &variables[..at], variable);
    }
}

// ---- the value

/// The lines about the value of a field.
#[derive(Drop)]
pub struct FieldValue<'a> {
    pub(crate) parts: &'a Parts,
    /// The expression in infix form.
    pub(crate) infix: Bytes,
    /// Its variables, in their order.
    pub(crate) variables: Vec<(Letter, u32)>,
}

// The line of the expression.
fn infix_line<K: Output>(out: &mut K, text: &Bytes)
    ensures { K.takes out.old out.new (line (codes "value: " ++ text.now)) }
{
    out.put(b"value: ");
    out.put(text.as_slice());
    out.put(b"\n");
}

impl<'a> Lines for FieldValue<'a> {
    ghost use Rattle.mufom_field_values.specs.Told.{value_text};

    ghost text = { λ value. value_text value };

    fn put_lines<K: Output>(&self, out: &mut K) {
        infix_line(out, &self.infix);
        variable_lines(out, self.parts, &self.variables);
    }
}

// The variables of an expression, in their order.
fn all_variables(alloc: Global, value: &Postfix) -> Result<Vec<(Letter, u32)>, NoMemory>
    ensures { IfOk result (λ all. all.items ≡ variables_of value.now) }
{
    let mut all = Vec::new(alloc);
    for variable in value.mentions() {
        all.push(variable)?;
    }
    Ok(all)
}

/// Returns the lines about an expression of a module: the expression in infix form, and for each variable in
/// it, once, the name of the section, public or reference that it stands for. The only error is out of memory.
pub fn field_value<'a>(
    alloc: Global,
    module: &'a Module,
    value: &Postfix,
) -> Result<FieldValue<'a>, NoMemory>
    ensures { IfOk result (λ told. value_text told ≡ value_lines «module».now value.now) }
{
    let expr = value.to_expr(alloc)?;
    let infix = infix(alloc, &expr)?;
    let variables = all_variables(alloc, value)?;
    Ok(FieldValue {
        parts: module.parts(),
        infix,
        variables,
    })
}
