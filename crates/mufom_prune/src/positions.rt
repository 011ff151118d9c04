//! The positions of entries in the lists of the rest of a module.

ghost use Rattle.std.specs.Prelude.{◌≡◌, ◌<◌, ◌^◌, get_or, length, IfOk};
ghost use Rattle.mufom_prune.specs.Pruned.{new_positions, new_tree};

use mufom_expr::{Letter, Postfix, VarMap};
use mufom_numbers::{List, NoMemory};
use std::alloc::Global;

/// The new position of each section, each public and each reference of a module.
#[derive(Drop)]
pub(crate) struct NewPositions {
    pub sections: List<u32>,
    pub publics: List<u32>,
    pub references: List<u32>,
}

// The number at a position, or 0 past the end.
fn at(positions: &List<u32>, place: u32) -> u32
    ensures { result ≡ get_or positions.now place 0 }
{
    match positions.get(place as usize) {
        Some(position) => *position,
        None => 0,
    }
}

impl NewPositions {
    /// The new position of a section.
    pub(crate) fn section(&self, section: u32) -> u32
        ensures { result ≡ get_or self.now.sections section 0 }
    {
        at(&self.sections, section)
    }
}

impl VarMap for NewPositions {
    ghost use Rattle.mufom_prune.specs.Pruned.{new_variable};

    ghost meaning = { new_variable };

    fn map(&self, letter: Letter, index: u32) -> (Letter, u32) {
        match letter {
            Letter::I => (letter, at(&self.publics, index)),
            Letter::X => (letter, at(&self.references, index)),
            Letter::R => (letter, at(&self.sections, index)),
            Letter::L => (letter, at(&self.sections, index)),
            Letter::S => (letter, at(&self.sections, index)),
            Letter::P => (letter, at(&self.sections, index)),
        }
    }
}

/// Returns the new positions of entries with these marks.
pub(crate) fn new_positions(alloc: Global, marks: &[bool]) -> Result<List<u32>, NoMemory>
    requires { length marks.now < 2 ^ 32 }
    ensures { IfOk result (λ positions. positions ≡ new_positions 0 marks.now) }
{
    let mut positions = List::with_capacity(alloc, marks.len())?;
    let mut next: u32 = 0;
    for mark in marks {
        positions.push(next)?;
        if *mark {
            next += 1;
        }
    }
    Ok(positions)
}

/// Returns an expression with the new positions.
pub(crate) fn move_tree(
    alloc: Global,
    positions: &NewPositions,
    value: &Postfix,
) -> Result<Postfix, NoMemory>
    ensures { IfOk result (λ moved. moved ≡ new_tree positions.now value.now) }
{
    value.map_vars(alloc, positions)
}
