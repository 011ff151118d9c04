//! The numbers that the entries of a module get in a link.

ghost use Rattle.std.specs.Prelude.{◌≡◌, slice_get};
ghost use Rattle.mufom_link.specs.Renaming.{moved, target_at};

use mufom_expr::{Letter, VarMap};

/// Where the entries of a module are in a link: the numbers of its first section, public and debug
/// name, and the variables that replace its references. Numbers are added modulo 2^32, which
/// changes none that a valid module has.
#[derive(Clone, Copy)]
pub(crate) struct Renumbering<'a> {
    pub first_section: u32,
    pub first_public: u32,
    pub first_name: u32,
    pub targets: &'a [(Letter, u32)],
}

impl<'a> Renumbering<'a> {
    // The number in the link of a section of this module.
    pub(crate) fn section(&self, section: u32) -> u32
        ensures { result ≡ moved self.now.first_section section }
    {
        self.first_section.wrapping_add(section)
    }

    // The number in the link of a debug name of this module.
    pub(crate) fn debug_name(&self, name: u32) -> u32
        ensures { result ≡ moved self.now.first_name name }
    {
        self.first_name.wrapping_add(name)
    }

    // The variable that replaces a reference of this module.
    fn target(&self, reference: u32) -> (Letter, u32)
        ensures { result ≡ target_at (slice_get self.now.targets.now reference) }
    {
        match self.targets.get(reference as usize) {
            Some(target) => *target,
            None => (Letter::X, 0),
        }
    }
}

impl<'a> VarMap for Renumbering<'a> {
    ghost use Rattle.mufom_link.specs.Renaming.{site_variable};

    ghost meaning = { site_variable };

    fn map(&self, letter: Letter, index: u32) -> (Letter, u32) {
        match letter {
            Letter::X => self.target(index),
            Letter::I => (Letter::I, self.first_public.wrapping_add(index)),
            Letter::R => (letter, self.section(index)),
            Letter::L => (letter, self.section(index)),
            Letter::S => (letter, self.section(index)),
            Letter::P => (letter, self.section(index)),
        }
    }
}
