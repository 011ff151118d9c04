//! The lists of a link, joined module by module.

ghost use Rattle.std.specs.Prelude.{◌≡◌, ◌++◌, ◌<◌, ◌^◌, [], None, length, IfOk, OnOk};
ghost use Rattle.mufom_debug.specs.Marks.{marks_of, names_after_all};
ghost use Rattle.mufom_link.specs.Joining.{IsAppended, IsEmpty};

use crate::debug_renaming::{names_after, renamed_items};
use crate::renaming::{rename_loads, rename_publics, take_start};
use crate::renumbering::Renumbering;
use mufom_debug::DebugItem;
use mufom_expr::{Letter, Postfix};
use mufom_loads::Load;
use mufom_module::{Module, Parts};
use mufom_names::Public;
use mufom_numbers::NoMemory;
use mufom_sections::Section;
use std::alloc::Global;

/// The entries of a link so far, except its references.
#[derive(Drop)]
pub(crate) struct Joined {
    pub sections: Vec<Section>,
    pub publics: Vec<Public>,
    pub loads: Vec<Load>,
    pub start: Option<Postfix>,
    pub debug: Vec<DebugItem>,
    // How many debug names the items declare.
    debug_names: u32,
}

// How many entries of each kind modules have.
#[derive(Clone, Copy)]
struct Counts {
    sections: usize,
    publics: usize,
    loads: usize,
    debug: usize,
}

// How many entries of each kind the modules have, to reserve memory for their link.
fn count_entries(list: &[Module]) -> Counts {
    let mut all = Counts {
        sections: 0,
        publics: 0,
        loads: 0,
        debug: 0,
    };
    for module in list {
        let parts = module.parts();
        all.sections = all.sections.saturating_add(parts.sections.len());
        all.publics = all.publics.saturating_add(parts.names.publics.len());
        all.loads = all.loads.saturating_add(parts.loads.len());
        all.debug = all.debug.saturating_add(parts.debug.len());
    }
    all
}

// Moves the items to the end of the list.
fn append<T: Drop>(all: &mut Vec<T>, mut items: Vec<T>) -> Result<(), NoMemory>
    ensures { OnOk result (all.new.items ≡ all.old.items ++ items.items) }
{
    all.append(&mut items)?;
    Ok(())
}

impl Joined {
    // Returns a link without any module, with memory reserved for the entries of these modules.
    pub(crate) fn with_room(alloc: Global, list: &[Module]) -> Result<Joined, NoMemory>
        ensures { IfOk result (λ all. IsEmpty all) }
    {
        let counts = count_entries(list);
        Ok(Joined {
            sections: Vec::with_capacity(alloc, counts.sections)?,
            publics: Vec::with_capacity(alloc, counts.publics)?,
            loads: Vec::with_capacity(alloc, counts.loads)?,
            start: None,
            debug: Vec::with_capacity(alloc, counts.debug)?,
            debug_names: 0,
        })
    }

    // Appends the entries of a module. These variables replace its references.
    pub(crate) fn append(
        &mut self,
        alloc: Global,
        module: Module,
        targets: &[(Letter, u32)],
    ) -> Result<(), NoMemory>
        requires sections { length self.old.sections.items < 2 ^ 32 }
        requires publics { length self.old.publics.items < 2 ^ 32 }
        requires names { names_after_all self.old.debug_names (marks_of «module».debug) < 2 ^ 32 }
        ensures { OnOk result (IsAppended targets.now «module» self.old self.new) }
    {
        let Parts {
            sections,
            names,
            debug,
            loads,
            start,
            ..
        } = module.into_parts();
        let site = Renumbering {
            first_section: self.sections.len() as u32,
            first_public: self.publics.len() as u32,
            first_name: self.debug_names,
            targets,
        };
        self.debug_names = names_after(self.debug_names, debug.as_slice());
        append(&mut self.sections, sections.into_vec())?;
        append(
            &mut self.publics,
            rename_publics(&site, names.publics.into_vec()),
        )?;
        append(
            &mut self.loads,
            rename_loads(alloc, &site, loads.into_vec()),
        )?;
        take_start(&site, start, &mut self.start);
        let items = renamed_items(alloc, &site, debug)?;
        append(&mut self.debug, items.into_vec())?;
        Ok(())
    }
}
