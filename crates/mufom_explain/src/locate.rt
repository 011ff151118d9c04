//! Explains the error of a module that cannot be located.

ghost use Rattle.std.specs.Prelude.{◌≡◌, ◌+◌, ◌∷◌, ◌<◌, ◌^◌, [], All, Some, None, IfOk, length, option_map, slice_get};
ghost use Rattle.mufom_names.specs.Names.{names_of, AreDistinct};
ghost use Rattle.mufom_text.specs.Fitting.{IsUnitCount};
ghost use Rattle.mufom_image_values.specs.Resolutions.{resolutions_of};
ghost use Rattle.mufom_image.specs.Placements.{placing_refusal};
ghost use Rattle.mufom_image.specs.Refusals.{IsMet};
ghost use Rattle.mufom_image.specs.Stages.{circular};
ghost use Rattle.mufom_meaning.specs.Facts.{placement, zero_divisor};
ghost use Rattle.mufom_planned.specs.Planned.{copied_answer};
ghost use Rattle.mufom_locating.specs.Exported.{AllListed};
ghost use Rattle.mufom_planned.specs.ReadPlans.{IsReadPlan};
ghost use Rattle.mufom_explain.specs.Details.{entry_lines, field_details, layout_of, lines_among, locate_details, numbered_copy, numbered_lines};
ghost use Rattle.mufom_explain.specs.Details.{commons_of, placed_lines, placement_details, site_details, undefined_names};
ghost use Rattle.mufom_explain.specs.Explained.{explained_of, locate_lines, locate_text, taken_text};
ghost use Rattle.mufom_explain.specs.Flat.{flat_of};
ghost use Rattle.mufom_explain.specs.Lines.{copied_line};
ghost use Rattle.mufom_explain.specs.Mentions.{mention_text};
ghost use Rattle.mufom_origins.specs.Words.{all_files};

use crate::details::{LocateContext, LocateDetails, LocateKind};
use crate::entries::{common_lines, copy_line, section_line};
use crate::finding::find_mentions;
use crate::naming::one_name;
use crate::regions::region_line;
use crate::undefined::undefined_names;
use mufom_field_values::{field_value, find_field};
use mufom_image::{Site, planned_commons};
use mufom_image_values::{Resolution, resolve_references};
use mufom_locating::{module_copies, region_ends};
use mufom_module::a_module_is_valid;
use mufom_numbers::{Bytes, List, NoMemory};
use mufom_place::{PlaceRefusal, RegionCopy};
use mufom_refusals::LocateRefusal;
use mufom_sections::Section;
use mufom_text::{Lines, Output};
use std::alloc::Global;

// The lines of the common at a position, if there is one.
fn common_at<K: Output>(
    out: &mut K,
    context: &LocateContext<'_>,
    number: u32,
    commons: &[Section],
    position: usize,
)
    ensures { K.takes out.old out.new (numbered_lines (explained_of context.now) number None (slice_get commons.now position)) }
{
    match commons.get(position) {
        Some(common) => common_lines(out, context.names, context.flat, number, common),
        None => {}
    }
}

// The line of the copy at a position, if there is one.
fn copied_at<K: Output>(out: &mut K, number: u32, copies: &[RegionCopy], position: usize)
    ensures { K.takes out.old out.new (copied_line number (slice_get copies.now position)) }
{
    match copies.get(position) {
        Some(copy) => copy_line(out, number, copy),
        None => {}
    }
}

// The line of the region with a number, if there is one, whose sections take this much space.
fn region_at<K: Output>(
    out: &mut K,
    context: &LocateContext<'_>,
    maus: u8,
    number: u32,
    taken: u128,
)
    requires units { IsUnitCount maus }
    requires same { maus ≡ context.now.module.now.maus }
    ensures { K.takes out.old out.new (taken_text (explained_of context.now) number taken) }
{
    match context.plan.regions.get(number as usize) {
        Some(region) => region_line(out, maus, number, region, taken),
        None => {}
    }
}

impl<'a> LocateDetails<'a> {
    // The lines of the section with a number, or otherwise of the common.
    fn entry_lines<K: Output>(&self, out: &mut K, number: u32)
        ensures { K.takes out.old out.new (entry_lines (explained_of self.now.context) number) }
    {
        let context = &self.context;
        let parts = context.module.parts();
        let sections = parts.sections.as_slice();
        let position = number as usize;
        if position < sections.len() {
            let section = &sections[position];
            section_line(
                out,
                parts.maus,
                context.names,
                context.origins,
                number,
                section,
            );
        } else {
            let commons = self.commons.as_slice();
            common_at(out, context, number, commons, position - sections.len());
        }
    }

    // The line of the copy with a number, if it is one; copies are numbered after the commons.
    fn copy_line<K: Output>(&self, out: &mut K, copies: &[RegionCopy], number: u32)
        ensures { K.takes out.old out.new (copied_line number
            (numbered_copy (length self.now.context.module.now.sections + length self.now.commons) copies.now number)) }
    {
        let position = number as usize;
        let sections = self.context.module.parts().sections.len();
        let commons = self.commons.len();
        if position >= sections && position - sections >= commons {
            copied_at(out, number, copies, position - sections - commons);
        }
    }

    // The lines of the section, common or copy with a number.
    fn placed_lines<K: Output>(&self, out: &mut K, copies: &[RegionCopy], number: u32)
        ensures { K.takes out.old out.new (lines_among (explained_of self.now.context) copies.now number) }
    {
        self.entry_lines(out, number);
        self.copy_line(out, copies, number);
    }

    // The line of a region whose sections take this much space.
    fn region_line<K: Output>(&self, out: &mut K, number: u32, taken: u128)
        ensures { K.takes out.old out.new (taken_text (explained_of self.now.context) number taken) }
    {
        let context = &self.context;
        region_at(out, context, context.module.parts().maus, number, taken);
    }
}

impl<'a> Lines for LocateDetails<'a> {
    ghost use Rattle.mufom_explain.specs.Explained.{locate_text};

    ghost text = { λ details. locate_text details };

    fn put_lines<K: Output>(&self, out: &mut K) {
        match &self.kind {
            LocateKind::Entry(number) => self.entry_lines(out, *number),
            LocateKind::Placed(copies, number) => {
                self.placed_lines(out, copies.as_slice(), *number);
            }
            LocateKind::Entries(copies, first, second) => {
                self.placed_lines(out, copies.as_slice(), *first);
                self.placed_lines(out, copies.as_slice(), *second);
            }
            LocateKind::Misfit {
                copies,
                section,
                region,
                taken,
            } => {
                self.placed_lines(out, copies.as_slice(), *section);
                self.region_line(out, *region, *taken);
            }
            LocateKind::Field { section, value } => {
                self.entry_lines(out, *section);
                value.put_lines(out);
            }
            LocateKind::Mentions(mentions) => mentions.put(out, self.context.names),
            LocateKind::Nothing => {}
        }
    }
}

// The lines of the modules that mention a name.
fn about_name<'a>(
    alloc: Global,
    context: &LocateContext<'a>,
    name: &'a Bytes,
) -> Result<LocateKind<'a>, NoMemory>
    requires { length context.now.flat.now < 2 ^ 32 }
    ensures { IfOk result (λ kind. locate_lines (explained_of context.now) kind
        ≡ mention_text (all_files context.now.names.now) (flat_of context.now.flat.now) (name.now ∷ [])) }
{
    let wanted = one_name(alloc, name.as_slice())?;
    Ok(LocateKind::Mentions(find_mentions(alloc, wanted, context.flat)?))
}

// The lines of the modules that mention an undefined name, for all undefined names.
fn about_undefined<'a>(
    alloc: Global,
    context: &LocateContext<'a>,
) -> Result<LocateKind<'a>, NoMemory>
    requires { length context.now.flat.now < 2 ^ 32 }
    ensures { IfOk result (λ kind. locate_lines (explained_of context.now) kind
        ≡ mention_text (all_files context.now.names.now) (flat_of context.now.flat.now) (undefined_names (context.now.module.now ∷ []))) }
{
    let wanted = undefined_names(alloc, context.module)?;
    Ok(LocateKind::Mentions(find_mentions(alloc, wanted, context.flat)?))
}

// The copies of regions, if a number is that of one of them. They are numbered after the commons, and the lines of
// sections and commons need none.
fn copies_for(
    alloc: Global,
    context: &LocateContext<'_>,
    commons: usize,
    number: u32,
) -> Result<List<RegionCopy>, NoMemory>
    requires plan { IsReadPlan context.now.plan.now }
    requires commons { commons ≡ length (commons_of (explained_of context.now)) }
    ensures { IfOk result (λ copies. lines_among (explained_of context.now) copies number ≡ placed_lines (explained_of context.now) number) }
{
    let position = number as usize;
    let sections = context.module.parts().sections.len();
    if position < sections || position - sections < commons {
        return Ok(List::new(alloc));
    }
    Ok(module_copies(alloc, context.module, context.plan)?)
}

// The lines of a section, common or copy that does not fit the region with a number.
fn about_region<'a>(
    alloc: Global,
    context: &LocateContext<'a>,
    copies: List<RegionCopy>,
    section: u32,
    number: u32,
) -> Result<LocateKind<'a>, NoMemory>
    requires plan { IsReadPlan context.now.plan.now }
    requires listed { AllListed context.now.plan.now context.now.module.now.sections }
    requires copies { lines_among (explained_of context.now) copies section ≡ placed_lines (explained_of context.now) section }
    ensures { IfOk result (λ kind. locate_lines (explained_of context.now) kind
        ≡ placement_details (explained_of context.now) (PlaceRefusal.Misfit section (Some number))) }
{
    let Some(region) = context.plan.regions.get(number as usize) else {
        return Ok(LocateKind::Placed(copies, section));
    };
    let ends = region_ends(alloc, context.module, context.plan)?;
    let taken = ends[number as usize].saturating_sub(region.base as u128);
    Ok(LocateKind::Misfit {
        copies,
        section,
        region: number,
        taken,
    })
}

// The lines of a section, common or copy that does not fit the region with a number, if a region places it.
fn about_misfit<'a>(
    alloc: Global,
    context: &LocateContext<'a>,
    commons: usize,
    section: u32,
    region: Option<u32>,
) -> Result<LocateKind<'a>, NoMemory>
    requires plan { IsReadPlan context.now.plan.now }
    requires listed { AllListed context.now.plan.now context.now.module.now.sections }
    requires commons { commons ≡ length (commons_of (explained_of context.now)) }
    ensures { IfOk result (λ kind. locate_lines (explained_of context.now) kind
        ≡ placement_details (explained_of context.now) (PlaceRefusal.Misfit section region)) }
{
    let copies = copies_for(alloc, context, commons, section)?;
    match region {
        Some(region) => about_region(alloc, context, copies, section, region),
        None => Ok(LocateKind::Placed(copies, section)),
    }
}

// The lines of two sections, commons or copies that overlap.
fn about_overlap<'a>(
    alloc: Global,
    context: &LocateContext<'a>,
    first: u32,
    second: u32,
) -> Result<LocateKind<'a>, NoMemory>
    requires plan { IsReadPlan context.now.plan.now }
    ensures { IfOk result (λ kind. locate_lines (explained_of context.now) kind
        ≡ placement_details (explained_of context.now) (PlaceRefusal.Overlap first second)) }
{
    let copies = module_copies(alloc, context.module, context.plan)?;
    Ok(LocateKind::Entries(copies, first, second))
}

// The lines that explain an error of placing.
fn about_placement<'a>(
    alloc: Global,
    context: &LocateContext<'a>,
    commons: usize,
    refusal: PlaceRefusal,
) -> Result<LocateKind<'a>, NoMemory>
    requires plan { IsReadPlan context.now.plan.now }
    requires commons { commons ≡ length (commons_of (explained_of context.now)) }
    requires met { copied_answer (context.now.module.now ∷ []) context.now.plan.now ≡ Some (placement refusal) }
    ensures { IfOk result (λ kind. locate_lines (explained_of context.now) kind ≡ placement_details (explained_of context.now) refusal) }
{
    match refusal {
        PlaceRefusal::Unplaced(number) => Ok(LocateKind::Entry(number)),
        PlaceRefusal::Misfit { section, region } => {
            about_misfit(alloc, context, commons, section, region)
        }
        PlaceRefusal::Overlap(first, second) => about_overlap(alloc, context, first, second),
        PlaceRefusal::NoMemory => Ok(LocateKind::Nothing),
    }
}

// The lines of a section, and of the value of the first field that is loaded into it at an address.
fn about_field<'a>(
    alloc: Global,
    context: &LocateContext<'a>,
    resolutions: &[Resolution],
    section: u32,
    address: u64,
) -> Result<LocateKind<'a>, NoMemory>
    requires names { AreDistinct (names_of context.now.module.now.names.publics) }
    requires plan { IsReadPlan context.now.plan.now }
    requires resolved { resolutions.now ≡ resolutions_of context.now.module.now }
    requires placed { placing_refusal context.now.module.now context.now.plan.now ≡ None }
    requires acyclic { circular context.now.module.now ≡ None }
    ensures { IfOk result (λ kind. locate_lines (explained_of context.now) kind ≡ field_details (explained_of context.now) section address) }
{
    let (module, own, plan) = (context.module, context.own, context.plan);
    let found = find_field(alloc, module, own, resolutions, plan, section, address)?;
    match found {
        Some(value) => {
            let value = field_value(alloc, own, value)?;
            Ok(LocateKind::Field { section, value })
        }
        None => Ok(LocateKind::Entry(section)),
    }
}

// The lines that explain the place of an expression that divides by 0.
fn about_site<'a>(
    alloc: Global,
    context: &LocateContext<'a>,
    resolutions: &[Resolution],
    site: &'a Site,
) -> Result<LocateKind<'a>, NoMemory>
    requires flat { length context.now.flat.now < 2 ^ 32 }
    requires names { AreDistinct (names_of context.now.module.now.names.publics) }
    requires plan { IsReadPlan context.now.plan.now }
    requires resolved { resolutions.now ≡ resolutions_of context.now.module.now }
    requires met { copied_answer (context.now.module.now ∷ []) context.now.plan.now ≡ Some (zero_divisor site.now) }
    ensures { IfOk result (λ kind. locate_lines (explained_of context.now) kind ≡ site_details (explained_of context.now) site.now) }
{
    match site {
        Site::Public(name) => about_name(alloc, context, name),
        Site::Counter(number) => Ok(LocateKind::Entry(*number)),
        Site::Field { section, address } => {
            about_field(alloc, context, resolutions, *section, *address)
        }
        Site::Start => Ok(LocateKind::Nothing),
        Site::Debug(_) => Ok(LocateKind::Nothing),
    }
}

// The lines that explain an error.
fn about<'a>(
    alloc: Global,
    context: &LocateContext<'a>,
    resolutions: &[Resolution],
    commons: usize,
    refusal: &'a LocateRefusal,
) -> Result<LocateKind<'a>, NoMemory>
    requires flat { length context.now.flat.now < 2 ^ 32 }
    requires names { AreDistinct (names_of context.now.module.now.names.publics) }
    requires plan { IsReadPlan context.now.plan.now }
    requires resolved { resolutions.now ≡ resolutions_of context.now.module.now }
    requires commons { commons ≡ length (commons_of (explained_of context.now)) }
    requires met { IsMet (copied_answer (context.now.module.now ∷ []) context.now.plan.now) refusal.now }
    ensures { IfOk result (λ kind. locate_lines (explained_of context.now) kind ≡ locate_details (explained_of context.now) refusal.now) }
{
    match refusal {
        LocateRefusal::Place(refusal) => about_placement(alloc, context, commons, *refusal),
        LocateRefusal::Undefined(_) => about_undefined(alloc, context),
        LocateRefusal::CommonUnplaced(name) => about_name(alloc, context, name),
        LocateRefusal::Cycle(name) => about_name(alloc, context, name),
        LocateRefusal::DivideByZero(site) => about_site(alloc, context, resolutions, site),
        LocateRefusal::Overflow {
            section,
            address,
            ..
        } => about_field(alloc, context, resolutions, *section, *address),
        LocateRefusal::LoadOutside { section, .. } => Ok(LocateKind::Entry(*section)),
        LocateRefusal::LoadedTwice(_) => Ok(LocateKind::Nothing),
        LocateRefusal::ImageLimit(_) => Ok(LocateKind::Nothing),
        LocateRefusal::NoMemory => Ok(LocateKind::Nothing),
    }
}

/// Returns the lines that follow the error line of a module that cannot be located: the sections, commons and
/// copies of regions to which it refers, with the modules from which they come, a region with the space that its
/// sections take, all modules that mention the names, or the expression of a field with the names of its
/// variables; all undefined names are listed.
///
/// The module has the plan's symbols among its publics, if the plan has any; the expression of a field is that of
/// the module without them. `refusal` must be the error of locating the module by the plan's regions, and no two of
/// its publics have the same name. The time is proportional to the number of names in the modules, the sections and
/// the plan, and the memory to the number of mentions and sections; for a field, the time is that of locating. The
/// only error is out of memory.
pub fn explain_locate<'a>(
    alloc: Global,
    context: LocateContext<'a>,
    refusal: &'a LocateRefusal,
) -> Result<LocateDetails<'a>, NoMemory>
    requires flat { length context.flat.now < 2 ^ 32 }
    requires names { AreDistinct (names_of context.module.now.names.publics) }
    requires plan { IsReadPlan context.plan.now }
    requires met { IsMet (copied_answer (context.module.now ∷ []) context.plan.now) refusal.now }
    ensures { IfOk result (λ details. locate_text details ≡ locate_details (explained_of context.entry) refusal.now) }
{
    let resolutions = resolve_references(alloc, context.module)?;
    let commons = planned_commons(alloc, context.module, resolutions.as_slice(), context.plan)?;
    let kind = about(
        alloc,
        &context,
        resolutions.as_slice(),
        commons.len(),
        refusal,
    )?;
    a_module_is_valid(context.module);
    Ok(LocateDetails {
        context,
        commons,
        kind,
    })
}
