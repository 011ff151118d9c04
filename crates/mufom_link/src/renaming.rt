//! Renumbers the publics, loads and start of a module for the link, in place. Does not allocate.

ghost use Rattle.std.specs.Prelude.{◌≡◌, map};
ghost use Rattle.mufom_link.specs.Joining.{start_after};
ghost use Rattle.mufom_link.specs.Renaming.{renaming_of, renamed_tree, renamed_public, renamed_item, renamed_load};

use crate::renumbering::Renumbering;
use mufom_expr::{Postfix, Token};
use mufom_loads::{Item, Load};
use mufom_names::Public;
use mufom_numbers::List;
use std::alloc::Global;
use std::mem;

fn rename(site: &Renumbering<'_>, value: &mut Postfix)
    ensures { value.new ≡ renamed_tree (renaming_of site.now) value.old }
{
    let own = mem::replace(value, Postfix::single(Token::Number(0)));
    *value = own.renamed(site);
}

fn rename_public(site: &Renumbering<'_>, public: &mut Public)
    ensures { public.new ≡ renamed_public (renaming_of site.now) public.old }
{
    rename(site, &mut public.value);
}

pub(crate) fn rename_publics(site: &Renumbering<'_>, mut publics: Vec<Public>) -> Vec<Public>
    ensures { result.items ≡ map (renamed_public (renaming_of site.now)) publics.items }
{
    for public in publics.iter_mut() {
        rename_public(site, public);
    }
    publics
}

fn rename_item(site: &Renumbering<'_>, item: &mut Item)
    ensures { item.new ≡ renamed_item (renaming_of site.now) item.old }
{
    match item {
        Item::Literal(_) => (),
        Item::Field { value, .. } => rename(site, value),
    }
}

fn rename_items(site: &Renumbering<'_>, mut items: Vec<Item>) -> Vec<Item>
    ensures { result.items ≡ map (renamed_item (renaming_of site.now)) items.items }
{
    for item in items.iter_mut() {
        rename_item(site, item);
    }
    items
}

// Renumbers the items of a repeat.
fn rename_repeated(alloc: Global, site: &Renumbering<'_>, items: &mut List<Item>)
    ensures { items.new ≡ map (renamed_item (renaming_of site.now)) items.old }
{
    let own = mem::replace(items, List::new(alloc));
    *items = List::from_vec(rename_items(site, own.into_vec()));
}

fn rename_load(alloc: Global, site: &Renumbering<'_>, load: &mut Load)
    ensures { load.new ≡ renamed_load (renaming_of site.now) load.old }
{
    match load {
        Load::SetSection(section) => *section = site.section(*section),
        Load::SetPc { section, value } => {
            *section = site.section(*section);
            rename(site, value);
        }
        Load::One(item) => rename_item(site, item),
        Load::Repeat { items, .. } => rename_repeated(alloc, site, items),
    }
}

pub(crate) fn rename_loads(alloc: Global, site: &Renumbering<'_>, mut loads: Vec<Load>) -> Vec<Load>
    ensures { result.items ≡ map (renamed_load (renaming_of site.now)) loads.items }
{
    for load in loads.iter_mut() {
        rename_load(alloc, site, load);
    }
    loads
}

// Makes the start of the module, renumbered, that of the link, if the module has one.
pub(crate) fn take_start(
    site: &Renumbering<'_>,
    start: Option<Postfix>,
    whole: &mut Option<Postfix>,
)
    ensures { whole.new ≡ start_after (renaming_of site.now) start whole.old }
{
    if let Some(start) = start {
        *whole = Some(start.renamed(site));
    }
}
