//! The output of a task, complete up to the calls that print or write it.

ghost use Rattle.std.specs.Prelude.{◌≡◌, ◌⊎◌, ◌<◌, ◌^◌, Some, length, IfErr, IfOk};
ghost use Rattle.mufom_module.specs.Written.{weight};
ghost use Rattle.mufom_origins.specs.Words.{all_files};
ghost use Rattle.mufom_meaning.specs.Absolute.{absolute_of};
ghost use Rattle.mufom_write.specs.Raw.{raw_image};
ghost use Rattle.mufom_groups.specs.Work.{gives};
ghost use Rattle.mufom_prepare.specs.Locations.{shown_of, AreLocated};
ghost use Rattle.mufom_prepare.specs.Ready.{ready_output, IsReady};
ghost use Rattle.mufom_works.specs.WorkEnds.{EndsAt};
ghost use Rattle.mufom_works.specs.Works.{bytes_unless, length_fact, product_of, region_fact, region_image, region_named, writes_module};

use crate::locating::Location;
use mufom_located::{Located, absolute};
use mufom_module::{Module, a_module_is_valid};
use mufom_numbers::limits::MOST_FILE_BYTES;
use mufom_numbers::{Bytes, List, NoMemory, Text};
use mufom_origins::ModuleFiles;
use mufom_outcome::{BinRefusal, Outcome, Refusal};
use mufom_plan::Region;
use mufom_task::Product;
use mufom_text::TextForm;
use mufom_words::HelpText;
use mufom_works::{lines_at, region_named};
use mufom_write::raw_length;
use std::alloc::Global;

/// The output of a task, complete up to the calls that print or write it.
#[derive(Drop)]
pub enum Ready<'a> {
    /// A text in memory.
    Lines(Vec<u8>),
    /// A text of the program.
    Help(&'a HelpText),
    /// The text of one module, in this form.
    Listing {
        modules: List<Module>,
        form: TextForm,
    },
    /// The file of a module.
    File {
        out: &'a Text,
        module: Module,
    },
    /// The file of the raw bytes of an image, which are not too many.
    Raw {
        out: &'a Text,
        fill: u8,
        located: Located,
    },
    /// The file of the bytes of this many addresses from one on, which are not too many.
    Range {
        out: &'a Text,
        fill: u8,
        from: u64,
        count: u64,
        located: Located,
    },
    /// The file of the TI-TXT text of an image.
    TiTxt {
        out: &'a Text,
        located: Located,
    },
    /// The text of an image.
    Image(Located),
    /// The text of a map, or the lines of one address of it. `names` are the files of all modules that were
    /// read.
    Map {
        names: ModuleFiles,
        at: Option<u64>,
        location: Location,
    },
}

// ---- what is made of a location

// The file of the absolute module of a location.
fn absolute_file<'a>(alloc: Global, out: &'a Text, located: Located) -> Result<Ready<'a>, Outcome>
    requires { weight (absolute_of located) < 2 ^ 32 }
    ensures ok { IfOk result (λ ready. writes_module out.now (absolute_of located) (gives (ready_output ready))) }
    ensures ready { IfOk result IsReady }
    ensures err { IfErr result (λ stop. stop ≡ Outcome.NoMemory) }
{
    match absolute(alloc, &located) {
        Ok(module) => {
            a_module_is_valid(&module);
            Ok(Ready::File { out, module })
        }
        Err(_) => Err(Outcome::NoMemory),
    }
}

// The file of the raw image of a location, unless it has more bytes than a file may have.
fn raw_file<'a>(out: &'a Text, fill: u8, located: Located) -> Result<Ready<'a>, Outcome>
    ensures ok { IfOk result (λ ready. bytes_unless (length_fact (length (raw_image fill located.runs))) out.now (raw_image fill located.runs)
        (gives (ready_output ready))) }
    ensures ready { IfOk result IsReady }
    ensures stops { IfErr result (EndsAt (bytes_unless (length_fact (length (raw_image fill located.runs))) out.now (raw_image fill located.runs))) }
{
    let count = raw_length(located.parts().runs.as_slice());
    if count > MOST_FILE_BYTES as u128 {
        Err(Outcome::Refused(Refusal::Bin(BinRefusal::TooLong(count))))
    } else {
        Ok(Ready::Raw { out, fill, located })
    }
}

// The file of the bytes of a region, unless it has more addresses than a file may have bytes.
fn range_file<'a>(
    out: &'a Text,
    fill: u8,
    region: &Region,
    located: Located,
) -> Result<Ready<'a>, Outcome>
    ensures ok { IfOk result (λ ready. bytes_unless (length_fact region.now.size) out.now (region_image fill (Some region.now) located)
        (gives (ready_output ready))) }
    ensures ready { IfOk result IsReady }
    ensures stops { IfErr result (EndsAt (bytes_unless (length_fact region.now.size) out.now (region_image fill (Some region.now) located))) }
{
    let (from, count) = (region.base, region.size);
    if count > MOST_FILE_BYTES as u64 {
        Err(Outcome::Refused(Refusal::Bin(BinRefusal::TooLong(count as u128))))
    } else {
        Ok(Ready::Range {
            out,
            fill,
            from,
            count,
            located,
        })
    }
}

// The outcome for a name that no region has; or out of memory, if it cannot be copied.
fn unknown_region(alloc: Global, name: &Bytes) -> Outcome
    ensures { (result ≡ Outcome.NoMemory) ⊎ (result ≡ Outcome.Refused (Refusal.Bin (BinRefusal.Region name.now))) }
{
    match Bytes::from_slice(alloc, name.as_slice()) {
        Ok(name) => Outcome::Refused(Refusal::Bin(BinRefusal::Region(name))),
        Err(NoMemory) => Outcome::NoMemory,
    }
}

// The file of the bytes of the region with a name, unless there is none or it has too many addresses.
fn region_file<'a>(
    alloc: Global,
    name: &Bytes,
    fill: u8,
    out: &'a Text,
    location: Location,
) -> Result<Ready<'a>, Outcome>
    ensures ok { IfOk result (λ ready. let region = region_named location.plan.regions name.now in
        bytes_unless (region_fact name.now region) out.now (region_image fill region location.located) (gives (ready_output ready))) }
    ensures ready { IfOk result IsReady }
    ensures stops { let region = region_named location.plan.regions name.now in
        IfErr result (EndsAt (bytes_unless (region_fact name.now region) out.now (region_image fill region location.located))) }
{
    let Location { plan, located, .. } = location;
    match region_named(plan.regions.as_slice(), name.as_slice()) {
        Some(region) => range_file(out, fill, region, located),
        None => Err(unknown_region(alloc, name)),
    }
}

/// What is made of a location, complete up to the calls that print or write it; or the outcome of the run, if
/// there is no region with the name that is given, if there are too many bytes, or if memory runs out. `names`
/// are the files of all modules that were read; only a map shows them.
pub fn ready_of<'a>(
    alloc: Global,
    product: &'a Product,
    names: ModuleFiles,
    location: Location,
) -> Result<Ready<'a>, Outcome>
    requires located { AreLocated location }
    requires light { weight (absolute_of location.located) < 2 ^ 32 }
    ensures ok { IfOk result (λ ready. product_of product.now (all_files names) (shown_of location) location.located (gives (ready_output ready))) }
    ensures ready { IfOk result IsReady }
    ensures stops { IfErr result (EndsAt (product_of product.now (all_files names) (shown_of location) location.located)) }
{
    match product {
        Product::Absolute { out } => absolute_file(alloc, out, location.located),
        Product::Raw { fill, out } => raw_file(out, *fill, location.located),
        Product::Region { name, fill, out } => region_file(alloc, name, *fill, out, location),
        Product::TiTxt { out } => Ok(Ready::TiTxt {
            out,
            located: location.located,
        }),
        Product::Image => Ok(Ready::Image(location.located)),
        Product::Map { at } => Ok(Ready::Map {
            names,
            at: *at,
            location,
        }),
        Product::Hit { address } => match lines_at(alloc, &location.located, *address) {
            Ok(text) => Ok(Ready::Lines(text)),
            Err(NoMemory) => Err(Outcome::NoMemory),
        },
    }
}
