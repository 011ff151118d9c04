//! Sections and commons that are placed by a plan: their bases, and the first thing that keeps them
//! from having any.

ghost use Rattle.std.specs.Prelude.{◌≡◌, ◌↔◌, All, IsTrue};
ghost use Rattle.mufom_plan.specs.Commons.{has_common};
ghost use Rattle.mufom_place.specs.Facts.{HasNoBase, IsAddressWidth, IsAligned};

use mufom_numbers::Bytes;
use mufom_numbers::limits::MOST_ALIGNMENT;
use mufom_place::{place, place_refusals_are_facts};
use mufom_plan::{Region, read_plan};
use mufom_sections::Section;
use std::alloc::Global;
use std::process::Abort;

/// A section's name, size, alignment and base.
type Row<'a> = (&'a str, u64, u64, Option<u64>);

const WIDE: &str = "region = [{ name = 'ram', base = 16, size = 32, sections = ['*'] }]";

const TWO: &str = "region = [
    { name = 'rom', base = 0, size = 64, sections = ['t', '*', 'u'] },
    { name = 'ram', base = 0x1001, size = 64, sections = ['d'] },
]";

const NONE: &str = "";

const SMALL: &str = "region = [{ name = 'ram', base = 16, size = 5, sections = ['a', 'b'] }]";

// A region for commons, into which two sections and a common fit, and one into which they do not.
const ROOM: &str =
    "region = [{ name = 'ram', base = 256, size = 64, sections = ['t'], common = true }]";

const NO_ROOM: &str =
    "region = [{ name = 'ram', base = 256, size = 13, sections = ['t'], common = true }]";

const COMMON: &str = "region = [
    { name = 'rom', base = 0, size = 64, sections = ['c', '*'], common = false },
    { name = 'ram', base = 0x1001, size = 64, sections = ['d'], common = true },
]";

fn sections_of(rt: &impl Abort, alloc: Global, rows: &[Row<'_>]) -> Vec<Section> {
    let mut sections = Vec::new(alloc);
    for (name, size, align, base) in rows {
        let section = Section {
            name: Bytes::from_slice(alloc, name.as_bytes()).expect(rt, "memory"),
            absolute: base.is_some(),
            purpose: None,
            size: *size,
            align: *align,
            base: *base,
        };
        sections.push(section).expect(rt, "memory");
    }
    sections
}

fn are_aligned(sections: &[Section]) -> bool
    ensures { IsTrue result ↔ All IsAligned sections.now }
{
    sections.iter().all(|section| section.align >= 1 && section.align <= MOST_ALIGNMENT)
}

fn have_no_base(commons: &[Section]) -> bool
    ensures { IsTrue result ↔ All HasNoBase commons.now }
{
    commons.iter().all(|section| section.base.is_none())
}

fn takes_commons(regions: &[Region]) -> bool
    ensures { result ≡ has_common regions.now }
{
    regions.iter().any(|region| region.common)
}

/// How many bits an address has, the plan, the sections, how many of them at the end are commons,
/// and the bases or the error that are expected.
type Case = (
    u32,
    &'static str,
    &'static [Row<'static>],
    u32,
    &'static str,
);

/// A case that is not well formed fails.
fn gives(rt: &impl Abort, alloc: Global, case: &Case) {
    let (width, plan, rows, commons, want) = case;
    let (width, commons) = (*width, *commons);
    let plan = read_plan(alloc, plan.as_bytes()).expect(rt, "a plan");
    let sections = sections_of(rt, alloc, rows);
    assert!(rt; width >= 8 && width <= 64 && width % 8 == 0);
    assert!(rt; are_aligned(&sections));
    assert!(rt; sections.len() < 1 << 32);
    assert!(rt; commons as usize <= sections.len());
    assert!(rt; have_no_base(&sections[sections.len() - commons as usize..]));
    assert!(rt; commons == 0 || takes_commons(plan.regions.as_slice()));
    let answer = place(alloc, &sections, commons, &plan, width);
    let text = match answer {
        Ok(bases) => format!(in alloc; "{:?}", bases.as_slice()).expect(rt, "memory"),
        Err(refusal) => format!(in alloc; "{refusal:?}").expect(rt, "memory"),
    };
    assert_eq!(rt; text.as_str(), *want, "{width} bits, {plan:?}");
}

// Sections that have bases.
static PLACED: [Case; 13] = [
    (
        32,
        WIDE,
        &[("a", 3, 1, None), ("b", 4, 4, None)],
        0,
        "[16, 20]",
    ),
    // The region's first section is aligned too, and each other one after the one before.
    (
        32,
        TWO,
        &[("d", 3, 4, None), ("d", 4, 8, None)],
        0,
        "[4100, 4104]",
    ),
    // By the list, and for one name in the order of the sections.
    (
        32,
        TWO,
        &[
            ("u", 4, 1, None),
            ("t", 4, 1, None),
            ("d", 4, 1, None),
            ("t", 4, 1, None),
        ],
        0,
        "[8, 0, 4097, 4]",
    ),
    // A star is at its place for all names that no list has, and for its own.
    (
        32,
        TWO,
        &[
            ("y", 4, 1, None),
            ("u", 4, 1, None),
            ("x", 4, 1, None),
            ("*", 4, 1, None),
            ("t", 4, 1, None),
        ],
        0,
        "[4, 16, 8, 12, 0]",
    ),
    // A section with a base of its own is there, and takes no place in a region.
    (
        32,
        TWO,
        &[("t", 4, 1, Some(0x2000)), ("t", 4, 1, None)],
        0,
        "[8192, 0]",
    ),
    // Empty sections are placed and aligned as others are.
    (
        32,
        WIDE,
        &[("a", 0, 32, None), ("b", 0, 1, None), ("c", 1, 1, None)],
        0,
        "[32, 32, 32]",
    ),
    // To the last address, by several widths.
    (
        32,
        NONE,
        &[("a", 16, 1, Some(4_294_967_280))],
        0,
        "[4294967280]",
    ),
    (
        64,
        NONE,
        &[("a", 4, 1, Some(18_446_744_073_709_551_612))],
        0,
        "[18446744073709551612]",
    ),
    (8, NONE, &[("a", 4, 1, Some(252))], 0, "[252]"),
    // A region's end.
    (
        32,
        WIDE,
        &[("a", 30, 1, None), ("b", 2, 1, None)],
        0,
        "[16, 46]",
    ),
    // Two sections and a common.
    (
        32,
        ROOM,
        &[("t", 4, 1, None), ("t", 4, 1, None), ("c", 6, 8, None)],
        1,
        "[256, 260, 264]",
    ),
    // The names of commons are in no list that is looked at: they keep their order.
    (
        32,
        COMMON,
        &[
            ("d", 3, 1, None),
            ("c", 4, 1, None),
            ("d", 2, 8, None),
            ("c", 1, 8, None),
        ],
        2,
        "[4097, 0, 4104, 4112]",
    ),
    // Sections that touch, and an empty one within another.
    (
        32,
        NONE,
        &[
            ("a", 4, 1, Some(16)),
            ("b", 4, 1, Some(20)),
            ("c", 0, 1, Some(18)),
        ],
        0,
        "[16, 20, 18]",
    ),
];

#[test]
fn sections_are_placed_by_the_plan(rt: HostRuntime) {
    for case in &PLACED {
        gives(&rt, rt.alloc(), case);
    }
    place_refusals_are_facts();
}

// Sections that have none, for the first thing that keeps them from it.
static REFUSED: [Case; 18] = [
    // A section past the 32 bits of an address, by its end or by its base too.
    (
        32,
        NONE,
        &[("a", 17, 1, Some(4_294_967_280))],
        0,
        "Misfit { section: 0, region: None }",
    ),
    (
        32,
        NONE,
        &[("a", 0, 1, Some(4_294_967_296))],
        0,
        "Misfit { section: 0, region: None }",
    ),
    (
        32,
        NONE,
        &[("a", u64::MAX, 1, Some(u64::MAX))],
        0,
        "Misfit { section: 0, region: None }",
    ),
    (
        64,
        NONE,
        &[("a", 5, 1, Some(18_446_744_073_709_551_612))],
        0,
        "Misfit { section: 0, region: None }",
    ),
    // An empty section right after the last address, by the width of an address.
    (
        8,
        NONE,
        &[("a", 0, 1, Some(256))],
        0,
        "Misfit { section: 0, region: None }",
    ),
    (
        16,
        NONE,
        &[("a", 0, 1, Some(65_536))],
        0,
        "Misfit { section: 0, region: None }",
    ),
    (
        40,
        NONE,
        &[("a", 0, 1, Some(1_099_511_627_776))],
        0,
        "Misfit { section: 0, region: None }",
    ),
    // One after a region's end.
    (
        32,
        WIDE,
        &[("a", 30, 1, None), ("b", 3, 1, None)],
        0,
        "Misfit { section: 1, region: Some(0) }",
    ),
    // A common that does not fit.
    (
        32,
        NO_ROOM,
        &[("t", 4, 1, None), ("t", 4, 1, None), ("c", 6, 8, None)],
        1,
        "Misfit { section: 2, region: Some(0) }",
    ),
    // The same three sections without commons: no list has the last one's name.
    (
        32,
        ROOM,
        &[("t", 4, 1, None), ("t", 4, 1, None), ("c", 6, 8, None)],
        0,
        "Unplaced(2)",
    ),
    // A common overlaps what is at its own base.
    (
        32,
        COMMON,
        &[("a", 1, 1, Some(0x100A)), ("c", 4, 8, None)],
        1,
        "Overlap(1, 0)",
    ),
    // No region.
    (
        32,
        NONE,
        &[
            ("a", 3, 1, None),
            ("b", 4, 4, None),
            ("c", 1, 1, None),
            ("*", 1, 1, None),
        ],
        0,
        "Unplaced(0)",
    ),
    // Without a star no entry stands for a name that no list has; this goes before a misfit.
    (
        32,
        SMALL,
        &[
            ("a", 3, 1, None),
            ("b", 4, 4, None),
            ("c", 1, 1, None),
            ("*", 1, 1, None),
        ],
        0,
        "Unplaced(2)",
    ),
    (
        32,
        SMALL,
        &[("a", 3, 1, None), ("b", 4, 4, None)],
        0,
        "Misfit { section: 1, region: Some(0) }",
    ),
    // Overlaps, by base, and at one base by position.
    (
        32,
        WIDE,
        &[("a", 3, 1, None), ("b", 4, 4, None), ("c", 1, 1, Some(22))],
        0,
        "Overlap(1, 2)",
    ),
    (
        32,
        NONE,
        &[("a", 5, 1, Some(10)), ("b", 4, 1, Some(8))],
        0,
        "Overlap(1, 0)",
    ),
    (
        32,
        NONE,
        &[("a", 9, 1, Some(8)), ("b", 1, 1, Some(8))],
        0,
        "Overlap(0, 1)",
    ),
    // A misfit goes before.
    (
        32,
        NONE,
        &[
            ("a", 9, 1, Some(8)),
            ("b", 1, 1, Some(8)),
            ("c", 1, 1, Some(4_294_967_296)),
        ],
        0,
        "Misfit { section: 2, region: None }",
    ),
];

#[test]
fn sections_that_do_not_fit_are_refused(rt: HostRuntime) {
    for case in &REFUSED {
        gives(&rt, rt.alloc(), case);
    }
}
