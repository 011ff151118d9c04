//! Memory plans: the regions that documents state, and the first thing that is wrong with them.
//! Lists of names too.

use mufom_names::HashSeed;
use mufom_plan::{NameList, PlanRefusal, read_plan};
use std::alloc::Global;
use std::process::Abort;

// Checks that a document gives this text: the plan that it states, or the error in it.
fn gives(rt: &impl Abort, alloc: Global, document: &str, want: &str) {
    let text = match read_plan(alloc, document.as_bytes()) {
        Ok(plan) => format!(in alloc; "{plan:?}").expect(rt, "memory"),
        Err(refusal) => format!(in alloc; "{refusal:?}").expect(rt, "memory"),
    };
    assert_eq!(rt; text.as_str(), want, "{document}");
}

static PLANS: [(&str, &str); 9] = [
    // The first examples of the guide to plans.
    (
        "[[region]]\nname = \"rom\"\nbase = 0x2000\nsize = 256\nsections = [\"*\"]\n",
        "Plan { regions: List { items: [Region { name: Bytes { held: [114, 111, 109] }, base: 8192, size: 256, \
            sections: List { items: [Bytes { held: [42] }] }, common: false, load: None }] }, \
            symbols: List { items: [] }, keep: List { items: [] } }",
    ),
    (
        "region = [\n    { name = \"rom\", base = 0, size = 0x10000, sections = [\"vectors\", \"*\", \
            \"tail\"] },\n    { name = \"ram\", base = 0x10000, size = 0x8000, sections = [\"data\", \"\"] },\n]\n",
        "Plan { regions: List { items: [Region { name: Bytes { held: [114, 111, 109] }, base: 0, size: 65536, \
            sections: List { items: [Bytes { held: [118, 101, 99, 116, 111, 114, 115] }, Bytes { held: [42] }, \
            Bytes { held: [116, 97, 105, 108] }] }, common: false, load: None }, Region { name: Bytes { held: [114, 97, 109] }, \
            base: 65536, size: 32768, sections: List { items: [Bytes { held: [100, 97, 116, 97] }, \
            Bytes { held: [] }] }, common: false, load: None }] }, \
            symbols: List { items: [] }, keep: List { items: [] } }",
    ),
    // No regions.
    (
        "",
        "Plan { regions: List { items: [] }, symbols: List { items: [] }, keep: List { items: [] } }",
    ),
    (
        "region = []",
        "Plan { regions: List { items: [] }, symbols: List { items: [] }, keep: List { items: [] } }",
    ),
    (
        "# nothing\n",
        "Plan { regions: List { items: [] }, symbols: List { items: [] }, keep: List { items: [] } }",
    ),
    // The greatest end.
    (
        "region = [{ name = 'a', base = 9223372036854775807, size = 0, sections = [] }]",
        "Plan { regions: List { items: [Region { name: Bytes { held: [97] }, base: 9223372036854775807, size: 0, \
            sections: List { items: [] }, common: false, load: None }] }, \
            symbols: List { items: [] }, keep: List { items: [] } }",
    ),
    // A region with other names than the one before it.
    (
        "region = [{ name = 'a', base = 0, size = 1, sections = ['t', '*'] }, { name = 'b', base = 0, size = 1, \
            sections = ['u'] }]",
        "Plan { regions: List { items: [Region { name: Bytes { held: [97] }, base: 0, size: 1, \
            sections: List { items: [Bytes { held: [116] }, Bytes { held: [42] }] }, common: false, load: None }, \
            Region { name: Bytes { held: [98] }, base: 0, size: 1, \
            sections: List { items: [Bytes { held: [117] }] }, common: false, load: None }] }, \
            symbols: List { items: [] }, keep: List { items: [] } }",
    ),
    // The region that takes the commons.
    (
        "region = [\n    { name = 'a', base = 0, size = 1, sections = [], common = false },\n    { name = 'b', \
            base = 0, size = 1, sections = [], common = true },\n    { name = 'c', base = 0, size = 1, \
            sections = [] },\n]",
        "Plan { regions: List { items: [Region { name: Bytes { held: [97] }, base: 0, size: 1, \
            sections: List { items: [] }, common: false, load: None }, Region { name: Bytes { held: [98] }, base: 0, size: 1, \
            sections: List { items: [] }, common: true, load: None }, Region { name: Bytes { held: [99] }, base: 0, size: 1, \
            sections: List { items: [] }, common: false, load: None }] }, \
            symbols: List { items: [] }, keep: List { items: [] } }",
    ),
    // A region that is loaded into another one, symbols and a section that always stays.
    (
        "keep = ['v']\nregion = [\n    { name = 'a', base = 0, size = 1, sections = ['t'] },\n    { name = 'b', \
            base = 8, size = 1, sections = ['u'], load = 'a' },\n]\nsymbol = [\n    { name = 's', start = 'u' },\n    \
            { name = 'h', region_end = 'b' },\n    { name = 'n', value = 7 },\n]",
        "Plan { regions: List { items: [Region { name: Bytes { held: [97] }, base: 0, size: 1, \
            sections: List { items: [Bytes { held: [116] }] }, common: false, load: None }, \
            Region { name: Bytes { held: [98] }, base: 8, size: 1, \
            sections: List { items: [Bytes { held: [117] }] }, common: false, load: Some(Bytes { held: [97] }) }] }, \
            symbols: List { items: [PlanSymbol { name: Bytes { held: [115] }, value: Start(Bytes { held: [117] }) }, \
            PlanSymbol { name: Bytes { held: [104] }, value: RegionEnd(Bytes { held: [98] }) }, \
            PlanSymbol { name: Bytes { held: [110] }, value: Value(7) }] }, keep: List { items: [Bytes { held: [118] }] } }",
    ),
];

#[test]
fn documents_state_plans(rt: HostRuntime) {
    for (document, want) in &PLANS {
        gives(&rt, rt.alloc(), document, want);
    }
}

static REFUSED: [(&str, &str); 46] = [
    // Documents that do not have the shape of a plan.
    ("[[", "Syntax"),
    ("region = []\nregion = []", "Syntax"),
    ("regions = []", "Shape { table: None, field: Extra }"),
    (
        "entry = 1\nregion = 1",
        "Shape { table: None, field: Extra }",
    ),
    ("region = 1", "Shape { table: None, field: Region }"),
    ("[region]", "Shape { table: None, field: Region }"),
    ("region = [{}, 1]", "Shape { table: None, field: Region }"),
    // Documents of one region: the part of it that is wrong first.
    (
        "region = [{ name = '', base = -1, colour = 1 }]",
        "Shape { table: Some(Region(0)), field: Extra }",
    ),
    (
        "region = [{ base = -1, size = -1, sections = 1 }]",
        "Shape { table: Some(Region(0)), field: Name }",
    ),
    (
        "region = [{ name = 7, base = 0, size = 0, sections = [] }]",
        "Shape { table: Some(Region(0)), field: Name }",
    ),
    (
        "region = [{ name = '', base = -1, size = 0, sections = [] }]",
        "Shape { table: Some(Region(0)), field: Name }",
    ),
    (
        "region = [{ name = 'a', size = -1, sections = 1 }]",
        "Shape { table: Some(Region(0)), field: Base }",
    ),
    (
        "region = [{ name = 'a', base = -1, size = 0, sections = [] }]",
        "Shape { table: Some(Region(0)), field: Base }",
    ),
    (
        "region = [{ name = 'a', base = 1.0, size = 0, sections = [] }]",
        "Shape { table: Some(Region(0)), field: Base }",
    ),
    (
        "region = [{ name = 'a', base = 0, sections = 1 }]",
        "Shape { table: Some(Region(0)), field: Size }",
    ),
    (
        "region = [{ name = 'a', base = 0, size = '1', sections = [] }]",
        "Shape { table: Some(Region(0)), field: Size }",
    ),
    (
        "region = [{ name = 'a', base = 9223372036854775807, size = 1 }]",
        "Shape { table: Some(Region(0)), field: Sections }",
    ),
    (
        "region = [{ name = 'a', base = 0, size = 1, sections = 't' }]",
        "Shape { table: Some(Region(0)), field: Sections }",
    ),
    (
        "region = [{ name = 'a', base = 0, size = 1, sections = ['t', 1] }]",
        "Shape { table: Some(Region(0)), field: Sections }",
    ),
    (
        "region = [{ name = 'a', base = 0, size = 1, sections = ['t', 't'] }]",
        "Shape { table: Some(Region(0)), field: Sections }",
    ),
    (
        "region = [{ name = 'a', base = 0, size = 1, sections = ['*', 't', '*'] }]",
        "Shape { table: Some(Region(0)), field: Sections }",
    ),
    // Names of earlier regions.
    (
        "region = [{ name = 'a', base = 0, size = 1, sections = ['t', '*'] }, { name = 'a', base = 0, size = 1, \
            sections = ['u'] }]",
        "Shape { table: Some(Region(1)), field: Name }",
    ),
    (
        "region = [{ name = 'a', base = 0, size = 1, sections = ['t', '*'] }, { name = 'b', base = 0, size = 1, \
            sections = ['u', 't'] }]",
        "Shape { table: Some(Region(1)), field: Sections }",
    ),
    (
        "region = [{ name = 'a', base = 0, size = 1, sections = ['t', '*'] }, { name = 'b', base = 0, size = 1, \
            sections = ['*'] }]",
        "Shape { table: Some(Region(1)), field: Sections }",
    ),
    // The truth value of a region, and a second one that is true.
    (
        "region = [{ name = 'a', base = 0, size = 0, sections = [], common = 1 }]",
        "Shape { table: Some(Region(0)), field: Common }",
    ),
    (
        "region = [{ name = 'a', base = 0, size = 0, sections = 1, common = 1 }]",
        "Shape { table: Some(Region(0)), field: Sections }",
    ),
    (
        "region = [{ name = 'a', base = 9223372036854775807, size = 1, sections = [], common = 'no' }]",
        "Shape { table: Some(Region(0)), field: Common }",
    ),
    (
        "region = [\n    { name = 'a', base = 0, size = 0, sections = [], common = true },\n    { name = 'b', \
            base = 0, size = 0, sections = [], common = false },\n    { name = 'c', base = 0, size = 0, \
            sections = [], common = true },\n]",
        "Shape { table: Some(Region(2)), field: Common }",
    ),
    // Ends beyond the greatest.
    (
        "region = [{ name = 'a', base = 9223372036854775807, size = 1, sections = [] }]",
        "Beyond(0)",
    ),
    (
        "region = [{ name = 'a', base = 1, size = 9223372036854775807, sections = [] }]",
        "Beyond(0)",
    ),
    // The kinds of the three keys, before the regions and the symbols.
    ("symbol = 1", "Shape { table: None, field: Symbol }"),
    (
        "region = 1\nsymbol = 1",
        "Shape { table: None, field: Region }",
    ),
    ("keep = 1", "Shape { table: None, field: Keep }"),
    ("keep = ['v', 'v']", "Shape { table: None, field: Keep }"),
    (
        "region = [{ name = 'a', base = -1 }]\nsymbol = [{}]",
        "Shape { table: Some(Region(0)), field: Base }",
    ),
    // The regions into which regions are loaded.
    (
        "region = [{ name = 'a', base = 0, size = 1, sections = [], load = 1 }]",
        "Shape { table: Some(Region(0)), field: Load }",
    ),
    (
        "region = [{ name = 'a', base = 0, size = 1, sections = [], load = 'x' }]",
        "Shape { table: Some(Region(0)), field: Load }",
    ),
    (
        "region = [{ name = 'a', base = 0, size = 1, sections = [], load = 'a' }]",
        "Shape { table: Some(Region(0)), field: Load }",
    ),
    // Symbols: the part of one that is wrong first.
    (
        "symbol = [{}]",
        "Shape { table: Some(Symbol(0)), field: Name }",
    ),
    (
        "symbol = [{ name = 'a' }]",
        "Shape { table: Some(Symbol(0)), field: Kind }",
    ),
    (
        "symbol = [{ name = 'a', value = 1, start = '*' }]",
        "Shape { table: Some(Symbol(0)), field: Kind }",
    ),
    (
        "symbol = [{ name = 'a', value = -1 }]",
        "Shape { table: Some(Symbol(0)), field: Value }",
    ),
    (
        "symbol = [{ name = 'a', end = 'x' }]",
        "Shape { table: Some(Symbol(0)), field: End }",
    ),
    (
        "symbol = [{ name = 'a', region_end = 'x' }]",
        "Shape { table: Some(Symbol(0)), field: RegionEnd }",
    ),
    (
        "symbol = [{ name = 'a', value = 1 }, { name = 'a', value = 2 }]",
        "Shape { table: Some(Symbol(1)), field: Name }",
    ),
    (
        "symbol = [{ name = 'a', value = 1, x = 1 }]",
        "Shape { table: Some(Symbol(0)), field: Extra }",
    ),
];

#[test]
fn documents_are_refused_for_the_first_thing_that_is_wrong(rt: HostRuntime) {
    for (document, want) in &REFUSED {
        gives(&rt, rt.alloc(), document, want);
    }
}

// Why bytes are no plan.
fn refusal(alloc: Global, bytes: &[u8]) -> Option<PlanRefusal> {
    read_plan(alloc, bytes).err()
}

#[test]
fn bytes_are_bounded_and_are_text(rt: HostRuntime) {
    let alloc = rt.alloc();
    let spaces = vec![in alloc; b' '; 65_537].expect(&rt, "memory");
    assert_eq!(rt; refusal(alloc, &spaces[1..]), None);
    assert_eq!(rt; refusal(alloc, &spaces), Some(PlanRefusal::TooLong));
    assert_eq!(rt; refusal(alloc, b"# \xFF"), Some(PlanRefusal::Syntax));
}

#[test]
fn finds_names_by_position(rt: HostRuntime) {
    let mut names = NameList::new(rt.alloc(), HashSeed::new());
    assert!(rt; names.is_empty());
    for (name, is_new) in [(b"code", true), (b"data", true), (b"code", false)] {
        assert_eq!(rt; names.add(name).expect(&rt, "memory"), is_new);
    }
    assert_eq!(rt; names.len(), 2);
    assert_eq!(rt; names.position(b"data"), Some(1));
    assert_eq!(rt; names.position(b"bss"), None);
}
