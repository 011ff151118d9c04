//! Regions that are loaded into other regions.

use crate::located::{becomes, refuses};

// Code, data with initial values, and data without.
const PROGRAM: &str = r#"module "m" processor "68000" maus 4 order M
section 0 "t" C size 4 align 2
section 1 "d" C size 6 align 4
section 2 "b" C size 16 align 4
select 0
bytes 4 4E714E75
select 1
bytes 2 0102
field either 4 = R1
"#;

const SILENT: &str = r#"module "m" processor "68000" maus 4 order M
section 0 "t" C size 4 align 2
section 1 "d" C size 6 align 4
section 2 "b" C size 16 align 4
select 0
bytes 4 4E714E75
"#;

const ABSOLUTE: &str = r#"module "m" processor "68000" maus 4 order M
section 0 "t" C size 4 align 2
section 1 "d" C size 6 align 4
section 2 "b" C size 16 align 4
section 3 "x" AS size 1 align 1 base 13
select 0
bytes 4 4E714E75
select 1
bytes 2 0102
field either 4 = R1
"#;

const PLAN: &str = r#"
region = [
  { name = "rom", base = 0, size = 64, sections = ["t"] },
  { name = "ram", base = 256, size = 64, sections = ["d", "b"], load = "rom" },
]
"#;

const TIGHT: &str = r#"
region = [
  { name = "rom", base = 0, size = 13, sections = ["t"] },
  { name = "ram", base = 256, size = 64, sections = ["d", "b"], load = "rom" },
]
"#;

const NAMED: &str = r#"
region = [
  { name = "rom", base = 0, size = 64, sections = ["t"] },
  { name = "ram", base = 256, size = 64, sections = ["d", "b"], load = "rom" },
]
symbol = [
  { name = "from", load = "d" }, { name = "to", start = "d" }, { name = "till", end = "d" },
  { name = "zero", start = "b" }, { name = "top", end = "b" },
  { name = "heap", region_end = "ram" }, { name = "last", region_end = "rom" },
]
"#;

#[test]
fn bytes_are_loaded_into_the_copy(rt: HostRuntime) {
    let listed = r#"section 0 "t" AS size 4 align 2 base 0
section 1 "d" AS size 6 align 4 base 256
section 2 "b" AS size 16 align 4 base 264
section 3 "ram" AS size 6 align 8 base 8
select 0
counter 0 = 0
bytes 4 4E714E75
select 3
counter 3 = 8
bytes 6 010200000100
"#;
    becomes(&rt, rt.alloc(), PROGRAM, PLAN, listed);
}

// Data whose bytes are right before those of an absolute section.
const TOUCHING: &str = r#"module "m" processor "68000" maus 4 order M
section 0 "t" C size 8 align 4
section 1 "d" C size 6 align 4
section 2 "x" AS size 2 align 1 base 262
select 0
bytes 8 4E714E714E714E75
select 1
bytes 6 010203040506
select 2
bytes 2 0708
"#;

// The run of both is cut, and the copy of the data touches the code.
#[test]
fn bytes_that_touch_a_region_are_not_moved(rt: HostRuntime) {
    let listed = r#"section 0 "t" AS size 8 align 4 base 0
section 1 "d" AS size 6 align 4 base 256
section 2 "x" AS size 2 align 1 base 262
section 3 "ram" AS size 6 align 8 base 8
select 0
counter 0 = 0
bytes 8 4E714E714E714E75
select 2
counter 2 = 262
bytes 2 0708
select 3
counter 3 = 8
bytes 6 010203040506
"#;
    becomes(&rt, rt.alloc(), TOUCHING, PLAN, listed);
}

// Two sections of a region whose bytes are one run.
const ADJACENT: &str = r#"module "m" processor "68000" maus 4 order M
section 0 "t" C size 4 align 2
section 1 "d" C size 4 align 4
section 2 "b" C size 2 align 4
select 0
bytes 4 4E714E75
select 1
bytes 4 01020304
select 2
bytes 2 0506
"#;

#[test]
fn sections_are_moved_together(rt: HostRuntime) {
    let listed = r#"section 0 "t" AS size 4 align 2 base 0
section 1 "d" AS size 4 align 4 base 256
section 2 "b" AS size 2 align 4 base 260
section 3 "ram" AS size 6 align 8 base 8
select 0
counter 0 = 0
bytes 4 4E714E75
select 3
counter 3 = 8
bytes 6 010203040506
"#;
    becomes(&rt, rt.alloc(), ADJACENT, PLAN, listed);
}

#[test]
fn symbols_name_both_addresses(rt: HostRuntime) {
    let listed = r#"section 0 "t" AS size 4 align 2 base 0
section 1 "d" AS size 6 align 4 base 256
section 2 "b" AS size 16 align 4 base 264
section 3 "ram" AS size 6 align 8 base 8
public 0 "from" = 8
public 1 "to" = 256
public 2 "till" = 262
public 3 "zero" = 264
public 4 "top" = 280
public 5 "heap" = 280
public 6 "last" = 14
select 0
counter 0 = 0
bytes 4 4E714E75
select 3
counter 3 = 8
bytes 6 010200000100
"#;
    becomes(&rt, rt.alloc(), PROGRAM, NAMED, listed);
}

#[test]
fn commons_are_part_of_a_region_and_of_no_copy(rt: HostRuntime) {
    let listing = r#"module "m" processor "68000" maus 4 order M
section 0 "t" C size 4 align 2
section 1 "d" C size 4 align 4
reference 0 "c" weak size 4 default 0
select 1
field either 4 = X0
"#;
    let plan = r#"
region = [
  { name = "rom", base = 0, size = 64, sections = ["t"] },
  { name = "ram", base = 256, size = 64, sections = ["d"], load = "rom", common = true },
]
symbol = [{ name = "heap", region_end = "ram" }]
"#;
    let listed = r#"section 0 "t" AS size 4 align 2 base 0
section 1 "d" AS size 4 align 4 base 256
section 2 "c" AS size 4 align 8 base 264
section 3 "ram" AS size 4 align 8 base 8
public 0 "heap" = 268
select 3
counter 3 = 8
bytes 4 00000108
"#;
    becomes(&rt, rt.alloc(), listing, plan, listed);
}

#[test]
fn a_copy_follows_the_commons(rt: HostRuntime) {
    let listing = r#"module "m" processor "68000" maus 4 order M
section 0 "t" C size 4 align 2
section 1 "d" C size 4 align 4
reference 0 "c" weak size 4 default 0
select 1
field either 4 = X0
"#;
    let plan = r#"
region = [
  { name = "rom", base = 0, size = 64, sections = ["t"], common = true },
  { name = "ram", base = 256, size = 64, sections = ["d"], load = "rom" },
]
"#;
    let listed = r#"section 0 "t" AS size 4 align 2 base 0
section 1 "d" AS size 4 align 4 base 256
section 2 "c" AS size 4 align 8 base 8
section 3 "ram" AS size 4 align 8 base 16
select 3
counter 3 = 16
bytes 4 00000008
"#;
    becomes(&rt, rt.alloc(), listing, plan, listed);
}

#[test]
fn the_program_counter_is_not_moved(rt: HostRuntime) {
    let listing = r#"module "m" processor "68000" maus 4 order M
section 0 "t" C size 4 align 2
section 1 "d" C size 6 align 4
select 1
bytes 2 0102
field either 4 = P1
"#;
    let listed = r#"section 0 "t" AS size 4 align 2 base 0
section 1 "d" AS size 6 align 4 base 256
section 2 "ram" AS size 6 align 8 base 8
select 2
counter 2 = 8
bytes 6 010200000102
"#;
    becomes(&rt, rt.alloc(), listing, PLAN, listed);
}

#[test]
fn a_region_without_bytes_has_no_copy(rt: HostRuntime) {
    let listed = r#"section 0 "t" AS size 4 align 2 base 0
section 1 "d" AS size 6 align 4 base 256
section 2 "b" AS size 16 align 4 base 264
public 0 "from" = 256
public 1 "to" = 256
public 2 "till" = 262
public 3 "zero" = 264
public 4 "top" = 280
public 5 "heap" = 280
public 6 "last" = 4
select 0
counter 0 = 0
bytes 4 4E714E75
"#;
    becomes(&rt, rt.alloc(), SILENT, NAMED, listed);
}

#[test]
fn copies_are_placed_as_sections_are(rt: HostRuntime) {
    let misfit = "Locate(Place(Misfit { section: 3, region: Some(0) }))";
    refuses(&rt, rt.alloc(), PROGRAM, TIGHT, misfit);
    let overlap = "Locate(Place(Overlap(4, 3)))";
    refuses(&rt, rt.alloc(), ABSOLUTE, PLAN, overlap);
}

// Two sections of a region that is loaded into another one have 2^64 addresses or more together.
const ENDLESS: &str = r#"module "m" processor "68000" maus 8 order M
section 0 "t" C size 9223372036854775808 align 1
section 1 "d" C size 18446744073709551615 align 1
section 2 "d" C size 18446744073709551615 align 1
select 2
bytes 1 01
"#;

const LONG: &str = r#"module "m" processor "68000" maus 8 order M
section 0 "t" C size 4 align 1
section 1 "d" C size 18446744073709551615 align 1
section 2 "d" C size 18446744073709551615 align 1
select 2
bytes 1 01
"#;

#[test]
fn sections_that_do_not_fit_come_before_copies(rt: HostRuntime) {
    let first = "Locate(Place(Misfit { section: 0, region: Some(0) }))";
    refuses(&rt, rt.alloc(), ENDLESS, PLAN, first);
    let second = "Locate(Place(Misfit { section: 1, region: Some(1) }))";
    refuses(&rt, rt.alloc(), LONG, PLAN, second);
}
