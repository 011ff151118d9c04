//! Symbols of plans.

use crate::located::{becomes, refuses};

// A section with a field for each of three names.
const ASKING: &str = r#"module "m" processor "68000" maus 4 order M
section 0 "t" C size 12 align 4
reference 0 "s"
reference 1 "e"
reference 2 "v"
select 0
field either 4 = X0
field either 4 = X1
field either 4 = X2
"#;

// The same with a public, and with `v` as a weak reference that requests space.
const DEFINING: &str = r#"module "m" processor "68000" maus 4 order M
section 0 "t" C size 12 align 4
public 0 "e" = 1
reference 0 "s"
reference 1 "v" weak size 4 default 0
select 0
field either 4 = X0
field either 4 = I0
field either 4 = X1
"#;

const WEAK: &str = r#"module "m" processor "68000" maus 4 order M
section 0 "t" C size 12 align 4
reference 0 "s"
reference 1 "e"
reference 2 "v" weak size 4 default 0
select 0
field either 4 = X0
field either 4 = X1
field either 4 = X2
"#;

const PLAN: &str = r#"
region = [{ name = "r", base = 256, size = 64, sections = ["u", "t"] }]
symbol = [
  { name = "s", start = "t" }, { name = "e", end = "t" }, { name = "v", value = 7 }, { name = "w", start = "u" },
]
"#;

const LISTED: &str = r#"section 0 "t" AS size 12 align 4 base 256
public 0 "s" = 256
public 1 "e" = 268
public 2 "v" = 7
public 3 "w" = 256
select 0
counter 0 = 256
bytes 12 000001000000010C00000007
"#;

#[test]
fn symbols_have_addresses_and_numbers(rt: HostRuntime) {
    becomes(&rt, rt.alloc(), ASKING, PLAN, LISTED);
    becomes(&rt, rt.alloc(), WEAK, PLAN, LISTED);
}

#[test]
fn a_symbol_with_the_name_of_a_public_is_refused(rt: HostRuntime) {
    let shared = "SharedName(Bytes { held: [101] })";
    refuses(&rt, rt.alloc(), DEFINING, PLAN, shared);
}

#[test]
fn ends_of_the_address_space_are_0(rt: HostRuntime) {
    let plan = r#"
region = [{ name = "r", base = 4294967284, size = 12, sections = ["t", "u"] }]
symbol = [
  { name = "s", region_end = "r" }, { name = "e", end = "t" }, { name = "v", start = "u" },
]
"#;
    let listed = r#"section 0 "t" AS size 12 align 4 base 4294967284
public 0 "s" = 0
public 1 "e" = 0
public 2 "v" = 0
select 0
counter 0 = 4294967284
bytes 12 000000000000000000000000
"#;
    becomes(&rt, rt.alloc(), ASKING, plan, listed);
}
