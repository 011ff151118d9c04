//! Listings that are built and printed again, and the errors of others.

use mufom_build::{BuildReason, BuildRefusal, build};
use mufom_module::Defect;
use mufom_text::{TextForm, text_bytes};
use std::alloc::Global;
use std::process::Abort;
use std::test::Fail;

// A listing of every kind of line, as it is printed.
const WHOLE: &str = r#"module "whole" processor "68000" maus 4 order L
extension 20AF
environment 01
section 0 "code" ASP size 64 align 2 base 4096
section 1 "d\x0A\x22" CD size 18446744073709551615 align 1
public 0 "p" = (R1 + 4)
note type 1 attribute 7 1 2 3 4
public 1 "q" = (1 - (2 - abs(X0)))
reference 0 "r"
note type 0 attribute 0
reference 1 "w" weak size 8 default 16
block 3 "m"
  block 5 "s" 1 2 3 4 5 6
    block 4 "f" stack 1 type 2 offset max(1, min(L0, mod(5, 3)))
      name 0 "line"
      note 0 type 1 attribute 7 12
      value 0 = (R0 <> 1)
      block 6 "g" stack 0 type 0 offset 0
      end = neg(1)
    end = and(1, or(2, xor(3, 4)))
  end
  block 11 "part" section-type 1 section 1 offset ((1 < 2) = (3 > 4))
  end = ((8 / 2) * 3)
end
select 0
counter 0 = 4096
bytes 2 4E71
bytes 0
field signed 4 = (I0 - P0)
field unsigned 2 = S1
repeat 3
  bytes 1 FF
  field either 1 = 7
end
repeat 0
end
start = R0
"#;

// A small listing, as it is printed.
const SMALL: &str = r#"module "A" processor "68000" maus 4 order M
section 0 "code" ASP size 4 align 2 base 4096
select 0
counter 0 = 4096
bytes 4 4E714E75
start = 4096
"#;

// The same, written by hand: its first lines, and the others.
const UNTIDY: &str =
    "\n  \n  module   \"\\x41\" processor \"6800\\x30\" maus 004 order M  \n section 0 \"code\" ASP  size 4 align 2 base 4096\n\n";

const UNTIDY_LOADS: &str = " select 0\ncounter 0 =  4096\nbytes 4 4e714E75\n  start = 04096";

// Checks that a module is built from the text, and has this listing.
fn expect_listing(rt: &impl Abort, alloc: Global, text: &str, listing: &str) -> Result<(), Fail> {
    assert!(rt; text.len() < 4096);
    let module = build(alloc, text.as_bytes())?;
    let printed = text_bytes(alloc, TextForm::Listing, &module)?;
    assert_eq!(rt; printed.as_slice(), listing.as_bytes(), "{text}");
    Ok(())
}

// Checks that the text has this error.
fn expect_error(
    rt: &impl Abort,
    alloc: Global,
    text: &str,
    line: u32,
    column: u32,
    reason: BuildReason,
) {
    assert!(rt; text.len() < 65536);
    let wanted = BuildRefusal::At {
        line,
        column,
        reason,
    };
    assert_eq!(rt; build(alloc, text.as_bytes()).err(), Some(wanted), "{text}");
}

#[test]
fn listings_are_built(rt: HostRuntime) -> Result<(), Fail> {
    expect_listing(&rt, rt.alloc(), WHOLE, WHOLE)?;
    expect_listing(&rt, rt.alloc(), SMALL, SMALL)?;
    let untidy = format!(in rt.alloc(); "{UNTIDY}{UNTIDY_LOADS}")?;
    expect_listing(&rt, rt.alloc(), untidy.as_str(), SMALL)
}

// The first line of a listing, and these lines after it.
fn with_title(rt: &impl Abort, alloc: Global, lines: &str) -> String {
    format!(in alloc; "module \"A\" processor \"\" maus 4 order M\n{lines}").expect(rt, "memory")
}

#[test]
fn the_first_wrong_line_is_named(rt: HostRuntime) {
    let alloc = rt.alloc();
    expect_error(&rt, alloc, "", 1, 1, BuildReason::BadText);
    expect_error(&rt, alloc, "\n \n", 2, 1, BuildReason::BadText);
    expect_error(
        &rt,
        alloc,
        "modul \"A\" processor \"\" maus 4 order M\n",
        1,
        1,
        BuildReason::BadText,
    );
    for (lines, line, column, reason) in [
        (
            "section 1 \"code\" ASP size 4 align 2 base 4096\n",
            2,
            9,
            BuildReason::Position,
        ),
        (
            "section 1 \"c\" C size 18446744073709551616 align 1\n",
            2,
            9,
            BuildReason::Position,
        ),
        (
            "field signed 256 = R4294967296\n",
            2,
            14,
            BuildReason::TooGreat,
        ),
        ("select 0\nbytes 3 4E714E75", 3, 7, BuildReason::Count),
        ("  select 4294967296\nbad", 2, 10, BuildReason::TooGreat),
        ("\tselect 0\n", 2, 1, BuildReason::BadText),
        ("block 3 \"\"\n", 2, 1, BuildReason::BadText),
        ("repeat 1\n  bytes 0\n", 3, 1, BuildReason::BadText),
        ("end\n", 2, 1, BuildReason::BadText),
        ("start = (1 + 2", 2, 1, BuildReason::BadText),
        (
            "public 0 \"p\" = 1\nnote type 1 attribute 2 3 4 5 6 7\n",
            3,
            1,
            BuildReason::BadText,
        ),
    ] {
        let text = with_title(&rt, alloc, lines);
        expect_error(&rt, alloc, text.as_str(), line, column, reason);
    }
}

#[test]
fn depths_are_limited(rt: HostRuntime) -> Result<(), Fail> {
    let alloc = rt.alloc();
    let (opening, closing) = ("neg(".repeat(alloc, 255)?, ")".repeat(alloc, 255)?);
    let lines = format!(in alloc; "start = {opening}1{closing}")?;
    let text = with_title(&rt, alloc, lines.as_str());
    expect_error(&rt, alloc, text.as_str(), 2, 9, BuildReason::TooLong);
    let blocks = " block 3 \"\"\n".repeat(alloc, 33)?;
    let text = with_title(&rt, alloc, blocks.as_str());
    expect_error(&rt, alloc, text.as_str(), 34, 2, BuildReason::Deep);
    Ok(())
}

#[test]
fn defects_of_parts_are_named(rt: HostRuntime) {
    let alloc = rt.alloc();
    let text = with_title(
        &rt,
        alloc,
        "section 0 \"code\" ASP size 4 align 0 base 4096\n",
    );
    assert!(rt; text.len() < 65536);
    assert_eq!(rt;
        build(alloc, text.as_bytes()).err(),
        Some(BuildRefusal::Module(Defect::BadAlign))
    );
}
