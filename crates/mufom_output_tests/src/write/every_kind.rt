//! The bytes of a module with every kind of entry.

use super::writes;
use crate::every_kind::every_kind;

// 269 bytes.
const EVERY_KIND: &str = "\
    E00150016D\
    EC0802CC\
    E2D7008400000049\
    E2D701840000004C\
    E2D702840000004D\
    E2D7038400000071\
    E2D704840000009C\
    E2D70584000000DA\
    E2D7068400000106\
    E2D707840000010C\
    F02000\
    F1\
    E601C3D00163\
    E70102\
    E2D3010C\
    E602C1D3C40164\
    E2CC02821000\
    E603C3D200\
    E604C3016E\
    E8200166\
    F1C9200F1301\
    E2C920D20104A5\
    E90B0178\
    F1D80B0102\
    F40B0882012C\
    E90C0179\
    F40C00\
    E90D017A\
    F8040001670000D201\
    F0200169\
    F1CE200001\
    E2CE2005\
    F80600016C010203\
    F021016A\
    F907\
    F9D201\
    F8050001730102\
    F9\
    F80300016D\
    F9\
    F80B000174010200\
    F9\
    E501\
    E2D001D201\
    ED024E71\
    E4BED80B9004BF\
    F703ED0100\
    F704E4\
    BA069002BB\
    F702E4\
    BC019001BD\
    0109\
    F700E4\
    E2C7BED201BF\
    E1";

#[test]
fn every_kind_of_record_is_written(rt: HostRuntime) {
    let alloc = rt.alloc();
    let offsets = [0x49, 0x4C, 0x4D, 0x71, 0x9C, 0xDA, 0x106, 0x10C];
    writes(&rt, alloc, every_kind(alloc), offsets, EVERY_KIND);
}
