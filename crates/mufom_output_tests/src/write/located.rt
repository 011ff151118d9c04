//! An absolute module, as it is written where its section was placed.

use super::writes;
use mufom_drafts::small;

// 122 bytes.
const LOCATED: &str = "\
    E00536383030300141\
    EC0804CD\
    E2D7008400000000\
    E2D7018400000000\
    E2D702840000004D\
    E2D7038400000000\
    E2D7048400000000\
    E2D7058400000064\
    E2D7068400000072\
    E2D7078400000079\
    E601C1D3D004636F6465\
    E70102\
    E2D30104\
    E2CC01821000\
    E501\
    E2D001821000\
    ED044E714E75\
    E2C7BE821000BF\
    E1";

#[test]
fn a_located_module_has_122_bytes(rt: HostRuntime) {
    let alloc = rt.alloc();
    let offsets = [0, 0, 0x4D, 0, 0, 0x64, 0x72, 0x79];
    writes(&rt, alloc, small(alloc), offsets, LOCATED);
}
