//! Small files, and ones that were changed at a place or two.

use crate::small::{SMALL, change};
use dx_base::{Fault, Rule};
use dx_bitstream::Item;
use dx_file::{File, read_file};
use dxbc_container::Part;
use std::test::Fail;

#[test]
fn a_file_carries_parts_and_items(rt: HostRuntime) -> Result<(), Fail> {
    let File { parts, items } = read_file(rt.alloc(), SMALL.as_slice())
        .ok()
        .ok_or("refused")?;
    let part = Part {
        name: *b"DXIL",
        at: 36,
        size: 40,
    };
    let wanted = [
        Item::Enter {
            id: 8,
            width: 3,
            bit: 576,
        },
        Item::Record {
            code: 1,
            first: 0,
            count: 1,
            bit: 640,
        },
        Item::End { bit: 661 },
    ];
    assert_eq!(rt; parts.list.as_slice(), [part].as_slice());
    assert_eq!(rt; items.list.as_slice(), wanted.as_slice());
    assert_eq!(rt; items.fields.as_slice(), [1].as_slice());
    Ok(())
}

/// Bytes that are set, and the first broken rule.
const CHANGES: [([(usize, u8); 2], Rule, u64); 7] = [
    ([(0, 0x44), (27, 1)], Rule::C(3), 192),
    ([(68, 0), (0, 0x44)], Rule::B(1), 544),
    ([(73, 0x10), (80, 9)], Rule::B(3), 640),
    ([(76, 2), (0, 0x44)], Rule::B(5), 576),
    ([(73, 0x04), (0, 0x44)], Rule::B(8), 576),
    ([(56, 3), (57, 1)], Rule::C(8), 448),
    ([(76, 2), (64, 17)], Rule::C(9), 480),
];

#[test]
fn the_bitcode_is_asked_behind_the_container(rt: HostRuntime) -> Result<(), Fail> {
    for (changes, rule, bit) in &CHANGES {
        let mut bytes = SMALL;
        change(&mut bytes, changes);
        let fault = read_file(rt.alloc(), &bytes).err();
        assert_eq!(rt;
            fault,
            Some(Fault::Refused {
                rule: *rule,
                bit: *bit
            }),
            "{changes:?}"
        );
    }
    Ok(())
}
