//! The lines of small containers, and of ones that were changed at a place or two.

use crate::small::{SMALL, change};
use dx_base::{Fault, Rule};
use dx_show::show;
use std::alloc::Global;
use std::test::Fail;

/// The fixed bytes of a container with one part, up to its bitcode; the sizes are 0.
const FRONT: [u8; 68] = [
    0x44, 0x58, 0x42, 0x43, 0, 0, 0, 0, 0, 0, 0, 0, 0, 0, 0, 0, 0, 0, 0, 0, 1, 0, 0, 0, 0, 0, 0, 0,
    1, 0, 0, 0, 0x24, 0, 0, 0, 0x44, 0x58, 0x49, 0x4C, 0, 0, 0, 0, 0x60, 0, 5, 0, 0, 0, 0, 0, 0x44,
    0x58, 0x49, 0x4C, 0, 1, 0, 0, 0x10, 0, 0, 0, 0, 0, 0, 0,
];

/// The abbreviation literal 2, Fixed(0), Array, Char6, and a record by it with an empty array.
const ABBREVIATED: [u8; 20] = [
    0x42, 0x43, 0xC0, 0xDE, 0x21, 0x0C, 0, 0, 2, 0, 0, 0, 0x22, 0x05, 0x04, 0x18, 0x12, 0, 0, 0,
];

/// A block 13 of one word before the module; in it a block 0 with a record, a block 300 without content, and a record.
const SKIPPED: [u8; 48] = [
    0x42, 0x43, 0xC0, 0xDE, 0x35, 0x14, 0, 0, 1, 0, 0, 0, 0xFF, 0xFF, 0xFF, 0xFF, 0x21, 0x0C, 0, 0,
    6, 0, 0, 0, 0x01, 0x10, 0, 0, 1, 0, 0, 0, 0x07, 0x41, 0x04, 0, 0x61, 0x15, 0x18, 0, 0, 0, 0, 0,
    0x0B, 0x82, 0, 0,
];

/// A container of three entries of two parts, of which one is named by bytes that are no visible characters.
const PARTS: [u8; 100] = [
    0x44, 0x58, 0x42, 0x43, 0, 0, 0, 0, 0, 0, 0, 0, 0, 0, 0, 0, 0, 0, 0, 0, 1, 0, 0, 0, 0x64, 0, 0,
    0, 3, 0, 0, 0, 0x2C, 0, 0, 0, 0x34, 0, 0, 0, 0x2C, 0, 0, 0, 0x20, 0x21, 0x7E, 0x7F, 0, 0, 0, 0,
    0x44, 0x58, 0x49, 0x4C, 0x28, 0, 0, 0, 0x60, 0, 5, 0, 10, 0, 0, 0, 0x44, 0x58, 0x49, 0x4C, 0,
    1, 0, 0, 0x10, 0, 0, 0, 0x10, 0, 0, 0, 0x42, 0x43, 0xC0, 0xDE, 0x21, 0x0C, 0, 0, 1, 0, 0, 0,
    0x0B, 0x82, 0, 0,
];

/// The container of one part with this bitcode, of at most 100 bytes.
fn container(alloc: Global, bitcode: &[u8]) -> Result<Vec<u8>, Fail> {
    let mut bytes = FRONT.to_vec(alloc)?;
    bytes.extend_from_slice(bitcode)?;
    let size = bitcode.len().min(100) as u8;
    change(
        bytes.as_mut_slice(),
        &[(24, size + 68), (40, size + 24), (64, size)],
    );
    Ok(bytes)
}

#[test]
fn parts_blocks_and_records_have_lines(rt: HostRuntime) -> Result<(), Fail> {
    let abbreviated = container(rt.alloc(), &ABBREVIATED)?;
    let skipped = container(rt.alloc(), &SKIPPED)?;
    let table: [(&[u8], &[u8]); 4] = [
        (
            &SMALL,
            b"part DXIL at 36 size 40\nblock 8 bit 576\nrecord 1 fields 1 bit 640\n",
        ),
        (
            abbreviated.as_slice(),
            b"part DXIL at 36 size 44\nblock 8 bit 576\nrecord 2 fields 1 bit 674\n",
        ),
        (
            skipped.as_slice(),
            b"part DXIL at 36 size 72\nskip 13 bit 576\nblock 8 bit 672\nblock 0 bit 736\nrecord 1 fields 1 bit 800\nskip 300 bit 832\nrecord 1 fields 1 bit 896\n",
        ),
        (
            &PARTS,
            b"part .!~. at 44 size 0\npart DXIL at 52 size 40\npart .!~. at 44 size 0\nblock 8 bit 704\nrecord 1 fields 1 bit 768\n",
        ),
    ];
    for (bytes, lines) in table {
        assert!(rt; bytes.len() <= 200);
        let text = show(rt.alloc(), bytes).ok().ok_or("refused")?;
        assert_eq!(rt; text.as_slice(), lines);
    }
    Ok(())
}

/// How many bytes are left, bytes that are set, and the first broken rule.
const REFUSED: [(usize, [(usize, u8); 2], Rule, u64); 7] = [
    (83, [(0, 0x44), (0, 0x44)], Rule::C(3), 192),
    (83, [(24, 83), (0, 0x44)], Rule::C(5), 320),
    (83, [(24, 83), (40, 39)], Rule::C(9), 480),
    (84, [(73, 0x10), (80, 9)], Rule::B(3), 640),
    (84, [(76, 2), (0, 0x44)], Rule::B(5), 576),
    (84, [(73, 0x04), (0, 0x44)], Rule::B(8), 576),
    (84, [(36, 0), (0, 0x44)], Rule::C(6), 288),
];

#[test]
fn refusals_are_those_of_the_file(rt: HostRuntime) -> Result<(), Fail> {
    for (length, changes, rule, bit) in &REFUSED {
        let mut bytes = SMALL;
        change(&mut bytes, changes);
        if *length <= bytes.len() {
            let fault = show(rt.alloc(), &bytes[..*length]).err();
            assert_eq!(rt;
                fault,
                Some(Fault::Refused {
                    rule: *rule,
                    bit: *bit
                }),
                "{rule:?} {bit}"
            );
        }
    }
    Ok(())
}
