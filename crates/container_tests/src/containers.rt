//! Small containers, and ones that were changed at a place or two.

use crate::small::{SMALL, change};
use dx_base::{Fault, Rule};
use dxbc_container::{Part, Parts, read_container};
use std::test::Fail;

/// The fixed bytes of a container of 136 bytes with two parts, and its offset table.
const TWO: [u8; 40] = [
    0x44, 0x58, 0x42, 0x43, 0, 0, 0, 0, 0, 0, 0, 0, 0, 0, 0, 0, 0, 0, 0, 0, 1, 0, 0, 0, 136, 0, 0,
    0, 2, 0, 0, 0, 40, 0, 0, 0, 88, 0, 0, 0,
];

/// The fixed bytes of a container of 100 bytes with three parts, and its offset table, in which one part has two entries.
const THREE: [u8; 44] = [
    0x44, 0x58, 0x42, 0x43, 0, 0, 0, 0, 0, 0, 0, 0, 0, 0, 0, 0, 0, 0, 0, 0, 1, 0, 0, 0, 100, 0, 0,
    0, 3, 0, 0, 0, 92, 0, 0, 0, 44, 0, 0, 0, 92, 0, 0, 0,
];

fn rule_of(answer: Result<Parts, Fault>) -> Option<(u8, u64)> {
    match answer {
        Err(
            Fault::Refused {
                rule: Rule::C(number),
                bit,
            },
        ) => Some((number, bit)),
        _ => None,
    }
}

#[test]
fn a_small_container_has_one_part(rt: HostRuntime) -> Result<(), Fail> {
    let parts = read_container(rt.alloc(), SMALL.as_slice())
        .ok()
        .ok_or("refused")?;
    let part = Part {
        name: *b"DXIL",
        at: 36,
        size: 40,
    };
    assert_eq!(rt; parts.list.as_slice(), [part].as_slice());
    assert_eq!(rt; parts.dxil, 0);
    assert_eq!(rt; parts.from, 68);
    assert_eq!(rt; parts.to, 84);
    Ok(())
}

#[test]
fn parts_stand_in_table_order_and_may_be_named_twice(rt: HostRuntime) -> Result<(), Fail> {
    let mut bytes = THREE.to_vec(rt.alloc())?;
    bytes.extend_from_slice(&SMALL[36..])?;
    bytes.extend_from_slice(b"RTS0\0\0\0\0")?;
    let parts = read_container(rt.alloc(), bytes.as_slice())
        .ok()
        .ok_or("refused")?;
    let root = Part {
        name: *b"RTS0",
        at: 92,
        size: 0,
    };
    let shader = Part {
        name: *b"DXIL",
        at: 44,
        size: 40,
    };
    assert_eq!(rt; parts.list.as_slice(), [root, shader, root].as_slice());
    assert_eq!(rt; parts.dxil, 1);
    assert_eq!(rt; parts.from, 76);
    assert_eq!(rt; parts.to, 92);
    Ok(())
}

/// A place, the byte that is set there, and the first broken rule with its bit.
const CHANGES: [(usize, u8, u8, u64, &'static str); 21] = [
    (0, 0x45, 1, 0, "another magic"),
    (20, 2, 2, 160, "major version 2"),
    (22, 1, 2, 160, "minor version 1"),
    (24, 31, 3, 192, "a size below the fixed bytes"),
    (24, 85, 3, 192, "a size above the length"),
    (28, 14, 4, 224, "a table that passes the container"),
    (31, 0xFF, 4, 224, "a very large number of parts"),
    (
        28,
        13,
        4,
        256,
        "an offset in a table that ends the container",
    ),
    (32, 35, 4, 256, "an offset before the table's end"),
    (32, 77, 4, 256, "a header that passes the container"),
    (32, 76, 6, 288, "a header that ends the container"),
    (28, 0, 6, 256, "no part"),
    (36, 0x45, 6, 288, "another name"),
    (40, 41, 5, 320, "data that pass the container"),
    (40, 23, 8, 320, "data of fewer than 24 bytes"),
    (44, 0x63, 8, 352, "shader model 6.3"),
    (46, 4, 8, 352, "another kind of shader"),
    (52, 0x45, 8, 416, "another magic in the part"),
    (56, 3, 8, 448, "DXIL version 1.3"),
    (60, 17, 9, 480, "a bitcode offset one too large"),
    (64, 17, 9, 480, "a bitcode size one too large"),
];

#[test]
fn a_changed_byte_breaks_its_rule(rt: HostRuntime) -> Result<(), Fail> {
    for (place, byte, number, bit, name) in &CHANGES {
        let mut bytes = SMALL.to_vec(rt.alloc())?;
        change(bytes.as_mut_slice(), &[(*place, *byte)]);
        let found = rule_of(read_container(rt.alloc(), bytes.as_slice()));
        assert_eq!(rt; found, Some((*number, *bit)), "{name}");
    }
    Ok(())
}

#[test]
fn a_cut_container_breaks_the_size_that_still_tells_more(rt: HostRuntime) -> Result<(), Fail> {
    let none = rule_of(read_container(rt.alloc(), &[]));
    assert_eq!(rt; none, Some((1, 0)));
    let mut bytes = SMALL.to_vec(rt.alloc())?;
    bytes.truncate(83);
    let cut = rule_of(read_container(rt.alloc(), bytes.as_slice()));
    assert_eq!(rt; cut, Some((3, 192)));
    change(bytes.as_mut_slice(), &[(24, 83)]);
    let smaller = rule_of(read_container(rt.alloc(), bytes.as_slice()));
    assert_eq!(rt; smaller, Some((5, 320)));
    change(bytes.as_mut_slice(), &[(40, 39)]);
    let shorter = rule_of(read_container(rt.alloc(), bytes.as_slice()));
    assert_eq!(rt; shorter, Some((9, 480)));
    Ok(())
}

/// Places and the bytes that are set there, and the first broken rule with its bit.
const BOTH: [([(usize, u8); 4], u8, u64, &'static str); 6] = [
    ([(0, 0x44); 4], 7, 288, "two shaders"),
    ([(36, 40); 4], 7, 288, "two entries for one shader"),
    (
        [(92, 41), (0, 0x44), (0, 0x44), (0, 0x44)],
        7,
        288,
        "and the second too long",
    ),
    (
        [(88, 0x45), (92, 41), (60, 3), (0, 0x44)],
        8,
        480,
        "a number before a part that is too long",
    ),
    (
        [(40, 0x45), (44, 97), (108, 3), (0, 0x44)],
        5,
        352,
        "a number behind a part that is too long",
    ),
    (
        [(88, 0x45), (92, 41), (0, 0x44), (0, 0x44)],
        5,
        736,
        "a part that is too long",
    ),
];

#[test]
fn the_least_bit_is_told_of_two_parts(rt: HostRuntime) -> Result<(), Fail> {
    for (changes, number, bit, name) in &BOTH {
        let mut bytes = TWO.to_vec(rt.alloc())?;
        bytes.extend_from_slice(&SMALL[36..])?;
        bytes.extend_from_slice(&SMALL[36..])?;
        change(bytes.as_mut_slice(), changes);
        let found = rule_of(read_container(rt.alloc(), bytes.as_slice()));
        assert_eq!(rt; found, Some((*number, *bit)), "{name}");
    }
    Ok(())
}
