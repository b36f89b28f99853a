//! The empty shader with its own thread counts and with others, and files that differ from it in one place.

use crate::example::{CONTAINER, MODULE, VARIED};
use crate::plain::{
    Change, MODEL_NAME, ROOT_NAME, shader, shader_among_others, shader_behind, shader_of_threads,
};
use dx_base::{Fault, Rule, Which};
use dx_translate::translate;
use spv_form::Version;
use std::alloc::Global;
use std::test::Fail;

/// A container whose module has one record.
const SMALL: [u8; 84] = [
    0x44, 0x58, 0x42, 0x43, 0x00, 0x00, 0x00, 0x00, 0x00, 0x00, 0x00, 0x00, 0x00, 0x00, 0x00, 0x00,
    0x00, 0x00, 0x00, 0x00, 0x01, 0x00, 0x00, 0x00, 0x54, 0x00, 0x00, 0x00, 0x01, 0x00, 0x00, 0x00,
    0x24, 0x00, 0x00, 0x00, 0x44, 0x58, 0x49, 0x4C, 0x28, 0x00, 0x00, 0x00, 0x60, 0x00, 0x05, 0x00,
    0x0A, 0x00, 0x00, 0x00, 0x44, 0x58, 0x49, 0x4C, 0x00, 0x01, 0x00, 0x00, 0x10, 0x00, 0x00, 0x00,
    0x10, 0x00, 0x00, 0x00, 0x42, 0x43, 0xC0, 0xDE, 0x21, 0x0C, 0x00, 0x00, 0x01, 0x00, 0x00, 0x00,
    0x0B, 0x82, 0x00, 0x00,
];

fn refused(rule: Rule, bit: u64) -> Option<Fault> {
    Some(Fault::Refused { rule, bit })
}

/// The words of the module of so many threads.
fn words_of(threads: [u32; 3]) -> [u32; 38] {
    let [x, y, z] = threads;
    let mut words = MODULE;
    words[18] = x;
    words[19] = y;
    words[20] = z;
    words
}

#[test]
fn refuses_at_the_first_place_that_departs(rt: HostRuntime) -> Result<(), Fail> {
    let files: [(&[u8], Rule, u64); 6] = [
        (&[], Rule::C(1), 0),
        (&CONTAINER[..31], Rule::C(1), 0),
        (&CONTAINER[..32], Rule::C(3), 192),
        // its module ends at 661 without a block 17
        (&SMALL, Rule::Y(1), 661),
        (&SMALL[..83], Rule::C(3), 192),
        (&CONTAINER[..271], Rule::C(3), 192),
    ];
    for (bytes, rule, bit) in files {
        assert_eq!(rt;
            translate(rt.alloc(), bytes, Version::V16).err(),
            refused(rule, bit),
            "{bit}"
        );
    }
    Ok(())
}

#[test]
fn asks_each_byte_of_the_container_in_order(rt: HostRuntime) -> Result<(), Fail> {
    let changes: [(usize, Option<(Rule, u64)>); 20] = [
        (3, Some((Rule::C(1), 0))),
        (4, None),
        (19, None),
        (20, Some((Rule::C(2), 160))),
        (27, Some((Rule::C(3), 192))),
        (28, Some((Rule::C(6), 256))),
        (32, Some((Rule::C(6), 288))),
        (39, Some((Rule::C(6), 288))),
        (40, Some((Rule::C(5), 320))),
        (46, Some((Rule::C(8), 352))),
        (48, None),
        (52, Some((Rule::C(8), 416))),
        (56, None),
        (57, Some((Rule::C(8), 448))),
        (60, Some((Rule::C(9), 480))),
        (64, Some((Rule::C(9), 480))),
        (71, Some((Rule::B(1), 544))),
        (76, Some((Rule::B(5), 576))),
        (80, Some((Rule::B(5), 576))),
        (271, None),
    ];
    for (place, wanted) in changes {
        let mut bytes = CONTAINER;
        if place < bytes.len() {
            bytes[place] ^= 1;
        }
        let fault = translate(rt.alloc(), &bytes, Version::V16).err();
        let wanted = wanted.map(|(rule, bit)| Fault::Refused { rule, bit });
        assert_eq!(rt; fault, wanted, "byte {place}");
    }
    Ok(())
}

#[test]
fn a_changed_bit_is_told_at_its_item(rt: HostRuntime) -> Result<(), Fail> {
    let changes: [(usize, Option<(Rule, u64)>, &str); 6] = [
        // 1 becomes 0, which is no code of the module, and then it has no version before its end
        (643, Some((Rule::M(2), 640)), "the code of the version"),
        (655, Some((Rule::M(1), 640)), "the version"),
        // type 1 becomes 17, of 4 types
        (850, Some((Rule::Y(4), 830)), "the type of the pointer"),
        // 8 becomes 9, which is -4, and no pair has the tag 4: the second thread count is the tag too
        (1042, Some((Rule::N(7), 1552)), "the second thread count"),
        // the module ends at 2144 without a `dx.shaderModel`
        (1614, Some((Rule::N(5), 2144)), "a character of the name"),
        // 10 becomes 11, a BR without a block
        (2106, Some((Rule::M(8), 2102)), "the code of the return"),
    ];
    for (place, wanted, name) in changes {
        let mut bytes = CONTAINER;
        if place / 8 < bytes.len() {
            bytes[place / 8] ^= 1 << (place % 8);
        }
        let wanted = wanted.map(|(rule, bit)| Fault::Refused { rule, bit });
        assert_eq!(rt;
            translate(rt.alloc(), &bytes, Version::V16).err(),
            wanted,
            "{name}"
        );
    }
    // the node of the thread counts names 1, 4 and 1 in place of 8, 4 and 1
    let mut bytes = CONTAINER;
    bytes[188] ^= 1 << 2;
    let words = translate(rt.alloc(), &bytes, Version::V16)
        .ok()
        .ok_or("refused")?;
    let all = words_of([1, 4, 1]);
    assert_eq!(rt; words.as_slice(), all.as_slice());
    Ok(())
}

/// Twice the last number of 32 bits.
const LARGEST: u64 = 0x1_FFFF_FFFE;

/// The fields of the INTEGER records of x, y and z, and the counts, or the bit of the node of the three.
const COUNTS: [([u64; 3], Result<[u32; 3], u64>); 24] = [
    ([16, 8, 2], Ok([8, 4, 1])),
    ([2, 2, 2], Ok([1, 1, 1])),
    ([512, 8, 2], Ok([256, 4, 1])),
    ([8, 8, 128], Ok([4, 4, 64])),
    ([128, 8, 8], Ok([64, 4, 4])),
    ([2048, 2, 2], Ok([1024, 1, 1])),
    ([2, 2048, 2], Ok([1, 1024, 1])),
    ([2, 2, 128], Ok([1, 1, 64])),
    ([0, 8, 2], Err(1490)),
    ([16, 0, 2], Err(1490)),
    ([16, 8, 0], Err(1490)),
    // one word more, since a field from 32 on takes more than one chunk of 6 bits
    ([2050, 2, 2], Err(1522)),
    ([2, 2050, 2], Err(1522)),
    ([2, 2, 130], Err(1522)),
    ([514, 8, 2], Err(1522)),
    ([8, 8, 130], Err(1522)),
    ([128, 8, 10], Err(1522)),
    // two words more: 2^33 - 2 takes 7 chunks
    ([LARGEST, 8, 2], Err(1554)),
    ([2, LARGEST, 2], Err(1554)),
    ([2, 8, LARGEST], Err(1554)),
    // -8 counts as 2^32 - 8, 2^32 and the smallest number as 0, and 1 - 2^63 as 1
    ([17, 8, 2], Err(1490)),
    ([LARGEST + 2, 8, 2], Err(1554)),
    ([1, 8, 2], Err(1490)),
    ([u64::MAX, 8, 2], Ok([1, 4, 1])),
];

#[test]
fn thread_counts_up_to_their_last_values(rt: HostRuntime) -> Result<(), Fail> {
    for (fields, wanted) in &COUNTS {
        let bytes = shader_of_threads(rt.alloc(), *fields)?;
        assert!(rt; bytes.len() <= 400);
        let answer = translate(rt.alloc(), bytes.as_slice(), Version::V16);
        match *wanted {
            Ok(threads) => {
                let all = words_of(threads);
                let words = answer.ok().ok_or("refused")?;
                assert_eq!(rt; words.as_slice(), all.as_slice(), "{fields:?}");
            }
            Err(bit) => assert_eq!(rt; answer.err(), refused(Rule::N(8), bit), "{fields:?}"),
        }
    }
    let written = shader(rt.alloc(), &[])?;
    assert_eq!(rt; written.as_slice(), CONTAINER.as_slice());
    Ok(())
}

/// A module by its changes, and its first refusal, if it has one.
type Case<'a> = (&'a [Change<'a>], Option<(Rule, u64)>);

/// The first refusal of the module with these changes; one without a refusal has the words of the empty shader.
fn refusal_of(alloc: Global, changes: &[Change]) -> Result<Option<Fault>, Fail> {
    let bytes = shader(alloc, changes)?;
    if bytes.len() > 400 {
        return Err(Fail::from("too long"));
    }
    match translate(alloc, bytes.as_slice(), Version::V16) {
        Ok(words) if words.as_slice() == MODULE.as_slice() => Ok(None),
        Ok(_) => Err(Fail::from("other words")),
        Err(fault) => Ok(Some(fault)),
    }
}

/// The number of the first case with another answer.
fn first_wrong(alloc: Global, cases: &[Case]) -> Result<Option<usize>, Fail> {
    for (number, (changes, wanted)) in cases.iter().enumerate() {
        let wanted = wanted.map(|(rule, bit)| Fault::Refused { rule, bit });
        if refusal_of(alloc, *changes)? != wanted {
            return Ok(Some(number));
        }
    }
    Ok(None)
}

/// Modules with changed types and values.
const TYPES_AND_VALUES: [Case<'static>; 17] = [
    // a sixth type record at 858: a code that is not listed, and HALF
    (
        &[(17, 4, &[(8, &[1, 0]), (22, &[])])],
        Some((Rule::Y(2), 858)),
    ),
    (&[(17, 4, &[(8, &[1, 0]), (10, &[])])], None),
    // the INTEGER at 802 without a width
    (&[(17, 3, &[(7, &[])])], Some((Rule::Y(3), 802))),
    (&[(17, 3, &[(7, &[32, 5])])], None),
    // the POINTER at 830 to type 4, of 4 types
    (&[(17, 4, &[(8, &[4, 0])])], Some((Rule::Y(4), 830))),
    (&[(17, 4, &[(8, &[3, 0])])], None),
    // the version at 640; without it the module ends at 2112
    (&[(8, 0, &[(1, &[0])])], Some((Rule::M(1), 640))),
    (&[(8, 0, &[])], Some((Rule::M(1), 2112))),
    (&[(8, 0, &[(1, &[1]), (1, &[0])])], None),
    // a record of the module behind the version, at 661
    (&[(8, 0, &[(1, &[1]), (9, &[])])], Some((Rule::M(2), 661))),
    (&[(8, 0, &[(1, &[1]), (13, &[])])], None),
    // the FUNCTION at 864 with two fields, and of the type void
    (&[(8, 1, &[(8, &[1, 0])])], Some((Rule::M(3), 864))),
    (&[(8, 1, &[(8, &[1, 0, 0])])], None),
    (&[(8, 1, &[(8, &[0, 0, 0, 0])])], Some((Rule::M(4), 864))),
    // the SETTYPE at 960 of type 4, of 4 types
    (&[(11, 0, &[(1, &[4])])], Some((Rule::M(5), 960))),
    // the types are asked before the version, though that stands first
    (
        &[(8, 0, &[(1, &[0])]), (17, 4, &[(8, &[4, 0])])],
        Some((Rule::Y(4), 830)),
    ),
    // a function without a body, and a block 12: told at the module's end, and before the NODE at 1280
    (
        &[(8, 1, &[(8, &[1, 0, 1, 0])]), (15, 3, &[(3, &[1, 2, 13])])],
        Some((Rule::M(11), 2144)),
    ),
];

#[test]
fn types_and_values_have_these_answers(rt: HostRuntime) -> Result<(), Fail> {
    assert_eq!(rt; first_wrong(rt.alloc(), &TYPES_AND_VALUES)?, None);
    Ok(())
}

/// Modules with a changed body, whose records stand at 2080 and 2102, and the next one at 2118.
const BODIES: [Case<'static>; 12] = [
    (&[(12, 0, &[(1, &[0])])], Some((Rule::M(7), 2080))),
    // a BR to block 1, of 1 block, and to block 0
    (&[(12, 1, &[(11, &[1])])], Some((Rule::M(8), 2102))),
    (&[(12, 1, &[(11, &[0])])], Some((Rule::P(8), 2102))),
    // two returns in one block, told at the body's end, and in two
    (
        &[(12, 1, &[(10, &[]), (10, &[])])],
        Some((Rule::M(10), 2134)),
    ),
    (
        &[(12, 0, &[(1, &[2])]), (12, 1, &[(10, &[]), (10, &[])])],
        None,
    ),
    // a RET of a value, and an UNREACHABLE
    (&[(12, 1, &[(10, &[1])])], Some((Rule::P(6), 2102))),
    (&[(12, 1, &[(15, &[])])], None),
    // a debug place is no instruction
    (&[(12, 1, &[(35, &[1, 1, 0, 0]), (10, &[])])], None),
    // as many blocks as the limit allows, told at the body's end
    (&[(12, 0, &[(1, &[8192])])], Some((Rule::M(10), 2130))),
    // the thread counts and the model are asked before the profile
    (
        &[(11, 4, &[(4, &[0])]), (12, 1, &[(10, &[1])])],
        Some((Rule::N(8), 1490)),
    ),
    (
        &[(15, 0, &[(1, &[118, 115])]), (12, 1, &[(10, &[1])])],
        Some((Rule::N(5), 1782)),
    ),
    (&[], None),
];

#[test]
fn bodies_have_these_answers(rt: HostRuntime) -> Result<(), Fail> {
    assert_eq!(rt; first_wrong(rt.alloc(), &BODIES)?, None);
    // one block more
    let limit = Fault::Limit {
        which: Which::Blocks,
        bit: 2080,
    };
    assert_eq!(rt;
        refusal_of(rt.alloc(), &[(12, 0, &[(1, &[8193])])])?,
        Some(limit)
    );
    Ok(())
}

/// Modules with changed metadata.
const METADATA: [Case<'static>; 22] = [
    // the first record, at 1184, of a code that is not listed, and a KIND behind it
    (&[(15, 0, &[(7, &[])])], Some((Rule::N(1), 1184))),
    (&[(15, 0, &[(1, &[99, 115]), (6, &[])])], None),
    // the VALUE at 1224 of three fields, of type 4 and of value 6, of 4 types and 6 values
    (&[(15, 1, &[(2, &[2, 1, 0])])], Some((Rule::N(2), 1224))),
    (&[(15, 1, &[(2, &[4, 1])])], Some((Rule::N(4), 1224))),
    (&[(15, 1, &[(2, &[2, 6])])], Some((Rule::N(4), 1224))),
    (&[(15, 1, &[(2, &[0, 1])])], None),
    // the NAME at 1598 without its NAMED_NODE
    (&[(15, 13, &[])], Some((Rule::N(2), 1598))),
    // the NODE at 1280 names 12, of 12 records
    (&[(15, 3, &[(3, &[1, 2, 13])])], Some((Rule::N(3), 1280))),
    // the model `vs`, told at the NAMED_NODE, and a minor number of 6
    (&[(15, 0, &[(1, &[118, 115])])], Some((Rule::N(5), 1782))),
    (&[(15, 3, &[(3, &[1, 2, 2])])], Some((Rule::N(5), 1782))),
    // a second `dx.shaderModel` and a second `dx.entryPoints`, told at the second
    (
        &[(15, 15, &[(10, &[11]), MODEL_NAME, (10, &[3])])],
        Some((Rule::N(5), 2194)),
    ),
    (
        &[(15, 15, &[(10, &[11]), ROOT_NAME, (10, &[11])])],
        Some((Rule::N(6), 2194)),
    ),
    // the entry node of four fields, told at the NAMED_NODE, 6 bits before its place, and of six
    (&[(15, 11, &[(3, &[5, 6, 0, 0])])], Some((Rule::N(6), 1982))),
    (&[(15, 11, &[(3, &[5, 6, 0, 0, 11, 0])])], None),
    // two pairs of the tag 4, and the second of the tag 8, in the node before the entry node
    (
        &[(15, 10, &[(3, &[7, 10, 7, 10])])],
        Some((Rule::N(7), 1564)),
    ),
    (&[(15, 10, &[(3, &[7, 10, 8, 10])])], None),
    // two thread counts, which makes the entry node stand 6 bits earlier
    (&[(15, 9, &[(3, &[8, 7])])], Some((Rule::N(7), 1546))),
    // the fourth field a text, and a node of four nulls
    (
        &[(15, 11, &[(3, &[5, 6, 0, 1, 11])])],
        Some((Rule::N(9), 1552)),
    ),
    (
        &[
            (15, 11, &[(3, &[5, 6, 0, 13, 11])]),
            (15, 15, &[(10, &[11]), (3, &[0, 0, 0, 0])]),
        ],
        None,
    ),
    // of N5 to N9 the least number is told, though N8 is broken at 1490
    (
        &[(11, 4, &[(4, &[0])]), (15, 0, &[(1, &[118, 115])])],
        Some((Rule::N(5), 1782)),
    ),
    // and N1 to N4 are told before them
    (
        &[(15, 0, &[(1, &[118, 115])]), (15, 7, &[(2, &[2, 6])])],
        Some((Rule::N(4), 1434)),
    ),
    (&[], None),
];

#[test]
fn metadata_have_these_answers(rt: HostRuntime) -> Result<(), Fail> {
    assert_eq!(rt; first_wrong(rt.alloc(), &METADATA)?, None);
    Ok(())
}

/// The module of two functions whose first body returns a value, and of which the entry is the function with this number.
fn two_functions(alloc: Global, entry: u64) -> Result<Vec<u8>, Fail> {
    // the values of the constants are 2 to 6
    let changes: [Change; 7] = [
        (8, 1, &[(8, &[1, 0, 0, 0]), (8, &[1, 0, 0, 0])]),
        (15, 1, &[(2, &[2, 2])]),
        (15, 2, &[(2, &[2, 3])]),
        (15, 4, &[(2, &[3, entry])]),
        (15, 6, &[(2, &[2, 4])]),
        (15, 7, &[(2, &[2, 5])]),
        (15, 8, &[(2, &[2, 6])]),
    ];
    let bytes = shader_behind(alloc, &[&[(1, &[1]), (10, &[1])]], &changes)?;
    Ok(bytes)
}

#[test]
fn body_of_the_entry_function_counts(rt: HostRuntime) -> Result<(), Fail> {
    // that return stands at 2134
    for (entry, wanted) in [(0, Some(2134)), (1, None)] {
        let bytes = two_functions(rt.alloc(), entry)?;
        assert!(rt; bytes.len() <= 400);
        let fault = translate(rt.alloc(), bytes.as_slice(), Version::V16).err();
        let wanted = wanted.map(|bit| Fault::Refused {
            rule: Rule::P(6),
            bit,
        });
        assert_eq!(rt; fault, wanted, "entry {entry}");
    }
    Ok(())
}

#[test]
fn skipped_blocks_and_blocks_0_are_passed_over(rt: HostRuntime) -> Result<(), Fail> {
    let bytes = shader_among_others(rt.alloc())?;
    assert!(rt; bytes.len() <= 400);
    let words = translate(rt.alloc(), bytes.as_slice(), Version::V16)
        .ok()
        .ok_or("refused")?;
    assert_eq!(rt; words.as_slice(), MODULE.as_slice());
    Ok(())
}

#[test]
fn forms_of_compilers_are_read(rt: HostRuntime) -> Result<(), Fail> {
    let words = translate(rt.alloc(), VARIED.as_slice(), Version::V16)
        .ok()
        .ok_or("refused")?;
    assert_eq!(rt; words.as_slice(), MODULE.as_slice());
    Ok(())
}
