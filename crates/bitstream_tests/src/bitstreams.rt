//! Whole bitstreams, and ones that break a rule or pass a limit. Their bits and places were worked out from the format.

use crate::small::MODULE;
use dx_base::{Bytes, Fault, List, Rule, Which};
use dx_bitstream::{Item, Items, read_items};
use std::alloc::Global;
use std::test::Fail;

/// The bitcode of an empty shader: a module block with types, constants, metadata and one function body.
const SHADER: [u8; 204] = [
    0x42, 0x43, 0xC0, 0xDE, 0x21, 0x0C, 0x00, 0x00, 0x30, 0x00, 0x00, 0x00, 0x0B, 0x82, 0x20, 0x11,
    0x04, 0x00, 0x00, 0x00, 0x04, 0x00, 0x00, 0x00, 0x13, 0x04, 0xC4, 0x08, 0xC0, 0x54, 0x02, 0x00,
    0xCC, 0x11, 0x80, 0xC1, 0x20, 0x42, 0x00, 0x00, 0x43, 0x88, 0x00, 0x00, 0x80, 0x2C, 0x10, 0x00,
    0x05, 0x00, 0x00, 0x00, 0x13, 0x04, 0xC2, 0x10, 0x01, 0x33, 0x44, 0x00, 0x0C, 0x11, 0x20, 0x43,
    0x04, 0xD0, 0x10, 0x81, 0x00, 0x00, 0x00, 0x00, 0x79, 0x20, 0x00, 0x00, 0x1A, 0x00, 0x00, 0x00,
    0x13, 0x08, 0xE3, 0x30, 0x0F, 0x23, 0x08, 0x42, 0x30, 0x82, 0x20, 0x08, 0x33, 0x0C, 0x81, 0x30,
    0x8C, 0x20, 0x0C, 0xC0, 0x04, 0x44, 0x3B, 0x84, 0x43, 0x3A, 0xB8, 0xC3, 0x08, 0x82, 0x30, 0x8C,
    0x20, 0x08, 0xC4, 0x08, 0x82, 0x50, 0xCC, 0x30, 0x20, 0x47, 0x32, 0x83, 0x70, 0x28, 0x33, 0x14,
    0x85, 0x01, 0x00, 0xCB, 0x10, 0x0E, 0x39, 0xE0, 0x83, 0x1B, 0xCC, 0x03, 0x3A, 0x84, 0x03, 0x39,
    0x94, 0x83, 0x3C, 0xB4, 0xC2, 0x3B, 0x90, 0x43, 0x39, 0xB0, 0xC3, 0x28, 0xC1, 0x30, 0x84, 0x43,
    0x0E, 0xF8, 0xE0, 0x06, 0xE5, 0xE0, 0x0E, 0xF4, 0x20, 0x0F, 0xF9, 0x00, 0x0B, 0xEF, 0x90, 0x0E,
    0xEE, 0x40, 0x0F, 0xF3, 0x30, 0x4A, 0xB0, 0x00, 0x61, 0x20, 0x00, 0x00, 0x02, 0x00, 0x00, 0x00,
    0x13, 0x04, 0xC1, 0x28, 0x00, 0x00, 0x00, 0x00, 0x00, 0x00, 0x00, 0x00,
];

/// The small module behind four other bytes.
const BEHIND_OTHERS: [u8; 20] = [
    0xFF, 0xFF, 0xFF, 0xFF, 0x42, 0x43, 0xC0, 0xDE, 0x21, 0x0C, 0, 0, 1, 0, 0, 0, 0x0B, 0x82, 0, 0,
];

#[test]
fn reads_an_empty_shader_and_bits_behind_others(rt: HostRuntime) -> Result<(), Fail> {
    let shader = read_items(rt.alloc(), SHADER.as_slice(), 0, 204)
        .ok()
        .ok_or("refused")?;
    assert_eq!(rt; shader.list.len(), 41);
    assert_eq!(rt; shader.fields.len(), 79);
    let node = Item::Record {
        code: 3,
        first: 38,
        count: 3,
        bit: 946,
    };
    assert_eq!(rt; shader.list.get(28).copied(), Some(node));
    let other = read_items(rt.alloc(), BEHIND_OTHERS.as_slice(), 4, 20)
        .ok()
        .ok_or("refused")?;
    let wanted = [
        Item::Enter {
            id: 8,
            width: 3,
            bit: 64,
        },
        Item::Record {
            code: 1,
            first: 0,
            count: 1,
            bit: 128,
        },
        Item::End { bit: 149 },
    ];
    assert_eq!(rt; other.list.as_slice(), wanted.as_slice());
    Ok(())
}

#[test]
fn a_cut_bitstream_breaks_a_rule_where_it_is_cut(rt: HostRuntime) -> Result<(), Fail> {
    for keep in 0u64..16 {
        let (rule, bit) = match keep {
            0..=3 => (1, 0),
            4..=11 => (2, 32),
            12..=14 => (2, 96),
            _ => (2, 117),
        };
        let fault = read_items(rt.alloc(), MODULE.as_slice(), 0, keep).err();
        let refused = Fault::Refused {
            rule: Rule::B(rule),
            bit,
        };
        assert_eq!(rt; fault, Some(refused), "{keep}");
    }
    Ok(())
}

/// Three operands and an array of 16,777,213 elements that take no bits: as many fields as there may be.
const FULL: [u8; 24] = [
    0x42, 0x43, 0xC0, 0xDE, 0x21, 0x0C, 0, 0, 3, 0, 0, 0, 0x1A, 0x05, 0x4C, 0, 0xFB, 0xFF, 0xFF,
    0x1F, 0, 0, 0, 0,
];

#[test]
fn fields_are_read_up_to_the_limit(rt: HostRuntime) -> Result<(), Fail> {
    let items = read_items(rt.alloc(), FULL.as_slice(), 0, 24)
        .ok()
        .ok_or("refused")?;
    assert_eq!(rt; items.fields.len(), 16_777_213);
    let array = Item::Record {
        code: 2,
        first: 0,
        count: 16_777_213,
        bit: 126,
    };
    let wanted = [
        Item::Enter {
            id: 8,
            width: 3,
            bit: 32,
        },
        array,
        Item::End { bit: 159 },
    ];
    assert_eq!(rt; items.list.as_slice(), wanted.as_slice());
    // one element more; an operand more; a record of one field more; 2^64 - 1 elements
    let cases: [(&[u8], u64); 4] = [
        (
            &[
                0x03, 0, 0, 0, 0x1A, 0x05, 0x4C, 0, 0xFD, 0xFF, 0xFF, 0x1F, 0, 0, 0, 0,
            ],
            126,
        ),
        (
            &[
                0x03, 0, 0, 0, 0x1A, 0x05, 0x4C, 0, 0xFB, 0xFF, 0xFF, 0x1F, 0x85, 0x01, 0, 0,
            ],
            159,
        ),
        (
            &[
                0x03, 0, 0, 0, 0x1A, 0x05, 0x4C, 0, 0xFB, 0xFF, 0xFF, 0x9F, 0x05, 0x41, 0, 0,
            ],
            159,
        ),
        (
            &[
                0x04, 0, 0, 0, 0x1A, 0x05, 0x4C, 0, 0xFF, 0xFF, 0xFF, 0xFF, 0xFF, 0xFF, 0xFF, 0xFF,
                0xFF, 0x1F, 0, 0,
            ],
            126,
        ),
    ];
    for (content, bit) in cases {
        let mut bytes: Bytes = List::new(rt.alloc());
        for byte in [0x42, 0x43, 0xC0, 0xDE, 0x21, 0x0C, 0, 0] {
            assert!(rt; bytes.push(byte).is_ok());
        }
        for byte in content {
            assert!(rt; bytes.push(*byte).is_ok());
        }
        let fault = read_whole(rt.alloc(), &bytes).err();
        let limit = Fault::Limit {
            which: Which::Fields,
            bit,
        };
        assert_eq!(rt; fault, Some(limit));
    }
    Ok(())
}

/// What all of the bytes spell; there are at most 2^32.
fn read_whole(alloc: Global, bytes: &Bytes) -> Result<Items, Fault> {
    let to = bytes.len() as u64;
    if to > 1 << 32 {
        return Err(Fault::OutOfMemory);
    }
    read_items(alloc, bytes.as_slice(), 0, to)
}

/// Bytes that are written as two hexadecimal digits each.
fn bytes_of(alloc: Global, hex: &str) -> Result<Bytes, u8> {
    let mut bytes: Bytes = List::new(alloc);
    let mut high = None;
    for digit in hex.bytes() {
        let value = match digit {
            b'0'..=b'9' => digit - b'0',
            _ => digit.wrapping_sub(b'a').wrapping_add(10),
        };
        match high {
            None => high = Some(value),
            Some(first) => {
                bytes.push(value.wrapping_add(16u8.wrapping_mul(first)))?;
                high = None;
            }
        }
    }
    Ok(bytes)
}

/// The bytes of a module block that defines the literal 1 as abbreviation 4 and has 2^22 records by it, of three bits each; with `last` 9 it has one more.
fn with_records(alloc: Global, last: u8) -> Result<Bytes, u8> {
    let mut bytes: Bytes = List::new(alloc);
    let head = [
        0x42, 0x43, 0xC0, 0xDE, 0x21, 0x0C, 0, 0, 0x01, 0, 0x06, 0, 0x0A, 0x03, 0x48,
    ];
    for byte in head {
        bytes.push(byte)?;
    }
    for triple in 0..524_287u32 {
        bytes.push(0x92)?;
        bytes.push(0x24)?;
        bytes.push(0x49)?;
    }
    for byte in [0x92, 0x24, last, 0] {
        bytes.push(byte)?;
    }
    Ok(bytes)
}

#[test]
fn records_are_read_up_to_the_limit(rt: HostRuntime) -> Result<(), Fail> {
    let within = with_records(rt.alloc(), 1).ok().ok_or("no memory")?;
    assert_eq!(rt; within.len(), 1_572_880);
    let items = read_whole(rt.alloc(), &within).ok().ok_or("refused")?;
    assert_eq!(rt; items.list.len(), 4_194_306);
    let past = with_records(rt.alloc(), 9).ok().ok_or("no memory")?;
    let fault = read_whole(rt.alloc(), &past).err();
    let limit = Fault::Limit {
        which: Which::Records,
        bit: 12_583_025,
    };
    assert_eq!(rt; fault, Some(limit));
    Ok(())
}

/// A bitstream with its items and fields.
#[derive(Drop)]
struct Whole {
    name: &'static str,
    hex: &'static str,
    items: &'static [Item],
    fields: &'static [u64],
}

const WHOLES: [Whole; 15] = [
    Whole {
        name: "one record of one field",
        hex: "4243c0de210c0000010000000b820000",
        items: &[
            Item::Enter {
                id: 8,
                width: 3,
                bit: 32,
            },
            Item::Record {
                code: 1,
                first: 0,
                count: 1,
                bit: 96,
            },
            Item::End { bit: 117 },
        ],
        fields: &[1],
    },
    Whole {
        name: "a field of 2^64 - 1",
        hex: "4243c0de210c0000030000000b82ffffffffffffffffff07",
        items: &[
            Item::Enter {
                id: 8,
                width: 3,
                bit: 32,
            },
            Item::Record {
                code: 1,
                first: 0,
                count: 1,
                bit: 96,
            },
            Item::End { bit: 189 },
        ],
        fields: &[18446744073709551615],
    },
    Whole {
        name: "a field of 1 in three chunks",
        hex: "4243c0de210c0000020000000b82100400000000",
        items: &[
            Item::Enter {
                id: 8,
                width: 3,
                bit: 32,
            },
            Item::Record {
                code: 1,
                first: 0,
                count: 1,
                bit: 96,
            },
            Item::End { bit: 129 },
        ],
        fields: &[1],
    },
    Whole {
        name: "fields of no bits",
        hex: "4243c0de210c0000030000002a0b0410904184ce00000000",
        items: &[
            Item::Enter {
                id: 8,
                width: 3,
                bit: 32,
            },
            Item::Record {
                code: 5,
                first: 0,
                count: 4,
                bit: 149,
            },
            Item::End { bit: 163 },
        ],
        fields: &[0, 0, 6, 9],
    },
    Whole {
        name: "an empty array and one of two",
        hex: "4243c0de210c0000020000001a054c08010a8700",
        items: &[
            Item::Enter {
                id: 8,
                width: 3,
                bit: 32,
            },
            Item::Record {
                code: 2,
                first: 0,
                count: 0,
                bit: 126,
            },
            Item::Record {
                code: 2,
                first: 0,
                count: 2,
                bit: 135,
            },
            Item::End { bit: 152 },
        ],
        fields: &[7, 8],
    },
    Whole {
        name: "a blob of no bytes and one of five",
        hex: "4243c0de210c00000500000012229401bc00000068656c6c6f00000000000000",
        items: &[
            Item::Enter {
                id: 8,
                width: 3,
                bit: 32,
            },
            Item::Record {
                code: 1,
                first: 0,
                count: 0,
                bit: 117,
            },
            Item::Record {
                code: 3,
                first: 0,
                count: 5,
                bit: 128,
            },
            Item::End { bit: 224 },
        ],
        fields: &[104, 101, 108, 108, 111],
    },
    Whole {
        name: "characters",
        hex: "4243c0de210c0000020000001a684880987bff07",
        items: &[
            Item::Enter {
                id: 8,
                width: 3,
                bit: 32,
            },
            Item::Record {
                code: 97,
                first: 0,
                count: 4,
                bit: 116,
            },
            Item::End { bit: 155 },
        ],
        fields: &[90, 57, 46, 95],
    },
    Whole {
        name: "abbreviations of BLOCKINFO stand before a block's own",
        hex: "4243c0de210c00000d0000000120000004000000130491840713048b84089308d100000089180000010000000a13580059180000010000000400000000000000",
        items: &[
            Item::Enter {
                id: 8,
                width: 3,
                bit: 32,
            },
            Item::Enter {
                id: 0,
                width: 4,
                bit: 96,
            },
            Item::Record {
                code: 1,
                first: 0,
                count: 1,
                bit: 160,
            },
            Item::Record {
                code: 1,
                first: 1,
                count: 1,
                bit: 200,
            },
            Item::Record {
                code: 9,
                first: 2,
                count: 2,
                bit: 240,
            },
            Item::End { bit: 268 },
            Item::Enter {
                id: 17,
                width: 3,
                bit: 288,
            },
            Item::Record {
                code: 7,
                first: 4,
                count: 0,
                bit: 369,
            },
            Item::Record {
                code: 9,
                first: 4,
                count: 0,
                bit: 372,
            },
            Item::End { bit: 375 },
            Item::Enter {
                id: 11,
                width: 3,
                bit: 384,
            },
            Item::Record {
                code: 8,
                first: 4,
                count: 0,
                bit: 448,
            },
            Item::End { bit: 451 },
            Item::End { bit: 480 },
        ],
        fields: &[17, 11, 17, 3],
    },
    Whole {
        name: "BLOCKINFO at the top gives to the module block and to later BLOCKINFO",
        hex: "4243c0de010c0000030000000b0244a1c182009018900100210c0000070000000cc00000010000005438000061200000010000000400000000000000",
        items: &[
            Item::Enter {
                id: 0,
                width: 3,
                bit: 32,
            },
            Item::Record {
                code: 1,
                first: 0,
                count: 1,
                bit: 96,
            },
            Item::Record {
                code: 1,
                first: 1,
                count: 1,
                bit: 134,
            },
            Item::End { bit: 181 },
            Item::Enter {
                id: 8,
                width: 3,
                bit: 192,
            },
            Item::Record {
                code: 6,
                first: 2,
                count: 0,
                bit: 256,
            },
            Item::Enter {
                id: 0,
                width: 3,
                bit: 259,
            },
            Item::Record {
                code: 1,
                first: 2,
                count: 1,
                bit: 320,
            },
            Item::End { bit: 340 },
            Item::Enter {
                id: 12,
                width: 4,
                bit: 352,
            },
            Item::Record {
                code: 3,
                first: 3,
                count: 0,
                bit: 416,
            },
            Item::End { bit: 420 },
            Item::End { bit: 448 },
        ],
        fields: &[8, 0, 12],
    },
    Whole {
        name: "abbreviations for blocks that are not read",
        hex: "4243c0de210c00000800000001180000050000000b8244a1c182e0ffffffffffffffffff5168000013000000",
        items: &[
            Item::Enter {
                id: 8,
                width: 3,
                bit: 32,
            },
            Item::Enter {
                id: 0,
                width: 3,
                bit: 96,
            },
            Item::Record {
                code: 1,
                first: 0,
                count: 1,
                bit: 160,
            },
            Item::Record {
                code: 1,
                first: 1,
                count: 1,
                bit: 198,
            },
            Item::End { bit: 308 },
            Item::Record {
                code: 2,
                first: 2,
                count: 0,
                bit: 320,
            },
            Item::End { bit: 335 },
        ],
        fields: &[9, 18446744073709551615],
    },
    Whole {
        name: "blocks that are passed over",
        hex: "4243c0de210c0000120000004918000002000000ffffffffffffffff612000000b0000001131000001000000ffffffffb15000000100000000000000f1ffffffffffffffff1f3000000000000000000000000000",
        items: &[
            Item::Enter {
                id: 8,
                width: 3,
                bit: 32,
            },
            Item::Skip {
                id: 9,
                words: 2,
                bit: 96,
            },
            Item::Enter {
                id: 12,
                width: 4,
                bit: 224,
            },
            Item::Skip {
                id: 17,
                words: 1,
                bit: 288,
            },
            Item::Enter {
                id: 11,
                width: 5,
                bit: 384,
            },
            Item::End { bit: 448 },
            Item::Skip {
                id: 18446744073709551615,
                words: 0,
                bit: 480,
            },
            Item::End { bit: 608 },
            Item::End { bit: 640 },
        ],
        fields: &[],
    },
    Whole {
        name: "a block before the module, and an id of 32 bits",
        hex: "4243c0de250c000001000000ffffffff2120010003000000030000000300000000000000",
        items: &[
            Item::Skip {
                id: 9,
                words: 1,
                bit: 32,
            },
            Item::Enter {
                id: 8,
                width: 32,
                bit: 128,
            },
            Item::Record {
                code: 3,
                first: 0,
                count: 0,
                bit: 192,
            },
            Item::End { bit: 236 },
        ],
        fields: &[],
    },
    Whole {
        name: "nothing after the first module block is read",
        hex: "4243c0de210c00000100000000000000ffffff",
        items: &[
            Item::Enter {
                id: 8,
                width: 3,
                bit: 32,
            },
            Item::End { bit: 96 },
        ],
        fields: &[],
    },
    Whole {
        name: "blocks with nothing in them",
        hex: "4243c0de010800000100000000000000210800000100000000000000",
        items: &[
            Item::Enter {
                id: 0,
                width: 2,
                bit: 32,
            },
            Item::End { bit: 96 },
            Item::Enter {
                id: 8,
                width: 2,
                bit: 128,
            },
            Item::End { bit: 192 },
        ],
        fields: &[],
    },
    Whole {
        name: "the widest operands",
        hex: "4243c0de210c00000600000022030412120405ffffffffffffffff370300000000000000",
        items: &[
            Item::Enter {
                id: 8,
                width: 3,
                bit: 32,
            },
            Item::Record {
                code: 1,
                first: 0,
                count: 3,
                bit: 150,
            },
            Item::End { bit: 255 },
        ],
        fields: &[18446744073709551615, 5, 6],
    },
];

#[test]
fn reads_whole_bitstreams(rt: HostRuntime) -> Result<(), Fail> {
    for case in &WHOLES {
        let bytes = bytes_of(rt.alloc(), case.hex).ok().ok_or("no memory")?;
        let items = read_whole(rt.alloc(), &bytes).ok().ok_or(case.name)?;
        assert_eq!(rt; items.list.as_slice(), case.items, "{}", case.name);
        assert_eq!(rt; items.fields.as_slice(), case.fields, "{}", case.name);
    }
    Ok(())
}

/// A name, the bytes, the first broken rule and its bit.
const REFUSED: [(&'static str, &'static str, u8, u64); 63] = [
    ("another magic", "4343c0de210c0000010000000b820000", 1, 0),
    ("a record at the top", "4243c0de07000000", 8, 32),
    ("an end at the top", "4243c0de00000000", 8, 32),
    ("an end at the top that passes the end", "4243c0de00", 2, 32),
    ("a definition at the top", "4243c0de86010000", 8, 32),
    ("a faulty definition at the top", "4243c0de06030000", 4, 32),
    (
        "a wide definition at the top",
        "4243c0de868080808080808080800200",
        7,
        32,
    ),
    (
        "a wide record at the top",
        "4243c0de832008822008822008420000",
        7,
        32,
    ),
    (
        "a record at the top that passes the end",
        "4243c0de07090000",
        2,
        32,
    ),
    ("nothing behind the magic", "4243c0de", 2, 32),
    (
        "only a BLOCKINFO block",
        "4243c0de010c00000100000000000000",
        2,
        128,
    ),
    ("an id of 0 bits", "4243c0de210000000000000000000000", 8, 32),
    ("an id of 1 bits", "4243c0de210400000000000000000000", 8, 32),
    (
        "an id of 33 bits",
        "4243c0de212401000000000000000000",
        8,
        32,
    ),
    (
        "an id of 300 bits",
        "4243c0de217013000000000000000000",
        8,
        32,
    ),
    (
        "a width of 2^64",
        "4243c0de2120222222222222222222a2000000000000000000000000",
        7,
        32,
    ),
    (
        "an id of 2^64 whose content passes the end",
        "4243c0de0102020202020202020a080009000000",
        2,
        32,
    ),
    (
        "an id of 2^64 whose content lies within the end",
        "4243c0de0102020202020202020a080000000000",
        7,
        32,
    ),
    (
        "a skipped block that passes the end by a word",
        "4243c0de210c0000000000004918000003000000ffffffffffffffff",
        2,
        96,
    ),
    (
        "a skipped block with a wide width",
        "4243c0de210c0000070000004940444444444444444444440100000001000000ffffffff00000000",
        7,
        96,
    ),
    ("no abbreviation", "4243c0de210c00000000000004000000", 3, 96),
    (
        "one number behind the last abbreviation",
        "4243c0de210c0000000000000a035800",
        3,
        116,
    ),
    (
        "an abbreviation of the block around",
        "4243c0de210c0000000000000a0312310000000004000000",
        3,
        160,
    ),
    (
        "an abbreviation of the block before",
        "4243c0de210c00000000000089180000010000000a030000891800000000000004000000",
        3,
        256,
    ),
    (
        "an abbreviation given to the block after its entry",
        "4243c0de210c00000000000001180000020000000b0244610000000004000000",
        3,
        224,
    ),
    (
        "an abbreviation given to the BLOCKINFO block itself",
        "4243c0de210c00000000000001180000000000000b02406100010000",
        3,
        198,
    ),
    ("no operand", "4243c0de210c00000100000002000000", 4, 96),
    ("Array first", "4243c0de210c00000100000012260100", 4, 96),
    ("Blob first", "4243c0de210c0000010000000a0a0000", 4, 96),
    ("Array last", "4243c0de210c00000100000012030c00", 4, 96),
    (
        "Array before two operands",
        "4243c0de210c00000200000022034c8204000000",
        4,
        96,
    ),
    (
        "an array of literals",
        "4243c0de210c0000020000001a036c0000000000",
        4,
        96,
    ),
    (
        "an array of arrays",
        "4243c0de210c0000010000001a03cc00",
        4,
        96,
    ),
    (
        "an array of blobs",
        "4243c0de210c0000010000001a034c01",
        4,
        96,
    ),
    (
        "Blob not last",
        "4243c0de210c0000020000001a03540200000000",
        4,
        96,
    ),
    ("encoding 0", "4243c0de210c00000100000012030000", 4, 96),
    ("encoding 6", "4243c0de210c0000010000000a0c0000", 4, 96),
    ("encoding 7", "4243c0de210c0000010000001a03cc01", 4, 96),
    (
        "Fixed of 65 bits",
        "4243c0de210c0000010000000a120900",
        4,
        96,
    ),
    ("VBR of one bit", "4243c0de210c00000100000012032800", 4, 96),
    (
        "VBR of 33 bits",
        "4243c0de210c0000020000001a038ca200000000",
        4,
        96,
    ),
    (
        "a Fixed width of 2^64",
        "4243c0de210c00000400000012022184104208218410421806000000",
        4,
        96,
    ),
    (
        "a literal of 2^64",
        "4243c0de210c0000030000000a0101010101010101010500",
        7,
        96,
    ),
    (
        "a faulty definition that passes the end",
        "4243c0de210c0000000000001226",
        2,
        96,
    ),
    (
        "a stated length of one word too many",
        "4243c0de210c0000020000000b820000",
        5,
        32,
    ),
    (
        "a stated length of one word too few",
        "4243c0de210c0000000000000b820000",
        5,
        32,
    ),
    (
        "a nested block with a stated length of one word too many",
        "4243c0de210c00000400000089180000020000000b02000000000000",
        5,
        96,
    ),
    (
        "a module block longer than its nested block",
        "4243c0de210c00000900000089180000010000000b02000000000000",
        5,
        32,
    ),
    (
        "an unknown abbreviation before a wrong length",
        "4243c0de210c00000900000089180000010000000b02000004000000",
        3,
        192,
    ),
    (
        "a definition before the first SETBID",
        "4243c0de210c00000400000001180000010000000a03000000000000",
        6,
        160,
    ),
    (
        "a SETBID of the BLOCKINFO block before",
        "4243c0de210c00000800000001180000020000000b8245610000000001180000010000000a03000000000000",
        6,
        288,
    ),
    (
        "a SETBID without a field",
        "4243c0de210c00000400000001180000010000000b00000000000000",
        6,
        160,
    ),
    (
        "a SETBID without a field by an abbreviation",
        "4243c0de210c00000800000001180000020000000b0240610000000001180000010000000400000000000000",
        6,
        288,
    ),
    (
        "a wide definition before the first SETBID",
        "4243c0de210c00000600000001180000030000000a010101010101010101050000000000",
        6,
        160,
    ),
    (
        "a faulty definition before the first SETBID",
        "4243c0de210c00000400000001180000010000000a0a000000000000",
        4,
        160,
    ),
    (
        "a field of 2^64",
        "4243c0de210c0000030000000b0210044110044110044108",
        7,
        96,
    ),
    (
        "a code of 2^64",
        "4243c0de210c000003000000034110044110044110848200",
        7,
        96,
    ),
    (
        "a count of 2^64",
        "4243c0de210c0000000000000b401004411004411004a100",
        2,
        96,
    ),
    (
        "a field of 2^64 before one that passes the end",
        "4243c0de210c0000000000000b0410044110044110044108",
        2,
        96,
    ),
    (
        "2^64 elements of no bits",
        "4243c0de210c0000040000001a034c00411004411004411004210000",
        7,
        126,
    ),
    (
        "a VBR field of 2^64",
        "4243c0de210c0000040000001203c810044110044110044110020000",
        7,
        122,
    ),
    (
        "a blob that passes the end",
        "4243c0de210c0000000000001203940500000000",
        2,
        117,
    ),
    (
        "an end whose alignment passes the end",
        "4243c0de210c0000000000000b8200",
        2,
        117,
    ),
];

#[test]
fn refuses_at_the_first_bit(rt: HostRuntime) -> Result<(), Fail> {
    for (name, hex, rule, bit) in &REFUSED {
        let bytes = bytes_of(rt.alloc(), hex).ok().ok_or("no memory")?;
        let fault = read_whole(rt.alloc(), &bytes).err();
        let refused = Fault::Refused {
            rule: Rule::B(*rule),
            bit: *bit,
        };
        assert_eq!(rt; fault, Some(refused), "{name}");
    }
    Ok(())
}
