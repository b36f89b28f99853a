//! The records of small bitstreams, each a list of words.

ghost use Rattle.std.specs.Prelude.{IfOk};
ghost use Rattle.bitstream_spelling.specs.Framed.{IsFramed};

use bitstream_pieces::items_in;
use bitstream_spelling::Items;
use dx_base::{Fault, Rule, Which};
use llvm_records::read_module_records;
use llvm_types::read_types;
use std::alloc::Global;
use std::test::Fail;

/// A module of one function, whose body is a return.
const WHOLE: [u32; 16] = [
    0xDEC0_4342,
    0x0000_0C21,
    0x0000_000D,
    0x1120_820B,
    0x0000_0003,
    0x0000_0004,
    0x0255_8013,
    0xC008_EC00,
    0x0010_8860,
    0x0000_0000,
    0x0001_8843,
    0x000C_3080,
    0x0000_0002,
    0x0A60_820B,
    0x0000_0000,
    0x0000_0000,
];

/// A record of an unknown code at bit 437 in the body, and a variable behind it.
const BAD_BODY: [u32; 17] = [
    0xDEC0_4342,
    0x0000_0C21,
    0x0000_000E,
    0x1120_820B,
    0x0000_0003,
    0x0000_0004,
    0x0255_8013,
    0xC008_EC00,
    0x0010_8860,
    0x0000_0000,
    0x0001_8843,
    0x000C_3080,
    0x0000_0002,
    0xE360_820B,
    0x0001_4C00,
    0x0041_063B,
    0x0000_0000,
];

/// A variable of two fields at bit 320, and a record of an unknown code in the body.
const SHORT_VARIABLE: [u32; 17] = [
    0xDEC0_4342,
    0x0000_0C21,
    0x0000_000E,
    0x1120_820B,
    0x0000_0003,
    0x0000_0004,
    0x0255_8013,
    0xC008_EC00,
    0x0010_8860,
    0x0000_0000,
    0x1841_043B,
    0x0000_0C42,
    0x0000_6184,
    0x0000_0002,
    0xE360_820B,
    0x0001_4C00,
    0x0000_0000,
];

/// A body that declares 8,193 blocks at bit 416, and a variable behind it.
const MANY_BLOCKS: [u32; 17] = [
    0xDEC0_4342,
    0x0000_0C21,
    0x0000_000E,
    0x1120_820B,
    0x0000_0003,
    0x0000_0004,
    0x0255_8013,
    0xC008_EC00,
    0x0010_8860,
    0x0000_0000,
    0x0001_8843,
    0x000C_3080,
    0x0000_0002,
    0x4410_820B,
    0x0000_00A6,
    0x0041_063B,
    0x0000_0000,
];

/// A function whose body is missing; the module ends at bit 359.
const NO_BODY: [u32; 12] = [
    0xDEC0_4342,
    0x0000_0C21,
    0x0000_0009,
    0x1120_820B,
    0x0000_0003,
    0x0000_0004,
    0x0255_8013,
    0xC008_EC00,
    0x0010_8860,
    0x0000_0000,
    0x0001_8843,
    0x0000_0000,
];

/// The same without a VERSION; the module ends at bit 327.
const NO_VERSION: [u32; 11] = [
    0xDEC0_4342,
    0x0000_0C21,
    0x0000_0008,
    0x0000_1889,
    0x0000_0004,
    0x0255_8013,
    0xC008_EC00,
    0x0010_8860,
    0x0000_0000,
    0x0001_8843,
    0x0000_0000,
];

fn items_of(alloc: Global, words: &[u32]) -> Result<Items, Fail>
    ensures { IfOk result (λ items. IsFramed items.list items.fields) }
{
    let mut bytes = Vec::new(alloc);
    for word in words {
        bytes.extend_from_slice(&word.to_le_bytes())?;
    }
    Ok(items_in(alloc, bytes.as_slice()).ok().ok_or("no items")?)
}

/// How many values, bodies and lines of the first body there are, or the fault.
fn counts(alloc: Global, words: &[u32]) -> Result<Result<[usize; 3], Fault>, Fail> {
    let items = items_of(alloc, words)?;
    let Ok(types) = read_types(alloc, &items) else {
        return Err("no types")?;
    };
    match read_module_records(alloc, &items, &types) {
        Ok(records) => {
            let lines = match records.bodies.get(0) {
                Some(body) => body.lines.len(),
                None => 0,
            };
            Ok(Ok([records.globals.len(), records.bodies.len(), lines]))
        }
        Err(fault) => Ok(Err(fault)),
    }
}

fn broken(rule: u8, bit: u64) -> Result<[usize; 3], Fault> {
    Err(Fault::Refused {
        rule: Rule::M(rule),
        bit,
    })
}

#[test]
fn the_first_of_values_and_bodies_is_told(rt: HostRuntime) -> Result<(), Fail> {
    let table: [(&[u32], Result<[usize; 3], Fault>); 6] = [
        (&WHOLE, Ok([1, 1, 1])),
        (&BAD_BODY, broken(7, 437)),
        (&SHORT_VARIABLE, broken(3, 320)),
        (
            &MANY_BLOCKS,
            Err(Fault::Limit {
                which: Which::Blocks,
                bit: 416,
            }),
        ),
        (&NO_BODY, broken(11, 359)),
        (&NO_VERSION, broken(1, 327)),
    ];
    for (words, wanted) in table {
        assert_eq!(rt; counts(rt.alloc(), words)?, wanted);
    }
    Ok(())
}
