//! A shader that names many resources, each of a place of its own (tools/profile_rows.py).

ghost use Rattle.std.specs.Prelude.{◌≤◌};

use crate::shader::{CONSTANTS, GLOBALS, METADATA, SYMBOLS, TYPES};
use crate::writer::{Bits, content, file};
use dx_base::{Fault, Which};
use dx_translate::translate;
use spv_form::Version;
use std::alloc::{AllocError, Global};
use std::test::Fail;

/// The number of the first constant behind those of the small shader.
const FIRST: u64 = 26;

/// The constants of the small shader, and the ids of the resources.
fn constants(alloc: Global, count: u64) -> Result<Bits, AllocError>
    requires { count ≤ 2000 }
{
    let mut bits = content(alloc, 11, &CONSTANTS, &[])?;
    bits.record(4, (1, &[2]))?;
    for number in 0..count {
        bits.record(4, (4, &[2 * number]))?;
    }
    Ok(bits)
}

/// The ids as the items from 13 on, a row of each behind them, and their list.
fn rows(bits: &mut Bits, count: u64) -> Result<(), AllocError>
    requires { count ≤ 2000 }
{
    for number in 0..count {
        bits.record(4, (2, &[2, FIRST + number]))?;
    }
    for number in 0..count {
        let id = 14 + number;
        bits.record(4, (3, &[id, 0, 0, 3, id, 9, 12, 13, 13, 13, 0]))?;
    }
    bits.fixed(3, 4)?;
    bits.chunks(3, 6)?;
    bits.chunks(count, 6)?;
    for number in 0..count {
        bits.chunks(14 + count + number, 6)?;
    }
    Ok(())
}

/// The metadata with the rows as UAVs.
fn metadata(alloc: Global, count: u64) -> Result<Bits, AllocError>
    requires { count ≤ 2000 }
{
    let mut bits = content(alloc, 15, &METADATA[..13], &[])?;
    rows(&mut bits, count)?;
    bits.record(4, (3, &[0, 14 + 2 * count, 0, 0]))?;
    bits.record(4, (3, &[5, 6, 0, 15 + 2 * count, 11]))?;
    bits.record(4, METADATA[17])?;
    bits.record(4, (10, &[3]))?;
    bits.record(4, METADATA[19])?;
    bits.record(4, (10, &[15 + 2 * count]))?;
    Ok(bits)
}

/// A call of CreateHandle for each, and a return.
fn body(alloc: Global, count: u64) -> Result<Bits, AllocError>
    requires { count ≤ 2000 }
{
    let mut bits = Bits::new(alloc);
    bits.record(4, (1, &[1]))?;
    for number in 0..count {
        // operands are counted back from here: the function 2, the opcode 13, the class 22, the id, the index 9 and the flag 25
        let now = FIRST + count + number;
        bits.record(
            4,
            (
                34,
                &[0, 0, now - 2, now - 13, now - 22, count, now - 9, now - 25],
            ),
        )?;
    }
    bits.record(4, (10, &[]))?;
    Ok(bits)
}

/// The container of the shader that names so many resources.
fn container_of(alloc: Global, count: u64) -> Result<Vec<u8>, AllocError>
    requires { count ≤ 2000 }
{
    let mut module = Bits::new(alloc);
    module.record(4, (1, &[1]))?;
    module.block(4, 17, 4, content(alloc, 17, &TYPES, &[])?)?;
    for row in &GLOBALS {
        module.record(4, *row)?;
    }
    module.block(4, 11, 4, constants(alloc, count)?)?;
    module.block(4, 15, 4, metadata(alloc, count)?)?;
    module.block(4, 14, 4, content(alloc, 14, &SYMBOLS, &[])?)?;
    module.block(4, 12, 4, body(alloc, count)?)?;
    let mut bitcode = Bits::new(alloc);
    bitcode.fixed(0xDEC0_4342, 32)?;
    bitcode.block(2, 8, 4, module)?;
    file(alloc, &bitcode)
}

#[test]
fn the_limit_of_resources_is_told_at_the_call_that_passes_it(rt: HostRuntime) -> Result<(), Fail> {
    let passed = Fault::Limit {
        which: Which::Resources,
        bit: 331_382,
    };
    for (count, wanted) in [(1024, None), (1025, Some(passed))] {
        let bytes = container_of(rt.alloc(), count)?;
        if bytes.len() > 100_000 {
            return Err(Fail::from("too long"));
        }
        assert_eq!(rt;
            translate(rt.alloc(), bytes.as_slice(), Version::V16).err(),
            wanted,
            "{count}"
        );
    }
    Ok(())
}
