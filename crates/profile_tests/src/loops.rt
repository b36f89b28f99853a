//! The words of the shader of a loop (tools/loop_rows.py).

use crate::rounds::loop_file;
use dx_base::{Bytes, OutOfMemory, Words, bytes_of};
use dx_translate::translate;
use spirv_file::check_file;
use spirv_words::read_module;
use spv_form::{Module, Version, op};
use std::alloc::Global;
use std::test::Fail;

/// The most bytes that a file of the tests has.
const MOST: usize = 0x0001_0000;

fn file_of(alloc: Global, words: &Words) -> Result<Bytes, Fail> {
    match bytes_of(alloc, words) {
        Ok(bytes) => Ok(bytes),
        Err(OutOfMemory) => Err(Fail::from("no memory")),
    }
}

/// The words of the shader's module, as bytes.
fn made(alloc: Global, version: Version) -> Result<Bytes, Fail> {
    let file = loop_file(alloc)?;
    if file.len() > MOST {
        return Err(Fail::from("too long"));
    }
    match translate(alloc, file.as_slice(), version) {
        Ok(words) => file_of(alloc, &words),
        Err(_) => Err(Fail::from("refused")),
    }
}

/// How many instructions have the opcode.
fn how_many(m: &Module, opcode: u16) -> usize {
    let mut count = 0usize;
    for inst in m.insts.as_slice() {
        if inst.opcode == opcode {
            count = count.saturating_add(1);
        }
    }
    count
}

#[test]
fn the_loop_is_one_loop_of_the_module(rt: HostRuntime) -> Result<(), Fail> {
    for version in [Version::V13, Version::V16] {
        let bytes = made(rt.alloc(), version)?;
        if bytes.len() > MOST {
            return Err(Fail::from("too long"));
        }
        let Ok(module) = read_module(rt.alloc(), bytes.as_slice()) else {
            return Err(Fail::from("no module"));
        };
        for (opcode, wanted) in [
            (op::LOOP_MERGE, 1),
            (op::SWITCH, 0),
            (op::CONTROL_BARRIER, 3),
        ] {
            assert_eq!(rt; how_many(&module, opcode), wanted, "{opcode}");
        }
        assert!(rt; check_file(rt.alloc(), bytes).is_ok());
    }
    Ok(())
}
