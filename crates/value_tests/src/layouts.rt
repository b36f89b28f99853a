//! Records of each code that fit their layout, and ones that do not.

use llvm_layout::{Around, Parts, read_record};
use std::alloc::{AllocError, Global};
use std::test::Fail;

/// The current value number is 10, and there are 3 types and 2 blocks.
const AROUND: Around = Around {
    now: 10,
    types: 3,
    blocks: 2,
};

/// The operands, the types with their places, and the plain fields.
#[derive(Clone, Debug, Drop, PartialEq)]
struct Said {
    numbers: Vec<u32>,
    types: Vec<(u32, u32)>,
    plain: Vec<u64>,
}

fn said_of(
    alloc: Global,
    numbers: &[u32],
    types: &[(u32, u32)],
    plain: &[u64],
) -> Result<Said, AllocError> {
    Ok(Said {
        numbers: numbers.to_vec(alloc)?,
        types: types.to_vec(alloc)?,
        plain: plain.to_vec(alloc)?,
    })
}

fn said_by(alloc: Global, parts: &Parts) -> Result<Said, AllocError> {
    said_of(
        alloc,
        parts.numbers.as_slice(),
        parts.types.as_slice(),
        parts.plain.as_slice(),
    )
}

fn read(alloc: Global, code: u64, fields: &[u64]) -> Result<Option<Said>, AllocError> {
    if fields.len() > 16 {
        return Ok(None);
    }
    let Ok(found) = read_record(alloc, AROUND, code, fields) else {
        return Ok(None);
    };
    match found {
        Some(parts) => Ok(Some(said_by(alloc, &parts)?)),
        None => Ok(None),
    }
}

/// A name, a code and its fields; the operands, the types with their places, and the plain fields.
type Case = (
    &'static str,
    u64,
    &'static [u64],
    &'static [u32],
    &'static [(u32, u32)],
    &'static [u64],
);

const SAID: [Case; 22] = [
    ("declared blocks", 1, &[4], &[], &[], &[4]),
    ("a sum", 2, &[1, 2, 0], &[9, 8], &[], &[0]),
    (
        "a sum of a later value",
        2,
        &[0, 2, 1, 0],
        &[10, 9],
        &[(0, 2)],
        &[0],
    ),
    (
        "counted modulo 2^32",
        2,
        &[4294967297, 4294967298, 0],
        &[9, 8],
        &[],
        &[0],
    ),
    (
        "2^32 is 0 back",
        2,
        &[4294967296, 2, 1, 0],
        &[10, 9],
        &[(0, 2)],
        &[0],
    ),
    ("a cast", 3, &[1, 2, 1], &[9], &[(1, 2)], &[1]),
    ("a return of nothing", 10, &[], &[], &[], &[]),
    ("a branch", 11, &[1], &[1], &[], &[]),
    (
        "a branch on a condition",
        11,
        &[1, 0, 3],
        &[1, 0, 7],
        &[],
        &[],
    ),
    (
        "a switch of one case",
        12,
        &[0, 1, 1, 7, 0],
        &[9, 1, 7, 0],
        &[(0, 0)],
        &[],
    ),
    (
        "phi entries of 1 back, itself and 1 on",
        16,
        &[2, 2, 0, 1, 1, 3, 0],
        &[9, 0, 10, 1, 11, 0],
        &[(0, 2)],
        &[],
    ),
    ("an allocation", 19, &[7, 8], &[], &[], &[7, 8]),
    (
        "a load with a type",
        20,
        &[1, 2, 4, 0],
        &[9],
        &[(1, 2)],
        &[4, 0],
    ),
    ("a part", 26, &[1, 0, 1], &[9], &[], &[0, 1]),
    (
        "a choice by a later condition",
        29,
        &[1, 2, 0, 1],
        &[9, 8, 10],
        &[(2, 1)],
        &[],
    ),
    ("a call", 34, &[5, 6, 1, 2], &[9, 8], &[], &[5, 6]),
    (
        "a call with its type",
        34,
        &[5, 32774, 2, 1, 2],
        &[9, 8],
        &[(0, 2)],
        &[5, 32774],
    ),
    ("a place in the source", 35, &[7], &[], &[], &[7]),
    (
        "an atomic step",
        38,
        &[1, 2, 1, 0, 2, 1],
        &[9, 8],
        &[],
        &[1, 0, 2, 1],
    ),
    (
        "a place with an index",
        43,
        &[1, 2, 3, 4],
        &[7, 6],
        &[(0, 2)],
        &[1],
    ),
    ("a store", 44, &[1, 2, 4, 0], &[9, 8], &[], &[4, 0]),
    (
        "a compare and exchange of eight fields",
        46,
        &[1, 2, 3, 0, 2, 1, 2, 1],
        &[9, 8, 7],
        &[],
        &[0, 2, 1, 2, 1],
    ),
];

/// What is read of a case's record, and what it says.
fn both_of(alloc: Global, case: &Case) -> Result<(Option<Said>, Said), AllocError> {
    let (_, code, fields, numbers, types, plain) = case;
    Ok((
        read(alloc, *code, fields)?,
        said_of(alloc, numbers, types, plain)?,
    ))
}

#[test]
fn records_say_their_operands(rt: HostRuntime) -> Result<(), Fail> {
    for case in &SAID {
        let (found, wanted) = both_of(rt.alloc(), case)?;
        assert_eq!(rt; found, Some(wanted), "{}", case.0);
    }
    Ok(())
}

/// A code, and fields that do not fit it.
const UNSAID: [(&'static str, u64, &'static [u64]); 27] = [
    ("a code that is not listed", 4, &[1]),
    ("declared blocks without a count", 1, &[]),
    ("declared blocks with two counts", 1, &[4, 4]),
    ("a sum without its operation", 2, &[1, 2]),
    ("a sum with two flags", 2, &[1, 2, 0, 0, 0]),
    ("a later value without its type", 2, &[0, 2, 0]),
    ("a later value of a type that is none", 2, &[0, 3, 1, 0]),
    ("2^32 is 0 back and needs its type", 2, &[4294967296, 2, 0]),
    ("a cast to a type that is none", 3, &[1, 3, 1]),
    ("a cast to a type of 2^32", 3, &[1, 4294967296, 1]),
    ("a return of two values", 10, &[1, 2]),
    ("a branch to a block that is none", 11, &[2]),
    ("a branch to two blocks without a condition", 11, &[1, 0]),
    ("a switch with half a case", 12, &[0, 1, 1, 7]),
    ("an end with a field", 15, &[0]),
    ("a phi with half an entry", 16, &[2, 2]),
    ("a load of two fields", 20, &[1, 4]),
    ("a part without its index", 26, &[1]),
    ("a comparison of five fields", 28, &[1, 2, 32, 0, 0]),
    ("a choice without a condition", 29, &[1, 2]),
    ("a call without its callee", 34, &[5, 6]),
    (
        "a call without the type that it announces",
        34,
        &[5, 32774, 1],
    ),
    ("an atomic step of five fields", 38, &[1, 2, 1, 0, 2]),
    ("a place without its base", 43, &[1, 2]),
    ("a store of three fields", 44, &[1, 2, 4]),
    (
        "a compare and exchange of five fields",
        46,
        &[1, 2, 3, 0, 2],
    ),
    (
        "a compare and exchange of nine fields",
        46,
        &[1, 2, 3, 0, 2, 1, 2, 1, 0],
    ),
];

#[test]
fn records_of_another_form_say_nothing(rt: HostRuntime) -> Result<(), Fail> {
    for (name, code, fields) in &UNSAID {
        assert_eq!(rt; read(rt.alloc(), *code, fields)?, None, "{name}");
    }
    Ok(())
}
