//! Types of small bitstreams, and ones that break a rule.

use bitstream_pieces::Piece::{self, End, Enter, Record};
use bitstream_pieces::items_of;
use dx_base::{Fault, Rule};
use llvm_types::{LlvmType, Types, read_types};
use std::alloc::Global;
use std::test::Fail;

/// The types of the pieces, or the fault.
fn read(alloc: Global, pieces: &[Piece]) -> Result<Result<Types, Fault>, Fail> {
    let Ok(items) = items_of(alloc, pieces) else {
        return Err("no items")?;
    };
    Ok(read_types(alloc, &items))
}

fn types_of(alloc: Global, pieces: &[Piece]) -> Result<Types, Fail> {
    let types = read(alloc, pieces)?.ok().ok_or("refused")?;
    Ok(types)
}

/// How many types the pieces state, or the fault.
fn count_of(alloc: Global, pieces: &[Piece]) -> Result<Result<usize, Fault>, Fail> {
    Ok(read(alloc, pieces)?.map(|types| types.list.len()))
}

fn is_struct(ty: Option<&LlvmType>, wanted: &[u32]) -> bool {
    match ty {
        Some(LlvmType::Struct { fields }) => fields.as_slice() == wanted,
        _ => false,
    }
}

fn is_function(ty: Option<&LlvmType>, wanted: bool, result_type: u32, parameters: &[u32]) -> bool {
    match ty {
        Some(
            LlvmType::Function {
                vararg,
                ret,
                params,
            },
        ) => *vararg == wanted && *ret == result_type && params.as_slice() == parameters,
        _ => false,
    }
}

/// The count, or the fault of a broken rule.
fn answer(wanted: Result<usize, (u8, u64)>) -> Result<usize, Fault> {
    match wanted {
        Ok(count) => Ok(count),
        Err((rule, bit)) => Err(Fault::Refused {
            rule: Rule::Y(rule),
            bit,
        }),
    }
}

/// The types of an empty shader.
const EMPTY: [Piece; 11] = [
    Enter(8),
    Record(1, &[1]),
    Enter(17),
    Record(1, &[4]),
    Record(2, &[]),
    Record(21, &[0, 0]),
    Record(7, &[32]),
    Record(8, &[1, 0]),
    End,
    Record(8, &[1, 0, 0, 0]),
    End,
];

#[test]
fn types_of_the_empty_shader(rt: HostRuntime) -> Result<(), Fail> {
    let types = types_of(rt.alloc(), &EMPTY)?;
    assert_eq!(rt; types.list.len(), 4);
    assert!(rt; matches!(types.list.get(0), Some(LlvmType::Void)));
    assert!(rt; is_function(types.list.get(1), false, 0, &[]));
    assert!(rt; matches!(types.list.get(2), Some(LlvmType::Integer(32))));
    assert!(rt;
        matches!(
            types.list.get(3),
            Some(LlvmType::Pointer { to: 1, space: 0 })
        )
    );
    Ok(())
}

/// A type of every kind.
const KINDS: [Piece; 18] = [
    Enter(8),
    Enter(17),
    Record(3, &[]),
    Record(4, &[7]),
    Record(19, &[97]),
    Record(5, &[]),
    Record(6, &[]),
    Record(10, &[]),
    Record(16, &[]),
    Record(8, &[8, 3, 5]),
    Record(11, &[64, 1]),
    Record(12, &[4, 0]),
    Record(18, &[1, 10, 0]),
    Record(20, &[0]),
    Record(21, &[2, 0, 9, 8]),
    Record(2, &[]),
    End,
    End,
];

#[test]
fn types_of_every_kind(rt: HostRuntime) -> Result<(), Fail> {
    let types = types_of(rt.alloc(), &KINDS)?;
    assert_eq!(rt; types.list.len(), 13);
    assert!(rt; matches!(types.list.get(0), Some(LlvmType::Float)));
    assert!(rt; matches!(types.list.get(1), Some(LlvmType::Double)));
    assert!(rt; matches!(types.list.get(2), Some(LlvmType::Label)));
    assert!(rt; matches!(types.list.get(3), Some(LlvmType::Opaque)));
    assert!(rt; matches!(types.list.get(4), Some(LlvmType::Half)));
    assert!(rt; matches!(types.list.get(5), Some(LlvmType::Metadata)));
    assert!(rt;
        matches!(
            types.list.get(6),
            Some(LlvmType::Pointer { to: 8, space: 3 })
        )
    );
    assert!(rt;
        matches!(
            types.list.get(7),
            Some(LlvmType::Array { count: 64, of: 1 })
        )
    );
    assert!(rt;
        matches!(
            types.list.get(8),
            Some(LlvmType::Vector { count: 4, of: 0 })
        )
    );
    assert!(rt; is_struct(types.list.get(9), &[10, 0]));
    assert!(rt; is_struct(types.list.get(10), &[]));
    assert!(rt; is_function(types.list.get(11), true, 0, &[9, 8]));
    assert!(rt; matches!(types.list.get(12), Some(LlvmType::Void)));
    Ok(())
}

/// How many types the pieces state, or the first broken rule with its bit. Inside the module the first block is entered at bit 96, and the first record or end of that block stands at bit 160.
const RULES: [(&'static str, &'static [Piece], Result<usize, (u8, u64)>); 20] = [
    ("no types", &[Enter(8), End], Err((1, 96))),
    ("an empty table", &[Enter(8), Enter(17), End, End], Ok(0)),
    (
        "a second table",
        &[Enter(8), Enter(17), End, Enter(17), End, End],
        Err((1, 192)),
    ),
    (
        "constants behind the table",
        &[Enter(8), Enter(17), End, Enter(11), End, End],
        Ok(0),
    ),
    (
        "a code that is not listed",
        &[Enter(8), Enter(17), Record(9, &[]), End, End],
        Err((2, 160)),
    ),
    (
        "the next code",
        &[Enter(8), Enter(17), Record(10, &[]), End, End],
        Ok(1),
    ),
    (
        "a code behind the last",
        &[Enter(8), Enter(17), Record(22, &[0, 0]), End, End],
        Err((2, 160)),
    ),
    (
        "an integer without a width",
        &[Enter(8), Enter(17), Record(7, &[]), End, End],
        Err((3, 160)),
    ),
    (
        "an integer of no bits",
        &[Enter(8), Enter(17), Record(7, &[0]), End, End],
        Ok(1),
    ),
    (
        "a function without a result",
        &[Enter(8), Enter(17), Record(21, &[0]), End, End],
        Err((3, 160)),
    ),
    (
        "a structure without a flag",
        &[Enter(8), Enter(17), Record(18, &[]), End, End],
        Err((3, 160)),
    ),
    (
        "a pointer to no type, and a field is missing",
        &[Enter(8), Enter(17), Record(8, &[1]), End, End],
        Err((3, 160)),
    ),
    (
        "a pointer to no type",
        &[Enter(8), Enter(17), Record(8, &[1, 0]), End, End],
        Err((4, 160)),
    ),
    (
        "a pointer to itself",
        &[Enter(8), Enter(17), Record(8, &[0, 0]), End, End],
        Ok(1),
    ),
    (
        "a pointer to a later type",
        &[
            Enter(8),
            Enter(17),
            Record(8, &[1, 0]),
            Record(2, &[]),
            End,
            End,
        ],
        Ok(2),
    ),
    (
        "names take no number",
        &[
            Enter(8),
            Enter(17),
            Record(8, &[1, 0]),
            Record(19, &[]),
            End,
            End,
        ],
        Err((4, 160)),
    ),
    (
        "a type number of 2^32",
        &[Enter(8), Enter(17), Record(8, &[4294967296, 0]), End, End],
        Err((4, 160)),
    ),
    (
        "the last type of a structure, behind a record of 21 bits",
        &[
            Enter(8),
            Enter(17),
            Record(1, &[5]),
            Record(18, &[0, 0, 1]),
            End,
            End,
        ],
        Err((4, 181)),
    ),
    (
        "a code that is not listed behind a pointer to no type",
        &[
            Enter(8),
            Enter(17),
            Record(8, &[1, 0]),
            Record(9, &[]),
            End,
            End,
        ],
        Err((4, 160)),
    ),
    (
        "a type of the second table is counted",
        &[
            Enter(8),
            Enter(17),
            Record(8, &[1, 0]),
            End,
            Enter(17),
            Record(2, &[]),
            End,
            End,
        ],
        Err((1, 192)),
    ),
];

#[test]
fn refuses_the_first_broken_rule(rt: HostRuntime) -> Result<(), Fail> {
    for (name, pieces, wanted) in &RULES {
        assert_eq!(rt; count_of(rt.alloc(), pieces)?, answer(*wanted), "{name}");
    }
    Ok(())
}
