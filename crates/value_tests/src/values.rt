//! Values of small bitstreams, and ones that break a rule.

ghost use Rattle.std.specs.Prelude.{IfOk};
ghost use Rattle.bitstream_spelling.specs.Framed.{IsFramed};

use bitstream_pieces::Piece::{self, End, Enter, Record};
use bitstream_pieces::items_of;
use bitstream_spelling::Items;
use dx_base::{Fault, Rule};
use llvm_types::read_types;
use llvm_values::{check_values, count_bodies, count_values, list_values};
use std::alloc::Global;
use std::test::Fail;

/// The types i32, a pointer to it in space 3, void, a function of it, and a pointer to that.
const TYPES: [Piece; 7] = [
    Enter(17),
    Record(7, &[32]),
    Record(8, &[0, 3]),
    Record(2, &[]),
    Record(21, &[0, 2]),
    Record(8, &[3, 0]),
    End,
];

/// The items of a module with a table of these five types.
fn module(alloc: Global, head: &[Piece], pieces: &[Piece]) -> Result<Items, Fail>
    ensures { IfOk result (λ items. IsFramed items.list items.fields) }
{
    let mut whole = Vec::new(alloc);
    whole.push(Enter(8))?;
    whole.extend_from_slice(head)?;
    whole.extend_from_slice(&TYPES)?;
    whole.extend_from_slice(pieces)?;
    whole.push(End)?;
    Ok(items_of(alloc, &whole).ok().ok_or("no items")?)
}

fn check(alloc: Global, head: &[Piece], pieces: &[Piece]) -> Result<Result<(), Fault>, Fail> {
    let items = module(alloc, head, pieces)?;
    match read_types(alloc, &items) {
        Ok(types) => Ok(check_values(alloc, &items, &types)),
        Err(_) => Err("no types")?,
    }
}

/// The values of the pieces as text, and how many bodies there are.
fn values(alloc: Global, pieces: &[Piece]) -> Result<(Vec<String>, u32), Fail> {
    let items = module(alloc, VERSIONED, pieces)?;
    let Ok(types) = read_types(alloc, &items) else {
        return Err("no types")?;
    };
    let values = list_values(alloc, &items, &types)?;
    if count_values(alloc, &items)? as usize != values.len() {
        return Err("another count")?;
    }
    let mut lines = Vec::new(alloc);
    for value in values.as_slice() {
        lines.push(format!(in alloc; "{value:?}")?)?;
    }
    Ok((lines, count_bodies(alloc, &items)?))
}

const VERSIONED: &'static [Piece] = &[Record(1, &[1])];

/// No fault, or that of a broken rule.
fn answer(wanted: Result<(), (u8, u64)>) -> Result<(), Fault> {
    match wanted {
        Ok(()) => Ok(()),
        Err((rule, bit)) => Err(Fault::Refused {
            rule: Rule::M(rule),
            bit,
        }),
    }
}

/// What stands before the types and behind them, and the first broken rule with its bit.
const RULES: [(
    &'static str,
    &'static [Piece],
    &'static [Piece],
    Result<(), (u8, u64)>,
); 43] = [
    ("a version of 0", &[Record(1, &[0])], &[], Err((1, 96))),
    (
        "a version without a field",
        &[Record(1, &[])],
        &[],
        Err((1, 96)),
    ),
    ("no version", &[], &[], Err((1, 288))),
    (
        "the first version counts",
        VERSIONED,
        &[Record(1, &[0])],
        Ok(()),
    ),
    (
        "a version behind the types",
        &[],
        &[Record(1, &[1])],
        Ok(()),
    ),
    (
        "a record of code 0",
        VERSIONED,
        &[Record(0, &[])],
        Err((2, 320)),
    ),
    (
        "a record of code 9",
        VERSIONED,
        &[Record(9, &[1])],
        Err((2, 320)),
    ),
    (
        "a record of code 14",
        VERSIONED,
        &[Record(14, &[1])],
        Err((2, 320)),
    ),
    (
        "records that are passed over",
        VERSIONED,
        &[
            Record(2, &[]),
            Record(3, &[1]),
            Record(4, &[]),
            Record(5, &[]),
            Record(6, &[]),
            Record(10, &[]),
            Record(11, &[]),
            Record(12, &[]),
            Record(13, &[]),
        ],
        Ok(()),
    ),
    (
        "a variable of two fields",
        VERSIONED,
        &[Record(7, &[1, 0])],
        Err((3, 320)),
    ),
    (
        "a variable of three fields",
        VERSIONED,
        &[Record(7, &[1, 0, 0])],
        Ok(()),
    ),
    (
        "a function of two fields",
        VERSIONED,
        &[Record(8, &[3, 0])],
        Err((3, 320)),
    ),
    (
        "a variable of no type and of one field",
        VERSIONED,
        &[Record(7, &[5])],
        Err((3, 320)),
    ),
    (
        "a variable of a type that is no pointer",
        VERSIONED,
        &[Record(7, &[0, 0, 0])],
        Err((4, 320)),
    ),
    (
        "a variable of its own type",
        VERSIONED,
        &[Record(7, &[0, 2, 0])],
        Ok(()),
    ),
    (
        "a variable of its own type, which is none",
        VERSIONED,
        &[Record(7, &[5, 2, 0])],
        Err((4, 320)),
    ),
    (
        "a variable whose flag is the bit above",
        VERSIONED,
        &[Record(7, &[0, 4, 0])],
        Err((4, 320)),
    ),
    (
        "a variable of the type 2^32 + 1",
        VERSIONED,
        &[Record(7, &[4294967297, 0, 0])],
        Err((4, 320)),
    ),
    (
        "a function of a type that is none of a function",
        VERSIONED,
        &[Record(8, &[0, 0, 0])],
        Err((4, 320)),
    ),
    (
        "a function of a pointer to a number",
        VERSIONED,
        &[Record(8, &[1, 0, 0])],
        Err((4, 320)),
    ),
    (
        "a function of no type",
        VERSIONED,
        &[Record(8, &[5, 0, 0])],
        Err((4, 320)),
    ),
    (
        "functions by type and by pointer",
        VERSIONED,
        &[Record(8, &[3, 0, 0]), Record(8, &[4, 0, 1])],
        Ok(()),
    ),
    (
        "a SETTYPE without a field",
        VERSIONED,
        &[Enter(11), Record(1, &[]), End],
        Err((5, 384)),
    ),
    (
        "a SETTYPE to no type",
        VERSIONED,
        &[Enter(11), Record(1, &[5]), End],
        Err((5, 384)),
    ),
    (
        "a SETTYPE to the last type",
        VERSIONED,
        &[Enter(11), Record(1, &[4]), End],
        Ok(()),
    ),
    (
        "a SETTYPE of a body to no type",
        VERSIONED,
        &[Enter(12), Enter(11), Record(1, &[5]), End, End],
        Err((5, 448)),
    ),
    (
        "a number without a field",
        VERSIONED,
        &[Enter(11), Record(4, &[]), End],
        Err((5, 384)),
    ),
    (
        "a number before the first SETTYPE",
        VERSIONED,
        &[Enter(11), Record(4, &[2]), End],
        Ok(()),
    ),
    (
        "a number of no integer type",
        VERSIONED,
        &[Enter(11), Record(1, &[2]), Record(4, &[2]), End],
        Err((5, 405)),
    ),
    (
        "the type of a block before",
        VERSIONED,
        &[
            Enter(11),
            Record(1, &[2]),
            Record(2, &[]),
            End,
            Enter(11),
            Record(4, &[2]),
            End,
        ],
        Ok(()),
    ),
    (
        "a number of a body, of no integer type",
        VERSIONED,
        &[
            Enter(12),
            Enter(11),
            Record(1, &[2]),
            Record(4, &[2]),
            End,
            End,
        ],
        Err((5, 469)),
    ),
    (
        "the type of the module's constants in a body",
        VERSIONED,
        &[
            Enter(11),
            Record(1, &[2]),
            End,
            Enter(12),
            Enter(11),
            Record(4, &[2]),
            End,
            End,
        ],
        Ok(()),
    ),
    (
        "a variable behind a body",
        VERSIONED,
        &[Enter(12), End, Record(7, &[1, 0, 0])],
        Err((6, 416)),
    ),
    (
        "a function behind a body",
        VERSIONED,
        &[Enter(12), End, Record(8, &[3, 0, 1])],
        Err((6, 416)),
    ),
    (
        "a variable of one field behind a body",
        VERSIONED,
        &[Enter(12), End, Record(7, &[1])],
        Err((3, 416)),
    ),
    (
        "a constant behind a body, told where its block begins",
        VERSIONED,
        &[
            Enter(12),
            End,
            Enter(11),
            Record(1, &[0]),
            Record(2, &[]),
            End,
        ],
        Err((6, 416)),
    ),
    (
        "a block behind a body that numbers nothing",
        VERSIONED,
        &[
            Enter(12),
            End,
            Enter(11),
            Record(1, &[0]),
            End,
            Enter(11),
            End,
        ],
        Ok(()),
    ),
    (
        "a number behind an empty block behind a body",
        VERSIONED,
        &[
            Enter(12),
            End,
            Enter(11),
            End,
            Enter(12),
            Enter(11),
            Record(2, &[]),
            End,
            End,
        ],
        Ok(()),
    ),
    (
        "a SETTYPE to no type in a block that stands behind a body",
        VERSIONED,
        &[Enter(12), End, Enter(11), Record(1, &[5]), End],
        Err((5, 480)),
    ),
    (
        "a block of constants behind an instruction",
        VERSIONED,
        &[
            Enter(12),
            Record(1, &[1]),
            Record(10, &[]),
            Enter(11),
            End,
            End,
        ],
        Err((6, 420)),
    ),
    (
        "a block of constants behind the count of blocks and debug places",
        VERSIONED,
        &[
            Enter(12),
            Record(1, &[1]),
            Record(33, &[]),
            Record(35, &[1, 1]),
            Enter(11),
            Record(2, &[]),
            End,
            Record(10, &[]),
            End,
        ],
        Ok(()),
    ),
    (
        "a block of constants of the second body",
        VERSIONED,
        &[
            Enter(12),
            Record(1, &[1]),
            Record(10, &[]),
            End,
            Enter(12),
            Record(1, &[1]),
            Enter(11),
            Record(2, &[]),
            End,
            Record(10, &[]),
            End,
        ],
        Ok(()),
    ),
    (
        "the least bit counts",
        VERSIONED,
        &[Record(7, &[1, 0]), Record(0, &[])],
        Err((3, 320)),
    ),
];

#[test]
fn the_first_broken_rule_is_told(rt: HostRuntime) -> Result<(), Fail> {
    for (name, head, pieces, wanted) in &RULES {
        assert_eq!(rt; check(rt.alloc(), head, pieces)?, answer(*wanted), "{name}");
    }
    Ok(())
}

/// Pieces, and the values that they state.
const BY_NUMBER: [(&'static str, &'static [Piece], &'static [&'static str]); 5] = [
    (
        "variables",
        &[
            Record(7, &[1, 0, 0]),
            Record(7, &[0, 14, 3]),
            Record(7, &[0, 0, 1]),
            Record(7, &[1]),
            Record(7, &[9, 0, 0]),
            Record(7, &[]),
            Record(7, &[4294967297, 2, 4294967297]),
        ],
        &[
            "Variable { ty: 0, space: 3, init: None, bit: 320 }",
            "Variable { ty: 0, space: 3, init: Some(2), bit: 353 }",
            "Variable { ty: 0, space: 0, init: Some(0), bit: 386 }",
            "Variable { ty: 0, space: 3, init: None, bit: 419 }",
            "Variable { ty: 9, space: 0, init: None, bit: 440 }",
            "Variable { ty: 0, space: 0, init: None, bit: 473 }",
            "Variable { ty: 1, space: 0, init: Some(0), bit: 488 }",
        ],
    ),
    (
        "a function behind a symbol that has no field",
        &[
            Enter(14),
            Record(1, &[]),
            Record(1, &[0, 100]),
            End,
            Record(8, &[4, 0, 0]),
        ],
        &["Function { ty: 3, body: Some(0), name: List { items: [100] }, bit: 448 }"],
    ),
    (
        "functions, with names that stand before and behind",
        &[
            Enter(14),
            Record(1, &[1, 97, 98]),
            Record(2, &[0, 99]),
            End,
            Record(8, &[4, 0, 0]),
            Record(8, &[3, 0, 1]),
            Record(8, &[3, 0]),
            Record(8, &[1, 0, 0]),
            Enter(14),
            Record(1, &[1, 99]),
            Record(1, &[0]),
            Record(1, &[0, 100]),
            Record(1, &[4294967298, 357]),
            End,
        ],
        &[
            "Function { ty: 3, body: Some(0), name: List { items: [] }, bit: 480 }",
            "Function { ty: 3, body: None, name: List { items: [97, 98] }, bit: 513 }",
            "Function { ty: 3, body: Some(1), name: List { items: [101] }, bit: 546 }",
            "Function { ty: 0, body: Some(2), name: List { items: [] }, bit: 573 }",
        ],
    ),
    (
        "constants",
        &[
            Enter(11),
            Record(2, &[]),
            Record(1, &[4294967297]),
            Record(2, &[]),
            Record(3, &[]),
            Record(4, &[0]),
            Record(4, &[1]),
            Record(4, &[2]),
            Record(4, &[3]),
            Record(4, &[5]),
            Record(4, &[18446744073709551615]),
            Record(4, &[18446744073709551614]),
            Record(4, &[]),
            Record(12, &[7, 1, 5, 2, 6]),
            Record(20, &[1, 4294967301]),
            Record(20, &[]),
            Record(12, &[4294967303]),
            Record(5, &[1]),
            End,
            Enter(11),
            Record(0, &[]),
            Record(1, &[0]),
            Record(2, &[]),
            End,
        ],
        &[
            "Constant { ty: None, kind: Null, bit: 384 }",
            "Constant { ty: Some(1), kind: Null, bit: 456 }",
            "Constant { ty: Some(1), kind: Undef, bit: 471 }",
            "Constant { ty: Some(1), kind: Integer(0), bit: 486 }",
            "Constant { ty: Some(1), kind: Integer(-9223372036854775808), bit: 507 }",
            "Constant { ty: Some(1), kind: Integer(1), bit: 528 }",
            "Constant { ty: Some(1), kind: Integer(-1), bit: 549 }",
            "Constant { ty: Some(1), kind: Integer(-2), bit: 570 }",
            "Constant { ty: Some(1), kind: Integer(-9223372036854775807), bit: 591 }",
            "Constant { ty: Some(1), kind: Integer(9223372036854775807), bit: 684 }",
            "Constant { ty: Some(1), kind: Integer(0), bit: 777 }",
            "Constant { ty: Some(1), kind: Gep { source: Some(7), args: List { items: [(1, 5), (2, 6)] } }, bit: 792 }",
            "Constant { ty: Some(1), kind: Gep { source: None, args: List { items: [(1, 5)] } }, bit: 837 }",
            "Constant { ty: Some(1), kind: Gep { source: None, args: List { items: [] } }, bit: 900 }",
            "Constant { ty: Some(1), kind: Gep { source: Some(7), args: List { items: [] } }, bit: 915 }",
            "Constant { ty: Some(1), kind: Other, bit: 972 }",
            "Constant { ty: None, kind: Other, bit: 1088 }",
            "Constant { ty: Some(0), kind: Null, bit: 1124 }",
        ],
    ),
    (
        "in record order, and those of a body aside",
        &[
            Enter(11),
            Record(2, &[]),
            End,
            Record(8, &[3, 0, 0]),
            Enter(12),
            Enter(11),
            Record(2, &[]),
            End,
            End,
            Record(7, &[1, 0, 1]),
            Enter(11),
            Record(3, &[]),
            End,
        ],
        &[
            "Constant { ty: None, kind: Null, bit: 384 }",
            "Function { ty: 3, body: Some(0), name: List { items: [] }, bit: 416 }",
            "Variable { ty: 0, space: 3, init: Some(0), bit: 640 }",
            "Constant { ty: None, kind: Undef, bit: 736 }",
        ],
    ),
];

#[test]
fn values_stand_by_number(rt: HostRuntime) -> Result<(), Fail> {
    for (name, pieces, wanted) in &BY_NUMBER {
        let (lines, _) = values(rt.alloc(), pieces)?;
        assert_eq!(rt; lines.len(), wanted.len(), "{name}");
        for (line, text) in lines.iter().zip(*wanted) {
            assert_eq!(rt; line.as_str(), *text, "{name}");
        }
    }
    Ok(())
}

#[test]
fn bodies_are_counted(rt: HostRuntime) -> Result<(), Fail> {
    let pieces = [
        Record(8, &[3, 0, 0]),
        Record(8, &[3, 0, 1]),
        Record(8, &[3, 0]),
        Record(7, &[0, 2, 0]),
        Enter(12),
        Record(8, &[3, 0, 0]),
        End,
    ];
    let (_, bodies) = values(rt.alloc(), pieces.as_slice())?;
    assert_eq!(rt; bodies, 2);
    Ok(())
}
