//! Facts of a small shader, and of ones that break a rule.

use dx_base::{Bytes, Fault, List, Numbers, Rule};
use dxil_form::Class;
use llvm_facts::{Facts, Row, shader_facts};
use llvm_nodes::{Meta, MetaItem, Named};
use llvm_types::{LlvmType, Types};
use llvm_values::{ConstKind, Global as Value, GlobalList};
use std::alloc::Global;
use std::test::Fail;

/// A record with its number; a constant or a function is a value of the module too.
#[derive(Clone, Copy)]
enum Entry {
    Text(u32, &'static [u8]),
    /// An `i32` constant.
    Int(u32, i64),
    /// A constant of a type, by the type's number.
    Of(u32, u32, i64),
    /// A constant before any type was set.
    Untyped(u32, i64),
    Null(u32, u32),
    Undef(u32, u32),
    /// A function of a type, with the body 3.
    Function(u32, u32),
    /// A function of a type without a body.
    Declared(u32, u32),
    /// The numbers of records plus one, with 0 for null.
    Node(u32, &'static [u32]),
}

use Entry::{Declared, Function, Int, Node, Null, Of, Text, Undef, Untyped};

/// A named node with the numbers of its records.
#[derive(Clone, Copy)]
enum Root {
    Model(&'static [u32]),
    Points(&'static [u32]),
    Other(&'static [u8], &'static [u32]),
}

use Root::{Model, Other, Points};

const VOID: u32 = 0;

const ENTRY: u32 = 1;

const I32: u32 = 2;

const I1: u32 = 3;

const I3: u32 = 4;

const I64: u32 = 5;

const TAKES_I32: u32 = 6;

const GIVES_I32: u32 = 7;

const VARIADIC: u32 = 8;

const I4096: u32 = 9;

const POINTER: u32 = 10;

/// The record with number i stands at bit 100 + 10 * i.
const RECORDS: [Entry; 26] = [
    Text(0, b"cs"),
    Int(1, 6),
    Int(2, 0),
    Node(3, &[1, 2, 3]),
    Function(4, ENTRY),
    Text(5, b"main"),
    Int(6, 4),
    Int(7, 8),
    Int(8, 16),
    Int(9, 2),
    Node(10, &[8, 9, 10]),
    Node(11, &[7, 11]),
    Node(12, &[5, 6, 0, 26, 12]),
    Int(13, 0),
    Int(14, 1),
    Int(15, 11),
    Int(16, 12),
    Of(17, I1, 1),
    Node(18, &[15, 7]),
    Node(19, &[14, 0, 0, 14, 14, 15, 17, 14, 19]),
    Node(20, &[14, 0, 0, 14, 15, 15, 16, 18, 18, 18, 0]),
    Node(21, &[15, 0, 0, 14, 14, 15, 17, 0]),
    Node(22, &[20]),
    Node(23, &[21]),
    Node(24, &[22]),
    Node(25, &[23, 24, 25, 0]),
];

/// Records that stand in place of those above, and further ones up to number 29.
type Changes = &'static [Entry];

/// The named node with place i stands at bit 1000 + 10 * i, and the module ends at bit 2000.
type Roots = &'static [Root];

const ROOTS: Roots = &[Model(&[3]), Points(&[12])];

fn bytes(alloc: Global, text: &[u8]) -> Result<Bytes, Fail> {
    let mut list = List::new(alloc);
    for byte in text {
        list.push(*byte).ok().ok_or("no memory")?;
    }
    Ok(list)
}

fn numbers(alloc: Global, ids: &[u32]) -> Result<Numbers, Fail> {
    let mut list = List::new(alloc);
    for id in ids {
        list.push(*id).ok().ok_or("no memory")?;
    }
    Ok(list)
}

fn function(alloc: Global, vararg: bool, ret: u32, params: &[u32]) -> Result<LlvmType, Fail> {
    Ok(LlvmType::Function {
        vararg,
        ret,
        params: numbers(alloc, params)?,
    })
}

/// The types by the numbers above.
fn types(alloc: Global) -> Result<Types, Fail> {
    let mut list = List::new(alloc);
    list.push(LlvmType::Void).ok().ok_or("no memory")?;
    list.push(function(alloc, false, VOID, &[])?)
        .ok()
        .ok_or("no memory")?;
    for width in [32, 1, 3, 64] {
        list.push(LlvmType::Integer(width)).ok().ok_or("no memory")?;
    }
    list.push(function(alloc, false, VOID, &[I32])?)
        .ok()
        .ok_or("no memory")?;
    list.push(function(alloc, false, I32, &[])?)
        .ok()
        .ok_or("no memory")?;
    list.push(function(alloc, true, VOID, &[])?)
        .ok()
        .ok_or("no memory")?;
    list.push(LlvmType::Integer(4096)).ok().ok_or("no memory")?;
    let pointer = LlvmType::Pointer {
        to: ENTRY,
        space: 0,
    };
    list.push(pointer).ok().ok_or("no memory")?;
    Ok(Types { list })
}

fn constant(ty: Option<u32>, kind: ConstKind) -> Value {
    Value::Constant { ty, kind, bit: 0 }
}

/// The value that a record names, if it names one.
fn value(alloc: Global, entry: Entry) -> Option<Value> {
    let (ty, body) = match entry {
        Text(_, _) => return None,
        Node(_, _) => return None,
        Int(_, number) => return Some(constant(Some(I32), ConstKind::Integer(number))),
        Of(_, ty, number) => return Some(constant(Some(ty), ConstKind::Integer(number))),
        Untyped(_, number) => return Some(constant(None, ConstKind::Integer(number))),
        Null(_, ty) => return Some(constant(Some(ty), ConstKind::Null)),
        Undef(_, ty) => return Some(constant(Some(ty), ConstKind::Undef)),
        Function(_, ty) => (ty, Some(3)),
        Declared(_, ty) => (ty, None),
    };
    Some(Value::Function {
        ty,
        body,
        name: List::new(alloc),
        bit: 0,
    })
}

/// The record, whose value is added to those of the module.
fn item(alloc: Global, entry: Entry, values: &mut GlobalList) -> Result<MetaItem, Fail> {
    match entry {
        Text(_, text) => Ok(MetaItem::Text(bytes(alloc, text)?)),
        Node(_, ids) => Ok(MetaItem::Node(numbers(alloc, ids)?)),
        _ => {
            let place = u32::try_from(values.len()).ok().ok_or("many values")?;
            let value = value(alloc, entry).ok_or("no value")?;
            values.push(value).ok().ok_or("no memory")?;
            Ok(MetaItem::Value {
                ty: VOID,
                value: place,
            })
        }
    }
}

fn number_of(entry: Entry) -> u32 {
    match entry {
        Text(number, _) => number,
        Int(number, _) => number,
        Of(number, _, _) => number,
        Untyped(number, _) => number,
        Null(number, _) => number,
        Undef(number, _) => number,
        Function(number, _) => number,
        Declared(number, _) => number,
        Node(number, _) => number,
    }
}

/// The record with a number, which a change may replace.
fn record(number: u32, changes: Changes) -> Entry {
    for change in changes {
        if number_of(*change) == number {
            return *change;
        }
    }
    RECORDS
        .get(number as usize)
        .copied()
        .unwrap_or(Int(number, 0))
}

fn named(alloc: Global, root: Root, bit: u64) -> Result<Named, Fail> {
    let (name, nodes) = match root {
        Model(nodes) => (bytes(alloc, b"dx.shaderModel")?, nodes),
        Points(nodes) => (bytes(alloc, b"dx.entryPoints")?, nodes),
        Other(name, nodes) => (bytes(alloc, name)?, nodes),
    };
    Ok(Named {
        name,
        nodes: numbers(alloc, nodes)?,
        bit,
    })
}

/// The facts of the records with these changes and of these roots.
fn facts(alloc: Global, changes: Changes, roots: Roots) -> Result<Result<Facts, Fault>, Fail> {
    let mut meta = Meta {
        list: List::new(alloc),
        bits: List::new(alloc),
        named: List::new(alloc),
        end: 2000,
    };
    let mut values = List::new(alloc);
    for number in 0..30u32 {
        let made = item(alloc, record(number, changes), &mut values)?;
        meta.list.push(made).ok().ok_or("no memory")?;
        meta.bits
            .push(100 + 10 * u64::from(number))
            .ok()
            .ok_or("no memory")?;
    }
    let mut bit = 1000u64;
    for root in roots {
        meta.named
            .push(named(alloc, *root, bit)?)
            .ok()
            .ok_or("no memory")?;
        bit = bit.saturating_add(10);
    }
    Ok(shader_facts(alloc, &meta, &types(alloc)?, &values))
}

/// The fault of the records with these changes and of these roots, if there is one.
fn fault(alloc: Global, changes: Changes, roots: Roots) -> Result<Option<Fault>, Fail> {
    Ok(facts(alloc, changes, roots)?.err())
}

/// A name, the records and roots, and the first broken rule with its bit, if one is broken.
type Case = (&'static str, Changes, Roots, Option<(u8, u64)>);

/// The fault of a broken rule.
fn broken(wanted: Option<(u8, u64)>) -> Option<Fault> {
    match wanted {
        Some((rule, bit)) => Some(Fault::Refused {
            rule: Rule::N(rule),
            bit,
        }),
        None => None,
    }
}

#[test]
fn facts_of_a_shader_with_three_resources(rt: HostRuntime) -> Result<(), Fail> {
    let facts = facts(rt.alloc(), &[], ROOTS)?.ok().ok_or("refused")?;
    assert_eq!(rt; facts.body, 3);
    assert_eq!(rt; facts.local, [8, 16, 2]);
    let rows = [
        Row {
            class: Class::Srv,
            id: 0,
            space: 0,
            lower: 0,
            range: 1,
            kind: 12,
            size: 4,
            ordered: false,
        },
        Row {
            class: Class::Uav,
            id: 0,
            space: 0,
            lower: 1,
            range: 1,
            kind: 11,
            size: 0,
            ordered: true,
        },
        Row {
            class: Class::Cbv,
            id: 1,
            space: 0,
            lower: 0,
            range: 1,
            kind: 13,
            size: 12,
            ordered: false,
        },
    ];
    assert_eq!(rt; facts.rows.as_slice(), rows.as_slice());
    Ok(())
}

#[test]
fn facts_without_resources(rt: HostRuntime) -> Result<(), Fail> {
    let facts = facts(rt.alloc(), &[Node(12, &[5, 6, 0, 0, 12])], ROOTS)?
        .ok()
        .ok_or("refused")?;
    assert_eq!(rt; facts.rows.len(), 0);
    Ok(())
}

const ROOT_CASES: [Case; 37] = [
    ("no roots", &[], &[], Some((5, 2000))),
    ("no shader model", &[], &[Points(&[12])], Some((5, 2000))),
    (
        "a name that is longer",
        &[],
        &[Other(b"dx.shaderModels", &[3]), Points(&[12])],
        Some((5, 2000)),
    ),
    (
        "two shader models",
        &[],
        &[Model(&[3]), Points(&[12]), Model(&[3])],
        Some((5, 1020)),
    ),
    (
        "a shader model that is not formed, and a second one",
        &[],
        &[Model(&[12]), Model(&[3]), Points(&[12])],
        Some((5, 1000)),
    ),
    (
        "a shader model of two nodes",
        &[],
        &[Model(&[3, 3]), Points(&[12])],
        Some((5, 1000)),
    ),
    (
        "a shader model of no node",
        &[],
        &[Model(&[]), Points(&[12])],
        Some((5, 1000)),
    ),
    (
        "a shader model that is a text",
        &[],
        &[Model(&[0]), Points(&[12])],
        Some((5, 1000)),
    ),
    (
        "other names between the roots",
        &[],
        &[
            Other(b"n", &[]),
            Points(&[12]),
            Other(b"n", &[]),
            Model(&[3]),
        ],
        None,
    ),
    ("a pixel shader", &[Text(0, b"ps")], ROOTS, Some((5, 1000))),
    (
        "a text that is longer",
        &[Text(0, b"cs6")],
        ROOTS,
        Some((5, 1000)),
    ),
    ("major 7", &[Int(1, 7)], ROOTS, Some((5, 1000))),
    ("major of 64 bits", &[Of(1, I64, 6)], ROOTS, None),
    ("major of three bits", &[Of(1, I3, -2)], ROOTS, None),
    ("major of 4096 bits", &[Of(1, I4096, 6)], ROOTS, None),
    (
        "major of a pointer type",
        &[Of(1, POINTER, 6)],
        ROOTS,
        Some((5, 1000)),
    ),
    ("minor 2", &[Int(2, 2)], ROOTS, None),
    ("minor 3", &[Int(2, 3)], ROOTS, Some((5, 1000))),
    ("minor below 0", &[Of(2, I4096, -1)], ROOTS, Some((5, 1000))),
    (
        "minor that is null as a constant",
        &[Null(2, I32)],
        ROOTS,
        None,
    ),
    (
        "minor that is undefined",
        &[Undef(2, I32)],
        ROOTS,
        Some((5, 1000)),
    ),
    (
        "minor that is null as a field",
        &[Node(3, &[1, 2, 0])],
        ROOTS,
        Some((5, 1000)),
    ),
    (
        "a model of four fields",
        &[Node(3, &[1, 2, 3, 3])],
        ROOTS,
        Some((5, 1000)),
    ),
    (
        "a model of two fields",
        &[Node(3, &[1, 2])],
        ROOTS,
        Some((5, 1000)),
    ),
    ("no entry points", &[], &[Model(&[3])], Some((6, 2000))),
    (
        "two entry points",
        &[],
        &[Model(&[3]), Points(&[12]), Points(&[12])],
        Some((6, 1020)),
    ),
    (
        "an entry point that is not formed behind one that is",
        &[],
        &[Points(&[0]), Model(&[3]), Points(&[12])],
        Some((6, 1000)),
    ),
    (
        "entry points of two nodes",
        &[],
        &[Model(&[3]), Points(&[12, 12])],
        Some((6, 1010)),
    ),
    (
        "an entry node of four fields",
        &[Node(12, &[5, 6, 0, 26])],
        ROOTS,
        Some((6, 1010)),
    ),
    (
        "an entry node of six fields",
        &[Node(12, &[5, 6, 0, 26, 12, 0])],
        ROOTS,
        None,
    ),
    (
        "an entry without a function",
        &[Node(12, &[0, 6, 0, 26, 12])],
        ROOTS,
        Some((6, 1010)),
    ),
    (
        "a constant as entry",
        &[Null(4, I32)],
        ROOTS,
        Some((6, 1010)),
    ),
    (
        "a function without a body",
        &[Declared(4, ENTRY)],
        ROOTS,
        Some((6, 1010)),
    ),
    (
        "a function with a parameter",
        &[Function(4, TAKES_I32)],
        ROOTS,
        Some((6, 1010)),
    ),
    (
        "a function with a result",
        &[Function(4, GIVES_I32)],
        ROOTS,
        Some((6, 1010)),
    ),
    (
        "a variadic function",
        &[Function(4, VARIADIC)],
        ROOTS,
        Some((6, 1010)),
    ),
    (
        "a function of a pointer type",
        &[Function(4, POINTER)],
        ROOTS,
        Some((6, 1010)),
    ),
];

#[test]
fn refuses_a_root_at_fault(rt: HostRuntime) -> Result<(), Fail> {
    for (name, changes, roots, wanted) in &ROOT_CASES {
        assert_eq!(rt;
            fault(rt.alloc(), changes, roots)?,
            broken(*wanted),
            "{name}"
        );
    }
    Ok(())
}

const ENTRY_CASES: [Case; 20] = [
    (
        "no properties",
        &[Node(12, &[5, 6, 0, 26, 0])],
        ROOTS,
        Some((7, 220)),
    ),
    (
        "properties that are a text",
        &[Node(12, &[5, 6, 0, 26, 1])],
        ROOTS,
        Some((7, 220)),
    ),
    (
        "properties without a pair",
        &[Node(11, &[])],
        ROOTS,
        Some((7, 220)),
    ),
    ("a tag of 64 bits", &[Of(6, I64, 4)], ROOTS, Some((7, 220))),
    (
        "a tag before any type was set",
        &[Untyped(6, 4)],
        ROOTS,
        None,
    ),
    (
        "a tag that counts modulo 2^32",
        &[Int(6, 4294967300)],
        ROOTS,
        None,
    ),
    ("the next tag", &[Int(6, 5)], ROOTS, Some((7, 220))),
    (
        "a tag that is null",
        &[Node(11, &[7, 11, 0, 11])],
        ROOTS,
        Some((7, 220)),
    ),
    (
        "another tag of 64 bits",
        &[Node(11, &[7, 11, 27, 11]), Of(26, I64, 1)],
        ROOTS,
        Some((7, 220)),
    ),
    (
        "another tag whose value is null",
        &[Node(11, &[15, 0, 7, 11])],
        ROOTS,
        None,
    ),
    (
        "two tags 4",
        &[Node(11, &[7, 11, 7, 11])],
        ROOTS,
        Some((7, 220)),
    ),
    (
        "a field behind the last pair",
        &[Node(11, &[7, 11, 7])],
        ROOTS,
        Some((7, 220)),
    ),
    ("the tag alone", &[Node(11, &[7])], ROOTS, Some((7, 220))),
    (
        "counts that are null",
        &[Node(11, &[7, 0])],
        ROOTS,
        Some((7, 220)),
    ),
    (
        "counts that are a constant",
        &[Node(11, &[7, 8])],
        ROOTS,
        Some((7, 220)),
    ),
    ("two counts", &[Node(10, &[8, 9])], ROOTS, Some((7, 220))),
    (
        "four counts",
        &[Node(10, &[8, 9, 10, 10])],
        ROOTS,
        Some((7, 220)),
    ),
    (
        "a count of 64 bits",
        &[Of(9, I64, 2)],
        ROOTS,
        Some((7, 220)),
    ),
    (
        "a count that is undefined",
        &[Undef(7, I32)],
        ROOTS,
        Some((7, 220)),
    ),
    (
        "a count that is null as a field",
        &[Node(10, &[0, 9, 10])],
        ROOTS,
        Some((7, 220)),
    ),
];

#[test]
fn refuses_an_entry_node_at_fault(rt: HostRuntime) -> Result<(), Fail> {
    for (name, changes, roots, wanted) in &ENTRY_CASES {
        assert_eq!(rt;
            fault(rt.alloc(), changes, roots)?,
            broken(*wanted),
            "{name}"
        );
    }
    Ok(())
}

const COUNT_CASES: [Case; 14] = [
    ("a first count of 0", &[Int(7, 0)], ROOTS, Some((8, 200))),
    (
        "a first count that is null as a constant",
        &[Null(7, I32)],
        ROOTS,
        Some((8, 200)),
    ),
    ("a second count of 0", &[Int(8, 0)], ROOTS, Some((8, 200))),
    (
        "a second count that is null as a constant",
        &[Null(8, I32)],
        ROOTS,
        Some((8, 200)),
    ),
    ("a third count of 0", &[Int(9, 0)], ROOTS, Some((8, 200))),
    (
        "a third count that is null as a constant",
        &[Null(9, I32)],
        ROOTS,
        Some((8, 200)),
    ),
    (
        "a first count of 1024",
        &[Int(7, 1024), Int(8, 1), Int(9, 1)],
        ROOTS,
        None,
    ),
    (
        "a first count of 1025",
        &[Int(7, 1025), Int(8, 1), Int(9, 1)],
        ROOTS,
        Some((8, 200)),
    ),
    (
        "a second count of 1024",
        &[Int(7, 1), Int(8, 1024), Int(9, 1)],
        ROOTS,
        None,
    ),
    (
        "a second count of 1025",
        &[Int(7, 1), Int(8, 1025), Int(9, 1)],
        ROOTS,
        Some((8, 200)),
    ),
    (
        "a third count of 64",
        &[Int(7, 1), Int(8, 16), Int(9, 64)],
        ROOTS,
        None,
    ),
    (
        "a third count of 65",
        &[Int(7, 1), Int(8, 1), Int(9, 65)],
        ROOTS,
        Some((8, 200)),
    ),
    ("a product above 1024", &[Int(9, 9)], ROOTS, Some((8, 200))),
    ("counts below 0", &[Int(7, -1)], ROOTS, Some((8, 200))),
];

#[test]
fn refuses_thread_counts(rt: HostRuntime) -> Result<(), Fail> {
    for (name, changes, roots, wanted) in &COUNT_CASES {
        assert_eq!(rt;
            fault(rt.alloc(), changes, roots)?,
            broken(*wanted),
            "{name}"
        );
    }
    Ok(())
}

const ROW_CASES: [Case; 34] = [
    (
        "lists that are a text",
        &[Node(12, &[5, 6, 0, 1, 12])],
        ROOTS,
        Some((9, 220)),
    ),
    (
        "three lists",
        &[Node(25, &[23, 24, 25])],
        ROOTS,
        Some((9, 220)),
    ),
    (
        "five lists",
        &[Node(25, &[23, 24, 25, 0, 0])],
        ROOTS,
        Some((9, 220)),
    ),
    (
        "lists that are null",
        &[Node(25, &[0, 0, 0, 0])],
        ROOTS,
        None,
    ),
    ("samplers", &[Node(25, &[23, 24, 25, 23])], ROOTS, None),
    (
        "a list that is a text",
        &[Node(25, &[23, 24, 25, 1])],
        ROOTS,
        Some((9, 220)),
    ),
    (
        "a row that is null",
        &[Node(22, &[0])],
        ROOTS,
        Some((9, 220)),
    ),
    (
        "a row that is a text",
        &[Node(22, &[1])],
        ROOTS,
        Some((9, 100)),
    ),
    (
        "an SRV of eight fields",
        &[Node(19, &[14, 0, 0, 14, 14, 15, 16, 14])],
        ROOTS,
        Some((9, 290)),
    ),
    (
        "a UAV of ten fields",
        &[Node(20, &[14, 0, 0, 14, 15, 15, 16, 18, 18, 18])],
        ROOTS,
        Some((9, 300)),
    ),
    (
        "a constant buffer of seven fields",
        &[Node(21, &[15, 0, 0, 14, 14, 15, 17])],
        ROOTS,
        Some((9, 310)),
    ),
    (
        "a row without an id",
        &[Node(19, &[0, 0, 0, 14, 14, 15, 16, 14, 0])],
        ROOTS,
        Some((9, 290)),
    ),
    (
        "a row without a space",
        &[Node(19, &[14, 0, 0, 0, 14, 15, 16, 14, 0])],
        ROOTS,
        Some((9, 290)),
    ),
    (
        "a row without a lower bound",
        &[Node(19, &[14, 0, 0, 14, 0, 15, 16, 14, 0])],
        ROOTS,
        Some((9, 290)),
    ),
    (
        "a row without a range size",
        &[Node(19, &[14, 0, 0, 14, 14, 0, 16, 14, 0])],
        ROOTS,
        Some((9, 290)),
    ),
    (
        "a row without a kind",
        &[Node(19, &[14, 0, 0, 14, 14, 15, 0, 14, 0])],
        ROOTS,
        Some((9, 290)),
    ),
    (
        "a constant buffer without a size",
        &[Node(21, &[15, 0, 0, 14, 14, 15, 1, 0])],
        ROOTS,
        Some((9, 310)),
    ),
    ("a row twice", &[Node(22, &[20, 20])], ROOTS, Some((9, 290))),
    (
        "an id of an earlier row",
        &[
            Node(22, &[20, 27]),
            Node(26, &[29, 0, 0, 14, 14, 15, 16, 14, 0]),
            Int(28, 4294967296),
        ],
        ROOTS,
        Some((9, 360)),
    ),
    (
        "an id of an earlier row that is at fault itself",
        &[Node(22, &[27, 20]), Node(26, &[14])],
        ROOTS,
        Some((9, 290)),
    ),
    (
        "two rows of two ids",
        &[
            Node(22, &[20, 27]),
            Node(26, &[15, 0, 0, 14, 14, 15, 16, 14, 0]),
        ],
        ROOTS,
        None,
    ),
    (
        "a UAV whose order is an i32",
        &[Node(20, &[14, 0, 0, 14, 15, 15, 16, 18, 18, 14, 0])],
        ROOTS,
        Some((9, 300)),
    ),
    (
        "a UAV whose order is null as a constant",
        &[Null(17, I1)],
        ROOTS,
        None,
    ),
    (
        "a structured buffer without tags",
        &[Node(19, &[14, 0, 0, 14, 14, 15, 17, 14, 0])],
        ROOTS,
        Some((9, 290)),
    ),
    (
        "a raw buffer without tags",
        &[Node(19, &[14, 0, 0, 14, 14, 15, 16, 14, 0])],
        ROOTS,
        None,
    ),
    (
        "a structured UAV without tags",
        &[Node(20, &[14, 0, 0, 14, 15, 15, 17, 18, 18, 18, 0])],
        ROOTS,
        Some((9, 300)),
    ),
    (
        "a structured UAV with tags",
        &[Node(20, &[14, 0, 0, 14, 15, 15, 17, 18, 18, 18, 19])],
        ROOTS,
        None,
    ),
    (
        "tags without a stride",
        &[Node(18, &[7, 7])],
        ROOTS,
        Some((9, 290)),
    ),
    (
        "a first stride that is null",
        &[Node(18, &[15, 0, 15, 7])],
        ROOTS,
        Some((9, 290)),
    ),
    (
        "a second stride that is null",
        &[Node(18, &[15, 7, 15, 0])],
        ROOTS,
        None,
    ),
    (
        "a tag of no constant before the stride",
        &[Node(18, &[0, 0, 15, 7])],
        ROOTS,
        None,
    ),
    (
        "rows of two lists at fault",
        &[Node(19, &[14]), Node(20, &[14])],
        ROOTS,
        Some((9, 290)),
    ),
    (
        "the later list at the lesser bit",
        &[Node(22, &[22]), Node(20, &[14])],
        ROOTS,
        Some((9, 300)),
    ),
    (
        "rows of three lists at fault",
        &[Node(25, &[23, 24, 25]), Node(19, &[14])],
        ROOTS,
        Some((9, 220)),
    ),
];

#[test]
fn refuses_a_row_at_fault(rt: HostRuntime) -> Result<(), Fail> {
    for (name, changes, roots, wanted) in &ROW_CASES {
        assert_eq!(rt;
            fault(rt.alloc(), changes, roots)?,
            broken(*wanted),
            "{name}"
        );
    }
    Ok(())
}
