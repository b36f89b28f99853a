//! One shader read layer by layer.

use bitstream_pieces::Piece::{self, End, Enter, Record};
use bitstream_pieces::items_of;
use dxil_form::Class;
use llvm_metadata::{Facts, Meta, MetaItem, Named, Row, read_metadata, shader_facts};
use llvm_records::{Body, ConstKind, Global as Value, Line, Records, read_module_records};
use llvm_types::{LlvmType, Types, read_types};
use std::test::Fail;

/// A compute shader of 8, 4 and 1 threads with one raw buffer that can be written, whose body is a return. Its types are `void`, `void ()`, `i32`, a pointer
/// to the second, and `i1`; its values are the function, the numbers 6, 0, 4, 8, 1 and 11, and false.
const SHADER: [Piece; 50] = [
    Enter(8),
    Record(1, &[1]),
    Enter(17),
    Record(1, &[5]),
    Record(2, &[]),
    Record(21, &[0, 0]),
    Record(7, &[32]),
    Record(8, &[1, 0]),
    Record(7, &[1]),
    End,
    Record(8, &[1, 0, 0, 0]),
    Enter(11),
    Record(1, &[2]),
    Record(4, &[12]),
    Record(4, &[0]),
    Record(4, &[8]),
    Record(4, &[16]),
    Record(4, &[2]),
    Record(4, &[22]),
    Record(1, &[4]),
    Record(4, &[0]),
    End,
    Enter(15),
    Record(1, &[99, 115]),
    Record(2, &[2, 1]),
    Record(2, &[2, 2]),
    Record(3, &[1, 2, 3]),
    Record(2, &[3, 0]),
    Record(1, &[109, 97, 105, 110]),
    Record(2, &[2, 3]),
    Record(2, &[2, 4]),
    Record(2, &[2, 5]),
    Record(3, &[8, 7, 9]),
    Record(3, &[7, 10]),
    Record(2, &[2, 6]),
    Record(2, &[4, 7]),
    Record(3, &[3, 0, 0, 3, 3, 9, 12, 13, 13, 13, 0]),
    Record(3, &[14]),
    Record(3, &[0, 15, 0, 0]),
    Record(3, &[5, 6, 0, 16, 11]),
    Record(
        4,
        &[
            100, 120, 46, 115, 104, 97, 100, 101, 114, 77, 111, 100, 101, 108,
        ],
    ),
    Record(10, &[3]),
    Record(
        4,
        &[
            100, 120, 46, 101, 110, 116, 114, 121, 80, 111, 105, 110, 116, 115,
        ],
    ),
    Record(10, &[16]),
    End,
    Enter(12),
    Record(1, &[1]),
    Record(10, &[]),
    End,
    End,
];

fn are_its_types(types: &Types) -> bool {
    types.list.len() == 5
        && matches!(
            types.list.get(1),
            Some(LlvmType::Function {
                vararg: false,
                ret: 0,
                ..
            })
        )
        && matches!(
            types.list.get(3),
            Some(LlvmType::Pointer { to: 1, space: 0 })
        )
        && matches!(types.list.get(4), Some(LlvmType::Integer(1)))
}

fn is_the_return(line: &Line) -> bool {
    line.block == 0 && line.value.is_none() && line.code == 10 && line.numbers.len() == 0
}

fn is_its_body(body: &Body) -> bool {
    body.blocks == 1
        && body.values == 8
        && body.constants.len() == 0
        && body.lines.len() == 1
        && body.lines.as_slice().iter().all(is_the_return)
}

fn are_its_records(records: &Records) -> bool {
    records.globals.len() == 8
        && matches!(
            records.globals.get(0),
            Some(Value::Function {
                ty: 1,
                body: Some(0),
                ..
            })
        )
        && matches!(
            records.globals.get(6),
            Some(Value::Constant {
                ty: Some(2),
                kind: ConstKind::Integer(11),
                ..
            }),
        )
        && records.bodies.len() == 1
        && records.bodies.as_slice().iter().all(is_its_body)
}

fn names(named: Option<&Named>, name: &[u8], node: u32) -> bool {
    match named {
        Some(named) => named.name.as_slice() == name && named.nodes.as_slice() == [node].as_slice(),
        None => false,
    }
}

fn are_its_metadata(meta: &Meta) -> bool {
    meta.list.len() == 17
        && matches!(meta.list.get(4), Some(MetaItem::Value { ty: 3, value: 0 }))
        && meta.named.len() == 2
        && names(meta.named.get(0), b"dx.shaderModel".as_slice(), 3)
        && names(meta.named.get(1), b"dx.entryPoints".as_slice(), 16)
}

fn are_its_facts(facts: &Facts) -> bool {
    let row = Row {
        class: Class::Uav,
        id: 0,
        space: 0,
        lower: 0,
        range: 1,
        kind: 11,
        size: 0,
        ordered: false,
    };
    facts.body == 0 && facts.local == [8, 4, 1] && facts.rows.as_slice() == [row].as_slice()
}

#[test]
fn a_shader_read_layer_by_layer(rt: HostRuntime) -> Result<(), Fail> {
    let alloc = rt.alloc();
    let Ok(items) = items_of(alloc, &SHADER) else {
        return Err("no items")?;
    };
    let Ok(types) = read_types(alloc, &items) else {
        return Err("no types")?;
    };
    assert!(rt; are_its_types(&types));
    let Ok(records) = read_module_records(alloc, &items, &types) else {
        return Err("no records")?;
    };
    assert!(rt; are_its_records(&records));
    let Ok(meta) = read_metadata(alloc, &items, &types, &records) else {
        return Err("no metadata")?;
    };
    assert!(rt; are_its_metadata(&meta));
    let Ok(facts) = shader_facts(alloc, &meta, &types, &records) else {
        return Err("no facts")?;
    };
    assert!(rt; are_its_facts(&facts));
    Ok(())
}
