//! Values in a few bits, which are worked out by hand.

use bitstream_spelling::{FieldList, Operand};
use bitstream_values::{
    Coded, Entry, Given, Row, Seen, Stop, may_end, take_definition, take_entry, take_operand,
    take_plain, take_record,
};
use dx_base::{BitCursor, List};
use std::test::Fail;

fn coded(answer: Result<Coded, Stop>) -> Option<Coded> {
    answer.ok()
}

#[test]
fn a_plain_record_has_a_field_of_two_chunks(rt: HostRuntime) -> Result<(), Fail> {
    let bytes: [u8; 4] = [0x0B, 0x02, 0x53, 0x00];
    let mut cursor = BitCursor::new(&bytes, 0, 32);
    assert_eq!(rt; cursor.fixed(3), Some(3));
    let mut fields: FieldList = List::new(rt.alloc());
    let record = coded(take_plain(&mut cursor, &mut fields, 9));
    let wanted = Coded {
        code: 1,
        row: Row::Taken,
    };
    assert_eq!(rt; record, Some(wanted));
    assert_eq!(rt; fields.as_slice(), [70].as_slice());
    assert_eq!(rt; cursor.at(), 27);
    Ok(())
}

#[test]
fn a_field_of_two_to_the_64_is_wide(rt: HostRuntime) -> Result<(), Fail> {
    let bytes: [u8; 12] = [
        0x41, 0x00, 0x82, 0x20, 0x08, 0x82, 0x20, 0x08, 0x82, 0x20, 0x08, 0x01,
    ];
    let mut cursor = BitCursor::new(&bytes, 0, 96);
    let mut fields: FieldList = List::new(rt.alloc());
    let record = coded(take_plain(&mut cursor, &mut fields, 9));
    assert_eq!(rt; record.map(|found| found.row), Some(Row::Wide));
    assert_eq!(rt; cursor.at(), 90);
    Ok(())
}

/// Operands behind a literal code, bytes, how many bits of them, how many fields may be, and what comes of it.
#[derive(Drop)]
struct Case {
    operands: [Operand; 4],
    bytes: [u8; 8],
    bits: u64,
    most: u64,
    row: Option<Row>,
    fields: &'static [u64],
    at: u64,
}

#[test]
fn records_by_abbreviations(rt: HostRuntime) -> Result<(), Fail> {
    let code = Operand::Literal(2);
    let cases = [
        Case {
            operands: [code, Operand::Fixed(0), Operand::Array, Operand::Char6],
            bytes: [0; 8],
            bits: 64,
            most: 9,
            row: Some(Row::Taken),
            fields: &[0],
            at: 6,
        },
        Case {
            operands: [code, Operand::Literal(7), Operand::Array, Operand::Char6],
            bytes: [0x02, 0x10, 0, 0, 0, 0, 0, 0],
            bits: 64,
            most: 9,
            row: Some(Row::Taken),
            fields: &[7, 97, 98],
            at: 18,
        },
        Case {
            operands: [code, Operand::Vbr(0), Operand::Array, Operand::Fixed(0)],
            bytes: [0x03, 0, 0, 0, 0, 0, 0, 0],
            bits: 64,
            most: 3,
            row: Some(Row::Many),
            fields: &[0, 0, 0],
            at: 6,
        },
        Case {
            operands: [code, Operand::Fixed(2), Operand::Vbr(3), Operand::Blob],
            bytes: [0x47, 0, 0, 0, 0x68, 0x69, 0, 0],
            bits: 64,
            most: 9,
            row: Some(Row::Taken),
            fields: &[3, 1, 104, 105],
            at: 64,
        },
        Case {
            operands: [code, Operand::Literal(7), Operand::Array, Operand::Char6],
            bytes: [0x02, 0x10, 0, 0, 0, 0, 0, 0],
            bits: 17,
            most: 9,
            row: None,
            fields: &[7, 97],
            at: 12,
        },
    ];
    for case in &cases {
        let mut cursor = BitCursor::new(&case.bytes, 0, case.bits);
        let mut fields: FieldList = List::new(rt.alloc());
        let record = coded(take_record(&mut cursor, &mut fields, &case.operands, case.most));
        assert_eq!(rt; record.map(|found| found.row), case.row);
        assert_eq!(rt; fields.as_slice(), case.fields);
        assert_eq!(rt; cursor.at(), case.at);
    }
    Ok(())
}

#[test]
fn an_entry_ends_behind_its_length(rt: HostRuntime) -> Result<(), Fail> {
    let bytes: [u8; 8] = [0x21, 0x0C, 0, 0, 1, 0, 0, 0];
    let mut cursor = BitCursor::new(&bytes, 0, 64);
    assert_eq!(rt; cursor.fixed(2), Some(1));
    let wanted = Entry {
        id: Seen::Small(8),
        width: Seen::Small(3),
        words: 1,
    };
    assert_eq!(rt; take_entry(&mut cursor), Some(wanted));
    assert_eq!(rt; cursor.at(), 64);
    Ok(())
}

#[test]
fn operands_of_a_definition(rt: HostRuntime) -> Result<(), Fail> {
    let bytes: [u8; 4] = [0x05, 0x04, 0x18, 0x02];
    let mut cursor = BitCursor::new(&bytes, 0, 32);
    let wanted = [
        Operand::Literal(2),
        Operand::Fixed(0),
        Operand::Array,
        Operand::Char6,
    ];
    for operand in wanted {
        let found = take_operand(&mut cursor);
        let given = Given {
            operand,
            wide: false,
        };
        assert_eq!(rt; found, Some(given));
    }
    assert_eq!(rt; cursor.at(), 26);
    Ok(())
}

#[test]
fn a_definition_is_counted_past_what_is_kept(rt: HostRuntime) -> Result<(), Fail> {
    let bytes: [u8; 8] = [0x22, 0x05, 0x04, 0x18, 0x12, 0, 0, 0];
    let operands = [
        Operand::Literal(2),
        Operand::Fixed(0),
        Operand::Array,
        Operand::Char6,
    ];
    for most in [4, 3] {
        let mut cursor = BitCursor::new(&bytes, 0, 64);
        assert_eq!(rt; cursor.fixed(3), Some(2));
        let found = take_definition(rt.alloc(), &mut cursor, most)
            .ok()
            .ok_or("refused")?;
        assert_eq!(rt; found.count, 4);
        assert_eq!(rt; found.wide, false);
        assert_eq!(rt; may_end(found.form), true);
        assert_eq!(rt; cursor.at(), 34);
        let kept = found.operands.as_slice();
        if most == 4 {
            assert_eq!(rt; kept, operands.as_slice());
        } else {
            assert_eq!(rt; kept.len(), 3);
        }
    }
    Ok(())
}
