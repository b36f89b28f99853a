//! Metadata of small bitstreams, and ones that break a rule.

use bitstream_pieces::Piece::{self, Define, End, Enter, Record};
use bitstream_pieces::items_of;
use dx_base::{Fault, Rule};
use llvm_nodes::{Meta, MetaItem, read_nodes};
use std::alloc::Global;
use std::test::Fail;

/// The metadata of the pieces, in a module of three types and two values, or the fault.
fn read(alloc: Global, pieces: &[Piece]) -> Result<Result<Meta, Fault>, Fail> {
    let Ok(items) = items_of(alloc, pieces) else {
        return Err("no items")?;
    };
    Ok(read_nodes(alloc, &items, 3, 2))
}

/// How many numbered records the pieces state, or the fault.
fn count_of(alloc: Global, pieces: &[Piece]) -> Result<Result<usize, Fault>, Fail> {
    Ok(read(alloc, pieces)?.map(|meta| meta.list.len()))
}

fn is_text(item: Option<&MetaItem>, wanted: &[u8]) -> bool {
    match item {
        Some(MetaItem::Text(text)) => text.as_slice() == wanted,
        _ => false,
    }
}

fn is_node(item: Option<&MetaItem>, wanted: &[u32]) -> bool {
    match item {
        Some(MetaItem::Node(ids)) => ids.as_slice() == wanted,
        _ => false,
    }
}

/// The count, or the fault of a broken rule.
fn answer(wanted: Result<usize, (u8, u64)>) -> Result<usize, Fault> {
    match wanted {
        Ok(count) => Ok(count),
        Err((rule, bit)) => Err(Fault::Refused {
            rule: Rule::N(rule),
            bit,
        }),
    }
}

/// Characters count modulo 256; a skipped block stands between a name and its node; the second block goes on with the numbers.
const TWO_BLOCKS: [Piece; 18] = [
    Enter(8),
    Enter(15),
    Record(1, &[99, 371]),
    Record(2, &[2, 1]),
    Record(5, &[0, 2, 1]),
    Record(6, &[1]),
    Record(4, &[110]),
    Enter(99),
    End,
    Record(10, &[2, 0]),
    End,
    Enter(15),
    Record(3, &[5, 4]),
    Record(1, &[]),
    Record(4, &[110]),
    Record(10, &[]),
    End,
    End,
];

#[test]
fn metadata_of_two_blocks(rt: HostRuntime) -> Result<(), Fail> {
    let meta = read(rt.alloc(), &TWO_BLOCKS)?.ok().ok_or("refused")?;
    assert_eq!(rt; meta.list.len(), 5);
    assert!(rt; is_text(meta.list.get(0), b"cs".as_slice()));
    assert!(rt; matches!(meta.list.get(1), Some(MetaItem::Value { ty: 2, value: 1 })));
    assert!(rt; is_node(meta.list.get(2), &[0, 2, 1]));
    assert!(rt; is_node(meta.list.get(3), &[5, 4]));
    assert!(rt; is_text(meta.list.get(4), &[]));
    assert_eq!(rt; meta.bits.as_slice(), [160, 199, 226, 512, 539].as_slice());
    assert_eq!(rt; meta.named.len(), 2);
    let first = meta.named.get(0).ok_or("no named node")?;
    assert_eq!(rt; first.name.as_slice(), b"n".as_slice());
    assert_eq!(rt; first.nodes.as_slice(), [2, 0].as_slice());
    assert_eq!(rt; first.bit, 416);
    let second = meta.named.get(1).ok_or("one named node")?;
    assert_eq!(rt; second.name.as_slice(), b"n".as_slice());
    assert_eq!(rt; second.nodes.len(), 0);
    assert_eq!(rt; second.bit, 581);
    assert_eq!(rt; meta.end, 608);
    Ok(())
}

/// How many numbered records the pieces state, or the first broken rule with its bit. Inside the module the first block is entered at bit 96, and the first record of that block stands at bit 160. A record takes 15 bits, and 6 more for each field below 32.
const RULES: [(&'static str, &'static [Piece], Result<usize, (u8, u64)>); 36] = [
    ("no metadata", &[Enter(8), End], Ok(0)),
    (
        "a code that is not listed",
        &[Enter(8), Enter(15), Record(7, &[]), End, End],
        Err((1, 160)),
    ),
    (
        "the code before it",
        &[Enter(8), Enter(15), Record(6, &[]), End, End],
        Ok(0),
    ),
    (
        "the code 0",
        &[Enter(8), Enter(15), Record(0, &[]), End, End],
        Err((1, 160)),
    ),
    (
        "the code behind the last",
        &[Enter(8), Enter(15), Record(11, &[]), End, End],
        Err((1, 160)),
    ),
    (
        "a value of one field",
        &[Enter(8), Enter(15), Record(2, &[0]), End, End],
        Err((2, 160)),
    ),
    (
        "a value of two fields",
        &[Enter(8), Enter(15), Record(2, &[0, 0]), End, End],
        Ok(1),
    ),
    (
        "a value of three fields",
        &[Enter(8), Enter(15), Record(2, &[0, 0, 0]), End, End],
        Err((2, 160)),
    ),
    (
        "a name without a node",
        &[Enter(8), Enter(15), Record(4, &[]), End, End],
        Err((2, 160)),
    ),
    (
        "a name with a node",
        &[
            Enter(8),
            Enter(15),
            Record(4, &[]),
            Record(10, &[]),
            End,
            End,
        ],
        Ok(0),
    ),
    (
        "a node without a name",
        &[Enter(8), Enter(15), Record(10, &[]), End, End],
        Err((2, 160)),
    ),
    (
        "a kind between name and node",
        &[
            Enter(8),
            Enter(15),
            Record(4, &[]),
            Record(6, &[]),
            Record(10, &[]),
            End,
            End,
        ],
        Err((2, 160)),
    ),
    (
        "a definition between name and node",
        &[
            Enter(8),
            Enter(15),
            Record(4, &[]),
            Define,
            Record(10, &[]),
            End,
            End,
        ],
        Ok(0),
    ),
    (
        "a skipped block between name and node",
        &[
            Enter(8),
            Enter(15),
            Record(4, &[]),
            Enter(99),
            Record(1, &[1]),
            End,
            Record(10, &[]),
            End,
            End,
        ],
        Ok(0),
    ),
    (
        "a name and a node in two blocks",
        &[
            Enter(8),
            Enter(15),
            Record(4, &[]),
            End,
            Enter(15),
            Record(10, &[]),
            End,
            End,
        ],
        Err((2, 160)),
    ),
    (
        "two names and a node",
        &[
            Enter(8),
            Enter(15),
            Record(4, &[]),
            Record(4, &[]),
            Record(10, &[]),
            End,
            End,
        ],
        Err((2, 160)),
    ),
    (
        "two nodes of one name",
        &[
            Enter(8),
            Enter(15),
            Record(4, &[]),
            Record(10, &[]),
            Record(10, &[]),
            End,
            End,
        ],
        Err((2, 190)),
    ),
    (
        "two named nodes of one name",
        &[
            Enter(8),
            Enter(15),
            Record(4, &[7]),
            Record(10, &[]),
            Record(4, &[7]),
            Record(10, &[]),
            End,
            End,
        ],
        Ok(0),
    ),
    (
        "a name before a code that is not listed",
        &[
            Enter(8),
            Enter(15),
            Record(4, &[]),
            Record(7, &[]),
            End,
            End,
        ],
        Err((2, 160)),
    ),
    (
        "a node that names itself",
        &[Enter(8), Enter(15), Record(3, &[1]), End, End],
        Ok(1),
    ),
    (
        "a node of null",
        &[Enter(8), Enter(15), Record(3, &[0, 0]), End, End],
        Ok(1),
    ),
    (
        "a node with an id at the count",
        &[Enter(8), Enter(15), Record(3, &[2]), End, End],
        Err((3, 160)),
    ),
    (
        "a distinct node with an id at the count",
        &[Enter(8), Enter(15), Record(5, &[0, 2]), End, End],
        Err((3, 160)),
    ),
    (
        "a node that names a later record",
        &[
            Enter(8),
            Enter(15),
            Record(5, &[2]),
            Record(1, &[]),
            End,
            End,
        ],
        Ok(2),
    ),
    (
        "an id of 2^32",
        &[Enter(8), Enter(15), Record(3, &[4294967297]), End, End],
        Err((3, 160)),
    ),
    (
        "a named node with an id at the count",
        &[
            Enter(8),
            Enter(15),
            Record(1, &[]),
            Record(4, &[]),
            Record(10, &[1]),
            End,
            End,
        ],
        Err((3, 190)),
    ),
    (
        "a named node of the last record",
        &[
            Enter(8),
            Enter(15),
            Record(1, &[]),
            Record(4, &[]),
            Record(10, &[0]),
            End,
            End,
        ],
        Ok(1),
    ),
    (
        "names take no number",
        &[
            Enter(8),
            Enter(15),
            Record(3, &[2]),
            Record(4, &[]),
            Record(10, &[]),
            End,
            End,
        ],
        Err((3, 160)),
    ),
    (
        "a record of the next block",
        &[
            Enter(8),
            Enter(15),
            Record(4, &[]),
            Record(10, &[0]),
            End,
            Enter(15),
            Record(1, &[]),
            End,
            End,
        ],
        Ok(1),
    ),
    (
        "a value of no type",
        &[Enter(8), Enter(15), Record(2, &[3, 0]), End, End],
        Err((4, 160)),
    ),
    (
        "a value of the last type and value",
        &[Enter(8), Enter(15), Record(2, &[2, 1]), End, End],
        Ok(1),
    ),
    (
        "no value of the module",
        &[Enter(8), Enter(15), Record(2, &[0, 2]), End, End],
        Err((4, 160)),
    ),
    (
        "a type number of 2^32",
        &[Enter(8), Enter(15), Record(2, &[4294967296, 0]), End, End],
        Err((4, 160)),
    ),
    (
        "a value of one field and no type",
        &[Enter(8), Enter(15), Record(2, &[3]), End, End],
        Err((2, 160)),
    ),
    (
        "a value of no type before a code that is not listed",
        &[
            Enter(8),
            Enter(15),
            Record(2, &[3, 0]),
            Record(7, &[]),
            End,
            End,
        ],
        Err((4, 160)),
    ),
    (
        "metadata of a body are not read",
        &[
            Enter(8),
            Enter(12),
            Enter(15),
            Record(7, &[]),
            End,
            End,
            End,
        ],
        Ok(0),
    ),
];

#[test]
fn refuses_the_first_broken_rule(rt: HostRuntime) -> Result<(), Fail> {
    for (name, pieces, wanted) in &RULES {
        assert_eq!(rt; count_of(rt.alloc(), pieces)?, answer(*wanted), "{name}");
    }
    Ok(())
}
