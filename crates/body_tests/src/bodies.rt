//! Bodies of small bitstreams, and ones that break a rule or pass a limit.

ghost use Rattle.std.specs.Prelude.{IfOk};
ghost use Rattle.llvm_bodies.specs.Reading.{AreFew};

use bitstream_pieces::Piece::{self, End, Enter, Long, Many, Record};
use bitstream_pieces::items_of;
use bitstream_spelling::Items;
use dx_base::{Fault, List, Rule, Which};
use llvm_bodies::{Body, BodyList, Line, ModuleFacts, Signature, read_bodies};
use llvm_items::bit_of;
use std::alloc::{AllocError, Global};
use std::test::Fail;

const NONE: Signature = Signature {
    is_function: false,
    vararg: false,
    is_void: false,
    params: 0,
};

/// `void ()`
const NOTHING: Signature = Signature {
    is_function: true,
    vararg: false,
    is_void: true,
    params: 0,
};

/// `i32 (i32)`
const ONE: Signature = Signature {
    is_function: true,
    vararg: false,
    is_void: false,
    params: 1,
};

/// `void (..)`
const VARIADIC: Signature = Signature {
    is_function: true,
    vararg: true,
    is_void: true,
    params: 0,
};

/// A module with the values `void ()`, `i32 (i32)`, a variable and `void (..)`, whose types are `i32` and then these four; a function with one argument
/// has a body, and if `two` is set one without arguments.
fn facts_of(alloc: Global, two: bool) -> Result<ModuleFacts, Fail>
    ensures { IfOk result (λ facts. AreFew facts) }
{
    let mut callees = List::new(alloc);
    let mut types = List::new(alloc);
    let mut arguments = List::new(alloc);
    let told = callees.push(NOTHING).is_ok()
        && callees.push(ONE).is_ok()
        && callees.push(NONE).is_ok()
        && callees.push(VARIADIC).is_ok()
        && types.push(NONE).is_ok()
        && types.push(NOTHING).is_ok()
        && types.push(ONE).is_ok()
        && types.push(VARIADIC).is_ok()
        && arguments.push(1).is_ok()
        && (!two || arguments.push(0).is_ok());
    if !told {
        return Err("no memory")?;
    }
    Ok(ModuleFacts {
        callees,
        types,
        arguments,
    })
}

/// What comes of the pieces: the number of instructions of all bodies, or the rule or limit with the place of its item.
#[derive(Clone, Copy, Debug, PartialEq, Eq)]
enum Outcome {
    Lines(usize),
    Broken(u8, usize),
    Passed(Which, usize),
}

use Outcome::{Broken, Lines, Passed};

fn lines_in(bodies: &BodyList) -> usize {
    let mut count = 0usize;
    for body in bodies.as_slice() {
        count = count.saturating_add(body.lines.len());
    }
    count
}

fn place_of(items: &Items, bit: u64) -> usize {
    for (place, item) in items.list.as_slice().iter().enumerate() {
        if bit_of(*item) == bit {
            return place;
        }
    }
    items.list.len()
}

fn read(alloc: Global, two: bool, pieces: &[Piece]) -> Result<Outcome, Fail> {
    let Ok(items) = items_of(alloc, pieces) else {
        return Err("no items")?;
    };
    let facts = facts_of(alloc, two)?;
    match read_bodies(alloc, &items, &facts) {
        Ok(bodies) => Ok(Lines(lines_in(&bodies))),
        Err(
            Fault::Refused {
                rule: Rule::M(rule),
                bit,
            },
        ) => Ok(Broken(rule, place_of(&items, bit))),
        Err(Fault::Limit { which, bit }) => Ok(Passed(which, place_of(&items, bit))),
        Err(_) => Err("another fault")?,
    }
}

/// The module around the content of one body.
fn around(alloc: Global, body: &[Piece]) -> Result<Vec<Piece>, AllocError> {
    let mut pieces = Vec::new(alloc);
    pieces.push(Enter(8))?;
    pieces.push(Enter(12))?;
    for piece in body {
        pieces.push(*piece)?;
    }
    pieces.push(End)?;
    pieces.push(End)?;
    Ok(pieces)
}

/// The content of the body of a module, and what comes of it.
const RULES: [(&'static str, &'static [Piece], Outcome); 44] = [
    ("an empty body", &[], Broken(10, 2)),
    (
        "a body that returns",
        &[Record(1, &[1]), Record(10, &[])],
        Lines(1),
    ),
    (
        "a return without declared blocks",
        &[Record(10, &[])],
        Broken(7, 2),
    ),
    (
        "no declared block",
        &[Record(1, &[0]), Record(10, &[])],
        Broken(7, 2),
    ),
    (
        "declared blocks without a count",
        &[Record(1, &[]), Record(10, &[])],
        Broken(7, 2),
    ),
    (
        "declared blocks with two counts",
        &[Record(1, &[1, 0]), Record(10, &[])],
        Broken(8, 2),
    ),
    (
        "blocks declared twice",
        &[Record(1, &[1]), Record(1, &[1]), Record(10, &[])],
        Broken(7, 3),
    ),
    (
        "a code that is not listed",
        &[Record(1, &[1]), Record(4, &[]), Record(10, &[])],
        Broken(7, 3),
    ),
    (
        "a code that is not listed and a faulty record behind it",
        &[Record(1, &[1]), Record(4, &[]), Record(11, &[7])],
        Broken(7, 3),
    ),
    (
        "a branch to the only block",
        &[Record(1, &[1]), Record(11, &[0])],
        Lines(1),
    ),
    (
        "a branch to no block",
        &[Record(1, &[1]), Record(11, &[1])],
        Broken(8, 3),
    ),
    (
        "half a branch",
        &[Record(1, &[1]), Record(11, &[0, 0])],
        Broken(8, 3),
    ),
    (
        "a sum of two values",
        &[Record(1, &[1]), Record(2, &[1, 1, 0]), Record(10, &[])],
        Lines(2),
    ),
    (
        "a sum without its operation",
        &[Record(1, &[1]), Record(2, &[1, 1]), Record(10, &[])],
        Broken(8, 3),
    ),
    (
        "a later value with its type",
        &[Record(1, &[1]), Record(2, &[0, 0, 1, 0]), Record(10, &[])],
        Lines(2),
    ),
    (
        "a later value without its type",
        &[Record(1, &[1]), Record(2, &[0, 1, 0]), Record(10, &[])],
        Broken(8, 3),
    ),
    (
        "a later value of a type that is none",
        &[Record(1, &[1]), Record(2, &[0, 4, 1, 0]), Record(10, &[])],
        Broken(8, 3),
    ),
    (
        "a phi",
        &[
            Record(1, &[1]),
            Record(16, &[0]),
            Record(2, &[1, 1, 0]),
            Record(10, &[]),
        ],
        Lines(3),
    ),
    (
        "a phi behind a phi",
        &[
            Record(1, &[1]),
            Record(16, &[0]),
            Record(16, &[0]),
            Record(10, &[]),
        ],
        Lines(3),
    ),
    (
        "a phi behind a place in the source",
        &[
            Record(1, &[1]),
            Record(33, &[]),
            Record(16, &[0]),
            Record(10, &[]),
        ],
        Lines(2),
    ),
    (
        "a phi behind a sum",
        &[
            Record(1, &[1]),
            Record(2, &[1, 1, 0]),
            Record(16, &[0]),
            Record(10, &[]),
        ],
        Broken(8, 4),
    ),
    (
        "a phi in the next block",
        &[
            Record(1, &[2]),
            Record(2, &[1, 1, 0]),
            Record(11, &[1]),
            Record(16, &[0]),
            Record(10, &[]),
        ],
        Lines(4),
    ),
    (
        "a call",
        &[Record(1, &[1]), Record(34, &[0, 0, 4, 1]), Record(10, &[])],
        Lines(2),
    ),
    (
        "a call without its argument",
        &[Record(1, &[1]), Record(34, &[0, 0, 4]), Record(10, &[])],
        Broken(8, 3),
    ),
    (
        "a call with two arguments",
        &[
            Record(1, &[1]),
            Record(34, &[0, 0, 4, 1, 1]),
            Record(10, &[]),
        ],
        Broken(8, 3),
    ),
    (
        "a call with its type",
        &[
            Record(1, &[1]),
            Record(34, &[0, 32768, 2, 4, 1]),
            Record(10, &[]),
        ],
        Lines(2),
    ),
    (
        "the number of arguments is that of the type",
        &[
            Record(1, &[1]),
            Record(34, &[0, 32768, 1, 4, 1]),
            Record(10, &[]),
        ],
        Broken(8, 3),
    ),
    (
        "a call of a variable",
        &[Record(1, &[1]), Record(34, &[0, 0, 3]), Record(10, &[])],
        Broken(9, 3),
    ),
    (
        "a call of an argument",
        &[Record(1, &[1]), Record(34, &[0, 0, 1]), Record(10, &[])],
        Broken(9, 3),
    ),
    (
        "a call of a variadic function",
        &[Record(1, &[1]), Record(34, &[0, 0, 2]), Record(10, &[])],
        Broken(9, 3),
    ),
    (
        "a call with a type that is no function type",
        &[
            Record(1, &[1]),
            Record(34, &[0, 32768, 0, 4, 1]),
            Record(10, &[]),
        ],
        Broken(9, 3),
    ),
    (
        "a call with a variadic type",
        &[
            Record(1, &[1]),
            Record(34, &[0, 32768, 3, 4, 1]),
            Record(10, &[]),
        ],
        Broken(9, 3),
    ),
    (
        "a call without a callee",
        &[Record(1, &[1]), Record(34, &[0, 0]), Record(10, &[])],
        Broken(8, 3),
    ),
    (
        "void calls take no number",
        &[
            Record(1, &[1]),
            Record(34, &[0, 0, 5]),
            Record(34, &[0, 0, 5]),
            Record(34, &[0, 0, 4, 1]),
            Record(34, &[0, 0, 6]),
            Record(10, &[]),
        ],
        Lines(5),
    ),
    (
        "the number behind a call",
        &[
            Record(1, &[1]),
            Record(34, &[0, 0, 4, 1]),
            Record(34, &[0, 0, 5]),
            Record(10, &[]),
        ],
        Broken(8, 4),
    ),
    (
        "the number behind two constants",
        &[
            Record(1, &[1]),
            Enter(11),
            Record(1, &[0]),
            Record(4, &[2]),
            Record(2, &[]),
            End,
            Record(34, &[0, 0, 7]),
            Record(10, &[]),
        ],
        Lines(2),
    ),
    (
        "the last block is open",
        &[Record(1, &[2]), Record(10, &[]), Record(2, &[1, 1, 0])],
        Broken(10, 5),
    ),
    (
        "as many blocks, and a sum behind them",
        &[Record(1, &[1]), Record(10, &[]), Record(2, &[1, 1, 0])],
        Broken(10, 5),
    ),
    (
        "two blocks of one",
        &[Record(1, &[1]), Record(10, &[]), Record(10, &[])],
        Broken(10, 5),
    ),
    (
        "one block of two",
        &[Record(1, &[2]), Record(10, &[])],
        Broken(10, 4),
    ),
    (
        "a place in the source behind the last block",
        &[Record(1, &[1]), Record(10, &[]), Record(35, &[1, 2, 0, 0])],
        Lines(1),
    ),
    ("no instruction", &[Record(1, &[1])], Broken(10, 3)),
    (
        "only a place in the source",
        &[Record(1, &[1]), Record(33, &[])],
        Broken(10, 4),
    ),
    (
        "an end that is none",
        &[Record(1, &[1]), Record(15, &[0])],
        Broken(8, 3),
    ),
];

#[test]
fn each_rule_has_its_place(rt: HostRuntime) -> Result<(), Fail> {
    for (name, body, wanted) in &RULES {
        let pieces = around(rt.alloc(), body)?;
        assert_eq!(rt;
            read(rt.alloc(), false, pieces.as_slice())?,
            *wanted,
            "{name}"
        );
    }
    Ok(())
}

/// Modules, and whether two functions have a body.
const COUNTS: [(&'static str, bool, &'static [Piece], Outcome); 4] = [
    ("no body", false, &[Enter(8), End], Broken(11, 1)),
    (
        "one of two bodies",
        true,
        &[
            Enter(8),
            Enter(12),
            Record(1, &[1]),
            Record(10, &[]),
            End,
            End,
        ],
        Broken(11, 5),
    ),
    (
        "a second body, which has no arguments",
        false,
        &[
            Enter(8),
            Enter(12),
            Record(1, &[1]),
            Record(10, &[]),
            End,
            Enter(12),
            Record(1, &[1]),
            Record(34, &[0, 0, 4]),
            Record(34, &[0, 0, 3, 1]),
            Record(10, &[]),
            End,
            End,
        ],
        Broken(11, 11),
    ),
    (
        "an open body before it",
        false,
        &[
            Enter(8),
            Enter(12),
            Record(1, &[1]),
            End,
            Enter(12),
            Record(4, &[]),
            End,
            End,
        ],
        Broken(10, 3),
    ),
];

#[test]
fn bodies_are_as_many_as_functions(rt: HostRuntime) -> Result<(), Fail> {
    for (name, two, pieces, wanted) in &COUNTS {
        assert_eq!(rt; read(rt.alloc(), *two, pieces)?, *wanted, "{name}");
    }
    Ok(())
}

fn is_line(
    line: Option<&Line>,
    block: u32,
    value: Option<u32>,
    code: u32,
    numbers: &[u32],
) -> bool {
    match line {
        Some(line) => {
            line.block == block
                && line.value == value
                && line.code == code
                && line.numbers.as_slice() == numbers
        }
        None => false,
    }
}

fn has_size(body: Option<&Body>, blocks: u32, values: u32, constants: usize, lines: usize) -> bool {
    match body {
        Some(body) => {
            body.blocks == blocks
                && body.values == values
                && body.constants.len() == constants
                && body.lines.len() == lines
        }
        None => false,
    }
}

fn line_at(bodies: &BodyList, body: usize, line: usize) -> Option<&Line> {
    bodies.get(body)?.lines.get(line)
}

/// Two bodies; in the first stand references to later values.
const TWO: [Piece; 21] = [
    Enter(8),
    Enter(12),
    Record(1, &[2]),
    Enter(11),
    Record(1, &[0]),
    Record(4, &[24]),
    Record(2, &[]),
    End,
    Record(2, &[0, 0, 1, 0]),
    Record(34, &[0, 0, 8]),
    Record(11, &[1]),
    Record(16, &[0, 3, 0, 2, 0]),
    Record(35, &[1, 2, 0, 0]),
    Record(34, &[0, 0, 8, 2]),
    Record(11, &[1, 0, 1]),
    End,
    Enter(12),
    Record(1, &[1]),
    Record(10, &[]),
    End,
    End,
];

#[test]
fn two_bodies_with_forward_references(rt: HostRuntime) -> Result<(), Fail> {
    let Ok(items) = items_of(rt.alloc(), &TWO) else {
        return Err("no items")?;
    };
    let facts = facts_of(rt.alloc(), true)?;
    let bodies = read_bodies(rt.alloc(), &items, &facts)
        .ok()
        .ok_or("refused")?;
    assert_eq!(rt; bodies.len(), 2);
    assert!(rt; has_size(bodies.get(0), 2, 10, 2, 6));
    assert!(rt; has_size(bodies.get(1), 1, 4, 0, 1));
    assert!(rt; is_line(line_at(&bodies, 0, 0), 0, Some(7), 2, &[7, 6]));
    assert!(rt; is_line(line_at(&bodies, 0, 1), 0, None, 34, &[0]));
    assert!(rt; is_line(line_at(&bodies, 0, 2), 0, None, 11, &[1]));
    assert!(rt; is_line(line_at(&bodies, 0, 3), 1, Some(8), 16, &[9, 0, 7, 0]));
    assert!(rt; is_line(line_at(&bodies, 0, 4), 1, Some(9), 34, &[1, 7]));
    assert!(rt; is_line(line_at(&bodies, 0, 5), 1, None, 11, &[1, 0, 9]));
    assert!(rt; is_line(line_at(&bodies, 1, 0), 0, None, 10, &[]));
    let types = line_at(&bodies, 0, 0).ok_or("no line")?.types.as_slice();
    assert_eq!(rt; types, [(0, 0)].as_slice());
    let plain = line_at(&bodies, 0, 4).ok_or("no line")?.plain.as_slice();
    assert_eq!(rt; plain, [0, 0].as_slice());
    Ok(())
}

/// The content of the body of a module that has as much as it may, or more.
const LIMITS: [(&'static str, &'static [Piece], Outcome); 10] = [
    ("8,192 blocks", &[Record(1, &[8192])], Broken(10, 3)),
    (
        "8,193 blocks",
        &[Record(1, &[8193])],
        Passed(Which::Blocks, 2),
    ),
    (
        "32,768 instructions",
        &[
            Record(1, &[1]),
            Many(19, 32767),
            Record(35, &[]),
            Record(10, &[]),
        ],
        Lines(32768),
    ),
    (
        "32,769 instructions",
        &[Record(1, &[1]), Many(19, 32768), Record(10, &[])],
        Passed(Which::Instructions, 32771),
    ),
    (
        "65,536 cases",
        &[Record(1, &[1]), Long(12, &[0, 1, 0], &[7, 0], 65536)],
        Lines(1),
    ),
    (
        "65,537 cases",
        &[Record(1, &[1]), Long(12, &[0, 1, 0], &[7, 0], 65537)],
        Passed(Which::Cases, 3),
    ),
    (
        "65,537 cases of two switches",
        &[
            Record(1, &[2]),
            Long(12, &[0, 1, 0], &[7, 0], 65536),
            Record(12, &[0, 1, 0, 7, 0]),
        ],
        Passed(Which::Cases, 4),
    ),
    (
        "a switch without a case behind 65,536",
        &[
            Record(1, &[2]),
            Long(12, &[0, 1, 0], &[7, 0], 65536),
            Record(12, &[0, 1, 0]),
        ],
        Lines(2),
    ),
    (
        "262,144 entries",
        &[
            Record(1, &[1]),
            Long(16, &[0], &[2, 0], 262144),
            Record(10, &[]),
        ],
        Lines(2),
    ),
    (
        "262,145 entries",
        &[
            Record(1, &[1]),
            Long(16, &[0], &[2, 0], 262145),
            Record(10, &[]),
        ],
        Passed(Which::PhiEntries, 3),
    ),
];

#[test]
fn limits_pass_at_their_last_value(rt: HostRuntime) -> Result<(), Fail> {
    for (name, body, wanted) in &LIMITS {
        let pieces = around(rt.alloc(), body)?;
        assert_eq!(rt;
            read(rt.alloc(), false, pieces.as_slice())?,
            *wanted,
            "{name}"
        );
    }
    Ok(())
}
