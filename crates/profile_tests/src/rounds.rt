//! A shader that sums a buffer in rounds through a groupshared array, read to its program (tools/loop_rows.py).

ghost use Rattle.std.specs.Prelude.{◌≤◌, ◌^◌, length};
ghost use Rattle.bitstream_spelling.specs.Framed.{IsFramed};
ghost use Rattle.entry_read.specs.Entry.{entry_body};
ghost use Rattle.profile_tables.specs.Read.{IsRead};

use crate::writer::{Row, Tables, container_of};
use bitstream_spelling::Items;
use dx_file::read_file;
use dxil_form::{
    Addr, BinOp, Block, Class, CmpOp, Entry, IdOp, Instr, Kind, Operand, Program, Reg, Resource,
    Scope, Target, Term, Ty,
};
use dxil_profile::profile;
use entry_read::entry_is_read;
use llvm_shader::{Shader, read_shader};
use std::alloc::{AllocError, Global};
use std::test::Fail;

/// The types: void, void (), i32, i1, i8, a handle, the parts of a load, the functions of the five operations, and an array of 64 i32.
const TYPES: [Row<'static>; 14] = [
    (1, &[13]),
    (2, &[]),
    (21, &[0, 0]),
    (7, &[32]),
    (7, &[1]),
    (7, &[8]),
    (18, &[0, 2]),
    (18, &[0, 2, 2, 2, 2, 2]),
    (21, &[0, 5, 2, 4, 2, 2, 3]),
    (21, &[0, 6, 2, 5, 2, 2]),
    (21, &[0, 0, 2, 5, 2, 2, 2, 2, 2, 2, 4]),
    (21, &[0, 2, 2, 2]),
    (21, &[0, 0, 2, 2]),
    (11, &[64, 2]),
];

/// The array, the entry function and the functions of the five operations.
const GLOBALS: [Row<'static>; 7] = [
    (7, &[12, 14, 0]),
    (8, &[1, 0, 0, 0]),
    (8, &[7, 0, 1]),
    (8, &[8, 0, 1]),
    (8, &[9, 0, 1]),
    (8, &[10, 0, 1]),
    (8, &[11, 0, 1]),
];

/// The constants, from the value 7 on.
const CONSTANTS: [Row<'static>; 19] = [
    (1, &[2]),
    (4, &[12]),
    (4, &[0]),
    (4, &[2]),
    (4, &[4]),
    (4, &[8]),
    (4, &[128]),
    (4, &[114]),
    (4, &[136]),
    (4, &[138]),
    (4, &[190]),
    (4, &[160]),
    (4, &[18]),
    (4, &[22]),
    (3, &[]),
    (1, &[4]),
    (4, &[2]),
    (1, &[3]),
    (2, &[]),
];

/// The shader model, and the entry of 64 threads with a row of one UAV.
const METADATA: [Row<'static>; 21] = [
    (1, &[99, 115]),
    (2, &[2, 7]),
    (2, &[2, 8]),
    (3, &[1, 2, 3]),
    (2, &[1, 1]),
    (1, &[109, 97, 105, 110]),
    (2, &[2, 11]),
    (2, &[2, 12]),
    (2, &[2, 9]),
    (3, &[8, 9, 9]),
    (3, &[7, 10]),
    (2, &[2, 19]),
    (2, &[3, 22]),
    (3, &[3, 0, 0, 3, 3, 9, 12, 13, 13, 13, 0]),
    (3, &[14]),
    (3, &[0, 15, 0, 0]),
    (3, &[5, 6, 0, 16, 11]),
    (
        4,
        &[
            100, 120, 46, 115, 104, 97, 100, 101, 114, 77, 111, 100, 101, 108,
        ],
    ),
    (10, &[3]),
    (
        4,
        &[
            100, 120, 46, 101, 110, 116, 114, 121, 80, 111, 105, 110, 116, 115,
        ],
    ),
    (10, &[16]),
];

/// The names of the operations.
const SYMBOLS: [Row<'static>; 5] = [
    (
        1,
        &[
            2, 100, 120, 46, 111, 112, 46, 99, 114, 101, 97, 116, 101, 72, 97, 110, 100, 108, 101,
        ],
    ),
    (
        1,
        &[
            3, 100, 120, 46, 111, 112, 46, 98, 117, 102, 102, 101, 114, 76, 111, 97, 100,
        ],
    ),
    (
        1,
        &[
            4, 100, 120, 46, 111, 112, 46, 98, 117, 102, 102, 101, 114, 83, 116, 111, 114, 101,
        ],
    ),
    (
        1,
        &[
            5, 100, 120, 46, 111, 112, 46, 116, 104, 114, 101, 97, 100, 73, 100, 73, 110, 71, 114,
            111, 117, 112,
        ],
    ),
    (
        1,
        &[
            6, 100, 120, 46, 111, 112, 46, 98, 97, 114, 114, 105, 101, 114,
        ],
    ),
];

/// The body of seven blocks.
const BODY: [Row<'static>; 31] = [
    (1, &[7]),
    (34, &[0, 0, 21, 10, 2, 15, 15, 1]),
    (34, &[0, 0, 19, 8, 16]),
    (2, &[1, 15, 7]),
    (34, &[0, 0, 23, 12, 3, 1, 6]),
    (26, &[1, 0]),
    (43, &[1, 12, 28, 20, 4]),
    (44, &[1, 2, 0, 0]),
    (34, &[0, 0, 23, 12, 11]),
    (11, &[1]),
    (16, &[2, 40, 0, 17, 5]),
    (28, &[6, 1, 35]),
    (11, &[2, 3, 1]),
    (2, &[7, 2, 1]),
    (43, &[1, 12, 32, 24, 1]),
    (20, &[1, 2, 0, 0]),
    (11, &[3]),
    (16, &[2, 52, 1, 2, 2]),
    (34, &[0, 0, 29, 18, 17]),
    (11, &[4, 5, 5]),
    (20, &[7, 2, 0, 0]),
    (2, &[1, 2, 0]),
    (44, &[9, 1, 0, 0]),
    (11, &[5]),
    (34, &[0, 0, 31, 20, 19]),
    (2, &[8, 28, 7]),
    (28, &[1, 26, 36]),
    (11, &[1, 6, 1]),
    (20, &[11, 2, 0, 0]),
    (34, &[0, 0, 36, 25, 17, 15, 20, 1, 20, 20, 20, 19]),
    (10, &[]),
];

// The values of the body, in the order of its instructions.
const THREAD: u32 = 24;

const BYTE: u32 = 25;

const LOADED: u32 = 26;

const PART: u32 = 27;

const PLACE: u32 = 28;

const STEP: u32 = 29;

const REACHES: u32 = 30;

const BELOW: u32 = 31;

const OTHER: u32 = 32;

const READ: u32 = 33;

const ADDED: u32 = 34;

const OLD: u32 = 35;

const SUM: u32 = 36;

const NEXT: u32 = 37;

const GOES_ON: u32 = 38;

const LAST: u32 = 39;

const NO_VALUE: Operand = Operand::Undef(Ty::Int);

/// A barrier of the group over groupshared memory: mode 9.
const BARRIER: Instr = Instr::Barrier {
    sync: true,
    scope: Scope::Group,
    uav: false,
    shared: true,
};

fn to(value: u32) -> Reg {
    Reg { value, part: 0 }
}

fn number(value: u32) -> Operand {
    Operand::Reg {
        reg: to(value),
        ty: Ty::Int,
    }
}

fn truth(value: u32) -> Operand {
    Operand::Reg {
        reg: to(value),
        ty: Ty::Bool,
    }
}

fn bin(value: u32, op: BinOp, a: Operand, b: Operand) -> Instr {
    Instr::Bin {
        to: to(value),
        op,
        ty: Ty::Int,
        a,
        b,
    }
}

fn compare(value: u32, op: CmpOp, a: Operand, b: Operand) -> Instr {
    Instr::Cmp {
        to: to(value),
        op,
        ty: Ty::Int,
        a,
        b,
    }
}

fn copy(value: u32, a: Operand) -> Instr {
    Instr::Copy {
        to: to(value),
        ty: Ty::Int,
        a,
    }
}

/// A load of the array.
fn load(value: u32, place: u32) -> Instr {
    Instr::Load {
        to: value,
        mask: 1,
        target: Target::Shared(0),
        addr: Addr::Index {
            index: number(place),
        },
    }
}

/// A store of one word.
fn store(target: Target, addr: Addr, x: Operand) -> Instr {
    Instr::Store {
        mask: 1,
        target,
        addr,
        x,
        y: NO_VALUE,
        z: NO_VALUE,
        w: NO_VALUE,
    }
}

fn put(place: u32, value: u32) -> Instr {
    store(
        Target::Shared(0),
        Addr::Index {
            index: number(place),
        },
        number(value),
    )
}

/// The instructions of the blocks.
fn first() -> [Instr; 8] {
    [
        Instr::Nothing,
        Instr::Id {
            to: to(THREAD),
            op: IdOp::InGroup,
            part: 0,
        },
        bin(BYTE, BinOp::Shl, number(THREAD), Operand::Int(2)),
        Instr::Load {
            to: LOADED,
            mask: 1,
            target: Target::Buffer(0),
            addr: Addr::Byte { at: number(BYTE) },
        },
        copy(PART, number(LOADED)),
        copy(PLACE, number(THREAD)),
        put(PLACE, PART),
        BARRIER,
    ]
}

fn second() -> [Instr; 1] {
    [compare(REACHES, CmpOp::UGe, number(THREAD), number(STEP))]
}

fn third() -> [Instr; 3] {
    [
        bin(BELOW, BinOp::Sub, number(THREAD), number(STEP)),
        copy(OTHER, number(BELOW)),
        load(READ, OTHER),
    ]
}

fn fifth() -> [Instr; 3] {
    [
        load(OLD, PLACE),
        bin(SUM, BinOp::Add, number(OLD), number(ADDED)),
        put(PLACE, SUM),
    ]
}

fn sixth() -> [Instr; 3] {
    [
        BARRIER,
        bin(NEXT, BinOp::Shl, number(STEP), Operand::Int(1)),
        compare(GOES_ON, CmpOp::ULt, number(NEXT), Operand::Int(64)),
    ]
}

fn seventh() -> [Instr; 2] {
    [
        load(LAST, PLACE),
        store(
            Target::Buffer(0),
            Addr::Byte { at: number(BYTE) },
            number(LAST),
        ),
    ]
}

/// How a block ends.
#[derive(Clone, Copy, Debug, PartialEq, Eq)]
enum End {
    Ret,
    Go(u32),
    If(Operand, u32, u32),
    Other,
}

fn end_of(term: &Term) -> End {
    match term {
        Term::Ret => End::Ret,
        Term::Go(block) => End::Go(*block),
        Term::If { cond, yes, no } => End::If(*cond, *yes, *no),
        _ => End::Other,
    }
}

/// The one phi of a block: its register and its entries; a block without one has none.
fn phi_is(block: &Block, value: u32, entries: &[Entry]) -> bool {
    match block.phis.as_slice() {
        [phi] => phi.to == to(value) && phi.ty == Ty::Int && phi.entries.as_slice() == entries,
        _ => false,
    }
}

/// Whether the instructions of a block are these.
fn has(block: &Block, instrs: &[Instr]) -> bool {
    block.instrs.as_slice() == instrs
}

fn entry(from: u32, value: Operand) -> Entry {
    Entry { from, value }
}

fn program_of_shader(alloc: Global, shader: &Shader) -> Result<Program, Fail>
    requires { IsRead (entry_body shader.now.types shader.now.records shader.now.facts) shader.now.facts.local }
{
    match profile(alloc, &shader.types, &shader.records, &shader.facts) {
        Ok(program) => Ok(program),
        Err(_) => Err(Fail::from("refused by the profile")),
    }
}

/// The program that the items of a bitcode state.
fn program_in(alloc: Global, items: &Items) -> Result<Program, Fail>
    requires { IsFramed items.now.list items.now.fields }
{
    entry_is_read();
    match read_shader(alloc, items) {
        Ok(shader) => program_of_shader(alloc, &shader),
        Err(_) => Err(Fail::from("no shader")),
    }
}

/// The program that a container states.
fn program_of(alloc: Global, bytes: &[u8]) -> Result<Program, Fail>
    requires { length bytes.now ≤ 2 ^ 26 }
{
    match read_file(alloc, bytes) {
        Ok(file) => program_in(alloc, &file.items),
        Err(_) => Err(Fail::from("no file")),
    }
}

/// The container of the shader of the loop.
pub fn loop_file(alloc: Global) -> Result<Vec<u8>, AllocError> {
    let tables = Tables {
        types: &TYPES,
        globals: &GLOBALS,
        constants: &CONSTANTS,
        metadata: &METADATA,
        symbols: &SYMBOLS,
        body: &BODY,
    };
    container_of(alloc, &tables, &[])
}

fn loop_program(alloc: Global) -> Result<Program, Fail> {
    let bytes = loop_file(alloc)?;
    if bytes.len() > 4096 {
        return Err(Fail::from("too long"));
    }
    program_of(alloc, bytes.as_slice())
}

#[test]
fn a_loop_is_read_to_its_program(rt: HostRuntime) -> Result<(), Fail> {
    let program = loop_program(rt.alloc())?;
    assert_eq!(rt; program.local, [64, 1, 1]);
    let buffer = Resource {
        class: Class::Uav,
        id: 0,
        space: 0,
        lower: 0,
        kind: Kind::Raw,
    };
    let buffers = [buffer];
    assert_eq!(rt; program.resources.as_slice(), buffers.as_slice());
    let words = [64u32];
    assert_eq!(rt; program.shared.as_slice(), words.as_slice());
    let [a, b, c, d, e, f, g] = program.blocks.as_slice() else {
        return Err(Fail::from("not seven blocks"));
    };
    assert!(rt; has(a, &first()));
    assert!(rt; has(b, &second()));
    assert!(rt; has(c, &third()));
    assert!(rt; has(d, &[BARRIER]));
    assert!(rt; has(e, &fifth()));
    assert!(rt; has(f, &sixth()));
    assert!(rt; has(g, &seventh()));
    assert!(rt;
        phi_is(
            b,
            STEP,
            &[entry(0, Operand::Int(1)), entry(5, number(NEXT))]
        )
    );
    assert!(rt;
        phi_is(
            d,
            ADDED,
            &[entry(1, Operand::Int(0)), entry(2, number(READ))]
        )
    );
    for block in [a, c, e, f, g] {
        assert_eq!(rt; block.phis.len(), 0);
    }
    let ends = [
        end_of(&a.term),
        end_of(&b.term),
        end_of(&c.term),
        end_of(&d.term),
        end_of(&e.term),
        end_of(&f.term),
        end_of(&g.term),
    ];
    let wanted = [
        End::Go(1),
        End::If(truth(REACHES), 2, 3),
        End::Go(3),
        End::If(truth(REACHES), 4, 5),
        End::Go(5),
        End::If(truth(GOES_ON), 1, 6),
        End::Ret,
    ];
    assert_eq!(rt; ends, wanted);
    Ok(())
}
