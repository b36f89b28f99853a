use crate::graphs::{Node, Sample, bindings_of, places, regions_of};
use crate::lists::{entries, numbers, pairs, plain_block, push_block, push_phi, push_region};
use dx_base::{Cases, List, OutOfMemory};
use dxil_form::{
    Addr, BinOp, Block, Class, CmpOp, Entry, IdOp, Instr, Kind, Operand, Phi, PhiList, Program,
    Reg, Region, RegionList, Resource, ResourceList, Target, Term, Ty,
};
use phi_demotion::{CrossSlot, CrossSlotList, PhiSlot, PhiSlotList, Slots};
use std::alloc::Global;

fn reg(value: u32) -> Reg {
    Reg { value, part: 0 }
}

fn int(value: u32) -> Operand {
    Operand::Reg {
        reg: reg(value),
        ty: Ty::Int,
    }
}

fn truth(value: u32) -> Operand {
    Operand::Reg {
        reg: reg(value),
        ty: Ty::Bool,
    }
}

/// No slots.
fn no_slots(alloc: Global) -> Slots {
    Slots {
        phis: List::new(alloc),
        crossing: List::new(alloc),
        count: 0,
    }
}

/// A sample without resources and slots.
fn bare(
    alloc: Global,
    local: [u32; 3],
    blocks: List<Block>,
    regions: RegionList,
) -> Result<Sample, OutOfMemory> {
    Ok(Sample {
        program: Program {
            local,
            resources: List::new(alloc),
            shared: numbers(alloc, &[])?,
            blocks,
        },
        regions,
        slots: no_slots(alloc),
        bindings: bindings_of(alloc, 0)?,
    })
}

/// A block that returns.
pub fn empty_sample(alloc: Global) -> Result<Sample, OutOfMemory> {
    let mut blocks: List<Block> = List::new(alloc);
    push_block(&mut blocks, plain_block(alloc, &[], Term::Ret)?)?;
    bare(
        alloc,
        [8, 4, 1],
        blocks,
        regions_of(alloc, &[Node::Leaf(0)])?,
    )
}

/// The number of the invocation in its group is stored at byte 8 of a raw buffer.
pub fn thread_sample(alloc: Global) -> Result<Sample, OutOfMemory> {
    let mut blocks: List<Block> = List::new(alloc);
    let lines = [
        Instr::Id {
            to: reg(7),
            op: IdOp::Flat,
            part: 0,
        },
        Instr::Store {
            mask: 1,
            target: Target::Buffer(0),
            addr: Addr::Byte {
                at: Operand::Int(8),
            },
            x: int(7),
            y: Operand::Undef(Ty::Int),
            z: Operand::Undef(Ty::Int),
            w: Operand::Undef(Ty::Int),
        },
    ];
    push_block(&mut blocks, plain_block(alloc, &lines, Term::Ret)?)?;
    let mut resources: ResourceList = List::new(alloc);
    let buffer = Resource {
        class: Class::Uav,
        id: 0,
        space: 0,
        lower: 0,
        kind: Kind::Raw,
    };
    if resources.push(buffer).is_err() {
        return Err(OutOfMemory);
    }
    Ok(Sample {
        program: Program {
            local: [8, 4, 1],
            resources,
            shared: numbers(alloc, &[])?,
            blocks,
        },
        regions: regions_of(alloc, &[Node::Leaf(0)])?,
        slots: no_slots(alloc),
        bindings: bindings_of(alloc, 1)?,
    })
}

/// The blocks of a ring that counts to three: block 1 has the count, block 2 adds to it, and block 3 returns.
fn ring_blocks(alloc: Global) -> Result<List<Block>, OutOfMemory> {
    let mut blocks: List<Block> = List::new(alloc);
    push_block(&mut blocks, plain_block(alloc, &[], Term::Go(1))?)?;
    let test = Instr::Cmp {
        to: reg(5),
        op: CmpOp::ULt,
        ty: Ty::Int,
        a: int(4),
        b: Operand::Int(3),
    };
    let end = Term::If {
        cond: truth(5),
        yes: 2,
        no: 3,
    };
    let mut head = plain_block(alloc, &[test], end)?;
    let count = [
        Entry {
            from: 0,
            value: Operand::Int(0),
        },
        Entry {
            from: 2,
            value: int(6),
        },
    ];
    let mut phis: PhiList = List::new(alloc);
    let phi = Phi {
        to: reg(4),
        ty: Ty::Int,
        entries: entries(alloc, &count)?,
    };
    push_phi(&mut phis, phi)?;
    head.phis = phis;
    push_block(&mut blocks, head)?;
    let more = Instr::Bin {
        to: reg(6),
        op: BinOp::Add,
        ty: Ty::Int,
        a: int(4),
        b: Operand::Int(1),
    };
    push_block(&mut blocks, plain_block(alloc, &[more], Term::Go(1))?)?;
    push_block(&mut blocks, plain_block(alloc, &[], Term::Ret)?)?;
    Ok(blocks)
}

/// The slots of the ring: those of its count, and one of the sum.
fn ring_slots(alloc: Global) -> Result<Slots, OutOfMemory> {
    let mut phis: PhiSlotList = List::new(alloc);
    let count = PhiSlot {
        reg: reg(4),
        ty: Ty::Int,
        next: 0,
        now: 1,
    };
    if phis.push(count).is_err() {
        return Err(OutOfMemory);
    }
    let mut crossing: CrossSlotList = List::new(alloc);
    let sum = CrossSlot {
        reg: reg(6),
        ty: Ty::Int,
        slot: 2,
    };
    if crossing.push(sum).is_err() {
        return Err(OutOfMemory);
    }
    Ok(Slots {
        phis,
        crossing,
        count: 3,
    })
}

/// A ring of two blocks, the second of which is an arm of the first.
pub fn ring_sample(alloc: Global) -> Result<Sample, OutOfMemory> {
    let nodes = [
        Node::Leaf(0),
        Node::Leaf(1),
        Node::Leaf(2),
        Node::Leaf(3),
        Node::Arm(1, 2, 2),
        Node::Loop(4, 1),
        Node::Then(0, 5, 1),
        Node::Then(6, 3, 3),
    ];
    let mut sample = bare(
        alloc,
        [1, 1, 1],
        ring_blocks(alloc)?,
        regions_of(alloc, &nodes)?,
    )?;
    sample.slots = ring_slots(alloc)?;
    Ok(sample)
}

/// Cases by the even numbers, which go to blocks 1, 2 and 3 in turn.
fn many_cases(alloc: Global, count: u32) -> Result<Cases, OutOfMemory> {
    let mut cases = pairs(alloc, &[])?;
    for case in 0..count {
        if cases.push((case.wrapping_mul(2), case % 3 + 1)).is_err() {
            return Err(OutOfMemory);
        }
    }
    Ok(cases)
}

/// A switch of so many cases among three blocks, one of which is an arm.
pub fn switch_sample(alloc: Global, count: u32) -> Result<Sample, OutOfMemory> {
    let mut blocks: List<Block> = List::new(alloc);
    let flat = Instr::Id {
        to: reg(7),
        op: IdOp::Flat,
        part: 0,
    };
    let cases = many_cases(alloc, count)?;
    let term = Term::Switch {
        value: int(7),
        default: 3,
        cases,
    };
    push_block(&mut blocks, plain_block(alloc, &[flat], term)?)?;
    push_block(&mut blocks, plain_block(alloc, &[], Term::Go(3))?)?;
    push_block(&mut blocks, plain_block(alloc, &[], Term::Go(3))?)?;
    push_block(&mut blocks, plain_block(alloc, &[], Term::Ret)?)?;
    let nodes = [
        Node::Leaf(0),
        Node::Leaf(1),
        Node::Leaf(2),
        Node::Leaf(3),
        Node::Arm(0, 1, 1),
        Node::Then(4, 2, 2),
        Node::Then(5, 3, 3),
    ];
    bare(alloc, [1, 1, 1], blocks, regions_of(alloc, &nodes)?)
}

/// A leaf for each of so many blocks.
fn leaves(alloc: Global, count: u32) -> Result<RegionList, OutOfMemory> {
    let mut list: RegionList = List::new(alloc);
    for block in 0..count {
        push_region(&mut list, Region::Leaf { block })?;
    }
    Ok(list)
}

/// Blocks of which each goes to the next, and the last returns.
fn chain_blocks(alloc: Global, count: u32) -> Result<List<Block>, OutOfMemory> {
    let mut blocks: List<Block> = List::new(alloc);
    for next in 1..count {
        push_block(&mut blocks, plain_block(alloc, &[], Term::Go(next))?)?;
    }
    push_block(&mut blocks, plain_block(alloc, &[], Term::Ret)?)?;
    Ok(blocks)
}

/// A chain of so many blocks under one dispatch.
pub fn dispatch_sample(alloc: Global, count: u32) -> Result<Sample, OutOfMemory> {
    let mut list = leaves(alloc, count)?;
    let arms = places(alloc, count)?;
    push_region(&mut list, Region::Dispatch { arms })?;
    bare(alloc, [64, 1, 1], chain_blocks(alloc, count)?, list)
}

/// A chain of so many blocks, each of which runs behind the ones before it where it is wanted.
pub fn chain_sample(alloc: Global, count: u32) -> Result<Sample, OutOfMemory> {
    let mut list = leaves(alloc, count)?;
    let mut first = 0;
    for block in 1..count {
        let place = list.len();
        let region = Region::Then {
            first,
            second: block,
            target: block,
        };
        push_region(&mut list, region)?;
        first = (place % 0x1_0000) as u32;
    }
    bare(alloc, [1, 1, 64], chain_blocks(alloc, count)?, list)
}
