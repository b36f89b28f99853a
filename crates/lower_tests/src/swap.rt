use crate::graphs::{Node, Sample, bindings_of, regions_of};
use crate::lists::{entries, numbers, plain_block, push_block, push_phi};
use dx_base::{List, OutOfMemory};
use dxil_form::{BinOp, Block, CmpOp, Entry, Instr, Operand, Phi, PhiList, Program, Reg, Term, Ty};
use phi_demotion::{PhiSlot, PhiSlotList, Slots};
use std::alloc::Global;

fn int(value: u32) -> Operand {
    Operand::Reg {
        reg: Reg { value, part: 0 },
        ty: Ty::Int,
    }
}

/// A phi of block 1: its value from block 0, and from block 1 itself.
fn phi(alloc: Global, to: u32, first: u32, again: u32) -> Result<Phi, OutOfMemory> {
    let list = [
        Entry {
            from: 0,
            value: Operand::Int(first),
        },
        Entry {
            from: 1,
            value: int(again),
        },
    ];
    Ok(Phi {
        to: Reg { value: to, part: 0 },
        ty: Ty::Int,
        entries: entries(alloc, &list)?,
    })
}

/// Values 1 and 2 trade places each time that block 1 runs, and value 3 counts to three.
fn swap_blocks(alloc: Global) -> Result<List<Block>, OutOfMemory> {
    let more = Instr::Bin {
        to: Reg { value: 4, part: 0 },
        op: BinOp::Add,
        ty: Ty::Int,
        a: int(3),
        b: Operand::Int(1),
    };
    let test = Instr::Cmp {
        to: Reg { value: 5, part: 0 },
        op: CmpOp::ULt,
        ty: Ty::Int,
        a: int(4),
        b: Operand::Int(3),
    };
    let cond = Operand::Reg {
        reg: Reg { value: 5, part: 0 },
        ty: Ty::Bool,
    };
    let end = Term::If {
        cond,
        yes: 1,
        no: 2,
    };
    let mut ring = plain_block(alloc, &[more, test], end)?;
    let mut phis: PhiList = List::new(alloc);
    push_phi(&mut phis, phi(alloc, 1, 10, 2)?)?;
    push_phi(&mut phis, phi(alloc, 2, 20, 1)?)?;
    push_phi(&mut phis, phi(alloc, 3, 0, 4)?)?;
    ring.phis = phis;
    let mut blocks: List<Block> = List::new(alloc);
    push_block(&mut blocks, plain_block(alloc, &[], Term::Go(1))?)?;
    push_block(&mut blocks, ring)?;
    push_block(&mut blocks, plain_block(alloc, &[], Term::Ret)?)?;
    Ok(blocks)
}

/// Two slots for each of the three phis.
fn swap_slots(alloc: Global) -> Result<Slots, OutOfMemory> {
    let mut phis: PhiSlotList = List::new(alloc);
    for (value, next, now) in [(1, 0, 1), (2, 2, 3), (3, 4, 5)] {
        let slot = PhiSlot {
            reg: Reg { value, part: 0 },
            ty: Ty::Int,
            next,
            now,
        };
        if phis.push(slot).is_err() {
            return Err(OutOfMemory);
        }
    }
    Ok(Slots {
        phis,
        crossing: List::new(alloc),
        count: 6,
    })
}

/// A loop of one block whose phis read each other.
pub fn swap_sample(alloc: Global) -> Result<Sample, OutOfMemory> {
    let nodes = [
        Node::Leaf(0),
        Node::Leaf(1),
        Node::Leaf(2),
        Node::Loop(1, 1),
        Node::Then(0, 3, 1),
        Node::Then(4, 2, 2),
    ];
    Ok(Sample {
        program: Program {
            local: [1, 1, 1],
            resources: List::new(alloc),
            shared: numbers(alloc, &[])?,
            blocks: swap_blocks(alloc)?,
        },
        regions: regions_of(alloc, &nodes)?,
        slots: swap_slots(alloc)?,
        bindings: bindings_of(alloc, 0)?,
    })
}
