use crate::lists::{numbers, pairs, push_block, push_entry, push_phi, push_region};
use crate::maker::Maker;
use dx_base::{List, OutOfMemory};
use dxil_form::{
    Block, Class, Entry, EntryList, Kind, Phi, PhiList, Program, Reg, Region, RegionList, Resource,
    ResourceList, Term, Ty,
};
use phi_demotion::{PhiSlot, PhiSlotList, Slots};
use resource_map::{Binding, Bindings};
use std::alloc::Global;

/// How a block is left: by the numbers of its next blocks.
#[derive(Clone, Copy, Debug)]
pub enum Exit {
    Ret,
    Unreachable,
    Go(u32),
    If(u32, u32),
    /// The default, and the blocks of two cases.
    Switch(u32, u32, u32),
}

/// A region of a list; its parts go by their places.
#[derive(Clone, Copy, Debug)]
pub enum Node {
    Leaf(u32),
    Then(u32, u32, u32),
    Loop(u32, u32),
    /// A leaf with an arm: the leaf, the block and the region.
    Arm(u32, u32, u32),
    /// A leaf with two arms.
    Arms(u32, u32, u32, u32, u32),
    /// A dispatch over the first so many regions.
    Dispatch(u32),
}

/// A program with what it is lowered with.
#[derive(Drop)]
pub struct Sample {
    pub program: Program,
    pub regions: RegionList,
    pub slots: Slots,
    pub bindings: Bindings,
}

/// The regions of a list of nodes.
pub fn regions_of(alloc: Global, nodes: &[Node]) -> Result<RegionList, OutOfMemory> {
    let mut list: RegionList = List::new(alloc);
    for node in nodes {
        let region = region_of(alloc, *node)?;
        push_region(&mut list, region)?;
    }
    Ok(list)
}

fn region_of(alloc: Global, node: Node) -> Result<Region, OutOfMemory> {
    Ok(match node {
        Node::Leaf(block) => Region::Leaf { block },
        Node::Then(first, second, target) => Region::Then {
            first,
            second,
            target,
        },
        Node::Loop(body, head) => Region::Loop { body, head },
        Node::Arm(first, k, a) => Region::Arms {
            first,
            arms: pairs(alloc, &[(k, a)])?,
        },
        Node::Arms(first, k, a, l, b) => {
            Region::Arms {
                first,
                arms: pairs(alloc, &[(k, a), (l, b)])?,
            }
        }
        Node::Dispatch(count) => Region::Dispatch {
            arms: places(alloc, count)?,
        },
    })
}

/// The numbers from 0 on.
pub fn places(alloc: Global, count: u32) -> Result<List<u32>, OutOfMemory> {
    let mut list = numbers(alloc, &[])?;
    for place in 0..count {
        if list.push(place).is_err() {
            return Err(OutOfMemory);
        }
    }
    Ok(list)
}

/// A raw and three other buffers, of all layouts: the second is only read.
pub fn resources_of(alloc: Global) -> Result<ResourceList, OutOfMemory> {
    let mut list: ResourceList = List::new(alloc);
    let kinds = [
        (Class::Uav, Kind::Raw),
        (Class::Srv, Kind::Structured { stride: 12 }),
        (Class::Cbv, Kind::Constant { rows: 3 }),
        (Class::Uav, Kind::Structured { stride: 4 }),
    ];
    for (id, pair) in kinds.iter().enumerate() {
        let id = (id % 16) as u32;
        let resource = Resource {
            class: pair.0,
            id,
            space: 0,
            lower: id,
            kind: pair.1,
        };
        if list.push(resource).is_err() {
            return Err(OutOfMemory);
        }
    }
    Ok(list)
}

/// Binding 10 for the first resource, and so on, in set 0.
pub fn bindings_of(alloc: Global, count: u32) -> Result<Bindings, OutOfMemory> {
    let mut list: Bindings = List::new(alloc);
    for resource in 0..count {
        let binding = Binding {
            resource,
            set: 0,
            binding: resource.wrapping_add(10),
        };
        if list.push(binding).is_err() {
            return Err(OutOfMemory);
        }
    }
    Ok(list)
}

/// Whether a block may go to this one.
fn leads(exit: Exit, to: u32) -> bool {
    match exit {
        Exit::Ret | Exit::Unreachable => false,
        Exit::Go(k) => k == to,
        Exit::If(k, l) => k == to || l == to,
        Exit::Switch(k, l, m) => k == to || l == to || m == to,
    }
}

/// What a phi of a block takes from each block before it.
fn entries_of(
    alloc: Global,
    maker: &mut Maker,
    exits: &[Exit],
    block: u32,
    ty: Ty,
) -> Result<EntryList, OutOfMemory> {
    let mut entries: EntryList = List::new(alloc);
    for (from, exit) in exits.iter().enumerate() {
        if leads(*exit, block) {
            let from = (from % 0x1_0000) as u32;
            let value = maker.operand(from, ty)?;
            push_entry(&mut entries, Entry { from, value })?;
        }
    }
    Ok(entries)
}

/// Two registers that the phis of each block set, a number and a truth.
fn phi_registers(
    alloc: Global,
    maker: &mut Maker,
    count: u32,
) -> Result<Vec<(Reg, Reg)>, OutOfMemory> {
    let mut list = Vec::new(alloc);
    for block in 0..count {
        let number = maker.set(block, Ty::Int)?;
        let truth = maker.set(block, Ty::Bool)?;
        if list.push((number, truth)).is_err() {
            return Err(OutOfMemory);
        }
    }
    Ok(list)
}

/// The phis of a block.
fn phis_of(
    alloc: Global,
    maker: &mut Maker,
    exits: &[Exit],
    block: u32,
    to: (Reg, Reg),
) -> Result<PhiList, OutOfMemory> {
    let mut phis: PhiList = List::new(alloc);
    for (to, ty) in [(to.0, Ty::Int), (to.1, Ty::Bool)] {
        let entries = entries_of(alloc, maker, exits, block, ty)?;
        push_phi(&mut phis, Phi { to, ty, entries })?;
    }
    Ok(phis)
}

/// The terminator of a block.
fn term_of(alloc: Global, maker: &mut Maker, block: u32, exit: Exit) -> Result<Term, OutOfMemory> {
    Ok(match exit {
        Exit::Ret => Term::Ret,
        Exit::Unreachable => Term::Unreachable,
        Exit::Go(k) => Term::Go(k),
        Exit::If(yes, no) => {
            let cond = maker.operand(block, Ty::Bool)?;
            Term::If { cond, yes, no }
        }
        Exit::Switch(default, one, two) => {
            let value = maker.operand(block, Ty::Int)?;
            let cases = pairs(alloc, &[(1, one), (4, two), (7, default)])?;
            Term::Switch {
                value,
                default,
                cases,
            }
        }
    })
}

/// The slots of phis, by their registers.
fn phi_slots(alloc: Global, registers: &[(Reg, Reg)]) -> Result<PhiSlotList, OutOfMemory> {
    let mut slots: PhiSlotList = List::new(alloc);
    for pair in registers {
        for (reg, ty) in [(pair.0, Ty::Int), (pair.1, Ty::Bool)] {
            let slot = PhiSlot {
                reg,
                ty,
                next: 0,
                now: 0,
            };
            if slots.push(slot).is_err() {
                return Err(OutOfMemory);
            }
        }
    }
    Ok(slots)
}

/// Blocks with random instructions, each left as its exit says.
fn blocks_of(
    alloc: Global,
    maker: &mut Maker,
    exits: &[Exit],
    registers: &[(Reg, Reg)],
    most: u32,
) -> Result<List<Block>, OutOfMemory> {
    let mut blocks: List<Block> = List::new(alloc);
    for (at, (exit, to)) in exits.iter().zip(registers).enumerate() {
        let block = (at % 0x1_0000) as u32;
        let phis = phis_of(alloc, maker, exits, block, *to)?;
        let instrs = maker.lines(alloc, block, most)?;
        let term = term_of(alloc, maker, block, *exit)?;
        push_block(&mut blocks, Block { phis, instrs, term })?;
    }
    Ok(blocks)
}

/// A program with random instructions, at most so many in a block.
pub fn random_sample(
    alloc: Global,
    seed: u32,
    exits: &[Exit],
    nodes: &[Node],
    most: u32,
) -> Result<Sample, OutOfMemory> {
    let mut maker = Maker::new(alloc, seed);
    let count = exits.len().min(0xFFFF) as u32;
    let registers = phi_registers(alloc, &mut maker, count)?;
    let blocks = blocks_of(alloc, &mut maker, exits, registers.as_slice(), most)?;
    Ok(Sample {
        program: Program {
            local: [8, 4, 1],
            resources: resources_of(alloc)?,
            shared: numbers(alloc, &[4, 9])?,
            blocks,
        },
        regions: regions_of(alloc, nodes)?,
        slots: Slots {
            phis: phi_slots(alloc, registers.as_slice())?,
            crossing: maker.into_crossing(),
            count: 0,
        },
        bindings: bindings_of(alloc, 4)?,
    })
}
