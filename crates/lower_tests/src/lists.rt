use dx_base::{Cases, List, Numbers, OutOfMemory};
use dxil_form::{
    Block, Entry, EntryList, Instr, InstrList, Phi, PhiList, Region, RegionList, Term,
};
use std::alloc::Global;

/// A list of numbers.
pub fn numbers(alloc: Global, items: &[u32]) -> Result<Numbers, OutOfMemory> {
    let mut list: Numbers = List::new(alloc);
    for item in items {
        if list.push(*item).is_err() {
            return Err(OutOfMemory);
        }
    }
    Ok(list)
}

/// A list of pairs.
pub fn pairs(alloc: Global, items: &[(u32, u32)]) -> Result<Cases, OutOfMemory> {
    let mut list: Cases = List::new(alloc);
    for item in items {
        if list.push(*item).is_err() {
            return Err(OutOfMemory);
        }
    }
    Ok(list)
}

/// A list of entries.
pub fn entries(alloc: Global, items: &[Entry]) -> Result<EntryList, OutOfMemory> {
    let mut list: EntryList = List::new(alloc);
    for item in items {
        push_entry(&mut list, *item)?;
    }
    Ok(list)
}

pub fn push_entry(list: &mut EntryList, entry: Entry) -> Result<(), OutOfMemory> {
    match list.push(entry) {
        Ok(()) => Ok(()),
        Err(_) => Err(OutOfMemory),
    }
}

/// A list of instructions.
pub fn instrs(alloc: Global, items: &[Instr]) -> Result<InstrList, OutOfMemory> {
    let mut list: InstrList = List::new(alloc);
    for item in items {
        push_instr(&mut list, *item)?;
    }
    Ok(list)
}

pub fn push_instr(list: &mut InstrList, instr: Instr) -> Result<(), OutOfMemory> {
    match list.push(instr) {
        Ok(()) => Ok(()),
        Err(_) => Err(OutOfMemory),
    }
}

pub fn push_phi(list: &mut PhiList, phi: Phi) -> Result<(), OutOfMemory> {
    match list.push(phi) {
        Ok(()) => Ok(()),
        Err(_) => Err(OutOfMemory),
    }
}

pub fn push_block(list: &mut List<Block>, block: Block) -> Result<(), OutOfMemory> {
    match list.push(block) {
        Ok(()) => Ok(()),
        Err(_) => Err(OutOfMemory),
    }
}

pub fn push_region(list: &mut RegionList, region: Region) -> Result<(), OutOfMemory> {
    match list.push(region) {
        Ok(()) => Ok(()),
        Err(_) => Err(OutOfMemory),
    }
}

/// A block without phis.
pub fn plain_block(alloc: Global, lines: &[Instr], term: Term) -> Result<Block, OutOfMemory> {
    Ok(Block {
        phis: List::new(alloc),
        instrs: instrs(alloc, lines)?,
        term,
    })
}
