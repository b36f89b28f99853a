ghost use Rattle.std.specs.Prelude.{◌≡◌, ◌++◌, ◌∷◌, [], ◌/◌, ◌%◌, ◌^◌, ◌<◌, OnOk, nat_eq, if◌then◌else◌, map};
ghost use Rattle.dxil_form.specs.Registers.{reads, in_address, pick, parts_of, unless_empty, term_operands};

use crate::settled::has_part;
use dx_base::{List, OutOfMemory};
use dxil_form::{Addr, Instr, Operand, Term};

/// Operands that are read.
pub type OperandList = List<Operand>;

/// Adds operands.
fn keep(list: &mut OperandList, operands: &[Operand]) -> Result<(), OutOfMemory>
    ensures { OnOk result (list.new ≡ list.old ++ operands.now) }
{
    for operand in operands {
        if list.push(*operand).is_err() {
            return Err(OutOfMemory);
        }
    }
    Ok(())
}

/// Adds the operands of an address.
fn keep_address(list: &mut OperandList, addr: Addr) -> Result<(), OutOfMemory>
    ensures { OnOk result (list.new ≡ list.old ++ in_address addr) }
{
    match addr {
        Addr::Byte { at } => keep(list, &[at]),
        Addr::Element { index, at, .. } => keep(list, &[index, at]),
        Addr::Row { index } => keep(list, &[index]),
        Addr::Index { index } => keep(list, &[index]),
    }
}

/// Adds the operands of the address of a load, unless it loads no part.
fn keep_load(list: &mut OperandList, mask: u8, addr: Addr) -> Result<(), OutOfMemory>
    ensures { OnOk result (list.new ≡ list.old ++ unless_empty (parts_of mask) (in_address addr)) }
{
    if has_part(mask, 0) || has_part(mask, 1) || has_part(mask, 2) || has_part(mask, 3) {
        keep_address(list, addr)
    } else {
        Ok(())
    }
}

/// Adds the value of a part where the mask has it.
fn keep_part(list: &mut OperandList, mask: u8, part: u8, value: Operand) -> Result<(), OutOfMemory>
    requires { part < 4 }
    ensures { OnOk result (list.new ≡ list.old ++ (if nat_eq (mask / 2 ^ part % 2) 1 then value ∷ [] else [])) }
{
    if has_part(mask, part) {
        keep(list, &[value])
    } else {
        Ok(())
    }
}

/// Adds the values of the parts that a mask has.
fn keep_values(
    list: &mut OperandList,
    mask: u8,
    x: Operand,
    y: Operand,
    z: Operand,
    w: Operand,
) -> Result<(), OutOfMemory>
    ensures { OnOk result (list.new ≡ list.old ++ map (λ c. pick c x y z w) (parts_of mask)) }
{
    keep_part(list, mask, 0, x)?;
    keep_part(list, mask, 1, y)?;
    keep_part(list, mask, 2, z)?;
    keep_part(list, mask, 3, w)
}

/// Adds the operands that an instruction may read.
pub fn keep_line(list: &mut OperandList, instr: &Instr) -> Result<(), OutOfMemory>
    ensures { OnOk result (list.new ≡ list.old ++ reads instr.now) }
{
    match *instr {
        Instr::Bin { a, b, .. } => keep(list, &[a, b]),
        Instr::Cmp { a, b, .. } => keep(list, &[a, b]),
        Instr::Cast { a, .. } => keep(list, &[a]),
        Instr::Select { cond, a, b, .. } => keep(list, &[cond, a, b]),
        Instr::Copy { a, .. } => keep(list, &[a]),
        Instr::One { a, .. } => keep(list, &[a]),
        Instr::Two { a, b, .. } => keep(list, &[a, b]),
        Instr::Mad { a, b, c, .. } => keep(list, &[a, b, c]),
        Instr::Id { .. } => Ok(()),
        Instr::Size { .. } => Ok(()),
        Instr::Load { mask, addr, .. } => keep_load(list, mask, addr),
        Instr::Store {
            mask,
            addr,
            x,
            y,
            z,
            w,
            ..
        } => {
            keep_address(list, addr)?;
            keep_values(list, mask, x, y, z, w)
        }
        Instr::Atomic { addr, value, .. } => {
            keep_address(list, addr)?;
            keep(list, &[value])
        }
        Instr::Swap {
            addr,
            compare,
            value,
            ..
        } => {
            keep_address(list, addr)?;
            keep(list, &[compare, value])
        }
        Instr::Barrier { .. } => Ok(()),
        Instr::Nothing => Ok(()),
    }
}

/// Adds the operands of a terminator.
pub fn keep_end(list: &mut OperandList, term: &Term) -> Result<(), OutOfMemory>
    ensures { OnOk result (list.new ≡ list.old ++ map (λ a. a.item) (term_operands term.now)) }
{
    match term {
        Term::Ret => Ok(()),
        Term::Unreachable => Ok(()),
        Term::Go(_) => Ok(()),
        Term::If { cond, .. } => keep(list, &[*cond]),
        Term::Switch { value, .. } => keep(list, &[*value]),
    }
}
