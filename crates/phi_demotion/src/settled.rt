ghost use Rattle.std.specs.Prelude.{◌≡◌, ◌/◌, ◌%◌, ◌^◌, ◌<◌, ◌||◌, ◌&&◌, ℕ, OnOk, nat_eq, map};
ghost use Rattle.std.specs.BTreeSet as tree;
ghost use Rattle.dxil_form.specs.declared.value.Ty.TheVariants.{Int};
ghost use Rattle.dxil_form.specs.Registers.{set_by, typed, part_of, parts_of};
ghost use Rattle.phi_demotion.specs.Reads.{key_of, key_cmp, is_key, has_key};

use dx_base::OutOfMemory;
use dxil_form::{Instr, Reg};
use std::collections::BTreeSet;

/// Registers, by the number of their value and their part.
pub(crate) type RegSet = BTreeSet<(u32, u8)>;

/// Whether a part stands in a mask.
pub(crate) fn has_part(mask: u8, part: u8) -> bool
    requires { part < 4 }
    ensures { result ≡ nat_eq (mask / 2 ^ part % 2) 1 }
{
    (mask >> part) % 2 == 1
}

/// Whether the register is in the set.
pub(crate) fn is_settled(settled: &RegSet, reg: Reg) -> bool
    ensures { result ≡ tree.contains key_cmp settled.now (key_of reg) }
{
    settled.contains(&(reg.value, reg.part))
}

/// Adds a register.
pub(crate) fn settle(settled: &mut RegSet, reg: Reg) -> Result<(), OutOfMemory>
    ensures { OnOk result ((q : ℕ × ℕ) → tree.contains key_cmp settled.new q ≡ (tree.contains key_cmp settled.old q || is_key (key_of reg) q)) }
{
    match settled.insert((reg.value, reg.part)) {
        Ok(_) => Ok(()),
        Err(_) => Err(OutOfMemory),
    }
}

/// Adds a part of a value where the mask has it.
fn settle_part(settled: &mut RegSet, value: u32, mask: u8, part: u8) -> Result<(), OutOfMemory>
    requires { part < 4 }
    ensures { OnOk result ((q : ℕ × ℕ) → tree.contains key_cmp settled.new q ≡ (tree.contains key_cmp settled.old q || (nat_eq (mask / 2 ^ part % 2) 1 && is_key (value, part) q))) }
{
    if has_part(mask, part) {
        settle(settled, Reg { value, part })
    } else {
        Ok(())
    }
}

/// Adds the parts of a value that a mask has.
fn settle_parts(settled: &mut RegSet, value: u32, mask: u8) -> Result<(), OutOfMemory>
    ensures { OnOk result ((q : ℕ × ℕ) → tree.contains key_cmp settled.new q ≡ (tree.contains key_cmp settled.old q || has_key (map (λ c. typed (part_of value c) Int) (parts_of mask)) q)) }
{
    settle_part(settled, value, mask, 0)?;
    settle_part(settled, value, mask, 1)?;
    settle_part(settled, value, mask, 2)?;
    settle_part(settled, value, mask, 3)
}

/// Adds the registers that an instruction sets.
pub(crate) fn settle_line(settled: &mut RegSet, instr: &Instr) -> Result<(), OutOfMemory>
    ensures { OnOk result ((q : ℕ × ℕ) → tree.contains key_cmp settled.new q ≡ (tree.contains key_cmp settled.old q || has_key (set_by instr.now) q)) }
{
    match *instr {
        Instr::Bin { to, .. } => settle(settled, to),
        Instr::Cmp { to, .. } => settle(settled, to),
        Instr::Cast { to, .. } => settle(settled, to),
        Instr::Select { to, .. } => settle(settled, to),
        Instr::Copy { to, .. } => settle(settled, to),
        Instr::One { to, .. } => settle(settled, to),
        Instr::Two { to, .. } => settle(settled, to),
        Instr::Mad { to, .. } => settle(settled, to),
        Instr::Id { to, .. } => settle(settled, to),
        Instr::Size { to, .. } => settle(settled, to),
        Instr::Atomic { to, .. } => settle(settled, to),
        Instr::Load { to, mask, .. } => settle_parts(settled, to, mask),
        Instr::Swap { to, .. } => settle_parts(settled, to, 3),
        Instr::Store { .. } => Ok(()),
        Instr::Barrier { .. } => Ok(()),
        Instr::Nothing => Ok(()),
    }
}
