ghost use Rattle.std.specs.Prelude.{◌≡◌, ◌++◌, OnOk, length};
ghost use Rattle.dxil_form.specs.Registers.{parts_of};
ghost use Rattle.spirv_code.specs.Lines.{line_code, line_env, lines_code, lines_env, load_event, parts_code, parts_env, store_event};
ghost use Rattle.spirv_table.specs.Known.{env_of};
ghost use Rattle.spirv_table.specs.Tables.{AreFew};
ghost use Rattle.spirv_emit.specs.Scenes.{context_in};

use crate::values::{
    barrier, bin, bin_opcode, cast, cmp_opcode, copy, extreme, mad, one, select, thread_number,
};
use dx_base::OutOfMemory;
use dxil_form::{Addr, Instr, Operand, Reg, Target, Ty};
use spirv_code::{Event, PARTS, has_part, pick};
use spirv_emit::{Code, Scene, keep, length_of, write_part};
use spirv_table::Known;

/// Writes the parts of a load.
fn load(
    code: &mut Code,
    s: &Scene,
    known: &mut Known,
    to: u32,
    mask: u8,
    target: Target,
    addr: Addr,
) -> Result<(), OutOfMemory>
    requires { AreFew s.now.tables.now }
    ensures code { OnOk result (code.new ≡ code.old ++ parts_code (context_in s.now) (env_of known.old) (length code.old) target addr (load_event to) (parts_of mask)) }
    ensures env { OnOk result (env_of known.new ≡ parts_env (context_in s.now) (env_of known.old) addr (load_event to) (parts_of mask)) }
{
    for c in PARTS.as_slice() {
        if has_part(mask, *c) {
            let to = Reg {
                value: to,
                part: *c,
            };
            write_part(code, s, known, target, addr, *c, Event::Load { to })?;
        }
    }
    Ok(())
}

/// Writes the parts of a store.
fn store_parts(
    code: &mut Code,
    s: &Scene,
    known: &mut Known,
    mask: u8,
    target: Target,
    addr: Addr,
    x: Operand,
    y: Operand,
    z: Operand,
    w: Operand,
) -> Result<(), OutOfMemory>
    requires { AreFew s.now.tables.now }
    ensures code { OnOk result (code.new ≡ code.old ++ parts_code (context_in s.now) (env_of known.old) (length code.old) target addr (store_event x y z w) (parts_of mask)) }
    ensures env { OnOk result (env_of known.new ≡ parts_env (context_in s.now) (env_of known.old) addr (store_event x y z w) (parts_of mask)) }
{
    for c in PARTS.as_slice() {
        if has_part(mask, *c) {
            let value = pick(*c, x, y, z, w);
            write_part(code, s, known, target, addr, *c, Event::Store { value })?;
        }
    }
    Ok(())
}

/// Writes an instruction, and notes the register that it sets.
pub fn line(code: &mut Code, s: &Scene, known: &mut Known, line: &Instr) -> Result<(), OutOfMemory>
    requires { AreFew s.now.tables.now }
    ensures code { OnOk result (code.new ≡ code.old ++ line_code (context_in s.now) (env_of known.old) (length code.old) line.now) }
    ensures env { OnOk result (env_of known.new ≡ line_env (context_in s.now) (env_of known.old) (length code.old) line.now) }
{
    match *line {
        Instr::Bin { to, op, ty, a, b } => {
            let id = bin(code, s, known, to, ty, bin_opcode(op, ty), a, b)?;
            known.set(to, id)
        }
        Instr::Cmp { to, op, ty, a, b } => {
            let id = bin(code, s, known, to, Ty::Bool, cmp_opcode(op, ty), a, b)?;
            known.set(to, id)
        }
        Instr::Cast { to, op, a } => {
            let id = cast(code, s, known, to, op, a)?;
            known.set(to, id)
        }
        Instr::Select { to, ty, cond, a, b } => {
            let id = select(code, s, known, to, ty, cond, a, b)?;
            known.set(to, id)
        }
        Instr::Copy { to, ty, a } => {
            let id = copy(code, s, known, to, ty, a)?;
            known.set(to, id)
        }
        Instr::One { to, op, a } => {
            let id = one(code, s, known, to, op, a)?;
            known.set(to, id)
        }
        Instr::Two { to, op, a, b } => {
            let id = extreme(code, s, known, to, op, a, b)?;
            known.set(to, id)
        }
        Instr::Mad { to, a, b, c } => {
            let id = mad(code, s, known, to, a, b, c)?;
            known.set(to, id)
        }
        Instr::Id { to, op, part } => {
            let id = thread_number(code, s, to, op, part)?;
            known.set(to, id)
        }
        Instr::Size { to, buffer } => {
            let id = length_of(code, s, Target::Buffer(buffer))?;
            keep(code, s, to, Ty::Int, id)?;
            known.set(to, id)
        }
        Instr::Load {
            to,
            mask,
            target,
            addr,
        } => load(code, s, known, to, mask, target, addr),
        Instr::Store {
            mask,
            target,
            addr,
            x,
            y,
            z,
            w,
        } => { store_parts(code, s, known, mask, target, addr, x, y, z, w) }
        Instr::Atomic {
            to,
            op,
            target,
            addr,
            value,
        } => {
            write_part(
                code,
                s,
                known,
                target,
                addr,
                0,
                Event::Atomic { to, op, value },
            )
        }
        Instr::Swap {
            to,
            target,
            addr,
            compare,
            value,
        } => {
            let old = Reg { value: to, part: 0 };
            let same = Reg { value: to, part: 1 };
            write_part(
                code,
                s,
                known,
                target,
                addr,
                0,
                Event::Swap {
                    old,
                    same,
                    compare,
                    value,
                },
            )
        }
        Instr::Barrier {
            sync,
            scope,
            uav,
            shared,
        } => barrier(code, s, sync, scope, uav, shared),
        Instr::Nothing => Ok(()),
    }
}

/// Writes the instructions of a block.
pub(crate) fn write_lines(
    code: &mut Code,
    s: &Scene,
    known: &mut Known,
    instrs: &[Instr],
) -> Result<(), OutOfMemory>
    requires { AreFew s.now.tables.now }
    ensures code { OnOk result (code.new ≡ code.old ++ lines_code (context_in s.now) (env_of known.old) (length code.old) instrs.now) }
    ensures env { OnOk result (env_of known.new ≡ lines_env (context_in s.now) (env_of known.old) (length code.old) instrs.now) }
{
    for instr in instrs {
        line(code, s, known, instr)?;
    }
    Ok(())
}
