ghost use Rattle.std.specs.Prelude.{◌≡◌, ◌++◌, ◌+◌, ◌<◌, ◌^◌, IfOk, OnOk, Some, length, slice_get};
ghost use Rattle.spirv_code.specs.Leaves.{block_code, block_env, edge_code, edges_code, entry_operand, group_code, group_env, inner_code, leave_code, next_blocks, phi_code};
ghost use Rattle.spirv_code.specs.Plans.{result as id_at};
ghost use Rattle.spirv_code.specs.Reads.{no_register, read_size, with_id};
ghost use Rattle.spirv_table.specs.Known.{env_of};
ghost use Rattle.spirv_table.specs.Tables.{AreFew};
ghost use Rattle.spirv_emit.specs.Scenes.{context_in};
ghost use Rattle.spirv_lines.specs.Entered.{HasEntries, phi_at};

use crate::lines::write_lines;
use dx_base::OutOfMemory;
use dxil_form::{Block, Operand, Phi};
use spirv_emit::{Code, Scene, coming_slot, kept_slot, read};
use spirv_table::Known;
use spv_form::op;
use std::alloc::Global;

/// Writes a phi: what the block before left goes to the register's own variable.
fn write_phi(code: &mut Code, s: &Scene, known: &mut Known, phi: &Phi) -> Result<(), OutOfMemory>
    requires { AreFew s.now.tables.now }
    ensures code { OnOk result (code.new ≡ code.old ++ phi_code (context_in s.now) (length code.old) phi.now) }
    ensures env { OnOk result (env_of known.new ≡ with_id phi.now.to (id_at (context_in s.now) (length code.old)) (env_of known.old)) }
    ensures size { OnOk result (length code.new ≡ length code.old + 2) }
{
    let id = s.next(code);
    let coming = s.variable(coming_slot(phi.to, phi.ty));
    let kept = s.variable(kept_slot(phi.to, phi.ty));
    code.push(op::LOAD, &[s.type_of(phi.ty), id, coming])?;
    code.push(op::STORE, &[kept, id])?;
    known.set(phi.to, id)
}

/// Writes the phis of a block.
fn write_phis(
    code: &mut Code,
    s: &Scene,
    known: &mut Known,
    phis: &[Phi],
) -> Result<(), OutOfMemory>
    requires { AreFew s.now.tables.now }
    ensures code { OnOk result (code.new ≡ code.old ++ group_code (context_in s.now) (length code.old) phis.now) }
    ensures env { OnOk result (env_of known.new ≡ group_env (context_in s.now) (env_of known.old) (length code.old) phis.now) }
{
    for each in phis {
        write_phi(code, s, known, each)?;
    }
    Ok(())
}

/// What the n-th phi of block k takes from a block before it.
fn entry_for(s: &Scene, k: u32, n: u32, from: u32, phi: &Phi) -> Operand
    requires entries { HasEntries s.now }
    requires stands { phi_at (slice_get s.now.program.now.blocks k) n ≡ Some phi.now }
    ensures { result ≡ entry_operand from phi.now.ty phi.now.entries }
{
    match s.entries.get(k, n, from) {
        Some(value) => value,
        None => Operand::Undef(phi.ty),
    }
}

/// Leaves what the n-th phi of the next block, block k, takes.
fn leave(
    code: &mut Code,
    s: &Scene,
    known: &Known,
    from: u32,
    k: u32,
    n: u32,
    phi: &Phi,
) -> Result<(), OutOfMemory>
    requires few { AreFew s.now.tables.now }
    requires entries { HasEntries s.now }
    requires stands { phi_at (slice_get s.now.program.now.blocks k) n ≡ Some phi.now }
    ensures code { OnOk result (code.new ≡ code.old ++ leave_code (context_in s.now) (env_of known.now) (length code.old) phi.now (entry_operand from phi.now.ty phi.now.entries)) }
    ensures size { OnOk result (length code.new ≡ length code.old + (read_size (context_in s.now) (env_of known.now) (entry_operand from phi.now.ty phi.now.entries) + 1)) }
{
    let value = entry_for(s, k, n, from, phi);
    let id = read(code, s, known, value)?;
    let coming = s.variable(coming_slot(phi.to, phi.ty));
    code.push(op::STORE, &[coming, id])
}

/// Leaves what the phis of block k take.
#[tactic(auto, using(crate::proofs::Taken::stands_at))]
fn write_edge(
    code: &mut Code,
    s: &Scene,
    known: &Known,
    from: u32,
    k: u32,
    block: &Block,
) -> Result<(), OutOfMemory>
    requires few { AreFew s.now.tables.now }
    requires entries { HasEntries s.now }
    requires stands { slice_get s.now.program.now.blocks k ≡ Some block.now }
    requires words { length block.now.phis < 2 ^ 32 }
    ensures { OnOk result (code.new ≡ code.old ++ edge_code (context_in s.now) (env_of known.now) (length code.old) from block.now.phis) }
{
    for (n, phi) in block.phis.as_slice().iter().enumerate() {
        leave(code, s, known, from, k, n as u32, phi)?;
    }
    Ok(())
}

/// Leaves what the phis of each of the next blocks take.
#[tactic(auto, using(crate::proofs::Taken::few_phis))]
fn write_edges(
    code: &mut Code,
    s: &Scene,
    known: &Known,
    from: u32,
    targets: &[u32],
) -> Result<(), OutOfMemory>
    requires few { AreFew s.now.tables.now }
    requires entries { HasEntries s.now }
    ensures { OnOk result (code.new ≡ code.old ++ edges_code (context_in s.now) (env_of known.now) (length code.old) from targets.now) }
{
    for k in targets {
        if let Some(block) = s.program.blocks.get(*k as usize) {
            write_edge(code, s, known, from, *k, block)?;
        }
    }
    Ok(())
}

/// Writes the phis and the instructions of a block, behind its label.
fn write_inner(
    code: &mut Code,
    s: &Scene,
    known: &mut Known,
    block: &Block,
) -> Result<(), OutOfMemory>
    requires few { AreFew s.now.tables.now }
    requires begins { env_of known.old ≡ no_register }
    ensures code { OnOk result (code.new ≡ code.old ++ inner_code (context_in s.now) (length code.old) block.now) }
    ensures env { OnOk result (env_of known.new ≡ block_env (context_in s.now) (length code.old) block.now) }
{
    write_phis(code, s, known, block.phis.as_slice())?;
    write_lines(code, s, known, block.instrs.as_slice())
}

/// Writes the block of this number, behind its label, up to its branch. `targets` are the blocks that it may go to. It gives the registers that are known then.
pub fn write_block(
    alloc: Global,
    code: &mut Code,
    s: &Scene,
    from: u32,
    block: &Block,
    targets: &[u32],
) -> Result<Known, OutOfMemory>
    requires few { AreFew s.now.tables.now }
    requires entries { HasEntries s.now }
    requires targets { targets.now ≡ next_blocks block.now.term }
    ensures code { OnOk result (code.new ≡ code.old ++ block_code (context_in s.now) (length code.old) from block.now) }
    ensures env { IfOk result (λ known. env_of known ≡ block_env (context_in s.now) (length code.old) block.now) }
{
    let mut known = Known::new(alloc);
    write_inner(code, s, &mut known, block)?;
    write_edges(code, s, &known, from, targets)?;
    Ok(known)
}
