ghost use Rattle.std.specs.Prelude.{◌≡◌, ◌++◌, ◌∷◌, ◌+◌, ◌≤◌, [], IfOk, OnOk, length, nat_eq};
ghost use Rattle.indexmap.specs.IndexMap.{get};
ghost use Rattle.spirv_code.specs.Plans.{result as id_at};
ghost use Rattle.spirv_code.specs.Exits as exits;
ghost use Rattle.spirv_code.specs.Exits.{choose_code, exit_branch, is_wanted, pairs, setter_code, setters_code, switch_inst, want_inst};
ghost use Rattle.spirv_table.specs.Tables.{AreFew};
ghost use Rattle.spirv_emit.specs.Scenes.{context_in};

use dx_base::OutOfMemory;
use dxil_form::Term;
use indexmap::{IndexMap, IndexSet};
use spirv_code::Slot;
use spirv_emit::{Code, Scene, operands_of, truth_of_two};
use spv_form::{Inst, Operands, op};
use std::alloc::Global;

/// Stores that a block is wanted.
pub fn want(code: &mut Code, s: &Scene, k: u32) -> Result<(), OutOfMemory>
    requires { AreFew s.now.tables.now }
    ensures { OnOk result (code.new ≡ code.old ++ want_inst (context_in s.now) k ∷ []) }
{
    code.push(op::STORE, &[s.variable(Slot::Want), s.number(k)])
}

/// Tests whether a block is wanted, and gives the id of the truth.
pub fn wanted(code: &mut Code, s: &Scene, k: u32) -> Result<u32, OutOfMemory>
    requires { AreFew s.now.tables.now }
    ensures code { OnOk result (code.new ≡ code.old ++ is_wanted (context_in s.now) (length code.old) k) }
    ensures id { IfOk result (λ id. id ≡ id_at (context_in s.now) (length code.old + 1)) }
    ensures size { OnOk result (length code.new ≡ length code.old + 2) }
{
    let value = s.next(code);
    code.push(op::LOAD, &[s.int(), value, s.variable(Slot::Want)])?;
    truth_of_two(code, s, op::I_EQUAL, value, s.number(k))
}

/// Writes a block which stores that a block is wanted.
fn setter(code: &mut Code, s: &Scene, meet: u32, k: u32) -> Result<(), OutOfMemory>
    requires { AreFew s.now.tables.now }
    ensures code { OnOk result (code.new ≡ code.old ++ setter_code (context_in s.now) (length code.old) meet k) }
    ensures size { OnOk result (length code.new ≡ length code.old + 3) }
{
    let label = s.next(code);
    code.push(op::LABEL, &[label])?;
    want(code, s, k)?;
    code.push(op::BRANCH, &[meet])
}

/// Writes such a block for each number.
pub fn setters(code: &mut Code, s: &Scene, meet: u32, blocks: &[u32]) -> Result<(), OutOfMemory>
    requires { AreFew s.now.tables.now }
    ensures { OnOk result (code.new ≡ code.old ++ setters_code (context_in s.now) (length code.old) meet blocks.now) }
{
    for k in blocks {
        setter(code, s, meet, *k)?;
    }
    Ok(())
}

/// Where the branches of a selection go: to the arm of the block, or else to its setter. The first setter has the label `first`.
#[derive(Clone, Copy)]
pub struct Ways<'a> {
    pub labels: &'a IndexMap<u32, u32>,
    pub loose: &'a IndexSet<u32>,
    pub first: u32,
}

/// The label for a block.
fn way_label(ways: &Ways, k: u32) -> u32
    requires first { ways.now.first ≤ 0x4400_0000 }
    requires few { length ways.now.loose.now.keys ≤ 0x0001_0000 }
    ensures { result ≡ exits.way_label (get nat_eq ways.now.labels.now) ways.now.first ways.now.loose.now.keys k }
{
    match ways.labels.get(&k) {
        Some(label) => *label,
        None => ways.first + 3 * place_in(ways.loose, k) as u32,
    }
}

/// The place of a number, or how many there are.
fn place_in(blocks: &IndexSet<u32>, k: u32) -> usize
    ensures place { result ≡ exits.place_in k blocks.now.keys }
    ensures within { result ≤ length blocks.now.keys }
{
    match blocks.get_index_of(&k) {
        Some(at) => at,
        None => blocks.len(),
    }
}

/// Adds an operand.
pub fn push(operands: &mut Operands, word: u32) -> Result<(), OutOfMemory>
    ensures { OnOk result (operands.new ≡ operands.old ++ word ∷ []) }
{
    match operands.push(word) {
        Ok(()) => Ok(()),
        Err(_) => Err(OutOfMemory),
    }
}

/// Adds the pairs of cases.
fn push_pairs(operands: &mut Operands, ways: &Ways, cases: &[(u32, u32)]) -> Result<(), OutOfMemory>
    requires first { ways.now.first ≤ 0x4400_0000 }
    requires few { length ways.now.loose.now.keys ≤ 0x0001_0000 }
    ensures { OnOk result (operands.new ≡ operands.old ++ pairs (exits.way_label (get nat_eq ways.now.labels.now) ways.now.first ways.now.loose.now.keys) cases.now) }
{
    for arm in cases {
        push(operands, arm.0)?;
        push(operands, way_label(ways, arm.1))?;
    }
    Ok(())
}

/// A switch: the id of what it tests, the label for other values, and the cases.
pub fn switch_to(
    alloc: Global,
    id: u32,
    other: u32,
    ways: &Ways,
    cases: &[(u32, u32)],
) -> Result<Inst, OutOfMemory>
    requires first { ways.now.first ≤ 0x4400_0000 }
    requires few { length ways.now.loose.now.keys ≤ 0x0001_0000 }
    ensures { IfOk result (λ x. x ≡ switch_inst (exits.way_label (get nat_eq ways.now.labels.now) ways.now.first ways.now.loose.now.keys) id other cases.now) }
{
    let mut operands = operands_of(alloc, &[id, other])?;
    push_pairs(&mut operands, ways, cases)?;
    Ok(Inst {
        opcode: op::SWITCH,
        operands,
    })
}

/// Writes the branch of a terminator that tests a value, which has this id.
fn branch(
    alloc: Global,
    code: &mut Code,
    id: u32,
    term: &Term,
    ways: &Ways,
) -> Result<(), OutOfMemory>
    requires first { ways.now.first ≤ 0x4400_0000 }
    requires few { length ways.now.loose.now.keys ≤ 0x0001_0000 }
    ensures { OnOk result (code.new ≡ code.old ++ exit_branch (exits.way_label (get nat_eq ways.now.labels.now) ways.now.first ways.now.loose.now.keys) id term.now) }
{
    match term {
        Term::Ret | Term::Unreachable | Term::Go(_) => Ok(()),
        Term::If { yes, no, .. } => {
            let there = way_label(ways, *yes);
            let other = way_label(ways, *no);
            code.push(op::BRANCH_CONDITIONAL, &[id, there, other])
        }
        Term::Switch { default, cases, .. } => {
            let other = way_label(ways, *default);
            let inst = switch_to(alloc, id, other, ways, cases.as_slice())?;
            code.push_inst(inst)
        }
    }
}

/// Writes the selection by the value that a terminator tests, which has this id.
fn choose_head(
    alloc: Global,
    code: &mut Code,
    meet: u32,
    id: u32,
    term: &Term,
    ways: &Ways,
) -> Result<(), OutOfMemory>
    requires first { ways.now.first ≤ 0x4400_0000 }
    requires few { length ways.now.loose.now.keys ≤ 0x0001_0000 }
    ensures { OnOk result (code.new ≡ code.old ++ exits.choose_head meet id term.now (get nat_eq ways.now.labels.now) ways.now.first ways.now.loose.now.keys) }
{
    code.push(op::SELECTION_MERGE, &[meet, 0])?;
    branch(alloc, code, id, term, ways)
}

/// Writes the selection among several blocks, and the setters of those without an arm. `id` is that of the value that the terminator tests.
pub fn choose(
    alloc: Global,
    code: &mut Code,
    s: &Scene,
    meet: u32,
    id: u32,
    term: &Term,
    labels: &IndexMap<u32, u32>,
    loose: &IndexSet<u32>,
) -> Result<(), OutOfMemory>
    requires few { AreFew s.now.tables.now }
    requires blocks { length loose.now.keys ≤ 0x0001_0000 }
    ensures { OnOk result (code.new ≡ code.old ++ choose_code (context_in s.now) (length code.old) meet id term.now (get nat_eq labels.now) loose.now.keys) }
{
    let first = s.next(code) + 2;
    let ways = Ways {
        labels,
        loose,
        first,
    };
    choose_head(alloc, code, meet, id, term, &ways)?;
    setters(code, s, meet, loose.as_slice())
}
