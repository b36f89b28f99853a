ghost use Rattle.std.specs.Prelude.{◌≡◌, IfOk, OnOk};
ghost use Rattle.std.specs.Ordering.{nat_cmp};
ghost use Rattle.std.specs.BTreeMap as tree;
ghost use Rattle.decoration_rules.specs.Decorations as said;

use dx_base::OutOfMemory;
use spv_form::{Inst, op};
use spv_ids::operand;
use std::alloc::Global;
use std::collections::BTreeMap;
use std::marker::Model;

/// The decorations, by their numbers in SPIR-V 1.6, "Decoration".
mod kind {
    pub const BLOCK: u32 = 2;

    pub const ARRAY_STRIDE: u32 = 6;

    pub const BUILT_IN: u32 = 11;

    pub const NON_WRITABLE: u32 = 24;

    pub const BINDING: u32 = 33;

    pub const DESCRIPTOR_SET: u32 = 34;

    pub const OFFSET: u32 = 35;
}

/// What the decorations of a module say of an id.
#[derive(Clone, Copy, Debug)]
pub struct Marks {
    /// The number of its first DescriptorSet that has one.
    pub set: Option<u32>,
    /// The number of its first Binding that has one.
    pub binding: Option<u32>,
    /// It has Block.
    pub block: bool,
    /// Its member 0 has Offset 0.
    pub first_offset: bool,
    /// It has ArrayStride 4 or 16.
    pub stride: bool,
    /// It is one of the four built-ins that a shader may read.
    pub built_in: bool,
    /// It has NonWritable.
    pub non_writable: bool,
}

const UNMARKED: Marks = Marks {
    set: None,
    binding: None,
    block: false,
    first_offset: false,
    stride: false,
    built_in: false,
    non_writable: false,
};

/// The instructions of a module, with what the decorations say of each id. Contracts see the instructions.
#[derive(Drop)]
pub struct Decorations<'a> {
    insts: &'a [Inst],
    marks: BTreeMap<u32, Marks>,
}

impl<'a> Model for Decorations<'a> {
    ghost use Rattle.std.specs.Prelude.{List};
    ghost use Rattle.std.specs.Ordering.{nat_cmp};
    ghost use Rattle.std.specs.BTreeMap as tree;
    ghost use Rattle.spv_form.specs.declared.module.Inst.{Inst as Instruction};
    ghost use Rattle.decoration_rules.specs.Decorations.{AreMarksOf};

    ghost Value = { List Instruction };

    ghost view = { λ s. s.insts.now };

    ghost invariant = { λ s. AreMarksOf (tree.get nat_cmp s.marks) s.insts.now };
}

impl<'a> Decorations<'a> {
    /// The decorations among these instructions.
    pub fn of(alloc: Global, insts: &'a [Inst]) -> Result<Decorations<'a>, OutOfMemory>
        ensures { IfOk result (λ decorations. decorations ≡ insts.now) }
    {
        let mut marks = BTreeMap::new(alloc);
        for inst in insts {
            keep_marks(&mut marks, inst)?;
        }
        Ok(Decorations { insts, marks })
    }

    /// What the decorations say of an id.
    pub fn marks(&self, id: u32) -> Marks
        ensures { result ≡ said.marks_of self.now id }
    {
        self.marks.get(&id).copied().unwrap_or(UNMARKED)
    }
}

/// Keeps what an instruction says of the id that it decorates.
fn keep_marks(marks: &mut BTreeMap<u32, Marks>, inst: &Inst) -> Result<(), OutOfMemory>
    ensures { OnOk result (said.IsMarked (tree.get nat_cmp marks.old) (tree.get nat_cmp marks.new) inst.now) }
{
    let Some(id) = target(inst) else {
        return Ok(());
    };
    let before = marks.get(&id).copied().unwrap_or(UNMARKED);
    match marks.insert(id, add(before, id, inst)) {
        Ok(_) => Ok(()),
        Err(_) => Err(OutOfMemory),
    }
}

/// The id that an instruction decorates.
fn target(inst: &Inst) -> Option<u32>
    ensures { result ≡ said.target inst.now }
{
    match inst.opcode {
        op::DECORATE | op::MEMBER_DECORATE => Some(operand(inst, 0)),
        _ => None,
    }
}

/// The marks with what an instruction says of the id.
#[tactic(auto, unfolding(crate::specs::Decorations::add))]
fn add(marks: Marks, id: u32, inst: &Inst) -> Marks
    ensures { result ≡ said.add id inst.now marks }
{
    Marks {
        set: or_number(marks.set, id, kind::DESCRIPTOR_SET, inst),
        binding: or_number(marks.binding, id, kind::BINDING, inst),
        block: marks.block || is_decoration(id, kind::BLOCK, inst),
        first_offset: marks.first_offset || is_first_offset(id, inst),
        stride: marks.stride || is_stride(id, inst),
        built_in: marks.built_in || is_built_in(id, inst),
        non_writable: marks.non_writable || is_decoration(id, kind::NON_WRITABLE, inst),
    }
}

/// The number that is there, or that of the decoration.
fn or_number(before: Option<u32>, id: u32, kind: u32, inst: &Inst) -> Option<u32>
    ensures { result ≡ said.or_number before id kind inst.now }
{
    if before.is_some() {
        before
    } else if is_numbered(id, kind, inst) {
        Some(operand(inst, 2))
    } else {
        None
    }
}

#[tactic(auto, unfolding(crate::specs::Decorations::is_decoration))]
fn is_decoration(id: u32, kind: u32, inst: &Inst) -> bool
    ensures { result ≡ said.is_decoration id kind inst.now }
{
    inst.opcode == op::DECORATE && operand(inst, 0) == id && operand(inst, 1) == kind
}

#[tactic(auto, unfolding(crate::specs::Decorations::is_numbered))]
fn is_numbered(id: u32, kind: u32, inst: &Inst) -> bool
    ensures { result ≡ said.is_numbered id kind inst.now }
{
    is_decoration(id, kind, inst) && inst.operands.len() > 2
}

#[tactic(auto, unfolding(crate::specs::Decorations::is_stride))]
fn is_stride(id: u32, inst: &Inst) -> bool
    ensures { result ≡ said.is_stride id inst.now }
{
    is_numbered(id, kind::ARRAY_STRIDE, inst) && (operand(inst, 2) == 4 || operand(inst, 2) == 16)
}

#[tactic(auto, unfolding(crate::specs::Decorations::is_built_in))]
fn is_built_in(id: u32, inst: &Inst) -> bool
    ensures { result ≡ said.is_built_in id inst.now }
{
    is_numbered(id, kind::BUILT_IN, inst) && operand(inst, 2) >= 26 && operand(inst, 2) <= 29
}

#[tactic(auto, unfolding(crate::specs::Decorations::is_first_offset))]
fn is_first_offset(id: u32, inst: &Inst) -> bool
    ensures { result ≡ said.is_first_offset id inst.now }
{
    inst.opcode == op::MEMBER_DECORATE
        && operand(inst, 0) == id
        && operand(inst, 1) == 0
        && operand(inst, 2) == kind::OFFSET
        && operand(inst, 3) == 0
}
