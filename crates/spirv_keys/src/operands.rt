ghost use Rattle.std.specs.Prelude.{◌≡◌, OnOk};
ghost use Rattle.spirv_code.specs.Needed.{AreWords, add_all, operand_keys, two_keys};

use crate::table::{add, add_keys};
use dx_base::OutOfMemory;
use dxil_form::{Operand, Program};
use indexmap::IndexSet;
use spirv_code::{Global, sort_of, zero_of};

/// Notes what a read names.
pub fn add_operand(table: &mut IndexSet<Global>, p: &Program, a: Operand) -> Result<(), OutOfMemory>
    requires { AreWords p.now }
    ensures { OnOk result (table.new.keys ≡ add_all p.now table.old.keys (operand_keys a)) }
{
    match a {
        Operand::Reg { ty, .. } => add_keys(table, p, &[Global::Plain(sort_of(ty)), zero_of(ty)]),
        Operand::Int(n) => add(table, p, Global::Number(n)),
        Operand::Bool(b) => add(table, p, Global::Truth(b)),
        Operand::Undef(ty) => add(table, p, zero_of(ty)),
    }
}

/// Notes what two reads name.
#[tactic(auto, using(crate::proofs::Adding::add_all_more))]
pub fn add_two(
    table: &mut IndexSet<Global>,
    p: &Program,
    a: Operand,
    b: Operand,
) -> Result<(), OutOfMemory>
    requires { AreWords p.now }
    ensures { OnOk result (table.new.keys ≡ add_all p.now table.old.keys (two_keys a b)) }
{
    add_operand(table, p, a)?;
    add_operand(table, p, b)
}
