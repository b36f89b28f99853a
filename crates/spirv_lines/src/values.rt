ghost use Rattle.std.specs.Prelude.{◌≡◌, ◌∷◌, ◌++◌, ◌+◌, [], IfOk, OnOk, length};
ghost use Rattle.dxil_form.specs.declared.value.Ty.TheVariants.{Int};
ghost use Rattle.spirv_code.specs.Lines as lines;
ghost use Rattle.spirv_code.specs.Lines.{barrier_code, bin_code, cast_before, cast_code, component_code, copy_code, extreme_code, id_before, id_code, mad_code, one_code, select_code, value_code};
ghost use Rattle.spirv_code.specs.Plans.{result as id_at};
ghost use Rattle.spirv_code.specs.Reads.{read_id, read_size, second_id, three_code, three_size, two_size};
ghost use Rattle.spirv_table.specs.Known.{env_of};
ghost use Rattle.spirv_table.specs.Tables.{AreFew};
ghost use Rattle.spirv_emit.specs.Scenes.{context_in};

use dx_base::OutOfMemory;
use dxil_form::{BinOp, CastOp, CmpOp, IdOp, OneOp, Operand, Reg, Scope, TwoOp, Ty};
use spirv_code::{BuiltIn, Global, Sort, barrier_scope, barrier_semantics};
use spirv_emit::{Code, Scene, int_of_two, keep, read, read_two, truth_of_two};
use spirv_table::Known;
use spv_form::op;

/// The opcode of a binary operator.
pub fn bin_opcode(op: BinOp, ty: Ty) -> u16
    ensures { result ≡ lines.bin_opcode op ty }
{
    match (op, ty) {
        (BinOp::Add, _) => op::I_ADD,
        (BinOp::Sub, _) => op::I_SUB,
        (BinOp::Mul, _) => op::I_MUL,
        (BinOp::UDiv, _) => op::U_DIV,
        (BinOp::SDiv, _) => op::S_DIV,
        (BinOp::URem, _) => op::U_MOD,
        (BinOp::SRem, _) => op::S_REM,
        (BinOp::Shl, _) => op::SHIFT_LEFT_LOGICAL,
        (BinOp::LShr, _) => op::SHIFT_RIGHT_LOGICAL,
        (BinOp::AShr, _) => op::SHIFT_RIGHT_ARITHMETIC,
        (BinOp::And, Ty::Int) => op::BITWISE_AND,
        (BinOp::And, Ty::Bool) => op::LOGICAL_AND,
        (BinOp::Or, Ty::Int) => op::BITWISE_OR,
        (BinOp::Or, Ty::Bool) => op::LOGICAL_OR,
        (BinOp::Xor, Ty::Int) => op::BITWISE_XOR,
        (BinOp::Xor, Ty::Bool) => op::LOGICAL_NOT_EQUAL,
    }
}

/// The opcode of a compare.
pub fn cmp_opcode(op: CmpOp, ty: Ty) -> u16
    ensures { result ≡ lines.cmp_opcode op ty }
{
    match (op, ty) {
        (CmpOp::Eq, Ty::Int) => op::I_EQUAL,
        (CmpOp::Eq, Ty::Bool) => op::LOGICAL_EQUAL,
        (CmpOp::Ne, Ty::Int) => op::I_NOT_EQUAL,
        (CmpOp::Ne, Ty::Bool) => op::LOGICAL_NOT_EQUAL,
        (CmpOp::UGt, _) => op::U_GREATER_THAN,
        (CmpOp::UGe, _) => op::U_GREATER_THAN_EQUAL,
        (CmpOp::ULt, _) => op::U_LESS_THAN,
        (CmpOp::ULe, _) => op::U_LESS_THAN_EQUAL,
        (CmpOp::SGt, _) => op::S_GREATER_THAN,
        (CmpOp::SGe, _) => op::S_GREATER_THAN_EQUAL,
        (CmpOp::SLt, _) => op::S_LESS_THAN,
        (CmpOp::SLe, _) => op::S_LESS_THAN_EQUAL,
    }
}

/// The compare that chooses the second operand of a maximum or a minimum.
fn two_opcode(op: TwoOp) -> u16
    ensures { result ≡ lines.two_opcode op }
{
    match op {
        TwoOp::IMax => op::S_LESS_THAN,
        TwoOp::IMin => op::S_GREATER_THAN,
        TwoOp::UMax => op::U_LESS_THAN,
        TwoOp::UMin => op::U_GREATER_THAN,
    }
}

/// Appends an instruction of two operands whose result a register takes.
fn value_of_two(
    code: &mut Code,
    s: &Scene,
    to: Reg,
    ty: Ty,
    opcode: u16,
    a: u32,
    b: u32,
) -> Result<u32, OutOfMemory>
    requires { AreFew s.now.tables.now }
    ensures code { OnOk result (code.new ≡ code.old ++ value_code (context_in s.now) (length code.old) to ty opcode (a ∷ b ∷ [])) }
    ensures id { IfOk result (λ id. id ≡ id_at (context_in s.now) (length code.old)) }
{
    let id = s.next(code);
    code.push(opcode, &[s.type_of(ty), id, a, b])?;
    keep(code, s, to, ty, id)?;
    Ok(id)
}

/// Appends a choice whose result a register takes.
fn choice(
    code: &mut Code,
    s: &Scene,
    to: Reg,
    ty: Ty,
    x: u32,
    a: u32,
    b: u32,
) -> Result<u32, OutOfMemory>
    requires { AreFew s.now.tables.now }
    ensures code { OnOk result (code.new ≡ code.old ++ value_code (context_in s.now) (length code.old) to ty 169 (x ∷ a ∷ b ∷ [])) }
    ensures id { IfOk result (λ id. id ≡ id_at (context_in s.now) (length code.old)) }
{
    let id = s.next(code);
    code.push(op::SELECT, &[s.type_of(ty), id, x, a, b])?;
    keep(code, s, to, ty, id)?;
    Ok(id)
}

/// Appends an instruction of one operand whose result a register takes.
fn value_of_one(
    code: &mut Code,
    s: &Scene,
    to: Reg,
    opcode: u16,
    a: u32,
) -> Result<u32, OutOfMemory>
    requires { AreFew s.now.tables.now }
    ensures code { OnOk result (code.new ≡ code.old ++ value_code (context_in s.now) (length code.old) to Int opcode (a ∷ [])) }
    ensures id { IfOk result (λ id. id ≡ id_at (context_in s.now) (length code.old)) }
{
    let id = s.next(code);
    code.push(opcode, &[s.int(), id, a])?;
    keep(code, s, to, Ty::Int, id)?;
    Ok(id)
}

/// Writes an operation of two operands, or a compare.
pub fn bin(
    code: &mut Code,
    s: &Scene,
    known: &Known,
    to: Reg,
    ty: Ty,
    opcode: u16,
    a: Operand,
    b: Operand,
) -> Result<u32, OutOfMemory>
    requires { AreFew s.now.tables.now }
    ensures code { OnOk result (code.new ≡ code.old ++ bin_code (context_in s.now) (env_of known.now) (length code.old) to ty opcode a b) }
    ensures id { IfOk result (λ id. id ≡ id_at (context_in s.now) (length code.old + two_size (context_in s.now) (env_of known.now) a b)) }
{
    let (first, second) = read_two(code, s, known, a, b)?;
    value_of_two(code, s, to, ty, opcode, first, second)
}

/// Writes a cast.
pub fn cast(
    code: &mut Code,
    s: &Scene,
    known: &Known,
    to: Reg,
    op: CastOp,
    a: Operand,
) -> Result<u32, OutOfMemory>
    requires { AreFew s.now.tables.now }
    ensures code { OnOk result (code.new ≡ code.old ++ cast_code (context_in s.now) (env_of known.now) (length code.old) to op a) }
    ensures id { IfOk result (λ id. id ≡ id_at (context_in s.now) (length code.old + (read_size (context_in s.now) (env_of known.now) a + cast_before op))) }
{
    let id = read(code, s, known, a)?;
    match op {
        CastOp::Trunc => {
            let bit = int_of_two(code, s, op::BITWISE_AND, id, s.number(1))?;
            value_of_two(code, s, to, Ty::Bool, op::I_NOT_EQUAL, bit, s.number(0))
        }
        CastOp::Zext => choice(code, s, to, Ty::Int, id, s.number(1), s.number(0)),
        CastOp::Sext => choice(code, s, to, Ty::Int, id, s.number(u32::MAX), s.number(0)),
    }
}

/// Reads three operands, and gives the ids of their values.
fn read_three(
    code: &mut Code,
    s: &Scene,
    known: &Known,
    x: Operand,
    a: Operand,
    b: Operand,
) -> Result<(u32, u32, u32), OutOfMemory>
    requires { AreFew s.now.tables.now }
    ensures code { OnOk result (code.new ≡ code.old ++ three_code (context_in s.now) (env_of known.now) (length code.old) x a b) }
    ensures first { IfOk result (λ ids. ids.0 ≡ read_id (context_in s.now) (env_of known.now) (length code.old) x) }
    ensures second { IfOk result (λ ids. ids.1 ≡ read_id (context_in s.now) (env_of known.now) (length code.old + read_size (context_in s.now) (env_of known.now) x) a) }
    ensures third { IfOk result (λ ids. ids.2 ≡ second_id (context_in s.now) (env_of known.now) (length code.old + read_size (context_in s.now) (env_of known.now) x) a b) }
    ensures size { OnOk result (length code.new ≡ length code.old + three_size (context_in s.now) (env_of known.now) x a b) }
{
    let first = read(code, s, known, x)?;
    let (second, third) = read_two(code, s, known, a, b)?;
    Ok((first, second, third))
}

/// Writes a choice.
pub fn select(
    code: &mut Code,
    s: &Scene,
    known: &Known,
    to: Reg,
    ty: Ty,
    x: Operand,
    a: Operand,
    b: Operand,
) -> Result<u32, OutOfMemory>
    requires { AreFew s.now.tables.now }
    ensures code { OnOk result (code.new ≡ code.old ++ select_code (context_in s.now) (env_of known.now) (length code.old) to ty x a b) }
    ensures id { IfOk result (λ id. id ≡ id_at (context_in s.now) (length code.old + three_size (context_in s.now) (env_of known.now) x a b)) }
{
    let (x, first, second) = read_three(code, s, known, x, a, b)?;
    choice(code, s, to, ty, x, first, second)
}

/// Writes an operation on the bits of a number.
pub fn one(
    code: &mut Code,
    s: &Scene,
    known: &Known,
    to: Reg,
    op: OneOp,
    a: Operand,
) -> Result<u32, OutOfMemory>
    requires { AreFew s.now.tables.now }
    ensures code { OnOk result (code.new ≡ code.old ++ one_code (context_in s.now) (env_of known.now) (length code.old) to op a) }
    ensures id { IfOk result (λ id. id ≡ id_at (context_in s.now) (length code.old + read_size (context_in s.now) (env_of known.now) a)) }
{
    let id = read(code, s, known, a)?;
    match op {
        OneOp::Bfrev => value_of_one(code, s, to, op::BIT_REVERSE, id),
        OneOp::Countbits => value_of_one(code, s, to, op::BIT_COUNT, id),
    }
}

/// Writes a maximum or a minimum.
pub fn extreme(
    code: &mut Code,
    s: &Scene,
    known: &Known,
    to: Reg,
    op: TwoOp,
    a: Operand,
    b: Operand,
) -> Result<u32, OutOfMemory>
    requires { AreFew s.now.tables.now }
    ensures code { OnOk result (code.new ≡ code.old ++ extreme_code (context_in s.now) (env_of known.now) (length code.old) to op a b) }
    ensures id { IfOk result (λ id. id ≡ id_at (context_in s.now) (length code.old + (two_size (context_in s.now) (env_of known.now) a b + 1))) }
{
    let (first, second) = read_two(code, s, known, a, b)?;
    let wins = truth_of_two(code, s, two_opcode(op), first, second)?;
    choice(code, s, to, Ty::Int, wins, second, first)
}

/// Writes a product and a sum.
pub fn mad(
    code: &mut Code,
    s: &Scene,
    known: &Known,
    to: Reg,
    x: Operand,
    a: Operand,
    b: Operand,
) -> Result<u32, OutOfMemory>
    requires { AreFew s.now.tables.now }
    ensures code { OnOk result (code.new ≡ code.old ++ mad_code (context_in s.now) (env_of known.now) (length code.old) to x a b) }
    ensures id { IfOk result (λ id. id ≡ id_at (context_in s.now) (length code.old + (three_size (context_in s.now) (env_of known.now) x a b + 1))) }
{
    let (x, first, second) = read_three(code, s, known, x, a, b)?;
    let product = int_of_two(code, s, op::I_MUL, x, first)?;
    value_of_two(code, s, to, Ty::Int, op::I_ADD, product, second)
}

/// Writes a component of a vector that is loaded whole.
fn component(
    code: &mut Code,
    s: &Scene,
    to: Reg,
    number: BuiltIn,
    part: u8,
) -> Result<u32, OutOfMemory>
    requires { AreFew s.now.tables.now }
    ensures code { OnOk result (code.new ≡ code.old ++ component_code (context_in s.now) (length code.old) to number part) }
    ensures id { IfOk result (λ id. id ≡ id_at (context_in s.now) (length code.old + 1)) }
{
    let whole = s.next(code);
    let ty = s.key(Global::Plain(Sort::Triple));
    code.push(op::LOAD, &[ty, whole, s.key(Global::Input(number))])?;
    value_of_two(
        code,
        s,
        to,
        Ty::Int,
        op::COMPOSITE_EXTRACT,
        whole,
        u32::from(part),
    )
}

/// Writes a number of the invocation.
pub fn thread_number(
    code: &mut Code,
    s: &Scene,
    to: Reg,
    op: IdOp,
    part: u8,
) -> Result<u32, OutOfMemory>
    requires { AreFew s.now.tables.now }
    ensures code { OnOk result (code.new ≡ code.old ++ id_code (context_in s.now) (length code.old) to op part) }
    ensures id { IfOk result (λ id. id ≡ id_at (context_in s.now) (length code.old + id_before op)) }
{
    match op {
        IdOp::Thread => component(code, s, to, BuiltIn::GlobalInvocationId, part),
        IdOp::Group => component(code, s, to, BuiltIn::WorkgroupId, part),
        IdOp::InGroup => component(code, s, to, BuiltIn::LocalInvocationId, part),
        IdOp::Flat => {
            let input = s.key(Global::Input(BuiltIn::LocalInvocationIndex));
            value_of_one(code, s, to, op::LOAD, input)
        }
    }
}

/// Writes a copy, and gives the id of what is copied.
pub fn copy(
    code: &mut Code,
    s: &Scene,
    known: &Known,
    to: Reg,
    ty: Ty,
    a: Operand,
) -> Result<u32, OutOfMemory>
    requires { AreFew s.now.tables.now }
    ensures code { OnOk result (code.new ≡ code.old ++ copy_code (context_in s.now) (env_of known.now) (length code.old) to ty a) }
    ensures id { IfOk result (λ id. id ≡ read_id (context_in s.now) (env_of known.now) (length code.old) a) }
{
    let id = read(code, s, known, a)?;
    keep(code, s, to, ty, id)?;
    Ok(id)
}

/// Writes a barrier.
pub fn barrier(
    code: &mut Code,
    s: &Scene,
    sync: bool,
    scope: Scope,
    uav: bool,
    shared: bool,
) -> Result<(), OutOfMemory>
    requires { AreFew s.now.tables.now }
    ensures { OnOk result (code.new ≡ code.old ++ barrier_code (context_in s.now) sync scope uav shared) }
{
    let memory = s.number(barrier_scope(scope));
    let semantics = s.number(barrier_semantics(uav, shared));
    if sync {
        code.push(op::CONTROL_BARRIER, &[s.number(2), memory, semantics])
    } else {
        code.push(op::MEMORY_BARRIER, &[memory, semantics])
    }
}
