ghost use Rattle.std.specs.Prelude.{◌≡◌, OnOk};
ghost use Rattle.dxil_form.specs.Registers.{parts_of};
ghost use Rattle.spirv_code.specs.Lines.{load_event, store_event};
ghost use Rattle.spirv_code.specs.Needed as needed;
ghost use Rattle.spirv_code.specs.Needed.{AreWords, access_keys, add_all, address_keys, event_keys, parts_keys};
ghost use Rattle.spirv_keys.specs.Elements.{element_numbers};

use crate::operands::{add_operand, add_two};
use crate::table::{add, add_keys};
use dx_base::OutOfMemory;
use dxil_form::{Addr, Operand, Program, Reg, Target};
use indexmap::IndexSet;
use spirv_code::{
    Event, Global, PARTS, Sort, Storage, has_part, is_never, limit_of, pick, scope_of,
};

/// The variable of a memory.
fn target_key(target: Target) -> Global
    ensures { result ≡ needed.target_key target }
{
    match target {
        Target::Buffer(r) => Global::Buffer(r),
        Target::Shared(a) => Global::Shared(a),
    }
}

/// The type of a pointer to a word.
fn pointer(storage: Storage) -> Global
    ensures { result ≡ needed.word_pointer storage }
{
    let to = Sort::Int;
    Global::Pointer { storage, to }
}

/// Notes what the operands of an address name.
fn add_reads(table: &mut IndexSet<Global>, p: &Program, addr: Addr) -> Result<(), OutOfMemory>
    requires { AreWords p.now }
    ensures { OnOk result (table.new.keys ≡ add_all p.now table.old.keys (needed.place_reads addr)) }
{
    match addr {
        Addr::Byte { at } => add_operand(table, p, at),
        Addr::Element { index, at, .. } => add_two(table, p, at, index),
        Addr::Row { index } | Addr::Index { index } => add_operand(table, p, index),
    }
}

/// Notes what the address and the range test of a part of an element name besides.
fn add_element(
    table: &mut IndexSet<Global>,
    p: &Program,
    stride: u32,
    part: u8,
) -> Result<(), OutOfMemory>
    requires { AreWords p.now }
    ensures { OnOk result (table.new.keys ≡ add_all p.now table.old.keys (element_numbers stride part)) }
{
    let part = u32::from(part);
    let most = stride.saturating_sub(4 + 4 * part);
    add_keys(
        table,
        p,
        &[
            Global::Number(2),
            Global::Number(0),
            Global::Number(part),
            Global::Number(stride / 4),
            Global::Number(most),
            pointer(Storage::StorageBuffer),
        ],
    )
}

/// Notes what the address and the range test of a part name besides.
fn add_numbers(
    table: &mut IndexSet<Global>,
    p: &Program,
    target: Target,
    addr: Addr,
    part: u8,
) -> Result<(), OutOfMemory>
    requires { AreWords p.now }
    ensures { OnOk result (table.new.keys ≡ add_all p.now table.old.keys (needed.place_numbers p.now target addr part)) }
{
    let zero = Global::Number(0);
    let two = Global::Number(2);
    let limit = Global::Number(limit_of(p, target));
    let number = Global::Number(u32::from(part));
    match addr {
        Addr::Byte { .. } => {
            add_keys(
                table,
                p,
                &[two, zero, number, pointer(Storage::StorageBuffer)],
            )
        }
        Addr::Element { stride, .. } => add_element(table, p, stride, part),
        Addr::Row { .. } => {
            add_keys(table, p, &[limit, zero, number, pointer(Storage::Uniform)])
        }
        Addr::Index { .. } => add_keys(table, p, &[limit, pointer(Storage::Workgroup)]),
    }
}

/// Notes what the address and the range test of a part name.
#[tactic(auto, using(crate::proofs::Adding::add_all_more))]
fn add_address(
    table: &mut IndexSet<Global>,
    p: &Program,
    target: Target,
    addr: Addr,
    part: u8,
) -> Result<(), OutOfMemory>
    requires { AreWords p.now }
    ensures { OnOk result (table.new.keys ≡ add_all p.now table.old.keys (address_keys p.now target addr part)) }
{
    add_reads(table, p, addr)?;
    add_numbers(table, p, target, addr, part)
}

/// Notes what an event names besides its address.
#[tactic(auto, using(crate::proofs::Adding::add_all_more))]
fn add_event(
    table: &mut IndexSet<Global>,
    p: &Program,
    target: Target,
    event: Event,
) -> Result<(), OutOfMemory>
    requires { AreWords p.now }
    ensures { OnOk result (table.new.keys ≡ add_all p.now table.old.keys (event_keys target event)) }
{
    let zero = Global::Number(0);
    let scope = Global::Number(scope_of(target));
    match event {
        Event::Load { .. } => add(table, p, zero),
        Event::Store { value } => add_operand(table, p, value),
        Event::Atomic { value, .. } => {
            add_keys(table, p, &[scope, zero])?;
            add_operand(table, p, value)
        }
        Event::Swap { compare, value, .. } => {
            add_keys(table, p, &[scope, zero, Global::Truth(false)])?;
            add_two(table, p, value, compare)
        }
    }
}

/// Notes what the test and the pointer of a part name, unless it has no room in any element.
fn add_place(
    table: &mut IndexSet<Global>,
    p: &Program,
    target: Target,
    addr: Addr,
    part: u8,
) -> Result<(), OutOfMemory>
    requires { AreWords p.now }
    ensures { OnOk result (table.new.keys ≡ add_all p.now table.old.keys (needed.place_keys p.now target addr part)) }
{
    if is_never(addr, part) {
        return Ok(());
    }
    add(table, p, target_key(target))?;
    add_address(table, p, target, addr, part)
}

/// Notes what one part of an access names.
#[tactic(auto, using(crate::proofs::Adding::add_all_more))]
pub fn add_access(
    table: &mut IndexSet<Global>,
    p: &Program,
    target: Target,
    addr: Addr,
    part: u8,
    event: Event,
) -> Result<(), OutOfMemory>
    requires { AreWords p.now }
    ensures { OnOk result (table.new.keys ≡ add_all p.now table.old.keys (access_keys p.now target addr part event)) }
{
    add_keys(
        table,
        p,
        &[Global::Plain(Sort::Int), Global::Plain(Sort::Bool)],
    )?;
    add_event(table, p, target, event)?;
    add_place(table, p, target, addr, part)
}

/// Notes what the parts of a load name.
#[tactic(auto, using(crate::proofs::Adding::add_all_more))]
pub fn add_load(
    table: &mut IndexSet<Global>,
    p: &Program,
    to: u32,
    mask: u8,
    target: Target,
    addr: Addr,
) -> Result<(), OutOfMemory>
    requires { AreWords p.now }
    ensures { OnOk result (table.new.keys ≡ add_all p.now table.old.keys (parts_keys p.now target addr (load_event to) (parts_of mask))) }
{
    for c in PARTS.as_slice() {
        if has_part(mask, *c) {
            let to = Reg {
                value: to,
                part: *c,
            };
            add_access(table, p, target, addr, *c, Event::Load { to })?;
        }
    }
    Ok(())
}

/// Notes what the parts of a store name.
#[tactic(auto, using(crate::proofs::Adding::add_all_more))]
pub fn add_store(
    table: &mut IndexSet<Global>,
    p: &Program,
    mask: u8,
    target: Target,
    addr: Addr,
    x: Operand,
    y: Operand,
    z: Operand,
    w: Operand,
) -> Result<(), OutOfMemory>
    requires { AreWords p.now }
    ensures { OnOk result (table.new.keys ≡ add_all p.now table.old.keys (parts_keys p.now target addr (store_event x y z w) (parts_of mask))) }
{
    for c in PARTS.as_slice() {
        if has_part(mask, *c) {
            let value = pick(*c, x, y, z, w);
            add_access(table, p, target, addr, *c, Event::Store { value })?;
        }
    }
    Ok(())
}
