ghost use Rattle.std.specs.Prelude.{ℕ, ◌≡◌, ◌+◌, ◌≤◌, ◌^◌, ◌++◌, ◌∷◌, [], length, OnOk, IfOk, slice_get, Some, codes, replicate};
ghost use Rattle.std.specs.List.{flat_map, sum_by};
ghost use Rattle.dxbc_container.specs.Layout.{entry};
ghost use Rattle.container_writer.specs.Laying.{word, part_bytes, places_from, shader_head, shader_part, fixed, all_parts};
ghost use Rattle.container_writer.specs.Writing.{room, container_size, IsWritten};

use crate::part::{NewPart, NewParts};
use dx_base::{Bytes, List, Numbers, OutOfMemory};
use std::alloc::Global;

/// The bytes before the offset table.
const FIXED: u32 = 32;

/// The bytes of a part's header.
const HEADER: u32 = 8;

/// The bytes of the six numbers before the bitcode.
const SHADER_HEAD: u32 = 24;

/// Adds bytes at the end.
fn put(to: &mut Bytes, bytes: &[u8]) -> Result<(), OutOfMemory>
    ensures { OnOk result (to.new ≡ to.old ++ bytes.now) }
{
    for byte in bytes {
        if to.push(*byte).is_err() {
            return Err(OutOfMemory);
        }
    }
    Ok(())
}

/// Adds a number in four bytes, the least significant first.
#[tactic(auto, unfolding(crate::specs::Laying::word))]
fn put_number(to: &mut Bytes, number: u32) -> Result<(), OutOfMemory>
    ensures { OnOk result (to.new ≡ to.old ++ word number) }
{
    put(to, &number.to_le_bytes())
}

/// Where the parts stand in a container, and its size in bytes.
#[derive(Drop)]
struct Plan {
    places: Numbers,
    size: u32,
}

/// Lays the other parts and the DXIL part one behind the other.
fn plan_of(alloc: Global, others: &NewParts, bitcode: &Bytes) -> Result<Plan, OutOfMemory>
    requires small { container_size others.now bitcode.now ≤ 2 ^ 26 }
    ensures places { (minor : ℕ) → IfOk result (λ plan. plan.places ≡ places_from (entry (length others.now + 1)) (all_parts minor others.now bitcode.now)) }
    ensures size { IfOk result (λ plan. plan.size ≡ container_size others.now bitcode.now) }
{
    let mut places: Numbers = List::new(alloc);
    let mut at = FIXED + 4 * (others.len() as u32 + 1);
    for part in others.as_slice() {
        if places.push(at).is_err() {
            return Err(OutOfMemory);
        }
        at += HEADER + part.content.len() as u32;
    }
    if places.push(at).is_err() {
        return Err(OutOfMemory);
    }
    let size = at + HEADER + SHADER_HEAD + bitcode.len() as u32;
    Ok(Plan { places, size })
}

/// Adds the fixed bytes, for a container of so many bytes and parts.
#[tactic(auto, unfolding(crate::specs::Laying::fixed))]
fn put_fixed(to: &mut Bytes, size: u32, count: u32) -> Result<(), OutOfMemory>
    ensures { OnOk result (to.new ≡ to.old ++ fixed size count) }
{
    put(to, b"DXBC")?;
    put(to, &[0; 16])?;
    put_number(to, 1)?;
    put_number(to, size)?;
    put_number(to, count)
}

/// Adds the offset table.
fn put_table(to: &mut Bytes, places: &Numbers) -> Result<(), OutOfMemory>
    ensures { OnOk result (to.new ≡ to.old ++ flat_map word places.now) }
{
    for place in places.as_slice() {
        put_number(to, *place)?;
    }
    Ok(())
}

/// Adds a part.
#[tactic(auto, unfolding(crate::specs::Laying::part_bytes))]
fn put_part(to: &mut Bytes, part: &NewPart) -> Result<(), OutOfMemory>
    requires small { length part.now.content ≤ 2 ^ 26 }
    ensures bytes { OnOk result (to.new ≡ to.old ++ part_bytes part.now) }
    ensures name { length part.now.name ≡ 4 }
{
    put(to, &part.name)?;
    put_number(to, part.content.len() as u32)?;
    put(to, part.content.as_slice())
}

/// Adds the other parts.
fn put_parts(to: &mut Bytes, others: &NewParts) -> Result<(), OutOfMemory>
    requires small { sum_by room others.now ≤ 2 ^ 26 }
    ensures bytes { OnOk result (to.new ≡ to.old ++ flat_map part_bytes others.now) }
    ensures names { OnOk result ((i : ℕ) (part : NewPart) → slice_get others.now i ≡ Some part → length part.name ≡ 4) }
{
    for part in others.as_slice() {
        put_part(to, part)?;
    }
    Ok(())
}

/// Adds the six numbers before a bitcode of so many bytes.
#[tactic(auto, unfolding(crate::specs::Laying::shader_head))]
fn put_shader_head(to: &mut Bytes, minor: u32, size: u32) -> Result<(), OutOfMemory>
    requires minor { minor ≤ 2 }
    requires small { size ≤ 2 ^ 26 }
    ensures { OnOk result (to.new ≡ to.old ++ shader_head minor size) }
{
    put_number(to, 0x0005_0060 + minor)?;
    put_number(to, (size + 27) / 4)?;
    put(to, b"DXIL")?;
    put_number(to, 0x100 + minor)?;
    put_number(to, 16)?;
    put_number(to, size)
}

/// Adds the DXIL part.
fn put_shader(to: &mut Bytes, minor: u32, bitcode: &Bytes) -> Result<(), OutOfMemory>
    requires minor { minor ≤ 2 }
    requires small { length bitcode.now ≤ 2 ^ 26 }
    ensures { OnOk result (to.new ≡ to.old ++ part_bytes (shader_part minor bitcode.now)) }
{
    let size = bitcode.len() as u32;
    put(to, b"DXIL")?;
    put_number(to, SHADER_HEAD + size)?;
    put_shader_head(to, minor, size)?;
    put(to, bitcode.as_slice())
}

/// The bytes of a container: the other parts in their order, and behind them the part named `DXIL`.
///
/// The program is a compute shader of shader model 6.`minor`. The sixteen bytes of the digest are zero. A container has at most 2 to the power 26 bytes, and none of the other parts is named `DXIL`.
pub fn write_container(
    alloc: Global,
    minor: u32,
    others: &NewParts,
    bitcode: &Bytes,
) -> Result<Bytes, OutOfMemory>
    requires minor { minor ≤ 2 }
    requires names { (i : ℕ) (part : NewPart) → slice_get others.now i ≡ Some part → part.name ≡ codes "DXIL" → ⊥ }
    requires small { container_size others.now bitcode.now ≤ 2 ^ 26 }
    ensures { IfOk result (λ bytes. IsWritten minor others.now bitcode.now bytes) }
{
    let Plan { places, size } = plan_of(alloc, others, bitcode)?;
    let mut bytes: Bytes = List::new(alloc);
    put_fixed(&mut bytes, size, others.len() as u32 + 1)?;
    put_table(&mut bytes, &places)?;
    put_parts(&mut bytes, others)?;
    put_shader(&mut bytes, minor, bitcode)?;
    Ok(bytes)
}
