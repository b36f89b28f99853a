ghost use Rattle.std.specs.Prelude.{◌≡◌, ◌++◌, ◌∷◌, ◌≤◌, [], OnOk, length};
ghost use Rattle.spirv_meaning.specs.Names.{block_name, text_words};
ghost use Rattle.spirv_code.specs.Frame as frames;
ghost use Rattle.spirv_code.specs.Frame.{name_of};
ghost use Rattle.spirv_code.specs.Plans.{inst};

use dx_base::OutOfMemory;
use dxil_form::Region;
use spirv_emit::{Code, operands_of};
use spirv_meaning::{first_word, write_name};
use spirv_regions::{Kind, label};
use spv_form::{Inst, Operands, op};
use std::alloc::Global;

/// Adds an operand.
pub fn push(operands: &mut Operands, word: u32) -> Result<(), OutOfMemory>
    ensures { OnOk result (operands.new ≡ operands.old ++ word ∷ []) }
{
    match operands.push(word) {
        Ok(()) => Ok(()),
        Err(_) => Err(OutOfMemory),
    }
}

/// Adds the words of a string: four bytes in each, the least significant first, with a zero byte and a fill of zeros.
#[tactic(auto, using(spirv_meaning::proofs::Texts::last_word, spirv_meaning::proofs::Texts::whole_word))]
fn push_text(operands: &mut Operands, text: &[u8]) -> Result<(), OutOfMemory>
    ensures { OnOk result (operands.new ≡ operands.old ++ text_words text.now) }
{
    push(operands, first_word(text))?;
    if text.len() < 4 {
        Ok(())
    } else {
        push_text(operands, &text[4..])
    }
}

/// Gives a label the name of a block.
fn name_block(alloc: Global, code: &mut Code, id: u32, block: u32) -> Result<(), OutOfMemory>
    ensures { OnOk result (code.new ≡ code.old ++ inst 5 (id ∷ block_name block) ∷ []) }
{
    let mut text = [0; 11];
    let from = write_name(&mut text, block);
    let mut operands = operands_of(alloc, &[id])?;
    push_text(&mut operands, &text[from..])?;
    code.push_inst(Inst {
        opcode: op::NAME,
        operands,
    })
}

/// Names the site of a leaf.
fn name(alloc: Global, code: &mut Code, place: u32, region: &Region) -> Result<(), OutOfMemory>
    requires { place ≤ 0x0001_0000 }
    ensures { OnOk result (code.new ≡ code.old ++ name_of place region.now) }
{
    match region {
        Region::Leaf { block } => name_block(alloc, code, label(place, Kind::Site), *block),
        Region::Then { .. } | Region::Loop { .. } | Region::Dispatch { .. } | Region::Arms { .. } =>
            { Ok(()) }
    }
}

/// Names the site of each leaf.
#[tactic(auto, using(crate::proofs::Numbered::names_next))]
pub fn name_all(alloc: Global, code: &mut Code, list: &[Region]) -> Result<(), OutOfMemory>
    requires { length list.now ≤ 0x0001_0000 }
    ensures { OnOk result (code.new ≡ code.old ++ frames.names 0 list.now) }
{
    for (place, region) in list.iter().enumerate() {
        name(alloc, code, place as u32, region)?;
    }
    Ok(())
}
