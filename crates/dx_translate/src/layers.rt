ghost use Rattle.std.specs.Prelude.{◌≤◌, ◌^◌, length};
ghost use Rattle.bitstream_spelling.specs.Framed.{IsFramed};
ghost use Rattle.dxil_form.specs.Sound.{Sound};
ghost use Rattle.entry_read.specs.Entry.{entry_body};
ghost use Rattle.profile_tables.specs.Read.{IsRead};
ghost use Rattle.dx_translate.specs.Verdicts.{IsShaderVerdict, IsModuleVerdict, VerdictAnswer, TranslateAnswer, WordsAnswer};

use bitstream_spelling::Items;
use dx_base::{Fault, OutOfMemory, Words};
use dx_file::read_file;
use dxil_form::Program;
use dxil_profile::profile;
use entry_read::entry_is_read;
use llvm_shader::{Shader, read_shader};
use program_words::words_of;
use spv_form::Version;
use std::alloc::Global;

/// The words of the module of a program.
fn translate_program(alloc: Global, program: &Program, version: Version) -> Result<Words, Fault>
    requires { Sound program.now }
    ensures { WordsAnswer program.now version result }
{
    match words_of(alloc, program, version) {
        Ok(words) => Ok(words),
        Err(OutOfMemory) => Err(Fault::OutOfMemory),
    }
}

/// The words of the module of a shader.
fn translate_shader(alloc: Global, shader: &Shader, version: Version) -> Result<Words, Fault>
    requires { IsRead (entry_body shader.now.types shader.now.records shader.now.facts) shader.now.facts.local }
    ensures { VerdictAnswer (IsShaderVerdict version shader.now) result }
{
    match profile(alloc, &shader.types, &shader.records, &shader.facts) {
        Ok(program) => translate_program(alloc, &program, version),
        Err(fault) => Err(fault),
    }
}

/// The words of the module of the shader that the items of the bitcode state.
fn translate_items(alloc: Global, items: &Items, version: Version) -> Result<Words, Fault>
    requires { IsFramed items.now.list items.now.fields }
    ensures { VerdictAnswer (IsModuleVerdict version items.now.list items.now.fields) result }
{
    entry_is_read();
    match read_shader(alloc, items) {
        Ok(shader) => translate_shader(alloc, &shader, version),
        Err(fault) => Err(fault),
    }
}

/// The words of a module of this version for a container.
///
/// # Errors
///
/// The first refusal of the container, and behind it that of the bitstream, as `read_file` answers them. Where the file carries items, the first refusal of the module, as `read_shader` answers it. Where the module states a shader, the first refusal of the profile, as `profile` answers it. Or want of memory.
pub fn translate(alloc: Global, bytes: &[u8], version: Version) -> Result<Words, Fault>
    requires { length bytes.now ≤ 2 ^ 26 }
    ensures { TranslateAnswer version result bytes.now }
{
    match read_file(alloc, bytes) {
        Ok(file) => translate_items(alloc, &file.items, version),
        Err(fault) => Err(fault),
    }
}
