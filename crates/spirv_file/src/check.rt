ghost use Rattle.std.specs.Prelude.{◌≤◌, ◌^◌, length};
ghost use Rattle.spirv_words.specs.Reading.{ReadAnswer};
ghost use Rattle.spirv_file.specs.Checking.{FileAnswer};

use dx_base::Bytes;
use spirv_words::read_module;
use spv_form::{CheckFault, Module};
use std::alloc::Global;
use structure_rules::check_module;

/// The module that a file holds, whose bytes are let go.
fn module_of(alloc: Global, bytes: Bytes) -> Result<Module, CheckFault>
    requires { length bytes ≤ 2 ^ 26 }
    ensures { ReadAnswer result bytes }
{
    read_module(alloc, bytes.as_slice())
}

/// Checks the words of a file of at most 2^26 bytes (SPIR-V 1.6, sections 2.3, 2.4 and 2.11).
///
/// The bytes are let go as soon as the module is read.
///
/// # Errors
///
/// The rule W of least word that is broken; where none is, the rule V of least word; where none of these is, the rule S of least word. Of several at one word the one of least number counts. A word counts from the first of the file. Or want of memory.
pub fn check_file(alloc: Global, bytes: Bytes) -> Result<(), CheckFault>
    requires { length bytes ≤ 2 ^ 26 }
    ensures { FileAnswer result bytes }
{
    match module_of(alloc, bytes) {
        Ok(module) => check_module(alloc, &module),
        Err(fault) => Err(fault),
    }
}
