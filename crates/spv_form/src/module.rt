ghost use Rattle.std.specs.Prelude.{◌≡◌};
ghost use Rattle.spv_form.specs.Versions.{version_word, IsVersionOf};

use crate::operands::Operands;
use dx_base::List;
use std::mem::size_of;

/// An instruction: its opcode and the words behind its first word (SPIR-V 1.6, section 2.3).
#[derive(Clone, Debug, Drop)]
pub struct Inst {
    pub opcode: u16,
    pub operands: Operands,
}

const _: () = prove!(size_of::<Inst>() == 24);

/// The instructions of a module, in word order.
pub type InstList = List<Inst>;

/// The version of a module: SPIR-V 1.3 or 1.6.
#[derive(Clone, Copy, Debug, PartialEq, Eq)]
pub enum Version {
    V13,
    V16,
}

impl Version {
    /// Word 1 of the header of a module of this version.
    pub fn word(self) -> u32
        ensures { result ≡ version_word self }
    {
        match self {
            Version::V13 => 0x0001_0300,
            Version::V16 => 0x0001_0600,
        }
    }

    /// The version whose word this is; None where it is that of neither.
    pub fn of_word(word: u32) -> Option<Version>
        ensures { IsVersionOf result word }
    {
        match word {
            0x0001_0300 => Some(Version::V13),
            0x0001_0600 => Some(Version::V16),
            _ => None,
        }
    }
}

/// A module: of its header the version and the bound, which is above each id, and its instructions.
#[derive(Clone, Debug, Drop)]
pub struct Module {
    pub version: Version,
    pub bound: u32,
    pub insts: InstList,
}
