ghost use Rattle.std.specs.Prelude.{◌≡◌, OnOk, []};
ghost use Rattle.dx_bitstream.specs.Given.{given_of, IsGivenTo};

use crate::fault::keep;
use crate::kind::BlockKind;
use crate::sound::SoundAbbreviation;
use dx_base::{List, OutOfMemory};
use std::alloc::Global;

/// The abbreviations that BLOCKINFO gave to the blocks of each kind, in order.
///
/// They only grow, so that a block keeps those given to it by their number at its entry.
#[derive(Drop)]
pub struct Info {
    info: List<SoundAbbreviation>,
    module: List<SoundAbbreviation>,
    constants: List<SoundAbbreviation>,
    function: List<SoundAbbreviation>,
    symbols: List<SoundAbbreviation>,
    metadata: List<SoundAbbreviation>,
    types: List<SoundAbbreviation>,
}

impl Info {
    /// Nothing is given to any block.
    pub fn new(alloc: Global) -> Info
        ensures { (kind : BlockKind) → given_of result kind ≡ [] }
    {
        Info {
            info: List::new(alloc),
            module: List::new(alloc),
            constants: List::new(alloc),
            function: List::new(alloc),
            symbols: List::new(alloc),
            metadata: List::new(alloc),
            types: List::new(alloc),
        }
    }

    /// What was given to the blocks of a kind.
    pub fn given(&self, kind: BlockKind) -> &List<SoundAbbreviation>
        ensures { result.now ≡ given_of self.now kind }
    {
        match kind {
            BlockKind::BlockInfo => &self.info,
            BlockKind::Module => &self.module,
            BlockKind::Constants => &self.constants,
            BlockKind::Function => &self.function,
            BlockKind::SymbolTable => &self.symbols,
            BlockKind::Metadata => &self.metadata,
            BlockKind::Types => &self.types,
        }
    }

    /// Gives an abbreviation to the blocks of a kind, behind those before.
    pub fn give(&mut self, kind: BlockKind, form: SoundAbbreviation) -> Result<(), OutOfMemory>
        ensures { OnOk result (IsGivenTo self.old self.new kind form) }
    {
        match kind {
            BlockKind::BlockInfo => keep(&mut self.info, form),
            BlockKind::Module => keep(&mut self.module, form),
            BlockKind::Constants => keep(&mut self.constants, form),
            BlockKind::Function => keep(&mut self.function, form),
            BlockKind::SymbolTable => keep(&mut self.symbols, form),
            BlockKind::Metadata => keep(&mut self.metadata, form),
            BlockKind::Types => keep(&mut self.types, form),
        }
    }
}
