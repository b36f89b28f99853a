ghost use Rattle.std.specs.Prelude.{◌≡◌};
ghost use Rattle.bitstream_spelling.specs.Spelling.{reads};
ghost use Rattle.dx_bitstream.specs.Kinds.{number, id_of, KindAnswer, ReadAnswer};

use bitstream_values::Seen;

/// A block that is read in some place (LLVM 3.7 bitcode file format, "Standard Blocks" and "LLVM IR Blocks").
#[derive(Clone, Copy, Debug, PartialEq, Eq)]
pub enum BlockKind {
    BlockInfo,
    Module,
    Constants,
    Function,
    SymbolTable,
    Metadata,
    Types,
}

/// The block id of a kind.
pub fn number_of(kind: BlockKind) -> u64
    ensures { result ≡ number kind }
{
    match kind {
        BlockKind::BlockInfo => 0,
        BlockKind::Module => 8,
        BlockKind::Constants => 11,
        BlockKind::Function => 12,
        BlockKind::SymbolTable => 14,
        BlockKind::Metadata => 15,
        BlockKind::Types => 17,
    }
}

/// The kind of a block id; None where no block of that id is read anywhere.
pub fn kind_of(id: u64) -> Option<BlockKind>
    ensures { KindAnswer result id }
{
    match id {
        0 => Some(BlockKind::BlockInfo),
        8 => Some(BlockKind::Module),
        11 => Some(BlockKind::Constants),
        12 => Some(BlockKind::Function),
        14 => Some(BlockKind::SymbolTable),
        15 => Some(BlockKind::Metadata),
        17 => Some(BlockKind::Types),
        _ => None,
    }
}

/// Whether a block is read in the block around it, which has no kind at the top.
fn is_read(outer: Option<BlockKind>, inner: BlockKind) -> bool
    ensures { result ≡ reads (id_of outer) (number inner) }
{
    match outer {
        None => match inner {
            BlockKind::BlockInfo => true,
            BlockKind::Module => true,
            _ => false,
        },
        Some(BlockKind::Module) => match inner {
            BlockKind::Module => false,
            _ => true,
        },
        Some(BlockKind::Function) => match inner {
            BlockKind::Constants => true,
            _ => false,
        },
        Some(_) => false,
    }
}

/// The kind of a block that is read in the block around it; None where the block is passed over.
pub fn kind_in(outer: Option<BlockKind>, id: Seen) -> Option<BlockKind>
    ensures { ReadAnswer result outer id }
{
    let Seen::Small(small) = id else {
        return None;
    };
    let Some(kind) = kind_of(small) else {
        return None;
    };
    if is_read(outer, kind) {
        Some(kind)
    } else {
        None
    }
}
