ghost use Rattle.std.specs.Prelude.{◌≡◌, ◌↔◌, IsTrue, Some};
ghost use Rattle.std.specs.Option.{option_copied};
ghost use Rattle.dx_bitstream.specs.Places.{FindAnswer};

use crate::info::Info;
use crate::kind::BlockKind;
use crate::sound::SoundAbbreviation;
use crate::stack::Stack;
use bitstream_spelling::{FieldList, ItemList};
use dx_base::{BitCursor, List};

/// The most records of a bitstream.
pub const MOST_RECORDS: u64 = 1 << 22;

/// The most fields of all records and operands of all definitions of a bitstream.
pub const MOST_FIELDS: u64 = 1 << 24;

/// A block that is being read; the top has no kind.
#[derive(Drop)]
pub struct Open {
    pub kind: Option<BlockKind>,
    /// The bits of an abbreviation id in it.
    pub width: u32,
    /// How many abbreviations BLOCKINFO had given to its kind at its entry.
    pub given: usize,
    /// The abbreviations that it defined itself.
    pub own: List<SoundAbbreviation>,
    /// The block to which the definitions of a BLOCKINFO block belong.
    pub named: Option<u64>,
    /// Its stated length in words of 32 bits.
    pub words: u32,
    /// The bit of its entry.
    pub bit: u64,
    /// The bit of its content.
    pub content: u64,
}

/// What is read so far, and where.
#[derive(Drop)]
pub struct Reader<'a> {
    pub cursor: BitCursor<'a>,
    pub here: Open,
    /// The blocks around that one, the innermost on top.
    pub around: Stack<Open>,
    pub info: Info,
    /// How many operands the definitions had.
    pub operands: u64,
    /// How many records there were.
    pub records: u64,
    pub list: ItemList,
    pub fields: FieldList,
}

/// Whether it is a BLOCKINFO block.
pub fn is_info(here: &Open) -> bool
    ensures { IsTrue result ↔ (here.now.kind ≡ Some BlockKind.BlockInfo) }
{
    match here.kind {
        Some(BlockKind::BlockInfo) => true,
        Some(_) => false,
        None => false,
    }
}

/// The abbreviation of a block with this number, counted from 0: those of BLOCKINFO before its own.
pub fn find<'a>(info: &'a Info, here: &'a Open, number: u64) -> Option<&'a SoundAbbreviation>
    ensures { FindAnswer (option_copied result) info.now here.now number }
{
    let given = here.given as u64;
    if number >= given {
        return here.own.get((number - given) as usize);
    }
    match here.kind {
        Some(kind) => info.given(kind).get(number as usize),
        None => None,
    }
}
