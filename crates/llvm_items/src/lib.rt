//! Where the items of a bitstream stand: the blocks that are open around each, and the fields of each record.
#![tactic(auto)]

mod blocks;
mod item;

pub use blocks::OpenBlocks;
pub use item::{bit_of, code_of, fields_of, is_end, is_entry, is_record};
