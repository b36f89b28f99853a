//! The items of a bitstream, after the LLVM 3.7 bitcode file format (BitCodeFormat.rst, "Bitstream Format").
#![tactic(auto)]

mod definition;
mod end;
mod entry;
mod fault;
mod info;
mod kind;
mod read;
mod reader;
mod record;
mod sound;
mod stack;

pub use bitstream_spelling::{Abbreviation, FieldList, Item, ItemList, Items, Operand};
pub use read::read_items;
