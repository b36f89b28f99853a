//! The slots of a program's registers: two for each phi, and one for each register that crosses.
//!
//! A phi has two, so that the end of a block can read all entries of the next block's phis into their `next` slots, before the head of that block copies each
//! `next` to its `now`: the phis of a block read at once, also where they name each other.
#![tactic(auto)]

mod crossing;
mod reads;
mod settled;
mod slots;

pub use reads::{OperandList, keep_end, keep_line};
pub use slots::{CrossSlot, CrossSlotList, PhiSlot, PhiSlotList, Slots, demote};
