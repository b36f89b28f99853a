ghost use Rattle.std.specs.Prelude.{◌≡◌, [], OnOk, OnErr};
ghost use Rattle.bitstream_spelling.specs.Framed.{open_after};
ghost use Rattle.llvm_items.specs.Sites.{is_module, is_within, is_inside, is_record_of, is_record_of_module, is_record_inside, enters, enters_inside, ends, ends_module};

use crate::item::{is_end, is_entry, is_record};
use bitstream_spelling::Item;
use dx_base::OutOfMemory;
use std::alloc::Global;
use std::marker::Model;

/// The id of the module's block.
const MODULE: u64 = 8;

/// The ids of the blocks that are open at a place of the items, which contracts see from the innermost out.
#[derive(Drop)]
pub struct OpenBlocks {
    ids: Vec<u64>,
}

impl Model for OpenBlocks {
    ghost use Rattle.std.specs.Prelude.{List, ℕ, reverse};

    ghost Value = { List ℕ };

    ghost view = { λ s. reverse s.ids.items };
}

impl OpenBlocks {
    /// Before the first item no block is open.
    pub fn new(alloc: Global) -> Self
        ensures { result ≡ [] }
    {
        OpenBlocks {
            ids: Vec::new(alloc),
        }
    }

    /// Goes past an item; where memory runs out the same blocks are open as before.
    pub fn pass(&mut self, item: Item) -> Result<(), OutOfMemory>
        ensures ok { OnOk result (self.new ≡ open_after self.old item) }
        ensures err { OnErr result (self.new ≡ self.old) }
    {
        match item {
            Item::Enter { id, .. } => match self.ids.push(id) {
                Ok(()) => Ok(()),
                Err(_) => Err(OutOfMemory),
            },
            Item::End { .. } => {
                let _ = self.ids.pop();
                Ok(())
            }
            Item::Record { .. } => Ok(()),
            Item::Skip { .. } => Ok(()),
        }
    }

    /// Whether the module's block is the innermost one.
    pub fn is_module(&self) -> bool
        ensures { result ≡ is_module self.now }
    {
        self.ids.len() == 1 && self.ids[0] == MODULE
    }

    /// Whether a block of this id in the module is the innermost one.
    pub fn is_within(&self, id: u64) -> bool
        ensures { result ≡ is_within id self.now }
    {
        self.ids.len() == 2 && self.ids[1] == id && self.ids[0] == MODULE
    }

    /// Whether a block of this id, which stands directly in a block of the id `outer` of the module, is the innermost one.
    pub fn is_inside(&self, outer: u64, id: u64) -> bool
        ensures { result ≡ is_inside outer id self.now }
    {
        self.ids.len() == 3 && self.ids[2] == id && self.ids[1] == outer && self.ids[0] == MODULE
    }

    /// Whether the item is a record that stands directly in the module.
    pub fn has_record_of_module(&self, item: Item) -> bool
        ensures { result ≡ is_record_of_module (record { around = self.now; item = item }) }
    {
        is_record(item) && self.is_module()
    }

    /// Whether the item is a record of a block of this id that stands directly in a block of the id `outer` of the module.
    pub fn has_record_inside(&self, outer: u64, id: u64, item: Item) -> bool
        ensures { result ≡ is_record_inside outer id (record { around = self.now; item = item }) }
    {
        is_record(item) && self.is_inside(outer, id)
    }

    /// Whether the item enters a block of this id directly in a block of the id `outer` of the module.
    pub fn enters_inside(&self, outer: u64, id: u64, item: Item) -> bool
        ensures { result ≡ enters_inside outer id (record { around = self.now; item = item }) }
    {
        is_entry(id, item) && self.is_within(outer)
    }

    /// Whether the item ends a block of this id of the module.
    pub fn ends(&self, id: u64, item: Item) -> bool
        ensures { result ≡ ends id (record { around = self.now; item = item }) }
    {
        is_end(item) && self.is_within(id)
    }

    /// Whether the item is a record that stands directly in a block of this id of the module.
    pub fn has_record_of(&self, id: u64, item: Item) -> bool
        ensures { result ≡ is_record_of id (record { around = self.now; item = item }) }
    {
        is_record(item) && self.is_within(id)
    }

    /// Whether the item enters a block of this id in the module.
    pub fn enters(&self, id: u64, item: Item) -> bool
        ensures { result ≡ enters id (record { around = self.now; item = item }) }
    {
        is_entry(id, item) && self.is_module()
    }

    /// Whether the item ends the module.
    pub fn ends_module(&self, item: Item) -> bool
        ensures { result ≡ ends_module (record { around = self.now; item = item }) }
    {
        is_end(item) && self.is_module()
    }
}
