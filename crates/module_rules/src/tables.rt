ghost use Rattle.std.specs.Prelude.{◌≡◌, ◌<◌, ◌^◌, Some, slice_get, length, IfOk};
ghost use Rattle.id_rules.specs.Again.{AreFormed};
ghost use Rattle.module_rules.specs.Answers as answer;

use decoration_rules::{ReadOnly, Resources};
use dx_base::OutOfMemory;
use id_rules::{Blocks, Declared};
use order_rules::{Landmarks, first_crowded, first_out_of_order};
use spv_form::{Inst, Version};
use spv_ids::Ids;
use std::alloc::Global;

/// What is known of the instructions of a module before they are asked one by one.
#[derive(Drop)]
pub struct Tables<'a> {
    pub version: Version,
    pub ids: Ids<'a>,
    pub blocks: Blocks<'a>,
    pub types: Declared<'a>,
    pub resources: Resources<'a>,
    pub read_only: ReadOnly<'a>,
    pub landmarks: Landmarks<'a>,
    pub out_of_order: Option<usize>,
    pub crowded: Option<usize>,
}

impl<'a> Tables<'a> {
    /// The tables of these instructions, of a module of this version.
    pub fn of(alloc: Global, version: Version, insts: &'a [Inst]) -> Result<Tables<'a>, OutOfMemory>
        requires few { length insts.now < 2 ^ 32 }
        requires formed { AreFormed insts.now }
        ensures version { IfOk result (λ tables. tables.version ≡ version) }
        ensures insts { IfOk result (λ tables. tables.ids ≡ insts.now) }
        ensures exact { IfOk result answer.AreTables }
    {
        let out_of_order = first_out_of_order(insts);
        // Its own table is let go before the others are made.
        let crowded = first_crowded(alloc, insts)?;
        let ids = Ids::of(alloc, insts)?;
        let blocks = Blocks::of(alloc, insts)?;
        let types = Declared::of(alloc, insts)?;
        let resources = Resources::of(alloc, insts)?;
        let read_only = ReadOnly::of(alloc, &ids, &resources)?;
        let landmarks = Landmarks::of(insts);
        Ok(Tables {
            version,
            ids,
            blocks,
            types,
            resources,
            read_only,
            landmarks,
            out_of_order,
            crowded,
        })
    }
}
