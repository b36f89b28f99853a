ghost use Rattle.std.specs.Prelude.{◌≡◌, ◌<◌, ◌^◌, IfOk, length, ℕ};
ghost use Rattle.std.specs.Option.{option_copied};
ghost use Rattle.profile_tables.specs.EntryBody as is;
ghost use Rattle.profile_tables.specs.Parts.{mask_of as mask_by, is_predecessor};
ghost use Rattle.profile_tables.specs.Resources.{row_place as place_by, row_named as named_by, row_at as row_with, handle_row as handle_by, makes_handle as makes, has_key};
ghost use Rattle.std.specs.List.{position_from};
ghost use Rattle.profile_tables.specs.Tables.{has};

use crate::froms::froms_of;
use crate::masks::{Taken, mask_of, taken_by};
use crate::rows::places_of;
use dx_base::{Numbers, OutOfMemory};
use dxil_form::OpKind;
use llvm_bodies::Line;
use llvm_facts::Row;
use profile_lines::{
    KnownList, Pool, ValueKind, argument_at, known_at, known_values, operation, setter, setters_of,
};
use std::alloc::Global;
use std::collections::BTreeMap;
use std::marker::Model;

/// The body of the entry function, with tables over its lines.
#[derive(Drop)]
pub struct Scope<'a> {
    pool: Pool<'a>,
    values: u32,
    lines: &'a [Line],
    blocks: u32,
    rows: &'a [Row],
    known: KnownList,
    setters: Vec<Option<u32>>,
    taken: Vec<Taken>,
    froms: Vec<Numbers>,
    srvs: BTreeMap<u32, usize>,
    uavs: BTreeMap<u32, usize>,
    cbvs: BTreeMap<u32, usize>,
}

impl<'a> Model for Scope<'a> {
    ghost use Rattle.std.specs.Ordering.{nat_cmp};
    ghost use Rattle.std.specs.BTreeMap as tree;
    ghost use Rattle.profile_tables.specs.EntryBody.{EntryBody};
    ghost use Rattle.profile_tables.specs.Tables.{AreTables};

    ghost Value = { EntryBody };

    ghost view = { λ s. record { pool = s.pool; values = s.values; lines = s.lines.now; blocks = s.blocks; rows = s.rows.now } };

    ghost invariant = { λ s. AreTables (record { pool = s.pool; values = s.values; lines = s.lines.now; blocks = s.blocks; rows = s.rows.now }) s.known s.setters.items s.taken.items s.froms.items (tree.get nat_cmp s.srvs) (tree.get nat_cmp s.uavs) (tree.get nat_cmp s.cbvs) };
}

fn makes_handle(op: Option<OpKind>) -> bool
    ensures { result ≡ makes op }
{
    match op {
        Some(OpKind::CreateHandle) => true,
        _ => false,
    }
}

impl<'a> Scope<'a> {
    /// The body of a function with these constants and values of its module, with so many values, these lines, so many blocks and these rows of resources.
    ///
    /// # Errors
    ///
    /// Want of memory.
    pub fn new(
        alloc: Global,
        pool: Pool<'a>,
        values: u32,
        lines: &'a [Line],
        blocks: u32,
        rows: &'a [Row],
    ) -> Result<Scope<'a>, OutOfMemory>
        requires { length lines.now < 2 ^ 32 }
        ensures { IfOk result (λ scope. scope ≡ record { pool = pool.entry; values = values; lines = lines.now; blocks = blocks; rows = rows.now }) }
    {
        let setters = setters_of(alloc, lines, values)?;
        let known = known_values(alloc, &pool, lines, setters.as_slice())?;
        let taken = taken_by(alloc, lines, values)?;
        let froms = froms_of(alloc, lines, blocks)?;
        let srvs = places_of(alloc, rows, 0)?;
        let uavs = places_of(alloc, rows, 1)?;
        let cbvs = places_of(alloc, rows, 2)?;
        Ok(Scope {
            pool,
            values,
            lines,
            blocks,
            rows,
            known,
            setters,
            taken,
            froms,
            srvs,
            uavs,
            cbvs,
        })
    }

    /// The types, values and constants that stand before the lines.
    pub fn pool(&self) -> &Pool<'a>
        ensures { result.now ≡ self.now.pool }
    {
        &self.pool
    }

    /// How many values the body sees.
    pub fn values(&self) -> u32
        ensures { result ≡ self.now.values }
    {
        self.values
    }

    pub fn lines(&self) -> &'a [Line]
        ensures { result.now ≡ self.now.lines }
    {
        self.lines
    }

    /// How many blocks the body declares.
    pub fn blocks(&self) -> u32
        ensures { result ≡ self.now.blocks }
    {
        self.blocks
    }

    /// The resources that the metadata declare.
    pub fn rows(&self) -> &'a [Row]
        ensures { result.now ≡ self.now.rows }
    {
        self.rows
    }

    /// The kind of the value with a number.
    pub fn kind(&self, number: u32) -> ValueKind
        ensures { result ≡ is.kind_at self.now number }
    {
        known_at(self.known.as_slice(), number).kind
    }

    /// The line that gives the value with a number.
    pub fn setter(&self, number: u32) -> Option<&'a Line>
        ensures { option_copied result ≡ is.setter self.now number }
    {
        setter(self.lines, self.setters.as_slice(), number)
    }

    /// The mask of the parts that are taken of the value with a number.
    #[tactic(auto, unfolding(crate::specs::Parts::mask_of))]
    pub fn mask(&self, number: u32) -> u8
        ensures { result ≡ mask_by self.now number }
    {
        match self.taken.as_slice().get(number as usize) {
            Some(taken) => mask_of(*taken),
            None => 0,
        }
    }

    /// The blocks that lead to a block.
    pub fn froms(&self, block: u32) -> &[u32]
        requires { block < self.now.blocks }
        ensures { (from : ℕ) → has result.now from ≡ is_predecessor self.now block from }
    {
        match self.froms.as_slice().get(block as usize) {
            Some(froms) => froms.as_slice(),
            None => &[],
        }
    }

    /// The place of the first row with a class and an id.
    fn row_with(&self, class: u32, id: u32) -> Option<usize>
        ensures { result ≡ position_from (has_key class id) 0 self.now.rows }
    {
        if class == 0 {
            self.srvs.get(&id).copied()
        } else if class == 1 {
            self.uavs.get(&id).copied()
        } else if class == 2 {
            self.cbvs.get(&id).copied()
        } else {
            None
        }
    }

    /// The same, where both are told.
    fn row_place(&self, class: Option<u32>, id: Option<u32>) -> Option<usize>
        ensures { result ≡ place_by self.now.rows class id }
    {
        let class = class?;
        let id = id?;
        self.row_with(class, id)
    }

    /// The place of the row that a line names, which makes a handle.
    #[tactic(auto, unfolding(crate::specs::Resources::row_named))]
    pub fn row_named(&self, line: &Line) -> Option<usize>
        ensures { result ≡ named_by self.now line.now }
    {
        if makes_handle(operation(&self.pool, line)) {
            let class = self.pool.constant_given(8, argument_at(line, 1));
            let id = self.pool.constant_given(32, argument_at(line, 2));
            self.row_place(class, id)
        } else {
            None
        }
    }

    /// The place of the row that the handle of a call names.
    pub fn handle_row(&self, line: &Line) -> Option<usize>
        ensures { result ≡ handle_by self.now line.now }
    {
        match argument_at(line, 1) {
            Some(number) => match self.setter(number) {
                Some(line) => self.row_named(line),
                None => None,
            },
            None => None,
        }
    }

    /// The row at a place, if there is one.
    pub fn row_at(&self, place: Option<usize>) -> Option<&'a Row>
        ensures { option_copied result ≡ row_with self.now place }
    {
        match place {
            Some(place) => self.rows.get(place),
            None => None,
        }
    }
}
