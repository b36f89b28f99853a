ghost use Rattle.std.specs.Prelude.{◌≡◌, ◌≤◌, length};
ghost use Rattle.spirv_code.specs.Keys.{index_of};
ghost use Rattle.spirv_code.specs.Plans.{global_id, results_from, slot_id, slots_from, table_from};
ghost use Rattle.spirv_table.specs.Tables.{plan_of, AreFew};

use indexmap::IndexSet;
use spirv_code::{Global, Slot};

/// How many regions there are, the variables of the function, and what is declared outside it.
#[derive(Drop)]
pub struct Tables {
    pub regions: u32,
    pub slots: IndexSet<Slot>,
    pub table: IndexSet<Global>,
}

impl Tables {
    /// The id of what is declared.
    pub fn global_id(&self, key: Global) -> u32
        requires { AreFew self.now }
        ensures { result ≡ global_id (plan_of self.now) key }
    {
        4 + 8 * self.regions + self.slots.len() as u32 + place_of(&self.table, key) as u32
    }

    /// The id of a variable of the function, if it is there.
    pub fn slot_id(&self, slot: Slot) -> Option<u32>
        requires { AreFew self.now }
        ensures { result ≡ slot_id (plan_of self.now) slot }
    {
        match self.slots.get_index_of(&slot) {
            Some(at) => Some(4 + 8 * self.regions + at as u32),
            None => None,
        }
    }

    /// The id of the first variable of the function.
    pub fn slots_from(&self) -> u32
        requires { AreFew self.now }
        ensures { result ≡ slots_from (plan_of self.now) }
    {
        4 + 8 * self.regions
    }

    /// The id of the first declaration.
    pub fn table_from(&self) -> u32
        requires { AreFew self.now }
        ensures { result ≡ table_from (plan_of self.now) }
    {
        self.slots_from() + self.slots.len() as u32
    }

    /// The id of a result at place 0.
    pub fn results_from(&self) -> u32
        requires { AreFew self.now }
        ensures id { result ≡ results_from (plan_of self.now) }
        ensures few { result ≤ 0x0300_0000 }
    {
        self.slots_from()
    }
}

/// The place of a key, or the table's length.
fn place_of(table: &IndexSet<Global>, key: Global) -> usize
    ensures place { result ≡ index_of table.now.keys key }
    ensures within { result ≤ length table.now.keys }
{
    match table.get_index_of(&key) {
        Some(at) => at,
        None => table.len(),
    }
}
