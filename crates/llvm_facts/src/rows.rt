ghost use Rattle.std.specs.Prelude.{if◌then◌else◌, get_or, ◌&&◌, ℕ, ◌≡◌, ◌||◌, ◌++◌, ◌==◌, Bool, Some, IfOk, OnOk, map, unwrap_or};
ghost use Rattle.std.specs.Ordering.{nat_cmp};
ghost use Rattle.std.specs.BTreeSet as tree;
ghost use Rattle.llvm_facts.specs.Values.{node_at, fields_of, i32_at, i1_at};
ghost use Rattle.llvm_facts.specs.Entry.{number_at};
ghost use Rattle.llvm_facts.specs.Facts.{all_rows as all_of};
ghost use Rattle.llvm_facts.specs.Faults.{IsLeastBit};
ghost use Rattle.llvm_facts.specs.Faults as faults;
ghost use Rattle.llvm_facts.specs.Tags as said;
ghost use Rattle.llvm_facts.specs.Rows as is;

use crate::facts::{Row, RowList};
use crate::lookup::Lookup;
use crate::roots::lesser;
use crate::tags::{is_i32, says, tagged};
use crate::threads::field_at;
use dx_base::{List, OutOfMemory};
use dxil_form::Class;
use llvm_nodes::MetaItem;
use std::alloc::Global;
use std::collections::BTreeSet;

/// The tag of a structured buffer's stride.
const STRIDE: u32 = 1;

/// The kind of a structured buffer.
const STRUCTURED: u32 = 12;

/// The kind of a constant buffer.
const CONSTANT_BUFFER: u32 = 13;

/// The stride of each numbered record, where it is a node that tells one.
pub type Strides = List<Option<u32>>;

/// The stride that a record tells.
fn stride_of(lookup: &Lookup, item: &MetaItem) -> Option<u32>
    ensures { result ≡ is.stride_of lookup.now (fields_of (Some item.now)) }
{
    match item {
        MetaItem::Node(ids) => lookup.i32(tagged(lookup, STRIDE, ids.as_slice())),
        MetaItem::Text(_) => None,
        MetaItem::Value { .. } => None,
    }
}

/// The strides of these records.
pub fn strides_of(
    alloc: Global,
    lookup: &Lookup,
    items: &[MetaItem],
) -> Result<Strides, OutOfMemory>
    ensures { IfOk result (λ list. list ≡ map (λ item. is.stride_of lookup.now (fields_of (Some item))) items.now) }
{
    let mut list = List::new(alloc);
    for item in items {
        if list.push(stride_of(lookup, item)).is_err() {
            return Err(OutOfMemory);
        }
    }
    Ok(list)
}

/// The stride that the node tells which a field names.
fn stride_at(lookup: &Lookup, strides: &[Option<u32>], field: u32) -> Option<u32>
    requires { strides.now ≡ is.strides lookup.now }
    ensures { result ≡ is.stride_at lookup.now field }
{
    if field == 0 {
        return None;
    }
    match strides.get(field as usize - 1) {
        Some(stride) => *stride,
        None => None,
    }
}

fn is_uav(class: Class) -> bool
    ensures { result ≡ is.is_uav class }
{
    match class {
        Class::Srv => false,
        Class::Uav => true,
        Class::Cbv => false,
    }
}

fn is_cbv(class: Class) -> bool
    ensures { result ≡ is.is_cbv class }
{
    match class {
        Class::Srv => false,
        Class::Uav => false,
        Class::Cbv => true,
    }
}

/// How many fields a row has at least.
fn least_fields(class: Class) -> usize
    ensures { result ≡ is.least_fields class }
{
    match class {
        Class::Srv => 9,
        Class::Uav => 11,
        Class::Cbv => 8,
    }
}

/// The place of the tags in a row.
fn tags_place(class: Class) -> usize
    ensures { result ≡ is.tags_place class }
{
    match class {
        Class::Srv => 8,
        Class::Uav => 10,
        Class::Cbv => 7,
    }
}

/// Whether a row is that of a structured buffer.
fn is_structured(lookup: &Lookup, class: Class, fields: &[u32]) -> bool
    ensures { result ≡ is.is_structured lookup.now class fields.now }
{
    !is_cbv(class) && says(lookup.i32(field_at(fields, 6)), STRUCTURED)
}

/// The stride of a row.
fn row_stride(lookup: &Lookup, strides: &[Option<u32>], class: Class, fields: &[u32]) -> Option<u32>
    requires { strides.now ≡ is.strides lookup.now }
    ensures { result ≡ is.row_stride lookup.now class fields.now }
{
    stride_at(lookup, strides, field_at(fields, tags_place(class)))
}

/// Whether id, space, lower bound, range size, and the kind or the size in bytes are `i32` constants.
fn has_numbers(lookup: &Lookup, fields: &[u32]) -> bool
    ensures { result ≡ is.has_numbers lookup.now fields.now }
{
    is_i32(lookup, field_at(fields, 0))
        && is_i32(lookup, field_at(fields, 3))
        && is_i32(lookup, field_at(fields, 4))
        && is_i32(lookup, field_at(fields, 5))
        && is_i32(lookup, field_at(fields, 6))
}

/// Whether a row has its fields.
fn is_formed(lookup: &Lookup, strides: &[Option<u32>], class: Class, fields: &[u32]) -> bool
    requires { strides.now ≡ is.strides lookup.now }
    ensures { result ≡ is.is_formed lookup.now class fields.now }
{
    fields.len() >= least_fields(class)
        && has_numbers(lookup, fields)
        && (!is_uav(class) || lookup.i1(field_at(fields, 9)).is_some())
        && (!is_structured(lookup, class, fields)
            || row_stride(lookup, strides, class, fields).is_some())
}

/// Whether an id is taken; it is from then on.
fn take_id(taken: &mut BTreeSet<u32>, id: Option<u32>) -> Result<bool, OutOfMemory>
    ensures was { IfOk result (λ was. was ≡ is.is_taken (λ q. tree.contains nat_cmp taken.old q) id) }
    ensures takes { OnOk result ((q : ℕ) → tree.contains nat_cmp taken.new q ≡ (tree.contains nat_cmp taken.old q || said.says q id)) }
{
    let Some(id) = id else {
        return Ok(false);
    };
    match taken.insert(id) {
        Ok(new) => Ok(!new),
        Err(_) => Err(OutOfMemory),
    }
}

/// Whether a row is at fault, behind rows that have the taken ids; its id is taken from then on.
fn is_faulty(
    lookup: &Lookup,
    strides: &[Option<u32>],
    class: Class,
    taken: &mut BTreeSet<u32>,
    row: u32,
) -> Result<bool, OutOfMemory>
    requires { strides.now ≡ is.strides lookup.now }
    ensures was { IfOk result (λ was. was ≡ is.is_faulty lookup.now class (λ q. tree.contains nat_cmp taken.old q) (node_at lookup.now row)) }
    ensures takes { OnOk result ((q : ℕ) → tree.contains nat_cmp taken.new q ≡ (tree.contains nat_cmp taken.old q || said.says q (is.id_of lookup.now (node_at lookup.now row)))) }
{
    let Some(fields) = lookup.node(row) else {
        return Ok(true);
    };
    let again = take_id(taken, lookup.i32(field_at(fields, 0)))?;
    Ok(!is_formed(lookup, strides, class, fields) || again)
}

/// The bit of a row's record, or `bit` where the row is null.
fn row_bit(lookup: &Lookup, bit: u64, row: u32) -> u64
    ensures { result ≡ is.row_bit lookup.now bit row }
{
    if row == 0 { bit } else { lookup.bit(row - 1) }
}

/// The least bit so far, with one bit more if there is a fault.
fn told(least: Option<u64>, fault: bool, bit: u64) -> Option<u64>
    ensures { result ≡ (if fault then faults.lesser least bit else least) }
{
    if fault { lesser(least, bit) } else { least }
}

/// The least bit at which a row of a list is at fault; `bit` is that of the entry node.
fn rows_fault(
    alloc: Global,
    lookup: &Lookup,
    strides: &[Option<u32>],
    bit: u64,
    class: Class,
    rows: &[u32],
) -> Result<Option<u64>, OutOfMemory>
    requires { strides.now ≡ is.strides lookup.now }
    ensures { IfOk result (λ least. IsLeastBit (is.IsRowFault lookup.now bit class rows.now) least) }
{
    let mut taken = BTreeSet::new(alloc);
    let mut least = None;
    for row in rows {
        let fault = is_faulty(lookup, strides, class, &mut taken, *row)?;
        least = told(least, fault, row_bit(lookup, bit, *row));
    }
    Ok(least)
}

/// The lesser of two bits, or the one that there is.
fn least_of(least: Option<u64>, other: Option<u64>) -> Option<u64>
    ensures { result ≡ faults.least_of least other }
{
    match other {
        Some(bit) => lesser(least, bit),
        None => least,
    }
}

/// Whether a field is null or names a node.
#[tactic(auto, unfolding(crate::specs::Rows::is_list))]
fn is_list(lookup: &Lookup, field: u32) -> bool
    ensures { result ≡ is.is_list lookup.now field }
{
    field == 0 || lookup.node(field).is_some()
}

/// Whether a field names a node of four fields that are null or name nodes.
fn are_lists(lookup: &Lookup, field: u32) -> bool
    ensures { result ≡ is.are_lists lookup.now (node_at lookup.now field) }
{
    match lookup.node(field) {
        Some(fields) => fields.len() == 4 && fields.iter().all(|field| is_list(lookup, *field)),
        None => false,
    }
}

/// Whether the fourth field of an entry node is null or a node of four lists.
fn has_lists(lookup: &Lookup, entry: &[u32]) -> bool
    ensures { result ≡ is.has_lists lookup.now entry.now }
{
    let field = field_at(entry, 3);
    field == 0 || are_lists(lookup, field)
}

/// The rows of a list of an entry node.
fn rows_at<'a>(lookup: &Lookup<'a>, entry: &[u32], which: usize) -> &'a [u32]
    ensures { result.now ≡ is.rows_at lookup.now entry.now which }
{
    lookup.fields(field_at(lookup.fields(field_at(entry, 3)), which))
}

/// The least bit at which the fourth field of an entry node or a row of its lists is at fault; `bit` is that of the node.
pub fn list_fault(
    alloc: Global,
    lookup: &Lookup,
    strides: &[Option<u32>],
    entry: &[u32],
    bit: u64,
) -> Result<Option<u64>, OutOfMemory>
    requires { strides.now ≡ is.strides lookup.now }
    ensures { IfOk result (λ least. IsLeastBit (is.IsListFault lookup.now entry.now bit) least) }
{
    let srvs = rows_fault(
        alloc,
        lookup,
        strides,
        bit,
        Class::Srv,
        rows_at(lookup, entry, 0),
    )?;
    let uavs = rows_fault(
        alloc,
        lookup,
        strides,
        bit,
        Class::Uav,
        rows_at(lookup, entry, 1),
    )?;
    let cbvs = rows_fault(
        alloc,
        lookup,
        strides,
        bit,
        Class::Cbv,
        rows_at(lookup, entry, 2),
    )?;
    let lists = told(None, !has_lists(lookup, entry), bit);
    Ok(least_of(lists, least_of(srvs, least_of(uavs, cbvs))))
}

/// What a row states.
#[tactic(auto, unfolding(crate::specs::Rows::row_of))]
fn row_of(lookup: &Lookup, strides: &[Option<u32>], class: Class, fields: &[u32]) -> Row
    requires { strides.now ≡ is.strides lookup.now }
    ensures { result ≡ is.row_of lookup.now class fields.now }
{
    Row {
        class,
        id: lookup.number(field_at(fields, 0)),
        space: lookup.number(field_at(fields, 3)),
        lower: lookup.number(field_at(fields, 4)),
        range: lookup.number(field_at(fields, 5)),
        kind: kind_of(lookup, class, fields),
        size: size_of(lookup, strides, class, fields),
        ordered: is_ordered(lookup, class, fields),
    }
}

/// The kind of a row.
fn kind_of(lookup: &Lookup, class: Class, fields: &[u32]) -> u32
    ensures { result ≡ (if is.is_cbv class then 13 else number_at lookup.now (get_or fields.now 6 0)) }
{
    if is_cbv(class) {
        CONSTANT_BUFFER
    } else {
        lookup.number(field_at(fields, 6))
    }
}

/// The stride of a structured buffer, the bytes of a constant buffer, or 0.
fn size_of(lookup: &Lookup, strides: &[Option<u32>], class: Class, fields: &[u32]) -> u32
    requires { strides.now ≡ is.strides lookup.now }
    ensures { result ≡ is.size_of lookup.now class fields.now }
{
    if is_cbv(class) {
        lookup.number(field_at(fields, 6))
    } else if is_structured(lookup, class, fields) {
        row_stride(lookup, strides, class, fields).unwrap_or(0)
    } else {
        0
    }
}

/// Whether a row is that of a UAV whose accesses are rasterizer ordered.
fn is_ordered(lookup: &Lookup, class: Class, fields: &[u32]) -> bool
    ensures { result ≡ (is.is_uav class && said.says 1 (i1_at lookup.now (get_or fields.now 9 0))) }
{
    is_uav(class) && lookup.i1(field_at(fields, 9)) == Some(1)
}

/// Adds what the rows of a list state.
fn add_rows(
    lookup: &Lookup,
    strides: &[Option<u32>],
    class: Class,
    rows: &[u32],
    list: &mut RowList,
) -> Result<(), OutOfMemory>
    requires { strides.now ≡ is.strides lookup.now }
    ensures { OnOk result (list.new ≡ list.old ++ is.rows_of lookup.now class rows.now) }
{
    for row in rows {
        if list
            .push(row_of(lookup, strides, class, lookup.fields(*row)))
            .is_err()
        {
            return Err(OutOfMemory);
        }
    }
    Ok(())
}

/// What the rows of an entry node state: SRVs, UAVs, then constant buffers.
pub fn all_rows(
    alloc: Global,
    lookup: &Lookup,
    strides: &[Option<u32>],
    entry: &[u32],
) -> Result<RowList, OutOfMemory>
    requires { strides.now ≡ is.strides lookup.now }
    ensures { IfOk result (λ list. list ≡ all_of lookup.now entry.now) }
{
    let mut list = List::new(alloc);
    add_rows(
        lookup,
        strides,
        Class::Srv,
        rows_at(lookup, entry, 0),
        &mut list,
    )?;
    add_rows(
        lookup,
        strides,
        Class::Uav,
        rows_at(lookup, entry, 1),
        &mut list,
    )?;
    add_rows(
        lookup,
        strides,
        Class::Cbv,
        rows_at(lookup, entry, 2),
        &mut list,
    )?;
    Ok(list)
}
