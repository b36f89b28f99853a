ghost use Rattle.std.specs.Prelude.{◌≡◌};
ghost use Rattle.bitstream_spelling.specs.Framed.{LiesIn, bit_of as bit_number};
ghost use Rattle.llvm_items.specs.Sites.{fields_of as fields_in, code_of as code_in, is_record as states, is_entry as enters, is_end as ends};

use bitstream_spelling::Item;

/// The first bit of an item's abbreviation id.
pub fn bit_of(item: Item) -> u64
    ensures { result ≡ bit_number item }
{
    match item {
        Item::Enter { bit, .. } => bit,
        Item::Record { bit, .. } => bit,
        Item::Skip { bit, .. } => bit,
        Item::End { bit } => bit,
    }
}

/// The fields of a record, of the field list of its file; none of any other item.
pub fn fields_of(item: Item, fields: &[u64]) -> &[u64]
    requires { LiesIn fields.now item }
    ensures { result.now ≡ fields_in fields.now item }
{
    match item {
        Item::Record { first, count, .. } => {
            let from = first as usize;
            &fields[from..from + count as usize]
        }
        Item::Enter { .. } => &fields[..0],
        Item::Skip { .. } => &fields[..0],
        Item::End { .. } => &fields[..0],
    }
}

/// The code of a record; 0 of any other item.
pub fn code_of(item: Item) -> u64
    ensures { result ≡ code_in item }
{
    match item {
        Item::Record { code, .. } => code,
        Item::Enter { .. } => 0,
        Item::Skip { .. } => 0,
        Item::End { .. } => 0,
    }
}

pub fn is_record(item: Item) -> bool
    ensures { result ≡ states item }
{
    match item {
        Item::Record { .. } => true,
        Item::Enter { .. } => false,
        Item::Skip { .. } => false,
        Item::End { .. } => false,
    }
}

/// Whether the item is the entry of a block of this id.
pub fn is_entry(id: u64, item: Item) -> bool
    ensures { result ≡ enters id item }
{
    match item {
        Item::Enter { id: entered, .. } => entered == id,
        Item::Record { .. } => false,
        Item::Skip { .. } => false,
        Item::End { .. } => false,
    }
}

/// Whether the item is the end of a block.
pub fn is_end(item: Item) -> bool
    ensures { result ≡ ends item }
{
    match item {
        Item::End { .. } => true,
        Item::Enter { .. } => false,
        Item::Record { .. } => false,
        Item::Skip { .. } => false,
    }
}
