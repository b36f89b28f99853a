//! What a bitstream's bits spell, which rules it breaks, and the laws that a reader stands on.
//!
//! The functions do nothing: each is a theorem, which its contract states. The definitions stand in `specs/`: what stands at a bit in `Layout.antt`, which items bits spell in `Spelling.antt`, the rules and limits in `Rules.antt`, and the laws in `Laws.antt`.
#![tactic(auto)]

ghost use Rattle.bitstream_spelling.specs.Laws.{OneSpelling, WholeIsSound, WholeIsFramed, FirstWithoutMagic, FirstWhereShort, FirstByRule};

mod item;
mod operand;

pub use item::{FieldList, Item, ItemList, Items};
pub use operand::{Abbreviation, Operand};

/// Bits spell at most one list of items and fields.
pub fn one_spelling()
    ensures { OneSpelling }
{}

/// Where bits spell items within the limits, no rule is broken and no limit is passed.
pub fn whole_is_sound()
    ensures { WholeIsSound }
{}

/// The items that bits spell are framed.
pub fn whole_is_framed()
    ensures { WholeIsFramed }
{}

/// Where the magic is missing, that is the first broken rule.
pub fn first_without_magic()
    ensures { FirstWithoutMagic }
{}

/// Where what stands behind the items of a front passes the end, that is the first broken rule.
pub fn first_where_short()
    ensures { FirstWhereShort }
{}

/// Where what stands behind the items of a front breaks rules or passes limits, the one of least bit and least number there is the first of all.
pub fn first_by_rule()
    ensures { FirstByRule }
{}
