//! What stands behind an abbreviation id, read to its end whatever stands in it: values, arrays and blobs, records, block entries and operands of definitions.
#![tactic(auto)]

mod array;
mod definition;
mod entry;
mod form;
mod number;
mod record;
mod row;
mod value;
mod values;

pub use array::{take_array, take_blob};
pub use definition::{Definition, Given, take_definition, take_operand};
pub use entry::{Entry, take_entry};
pub use form::{Form, form_with, may_end};
pub use number::{Seen, see};
pub use record::{Coded, take_plain, take_record};
pub use row::{Row, Stop, take_row};
pub use value::take_value;
pub use values::take_values;
