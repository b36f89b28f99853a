ghost use Rattle.std.specs.Prelude.{◌≡◌};
ghost use Rattle.std.specs.Option.{option_copied};
ghost use Rattle.stated_program.specs.Accesses as is;

use dxil_form::{Addr, Class, Kind, Operand, Resource};
use llvm_facts::Row;
use profile_tables::{Place, Scope, operand_of};

/// The layout of a row.
pub fn kind_of(row: &Row) -> Kind
    ensures { result ≡ is.kind_of row.now }
{
    match row.class {
        Class::Cbv => Kind::Constant {
            rows: row.size.div_ceil(16),
        },
        _ => {
            if row.kind == 11 {
                Kind::Raw
            } else {
                Kind::Structured { stride: row.size }
            }
        }
    }
}

/// The resource of a row.
pub fn resource_of(row: &Row) -> Resource
    ensures { result ≡ is.resource_of row.now }
{
    Resource {
        class: row.class,
        id: row.id,
        space: row.space,
        lower: row.lower,
        kind: kind_of(row),
    }
}

/// The address in a buffer by its two coordinates.
pub fn address(row: Option<&Row>, first: Operand, second: Operand) -> Addr
    ensures { result ≡ is.address (option_copied row.entry) first second }
{
    match row {
        Some(row) => match kind_of(row) {
            Kind::Raw => Addr::Byte { at: first },
            Kind::Structured { stride } => Addr::Element {
                index: first,
                at: second,
                stride,
            },
            Kind::Constant { .. } => Addr::Row { index: first },
        },
        None => Addr::Byte { at: first },
    }
}

fn index_operand(scope: &Scope, index: Option<u32>) -> Operand
    ensures { result ≡ is.index_operand scope.now index }
{
    match index {
        Some(number) => operand_of(scope, number),
        None => Operand::Int(0),
    }
}

/// The address of a place in a groupshared array.
pub fn index(scope: &Scope, place: Option<Place>) -> Addr
    ensures { result ≡ is.index scope.now place }
{
    match place {
        Some(place) => Addr::Index {
            index: index_operand(scope, place.index),
        },
        None => Addr::Index {
            index: Operand::Int(0),
        },
    }
}
