ghost use Rattle.std.specs.Prelude.{◌≡◌, position};
ghost use Rattle.spv_ids.specs.Places as places;

use spv_form::Inst;

/// The place of the first instruction of an opcode.
pub fn first_with(insts: &[Inst], opcode: u16) -> Option<usize>
    ensures { result ≡ position (places.is_op opcode) insts.now }
{
    insts.iter().position(|inst| inst.opcode == opcode)
}

/// Whether there is a place and it is before this one.
pub fn is_before(at: usize, place: Option<usize>) -> bool
    ensures { result ≡ places.is_before at place }
{
    match place {
        Some(place) => place < at,
        None => false,
    }
}

/// Whether the place is this one.
pub fn is_there(at: usize, place: Option<usize>) -> bool
    ensures { result ≡ places.is_there at place }
{
    match place {
        Some(place) => place == at,
        None => false,
    }
}
