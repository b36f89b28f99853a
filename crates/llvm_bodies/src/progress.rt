ghost use Rattle.std.specs.Prelude.{◌≡◌, ◌≤◌, ◌<◌, ◌^◌, get_or, length, false};
ghost use Rattle.llvm_bodies.specs.Bodies.{is_terminator as ends_block, is_instruction as instructs, cases_in as cases, entries_in as entries, gives as gives_value, first_number as first};
ghost use Rattle.llvm_bodies.specs.Reading.{AreFew, HasRoom, begun_at, record_after, constant_after};

use crate::facts::{ModuleFacts, gives};
use llvm_layout::code::{
    BR, DEBUG_LOC, DEBUG_LOC_AGAIN, DECLAREBLOCKS, PHI, RET, SWITCH, UNREACHABLE,
};

/// What is known behind some items of the last body that was begun.
#[derive(Clone, Copy)]
pub struct Progress {
    /// How many bodies were begun.
    pub bodies: u32,
    /// The bit of the last one's entry.
    pub bit: u64,
    /// The current value number.
    pub now: u32,
    /// Whether a record of the body was read.
    pub started: bool,
    /// How many blocks its first record declares.
    pub blocks: u32,
    /// How many blocks have ended: the number of the block that is open.
    pub block: u32,
    /// Whether the open block has an instruction that is no phi.
    pub busy: bool,
    /// Whether the last instruction ends a block.
    pub closed: bool,
    /// How many instructions there are.
    pub instructions: u32,
    /// How many cases the switches have.
    pub cases: u64,
    /// How many entries the phis have.
    pub entries: u64,
}

fn is_terminator(code: u64) -> bool
    ensures { result ≡ ends_block code }
{
    match code {
        RET | BR | SWITCH | UNREACHABLE => true,
        _ => false,
    }
}

/// Whether a record of this code is an instruction.
pub fn is_instruction(code: u64) -> bool
    ensures { result ≡ instructs code }
{
    match code {
        DECLAREBLOCKS | DEBUG_LOC_AGAIN | DEBUG_LOC => false,
        _ => true,
    }
}

/// How many cases a record has.
pub fn cases_in(code: u64, fields: &[u64]) -> u64
    ensures value { result ≡ cases code fields.now }
    ensures few { result ≤ length fields.now }
{
    if code == SWITCH {
        fields.len().saturating_sub(3) as u64 / 2
    } else {
        0
    }
}

/// How many entries a record has, if it is a phi.
pub fn entries_in(code: u64, fields: &[u64]) -> u64
    ensures value { result ≡ entries code fields.now }
    ensures few { result ≤ length fields.now }
{
    if code == PHI {
        fields.len().saturating_sub(1) as u64 / 2
    } else {
        0
    }
}

/// The first field of a record, or 0.
pub fn first_field(fields: &[u64]) -> u64
    ensures { result ≡ get_or fields.now 0 0 }
{
    match fields.get(0) {
        Some(field) => *field,
        None => 0,
    }
}

/// How many arguments the function of a body has.
fn arguments_of(facts: &ModuleFacts, body: u32) -> u32
    requires { AreFew facts.now }
    ensures value { result ≡ get_or facts.now.arguments body 0 }
    ensures few { result ≤ 2 ^ 30 }
{
    match facts.arguments.get(body as usize) {
        Some(count) => *count,
        None => 0,
    }
}

/// The value number behind those of the module and of the arguments of a body's function.
fn first_number(facts: &ModuleFacts, body: u32) -> u32
    requires { AreFew facts.now }
    ensures { result ≡ first facts.now body }
{
    facts.callees.len() as u32 + arguments_of(facts, body)
}

/// Before the first item.
pub fn at_first(facts: &ModuleFacts) -> Progress
    requires { AreFew facts.now }
    ensures { result ≡ record { bodies = 0; bit = 0; now = first facts.now 0; started = false; blocks = 0; block = 0; busy = false; closed = false; instructions = 0; cases = 0; entries = 0 } }
{
    Progress {
        bodies: 0,
        bit: 0,
        now: first_number(facts, 0),
        started: false,
        blocks: 0,
        block: 0,
        busy: false,
        closed: false,
        instructions: 0,
        cases: 0,
        entries: 0,
    }
}

/// Behind the entry of a body's block.
pub fn behind_entry(facts: &ModuleFacts, known: Progress, bit: u64) -> Progress
    requires few { AreFew facts.now }
    requires room { HasRoom known }
    ensures { result ≡ begun_at facts.now known bit }
{
    Progress {
        bodies: known.bodies + 1,
        bit,
        now: first_number(facts, known.bodies),
        started: false,
        blocks: 0,
        block: 0,
        busy: false,
        closed: false,
        instructions: 0,
        cases: 0,
        entries: 0,
    }
}

/// Behind a constant of the body.
pub fn behind_constant(known: Progress) -> Progress
    requires { HasRoom known }
    ensures { result ≡ constant_after known }
{
    Progress {
        now: known.now + 1,
        ..known
    }
}

/// Behind a record of the body.
pub fn behind_record(facts: &ModuleFacts, known: Progress, code: u64, fields: &[u64]) -> Progress
    requires room { HasRoom known }
    requires few { length fields.now ≤ 2 ^ 24 }
    requires blocks { known.started ≡ false → get_or fields.now 0 0 < 2 ^ 32 }
    ensures { result ≡ record_after facts.now known code fields.now }
{
    let ended = is_terminator(code);
    let instructs = is_instruction(code);
    let value = gives(facts, known.now, code, fields);
    Progress {
        bodies: known.bodies,
        bit: known.bit,
        now: if value { known.now + 1 } else { known.now },
        started: true,
        blocks: if known.started {
            known.blocks
        } else {
            first_field(fields) as u32
        },
        block: if ended { known.block + 1 } else { known.block },
        busy: !ended && (known.busy || (instructs && code != PHI)),
        closed: if instructs { ended } else { known.closed },
        instructions: if instructs {
            known.instructions + 1
        } else {
            known.instructions
        },
        cases: known.cases + cases_in(code, fields),
        entries: known.entries + entries_in(code, fields),
    }
}
