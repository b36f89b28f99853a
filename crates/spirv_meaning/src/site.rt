ghost use Rattle.std.specs.Prelude.{◌≡◌, ◌↔◌, ◌^◌, ◌<◌, ◌≤◌, ◌+◌, ◌-◌, drop, length, IsTrue, IfSome};
ghost use Rattle.spirv_meaning.specs.Names.{text_words, word_of, digits, block_text, named_by, label_of, site};
ghost use Rattle.spirv_meaning.specs.Sought.{Describes, joined, found, LabelBelow, NamedBelow};

use spv_form::{Inst, Module, op};

/// What a search for one place has found so far.
#[derive(Clone, Copy)]
enum Sought {
    Nowhere,
    At(u32),
    Several,
}

impl Sought {
    /// What two searches have found together.
    fn join(self, other: Sought) -> Sought
        ensures { result ≡ joined self other }
    {
        match (self, other) {
            (Sought::Nowhere, sought) => sought,
            (sought, Sought::Nowhere) => sought,
            (Sought::At(a), Sought::At(b)) if a == b => Sought::At(a),
            _ => Sought::Several,
        }
    }

    /// The place, where it is the only one.
    fn place(self) -> Option<u32>
        ensures { result ≡ found self }
    {
        match self {
            Sought::At(at) => Some(at),
            Sought::Nowhere | Sought::Several => None,
        }
    }
}

/// The place in the instructions of the one label that an OpName calls `b` and the decimal number.
///
/// None exactly where there is no such label, or more than one. It takes no memory, and goes over the instructions once, and once more for each OpName that
/// gives this name.
pub fn site_of(m: &Module, k: u32) -> Option<u32>
    requires { length m.now.insts < 2 ^ 32 }
    ensures { result ≡ site m.now k }
{
    let mut text = [0; 11];
    let from = write_name(&mut text, k);
    labels_named(m.insts.as_slice(), &text[from..]).place()
}

/// Writes `b` and the decimal number at the end of the bytes, and answers where they begin.
pub fn write_name(text: &mut [u8; 11], k: u32) -> usize
    ensures within { result ≤ 11 }
    ensures name { drop result text.new ≡ block_text k }
{
    let at = write_digits(text, 10, k) - 1;
    text[at] = b'b';
    at
}

/// Writes the decimal number, in at most `at` digits, before the bytes behind place `at`, and answers where it begins.
fn write_digits(text: &mut [u8; 11], at: usize, k: u32) -> usize
    requires { at ≤ 10 }
    ensures least { 1 ≤ result }
    ensures most { result ≤ 11 }
    ensures digits { drop result text.new ≡ digits at k (drop (at + 1) text.old) }
{
    if at == 0 {
        return 1;
    }
    text[at] = b'0' + (k % 10) as u8;
    if k < 10 {
        at
    } else {
        write_digits(text, at - 1, k / 10)
    }
}

/// The labels whose ids an OpName gives this name.
fn labels_named(insts: &[Inst], name: &[u8]) -> Sought
    requires { length insts.now < 2 ^ 32 }
    ensures { Describes (NamedBelow insts.now (text_words name.now) (length insts.now)) result }
{
    let mut sought = Sought::Nowhere;
    for inst in insts {
        if let Some(id) = named_id(inst, name) {
            sought = sought.join(labels_of(insts, id));
        }
    }
    sought
}

/// The labels of this id.
fn labels_of(insts: &[Inst], id: u32) -> Sought
    requires { length insts.now < 2 ^ 32 }
    ensures { Describes (LabelBelow insts.now id (length insts.now)) result }
{
    let mut sought = Sought::Nowhere;
    for (at, inst) in insts.iter().enumerate() {
        if is_label(inst, id) {
            sought = sought.join(Sought::At(at as u32));
        }
    }
    sought
}

/// Tells whether the instruction is the label of this id.
fn is_label(inst: &Inst, id: u32) -> bool
    ensures { IsTrue result ↔ (label_of inst.now ≡ Some id) }
{
    inst.opcode == op::LABEL && inst.operands.get(0) == Some(&id)
}

/// The id that the instruction gives this name, if it is an OpName that does.
fn named_id(inst: &Inst, name: &[u8]) -> Option<u32>
    ensures { result ≡ named_by (text_words name.now) inst.now }
{
    if inst.opcode != op::NAME {
        return None;
    }
    let (id, text) = inst.operands.as_slice().split_first()?;
    if spells(text, name) { Some(*id) } else { None }
}

/// Tells whether the words are the string of these bytes.
fn spells(text: &[u32], name: &[u8]) -> bool
    ensures { IsTrue result ↔ (text.now ≡ text_words name.now) }
{
    let Some((word, rest)) = text.split_first() else {
        return false;
    };
    if *word != first_word(name) {
        return false;
    }
    if name.len() < 4 {
        rest.is_empty()
    } else {
        spells(rest, &name[4..])
    }
}

/// The first four bytes as a word, the least significant first; zeros stand for those that are missing.
pub fn first_word(name: &[u8]) -> u32
    ensures { result ≡ word_of name.now }
{
    let byte = |at: usize| name.get(at).map_or(0, |b| u32::from(*b));
    byte(0) + 256 * byte(1) + 65_536 * byte(2) + 16_777_216 * byte(3)
}
