ghost use Rattle.std.specs.Prelude.{◌≡◌, ◌<◌, length, position, IfSome};
ghost use Rattle.spv_form.specs.Operands as operand;
ghost use Rattle.spirv_words.specs.Reading.{IdAnswer};

use spv_form::Shape;

/// Whether a byte of the word is zero.
#[tactic(auto, unfolding(spv_form::specs::Operands::has_zero))]
fn has_zero(word: u32) -> bool
    ensures { result ≡ operand.has_zero word }
{
    word.to_le_bytes().contains(&0)
}

/// Whether each byte behind the first zero byte is zero.
#[tactic(auto, unfolding(spv_form::specs::Operands::is_filled))]
fn is_filled(word: u32) -> bool
    ensures { result ≡ operand.is_filled word }
{
    let [first, second, third, fourth] = word.to_le_bytes();
    if first == 0 {
        second == 0 && third == 0 && fourth == 0
    } else if second == 0 {
        third == 0 && fourth == 0
    } else if third == 0 {
        fourth == 0
    } else {
        true
    }
}

/// The place of the first word that has a zero byte.
fn zero_place(words: &[u32]) -> Option<usize>
    ensures place { result ≡ position operand.has_zero words.now }
    ensures within { IfSome result (λ place. place < length words.now) }
{
    words.iter().position(|word| has_zero(*word))
}

/// The place of the first word from `before` on that has a zero byte.
fn string_last(operands: &[u32], before: u16) -> Option<usize>
    ensures place { result ≡ operand.string_last operands.now before }
    ensures within { IfSome result (λ place. place < length operands.now) }
{
    let from = before as usize;
    if from > operands.len() {
        return None;
    }
    match zero_place(&operands[from..]) {
        Some(place) => Some(from + place),
        None => None,
    }
}

/// How many words stand before the operands that a shape counts.
fn front(has_type: bool, has_id: bool) -> usize
    ensures { result ≡ operand.front has_type has_id }
{
    usize::from(has_type) + usize::from(has_id)
}

/// Whether the words are as many as the operands take.
pub fn fits(shape: Shape, operands: &[u32]) -> bool
    ensures { result ≡ operand.fits shape operands.now }
{
    let count = operands.len();
    match shape {
        Shape::Plain {
            has_type,
            has_id,
            least,
            most,
            ..
        } => {
            let front = front(has_type, has_id);
            front + least as usize <= count && count <= front + most as usize
        }
        Shape::Text { before, after, .. } => {
            (before as usize) < count
                && (after || string_last(operands, before).is_none_or(|last| last + 1 == count))
        }
        Shape::Pairs => 2 <= count && count % 2 == 0,
    }
}

/// Whether the string of the operands, if they have one, ends in a zero byte and is filled with zeros.
pub fn string_ends(shape: Shape, operands: &[u32]) -> bool
    ensures { result ≡ operand.string_ends shape operands.now }
{
    match shape {
        Shape::Text { before, .. } => match string_last(operands, before) {
            Some(last) => is_filled(operands[last]),
            None => false,
        },
        Shape::Plain { .. } | Shape::Pairs => true,
    }
}

/// The place of the string's last word; None where the operands have no string with an end.
pub fn last_of(shape: Shape, operands: &[u32]) -> Option<usize>
    ensures { result ≡ operand.last_of shape operands.now }
{
    match shape {
        Shape::Text { before, .. } => string_last(operands, before),
        Shape::Plain { .. } | Shape::Pairs => None,
    }
}

/// Whether a bit of a mask of 16 bits is clear.
fn is_clear(mask: u16, bit: usize) -> bool
    ensures { result ≡ operand.is_clear mask bit }
{
    bit >= 16 || (mask >> bit) % 2 == 0
}

/// Whether the operand word at a place is an id, where the string's last word stands at `last`.
pub fn is_id(shape: Shape, last: Option<usize>, at: usize) -> bool
    ensures { result ≡ operand.is_id_at shape last at }
{
    match shape {
        Shape::Plain {
            has_type,
            has_id,
            numbers,
            ..
        } => {
            let front = front(has_type, has_id);
            at < front || is_clear(numbers, at - front)
        }
        Shape::Text {
            before,
            numbers,
            ..
        } => {
            if at < before as usize {
                is_clear(numbers, at)
            } else {
                last.is_some_and(|place| place < at)
            }
        }
        Shape::Pairs => at == 0 || at % 2 == 1,
    }
}

/// The place of an operand word that is an id and is 0 or not below the bound.
pub fn bad_id(shape: Shape, operands: &[u32], bound: u32) -> Option<usize>
    ensures { IdAnswer result bound shape operands.now }
{
    let last = last_of(shape, operands);
    for (at, word) in operands.iter().enumerate() {
        if is_id(shape, last, at) && (*word == 0 || *word >= bound) {
            return Some(at);
        }
    }
    None
}
