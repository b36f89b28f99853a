ghost use Rattle.std.specs.Prelude.{◌↔◌, IsTrue, ◌≡◌};
ghost use Rattle.bitstream_spelling.specs.Rules.{IsScalar, IsPlainOperand, IsSound};
ghost use Rattle.bitstream_values.specs.Forms.{IsStep, Ends};

use bitstream_spelling::Operand;

/// What the operands of a definition are so far.
#[derive(Clone, Copy, Debug, PartialEq, Eq)]
pub enum Form {
    /// There is none.
    Empty,
    /// More may follow or not.
    Plain,
    /// The element of an array follows, and nothing behind it.
    Array,
    /// Nothing may follow.
    Closed,
    /// No abbreviation begins so.
    Faulty,
}

fn is_scalar(operand: Operand) -> bool
    ensures { IsTrue result ↔ IsScalar operand }
{
    match operand {
        Operand::Literal(_) => false,
        Operand::Fixed(width) => width <= 64,
        Operand::Vbr(width) => width == 0 || (2 <= width && width <= 32),
        Operand::Array => false,
        Operand::Char6 => true,
        Operand::Blob => false,
        Operand::Faulty => false,
    }
}

fn is_plain(operand: Operand) -> bool
    ensures { IsTrue result ↔ IsPlainOperand operand }
{
    match operand {
        Operand::Literal(_) => true,
        _ => is_scalar(operand),
    }
}

/// The form with one more operand.
pub fn form_with(form: Form, operand: Operand) -> Form
    ensures { IsStep form operand result }
{
    match form {
        Form::Empty => {
            if is_plain(operand) {
                Form::Plain
            } else {
                Form::Faulty
            }
        }
        Form::Plain => match operand {
            Operand::Array => Form::Array,
            Operand::Blob => Form::Closed,
            _ => {
                if is_plain(operand) {
                    Form::Plain
                } else {
                    Form::Faulty
                }
            }
        },
        Form::Array => {
            if is_scalar(operand) {
                Form::Closed
            } else {
                Form::Faulty
            }
        }
        Form::Closed => Form::Faulty,
        Form::Faulty => Form::Faulty,
    }
}

/// Whether the operands so far make an abbreviation.
pub fn may_end(form: Form) -> bool
    ensures { IsTrue result ↔ Ends form }
{
    match form {
        Form::Empty => false,
        Form::Plain => true,
        Form::Array => false,
        Form::Closed => true,
        Form::Faulty => false,
    }
}
