ghost use Rattle.std.specs.Prelude.{◌≡◌};
ghost use Rattle.bitstream_spelling.specs.Rules.{IsSound};

use bitstream_spelling::{Abbreviation, Operand};
use std::marker::Model;

/// An abbreviation by which records are read: its definition broke no rule.
#[derive(Drop)]
pub struct SoundAbbreviation {
    operands: Abbreviation,
}

impl Model for SoundAbbreviation {
    ghost use Rattle.std.specs.Prelude.{List as Seq};
    ghost use Rattle.bitstream_spelling.specs.declared.operand.Operand.{Operand as OneOperand};
    ghost use Rattle.bitstream_spelling.specs.Rules.{IsSound};

    ghost Value = { Seq OneOperand };

    ghost view = { λ s. s.operands };

    ghost invariant = { λ s. IsSound s.operands };
}

impl SoundAbbreviation {
    pub fn new(operands: Abbreviation) -> SoundAbbreviation
        requires { IsSound operands }
        ensures { result ≡ operands }
    {
        SoundAbbreviation { operands }
    }

    pub fn as_slice(&self) -> &[Operand]
        ensures same { result.now ≡ self.now }
        ensures sound { IsSound self.now }
    {
        self.operands.as_slice()
    }
}
