ghost use Rattle.std.specs.Prelude.{◌≡◌, ◌∷◌, ◌++◌, [], OnOk};
ghost use Rattle.dx_base.specs.declared.fault.Fault.TheVariants.{Refused, Limit};
ghost use Rattle.dx_base.specs.declared.fault.Rule.TheVariants.{B};

use dx_base::{Fault, List, OutOfMemory, Rule, Which};

/// The refusal by a rule of the bitstream.
pub fn refused(rule: u8, bit: u64) -> Fault
    ensures { result ≡ Refused (B rule) bit }
{
    Fault::Refused {
        rule: Rule::B(rule),
        bit,
    }
}

/// The answer at a limit.
pub fn limit(which: Which, bit: u64) -> Fault
    ensures { result ≡ Limit which bit }
{
    Fault::Limit { which, bit }
}

/// Adds an item to a list.
pub fn keep<T: Drop>(list: &mut List<T>, item: T) -> Result<(), OutOfMemory>
    ensures { OnOk result (list.new ≡ list.old ++ item ∷ []) }
{
    match list.push(item) {
        Ok(()) => Ok(()),
        Err(_) => Err(OutOfMemory),
    }
}
