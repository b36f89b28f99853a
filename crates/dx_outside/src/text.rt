ghost use Rattle.std.specs.Prelude.{◌≡◌, OnOk, OnErr, IsErrOf};
ghost use Rattle.dx_outside.specs.Outside.{Rose, SinkNeverFell, SaidPart, with_more};

use crate::{Outage, Sink};

/// Appends a text to a sink, whole. It takes no memory of its own.
///
/// # Errors
///
/// A prefix of the text was appended. `Failed` only where the sink's count of failed writes rose in this call, and `OutOfMemory`
/// only where that of writes without memory did.
pub fn say<S: Sink>(out: &mut S, text: &[u8]) -> Result<(), Outage>
    ensures whole { OnOk result ((S.seen out.new).taken ≡ with_more (S.seen out.old).taken text.now) }
    ensures part { OnErr result (SaidPart text.now (S.seen out.old).taken (S.seen out.new).taken) }
    ensures failed { IsErrOf result Outage.Failed → Rose (S.seen out.old).faults (S.seen out.new).faults }
    ensures memory { IsErrOf result Outage.OutOfMemory → Rose (S.seen out.old).lacks (S.seen out.new).lacks }
    ensures counts { SinkNeverFell (S.seen out.old) (S.seen out.new) }
{
    let mut said = 0;
    while said < text.len() {
        match out.write(&text[said..]) {
            Ok(n) => said += n,
            Err(outage) => return Err(outage),
        }
    }
    Ok(())
}
