//! What is printed of an errand.
ghost use Rattle.std.specs.Prelude.{◌≡◌, OnOk};
ghost use Rattle.outside.specs.Told.{HasRisen};
ghost use Rattle.client_talk.specs.Printing.{Lines, Prints, PrintsReply};

use crate::cause::Cause;
use line_protocol::Feeder;
use outside::Sink;
use std::alloc::Global;

/// A reply as a line that is printed.
fn lined(alloc: Global, said: Result<Feeder, Cause>) -> Result<Vec<u8>, Cause>
    ensures { Lines said result }
{
    let reply = said?;
    let mut text = Vec::new(alloc);
    text.extend_from_slice(reply.line())?;
    text.extend_from_slice(b"\n")?;
    Ok(text)
}

/// Prints a text, where there is one.
pub(crate) fn print<O: Sink>(out: &mut O, said: Result<Vec<u8>, Cause>) -> Result<(), Cause>
    ensures printed { Prints (HasRisen (O.faults out.old) (O.faults out.new)) (O.held out.old) (O.held out.new) said result }
    ensures steady { OnOk result (O.faults out.new ≡ O.faults out.old) }
{
    let text = said?;
    out.write(text.as_slice())?;
    Ok(())
}

/// Prints a reply as a line, where there is one.
pub(crate) fn print_reply<O: Sink>(
    alloc: Global,
    out: &mut O,
    said: Result<Feeder, Cause>,
) -> Result<(), Cause>
    ensures printed { PrintsReply (HasRisen (O.faults out.old) (O.faults out.new)) (O.held out.old) (O.held out.new) said result }
    ensures steady { OnOk result (O.faults out.new ≡ O.faults out.old) }
{
    print(out, lined(alloc, said))
}
