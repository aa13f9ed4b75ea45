//! An errand as a whole, with what is printed of it.
ghost use Rattle.outside.specs.Told.{HasRisen};
ghost use Rattle.client_talk.specs.Running.{Runs};

use crate::cause::Cause;
use crate::client::Client;
use crate::errand::{ask, reread, shutdown, status};
use crate::hold::Hold;
use crate::holding::hold_seat;
use crate::printing::{print, print_reply};
use outside::Sink;
use session_outside::{Bell, Clock, Link};
use std::alloc::Global;

/// What a client is to do.
#[derive(Clone, Copy, Debug)]
pub enum Errand<'a> {
    /// To ask a request of these words, and to print the reply.
    Ask(&'a str),
    /// To print the table of the desks of these features.
    Status(&'a [&'a str]),
    /// To hold this seat until the bell rings.
    Hold(Hold<'a>),
    /// To ask that the rule set of this number holds.
    Reread(&'a str),
    /// To ask that all sessions end.
    Shutdown,
}

/// Does an errand and prints what comes of it. Where it isn't done the cause is given, and nothing of the reply at
/// which it stopped was printed; on `WriteFault` a prefix of what was to be printed may have been.
pub fn run<L: Link, K: Clock, B: Bell, O: Sink>(
    alloc: Global,
    errand: &Errand<'_>,
    client: &Client<'_>,
    link: &mut L,
    clock: &mut K,
    bell: &mut B,
    out: &mut O,
) -> Result<(), Cause>
    ensures { Runs errand.now client.now L.tells K.gave B.answered link.old link.new clock.old clock.new bell.old bell.new (HasRisen (O.faults out.old) (O.faults out.new)) (O.held out.old) (O.held out.new) result }
{
    match *errand {
        Errand::Ask(words) => print_reply(alloc, out, ask(alloc, link, client, words)),
        Errand::Status(features) => print(out, status(alloc, link, client, features)),
        Errand::Hold(hold) => hold_seat(alloc, &hold, client, link, clock, bell, out),
        Errand::Reread(number) => print_reply(alloc, out, reread(alloc, link, client, number)),
        Errand::Shutdown => print_reply(alloc, out, shutdown(alloc, link)),
    }
}
