//! A seat that is held, with what is printed of it.
ghost use Rattle.outside.specs.Told.{HasRisen};
ghost use Rattle.client_talk.specs.Running.{Goes, Holds, Keeps, Waits};
ghost use Rattle.client_talk.specs.Talks.{hello_line};

use crate::cause::Cause;
use crate::client::Client;
use crate::hold::Hold;
use crate::keeping::{give_back, keep, take, wait};
use crate::printing::print_reply;
use crate::standing::Standing;
use outside::Sink;
use session_outside::{Bell, Clock, Link};
use std::alloc::Global;

/// Keeps a seat, gives it back, and prints the reply to that.
fn keep_seat<L: Link, K: Clock, B: Bell, O: Sink>(
    alloc: Global,
    hold: &Hold<'_>,
    link: &mut L,
    clock: &mut K,
    bell: &mut B,
    out: &mut O,
) -> Result<(), Cause>
    ensures { Keeps L.tells K.gave B.answered link.old link.new clock.old clock.new bell.old bell.new hold.now (HasRisen (O.faults out.old) (O.faults out.new)) (O.held out.old) (O.held out.new) result }
{
    let given = keep(alloc, link, clock, bell, hold.feature, hold.pace.holding);
    print_reply(alloc, out, given)
}

/// Waits for a seat, prints the reply by which it came, and keeps it; or gives the place in the queue back, where the
/// bell has rung before.
fn wait_for_seat<L: Link, K: Clock, B: Bell, O: Sink>(
    alloc: Global,
    hold: &Hold<'_>,
    seconds: u64,
    link: &mut L,
    clock: &mut K,
    bell: &mut B,
    out: &mut O,
) -> Result<(), Cause>
    ensures { Waits L.tells K.gave B.answered link.old link.new clock.old clock.new bell.old bell.new hold.now seconds (HasRisen (O.faults out.old) (O.faults out.new)) (O.held out.old) (O.held out.new) result }
{
    match wait(alloc, link, clock, bell, hold.feature, seconds)? {
        Some(seat) => {
            print_reply(alloc, out, Ok(seat))?;
            keep_seat(alloc, hold, link, clock, bell, out)
        }
        None => {
            let left = give_back(alloc, link, hold.feature, Standing::Waiting);
            print_reply(alloc, out, left)
        }
    }
}

/// Waits for a seat where it is to be waited for, and keeps it.
fn go_on<L: Link, K: Clock, B: Bell, O: Sink>(
    alloc: Global,
    hold: &Hold<'_>,
    waiting: Option<u64>,
    link: &mut L,
    clock: &mut K,
    bell: &mut B,
    out: &mut O,
) -> Result<(), Cause>
    ensures { Goes L.tells K.gave B.answered link.old link.new clock.old clock.new bell.old bell.new hold.now waiting (HasRisen (O.faults out.old) (O.faults out.new)) (O.held out.old) (O.held out.new) result }
{
    match waiting {
        Some(seconds) => wait_for_seat(alloc, hold, seconds, link, clock, bell, out),
        None => keep_seat(alloc, hold, link, clock, bell, out),
    }
}

/// Takes a seat, or waits for one where it is to, keeps it until the bell has rung, and gives it back. Each reply is
/// printed as it comes, but those to BEATs that change nothing.
pub(crate) fn hold_seat<L: Link, K: Clock, B: Bell, O: Sink>(
    alloc: Global,
    hold: &Hold<'_>,
    client: &Client<'_>,
    link: &mut L,
    clock: &mut K,
    bell: &mut B,
    out: &mut O,
) -> Result<(), Cause>
    ensures { Holds L.tells K.gave B.answered link.old link.new clock.old clock.new bell.old bell.new (hello_line client.now) hold.now (HasRisen (O.faults out.old) (O.faults out.new)) (O.held out.old) (O.held out.new) result }
{
    let reply = take(alloc, link, client, hold)?;
    let waiting = hold.pace.waits_by(reply.line());
    print_reply(alloc, out, Ok(reply))?;
    go_on(alloc, hold, waiting, link, clock, bell, out)
}
