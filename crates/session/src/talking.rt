//! What is written to the client.
ghost use Rattle.std.specs.Prelude.{◌≡◌, [], ◌∷◌, List, Some};
ghost use Rattle.line_protocol.specs.Replies.{line_of};
ghost use Rattle.session.specs.Acts.{Act, Ring, peals_of, talk_of};
ghost use Rattle.session.specs.Did.{Belled, Linked};
ghost use Rattle.session.specs.Table.{Writes, WritesAnd};
ghost use Rattle.session.specs.Talks.{first_party};

use crate::end::SessionEnd;
use counter::Counter;
use line_protocol::{Told, write_reply};
use session_outside::{Bell, Gate, GatePlace, Link};
use std::sync::Wait;

/// The number of the first counter's party, or 0 where there is none.
pub(crate) fn first_party<C: Counter>(pass: &[C]) -> u32
    ensures { result ≡ first_party C.account pass.now }
{
    match pass {
        [] => 0,
        [first, ..] => first.party(),
    }
}

/// Writes a line. The session then goes on to `next`, unless the write fails.
pub(crate) fn say<R: Wait, L: Link, G: Gate>(
    rt: &R,
    link: &mut L,
    gate: &mut G,
    text: &mut [u8; 160],
    told: &Told,
    next: Option<SessionEnd>,
) -> Option<SessionEnd>
    ensures { (new : List Act) × Writes told.now next new result
        × Linked L.tells L.faults L.quiets (talk_of new) link.old link.new × (peals_of new ≡ []) }
{
    let len = write_reply(told, text);
    match link.write(&text[..len]) {
        Ok(()) => {
            gate.after(rt, GatePlace::Written);
            next
        }
        Err(_) => Some(SessionEnd::LinkFault),
    }
}

/// Writes that all sessions are to end, and rings the bell.
pub(crate) fn say_stopping<R: Wait, L: Link, G: Gate, B: Bell>(
    rt: &R,
    link: &mut L,
    gate: &mut G,
    bell: &mut B,
    text: &mut [u8; 160],
) -> SessionEnd
    ensures { (new : List Act) × WritesAnd Told.Stopping (Ring ∷ []) (Some SessionEnd.Down) new (Some result)
        × Linked L.tells L.faults L.quiets (talk_of new) link.old link.new × Belled B.answered B.tolls B.rings (peals_of new) bell.old bell.new }
{
    let end = say(rt, link, gate, text, &Told::Stopping, None);
    match end {
        Some(end) => end,
        None => {
            bell.ring();
            SessionEnd::Down
        }
    }
}
