//! Sessions.
ghost use Rattle.std.specs.Prelude.{◌≡◌, ◌≤◌, ◌<◌, ◌++◌, List, length, ℕ, IsNone, false};
ghost use Rattle.line_protocol.specs.Streams.{IsOpen, waiting};
ghost use Rattle.line_protocol.specs.declared.feeder.TheConstants.{LINE_LIMIT};
ghost use Rattle.session.specs.Acts.{Act};
ghost use Rattle.session.specs.Did.{Agrees, Did, HasCause};
ghost use Rattle.session.specs.Pass.{AreIdle, AreOf};
ghost use Rattle.session.specs.Session.{Ends, Goes, KeepsNothing, Leads, Session, end_with, setup_of};
ghost use Rattle.session.specs.Table.{Setup};

use crate::asked::Whom;
use crate::asking::ask_any;
use crate::end::SessionEnd;
use crate::table::answer;
use counter::Counter;
use lic_types::Client;
use line_protocol::{Fed, Feeder};
use office_view::OfficeView;
use options_machine::Kind;
use session_outside::{Bell, Clock, Gate, GatePlace, Got, Link};
use std::sync::Wait;

/// How many bytes are read at once, at most.
const PIECE_ROOM: usize = 1024;

/// The room of a session: for the line that is written, for the line that is heard, and for what is read. What a request
/// touches comes first, and the room is small, so that it lies in few pages.
#[derive(Drop)]
pub struct Buffers {
    text: [u8; 160],
    feeder: Feeder,
    piece: [u8; PIECE_ROOM],
}

impl Buffers {
    /// Room for one session after another. It takes no memory beside itself.
    pub fn make() -> Buffers {
        Buffers {
            text: [0; 160],
            feeder: Feeder::make(),
            piece: [0; PIECE_ROOM],
        }
    }
}

/// Answers the lines that a piece completes.
fn hear<R: Wait, C: Counter, L: Link, K: Clock, G: Gate, B: Bell>(
    rt: &R,
    office: &OfficeView<C::Desk>,
    pass: &mut [C],
    link: &mut L,
    clock: &mut K,
    gate: &mut G,
    bell: &mut B,
    text: &mut [u8; 160],
    feeder: &mut Feeder,
    client: &mut Option<Client>,
    piece: &[u8],
) -> Option<SessionEnd>
    requires of { AreOf C.is_of C.account pass.old office.now }
    requires fits { feeder.old.over ≡ false }
    requires still { IsOpen (waiting feeder.old) }
    ensures heard { (o : Setup) (before : List Act) → Agrees C.account office.now o before pass.old →
        Goes o before client.old (waiting feeder.old ++ piece.now) →
        (new : List Act) × Did C.account L.tells L.faults L.quiets K.gave B.answered B.tolls B.rings new pass.old pass.new link.old link.new clock.old clock.new bell.old bell.new × Leads o (before ++ new) client.new (waiting feeder.new) result }
    ensures fits { IsNone result → feeder.new.over ≡ false }
    ensures still { IsNone result → IsOpen (waiting feeder.new) }
    ensures of { AreOf C.is_of C.account pass.new office.now }
{
    let mut at = 0;
    while at < piece.len() {
        match feeder.feed(&piece[at..]) {
            Fed::Line(used) => {
                at += used;
                gate.after(rt, GatePlace::Line);
                let end = answer(
                    rt,
                    office,
                    pass,
                    link,
                    clock,
                    gate,
                    bell,
                    text,
                    client,
                    feeder.line(),
                );
                if end.is_some() {
                    return end;
                }
            }
            Fed::More => return None,
            Fed::TooLong => return Some(SessionEnd::LineTooLong),
        }
    }
    None
}

/// The end at the end of the stream, with this many bytes since the last LF.
fn end_with(rest: usize) -> SessionEnd
    requires { rest ≤ LINE_LIMIT }
    ensures { (bytes : List ℕ) → length bytes ≡ rest → result ≡ end_with bytes }
{
    if rest == 0 {
        SessionEnd::End
    } else {
        SessionEnd::Torn(rest as u32)
    }
}

/// Reads the link once, and answers what came.
fn turn<R: Wait, C: Counter, L: Link, K: Clock, G: Gate, B: Bell>(
    rt: &R,
    office: &OfficeView<C::Desk>,
    pass: &mut [C],
    link: &mut L,
    clock: &mut K,
    gate: &mut G,
    bell: &mut B,
    text: &mut [u8; 160],
    feeder: &mut Feeder,
    client: &mut Option<Client>,
    piece: &mut [u8; PIECE_ROOM],
) -> Option<SessionEnd>
    requires of { AreOf C.is_of C.account pass.old office.now }
    requires fits { feeder.old.over ≡ false }
    requires still { IsOpen (waiting feeder.old) }
    ensures turned { (o : Setup) (before : List Act) → Agrees C.account office.now o before pass.old →
        Goes o before client.old (waiting feeder.old) →
        (new : List Act) × Did C.account L.tells L.faults L.quiets K.gave B.answered B.tolls B.rings new pass.old pass.new link.old link.new clock.old clock.new bell.old bell.new × Leads o (before ++ new) client.new (waiting feeder.new) result }
    ensures fits { IsNone result → feeder.new.over ≡ false }
    ensures still { IsNone result → IsOpen (waiting feeder.new) }
    ensures of { AreOf C.is_of C.account pass.new office.now }
{
    match link.read(piece) {
        Got::Bytes(len) => hear(
            rt,
            office,
            pass,
            link,
            clock,
            gate,
            bell,
            text,
            feeder,
            client,
            &piece[..len],
        ),
        Got::End => Some(end_with(feeder.rest())),
        Got::Failed => Some(SessionEnd::LinkFault),
        Got::Quiet => {
            if bell.rung() {
                return Some(SessionEnd::Stopped);
            }
            ask_any(
                rt,
                office,
                pass,
                clock,
                Whom::Holding,
                Kind::Look,
                client.as_ref(),
            );
            None
        }
    }
}

/// Turns until the session is at its end.
fn converse<R: Wait, C: Counter, L: Link, K: Clock, G: Gate, B: Bell>(
    rt: &R,
    office: &OfficeView<C::Desk>,
    pass: &mut [C],
    link: &mut L,
    clock: &mut K,
    gate: &mut G,
    bell: &mut B,
    text: &mut [u8; 160],
    feeder: &mut Feeder,
    client: &mut Option<Client>,
    piece: &mut [u8; PIECE_ROOM],
) -> SessionEnd
    requires of { AreOf C.is_of C.account pass.old office.now }
    requires fits { feeder.old.over ≡ false }
    requires still { IsOpen (waiting feeder.old) }
    ensures ended { (o : Setup) (before : List Act) → Agrees C.account office.now o before pass.old →
        Goes o before client.old (waiting feeder.old) →
        (new : List Act) × Did C.account L.tells L.faults L.quiets K.gave B.answered B.tolls B.rings new pass.old pass.new link.old link.new clock.old clock.new bell.old bell.new × Ends o (before ++ new) client.new result }
    ensures of { AreOf C.is_of C.account pass.new office.now }
{
    for _ in rt.forever() {
        let end = turn(
            rt, office, pass, link, clock, gate, bell, text, feeder, client, piece,
        );
        if let Some(end) = end {
            return end;
        }
    }
    unreachable!()
}

/// Serves one session, over a slice of counters.
fn serve<R: Wait, C: Counter, L: Link, K: Clock, G: Gate, B: Bell>(
    rt: &R,
    office: &OfficeView<C::Desk>,
    pass: &mut [C],
    link: &mut L,
    clock: &mut K,
    gate: &mut G,
    bell: &mut B,
    room: &mut Buffers,
) -> SessionEnd
    requires of { AreOf C.is_of C.account pass.old office.now }
    requires idle { AreIdle C.account pass.old }
    ensures session { (acts : List Act) × Session (setup_of C.account office.now pass.old) acts result × KeepsNothing (setup_of C.account office.now pass.old) acts
        × Did C.account L.tells L.faults L.quiets K.gave B.answered B.tolls B.rings acts pass.old pass.new link.old link.new clock.old clock.new bell.old bell.new }
    ensures cause { HasCause result (L.faults link.old) (L.faults link.new) (L.quiets link.old) (L.quiets link.new) (B.tolls bell.old) (B.tolls bell.new) (B.rings bell.old) (B.rings bell.new) }
    ensures of { AreOf C.is_of C.account pass.new office.now }
    ensures given_back { AreIdle C.account pass.new }
{
    let mut client = None;
    room.feeder.clear();
    let end = converse(
        rt,
        office,
        pass,
        link,
        clock,
        gate,
        bell,
        &mut room.text,
        &mut room.feeder,
        &mut client,
        &mut room.piece,
    );
    ask_any(
        rt,
        office,
        pass,
        clock,
        Whom::Keeping,
        Kind::Quit,
        client.as_ref(),
    );
    end
}

/// Serves one session: it reads lines from the link and writes one line for each, in order, all of them before it reads
/// again. At its end, whatever its cause, it has given back every seat and every place in a queue.
///
/// `pass` has one counter for each pool of the office, of that pool's desk, and none of them is holding or queued. The
/// moments are in seconds since 1970-01-01 UTC. It takes no memory but what a desk's step takes. Each end comes exactly
/// where [`SessionEnd`] says: `LinkFault` only where the link's faults rose in this call, `Stopped` only where its
/// quiets and the bell's tolls rose, `Down` exactly where the bell's rings rose. The protocol is this project's own.
pub fn serve_session<R: Wait, C: Counter, L: Link, K: Clock, G: Gate, B: Bell>(
    rt: &R,
    office: &OfficeView<C::Desk>,
    pass: &mut Vec<C>,
    link: &mut L,
    clock: &mut K,
    gate: &mut G,
    bell: &mut B,
    room: &mut Buffers,
) -> SessionEnd
    requires of { AreOf C.is_of C.account pass.old.items office.now }
    requires idle { AreIdle C.account pass.old.items }
    ensures session { (acts : List Act) × Session (setup_of C.account office.now pass.old.items) acts result × KeepsNothing (setup_of C.account office.now pass.old.items) acts
        × Did C.account L.tells L.faults L.quiets K.gave B.answered B.tolls B.rings acts pass.old.items pass.new.items link.old link.new clock.old clock.new bell.old bell.new }
    ensures cause { HasCause result (L.faults link.old) (L.faults link.new) (L.quiets link.old) (L.quiets link.new) (B.tolls bell.old) (B.tolls bell.new) (B.rings bell.old) (B.rings bell.new) }
    ensures of { AreOf C.is_of C.account pass.new.items office.now }
    ensures given_back { AreIdle C.account pass.new.items }
{
    serve(rt, office, pass, link, clock, gate, bell, room)
}
