//! How a seat is taken, kept and given back, and how one is waited for.
ghost use Rattle.std.specs.Prelude.{◌≡◌, if◌then◌else◌, true};
ghost use Rattle.client_talk.specs.Errands.{IsAnswered};
ghost use Rattle.client_talk.specs.Exchange.{Asks};
ghost use Rattle.client_talk.specs.Holding.{seat_line, seat_want};
ghost use Rattle.client_talk.specs.Keeping.{Rests, Turns, is_due};
ghost use Rattle.client_talk.specs.Standing.{return_want};
ghost use Rattle.client_talk.specs.Stays.{IsGiven, Stays};
ghost use Rattle.client_talk.specs.Talks.{checkin_line, hello_line};
ghost use Rattle.client_talk.specs.declared.standing.Standing.TheVariants.{Holding, Waiting};

use crate::cause::Cause;
use crate::client::Client;
use crate::errand::ask_greeted;
use crate::exchange::ask_made;
use crate::hold::Hold;
use crate::lost::Lost;
use crate::request::Request;
use crate::standing::Standing;
use line_protocol::Feeder;
use session_outside::{Bell, Clock, Got, Link};
use std::alloc::Global;

/// Says who the client is and asks for a seat, or for a seat or else a place in the queue where it is to wait, and
/// gives the reply.
pub fn take<L: Link>(
    alloc: Global,
    link: &mut L,
    client: &Client<'_>,
    hold: &Hold<'_>,
) -> Result<Feeder, Cause>
    ensures { IsAnswered L.tells link.old link.new (hello_line client.now) (seat_line hold.now) (seat_want hold.now) result }
{
    let made = Request::seat(alloc, hold);
    ask_greeted(alloc, link, client, made)
}

/// Whether a BEAT is due: so many seconds after the last one, and where the clock went back.
fn is_due(last: u64, now: u64, every: u64) -> bool
    ensures { result ≡ is_due last now every }
{
    now < last || every <= now - last
}

/// The moment of the last BEAT.
fn last_beat(last: u64, now: u64, due: bool) -> u64
    ensures { result ≡ (if due then now else last) }
{
    if due { now } else { last }
}

/// Waits for as long as a read does. Nothing is to come.
fn rest<L: Link>(link: &mut L) -> Result<(), Lost>
    ensures { Rests L.tells link.old link.new result }
{
    let mut piece = [0u8; 64];
    match link.read(&mut piece) {
        Got::Quiet => Ok(()),
        Got::Bytes(_) => Err(Lost::Unasked),
        Got::End => Err(Lost::Closed),
        Got::Failed => Err(Lost::Fault),
    }
}

/// Asks a BEAT, and gives the reply where it ends the standing.
fn beat<L: Link>(
    alloc: Global,
    link: &mut L,
    feature: &str,
    standing: Standing,
) -> Result<Option<Feeder>, Cause>
    ensures { Turns L.tells link.old link.new feature.now standing true result }
{
    let reply = ask_made(link, Request::beat(alloc, feature, standing.beat_want()))?;
    if standing.ends(reply.line()) {
        Ok(Some(reply))
    } else {
        Ok(None)
    }
}

/// One turn: a BEAT where it is due, and else a rest.
fn turn<L: Link>(
    alloc: Global,
    link: &mut L,
    feature: &str,
    standing: Standing,
    due: bool,
) -> Result<Option<Feeder>, Cause>
    ensures { Turns L.tells link.old link.new feature.now standing due result }
{
    if due {
        beat(alloc, link, feature, standing)
    } else {
        rest(link)?;
        Ok(None)
    }
}

/// Stands at a desk, with a BEAT every so many seconds, until the bell has rung or a reply ends the standing, which is
/// given.
fn stay<L: Link, K: Clock, B: Bell>(
    alloc: Global,
    link: &mut L,
    clock: &mut K,
    bell: &mut B,
    feature: &str,
    every: u64,
    standing: Standing,
) -> Result<Option<Feeder>, Cause>
    ensures { Stays L.tells K.gave B.answered link.old link.new clock.old clock.new bell.old bell.new feature.now every standing result }
{
    let mut last = clock.now();
    for _turn in 0..u64::MAX {
        if bell.rung() {
            return Ok(None);
        }
        let now = clock.now();
        let due = is_due(last, now, every);
        last = last_beat(last, now, due);
        if let Some(seat) = turn(alloc, link, feature, standing, due)? {
            return Ok(Some(seat));
        }
    }
    Ok(None)
}

/// Gives a seat, or a place in the queue, back, and gives the reply.
pub fn give_back<L: Link>(
    alloc: Global,
    link: &mut L,
    feature: &str,
    standing: Standing,
) -> Result<Feeder, Cause>
    ensures { Asks L.tells link.old link.new (checkin_line feature.now) (return_want standing) result }
{
    ask_made(
        link,
        Request::checkin(alloc, feature, standing.return_want()),
    )
}

/// Keeps the seat of a feature, by a BEAT every so many seconds, until the bell has rung, and then gives it back. The
/// reply to the CHECKIN is given.
pub fn keep<L: Link, K: Clock, B: Bell>(
    alloc: Global,
    link: &mut L,
    clock: &mut K,
    bell: &mut B,
    feature: &str,
    every: u64,
) -> Result<Feeder, Cause>
    ensures { IsGiven L.tells K.gave B.answered link.old link.new clock.old clock.new bell.old bell.new feature.now every result }
{
    stay(alloc, link, clock, bell, feature, every, Standing::Holding)?;
    give_back(alloc, link, feature, Standing::Holding)
}

/// Waits in the queue of a feature's desk, with a BEAT every so many seconds, until a seat has come, whose reply is
/// given, or the bell has rung.
pub fn wait<L: Link, K: Clock, B: Bell>(
    alloc: Global,
    link: &mut L,
    clock: &mut K,
    bell: &mut B,
    feature: &str,
    every: u64,
) -> Result<Option<Feeder>, Cause>
    ensures { Stays L.tells K.gave B.answered link.old link.new clock.old clock.new bell.old bell.new feature.now every Waiting result }
{
    stay(alloc, link, clock, bell, feature, every, Standing::Waiting)
}
