//! The line of what a client is told.
ghost use Rattle.std.specs.Prelude.{◌≡◌, ◌+◌, ◌<◌, ◌≤◌, ◌++◌, ◌∷◌, [], codes, decimal, length, take};
ghost use Rattle.lic_types.specs.Days.{day_text};
ghost use Rattle.reply_words.specs.Words.{charge_text, reply_text};
ghost use Rattle.line_protocol.specs.Replies.{desk_text, glance_text, line_of, seated_text, told_text};

use crate::told::Told;
use counter::Glance;
use itoa::Buffer;
use lic_types::{Day, put, put_number};
use options_machine::{Charge, Reply};
use reply_words::{put_charge, reply_words};

/// Writes a word, and behind it a number, which has ten digits at most.
fn put_numbered(room: &mut [u8], at: usize, text: &[u8], n: u32) -> usize
    requires { at + length text.now + 10 ≤ length room.old }
    ensures room { length room.new ≡ length room.old }
    ensures offset { result ≤ at + length text.now + 10 }
    ensures written { take result room.new ≡ take at room.old ++ text.now ++ decimal n }
{
    let at = put(room, at, text);
    let mut buffer = Buffer::new();
    put(room, at, buffer.format(n).as_bytes())
}

/// Writes a reply that brought a seat.
fn put_seated(room: &mut [u8; 160], word: &[u8], seat: u32, charge: &Charge) -> usize
    requires { length word.now ≤ 10 }
    ensures offset { result ≤ 130 }
    ensures written { take result room.new ≡ seated_text word.now seat charge.now }
{
    let at = put(room, 0, word);
    let at = put_numbered(room, at, b" SEAT ", seat);
    let at = put(room, at, b" ");
    put_charge(room, at, charge)
}

/// Writes the words of a reply, with the seat that it brought.
fn put_desk_words(room: &mut [u8; 160], reply: &Reply, seat: Option<u32>) -> usize
    ensures offset { result ≤ 130 }
    ensures written { take result room.new ≡ desk_text reply.now seat }
{
    let Some(seat) = seat else {
        return reply_words(reply, room);
    };
    match reply {
        Reply::Granted(charge) => put_seated(room, b"GRANTED", seat, charge),
        Reply::Retaken(charge) => put_seated(room, b"RETAKEN", seat, charge),
        _ => reply_words(reply, room),
    }
}

/// Writes a reply and how many entries came before it.
fn put_desk(room: &mut [u8; 160], reply: &Reply, seat: Option<u32>, place: u64) -> usize
    ensures offset { result ≤ 152 }
    ensures written { take result room.new ≡ desk_text reply.now seat ++ codes " #" ++ decimal place }
{
    let at = put_desk_words(room, reply, seat);
    let at = put(room, at, b" #");
    put_number(room, at, place)
}

/// Writes the words of a glance.
fn put_glance(room: &mut [u8; 160], glance: &Glance) -> usize
    ensures offset { result ≤ 150 }
    ensures written { take result room.new ≡ glance_text glance.now }
{
    let at = put(room, 0, b"GLANCE FRONT ");
    let at = put_number(room, at, glance.front);
    let at = put_numbered(room, at, b" HELD ", glance.held);
    let at = put_numbered(room, at, b" LINGERING ", glance.lingering);
    let at = put_numbered(room, at, b" OPEN ", glance.taken);
    let at = put_numbered(room, at, b" OF ", glance.free);
    put_numbered(room, at, b" QUEUED ", glance.queued)
}

/// Writes the day on which a pool expired.
fn put_expired(room: &mut [u8; 160], day: &Day) -> usize
    ensures offset { result ≤ 20 }
    ensures written { take result room.new ≡ codes "EXPIRED " ++ day_text day.now }
{
    let mut text = [0u8; 16];
    let len = day.put(&mut text);
    let at = put(room, 0, b"EXPIRED ");
    put(room, at, &text[..len])
}

/// Writes what a client is told.
fn put_told(room: &mut [u8; 160], told: &Told) -> usize
    ensures offset { result ≤ 152 }
    ensures written { take result room.new ≡ told_text told.now }
{
    match told {
        Told::Desk { reply, seat, place } => put_desk(room, reply, *seat, *place),
        Told::Welcome(party) => put_numbered(room, 0, b"WELCOME ", *party),
        Told::NoHello => put(room, 0, b"NOHELLO"),
        Told::Greeted => put(room, 0, b"GREETED"),
        Told::Unknown => put(room, 0, b"UNKNOWN"),
        Told::Expired(day) => put_expired(room, day),
        Told::Glance(glance) => put_glance(room, glance),
        Told::Reread(set) => put_numbered(room, 0, b"REREAD ", *set),
        Told::NoRules(set) => put_numbered(room, 0, b"NORULES ", *set),
        Told::Bad(fault) => put_numbered(room, 0, b"BAD ", u32::from(*fault)),
        Told::Bye => put(room, 0, b"BYE"),
        Told::Stopping => put(room, 0, b"STOPPING"),
    }
}

/// Writes the line of what a client is told, with its LF, at the start of the room, and gives how many bytes it takes,
/// 160 at most. The words are this project's own; the bytes of the room behind them are left open.
pub fn write_reply(told: &Told, room: &mut [u8; 160]) -> usize
    ensures offset { result ≤ 153 }
    ensures written { take result room.new ≡ line_of told.now }
{
    let at = put_told(room, told);
    put(room, at, b"\n")
}
