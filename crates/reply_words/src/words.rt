//! The words of a reply.
ghost use Rattle.std.specs.Prelude.{◌≡◌, ◌+◌, ◌≤◌, ◌++◌, decimal, length, take};
ghost use Rattle.options_machine.specs.declared.reply.Reply.TheVariants.{Counts};
ghost use Rattle.reply_words.specs.Words.{charge_text, own_text, reply_text};

use lic_types::{put, put_number};
use options_machine::{Charge, Reply};

/// Writes the words of a charge behind the first `at` bytes of a room, and gives the offset behind them. They take 28
/// bytes at most.
pub fn put_charge(room: &mut [u8], at: usize, charge: &Charge) -> usize
    requires { at + 28 ≤ length room.old }
    ensures room { length room.new ≡ length room.old }
    ensures offset { result ≤ at + 28 }
    ensures written { take result room.new ≡ take at room.old ++ charge_text charge.now }
{
    match charge {
        Charge::Open => put(room, at, b"OPEN"),
        Charge::Reserve(line) => {
            let at = put(room, at, b"RESERVE ");
            put_number(room, at, u64::from(*line))
        }
    }
}

/// Writes a word and a number behind it.
fn put_numbered(room: &mut [u8], at: usize, text: &[u8], n: u32) -> usize
    requires { at + length text.now + 20 ≤ length room.old }
    ensures room { length room.new ≡ length room.old }
    ensures offset { result ≤ at + length text.now + 20 }
    ensures written { take result room.new ≡ take at room.old ++ (text.now ++ decimal n) }
{
    let at = put(room, at, text);
    put_number(room, at, u64::from(n))
}

fn put_own(room: &mut [u8], at: usize, own: bool, queued: bool) -> usize
    requires { at + 1 ≤ length room.old }
    ensures room { length room.new ≡ length room.old }
    ensures offset { result ≤ at + 1 }
    ensures written { take result room.new ≡ take at room.old ++ own_text own queued }
{
    match (own, queued) {
        (true, _) => put(room, at, b"1"),
        (false, true) => put(room, at, b"2"),
        (false, false) => put(room, at, b"0"),
    }
}

/// Writes the words of a desk's counts behind the first `at` bytes of a room, and gives the offset behind them. They
/// take 119 bytes at most.
fn put_counts(
    room: &mut [u8],
    at: usize,
    held: u32,
    lingering: u32,
    taken: u32,
    free: u32,
    own: bool,
    queued: bool,
) -> usize
    requires { at + 119 ≤ length room.old }
    ensures room { length room.new ≡ length room.old }
    ensures offset { result ≤ at + 119 }
    ensures written { take result room.new ≡ take at room.old ++ reply_text (Counts held lingering taken free own queued) }
{
    let at = put_numbered(room, at, b"COUNTS HELD ", held);
    let at = put_numbered(room, at, b" LINGERING ", lingering);
    let at = put_numbered(room, at, b" OPEN ", taken);
    let at = put_numbered(room, at, b" OF ", free);
    let at = put(room, at, b" OWN ");
    put_own(room, at, own, queued)
}

/// Writes the words of a reply behind the first `at` bytes of a room, and gives the offset behind them. They take 130
/// bytes at most.
#[tactic(auto, using(std::proofs::lemmas::List::append_assoc))]
pub fn put_reply(room: &mut [u8], at: usize, reply: &Reply) -> usize
    requires { at + 130 ≤ length room.old }
    ensures room { length room.new ≡ length room.old }
    ensures offset { result ≤ at + 130 }
    ensures written { take result room.new ≡ take at room.old ++ reply_text reply.now }
{
    match reply {
        Reply::Granted(charge) => {
            let at = put(room, at, b"GRANTED ");
            put_charge(room, at, charge)
        }
        Reply::Retaken(charge) => {
            let at = put(room, at, b"RETAKEN ");
            put_charge(room, at, charge)
        }
        Reply::Denied(line) => put_numbered(room, at, b"DENIED LINE ", *line),
        Reply::NoSeat(taken, free) => {
            let at = put_numbered(room, at, b"NOSEAT TAKEN ", *taken);
            put_numbered(room, at, b" OF ", *free)
        }
        Reply::AlreadyHeld => put(room, at, b"ALREADYHELD"),
        Reply::Returned => put(room, at, b"RETURNED"),
        Reply::Lingering(until) => {
            let at = put(room, at, b"LINGERING UNTIL ");
            put_number(room, at, *until)
        }
        Reply::NotHeld => put(room, at, b"NOTHELD"),
        Reply::Beaten => put(room, at, b"BEATEN"),
        Reply::Held => put(room, at, b"HELD"),
        Reply::Counts {
            held,
            lingering,
            taken,
            free,
            own,
            queued,
        } => put_counts(room, at, *held, *lingering, *taken, *free, *own, *queued),
        Reply::Queued(position) => put_numbered(room, at, b"QUEUED ", *position),
        Reply::Unqueued => put(room, at, b"UNQUEUED"),
        Reply::Reread(set) => put_numbered(room, at, b"REREAD ", *set),
    }
}

/// Writes the words of a reply at the start of the room, and gives how many bytes they take, 130 at most. The bytes of
/// the room behind them are left open.
pub fn reply_words(reply: &Reply, room: &mut [u8; 160]) -> usize
    ensures offset { result ≤ 130 }
    ensures written { take result room.new ≡ reply_text reply.now }
{
    put_reply(room, 0, reply)
}
