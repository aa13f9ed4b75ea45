//! The lines of a log, written.
ghost use Rattle.std.specs.Prelude.{◌≡◌, ◌+◌, ◌≤◌, ◌++◌, ◌∷◌, decimal, length, take};
ghost use Rattle.audit_log.specs.Entries.{entry_text, kind_text};
ghost use Rattle.audit_log.specs.Summaries.{log_text, tally_text};

use lic_types::{Name, put, put_number};
use options_machine::{Entry, Kind};
use reply_words::put_reply;

/// Writes a space and a name behind it.
fn put_name(room: &mut [u8], at: usize, name: &Name) -> usize
    requires { at + 65 ≤ length room.old }
    ensures room { length room.new ≡ length room.old }
    ensures offset { result ≤ at + 65 }
    ensures written { take result room.new ≡ take at room.old ++ 32 ∷ name.now }
{
    let at = put(room, at, b" ");
    put(room, at, name.bytes())
}

fn put_kind(room: &mut [u8], at: usize, kind: &Kind) -> usize
    requires { at + 8 ≤ length room.old }
    ensures room { length room.new ≡ length room.old }
    ensures offset { result ≤ at + 8 }
    ensures written { take result room.new ≡ take at room.old ++ kind_text kind.now }
{
    match kind {
        Kind::Checkout => put(room, at, b"CHECKOUT"),
        Kind::Checkin => put(room, at, b"CHECKIN"),
        Kind::Beat => put(room, at, b"BEAT"),
        Kind::Look => put(room, at, b"LOOK"),
        Kind::Quit => put(room, at, b"QUIT"),
        Kind::Count => put(room, at, b"COUNT"),
        Kind::Queue => put(room, at, b"QUEUE"),
        Kind::Reread(_) => put(room, at, b"REREAD"),
    }
}

/// Writes the log line of an entry, its LF with it, at the start of the room, and gives how many bytes it takes, 640 at
/// most. The place is the number of entries of the pool before it. The bytes of the room behind the line are left open.
/// `read_entry` tells the form, which is this project's own.
pub fn write_entry(pool: u32, place: u64, entry: &Entry, room: &mut [u8; 640]) -> usize
    ensures offset { result ≤ 640 }
    ensures written { take result room.new ≡ entry_text pool place entry.now }
{
    let client = &entry.request.client;
    let at = put(room, 0, b"ENTRY ");
    let at = put_number(room, at, u64::from(pool));
    let at = put(room, at, b" #");
    let at = put_number(room, at, place);
    let at = put(room, at, b" ");
    let at = put_number(room, at, entry.moment);
    let at = put(room, at, b" ");
    let at = put_number(room, at, u64::from(entry.request.party));
    let at = put_name(room, at, &client.user);
    let at = put_name(room, at, &client.host);
    let at = put_name(room, at, &client.display);
    let at = put_name(room, at, &client.project);
    let at = put(room, at, b" ");
    let at = put_kind(room, at, &entry.request.kind);
    let at = put(room, at, b" ");
    let at = put_reply(room, at, &entry.reply);
    put(room, at, b"\n")
}

/// Writes the line that ends the log of a pool: `LOG pool ENTRIES n WHOLE`, or CUT in place of WHOLE where the pool had
/// more entries than the log keeps. It stands at the start of the room, its LF with it, and takes so many bytes, 640 at
/// most. The form is this project's own.
pub fn write_log(pool: u32, entries: u64, cut: bool, room: &mut [u8; 640]) -> usize
    ensures offset { result ≤ 640 }
    ensures written { take result room.new ≡ log_text pool entries cut }
{
    let at = put(room, 0, b"LOG ");
    let at = put_number(room, at, u64::from(pool));
    let at = put(room, at, b" ENTRIES ");
    let at = put_number(room, at, entries);
    if cut {
        put(room, at, b" CUT\n")
    } else {
        put(room, at, b" WHOLE\n")
    }
}

/// Writes the line of a pool's tally: `TALLY pool CALLS calls GRANTS grants CARD USES uses`. It stands at the start of
/// the room, its LF with it, and takes so many bytes, 640 at most. The form is this project's own.
pub fn write_tally(pool: u32, calls: u64, grants: u64, uses: u64, room: &mut [u8; 640]) -> usize
    ensures offset { result ≤ 640 }
    ensures written { take result room.new ≡ tally_text pool calls grants uses }
{
    let at = put(room, 0, b"TALLY ");
    let at = put_number(room, at, u64::from(pool));
    let at = put(room, at, b" CALLS ");
    let at = put_number(room, at, calls);
    let at = put(room, at, b" GRANTS ");
    let at = put_number(room, at, grants);
    let at = put(room, at, b" CARD USES ");
    let at = put_number(room, at, uses);
    put(room, at, b"\n")
}
