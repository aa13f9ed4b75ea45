ghost use Rattle.std.specs.Prelude.{◌≡◌, ◌≤◌, ◌++◌, ◌∷◌, [], codes, decimal, length, take};
ghost use Rattle.lic_types.specs.Days.{day_text};
ghost use Rattle.scripts.specs.Answers.{answer_text, reply_line};

use lic_types::{Day, put, put_number};
use options_machine::Reply;
use reply_words::put_reply;

/// Room for one output line, in bytes.
pub(crate) const LINE_ROOM: usize = 256;

/// What a script line is answered.
#[derive(Clone, Copy, Debug, PartialEq, Eq)]
pub(crate) enum Answer {
    /// The reply of the entry that it made at a pool, and the place of that entry there.
    Entry(Reply, u64),
    /// No pool would do for it.
    Unknown,
    /// All pools that would do have expired, the first of them at the end of this day.
    Expired(Day),
    /// It asked for the rule set of this number, and there is one.
    Reread(u32),
    /// It asked for the rule set of this number, and there is none.
    NoRules(u32),
}

/// Writes the output line of a reply, with the place of its entry, into a room, and gives how many bytes it takes.
fn put_reply_line(reply: &Reply, place: u64, room: &mut [u8; LINE_ROOM]) -> usize
    ensures place { result ≤ LINE_ROOM }
    ensures written { take result room.new ≡ reply_line reply.now place }
{
    let at = put_reply(room, 0, reply);
    let at = put(room, at, b" #");
    let at = put_number(room, at, place);
    put(room, at, b"\n")
}

/// Writes the output line of a line whose pools have all expired, the first of them at the end of this day, into a
/// room, and gives how many bytes it takes.
fn put_expired_line(day: &Day, room: &mut [u8; LINE_ROOM]) -> usize
    ensures place { result ≤ LINE_ROOM }
    ensures written { take result room.new ≡ codes "EXPIRED " ++ day_text day.now ++ 10 ∷ [] }
{
    let mut text = [0u8; 16];
    let len = day.put(&mut text);
    let at = put(room, 0, b"EXPIRED ");
    let at = put(room, at, &text[..len]);
    put(room, at, b"\n")
}

/// Writes a line of a word, with its blank, and a number into a room, and gives how many bytes it takes.
fn put_number_line(word: &[u8], number: u32, room: &mut [u8; LINE_ROOM]) -> usize
    requires { length word.now ≤ 16 }
    ensures place { result ≤ LINE_ROOM }
    ensures written { take result room.new ≡ word.now ++ decimal number ++ 10 ∷ [] }
{
    let at = put(room, 0, word);
    let at = put_number(room, at, u64::from(number));
    put(room, at, b"\n")
}

/// Writes the output line of an answer into a room, and gives how many bytes it takes.
pub(crate) fn put_answer(answer: &Answer, room: &mut [u8; LINE_ROOM]) -> usize
    ensures place { result ≤ LINE_ROOM }
    ensures written { take result room.new ≡ answer_text answer.now }
{
    match answer {
        Answer::Entry(reply, place) => put_reply_line(reply, *place, room),
        Answer::Unknown => put(room, 0, b"UNKNOWN\n"),
        Answer::Expired(day) => put_expired_line(day, room),
        Answer::Reread(set) => put_number_line(b"REREAD ", *set, room),
        Answer::NoRules(set) => put_number_line(b"NORULES ", *set, room),
    }
}
