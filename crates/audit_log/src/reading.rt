//! The lines of a log, read.
ghost use Rattle.std.specs.Prelude.{◌≡◌, ◌<◌, IfOk};
ghost use Rattle.lic_text.specs.Left.{worded_line, words_left};
ghost use Rattle.audit_log.specs.Entries.{fields_of, kind_of, kind_with, logged_at, logged_of, place_of};
ghost use Rattle.audit_log.specs.Summaries.{is_summary};

use crate::reply_reading::read_reply;
use lic_text::{Line, Words, number};
use lic_types::{MOMENT_END, PARTY_LIMIT};
use options_machine::{Entry, Kind, Reply, Request};
use script_words::{ScriptFault, ScriptWord, next_word, read_below, read_client};

/// The numbers of pools are below this.
const POOL_END: u64 = 1 << 32;

/// An entry of a log: at which place of which pool it was made.
#[derive(Clone, Copy, Debug, PartialEq, Eq)]
pub struct Logged {
    /// The number of the pool, from 0.
    pub pool: u32,
    /// How many entries of the pool were made before.
    pub place: u64,
    /// The entry.
    pub entry: Entry,
}

/// What the word of a kind says.
#[derive(Clone, Copy)]
pub(crate) enum KindWord {
    /// This kind.
    Named(Kind),
    /// That another rule set was asked for, whose number the reply has.
    Anew,
}

/// What the word of a kind says.
fn read_kind(word: &[u8]) -> Result<KindWord, ScriptWord>
    ensures { result ≡ kind_of word.now }
{
    if word == b"CHECKOUT".as_slice() {
        Ok(KindWord::Named(Kind::Checkout))
    } else if word == b"CHECKIN".as_slice() {
        Ok(KindWord::Named(Kind::Checkin))
    } else if word == b"BEAT".as_slice() {
        Ok(KindWord::Named(Kind::Beat))
    } else if word == b"LOOK".as_slice() {
        Ok(KindWord::Named(Kind::Look))
    } else if word == b"QUIT".as_slice() {
        Ok(KindWord::Named(Kind::Quit))
    } else if word == b"COUNT".as_slice() {
        Ok(KindWord::Named(Kind::Count))
    } else if word == b"QUEUE".as_slice() {
        Ok(KindWord::Named(Kind::Queue))
    } else if word == b"REREAD".as_slice() {
        Ok(KindWord::Anew)
    } else {
        Err(ScriptWord::UnknownWord)
    }
}

/// The kind of an entry: the number of a REREAD is the one of its reply.
fn kind_in(said: KindWord, reply: &Reply) -> Result<Kind, ScriptWord>
    ensures { result ≡ kind_with said reply.now }
{
    match (said, reply) {
        (KindWord::Named(kind), _) => Ok(kind),
        (KindWord::Anew, Reply::Reread(set)) => Ok(Kind::Reread(*set)),
        (KindWord::Anew, _) => Err(ScriptWord::UnknownWord),
    }
}

/// The place that a word is: a number behind a #.
fn read_place(word: &[u8]) -> Result<u64, ScriptWord>
    ensures { result ≡ place_of word.now }
{
    match word.split_first() {
        Some((b'#', digits)) => number(digits).ok_or(ScriptWord::BadNumber),
        _ => Err(ScriptWord::BadNumber),
    }
}

/// The entry that the words behind ENTRY spell.
fn read_fields(words: Words<'_>) -> Result<Logged, ScriptWord>
    ensures read { result ≡ fields_of (words_left words.entry) }
    ensures fit { IfOk result (λ logged. (logged.entry.moment < MOMENT_END) × (logged.entry.request.party < PARTY_LIMIT)) }
{
    let mut words = words;
    let pool = next_word(&mut words)?;
    let place = next_word(&mut words)?;
    let moment = next_word(&mut words)?;
    let party = next_word(&mut words)?;
    let user = next_word(&mut words)?;
    let host = next_word(&mut words)?;
    let display = next_word(&mut words)?;
    let project = next_word(&mut words)?;
    let said = next_word(&mut words)?;
    let head = next_word(&mut words)?;
    let pool = read_below(pool, POOL_END)?;
    let place = read_place(place)?;
    let moment = read_below(moment, MOMENT_END)?;
    let party = read_below(party, PARTY_LIMIT as u64)?;
    let client = read_client(user, host, display, project)?;
    let said = read_kind(said)?;
    let reply = read_reply(head, words)?;
    let kind = kind_in(said, &reply)?;
    Ok(Logged {
        pool: pool as u32,
        place,
        entry: Entry {
            request: Request {
                party: party as u32,
                client,
                kind,
            },
            moment,
            reply,
        },
    })
}

/// The entry that the words of a line spell, or the line's first fault.
fn read_words(words: Words<'_>) -> Result<Logged, ScriptWord>
    ensures read { result ≡ logged_of (words_left words.entry) }
    ensures fit { IfOk result (λ logged. (logged.entry.moment < MOMENT_END) × (logged.entry.request.party < PARTY_LIMIT)) }
{
    let mut words = words;
    match words.next() {
        Some(tag) if tag == b"ENTRY".as_slice() => read_fields(words),
        _ => Err(ScriptWord::UnknownWord),
    }
}

/// Whether a line sums up a log and has no entry: its first word is LOG or TALLY. Who reads a whole log passes such
/// lines over.
pub fn is_summary(line: &Line<'_>) -> bool
    ensures { result ≡ is_summary (worded_line line.now).1 }
{
    match line.words().next() {
        Some(word) => word == b"LOG".as_slice() || word == b"TALLY".as_slice(),
        None => false,
    }
}

/// Reads the line of an entry: `ENTRY pool #place moment party user host display project KIND` and the words of a
/// reply, in just these capitals. The moment is in seconds since 1970-01-01 UTC and below 2^40, and the party is below
/// 256. The numbers of the reply stand as they are printed. The form is this project's own.
///
/// The faults of a line are tried in this order:
///
/// 1. `UnknownWord` where the first word isn't ENTRY.
/// 2. `WordCount` where the line has fewer than 11 words.
/// 3. The words up to KIND from left to right: `BadNumber` for a pool, a place, a moment or a party that is no number
///    or is out of its range, or a place that has no # before it; `BadName` for a user, host, display or project that
///    is no name; `UnknownWord` for a KIND that is none.
/// 4. `UnknownWord` where the words behind KIND aren't exactly those of a reply; of KIND REREAD, where they aren't
///    REREAD and a number.
pub fn read_entry(line: &Line<'_>) -> Result<Logged, ScriptFault>
    ensures read { result ≡ logged_at (worded_line line.now) }
    ensures fit { IfOk result (λ logged. (logged.entry.moment < MOMENT_END) × (logged.entry.request.party < PARTY_LIMIT)) }
{
    match read_words(line.words()) {
        Ok(logged) => Ok(logged),
        Err(fault) => Err(ScriptFault {
            line: line.first(),
            fault,
        }),
    }
}
