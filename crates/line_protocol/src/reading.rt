//! What a line asks.
ghost use Rattle.std.specs.Prelude.{◌≡◌, [], ◌∷◌, MatchResult};
ghost use Rattle.std.specs.List.{list_all};
ghost use Rattle.lic_text.specs.Left.{words_left};
ghost use Rattle.lic_text.specs.Number.{number_of};
ghost use Rattle.lic_types.specs.Name.{name_of};
ghost use Rattle.lic_types.specs.Version.{key_of};
ghost use Rattle.line_protocol.specs.Requests.{asked_of, client_of, feature_of, is_request_byte, last_of, name_or_fault, request_of, seat_of, set_of, set_within, verb_of, version_of, wire_of_words};

use crate::wire::{Wire, WireFault};
use lic_text::{Words, number, words_in};
use lic_types::{ClientRef, NameRef, Version, same_bytes};

/// The numbers of rule sets are below this.
const SET_END: u64 = 1 << 32;

/// The first word of a request.
#[derive(Clone, Copy)]
pub(crate) enum Verb {
    /// HELLO.
    Hello,
    /// CHECKOUT.
    Checkout,
    /// QUEUE.
    Queue,
    /// CHECKIN.
    Checkin,
    /// BEAT.
    Beat,
    /// LOOK.
    Look,
    /// STATUS.
    Status,
    /// GLANCE.
    Glance,
    /// REREAD.
    Reread,
    /// QUIT.
    Quit,
    /// SHUTDOWN.
    Shutdown,
}

/// A feature and the least version that is good enough.
#[derive(Drop)]
pub(crate) struct Seat<'a> {
    feature: NameRef<'a>,
    version: Version,
}

/// The next word of a request, which is to have one.
fn next_word<'a>(words: &mut Words<'a>) -> Result<&'a [u8], WireFault>
    ensures { MatchResult result (λ word. words_left words.old ≡ word.now ∷ words_left words.new) (λ fault. (words_left words.old ≡ []) × (fault ≡ WireFault.WordCount)) }
{
    words.next().ok_or(WireFault::WordCount)
}

/// No word is to be left.
fn end_words(words: Words<'_>) -> Result<(), WireFault>
    ensures { result ≡ last_of (words_left words.entry) }
{
    let mut words = words;
    if words.next().is_some() {
        return Err(WireFault::WordCount);
    }
    Ok(())
}

/// The name that a word spells, which stays in the line.
fn read_name(word: &[u8]) -> Result<NameRef<'_>, WireFault>
    ensures { result ≡ name_or_fault (name_of word.now) }
{
    match NameRef::read(word) {
        Ok(name) => Ok(name),
        Err(_) => Err(WireFault::BadName),
    }
}

/// The version that a word spells.
fn read_version(word: &[u8]) -> Result<Version, WireFault>
    ensures { result ≡ version_of (key_of word.now) }
{
    Version::read(word).ok_or(WireFault::BadVersion)
}

/// The client of these four names, which stay in the line.
fn read_client<'a>(
    user: &'a [u8],
    host: &'a [u8],
    display: &'a [u8],
    project: &'a [u8],
) -> Result<ClientRef<'a>, WireFault>
    ensures { result ≡ client_of user.now host.now display.now project.now }
{
    let user = read_name(user)?;
    let host = read_name(host)?;
    let display = read_name(display)?;
    let project = read_name(project)?;
    Ok(ClientRef::of(user, host, display, project))
}

/// The request that a word stands for.
fn read_verb(verb: &[u8]) -> Result<Verb, WireFault>
    ensures { result ≡ verb_of verb.now }
{
    if same_bytes(verb, b"HELLO") {
        Ok(Verb::Hello)
    } else if same_bytes(verb, b"CHECKOUT") {
        Ok(Verb::Checkout)
    } else if same_bytes(verb, b"QUEUE") {
        Ok(Verb::Queue)
    } else if same_bytes(verb, b"CHECKIN") {
        Ok(Verb::Checkin)
    } else if same_bytes(verb, b"BEAT") {
        Ok(Verb::Beat)
    } else if same_bytes(verb, b"LOOK") {
        Ok(Verb::Look)
    } else if same_bytes(verb, b"STATUS") {
        Ok(Verb::Status)
    } else if same_bytes(verb, b"GLANCE") {
        Ok(Verb::Glance)
    } else if same_bytes(verb, b"REREAD") {
        Ok(Verb::Reread)
    } else if same_bytes(verb, b"QUIT") {
        Ok(Verb::Quit)
    } else if same_bytes(verb, b"SHUTDOWN") {
        Ok(Verb::Shutdown)
    } else {
        Err(WireFault::UnknownWord)
    }
}

/// The client that the last words name.
fn read_hello(words: Words<'_>) -> Result<Wire<'_>, WireFault>
    ensures { result ≡ asked_of Verb.Hello (words_left words.entry) }
{
    let mut words = words;
    let user = next_word(&mut words)?;
    let host = next_word(&mut words)?;
    let display = next_word(&mut words)?;
    let project = next_word(&mut words)?;
    end_words(words)?;
    Ok(Wire::Hello(read_client(user, host, display, project)?))
}

/// The feature and the version that are the last words.
fn read_seat(words: Words<'_>) -> Result<Seat<'_>, WireFault>
    ensures { result ≡ seat_of (words_left words.entry) }
{
    let mut words = words;
    let feature = next_word(&mut words)?;
    let version = next_word(&mut words)?;
    end_words(words)?;
    let feature = read_name(feature)?;
    let version = read_version(version)?;
    Ok(Seat { feature, version })
}

/// The feature that is the last word.
fn read_feature(words: Words<'_>) -> Result<NameRef<'_>, WireFault>
    ensures { result ≡ feature_of (words_left words.entry) }
{
    let mut words = words;
    let feature = next_word(&mut words)?;
    end_words(words)?;
    read_name(feature)
}

/// The number of a rule set that a word spells.
fn read_number(word: &[u8]) -> Result<u32, WireFault>
    ensures { result ≡ set_within (number_of word.now) }
{
    match number(word) {
        Some(set) if set < SET_END => Ok(set as u32),
        _ => Err(WireFault::BadNumber),
    }
}

/// The number of a rule set that is the last word.
fn read_set(words: Words<'_>) -> Result<u32, WireFault>
    ensures { result ≡ set_of (words_left words.entry) }
{
    let mut words = words;
    let set = next_word(&mut words)?;
    end_words(words)?;
    read_number(set)
}

/// What is asked by a verb and the words behind it.
fn read_asked(verb: Verb, words: Words<'_>) -> Result<Wire<'_>, WireFault>
    ensures { result ≡ asked_of verb (words_left words.entry) }
{
    match verb {
        Verb::Hello => read_hello(words),
        Verb::Checkout => {
            let seat = read_seat(words)?;
            Ok(Wire::Checkout(seat.feature, seat.version))
        }
        Verb::Queue => {
            let seat = read_seat(words)?;
            Ok(Wire::Queue(seat.feature, seat.version))
        }
        Verb::Checkin => Ok(Wire::Checkin(read_feature(words)?)),
        Verb::Beat => Ok(Wire::Beat(read_feature(words)?)),
        Verb::Look => Ok(Wire::Look(read_feature(words)?)),
        Verb::Status => Ok(Wire::Status(read_feature(words)?)),
        Verb::Glance => Ok(Wire::Glance(read_feature(words)?)),
        Verb::Reread => Ok(Wire::Reread(read_set(words)?)),
        Verb::Quit => {
            end_words(words)?;
            Ok(Wire::Quit)
        }
        Verb::Shutdown => {
            end_words(words)?;
            Ok(Wire::Shutdown)
        }
    }
}

fn is_request_byte(byte: u8) -> bool
    ensures { result ≡ is_request_byte byte }
{
    32 <= byte && byte <= 126
}

fn is_printable(line: &[u8]) -> bool
    ensures { result ≡ list_all is_request_byte line.now }
{
    line.iter().all(|byte| is_request_byte(*byte))
}

/// What words ask.
fn read_words(words: Words<'_>) -> Result<Wire<'_>, WireFault>
    ensures { result ≡ wire_of_words (words_left words.entry) }
{
    let mut words = words;
    let Some(verb) = words.next() else {
        return Err(WireFault::Empty);
    };
    let verb = read_verb(verb)?;
    read_asked(verb, words)
}

/// What a line, without its LF, asks. The words are its longest runs of bytes other than space.
///
/// The first fault of these is told: a byte that isn't from 32 to 126; no word; a first word that is no request;
/// another number of words than the request has; a name that is none; a version that is none; a number that is none, or
/// not below 2^32. The grammar and the order of the faults are this project's own. The names that it gives stay in the
/// line, so that no byte of them is copied.
pub fn read_request(line: &[u8]) -> Result<Wire<'_>, WireFault>
    ensures { result ≡ request_of line.now }
{
    if !is_printable(line) {
        return Err(WireFault::BadByte);
    }
    read_words(words_in(line))
}
