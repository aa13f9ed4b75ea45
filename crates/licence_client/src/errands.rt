//! Which errand a command is.
ghost use Rattle.std.specs.Prelude.{◌≡◌, IfSome, IsSome, IsTrue, ◌↔◌, length, map};
ghost use Rattle.std.specs.Option.{option_copied};
ghost use Rattle.licence_client.specs.Asked.{IsAskedBy, pace_of, seconds_of, takes};

use client_talk::{Errand, Hold, Pace};
use lic_text::number;

/// The seconds between BEATs of a client that has a seat, where none are given.
const HOLDING_SECONDS: u64 = 300;

/// The same of a client that waits for one.
const WAITING_SECONDS: u64 = 10;

/// The most seconds between BEATs: a day.
const SECONDS_LIMIT: u64 = 86_400;

/// The errand of a command and the words behind it, at this pace. `None` comes exactly where there is no such command,
/// or it takes another number of words.
pub fn errand_of<'a>(command: &str, words: &'a [&'a str], pace: Pace) -> Option<Errand<'a>>
    ensures asked { IfSome result (IsAskedBy command.now (map (λ w. w.now) words.entry.now) pace) }
    ensures exactly { IsSome result ↔ IsTrue (takes command.now (length words.entry.now)) }
{
    if command == "ask" {
        match words {
            [request] => Some(Errand::Ask(request)),
            _ => None,
        }
    } else if command == "status" {
        if words.is_empty() {
            None
        } else {
            Some(Errand::Status(words))
        }
    } else if command == "hold" {
        match words {
            [feature, version] => Some(Errand::Hold(Hold {
                feature,
                version,
                pace,
            })),
            _ => None,
        }
    } else if command == "reread" {
        match words {
            [number] => Some(Errand::Reread(number)),
            _ => None,
        }
    } else if command == "shutdown" && words.is_empty() {
        Some(Errand::Shutdown)
    } else {
        None
    }
}

/// The number from 1 to 86,400 that a word is, or `None`.
fn seconds_of(word: &str) -> Option<u64>
    ensures { result ≡ seconds_of word.now }
{
    match number(word.as_bytes()) {
        Some(seconds) if 1 <= seconds && seconds <= SECONDS_LIMIT => Some(seconds),
        _ => None,
    }
}

/// How often a BEAT is asked, by the seconds that are given and by whether a seat is to be waited for: where none are
/// given 300 seconds with a seat and 10 without, and else a number from 1 to 86,400, or `None`.
pub fn pace_of(seconds: Option<&str>, waits: bool) -> Option<Pace>
    ensures { result ≡ pace_of (option_copied seconds.entry) waits }
{
    let (holding, waiting) = match seconds {
        Some(word) => {
            let seconds = seconds_of(word)?;
            (seconds, seconds)
        }
        None => (HOLDING_SECONDS, WAITING_SECONDS),
    };
    let waiting = if waits { Some(waiting) } else { None };
    Some(Pace { holding, waiting })
}
