ghost use Rattle.std.specs.Prelude.{◌≡◌, ◌≤◌, ◌&&◌, IfSome, length, map, string_bytes};
ghost use Rattle.std.specs.List.{list_all};
ghost use Rattle.std.specs.Option.{option_map};
ghost use Rattle.licence_tool.specs.Command.{is_plain_word};
ghost use Rattle.licence_daemon.specs.Serve.{are_serve, serve_in, serve_named, serve_of, sessions_of};

use lic_text::number;
use lic_types::PARTY_LIMIT;
use licence_tool::{Words, is_plain_word};

/// What a `serve` names.
#[derive(Clone, Copy, Debug)]
pub struct ServeNames<'a> {
    /// The name of the licence file.
    pub licence: &'a str,
    /// The name of the options file, whose rules hold at first.
    pub options: &'a str,
    /// The path at which the daemon listens.
    pub socket: &'a str,
    /// How many sessions it serves at once, from 2 to 256.
    pub sessions: u32,
    /// The names of the further options files, three at most, whose rules a client may ask for.
    pub more: &'a [String],
}

/// The most further options files that a command may name.
const MORE_LIMIT: usize = 3;

/// How many sessions there are at once: a number from 2 to 256. `None` comes exactly where the word is none.
fn read_sessions(word: &str) -> Option<u32>
    ensures number { result ≡ sessions_of word.now }
    ensures within { IfSome result (λ sessions. (2 ≤ sessions) × (sessions ≤ PARTY_LIMIT)) }
{
    match number(word.as_bytes()) {
        Some(sessions) if 2 <= sessions && sessions <= PARTY_LIMIT as u64 => Some(sessions as u32),
        _ => None,
    }
}

/// Whether each of the words may name a file.
fn are_plain(words: &[String]) -> bool
    ensures { result ≡ list_all (λ word. is_plain_word (string_bytes word)) words.now }
{
    words.iter().all(|word| is_plain_word(word.as_str()))
}

/// Whether the words of the licence, the options file and the socket may name files.
fn are_names(licence: &str, options: &str, socket: &str) -> bool
    ensures { result ≡ (is_plain_word licence.now && is_plain_word options.now && is_plain_word socket.now) }
{
    is_plain_word(licence) && is_plain_word(options) && is_plain_word(socket)
}

/// Whether these are the words of a `serve`, but for its number of sessions.
fn is_serve(verb: &str, licence: &str, options: &str, socket: &str, more: &[String]) -> bool
    ensures { result ≡ are_serve verb.now licence.now options.now socket.now (map string_bytes more.now) }
{
    if verb != "serve" {
        return false;
    }
    if !are_names(licence, options, socket) {
        return false;
    }
    if !are_plain(more) {
        return false;
    }
    more.len() <= MORE_LIMIT
}

/// The `serve` that the words are, without the program's name. `None` comes exactly where they aren't `serve`, three
/// words that may name files, a number of sessions, and three further words at most that may name files.
pub fn read_serve(words: &[String]) -> Option<ServeNames<'_>>
    ensures serve { option_map serve_named result ≡ serve_of (map string_bytes words.now) }
    ensures few { IfSome result (λ names. length names.more.now ≤ 3) }
    ensures within { IfSome result (λ names. (2 ≤ names.sessions) × (names.sessions ≤ PARTY_LIMIT)) }
{
    let [verb, licence, options, socket, sessions, more @ ..] = words else {
        return None;
    };
    let verb = verb.as_str();
    let licence = licence.as_str();
    let options = options.as_str();
    let socket = socket.as_str();
    if !is_serve(verb, licence, options, socket, more) {
        return None;
    }
    let sessions = read_sessions(sessions.as_str())?;
    Some(ServeNames {
        licence,
        options,
        socket,
        sessions,
        more,
    })
}

/// The `serve` that the words of a command line are.
pub fn serve_words(words: &Words) -> Option<ServeNames<'_>>
    ensures serve { option_map serve_named result ≡ serve_in words.now }
    ensures few { IfSome result (λ names. length names.more.now ≤ 3) }
    ensures within { IfSome result (λ names. (2 ≤ names.sessions) × (names.sessions ≤ PARTY_LIMIT)) }
{
    match words {
        Words::Text(words) => read_serve(words.as_slice()),
        Words::NotText | Words::NoMemory => None,
    }
}
