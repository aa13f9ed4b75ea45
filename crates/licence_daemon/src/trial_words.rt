ghost use Rattle.std.specs.Prelude.{◌≡◌, IfSome, map, string_bytes};
ghost use Rattle.licence_daemon.specs.Trial.{IsWithinTrial, trial_in, trial_of};

use lic_types::{LICENCE_LIMIT, PARTY_LIMIT};
use licence_tool::{Words, number_within};

/// What a `trial-threads` asks for.
#[derive(Clone, Copy, Debug, PartialEq, Eq)]
pub struct TrialNumbers {
    /// How many clients there are, 2 to 256.
    pub clients: u32,
    /// How many seats the one feature has, 1 to 65,535.
    pub seats: u32,
    /// How often each client takes one and gives it back, 1 to 10,000.
    pub rounds: u32,
}

/// The `trial-threads` that the words are, without the program's name. `None` comes exactly where they aren't
/// `trial-threads`, a number from 2 to 256, one from 1 to 65,535, and one from 1 to 10,000.
pub fn read_trial(words: &[String]) -> Option<TrialNumbers>
    ensures trial { result ≡ trial_of (map string_bytes words.now) }
    ensures within { IfSome result IsWithinTrial }
{
    let [verb, clients, seats, rounds] = words else {
        return None;
    };
    if verb.as_str() != "trial-threads" {
        return None;
    }
    let clients = number_within(clients.as_str(), 2, PARTY_LIMIT as u64)?;
    let seats = number_within(seats.as_str(), 1, LICENCE_LIMIT as u64)?;
    let rounds = number_within(rounds.as_str(), 1, 10_000)?;
    Some(TrialNumbers {
        clients,
        seats,
        rounds,
    })
}

/// The `trial-threads` that the words of a command line are.
pub fn trial_words(words: &Words) -> Option<TrialNumbers>
    ensures trial { result ≡ trial_in words.now }
    ensures within { IfSome result IsWithinTrial }
{
    match words {
        Words::Text(words) => read_trial(words.as_slice()),
        Words::NotText | Words::NoMemory => None,
    }
}
