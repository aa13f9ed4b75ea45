//! The events, each made from its number.
ghost use Rattle.std.specs.Prelude.{◌≡◌, ◌∷◌, ◌<◌, [], IfOk, decimal, true};
ghost use Rattle.lic_types.specs.Name.{is_name_byte};
ghost use Rattle.trial_replay.specs.Events.{client_of, kind_numbered, mixed_number, moment_of, request_of};
ghost use Rattle.trial_replay.specs.Requests.{request_numbered, requests_below};

use lic_types::{Client, Name, put, put_number};
use no_memory::NoMemory;
use options_machine::{Kind, Request};
use std::alloc::Global;

/// How many parties there are.
pub(crate) const PARTIES: u32 = 16;

/// How many kinds of requests each party makes.
const KINDS: u32 = 4;

/// By what the number of an event is multiplied, modulo 2^32.
const MULTIPLIER: u64 = 2_654_435_761;

/// Room for a letter and a number behind it, in bytes.
const NAME_ROOM: usize = 24;

/// The name of a letter and a number behind it.
fn numbered(letter: u8, number: u32) -> Name
    requires { is_name_byte letter ≡ true }
    ensures { result ≡ letter ∷ decimal number }
{
    let mut room = [0; NAME_ROOM];
    let at = put(&mut room, 0, &[letter]);
    let at = put_number(&mut room, at, u64::from(number));
    Name::read(&room[..at]).unwrap()
}

/// The name of a letter.
fn lettered(letter: u8) -> Name
    requires { is_name_byte letter ≡ true }
    ensures { result ≡ letter ∷ [] }
{
    Name::read(&[letter]).unwrap()
}

/// The client of a party: two parties are of one user, and each has a host of its own.
fn client_of(party: u32) -> Client
    ensures { result ≡ client_of party }
{
    Client {
        user: numbered(b'u', party % 8),
        host: numbered(b'h', party),
        display: lettered(b'd'),
        project: lettered(b'p'),
    }
}

/// The number of an event, mixed: the highest four bits give its party, and the two lowest of the next four what it
/// asks.
fn mixed(event: u32) -> u32
    ensures { result ≡ mixed_number event }
{
    (u64::from(event) * MULTIPLIER % (1 << 32)) as u32
}

/// The kind of this number.
fn kind_numbered(number: u32) -> Kind
    ensures { result ≡ kind_numbered number }
{
    match number {
        0 => Kind::Checkout,
        1 => Kind::Checkin,
        2 => Kind::Beat,
        _ => Kind::Look,
    }
}

/// The request of this number: each party makes one of each kind.
fn request_numbered(number: u32) -> Request
    ensures { result ≡ request_numbered number }
{
    let party = number / KINDS;
    Request {
        party,
        client: client_of(party),
        kind: kind_numbered(number % KINDS),
    }
}

/// The requests of all parties, in their order. The one error is want of memory.
pub(crate) fn all_requests(alloc: Global) -> Result<Vec<Request>, NoMemory>
    ensures { IfOk result (λ requests. requests.items ≡ requests_below 64) }
{
    let mut requests = Vec::new(alloc);
    for number in 0..PARTIES * KINDS {
        requests.push(request_numbered(number))?;
    }
    Ok(requests)
}

/// The request of an event, among those of all parties.
pub(crate) fn request_of(requests: &[Request], event: u32) -> &Request
    requires { requests.now ≡ requests_below 64 }
    ensures { result.now ≡ request_of event }
{
    let mixed = mixed(event);
    let number = (mixed >> 28) * KINDS + (mixed >> 24) % KINDS;
    &requests[number as usize]
}

/// The moment of an event, in seconds since 1970-01-01 UTC.
pub(crate) fn moment_of(event: u32) -> u64
    ensures { result ≡ moment_of event }
{
    10 * u64::from(event)
}
