//! What the rules say by the counters.
ghost use Rattle.std.specs.Prelude.{◌≡◌};
ghost use Rattle.options_machine.specs.Decide.{decide, lingering_charge, reached_max_line, reserve_line_with_room};
ghost use Rattle.seat_book.specs.Parts.{AreCounted, state_of};

use crate::parts::Parts;
use lic_types::Client;
use options_machine::{Charge, Decision};
use policy::DeskRules;

/// The charge of the first entry that lingers for the client.
fn retaken(parts: &Parts, client: &Client) -> Option<Charge>
    ensures { result ≡ lingering_charge (state_of parts.now) client.now }
{
    parts.table.first(client).map(|l| l.charge)
}

/// The first MAX line that speaks of the client and is reached.
fn reached(rules: &DeskRules, parts: &Parts, client: &Client) -> Option<u32>
    requires { AreCounted rules.now parts.now }
    ensures { result ≡ reached_max_line rules.now (state_of parts.now) client.now }
{
    parts.counters.reached(rules, client)
}

/// The first RESERVE line that speaks of the client and has room, while fewer seats are in use than there are.
fn reserved(rules: &DeskRules, parts: &Parts, client: &Client) -> Option<u32>
    requires { AreCounted rules.now parts.now }
    ensures { result ≡ reserve_line_with_room rules.now (state_of parts.now) client.now }
{
    if u64::from(parts.seats.len()) + u64::from(parts.table.len()) < u64::from(rules.count()) {
        parts.counters.reserved(rules, client)
    } else {
        None
    }
}

/// What the rules say to a client that wants a seat.
pub(crate) fn decide(rules: &DeskRules, parts: &Parts, client: &Client) -> Decision
    requires { AreCounted rules.now parts.now }
    ensures { result ≡ decide rules.now (state_of parts.now) client.now }
{
    if let Some(line) = rules.excluded(client) {
        return Decision::Barred(line);
    }
    if let Some(line) = rules.not_included(client) {
        return Decision::Barred(line);
    }
    if let Some(charge) = retaken(parts, client) {
        return Decision::Retake(charge);
    }
    if let Some(line) = reached(rules, parts, client) {
        return Decision::Capped(line);
    }
    if let Some(line) = reserved(rules, parts, client) {
        return Decision::Grant(Charge::Reserve(line));
    }
    if parts.counters.taken() < rules.free() {
        Decision::Grant(Charge::Open)
    } else {
        Decision::Full
    }
}
