//! What a party has, and how that changes.
ghost use Rattle.std.specs.Prelude.{◌≡◌, ◌+◌, ◌<◌, ◌^◌, false, None, not, filter, find, length, vec_capacity};
ghost use Rattle.std.specs.List.{position};
ghost use Rattle.std.specs.Option.{option_copied};
ghost use Rattle.options_machine.specs.State.{in_use, is_holder, is_queuer};
ghost use Rattle.options_machine.specs.Settle.{with_seat, with_seat_again};
ghost use Rattle.options_machine.specs.Apply.{HasSeat, with_lingerer, without_holder};
ghost use Rattle.options_machine.specs.Step.{entry_left, position_of};
ghost use Rattle.seat_book.specs.Parts.{AreCounted, HasSameRoom, state_of};

use crate::parts::Parts;
use lic_types::{Client, LINGER_LIMIT, MOMENT_END};
use options_machine::{Charge, Holder, Lingerer, Queuer};
use policy::DeskRules;

/// The party's entry in the queue.
pub(crate) fn find_queuer(queue: &[Queuer], party: u32) -> Option<&Queuer>
    ensures { option_copied result ≡ find (is_queuer party) queue.now }
{
    queue.iter().find(|q| q.party == party)
}

/// Where the party's entry stands in the queue, from 0.
fn first_queued(queue: &[Queuer], party: u32) -> Option<usize>
    ensures { result ≡ position (is_queuer party) queue.now }
{
    queue.iter().position(|q| q.party == party)
}

/// The party's position in the queue, from 1.
pub(crate) fn position_of(parts: &Parts, party: u32) -> u32
    requires { length parts.now.queue.items + 1 < 2 ^ 32 }
    ensures { result ≡ position_of (state_of parts.now) party }
{
    let queue = parts.queue.as_slice();
    match first_queued(queue, party) {
        Some(at) => at as u32 + 1,
        None => queue.len() as u32 + 1,
    }
}

/// Takes the party out of the queue.
pub(crate) fn drop_queuer(queue: &mut Vec<Queuer>, party: u32)
    ensures items { queue.new.items ≡ filter (λ q. not (is_queuer party q)) queue.old.items }
    ensures capacity { vec_capacity queue.new ≡ vec_capacity queue.old }
{
    queue.retain(|q| q.party != party);
}

/// The entry as which a holder's seat lingers, where it does.
pub(crate) fn entry_left(rules: &DeskRules, parts: &Parts, holder: &Holder) -> Option<Lingerer>
    requires moment { parts.now.moment < MOMENT_END }
    requires short { rules.now.linger < MOMENT_END }
    ensures { result ≡ entry_left rules.now (state_of parts.now) holder.now }
{
    let linger = rules.linger();
    if linger > 0 && parts.table.len() < LINGER_LIMIT {
        Some(Lingerer {
            client: holder.client,
            charge: holder.charge,
            until: parts.moment + linger,
        })
    } else {
        None
    }
}

/// Takes the party's seat away.
pub(crate) fn release(rules: &DeskRules, parts: &mut Parts, party: u32)
    requires party { party < parts.old.seats.parties }
    requires seated { HasSeat (state_of parts.old) party }
    requires counted { AreCounted rules.now parts.old }
    ensures state { state_of parts.new ≡ without_holder (state_of parts.old) party }
    ensures counted { AreCounted rules.now parts.new }
    ensures served { parts.new.is_served ≡ false }
    ensures room { HasSameRoom parts.old parts.new }
{
    let Some(holder) = parts.seats.get(party) else {
        unreachable!()
    };
    parts.counters.lower(rules, &holder.client, holder.charge);
    parts.seats.take(party);
    parts.is_served = false;
}

/// Takes the party's seat away and lets it linger as this entry.
pub(crate) fn linger(parts: &mut Parts, party: u32, entry: &Lingerer)
    requires party { party < parts.old.seats.parties }
    requires room { length parts.old.table.entries < parts.old.table.room }
    ensures state { state_of parts.new ≡ with_lingerer (state_of parts.old) party entry.now }
    ensures counters { parts.new.counters ≡ parts.old.counters }
    ensures served { parts.new.is_served ≡ false }
    ensures room { HasSameRoom parts.old parts.new }
{
    parts.seats.take(party);
    parts.table.push(entry);
    parts.is_served = false;
}

/// Gives a party that has none a seat with this charge.
fn put_seat(parts: &mut Parts, party: u32, client: &Client, charge: Charge, told: bool)
    requires party { party < parts.old.seats.parties }
    requires none { find (is_holder party) parts.old.seats.holders ≡ None }
    ensures state { state_of parts.new ≡ with_seat (state_of parts.old) party client.now charge told }
    ensures others { parts.new ≡ record parts.old { seats = parts.new.seats } }
    ensures parties { parts.new.seats.parties ≡ parts.old.seats.parties }
{
    parts.seats.put(party, client, charge, parts.moment, told);
}

/// Gives a party that has none a seat with this charge, and counts it.
pub(crate) fn seat(
    rules: &DeskRules,
    parts: &mut Parts,
    party: u32,
    client: &Client,
    charge: Charge,
    told: bool,
)
    requires party { party < parts.old.seats.parties }
    requires none { find (is_holder party) parts.old.seats.holders ≡ None }
    requires few { in_use (state_of parts.old) + 1 < 2 ^ 32 }
    requires counted { AreCounted rules.now parts.old }
    ensures state { state_of parts.new ≡ with_seat (state_of parts.old) party client.now charge told }
    ensures counted { AreCounted rules.now parts.new }
    ensures served { parts.new.is_served ≡ parts.old.is_served }
    ensures room { HasSameRoom parts.old parts.new }
{
    put_seat(parts, party, client, charge, told);
    parts.counters.raise(rules, client, charge);
}

/// Gives a party that has none the first seat that lingers for the client.
pub(crate) fn seat_again(parts: &mut Parts, party: u32, client: &Client, charge: Charge, told: bool)
    requires party { party < parts.old.seats.parties }
    requires none { find (is_holder party) parts.old.seats.holders ≡ None }
    ensures state { state_of parts.new ≡ with_seat_again (state_of parts.old) party client.now charge told }
    ensures counters { parts.new.counters ≡ parts.old.counters }
    ensures served { parts.new.is_served ≡ parts.old.is_served }
    ensures room { HasSameRoom parts.old parts.new }
{
    parts.table.take(client);
    put_seat(parts, party, client, charge, told);
}
