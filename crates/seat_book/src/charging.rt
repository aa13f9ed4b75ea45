//! All charges given anew.
ghost use Rattle.std.specs.Prelude.{◌≡◌, ◌≤◌, ◌<◌, ◌^◌, [], length, map};
ghost use Rattle.lic_types.specs.declared.limits.TheConstants.{PARTY_LIMIT};
ghost use Rattle.options_machine.specs.State.{in_use};
ghost use Rattle.options_machine.specs.Step.{holders_anew, lingering_anew, reserve_or_open, with_charges_anew};
ghost use Rattle.seat_counters.specs.Counts.{AreOf, HasRoomFor, first_line, has_seat, no_counts};
ghost use Rattle.seat_book.specs.Charges.{counts_in};
ghost use Rattle.seat_book.specs.Parts.{AreCounted, HasSameRoom, state_of};

use crate::parts::Parts;
use lic_types::Client;
use options_machine::Charge;
use policy::DeskRules;
use seat_counters::Counters;

/// The charge that comes next, where these seats were charged before.
fn next_charge(rules: &DeskRules, counters: &Counters, client: &Client) -> Charge
    requires { AreOf rules.now counters.now.counts }
    ensures { result ≡ reserve_or_open (first_line (has_seat rules.now client.now) rules.now.reserves counters.now.counts.reserves) }
{
    match counters.reserved(rules, client) {
        Some(line) => Charge::Reserve(line),
        None => Charge::Open,
    }
}

/// Charges the holders anew, in order of party, and counts them.
fn charge_holders(rules: &DeskRules, parts: &mut Parts)
    requires none { parts.old.counters.counts ≡ no_counts rules.now }
    requires few { length parts.old.seats.holders ≤ PARTY_LIMIT }
    ensures state { state_of parts.new ≡ record (state_of parts.old) { holders = holders_anew rules.now [] parts.old.seats.holders } }
    ensures counted { parts.new.counters.counts ≡ counts_in rules.now parts.new.seats.holders [] }
    ensures room { HasSameRoom parts.old parts.new }
{
    for party in 0..parts.seats.parties() {
        match parts.seats.get(party).copied() {
            None => {}
            Some(holder) => {
                let charge = next_charge(rules, &parts.counters, &holder.client);
                parts.seats.set_charge(party, charge);
                parts.counters.raise(rules, &holder.client, charge);
            }
        }
    }
}

/// Charges what lingers anew, after the holders, and counts it.
fn charge_lingering(rules: &DeskRules, parts: &mut Parts)
    requires holders { parts.old.counters.counts ≡ counts_in rules.now parts.old.seats.holders [] }
    requires few { in_use (state_of parts.old) < 2 ^ 32 }
    ensures state { state_of parts.new ≡ record (state_of parts.old) { lingering = lingering_anew rules.now (map (λ h. h.charge) parts.old.seats.holders) parts.old.table.entries } }
    ensures counted { AreCounted rules.now parts.new }
    ensures room { HasSameRoom parts.old parts.new }
{
    parts.table.compact();
    for at in 0..parts.table.len() {
        let Some(entry) = parts.table.get(at) else {
            unreachable!()
        };
        let charge = next_charge(rules, &parts.counters, &entry.client);
        parts.table.set_charge(at, charge);
        parts.counters.raise(rules, &entry.client, charge);
    }
}

/// Gives all charges anew, by rules for whose lines there is room, and counts anew by them.
pub(crate) fn charge_anew(rules: &DeskRules, parts: &mut Parts)
    requires room { HasRoomFor rules.now parts.old.counters }
    requires holders { length parts.old.seats.holders ≤ PARTY_LIMIT }
    requires few { in_use (state_of parts.old) < 2 ^ 32 }
    ensures state { state_of parts.new ≡ with_charges_anew rules.now (state_of parts.old) }
    ensures counted { AreCounted rules.now parts.new }
    ensures room { HasSameRoom parts.old parts.new }
{
    parts.counters.clear(rules);
    charge_holders(rules, parts);
    charge_lingering(rules, parts);
}
