//! What is over at a moment.
ghost use Rattle.std.specs.Prelude.{◌≡◌, ◌+◌, ◌<◌, ◌≤◌, true, false, not, ◌&&◌, if◌then◌else◌, filter, length, nat_lt};
ghost use Rattle.options_machine.specs.Settle.{in_time, later_moment, timely};
ghost use Rattle.seat_rows.specs.Seats.{is_heard};
ghost use Rattle.linger_table.specs.Table.{stays_at};
ghost use Rattle.seat_book.specs.Beats.{heard_after};
ghost use Rattle.seat_book.specs.Parts.{AreCounted, HasSameRoom, state_of};

use crate::parts::Parts;
use lic_types::MOMENT_END;
use policy::DeskRules;

/// Takes the seat of a holder that wasn't heard after this moment, if there is one.
fn let_silent_one_go(rules: &DeskRules, parts: &mut Parts, over: u64) -> bool
    requires { AreCounted rules.now parts.old }
    ensures state { state_of parts.new ≡ record (state_of parts.old) { holders = parts.new.seats.holders } }
    ensures same { filter (is_heard over) parts.new.seats.holders ≡ filter (is_heard over) parts.old.seats.holders }
    ensures fewer { length parts.new.seats.holders + (if result then 1 else 0) ≡ length parts.old.seats.holders }
    ensures none { result ≡ false → (parts.new ≡ parts.old) × (filter (is_heard over) parts.new.seats.holders ≡ parts.new.seats.holders) }
    ensures some { result ≡ true → parts.new.is_served ≡ false }
    ensures counted { AreCounted rules.now parts.new }
    ensures room { HasSameRoom parts.old parts.new }
{
    match parts.seats.let_one_go(over) {
        None => false,
        Some(holder) => {
            parts.counters.lower(rules, &holder.client, holder.charge);
            parts.is_served = false;
            true
        }
    }
}

/// Takes the seats of all holders that weren't heard after this moment.
fn let_silent_go(rules: &DeskRules, parts: &mut Parts, over: u64)
    requires { AreCounted rules.now parts.old }
    ensures state { state_of parts.new ≡ record (state_of parts.old) { holders = filter (is_heard over) parts.old.seats.holders } }
    ensures served { parts.new.is_served ≡ true → (parts.old.is_served ≡ true) × (state_of parts.new ≡ state_of parts.old) }
    ensures counted { AreCounted rules.now parts.new }
    ensures room { HasSameRoom parts.old parts.new }
{
    let mut more = true;
    while more {
        more = let_silent_one_go(rules, parts, over);
    }
}

/// Takes the seats of holders that were not heard for the whole timeout. They do not linger.
fn drop_silent(rules: &DeskRules, parts: &mut Parts)
    requires counted { AreCounted rules.now parts.old }
    requires unheard { heard_after parts.old.moment parts.old.seats.holders ≡ 0 }
    ensures state { state_of parts.new ≡ record (state_of parts.old) { holders = in_time rules.now.timeout parts.old.moment parts.old.seats.holders } }
    ensures served { parts.new.is_served ≡ true → (parts.old.is_served ≡ true) × (state_of parts.new ≡ state_of parts.old) }
    ensures counted { AreCounted rules.now parts.new }
    ensures room { HasSameRoom parts.old parts.new }
{
    if let Some(timeout) = rules.timeout() {
        if timeout <= parts.moment {
            let over = parts.moment - timeout;
            let_silent_go(rules, parts, over);
        }
    }
}

/// Lets a lingering seat go whose time is up, if there is one.
fn let_lapsed_one_go(rules: &DeskRules, parts: &mut Parts) -> bool
    requires { AreCounted rules.now parts.old }
    ensures state { state_of parts.new ≡ record (state_of parts.old) { lingering = parts.new.table.entries } }
    ensures same { filter (stays_at parts.old.moment) parts.new.table.entries ≡ filter (stays_at parts.old.moment) parts.old.table.entries }
    ensures fewer { length parts.new.table.entries + (if result then 1 else 0) ≡ length parts.old.table.entries }
    ensures none { result ≡ false → (parts.new ≡ parts.old) × (filter (stays_at parts.old.moment) parts.new.table.entries ≡ parts.new.table.entries) }
    ensures some { result ≡ true → parts.new.is_served ≡ false }
    ensures counted { AreCounted rules.now parts.new }
    ensures room { HasSameRoom parts.old parts.new }
{
    match parts.table.let_one_go(parts.moment) {
        None => false,
        Some(entry) => {
            parts.counters.lower(rules, &entry.client, entry.charge);
            parts.is_served = false;
            true
        }
    }
}

/// Lets all lingering seats go whose time is up.
fn drop_lapsed(rules: &DeskRules, parts: &mut Parts)
    requires { AreCounted rules.now parts.old }
    ensures state { state_of parts.new ≡ record (state_of parts.old) { lingering = filter (stays_at parts.old.moment) parts.old.table.entries } }
    ensures served { parts.new.is_served ≡ true → (parts.old.is_served ≡ true) × (state_of parts.new ≡ state_of parts.old) }
    ensures counted { AreCounted rules.now parts.new }
    ensures room { HasSameRoom parts.old parts.new }
{
    let mut more = true;
    while more {
        more = let_lapsed_one_go(rules, parts);
    }
}

/// Comes to the moment: what is over goes.
pub(crate) fn let_go(rules: &DeskRules, parts: &mut Parts, moment: u64)
    requires counted { AreCounted rules.now parts.old }
    requires unheard { heard_after parts.old.moment parts.old.seats.holders ≡ 0 }
    ensures state { state_of parts.new ≡ timely rules.now (state_of parts.old) moment }
    ensures served { parts.new.is_served ≡ true → (parts.old.is_served ≡ true) × (state_of parts.new ≡ record (state_of parts.old) { now = later_moment parts.old.moment moment }) }
    ensures counted { AreCounted rules.now parts.new }
    ensures room { HasSameRoom parts.old parts.new }
{
    parts.moment = parts.moment.max(moment.min(MOMENT_END - 1));
    drop_silent(rules, parts);
    drop_lapsed(rules, parts);
}
