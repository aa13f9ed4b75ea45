//! Counts that go up or down by lines.
ghost use Rattle.std.specs.Prelude.{◌≡◌, ◌+◌, ◌-◌, ◌<◌, ◌≤◌, ◌^◌, ◌++◌, ◌&&◌, ℕ, All, if◌then◌else◌, length, map, nat_le, nat_lt, vec_capacity};
ghost use Rattle.seat_counters.specs.Counts.{first_line, has_seat, is_charged, is_used_up, speaks_of, with_less, with_more};
ghost use Rattle.options_machine.specs.Rules.{applies};

use lic_types::Client;
use options_machine::Charge;
use policy::{DeskRules, LentLimit, Limits};

/// The count with one more where the test passed.
pub(crate) fn more_if(count: u32, passes: bool) -> u32
    requires { count + 1 < 2 ^ 32 }
    ensures { result ≡ count + (if passes then 1 else 0) }
{
    if passes { count + 1 } else { count }
}

/// The count with one less where the test passed.
pub(crate) fn less_if(count: u32, passes: bool) -> u32
    ensures { result ≡ count - (if passes then 1 else 0) }
{
    count.saturating_sub(u32::from(passes))
}

/// Whether the charge is to this RESERVE line.
fn is_charged(charge: &Charge, limit: &LentLimit<'_>) -> bool
    ensures { result ≡ is_charged charge.now limit.now }
{
    *charge == Charge::Reserve(limit.line.line)
}

/// One more at the RESERVE line of the charge.
pub(crate) fn raise_charged(counts: &mut [u32], limits: &Limits, charge: &Charge)
    requires same { length counts.old ≡ length limits.now }
    requires small { All (λ n. n + 1 < 2 ^ 32) counts.old }
    ensures { counts.new ≡ with_more (is_charged charge.now) limits.now counts.old }
{
    for i in 0..counts.len() {
        counts[i] = more_if(counts[i], is_charged(charge, &limits.at(i)));
    }
}

/// One less at the RESERVE line of the charge.
pub(crate) fn lower_charged(counts: &mut [u32], limits: &Limits, charge: &Charge)
    requires same { length counts.old ≡ length limits.now }
    ensures { counts.new ≡ with_less (is_charged charge.now) limits.now counts.old }
{
    for i in 0..counts.len() {
        counts[i] = less_if(counts[i], is_charged(charge, &limits.at(i)));
    }
}

/// Whether this MAX line speaks of the client.
fn speaks_of(rules: &DeskRules, client: &Client, limit: &LentLimit<'_>) -> bool
    ensures { result ≡ speaks_of rules.now client.now limit.now }
{
    rules.applies(client, limit.line)
}

/// One more at each MAX line that speaks of the client.
pub(crate) fn raise_matched(counts: &mut [u32], rules: &DeskRules, client: &Client)
    requires same { length counts.old ≡ length rules.now.maxes }
    requires small { All (λ n. n + 1 < 2 ^ 32) counts.old }
    ensures { counts.new ≡ with_more (speaks_of rules.now client.now) rules.now.maxes counts.old }
{
    let limits = rules.maxes();
    for i in 0..counts.len() {
        counts[i] = more_if(counts[i], speaks_of(rules, client, &limits.at(i)));
    }
}

/// One less at each MAX line that speaks of the client.
pub(crate) fn lower_matched(counts: &mut [u32], rules: &DeskRules, client: &Client)
    requires same { length counts.old ≡ length rules.now.maxes }
    ensures { counts.new ≡ with_less (speaks_of rules.now client.now) rules.now.maxes counts.old }
{
    let limits = rules.maxes();
    for i in 0..counts.len() {
        counts[i] = less_if(counts[i], speaks_of(rules, client, &limits.at(i)));
    }
}

/// A count of 0 for each line, for which there is room.
pub(crate) fn clear_for(counts: &mut Vec<u32>, limits: &Limits)
    requires { length limits.now ≤ vec_capacity counts.old }
    ensures counts { counts.new.items ≡ map (λ m. 0) limits.now }
    ensures room { vec_capacity counts.new ≡ vec_capacity counts.old }
{
    counts.clear();
    for _i in 0..limits.len() {
        counts.push_reserved(0);
    }
}

/// Whether a MAX line speaks of the client and its count has come to its number. The count is looked at first, since it
/// costs less.
fn is_used_up(rules: &DeskRules, client: &Client, limit: &LentLimit<'_>, count: u32) -> bool
    ensures { result ≡ is_used_up rules.now client.now limit.now count }
{
    limit.number <= count && rules.applies(client, limit.line)
}

/// The number of the first MAX line that speaks of the client and whose count has come to its number.
pub(crate) fn first_used_up(rules: &DeskRules, client: &Client, counts: &[u32]) -> Option<u32>
    requires { length counts.now ≡ length rules.now.maxes }
    ensures { result ≡ first_line (is_used_up rules.now client.now) rules.now.maxes counts.now }
{
    let limits = rules.maxes();
    for i in 0..counts.len() {
        let limit = limits.at(i);
        if is_used_up(rules, client, &limit, counts[i]) {
            return Some(limit.line.line);
        }
    }
    None
}

/// Whether a RESERVE line speaks of the client and its count is below its cut number. The count is looked at first,
/// since it costs less.
fn has_seat(rules: &DeskRules, client: &Client, limit: &LentLimit<'_>, count: u32) -> bool
    ensures { result ≡ has_seat rules.now client.now limit.now count }
{
    count < limit.number && rules.applies(client, limit.line)
}

/// The number of the first RESERVE line that speaks of the client and whose count is below its cut number.
pub(crate) fn first_with_seat(rules: &DeskRules, client: &Client, counts: &[u32]) -> Option<u32>
    requires { length counts.now ≡ length rules.now.reserves }
    ensures { result ≡ first_line (has_seat rules.now client.now) rules.now.reserves counts.now }
{
    let limits = rules.reserves();
    for i in 0..counts.len() {
        let limit = limits.at(i);
        if has_seat(rules, client, &limit, counts[i]) {
            return Some(limit.line.line);
        }
    }
    None
}
