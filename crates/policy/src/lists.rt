//! The lists of the plain book, what the rules say by them, and settling.
ghost use Rattle.std.specs.Prelude.{◌≡◌, ℕ, ◌+◌, ◌<◌, ◌≤◌, count_by, not, filter, find, length, nat_lt, vec_capacity};
ghost use Rattle.std.specs.List.{position, position_or_len};
ghost use Rattle.std.specs.Option.{option_map};
ghost use Rattle.options_machine.specs.Rules.{applies};
ghost use Rattle.policy.specs.Kept.{HasSameRoom, OffersNext, front_of, state_of};
ghost use Rattle.options_machine.specs.State.{charges, in_use, is_holder, is_queuer, place, same_charge};
ghost use Rattle.options_machine.specs.Decide.{decide, has_room, is_left_by, is_reached, lingering_charge, match_count, number_of_limit, reached_max_line, reserve_line_with_room};
ghost use Rattle.options_machine.specs.Settle.{in_time, serve, settle, timely, with_holder, with_offer, with_seat, with_seat_again, without_first};

use crate::limits::LentLimit;
use crate::rules::DeskRules;
use lic_types::{Client, MOMENT_END, RuleLine};
use options_machine::{Charge, Decision, Holder, Lingerer, Queuer};

/// The lists of a book.
#[derive(Drop)]
pub struct Lists {
    pub holders: Vec<Holder>,
    pub lingering: Vec<Lingerer>,
    pub queue: Vec<Queuer>,
    pub moment: u64,
    pub set: u32,
}

/// How many holders have the charge.
pub(crate) fn holders_charged(holders: &[Holder], charge: &Charge) -> usize
    ensures count { result ≡ count_by (λ h. same_charge h.charge charge.now) holders.now }
    ensures few { result ≤ length holders.now }
{
    holders.iter().filter(|h| h.charge == *charge).count()
}

/// How many lingering entries have the charge.
pub(crate) fn lingering_charged(lingering: &[Lingerer], charge: &Charge) -> usize
    ensures count { result ≡ count_by (λ l. same_charge l.charge charge.now) lingering.now }
    ensures few { result ≤ length lingering.now }
{
    lingering.iter().filter(|l| l.charge == *charge).count()
}

/// How many entries have the charge.
pub(crate) fn charges(lists: &Lists, charge: &Charge) -> usize
    ensures count { result ≡ charges (state_of lists.now) charge.now }
    ensures few { result ≤ in_use (state_of lists.now) }
{
    holders_charged(lists.holders.as_slice(), charge)
        + lingering_charged(lists.lingering.as_slice(), charge)
}

/// How many holders have clients that the line speaks of.
fn holders_matched(rules: &DeskRules, holders: &[Holder], line: &RuleLine) -> usize
    ensures count { result ≡ count_by (λ h. applies rules.now.groups h.client line.now) holders.now }
    ensures few { result ≤ length holders.now }
{
    holders
        .iter()
        .filter(|h| rules.applies(&h.client, line))
        .count()
}

/// How many lingering entries have clients that the line speaks of.
fn lingering_matched(rules: &DeskRules, lingering: &[Lingerer], line: &RuleLine) -> usize
    ensures count { result ≡ count_by (λ l. applies rules.now.groups l.client line.now) lingering.now }
    ensures few { result ≤ length lingering.now }
{
    lingering
        .iter()
        .filter(|l| rules.applies(&l.client, line))
        .count()
}

/// How many entries have clients that the line speaks of.
fn matched(rules: &DeskRules, lists: &Lists, line: &RuleLine) -> usize
    ensures { result ≡ match_count rules.now (state_of lists.now) line.now }
{
    holders_matched(rules, lists.holders.as_slice(), line)
        + lingering_matched(rules, lists.lingering.as_slice(), line)
}

/// The charge of the first entry that lingers for the client.
fn retaken(lists: &Lists, client: &Client) -> Option<Charge>
    ensures { result ≡ lingering_charge (state_of lists.now) client.now }
{
    lists
        .lingering
        .iter()
        .find(|l| l.client == *client)
        .map(|l| l.charge)
}

/// Whether a MAX line speaks of the client, and at least its number of seats, held or lingering, are of clients of whom
/// it speaks.
fn is_reached(rules: &DeskRules, lists: &Lists, client: &Client, limit: &LentLimit<'_>) -> bool
    ensures { result ≡ is_reached rules.now (state_of lists.now) client.now limit.now }
{
    rules.applies(client, limit.line) && limit.number as usize <= matched(rules, lists, limit.line)
}

/// The first MAX line that speaks of the client and is reached.
#[tactic(auto, using(crate::proofs::Finds::next_item))]
fn reached(rules: &DeskRules, lists: &Lists, client: &Client) -> Option<u32>
    ensures { result ≡ reached_max_line rules.now (state_of lists.now) client.now }
{
    let limits = rules.maxes();
    for i in 0..limits.len() {
        let limit = limits.at(i);
        if is_reached(rules, lists, client, &limit) {
            return Some(limit.line.line);
        }
    }
    None
}

/// Whether a RESERVE line speaks of the client and has fewer charges than its cut number.
fn has_room(rules: &DeskRules, lists: &Lists, client: &Client, limit: &LentLimit<'_>) -> bool
    ensures { result ≡ has_room rules.now (state_of lists.now) client.now limit.now }
{
    rules.applies(client, limit.line)
        && charges(lists, &Charge::Reserve(limit.line.line)) < limit.number as usize
}

/// The first RESERVE line that speaks of the client and has room.
#[tactic(auto, using(crate::proofs::Finds::next_item))]
fn first_with_room(rules: &DeskRules, lists: &Lists, client: &Client) -> Option<u32>
    ensures { result ≡ option_map number_of_limit (find (has_room rules.now (state_of lists.now) client.now) rules.now.reserves) }
{
    let limits = rules.reserves();
    for i in 0..limits.len() {
        let limit = limits.at(i);
        if has_room(rules, lists, client, &limit) {
            return Some(limit.line.line);
        }
    }
    None
}

/// The first RESERVE line that speaks of the client and has room, while fewer seats are in use than there are.
fn reserved(rules: &DeskRules, lists: &Lists, client: &Client) -> Option<u32>
    ensures { result ≡ reserve_line_with_room rules.now (state_of lists.now) client.now }
{
    if lists.holders.len() + lists.lingering.len() < rules.count() as usize {
        first_with_room(rules, lists, client)
    } else {
        None
    }
}

/// What the rules say to a client that wants a seat.
pub(crate) fn decide(rules: &DeskRules, lists: &Lists, client: &Client) -> Decision
    ensures { result ≡ decide rules.now (state_of lists.now) client.now }
{
    if let Some(line) = rules.excluded(client) {
        return Decision::Barred(line);
    }
    if let Some(line) = rules.not_included(client) {
        return Decision::Barred(line);
    }
    if let Some(charge) = retaken(lists, client) {
        return Decision::Retake(charge);
    }
    if let Some(line) = reached(rules, lists, client) {
        return Decision::Capped(line);
    }
    if let Some(line) = reserved(rules, lists, client) {
        return Decision::Grant(Charge::Reserve(line));
    }
    if charges(lists, &Charge::Open) < rules.free() as usize {
        Decision::Grant(Charge::Open)
    } else {
        Decision::Full
    }
}

/// Takes the seats of holders that were not heard for the whole timeout, in seconds. They do not linger.
fn drop_silent(holders: &mut Vec<Holder>, timeout: Option<u64>, now: u64)
    ensures items { holders.new.items ≡ in_time timeout now holders.old.items }
    ensures capacity { vec_capacity holders.new ≡ vec_capacity holders.old }
{
    if let Some(timeout) = timeout {
        holders.retain(|h| now.saturating_sub(h.beat) < timeout);
    }
}

/// Lets go what lingered until now.
fn drop_lingering(lingering: &mut Vec<Lingerer>, now: u64)
    ensures items { lingering.new.items ≡ filter (λ l. nat_lt now l.until) lingering.old.items }
    ensures capacity { vec_capacity lingering.new ≡ vec_capacity lingering.old }
{
    lingering.retain(|l| now < l.until);
}

/// What is over at the moment goes.
fn let_go(rules: &DeskRules, lists: &mut Lists, moment: u64)
    ensures state { state_of lists.new ≡ timely rules.now (state_of lists.old) moment }
    ensures room { HasSameRoom lists.old lists.new }
{
    let now = lists.moment.max(moment.min(MOMENT_END - 1));
    lists.moment = now;
    drop_silent(&mut lists.holders, rules.timeout(), now);
    drop_lingering(&mut lists.lingering, now);
}

/// Where the first holder stands whose party comes after this one.
fn first_after(holders: &[Holder], party: u32) -> Option<usize>
    ensures { result ≡ position (λ h. nat_lt party h.party) holders.now }
{
    holders.iter().position(|h| party < h.party)
}

/// The place of a party in the order of the holders.
fn place_in_order(holders: &[Holder], party: u32) -> usize
    ensures place { result ≡ position_or_len (λ h. nat_lt party h.party) holders.now }
    ensures within { result ≤ length holders.now }
{
    match first_after(holders, party) {
        Some(at) => at,
        None => holders.len(),
    }
}

/// Puts a holder at its place, for which there is room.
fn put_holder(holders: &mut Vec<Holder>, holder: Holder)
    requires { length holders.old.items < vec_capacity holders.old }
    ensures items { holders.new.items ≡ with_holder holder holders.old.items }
    ensures capacity { vec_capacity holders.new ≡ vec_capacity holders.old }
{
    let at = place_in_order(holders.as_slice(), holder.party);
    match holders.insert(at, holder) {
        Ok(()) => {}
        Err(_) => unreachable!(),
    }
}

/// Where the first entry stands that lingers for the client.
fn first_left_by(lingering: &[Lingerer], client: &Client) -> Option<usize>
    ensures { result ≡ position (is_left_by client.now) lingering.now }
{
    lingering.iter().position(|l| l.client == *client)
}

/// Takes out the first entry that lingers for the client.
fn take_lingering(lingering: &mut Vec<Lingerer>, client: &Client)
    ensures items { lingering.new.items ≡ without_first (is_left_by client.now) lingering.old.items }
    ensures capacity { vec_capacity lingering.new ≡ vec_capacity lingering.old }
{
    if let Some(at) = first_left_by(lingering.as_slice(), client) {
        let _taken = lingering.remove(at);
    }
}

/// Gives the party a seat with this charge.
pub(crate) fn seat(lists: &mut Lists, party: u32, client: &Client, charge: Charge, told: bool)
    requires { length lists.old.holders.items < vec_capacity lists.old.holders }
    ensures state { state_of lists.new ≡ with_seat (state_of lists.old) party client.now charge told }
    ensures room { HasSameRoom lists.old lists.new }
{
    let beat = lists.moment;
    put_holder(
        &mut lists.holders,
        Holder {
            party,
            client: *client,
            charge,
            beat,
            told,
        },
    );
}

/// Gives the party the seat that lingers for the client.
pub(crate) fn seat_again(lists: &mut Lists, party: u32, client: &Client, charge: Charge, told: bool)
    requires { length lists.old.holders.items < vec_capacity lists.old.holders }
    ensures state { state_of lists.new ≡ with_seat_again (state_of lists.old) party client.now charge told }
    ensures room { HasSameRoom lists.old lists.new }
{
    take_lingering(&mut lists.lingering, client);
    seat(lists, party, client, charge, told);
}

/// Offers a seat to the entry at a place of the queue, and gives the place of the next entry.
fn offer(rules: &DeskRules, lists: &mut Lists, at: usize) -> usize
    requires place { at < length lists.old.queue.items }
    requires room { length lists.old.holders.items + length lists.old.queue.items ≤ vec_capacity lists.old.holders }
    ensures state { OffersNext rules.now (state_of lists.old) at (state_of lists.new) result }
    ensures room { HasSameRoom lists.old lists.new }
    ensures within { length lists.new.holders.items + length lists.new.queue.items ≡ length lists.old.holders.items + length lists.old.queue.items }
    ensures nearer { result + length lists.old.queue.items ≡ at + 1 + length lists.new.queue.items }
    ensures next { result ≤ at + 1 }
{
    let queuer = lists.queue[at];
    match decide(rules, lists, &queuer.client) {
        Decision::Retake(charge) => {
            let _served = lists.queue.remove(at);
            seat_again(lists, queuer.party, &queuer.client, charge, false);
            at
        }
        Decision::Grant(charge) => {
            let _served = lists.queue.remove(at);
            seat(lists, queuer.party, &queuer.client, charge, false);
            at
        }
        Decision::Barred(_) => at + 1,
        Decision::Capped(_) => at + 1,
        Decision::Full => at + 1,
    }
}

/// Serves the queue.
fn serve(rules: &DeskRules, lists: &mut Lists)
    requires { length lists.old.holders.items + length lists.old.queue.items ≤ vec_capacity lists.old.holders }
    ensures state { state_of lists.new ≡ serve rules.now (front_of (state_of lists.old) 0) lists.old.queue.items }
    ensures room { HasSameRoom lists.old lists.new }
{
    let mut at = 0;
    while at < lists.queue.len() {
        at = offer(rules, lists, at);
    }
}

/// Brings the lists to the moment: what is over goes, and then the queue is served.
pub(crate) fn settle(rules: &DeskRules, lists: &mut Lists, moment: u64)
    requires { length lists.old.holders.items + length lists.old.queue.items ≤ vec_capacity lists.old.holders }
    ensures state { state_of lists.new ≡ settle rules.now (state_of lists.old) moment }
    ensures room { HasSameRoom lists.old lists.new }
{
    let_go(rules, lists, moment);
    serve(rules, lists);
}
