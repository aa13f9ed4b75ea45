//! What a party has in the lists, and how that changes.
ghost use Rattle.std.specs.Prelude.{◌≡◌, ◌+◌, ◌<◌, ◌^◌, not, filter, find, length, map, vec_capacity};
ghost use Rattle.std.specs.List.{position};
ghost use Rattle.std.specs.Option.{option_copied};
ghost use Rattle.lic_types.specs.declared.limits.TheConstants.{MOMENT_END};
ghost use Rattle.policy.specs.Kept.{HasSameRoom, state_of};
ghost use Rattle.options_machine.specs.State.{is_holder, is_queuer};
ghost use Rattle.options_machine.specs.Apply.{told_if, with_lingerer, with_told};
ghost use Rattle.options_machine.specs.Step.{entry_left, position_of};

use crate::lists::Lists;
use crate::rules::DeskRules;
use lic_types::LINGER_LIMIT;
use options_machine::{Holder, Lingerer, Queuer};

/// The party's entry among the holders.
pub(crate) fn find_holder(holders: &[Holder], party: u32) -> Option<&Holder>
    ensures { option_copied result ≡ find (is_holder party) holders.now }
{
    holders.iter().find(|h| h.party == party)
}

/// The party's entry in the queue.
pub(crate) fn find_queuer(queue: &[Queuer], party: u32) -> Option<&Queuer>
    ensures { option_copied result ≡ find (is_queuer party) queue.now }
{
    queue.iter().find(|q| q.party == party)
}

/// Tells the holder, now, if it is the party.
fn tell_one(h: &mut Holder, party: u32, now: u64)
    ensures { h.new ≡ told_if (is_holder party h.old) now h.old }
{
    if h.party == party {
        h.told = true;
        h.beat = now;
    }
}

/// Tells the party among these holders, now.
fn tell_in(holders: &mut [Holder], party: u32, now: u64)
    ensures { holders.new ≡ map (λ h. told_if (is_holder party h) now h) holders.old }
{
    for h in holders.iter_mut() {
        tell_one(h, party, now);
    }
}

/// Tells the party, now.
pub(crate) fn tell(lists: &mut Lists, party: u32)
    ensures state { state_of lists.new ≡ with_told (state_of lists.old) party }
    ensures room { HasSameRoom lists.old lists.new }
{
    let now = lists.moment;
    tell_in(lists.holders.as_mut_slice(), party, now);
}

/// Takes the party out of the holders.
pub(crate) fn drop_holder(holders: &mut Vec<Holder>, party: u32)
    ensures items { holders.new.items ≡ filter (λ h. not (is_holder party h)) holders.old.items }
    ensures capacity { vec_capacity holders.new ≡ vec_capacity holders.old }
{
    holders.retain(|h| h.party != party);
}

/// Takes the party out of the queue.
pub(crate) fn drop_queuer(queue: &mut Vec<Queuer>, party: u32)
    ensures items { queue.new.items ≡ filter (λ q. not (is_queuer party q)) queue.old.items }
    ensures capacity { vec_capacity queue.new ≡ vec_capacity queue.old }
{
    queue.retain(|q| q.party != party);
}

/// Where the party's entry stands in the queue, from 0.
fn first_queued(queue: &[Queuer], party: u32) -> Option<usize>
    ensures { result ≡ position (is_queuer party) queue.now }
{
    queue.iter().position(|q| q.party == party)
}

/// The party's position in the queue, from 1.
pub(crate) fn position_of(lists: &Lists, party: u32) -> u32
    requires { length lists.now.queue.items + 1 < 2 ^ 32 }
    ensures { result ≡ position_of (state_of lists.now) party }
{
    let queue = lists.queue.as_slice();
    match first_queued(queue, party) {
        Some(at) => at as u32 + 1,
        None => queue.len() as u32 + 1,
    }
}

/// The entry as which a holder's seat lingers, where it does.
pub(crate) fn entry_left(rules: &DeskRules, lists: &Lists, holder: &Holder) -> Option<Lingerer>
    requires moment { lists.now.moment < MOMENT_END }
    requires short { rules.now.linger < MOMENT_END }
    ensures { result ≡ entry_left rules.now (state_of lists.now) holder.now }
{
    let linger = rules.linger();
    if linger > 0 && lists.lingering.len() < LINGER_LIMIT as usize {
        Some(Lingerer {
            client: holder.client,
            charge: holder.charge,
            until: lists.moment + linger,
        })
    } else {
        None
    }
}

/// Takes the party's seat away and lets it linger as this entry.
pub(crate) fn linger(lists: &mut Lists, party: u32, entry: &Lingerer)
    requires { length lists.old.lingering.items < vec_capacity lists.old.lingering }
    ensures state { state_of lists.new ≡ with_lingerer (state_of lists.old) party entry.now }
    ensures room { HasSameRoom lists.old lists.new }
{
    drop_holder(&mut lists.holders, party);
    lists.lingering.push_reserved(*entry);
}
