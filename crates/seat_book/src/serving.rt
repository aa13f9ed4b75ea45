//! Serving the queue, and settling.
ghost use Rattle.std.specs.Prelude.{◌≡◌, ◌+◌, ◌<◌, ◌≤◌, true, length};
ghost use Rattle.policy.specs.Kept.{OffersNext, front_of};
ghost use Rattle.options_machine.specs.Law.{IsServed};
ghost use Rattle.options_machine.specs.Settle.{serve, settle};
ghost use Rattle.seat_book.specs.Beats.{heard_after};
ghost use Rattle.seat_book.specs.Parts.{AreCounted, HasSameRoom, IsServable, state_of};

use crate::deciding::decide;
use crate::lapsing::let_go;
use crate::members::{seat, seat_again};
use crate::parts::Parts;
use options_machine::Decision;
use policy::DeskRules;

/// Offers a seat to the entry at a place of the queue, and gives the place of the next entry.
fn offer(rules: &DeskRules, parts: &mut Parts, at: usize) -> usize
    requires place { at < length parts.old.queue.items }
    requires servable { IsServable rules.now parts.old }
    ensures state { OffersNext rules.now (state_of parts.old) at (state_of parts.new) result }
    ensures servable { IsServable rules.now parts.new }
    ensures room { HasSameRoom parts.old parts.new }
    ensures nearer { result + length parts.old.queue.items ≡ at + 1 + length parts.new.queue.items }
    ensures next { result ≤ at + 1 }
{
    let queuer = parts.queue[at];
    match decide(rules, parts, &queuer.client) {
        Decision::Retake(charge) => {
            let _served = parts.queue.remove(at);
            seat_again(parts, queuer.party, &queuer.client, charge, false);
            at
        }
        Decision::Grant(charge) => {
            let _served = parts.queue.remove(at);
            seat(rules, parts, queuer.party, &queuer.client, charge, false);
            at
        }
        Decision::Barred(_) => at + 1,
        Decision::Capped(_) => at + 1,
        Decision::Full => at + 1,
    }
}

/// Serves the queue.
fn serve(rules: &DeskRules, parts: &mut Parts)
    requires { IsServable rules.now parts.old }
    ensures state { state_of parts.new ≡ serve rules.now (front_of (state_of parts.old) 0) parts.old.queue.items }
    ensures counted { AreCounted rules.now parts.new }
    ensures room { HasSameRoom parts.old parts.new }
{
    let mut at = 0;
    while at < parts.queue.len() {
        at = offer(rules, parts, at);
    }
}

/// Brings the parts to the moment: what is over goes, and then the queue is served, unless that was done since
/// something may have freed a seat.
pub(crate) fn settle(rules: &DeskRules, parts: &mut Parts, moment: u64)
    requires servable { IsServable rules.now parts.old }
    requires unheard { heard_after parts.old.moment parts.old.seats.holders ≡ 0 }
    requires served { parts.old.is_served ≡ true → IsServed rules.now (state_of parts.old) }
    ensures state { state_of parts.new ≡ settle rules.now (state_of parts.old) moment }
    ensures counted { AreCounted rules.now parts.new }
    ensures room { HasSameRoom parts.old parts.new }
{
    let_go(rules, parts, moment);
    if !parts.is_served {
        serve(rules, parts);
        parts.is_served = true;
    }
}
