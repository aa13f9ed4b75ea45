//! The answers of the options machine, written once over the rows of a book.
ghost use Rattle.std.specs.Prelude.{◌≡◌, ◌<◌, Option, Some, find};
ghost use Rattle.std.specs.Option.{option_map};
ghost use Rattle.lic_types.specs.declared.client.Client.{Client};
ghost use Rattle.options_machine.specs.declared.rows.Holder.{Holder};
ghost use Rattle.policy.specs.Books.{Book, rules_now};
ghost use Rattle.policy.specs.Changes.{effect_of, entry_until, lingers_until, with_effect};
ghost use Rattle.options_machine.specs.Run.{AsksForSet};
ghost use Rattle.options_machine.specs.State.{is_holder, place};
ghost use Rattle.options_machine.specs.Decide.{decide};
ghost use Rattle.options_machine.specs.Apply.{Fits, apply};
ghost use Rattle.counter.specs.Glances.{numbers_of};
ghost use Rattle.options_machine.specs.Step.{answer_by_decision, answer_of, answer_of_return, answer_without_seat, counts, entry_left, standing_of, step, to_away, to_told, to_untold, to_waiting};

use crate::change::Change;
use crate::rows::Rows;
use counter::Glance;
use lic_types::Client;
use options_machine::{Ask, Decision, Holder, Lingerer, Reply, Request, Task};

/// The numbers of a book.
fn counts<B: Rows>(book: &B, own: bool, queued: bool) -> Reply
    ensures { result ≡ counts (rules_now (B.seen book.now)) (B.seen book.now).state own queued }
{
    Reply::Counts {
        held: book.held(),
        lingering: book.lingering(),
        taken: book.taken(),
        free: book.free(),
        own,
        queued,
    }
}

/// A told holder gives its seat back, which lingers until this moment or not at all.
fn answer_of_return(until: Option<u64>) -> (Reply, Change)
    ensures { (h : Holder) → with_effect (Some h) result ≡ answer_of_return (option_map (entry_until h) until) }
{
    match until {
        Some(until) => (Reply::Lingering(until), Change::Linger(until)),
        None => (Reply::Returned, Change::Release),
    }
}

/// To a told holder.
fn to_told<B: Rows>(book: &B, holder: &Holder, ask: Ask) -> (Reply, Change)
    ensures { with_effect (Some holder.now) result ≡ to_told (rules_now (B.seen book.now)) (B.seen book.now).state holder.now ask }
{
    match ask {
        Ask::Seat(_) => (Reply::AlreadyHeld, Change::Nothing),
        Ask::GiveBack => answer_of_return(book.entry_left(holder).map(|l| l.until)),
        Ask::Beat => (Reply::Beaten, Change::Tell),
        Ask::Look => (Reply::Held, Change::Nothing),
        Ask::Count => (counts(book, true, false), Change::Nothing),
    }
}

/// To a holder that isn't told.
fn to_untold<B: Rows>(book: &B, holder: &Holder, ask: Ask) -> (Reply, Change)
    ensures { (seat : Option Holder) → with_effect seat result ≡ to_untold (rules_now (B.seen book.now)) (B.seen book.now).state holder.now ask }
{
    match ask {
        Ask::Seat(_) | Ask::Beat | Ask::Look => (Reply::Granted(holder.charge), Change::Tell),
        Ask::GiveBack => (Reply::Returned, Change::Release),
        Ask::Count => (counts(book, false, true), Change::Nothing),
    }
}

/// How a party that waits stands: the rules bar the client for whom it waits, or it is told its position.
fn standing_of<B: Rows>(book: &B, party: u32, decision: Decision) -> (Reply, Change)
    ensures { (seat : Option Holder) → with_effect seat result ≡ standing_of (B.seen book.now).state party decision }
{
    match decision {
        Decision::Barred(line) => (Reply::Denied(line), Change::Unqueue),
        _ => (Reply::Queued(book.position(party)), Change::Nothing),
    }
}

/// To a party that waits for this client.
fn to_waiting<B: Rows>(book: &B, party: u32, client: &Client, ask: Ask) -> (Reply, Change)
    ensures { (seat : Option Holder) → with_effect seat result ≡ to_waiting (rules_now (B.seen book.now)) (B.seen book.now).state party client.now ask }
{
    match ask {
        Ask::Seat(_) | Ask::Beat | Ask::Look => standing_of(book, party, book.decide(client)),
        Ask::GiveBack => (Reply::Unqueued, Change::Unqueue),
        Ask::Count => (counts(book, false, true), Change::Nothing),
    }
}

/// Where there is no seat: a place at the end of the queue, or that there is none.
fn answer_without_seat<B: Rows>(book: &B, may_wait: bool) -> (Reply, Change)
    ensures { (seat : Option Holder) → with_effect seat result ≡ answer_without_seat (rules_now (B.seen book.now)) (B.seen book.now).state may_wait }
{
    if may_wait {
        (Reply::Queued(book.queued() + 1), Change::Join)
    } else {
        (Reply::NoSeat(book.taken(), book.free()), Change::Nothing)
    }
}

/// To a party that has nothing and asks for a seat, by what the rules say to its client.
fn answer_by_decision<B: Rows>(book: &B, may_wait: bool, decision: Decision) -> (Reply, Change)
    ensures { (seat : Option Holder) → with_effect seat result ≡ answer_by_decision (rules_now (B.seen book.now)) (B.seen book.now).state may_wait decision }
{
    match decision {
        Decision::Barred(line) => (Reply::Denied(line), Change::Nothing),
        Decision::Retake(charge) => (Reply::Retaken(charge), Change::Reseat(charge)),
        Decision::Capped(line) => (Reply::Denied(line), Change::Nothing),
        Decision::Grant(charge) => (Reply::Granted(charge), Change::Seat(charge)),
        Decision::Full => answer_without_seat(book, may_wait),
    }
}

/// To a party that has nothing.
fn to_away<B: Rows>(book: &B, client: &Client, ask: Ask) -> (Reply, Change)
    ensures { (seat : Option Holder) → with_effect seat result ≡ to_away (rules_now (B.seen book.now)) (B.seen book.now).state client.now ask }
{
    match ask {
        Ask::Seat(may_wait) => answer_by_decision(book, may_wait, book.decide(client)),
        Ask::GiveBack | Ask::Beat | Ask::Look => (Reply::NotHeld, Change::Nothing),
        Ask::Count => (counts(book, false, false), Change::Nothing),
    }
}

/// What is answered to a party, and what that changes, by what the party has.
fn answer_of<B: Rows>(book: &B, party: u32, client: &Client, ask: Ask) -> (Reply, Change)
    requires { party < (B.seen book.now).parties }
    ensures { with_effect (find (is_holder party) (B.seen book.now).state.holders) result ≡ answer_of (rules_now (B.seen book.now)) (B.seen book.now).state party client.now ask (place (B.seen book.now).state party) }
{
    match book.holder_of(party) {
        Some(holder) => {
            if holder.told {
                to_told(book, holder, ask)
            } else {
                to_untold(book, holder, ask)
            }
        }
        None => match book.queuer_of(party) {
            Some(queuer) => to_waiting(book, party, &queuer.client, ask),
            None => to_away(book, client, ask),
        },
    }
}

/// Lets the party's seat linger until a moment, if it has one.
fn linger<B: Rows>(book: &mut B, party: u32, until: u64)
    requires party { party < (B.seen book.old).parties }
    requires fits { (client : Client) → Fits (rules_now (B.seen book.old)) (B.seen book.old).state party client (lingers_until (find (is_holder party) (B.seen book.old).state.holders) until) }
    ensures { (client : Client) → B.seen book.new ≡ record (B.seen book.old) { state = apply (B.seen book.old).state party client (lingers_until (find (is_holder party) (B.seen book.old).state.holders) until) } }
{
    if let Some(holder) = book.holder_of(party) {
        let entry = Lingerer {
            client: holder.client,
            charge: holder.charge,
            until,
        };
        book.linger(party, &entry);
    }
}

/// Changes what an answer changes.
fn apply<B: Rows>(book: &mut B, party: u32, client: &Client, change: Change)
    requires party { party < (B.seen book.old).parties }
    requires fits { Fits (rules_now (B.seen book.old)) (B.seen book.old).state party client.now (effect_of (find (is_holder party) (B.seen book.old).state.holders) change) }
    ensures { B.seen book.new ≡ record (B.seen book.old) { state = apply (B.seen book.old).state party client.now (effect_of (find (is_holder party) (B.seen book.old).state.holders) change) } }
{
    match change {
        Change::Nothing => {}
        Change::Tell => book.tell(party),
        Change::Release => book.release(party),
        Change::Linger(until) => linger(book, party, until),
        Change::Unqueue => book.unqueue(party),
        Change::Seat(charge) => book.seat(party, client, charge),
        Change::Reseat(charge) => book.reseat(party, client, charge),
        Change::Join => book.join(party, client),
    }
}

/// One step of the machine on the rows of a book, at a moment, in seconds since 1970-01-01 UTC: what is over goes, the
/// queue is served, and the request is answered. The number is the moment that the step used.
pub fn step<B: Rows>(book: &mut B, request: &Request, moment: u64) -> (Reply, u64)
    requires party { request.now.party < (B.seen book.old).parties }
    requires fits { AsksForSet (B.seen book.old).sets request.now }
    ensures step { (result.0, (B.seen book.new).state) ≡ step (B.seen book.old).sets (B.seen book.old).state request.now moment }
    ensures moment { result.1 ≡ (B.seen book.new).state.now }
    ensures same { ((B.seen book.new).sets ≡ (B.seen book.old).sets) × ((B.seen book.new).parties ≡ (B.seen book.old).parties) }
{
    book.settle(moment);
    let reply = match request.kind.task() {
        Task::Reread(set) => {
            book.reread(set);
            Reply::Reread(set)
        }
        Task::Answer(ask) => {
            let (reply, change) = answer_of(book, request.party, &request.client, ask);
            apply(book, request.party, &request.client, change);
            reply
        }
    };
    (reply, book.now())
}

/// The numbers of a book, as of so many entries.
pub fn glance<B: Rows>(book: &B, front: u64) -> Glance
    ensures { result ≡ numbers_of (B.seen book.now).sets front (B.seen book.now).state }
{
    Glance {
        front,
        held: book.held(),
        lingering: book.lingering(),
        taken: book.taken(),
        free: book.free(),
        queued: book.queued(),
    }
}
