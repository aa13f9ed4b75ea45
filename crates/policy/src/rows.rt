//! What a book must be able to tell and to change.
ghost use Rattle.std.specs.Prelude.{◌≡◌, true, ◌+◌, ◌<◌, ◌≤◌, find, length};
ghost use Rattle.std.specs.Option.{option_copied};
ghost use Rattle.lic_types.specs.declared.limits.TheConstants.{PARTY_LIMIT};
ghost use Rattle.policy.specs.Books.{Book, rules_now};
ghost use Rattle.options_machine.specs.declared.effect.Effect.TheVariants.{Join, Linger, Reseat, Seat};
ghost use Rattle.options_machine.specs.declared.reply.Charge.TheVariants.{Open};
ghost use Rattle.options_machine.specs.State.{charges, is_holder, is_queuer};
ghost use Rattle.options_machine.specs.Decide.{decide};
ghost use Rattle.options_machine.specs.Settle.{settle, with_queuer, with_seat, with_seat_again};
ghost use Rattle.options_machine.specs.Apply.{Fits, HasSeat, Waits, with_lingerer, with_told, without_holder, without_queuer};
ghost use Rattle.options_machine.specs.Step.{entry_left, position_of, reread};

use lic_types::Client;
use options_machine::{Charge, Decision, Holder, Lingerer, Queuer};

/// The rows of a book: what can be asked of the state of one pool, and each way in which it changes. Whatever keeps
/// them so answers as the options machine does (`step`). None of these calls takes memory.
pub trait Rows {
    /// What is kept: the rule sets, the number of parties, and the machine's state.
    ghost seen: { Self → Book };

    /// Comes to a moment, in seconds since 1970-01-01 UTC: what is over goes, and then the queue is served.
    fn settle(&mut self, moment: u64)
        ensures { seen self.new ≡ record (seen self.old) { state = settle (rules_now (seen self.old)) (seen self.old).state moment } };

    /// The moment, in seconds since 1970-01-01 UTC.
    fn now(&self) -> u64
        ensures { result ≡ (seen self.now).state.now };

    /// The seat of a party; None where it has none.
    fn holder_of(&self, party: u32) -> Option<&Holder>
        requires { party < (seen self.now).parties }
        ensures { option_copied result ≡ find (is_holder party) (seen self.now).state.holders };

    /// The entry in the queue of a party; None where it doesn't wait.
    fn queuer_of(&self, party: u32) -> Option<&Queuer>
        ensures { option_copied result ≡ find (is_queuer party) (seen self.now).state.queue };

    /// What the rules say to a client that wants a seat.
    fn decide(&self, client: &Client) -> Decision
        ensures { result ≡ decide (rules_now (seen self.now)) (seen self.now).state client.now };

    /// The entry as which a holder's seat lingers if it is given back now, where it does.
    fn entry_left(&self, holder: &Holder) -> Option<Lingerer>
        ensures { result ≡ entry_left (rules_now (seen self.now)) (seen self.now).state holder.now };

    /// How many parties have a seat, told of it or not.
    fn held(&self) -> u32
        ensures { result ≡ length (seen self.now).state.holders };

    /// How many seats linger.
    fn lingering(&self) -> u32
        ensures { result ≡ length (seen self.now).state.lingering };

    /// How many parties wait, which are 256 at most.
    fn queued(&self) -> u32
        ensures count { result ≡ length (seen self.now).state.queue }
        ensures few { result ≤ PARTY_LIMIT };

    /// How many seats, held or lingering, are charged to Open.
    fn taken(&self) -> u32
        ensures { result ≡ charges (seen self.now).state Open };

    /// How many seats no RESERVE line of the rule set that holds keeps.
    fn free(&self) -> u32
        ensures { result ≡ (rules_now (seen self.now)).free };

    /// The position of a party that waits, from 1; of another the position behind all of them.
    fn position(&self, party: u32) -> u32
        ensures { result ≡ position_of (seen self.now).state party };

    /// Tells a party of its seat, or hears it, now.
    fn tell(&mut self, party: u32)
        requires party { party < (seen self.old).parties }
        requires seated { HasSeat (seen self.old).state party }
        ensures { seen self.new ≡ record (seen self.old) { state = with_told (seen self.old).state party } };

    /// Takes the party's seat away.
    fn release(&mut self, party: u32)
        requires party { party < (seen self.old).parties }
        requires seated { HasSeat (seen self.old).state party }
        ensures { seen self.new ≡ record (seen self.old) { state = without_holder (seen self.old).state party } };

    /// Takes the party's seat away and lets it linger as this entry, which has its charge.
    fn linger(&mut self, party: u32, entry: &Lingerer)
        requires party { party < (seen self.old).parties }
        requires fits { Fits (rules_now (seen self.old)) (seen self.old).state party entry.now.client (Linger entry.now) }
        ensures { seen self.new ≡ record (seen self.old) { state = with_lingerer (seen self.old).state party entry.now } };

    /// Takes the party out of the queue.
    fn unqueue(&mut self, party: u32)
        requires party { party < (seen self.old).parties }
        requires waits { Waits (seen self.old).state party }
        ensures { seen self.new ≡ record (seen self.old) { state = without_queuer (seen self.old).state party } };

    /// Gives a party that has nothing a seat with the charge that the rules grant, and tells it.
    fn seat(&mut self, party: u32, client: &Client, charge: Charge)
        requires party { party < (seen self.old).parties }
        requires fits { Fits (rules_now (seen self.old)) (seen self.old).state party client.now (Seat charge) }
        ensures { seen self.new ≡ record (seen self.old) { state = with_seat (seen self.old).state party client.now charge true } };

    /// Gives a party that has nothing the first seat that lingers for its client, which has this charge, and tells it.
    fn reseat(&mut self, party: u32, client: &Client, charge: Charge)
        requires party { party < (seen self.old).parties }
        requires fits { Fits (rules_now (seen self.old)) (seen self.old).state party client.now (Reseat charge) }
        ensures { seen self.new ≡ record (seen self.old) { state = with_seat_again (seen self.old).state party client.now charge true } };

    /// Lets a party that has nothing wait, at the end of the queue.
    fn join(&mut self, party: u32, client: &Client)
        requires party { party < (seen self.old).parties }
        requires fits { Fits (rules_now (seen self.old)) (seen self.old).state party client.now Join }
        ensures { seen self.new ≡ record (seen self.old) { state = with_queuer (seen self.old).state (record { party = party; client = client.now }) } };

    /// Makes the rule set of this number hold, and gives all charges anew.
    fn reread(&mut self, set: u32)
        requires { set < length (seen self.old).sets }
        ensures { seen self.new ≡ record (seen self.old) { state = reread (seen self.old).sets (seen self.old).state set } };
}
