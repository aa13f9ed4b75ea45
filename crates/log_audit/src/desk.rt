//! The book of a pool, and what it says of a log's next entry.
ghost use Rattle.std.specs.Prelude.{◌≡◌, ◌-◌, ◌+◌, ◌<◌, ◌^◌, IfOk, MatchOption};
ghost use Rattle.lic_types.specs.declared.limits.TheConstants.{MOMENT_END};
ghost use Rattle.options_machine.specs.Run.{AsksForSet};
ghost use Rattle.log_audit.specs.Desks.{IsExpected, IsNext, IsSmall, Says, moved_by, moved_on, with_next};

use crate::day_sum::Stretch;
use crate::days::Days;
use audit_log::Logged;
use no_memory::NoMemory;
use options_machine::{Kind, Reply, Request};
use policy::{PlainBook, Rows};

/// A pool while its part of a log is judged.
#[derive(Drop)]
pub(crate) struct Desk {
    /// The pool's book, as the entries so far leave it.
    pub(crate) book: PlainBook,
    /// How many entries of the pool there were so far.
    pub(crate) entries: u64,
    /// The days of these entries.
    pub(crate) days: Days,
}

/// What holds in the place of an entry that a desk doesn't make.
#[derive(Clone, Copy)]
pub(crate) struct Expected {
    /// How many entries the pool had before.
    pub(crate) place: u64,
    /// The moment that the machine uses, in seconds since 1970-01-01 UTC.
    pub(crate) moment: u64,
    /// The reply that it gives then.
    pub(crate) reply: Reply,
}

impl Desk {
    /// What holds in the place of an entry for a request.
    fn expect(&mut self, request: &Request, moment: u64) -> Expected
        requires party { request.now.party < self.old.book.parties }
        requires fits { AsksForSet self.old.book.sets request.now }
        ensures says { Says self.old request.now moment result }
        ensures moved { self.new ≡ moved_by self.old request.now moment }
    {
        let (reply, moment) = self.book.step(request, moment);
        Expected {
            place: self.entries,
            moment,
            reply,
        }
    }

    /// Makes the next entry of the pool, where a log's entry is that one; else says what holds in its place, and the
    /// desk is good for nothing more. In the place of a request for a rule set that there isn't, a look holds.
    fn judge(&mut self, entry: &Logged) -> Option<Expected>
        requires party { entry.now.entry.request.party < self.old.book.parties }
        requires few { self.old.entries < 2 ^ 64 - 1 }
        ensures { MatchOption result (IsNext self.old entry.now × (self.new ≡ moved_on self.old entry.now)) (λ expected. (IsNext self.old entry.now → ⊥) × IsExpected self.old entry.now expected) }
    {
        let request = &entry.entry.request;
        let moment = entry.entry.moment;
        if !self.book.has_set(&request.kind) {
            let look = Request {
                party: request.party,
                client: request.client,
                kind: Kind::Look,
            };
            return Some(self.expect(&look, moment));
        }
        let before = self.book.now();
        let expected = self.expect(request, moment);
        if moment < before || entry.place != expected.place || entry.entry.reply != expected.reply {
            return Some(expected);
        }
        self.entries += 1;
        None
    }
    /// Makes the next entry of the pool, where a log's entry is that one, and counts it for its day; else says what
    /// holds in its place, and the desk is good for nothing more.
    pub(crate) fn take(&mut self, entry: &Logged) -> Result<Option<Expected>, NoMemory>
        requires party { entry.now.entry.request.party < self.old.book.parties }
        requires few { self.old.entries < 2 ^ 64 - 1 }
        requires moment { entry.now.entry.moment < MOMENT_END }
        requires small { IsSmall self.old }
        ensures { IfOk result (λ found. MatchOption found (IsNext self.old entry.now × (self.new ≡ with_next self.old entry.now)) (λ expected. (IsNext self.old entry.now → ⊥) × IsExpected self.old entry.now expected)) }
    {
        let stretch = Stretch {
            from: self.book.now(),
            until: entry.entry.moment,
            held: self.book.held(),
        };
        if let Some(expected) = self.judge(entry) {
            return Ok(Some(expected));
        }
        let held = self.book.held();
        self.days
            .count(entry.pool, &stretch, held, &entry.entry.reply)?;
        Ok(None)
    }
}
