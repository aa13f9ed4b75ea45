ghost use Rattle.std.specs.Prelude.{◌≡◌, ◌-◌, ◌<◌, ◌^◌, length};
ghost use Rattle.options_machine.specs.Run.{AsksForSet};
ghost use Rattle.scripts.specs.PoolRuns.{entered_at, places_with, run_walk, says_place, served_at};
ghost use Rattle.scripts.specs.Script.{request_of};
ghost use Rattle.scripts.specs.Walk.{is_kept, is_named};

use feature_lines::Pool;
use lic_types::{NameRef, PARTY_LIMIT};
use options_machine::{Reply, Request};
use script_text::ScriptLine;
use seat_book::Book;

/// How many parties a script may speak of.
pub(crate) const PARTIES: usize = PARTY_LIMIT as usize;

/// A pool while a script is played: its book, and what the lines so far left there.
#[derive(Drop)]
pub(crate) struct PoolRun {
    pub(crate) pool: Pool,
    pub(crate) book: Book,
    /// How many entries were made there.
    pub(crate) entries: u64,
    /// Which parties keep a place there: those whose standing reply is of holding or of queueing.
    pub(crate) places: [bool; PARTIES],
}

/// Whether a reply says that its party holds a seat, or waits for one.
fn keeps_place(reply: &Reply) -> bool
    ensures { result ≡ says_place reply.now }
{
    reply.is_of_holding() || reply.is_of_queueing()
}

/// Notes whether the party of a line keeps a place after a reply. A line that asks for a rule set moves no party's
/// place.
fn note_place(places: &mut [bool; PARTIES], line: &ScriptLine<'_>, reply: &Reply)
    requires party { line.now.party < PARTY_LIMIT }
    ensures { places.new ≡ places_with places.old line.now reply.now }
{
    if line.kind().set_asked().is_none() {
        places[line.party() as usize] = keeps_place(reply);
    }
}

/// The request of a line.
fn request_of(line: &ScriptLine<'_>) -> Request
    ensures { result ≡ request_of line.now }
{
    Request {
        party: line.party(),
        client: line.client(),
        kind: line.kind(),
    }
}

impl PoolRun {
    /// Whether the pool is of the name.
    pub(crate) fn is_named(&self, name: &NameRef<'_>) -> bool
        ensures { result ≡ is_named run_walk name.now self.now }
    {
        self.pool.name.bytes() == name.bytes()
    }

    /// Whether the pool is of the name and the party keeps a place there.
    pub(crate) fn keeps(&self, name: &NameRef<'_>, party: u32) -> bool
        ensures { result ≡ is_kept run_walk name.now party self.now }
    {
        self.is_named(name) && self.places.get(party as usize).copied().unwrap_or(false)
    }

    /// Makes the entry of a line, and gives its reply.
    pub(crate) fn enter(&mut self, line: &ScriptLine<'_>) -> Reply
        requires party { line.now.party < PARTY_LIMIT }
        requires parties { self.old.book.parties ≡ PARTY_LIMIT }
        requires fits { AsksForSet self.old.book.sets (request_of line.now) }
        requires few { self.old.entries < 2 ^ 64 - 1 }
        ensures entered { self.new ≡ entered_at line.now self.old }
        ensures reply { result ≡ (served_at line.now self.old).0 }
    {
        let (reply, _) = self.book.step(&request_of(line), line.moment());
        self.entries += 1;
        note_place(&mut self.places, line, &reply);
        reply
    }
}
