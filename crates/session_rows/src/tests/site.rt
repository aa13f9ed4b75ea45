//! An office of one desk in memory, on which the tests hold sessions.
ghost use Rattle.std.specs.Prelude.{◌≡◌, ◌∷◌, [], IfOk, None, vec_len};
ghost use Rattle.options_machine.specs.Law.{AreSets};
ghost use Rattle.options_machine.specs.State.{set_at};
ghost use Rattle.options_machine.specs.Step.{set_asked};
ghost use Rattle.turn_lock.specs.Passes.{unused_lock_pass};
ghost use Rattle.session_rows.specs.Office.{IsManned};

use crate::{LoggedBook, TurnCounter};
use feature_lines::Pool;
use lic_types::{Client, Expiry, Name, Version};
use office_view::{OfficeView, PoolList};
use options_machine::{Entry, Kind, Request};
use options_text::read_options;
use policy::{DeskRules, PlainBook, are_sets};
use session::{Buffers, SessionEnd, serve_session};
use session_outside::{Feed, Mark, MemBell, MemClock, MemLink, NoGate, Talk};
use std::alloc::{AllocError, Global};
use std::process::Abort;
use std::sync::Wait;
use std::test::Fail;
use turn_lock::{NoMemory, TurnPass, Turns};

/// How many parties each desk has.
const PARTIES: u32 = 2;

/// For how many entries a desk's log has room.
const LOG_ROOM: usize = 64;

/// The name of this text.
pub(crate) fn name(text: &[u8]) -> Result<Name, Fail> {
    Ok(Name::read(text)?)
}

/// The pool of `FEATURE edit acme 2.0 permanent count`.
fn pool(count: u32) -> Result<Pool, Fail> {
    Ok(Pool {
        name: name(b"edit")?,
        version: Version { key: 2_000_000_000 },
        version_text: name(b"2.0")?,
        vendor: name(b"acme")?,
        expiry: Expiry::Never,
        count,
        line: 1,
    })
}

/// A list of one.
fn only<T: Drop>(alloc: Global, item: T) -> Result<Vec<T>, AllocError>
    ensures { IfOk result (λ items. items.items ≡ item ∷ []) }
{
    let mut items = Vec::with_capacity(alloc, 1)?;
    items.push_reserved(item);
    Ok(items)
}

/// The rules of an options file, for this pool.
fn rules_of(rt: &(impl Abort + AllocGlobal), file: &[u8], pool: &Pool) -> Result<DeskRules, Fail> {
    assert!(rt; file.len() < 1 << 32);
    let options = read_options(rt.alloc(), file)?;
    Ok(DeskRules::of(rt.alloc(), &options, pool)?)
}

/// The rule sets of these options files, for this pool.
fn rule_sets(
    rt: &(impl Abort + AllocGlobal),
    files: &[&[u8]],
    pool: &Pool,
) -> Result<Vec<DeskRules>, Fail>
    ensures { IfOk result (λ sets. AreSets sets.items (set_at sets.items 0).count) }
{
    let mut sets = Vec::new(rt.alloc());
    for file in files {
        sets.push(rules_of(rt, file, pool)?)?;
    }
    assert!(rt; are_sets(sets.as_slice()));
    Ok(sets)
}

/// The seats that the first rule set keeps for no line.
fn first_free(sets: &[DeskRules]) -> u32
    requires { AreSets sets.now (set_at sets.now 0).count }
    ensures { result ≡ (set_at sets.now 0).free }
{
    sets[0].free()
}

/// The passes of two parties.
fn pair(mut passes: Vec<TurnPass<LoggedBook>>) -> (TurnPass<LoggedBook>, TurnPass<LoggedBook>)
    requires { vec_len passes ≡ 2 }
    ensures { passes.items ≡ result.0 ∷ result.1 ∷ [] }
{
    let second = passes.pop().unwrap();
    let first = passes.pop().unwrap();
    (first, second)
}

/// A desk, and the passes of its two parties.
fn new_desk(
    alloc: Global,
    sets: Vec<DeskRules>,
) -> Result<
    (
        Turns<LoggedBook>,
        TurnPass<LoggedBook>,
        TurnPass<LoggedBook>,
    ),
    NoMemory,
>
    requires { AreSets sets.items (set_at sets.items 0).count }
    ensures sets { IfOk result (λ r. r.0.law.sets ≡ sets.items) }
    ensures parties { IfOk result (λ r. (r.0.id.parties ≡ 2) × (r.0.law.parties ≡ 2)) }
    ensures passes { IfOk result (λ r. (r.1 ≡ unused_lock_pass r.0 0) × (r.2 ≡ unused_lock_pass r.0 1)) }
{
    let book = PlainBook::make_many(alloc, sets, PARTIES)?;
    let log = Vec::with_capacity(alloc, LOG_ROOM)?;
    match Turns::make(alloc, LoggedBook { book, log }, PARTIES) {
        Ok((desk, passes)) => {
            let (first, second) = pair(passes);
            Ok((desk, first, second))
        }
        Err((no_memory, _book)) => Err(no_memory),
    }
}

/// What a session did.
#[derive(Drop)]
pub(crate) struct Served {
    /// How it ended.
    pub(crate) end: SessionEnd,
    /// All bytes that were written, those of failed writes too.
    pub(crate) text: Vec<u8>,
    /// How often the bell was rung.
    pub(crate) rings: u64,
}

/// An office of one desk: a counter of its first party, and the pass of the second.
#[derive(Drop)]
pub(crate) struct Site {
    office: OfficeView<Turns<LoggedBook>>,
    counters: Vec<TurnCounter>,
    other: TurnPass<LoggedBook>,
}

impl Site {
    /// A new office, with the rule sets of these options files, and so many licences.
    pub(crate) fn open(
        rt: &(impl Abort + AllocGlobal),
        files: &[&[u8]],
        count: u32,
    ) -> Result<Site, Fail>
        ensures { IfOk result (λ site. IsManned site.counters.items site.other site.office) }
    {
        let pool = pool(count)?;
        let sets = rule_sets(rt, files, &pool)?;
        let free = first_free(sets.as_slice());
        let many = sets.len() as u32;
        let (desk, first, other) = new_desk(rt.alloc(), sets)?;
        let pools = PoolList::of(rt.alloc(), only(rt.alloc(), pool)?)?;
        let desks = only(rt.alloc(), desk)?;
        let counters = only(rt.alloc(), TurnCounter::of(first, free))?;
        Ok(Site {
            office: OfficeView::of(pools, desks, many),
            counters,
            other,
        })
    }

    /// A session of the first party.
    pub(crate) fn serve(
        &mut self,
        rt: &(impl Abort + AllocGlobal + Wait),
        feeds: Vec<Feed>,
        failing: &[u64],
        moments: &[u64],
        answers: &[bool],
    ) -> Result<Served, Fail>
        requires { IsManned self.old.counters.items self.old.other self.old.office }
        ensures { IsManned self.new.counters.items self.new.other self.new.office }
    {
        assert!(rt; !moments.is_empty() && !answers.is_empty());
        let talk = Talk::make(rt.alloc(), 1_000, 10_000)?;
        let failing = Vec::from_slice(rt.alloc(), failing)?;
        let mut link = MemLink::make(feeds, failing, talk);
        let mut clock = MemClock::make(Vec::from_slice(rt.alloc(), moments)?);
        let mut bell = MemBell::make(Vec::from_slice(rt.alloc(), answers)?);
        let mut room = Buffers::make();
        let end = serve_session(
            rt,
            &self.office,
            &mut self.counters,
            &mut link,
            &mut clock,
            &mut NoGate,
            &mut bell,
            &mut room,
        );
        Ok(Served {
            end,
            text: written(rt, &link.talk)?,
            rings: bell.rings,
        })
    }

    /// One request of the second party at moment 0, where it asks anything.
    pub(crate) fn ask_other(&mut self, rt: &impl Wait, client: &Client, kind: Kind, asks: bool)
        requires manned { IsManned self.old.counters.items self.old.other self.old.office }
        requires fits { set_asked kind ≡ None }
        ensures { IsManned self.new.counters.items self.new.other self.new.office }
    {
        if asks {
            let request = Request {
                party: 1,
                client: *client,
                kind,
            };
            self.office.desk(0).ask(rt, &mut self.other, &request, 0);
        }
    }

    /// Closes the desk, and gives its entries.
    pub(crate) fn close(self, alloc: Global) -> Result<Vec<Entry>, AllocError>
        requires { IsManned self.counters.items self.other self.office }
    {
        let Site {
            office,
            mut counters,
            other,
        } = self;
        let mut passes = Vec::with_capacity(alloc, 2)?;
        let first = counters.pop().unwrap();
        passes.push_reserved(first.into_pass());
        passes.push_reserved(other);
        let mut desks = office.into_desks();
        let desk = desks.pop().unwrap();
        let (book, _calls) = desk.close(passes);
        Ok(book.log)
    }
}

/// All bytes that were written, those of failed writes too.
fn written(rt: &impl AllocGlobal, talk: &Talk) -> Result<Vec<u8>, Fail> {
    let mut text = Vec::new(rt.alloc());
    let mut rest = talk.bytes.as_slice();
    for mark in talk.marks.as_slice() {
        let (len, is_ours) = match mark {
            Mark::Heard(len) => (*len, false),
            Mark::Wrote(len) | Mark::WriteFault(len) => (*len, true),
            Mark::Silence | Mark::Ended | Mark::ReadFault => (0, false),
        };
        let (piece, later) = rest.split_at(len.min(rest.len()));
        if is_ours {
            text.extend_from_slice(piece)?;
        }
        rest = later;
    }
    Ok(text)
}
