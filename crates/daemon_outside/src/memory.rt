//! The door and the site in memory.
ghost use Rattle.std.specs.Prelude.{◌≡◌, ◌+◌, ◌<◌, ◌||◌, ℕ, List, [], ◌∷◌, ◌++◌, Some, IfOk, IfSome, reverse, false, nat_lt, nat_le, string_bytes};
ghost use Rattle.session_outside.specs.Talk.{Counted, Event};
ghost use Rattle.daemon_outside.specs.Doors.{most_fails};
ghost use Rattle.daemon_outside.specs.Memory.{KeepsEach, GaveMoments, TellsPost, TellsTalks};
ghost use Rattle.daemon_outside.specs.Sites.{Kept, was_heard};

use crate::bell::SharedBell;
use crate::door::{Came, Door, FAIL_LIMIT};
use crate::site::{Post, Site, SiteFailed};
use session_outside::{Gate, MemClock, MemLink};
use std::alloc::{AllocError, Global};
use std::sync::Arc;
use std::sync::atomic::AtomicU64;

/// What comes to a door in memory.
#[derive(Debug, Drop)]
pub enum Knock {
    /// A client, over this link. Where the link keeps some talk already, the accept fails.
    Client(MemLink),
    /// An accept that fails.
    Fault,
}

/// A door in memory. It gives a list of knocks, and then Quiet for ever; it keeps the links that it took back, and
/// tells their talks.
#[derive(Debug, Drop)]
pub struct MemDoor {
    /// What is still to come, the next one last.
    pub knocks: Vec<Knock>,
    /// The links that were taken back, in that order.
    pub kept: Vec<MemLink>,
    /// Whether the room for these was used up; the door tells nothing any more then.
    pub lost: bool,
    /// How many accepts failed.
    pub faults: u64,
    /// How many accepts were Quiet.
    pub quiets: u64,
    /// How many accepts failed since the last link.
    pub fails: u64,
    /// How many links are given and not taken back.
    pub lent: u64,
}

impl MemDoor {
    /// A door to which this comes, in this order, with room for all its links. It fails where memory ran out.
    pub fn make(alloc: Global, knocks: Vec<Knock>) -> Result<MemDoor, AllocError>
        ensures knocks { IfOk result (λ d. d.knocks.items ≡ reverse knocks.items) }
        ensures empty { IfOk result (λ d. (d.kept.items ≡ []) × (d.lost ≡ false)) }
        ensures counts { IfOk result (λ d. (d.faults ≡ 0) × (d.quiets ≡ 0) × (d.fails ≡ 0) × (d.lent ≡ 0)) }
    {
        let mut knocks = knocks;
        knocks.reverse();
        Ok(MemDoor {
            kept: Vec::with_capacity(alloc, knocks.len())?,
            knocks,
            lost: false,
            faults: 0,
            quiets: 0,
            fails: 0,
            lent: 0,
        })
    }

    /// Whether an accept was Quiet or failed, and so the bell looked for.
    pub fn was_idle(&self) -> bool
        ensures { result ≡ (nat_lt 0 self.now.quiets || nat_lt 0 self.now.faults) }
    {
        0 < self.quiets || 0 < self.faults
    }

    /// Whether so many accepts failed since the last link that the door is broken.
    pub fn is_broken(&self) -> bool
        ensures { result ≡ nat_le most_fails self.now.fails }
    {
        FAIL_LIMIT <= self.fails
    }
}

impl Door for MemDoor {
    type Link = MemLink;

    ghost talks = { TellsTalks };

    ghost faults = { λ d. d.faults };

    ghost quiets = { λ d. d.quiets };

    ghost fails = { λ d. d.fails };

    ghost lent = { λ d. d.lent };

    fn accept(&mut self) -> Came<MemLink> {
        match self.knocks.pop() {
            None => {
                self.quiets = self.quiets.saturating_add(1);
                Came::Quiet
            }
            Some(Knock::Client(link)) if link.talk.marks.is_empty() && self.lent < u64::MAX => {
                self.fails = 0;
                self.lent += 1;
                Came::Link(link)
            }
            Some(_) => {
                self.faults = self.faults.saturating_add(1);
                self.fails = self.fails.saturating_add(1);
                Came::Failed
            }
        }
    }

    fn done(&mut self, link: MemLink) {
        self.lent -= 1;
        if self.kept.push(link).is_err() {
            self.lost = true;
        }
    }
}

/// What a post of a site in memory is made of.
#[derive(Debug, Drop)]
pub struct MemPost<G> {
    /// What comes to its door, in this order.
    pub knocks: Vec<Knock>,
    /// The moments that its clock gives, in seconds since 1970-01-01 UTC, its last one again and again. Where there are
    /// none the post can't be made.
    pub moments: Vec<u64>,
    /// Its gate.
    pub gate: G,
}

/// What a site in memory keeps of a post that was given back.
#[derive(Debug, Drop)]
pub struct Retired {
    /// The number of the post.
    pub number: u32,
    /// Its door.
    pub door: MemDoor,
    /// Its clock.
    pub clock: MemClock,
}

/// A site in memory. It listens at its own path alone, gives a list of posts whose bells ring together, and keeps the
/// posts that it took back, and tells of them.
#[derive(Drop)]
pub struct MemSite<G> {
    alloc: Global,
    flag: Arc<AtomicU64, Global>,
    /// Its path.
    pub path: String,
    /// What the posts that are still to come are made of, the next one last.
    pub prepared: Vec<MemPost<G>>,
    /// The posts that were taken back, in that order.
    pub kept: Vec<Retired>,
    /// Whether the room for these was used up; the site tells nothing of them any more then.
    pub lost: bool,
    /// The calls of `listen` and `post` that fail, counted from 0.
    pub failing: Vec<u64>,
    /// How many of these calls there were, modulo 2^64.
    pub calls: u64,
    /// How many posts were made.
    pub made: u32,
    /// How many posts were made and not taken back.
    pub posted: u64,
    /// How many calls failed.
    pub faults: u64,
    /// How many posts were given back whose bell was heard at their door.
    pub tolls: u64,
    /// How many posts were given back whose bell was rung.
    pub rings: u64,
    /// How many posts were given back whose door was broken.
    pub broken: u64,
}

impl<G: Gate + Send + Drop> MemSite<G> {
    /// A site at this path that gives posts made of these, in this order, of which the calls of these numbers, counted
    /// from 0, fail. It has room for all its posts. It fails where memory ran out.
    pub fn make(
        alloc: Global,
        path: String,
        prepared: Vec<MemPost<G>>,
        failing: Vec<u64>,
    ) -> Result<MemSite<G>, AllocError>
        ensures path { IfOk result (λ s. s.path ≡ path) }
        ensures prepared { IfOk result (λ s. s.prepared.items ≡ reverse prepared.items) }
        ensures failing { IfOk result (λ s. (s.failing ≡ failing) × (s.calls ≡ 0)) }
        ensures empty { IfOk result (λ s. (s.kept.items ≡ []) × (s.lost ≡ false)) }
        ensures counts { IfOk result (λ s. (s.made ≡ 0) × (s.posted ≡ 0) × (s.faults ≡ 0) × (s.tolls ≡ 0) × (s.rings ≡ 0) × (s.broken ≡ 0)) }
    {
        let mut prepared = prepared;
        prepared.reverse();
        Ok(MemSite {
            alloc,
            flag: Arc::new(alloc, AtomicU64::new(0))?,
            path,
            kept: Vec::with_capacity(alloc, prepared.len())?,
            prepared,
            lost: false,
            failing,
            calls: 0,
            made: 0,
            posted: 0,
            faults: 0,
            tolls: 0,
            rings: 0,
            broken: 0,
        })
    }
}

/// Whether the call of this number is one that fails; each call counts.
fn call_fails(calls: &mut u64, failing: &[u64]) -> bool {
    let call = *calls;
    *calls = calls.wrapping_add(1);
    failing.contains(&call)
}

/// The door, clock, bell and gate of the post that is made of the last of these, where one is left, it has moments, and
/// memory suffices.
fn parts<G: Drop>(
    alloc: Global,
    flag: &Arc<AtomicU64, Global>,
    prepared: &mut Vec<MemPost<G>>,
) -> Option<(MemDoor, MemClock, SharedBell, G)>
    ensures door { IfSome result (λ p. (p.0.kept.items ≡ []) × (p.0.lost ≡ false) × (p.0.faults ≡ 0) × (p.0.quiets ≡ 0) × (p.0.fails ≡ 0) × (p.0.lent ≡ 0)) }
    ensures clock { IfSome result (λ p. p.1.at ≡ 0) }
    ensures bell { IfSome result (λ p. (p.2.tolls ≡ 0) × (p.2.rings ≡ 0)) }
{
    let MemPost {
        knocks,
        moments,
        gate,
    } = prepared.pop()?;
    if moments.is_empty() {
        return None;
    }
    let door = MemDoor::make(alloc, knocks).ok()?;
    let flag = Arc::try_clone(flag).ok()?;
    Some((door, MemClock::make(moments), SharedBell::of(flag), gate))
}

/// Counts one more where the test holds, up to the counter's last value.
fn count_if(test: bool, count: &mut u64)
    ensures { Counted test count.old count.new }
{
    if test {
        *count = count.saturating_add(1);
    }
}

impl<G: Gate + Send + Drop> Site for MemSite<G> {
    type Door = MemDoor;

    type Clock = MemClock;

    type Bell = SharedBell;

    type Gate = G;

    ghost path = { λ s. Some (string_bytes s.path) };

    ghost keeps = { λ s told. KeepsEach s.lost TellsPost s.kept.items told };

    ghost made = { λ s. s.made };

    ghost posted = { λ s. s.posted };

    ghost faults = { λ s. s.faults };

    ghost tolls = { λ s. s.tolls };

    ghost rings = { λ s. s.rings };

    ghost broken = { λ s. s.broken };

    fn listen(&mut self, at: &str) -> Result<(), SiteFailed> {
        if !call_fails(&mut self.calls, &self.failing) && self.path.as_str() == at {
            return Ok(());
        }
        self.faults = self.faults.saturating_add(1);
        Err(SiteFailed)
    }

    fn post(&mut self) -> Result<Post<MemDoor, MemClock, SharedBell, G>, SiteFailed> {
        if !call_fails(&mut self.calls, &self.failing)
            && self.made < u32::MAX
            && self.posted < u64::MAX
            && let Some((door, clock, bell, gate)) = parts(
                self.alloc,
                &self.flag,
                &mut self.prepared,
            )
        {
            let number = self.made;
            self.made += 1;
            self.posted += 1;
            return Ok(Post {
                number,
                door,
                clock,
                bell,
                gate,
            });
        }
        self.faults = self.faults.saturating_add(1);
        Err(SiteFailed)
    }

    fn retire(&mut self, post: Post<MemDoor, MemClock, SharedBell, G>)
        requires lent { post.door.lent ≡ 0 }
        requires posted { 0 < self.old.posted }
        ensures posted { self.new.posted + 1 ≡ self.old.posted }
        ensures keeps { (ks : List Kept) (ts : List (List Event)) (ms : List ℕ) → KeepsEach self.old.lost TellsPost self.old.kept.items ks → TellsTalks post.door ts → GaveMoments post.clock ms
            → KeepsEach self.new.lost TellsPost self.new.kept.items (ks ++ record { number = post.number; talks = ts; moments = ms } ∷ []) }
        ensures same { (self.new.path ≡ self.old.path) × (self.new.made ≡ self.old.made) × (self.new.faults ≡ self.old.faults) }
        ensures tolls { Counted (was_heard post.bell.tolls post.door.quiets post.door.faults) self.old.tolls self.new.tolls }
        ensures rings { Counted (nat_lt 0 post.bell.rings) self.old.rings self.new.rings }
        ensures broken { Counted (nat_le most_fails post.door.fails) self.old.broken self.new.broken }
    {
        self.posted -= 1;
        count_if(
            post.bell.was_heard() && post.door.was_idle(),
            &mut self.tolls,
        );
        count_if(post.bell.was_rung(), &mut self.rings);
        count_if(post.door.is_broken(), &mut self.broken);
        let retired = Retired {
            number: post.number,
            door: post.door,
            clock: post.clock,
        };
        if self.kept.push(retired).is_err() {
            self.lost = true;
        }
    }
}
