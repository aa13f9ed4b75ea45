//! A site of the real system.
ghost use Rattle.std.specs.Prelude.{◌≡◌, ◌+◌, ◌<◌, ℕ, IfOk, List, None, nat_lt, nat_le};
ghost use Rattle.session_outside.specs.Talk.{Counted, Event};
ghost use Rattle.daemon_outside.specs.Doors.{most_fails};
ghost use Rattle.daemon_outside.specs.Sites.{Kept, was_heard};

use crate::clock::SystemClock;
use crate::door::UnixDoor;
use crate::listening::Listening;
use daemon_outside::{Post, SharedBell, Site, SiteFailed};
use session_outside::NoGate;
use std::alloc::{AllocError, Global};
use std::net::Net;
use std::os::unix::net::UnixListener;
use std::rt::{Clock, Files};
use std::sync::Arc;
use std::sync::atomic::AtomicU64;

/// A site of the real system. It listens at one path, with a Unix stream socket, and the bells of its posts ring
/// together.
#[derive(Drop)]
pub struct UnixSite<R: Files + Net + Clock + Clone + Send + Drop> {
    system: R,
    flag: Arc<AtomicU64, Global>,
    listening: Option<Listening>,
    /// How many posts were made.
    made: u32,
    /// How many posts were made and not taken back.
    posted: u64,
    /// How many calls failed.
    faults: u64,
    /// How many posts were given back whose bell was heard at their door.
    tolls: u64,
    /// How many posts were given back whose bell was rung.
    rings: u64,
    /// How many posts were given back whose door was broken.
    broken: u64,
}

impl<R: Files + Net + Clock + Clone + Send + Drop> UnixSite<R> {
    /// A site of this system that listens nowhere yet and has counted nothing. It fails where memory ran out.
    pub fn make(system: R, alloc: Global) -> Result<UnixSite<R>, AllocError>
        ensures listens { IfOk result (λ site. site.listening ≡ None) }
        ensures posts { IfOk result (λ site. (site.made ≡ 0) × (site.posted ≡ 0)) }
        ensures counts { IfOk result (λ site. (site.faults ≡ 0) × (site.tolls ≡ 0) × (site.rings ≡ 0) × (site.broken ≡ 0)) }
    {
        Ok(UnixSite {
            system,
            flag: Arc::new(alloc, AtomicU64::new(0))?,
            listening: None,
            made: 0,
            posted: 0,
            faults: 0,
            tolls: 0,
            rings: 0,
            broken: 0,
        })
    }

    /// Ends the site, and removes the socket file that `listen` made. A site that listens nowhere removes nothing, and
    /// no file is removed that the site didn't bind, also where one took the socket's place since. Where the file can't
    /// be removed it stays, and nothing tells so: the next daemon at the path replaces it.
    pub fn close(self) {
        if let Some(listening) = &self.listening {
            let _ = listening.remove(&self.system);
        }
    }
}

/// What a post of a site is made of.
#[derive(Drop)]
struct PostParts<R: Drop> {
    listener: Option<UnixListener>,
    system: R,
    door_flag: Arc<AtomicU64, Global>,
    bell_flag: Arc<AtomicU64, Global>,
}

/// A copy of the listener, where there is one, of the system and, twice, of the flag.
fn parts<R: Clone + Drop>(
    system: &R,
    listening: &Option<Listening>,
    flag: &Arc<AtomicU64, Global>,
) -> Option<PostParts<R>> {
    let listener = match listening {
        Some(listening) => Some(listening.listener().ok()?),
        None => None,
    };
    let door_flag = Arc::try_clone(flag).ok()?;
    let bell_flag = Arc::try_clone(flag).ok()?;
    match system.clone() {
        Ok(system) => Some(PostParts {
            listener,
            system,
            door_flag,
            bell_flag,
        }),
        Err(_) => None,
    }
}

impl<R: Files + Net + Clock + Clone + Send + Drop> Site for UnixSite<R> {
    type Door = UnixDoor;

    type Clock = SystemClock<R>;

    type Bell = SharedBell;

    type Gate = NoGate;

    ghost path = { λ _. None };

    ghost keeps = { λ _ _. Unit {0} };

    ghost made = { λ s. s.made };

    ghost posted = { λ s. s.posted };

    ghost faults = { λ s. s.faults };

    ghost tolls = { λ s. s.tolls };

    ghost rings = { λ s. s.rings };

    ghost broken = { λ s. s.broken };

    fn listen(&mut self, at: &str) -> Result<(), SiteFailed> {
        if self.listening.is_none()
            && let Ok(listening) = Listening::at(&self.system, at)
        {
            self.listening = Some(listening);
            return Ok(());
        }
        self.faults = self.faults.saturating_add(1);
        Err(SiteFailed)
    }

    fn post(&mut self) -> Result<Post<UnixDoor, SystemClock<R>, SharedBell, NoGate>, SiteFailed> {
        if self.made < u32::MAX
            && self.posted < u64::MAX
            && let Some(parts) = parts(&self.system, &self.listening, &self.flag)
        {
            let number = self.made;
            self.made += 1;
            self.posted += 1;
            return Ok(Post {
                number,
                door: UnixDoor::of(parts.listener, parts.door_flag),
                clock: SystemClock::of(parts.system),
                bell: SharedBell::of(parts.bell_flag),
                gate: NoGate,
            });
        }
        self.faults = self.faults.saturating_add(1);
        Err(SiteFailed)
    }

    fn retire(&mut self, post: Post<UnixDoor, SystemClock<R>, SharedBell, NoGate>)
        requires lent { post.door.lent ≡ 0 }
        requires posted { 0 < self.old.posted }
        ensures posted { self.new.posted + 1 ≡ self.old.posted }
        ensures keeps { (ks : List Kept) (ts : List (List Event)) (ms : List ℕ) → Unit {0} → Unit {0} → Unit {0} → Unit {0} }
        ensures same { (self.new.made ≡ self.old.made) × (self.new.faults ≡ self.old.faults) }
        ensures tolls { Counted (was_heard post.bell.tolls post.door.quiets post.door.faults) self.old.tolls self.new.tolls }
        ensures rings { Counted (nat_lt 0 post.bell.rings) self.old.rings self.new.rings }
        ensures broken { Counted (nat_le most_fails post.door.fails) self.old.broken self.new.broken }
    {
        self.posted -= 1;
        let idle = post.door.was_idle();
        if post.bell.was_heard() && idle {
            self.tolls = self.tolls.saturating_add(1);
        }
        if post.bell.was_rung() {
            self.rings = self.rings.saturating_add(1);
        }
        if post.door.is_broken() {
            self.broken = self.broken.saturating_add(1);
        }
    }
}
